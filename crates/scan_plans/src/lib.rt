//! Scans of cursors: the documents of all the lists, those of any, and the best of them.
#![tactic(auto)]

mod docs;
mod gathered;
mod laws;
mod scan;
mod skips;
mod top;
mod top_k;
mod window;

pub use docs::{and_docs, or_docs};
pub use laws::{frequent_postings_score, top_list_has_a_floor, top_list_is_one, top_list_is_short};
pub use skips::{cursors_stand, cursors_tell, top_list_grows, top_list_grows_in_any_order};
pub use top::{count_postings, most_found, top_exhaustive};
pub use top_k::TopK;
pub use window::{Block, Window, add_list, new_marks, new_scores, scored_words, take_candidate};
