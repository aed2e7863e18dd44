//! A posting list as two sequences in parts, its documents and the sums of its frequencies, and a
//! cursor over them.
#![tactic(auto)]

mod cursor;
mod first;
mod laws;
mod sums;
mod write;

pub use cursor::PostingCursor;
pub use first::first_posting;
pub use laws::{
    cursors_stand_in_lists, sequences_are_a_list, sequences_give_their_list,
    sequences_of_a_list_rise,
};
pub use write::{CutSequence, doc_values, freq_sums, write_postings, write_sequences};
