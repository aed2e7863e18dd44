//! The reply to a query line, from the posting lists of an index or of several indexes as one, each
//! with the maxima of their lists or without, or of an index with its side file.
//!
//! [`reply_to`] parses a line, asks for a cursor for each term, and spells what the plans of
//! `scan_plans` and `topk_pruning` find. What it asks is a [`TermLists`]: `indexed`, `blockwise`,
//! `intervals` and `joined` have one each. [`LineCursors`] is the room for the cursors of a line,
//! which the next line uses again.
#![tactic(auto)]

mod blockwise;
mod indexed;
mod intervals;
mod joined;
mod lists;
mod reply;
mod term_cursors;

pub use blockwise::SideLists;
pub use indexed::IndexLists;
pub use intervals::{IntervalLists, JoinedIntervals};
pub use joined::JoinedLists;
pub use lists::{LineCursors, TermLists};
pub use reply::reply_to;
pub use term_cursors::cursors_of;
