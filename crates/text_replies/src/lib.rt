//! Query texts that are answered: the reply to each line, as soon as the bytes that end it are
//! read.
#![tactic(auto)]

mod lines;
mod text;

pub use line_replies::{IntervalLists, SideLists};
pub use text::{RunFault, answer_by_blocks, answer_by_intervals, answer_joined, answer_text};
pub use topk_pruning::Plan;
