//! An index with the words of its file, which are found to be one once and are never checked again.
#![tactic(auto)]

mod open;

pub use open::{CheckedWords, OpenIndex};
