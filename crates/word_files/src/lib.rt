//! Files that are loaded as words from a slot, and files that are written: of words, or of numbers
//! that are given one by one.
#![tactic(auto)]

mod loading;
mod piece;
mod writing;

pub use loading::{LoadWordsError, load_words};
pub use piece::PieceWriter;
pub use writing::write_words;
