//! The words of the command line, and the command that they ask for.
#![tactic(auto)]

mod error;
mod parsing;
mod table;
mod words;

pub use error::WordsError;
pub use parsing::parse_words;
pub use words::{Command, FileKind};
