//! The words of an index: of a collection's files, of a generated collection, of another index, and
//! of several.
#![tactic(auto)]

mod build;
mod generate;
mod migrate;

pub use build::{BuildError, build_words};
pub use generate::generated_words;
pub use migrate::{collected_words, migrated_words};
