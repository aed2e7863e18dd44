//! The three files of the collection of an index, written while they are read from it: one piece of
//! a file is held at a time, and no list.
#![tactic(auto)]

mod files;
mod sequences;

pub use files::write_collection;
