//! Files that are lent as bytes, and read from there without a copy.
#![tactic(auto)]

mod depot;
#[cfg(test)]
mod tests;

pub use depot::{LentFile, LentFiles};
