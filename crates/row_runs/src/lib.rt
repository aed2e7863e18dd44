//! The runs of tables of rows, made over objects in memory by a program, and compared with what has
//! to stand after them.
#![tactic(auto)]

mod comparing;
mod driving;
mod playing;
mod quiet;
mod rows;
mod runs;
mod shown;
mod tables;
mod tallies;

pub use driving::check_tables;
pub use runs::{Objects, Outcome, Program};
