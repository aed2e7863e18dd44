//! What a process does with the words that it was given, over any devices and those of the system.
#![tactic(auto)]

mod on_host;
mod processing;
mod words;

pub use on_host::run_process;
pub use processing::process;
