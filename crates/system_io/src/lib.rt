//! Sources, sinks and files of the system, where a file is replaced whole.
#![tactic(auto)]

mod names;
mod replaced;
mod standard;
mod started;

pub use standard::{StdDepot, StdSink, StdSource};
