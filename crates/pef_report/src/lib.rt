//! The summary of an index, the lines of its audit, and the lists of a generated collection.
#![tactic(auto)]

mod audit;
mod counts;
mod draws;
mod generate;
mod laws;
mod sizes;
mod summing;

pub use audit::{audit_end, audit_line};
pub use counts::Counts;
pub use generate::Gen;
pub use laws::generated_are_well_formed;
pub use sizes::document_sizes;
pub use summing::summary;
