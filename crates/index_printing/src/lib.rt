//! What is printed of an opened index: the line that sums it up, the lines of its audit, and the
//! text of a generated collection.
#![tactic(auto)]

mod audit;
mod generated_text;
mod printing;

pub use audit::print_audit;
pub use generated_text::print_generated;
pub use printing::print_summary;
