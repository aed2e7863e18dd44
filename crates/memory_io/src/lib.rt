//! Sources, sinks and files in memory: steady ones, and ones whose calls fail where they are told
//! to.
#![tactic(auto)]

mod asked;
mod calls;
mod failing;
mod failing_depot;
mod files;
mod opened;
mod steady;
mod steady_depot;

pub use calls::Op;
pub use failing::{MemSink, MemSource};
pub use failing_depot::MemDepot;
pub use steady::{SteadySink, SteadySource};
pub use steady_depot::SteadyDepot;
