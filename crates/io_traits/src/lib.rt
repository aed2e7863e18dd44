//! What the store knows of the outside: sources, sinks and files under names, and what is done by
//! them.
#![tactic(auto)]

mod fail;
mod helpers;
mod load;
mod per_slot;
mod traits;

pub use fail::{IoFail, Slot};
pub use helpers::{depot_write_all, write_all_own};
pub use load::{LoadError, fill_piece, load_bytes};
pub use per_slot::PerSlot;
pub use traits::{Depot, Sink, Source};
