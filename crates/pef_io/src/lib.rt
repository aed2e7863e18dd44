//! The outside as one crate: its traits, and their forms in memory and of the system.
#![tactic(auto)]

pub use io_traits::{
    Depot, IoFail, LoadError, Sink, Slot, Source, depot_write_all, fill_piece, load_bytes,
    write_all_own,
};
pub use memory_io::{MemDepot, MemSink, MemSource, Op, SteadyDepot, SteadySink, SteadySource};
pub use system_io::{StdDepot, StdSink, StdSource};
