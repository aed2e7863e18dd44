//! Block-max WAND: posting lists in blocks, the side file of their greatest frequencies, and the
//! plan that passes over blocks whose frequencies are too low.
#![tactic(auto)]

mod cursor;
mod fault;
mod laws;
mod side;
mod source;
mod top;

pub use cursor::{BlockCursor, SideCursor};
pub use fault::{SideCheck, SideFault};
pub use laws::{blocks_cover_a_list, one_side_fault};
pub use side::{Side, side_words};
pub use source::BlockSource;
pub use top::top_blockmax;
