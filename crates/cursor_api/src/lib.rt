//! A cursor over a posting list.
#![tactic(auto)]

mod blank;
mod cursor;
mod laws;
mod plain;

pub use blank::BlankCursor;
pub use cursor::DocCursor;
pub use laws::{first_is_at_the_next_place, next_geq_is_first};
pub use plain::PlainCursor;
