//! Several collections as one.
#![tactic(auto)]

mod cursor;
mod laws;
mod part;
mod parts;
mod pushed;

pub use cursor::JoinedCursor;
pub use laws::{joined_is_well_formed, joined_lists_follow, ranges_are_joined};
pub use pushed::{Joining, SegRule, Segments};
