//! The places of a directory of lists: a bit for each list, and a number for each that has an end
//! of its own.
#![tactic(auto)]

mod places;
mod source;

pub use places::{AllPlaces, Places};
pub use source::PlaceSource;
