//! What an opened index stands for, or several joined to one, read back as plain numbers: the
//! postings of a list, and the sizes of the documents.
#![tactic(auto)]

mod joined;
mod lists;
mod part;
mod sizes;
mod source;
mod turn;

pub use joined::JoinedIndexes;
pub use lists::read_list;
pub use source::{ListSource, ReadLists};
pub use turn::{IndexLists, JoinedLists};
