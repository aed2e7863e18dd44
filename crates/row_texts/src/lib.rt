//! The lines of tables of rows, read: what runs are given, and what has to stand after them.
#![tactic(auto)]

mod blocks;
mod calls;
mod combinations;
mod faults;
mod files;
mod given;
mod heads;
mod items;
mod lines;
mod lists;
mod names;
mod texts;
mod turns;
mod wanted;

pub use blocks::Block;
pub use calls::{Call, Group, SLOTS, Slot};
pub use combinations::Loops;
pub use faults::Fault;
pub use files::{FileList, Files, Place, is_change};
pub use given::{Given, Words};
pub use heads::Head;
pub use items::length_of;
pub use lines::{Line, first_word, lines_of};
pub use lists::has_name;
pub use names::Names;
pub use turns::{Damage, Damages, Each};
pub use wanted::{Left, Told, Wanted};
