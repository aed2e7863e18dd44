//! The bits of one packed list.
#![tactic(auto)]

mod check;
mod gamma;
mod list_laws;
mod sink;
mod view;
mod write;

pub use check::{check_list, check_list_into};
pub use gamma::{GammaRead, gamma_before, gamma_codes, put_gamma};
pub use list_laws::{lists_are_short, lists_state_back, one_packed_list};
pub use sink::{ListHead, ListRoom, ListSink, NoLists};
pub use view::{ListRead, ListViews, read_list, view_list};
pub use write::{ListParts, write_list};
