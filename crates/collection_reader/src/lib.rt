//! Reads a collection from its three files: into plain lists, or list by list.
#![tactic(auto)]

mod collection;
mod fault;
mod held;
mod laws;
mod phase;
mod position;
mod reader;
mod sequences;
mod start;
mod whole;

pub use collection::Collection;
pub use fault::{CollError, Fault, Rule};
pub use laws::{
    files_have_one_first_fault, lists_are_read_in_turn, no_fault_means_spelled,
    no_head_fault_means_prefix, second_format_never_has_too_many_documents,
    spelled_files_have_no_fault,
};
pub use reader::ListReader;
pub use whole::read_collection;
