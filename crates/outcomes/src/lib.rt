//! How a run ends: its outcome, with its status and its line on err.
#![tactic(auto)]

mod err_lines;
mod status;
mod stop;

pub use err_lines::write_line;
pub use status::Status;
pub use stop::{
    Stop, after_answering, after_printing, after_writing, after_writing_files, stop_of_loading,
};
