//! The program, over any depot, input and outputs.
#![tactic(auto)]

mod laws;
mod top;

pub use command_ends::Devices;
pub use index_building::{BuildError, build_words};
pub use laws::{
    built_files_answer, built_files_come_back, commands_end_by_the_table, merged_files_answer,
    merged_files_come_back, migrated_files_answer, migrated_files_come_back,
};
pub use outcomes::Status;
pub use text_replies::{Plan, RunFault, answer_joined, answer_text};
pub use top::{run, run_uncounted};
pub use topk_pruning::plan_top;
