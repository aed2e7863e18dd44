//! The lists of an opened index in blocks: the parts of their documents.
#![tactic(auto)]

mod laws;
mod side;
mod source;
mod starts;

pub use laws::side_files_fit;
pub use side::index_side_words;
pub use source::{IndexBlocks, IndexCursor};
pub use starts::block_starts;
