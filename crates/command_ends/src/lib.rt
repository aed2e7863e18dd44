//! What a command reads and makes, and the step that loads and checks an index.
#![tactic(auto)]

mod devices;
mod limits;
mod loading;

pub use devices::Devices;
pub use limits::{LONGEST_TEXT, words_fit};
pub use loading::{load_index, load_index_words, open_index_words};
