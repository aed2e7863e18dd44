//! The directory of a sequence in parts: a part is found, and held to be read.
#![tactic(auto)]

mod alone;
mod directory;
mod finding;
mod galloping;
mod held;
mod part;
mod words_kept;

pub use alone::Alone;
pub use directory::Directory;
pub use galloping::{Lasts, gallop};
pub use held::HeldPart;
pub use part::Part;
