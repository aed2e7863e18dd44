//! How a program calls the store as a library: words are opened, a list is walked, a plan is asked,
//! and an index is built of a list. Each is a caller of a few lines that meets what the store asks
//! of it; docs/CALLING.md goes through them.
#![tactic(auto)]

mod asking;
mod building;
mod opening;
#[cfg(test)]
mod tests;
mod walking;

pub use asking::best_of_two;
pub use building::index_of_list;
pub use opening::counts;
pub use walking::occurrences;
