//! A held piece of a slot, and the bytes and the numbers of four bytes that are taken from it.
#![tactic(auto)]

mod four_bytes;
mod held;

pub use four_bytes::number_at;
pub use held::Held;
