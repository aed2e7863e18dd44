//! Words as a list of bits: written at its end, and read by fields and by the places of the ones.
#![tactic(auto)]

mod fields;
mod laws;
mod ones;
mod reader;
mod writer;

pub use fields::Fields;
pub use laws::{fields_of_bits, words_are_bits};
pub use ones::Ones;
pub use reader::Bits;
pub use writer::BitWriter;
