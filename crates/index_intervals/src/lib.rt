//! Bounds of the frequencies of longer lists in intervals of documents: of an opened index, or of
//! any lists.
#![tactic(auto)]

mod maxima;
mod taking;

pub use maxima::IndexMaxima;
pub use taking::ListMaxima;
