//! The image of a collection in a given order of its documents.
#![tactic(auto)]

mod fault;
mod image;
mod laws;
mod permutation;
mod reading;
mod spelling;

pub use fault::{MapError, MapFault, MapRule};
pub use image::{apply, reorder};
pub use laws::{
    image_is_well_formed, maps_have_one_first_fault, matches_are_images, one_image, scores_stay,
    undone_image,
};
pub use permutation::Permutation;
pub use reading::read_map;
pub use spelling::{spell_docs, spell_freqs, spell_sizes};
