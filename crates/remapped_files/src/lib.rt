//! The files of the image of a collection in another order of its documents: the image is made in
//! memory, and they are written one after the other, a piece of a file at a time.
#![tactic(auto)]

mod files;
mod giving;
mod image;
mod names;
mod writing;

pub use files::ImageFiles;
pub use image::{ImageError, image_files, write_image};
pub use names::{FileNames, names_under};
pub use writing::{FileFail, GivesFiles, write_files};
