ghost use Rattle.std.specs.Prelude.{◌≡◌};
ghost use Rattle.command_model.specs.FilesWritten.{AreApart};
ghost use Rattle.remapped_files.specs.MakeImage.{MakesImage, files_made, files_of};
ghost use Rattle.remapped_files.specs.WriteImage.{WritesFiles};

use crate::files::ImageFiles;
use crate::giving::LentImage;
use crate::names::names_under;
use crate::writing::{FileFail, write_files};
use collection_model::files_spell_one_collection;
use collection_reader::{CollError, Fault, files_have_one_first_fault, read_collection};
use io_traits::{Depot, Slot};
use no_memory::NoMemory;
use part_cost::{Format, formats_have_room};
use remap::{
    MapError, MapFault, image_is_well_formed, maps_have_one_first_fault, read_map, reorder,
};
use std::alloc::Global;
use word_files::PieceWriter;

/// Why no files of an image were made.
#[derive(Clone, Copy, Debug, PartialEq, Eq)]
pub enum ImageError {
    /// The files of the collection break a rule: the first that breaks.
    Broken(Fault),
    /// The map breaks a rule: the first that breaks.
    BrokenMap(MapFault),
    /// A start or a read of this slot failed.
    Read(Slot),
    /// Memory was refused, here or by the depot.
    NoMemory,
}

impl From<CollError> for ImageError {
    ghost use Rattle.remapped_files.specs.MakeImage.{image_error};

    ghost from_gives = { λ e answer. answer ≡ image_error e };

    fn from(e: CollError) -> ImageError {
        match e {
            CollError::Broken(fault) => ImageError::Broken(fault),
            CollError::Read(slot) => ImageError::Read(slot),
            CollError::NoMemory => ImageError::NoMemory,
        }
    }
}

impl From<MapError> for ImageError {
    ghost use Rattle.remapped_files.specs.MakeImage.{map_error};

    ghost from_gives = { λ e answer. answer ≡ map_error e };

    fn from(e: MapError) -> ImageError {
        match e {
            MapError::Broken(fault) => ImageError::BrokenMap(fault),
            MapError::Read => ImageError::Read(Slot::Map),
            MapError::NoMemory => ImageError::NoMemory,
        }
    }
}

impl From<NoMemory> for ImageError {
    ghost use Rattle.remapped_files.specs.declared.image.ImageError.TheVariants as image;

    ghost from_gives = { λ _ answer. answer ≡ image.NoMemory };

    fn from(_e: NoMemory) -> ImageError {
        ImageError::NoMemory
    }
}

/// The files, under the base `to`, of the image of the collection whose files are BASE.docs,
/// BASE.freqs and BASE.sizes, in the order of its documents that the file `map` has. The collection
/// is read with the limits of the second format, and the map once it is accepted.
pub fn image_files<D: Depot>(
    alloc: Global,
    base: &str,
    map: &str,
    to: &str,
    depot: &mut D,
) -> Result<ImageFiles, ImageError>
    ensures { MakesImage base.now map.now to.now (D.state depot.old) (D.state depot.new)
        (files_made result) }
{
    formats_have_room();
    files_have_one_first_fault();
    maps_have_one_first_fault();
    files_spell_one_collection();
    image_is_well_formed();
    let collection = read_collection(alloc, base, depot, Format::Two)?;
    let order = read_map(alloc, map, collection.documents, depot)?;
    let image = reorder(alloc, collection, &order)?;
    Ok(ImageFiles {
        image,
        names: names_under(alloc, to)?,
        writer: PieceWriter::new(alloc)?,
    })
}

/// Writes the three files, that of documents first, each piece by piece as it is spelled. It takes
/// no memory of its own. A file that was begun and is refused keeps what was written, and stays the
/// one that is being written.
pub fn write_image<D: Depot>(files: ImageFiles, depot: &mut D) -> Result<(), FileFail>
    requires { AreApart (files_of files) }
    ensures { WritesFiles (files_of files) (D.state depot.old) (D.state depot.new) result }
{
    let ImageFiles {
        image,
        names,
        mut writer,
    } = files;
    let image = LentImage { image: &image };
    write_files(&image, &names, &mut writer, depot)
}
