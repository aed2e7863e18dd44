ghost use Rattle.std.specs.Prelude.{◌≡◌, []};
ghost use Rattle.collection_model.specs.Collection.{WellFormed};
ghost use Rattle.command_model.specs.FoundMap.{remap_numbers};

use crate::names::FileNames;
use collection_reader::Collection;
use word_files::PieceWriter;

/// The three files of an image, which are to be written: the image, their names, and the room of a
/// piece.
#[derive(Drop)]
pub struct ImageFiles {
    pub(crate) image: Collection,
    pub(crate) names: FileNames,
    pub(crate) writer: PieceWriter,
    pub(crate) ghost well_formed: { WellFormed remap_numbers image },
    pub(crate) ghost nothing: { writer ≡ [] },
}
