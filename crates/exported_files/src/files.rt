ghost use Rattle.std.specs.Prelude.{◌≡◌, [], IsTrue};
ghost use Rattle.collection_model.specs.Spelling.{spelled};
ghost use Rattle.command_model.specs.FilesWritten.{AreApart};
ghost use Rattle.remapped_files.specs.NamedFiles.{bytes_of, files_named};
ghost use Rattle.remapped_files.specs.WriteImage.{WritesFiles};
ghost use Rattle.word_files.specs.Given.{Gives};

use crate::sequences::{give_docs, give_freqs, give_sizes};
use index_file::Index;
use io_traits::{Depot, IoFail, Slot};
use remapped_files::{FileFail, FileNames, GivesFiles, write_files};
use word_files::PieceWriter;

// An index whose collection is given, lent.
#[derive(Drop)]
struct Exported<'l, 'w> {
    index: &'l Index<'w>,
}

impl<'l, 'w, D: Depot> GivesFiles<D> for Exported<'l, 'w> {
    ghost files = { λ s. spelled s.index.now.collection };

    fn give_file(&self, slot: Slot, writer: &mut PieceWriter, depot: &mut D) -> Result<(), IoFail> {
        match slot {
            Slot::Docs => give_docs(self.index, writer, depot),
            Slot::Freqs => give_freqs(self.index, writer, depot),
            _ => give_sizes(self.index, writer, depot),
        }
    }
}

/// Writes the three files of the collection of an index, that of documents first, by a writer that
/// holds nothing. It takes no memory of its own. A file that was begun and is refused keeps what
/// was written, and stays the one that is being written.
pub fn write_collection<D: Depot>(
    index: &Index<'_>,
    names: &FileNames,
    writer: &mut PieceWriter,
    depot: &mut D,
) -> Result<(), FileFail>
    requires nothing { writer.old ≡ [] }
    requires apart { AreApart (files_named names.now (spelled index.now.collection)) }
    ensures { WritesFiles (files_named names.now (spelled index.now.collection))
        (D.state depot.old) (D.state depot.new) result }
{
    write_files(&Exported { index }, names, writer, depot)
}
