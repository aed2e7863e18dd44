// The three files of a collection, written one after the other.
ghost use Rattle.std.specs.Prelude.{◌≡◌, [], IsTrue, OnOk};
ghost use Rattle.collection_model.specs.Spelling.{Files};
ghost use Rattle.io_traits.specs.Calls.{Rose};
ghost use Rattle.command_model.specs.FilesWritten.{AreApart};
ghost use Rattle.word_files.specs.Given.{Gives};
ghost use Rattle.word_files.specs.WriteFile.{WritesBytes};
ghost use Rattle.remapped_files.specs.NamedFiles.{bytes_of, file_of, files_named};
ghost use Rattle.remapped_files.specs.WriteImage.{WritesFiles, WritesNamed};

use crate::names::FileNames;
use io_traits::{Depot, IoFail, Slot};
use word_files::PieceWriter;

/// A file that was not written.
#[derive(Clone, Copy, Debug, PartialEq, Eq)]
pub struct FileFail {
    /// Which file it is.
    pub slot: Slot,
    /// Whether a call failed or memory was refused.
    pub fail: IoFail,
}

/// A collection that gives the bytes of the files that spell it.
pub trait GivesFiles<D: Depot> {
    /// Its three files.
    ghost files: { Self → Files };

    /// Gives the bytes of the file of a slot.
    fn give_file(&self, slot: Slot, writer: &mut PieceWriter, depot: &mut D) -> Result<(), IoFail>
        requires created { IsTrue (D.state depot.old).created }
        ensures { Gives (bytes_of (files self.now) slot) writer.old writer.new
            (D.state depot.old) (D.state depot.new) result };
}

/// Writes the three files of a collection, that of documents first, by a writer that holds nothing.
/// It takes no memory of its own. A file that was begun and is refused keeps what was written, and
/// stays the one that is being written.
pub fn write_files<D: Depot, S: GivesFiles<D>>(
    source: &S,
    names: &FileNames,
    writer: &mut PieceWriter,
    depot: &mut D,
) -> Result<(), FileFail>
    requires nothing { writer.old ≡ [] }
    requires apart { AreApart (files_named names.now (S.files source.now)) }
    ensures { WritesFiles (files_named names.now (S.files source.now)) (D.state depot.old)
        (D.state depot.new) result }
{
    write_named(Slot::Docs, source, names, writer, depot)?;
    write_named(Slot::Freqs, source, names, writer, depot)?;
    write_named(Slot::Sizes, source, names, writer, depot)?;
    Ok(())
}

// Writes the file of a slot, which a refusal tells.
fn write_named<D: Depot, S: GivesFiles<D>>(
    slot: Slot,
    source: &S,
    names: &FileNames,
    writer: &mut PieceWriter,
    depot: &mut D,
) -> Result<(), FileFail>
    requires { writer.old ≡ [] }
    ensures writes { WritesNamed slot (file_of names.now (S.files source.now) slot)
        (D.state depot.old) (D.state depot.new) result }
    ensures nothing { OnOk result (writer.new ≡ []) }
{
    match write_given(slot, source, names.of(slot), writer, depot) {
        Ok(()) => Ok(()),
        Err(fail) => Err(FileFail { slot, fail }),
    }
}

// Creates the file of a slot under the name, gives its bytes piece by piece, and finishes it.
fn write_given<D: Depot, S: GivesFiles<D>>(
    slot: Slot,
    source: &S,
    name: &str,
    writer: &mut PieceWriter,
    depot: &mut D,
) -> Result<(), IoFail>
    requires { writer.old ≡ [] }
    ensures writes { WritesBytes (bytes_of (S.files source.now) slot) name.now
        (D.state depot.old) (D.state depot.new) result }
    ensures memory { result ≡ Err IoFail.NoMemory
        → Rose (D.state depot.old).refusals (D.state depot.new).refusals }
    ensures nothing { OnOk result (writer.new ≡ []) }
{
    depot.create(name)?;
    source.give_file(slot, writer, depot)?;
    writer.write_out(depot)?;
    depot.finish()
}
