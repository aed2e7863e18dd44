ghost use Rattle.std.specs.Prelude.{◌<◌, ◌^◌, length, IsTrue};
ghost use Rattle.collection_model.specs.Bytes.{number_sequence};
ghost use Rattle.collection_model.specs.Collection.{WellFormed};
ghost use Rattle.collection_model.specs.Spelling.{spelled};
ghost use Rattle.command_model.specs.FoundMap.{remap_numbers};
ghost use Rattle.remap.specs.Spelling.{AreShort, vectors_bytes};
ghost use Rattle.word_files.specs.Given.{Gives};

use crate::writing::GivesFiles;
use collection_reader::Collection;
use io_traits::{Depot, IoFail, Slot};
use word_files::PieceWriter;

// The image of a collection, lent.
#[derive(Drop)]
pub(crate) struct LentImage<'a> {
    pub(crate) image: &'a Collection,
    ghost well_formed: { WellFormed remap_numbers image.now },
}

impl<'a, D: Depot> GivesFiles<D> for LentImage<'a> {
    ghost files = { λ s. spelled s.image.now };

    fn give_file(&self, slot: Slot, writer: &mut PieceWriter, depot: &mut D) -> Result<(), IoFail> {
        match slot {
            Slot::Docs => give_docs(self.image, writer, depot),
            Slot::Freqs => give_freqs(self.image, writer, depot),
            _ => give_sizes(self.image, writer, depot),
        }
    }
}

// Gives the file of documents of a collection: the number of documents, and then the documents of
// each list.
fn give_docs<D: Depot>(
    collection: &Collection,
    writer: &mut PieceWriter,
    depot: &mut D,
) -> Result<(), IoFail>
    requires well_formed { WellFormed remap_numbers collection.now }
    requires created { IsTrue (D.state depot.old).created }
    ensures { Gives (spelled collection.now).docs writer.old writer.new (D.state depot.old)
        (D.state depot.new) result }
{
    give_sequence(&[collection.documents], writer, depot)?;
    give_sequences(collection.docs.as_slice(), writer, depot)
}

// Gives its file of frequencies: those of each list.
fn give_freqs<D: Depot>(
    collection: &Collection,
    writer: &mut PieceWriter,
    depot: &mut D,
) -> Result<(), IoFail>
    requires well_formed { WellFormed remap_numbers collection.now }
    requires created { IsTrue (D.state depot.old).created }
    ensures { Gives (spelled collection.now).freqs writer.old writer.new (D.state depot.old)
        (D.state depot.new) result }
{
    give_sequences(collection.freqs.as_slice(), writer, depot)
}

// Gives its file of sizes.
fn give_sizes<D: Depot>(
    collection: &Collection,
    writer: &mut PieceWriter,
    depot: &mut D,
) -> Result<(), IoFail>
    requires well_formed { WellFormed remap_numbers collection.now }
    requires created { IsTrue (D.state depot.old).created }
    ensures { Gives (spelled collection.now).sizes writer.old writer.new (D.state depot.old)
        (D.state depot.new) result }
{
    give_sequence(collection.sizes.as_slice(), writer, depot)
}

// Gives a sequence for each of some vectors.
fn give_sequences<D: Depot>(
    vectors: &[Vec<u32>],
    writer: &mut PieceWriter,
    depot: &mut D,
) -> Result<(), IoFail>
    requires short { AreShort vectors.now }
    requires created { IsTrue (D.state depot.old).created }
    ensures { Gives (vectors_bytes vectors.now) writer.old writer.new (D.state depot.old)
        (D.state depot.new) result }
{
    for numbers in vectors {
        give_sequence(numbers.as_slice(), writer, depot)?;
    }
    Ok(())
}

// Gives a sequence: how many numbers there are, and then the numbers.
fn give_sequence<D: Depot>(
    numbers: &[u32],
    writer: &mut PieceWriter,
    depot: &mut D,
) -> Result<(), IoFail>
    requires short { length numbers.now < 2 ^ 32 }
    requires created { IsTrue (D.state depot.old).created }
    ensures { Gives (number_sequence numbers.now) writer.old writer.new (D.state depot.old)
        (D.state depot.new) result }
{
    writer.give(numbers.len() as u32, depot)?;
    for number in numbers {
        writer.give(*number, depot)?;
    }
    Ok(())
}
