ghost use Rattle.std.specs.Prelude.{ℕ};
ghost use Rattle.commands.specs.Names.{SourceState, SinkState, outside, Leaves, IndexAt, Starts};
ghost use Rattle.commands.specs.Files.{WritesBlocks};

use command_ends::{load_index, words_fit};
use index_blocks::index_side_words;
use io_traits::{Depot, Slot};
use outcomes::{Stop, after_writing};
use std::alloc::Global;
use word_files::write_words;

/// Reads the index under a name, and writes its side file under another one.
pub fn blocks<D: Depot>(alloc: Global, index: &str, side: &str, depot: &mut D) -> Result<(), Stop>
    ensures { (i : SourceState) (o e e' : SinkState) (costs : ℕ) →
        Leaves (WritesBlocks index.now side.now) (Starts (IndexAt index.now))
        (outside (D.state depot.old) i o e costs) (outside (D.state depot.new) i o e' costs)
        result }
{
    let opened = load_index(alloc, index, depot)?;
    let index = opened.index();
    let greatest = index_side_words(alloc, &index)?;
    words_fit(&greatest);
    let written = write_words(alloc, &greatest, side, depot);
    after_writing(Slot::Side, written)
}
