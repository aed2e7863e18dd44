ghost use Rattle.std.specs.Prelude.{ℕ};
ghost use Rattle.commands.specs.Names.{SourceState, SinkState, outside, Leaves, IndexAt, Starts};
ghost use Rattle.commands.specs.Files.{Exports};

use command_ends::load_index;
use exported_files::write_collection;
use io_traits::Depot;
use outcomes::{Stop, after_writing_files};
use remapped_files::names_under;
use std::alloc::Global;
use word_files::PieceWriter;

/// Reads the index under the name, and writes the three files of its collection under a base.
pub fn export<D: Depot>(alloc: Global, index: &str, base: &str, depot: &mut D) -> Result<(), Stop>
    ensures { (i : SourceState) (o e e' : SinkState) (costs : ℕ)
        → Leaves (Exports index.now base.now) (Starts (IndexAt index.now))
        (outside (D.state depot.old) i o e costs) (outside (D.state depot.new) i o e' costs)
        result }
{
    let opened = load_index(alloc, index, depot)?;
    let index = opened.index();
    let names = names_under(alloc, base)?;
    let mut writer = PieceWriter::new(alloc)?;
    let written = write_collection(&index, &names, &mut writer, depot);
    after_writing_files(written)
}
