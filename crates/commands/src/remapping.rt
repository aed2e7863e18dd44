ghost use Rattle.std.specs.Prelude.{ℕ};
ghost use Rattle.commands.specs.Names.{SourceState, SinkState, outside, MapAt, Starts, Leaves};
ghost use Rattle.commands.specs.Files.{Remaps};

use collection_model::files_spell_one_collection;
use collection_reader::{files_have_one_first_fault, spelled_files_have_no_fault};
use io_traits::Depot;
use outcomes::{Stop, after_writing_files};
use remap::{image_is_well_formed, maps_have_one_first_fault};
use remapped_files::{image_files, write_image};
use std::alloc::Global;

/// Reads the collection under the base and an order of its documents, and writes the files of its
/// image under a new base.
pub fn remap<D: Depot>(
    alloc: Global,
    base: &str,
    map: &str,
    to: &str,
    depot: &mut D,
) -> Result<(), Stop>
    ensures { (i : SourceState) (o e e' : SinkState) (costs : ℕ)
        → Leaves (Remaps base.now map.now to.now) (Starts (MapAt base.now map.now))
        (outside (D.state depot.old) i o e costs) (outside (D.state depot.new) i o e' costs)
        result }
{
    files_spell_one_collection();
    files_have_one_first_fault();
    spelled_files_have_no_fault();
    maps_have_one_first_fault();
    image_is_well_formed();
    let files = image_files(alloc, base, map, to, depot)?;
    after_writing_files(write_image(files, depot))
}
