ghost use Rattle.std.specs.Prelude.{◌++◌};
ghost use Rattle.collection_reader.specs.OneReader.{StartsFile, StartsFiles};

use crate::fault::CollError;
use io_traits::{Depot, Slot};
use std::alloc::Global;

// Starts the file whose name is `base` with this ending.
fn start_file<D: Depot>(
    alloc: Global,
    base: &str,
    ending: &str,
    slot: Slot,
    depot: &mut D,
) -> Result<(), CollError>
    ensures { StartsFile slot (base.now ++ ending.now) (D.state depot.old) (D.state depot.new)
        result }
{
    let name = format!(in alloc; "{base}{ending}")?;
    match depot.start(slot, name.as_str()) {
        Ok(()) => Ok(()),
        Err(fail) => Err(CollError::of_call(slot, fail)),
    }
}

// Starts the three files of a collection.
pub(crate) fn start_files<D: Depot>(
    alloc: Global,
    base: &str,
    depot: &mut D,
) -> Result<(), CollError>
    ensures { StartsFiles base.now (D.state depot.old) (D.state depot.new) result }
{
    start_file(alloc, base, ".docs", Slot::Docs, depot)?;
    start_file(alloc, base, ".freqs", Slot::Freqs, depot)?;
    start_file(alloc, base, ".sizes", Slot::Sizes, depot)
}
