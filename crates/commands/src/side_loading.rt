ghost use Rattle.std.specs.Prelude.{◌≡◌, IfErr, IfOk};
ghost use Rattle.commands.specs.Private.LoadedSide.{IsLoadedSide, IsUnloadedSide, stop_of_side};

use block_max::{BlockSource, Side, SideCheck, SideFault};
use io_traits::{Depot, Slot};
use outcomes::{Stop, stop_of_loading};
use std::alloc::Global;
use word_files::{LoadWordsError, load_words};

// The word with which a side file begins, the bytes `PEFBLOCK`.
const OPENING: u64 = 5_423_265_565_232_219_472;

// The words of the file under the name, which are the side file of some lists. Of a file that
// begins with another word only a piece is kept.
pub(crate) fn load_side<D: Depot, S: BlockSource>(
    alloc: Global,
    name: &str,
    source: &S,
    depot: &mut D,
) -> Result<Vec<u64>, Stop>
    ensures loaded { IfOk result (λ words. IsLoadedSide (S.lists source.now) name.now
        (D.state depot.old) (D.state depot.new) words.items) }
    ensures refused { IfErr result (λ stop. IsUnloadedSide (S.lists source.now) name.now
        (D.state depot.old) (D.state depot.new) stop) }
{
    let words = load_words(alloc, Slot::Side, &[OPENING], name, depot).map_err(stop_of_side)?;
    Side::view(&words, source)?;
    Ok(words)
}

// Where a run stops that could not load the words of its side file: that they are whole words is
// the check S1.
fn stop_of_side(error: LoadWordsError) -> Stop
    ensures { result ≡ stop_of_side error }
{
    let ragged = SideFault {
        check: SideCheck::S1,
        term: 0,
        part: 0,
    };
    stop_of_loading(Slot::Side, Stop::BrokenSide(ragged), error)
}
