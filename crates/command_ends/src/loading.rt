ghost use Rattle.std.specs.Prelude.{◌≡◌, ◌<◌, ◌^◌, ℕ, List, length, IfErr, IfOk};
ghost use Rattle.io_traits.specs.DepotState.{DepotState, StartedOnce};
ghost use Rattle.part_cost.specs.declared.formats.Format.TheVariants.{Three};
ghost use Rattle.index_file.specs.IndexView.{starts_of, word_count};
ghost use Rattle.command_model.specs.Found.{IsIndexSlot};
ghost use Rattle.outcomes.specs.Stops.{stop_of_index};
ghost use Rattle.command_ends.specs.Steps.LoadedIndex.{AreIndexWords, IsLoaded, IsUnloaded};

use index_file::{OpenFault, one_broken_check, words_and_bytes_undo_each_other};
use io_traits::{Depot, Slot};
use open_index::{CheckedWords, OpenIndex};
use outcomes::{Stop, stop_of_loading};
use packed_list::{ListSink, NoLists};
use std::alloc::Global;
use two_level::Check;
use word_files::{LoadWordsError, load_words};

// The words with which an index begins: the bytes `PEFINDEX` of a plain file, and `PEFPACKD` of a
// packed one.
const OPENINGS: &[u64] = &[6_360_565_151_758_173_520, 4_921_100_965_631_116_624];

// Where a run stops that could not load the words of its index: that they are whole words is the
// check K1.
fn stop_of_index(error: LoadWordsError) -> Stop
    ensures { result ≡ stop_of_index error }
{
    let ragged = OpenFault {
        check: Check::K1,
        term: 0,
        part: 0,
    };
    stop_of_loading(Slot::Index, Stop::BrokenIndex(ragged), error)
}

/// The index that stands under the name, which keeps where its lists begin. Its file is started
/// once, whatever comes of it. Of a file that begins with another word only a piece is kept.
pub fn load_index<D: Depot>(alloc: Global, name: &str, depot: &mut D) -> Result<OpenIndex, Stop>
    ensures loaded { IfOk result (λ index.
        IsLoaded name.now (D.state depot.old) (D.state depot.new) index) }
    ensures kept { IfOk result (λ index. index.starts ≡ starts_of index) }
    ensures refused { IfErr result (λ stop.
        IsUnloaded name.now (D.state depot.old) (D.state depot.new) stop) }
    ensures started { StartedOnce (λ slot. name.now) IsIndexSlot (D.state depot.old)
        (D.state depot.new) }
{
    let words = load_index_words(alloc, name, depot)?;
    open_index_words(alloc, words, &mut NoLists)
}

/// The words of the index that stands under the name, as `load_index` loads them, before they are
/// checked.
pub fn load_index_words<D: Depot>(
    alloc: Global,
    name: &str,
    depot: &mut D,
) -> Result<Vec<u64>, Stop>
    ensures words { IfOk result (λ words.
        AreIndexWords name.now (D.state depot.old) (D.state depot.new) words.items) }
    ensures few { IfOk result (λ words. length words.items < 2 ^ 57) }
    ensures refused { IfErr result (λ stop.
        IsUnloaded name.now (D.state depot.old) (D.state depot.new) stop) }
    ensures started { StartedOnce (λ slot. name.now) IsIndexSlot (D.state depot.old)
        (D.state depot.new) }
{
    one_broken_check();
    words_and_bytes_undo_each_other();
    let words = load_words(alloc, Slot::Index, OPENINGS, name, depot).map_err(stop_of_index)?;
    Ok(words)
}

/// The index whose words were loaded, as `load_index` gives it. The lists of a packed file are
/// given to what takes lists as they are checked.
pub fn open_index_words<L: ListSink>(
    alloc: Global,
    words: Vec<u64>,
    lists: &mut L,
) -> Result<OpenIndex, Stop>
    requires { length words.items < 2 ^ 57 }
    ensures loaded { IfOk result (λ index. (name : List ℕ) (old new : DepotState)
        → AreIndexWords name old new words.items → IsLoaded name old new index) }
    ensures kept { IfOk result (λ index. index.starts ≡ starts_of index) }
    ensures count { IfOk result (λ index. word_count index ≡ length words.items) }
    ensures took { IfOk result (λ index. index.format ≡ Three
        → L.took lists.old index.collection 0
        → L.took lists.new index.collection (length index.collection.lists)) }
    ensures refused { IfErr result (λ stop. (name : List ℕ) (old new : DepotState)
        → AreIndexWords name old new words.items → IsUnloaded name old new stop) }
{
    one_broken_check();
    words_and_bytes_undo_each_other();
    let opened = CheckedWords::open_into(words, lists)?;
    let kept = opened.with_starts(alloc)?;
    Ok(kept)
}
