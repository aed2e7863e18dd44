ghost use Rattle.std.specs.Prelude.{◌≡◌, ◌<◌, [], ◌∷◌, length, IfOk};
ghost use Rattle.collection_model.specs.Collection.{list_of};
ghost use Rattle.scan_plans.specs.IsTop.{IsTop};

use index_file::Index;
use no_memory::NoMemory;
use std::alloc::Global;
use topk_pruning::top_maxscore;

// How many documents are wanted.
const WANTED: u32 = 10;

/// The first ten documents that have either of two terms, by score falling and then document
/// rising, each with its score: the sum of its frequencies in the two lists. They are refused only
/// where memory is.
pub fn best_of_two(
    alloc: Global,
    index: &Index<'_>,
    one: u32,
    other: u32,
) -> Result<Vec<(u32, u64)>, NoMemory>
    requires one { one < length index.now.collection.lists }
    requires other { other < length index.now.collection.lists }
    ensures { let c = index.now.collection in
        IfOk result (λ best. IsTop c.documents (list_of c one ∷ list_of c other ∷ [])
        (1 ∷ 1 ∷ []) 10 best.items) }
{
    index.stands_for_a_collection();
    let mut cursors = [index.cursor(one), index.cursor(other)];
    top_maxscore(alloc, &mut cursors, &[1, 1], WANTED, index.documents())
}
