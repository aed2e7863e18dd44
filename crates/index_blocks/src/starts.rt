ghost use Rattle.std.specs.Prelude.{◌≡◌, ◌+◌, ◌-◌, ◌*◌, ◌≤◌, length, IfOk};
ghost use Rattle.block_max.specs.Blocks.{blocks_before};
ghost use Rattle.index_blocks.specs.BlockLists.{block_starts, blocks_of_index, lists_a_start};

use index_file::Index;
use no_memory::NoMemory;
use std::alloc::Global;

/// How many blocks stand before the first list of an index and, counted from it, before every so
/// manieth one: before each where the file has two words or more for each list, and else before so
/// few that there is at most one number for two words, and one more. It looks at one entry a list,
/// and at none of a packed file without postings.
pub fn block_starts(alloc: Global, index: &Index<'_>) -> Result<Vec<u64>, NoMemory>
    ensures { IfOk result (λ starts. starts.items ≡ block_starts index.now) }
{
    let every = lists_a_start(index);
    let count = u64::from(index.terms()) / every;
    let mut starts = Vec::with_capacity(alloc, count as usize + 1)?;
    let mut before = 0;
    for place in 0..count {
        starts.push(before)?;
        before += blocks_between(index, place * every, (place + 1) * every);
    }
    starts.push(before)?;
    Ok(starts)
}

// From how many lists to how many it is told how many blocks stand before them.
pub(crate) fn lists_a_start(index: &Index<'_>) -> u64
    ensures { result ≡ lists_a_start index.now }
{
    2 * u64::from(index.terms()) / index.word_count().max(1) + 1
}

// How many blocks the lists from one up to another have.
pub(crate) fn blocks_between(index: &Index<'_>, from: u64, to: u64) -> u64
    requires order { from ≤ to }
    requires within { to ≤ length index.now.collection.lists }
    ensures counted { blocks_before (blocks_of_index index.now) from + result
        ≡ blocks_before (blocks_of_index index.now) to }
    ensures few { result ≤ (to - from) * 4294967295 }
{
    index.stands_for_a_collection();
    let end = to.min(u64::from(index.walked_terms())).max(from);
    let mut count = 0;
    for term in from..end {
        count += u64::from(index.blocks(term as u32));
    }
    count
}
