ghost use Rattle.std.specs.Prelude.{◌≡◌, IfOk};
ghost use Rattle.block_max.specs.SideWords.{side_words};
ghost use Rattle.index_blocks.specs.BlockLists.{blocks_of_index};

use crate::source::IndexBlocks;
use crate::starts::block_starts;
use block_max::side_words;
use index_file::Index;
use no_memory::NoMemory;
use std::alloc::Global;

/// The words of the side file of an index: the greatest frequency of each of its blocks, between
/// two words before them and two behind.
pub fn index_side_words(alloc: Global, index: &Index<'_>) -> Result<Vec<u64>, NoMemory>
    ensures { IfOk result (λ words. words.items ≡ side_words (blocks_of_index index.now)) }
{
    let starts = block_starts(alloc, index)?;
    side_words(alloc, &IndexBlocks::new(index, &starts))
}
