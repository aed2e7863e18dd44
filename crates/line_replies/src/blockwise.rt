ghost use Rattle.std.specs.Prelude.{◌≡◌, ◌<◌, ◌≤◌, [], map, length, IsOk, OnOk};
ghost use Rattle.std.specs.List.{All};
ghost use Rattle.block_max.specs.SideWords.{side_words, words_seen};
ghost use Rattle.segments.specs.Laws.{IsInRange};
ghost use Rattle.command_model.specs.Replies.{lists_of};
ghost use Rattle.index_blocks.specs.BlockLists.{blocks_of_index};
ghost use Rattle.index_blocks.specs.Seen.{index_seen};

use crate::indexed::documents_are_below;
use crate::lists::{LineCursors, TermLists};
use block_max::{Side, SideCursor, top_blockmax};
use cursor_api::DocCursor;
use index_blocks::IndexBlocks;
use no_memory::NoMemory;
use postings::PostingCursor;
use scan_plans::top_exhaustive;
use std::alloc::Global;
use topk_pruning::pruning_can_save;

/// The lists of the collection that an opened index stands for, with the greatest frequencies of
/// their blocks; `top` is answered by block-max WAND, and where pruning can save nothing by scoring
/// every document, for which no blocks are needed.
#[derive(Clone, Copy)]
pub struct SideLists<'i, 'a> {
    blocks: &'i IndexBlocks<'i, 'a>,
    side: Side<'i>,
    ghost of_side: { words_seen side ≡ side_words (blocks_of_index (index_seen blocks.now)) },
    ghost in_range: { IsInRange (index_seen blocks.now).collection },
}

impl<'i, 'a> SideLists<'i, 'a> {
    /// The lists of this index in blocks, and its side file.
    pub fn new(blocks: &'i IndexBlocks<'i, 'a>, side: Side<'i>) -> SideLists<'i, 'a>
        requires { words_seen side ≡ side_words (blocks_of_index (index_seen blocks.now)) }
        ensures { ⟦<SideLists<'i, 'a> as TermLists>⟧.collection result
            ≡ (index_seen blocks.entry.now).collection }
    {
        documents_are_below(blocks.index());
        SideLists { blocks, side }
    }
}

// Puts a cursor at the start of each of these terms' lists, with the blocks of the side file, into
// an empty list. Where there is room for as many, no memory is taken.
fn add_block_cursors<'i, 'a>(
    lists: &SideLists<'i, 'a>,
    cursors: &mut LineCursors<SideCursor<'i, PostingCursor<'a>, IndexBlocks<'i, 'a>>>,
    terms: &[u32],
) -> Result<(), NoMemory>
    requires within { All (λ t. t < length (index_seen lists.now.blocks.now).collection.lists)
        terms.now }
    requires none { cursors.old.items ≡ [] }
    ensures lists { OnOk result (map
        (⟦<SideCursor<'i, PostingCursor<'a>, IndexBlocks<'i, 'a>> as DocCursor>⟧.list)
        cursors.new.items
        ≡ lists_of (index_seen lists.now.blocks.now).collection terms.now) }
    ensures start { OnOk result (All
        (λ c. ⟦<SideCursor<'i, PostingCursor<'a>, IndexBlocks<'i, 'a>> as DocCursor>⟧.place c ≡ 0)
        cursors.new.items) }
    ensures room { length terms.now ≤ cursors.old.capacity → IsOk result }
{
    cursors.reserve_exact(terms.len())?;
    for term in terms {
        cursors.push_reserved(lists.blocks.cursor(lists.side, *term));
    }
    Ok(())
}

impl<'i, 'a> TermLists for SideLists<'i, 'a> {
    type Cursor = PostingCursor<'a>;

    ghost collection = { λ lists. (index_seen lists.blocks.now).collection };

    fn documents(&self) -> u32 {
        self.blocks.index().documents()
    }

    fn terms(&self) -> u32 {
        self.blocks.index().terms()
    }

    fn first_posting(&self, term: u32, doc: u32) -> Option<(u32, u32)> {
        self.blocks.index().first_posting(term, doc)
    }

    fn put_cursor(
        &self,
        _alloc: Global,
        cursor: &mut PostingCursor<'a>,
        term: u32,
    ) -> Result<(), NoMemory> {
        *cursor = self.blocks.index().cursor(term);
        Ok(())
    }

    fn top(
        &self,
        alloc: Global,
        terms: &[u32],
        cursors: &mut [PostingCursor<'a>],
        weights: &[u32],
        k: u32,
    ) -> Result<Vec<(u32, u64)>, NoMemory> {
        let documents = self.documents();
        if !pruning_can_save(cursors, weights, k, documents) {
            return top_exhaustive(alloc, cursors, weights, k, documents);
        }
        let mut in_blocks = LineCursors::new(alloc);
        add_block_cursors(self, &mut in_blocks, terms)?;
        top_blockmax(alloc, in_blocks.as_mut_slice(), weights, k, documents)
    }

    ghost in_range = { λ lists. lists.in_range };
}
