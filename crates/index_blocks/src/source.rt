ghost use Rattle.std.specs.Prelude.{◌≡◌, ◌<◌, length};
ghost use Rattle.std.specs.List.{All};
ghost use Rattle.collection_model.specs.Collection.{list_of};
ghost use Rattle.block_max.specs.Blocks.{IsBlockList, blocks_of, nth_list};
ghost use Rattle.block_max.specs.SideWords.{side_words, words_seen};
ghost use Rattle.index_blocks.specs.BlockLists.{block_starts, blocks_of_index, lists_a_start};
ghost use Rattle.index_blocks.specs.Props.{cut-prop};

use crate::starts::{blocks_between, lists_a_start};
use block_max::{BlockCursor, BlockSource, Side, SideCursor};
use cursor_api::DocCursor;
use index_file::Index;
use postings::{PostingCursor, cursors_stand_in_lists};

/// The lists of an opened index, whose blocks are the parts of their documents.
#[derive(Clone, Copy)]
pub struct IndexBlocks<'i, 'a> {
    index: &'i Index<'a>,
    // How many blocks stand before each list whose term is a multiple of `every`.
    starts: &'i [u64],
    every: u64,
    ghost cut: { All IsBlockList (blocks_of_index index.now) } by { cut-prop (blocks_of_index index.now) },
    ghost counted: { starts.now ≡ block_starts index.now },
    ghost spaced: { every ≡ lists_a_start index.now },
}

/// A cursor over a list of an index, with the greatest frequencies of the list's blocks.
pub type IndexCursor<'i, 'a> = SideCursor<'i, PostingCursor<'a>, IndexBlocks<'i, 'a>>;

impl<'i, 'a> IndexBlocks<'i, 'a> {
    ghost use Rattle.index_blocks.specs.Seen.{index_seen};

    /// The lists of an index, with what `block_starts` gives of it.
    pub fn new(index: &'i Index<'a>, starts: &'i [u64]) -> IndexBlocks<'i, 'a>
        requires { starts.now ≡ block_starts index.now }
        ensures lists { ⟦<IndexBlocks<'i, 'a> as BlockSource>⟧.lists result
            ≡ blocks_of_index index.entry.now }
        ensures index { index_seen result ≡ index.entry.now }
    {
        index.stands_for_a_collection();
        cursors_stand_in_lists();
        let every = lists_a_start(index);
        IndexBlocks {
            index,
            starts,
            every,
        }
    }

    /// The index whose lists these are.
    pub fn index(&self) -> &'i Index<'a>
        ensures { result.now ≡ index_seen self.now }
    {
        self.index
    }

    /// A cursor at the start of list t of the index, with the blocks of its side file.
    pub fn cursor(&'i self, side: Side<'i>, t: u32) -> IndexCursor<'i, 'a>
        requires within { t < length (index_seen self.now).collection.lists }
        requires of_side { words_seen side ≡ side_words (blocks_of_index (index_seen self.now)) }
        ensures list { ⟦<IndexCursor<'i, 'a> as DocCursor>⟧.list result
            ≡ list_of (index_seen self.entry.now).collection t }
        ensures start { ⟦<IndexCursor<'i, 'a> as DocCursor>⟧.place result ≡ 0 }
        ensures blocks { ⟦<IndexCursor<'i, 'a> as BlockCursor>⟧.blocks result
            ≡ blocks_of (nth_list (blocks_of_index (index_seen self.entry.now)) t) }
    {
        self.index.stands_for_a_collection();
        SideCursor::new(self.index.cursor(t), self, side, t)
    }
}

impl<'i, 'a> BlockSource for IndexBlocks<'i, 'a> {
    ghost lists = { λ s. blocks_of_index s.index.now };

    fn terms(&self) -> u32 {
        self.index.stands_for_a_collection();
        self.index.terms()
    }

    fn walked_terms(&self) -> u32 {
        self.index.stands_for_a_collection();
        self.index.walked_terms()
    }

    fn blocks(&self, t: u32) -> u32 {
        self.index.stands_for_a_collection();
        self.index.blocks(t)
    }

    fn last(&self, t: u32, q: u32) -> u32 {
        self.index.stands_for_a_collection();
        self.index.block_last(t, q)
    }

    fn greatest(&self, t: u32, q: u32) -> u32 {
        self.index.stands_for_a_collection();
        self.index.block(t, q).1
    }

    fn blocks_before(&self, t: u32) -> u64 {
        self.index.stands_for_a_collection();
        let place = t as u64 / self.every;
        self.starts[place as usize] + blocks_between(self.index, place * self.every, t as u64)
    }

    ghost cut = { λ s. s.cut };
}
