ghost use Rattle.std.specs.Prelude.{◌≡◌, ◌-◌, ◌<◌, ◌≤◌, nat_le, List, [], length, option_map};
ghost use Rattle.std.specs.Option.{ForSome, option_map_or};
ghost use Rattle.std.specs.List.{position_or_len};
ghost use Rattle.block_max.specs.Blocks.{Block, AreBlocks, block_from, blocks_of, nth_block, nth_list};
ghost use Rattle.block_max.specs.Cut.{all-cut, side_blocks};
ghost use Rattle.block_max.specs.SideWords.{side_words, words_seen};

use crate::side::Side;
use crate::source::BlockSource;
use cursor_api::{BlankCursor, DocCursor};
use std::alloc::Global;
use std::default::MadeWith;

/// A cursor over a list that is cut into blocks.
pub trait BlockCursor: DocCursor {
    ghost blocks: { Self → List Block };

    /// The last document and the greatest frequency of the first block whose last document is at
    /// least `doc`; None exactly where every document of the list is below it.
    fn block_at(&self, doc: u32) -> Option<(u32, u32)>
        ensures { result ≡ option_map (λ b. (b.last, b.greatest))
            (block_from (blocks self.now) doc) };

    ghost are_blocks: { (c : Self) → AreBlocks (Self.list c) (blocks c) };
}

/// A cursor over a list of a source, with the greatest frequencies of the list's blocks from a side
/// file.
#[derive(Drop)]
pub struct SideCursor<'a, C: DocCursor, S: BlockSource> {
    cursor: C,
    // None only where the list is empty.
    source: Option<&'a S>,
    side: Side<'a>,
    term: u32,
    ghost within: { ForSome source (λ s. term < length (S.lists s.now)) },
    ghost of_source: { C.list cursor
        ≡ (nth_list (option_map_or (λ s. S.lists s.now) source []) term).list },
    ghost of_side: { ForSome source (λ s. words_seen side ≡ side_words (S.lists s.now)) },
}

impl<'a, C: DocCursor, S: BlockSource> SideCursor<'a, C, S> {
    /// A cursor over list `t` of the source, where `cursor` stands.
    pub fn new(cursor: C, source: &'a S, side: Side<'a>, t: u32) -> SideCursor<'a, C, S>
        requires within { t < length (S.lists source.now) }
        requires of_source { C.list cursor ≡ (nth_list (S.lists source.now) t).list }
        requires of_side { words_seen side ≡ side_words (S.lists source.now) }
        ensures list { ⟦<SideCursor<'a, C, S> as DocCursor>⟧.list result ≡ C.list cursor }
        ensures place { ⟦<SideCursor<'a, C, S> as DocCursor>⟧.place result ≡ C.place cursor }
        ensures blocks { ⟦<SideCursor<'a, C, S> as BlockCursor>⟧.blocks result
            ≡ blocks_of (nth_list (S.lists source.entry.now) t) }
    {
        SideCursor {
            cursor,
            source: Some(source),
            side,
            term: t,
        }
    }
}

/// A blank: a cursor over an empty list, without a source.
impl<'a, C: BlankCursor, S: BlockSource> MadeWith<Global> for SideCursor<'a, C, S> {
    ghost is_made_with = { λ c. C.list c.cursor ≡ [] };

    fn made_with(alloc: Global) -> SideCursor<'a, C, S> {
        SideCursor {
            cursor: C::made_with(alloc),
            source: None,
            side: Side::of_nothing(),
            term: 0,
        }
    }
}

// The last document and the greatest frequency of the first block of list `t` whose last document
// is at least `doc`.
fn block_in<S: BlockSource>(source: &S, side: Side<'_>, t: u32, doc: u32) -> Option<(u32, u32)>
    requires within { t < length (S.lists source.now) }
    requires of_side { words_seen side ≡ side_words (S.lists source.now) }
    ensures { result ≡ option_map (λ b. (b.last, b.greatest))
        (block_from (blocks_of (nth_list (S.lists source.now) t)) doc) }
{
    let blocks = source.blocks(t);
    let block = blocks_below(source, t, blocks, doc);
    if block < blocks {
        let last = source.last(t, block);
        let before = source.blocks_before(t);
        Some((last, side.greatest(before, block)))
    } else {
        None
    }
}

// How many of the blocks of list `t`, of which there are `count`, end before `doc`.
fn blocks_below<S: BlockSource>(source: &S, t: u32, count: u32, doc: u32) -> u32
    requires within { t < length (S.lists source.now) }
    requires all { count ≡ length (nth_list (S.lists source.now) t).ends }
    ensures within { result ≤ length (nth_list (S.lists source.now) t).ends }
    ensures first { result ≡ position_or_len (λ b. nat_le doc b.last)
        (blocks_of (nth_list (S.lists source.now) t)) }
{
    let mut low = 0;
    let mut high = count;
    while low < high {
        (low, high) = half(source, t, doc, low, high);
    }
    low
}

// The half in which the first block that ends at `doc` or later is; `high` is such a block or
// behind the last.
fn half<S: BlockSource>(source: &S, t: u32, doc: u32, low: u32, high: u32) -> (u32, u32)
    requires term { t < length (S.lists source.now) }
    requires some { low < high }
    requires within { high ≤ length (nth_list (S.lists source.now) t).ends }
    requires reached { high < length (nth_list (S.lists source.now) t).ends
        → doc ≤ (nth_block (S.lists source.now) t high).last }
    ensures after { low ≤ result.0 }
    ensures up { result.0 ≤ result.1 }
    ensures within { result.1 ≤ high }
    ensures less { result.1 - result.0 < high - low }
    ensures before { low < result.0 → (nth_block (S.lists source.now) t (result.0 - 1)).last < doc }
    ensures reached { result.1 < length (nth_list (S.lists source.now) t).ends
        → doc ≤ (nth_block (S.lists source.now) t result.1).last }
{
    let middle = low + (high - low) / 2;
    if source.last(t, middle) < doc {
        (middle + 1, high)
    } else {
        (low, middle)
    }
}

impl<'a, C: DocCursor, S: BlockSource> DocCursor for SideCursor<'a, C, S> {
    ghost list = { λ c. C.list c.cursor };

    ghost place = { λ c. C.place c.cursor };

    fn doc(&self) -> Option<u32> {
        self.cursor.doc()
    }

    fn freq(&mut self) -> u32 {
        self.cursor.freq()
    }

    fn advance(&mut self) {
        self.cursor.advance();
    }

    fn next_geq(&mut self, d: u32) {
        self.cursor.next_geq(d);
    }

    fn next_frequent(&mut self, f: u32) {
        self.cursor.next_frequent(f);
    }

    fn docs_below(&mut self, end: u64, docs: &mut [u64]) -> usize {
        self.cursor.docs_below(end, docs)
    }

    fn postings_below(&mut self, end: u64, docs: &mut [u64], freqs: &mut [u64]) -> usize {
        self.cursor.postings_below(end, docs, freqs)
    }

    fn max_freq(&self) -> u32 {
        self.cursor.max_freq()
    }

    fn common_freq(&self, k: u32) -> u32 {
        self.cursor.common_freq(k)
    }

    fn keep_in_words(&self, first: u32, marks: &mut [u64]) -> usize {
        self.cursor.keep_in_words(first, marks)
    }

    fn len(&self) -> u32 {
        self.cursor.len()
    }

    ghost well_formed = { λ c. C.well_formed c.cursor };
}

impl<'a, C: DocCursor, S: BlockSource> BlockCursor for SideCursor<'a, C, S> {
    ghost blocks = { λ c. blocks_of (nth_list
        (option_map_or (λ s. S.lists s.now) c.source []) c.term) };

    fn block_at(&self, doc: u32) -> Option<(u32, u32)> {
        match self.source {
            Some(source) => block_in(source, self.side, self.term, doc),
            None => None,
        }
    }

    ghost are_blocks = { λ c. side_blocks (option_map_or (λ s. S.lists s.now) c.source []) c.term
        (C.list c.cursor) (all-cut (λ s. S.lists s.now) (λ s. S.cut s.now) c.source) c.of_source };
}
