ghost use Rattle.std.specs.Prelude.{◌≡◌, ℕ, ◌<◌, ◌^◌, map, length, IfOk};
ghost use Rattle.std.specs.List.{All};
ghost use Rattle.command_model.specs.Replies.{lists_of};
ghost use Rattle.index_file.specs.IndexView.{word_count};
ghost use Rattle.index_intervals.specs.LongLists.{AreIndexMaxima};
ghost use Rattle.scan_plans.specs.IsTop.{IsTop};
ghost use Rattle.scan_plans.specs.TopQuery.{IsTopQuery};

use crate::indexed::IndexLists;
use crate::joined::JoinedLists;
use crate::lists::TermLists;
use crate::term_cursors::cursors_of;
use index_file::Index;
use index_reading::{JoinedIndexes, ListSource};
use interval_max::{MaximaView, TopQuery, bounds_can_save, intervals_can_save, top_intervals};
use no_memory::NoMemory;
use postings::PostingCursor;
use segments::JoinedCursor;
use std::alloc::Global;
use topk_pruning::Plan;

/// The lists of the collection that an opened index stands for, with the maxima of the longer ones;
/// `top` is answered by intervals, and where these can save nothing by scoring every document.
#[derive(Clone, Copy)]
pub struct IntervalLists<'i, 'a> {
    lists: IndexLists<'i, 'a>,
    maxima: MaximaView<'i>,
    ghost of_index: { AreIndexMaxima (word_count lists.index.now) lists.index.now.collection
        maxima.bytes.now },
}

impl<'i, 'a> IntervalLists<'i, 'a> {
    /// The lists of this index, and its maxima.
    pub fn new(index: &'i Index<'a>, maxima: MaximaView<'i>) -> IntervalLists<'i, 'a>
        requires { AreIndexMaxima (word_count index.now) index.now.collection maxima.bytes.now }
        ensures { ⟦<IntervalLists<'i, 'a> as TermLists>⟧.collection result
            ≡ index.entry.now.collection }
    {
        let lists = IndexLists::new(index, Plan::Exhaustive);
        IntervalLists { lists, maxima }
    }
}

impl<'i, 'a> TermLists for IntervalLists<'i, 'a> {
    type Cursor = PostingCursor<'a>;

    ghost collection = { λ lists. lists.lists.index.now.collection };

    fn documents(&self) -> u32 {
        self.lists.documents()
    }

    fn terms(&self) -> u32 {
        self.lists.terms()
    }

    fn first_posting(&self, term: u32, doc: u32) -> Option<(u32, u32)> {
        self.lists.first_posting(term, doc)
    }

    fn put_cursor(
        &self,
        alloc: Global,
        cursor: &mut PostingCursor<'a>,
        term: u32,
    ) -> Result<(), NoMemory> {
        self.lists.put_cursor(alloc, cursor, term)
    }

    fn top(
        &self,
        alloc: Global,
        terms: &[u32],
        cursors: &mut [PostingCursor<'a>],
        weights: &[u32],
        k: u32,
    ) -> Result<Vec<(u32, u64)>, NoMemory> {
        top_by_intervals(alloc, &self.lists, self.maxima, terms, cursors, weights, k)
    }

    ghost in_range = { λ lists. lists.lists.in_range };
}

/// The lists of the collection to which indexes are joined, with the maxima of the longer ones,
/// likewise.
#[derive(Drop)]
pub struct JoinedIntervals<'a> {
    lists: JoinedLists<'a>,
    maxima: MaximaView<'a>,
    // How many words pay for the maxima.
    words: u64,
    ghost of_lists: { AreIndexMaxima words
        (⟦<JoinedIndexes<'static> as ListSource>⟧.collection lists.indexes) maxima.bytes.now },
}

impl<'a> JoinedIntervals<'a> {
    /// The lists of indexes that are joined already, and their maxima, for which so many words pay.
    pub fn over(
        indexes: JoinedIndexes<'a>,
        maxima: MaximaView<'a>,
        words: u64,
    ) -> JoinedIntervals<'a>
        requires { AreIndexMaxima words (⟦<JoinedIndexes<'a> as ListSource>⟧.collection indexes)
            maxima.bytes.now }
        ensures { ⟦<JoinedIntervals<'a> as TermLists>⟧.collection result
            ≡ ⟦<JoinedIndexes<'a> as ListSource>⟧.collection indexes.entry }
    {
        let lists = JoinedLists::over(indexes, Plan::Exhaustive);
        JoinedIntervals {
            lists,
            maxima,
            words,
        }
    }
}

impl<'a> TermLists for JoinedIntervals<'a> {
    type Cursor = JoinedCursor<PostingCursor<'a>>;

    ghost collection = { λ lists.
        ⟦<JoinedIndexes<'a> as ListSource>⟧.collection lists.lists.indexes };

    fn documents(&self) -> u32 {
        self.lists.documents()
    }

    fn terms(&self) -> u32 {
        self.lists.terms()
    }

    fn first_posting(&self, term: u32, doc: u32) -> Option<(u32, u32)> {
        self.lists.first_posting(term, doc)
    }

    fn put_cursor(
        &self,
        alloc: Global,
        cursor: &mut JoinedCursor<PostingCursor<'a>>,
        term: u32,
    ) -> Result<(), NoMemory> {
        self.lists.put_cursor(alloc, cursor, term)
    }

    fn top(
        &self,
        alloc: Global,
        terms: &[u32],
        cursors: &mut [JoinedCursor<PostingCursor<'a>>],
        weights: &[u32],
        k: u32,
    ) -> Result<Vec<(u32, u64)>, NoMemory> {
        top_by_intervals(alloc, &self.lists, self.maxima, terms, cursors, weights, k)
    }

    ghost in_range = { λ lists. lists.lists.in_range };
}

// The first k documents of any lists by the maxima of the longer ones; where these can save nothing
// as the lists give them.
fn top_by_intervals<L: TermLists>(
    alloc: Global,
    lists: &L,
    maxima: MaximaView<'_>,
    terms: &[u32],
    cursors: &mut [L::Cursor],
    weights: &[u32],
    k: u32,
) -> Result<Vec<(u32, u64)>, NoMemory>
    requires maxima { (words : ℕ) × AreIndexMaxima words (L.collection lists.now)
        maxima.bytes.now }
    requires named { All (λ t. t < length (L.collection lists.now).lists) terms.now }
    requires lists { map L.Cursor.list cursors.old ≡ lists_of (L.collection lists.now) terms.now }
    requires query { IsTopQuery L.Cursor.list L.Cursor.place (L.collection lists.now).documents
        cursors.old weights.now }
    ensures first { IfOk result (λ r. IsTop (L.collection lists.now).documents
        (map L.Cursor.list cursors.old) weights.now k r.items) }
    ensures bound { IfOk result (λ r. All (λ e. e.1 < 2 ^ 58) r.items) }
{
    let documents = lists.documents();
    if !intervals_can_save(cursors, k, documents) {
        return lists.top(alloc, terms, cursors, weights, k);
    }
    let bounds = maxima.bounds_of(alloc, terms)?;
    if !bounds_can_save(&bounds, cursors, documents) {
        return lists.top(alloc, terms, cursors, weights, k);
    }
    let mut bounding = cursors_of(alloc, lists, terms)?;
    let mut first = cursors_of(alloc, lists, terms)?;
    let query = TopQuery {
        weights,
        k,
        n: documents,
    };
    top_intervals(
        alloc,
        &bounds,
        bounding.as_mut_slice(),
        first.as_mut_slice(),
        cursors,
        query,
    )
}
