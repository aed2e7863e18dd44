ghost use Rattle.std.specs.Prelude.{◌≡◌, IfOk};
ghost use Rattle.segments.specs.Joined.{joined, FitTogether};
ghost use Rattle.segments.specs.Laws.{IsInRange};
ghost use Rattle.index_reading.specs.JoinedIndexes.{collections_of};

use crate::lists::TermLists;
use index_reading::{JoinedIndexes, ListSource};
use no_memory::NoMemory;
use open_index::OpenIndex;
use postings::PostingCursor;
use segments::{JoinedCursor, joined_lists_follow};
use std::alloc::Global;
use topk_pruning::{Plan, plan_top};

/// The lists of the collection to which indexes are joined, and the plan of `top`.
#[derive(Drop)]
pub struct JoinedLists<'a> {
    pub(crate) indexes: JoinedIndexes<'a>,
    plan: Plan,
    ghost in_range: { IsInRange (⟦<JoinedIndexes<'static> as ListSource>⟧.collection indexes) },
}

impl<'a> JoinedLists<'a> {
    /// The lists of these indexes, in this order.
    pub fn new(
        alloc: Global,
        indexes: &'a [OpenIndex],
        plan: Plan,
    ) -> Result<JoinedLists<'a>, NoMemory>
        requires { FitTogether (collections_of indexes.now) }
        ensures { IfOk result (λ lists. ⟦<JoinedLists<'a> as TermLists>⟧.collection lists
            ≡ joined (collections_of indexes.entry.now)) }
    {
        joined_lists_follow();
        let indexes = JoinedIndexes::new(alloc, indexes)?;
        indexes.stands_for_a_collection();
        Ok(JoinedLists { indexes, plan })
    }

    /// The lists of indexes that are joined already, each with its own number of terms.
    pub fn over(indexes: JoinedIndexes<'a>, plan: Plan) -> JoinedLists<'a>
        ensures { ⟦<JoinedLists<'a> as TermLists>⟧.collection result
            ≡ ⟦<JoinedIndexes<'a> as ListSource>⟧.collection indexes.entry }
    {
        indexes.stands_for_a_collection();
        JoinedLists { indexes, plan }
    }
}

impl<'a> TermLists for JoinedLists<'a> {
    type Cursor = JoinedCursor<PostingCursor<'a>>;

    ghost collection = { λ lists. ⟦<JoinedIndexes<'a> as ListSource>⟧.collection lists.indexes };

    fn documents(&self) -> u32 {
        self.indexes.documents()
    }

    fn terms(&self) -> u32 {
        self.indexes.terms()
    }

    fn first_posting(&self, term: u32, doc: u32) -> Option<(u32, u32)> {
        self.indexes.first_posting(term, doc)
    }

    fn put_cursor(
        &self,
        alloc: Global,
        cursor: &mut JoinedCursor<PostingCursor<'a>>,
        term: u32,
    ) -> Result<(), NoMemory> {
        *cursor = self.indexes.list_cursor(alloc, term)?;
        Ok(())
    }

    fn top(
        &self,
        alloc: Global,
        _terms: &[u32],
        cursors: &mut [JoinedCursor<PostingCursor<'a>>],
        weights: &[u32],
        k: u32,
    ) -> Result<Vec<(u32, u64)>, NoMemory> {
        plan_top(
            alloc,
            self.plan,
            cursors,
            weights,
            k,
            self.indexes.documents(),
        )
    }

    ghost in_range = { λ lists. lists.in_range };
}
