ghost use Rattle.std.specs.Prelude.{◌≡◌};
ghost use Rattle.segments.specs.Laws.{IsInRange};

use crate::lists::TermLists;
use index_file::Index;
use no_memory::NoMemory;
use postings::PostingCursor;
use std::alloc::Global;
use topk_pruning::{Plan, plan_top};

/// The lists of the collection that an opened index stands for, and the plan of `top`.
#[derive(Clone, Copy)]
pub struct IndexLists<'i, 'a> {
    index: &'i Index<'a>,
    plan: Plan,
    ghost in_range: { IsInRange index.now.collection },
}

impl<'i, 'a> IndexLists<'i, 'a> {
    /// The lists of this index.
    pub fn new(index: &'i Index<'a>, plan: Plan) -> IndexLists<'i, 'a>
        ensures index { result.index.now ≡ index.entry.now }
        ensures collection { ⟦<IndexLists<'i, 'a> as TermLists>⟧.collection result
            ≡ index.entry.now.collection }
    {
        documents_are_below(index);
        IndexLists { index, plan }
    }
}

impl<'i, 'a> TermLists for IndexLists<'i, 'a> {
    type Cursor = PostingCursor<'a>;

    ghost collection = { λ lists. lists.index.now.collection };

    fn documents(&self) -> u32 {
        self.index.documents()
    }

    fn terms(&self) -> u32 {
        self.index.terms()
    }

    fn first_posting(&self, term: u32, doc: u32) -> Option<(u32, u32)> {
        self.index.first_posting(term, doc)
    }

    fn put_cursor(
        &self,
        _alloc: Global,
        cursor: &mut PostingCursor<'a>,
        term: u32,
    ) -> Result<(), NoMemory> {
        *cursor = self.index.cursor(term);
        Ok(())
    }

    fn top(
        &self,
        alloc: Global,
        _terms: &[u32],
        cursors: &mut [PostingCursor<'a>],
        weights: &[u32],
        k: u32,
    ) -> Result<Vec<(u32, u64)>, NoMemory> {
        plan_top(
            alloc,
            self.plan,
            cursors,
            weights,
            k,
            self.index.documents(),
        )
    }

    ghost in_range = { λ lists. lists.in_range };
}

// The documents of the lists are below their number.
pub(crate) fn documents_are_below(index: &Index<'_>)
    ensures { IsInRange index.now.collection }
{
    index.stands_for_a_collection();
}
