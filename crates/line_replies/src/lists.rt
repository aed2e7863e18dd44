ghost use Rattle.std.specs.Prelude.{◌≡◌, ◌<◌, ◌^◌, map, length, option_map, IfOk, OnOk};
ghost use Rattle.std.specs.List.{All};
ghost use Rattle.collection_model.specs.Collection.{Collection, first_at_least, list_of};
ghost use Rattle.scan_plans.specs.IsTop.{IsTop};
ghost use Rattle.scan_plans.specs.TopQuery.{IsTopQuery};
ghost use Rattle.command_model.specs.Replies.{lists_of};
ghost use Rattle.segments.specs.Laws.{IsInRange};

use cursor_api::DocCursor;
use no_memory::NoMemory;
use smallvec::SmallVec;
use std::alloc::Global;
use std::default::MadeWith;

/// The cursors of a line. Up to four take no memory.
pub type LineCursors<C> = SmallVec<C, 4>;

/// What lines are answered from: the posting lists of a collection, and how the best documents of
/// some of them are found.
pub trait TermLists {
    /// A cursor over a list. A blank one takes no memory.
    type Cursor: DocCursor + MadeWith<Global> + Drop;

    ghost collection: { Self → Collection };

    /// How many documents there are.
    fn documents(&self) -> u32
        ensures { result ≡ (collection self.now).documents };

    /// How many lists there are.
    fn terms(&self) -> u32
        ensures { result ≡ length (collection self.now).lists };

    /// The first posting of a term's list whose document is at least this one, as document and
    /// frequency.
    fn first_posting(&self, term: u32, doc: u32) -> Option<(u32, u32)>
        requires { term < length (collection self.now).lists }
        ensures { result ≡ option_map (λ p. (p.doc, p.freq))
            (first_at_least (list_of (collection self.now) term) doc) };

    /// Puts a cursor at the start of a term's list in the place of another.
    fn put_cursor(
        &self,
        alloc: Global,
        cursor: &mut Self::Cursor,
        term: u32,
    ) -> Result<(), NoMemory>
        requires { term < length (collection self.now).lists }
        ensures list { OnOk result (Self.Cursor.list cursor.new
            ≡ list_of (collection self.now) term) }
        ensures start { OnOk result (Self.Cursor.place cursor.new ≡ 0) };

    /// The first k of the documents that are in any of the lists, by score falling and then
    /// document rising, each with its score. The terms and the weights are those of the cursors'
    /// lists, in the same order; a score stays below 2^58.
    fn top(
        &self,
        alloc: Global,
        terms: &[u32],
        cursors: &mut [Self::Cursor],
        weights: &[u32],
        k: u32,
    ) -> Result<Vec<(u32, u64)>, NoMemory>
        requires named { All (λ t. t < length (collection self.now).lists) terms.now }
        requires lists { map Self.Cursor.list cursors.old ≡ lists_of (collection self.now)
            terms.now }
        requires query { IsTopQuery Self.Cursor.list Self.Cursor.place
            (collection self.now).documents
            cursors.old weights.now }
        ensures first { IfOk result (λ r. IsTop (collection self.now).documents
            (map Self.Cursor.list cursors.old) weights.now k r.items) }
        ensures bound { IfOk result (λ r. All (λ e. e.1 < 2 ^ 58) r.items) };

    ghost in_range: { (lists : Self) → IsInRange (collection lists) };
}
