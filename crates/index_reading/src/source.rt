ghost use Rattle.std.specs.Prelude.{◌≡◌, ℕ, ◌+◌, ◌≤◌, ◌<◌, [], length, IfOk, OnOk};
ghost use Rattle.collection_model.specs.Collection.{Collection, list_of, postings_of};

use crate::sizes::add_sizes;
use crate::turn::IndexLists;
use cursor_api::DocCursor;
use index_file::Index;
use no_memory::NoMemory;
use postings::PostingCursor;
use std::alloc::{AllocError, Global};

/// The lists of a collection, which are read one after the other.
pub trait ReadLists {
    ghost collection: { Self → Collection };

    /// The list that is read next.
    ghost stands_before: { ℕ → Self → Type 0 };

    /// Reads the list of a term, which is the next, in place of what the vectors hold: the
    /// documents, and the frequency of each.
    fn read_next(
        &mut self,
        term: u32,
        docs: &mut Vec<u32>,
        freqs: &mut Vec<u32>,
    ) -> Result<(), AllocError>
        requires within { term < length (collection self.old).lists }
        requires next { stands_before term self.old }
        ensures collection { OnOk result (collection self.new ≡ collection self.old) }
        ensures next { OnOk result (stands_before (term + 1) self.new) }
        ensures same_length { OnOk result (length docs.new.items ≡ length freqs.new.items) }
        ensures list { OnOk result (postings_of docs.new.items freqs.new.items
            ≡ list_of (collection self.old) term) };
}

/// A collection whose lists are read one after the other, and then its sizes: that of an index, or
/// that to which several are joined.
pub trait ListSource {
    /// A cursor over a list.
    type Cursor: DocCursor + Drop;

    /// Its lists, read one after the other.
    type Lists: ReadLists + Drop;

    ghost collection: { Self → Collection };

    /// How many documents there are.
    fn documents(&self) -> u32
        ensures { result ≡ (collection self.now).documents };

    /// How many lists there are.
    fn terms(&self) -> u32
        ensures { result ≡ length (collection self.now).lists };

    /// How many lists a walk over all has to look at: those from there on have no postings.
    fn walked_terms(&self) -> u32
        ensures within { result ≤ length (collection self.now).lists }
        ensures rest { (t : ℕ) → result ≤ t → list_of (collection self.now) t ≡ [] };

    /// A cursor at the start of a term's list.
    fn list_cursor(&self, alloc: Global, term: u32) -> Result<Self::Cursor, NoMemory>
        requires { term < length (collection self.now).lists }
        ensures list { IfOk result (λ c. Self.Cursor.list c ≡ list_of (collection self.now) term) }
        ensures start { IfOk result (λ c. Self.Cursor.place c ≡ 0) };

    /// Its lists, from the first on.
    fn lists_in_turn(&self, alloc: Global) -> Result<Self::Lists, NoMemory>
        ensures collection { IfOk result (λ r. Self.Lists.collection r ≡ collection self.now) }
        ensures start { IfOk result (λ r. Self.Lists.stands_before 0 r) };

    /// The size of each document, in the order of the documents.
    fn document_sizes(&self, alloc: Global) -> Result<Vec<u32>, NoMemory>
        ensures { IfOk result (λ sizes. sizes.items ≡ (collection self.now).sizes) };
}

impl<'a> ListSource for Index<'a> {
    type Cursor = PostingCursor<'a>;

    type Lists = IndexLists<'a>;

    ghost collection = { λ index. index.collection };

    fn documents(&self) -> u32 {
        Index::documents(self)
    }

    fn terms(&self) -> u32 {
        Index::terms(self)
    }

    fn walked_terms(&self) -> u32 {
        Index::walked_terms(self)
    }

    fn list_cursor(&self, _alloc: Global, term: u32) -> Result<PostingCursor<'a>, NoMemory> {
        Ok(self.cursor(term))
    }

    fn lists_in_turn(&self, _alloc: Global) -> Result<IndexLists<'a>, NoMemory> {
        Ok(IndexLists::of(self))
    }

    fn document_sizes(&self, alloc: Global) -> Result<Vec<u32>, NoMemory> {
        let mut sizes = Vec::new(alloc);
        add_sizes(self, &mut sizes)?;
        Ok(sizes)
    }
}
