ghost use Rattle.std.specs.Prelude.{◌≡◌, ℕ, ◌+◌, ◌≤◌, ◌++◌, [], ◌∷◌, flat_map, length, map, option_map, sum, IfOk, IsTrue, None, Some};
ghost use Rattle.std.specs.List.{All};
ghost use Rattle.collection_model.specs.Collection.{first_at_least, list_of};
ghost use Rattle.segments.specs.Joined.{documents_in, joined_list, joined_wide, most_joined, most_terms_in, shifted, EndsBelow, FollowInOrder};
ghost use Rattle.segments.specs.JoinedCursor.{part_of, parts_of};
ghost use Rattle.segments.specs.Laws.{IsInRange};
ghost use Rattle.segments.specs.Totals.{most_total, total_at, AreTooFrequent, SumsFit};
ghost use Rattle.index_reading.specs.JoinedIndexes.{collections_of};
ghost use Rattle.index_reading.specs.InTurn.{placed_in, StandsBefore};
ghost use Rattle.index_reading.specs.JoinedSegments.{collections_in, lists_in, AreSegments, PassesAt};

use crate::lists::total_of;
use crate::part::Part;
use crate::sizes::add_sizes;
use crate::source::ListSource;
use crate::turn::JoinedLists;
use cursor_api::DocCursor;
use index_file::Index;
use no_memory::NoMemory;
use open_index::OpenIndex;
use postings::PostingCursor;
use segments::{JoinedCursor, joined_lists_follow};
use std::alloc::{AllocError, Global};
use std::default::MadeWith;

// The greatest sum of the frequencies of a list of a packed file.
const MOST_TOTAL: u64 = 1 << 48;

// An index, and how many documents those before it have.
#[derive(Drop)]
struct Segment<'a> {
    first: u32,
    index: Index<'a>,
}

impl<'a> Segment<'a> {
    // The first posting of a term whose document, counted on from the first of the segment, is at
    // least this one.
    fn first_posting(&self, term: u32, doc: u32) -> Option<(u32, u32)>
        requires in_range { IsInRange self.now.index.collection }
        requires few { EndsBelow (part_of self.now.first (list_of self.now.index.collection term))
            most_joined }
        ensures { result ≡ option_map (λ p. (p.doc, p.freq)) (first_at_least
            (shifted self.now.first (list_of self.now.index.collection term)) doc) }
    {
        if self.index.terms() <= term {
            return None;
        }
        let from = doc.saturating_sub(self.first);
        if self.index.documents() <= from {
            return None;
        }
        let (found, freq) = self.index.first_posting(term, from)?;
        Some((self.first + found, freq))
    }

    // A cursor at the start of a term's list, which is empty where the index has no such term.
    fn cursor(&self, alloc: Global, term: u32) -> PostingCursor<'a>
        ensures list { ⟦<PostingCursor<'a> as DocCursor>⟧.list result
            ≡ list_of self.now.index.collection term }
        ensures start { ⟦<PostingCursor<'a> as DocCursor>⟧.place result ≡ 0 }
    {
        if self.index.terms() <= term {
            return PostingCursor::made_with(alloc);
        }
        self.index.cursor(term)
    }

    // The sum of the frequencies of a term's list.
    fn total(&self, alloc: Global, term: u32) -> u64
        ensures value { result ≡ total_at term self.now.index.collection }
        ensures within { result ≤ most_total }
    {
        self.index.stands_for_a_collection();
        total_of(&mut self.cursor(alloc, term))
    }

    // No less than that sum, told by how many postings the list has and by the greatest of its
    // frequencies. None of them is read.
    fn bound(&self, alloc: Global, term: u32) -> u64
        ensures { total_at term self.now.index.collection ≤ result }
    {
        let cursor = self.cursor(alloc, term);
        u64::from(cursor.len()) * u64::from(cursor.max_freq())
    }

    // No less than the sum of the frequencies of any list, told by how many documents there are.
    fn bound_of_all(&self) -> u64
        ensures { (t : ℕ) → total_at t self.now.index.collection ≤ result }
    {
        self.index.stands_for_a_collection();
        u64::from(self.index.documents()) * (1 << 32)
    }
}

/// Several indexes as one. One that has fewer terms than another has empty lists for the others.
#[derive(Drop)]
pub struct JoinedIndexes<'a> {
    segments: Vec<Segment<'a>>,
    documents: u32,
    ghost follow: { AreSegments segments.items },
    ghost count: { documents ≡ documents_in (collections_in segments.items) },
    ghost in_range: { IsInRange (joined_wide (collections_in segments.items)) },
}

impl<'a> JoinedIndexes<'a> {
    /// These indexes, in this order.
    pub fn new(alloc: Global, indexes: &'a [OpenIndex]) -> Result<JoinedIndexes<'a>, NoMemory>
        requires { documents_in (collections_of indexes.now) ≤ most_joined }
        ensures joined { IfOk result (λ joined. collections_in joined.segments.items
            ≡ collections_of indexes.entry.now) }
        ensures collection { IfOk result (λ joined.
            ⟦<JoinedIndexes<'a> as ListSource>⟧.collection joined
            ≡ joined_wide (collections_of indexes.entry.now)) }
    {
        let mut joined = JoinedIndexes::with_capacity(alloc, indexes.len())?;
        for opened in indexes {
            joined = joined.with(opened.index())?;
        }
        Ok(joined)
    }

    /// No index, with room for so many.
    pub fn with_capacity(alloc: Global, count: usize) -> Result<JoinedIndexes<'a>, NoMemory>
        ensures { IfOk result (λ joined. collections_in joined.segments.items ≡ []) }
    {
        joined_lists_follow();
        let segments = Vec::with_capacity(alloc, count)?;
        Ok(JoinedIndexes {
            segments,
            documents: 0,
        })
    }

    /// These, and an index behind them.
    pub fn with(self, index: Index<'a>) -> Result<JoinedIndexes<'a>, NoMemory>
        requires { documents_in (collections_in self.segments.items) + index.collection.documents
            ≤ most_joined }
        ensures { IfOk result (λ joined. collections_in joined.segments.items
            ≡ collections_in self.entry.segments.items ++ index.entry.collection ∷ []) }
    {
        joined_lists_follow();
        let documents = self.documents;
        let segments = self.segments;
        let (segments, documents) = with_segment(segments, documents, index)?;
        Ok(JoinedIndexes {
            segments,
            documents,
        })
    }

    /// What they are joined to: its documents are below their number.
    pub fn stands_for_a_collection(&self)
        ensures { IsInRange (⟦<JoinedIndexes<'a> as ListSource>⟧.collection self.now) }
    {
        let _segments = &self.segments;
    }

    /// The first posting of a term's list whose document is at least this one, as document and
    /// frequency.
    pub fn first_posting(&self, term: u32, doc: u32) -> Option<(u32, u32)>
        ensures { result ≡ option_map (λ p. (p.doc, p.freq)) (first_at_least
            (list_of (⟦<JoinedIndexes<'a> as ListSource>⟧.collection self.now) term) doc) }
    {
        joined_lists_follow();
        first_in(&self.segments, term, doc)
    }

    /// Of the least term whose frequencies sum to more than 2^48, the first index with which they
    /// do; None where there is none.
    pub fn too_frequent(&self, alloc: Global) -> Option<u64>
        ensures none { result ≡ None → SumsFit (collections_in self.now.segments.items) }
        ensures some { (s : ℕ) → result ≡ Some s
            → AreTooFrequent (collections_in self.now.segments.items) s }
    {
        if all_surely_fit(&self.segments) {
            return None;
        }
        let walked = walked_of(&self.segments);
        for term in 0..walked {
            let passing = passing_segment(alloc, &self.segments, term);
            if passing.is_some() {
                return passing;
            }
        }
        None
    }
}

impl<'a> ListSource for JoinedIndexes<'a> {
    type Cursor = JoinedCursor<PostingCursor<'a>>;

    type Lists = JoinedLists<'a>;

    ghost collection = { λ joined. joined_wide (collections_in joined.segments.items) };

    fn documents(&self) -> u32 {
        self.documents
    }

    fn terms(&self) -> u32 {
        terms_of(&self.segments)
    }

    fn walked_terms(&self) -> u32 {
        joined_lists_follow();
        walked_of(&self.segments)
    }

    fn list_cursor(
        &self,
        alloc: Global,
        term: u32,
    ) -> Result<JoinedCursor<PostingCursor<'a>>, NoMemory> {
        joined_lists_follow();
        let parts = parts_at(alloc, &self.segments, term)?;
        Ok(JoinedCursor::new(parts))
    }

    fn lists_in_turn(&self, alloc: Global) -> Result<JoinedLists<'a>, NoMemory> {
        let parts = parts_in_turn(alloc, &self.segments)?;
        JoinedLists::new(alloc, parts)
    }

    fn document_sizes(&self, alloc: Global) -> Result<Vec<u32>, NoMemory> {
        Ok(sizes_in(alloc, &self.segments)?)
    }
}

// Segments with that of an index behind them, and how many documents all have.
fn with_segment<'a>(
    mut segments: Vec<Segment<'a>>,
    documents: u32,
    index: Index<'a>,
) -> Result<(Vec<Segment<'a>>, u32), NoMemory>
    requires segments { AreSegments segments.items }
    requires documents { documents ≡ documents_in (collections_in segments.items) }
    requires few { documents_in (collections_in segments.items) + index.collection.documents
        ≤ most_joined }
    ensures segments { IfOk result (λ r. AreSegments r.0.items) }
    ensures documents { IfOk result (λ r. r.1 ≡ documents_in (collections_in r.0.items)) }
    ensures collections { IfOk result (λ r. collections_in r.0.items
        ≡ collections_in segments.entry.items ++ index.entry.collection ∷ []) }
{
    index.stands_for_a_collection();
    let total = documents + index.documents();
    segments.push(Segment {
        first: documents,
        index,
    })?;
    Ok((segments, total))
}

// The most terms that a segment has.
fn terms_of(segments: &[Segment<'_>]) -> u32
    ensures { result ≡ most_terms_in (collections_in segments.now) }
{
    let mut most = 0;
    for segment in segments {
        most = segment.index.terms().max(most);
    }
    most
}

// How many lists of segments a walk over all looks at.
fn walked_of(segments: &[Segment<'_>]) -> u32
    ensures within { result ≤ most_terms_in (collections_in segments.now) }
    ensures rest { (t : ℕ) → result ≤ t
        → All (λ c. list_of c t ≡ []) (collections_in segments.now) }
{
    let mut most = 0;
    for segment in segments {
        most = segment.index.walked_terms().max(most);
    }
    most
}

// The sizes of the documents of segments, one segment after the other.
fn sizes_in(alloc: Global, segments: &[Segment<'_>]) -> Result<Vec<u32>, AllocError>
    ensures { IfOk result (λ sizes. sizes.items
        ≡ flat_map (λ c. c.sizes) (collections_in segments.now)) }
{
    let mut sizes = Vec::new(alloc);
    for segment in segments {
        add_sizes(&segment.index, &mut sizes)?;
    }
    Ok(sizes)
}

// The first posting of a term whose document is at least this one, in the first segment that has
// such a posting.
fn first_in(segments: &[Segment<'_>], term: u32, doc: u32) -> Option<(u32, u32)>
    requires in_range { All IsInRange (collections_in segments.now) }
    requires follow { FollowInOrder (lists_in segments.now term) }
    ensures { result ≡ option_map (λ p. (p.doc, p.freq))
        (first_at_least (joined_list (lists_in segments.now term)) doc) }
{
    for segment in segments {
        let found = segment.first_posting(term, doc);
        if found.is_some() {
            return found;
        }
    }
    None
}

// A cursor at the start of a term's list in each segment, with the first document of the segment.
fn parts_at<'a>(
    alloc: Global,
    segments: &[Segment<'a>],
    term: u32,
) -> Result<Vec<(u32, PostingCursor<'a>)>, NoMemory>
    ensures lists { IfOk result (λ parts. parts_of (⟦<PostingCursor<'a> as DocCursor>⟧.list)
        parts.items ≡ lists_in segments.now term) }
    ensures start { IfOk result (λ parts. All
        (λ p. ⟦<PostingCursor<'a> as DocCursor>⟧.place p.1 ≡ 0) parts.items) }
{
    let mut parts = Vec::with_capacity(alloc, segments.len())?;
    for segment in segments {
        parts.push((segment.first, segment.cursor(alloc, term)))?;
    }
    Ok(parts)
}

// The lists of segments in turn, from the first on.
fn parts_in_turn<'a>(alloc: Global, segments: &[Segment<'a>]) -> Result<Vec<Part<'a>>, NoMemory>
    ensures placed { IfOk result (λ parts. placed_in parts.items
        ≡ map (λ s. (s.first, s.index.collection)) segments.now) }
    ensures start { IfOk result (λ parts. All (StandsBefore 0) parts.items) }
{
    let mut parts = Vec::with_capacity(alloc, segments.len())?;
    for segment in segments {
        let lists = segment.index.lists_in_turn();
        parts.push(Part {
            first: segment.first,
            next: lists.next(),
            lists,
        })?;
    }
    Ok(parts)
}

// The segment with which the frequencies of a term's list sum to too much, if they do.
fn passing_segment(alloc: Global, segments: &[Segment<'_>], term: u32) -> Option<u64>
    ensures { PassesAt (collections_in segments.now) term result }
{
    if surely_fits(alloc, segments, term) {
        return None;
    }
    let mut total = 0;
    for (s, segment) in segments.iter().enumerate() {
        total += segment.total(alloc, term);
        if total > MOST_TOTAL {
            return Some(s as u64);
        }
    }
    None
}

// Whether it is told without reading a posting that the frequencies of a term's list do not sum to
// too much.
fn surely_fits(alloc: Global, segments: &[Segment<'_>], term: u32) -> bool
    ensures { IsTrue result → PassesAt (collections_in segments.now) term None }
{
    let mut room = MOST_TOTAL;
    for segment in segments {
        let bound = segment.bound(alloc, term);
        if bound > room {
            return false;
        }
        room -= bound;
    }
    true
}

// Whether there are so few documents that those of no list do.
fn all_surely_fit(segments: &[Segment<'_>]) -> bool
    ensures { IsTrue result → SumsFit (collections_in segments.now) }
{
    let mut room = MOST_TOTAL;
    for segment in segments {
        let bound = segment.bound_of_all();
        if bound > room {
            return false;
        }
        room -= bound;
    }
    true
}
