ghost use Rattle.std.specs.Prelude.{◌≡◌, ◌≤◌, ◌<◌, ◌^◌, length, map, drop, min, slice_index, None, Some};
ghost use Rattle.collection_model.specs.Collection.{list_of, first_at_least};
ghost use Rattle.collection_model.specs.Collection as model;
ghost use Rattle.index_file.specs.FileWords.{IsIndex};
ghost use Rattle.pefidx_c.specs.Asked.{collection_in};
ghost use Rattle.pefidx_c.specs.Kept.{AreKept};
ghost use Rattle.pefidx_c.specs.Rooms.{posting_of, put_in};
ghost use Rattle.pefidx_c.specs.StatusNumber.{number_of};

use crate::kept::{index_of, posting_from};
use crate::status::Status;
use cursor_api::DocCursor;
use index_file::Index;

/// A document with how often a term occurs in it.
#[repr(C)]
#[derive(Clone, Copy, Drop)]
pub struct Posting {
    pub doc: u32,
    pub freq: u32,
}

/// How many documents the index has.
#[unsafe(no_mangle)]
pub extern "C" fn pefidx_documents(words: &[u64]) -> u32
    requires few { length words.now < 2 ^ 57 }
    requires index { IsIndex words.now }
    ensures { result ≡ (collection_in words.now).documents }
{
    Index::known(words).documents()
}

/// How many terms it has.
#[unsafe(no_mangle)]
pub extern "C" fn pefidx_terms(words: &[u64]) -> u32
    requires few { length words.now < 2 ^ 57 }
    requires index { IsIndex words.now }
    ensures { result ≡ length (collection_in words.now).lists }
{
    Index::known(words).terms()
}

/// The size of a document.
#[unsafe(no_mangle)]
pub extern "C" fn pefidx_size_of(words: &[u64], doc: u32, size: &mut u32) -> u32
    requires few { length words.now < 2 ^ 57 }
    requires index { IsIndex words.now }
    ensures no_document { (collection_in words.now).documents ≤ doc
        → (result ≡ number_of Status.NoDocument) × (size.new ≡ size.old) }
    ensures size { doc < (collection_in words.now).documents
        → (result ≡ number_of Status.Done) × (size.new
        ≡ slice_index (collection_in words.now).sizes doc) }
{
    let index = Index::known(words);
    if doc >= index.documents() {
        return Status::NoDocument.number();
    }
    *size = index.size_of(doc);
    Status::Done.number()
}

/// The first posting of a term's list whose document is at least `doc`.
#[unsafe(no_mangle)]
pub extern "C" fn pefidx_next(
    words: &[u64],
    kept: &[u64],
    term: u32,
    doc: u32,
    found: &mut Posting,
) -> u32
    requires few { length words.now < 2 ^ 57 }
    requires index { IsIndex words.now }
    requires kept { AreKept words.now kept.now }
    ensures no_term { length (collection_in words.now).lists ≤ term
        → (result ≡ number_of Status.NoTerm) × (found.new ≡ found.old) }
    ensures end { term < length (collection_in words.now).lists
        → first_at_least (list_of (collection_in words.now) term) doc ≡ None
        → (result ≡ number_of Status.End) × (found.new ≡ found.old) }
    ensures found { (p : model.Posting) → term < length (collection_in words.now).lists
        → first_at_least (list_of (collection_in words.now) term) doc ≡ Some p
        → (result ≡ number_of Status.Done) × (posting_of found.new ≡ p) }
{
    let index = index_of(words, kept);
    if term >= index.terms() {
        return Status::NoTerm.number();
    }
    match posting_from(words, kept, &index, term, doc) {
        Some((doc, freq)) => {
            *found = Posting { doc, freq };
            Status::Done.number()
        }
        None => Status::End.number(),
    }
}

/// How many postings a term's list has.
#[unsafe(no_mangle)]
pub extern "C" fn pefidx_count(words: &[u64], kept: &[u64], term: u32, postings: &mut u32) -> u32
    requires few { length words.now < 2 ^ 57 }
    requires index { IsIndex words.now }
    requires kept { AreKept words.now kept.now }
    ensures no_term { length (collection_in words.now).lists ≤ term
        → (result ≡ number_of Status.NoTerm) × (postings.new ≡ postings.old) }
    ensures count { term < length (collection_in words.now).lists
        → (result ≡ number_of Status.Done)
        × (postings.new ≡ length (list_of (collection_in words.now) term)) }
{
    let index = index_of(words, kept);
    if term >= index.terms() {
        return Status::NoTerm.number();
    }
    *postings = index.cursor(term).len();
    Status::Done.number()
}

/// The postings of a term's list from a place on, as many as there is room for, and how many these
/// are. Places count from 0. From a place at or behind the end there are none.
#[unsafe(no_mangle)]
pub extern "C" fn pefidx_postings(
    words: &[u64],
    kept: &[u64],
    term: u32,
    place: u32,
    postings: &mut [Posting],
    count: &mut usize,
) -> u32
    requires few { length words.now < 2 ^ 57 }
    requires index { IsIndex words.now }
    requires kept { AreKept words.now kept.now }
    ensures no_term { length (collection_in words.now).lists ≤ term
        → (result ≡ number_of Status.NoTerm) × (postings.new ≡ postings.old)
        × (count.new ≡ count.old) }
    ensures done { term < length (collection_in words.now).lists → result ≡ number_of Status.Done }
    ensures count { term < length (collection_in words.now).lists
        → count.new ≡ min (length postings.old)
        (length (drop place (list_of (collection_in words.now) term))) }
    ensures postings { term < length (collection_in words.now).lists
        → map posting_of postings.new ≡ put_in (map posting_of postings.old)
        (drop place (list_of (collection_in words.now) term)) }
{
    let index = index_of(words, kept);
    if term >= index.terms() {
        return Status::NoTerm.number();
    }
    let mut cursor = index.cursor(term);
    cursor.move_to(place.min(cursor.len()));
    *count = take_postings(&mut cursor, postings);
    Status::Done.number()
}

// Puts the postings from the cursor's place on into a room, as many as it holds, and tells how many
// they are.
fn take_postings<C: DocCursor>(cursor: &mut C, room: &mut [Posting]) -> usize
    ensures count { result ≡ min (length room.old)
        (length (drop (C.place cursor.old) (C.list cursor.old))) }
    ensures postings { map posting_of room.new
        ≡ put_in (map posting_of room.old) (drop (C.place cursor.old) (C.list cursor.old)) }
{
    for count in 0..room.len() {
        match cursor.doc() {
            Some(doc) => {
                let freq = cursor.freq();
                room[count] = Posting { doc, freq };
                cursor.advance();
            }
            None => return count,
        }
    }
    room.len()
}
