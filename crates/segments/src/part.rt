ghost use Rattle.std.specs.Prelude.{◌≡◌, ℕ, ◌+◌, ◌≤◌, ◌<◌, ◌^◌, true, false, length, slice_get, slice_index, option_map};
ghost use Rattle.std.specs.List.{All};
ghost use Rattle.collection_model.specs.Collection.{docs_of, freqs_of};
ghost use Rattle.collection_model.specs.NextBelow.{AreNextBelow};
ghost use Rattle.cursor_api.specs.Laws.{IsNextGeq};
ghost use Rattle.cursor_api.specs.NextGeq.{next_frequent_place};
ghost use Rattle.segments.specs.Joined.{shifted};

use cursor_api::{DocCursor, next_geq_is_first};

// The document at which the cursor of a part stands, counted on from the first of its segment, None
// at its end.
pub(crate) fn part_doc<C: DocCursor>(part: &(u32, C)) -> Option<u32>
    requires few { All (λ d. d < 4294967295) (docs_of (shifted part.now.0 (C.list part.now.1))) }
    ensures { result ≡ option_map (λ p. p.doc)
        (slice_get (shifted part.now.0 (C.list part.now.1)) (C.place part.now.1)) }
{
    Some(part.0 + part.1.doc()?)
}

// Brings the cursor of a part to its first document at or after d, and tells whether there is one.
pub(crate) fn reaches<C: DocCursor>(part: &mut (u32, C), d: u32) -> bool
    ensures first { part.new.0 ≡ part.old.0 }
    ensures list { C.list part.new.1 ≡ C.list part.old.1 }
    ensures place { IsNextGeq (shifted part.old.0 (C.list part.old.1)) (C.place part.old.1) d
        (C.place part.new.1) }
    ensures there { result ≡ true → C.place part.new.1 < length (C.list part.old.1) }
    ensures ended { result ≡ false → C.place part.new.1 ≡ length (C.list part.old.1) }
{
    next_geq_is_first();
    part.1.next_geq(d.saturating_sub(part.0));
    part.1.doc().is_some()
}

// Brings the cursor of a part to its first posting whose frequency is at least f, and tells whether
// there is one.
pub(crate) fn reaches_frequency<C: DocCursor>(part: &mut (u32, C), f: u32) -> bool
    ensures first { part.new.0 ≡ part.old.0 }
    ensures list { C.list part.new.1 ≡ C.list part.old.1 }
    ensures place { C.place part.new.1 ≡ next_frequent_place (C.list part.old.1)
        (C.place part.old.1) f }
    ensures there { result ≡ true → C.place part.new.1 < length (C.list part.old.1) }
    ensures ended { result ≡ false → C.place part.new.1 ≡ length (C.list part.old.1) }
{
    part.1.next_frequent(f);
    part.1.doc().is_some()
}

// Counts documents on from a first one.
fn count_on(docs: &mut [u64], first: u64)
    requires fit { All (λ d. first + d < 2 ^ 64) docs.old }
    ensures count { length docs.new ≡ length docs.old }
    ensures each { (j : ℕ) → j < length docs.old
        → slice_index docs.new j ≡ first + slice_index docs.old j }
{
    for doc in docs.iter_mut() {
        *doc += first;
    }
}

// Gives the documents of a part, counted on from the first of its segment, from the place on that
// are below `end`, as many as there are and have room, and goes behind them.
pub(crate) fn read_docs<C: DocCursor>(part: &mut (u32, C), end: u64, docs: &mut [u64]) -> usize
    ensures first { part.new.0 ≡ part.old.0 }
    ensures list { C.list part.new.1 ≡ C.list part.old.1 }
    ensures place { C.place part.new.1 ≡ C.place part.old.1 + result }
    ensures room { length docs.new ≡ length docs.old }
    ensures docs { AreNextBelow (docs_of (shifted part.old.0 (C.list part.old.1)))
        (C.place part.old.1) end docs.new result }
{
    let first = part.0;
    let count = part.1.docs_below(end.saturating_sub(first as u64), docs);
    count_on(&mut docs[..count], first as u64);
    count
}

// Gives them with their frequencies.
pub(crate) fn read_postings<C: DocCursor>(
    part: &mut (u32, C),
    end: u64,
    docs: &mut [u64],
    freqs: &mut [u64],
) -> usize
    requires room { length docs.old ≤ length freqs.old }
    ensures first { part.new.0 ≡ part.old.0 }
    ensures list { C.list part.new.1 ≡ C.list part.old.1 }
    ensures place { C.place part.new.1 ≡ C.place part.old.1 + result }
    ensures docs_room { length docs.new ≡ length docs.old }
    ensures freqs_room { length freqs.new ≡ length freqs.old }
    ensures docs { AreNextBelow (docs_of (shifted part.old.0 (C.list part.old.1)))
        (C.place part.old.1) end docs.new result }
    ensures freqs { (j : ℕ) → j < result → slice_index freqs.new j
        ≡ slice_index (freqs_of (C.list part.old.1)) (C.place part.old.1 + j) }
{
    let first = part.0;
    let count = part
        .1
        .postings_below(end.saturating_sub(first as u64), docs, freqs);
    count_on(&mut docs[..count], first as u64);
    count
}
