ghost use Rattle.std.specs.Prelude.{◌≡◌, ◌≢◌, ℕ, ◌+◌, ◌≤◌, ◌<◌, nat_le, length, slice_index};
ghost use Rattle.std.specs.List.{count_by};
ghost use Rattle.collection_model.specs.Collection.{docs_of, freqs_of, greatest_freq};
ghost use Rattle.collection_model.specs.NextBelow.{AreNextBelow};
ghost use Rattle.cursor_api.specs.NextGeq.{IsCursorList, next_geq_place, next_frequent_place};
ghost use Rattle.segments.specs.Joined.{joined_list};
ghost use Rattle.segments.specs.JoinedCursor.{parts_of, places_of, joined_place, StandsAt};

use crate::part::{reaches, reaches_frequency, read_docs, read_postings};
use cursor_api::{DocCursor, next_geq_is_first};

// The first part from this one on whose cursor is at a posting, or the number of parts. No part
// behind this one is read.
pub(crate) fn settled<C: DocCursor>(parts: &[(u32, C)], at: usize) -> usize
    requires within { at ≤ length parts.now }
    requires unread { (j : ℕ) → at < j → slice_index (places_of C.place parts.now) j ≡ 0 }
    ensures stands { StandsAt (parts_of C.list parts.now) (places_of C.place parts.now) result }
    ensures place { joined_place (parts_of C.list parts.now) (places_of C.place parts.now) result
        ≡ joined_place (parts_of C.list parts.now) (places_of C.place parts.now) at }
{
    for i in at..parts.len() {
        if parts[i].1.doc().is_some() {
            return i;
        }
    }
    parts.len()
}

// Goes on from the part at which it stands to the first document at or after d, and gives the part
// that has it, or the number of parts.
pub(crate) fn seek<C: DocCursor>(parts: &mut [(u32, C)], at: usize, d: u32) -> usize
    requires stands { StandsAt (parts_of C.list parts.old) (places_of C.place parts.old) at }
    ensures parts { parts_of C.list parts.new ≡ parts_of C.list parts.old }
    ensures stands { StandsAt (parts_of C.list parts.new) (places_of C.place parts.new) result }
    ensures place { joined_place (parts_of C.list parts.new) (places_of C.place parts.new) result
        ≡ next_geq_place (joined_list (parts_of C.list parts.old))
        (joined_place (parts_of C.list parts.old) (places_of C.place parts.old) at) d }
{
    next_geq_is_first();
    for i in at..parts.len() {
        if reaches(&mut parts[i], d) {
            return i;
        }
    }
    parts.len()
}

// Goes on from the part at which it stands to the first posting whose frequency is at least f, and
// gives the part that has it, or the number of parts.
pub(crate) fn seek_frequency<C: DocCursor>(parts: &mut [(u32, C)], at: usize, f: u32) -> usize
    requires stands { StandsAt (parts_of C.list parts.old) (places_of C.place parts.old) at }
    ensures parts { parts_of C.list parts.new ≡ parts_of C.list parts.old }
    ensures stands { StandsAt (parts_of C.list parts.new) (places_of C.place parts.new) result }
    ensures place { joined_place (parts_of C.list parts.new) (places_of C.place parts.new) result
        ≡ next_frequent_place (joined_list (parts_of C.list parts.old))
        (joined_place (parts_of C.list parts.old) (places_of C.place parts.old) at) f }
{
    for i in at..parts.len() {
        if reaches_frequency(&mut parts[i], f) {
            return i;
        }
    }
    parts.len()
}

// Gives the documents from the place on that are below `end`, as many as there are and have room,
// part by part, and goes behind them. It gives the part at which it stands then, and how many
// documents they are.
pub(crate) fn docs_from<C: DocCursor>(
    parts: &mut [(u32, C)],
    at: usize,
    end: u64,
    docs: &mut [u64],
) -> (usize, usize)
    requires stands { StandsAt (parts_of C.list parts.old) (places_of C.place parts.old) at }
    ensures parts { parts_of C.list parts.new ≡ parts_of C.list parts.old }
    ensures stands { StandsAt (parts_of C.list parts.new) (places_of C.place parts.new) result.0 }
    ensures place { joined_place (parts_of C.list parts.new) (places_of C.place parts.new) result.0
        ≡ joined_place (parts_of C.list parts.old) (places_of C.place parts.old) at + result.1 }
    ensures room { length docs.new ≡ length docs.old }
    ensures docs { AreNextBelow (docs_of (joined_list (parts_of C.list parts.old)))
        (joined_place (parts_of C.list parts.old) (places_of C.place parts.old) at) end docs.new
        result.1 }
{
    let mut count = 0;
    for i in at..parts.len() {
        let part = &mut parts[i];
        count += read_docs(part, end, &mut docs[count..]);
        if part.1.doc().is_some() {
            return (i, count);
        }
    }
    (parts.len(), count)
}

// Gives them with their frequencies.
pub(crate) fn postings_from<C: DocCursor>(
    parts: &mut [(u32, C)],
    at: usize,
    end: u64,
    docs: &mut [u64],
    freqs: &mut [u64],
) -> (usize, usize)
    requires stands { StandsAt (parts_of C.list parts.old) (places_of C.place parts.old) at }
    requires room { length docs.old ≤ length freqs.old }
    ensures parts { parts_of C.list parts.new ≡ parts_of C.list parts.old }
    ensures stands { StandsAt (parts_of C.list parts.new) (places_of C.place parts.new) result.0 }
    ensures place { joined_place (parts_of C.list parts.new) (places_of C.place parts.new) result.0
        ≡ joined_place (parts_of C.list parts.old) (places_of C.place parts.old) at + result.1 }
    ensures docs_room { length docs.new ≡ length docs.old }
    ensures freqs_room { length freqs.new ≡ length freqs.old }
    ensures docs { AreNextBelow (docs_of (joined_list (parts_of C.list parts.old)))
        (joined_place (parts_of C.list parts.old) (places_of C.place parts.old) at) end docs.new
        result.1 }
    ensures freqs { (j : ℕ) → j < result.1 → slice_index freqs.new j
        ≡ slice_index (freqs_of (joined_list (parts_of C.list parts.old)))
        (joined_place (parts_of C.list parts.old) (places_of C.place parts.old) at + j) }
{
    let mut count = 0;
    for i in at..parts.len() {
        let part = &mut parts[i];
        count += read_postings(part, end, &mut docs[count..], &mut freqs[count..]);
        if part.1.doc().is_some() {
            return (i, count);
        }
    }
    (parts.len(), count)
}

// How many postings all parts have.
pub(crate) fn count_all<C: DocCursor>(parts: &[(u32, C)]) -> u32
    requires list { IsCursorList (joined_list (parts_of C.list parts.now)) }
    ensures { result ≡ length (joined_list (parts_of C.list parts.now)) }
{
    let mut count = 0;
    for part in parts {
        count += part.1.len();
    }
    count
}

// The greatest frequency of all parts, 0 where they have no posting.
pub(crate) fn greatest_of<C: DocCursor>(parts: &[(u32, C)]) -> u32
    ensures { result ≡ greatest_freq (joined_list (parts_of C.list parts.now)) }
{
    let mut most = 0;
    for part in parts {
        most = part.1.max_freq().max(most);
    }
    most
}

// The greatest frequency of which a part tells that k of its postings reach it, 0 where none is
// told.
pub(crate) fn common_of<C: DocCursor>(parts: &[(u32, C)], k: u32) -> u32
    requires some { 1 ≤ k }
    ensures { result ≢ 0 → k ≤ count_by (λ f. nat_le result f)
        (freqs_of (joined_list (parts_of C.list parts.now))) }
{
    let mut most = 0;
    for part in parts {
        most = part.1.common_freq(k).max(most);
    }
    most
}
