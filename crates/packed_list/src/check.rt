ghost use Rattle.std.specs.Prelude.{◌≡◌, ℕ, ◌+◌, ◌*◌, ◌^◌, ◌<◌, ◌≤◌, ◌↔◌, if◌then◌else◌, IsTrue, true, Some, None, List, length, slice_index, IfSome, IfNone};
ghost use Rattle.collection_model.specs.Collection.{Collection, Posting, greatest, list_of};
ghost use Rattle.collection_model.specs.Sequences.{doc_sequence, freq_sequence, steps_from};
ghost use Rattle.bit_words.specs.Bits.{bits_of};
ghost use Rattle.collection_model.specs.FormatNumbers.{format_three};
ghost use Rattle.part_cost.specs.Stored.{HoldsPart};
ghost use Rattle.part_codec.specs.PartBits.{part_bits};
ghost use Rattle.packed_sequence.specs.SequencePlaces.{IsSequenceBefore, IsPartedHead};
ghost use Rattle.packed_list.specs.ListPlaces.{IsFound, HoldsTail, HoldsList, IsTailBetween, IsListBetween};

use crate::gamma::gammas_before;
use crate::sink::{ListHead, ListRoom, ListSink, NoLists};
use bit_words::{Bits, words_are_bits};
use packed_sequence::{LastField, last_doc, last_sum, one_sequence_at_place, sequence_words_fit};
use part_codec::{check_part, check_part_into, check_part_steps, part_takes_its_payload};
use part_cost::{Format, PlacedPart, digits, parts_are_short, payload_bits};
use postings::{sequences_are_a_list, sequences_give_their_list, sequences_of_a_list_rise};
use two_level::{SeqShape, SeqView};

// What a check finds out of the bits of a sequence: the place behind them, and its greatest step,
// where it is asked for.
#[derive(Clone, Copy)]
pub(crate) struct Found {
    pub(crate) behind: u64,
    pub(crate) greatest: Option<u64>,
}

// What is looked for: a sequence of m values below a bound, whose last value is written so where it
// is one part; and its greatest step, where it is asked for.
#[derive(Clone, Copy)]
pub(crate) struct Sought {
    pub(crate) m: u32,
    pub(crate) bound: u64,
    pub(crate) last: LastField,
    pub(crate) with_steps: bool,
    ghost many: { 2 ≤ m },
    ghost few: { m < 2 ^ 32 },
    ghost bound_fits: { bound ≤ format_three.most_sum },
    ghost narrow: { last.width ≤ 64 },
    ghost little: { last.less < 2 ^ 32 },
}

// What is found, with the greatest step where it is asked for.
fn found_up_to(behind: u64, step: u64, sought: Sought) -> Found
    ensures behind { result.behind ≡ behind }
    ensures step { result.greatest ≡ (if sought.with_steps then Some step else None) }
{
    let greatest = if sought.with_steps { Some(step) } else { None };
    Found { behind, greatest }
}

// A sequence that stands as one part, behind a zero.
fn check_lone(words: &[u64], at: u64, end: u64, sought: Sought, to: &mut [u64]) -> Option<Found>
    requires words { length words.now < 2 ^ 57 }
    requires room { 1 ≤ length to.old → length to.old ≡ sought.m }
    requires within { at < end }
    requires range { end ≤ 64 * length words.now }
    requires flag { slice_index (bits_of words.now) at ≡ 0 }
    ensures room { length to.new ≡ length to.old }
    ensures some { IfSome result (λ found. (is : IsFound sought.last sought.m sought.bound
        sought.with_steps (bits_of words.now) at end found)
        × (1 ≤ length to.old → to.new ≡ is.values)) }
    ensures none { IfNone result ((xs ends : List ℕ)
        → ¬ IsSequenceBefore sought.last sought.m sought.bound (bits_of words.now) at end xs ends) }
{
    part_takes_its_payload();
    parts_are_short();
    let bits = Bits { words };
    let m = u64::from(sought.m);
    let place = at + 1 + u64::from(sought.last.width);
    if end < place {
        return None;
    }
    let field = bits.get(at + 1, sought.last.width);
    if sought.bound.saturating_sub(sought.last.less) <= field {
        return None;
    }
    let universe = field + sought.last.less + 1;
    if universe < m {
        return None;
    }
    let behind = place + payload_bits(universe, m);
    if end < behind {
        return None;
    }
    let part = PlacedPart::at(bits, place, universe, m);
    match check_step(part, sought.with_steps, to) {
        Some(step) => Some(found_up_to(behind, step, sought)),
        None => None,
    }
}

// The greatest step of a part's values, where it is asked for, None where its bits are those of
// none. The values are given where there is room for any.
fn check_step(part: PlacedPart<'_>, with_steps: bool, to: &mut [u64]) -> Option<u64>
    requires room { 1 ≤ length to.old → length to.old ≡ part.m }
    ensures room { length to.new ≡ length to.old }
    ensures some { IfSome result (λ step. (ys : List ℕ)
        × HoldsPart part_bits (bits_of part.entry.bits.words.now) part.entry.place part.entry.u
        part.entry.m ys × (with_steps ≡ true → step ≡ greatest (steps_from 0 ys))
        × (1 ≤ length to.old → to.new ≡ ys)) }
    ensures none { IfNone result ((ys : List ℕ)
        → ¬ HoldsPart part_bits (bits_of part.entry.bits.words.now) part.entry.place part.entry.u
        part.entry.m ys) }
{
    if !to.is_empty() {
        check_part_into(part, with_steps, 0, to)
    } else if with_steps {
        check_part_steps(part)
    } else if check_part(part) {
        Some(0)
    } else {
        None
    }
}

// How a sequence in several parts begins: their number, and the word at which its words begin.
#[derive(Clone, Copy)]
struct PartedHead {
    parts: u32,
    start: u64,
}

// The number of parts behind a one, and zeros up to the next word.
fn parted_head(words: &[u64], at: u64, end: u64, m: u32) -> Option<PartedHead>
    requires words { length words.now < 2 ^ 57 }
    requires within { at < end }
    requires range { end ≤ 64 * length words.now }
    ensures some { IfSome result (λ head. IsPartedHead m (bits_of words.now) at end head.parts
        head.start) }
    ensures none { IfNone result ((parts start : ℕ)
        → ¬ IsPartedHead m (bits_of words.now) at end parts start) }
{
    let bits = Bits { words };
    let width = digits(u64::from(m));
    let behind = at + 1 + u64::from(width);
    let start = behind.div_ceil(64);
    if end < 64 * start {
        return None;
    }
    let parts = bits.get(at + 1, width) as u32;
    if parts < 2 {
        return None;
    }
    match bits.next_one(behind, 64 * start) {
        Some(_) => None,
        None => Some(PartedHead { parts, start }),
    }
}

// A sequence that stands in several parts, behind a one.
fn check_parted(words: &[u64], at: u64, end: u64, sought: Sought, to: &mut [u64]) -> Option<Found>
    requires words { length words.now < 2 ^ 57 }
    requires room { 1 ≤ length to.old → length to.old ≡ sought.m }
    requires within { at < end }
    requires range { end ≤ 64 * length words.now }
    requires flag { slice_index (bits_of words.now) at ≡ 1 }
    ensures room { length to.new ≡ length to.old }
    ensures some { IfSome result (λ found. (is : IsFound sought.last sought.m sought.bound
        sought.with_steps (bits_of words.now) at end found)
        × (1 ≤ length to.old → to.new ≡ is.values)) }
    ensures none { IfNone result ((xs ends : List ℕ)
        → ¬ IsSequenceBefore sought.last sought.m sought.bound (bits_of words.now) at end xs ends) }
{
    words_are_bits();
    sequence_words_fit();
    let Some(head) = parted_head(words, at, end, sought.m) else {
        return None;
    };
    let stored = &words[head.start as usize..(end / 64) as usize];
    let shape = SeqShape {
        parts: head.parts,
        m: sought.m,
        bound: sought.bound,
        format: Format::Three,
    };
    match SeqView::check_into(stored, shape, sought.with_steps, to) {
        Ok(checked) => {
            let behind = 64 * (head.start + checked.used);
            Some(found_up_to(behind, checked.greatest, sought))
        }
        Err(_) => None,
    }
}

// A sequence that stands at a place and ends at another or before.
fn check_sequence(words: &[u64], at: u64, end: u64, sought: Sought, to: &mut [u64]) -> Option<Found>
    requires words { length words.now < 2 ^ 57 }
    requires room { 1 ≤ length to.old → length to.old ≡ sought.m }
    requires ordered { at ≤ end }
    requires range { end ≤ 64 * length words.now }
    ensures room { length to.new ≡ length to.old }
    ensures some { IfSome result (λ found. (is : IsFound sought.last sought.m sought.bound
        sought.with_steps (bits_of words.now) at end found)
        × (1 ≤ length to.old → to.new ≡ is.values)) }
    ensures none { IfNone result ((xs ends : List ℕ)
        → ¬ IsSequenceBefore sought.last sought.m sought.bound (bits_of words.now) at end xs ends) }
{
    if at == end {
        None
    } else if (Bits { words }).bit(at) {
        check_parted(words, at, end, sought, to)
    } else {
        check_lone(words, at, end, sought, to)
    }
}

// Whether the bits between two places are the document of one posting.
fn check_single(words: &[u64], at: u64, to: u64, documents: u32, greatest: u32) -> bool
    requires ordered { at ≤ to }
    requires range { to ≤ 64 * length words.now }
    requires not_zero { 1 ≤ greatest }
    ensures { IsTrue result ↔ HoldsTail documents 1 greatest (bits_of words.now) at to }
{
    let width = last_doc(documents).width;
    if to - at != u64::from(width) {
        return false;
    }
    (Bits { words }).get(at, width) < u64::from(documents)
}

// Whether a greatest step was found, and is this one.
fn is_greatest(found: Found, greatest: u32) -> bool
    ensures { IsTrue result ↔ (found.greatest ≡ Some greatest) }
{
    match found.greatest {
        Some(step) => step == u64::from(greatest),
        None => false,
    }
}

// Whether they are the two sequences of a list of several postings, which are given where there is
// room.
#[inline(always)]
fn check_many(
    words: &[u64],
    at: u64,
    to: u64,
    list: ListHead,
    docs: &mut [u64],
    sums: &mut [u64],
) -> bool
    requires words { length words.now < 2 ^ 57 }
    requires ordered { at ≤ to }
    requires range { to ≤ 64 * length words.now }
    requires many { 2 ≤ list.postings }
    requires not_zero { 1 ≤ list.greatest }
    requires docs { 1 ≤ length docs.old → length docs.old ≡ list.postings }
    requires sums { 1 ≤ length sums.old → length sums.old ≡ list.postings }
    ensures docs_room { length docs.new ≡ length docs.old }
    ensures sums_room { length sums.new ≡ length sums.old }
    ensures tail { IsTrue result ↔ HoldsTail list.documents list.postings list.greatest
        (bits_of words.now) at to }
    ensures docs { IsTrue result → 1 ≤ length docs.old → (xs : List Posting)
        (doc_ends freq_ends : List ℕ) → IsTailBetween list.documents list.postings list.greatest
        (bits_of words.now) at to xs doc_ends freq_ends → docs.new ≡ doc_sequence xs }
    ensures sums { IsTrue result → 1 ≤ length sums.old → (xs : List Posting)
        (doc_ends freq_ends : List ℕ) → IsTailBetween list.documents list.postings list.greatest
        (bits_of words.now) at to xs doc_ends freq_ends → sums.new ≡ freq_sequence xs }
{
    one_sequence_at_place();
    sequences_of_a_list_rise();
    sequences_give_their_list();
    sequences_are_a_list();
    let ListHead {
        term: _,
        documents,
        postings,
        greatest,
    } = list;
    let docs_sought = Sought {
        m: postings,
        bound: u64::from(documents),
        last: last_doc(documents),
        with_steps: false,
    };
    let sums_sought = Sought {
        m: postings,
        bound: Format::Three.most_sum(),
        last: last_sum(postings, greatest),
        with_steps: true,
    };
    let Some(first) = check_sequence(words, at, to, docs_sought, docs) else {
        return false;
    };
    let Some(second) = check_sequence(words, first.behind, to, sums_sought, sums) else {
        return false;
    };
    if second.behind != to {
        return false;
    }
    is_greatest(second, greatest)
}

// Whether they are a list behind its head. One of several postings is given to what takes lists.
fn check_tail<L: ListSink>(words: &[u64], at: u64, to: u64, list: ListHead, lists: &mut L) -> bool
    requires words { length words.now < 2 ^ 57 }
    requires ordered { at ≤ to }
    requires range { to ≤ 64 * length words.now }
    requires some { 1 ≤ list.postings }
    requires not_zero { 1 ≤ list.greatest }
    ensures tail { IsTrue result ↔ HoldsTail list.documents list.postings list.greatest
        (bits_of words.now) at to }
    ensures took { IsTrue result → (c : Collection) (doc_ends freq_ends : List ℕ)
        → L.took lists.old c list.term → list.documents ≡ c.documents
        → IsTailBetween list.documents list.postings list.greatest (bits_of words.now) at to
        (list_of c list.term) doc_ends freq_ends → L.took lists.new c (list.term + 1) }
{
    if list.postings == 1 {
        return check_single(words, at, to, list.documents, list.greatest);
    }
    let Some(ListRoom { mut docs, mut sums }) = lists.room(list) else {
        return check_many(words, at, to, list, &mut [], &mut []);
    };
    let m = list.postings as usize;
    if !check_many(words, at, to, list, &mut docs[0..m], &mut sums[0..m]) {
        return false;
    }
    lists.take(list, ListRoom { docs, sums });
    true
}

/// Whether the bits from one place of the words up to another are those of some list over so many
/// documents, in any parts. It takes no memory.
pub fn check_list(words: &[u64], from: u64, to: u64, documents: u32) -> bool
    requires words { length words.now < 2 ^ 57 }
    requires ordered { from ≤ to }
    requires range { to ≤ 64 * length words.now }
    ensures { IsTrue result ↔ HoldsList documents (bits_of words.now) from to }
{
    check_list_into(words, from, to, 0, documents, &mut NoLists)
}

/// What `check_list` tells. The list, which is that of a term, is given to what takes lists; where
/// there is none, a part of its sequences may have been given.
pub fn check_list_into<L: ListSink>(
    words: &[u64],
    from: u64,
    to: u64,
    term: u32,
    documents: u32,
    lists: &mut L,
) -> bool
    requires words { length words.now < 2 ^ 57 }
    requires ordered { from ≤ to }
    requires range { to ≤ 64 * length words.now }
    ensures list { IsTrue result ↔ HoldsList documents (bits_of words.now) from to }
    ensures took { IsTrue result → (c : Collection) (doc_ends freq_ends : List ℕ)
        → L.took lists.old c term → documents ≡ c.documents
        → IsListBetween documents (bits_of words.now) from to (list_of c term) doc_ends freq_ends
        → L.took lists.new c (term + 1) }
{
    // A list without postings takes no bits.
    if from == to {
        return true;
    }
    let Some(head) = gammas_before(Bits { words }, from, to) else {
        return false;
    };
    let list = ListHead {
        term,
        documents,
        postings: head.first,
        greatest: head.second,
    };
    check_tail(words, head.behind, to, list, lists)
}
