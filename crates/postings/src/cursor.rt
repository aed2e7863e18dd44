ghost use Rattle.std.specs.Prelude.{◌≡◌, ◌≢◌, ℕ, ◌+◌, ◌*◌, ◌≤◌, ◌<◌, ◌&&◌, nat_le, List, [], length, slice_index};
ghost use Rattle.std.specs.List.{count_by};
ghost use Rattle.collection_model.specs.Collection.{freqs_of, greatest_freq};
ghost use Rattle.collection_model.specs.Marks.{has_doc, is_marked};
ghost use Rattle.collection_model.specs.NextBelow.{AreNextBelow};
ghost use Rattle.collection_model.specs.Sequences.{steps_from, postings_in};
ghost use Rattle.part_cost.specs.Span as span;
ghost use Rattle.two_level.specs.KeptWords.{AreKeptAt};
ghost use Rattle.two_level.specs.LongSteps.{count_reaching, steps_of_long_parts};
ghost use Rattle.cursor_api.specs.NextGeq.{IsCursorList, IsCursorAt};
ghost use Rattle.postings.specs.Blocks.{AreSumsFrom};

use crate::sums::Sums;
use cursor_api::{BlankCursor, DocCursor};
use packed_sequence::LaterView;
use part_cost::Format;
use std::alloc::Global;
use std::default::MadeWith;
use two_level::{SeqCursor, SeqView};

/// A cursor over the two sequences of a list: its documents, and the sums of its frequencies. Only
/// the documents are read while it moves; the sums follow where a frequency is asked, in step with
/// the documents or by one jump after a skip.
#[derive(Drop)]
pub struct PostingCursor<'a> {
    docs: SeqCursor<'a>,
    // It stands at the place of the documents or before it.
    sums: Sums<'a>,
    // One more than the sum before the place of the sums, 0 at the start.
    past: u64,
    len: u32,
    max: u32,
    ghost same_length: { length docs.sequence.values ≡ length sums.sequence.values },
    ghost count: { len ≡ length docs.sequence.values },
    ghost lag: { sums.place ≤ docs.place },
    ghost before: { past ≡ span.past sums.sequence.values sums.place },
    ghost cursor: { IsCursorAt (postings_in docs.sequence.values sums.sequence.values) docs.place },
    ghost greatest: { max ≡ greatest_freq (postings_in docs.sequence.values sums.sequence.values) },
}

// Turns the next sums into their frequencies, by one more than the sum before them, and gives one
// more than the last sum.
fn sums_to_freqs(sums: &mut [u64], past: u64) -> u64
    requires sums { (all : List ℕ) × (from : ℕ) × AreSumsFrom all from sums.old past }
    ensures room { length sums.new ≡ length sums.old }
    ensures freqs { (all : List ℕ) (from : ℕ) → AreSumsFrom all from sums.old past → (j : ℕ)
        → j < length sums.old → slice_index sums.new j ≡ slice_index (steps_from 0 all) (from + j) }
    ensures past { (all : List ℕ) (from : ℕ) → AreSumsFrom all from sums.old past
        → result ≡ span.past all (from + length sums.old) }
{
    let mut past = past;
    for j in 0..sums.len() {
        let next = sums[j] + 1;
        sums[j] = next - past;
        past = next;
    }
    past
}

// Turns the next sums into the frequencies behind the first of them, and gives one more than the
// last sum. The last place is left.
fn sums_to_later_freqs(sums: &mut [u64]) -> u64
    requires some { 0 < length sums.old }
    requires sums { (all : List ℕ) × (from : ℕ) × (past : ℕ) × AreSumsFrom all from sums.old past }
    ensures room { length sums.new ≡ length sums.old }
    ensures freqs { (all : List ℕ) (from past : ℕ) → AreSumsFrom all from sums.old past → (j : ℕ)
        → j + 1 < length sums.old
        → slice_index sums.new j ≡ slice_index (steps_from 0 all) (from + 1 + j) }
    ensures past { (all : List ℕ) (from past : ℕ) → AreSumsFrom all from sums.old past
        → result ≡ span.past all (from + length sums.old) }
{
    let mut past = sums[0] + 1;
    for j in 0..sums.len() - 1 {
        let next = sums[j + 1] + 1;
        sums[j] = next - past;
        past = next;
    }
    past
}

// Fills in the frequencies from the place of the sums on, goes to the last of them, and gives one
// more than the sum before that, by one more than the sum before the first.
fn next_freqs(sums: &mut Sums<'_>, past: u64, freqs: &mut [u64]) -> u64
    requires some { 0 < length freqs.old }
    requires within { sums.old.place + length freqs.old ≤ length sums.old.sequence.values }
    requires list { (docs : List ℕ) × (length docs ≡ length sums.old.sequence.values)
        × IsCursorList (postings_in docs sums.old.sequence.values) }
    requires past { past ≡ span.past sums.old.sequence.values sums.old.place }
    ensures sequence { sums.new.sequence ≡ sums.old.sequence }
    ensures place { sums.new.place + 1 ≡ sums.old.place + length freqs.old }
    ensures room { length freqs.new ≡ length freqs.old }
    ensures freqs { (j : ℕ) → j < length freqs.old → slice_index freqs.new j
        ≡ slice_index (steps_from 0 sums.old.sequence.values) (sums.old.place + j) }
    ensures past { result ≡ span.past sums.old.sequence.values sums.new.place }
{
    sums.values_on(freqs);
    let behind = sums_to_freqs(freqs, past);
    behind - freqs[freqs.len() - 1]
}

// The same from the place behind that of the sums on: the sum there is read with them, so that the
// last number is left.
fn later_freqs(sums: &mut Sums<'_>, freqs: &mut [u64]) -> u64
    requires some { 1 < length freqs.old }
    requires within { sums.old.place + length freqs.old ≤ length sums.old.sequence.values }
    requires list { (docs : List ℕ) × (length docs ≡ length sums.old.sequence.values)
        × IsCursorList (postings_in docs sums.old.sequence.values) }
    ensures sequence { sums.new.sequence ≡ sums.old.sequence }
    ensures place { sums.new.place + 1 ≡ sums.old.place + length freqs.old }
    ensures room { length freqs.new ≡ length freqs.old }
    ensures freqs { (j : ℕ) → j + 1 < length freqs.old → slice_index freqs.new j
        ≡ slice_index (steps_from 0 sums.old.sequence.values) (sums.old.place + 1 + j) }
    ensures past { result ≡ span.past sums.old.sequence.values sums.new.place }
{
    sums.values_on(freqs);
    let behind = sums_to_later_freqs(freqs);
    behind - freqs[freqs.len() - 2]
}

impl<'a> PostingCursor<'a> {
    /// A cursor at the start of the list whose sequences these are, and whose greatest frequency is
    /// `max`, 0 where the list is empty.
    pub fn new(docs: SeqView<'a>, freqs: LaterView<'a>, max: u32) -> PostingCursor<'a>
        requires same_length { length docs.values ≡ length freqs.values }
        requires list { IsCursorList (postings_in docs.values freqs.values) }
        requires greatest { max ≡ greatest_freq (postings_in docs.values freqs.values) }
        ensures list { ⟦<PostingCursor<'a> as DocCursor>⟧.list result
            ≡ postings_in docs.entry.values freqs.entry.values }
        ensures start { ⟦<PostingCursor<'a> as DocCursor>⟧.place result ≡ 0 }
    {
        PostingCursor {
            len: docs.len(),
            docs: docs.cursor(),
            sums: Sums::new(freqs),
            past: 0,
            max,
        }
    }

    /// Goes to a place of the list that is no earlier, and may be the end. It goes there by the
    /// directory, and not posting by posting.
    pub fn move_to(&mut self, place: u32)
        requires later { ⟦<PostingCursor<'a> as DocCursor>⟧.place self.old ≤ place }
        requires within { place ≤ length (⟦<PostingCursor<'a> as DocCursor>⟧.list self.old) }
        ensures list { ⟦<PostingCursor<'a> as DocCursor>⟧.list self.new
            ≡ ⟦<PostingCursor<'a> as DocCursor>⟧.list self.old }
        ensures place { ⟦<PostingCursor<'a> as DocCursor>⟧.place self.new ≡ place }
    {
        self.docs.move_to(place);
    }

    // Gives the documents from the place on that are below `end`, as many as there are and have
    // room, and goes behind them. The sums stay where they are.
    fn take_docs(&mut self, end: u64, docs: &mut [u64]) -> usize
        ensures sequence { self.new.docs.sequence ≡ self.old.docs.sequence }
        ensures place { self.new.docs.place ≡ self.old.docs.place + result }
        ensures sums { self.new.sums ≡ self.old.sums }
        ensures room { length docs.new ≡ length docs.old }
        ensures docs { AreNextBelow self.old.docs.sequence.values self.old.docs.place end docs.new
            result }
    {
        self.docs.values_below(end, docs)
    }

    // Brings the sums to a place that the documents have reached.
    fn catch_up(&mut self, place: u32)
        requires within { place < length self.old.docs.sequence.values }
        requires ahead { self.old.sums.place ≤ place }
        requires reached { place ≤ self.old.docs.place }
        ensures docs { self.new.docs ≡ self.old.docs }
        ensures sums { self.new.sums.sequence ≡ self.old.sums.sequence }
        ensures place { self.new.sums.place ≡ place }
    {
        if self.sums.place() < place {
            self.sums.move_to(place - 1);
            self.past = self.sums.value() + 1;
            self.sums.move_to(place);
        }
    }

    // Fills in the frequencies from a place on that the documents have passed, so many, and brings
    // the sums to the last of them. Where sums are passed over, the one before is read with them.
    fn take_freqs(&mut self, first: u32, count: usize, freqs: &mut [u64])
        requires some { 0 < count }
        requires fits { count ≤ length freqs.old }
        requires ahead { self.old.sums.place ≤ first }
        requires reached { first + count ≤ self.old.docs.place }
        ensures docs { self.new.docs ≡ self.old.docs }
        ensures sums { self.new.sums.sequence ≡ self.old.sums.sequence }
        ensures room { length freqs.new ≡ length freqs.old }
        ensures freqs { (j : ℕ) → j < count
            → slice_index freqs.new j ≡ slice_index (steps_from 0 self.old.sums.sequence.values)
            (first + j) }
    {
        if self.sums.place() < first && count < freqs.len() {
            self.sums.move_to(first - 1);
            self.past = later_freqs(&mut self.sums, &mut freqs[..count + 1]);
            return;
        }
        self.catch_up(first);
        let past = self.past;
        self.past = next_freqs(&mut self.sums, past, &mut freqs[..count]);
    }
}

/// A blank: a cursor over no words, whose list is empty.
impl<'a> MadeWith<Global> for PostingCursor<'a> {
    ghost is_made_with = { λ c. postings_in c.docs.sequence.values c.sums.sequence.values ≡ [] };

    fn made_with(_alloc: Global) -> PostingCursor<'a> {
        PostingCursor::new(
            SeqView::without_values(Format::One),
            LaterView::read(SeqView::without_values(Format::One)),
            0,
        )
    }
}

impl<'a> DocCursor for PostingCursor<'a> {
    ghost list = { λ c. postings_in c.docs.sequence.values c.sums.sequence.values };

    ghost place = { λ c. c.docs.place };

    fn doc(&self) -> Option<u32> {
        match self.docs.current() {
            Some(doc) => Some(doc as u32),
            None => None,
        }
    }

    fn freq(&mut self) -> u32 {
        let place = self.docs.place();
        self.catch_up(place);
        (self.sums.value() + 1 - self.past) as u32
    }

    fn advance(&mut self) {
        self.docs.next();
    }

    fn next_geq(&mut self, d: u32) {
        self.docs.next_geq(u64::from(d));
    }

    fn next_frequent(&mut self, f: u32) {
        let place = self.sums.first_step(self.docs.place(), u64::from(f));
        self.move_to(place);
    }

    fn docs_below(&mut self, end: u64, docs: &mut [u64]) -> usize {
        self.take_docs(end, docs)
    }

    fn postings_below(&mut self, end: u64, docs: &mut [u64], freqs: &mut [u64]) -> usize {
        let count = self.take_docs(end, docs);
        if count > 0 {
            let first = self.docs.place() - count as u32;
            self.take_freqs(first, count, freqs);
        }
        count
    }

    fn max_freq(&self) -> u32 {
        self.max
    }

    // Of up to 64 postings it is no less than what k of the frequencies reach in the parts whose
    // frequencies are high in the mean.
    fn common_freq(&self, k: u32) -> u32
        requires some { 1 ≤ k }
        ensures reached { result ≢ 0 → k ≤ count_by (λ f. nat_le result f)
            (freqs_of (postings_in self.now.docs.sequence.values self.now.sums.sequence.values)) }
        ensures highest { k ≤ 64 → (least : ℕ)
            → k ≤ count_reaching least (steps_of_long_parts self.now.sums.sequence)
            → least ≤ result }
    {
        self.sums.common_step(k) as u32
    }

    // By the part of its documents in which it stands.
    fn keep_in_words(&self, first: u32, marks: &mut [u64]) -> usize
        ensures words { self.now.docs.place < length self.now.docs.sequence.values
            → AreKeptAt self.now.docs first (length marks.old) result }
        ensures within { result ≤ length marks.old }
        ensures count { length marks.new ≡ length marks.old }
        ensures kept { (k : ℕ) → k < 64 * result → is_marked marks.new k
            ≡ (is_marked marks.old k && has_doc (first + k)
            (postings_in self.now.docs.sequence.values self.now.sums.sequence.values)) }
        ensures rest { (k : ℕ) → 64 * result ≤ k → k < 64 * length marks.old
            → is_marked marks.new k ≡ is_marked marks.old k }
    {
        self.docs.keep_in_words(u64::from(first), marks)
    }

    fn len(&self) -> u32 {
        self.len
    }

    ghost well_formed = { λ c. c.cursor };
}

impl<'a> BlankCursor for PostingCursor<'a> {
    ghost empty = { λ c is. is };
}
