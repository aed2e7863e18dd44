ghost use Rattle.std.specs.Prelude.{◌≡◌, ◌≢◌, ℕ, ◌≤◌, ◌<◌, ◌+◌, length, slice_index, Some};
ghost use Rattle.collection_model.specs.NextBelow.{AreNextBelow};
ghost use Rattle.collection_model.specs.Sequences.{steps_from};
ghost use Rattle.two_level.specs.SequenceView.{SequencePlace, place_at_least};
ghost use Rattle.two_level.specs.LongSteps.{count_reaching, steps_of_long_parts};
ghost use Rattle.postings.specs.Sums.{place_of, IsOver};

use packed_sequence::LaterView;
use std::marker::Model;
use two_level::SeqCursor;

// The sums of a list's frequencies, and a place in them. No part of them is held to be read before
// one of them is asked.
#[derive(Drop)]
pub(crate) struct Sums<'a> {
    view: LaterView<'a>,
    cursor: Option<SeqCursor<'a>>,
}

impl<'a> Model for Sums<'a> {
    ghost use Rattle.two_level.specs.SequenceView.{SequencePlace};
    ghost use Rattle.postings.specs.Sums.{place_of, IsOver};

    ghost Value = { SequencePlace };

    ghost view = { λ s. record { sequence = s.view; place = place_of s.cursor } };

    ghost invariant = { λ s. IsOver s.view s.cursor };
}

// Opens a cursor over the sequence where there is none yet.
fn open<'a>(view: &LaterView<'a>, cursor: &mut Option<SeqCursor<'a>>)
    requires over { IsOver view.now cursor.old }
    ensures { (c : SequencePlace) × (cursor.new ≡ Some c) × (c.sequence ≡ view.now)
        × (c.place ≡ place_of cursor.old) }
{
    if cursor.is_none() {
        *cursor = Some(view.cursor());
    }
}

// Opens a cursor at place k of the sequence where there is none yet.
fn open_at<'a>(view: &LaterView<'a>, cursor: &mut Option<SeqCursor<'a>>, k: u32)
    requires over { IsOver view.now cursor.old }
    requires within { k ≤ length view.now.values }
    ensures { (c : SequencePlace) × (cursor.new ≡ Some c) × (c.sequence ≡ view.now) }
{
    if cursor.is_none() {
        *cursor = Some(view.cursor_at(k));
    }
}

impl<'a> Sums<'a> {
    // The sums at their start.
    pub(crate) fn new(view: LaterView<'a>) -> Sums<'a>
        ensures sequence { result.sequence ≡ view.entry }
        ensures start { result.place ≡ 0 }
    {
        Sums { view, cursor: None }
    }

    // The place.
    pub(crate) fn place(&self) -> u32
        ensures { result ≡ self.now.place }
    {
        match &self.cursor {
            Some(cursor) => cursor.place(),
            None => 0,
        }
    }

    // The value at the place.
    pub(crate) fn value(&mut self) -> u64
        requires within { self.old.place < length self.old.sequence.values }
        ensures same { self.new ≡ self.old }
        ensures value { result ≡ slice_index self.old.sequence.values self.old.place }
    {
        open(&self.view, &mut self.cursor);
        match &self.cursor {
            Some(cursor) => cursor.value(),
            None => unreachable!(),
        }
    }

    // Goes to place k, which may be the end.
    pub(crate) fn move_to(&mut self, k: u32)
        requires within { k ≤ length self.old.sequence.values }
        ensures sequence { self.new.sequence ≡ self.old.sequence }
        ensures place { self.new.place ≡ k }
    {
        open_at(&self.view, &mut self.cursor, k);
        match &mut self.cursor {
            Some(cursor) => cursor.move_to(k),
            None => unreachable!(),
        }
    }

    // Gives the values from the place on, as many as have room, and goes to the last of them.
    pub(crate) fn values_on(&mut self, to: &mut [u64])
        requires some { 0 < length to.old }
        requires within { self.old.place + length to.old ≤ length self.old.sequence.values }
        requires small { (k : ℕ) → k < length self.old.sequence.values
            → slice_index self.old.sequence.values k < 18446744073709551615 }
        ensures sequence { self.new.sequence ≡ self.old.sequence }
        ensures place { self.new.place + 1 ≡ self.old.place + length to.old }
        ensures room { length to.new ≡ length to.old }
        ensures values { AreNextBelow self.old.sequence.values self.old.place 18446744073709551615
            to.new (length to.old) }
    {
        open(&self.view, &mut self.cursor);
        match &mut self.cursor {
            Some(cursor) => cursor.values_on(to),
            None => unreachable!(),
        }
    }

    // The first place from one on whose value lies at least so far past the value before it, or the
    // end. The place stays.
    pub(crate) fn first_step(&self, from: u32, least: u64) -> u32
        requires within { from ≤ length self.now.sequence.values }
        ensures { result ≡ place_at_least (steps_from 0 self.now.sequence.values) from least }
    {
        self.view.first_step(from, least)
    }

    // How far at least k of the values lie past the values before them, or farther: 0 where none is
    // told. Of up to 64 it is no shorter than what k of the steps of the long parts reach.
    pub(crate) fn common_step(&self, k: u32) -> u64
        requires some { 1 ≤ k }
        ensures reached { result ≢ 0
            → k ≤ count_reaching result (steps_from 0 self.now.sequence.values) }
        ensures longest { k ≤ 64 → (least : ℕ)
            → k ≤ count_reaching least (steps_of_long_parts self.now.sequence) → least ≤ result }
    {
        self.view.common_step(k)
    }
}
