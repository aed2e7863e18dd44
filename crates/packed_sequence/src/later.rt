ghost use Rattle.std.specs.Prelude.{◌≡◌, ◌≢◌, ℕ, ◌≤◌, ◌<◌, List, length};
ghost use Rattle.collection_model.specs.FormatNumbers.{format_three};
ghost use Rattle.collection_model.specs.Sequences.{steps_from};
ghost use Rattle.two_level.specs.SequenceView.{place_at_least};
ghost use Rattle.two_level.specs.LongSteps.{count_reaching, steps_of_long_parts};
ghost use Rattle.packed_sequence.specs.Sums.{AreSums, SumsStand};

use crate::behind::Behind;
use crate::laws::sequences_state_back;
use crate::stands::{Stands, Sums};
use std::marker::Model;
use two_level::{SeqCursor, SeqView};

/// A sequence whose bits need not be looked at before it is asked for.
#[derive(Drop)]
pub struct LaterView<'a> {
    stands: Stands<'a>,
}

impl<'a> Model for LaterView<'a> {
    ghost use Rattle.two_level.specs.SequenceView.{SequenceView};
    ghost use Rattle.packed_sequence.specs.Later.{view_of, StandsWell};

    ghost Value = { SequenceView };

    ghost view = { λ l. view_of l.stands };

    ghost invariant = { λ l. StandsWell l.stands };
}

impl<'a> LaterView<'a> {
    /// A sequence that was looked at.
    pub fn read(view: SeqView<'a>) -> LaterView<'a>
        ensures { result ≡ view.entry }
    {
        LaterView {
            stands: Stands::Read(view),
        }
    }

    /// The sums of m frequencies, of which the greatest is known, whose bits stand behind those of
    /// the documents.
    pub fn of_sums(words: &'a [u64], docs: Behind, m: u32, greatest: u32) -> LaterView<'a>
        requires { SumsStand words.now docs m greatest }
        ensures { (sums ends : List ℕ) → AreSums words.entry.now docs m greatest sums ends
            → result ≡ record { format = format_three; values = sums; ends = ends } }
    {
        sequences_state_back();
        LaterView {
            stands: Stands::Unread(Sums {
                words,
                docs,
                m,
                greatest,
            }),
        }
    }

    /// The sequence.
    pub fn into_view(self) -> SeqView<'a>
        ensures { result ≡ self.entry }
    {
        match self.stands {
            Stands::Read(view) => view,
            Stands::Unread(sums) => sums.view(),
        }
    }

    /// A cursor at the start of the sequence.
    pub fn cursor(&self) -> SeqCursor<'a>
        ensures sequence { result.sequence ≡ self.now }
        ensures start { result.place ≡ 0 }
    {
        match &self.stands {
            Stands::Read(view) => view.cursor(),
            Stands::Unread(sums) => sums.view().cursor(),
        }
    }

    /// Gives all values, for which there is room.
    pub fn values_into(&self, to: &mut [u64])
        requires some { 0 < length to.old }
        requires room { length to.old ≡ length self.now.values }
        ensures { to.new ≡ self.now.values }
    {
        match &self.stands {
            Stands::Read(view) => view.values_into(to),
            Stands::Unread(sums) => sums.known().values_into(to),
        }
    }

    /// A cursor at place k, which may be the end. No other part is looked at.
    pub fn cursor_at(&self, k: u32) -> SeqCursor<'a>
        requires within { k ≤ length self.now.values }
        ensures sequence { result.sequence ≡ self.now }
        ensures place { result.place ≡ k }
    {
        match &self.stands {
            Stands::Read(view) => view.cursor_at(k),
            Stands::Unread(sums) => sums.view().cursor_at(k),
        }
    }

    /// The first place at or behind one whose value lies at least so far past the value before it,
    /// else the number of values; the first value counts from -1.
    pub fn first_step(&self, from: u32, least: u64) -> u32
        requires within { from ≤ length self.now.values }
        ensures { result ≡ place_at_least (steps_from 0 self.now.values) from least }
    {
        match &self.stands {
            Stands::Read(view) => view.first_step(from, least),
            Stands::Unread(sums) => sums.view().first_step(from, least),
        }
    }

    /// How far at least k of the values lie past the values before them, or farther: 0 where none
    /// is told. Of up to 64 it is no shorter than what k of the steps reach in the parts whose
    /// steps are long in the mean.
    pub fn common_step(&self, k: u32) -> u64
        requires some { 1 ≤ k }
        ensures reached { result ≢ 0
            → k ≤ count_reaching result (steps_from 0 self.now.values) }
        ensures longest { k ≤ 64 → (least : ℕ)
            → k ≤ count_reaching least (steps_of_long_parts self.now) → least ≤ result }
    {
        match &self.stands {
            Stands::Read(view) => view.common_step(k),
            Stands::Unread(sums) => sums.view().common_step(k),
        }
    }
}
