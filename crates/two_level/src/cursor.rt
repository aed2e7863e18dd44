ghost use Rattle.std.specs.Prelude.{◌≡◌, ℕ, ◌≤◌, ◌<◌, ◌+◌, length, slice_index, take, IfSome, IfNone};
ghost use Rattle.collection_model.specs.Marks.{AreKept};
ghost use Rattle.collection_model.specs.NextBelow.{AreNextBelow};
ghost use Rattle.sequence_words.specs.SequenceView.{place_at_least};
ghost use Rattle.two_level.specs.KeptWords.{AreKeptAt};

use part_directory::{Directory, HeldPart};
use std::marker::Model;

/// A place in a sequence, which may be its end. The part of the place and the value there are held,
/// so that the values of a part are read one after another, each by the one before it, without a
/// search. At the end the value says nothing. A search in a bitmap finds a value without its place,
/// which is counted only where it is asked.
#[derive(Drop)]
pub struct SeqCursor<'a> {
    directory: Directory<'a>,
    // A place of the part at or before the cursor's, and the value there: the cursor's is counted
    // from it.
    counted: u32,
    known: u64,
    held: Option<HeldPart<'a>>,
    value: u64,
}

impl<'a> Model for SeqCursor<'a> {
    ghost use Rattle.part_cost.specs.Formats.{numbers_of};
    ghost use Rattle.sequence_words.specs.SequenceView.{SequencePlace, place_at_least};
    ghost use Rattle.part_directory.specs.HeldParts.{LiesIn, StandsBehind};
    ghost use Rattle.part_directory.specs.DirectorySequence.{words_of, sequence_of};

    ghost Value = { SequencePlace };

    ghost view = { λ c. let v = sequence_of c.directory
        in record { sequence = v; place = place_at_least v.values c.counted c.value } };

    ghost invariant = { λ c. let d = c.directory in
        LiesIn (numbers_of d.format) (words_of d) d.parts c.counted c.held c.known
        × StandsBehind c.held (sequence_of d).values c.counted c.value };
}

impl<'a> SeqCursor<'a> {
    ghost use Rattle.part_directory.specs.DirectorySequence.{sequence_of};

    // A cursor at the start of a sequence.
    pub(crate) fn at_start(directory: Directory<'a>) -> SeqCursor<'a>
        ensures sequence { result.sequence ≡ sequence_of directory.entry }
        ensures start { result.place ≡ 0 }
    {
        let (held, value) = directory.hold_if_any(0);
        SeqCursor {
            directory,
            counted: 0,
            known: value,
            held,
            value,
        }
    }

    // A cursor at place k of a sequence, which may be its end.
    pub(crate) fn at_place(directory: Directory<'a>, k: u32) -> SeqCursor<'a>
        requires within { k ≤ length (sequence_of directory).values }
        ensures sequence { result.sequence ≡ sequence_of directory.entry }
        ensures place { result.place ≡ k }
    {
        let (held, value) = directory.hold_at(k);
        SeqCursor {
            directory,
            counted: k,
            known: value,
            held,
            value,
        }
    }

    // A cursor at the first value of a sequence that is at least x, else at its end.
    pub(crate) fn at_value(directory: Directory<'a>, x: u64) -> SeqCursor<'a>
        ensures sequence { result.sequence ≡ sequence_of directory.entry }
        ensures place { result.place ≡ place_at_least (sequence_of directory.entry).values 0 x }
    {
        let mut held = None;
        let mut counted = 0;
        let (known, value) = directory.first_from_part(0, x, &mut held, &mut counted);
        SeqCursor {
            directory,
            counted,
            known,
            held,
            value,
        }
    }

    /// The place.
    pub fn place(&self) -> u32
        ensures { result ≡ self.now.place }
    {
        let Some(held) = &self.held else {
            return self.counted;
        };
        if self.known < self.value {
            held.place_from(self.counted, self.known, self.value)
        } else {
            self.counted
        }
    }

    /// The value at the place, None at the end. The place is not counted.
    pub fn current(&self) -> Option<u64>
        ensures some { IfSome result (λ value. (self.now.place < length self.now.sequence.values)
            × (value ≡ slice_index self.now.sequence.values self.now.place)) }
        ensures none { IfNone result (self.now.place ≡ length self.now.sequence.values) }
    {
        match &self.held {
            Some(_) => Some(self.value),
            None => None,
        }
    }

    /// The value at the place.
    pub fn value(&self) -> u64
        requires within { self.now.place < length self.now.sequence.values }
        ensures { result ≡ slice_index self.now.sequence.values self.now.place }
    {
        self.value
    }

    /// Goes to the next place.
    #[inline(never)]
    pub fn next(&mut self)
        requires within { self.old.place < length self.old.sequence.values }
        ensures sequence { self.new.sequence ≡ self.old.sequence }
        ensures place { self.new.place ≡ self.old.place + 1 }
    {
        let place = self.counted;
        let value = self.value;
        if self.known < value {
            // The place was not counted.
            self.next_geq(value + 1);
            return;
        }
        let Some(held) = &self.held else {
            unreachable!()
        };
        if place + 1 < held.part.to {
            self.value = held.value_after(place, value);
            self.known = self.value;
            self.counted = place + 1;
        } else {
            let behind = held.index + 1;
            self.value = self.directory.hold_into(behind, &mut self.held);
            self.known = self.value;
            self.counted = place + 1;
        }
    }

    // Counts the place, so that it is known from then on.
    fn count_place(&mut self) -> u32
        ensures same { self.new ≡ self.old }
        ensures place { result ≡ self.old.place }
    {
        let place = self.place();
        self.counted = place;
        self.known = self.value;
        place
    }

    /// Gives the values from the place on that are below x, as many as there are and have room, and
    /// goes behind them. It tells how many they are.
    pub fn values_below(&mut self, x: u64, to: &mut [u64]) -> usize
        ensures sequence { self.new.sequence ≡ self.old.sequence }
        ensures place { self.new.place ≡ self.old.place + result }
        ensures room { length to.new ≡ length to.old }
        ensures values { AreNextBelow self.old.sequence.values self.old.place x to.new result }
    {
        let place = self.count_place();
        let most = to.len().min((self.directory.m - place) as usize);
        let mut count = 0;
        'given: while count < most && self.value() < x {
            count += self.pass_below(x, &mut to[count..]);
        }
        count
    }

    // Gives the values of the part from the place on that are below x, as many as there are and
    // have room, and goes behind them. It tells how many they are. The value at the place is one of
    // them.
    fn pass_below(&mut self, x: u64, to: &mut [u64]) -> usize
        requires some { 0 < length to.old }
        requires within { self.old.place < length self.old.sequence.values }
        requires below { slice_index self.old.sequence.values self.old.place < x }
        ensures sequence { self.new.sequence ≡ self.old.sequence }
        ensures place { self.new.place ≡ self.old.place + result }
        ensures room { length to.new ≡ length to.old }
        ensures some { 0 < result }
        ensures within { self.old.place + result ≤ length self.old.sequence.values }
        ensures values { AreNextBelow (take (self.old.place + result) self.old.sequence.values)
            self.old.place x to.new result }
    {
        let count = self.go_below(x, to);
        self.next();
        count
    }

    // The same, but it goes to the last of them.
    fn go_below(&mut self, x: u64, to: &mut [u64]) -> usize
        requires some { 0 < length to.old }
        requires within { self.old.place < length self.old.sequence.values }
        requires below { slice_index self.old.sequence.values self.old.place < x }
        ensures sequence { self.new.sequence ≡ self.old.sequence }
        ensures place { self.new.place + 1 ≡ self.old.place + result }
        ensures room { length to.new ≡ length to.old }
        ensures some { 0 < result }
        ensures within { self.old.place + result ≤ length self.old.sequence.values }
        ensures values { AreNextBelow (take (self.old.place + result) self.old.sequence.values)
            self.old.place x to.new result }
    {
        let place = self.place();
        let value = self.value;
        let Some(held) = &self.held else {
            unreachable!()
        };
        let count = held.values_below(place, value, x, to);
        let last = count - 1;
        self.counted = place + last as u32;
        self.known = to[last];
        self.value = to[last];
        count
    }

    /// Gives the values from the place on, as many as have room, and goes to the last of them.
    pub fn values_on(&mut self, to: &mut [u64])
        requires some { 0 < length to.old }
        requires within { self.old.place + length to.old ≤ length self.old.sequence.values }
        requires small { (k : ℕ) → k < length self.old.sequence.values
            → slice_index self.old.sequence.values k < 18446744073709551615 }
        ensures sequence { self.new.sequence ≡ self.old.sequence }
        ensures place { self.new.place + 1 ≡ self.old.place + length to.old }
        ensures room { length to.new ≡ length to.old }
        ensures values { AreNextBelow self.old.sequence.values self.old.place 18446744073709551615
            to.new (length to.old) }
    {
        let mut count = self.go_below(u64::MAX, to);
        'given: while count < to.len() {
            self.next();
            count += self.go_below(u64::MAX, &mut to[count..]);
        }
    }

    /// Goes to the first place at or after this one whose value is at least x, else to the end.
    pub fn next_geq(&mut self, x: u64)
        ensures sequence { self.new.sequence ≡ self.old.sequence }
        ensures place { self.new.place ≡ place_at_least self.old.sequence.values self.old.place x }
    {
        let counted = self.counted;
        let known = self.known;
        let value = self.value;
        let Some(held) = &self.held else {
            return;
        };
        if x <= value {
            return;
        }
        if x <= held.part.last {
            let sought = held.seek(counted, known, x);
            self.counted = sought.place as u32;
            self.known = sought.there;
            self.value = sought.number;
        } else {
            let behind = held.index + 1;
            (self.known, self.value) = self
                .directory
                .first_from_part(behind, x, &mut self.held, &mut self.counted);
        }
    }

    /// Takes back the marks of numbers that are no values, in as many whole words of marks as it
    /// tells: bit k of the words stands for `first` + k. The others are left.
    pub fn keep_in_words(&self, first: u64, marks: &mut [u64]) -> usize
        ensures words { self.now.place < length self.now.sequence.values
            → AreKeptAt self.now first (length marks.old) result }
        ensures end { self.now.place ≡ length self.now.sequence.values → result ≡ 0 }
        ensures kept { AreKept self.now.sequence.values first marks.old marks.new result }
    {
        match &self.held {
            Some(held) => held.keep_in_words(first, marks),
            None => 0,
        }
    }

    /// Goes to place k, which may be the end.
    pub fn move_to(&mut self, k: u32)
        requires within { k ≤ length self.old.sequence.values }
        ensures sequence { self.new.sequence ≡ self.old.sequence }
        ensures place { self.new.place ≡ k }
    {
        match k.checked_sub(self.place()) {
            Some(0) => {}
            Some(1) => self.next(),
            _ => self.jump_to(k),
        }
    }

    // Goes to place k, which may be the end, by its part.
    fn jump_to(&mut self, k: u32)
        requires within { k ≤ length self.old.sequence.values }
        ensures sequence { self.new.sequence ≡ self.old.sequence }
        ensures place { self.new.place ≡ k }
    {
        self.counted = k;
        match &self.held {
            Some(held) if held.has(k) => {
                let value = held.value(k);
                self.known = value;
                self.value = value;
            }
            _ => {
                (self.held, self.value) = self.directory.hold_at(k);
                self.known = self.value;
            }
        }
    }
}
