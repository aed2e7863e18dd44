ghost use Rattle.std.specs.Prelude.{◌≡◌, ◌≤◌, ◌<◌, ◌+◌, length, slice_index, Some, None};
ghost use Rattle.part_cost.specs.Formats.{numbers_of};
ghost use Rattle.part_cost.specs.Span.{past};
ghost use Rattle.sequence_words.specs.SequenceFault.{stated_end, end_before, past_before, payload_before, first_bit};
ghost use Rattle.part_directory.specs.PartOf.{IsPartOf};
ghost use Rattle.part_directory.specs.HeldParts.{IsStatedPart};
ghost use Rattle.part_directory.specs.DirectorySequence.{words_of, sequence_of};

use crate::alone::Alone;
use crate::directory::Directory;
use crate::part::Part;
use bit_words::Bits;
use part_cost::{PlacedPart, formats_have_room, payload_bits};
use sequence_words::directory_bits;

impl<'a> Directory<'a> {
    // The end that the entry before a part states, and one past the last value that it states. A
    // part that stands alone is the first, and none is before it.
    fn before_part(&self, part: u32) -> (u64, u64)
        requires within { part < self.now.parts }
        ensures end { result.0 ≡ end_before (numbers_of self.now.format) (words_of self.now) part }
        ensures past { result.1 ≡ past_before (numbers_of self.now.format) (words_of self.now)
            part }
    {
        formats_have_room();
        if part == 0 {
            (0, 0)
        } else {
            let entry = self.entry_in_words(part - 1);
            (entry.end, entry.last + 1)
        }
    }

    /// A part of the sequence, and where it stands in the words, in the universe of its values as
    /// they are counted.
    pub fn stated_part(&self, part: u32) -> (Part, PlacedPart<'a>)
        requires within { part < self.now.parts }
        ensures { IsStatedPart (numbers_of self.now.format) (words_of self.now)
            (sequence_of self.now).values part result.0 result.1 }
    {
        match &self.alone {
            Some(alone) => self.part_alone(alone),
            None => self.part_in_words(part),
        }
    }

    // The one part, which stands alone. One value is counted from itself, so that its bits are not
    // read.
    fn part_alone(&self, alone: &Alone) -> (Part, PlacedPart<'a>)
        requires alone { self.now.alone ≡ Some alone.now }
        ensures { IsStatedPart (numbers_of self.now.format) (words_of self.now)
            (sequence_of self.now).values 0 result.0 result.1 }
    {
        formats_have_room();
        let u = alone.last + 1;
        let counted = if self.m == 1 { 1 } else { u };
        (
            Part {
                from: 0,
                to: self.m,
                last: alone.last,
                u,
            },
            PlacedPart::at(
                Bits { words: self.words },
                alone.place,
                counted,
                self.m as u64,
            ),
        )
    }

    // A part whose entry is in the words. Its values are counted from one past the value before it.
    fn part_in_words(&self, part: u32) -> (Part, PlacedPart<'a>)
        requires within { part < self.now.parts }
        requires in_words { self.now.alone ≡ None }
        ensures { IsStatedPart (numbers_of self.now.format) (words_of self.now)
            (sequence_of self.now).values part result.0 result.1 }
    {
        formats_have_room();
        let entry = self.entry_in_words(part);
        let (from, past) = self.before_part(part);
        let u = entry.last + 1 - past;
        let place = directory_bits(self.parts, self.format) + entry.offset;
        (
            Part {
                from: from as u32,
                to: entry.end as u32,
                last: entry.last,
                u,
            },
            PlacedPart::at(Bits { words: self.words }, place, u, entry.end - from),
        )
    }

    /// How many bits the sequence takes: those up to the end of its last part.
    pub fn bits_taken(&self) -> u64
        ensures { result ≡ first_bit (numbers_of self.now.format) self.now.parts
            + payload_before (numbers_of self.now.format) (words_of self.now) self.now.parts }
    {
        if self.parts == 0 {
            0
        } else {
            let last = self.parts - 1;
            let entry = self.entry(last);
            let (from, past) = self.before_part(last);
            let payload = payload_bits(entry.last + 1 - past, entry.end - from);
            directory_bits(self.parts, self.format) + entry.offset + payload
        }
    }

    /// A part of the sequence.
    pub fn part_at(&self, part: u32) -> Part
        requires within { part < self.now.parts }
        ensures { IsPartOf (sequence_of self.now) part result }
    {
        self.stated_part(part).0
    }

    /// The last value of a part.
    pub fn last_of_part(&self, part: u32) -> u64
        requires within { part < self.now.parts }
        ensures { let v = sequence_of self.now in result + 1
            ≡ past v.values (slice_index v.ends part) }
    {
        self.entry(part).last
    }

    /// The part in which a place lies.
    pub fn part_of_place(&self, place: u32) -> u32
        requires within { place < length (sequence_of self.now).values }
        ensures part { result < self.now.parts }
        ensures from { end_before (numbers_of self.now.format) (words_of self.now) result ≤ place }
        ensures to { place < stated_end (numbers_of self.now.format) (words_of self.now) result }
    {
        let mut low = 0;
        let mut high = self.parts - 1;
        while low < high {
            let middle = low + (high - low) / 2;
            if (place as u64) < self.entry_in_words(middle).end {
                high = middle;
            } else {
                low = middle + 1;
            }
        }
        low
    }
}
