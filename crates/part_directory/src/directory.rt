ghost use Rattle.std.specs.Prelude.{◌≡◌, ℕ, ◌≤◌, ◌<◌, ◌+◌, ◌-◌, ◌*◌, ◌^◌, List, length, None};
ghost use Rattle.bit_words.specs.Bits.{bits_of};
ghost use Rattle.part_cost.specs.Stored.{HoldsPart};
ghost use Rattle.part_codec.specs.PartBits.{part_bits};
ghost use Rattle.std.specs.List.Sorted.{IsStrictlyIncreasing};
ghost use Rattle.part_cost.specs.Formats.{numbers_of};
ghost use Rattle.sequence_words.specs.SequenceView.{sequence_stated, lasts_stated, place_at_least};
ghost use Rattle.sequence_words.specs.SequenceParts.{StatesParts};
ghost use Rattle.part_directory.specs.Alone.{words_begun, alone_view, StandsAlone};
ghost use Rattle.std.specs.Option.{ForSome};

use crate::alone::Alone;
use crate::galloping::{Lasts, gallop};
use part_codec::one_list_at_place;
use part_cost::{Format, formats_have_room};
use sequence_words::{
    Entry, directory_states_its_parts, entry_at, entry_last, sequence_takes_its_cost,
    words_state_their_sequence,
};
use std::marker::Brand;
use std::sync::ledger::{Blank, Ledger};
use step_count::Steps;

/// The directory of a sequence of m values in so many parts, at the front of lent words that begin
/// with the sequence; or what stands for it, where the one part of the sequence stands alone.
#[derive(Clone, Copy)]
pub struct Directory<'a> {
    pub words: &'a [u64],
    pub parts: u32,
    pub m: u32,
    pub format: Format,
    /// Where its one part stands, where no entry stands before it.
    pub alone: Option<Alone>,
    ghost lent: { length words.now < 2 ^ 57 },
    ghost few_words: { length (words_begun (numbers_of format) words.now m alone) < 2 ^ 57 },
    ghost stated: { StatesParts (numbers_of format)
        (words_begun (numbers_of format) words.now m alone) parts
        (sequence_stated (numbers_of format) (words_begun (numbers_of format) words.now m alone)
        parts) },
    ghost count: { m ≡ length
        (sequence_stated (numbers_of format) (words_begun (numbers_of format) words.now m alone)
        parts).values },
    ghost few: { length (sequence_stated (numbers_of format)
        (words_begun (numbers_of format) words.now m alone) parts).values < 2 ^ 32 },
    ghost few_parts: { parts ≤ m },
    ghost rising: { IsStrictlyIncreasing
        (lasts_stated (numbers_of format) (words_begun (numbers_of format) words.now m alone)
        parts) },
    ghost stands: { ForSome alone (λ a. StandsAlone (numbers_of format) words.now m parts a) },
}

// The entries that stand in the words of a directory.
#[derive(Clone, Copy)]
struct EntriesInWords<'d, 'a> {
    directory: &'d Directory<'a>,
    ghost in_words: { directory.now.alone ≡ None },
}

impl<'d, 'a> Lasts for EntriesInWords<'d, 'a> {
    ghost use Rattle.part_directory.specs.DirectorySequence.{words_of};

    ghost lasts = { λ e. lasts_stated (numbers_of e.directory.now.format)
        (words_of e.directory.now) e.directory.now.parts };

    fn parts(&self) -> u32 {
        self.directory.parts
    }

    fn last<L: Ledger>(&self, q: u32, probes: &mut Steps<L>) -> u64 {
        probes.tick();
        entry_last(self.directory.words, q, self.directory.format)
    }

    ghost rising = { λ e. e.directory.now.rising };
}

// The first part at or after one whose last value is at least x, else the number of parts, by a
// gallop whose probes are counted in a ledger of its own.
fn galloped<L: Ledger>(directory: &Directory<'_>, part: u32, x: u64, blank: Blank) -> u32
    requires name { blank.name ≡ L.name }
    requires parts { blank.parts ≡ L.parts }
    requires ledger { 0 < L.parts }
    requires within { part ≤ directory.now.parts }
    requires in_words { directory.now.alone ≡ None }
    ensures { result ≡ place_at_least (lasts_stated (numbers_of directory.now.format)
        (words_begun (numbers_of directory.now.format) directory.now.words.now directory.now.m
        directory.now.alone) directory.now.parts) part x }
{
    let mut probes = Steps::<L>::new(blank);
    gallop(&EntriesInWords { directory }, part, x, &mut probes)
}

impl<'a> Directory<'a> {
    ghost use Rattle.sequence_words.specs.SequenceFault.{stated_last, stated_end, stated_offset};
    ghost use Rattle.sequence_words.specs.SequenceView.{BeginWith};
    ghost use Rattle.part_directory.specs.DirectorySequence.{words_of, sequence_of};

    /// The directory of the sequence with which the words begin.
    pub fn at_front(words: &'a [u64], parts: u32, m: u32, format: Format) -> Directory<'a>
        requires words { length words.now < 2 ^ 57 }
        requires begun { BeginWith words.now parts m
            (sequence_stated (numbers_of format) words.now parts) }
        ensures { sequence_of result ≡ sequence_stated (numbers_of format) words.entry.now parts }
    {
        directory_states_its_parts();
        Directory {
            words,
            parts,
            m,
            format,
            alone: None,
        }
    }

    /// The sequence whose one part stands alone at a place, by its last value. The bits of one
    /// value are not read, and need not be there.
    pub fn standing_alone(
        words: &'a [u64],
        place: u64,
        last: u64,
        m: u32,
        format: Format,
    ) -> Directory<'a>
        requires words { length words.now < 2 ^ 57 }
        requires some { 1 ≤ m }
        requires small { last < (numbers_of format).most_sum }
        requires place { place ≤ 64 * length words.now }
        requires part { 2 ≤ m → (ys : List ℕ)
            × HoldsPart part_bits (bits_of words.now) place (last + 1) m ys }
        ensures { sequence_of result ≡ alone_view (numbers_of format) (bits_of words.entry.now) m
            (record { place = place; last = last }) }
    {
        directory_states_its_parts();
        words_state_their_sequence();
        sequence_takes_its_cost();
        formats_have_room();
        one_list_at_place();
        Directory {
            words,
            parts: 1,
            m,
            format,
            alone: Some(Alone { place, last }),
        }
    }

    /// What the entry of a part states, also where the part stands alone, with none in the words.
    pub fn entry(&self, part: u32) -> Entry
        requires within { part < self.now.parts }
        ensures last { result.last ≡ stated_last (numbers_of self.now.format) (words_of self.now)
            part }
        ensures end { result.end ≡ stated_end (numbers_of self.now.format) (words_of self.now)
            part }
        ensures offset { result.offset ≡ stated_offset (numbers_of self.now.format)
            (words_of self.now) part }
    {
        match &self.alone {
            Some(alone) => Entry {
                last: alone.last,
                end: self.m as u64,
                offset: 0,
            },
            None => self.entry_in_words(part),
        }
    }

    /// The entry of a part in the words. A part that stands alone has none.
    pub fn entry_in_words(&self, part: u32) -> Entry
        requires within { part < self.now.parts }
        requires in_words { self.now.alone ≡ None }
        ensures last { result.last ≡ stated_last (numbers_of self.now.format) (words_of self.now)
            part }
        ensures end { result.end ≡ stated_end (numbers_of self.now.format) (words_of self.now)
            part }
        ensures offset { result.offset ≡ stated_offset (numbers_of self.now.format)
            (words_of self.now) part }
    {
        entry_at(self.words, part, self.format)
    }

    /// The first part at or after one whose last value is at least x, else the number of parts.
    pub fn part_reaching(&self, part: u32, x: u64) -> u32
        requires within { part ≤ self.now.parts }
        ensures after { part ≤ result }
        ensures within { result ≤ self.now.parts }
        ensures before { part < result → stated_last (numbers_of self.now.format)
            (words_of self.now) (result - 1) < x }
        ensures reached { result < self.now.parts
            → x ≤ stated_last (numbers_of self.now.format) (words_of self.now) result }
    {
        match &self.alone {
            Some(alone) => { if part == 0 && x <= alone.last { 0 } else { 1 } }
            None => galloped::<Brand>(self, part, x, Blank::new(1)),
        }
    }
}
