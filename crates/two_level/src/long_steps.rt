ghost use Rattle.std.specs.Prelude.{◌≡◌, ℕ, ◌≤◌, ◌<◌, ◌+◌, ◌^◌, nat_le, List, length, slice_index};
ghost use Rattle.std.specs.List.{position_or_len};
ghost use Rattle.std.specs.List.Sorted.{IsStrictlyIncreasing};
ghost use Rattle.collection_model.specs.Sequences.{steps_from};
ghost use Rattle.part_cost.specs.Formats.{numbers_of};
ghost use Rattle.part_cost.specs.Payload.{widest_low};
ghost use Rattle.part_cost.specs.Span.{past};
ghost use Rattle.sequence_words.specs.SequenceFault.{stated_end, end_before, stated_universe};
ghost use Rattle.sequence_words.specs.SequenceView.{place_at_least};
ghost use Rattle.part_directory.specs.HeldParts.{HoldsValues};
ghost use Rattle.two_level.specs.LongSteps.{IsFirstStep};
ghost use Rattle.part_directory.specs.DirectorySequence.{words_of, sequence_of};

use crate::stepping::{BLOCK, Next};
use part_directory::{Directory, HeldPart, Part};

// Which of some values is the first whose step is at least so long, or how many they are; the first
// steps from one past a value before them.
fn first_long(values: &[u64], first: u64, least: u64) -> usize
    requires small { (k : ℕ) → k < length values.now → slice_index values.now k < 2 ^ widest_low }
    ensures within { result ≤ length values.now }
    ensures first { result ≡ position_or_len (λ s. nat_le least s) (steps_from first values.now) }
{
    let mut past = first;
    for (index, value) in values.iter().enumerate() {
        let next = *value + 1;
        if least <= next.saturating_sub(past) {
            return index;
        }
        past = next;
    }
    values.len()
}

// Which of the next values of a part that is held, as many as have room, is the first whose step is
// at least so long, or how many they are; and the last of them.
fn first_in_block(held: &HeldPart, next: Next, least: u64, block: &mut [u64]) -> (usize, u64)
    requires values { (xs : List ℕ) × HoldsValues held.now xs
        × (next.value ≡ slice_index xs next.place) }
    requires after { held.now.part.from ≤ next.place }
    requires some { 0 < length block.old }
    requires within { next.place + length block.old ≤ held.now.part.to }
    ensures first { (xs : List ℕ) → HoldsValues held.now xs → next.past ≡ past xs next.place
        → IsFirstStep xs next.place (next.place + length block.old) least (next.place + result.0) }
    ensures count { result.0 ≤ length block.old }
    ensures last { (xs : List ℕ) → HoldsValues held.now xs
        → result.1 + 1 ≡ past xs (next.place + length block.old) }
    ensures fits { result.1 < 2 ^ widest_low }
    ensures room { length block.new ≡ length block.old }
{
    let last = held.read_block(next.place, next.value, block);
    (first_long(block, next.past, least), last)
}

// The first place from one on of a part that is held whose step is at least so long, or the end of
// the part, value by value.
fn first_in_values(held: &HeldPart, from: u32, least: u64) -> u32
    requires values { (xs : List ℕ) × HoldsValues held.now xs × IsStrictlyIncreasing xs }
    requires after { held.now.part.from ≤ from }
    requires some { from < held.now.part.to }
    ensures { (xs : List ℕ) → HoldsValues held.now xs → IsStrictlyIncreasing xs
        → IsFirstStep xs from held.now.part.to least result }
{
    let to = held.part.to;
    let mut block = [0; BLOCK];
    let mut past = held.past_before(from);
    let mut value = held.value(from);
    let mut place = from;
    'read: while place < to {
        let room = BLOCK.min((to - place) as usize);
        let next = Next { place, value, past };
        let (count, last) = first_in_block(held, next, least, &mut block[..room]);
        if count < room {
            return place + count as u32;
        }
        past = last + 1;
        place += room as u32;
        if place < to {
            value = held.value_after(place - 1, last);
        }
    }
    to
}

// The first place from one on of a part of the sequence whose step is at least so long, or the end
// of the part. A part whose numbers leave no room for such a step is not read, and the one step of
// one number is its universe.
fn first_in_part(directory: &Directory<'_>, index: u32, part: Part, from: u32, least: u64) -> u32
    requires within { index < directory.now.parts }
    requires starts { part.from ≡ end_before (numbers_of directory.now.format)
        (words_of directory.now) index }
    requires ends { part.to ≡ stated_end (numbers_of directory.now.format) (words_of directory.now)
        index }
    requires universe { part.u ≡ stated_universe (numbers_of directory.now.format)
        (words_of directory.now) index }
    requires after { part.from ≤ from }
    requires some { from < part.to }
    ensures { IsFirstStep (sequence_of directory.now).values from part.to least result }
{
    let count = (part.to - part.from) as u64;
    if part.u - count + 1 < least {
        part.to
    } else if count == 1 {
        from
    } else {
        first_in_values(&directory.hold(index), from, least)
    }
}

// The first place from one on of the sequence whose step is at least so long, or the end.
pub(crate) fn first_step_from(directory: &Directory<'_>, from: u32, least: u64) -> u32
    requires within { from ≤ length (sequence_of directory.now).values }
    ensures { result ≡ place_at_least (steps_from 0 (sequence_of directory.now).values) from least }
{
    let m = directory.m;
    if least <= 1 || from == m {
        return from;
    }
    let mut index = directory.part_of_place(from);
    let mut place = from;
    'parts: while place < m {
        let (part, _) = directory.stated_part(index);
        let found = first_in_part(directory, index, part, place, least);
        if found < part.to {
            return found;
        }
        place = part.to;
        index += 1;
    }
    m
}
