ghost use Rattle.std.specs.Prelude.{◌≡◌, ℕ, ◌≤◌, ◌<◌, ◌+◌, ◌^◌, List, length, slice_index};
ghost use Rattle.std.specs.List.Sorted.{IsStrictlyIncreasing};
ghost use Rattle.collection_model.specs.Collection.{greatest};
ghost use Rattle.collection_model.specs.Sequences.{steps_from};
ghost use Rattle.part_cost.specs.Formats.{numbers_of};
ghost use Rattle.part_cost.specs.Payload.{widest_low};
ghost use Rattle.part_cost.specs.Span.{past};
ghost use Rattle.sequence_words.specs.SequenceFault.{stated_end, end_before, stated_universe};
ghost use Rattle.part_directory.specs.HeldParts.{HoldsValues};
ghost use Rattle.two_level.specs.Steps.{greatest_step};
ghost use Rattle.part_directory.specs.DirectorySequence.{words_of, sequence_of};

use part_directory::{Directory, HeldPart, Part};

// The next value of a part that is held: its place, the value there, and one past the value before
// it.
#[derive(Clone, Copy)]
pub(crate) struct Next {
    pub(crate) place: u32,
    pub(crate) value: u64,
    pub(crate) past: u64,
}

// How many values are read at a time.
pub(crate) const BLOCK: usize = 64;

// The greatest step of some values, the first from one past a value before them.
fn step_of(values: &[u64], first: u64) -> u64
    requires small { (k : ℕ) → k < length values.now → slice_index values.now k < 2 ^ widest_low }
    ensures { result ≡ greatest (steps_from first values.now) }
{
    let mut past = first;
    let mut most = 0;
    for value in values {
        let next = *value + 1;
        most = next.saturating_sub(past).max(most);
        past = next;
    }
    most
}

// The greatest step of the next values of a part that is held, as many as have room; and the last
// of them.
fn step_of_block(held: &HeldPart, next: Next, block: &mut [u64]) -> (u64, u64)
    requires values { (xs : List ℕ) × HoldsValues held.now xs
        × (next.value ≡ slice_index xs next.place) }
    requires after { held.now.part.from ≤ next.place }
    requires some { 0 < length block.old }
    requires within { next.place + length block.old ≤ held.now.part.to }
    ensures step { (xs : List ℕ) → HoldsValues held.now xs → next.past ≡ past xs next.place
        → result.0 ≡ greatest_step xs next.place (next.place + length block.old) }
    ensures last { (xs : List ℕ) → HoldsValues held.now xs
        → result.1 + 1 ≡ past xs (next.place + length block.old) }
    ensures small { result.1 < 2 ^ widest_low }
    ensures room { length block.new ≡ length block.old }
{
    let last = held.read_block(next.place, next.value, block);
    (step_of(block, next.past), last)
}

// The greatest step from one place up to another of a part that is held, value by value.
fn step_of_values(held: &HeldPart, from: u32, to: u32) -> u64
    requires values { (xs : List ℕ) × HoldsValues held.now xs × IsStrictlyIncreasing xs }
    requires after { held.now.part.from ≤ from }
    requires some { from < to }
    requires within { to ≤ held.now.part.to }
    ensures { (xs : List ℕ) → HoldsValues held.now xs → IsStrictlyIncreasing xs
        → result ≡ greatest_step xs from to }
{
    let mut block = [0; BLOCK];
    let mut past = held.past_before(from);
    let mut value = held.value(from);
    let mut place = from;
    let mut most = 0;
    'read: while place < to {
        let room = BLOCK.min((to - place) as usize);
        let next = Next { place, value, past };
        let (step, last) = step_of_block(held, next, &mut block[..room]);
        most = step.max(most);
        past = last + 1;
        place += room as u32;
        if place < to {
            value = held.value_after(place - 1, last);
        }
    }
    most
}

// The greatest step from one place up to another within a part of the sequence. Where all places of
// the part are taken each step is 1, and one number alone lies as far as the universe: such a part
// is not read.
fn step_in_part(directory: &Directory<'_>, index: u32, part: Part, from: u32, to: u32) -> u64
    requires within { index < directory.now.parts }
    requires starts { part.from ≡ end_before (numbers_of directory.now.format)
        (words_of directory.now) index }
    requires ends { part.to ≡ stated_end (numbers_of directory.now.format) (words_of directory.now)
        index }
    requires universe { part.u ≡ stated_universe (numbers_of directory.now.format)
        (words_of directory.now) index }
    requires after { part.from ≤ from }
    requires some { from < to }
    requires before { to ≤ part.to }
    ensures { result ≡ greatest_step (sequence_of directory.now).values from to }
{
    let count = (part.to - part.from) as u64;
    if part.u == count {
        1
    } else if count == 1 {
        part.u
    } else {
        step_of_values(&directory.hold(index), from, to)
    }
}

// The greatest step from one place up to another of the sequence.
pub(crate) fn step_between(directory: &Directory<'_>, from: u32, to: u32) -> u64
    requires some { from < to }
    requires within { to ≤ length (sequence_of directory.now).values }
    ensures { result ≡ greatest_step (sequence_of directory.now).values from to }
{
    let mut index = directory.part_of_place(from);
    let mut place = from;
    let mut most = 0;
    'parts: while place < to {
        let (part, _) = directory.stated_part(index);
        let end = part.to.min(to);
        most = step_in_part(directory, index, part, place, end).max(most);
        place = end;
        index += 1;
    }
    most
}
