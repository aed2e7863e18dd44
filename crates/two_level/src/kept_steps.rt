ghost use Rattle.std.specs.Prelude.{◌≡◌, ◌≢◌, ℕ, ◌≤◌, ◌<◌, ◌+◌, ◌-◌, ◌*◌, ◌^◌, ◌↔◌, IsTrue, List, length, slice_index, slice_range};
ghost use Rattle.std.specs.List.Sorted.{IsStrictlyIncreasing};
ghost use Rattle.collection_model.specs.Sequences.{steps_from};
ghost use Rattle.part_cost.specs.Formats.{numbers_of};
ghost use Rattle.part_cost.specs.Payload.{widest_low};
ghost use Rattle.part_cost.specs.Span.{past};
ghost use Rattle.part_directory.specs.HeldParts.{HoldsValues};
ghost use Rattle.two_level.specs.LongSteps.{count_reaching, KeepsLongest, steps_of_long_parts};
ghost use Rattle.part_directory.specs.DirectorySequence.{sequence_of};

use crate::stepping::{BLOCK, Next};
use part_cost::formats_have_room;
use part_directory::{Directory, HeldPart, Part};

// How many steps are kept at most.
const MOST_KEPT: usize = 64;

// The place of the least of some numbers.
fn place_of_least(numbers: &[u64]) -> usize
    requires some { 0 < length numbers.now }
    ensures within { result < length numbers.now }
    ensures least { (k : ℕ) → k < length numbers.now
        → slice_index numbers.now result ≤ slice_index numbers.now k }
{
    let mut least = 0;
    for place in 1..numbers.len() {
        if numbers[place] < numbers[least] {
            least = place;
        }
    }
    least
}

// Keeps the longest steps: one of these values that is longer than the least that is kept takes its
// place. The first value steps from one past a value before them.
fn keep_steps(values: &[u64], first: u64, kept: &mut [u64])
    requires small { (k : ℕ) → k < length values.now → slice_index values.now k < 2 ^ widest_low }
    requires some { 0 < length kept.old }
    ensures room { length kept.new ≡ length kept.old }
    ensures kept { KeepsLongest kept.old (steps_from first values.now) kept.new }
{
    let mut past = first;
    let mut least = place_of_least(kept);
    for value in values {
        let next = *value + 1;
        let step = next.saturating_sub(past);
        if kept[least] < step {
            kept[least] = step;
            least = place_of_least(kept);
        }
        past = next;
    }
}

// Keeps the longest steps of the next values of a part that is held, as many as have room; it gives
// the last.
fn keep_block(held: &HeldPart, next: Next, block: &mut [u64], kept: &mut [u64]) -> u64
    requires values { (xs : List ℕ) × HoldsValues held.now xs
        × (next.value ≡ slice_index xs next.place) }
    requires after { held.now.part.from ≤ next.place }
    requires some { 0 < length block.old }
    requires within { next.place + length block.old ≤ held.now.part.to }
    requires any { 0 < length kept.old }
    ensures same_kept { length kept.new ≡ length kept.old }
    ensures kept { (xs : List ℕ) → HoldsValues held.now xs → next.past ≡ past xs next.place
        → KeepsLongest kept.old
        (slice_range (steps_from 0 xs) next.place (next.place + length block.old)) kept.new }
    ensures last { (xs : List ℕ) → HoldsValues held.now xs
        → result + 1 ≡ past xs (next.place + length block.old) }
    ensures fits { result < 2 ^ widest_low }
    ensures room { length block.new ≡ length block.old }
{
    let last = held.read_block(next.place, next.value, block);
    keep_steps(block, next.past, kept);
    last
}

// Keeps the longest steps of the values of a part that is held.
fn keep_part(held: &HeldPart, kept: &mut [u64])
    requires values { (xs : List ℕ) × HoldsValues held.now xs × IsStrictlyIncreasing xs }
    requires some { held.now.part.from < held.now.part.to }
    requires any { 0 < length kept.old }
    ensures same_kept { length kept.new ≡ length kept.old }
    ensures kept { (xs : List ℕ) → HoldsValues held.now xs → IsStrictlyIncreasing xs
        → KeepsLongest kept.old
        (slice_range (steps_from 0 xs) held.now.part.from held.now.part.to) kept.new }
{
    let to = held.part.to;
    let mut block = [0; BLOCK];
    let mut place = held.part.from;
    let mut past = held.past_before(place);
    let mut value = held.value(place);
    'read: while place < to {
        let room = BLOCK.min((to - place) as usize);
        let next = Next { place, value, past };
        let last = keep_block(held, next, &mut block[..room], kept);
        past = last + 1;
        place += room as u32;
        if place < to {
            value = held.value_after(place - 1, last);
        }
    }
}

// Whether the steps of a part are at least twice as long, in the mean, as those of m values in a
// universe.
fn has_long_steps(part: Part, universe: u64, m: u32) -> bool
    requires order { part.from ≤ part.to }
    ensures { IsTrue result ↔ (2 * universe * (part.to - part.from) ≤ part.u * m) }
{
    let count = (part.to - part.from) as u128;
    2 * universe as u128 * count <= part.u as u128 * m as u128
}

// Keeps the longest steps of the parts whose steps are long in the mean. The other parts are not
// read.
fn keep_long_parts(directory: &Directory<'_>, kept: &mut [u64])
    requires some { 0 < directory.now.parts }
    requires any { 0 < length kept.old }
    ensures same_kept { length kept.new ≡ length kept.old }
    ensures kept { (least : ℕ) → count_reaching least kept.new
        ≤ count_reaching least kept.old + count_reaching least
        (steps_from 0 (sequence_of directory.now).values) }
    ensures longest { KeepsLongest kept.old (steps_of_long_parts (sequence_of directory.now))
        kept.new }
{
    formats_have_room();
    let universe = directory.entry(directory.parts - 1).last + 1;
    'parts: for index in 0..directory.parts {
        let (part, _) = directory.stated_part(index);
        if has_long_steps(part, universe, directory.m) {
            keep_part(&directory.hold(index), kept);
        }
    }
}

// A step that at least k of the steps of the sequence reach, 0 where none is told. Of up to 64 it
// is no shorter than what k of the steps of the long parts reach.
pub(crate) fn common_step_of(directory: &Directory<'_>, k: u32) -> u64
    requires some { 1 ≤ k }
    ensures reached { result ≢ 0 → k ≤ count_reaching result
        (steps_from 0 (sequence_of directory.now).values) }
    ensures longest { k ≤ 64 → (least : ℕ)
        → k ≤ count_reaching least (steps_of_long_parts (sequence_of directory.now))
        → least ≤ result }
{
    let count = k as usize;
    if directory.parts == 0 || MOST_KEPT < count {
        return 0;
    }
    let mut room = [0; MOST_KEPT];
    let kept = &mut room[..count];
    keep_long_parts(directory, kept);
    kept[place_of_least(kept)]
}
