ghost use Rattle.std.specs.Prelude.{◌≡◌, ℕ, ◌≤◌, ◌<◌, ◌+◌, ◌-◌, ◌^◌, IsTrue, ◌↔◌, List, length, slice_index, slice_range, take};
ghost use Rattle.collection_model.specs.NextBelow.{AreNextBelow};
ghost use Rattle.std.specs.List.Sorted.{IsStrictlyIncreasing};
ghost use Rattle.part_cost.specs.Payload.{widest_low};
ghost use Rattle.part_cost.specs.Span.{past, universe, relative_values};
ghost use Rattle.part_cost.specs.Stored.{IsFirstAtLeast};
ghost use Rattle.part_codec.specs.PartView.{Holds, count_of};
ghost use Rattle.part_codec.specs.Sought.{IsSought};
ghost use Rattle.part_cost.specs.Formats.{numbers_of};
ghost use Rattle.sequence_words.specs.SequenceFault.{end_before};
ghost use Rattle.sequence_words.specs.SequenceView.{place_at_least};
ghost use Rattle.sequence_words.specs.SequenceParts.{counted_from};
ghost use Rattle.part_directory.specs.HeldParts.{HoldsValues, IsHeldPart, LiesIn, StandsBehind};
ghost use Rattle.part_directory.specs.DirectorySequence.{words_of, sequence_of};

use crate::directory::Directory;
use crate::part::Part;
use part_codec::{PartCodec, PartView, Sought};
use part_cost::formats_have_room;

/// A part of a sequence that is held to be read: which part it is, what is said of it, one past the
/// value before it, and the view of its relative values.
#[derive(Clone, Copy)]
pub struct HeldPart<'a> {
    pub index: u32,
    pub part: Part,
    pub past: u64,
    pub view: PartView<'a>,
}

// Number k of a part that holds some numbers.
fn number_in_part(view: &PartView, k: u64) -> u64
    requires held { (ys : List ℕ) × Holds view.now ys }
    requires within { k < count_of view.now }
    ensures { (ys : List ℕ) → Holds view.now ys → result ≡ slice_index ys k }
{
    view.get(k)
}

// Number k + 1 of a part that holds some numbers, by number k.
#[inline(always)]
fn number_after(view: &PartView, k: u64, number: u64) -> u64
    requires held { (ys : List ℕ) × Holds view.now ys }
    requires within { k + 1 < count_of view.now }
    requires number { (ys : List ℕ) → Holds view.now ys → number ≡ slice_index ys k }
    ensures { (ys : List ℕ) → Holds view.now ys → result ≡ slice_index ys (k + 1) }
{
    view.after(k, number)
}

// Gives the numbers from number k on of a part that holds some that are below x, as many as there
// are and have room, by number k. It tells how many they are.
fn numbers_below(view: &PartView, k: u64, number: u64, x: u64, to: &mut [u64]) -> usize
    requires held { (ys : List ℕ) × Holds view.now ys }
    requires within { k < count_of view.now }
    requires number { (ys : List ℕ) → Holds view.now ys → number ≡ slice_index ys k }
    ensures room { length to.new ≡ length to.old }
    ensures numbers { (ys : List ℕ) → Holds view.now ys → AreNextBelow ys k x to.new result }
{
    view.values_below(k, number, x, to)
}

// Adds so much to each of so many first numbers.
fn raise_first(numbers: &mut [u64], count: usize, more: u64)
    requires within { count ≤ length numbers.old }
    requires fits { (j : ℕ) → j < count → slice_index numbers.old j + more < 2 ^ 64 }
    ensures room { length numbers.new ≡ length numbers.old }
    ensures raised { (j : ℕ) → j < count → slice_index numbers.new j
        ≡ slice_index numbers.old j + more }
{
    for j in 0..count {
        numbers[j] += more;
    }
}

impl<'a> HeldPart<'a> {
    /// Whether a place lies in the part.
    pub fn has(&self, place: u32) -> bool
        ensures { IsTrue result ↔ (self.now.part.from ≤ place) × (place < self.now.part.to) }
    {
        self.part.from <= place && place < self.part.to
    }

    /// The value at a place in the part.
    pub fn value(&self, place: u32) -> u64
        requires values { (xs : List ℕ) × HoldsValues self.now xs }
        requires after { self.now.part.from ≤ place }
        requires before { place < self.now.part.to }
        ensures { (xs : List ℕ) → HoldsValues self.now xs → result ≡ slice_index xs place }
    {
        number_in_part(&self.view, (place - self.part.from) as u64) + self.past
    }

    /// One past the value before a place in the part.
    pub fn past_before(&self, place: u32) -> u64
        requires values { (xs : List ℕ) × HoldsValues self.now xs × IsStrictlyIncreasing xs }
        requires after { self.now.part.from ≤ place }
        requires before { place < self.now.part.to }
        ensures { (xs : List ℕ) → HoldsValues self.now xs → IsStrictlyIncreasing xs
            → result ≡ past xs place }
    {
        if place == self.part.from {
            self.part.last + 1 - self.part.u
        } else {
            self.value(place - 1) + 1
        }
    }

    // How far the value at a place in the part lies past the value before it.
    fn step(&self, place: u32) -> u64
        requires values { (xs : List ℕ) × HoldsValues self.now xs × IsStrictlyIncreasing xs }
        requires after { self.now.part.from ≤ place }
        requires before { place < self.now.part.to }
        ensures { (xs : List ℕ) → HoldsValues self.now xs → IsStrictlyIncreasing xs
            → result ≡ universe xs place (place + 1) }
    {
        if place == self.part.from {
            let past = self.part.last + 1 - self.part.u;
            self.first() + 1 - past
        } else {
            let before = self.value(place - 1);
            self.value_after(place - 1, before) - before
        }
    }

    // The first value of the part.
    fn first(&self) -> u64
        requires values { (xs : List ℕ) × HoldsValues self.now xs }
        requires some { self.now.part.from < self.now.part.to }
        ensures { (xs : List ℕ) → HoldsValues self.now xs
            → result ≡ slice_index xs self.now.part.from }
    {
        self.view.first() + self.past
    }

    /// The value behind a place in the part, by the value at that place.
    #[inline(always)]
    pub fn value_after(&self, place: u32, value: u64) -> u64
        requires values { (xs : List ℕ) × HoldsValues self.now xs × (value ≡ slice_index xs place) }
        requires after { self.now.part.from ≤ place }
        requires before { place + 1 < self.now.part.to }
        ensures { (xs : List ℕ) → HoldsValues self.now xs → result ≡ slice_index xs (place + 1) }
    {
        let number = value - self.past;
        number_after(&self.view, (place - self.part.from) as u64, number) + self.past
    }

    /// Gives the values of the part from a place on that are below x, as many as there are and have
    /// room, by the value at that place. It tells how many they are.
    pub fn values_below(&self, place: u32, value: u64, x: u64, to: &mut [u64]) -> usize
        requires values { (xs : List ℕ) × HoldsValues self.now xs × (value ≡ slice_index xs place) }
        requires after { self.now.part.from ≤ place }
        requires before { place < self.now.part.to }
        ensures room { length to.new ≡ length to.old }
        ensures values { (xs : List ℕ) → HoldsValues self.now xs
            → AreNextBelow (take self.now.part.to xs) place x to.new result }
    {
        let k = (place - self.part.from) as u64;
        let number = value - self.past;
        let count = numbers_below(&self.view, k, number, x.saturating_sub(self.past), to);
        raise_first(to, count, self.past);
        count
    }

    /// Reads the next values of the part, as many as have room, by the value at their place, and
    /// gives the last of them.
    pub fn read_block(&self, place: u32, value: u64, block: &mut [u64]) -> u64
        requires values { (xs : List ℕ) × HoldsValues self.now xs × (value ≡ slice_index xs place) }
        requires after { self.now.part.from ≤ place }
        requires some { 0 < length block.old }
        requires within { place + length block.old ≤ self.now.part.to }
        ensures values { (xs : List ℕ) → HoldsValues self.now xs
            → block.new ≡ slice_range xs place (place + length block.old) }
        ensures small { (k : ℕ) → k < length block.new → slice_index block.new k < 2 ^ widest_low }
        ensures last { (xs : List ℕ) → HoldsValues self.now xs
            → result + 1 ≡ past xs (place + length block.old) }
        ensures fits { result < 2 ^ widest_low }
        ensures room { length block.new ≡ length block.old }
    {
        self.values_below(place, value, u64::MAX, block);
        block[block.len() - 1]
    }

    /// The first place at or after one in the part whose value is at least x, by the value at that
    /// place, which is no more than x.
    pub fn place_from(&self, place: u32, value: u64, x: u64) -> u32
        requires values { (xs : List ℕ) × HoldsValues self.now xs × (value ≡ slice_index xs place) }
        requires after { self.now.part.from ≤ place }
        requires before { place < self.now.part.to }
        requires reached { x ≤ self.now.part.last }
        requires below { value ≤ x }
        ensures { (xs : List ℕ) → HoldsValues self.now xs → value ≡ slice_index xs place
            → IsFirstAtLeast xs place x result }
    {
        let from = (place - self.part.from) as u64;
        let k = self.view.place_from(from, value - self.past, x - self.past);
        self.part.from + k as u32
    }

    /// The first value of the part at or behind a place that is at least x, by the value at that
    /// place, which is no more than x; and a place at or before its own with the value there, since
    /// in a bitmap places are not counted.
    pub fn seek(&self, place: u32, value: u64, x: u64) -> Sought
        requires values { (xs : List ℕ) × HoldsValues self.now xs × (value ≡ slice_index xs place) }
        requires after { self.now.part.from ≤ place }
        requires before { place < self.now.part.to }
        requires reached { x ≤ self.now.part.last }
        requires below { value ≤ x }
        ensures { (xs : List ℕ) → HoldsValues self.now xs → value ≡ slice_index xs place
            → (s : IsSought xs place x result) × (s.own < self.now.part.to) }
    {
        let from = (place - self.part.from) as u64;
        let sought = self.view.seek(from, value - self.past, x - self.past);
        self.in_sequence(sought)
    }

    // The first value of the part that is at least x, and a place at or before its own with the
    // value there.
    fn seek_first(&self, x: u64) -> Sought
        requires values { (xs : List ℕ) × HoldsValues self.now xs }
        requires reached { x ≤ self.now.part.last }
        ensures { (xs : List ℕ) → HoldsValues self.now xs
            → (s : IsSought xs self.now.part.from x result) × (s.own < self.now.part.to) }
    {
        let sought = self.view.seek_first(x.saturating_sub(self.past));
        self.in_sequence(sought)
    }

    // What was found among the relative values of the part, as places and values of the sequence.
    fn in_sequence(&self, sought: Sought) -> Sought
        requires found { (xs : List ℕ) × HoldsValues self.now xs
            × ((k least : ℕ) × IsSought (counted_from self.now.past xs self.now.part.from
            self.now.part.to) k least sought) }
        ensures { (xs : List ℕ) → HoldsValues self.now xs → (place x : ℕ)
            → self.now.part.from ≤ place → IsSought
            (counted_from self.now.past xs self.now.part.from self.now.part.to)
            (place - self.now.part.from) (x - self.now.past) sought
            → (s : IsSought xs place x result) × (s.own < self.now.part.to) }
    {
        Sought {
            place: self.part.from as u64 + sought.place,
            there: sought.there + self.past,
            number: sought.number + self.past,
        }
    }
}

impl<'a> Directory<'a> {
    /// Holds a part of the sequence.
    #[inline(always)]
    pub fn hold(&self, index: u32) -> HeldPart<'a>
        requires within { index < self.now.parts }
        ensures index { result.index ≡ index }
        ensures held { IsHeldPart (numbers_of self.now.format) (words_of self.now) self.now.parts
            result }
    {
        formats_have_room();
        let (part, placed) = self.stated_part(index);
        HeldPart {
            index,
            part,
            past: part.last + 1 - placed.u,
            view: PartView::at(placed),
        }
    }

    /// Holds a part of the sequence, and gives its first value; behind the last part it holds none.
    #[inline(always)]
    pub fn hold_if_any(&self, part: u32) -> (Option<HeldPart<'a>>, u64)
        requires within { part ≤ self.now.parts }
        ensures lies { LiesIn (numbers_of self.now.format) (words_of self.now) self.now.parts
            (end_before (numbers_of self.now.format) (words_of self.now) part) result.0 result.1 }
    {
        if part < self.parts {
            let held = self.hold(part);
            let value = held.first();
            (Some(held), value)
        } else {
            (None, 0)
        }
    }

    /// Holds a part of the sequence where it is to be held, and gives its first value; behind the
    /// last part it holds none.
    #[inline(never)]
    pub fn hold_into(&self, part: u32, into: &mut Option<HeldPart<'a>>) -> u64
        requires within { part ≤ self.now.parts }
        ensures lies { LiesIn (numbers_of self.now.format) (words_of self.now) self.now.parts
            (end_before (numbers_of self.now.format) (words_of self.now) part) into.new result }
    {
        if part < self.parts {
            let held = self.hold(part);
            let value = held.first();
            *into = Some(held);
            value
        } else {
            *into = None;
            0
        }
    }

    /// Holds the part of a place of the sequence.
    pub fn hold_place(&self, place: u32) -> HeldPart<'a>
        requires within { place < length (sequence_of self.now).values }
        ensures held { IsHeldPart (numbers_of self.now.format) (words_of self.now) self.now.parts
            result }
        ensures after { result.part.from ≤ place }
        ensures before { place < result.part.to }
    {
        self.hold(self.part_of_place(place))
    }

    /// Holds the part of a place of the sequence, and gives the value there; at the end it holds
    /// none.
    pub fn hold_at(&self, place: u32) -> (Option<HeldPart<'a>>, u64)
        requires within { place ≤ length (sequence_of self.now).values }
        ensures lies { LiesIn (numbers_of self.now.format) (words_of self.now) self.now.parts place
            result.0 result.1 }
    {
        if place < self.m {
            let held = self.hold_place(place);
            let value = held.value(place);
            (Some(held), value)
        } else {
            (None, 0)
        }
    }

    /// The first value from the start of a part on that is at least x: the value at a place at or
    /// before its own, and the value itself. This place and the part are put where they are to be
    /// held. Else the end.
    #[inline(never)]
    pub fn first_from_part(
        &self,
        part: u32,
        x: u64,
        into: &mut Option<HeldPart<'a>>,
        counted: &mut u32,
    ) -> (u64, u64)
        requires within { part ≤ self.now.parts }
        ensures lies { LiesIn (numbers_of self.now.format) (words_of self.now) self.now.parts
            counted.new into.new result.0 }
        ensures behind { StandsBehind into.new (sequence_of self.now).values counted.new result.1 }
        ensures first { let xs = (sequence_of self.now).values in place_at_least xs counted.new
            result.1 ≡ place_at_least xs (end_before (numbers_of self.now.format)
            (words_of self.now) part) x }
    {
        let reaching = self.part_reaching(part, x);
        if reaching < self.parts {
            let held = self.hold(reaching);
            let sought = held.seek_first(x);
            *into = Some(held);
            *counted = sought.place as u32;
            (sought.there, sought.number)
        } else {
            *into = None;
            *counted = self.m;
            (0, 0)
        }
    }

    /// The value at a place of the sequence.
    pub fn value_at(&self, place: u32) -> u64
        requires within { place < length (sequence_of self.now).values }
        ensures { result ≡ slice_index (sequence_of self.now).values place }
    {
        self.hold_place(place).value(place)
    }

    /// How far the value at a place of the sequence lies past the value before it; the first value
    /// counts from -1.
    pub fn step_at(&self, place: u32) -> u64
        requires within { place < length (sequence_of self.now).values }
        ensures { result ≡ universe (sequence_of self.now).values place (place + 1) }
    {
        self.hold_place(place).step(place)
    }
}
