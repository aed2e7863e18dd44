ghost use Rattle.std.specs.Prelude.{◌≡◌, ◌≢◌, ℕ, ◌≤◌, ◌<◌, ◌+◌, ◌*◌, ◌^◌, true, List, [], ◌∷◌, length, slice_index, IfOk, IfErr};
ghost use Rattle.bit_words.specs.Bits.{bits_of};
ghost use Rattle.part_cost.specs.Stored.{HoldsPart};
ghost use Rattle.part_codec.specs.PartBits.{part_bits};
ghost use Rattle.part_codec.specs.PartView.{Holds, count_of};
ghost use Rattle.collection_model.specs.FormatNumbers.{part_charge};
ghost use Rattle.collection_model.specs.Collection.{greatest};
ghost use Rattle.collection_model.specs.NextBelow.{AreNextBelow};
ghost use Rattle.collection_model.specs.Sequences.{steps_from};
ghost use Rattle.part_cost.specs.Formats.{numbers_of};
ghost use Rattle.part_cost.specs.Span.{past, cost_of_part};
ghost use Rattle.part_cost.specs.Partition.{partition_cost};
ghost use Rattle.sequence_words.specs.SequenceWords.{BeginsSequence};
ghost use Rattle.sequence_words.specs.SequenceFault.{IsSequenceFault};
ghost use Rattle.sequence_words.specs.SequenceView.{SequenceView, BeginWith, words_used, place_at_least};
ghost use Rattle.part_directory.specs.DirectorySequence.{sequence_of};
ghost use Rattle.part_directory.specs.PartOf.{IsPartOf};
ghost use Rattle.two_level.specs.Steps.{greatest_step};
ghost use Rattle.two_level.specs.LongSteps.{count_reaching, steps_of_long_parts};

use crate::cursor::SeqCursor;
use crate::kept_steps::common_step_of;
use crate::long_steps::first_step_from;
use crate::stepping::step_between;
use part_codec::{PartCodec, PartView, one_list_at_place};
use part_cost::{Format, formats_have_room};
use part_directory::{Directory, Part};
use sequence_words::{
    SeqFault, SeqShape, check_words, checks_accept_a_sequence, checks_refuse_no_sequence,
    directory_states_its_parts, words_state_their_sequence,
};
use std::marker::Model;

/// A sequence of m values in parts, at the front of lent words; or in one part that stands alone in
/// them.
#[derive(Drop)]
pub struct SeqView<'a> {
    directory: Directory<'a>,
}

/// A sequence whose words were checked, and how many they are.
#[derive(Drop)]
pub struct Checked<'a> {
    pub view: SeqView<'a>,
    pub used: u64,
}

/// A sequence whose words were checked, how many they are, and how far a value lies past the one
/// before it at most.
#[derive(Drop)]
pub struct CheckedSteps<'a> {
    pub view: SeqView<'a>,
    pub used: u64,
    pub greatest: u64,
}

impl<'a> Model for SeqView<'a> {
    ghost use Rattle.sequence_words.specs.SequenceView.{SequenceView};
    ghost use Rattle.part_directory.specs.DirectorySequence.{sequence_of};

    ghost Value = { SequenceView };

    ghost view = { λ v. sequence_of v.directory };
}

// Gives the numbers of a part that holds some, as many as have room. It tells how many they are.
fn numbers_into(view: &PartView<'_>, to: &mut [u64]) -> usize
    requires held { (ys : List ℕ) × Holds view.now ys }
    requires some { 0 < count_of view.now }
    ensures room { length to.new ≡ length to.old }
    ensures numbers { (ys : List ℕ) → Holds view.now ys
        → AreNextBelow ys 0 18446744073709551615 to.new result }
{
    view.values_below(0, view.first(), u64::MAX, to)
}

// Gives the values of a sequence of several in one part, for which there is room.
#[inline(always)]
fn values_of_part(directory: &Directory<'_>, to: &mut [u64])
    requires one { directory.now.parts ≡ 1 }
    requires several { 2 ≤ length to.old }
    requires room { length to.old ≡ length (sequence_of directory.now).values }
    ensures { to.new ≡ (sequence_of directory.now).values }
{
    formats_have_room();
    numbers_into(&PartView::at(directory.stated_part(0).1), to);
}

impl<'a> SeqView<'a> {
    /// The sequence of m values below the bound in so many parts with which the words begin. The
    /// refusal is the first check that breaks: of the counts, of the entries, of where they end, of
    /// the parts, of the padding.
    pub fn check(
        words: &'a [u64],
        parts: u32,
        m: u32,
        bound: u64,
        format: Format,
    ) -> Result<SeqView<'a>, SeqFault>
        requires words { length words.now < 2 ^ 57 }
        requires bound { bound ≤ (numbers_of format).most_sum }
        ensures format { IfOk result (λ v. v.format ≡ numbers_of format) }
        ensures ok { IfOk result (λ v. (used : ℕ)
            × BeginsSequence (numbers_of format) m bound parts v.values v.ends words.entry.now
            used) }
        ensures count { IfOk result (λ v. length v.values ≡ m) }
        ensures parts { IfOk result (λ v. length v.ends ≡ parts) }
        ensures none { IfErr result (λ f. (xs ends : List ℕ) (used : ℕ)
            → ¬ BeginsSequence (numbers_of format) m bound parts xs ends words.entry.now used) }
        ensures first { IfErr result (λ f. IsSequenceFault (numbers_of format) words.entry.now parts
            m bound f.check f.part) }
    {
        match SeqView::check_counting(words, parts, m, bound, format) {
            Ok(checked) => Ok(checked.view),
            Err(fault) => Err(fault),
        }
    }

    /// The sequence that `check` reads, and how many words it takes, which are counted as they are
    /// checked.
    pub fn check_counting(
        words: &'a [u64],
        parts: u32,
        m: u32,
        bound: u64,
        format: Format,
    ) -> Result<Checked<'a>, SeqFault>
        requires words { length words.now < 2 ^ 57 }
        requires bound { bound ≤ (numbers_of format).most_sum }
        ensures format { IfOk result (λ c. c.view.format ≡ numbers_of format) }
        ensures ok { IfOk result (λ c. (used : ℕ)
            × BeginsSequence (numbers_of format) m bound parts c.view.values c.view.ends
            words.entry.now used) }
        ensures used { IfOk result (λ c. c.used ≡ words_used c.view) }
        ensures count { IfOk result (λ c. length c.view.values ≡ m) }
        ensures parts { IfOk result (λ c. length c.view.ends ≡ parts) }
        ensures none { IfErr result (λ f. (xs ends : List ℕ) (used : ℕ)
            → ¬ BeginsSequence (numbers_of format) m bound parts xs ends words.entry.now used) }
        ensures first { IfErr result (λ f. IsSequenceFault (numbers_of format) words.entry.now parts
            m bound f.check f.part) }
    {
        let shape = SeqShape {
            parts,
            m,
            bound,
            format,
        };
        match SeqView::check_into(words, shape, false, &mut []) {
            Ok(checked) => Ok(Checked {
                view: checked.view,
                used: checked.used,
            }),
            Err(fault) => Err(fault),
        }
    }

    /// The sequence that `check` reads, how many words it takes, and its greatest step, the first
    /// value counting from -1. The step is found as the parts are checked.
    pub fn check_steps(
        words: &'a [u64],
        parts: u32,
        m: u32,
        bound: u64,
        format: Format,
    ) -> Result<CheckedSteps<'a>, SeqFault>
        requires words { length words.now < 2 ^ 57 }
        requires bound { bound ≤ (numbers_of format).most_sum }
        ensures format { IfOk result (λ c. c.view.format ≡ numbers_of format) }
        ensures ok { IfOk result (λ c. (used : ℕ)
            × BeginsSequence (numbers_of format) m bound parts c.view.values c.view.ends
            words.entry.now used) }
        ensures used { IfOk result (λ c. c.used ≡ words_used c.view) }
        ensures step { IfOk result (λ c. c.greatest ≡ greatest (steps_from 0 c.view.values)) }
        ensures count { IfOk result (λ c. length c.view.values ≡ m) }
        ensures parts { IfOk result (λ c. length c.view.ends ≡ parts) }
        ensures none { IfErr result (λ f. (xs ends : List ℕ) (used : ℕ)
            → ¬ BeginsSequence (numbers_of format) m bound parts xs ends words.entry.now used) }
        ensures first { IfErr result (λ f. IsSequenceFault (numbers_of format) words.entry.now parts
            m bound f.check f.part) }
    {
        let shape = SeqShape {
            parts,
            m,
            bound,
            format,
        };
        SeqView::check_into(words, shape, true, &mut [])
    }

    /// The sequence with which the words begin, how many they are, and its greatest step where it
    /// is asked for. The values are given where there is room for any; where the words begin with
    /// none, some may have been.
    pub fn check_into(
        words: &'a [u64],
        shape: SeqShape,
        with_steps: bool,
        to: &mut [u64],
    ) -> Result<CheckedSteps<'a>, SeqFault>
        requires words { length words.now < 2 ^ 57 }
        requires bound { shape.bound ≤ (numbers_of shape.format).most_sum }
        requires room { 1 ≤ length to.old → length to.old ≡ shape.m }
        ensures room { length to.new ≡ length to.old }
        ensures format { IfOk result (λ c. c.view.format ≡ numbers_of shape.format) }
        ensures ok { IfOk result (λ c. (used : ℕ)
            × BeginsSequence (numbers_of shape.format) shape.m shape.bound shape.parts
            c.view.values c.view.ends words.entry.now used) }
        ensures used { IfOk result (λ c. c.used ≡ words_used c.view) }
        ensures step { IfOk result (λ c. with_steps ≡ true
            → c.greatest ≡ greatest (steps_from 0 c.view.values)) }
        ensures values { IfOk result (λ c. 1 ≤ length to.old → to.new ≡ c.view.values) }
        ensures count { IfOk result (λ c. length c.view.values ≡ shape.m) }
        ensures parts { IfOk result (λ c. length c.view.ends ≡ shape.parts) }
        ensures none { IfErr result (λ f. (xs ends : List ℕ) (used : ℕ)
            → ¬ BeginsSequence (numbers_of shape.format) shape.m shape.bound shape.parts xs ends
            words.entry.now used) }
        ensures first { IfErr result (λ f. IsSequenceFault (numbers_of shape.format) words.entry.now
            shape.parts shape.m shape.bound f.check f.part) }
    {
        checks_accept_a_sequence();
        checks_refuse_no_sequence();
        words_state_their_sequence();
        directory_states_its_parts();
        let found = check_words(words, shape, with_steps, to)?;
        Ok(CheckedSteps {
            view: SeqView {
                directory: Directory::at_front(words, shape.parts, shape.m, shape.format),
            },
            used: found.used,
            greatest: found.greatest,
        })
    }

    /// The view of words that were checked, without looking at them.
    pub fn known(words: &'a [u64], parts: u32, m: u32, format: Format) -> SeqView<'a>
        requires words { length words.now < 2 ^ 57 }
        requires checked { (v : SequenceView) × (v.format ≡ numbers_of format)
            × BeginWith words.now parts m v }
        ensures same { (v : SequenceView) → v.format ≡ numbers_of format
            → BeginWith words.entry.now parts m v → result ≡ v }
        ensures count { length result.values ≡ m }
        ensures parts { length result.ends ≡ parts }
    {
        words_state_their_sequence();
        SeqView {
            directory: Directory::at_front(words, parts, m, format),
        }
    }

    /// A sequence without values, over no words.
    pub fn without_values(format: Format) -> SeqView<'a>
        ensures { result ≡ record { format = numbers_of format; values = []; ends = [] } }
    {
        SeqView::known(&[], 0, 0, format)
    }

    /// The sequence of m values whose one part stands alone in lent words: its bits begin at a
    /// place that is counted in bits, no entry stands before them, and its last value is known from
    /// elsewhere. The bits of one value alone are not read, and need not be there.
    pub fn standing_alone(
        words: &'a [u64],
        place: u64,
        last: u64,
        m: u32,
        format: Format,
    ) -> SeqView<'a>
        requires words { length words.now < 2 ^ 57 }
        requires some { 1 ≤ m }
        requires small { last < (numbers_of format).most_sum }
        requires place { place ≤ 64 * length words.now }
        requires part { 2 ≤ m → (ys : List ℕ)
            × HoldsPart part_bits (bits_of words.now) place (last + 1) m ys }
        ensures one { m ≡ 1 → result ≡ record
            { format = numbers_of format; values = last ∷ []; ends = 1 ∷ [] } }
        ensures more { (ys : List ℕ) → 2 ≤ m → HoldsPart part_bits (bits_of words.entry.now) place
            (last + 1) m ys → result ≡ record
            { format = numbers_of format; values = ys; ends = m ∷ [] } }
    {
        one_list_at_place();
        SeqView {
            directory: Directory::standing_alone(words, place, last, m, format),
        }
    }

    /// How many words the sequence takes; where its one part stands alone, those that it would take
    /// with its entry.
    pub fn used(&self) -> u64
        ensures { result ≡ words_used self.now }
    {
        self.directory.bits_taken().div_ceil(64)
    }

    /// What the parts cost, in bits, with their entries. It looks at the last entry alone.
    pub fn cost(&self) -> u64
        ensures { result ≡ partition_cost (cost_of_part (part_charge self.now.format)
            self.now.values) self.now.ends }
    {
        self.directory.bits_taken()
    }

    /// How many values there are.
    pub fn len(&self) -> u32
        ensures { result ≡ length self.now.values }
    {
        self.directory.m
    }

    /// Value k.
    pub fn get(&self, k: u32) -> u64
        requires within { k < length self.now.values }
        ensures { result ≡ slice_index self.now.values k }
    {
        self.directory.value_at(k)
    }

    /// How far value k lies past the value before it; the first value counts from -1. One part is
    /// read.
    pub fn step(&self, k: u32) -> u64
        requires within { k < length self.now.values }
        ensures { result ≡ slice_index (steps_from 0 self.now.values) k }
    {
        self.directory.step_at(k)
    }

    /// How many parts there are.
    pub fn parts(&self) -> u32
        ensures { result ≡ length self.now.ends }
    {
        self.directory.parts
    }

    /// Part i.
    pub fn part(&self, i: u32) -> Part
        requires within { i < length self.now.ends }
        ensures { IsPartOf self.now i result }
    {
        self.directory.part_at(i)
    }

    /// The last value of part i. It looks at one entry.
    pub fn last_of_part(&self, i: u32) -> u64
        requires within { i < length self.now.ends }
        ensures { result + 1 ≡ past self.now.values (slice_index self.now.ends i) }
    {
        self.directory.last_of_part(i)
    }

    /// How far a value from one place up to another lies past the value before it, at most; the
    /// first value counts from -1. It reads the values of those places alone, and none in parts of
    /// which all places are taken.
    pub fn greatest_step(&self, from: u32, to: u32) -> u64
        requires order { from ≤ to }
        requires within { to ≤ length self.now.values }
        ensures { result ≡ greatest_step self.now.values from to }
    {
        if from < to {
            step_between(&self.directory, from, to)
        } else {
            0
        }
    }

    /// A cursor at the start of the sequence.
    pub fn cursor(&self) -> SeqCursor<'a>
        ensures sequence { result.sequence ≡ self.now }
        ensures start { result.place ≡ 0 }
    {
        SeqCursor::at_start(self.directory)
    }

    /// Gives all values, for which there is room. Those of one part are read without a cursor.
    #[inline(always)]
    pub fn values_into(&self, to: &mut [u64])
        requires some { 0 < length to.old }
        requires room { length to.old ≡ length self.now.values }
        ensures { to.new ≡ self.now.values }
    {
        if self.directory.parts == 1 && to.len() > 1 {
            values_of_part(&self.directory, to);
        } else {
            self.values_by_cursor(to);
        }
    }

    // Gives all values, for which there is room, by a cursor.
    #[inline(never)]
    fn values_by_cursor(&self, to: &mut [u64])
        requires some { 0 < length to.old }
        requires room { length to.old ≡ length self.now.values }
        ensures { to.new ≡ self.now.values }
    {
        let mut cursor = self.cursor();
        cursor.values_on(to);
    }

    /// A cursor at the first value that is at least x, else at the end. No part is held but that of
    /// the value.
    pub fn cursor_from(&self, x: u64) -> SeqCursor<'a>
        ensures sequence { result.sequence ≡ self.now }
        ensures place { result.place ≡ place_at_least self.now.values 0 x }
    {
        SeqCursor::at_value(self.directory, x)
    }

    /// A cursor at place k, which may be the end. No other part is looked at.
    pub fn cursor_at(&self, k: u32) -> SeqCursor<'a>
        requires within { k ≤ length self.now.values }
        ensures sequence { result.sequence ≡ self.now }
        ensures place { result.place ≡ k }
    {
        SeqCursor::at_place(self.directory, k)
    }

    /// The first place at or behind one whose value lies at least so far past the value before it,
    /// else the number of values; the first value counts from -1. Parts whose numbers leave no room
    /// for such a step are not read.
    pub fn first_step(&self, from: u32, least: u64) -> u32
        requires within { from ≤ length self.now.values }
        ensures { result ≡ place_at_least (steps_from 0 self.now.values) from least }
    {
        first_step_from(&self.directory, from, least)
    }

    /// How far at least k of the values lie past the values before them, or farther: 0 where none
    /// is told. Parts whose steps are short in the mean are not read, so it need not be the
    /// farthest such; of up to 64 it is no shorter than what k of the steps of the other parts
    /// reach.
    pub fn common_step(&self, k: u32) -> u64
        requires some { 1 ≤ k }
        ensures reached { result ≢ 0
            → k ≤ count_reaching result (steps_from 0 self.now.values) }
        ensures longest { k ≤ 64 → (least : ℕ)
            → k ≤ count_reaching least (steps_of_long_parts self.now) → least ≤ result }
    {
        common_step_of(&self.directory, k)
    }
}
