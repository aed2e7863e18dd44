// Numbers of a part, read some at once, and the gaps between them.
ghost use Rattle.std.specs.Prelude.{◌≡◌, ◌≢◌, ℕ, ◌+◌, ◌-◌, ◌≤◌, ◌<◌, ◌^◌, ◌==◌, ◌↔◌, IsTrue};
ghost use Rattle.std.specs.Prelude.{List, length, slice_index};
ghost use Rattle.std.specs.List.Sorted.{IsStrictlyIncreasing};
ghost use Rattle.std.specs.Int.{bit_at};
ghost use Rattle.collection_model.specs.Marks.{has_number};
ghost use Rattle.part_codec.specs.PartView.{Holds, universe_of, count_of};
ghost use Rattle.index_file.specs.Gaps.{place_in, AreHere, AreSmall, IsAtGap, IsOn, ShowsNext};

use crate::run::Run;
use part_codec::{PartCodec, PartView};

// So many numbers are passed at once.
const STEP: usize = 8;

// A number, from one on, up to which none are left out: as they rise, none are where the last lies
// as far behind the first as there are between.
fn without_gaps(numbers: &[u64], from: usize, count: usize) -> usize
    requires within { from < count }
    requires room { count ≤ length numbers.now }
    requires rising { (j : ℕ) → j + 1 < count
        → slice_index numbers.now j < slice_index numbers.now (j + 1) }
    ensures from { from ≤ result }
    ensures within { result < count }
    ensures follow { (j : ℕ) → from ≤ j → j < result
        → slice_index numbers.now (j + 1) ≡ slice_index numbers.now j + 1 }
{
    let mut at = from;
    while at + STEP < count && numbers[at + STEP] - numbers[at] == STEP as u64 {
        at += STEP;
    }
    at
}

// The first of some numbers, from one on, behind which some are left out, or the last.
fn first_gap(numbers: &[u64], from: usize, count: usize) -> usize
    requires within { from < count }
    requires room { count ≤ length numbers.now }
    requires rising { (j : ℕ) → j + 1 < count
        → slice_index numbers.now j < slice_index numbers.now (j + 1) }
    ensures from { from ≤ result }
    ensures within { result < count }
    ensures follow { (j : ℕ) → from ≤ j → j < result
        → slice_index numbers.now (j + 1) ≡ slice_index numbers.now j + 1 }
    ensures gap { result + 1 < count
        → slice_index numbers.now (result + 1) ≢ slice_index numbers.now result + 1 }
{
    let passed = without_gaps(numbers, from, count);
    for j in passed..count - 1 {
        if numbers[j + 1] != numbers[j] + 1 {
            return j;
        }
    }
    count - 1
}

// Which of the places from one on are numbers of a part: bit k stands for that place and k more. It
// is 0 where this is not told: in Elias-Fano form, and where fewer than 64 places are left.
fn marks_from(part: &PartView<'_>, place: u64) -> u64
    requires held { (ys : List ℕ) × Holds part.now ys }
    ensures { (ys : List ℕ) → Holds part.now ys → result ≢ 0 → (i : ℕ) → i < 64
        → has_number (place + i) ys ≡ (bit_at result i == 1) }
{
    match part.word_from(place) {
        Some(marks) => marks,
        None => 0,
    }
}

// Number k + 1 of a part, by number k.
pub(crate) fn number_after(part: &PartView<'_>, k: u64, number: u64) -> u64
    requires held { (ys : List ℕ) × Holds part.now ys }
    requires within { k + 1 < count_of part.now }
    requires number { (ys : List ℕ) → Holds part.now ys → number ≡ slice_index ys k }
    ensures { (ys : List ℕ) → Holds part.now ys → result ≡ slice_index ys (k + 1) }
{
    part.after(k, number)
}

// Goes on by the marks from the last number that was read, which is looked at, to a number up to
// which none are left out; they may show the next number too.
#[inline(always)]
fn pass_marks(run: Run, numbers: &mut [u64]) -> Run
    requires held { (ys : List ℕ) × AreSmall ys × AreHere ys numbers.old run }
    requires last { run.at + 1 ≡ run.count }
    requires room { 2 ≤ length numbers.old }
    ensures room { length numbers.new ≡ length numbers.old }
    ensures on { (ys : List ℕ) → IsStrictlyIncreasing ys → AreHere ys numbers.old run
        → IsOn ys numbers.new (place_in run) result }
    ensures gap { (ys : List ℕ) → IsStrictlyIncreasing ys → AreHere ys numbers.old run
        → ShowsNext run → IsAtGap ys numbers.new (place_in run) result }
{
    let follow = run.marks.trailing_ones();
    if follow == 0 {
        return run;
    }
    let shown = numbers[run.at] + u64::from(follow - 1);
    let first = run.first + run.at as u32 + (follow - 1);
    let behind = run.marks >> follow;
    numbers[0] = shown;
    if behind == 0 {
        return Run {
            first,
            at: 0,
            count: 1,
            marks: 0,
        };
    }
    let left_out = behind.trailing_zeros();
    numbers[1] = shown + 1 + u64::from(left_out);
    Run {
        first,
        at: 0,
        count: 2,
        marks: behind >> left_out,
    }
}

// Goes on from the last number that was read, which is looked at, to one up to which none are left
// out, by the marks that are kept and then by a word more; they may show the next number too.
fn pass_shown(part: &PartView<'_>, run: Run, numbers: &mut [u64]) -> Run
    requires held { (ys : List ℕ) × Holds part.now ys × AreHere ys numbers.old run }
    requires small { universe_of part.now < 2 ^ 63 }
    requires few { count_of part.now ≤ 2 ^ 32 }
    requires room { 2 ≤ length numbers.old }
    ensures room { length numbers.new ≡ length numbers.old }
    ensures on { (ys : List ℕ) → Holds part.now ys → AreHere ys numbers.old run
        → IsOn ys numbers.new (place_in run) result }
{
    if run.at + 1 < run.count {
        return run;
    }
    let near = pass_marks(run, numbers);
    if near.at + 1 < near.count {
        return near;
    }
    let number = numbers[near.at];
    let marks = marks_from(part, number);
    if marks == u64::MAX {
        numbers[0] = number + 63;
        return Run {
            first: near.first + near.at as u32 + 63,
            at: 0,
            count: 1,
            marks: 0,
        };
    }
    pass_marks(Run { marks, ..near }, numbers)
}

// The number that is looked at with the next one: where it is the last of those that were read, the
// next are read; behind a number that is kept alone one is.
fn with_next(part: &PartView<'_>, run: Run, numbers: &mut [u64]) -> Run
    requires held { (ys : List ℕ) × Holds part.now ys × AreHere ys numbers.old run }
    requires small { universe_of part.now < 2 ^ 63 }
    requires few { count_of part.now ≤ 2 ^ 32 }
    requires room { 2 ≤ length numbers.old }
    requires more { place_in run + 1 < count_of part.now }
    ensures room { length numbers.new ≡ length numbers.old }
    ensures here { (ys : List ℕ) → Holds part.now ys → AreHere ys numbers.old run
        → AreHere ys numbers.new result }
    ensures place { place_in result ≡ place_in run }
    ensures next { result.at + 1 < result.count }
{
    if run.at + 1 < run.count {
        return run;
    }
    let first = run.first + run.at as u32;
    let number = numbers[run.at];
    if run.count == 1 {
        numbers[1] = number_after(part, first as u64, number);
        return Run {
            first,
            at: 0,
            count: 2,
            marks: 0,
        };
    }
    let count = part.values_below(first as u64, number, u64::MAX, numbers);
    Run {
        first,
        at: 0,
        count,
        marks: 0,
    }
}

// Whether the last number that was read is looked at, and the marks show one behind it before which
// some are left out.
#[inline(always)]
fn show_next(run: Run) -> bool
    requires within { run.at < run.count }
    requires not_all { run.marks < 2 ^ 64 - 1 }
    ensures { IsTrue result ↔ ShowsNext run }
{
    run.at + 1 == run.count && run.marks >> run.marks.trailing_ones() != 0
}

// Whether the next number was read too, and does not follow on.
#[inline(always)]
fn is_at_gap(run: Run, numbers: &[u64]) -> bool
    requires within { run.at < run.count }
    requires room { run.count ≤ length numbers.now }
    requires small { slice_index numbers.now run.at < 2 ^ 63 }
    ensures { IsTrue result ↔ ((run.at + 1 < run.count)
        × (slice_index numbers.now (run.at + 1) ≢ slice_index numbers.now run.at + 1)) }
{
    run.at + 1 < run.count && numbers[run.at + 1] != numbers[run.at] + 1
}

// Looks for the first number, from the one that is looked at on, behind which some are left out, or
// for the last of all.
#[inline(never)]
fn find_gap(part: &PartView<'_>, last: u32, run: Run, numbers: &mut [u64]) -> Run
    requires held { (ys : List ℕ) × Holds part.now ys × AreHere ys numbers.old run }
    requires small { universe_of part.now < 2 ^ 63 }
    requires room { 2 ≤ length numbers.old }
    requires last { last + 1 ≡ count_of part.now }
    ensures room { length numbers.new ≡ length numbers.old }
    ensures gap { (ys : List ℕ) → Holds part.now ys → AreHere ys numbers.old run
        → IsAtGap ys numbers.new (place_in run) result }
{
    let mut run = run;
    while run.first + (run.at as u32) < last {
        let shown = pass_shown(part, run, numbers);
        if shown.first + (shown.at as u32) == last || is_at_gap(shown, numbers) {
            return shown;
        }
        let here = with_next(part, shown, numbers);
        let at = first_gap(numbers, here.at, here.count);
        run = Run { at, ..here };
        if at + 1 < here.count {
            return run;
        }
    }
    run
}

// Goes on to the first number, from the one that is looked at on, behind which some are left out,
// or to the last of all.
#[inline(always)]
pub(crate) fn go_to_gap(part: &PartView<'_>, last: u32, run: Run, numbers: &mut [u64]) -> Run
    requires held { (ys : List ℕ) × Holds part.now ys × AreHere ys numbers.old run }
    requires small { universe_of part.now < 2 ^ 63 }
    requires room { 2 ≤ length numbers.old }
    requires last { last + 1 ≡ count_of part.now }
    ensures room { length numbers.new ≡ length numbers.old }
    ensures gap { (ys : List ℕ) → Holds part.now ys → AreHere ys numbers.old run
        → IsAtGap ys numbers.new (place_in run) result }
{
    // Most often the next number was read too, and does not follow on.
    if is_at_gap(run, numbers) {
        return run;
    }
    if show_next(run) {
        return pass_marks(run, numbers);
    }
    find_gap(part, last, run, numbers)
}
