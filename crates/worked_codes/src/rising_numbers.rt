ghost use Rattle.std.specs.Prelude.{◌≡◌, ℕ, ◌≤◌, ◌<◌, ◌+◌, ◌-◌, ◌*◌, ◌/◌, ◌^◌, List, length, IfOk, IfSome};
ghost use Rattle.part_cost.specs.Payload.{widest_low};
ghost use Rattle.part_cost.specs.Span.{AreRelative};
ghost use Rattle.elias_fano.specs.EfView.{Holds};

use bit_words::{BitWriter, Bits};
use elias_fano::{EfView, ef_write};
use no_memory::NoMemory;
use part_cost::{PlacedPart, low_width_is_best};
use std::alloc::Global;
use std::test::Fail;

// How many bits a part of these numbers is, and its words.
fn written<const Q: u64>(alloc: Global, values: &[u64], u: u64) -> Result<(u64, Vec<u64>), NoMemory>
    requires spacing { 1 ≤ Q }
    requires values { AreRelative u (length values.now) values.now }
    requires in_range { u ≤ 2 ^ widest_low }
    requires few { length values.now ≤ 5000 }
{
    low_width_is_best();
    let mut writer = BitWriter::new(alloc)?;
    ef_write::<Q, _>(values, u, &mut writer)?;
    Ok((writer.len(), writer.into_words()))
}

// 0, 10, 20 with a sample every two numbers: 18 bits, as one word.
#[test]
fn writes_three_numbers(rt: HostRuntime) -> Result<(), Fail> {
    let (bits, words) = written::<2>(rt.alloc(), &[0, 10, 20], 21)?;
    assert_eq!(rt; (bits, words.as_slice()), (18, [116_873].as_slice()));
    Ok(())
}

// What a part of one or two numbers below 2^48 tells: its greatest step, its first number and
// number 0, its last, and the place and the number of the first that is at least x. None where the
// words have no such part.
fn told(words: &[u64], m: u64, x: u64) -> Option<(u64, u64, u64, u64, (u64, u64))> {
    if words.len() > 2 || m == 0 || m > 2 || x >= 1 << 48 {
        return None;
    }
    let view = EfView::<128>::at(PlacedPart::at(Bits { words }, 0, 1 << 48, m));
    if !view.check() {
        return None;
    }
    let step = view.check_steps()?;
    let last = view.get(m - 1);
    Some((step, view.first(), view.get(0), last, view.next_geq(x, 0)))
}

// The greatest number below 2^48, alone: 49 bits, as one word, and read back.
#[test]
fn reads_the_widest_number(rt: HostRuntime) -> Result<(), Fail> {
    let number = 281_474_976_710_655;
    let (bits, words) = written::<128>(rt.alloc(), &[281_474_976_710_655], 1 << 48)?;
    assert_eq!(rt;
        (bits, words.as_slice()),
        (49, [562_949_953_421_310].as_slice())
    );
    for x in [0, 1 << 47, number] {
        assert_eq!(rt;
            told(&words, 1, x),
            Some((number + 1, number, number, number, (0, number))),
            "{x}"
        );
    }
    // With its one a place earlier it is a lesser number, and with a low bit less too.
    let earlier = told(&[562_949_953_421_309], 1, 0);
    assert_eq!(rt; (earlier, told(&[562_949_953_421_306], 1, 0)), (None, None));
    Ok(())
}

// 0 before it: 97 bits, as two words, and read back.
#[test]
fn reads_the_widest_numbers(rt: HostRuntime) -> Result<(), Fail> {
    let number = 281_474_976_710_655;
    let (bits, words) = written::<128>(rt.alloc(), &[0, 281_474_976_710_655], 1 << 48)?;
    let want = [18_444_492_273_895_866_385, 8_589_934_591];
    assert_eq!(rt; (bits, words.as_slice()), (97, want.as_slice()));
    assert_eq!(rt;
        (told(&want, 2, 1), told(&want[..1], 2, 1)),
        (Some((number, 0, 0, number, (1, number))), None)
    );
    Ok(())
}

// Number k of a part of 129 numbers below 1281. None where the words have no such part.
fn number_of_129(words: &[u64], k: u64) -> Option<u64> {
    if words.len() > 11 || k >= 129 {
        return None;
    }
    let view = EfView::<128>::at(PlacedPart::at(Bits { words }, 0, 1281, 129));
    if view.check() {
        Some(view.get(k))
    } else {
        None
    }
}

// The place and the number of the first of them from a place on that is at least x.
fn next_of_129(words: &[u64], x: u64, from: u64) -> Option<(u64, u64)> {
    if words.len() > 11 || x >= 1281 || from >= 129 {
        return None;
    }
    let view = EfView::<128>::at(PlacedPart::at(Bits { words }, 0, 1281, 129));
    if view.check() {
        Some(view.next_geq(x, from))
    } else {
        None
    }
}

// 0, 10, .., 1280: the sample of number 128, 288 at bit 676, stands in the upper bits of the last
// word.
const WORDS_OF_129: [u64; 11] = [
    0x954a_a552_a954_aa55,
    0x4aa5_52a9_54aa_552a,
    0xa552_a954_aa55_2a95,
    0x52a9_54aa_552a_954a,
    0x21a2_1a21_2a95_4aa5,
    0xa21a_21a2_1a21_a21a,
    0x1a21_a21a_21a2_1a21,
    0x21a2_1a21_a21a_21a2,
    0xa21a_21a2_1a21_a21a,
    0x1a21_a21a_21a2_1a21,
    0x1201_a21a_21a2,
];

// Some of them: k, and number k.
const SOME_OF_129: [(u64, u64); 4] = [(0, 0), (1, 10), (127, 1270), (128, 1280)];

// A number and a place, and the place and the number of the first from there on that is at least
// this number.
const NEXT_OF_129: [(u64, u64, u64, u64); 6] = [
    (0, 0, 0, 0),
    (10, 0, 1, 10),
    (11, 0, 2, 20),
    (5, 3, 3, 30),
    (1271, 0, 128, 1280),
    (1280, 128, 128, 1280),
];

#[test]
fn reads_many_numbers(rt: HostRuntime) {
    for &(k, number) in &SOME_OF_129 {
        assert_eq!(rt; number_of_129(&WORDS_OF_129, k), Some(number));
    }
    for &(x, from, place, number) in &NEXT_OF_129 {
        assert_eq!(rt;
            next_of_129(&WORDS_OF_129, x, from),
            Some((place, number)),
            "{x} from {from}"
        );
    }
}

// With a word less, and with another sample, they are no such part.
#[test]
fn refuses_other_words(rt: HostRuntime) {
    let fewer = number_of_129(&WORDS_OF_129[..10], 0);
    let mut words_of_287 = WORDS_OF_129;
    words_of_287[10] = 0x11f1_a21a_21a2;
    assert_eq!(rt; (fewer, number_of_129(&words_of_287, 0)), (None, None));
}

// Runs of 70 numbers in a row, each 1,000 after the one before: number k is k + 930 (k div 70).
fn runs_of_70(alloc: Global, count: u64) -> Result<Vec<u64>, NoMemory>
    requires some { 1 ≤ count }
    requires few { count ≤ 5000 }
    ensures { IfOk result (λ xs. AreRelative (count + 930 * ((count - 1) / 70)) count xs.items) }
{
    let mut values = Vec::new(alloc);
    for k in 0..count {
        let Ok(()) = values.push(k + 930 * (k / 70)) else {
            return Err(NoMemory);
        };
    }
    Ok(values)
}

// The words of a part of these numbers behind five bits.
fn behind_five_bits(alloc: Global, values: &[u64], u: u64) -> Result<Vec<u64>, NoMemory>
    requires values { AreRelative u (length values.now) values.now }
    requires in_range { u ≤ 2 ^ widest_low }
    requires few { length values.now ≤ 5000 }
{
    low_width_is_best();
    let mut writer = BitWriter::new(alloc)?;
    writer.put(0b10101, 5)?;
    ef_write::<128, _>(values, u, &mut writer)?;
    Ok(writer.into_words())
}

// So many numbers in such runs, and the words of their part behind five bits.
fn part_of_runs(alloc: Global, count: u64) -> Result<(Vec<u64>, Vec<u64>), NoMemory>
    requires some { 1 ≤ count }
    requires few { count ≤ 5000 }
{
    let values = runs_of_70(alloc, count)?;
    let words = behind_five_bits(alloc, &values, count + 930 * ((count - 1) / 70))?;
    Ok((values, words))
}

// The view of these words, None where they have no such part.
fn view_of_runs(words: &[u64], count: u64) -> Option<EfView<'_, 128>>
    ensures held { IfSome result (λ v. (ys : List ℕ) × Holds 128 v ys) }
    ensures count { IfSome result (λ v. v.part.m ≡ count) }
{
    if words.is_empty() || words.len() > 1 << 20 || count == 0 || count > 5_000 {
        return None;
    }
    let u = count + 930 * ((count - 1) / 70);
    let view = EfView::<128>::at(PlacedPart::at(Bits { words }, 5, u, count));
    if view.check() { Some(view) } else { None }
}

// Whether number k and the one after it are read as they are listed: by their places, the one by
// the other, and from a place on as the first at or after the number and at or after one more.
fn reads_number(view: &EfView<128>, values: &[u64], from: u64, k: u64) -> bool
    requires held { (ys : List ℕ) × Holds 128 view.now ys }
    requires within { k + 1 < view.now.part.m }
    requires before { from ≤ k }
    requires listed { view.now.part.m ≤ length values.now }
{
    let number = values[k as usize];
    let next = values[k as usize + 1];
    if next >= view.part.u || number >= next || view.get(k) != number {
        return false;
    }
    view.get(k + 1) == next
        && view.after(k, view.get(k)) == next
        && view.next_geq(number, from) == (k, number)
        && view.next_geq(number + 1, from) == (k + 1, next)
}

// The first number that is read otherwise than it is listed, from the first place, its half or its
// own, and that place.
fn misread(view: &EfView<128>, values: &[u64]) -> Option<(u64, u64)>
    requires held { (ys : List ℕ) × Holds 128 view.now ys }
    requires listed { view.now.part.m ≤ length values.now }
{
    for k in 0..view.part.m - 1 {
        for from in [0, k / 2, k] {
            if from > k || !reads_number(view, values, from, k) {
                return Some((k, from));
            }
        }
    }
    None
}

// Parts with no sample, one, two and 39, at a place within a word; each number from the first
// place, its half and its own.
#[test]
fn reads_parts_of_runs(rt: HostRuntime) -> Result<(), Fail> {
    for count in [128, 129, 256, 257, 5_000] {
        assert!(rt; 1 <= count && count <= 5_000);
        let (values, words) = part_of_runs(rt.alloc(), count)?;
        let view = view_of_runs(&words, count).expect(&rt, "a part");
        assert!(rt; count <= values.len() as u64);
        assert_eq!(rt; misread(&view, &values), None, "of {count}");
    }
    Ok(())
}

// Whether the first number at least as great as number `to` is found by number k as it is listed,
// and the first that is greater, if there is one.
fn reads_from(view: &EfView<128>, values: &[u64], k: u64, to: u64) -> bool
    requires held { (ys : List ℕ) × Holds 128 view.now ys }
    requires within { k < view.now.part.m }
    requires ordered { k ≤ to }
    requires before { to < view.now.part.m }
    requires listed { view.now.part.m ≤ length values.now }
{
    let number = view.get(k);
    let x = values[to as usize];
    if x >= view.part.u || view.first_from(k, number, x) != (to, x) {
        return false;
    }
    if x + 1 == view.part.u {
        return to + 1 == view.part.m;
    }
    to + 1 < view.part.m && view.first_from(k, number, x + 1) == (to + 1, values[to as usize + 1])
}

// Places about the borders of words and runs, of so many numbers.
fn places(count: u64) -> [u64; 11] {
    let last = count.saturating_sub(1);
    [0, 1, 63, 69, 70, 126, 127, 128, 129, count / 2, last]
}

// How many places behind one a number is.
const DISTANCES: [u64; 12] = [0, 1, 3, 4, 5, 6, 63, 64, 127, 128, 129, 1_000];

// The first place and one behind it from which a number is not found as it is listed: places about
// the borders of words and runs, up to numbers near and far.
fn misfound(view: &EfView<128>, values: &[u64]) -> Option<(u64, u64)>
    requires held { (ys : List ℕ) × Holds 128 view.now ys }
    requires few { view.now.part.m ≤ 5000 }
    requires listed { view.now.part.m ≤ length values.now }
{
    let count = view.part.m;
    for k in places(count) {
        for &far in &DISTANCES {
            if far > 1_000 {
                return Some((k, far));
            }
            if k > 5_000 || k + far < count && !reads_from(view, values, k, k + far) {
                return Some((k, far));
            }
        }
    }
    None
}

// Parts of runs, from places about the borders of words and runs, up to numbers near and far.
#[test]
fn reads_first_from_numbers(rt: HostRuntime) -> Result<(), Fail> {
    for count in [128, 129, 256, 257, 5_000] {
        assert!(rt; 1 <= count && count <= 5_000);
        let (values, words) = part_of_runs(rt.alloc(), count)?;
        let view = view_of_runs(&words, count).expect(&rt, "a part");
        assert!(rt; count <= values.len() as u64);
        assert_eq!(rt; misfound(&view, &values), None, "of {count}");
    }
    Ok(())
}

// Whether the numbers below x are read as they are listed, from number k on: no other, and none
// less than there are and have room.
fn reads_below(view: &EfView<128>, values: &[u64], k: u64, x: u64, to: &mut [u64]) -> bool
    requires held { (ys : List ℕ) × Holds 128 view.now ys }
    requires within { k < view.now.part.m }
    requires listed { view.now.part.m ≡ length values.now }
{
    let rest = &values[k as usize..];
    let given = view.values_below(k, view.get(k), x, to);
    for i in 0..given {
        if to[i] != rest[i] || rest[i] >= x {
            return false;
        }
    }
    given == to.len() || given == rest.len() || rest[given] >= x
}

// Whether they are read so below number `last` and below one more, with so much room.
fn reads_block(view: &EfView<128>, values: &[u64], k: u64, last: u64, to: &mut [u64]) -> bool
    requires held { (ys : List ℕ) × Holds 128 view.now ys }
    requires within { k < view.now.part.m }
    requires last { last < view.now.part.m }
    requires listed { view.now.part.m ≡ length values.now }
{
    let x = values[last as usize];
    x < view.part.u
        && reads_below(view, values, k, x, to)
        && reads_below(view, values, k, x + 1, to)
}

// Whether they are read so from a place on, where there is one: below each number that is at most
// at the end of the room.
fn reads_blocks(view: &EfView<128>, values: &[u64], k: u64, to: &mut [u64]) -> bool
    requires held { (ys : List ℕ) × Holds 128 view.now ys }
    requires place { k ≤ 5000 }
    requires room { length to.old ≤ 5000 }
    requires listed { view.now.part.m ≡ length values.now }
{
    let (count, len) = (view.part.m, to.len() as u64);
    for last in [k, k + 1, (k + len).saturating_sub(1), k + len, count - 1] {
        if k < count && last < count && !reads_block(view, values, k, last, to) {
            return false;
        }
    }
    true
}

// The first place from which numbers are not read so, and how much room they have: from places
// about the borders of words and runs, below each number that is at most at the end of the room.
fn misgiven(view: &EfView<128>, values: &[u64]) -> Option<(u64, u64)>
    requires held { (ys : List ℕ) × Holds 128 view.now ys }
    requires few { view.now.part.m ≤ 5000 }
    requires listed { view.now.part.m ≡ length values.now }
{
    let mut room = [0; 5_000];
    for k in places(view.part.m) {
        for len in [1, 2, 127, 128, view.part.m] {
            if k > 5_000 || len == 0 || len > 5_000 {
                return Some((k, len));
            }
            if !reads_blocks(view, values, k, &mut room[..len as usize]) {
                return Some((k, len));
            }
        }
    }
    None
}

// Parts of runs, from places about the borders of words and runs; below each number that is at most
// at the end of the room, and one more.
#[test]
fn reads_numbers_below(rt: HostRuntime) -> Result<(), Fail> {
    for count in [128, 129, 256, 257, 5_000] {
        assert!(rt; 1 <= count && count <= 5_000);
        let (values, words) = part_of_runs(rt.alloc(), count)?;
        let view = view_of_runs(&words, count).expect(&rt, "a part");
        assert!(rt; count == values.len() as u64);
        assert_eq!(rt; misgiven(&view, &values), None, "of {count}");
    }
    Ok(())
}

// How many patterns of so many bits are those of m numbers in universe u, with a sample every two
// numbers.
fn patterns(u: u64, m: u64, bits: u32) -> u64
    requires some { 1 ≤ m }
    requires fit { m ≤ u }
    requires in_range { u ≤ 2 ^ widest_low }
    requires few { bits < 64 }
{
    let mut count = 0;
    for pattern in 0..1_u64 << bits {
        if EfView::<2>::at(PlacedPart::at(Bits { words: &[pattern] }, 0, u, m)).check() {
            count += 1;
        }
    }
    count
}

// Universes, how many numbers, how many bits, and how many patterns of these are such parts.
const ACCEPTED: [(u64, u64, u32, u64); 8] = [
    (1, 1, 1, 1),
    (2, 1, 2, 1),
    (4, 1, 3, 1),
    (6, 1, 4, 1),
    (6, 2, 6, 5),
    (5, 3, 11, 6),
    (6, 3, 12, 10),
    (5, 5, 17, 1),
];

// As many patterns are accepted as there are numbers below u - 1 to choose the others from.
#[test]
fn accepts_each_part_and_nothing_else(rt: HostRuntime) {
    for &(u, m, bits, count) in &ACCEPTED {
        assert!(rt; 1 <= m && m <= u && u <= 1 << 48 && bits < 64);
        assert_eq!(rt; patterns(u, m, bits), count, "{m} in {u}");
    }
}
