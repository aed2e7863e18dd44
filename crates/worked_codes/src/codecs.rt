ghost use Rattle.std.specs.Prelude.{◌≡◌, ◌≤◌, ◌<◌, ◌+◌, ◌^◌};
ghost use Rattle.part_cost.specs.Payload.{widest_low};
ghost use Rattle.part_codec.specs.PartView.{universe_of, count_of};

use crate::relative::is_relative;
use bit_words::{BitWriter, Bits};
use elias_fano::EfView;
use no_memory::NoMemory;
use part_codec::{
    OnesView, PartCodec, PartView, check_part, check_part_steps, part_takes_its_payload, write_part,
};
use part_cost::{PlacedPart, payload_bits};
use ranked_bitmap::MapView;
use std::alloc::{AllocError, Global};
use std::test::Fail;

// How many bits a part of these values is, and its words. None where they are those of no part of
// at most a thousand bits.
fn written(alloc: Global, values: &[u64], u: u64) -> Result<Option<(u64, Vec<u64>)>, NoMemory>
    requires in_range { u ≤ 2 ^ widest_low }
{
    part_takes_its_payload();
    let m = values.len() as u64;
    if !is_relative(values, u) || m > u || payload_bits(u, m) > 1000 {
        return Ok(None);
    }
    let mut writer = BitWriter::new(alloc)?;
    write_part(values, u, &mut writer)?;
    Ok(Some((writer.len(), writer.into_words())))
}

// Values and their universe, how many bits their part takes, and its words.
const FORMS: [(&[u64], u64, u64, &[u64]); 4] = [
    (&[3, 700], 701, 20, &[770_105]),
    (&[0, 5], 6, 6, &[33]),
    (&[0, 1, 2], 3, 0, &[]),
    (&[281_474_976_710_655], 1 << 48, 49, &[562_949_953_421_310]),
];

// Values far apart, in Elias-Fano form; near ones, as a bitmap; all of a universe, which take no
// bits; and the greatest number below 2^48, alone. How many bits they take, and the words.
#[test]
fn writes_each_form(rt: HostRuntime) -> Result<(), Fail> {
    for &(values, u, len, want) in &FORMS {
        assert!(rt; u <= 1 << 48);
        let (bits, words) = written(rt.alloc(), values, u)?.expect(&rt, "a part");
        assert_eq!(rt; (bits, words.as_slice()), (len, want), "in {u}");
    }
    Ok(())
}

// The greatest number below 2^48, alone, accepted and found.
#[test]
fn reads_the_widest_number(rt: HostRuntime) {
    let words = [562_949_953_421_310];
    let part = PlacedPart::at(Bits { words: &words }, 0, 1 << 48, 1);
    assert!(rt; check_part(part));
    assert!(rt; finds(&PartView::at(part), 1 << 47, 0, 0, 281_474_976_710_655));
    let other = [562_949_953_421_309];
    assert!(rt; !check_part(PlacedPart::at(Bits { words: &other }, 0, 1 << 48, 1)));
}

// 0, 10, .., 1280
fn tens() -> [u64; 129] {
    let mut tens = [0; 129];
    for k in 0..129 {
        tens[k] = 10 * k as u64;
    }
    tens
}

// 0, 10, .., 1280: 685 bits, and read back.
#[test]
fn reads_what_was_written(rt: HostRuntime) -> Result<(), Fail> {
    let values = tens();
    let (bits, words) = written(rt.alloc(), &values, 1281)?.expect(&rt, "a part");
    assert_eq!(rt; (bits, words.len()), (685, 11));
    assert!(rt; is_read_back(&words, &values, 1281));
    Ok(())
}

// Whether a view accepts its bits, and then finds this value at this place.
fn finds<'a, C: PartCodec<'a>>(view: &C, x: u64, from: u64, place: u64, value: u64) -> bool
    requires reached { x < C.u view.now }
    requires from { from < C.m view.now }
    requires place { place < C.m view.now }
{
    view.check()
        && view.next_geq(x, from) == (place, value)
        && view.first_from(from, view.get(from), x) == (place, value)
        && view.get(place) == value
}

// Whether a view accepts its bits, and then finds this value behind the one at a place.
fn follows<'a, C: PartCodec<'a>>(view: &C, place: u64, value: u64) -> bool
    requires within { place + 1 < C.m view.now }
{
    if !view.check() {
        return false;
    }
    let before = view.get(place);
    view.after(place, before) == value
}

// Whether a view accepts its bits, and then gives these values from a place on that are below x, in
// so much room, and no more.
fn gives<'a, C: PartCodec<'a>>(view: &C, place: u64, x: u64, room: usize, values: &[u64]) -> bool
    requires within { place < C.m view.now }
    requires room { room ≤ 4 }
{
    if !view.check() {
        return false;
    }
    let mut to = [0; 4];
    let first = view.get(place);
    let count = view.values_below(place, first, x, &mut to[..room]);
    &to[..count] == values
}

// What a search tells in a part that passes its check: a place, the number there, and the number
// that is found.
fn sought(view: &PartView, k: u64, number: u64, x: u64) -> (u64, u64, u64)
    requires reached { x < universe_of view.now }
    requires within { k < count_of view.now }
    requires below { number ≤ x }
{
    if !view.check() || view.get(k) != number {
        return (0, 0, 0);
    }
    let sought = view.seek(k, number, x);
    (sought.place, sought.there, sought.number)
}

// Whether values far apart are found in Elias-Fano form, by the form itself and by its kind.
fn finds_far() -> bool {
    let part = PlacedPart::at(Bits { words: &[770_105] }, 0, 701, 2);
    let (ef, view) = (EfView::<128>::at(part), PartView::at(part));
    finds(&ef, 4, 0, 1, 700)
        && follows(&ef, 0, 700)
        && finds(&view, 3, 0, 0, 3)
        && follows(&view, 0, 700)
        && sought(&view, 0, 3, 4) == (1, 700, 700)
}

// Whether near ones are found in a bitmap.
fn finds_near() -> bool {
    let part = PlacedPart::at(Bits { words: &[33] }, 0, 6, 2);
    let (map, view) = (MapView::<512>::at(part), PartView::at(part));
    finds(&map, 1, 0, 1, 5)
        && follows(&map, 0, 5)
        && finds(&view, 0, 1, 1, 5)
        && follows(&view, 0, 5)
        && sought(&view, 0, 0, 1) == (0, 0, 5)
}

// Whether all of a universe are found.
fn finds_all() -> bool {
    let part = PlacedPart::at(Bits { words: &[33] }, 0, 3, 3);
    let (ones, view) = (OnesView::at(3), PartView::at(part));
    finds(&ones, 1, 0, 1, 1)
        && follows(&ones, 0, 1)
        && finds(&view, 1, 2, 2, 2)
        && follows(&view, 1, 2)
}

// Each form of a view, by itself and by its kind.
#[test]
fn finds_numbers(rt: HostRuntime) {
    assert_eq!(rt; [finds_far(), finds_near(), finds_all()], [true; 3]);
}

// How many patterns of so many bits are those of a part.
fn patterns(u: u64, m: u64, bits: u32) -> u64
    requires some { 1 ≤ m }
    requires fit { m ≤ u }
    requires in_range { u ≤ 2 ^ widest_low }
    requires few { bits < 64 }
{
    let mut count = 0;
    for pattern in 0..1_u64 << bits {
        if check_part(PlacedPart::at(Bits { words: &[pattern] }, 0, u, m)) {
            count += 1;
        }
    }
    count
}

// Whether words are accepted as those of a part of these values, and these are read from them.
fn is_read_back(words: &[u64], values: &[u64], u: u64) -> bool
    requires in_range { u ≤ 2 ^ widest_low }
{
    let m = values.len() as u64;
    if words.len() > 20 || m == 0 || m > u {
        return false;
    }
    let view = PartView::at(PlacedPart::at(Bits { words }, 0, u, m));
    if !view.check() || view.check_steps().is_none() || view.first() != values[0] {
        return false;
    }
    for k in 0..values.len() {
        let value = view.get(k as u64);
        if value != values[k] {
            return false;
        }
        if k + 1 < values.len() && view.after(k as u64, value) != values[k + 1] {
            return false;
        }
    }
    true
}

// Whether a list is written as one word at most, accepted and read back.
fn reads_back(alloc: Global, values: &[u64], u: u64) -> Result<bool, NoMemory>
    requires in_range { u ≤ 2 ^ widest_low }
{
    match written(alloc, values, u)? {
        Some((_, words)) => Ok(words.len() <= 1 && is_read_back(&words, values, u)),
        None => Ok(false),
    }
}

// The numbers below u - 1 whose bit is set in a choice, and then u - 1.
fn chosen(alloc: Global, choice: u64, u: u64) -> Result<Vec<u64>, AllocError>
    requires small { u ≤ 10 }
{
    let mut values = Vec::new(alloc);
    for r in 0..u {
        if r + 1 == u || choice >> r & 1 == 1 {
            values.push(r)?;
        }
    }
    Ok(values)
}

// Every list in a universe up to 10 is read back, and as many patterns of its number of bits are
// accepted as there are lists.
#[test]
fn small_lists_and_nothing_else(rt: HostRuntime) {
    for u in 1..11_u64 {
        let mut lists = [0_u64; 11];
        for choice in 0..1_u64 << (u - 1) {
            let values = chosen(rt.alloc(), choice, u).expect(&rt, "memory");
            let read = reads_back(rt.alloc(), &values, u).expect(&rt, "memory");
            assert!(rt; read, "{choice} in {u}");
            assert!(rt; values.len() <= 10 && lists[values.len()] < 1000);
            lists[values.len()] += 1;
        }
        for m in 1..u + 1 {
            let bits = payload_bits(u, m);
            assert!(rt; bits < 64);
            assert_eq!(rt;
                patterns(u, m, bits as u32),
                lists[m as usize],
                "{m} in {u}"
            );
        }
    }
}

// Whether two numbers below 7 are accepted at a place of a word, and by how many steps.
fn checked(words: &[u64; 1], place: u64) -> (bool, Option<u64>)
    requires { place ≤ 1 }
{
    let part = PlacedPart::at(Bits { words }, place, 7, 2);
    (check_part(part), check_part_steps(part))
}

// Universes, how many numbers, how many bits, and how many patterns of these are such parts.
const ACCEPTED: [(u64, u64, u32, u64); 7] = [
    (3, 3, 0, 1),
    (5, 1, 4, 1),
    (3, 2, 3, 2),
    (7, 2, 7, 6),
    (9, 2, 8, 8),
    (10, 3, 10, 36),
    (12, 3, 11, 55),
];

// As many patterns are accepted as there are places below u - 1 to choose the other numbers from;
// of parts that take as many bits in both forms, those of bitmaps.
#[test]
fn accepts_each_part_and_nothing_else(rt: HostRuntime) {
    for &(u, m, bits, count) in &ACCEPTED {
        assert!(rt; 1 <= m && m <= u && u <= 1 << 48 && bits < 64);
        assert_eq!(rt; patterns(u, m, bits), count, "{m} in {u}");
    }
    assert_eq!(rt; checked(&[65], 0), (true, Some(6)));
    assert_eq!(rt; checked(&[130], 0), (false, None));
    assert!(rt; checked(&[130], 1).0);
}

// The first row of a table that a view of so many values does not give: a place, an end, how much
// room, and the values.
fn misgiven<'a, C: PartCodec<'a>>(
    view: &C,
    count: u64,
    rows: &[(u64, u64, usize, &[u64])],
) -> Option<(u64, u64, usize)>
    requires count { count ≡ C.m view.now }
{
    for row in rows {
        let (place, x, room, values) = *row;
        if place >= count || room > 4 || !gives(view, place, x, room, values) {
            return Some((place, x, room));
        }
    }
    None
}

// Rows of values far apart, in Elias-Fano form: a place, an end, how much room, and the values.
const BELOW_FAR: [(u64, u64, usize, &[u64]); 9] = [
    (0, 701, 4, &[3, 700]),
    (0, 700, 4, &[3]),
    (0, 4, 4, &[3]),
    (0, 3, 4, &[]),
    (0, 701, 1, &[3]),
    (0, 701, 0, &[]),
    (1, 701, 4, &[700]),
    (1, u64::MAX, 4, &[700]),
    (1, 0, 4, &[]),
];

// The first such row of each form of a view, by its kind and by itself: values far apart, in
// Elias-Fano form.
fn misgiven_far() -> Option<(u64, u64, usize)> {
    let part = PlacedPart::at(Bits { words: &[770_105] }, 0, 701, 2);
    misgiven(&PartView::at(part), 2, &BELOW_FAR).or(misgiven(
        &EfView::<128>::at(part),
        2,
        &BELOW_FAR,
    ))
}

// Of near ones, as a bitmap.
const BELOW_NEAR: [(u64, u64, usize, &[u64]); 7] = [
    (0, 6, 4, &[0, 5]),
    (0, 5, 4, &[0]),
    (0, 0, 4, &[]),
    (0, 6, 1, &[0]),
    (0, 6, 0, &[]),
    (1, 6, 4, &[5]),
    (1, u64::MAX, 4, &[5]),
];

// Near ones, as a bitmap.
fn misgiven_near() -> Option<(u64, u64, usize)> {
    let part = PlacedPart::at(Bits { words: &[33] }, 0, 6, 2);
    misgiven(&PartView::at(part), 2, &BELOW_NEAR).or(misgiven(
        &MapView::<512>::at(part),
        2,
        &BELOW_NEAR,
    ))
}

// Of all of a universe.
const BELOW_ALL: [(u64, u64, usize, &[u64]); 7] = [
    (0, 3, 4, &[0, 1, 2]),
    (0, 2, 4, &[0, 1]),
    (0, 0, 4, &[]),
    (0, 3, 1, &[0]),
    (0, 3, 0, &[]),
    (1, 3, 4, &[1, 2]),
    (2, u64::MAX, 4, &[2]),
];

// All of a universe.
fn misgiven_all() -> Option<(u64, u64, usize)> {
    let part = PlacedPart::at(Bits { words: &[33] }, 0, 3, 3);
    misgiven(&PartView::at(part), 3, &BELOW_ALL).or(misgiven(&OnesView::at(3), 3, &BELOW_ALL))
}

// From the first place and from the last, below a value and one more, with room for none, for one
// and for more than there are.
#[test]
fn gives_numbers_below(rt: HostRuntime) {
    assert_eq!(rt;
        [misgiven_far(), misgiven_near(), misgiven_all()],
        [None; 3]
    );
}

// How many words a view tells of two words of marks, and what is left of them.
fn kept(view: &PartView, from: u64) -> (usize, [u64; 2]) {
    let mut marks = [u64::MAX; 2];
    if !view.check() {
        return (3, marks);
    }
    let words = view.keep_in_words(from, &mut marks);
    (words, marks)
}

// The marks of a word: all, and three of every four.
const ALL_MARKS: u64 = u64::MAX;

const MOST_MARKS: u64 = 0xeeee_eeee_eeee_eeee;

// A place, and of either view how many words of marks it tells from there on, and what is left.
const MARKS: [(u64, (usize, [u64; 2]), (usize, [u64; 2])); 5] = [
    (
        0,
        (2, [ALL_MARKS, ALL_MARKS]),
        (2, [MOST_MARKS, MOST_MARKS]),
    ),
    (
        2,
        (2, [ALL_MARKS, ALL_MARKS]),
        (1, [0xbbbb_bbbb_bbbb_bbbb, ALL_MARKS]),
    ),
    (66, (1, [ALL_MARKS, ALL_MARKS]), (0, [ALL_MARKS, ALL_MARKS])),
    (67, (0, [ALL_MARKS, ALL_MARKS]), (0, [ALL_MARKS, ALL_MARKS])),
    (
        u64::MAX,
        (0, [ALL_MARKS, ALL_MARKS]),
        (0, [ALL_MARKS, ALL_MARKS]),
    ),
];

// All of 130 places, three of every four of 128, and two numbers in Elias-Fano form.
#[test]
fn keeps_marks_in_whole_words(rt: HostRuntime) {
    let words = [MOST_MARKS, MOST_MARKS];
    let bits = Bits { words: &words };
    let full = PartView::at(PlacedPart::at(bits, 0, 130, 130));
    let most = PartView::at(PlacedPart::at(bits, 0, 128, 96));
    for &(from, of_full, of_most) in &MARKS {
        assert_eq!(rt;
            (kept(&full, from), kept(&most, from)),
            (of_full, of_most),
            "from {from}"
        );
    }
    let far = PartView::at(PlacedPart::at(Bits { words: &[770_105] }, 0, 701, 2));
    assert_eq!(rt; kept(&far, 0), (0, [ALL_MARKS, ALL_MARKS]));
}
