ghost use Rattle.std.specs.Prelude.{◌≡◌, ◌<◌, length};

use crate::checks::found;
use crate::sequences::{Parted, numbers, written};
use part_cost::Format;
use std::process::Abort;
use std::test::Fail;
use two_level::{Check, Part, SeqCursor, SeqView};

// Where a cursor stands: the value there, and its place.
pub(crate) fn stand(cursor: &SeqCursor<'_>) -> (Option<u64>, u32) {
    (cursor.current(), cursor.place())
}

// Goes on behind the value where a cursor stands, if it does not stand at the end.
pub(crate) fn go_behind(cursor: &mut SeqCursor<'_>)
    ensures sequence { cursor.new.sequence ≡ cursor.old.sequence }
{
    let Some(_value) = cursor.current() else {
        return;
    };
    cursor.next();
}

// Whether a view gives these values and their steps by their places, and a cursor one after
// another.
fn reads_back(rt: &impl Abort, view: &SeqView, values: &[u64]) {
    let m = view.len();
    assert_eq!(rt; m as usize, values.len());
    let mut cursor = view.cursor();
    let mut past = 0;
    for k in 0..m {
        let value = values[k as usize];
        let behind = value.saturating_add(1);
        assert_eq!(rt;
            (view.get(k), view.step(k), cursor.value()),
            (value, behind.saturating_sub(past), value)
        );
        assert_eq!(rt; cursor.place(), k);
        past = behind;
        cursor.next();
    }
    cursor.next_geq(0);
    assert_eq!(rt; stand(&cursor), (None, m));
}

// Where cursors stand that go to the value at place k, each by another call, and at which places
// those that go behind it.
fn found_at(view: &SeqView, k: u32, value: u64) -> ([(Option<u64>, u32); 4], [u32; 3])
    requires within { k < length view.now.values }
{
    let mut cursor = view.cursor();
    cursor.next_geq(value);
    let found = stand(&cursor);
    go_behind(&mut cursor);
    let next = cursor.place();
    cursor.move_to(view.len() - k);
    cursor.move_to(k);
    cursor.next_geq(0);
    let moved = stand(&cursor);
    cursor.next_geq(value.saturating_add(1));
    let from = stand(&view.cursor_from(value));
    let past = view.cursor_from(value.saturating_add(1)).place();
    let at = stand(&view.cursor_at(k));
    ([found, moved, from, at], [next, cursor.place(), past])
}

// Whether a cursor finds each value and the end behind the last, and stays where it was moved.
fn finds_places(rt: &impl Abort, view: &SeqView, values: &[u64]) {
    let m = view.len();
    assert_eq!(rt; m as usize, values.len());
    for k in 0..m {
        let value = values[k as usize];
        let here = (Some(value), k);
        assert_eq!(rt;
            found_at(view, k, value),
            ([here, here, here, here], [k + 1, k + 1, k + 1])
        );
    }
    let mut cursor = view.cursor();
    cursor.next_geq(u64::MAX);
    assert_eq!(rt;
        (cursor.place(), view.cursor_from(u64::MAX).current()),
        (m, None)
    );
}

// The part of values from a place up to another.
fn part_of(values: &[u64], from: u32, to: u64) -> Option<Part> {
    let to = u32::try_from(to).ok()?;
    let last = *values.get(..to as usize)?.last()?;
    let past = match values.get(..from as usize)?.last() {
        Some(past) => past.saturating_add(1),
        None => 0,
    };
    let u = last.saturating_add(1).saturating_sub(past);
    Some(Part { from, to, last, u })
}

// Whether the parts of a view of these values are those that end at such places.
fn has_parts(rt: &impl Abort, view: &SeqView, values: &[u64], ends: &[u64]) {
    let counts = (view.len() as usize, view.parts() as usize);
    assert_eq!(rt; counts, (values.len(), ends.len()));
    let mut from = 0;
    for i in 0..view.parts() {
        let part = view.part(i);
        let to = ends.get(i as usize).copied().unwrap_or(0);
        assert_eq!(rt;
            (Some(part), view.last_of_part(i)),
            (part_of(values, from, to), part.last)
        );
        from = part.to;
    }
}

// Whether a view of values in parts that end at such places is read by each call.
pub(crate) fn is_read(rt: &impl Abort, view: &SeqView, values: &[u64], ends: &[u64]) {
    reads_back(rt, view, values);
    finds_places(rt, view, values);
    has_parts(rt, view, values, ends);
}

// Whether words are accepted as those of values below a bound in parts, and are read back, once
// they are checked and where they are known.
pub(crate) fn are_read_back(
    rt: &impl Abort,
    words: &[u64],
    parted: Parted<'_>,
    bound: u64,
    format: Format,
) {
    let Parted { values, ends } = parted;
    assert!(rt; words.len() < 1 << 28 && values.len() < 1 << 28 && ends.len() < 1 << 28);
    assert!(rt; bound <= format.most_sum());
    let (parts, m) = (ends.len() as u32, values.len() as u32);
    let view = SeqView::check(words, parts, m, bound, format).expect(rt, "a sequence");
    assert_eq!(rt; view.used(), words.len() as u64);
    is_read(rt, &view, values, ends);
    is_read(rt, &SeqView::known(words, parts, m, format), values, ends);
}

// A format, the words of two values, these, where their parts end, and a bound.
const TWO_VALUES: [(Format, &[u64], &[u64], &[u64], u64); 19] = [
    (Format::One, &[137_438_953_474, 0, 5], &[0, 2], &[2], 3),
    (
        Format::One,
        &[68_719_476_736, 0, 137_438_953_474, 0, 2],
        &[0, 2],
        &[1, 2],
        3,
    ),
    (
        Format::One,
        &[137_438_953_477, 0, 33],
        &[0, 5],
        &[2],
        1 << 36,
    ),
    (Format::One, &[137_438_953_474, 0, 6], &[1, 2], &[2], 3),
    (Format::One, &[137_438_953_473, 0], &[0, 1], &[2], 3),
    (Format::Two, &[2, 2, 0, 5], &[0, 2], &[2], 3),
    (Format::Two, &[0, 1, 0, 2, 2, 0, 2], &[0, 2], &[1, 2], 3),
    (Format::Two, &[5, 2, 0, 33], &[0, 5], &[2], 1 << 48),
    (Format::Two, &[2, 2, 0, 6], &[1, 2], &[2], 3),
    (Format::Two, &[1, 2, 0], &[0, 1], &[2], 3),
    (
        Format::Two,
        &[
            281_474_976_710_655,
            2,
            0,
            18_444_492_273_895_866_385,
            8_589_934_591,
        ],
        &[0, 281_474_976_710_655],
        &[2],
        1 << 48,
    ),
    (
        Format::Two,
        &[0, 1, 0, 281_474_976_710_655, 2, 0, 562_949_953_421_306],
        &[0, 281_474_976_710_655],
        &[1, 2],
        1 << 48,
    ),
    (
        Format::Three,
        &[562_949_953_421_314, 0, 5],
        &[0, 2],
        &[2],
        3,
    ),
    (
        Format::Three,
        &[281_474_976_710_656, 0, 562_949_953_421_314, 0, 2],
        &[0, 2],
        &[1, 2],
        3,
    ),
    (
        Format::Three,
        &[562_949_953_421_317, 0, 33],
        &[0, 5],
        &[2],
        1 << 48,
    ),
    (
        Format::Three,
        &[562_949_953_421_314, 0, 6],
        &[1, 2],
        &[2],
        3,
    ),
    (Format::Three, &[562_949_953_421_313, 0], &[0, 1], &[2], 3),
    (
        Format::Three,
        &[
            844_424_930_131_967,
            0,
            18_444_492_273_895_866_385,
            8_589_934_591,
        ],
        &[0, 281_474_976_710_655],
        &[2],
        1 << 48,
    ),
    (
        Format::Three,
        &[
            281_474_976_710_656,
            0,
            844_424_930_131_967,
            0,
            562_949_953_421_306,
        ],
        &[0, 281_474_976_710_655],
        &[1, 2],
        1 << 48,
    ),
];

// 0, 2 in one part and in two; 0, 5; and 1, 2, where the first bit is not set; 0, 1; and 0 with the
// greatest value.
#[test]
fn two_values_are_read_back(rt: HostRuntime) {
    for &(format, words, values, ends, bound) in &TWO_VALUES {
        let parted = Parted { values, ends };
        are_read_back(&rt, words, parted, bound, format);
    }
}

// The values 0 to 999 in one part have no payload.
#[test]
fn a_whole_range_takes_its_entry_alone(rt: HostRuntime) -> Result<(), Fail> {
    for (format, want) in [
        (Format::One, [68_719_476_736_999, 0].as_slice()),
        (Format::Two, &[999, 1_000, 0]),
        (Format::Three, &[281_474_976_710_656_999, 0]),
    ] {
        let values = numbers(rt.alloc(), 0, 1_000, 1, None)?;
        let words = written(&rt, rt.alloc(), &values, &[1_000], format);
        assert_eq!(rt; words.as_slice(), want);
        let parted = Parted {
            values: &values,
            ends: &[1_000],
        };
        are_read_back(&rt, want, parted, 1_000, format);
    }
    Ok(())
}

// A word behind the directory and a bit of it, and what breaks where it is changed.
const CHANGED_BITS: [(usize, u32, (Check, u32)); 4] = [
    (10, 36, (Check::K8, 0)),
    (10, 44, (Check::K8, 0)),
    (11, 16, (Check::K8, 1)),
    (11, 17, (Check::K9, 0)),
];

// 0, 10, .., 1280 and a far value in two parts, of 685 and 36 bits. The last 9 bits of the first
// part are its one sample, which says that number 128 stands at place (1280 >> 3) + 128 of the high
// bits. A changed bit of it, of the second part and behind that.
#[test]
fn a_part_with_a_sample_is_read_back(rt: HostRuntime) -> Result<(), Fail> {
    for (format, directory) in [(Format::One, 4), (Format::Two, 6), (Format::Three, 4)] {
        let values = numbers(rt.alloc(), 0, 129, 10, Some(1 << 35))?;
        let bound = format.most_sum();
        let words = written(&rt, rt.alloc(), &values, &[129, 130], format);
        assert!(rt; directory <= 6);
        assert_eq!(rt; words.len(), directory + 12);
        let parted = Parted {
            values: &values,
            ends: &[129, 130],
        };
        are_read_back(&rt, &words, parted, bound, format);
        assert_eq!(rt; words[directory + 10] >> 36 & 511, 288);
        for &(word, bit, fault) in &CHANGED_BITS {
            let mut changed = words.as_slice().to_vec(rt.alloc())?;
            assert!(rt; word < 12 && bit < 64 && changed.len() == directory + 12);
            changed[directory + word] ^= 1 << bit;
            assert_eq!(rt; found(&changed, 2, 130, bound, format), Err(fault));
        }
    }
    Ok(())
}
