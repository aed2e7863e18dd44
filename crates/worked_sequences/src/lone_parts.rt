ghost use Rattle.std.specs.Prelude.{◌<◌, ◌^◌, length};

use crate::cursors::{gives_blocks, goes_on};
use crate::reading::is_read;
use crate::sequences::{numbers, written};
use crate::steps::finds_long_steps;
use bit_words::Bits;
use part_codec::check_part;
use part_cost::{Format, Kind, PlacedPart, formats_have_room, kind, payload_bits};
use std::alloc::{AllocError, Global};
use std::process::Abort;
use std::test::Fail;
use two_level::SeqView;

// These words so many bits further on, with ones before them.
fn moved_on(alloc: Global, words: &[u64], place: u32) -> Result<Vec<u64>, AllocError> {
    let mut moved = Vec::new(alloc);
    for _ in 0..place / 64 {
        moved.push(u64::MAX)?;
    }
    let shift = place % 64;
    let mut before = u64::MAX.checked_shr(64 - shift).unwrap_or(0);
    for word in words {
        moved.push(before | *word << shift)?;
        before = word.checked_shr(64 - shift).unwrap_or(0);
    }
    moved.push(before)?;
    Ok(moved)
}

// Words, where in them the bits of m values begin, and the last of the values.
#[derive(Clone, Copy)]
struct LonePart<'a> {
    words: &'a [u64],
    place: u64,
    last: u64,
    m: u32,
}

// The sequence whose one part stands alone so, where its bits are those of some values. One value
// has none.
fn standing_alone<'a>(rt: &impl Abort, lone: LonePart<'a>, format: Format) -> SeqView<'a>
    requires words { length lone.words.now < 2 ^ 57 }
{
    let LonePart {
        words,
        place,
        last,
        m,
    } = lone;
    formats_have_room();
    assert!(rt; last < format.most_sum() && place <= 64 * words.len() as u64);
    if m == 1 {
        return SeqView::standing_alone(words, place, last, 1, format);
    }
    assert!(rt; 1 < m && u64::from(m) <= last + 1);
    let part = PlacedPart::at(Bits { words }, place, last + 1, u64::from(m));
    assert!(rt; check_part(part));
    SeqView::standing_alone(words, place, last, m, format)
}

// Whether values are read from the bits of their one part alone, which begin at a place.
fn is_read_alone(
    rt: &impl Abort,
    alloc: Global,
    values: &[u64],
    place: u32,
    format: Format,
) -> Result<(), AllocError> {
    assert!(rt; 1 <= values.len() && values.len() < 1 << 20);
    let count = values.len() as u64;
    let last = values[values.len() - 1];
    let words = written(rt, alloc, values, &[count], format);
    let entry = format.entry_words() as usize;
    assert!(rt; entry <= words.len());
    let moved = moved_on(alloc, &words[entry..], place)?;
    assert!(rt; moved.len() < 1 << 28);
    let lone = LonePart {
        words: &moved,
        place: u64::from(place),
        last,
        m: count as u32,
    };
    let view = standing_alone(rt, lone, format);
    is_read(rt, &view, values, &[count]);
    goes_on(rt, &view, values);
    if count <= 2 {
        finds_long_steps(rt, &view, values);
        gives_blocks(rt, &view, values, 2);
    }
    assert!(rt; last < 1 << 48 && count <= last + 1);
    let bits = payload_bits(last + 1, count);
    let cost = format.charge().saturating_add(bits);
    assert_eq!(rt; (view.cost(), view.common_step(1)), (cost, 0));
    Ok(())
}

// A first number and a step, where the bits begin, and a format.
const PROGRESSIONS: [(u64, u64, u32, Format); 6] = [
    (0, 1, 0, Format::One),
    (0, 1, 7, Format::Three),
    (1, 2, 0, Format::Two),
    (1, 2, 63, Format::Three),
    (5_000, 1_000, 1, Format::One),
    (5_000, 1_000, 129, Format::Three),
];

// All ones from 0 on, a bitmap and an Elias-Fano part of each length round those at which a part
// has samples, in each format.
#[test]
fn a_part_is_read_alone(rt: HostRuntime) -> Result<(), Fail> {
    for count in [1, 2, 127, 128, 129, 513] {
        for &(first, step, place, format) in &PROGRESSIONS {
            assert!(rt; first < 1 << 32 && step < 1 << 10);
            let values = numbers(rt.alloc(), first, count, step, None)?;
            assert_eq!(rt; values.len() as u64, count);
            is_read_alone(&rt, rt.alloc(), &values, place, format)?;
        }
    }
    Ok(())
}

// They are of these kinds.
#[test]
fn parts_are_of_each_kind(rt: HostRuntime) {
    for count in [2, 127, 128, 129, 513] {
        for (first, step, want) in [
            (0, 1, Kind::Ones),
            (1, 2, Kind::Bitmap),
            (5_000, 1_000, Kind::Ef),
        ] {
            let universe = first + (count - 1) * step + 1;
            assert_eq!(rt; kind(universe, count), want, "{count} in {universe}");
        }
    }
}

// A format and one value.
const ONE_VALUE: [(Format, u64); 7] = [
    (Format::One, 0),
    (Format::One, 68_719_476_735),
    (Format::Two, 281_474_976_710_655),
    (Format::Three, 0),
    (Format::Three, 1),
    (Format::Three, 5_000),
    (Format::Three, 281_474_976_710_655),
];

// One value is read from no words, at the end of some, and where the bits are those of no value.
#[test]
fn one_value_has_no_bits(rt: HostRuntime) {
    for &(format, last) in &ONE_VALUE {
        for (words, place) in [
            ([].as_slice(), 0),
            ([u64::MAX].as_slice(), 0),
            (&[u64::MAX], 64),
            (&[0], 3),
        ] {
            assert!(rt; words.len() <= 1);
            let lone = LonePart {
                words,
                place,
                last,
                m: 1,
            };
            let view = standing_alone(&rt, lone, format);
            is_read(&rt, &view, &[last], &[1]);
            goes_on(&rt, &view, &[last]);
            finds_long_steps(&rt, &view, &[last]);
            gives_blocks(&rt, &view, &[last], 1);
        }
    }
}
