ghost use Rattle.std.specs.Prelude.{◌≤◌, ◌<◌, ◌^◌, length};
ghost use Rattle.part_cost.specs.Formats.{numbers_of};

use part_cost::Format;
use two_level::{Check, SeqView, parts_fit};

// The first check that breaks where words are to begin with values below a bound, and its part; or
// how many words they take.
pub(crate) fn found(
    words: &[u64],
    parts: u32,
    m: u32,
    bound: u64,
    format: Format,
) -> Result<u64, (Check, u32)>
    requires words { length words.now < 2 ^ 57 }
    requires bound { bound ≤ (numbers_of format).most_sum }
{
    match SeqView::check(words, parts, m, bound, format) {
        Ok(view) => Ok(view.used()),
        Err(fault) => Err((fault.check, fault.part)),
    }
}

// Words, in how many parts how many values below a bound they are to have, and how many words these
// take, or the first check that breaks and its part.
type Row = (&'static [u64], u32, u32, u64, Result<u64, (Check, u32)>);

// In the first format: the words of 0, 2 below 3 and of 0, 5 in one part, each changed alone; of 0,
// 2 in two parts, cut, for other counts of parts and of values, and with a second entry that does
// not follow the first; and words of the other formats.
const IN_ONE: [Row; 33] = [
    (&[137_438_953_474, 0, 5], 1, 2, 3, Ok(3)),
    (&[137_438_953_474, 0, 6], 1, 2, 3, Ok(3)),
    (&[137_438_953_473, 0, 5], 1, 2, 3, Ok(2)),
    (&[137_438_953_474, 1, 5], 1, 2, 3, Err((Check::K7, 0))),
    (
        &[137_438_953_474, u64::MAX, 5],
        1,
        2,
        3,
        Err((Check::K7, 0)),
    ),
    (&[137_438_953_475, 0, 5], 1, 2, 3, Err((Check::K7, 0))),
    (&[137_438_953_472, 0, 5], 1, 2, 3, Err((Check::K7, 0))),
    (&[68_719_476_738, 0, 5], 1, 2, 3, Err((Check::K7, 0))),
    (&[206_158_430_210, 0, 5], 1, 2, 3, Err((Check::K7, 0))),
    (&[137_438_953_474, 0, 3], 1, 2, 3, Err((Check::K8, 0))),
    (&[137_438_953_474, 0, 7], 1, 2, 3, Err((Check::K8, 0))),
    (&[137_438_953_474, 0, 13], 1, 2, 3, Err((Check::K9, 0))),
    (&[137_438_953_477, 0, 33], 1, 2, 1 << 36, Ok(3)),
    (&[68_719_476_741, 0, 33], 1, 2, 1 << 36, Err((Check::K7, 0))),
    (&[137_438_953_477, 0, 3], 1, 2, 1 << 36, Err((Check::K8, 0))),
    (
        &[137_438_953_477, 0, 97],
        1,
        2,
        1 << 36,
        Err((Check::K9, 0)),
    ),
    (&[68_719_476_736, 0, 137_438_953_474, 0, 2], 2, 2, 3, Ok(5)),
    (
        &[68_719_476_736, 0, 137_438_953_474, 0, 2],
        0,
        2,
        3,
        Err((Check::K6, 0)),
    ),
    (
        &[68_719_476_736, 0, 137_438_953_474, 0, 2],
        3,
        2,
        3,
        Err((Check::K6, 0)),
    ),
    (
        &[68_719_476_736, 0, 137_438_953_474],
        2,
        2,
        3,
        Err((Check::K6, 0)),
    ),
    (
        &[68_719_476_736, 0, 137_438_953_474, 0],
        2,
        2,
        3,
        Err((Check::K7, 2)),
    ),
    (
        &[68_719_476_736, 0, 137_438_953_474, 0, 2],
        1,
        2,
        3,
        Err((Check::K7, 0)),
    ),
    (
        &[68_719_476_736, 0, 137_438_953_474, 0, 2],
        2,
        3,
        3,
        Err((Check::K7, 1)),
    ),
    (&[68_719_476_736, 0, 137_438_953_474, 0, 2], 1, 1, 3, Ok(2)),
    (&[68_719_476_736, 0, 137_438_953_474, 0, 2], 0, 0, 3, Ok(0)),
    (&[], 0, 0, 3, Ok(0)),
    (
        &[68_719_476_736, 0, 68_719_476_738, 0, 2],
        2,
        2,
        3,
        Err((Check::K7, 1)),
    ),
    (
        &[68_719_476_736, 0, 137_438_953_472, 0, 2],
        2,
        2,
        3,
        Err((Check::K7, 1)),
    ),
    (
        &[68_719_476_736, 0, 137_438_953_474, 1, 2],
        2,
        2,
        3,
        Err((Check::K7, 1)),
    ),
    (&[2, 2, 0, 5], 1, 2, 3, Err((Check::K7, 0))),
    (&[0, 1, 0, 2, 2, 0, 2], 2, 2, 3, Err((Check::K7, 0))),
    (&[562_949_953_421_314, 0, 5], 1, 2, 3, Err((Check::K7, 0))),
    (
        &[281_474_976_710_656, 0, 562_949_953_421_314, 0, 2],
        2,
        2,
        3,
        Err((Check::K7, 0)),
    ),
];

// In the second format. A last value is read whole: 2^48 + 2 is not 2.
const IN_TWO: [Row; 40] = [
    (&[2, 2, 0, 5], 1, 2, 3, Ok(4)),
    (&[2, 2, 0, 6], 1, 2, 3, Ok(4)),
    (&[1, 2, 0, 5], 1, 2, 3, Ok(3)),
    (&[2, 2, 1, 5], 1, 2, 3, Err((Check::K7, 0))),
    (&[2, 2, u64::MAX, 5], 1, 2, 3, Err((Check::K7, 0))),
    (&[3, 2, 0, 5], 1, 2, 3, Err((Check::K7, 0))),
    (&[u64::MAX, 2, 0, 5], 1, 2, 3, Err((Check::K7, 0))),
    (&[0, 2, 0, 5], 1, 2, 3, Err((Check::K7, 0))),
    (&[2, 0, 0, 5], 1, 2, 3, Err((Check::K7, 0))),
    (&[2, 1, 0, 5], 1, 2, 3, Err((Check::K7, 0))),
    (&[2, 3, 0, 5], 1, 2, 3, Err((Check::K7, 0))),
    (&[2, u64::MAX, 0, 5], 1, 2, 3, Err((Check::K7, 0))),
    (
        &[281_474_976_710_658, 2, 0, 5],
        1,
        2,
        3,
        Err((Check::K7, 0)),
    ),
    (
        &[281_474_976_710_658, 2, 0, 5],
        1,
        2,
        1 << 48,
        Err((Check::K7, 0)),
    ),
    (&[2, 2, 0, 3], 1, 2, 3, Err((Check::K8, 0))),
    (&[2, 2, 0, 7], 1, 2, 3, Err((Check::K8, 0))),
    (&[2, 2, 0, 13], 1, 2, 3, Err((Check::K9, 0))),
    (&[5, 2, 0, 33], 1, 2, 1 << 48, Ok(4)),
    (&[5, 1, 0, 33], 1, 2, 1 << 48, Err((Check::K7, 0))),
    (&[5, 2, 0, 3], 1, 2, 1 << 48, Err((Check::K8, 0))),
    (&[5, 2, 0, 97], 1, 2, 1 << 48, Err((Check::K9, 0))),
    (&[0, 1, 0, 2, 2, 0, 2], 2, 2, 3, Ok(7)),
    (&[0, 1, 0, 2, 2, 0, 2], 0, 2, 3, Err((Check::K6, 0))),
    (&[0, 1, 0, 2, 2, 0, 2], 3, 2, 3, Err((Check::K6, 0))),
    (&[0, 1, 0, 2, 2], 2, 2, 3, Err((Check::K6, 0))),
    (&[0, 1, 0, 2, 2, 0], 2, 2, 3, Err((Check::K7, 2))),
    (&[0, 1, 0, 2, 2, 0, 2], 1, 2, 3, Err((Check::K7, 0))),
    (&[0, 1, 0, 2, 2, 0, 2], 2, 3, 3, Err((Check::K7, 1))),
    (&[0, 1, 0, 2, 2, 0, 2], 1, 1, 3, Ok(3)),
    (&[0, 1, 0, 2, 2, 0, 2], 0, 0, 3, Ok(0)),
    (&[], 0, 0, 3, Ok(0)),
    (&[0, 1, 0, 2, 1, 0, 2], 2, 2, 3, Err((Check::K7, 1))),
    (&[0, 1, 0, 0, 2, 0, 2], 2, 2, 3, Err((Check::K7, 1))),
    (&[0, 1, 0, 2, 2, 1, 2], 2, 2, 3, Err((Check::K7, 1))),
    (&[137_438_953_474, 0, 5], 1, 2, 3, Err((Check::K7, 0))),
    (&[137_438_953_474, 0, 5], 1, 2, 1 << 48, Err((Check::K7, 0))),
    (
        &[68_719_476_736, 0, 137_438_953_474, 0, 2],
        2,
        2,
        3,
        Err((Check::K6, 0)),
    ),
    (&[562_949_953_421_314, 0, 5], 1, 2, 3, Err((Check::K7, 0))),
    (
        &[562_949_953_421_314, 0, 5],
        1,
        2,
        1 << 48,
        Err((Check::K7, 0)),
    ),
    (
        &[281_474_976_710_656, 0, 562_949_953_421_314, 0, 2],
        2,
        2,
        3,
        Err((Check::K6, 0)),
    ),
];

// In the third format. The high half of an end is read: 2^16 + 2 is not 2. The words of 0 to 65,537
// in one part end there: without the high half, with another, and with another low half.
const IN_THREE: [Row; 39] = [
    (&[562_949_953_421_314, 0, 5], 1, 2, 3, Ok(3)),
    (&[562_949_953_421_314, 0, 6], 1, 2, 3, Ok(3)),
    (&[562_949_953_421_313, 0, 5], 1, 2, 3, Ok(2)),
    (&[562_949_953_421_314, 1, 5], 1, 2, 3, Err((Check::K7, 0))),
    (
        &[562_949_953_421_314, u64::MAX, 5],
        1,
        2,
        3,
        Err((Check::K7, 0)),
    ),
    (
        &[562_949_953_421_314, 1 << 48, 5],
        1,
        2,
        3,
        Err((Check::K7, 0)),
    ),
    (&[562_949_953_421_315, 0, 5], 1, 2, 3, Err((Check::K7, 0))),
    (&[562_949_953_421_312, 0, 5], 1, 2, 3, Err((Check::K7, 0))),
    (&[281_474_976_710_658, 0, 5], 1, 2, 3, Err((Check::K7, 0))),
    (&[844_424_930_131_970, 0, 5], 1, 2, 3, Err((Check::K7, 0))),
    (&[562_949_953_421_314, 0, 3], 1, 2, 3, Err((Check::K8, 0))),
    (&[562_949_953_421_314, 0, 7], 1, 2, 3, Err((Check::K8, 0))),
    (&[562_949_953_421_314, 0, 13], 1, 2, 3, Err((Check::K9, 0))),
    (&[562_949_953_421_317, 0, 33], 1, 2, 1 << 48, Ok(3)),
    (
        &[281_474_976_710_661, 0, 33],
        1,
        2,
        1 << 48,
        Err((Check::K7, 0)),
    ),
    (
        &[562_949_953_421_317, 0, 3],
        1,
        2,
        1 << 48,
        Err((Check::K8, 0)),
    ),
    (
        &[562_949_953_421_317, 0, 97],
        1,
        2,
        1 << 48,
        Err((Check::K9, 0)),
    ),
    (
        &[562_949_953_486_849, 281_474_976_710_656],
        1,
        65_538,
        65_538,
        Ok(2),
    ),
    (
        &[562_949_953_486_849, 0],
        1,
        65_538,
        65_538,
        Err((Check::K7, 0)),
    ),
    (
        &[562_949_953_486_849, 562_949_953_421_312],
        1,
        65_538,
        65_538,
        Err((Check::K7, 0)),
    ),
    (
        &[281_474_976_776_193, 281_474_976_710_656],
        1,
        65_538,
        65_538,
        Err((Check::K7, 0)),
    ),
    (
        &[281_474_976_710_656, 0, 562_949_953_421_314, 0, 2],
        2,
        2,
        3,
        Ok(5),
    ),
    (
        &[281_474_976_710_656, 0, 562_949_953_421_314, 0, 2],
        0,
        2,
        3,
        Err((Check::K6, 0)),
    ),
    (
        &[281_474_976_710_656, 0, 562_949_953_421_314, 0, 2],
        3,
        2,
        3,
        Err((Check::K6, 0)),
    ),
    (
        &[281_474_976_710_656, 0, 562_949_953_421_314],
        2,
        2,
        3,
        Err((Check::K6, 0)),
    ),
    (
        &[281_474_976_710_656, 0, 562_949_953_421_314, 0],
        2,
        2,
        3,
        Err((Check::K7, 2)),
    ),
    (
        &[281_474_976_710_656, 0, 562_949_953_421_314, 0, 2],
        1,
        2,
        3,
        Err((Check::K7, 0)),
    ),
    (
        &[281_474_976_710_656, 0, 562_949_953_421_314, 0, 2],
        2,
        3,
        3,
        Err((Check::K7, 1)),
    ),
    (
        &[281_474_976_710_656, 0, 562_949_953_421_314, 0, 2],
        1,
        1,
        3,
        Ok(2),
    ),
    (
        &[281_474_976_710_656, 0, 562_949_953_421_314, 0, 2],
        0,
        0,
        3,
        Ok(0),
    ),
    (&[], 0, 0, 3, Ok(0)),
    (
        &[281_474_976_710_656, 0, 281_474_976_710_658, 0, 2],
        2,
        2,
        3,
        Err((Check::K7, 1)),
    ),
    (
        &[281_474_976_710_656, 0, 562_949_953_421_312, 0, 2],
        2,
        2,
        3,
        Err((Check::K7, 1)),
    ),
    (
        &[281_474_976_710_656, 0, 562_949_953_421_314, 1, 2],
        2,
        2,
        3,
        Err((Check::K7, 1)),
    ),
    (&[137_438_953_474, 0, 5], 1, 2, 3, Err((Check::K7, 0))),
    (&[137_438_953_474, 0, 5], 1, 2, 1 << 48, Err((Check::K7, 0))),
    (
        &[68_719_476_736, 0, 137_438_953_474, 0, 2],
        2,
        2,
        3,
        Err((Check::K7, 0)),
    ),
    (&[2, 2, 0, 5], 1, 2, 3, Err((Check::K7, 0))),
    (&[0, 1, 0, 2, 2, 0, 2], 2, 2, 3, Err((Check::K7, 0))),
];

// The first row that is found otherwise in a format.
fn first_wrong(format: Format, rows: &[Row]) -> Option<usize> {
    for (row, (words, parts, m, bound, want)) in rows.iter().enumerate() {
        if words.len() > 100
            || *bound > format.most_sum()
            || found(words, *parts, *m, *bound, format) != *want
        {
            return Some(row);
        }
    }
    None
}

#[test]
fn names_the_check_that_breaks(rt: HostRuntime) {
    assert_eq!(rt; first_wrong(Format::One, &IN_ONE), None);
    assert_eq!(rt; first_wrong(Format::Two, &IN_TWO), None);
    assert_eq!(rt; first_wrong(Format::Three, &IN_THREE), None);
}

// How many values, how many parts, and whether they can be in so many.
const FITTING: [(u32, u32, bool); 6] = [
    (0, 0, true),
    (0, 1, false),
    (2, 0, false),
    (2, 1, true),
    (2, 2, true),
    (2, 3, false),
];

// From no part up to one more than there are values.
#[test]
fn parts_are_from_one_to_all(rt: HostRuntime) {
    for &(m, parts, fit) in &FITTING {
        assert_eq!(rt; parts_fit(m, parts), fit, "{parts} of {m}");
    }
}
