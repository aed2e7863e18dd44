use crate::sequences::written;
use part_cost::Format;

const NEAR: [u64; 2] = [0, 2];

const FAR: [u64; 2] = [0, 281_474_976_710_655];

// A format, two values, where their parts end, and the words.
const WRITTEN: [(Format, &[u64], &[u64], &[u64]); 10] = [
    (Format::One, &NEAR, &[2], &[137_438_953_474, 0, 5]),
    (
        Format::One,
        &NEAR,
        &[1, 2],
        &[68_719_476_736, 0, 137_438_953_474, 0, 2],
    ),
    (Format::Two, &NEAR, &[2], &[2, 2, 0, 5]),
    (Format::Two, &NEAR, &[1, 2], &[0, 1, 0, 2, 2, 0, 2]),
    (Format::Three, &NEAR, &[2], &[562_949_953_421_314, 0, 5]),
    (
        Format::Three,
        &NEAR,
        &[1, 2],
        &[281_474_976_710_656, 0, 562_949_953_421_314, 0, 2],
    ),
    (
        Format::Two,
        &FAR,
        &[2],
        &[
            281_474_976_710_655,
            2,
            0,
            18_444_492_273_895_866_385,
            8_589_934_591,
        ],
    ),
    (
        Format::Two,
        &FAR,
        &[1, 2],
        &[0, 1, 0, 281_474_976_710_655, 2, 0, 562_949_953_421_306],
    ),
    (
        Format::Three,
        &FAR,
        &[2],
        &[
            844_424_930_131_967,
            0,
            18_444_492_273_895_866_385,
            8_589_934_591,
        ],
    ),
    (
        Format::Three,
        &FAR,
        &[1, 2],
        &[
            281_474_976_710_656,
            0,
            844_424_930_131_967,
            0,
            562_949_953_421_306,
        ],
    ),
];

// 0, 2 in one part and in two; and 0 with the greatest value of the second and the third format.
#[test]
fn writes_two_values(rt: HostRuntime) {
    for &(format, values, ends, want) in &WRITTEN {
        let words = written(&rt, rt.alloc(), values, ends, format);
        assert_eq!(rt; words.as_slice(), want);
    }
}
