use crate::reading::are_read_back;
use crate::sequences::{Parted, numbers, written};
use part_cost::Format;
use std::alloc::Global;
use std::process::Abort;
use std::test::Fail;

// Whether values in parts have these words in the third format, and are read back from them.
fn stand_in_words(rt: &impl Abort, alloc: Global, values: &[u64], ends: &[u64], want: &[u64]) {
    let words = written(rt, alloc, values, ends, Format::Three);
    assert_eq!(rt; words.as_slice(), want);
    are_read_back(rt, &words, Parted { values, ends }, 1 << 48, Format::Three);
}

// 0 to 99,999, and 1,000,000 as a part of its own: the parts end 34,464 and 34,465 behind 2^16, and
// none has payload before it. The last value is 900,000 in a universe of 900,001: the bits 0, 1 of
// its high half and then the 19 bits of 375,712.
#[test]
fn ends_past_two_bytes_are_written_and_read(rt: HostRuntime) -> Result<(), Fail> {
    let values = numbers(rt.alloc(), 0, 100_000, 1, Some(1_000_000))?;
    stand_in_words(
        &rt,
        rt.alloc(),
        &values,
        &[100_000, 100_001],
        &[
            9_700_753_597_356_148_383,
            281_474_976_710_656,
            9_701_035_072_333_759_040,
            281_474_976_710_656,
            1_502_850,
        ],
    );
    Ok(())
}

// 0, 2 as a bitmap of three bits; 3 to 70,002, all ones, which end 4,466 behind 2^16; and
// 1,000,000, which is 929,997 in a universe of 929,998: the bits 0, 1 and then the 19 bits of
// 405,709.
#[test]
fn payload_stands_beside_the_high_half(rt: HostRuntime) -> Result<(), Fail> {
    let mut values = numbers(rt.alloc(), 0, 2, 2, None)?;
    let others = numbers(rt.alloc(), 3, 70_000, 1, Some(1_000_000))?;
    values.extend_from_slice(&others)?;
    stand_in_words(
        &rt,
        rt.alloc(),
        &values,
        &[2, 70_002, 70_003],
        &[
            562_949_953_421_314,
            0,
            1_257_067_245_989_859_698,
            281_474_976_710_659,
            1_257_348_720_967_500_352,
            281_474_976_710_659,
            12_982_709,
        ],
    );
    Ok(())
}
