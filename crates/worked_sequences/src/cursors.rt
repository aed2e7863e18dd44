ghost use Rattle.std.specs.Prelude.{◌≤◌, length};

use crate::reading::{are_read_back, go_behind, stand};
use crate::sequences::{Parted, written};
use crate::steps::finds_long_steps;
use part_cost::Format;
use std::process::Abort;
use two_level::SeqView;

// Where a cursor stands that goes from a place to a later value, to the later place, and behind it.
fn gone(view: &SeqView, from: u32, to: u32, value: u64) -> [(Option<u64>, u32); 3]
    requires start { from ≤ length view.now.values }
    requires end { to ≤ length view.now.values }
{
    let mut cursor = view.cursor();
    cursor.move_to(from);
    cursor.next_geq(value);
    let found = stand(&cursor);
    cursor.move_to(from);
    cursor.move_to(to);
    let moved = stand(&cursor);
    go_behind(&mut cursor);
    [found, moved, stand(&cursor)]
}

// Whether a cursor comes from each place to each later one by each of its calls, and goes on from
// there.
pub(crate) fn goes_on(rt: &impl Abort, view: &SeqView, values: &[u64]) {
    let m = view.len();
    assert_eq!(rt; m as usize, values.len());
    for from in 0..m {
        for to in from..m {
            let value = values[to as usize];
            let here = (Some(value), to);
            let next = (values.get(to as usize + 1).copied(), to + 1);
            assert_eq!(rt; gone(view, from, to, value), [here, here, next]);
        }
    }
}

// Whether a block begins with so many values from a place on.
fn are_next(block: &[u64], values: &[u64], from: usize, count: usize) -> bool {
    let given = block.get(..count);
    given.is_some() && given == values.get(from..from.saturating_add(count))
}

// Whether a cursor gives the values from a place on that are below x, so many, as many as there is
// room for, and then all others.
fn gives_block(view: &SeqView, values: &[u64], from: u32, x: (u64, u32), room: usize) -> bool
    requires start { from ≤ length view.now.values }
    requires few { room ≤ 32 }
{
    let (x, below) = x;
    let mut block = [0; 32];
    let mut cursor = view.cursor();
    cursor.move_to(from);
    let count = cursor.values_below(x, &mut block[..room]);
    let first = are_next(&block, values, from as usize, count);
    let place = cursor.place();
    let rest = cursor.values_below(u64::MAX, &mut block);
    first
        && are_next(&block, values, place as usize, rest)
        && count == room.min(below as usize)
        && place.checked_sub(from) == Some(count as u32)
        && cursor.place() == view.len()
}

// Whether a cursor gives the values from each place on that are below each later one, or below one
// more, as many as there is room for, and then all others.
pub(crate) fn gives_blocks(rt: &impl Abort, view: &SeqView, values: &[u64], room: usize) {
    let m = view.len();
    assert_eq!(rt; m as usize, values.len());
    assert!(rt; m <= 32 && room <= 32);
    for from in 0..m {
        for to in from..m {
            let value = values[to as usize];
            let (below, past) = (to - from, value.saturating_add(1));
            let given = gives_block(view, values, from, (value, below), room)
                && gives_block(view, values, from, (past, below + 1), room);
            assert!(rt; given, "below {value} from {from}");
        }
    }
}

// Five parts: 0 to 9; 100, 1000, 5000 in Elias-Fano form; ten of the fifteen values from 5001 to
// 5015 as a bitmap; 2^30 alone; and the five values behind it.
const FIVE_PARTS: [u64; 29] = [
    0,
    1,
    2,
    3,
    4,
    5,
    6,
    7,
    8,
    9,
    100,
    1_000,
    5_000,
    5_001,
    5_003,
    5_004,
    5_006,
    5_007,
    5_009,
    5_010,
    5_012,
    5_013,
    5_015,
    1_073_741_824,
    1_073_741_825,
    1_073_741_826,
    1_073_741_827,
    1_073_741_828,
    1_073_741_829,
];

const FIVE_ENDS: [u64; 5] = [10, 13, 23, 24, 29];

#[test]
fn five_parts_are_read_by_every_call(rt: HostRuntime) {
    for format in [Format::One, Format::Two, Format::Three] {
        let words = written(&rt, rt.alloc(), &FIVE_PARTS, &FIVE_ENDS, format);
        assert!(rt; words.len() < 100);
        let bound = format.most_sum();
        let parted = Parted {
            values: &FIVE_PARTS,
            ends: &FIVE_ENDS,
        };
        are_read_back(&rt, &words, parted, bound, format);
        let view = SeqView::check(&words, 5, 29, bound, format).expect(&rt, "a sequence");
        goes_on(&rt, &view, &FIVE_PARTS);
        finds_long_steps(&rt, &view, &FIVE_PARTS);
        for room in [0, 1, 2, 29] {
            gives_blocks(&rt, &view, &FIVE_PARTS, room);
        }
    }
}
