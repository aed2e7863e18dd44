use crate::sequences::{Parted, written};
use part_cost::Format;
use std::alloc::Global;
use std::process::Abort;
use two_level::SeqView;

// The first place from one on whose value lies at least so far past the value before it, value by
// value.
fn plain_first_step(values: &[u64], from: usize, least: u64) -> usize {
    for k in from..values.len() {
        let past = if k == 0 {
            0
        } else {
            values[k - 1].saturating_add(1)
        };
        if values[k].saturating_add(1).saturating_sub(past) >= least {
            return k;
        }
    }
    from.max(values.len())
}

// Whether the first step from each place on is found that is as long as each step, or longer by
// one.
pub(crate) fn finds_long_steps(rt: &impl Abort, view: &SeqView, values: &[u64]) {
    let m = view.len();
    assert!(rt; m < 1 << 28);
    assert_eq!(rt; m as usize, values.len());
    for from in 0..m + 1 {
        for k in 0..values.len() {
            let past = if k == 0 { 0 } else { values[k - 1] };
            let step = values[k].saturating_sub(past);
            for least in [step, step.saturating_add(1), step.saturating_add(2)] {
                let found = view.first_step(from, least) as usize;
                let plain = plain_first_step(values, from as usize, least);
                assert_eq!(rt; found, plain, "{least} from {from}");
            }
        }
    }
}

// Whether such steps are told of one, two, three values in parts.
fn tells_steps(rt: &impl Abort, alloc: Global, values: &[u64], ends: &[u64], want: [u64; 3]) {
    let words = written(rt, alloc, values, ends, Format::One);
    assert!(rt; words.len() < 1 << 28 && values.len() < 1 << 28 && ends.len() < 1 << 28);
    let (parts, m) = (ends.len() as u32, values.len() as u32);
    let bound = Format::One.most_sum();
    let view = SeqView::check(&words, parts, m, bound, Format::One).expect(rt, "a sequence");
    let told = [
        view.common_step(1),
        view.common_step(2),
        view.common_step(3),
    ];
    assert_eq!(rt; told, want);
    assert_eq!(rt; view.common_step(65), 0);
}

// Values in parts that end at such places, and the steps that are told of one, two, three values.
const COMMON_STEPS: [(&[u64], &[u64], [u64; 3]); 5] = [
    (&[0, 2], &[2], [0, 0, 0]),
    (&[0, 1, 2, 3, 104, 204], &[4, 6], [101, 100, 0]),
    (&[100, 200, 201, 202, 203, 204], &[2, 6], [101, 100, 0]),
    (
        &[0, 1, 1_048_576, 1_048_577, 1_048_578],
        &[2, 3, 5],
        [1_048_575, 0, 0],
    ),
    (&[], &[], [0, 0, 0]),
];

// None are told of a part as long in the mean as the whole. Behind 0 to 3 the steps 101 and 100 are
// long, before 0 to 3 as well; 2^20 alone between short ones; and no value has no step.
#[test]
fn tells_common_steps(rt: HostRuntime) {
    for &(values, ends, want) in &COMMON_STEPS {
        tells_steps(&rt, rt.alloc(), values, ends, want);
    }
}

// The greatest step of values in parts from one place up to another, and what they cost.
fn step_and_cost(
    rt: &impl Abort,
    alloc: Global,
    format: Format,
    parted: Parted<'_>,
    span: (u32, u32),
) -> (u64, u64) {
    let Parted { values, ends } = parted;
    let words = written(rt, alloc, values, ends, format);
    assert!(rt; words.len() < 1 << 28 && values.len() < 1 << 28 && ends.len() < 1 << 28);
    let (parts, m) = (ends.len() as u32, values.len() as u32);
    let bound = format.most_sum();
    let checked = SeqView::check_counting(&words, parts, m, bound, format).expect(rt, "sequence");
    let view = checked.view;
    let (from, to) = span;
    assert!(rt; from <= to && to <= m);
    assert_eq!(rt; checked.used, words.len() as u64);
    (view.greatest_step(from, to), view.cost())
}

// A format, values in parts, from which place up to which, and the greatest step there and what the
// values cost.
const GREATEST_STEPS: [(Format, &[u64], &[u64], (u32, u32), (u64, u64)); 9] = [
    (Format::One, &[0, 2], &[2], (0, 2), (2, 131)),
    (Format::One, &[0, 2], &[2], (0, 1), (1, 131)),
    (Format::One, &[0, 2], &[1, 2], (0, 2), (2, 258)),
    (Format::One, &[0, 1, 2, 3], &[4], (0, 4), (1, 128)),
    (Format::One, &[0, 1, 2, 3], &[2, 4], (1, 3), (1, 256)),
    (Format::One, &[0, 1, 2, 3], &[2, 4], (2, 2), (0, 256)),
    (Format::One, &[4, 5, 6, 7], &[4], (0, 4), (5, 136)),
    (Format::Two, &[0, 2], &[1, 2], (0, 2), (2, 386)),
    (Format::Three, &[0, 2], &[1, 2], (0, 2), (2, 258)),
];

// 0, 2 in one part and in two, which have 3 and 2 payload bits beside their entries, and up to the
// first value alone; 0 to 3, all places taken, in one part and in two, which have entries alone;
// 4 to 7, where the first step is 5; and no value has no step.
#[test]
fn finds_the_greatest_step(rt: HostRuntime) {
    for &(format, values, ends, span, want) in &GREATEST_STEPS {
        let told = step_and_cost(&rt, rt.alloc(), format, Parted { values, ends }, span);
        assert_eq!(rt; told, want);
    }
}
