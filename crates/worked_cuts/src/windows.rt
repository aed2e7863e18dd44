ghost use Rattle.std.specs.Prelude.{◌≡◌, ◌+◌, ◌-◌, ◌*◌, ◌<◌, ◌≤◌, ◌^◌, length};
ghost use Rattle.std.proofs.Common.{arith};
ghost use Rattle.collection_model.specs.FormatNumbers.{part_charge};
ghost use Rattle.part_cost.specs.Formats.{numbers_of, HasRoom};
ghost use Rattle.cost_windows.specs.WindowBounds.{window_bounds};

use cost_windows::{Windows, bounds};
use no_memory::NoMemory;
use part_cost::{Format, SpanCost, formats_have_room};
use std::alloc::Global;
use std::marker::Brand;
use std::sync::ledger::{Blank, Ledger};
use std::test::Fail;
use step_count::Steps;

// Parts that cost the charge, and six bits more for each number after the first.
#[derive(Clone, Copy)]
struct Sloping {
    format: Format,
    count: u64,
    ghost few: { count < 2 ^ 8 },
    ghost room: { HasRoom (numbers_of format) },
}

impl SpanCost for Sloping {
    ghost format_of = { λ c. c.format };

    ghost count = { λ c. c.count };

    ghost cost_of = { λ c i j. part_charge (numbers_of c.format) + 6 * (j - i - 1) };

    fn format(&self) -> Format {
        self.format
    }

    fn len(&self) -> u64 {
        self.count
    }

    fn cost<L: Ledger>(&self, i: u64, j: u64, steps: &mut Steps<L>) -> u64 {
        steps.tick();
        self.format.charge() + 6 * (j - i - 1)
    }

    ghost few = { λ c. Prim.omega (arith, c.few) };

    ghost at_least_charge = { λ c i j h k. Prim.omega arith };

    ghost monotone = { λ c h i j k p q r s. Prim.omega arith };

    ghost one_within_limit = { λ c i h. Prim.omega (arith, c.room) };
}

// The end of a window, with what the part up to there costs.
fn edge(windows: &Windows, k: usize) -> Option<(u64, u64)>
    requires { k < length windows.now.bounds }
{
    match windows.end(k) {
        Some(end) => Some((end, windows.cost(k))),
        None => None,
    }
}

// The edges of the first three windows and of the last.
fn edges(windows: &Windows, last: usize) -> [Option<(u64, u64)>; 4]
    requires some { 3 ≤ length windows.now.bounds }
    requires last { last < length windows.now.bounds }
{
    [
        edge(windows, 0),
        edge(windows, 1),
        edge(windows, 2),
        edge(windows, last),
    ]
}

// The edges at both places of two numbers.
fn moved<L: Ledger>(
    alloc: Global,
    blank: Blank,
    format: Format,
) -> Result<[[Option<(u64, u64)>; 4]; 2], NoMemory>
    requires name { blank.name ≡ L.name }
    requires parts { blank.parts ≡ L.parts }
    requires some { 0 < L.parts }
    requires windows { 3 ≤ length (window_bounds format) }
{
    formats_have_room();
    let mut steps = Steps::<L>::new(blank);
    let cost = Sloping { format, count: 2 };
    let last = bounds(format).len() - 1;
    let mut windows = Windows::new(alloc, format)?;
    windows.advance(0, &cost, &mut steps);
    let first = edges(&windows, last);
    windows.advance(1, &cost, &mut steps);
    let second = edges(&windows, last);
    Ok([first, second])
}

// In each format the edges of the first three windows and of the last, at each of the two places.
// The third format has the bounds of the first.
const ENDS_OF_WINDOWS: [[[Option<(u64, u64)>; 4]; 2]; 3] = [
    [
        [
            Some((1, 128)),
            Some((1, 128)),
            Some((2, 134)),
            Some((2, 134)),
        ],
        [Some((2, 128)); 4],
    ],
    [
        [
            Some((1, 192)),
            Some((2, 198)),
            Some((2, 198)),
            Some((2, 198)),
        ],
        [Some((2, 192)); 4],
    ],
    [
        [
            Some((1, 128)),
            Some((1, 128)),
            Some((2, 134)),
            Some((2, 134)),
        ],
        [Some((2, 128)); 4],
    ],
];

#[test]
fn longest_ends(rt: HostRuntime) -> Result<(), Fail> {
    let one = moved::<Brand>(rt.alloc(), Blank::new(1), Format::One)?;
    let two = moved::<Brand>(rt.alloc(), Blank::new(1), Format::Two)?;
    let three = moved::<Brand>(rt.alloc(), Blank::new(1), Format::Three)?;
    assert_eq!(rt; &[one, two, three], &ENDS_OF_WINDOWS);
    Ok(())
}

#[test]
fn bounds_by_the_rule(rt: HostRuntime) {
    for (format, count) in [(Format::One, 114), (Format::Two, 116), (Format::Three, 114)] {
        let bounds = bounds(format);
        assert_eq!(rt; bounds.len(), count, "{format:?}");
        assert_eq!(rt;
            bounds.first().copied(),
            Some(format.charge()),
            "{format:?}"
        );
        assert_eq!(rt; bounds.last().copied(), Some(format.limit()), "{format:?}");
        for pair in bounds.windows(2) {
            if let [before, bound] = pair {
                assert!(rt; *before < format.limit());
                let next = 103 * (*before + 1) / 100;
                assert_eq!(rt; *bound, next.min(format.limit()), "after {before}");
            }
        }
    }
}

// A format, a cost, and the least bound that is not below it.
const LEAST_BOUNDS: [(Format, u64, u64); 12] = [
    (Format::One, 128, 128),
    (Format::One, 129, 132),
    (Format::One, 133, 136),
    (Format::One, 4096, 4096),
    (Format::Two, 192, 192),
    (Format::Two, 193, 198),
    (Format::Two, 199, 204),
    (Format::Two, 4096, 4120),
    (Format::Two, 6144, 6144),
    (Format::Three, 128, 128),
    (Format::Three, 129, 132),
    (Format::Three, 4096, 4096),
];

#[test]
fn least_bounds(rt: HostRuntime) {
    for &(format, cost, want) in &LEAST_BOUNDS {
        let least = bounds(format).iter().copied().find(|bound| cost <= *bound);
        assert_eq!(rt; least, Some(want), "at {cost}");
    }
}
