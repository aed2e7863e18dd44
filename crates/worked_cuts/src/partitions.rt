ghost use Rattle.std.specs.Prelude.{◌≡◌, ◌+◌, ◌-◌, ◌*◌, ◌/◌, ◌<◌, ◌≤◌, ◌^◌, length, IsTrue};
ghost use Rattle.std.specs.List.{All};
ghost use Rattle.std.specs.List.Sorted.{IsStrictlyIncreasing};
ghost use Rattle.std.proofs.Common.{arith};
ghost use Rattle.part_cost.specs.Formats.{numbers_of};
ghost use Rattle.part_cost.specs.declared.formats.Format.TheVariants.{One};

use no_memory::NoMemory;
use part_cost::{Format, ListCost, SpanCost};
use partition_path::{
    Cuts, ExactCosts, exact_cost, exact_costs, list_partition, list_partition_or_whole, partition,
};
use std::alloc::{AllocError, Global};
use std::marker::Brand;
use std::sync::ledger::{Blank, Ledger};
use std::test::Fail;
use step_count::Steps;

// The numbers below a count but for one, and then a last one.
fn numbers(
    alloc: Global,
    count: u64,
    without: u64,
    last: Option<u64>,
) -> Result<Vec<u64>, AllocError> {
    let mut values = Vec::new(alloc);
    for x in 0..count {
        if x != without {
            values.push(x)?;
        }
    }
    if let Some(last) = last {
        values.push(last)?;
    }
    Ok(values)
}

// Whether the values are a sequence of this format: they rise, and lie below its greatest sum.
pub(crate) fn is_sequence(values: &[u64], format: Format) -> bool
    ensures rising { IsTrue result → IsStrictlyIncreasing values.now }
    ensures below { IsTrue result → All (λ x. x < (numbers_of format).most_sum) values.now }
    ensures few { IsTrue result → length values.now < 2 ^ 32 }
{
    for i in 0..values.len() {
        if values[i] >= format.most_sum() || (i > 0 && values[i] <= values[i - 1]) {
            return false;
        }
    }
    values.len() < 1 << 32
}

// The cuts of a sequence of values.
fn cuts<L: Ledger>(
    alloc: Global,
    blank: Blank,
    values: &[u64],
    format: Format,
) -> Result<Cuts, NoMemory>
    requires name { blank.name ≡ L.name }
    requires parts { blank.parts ≡ L.parts }
    requires some { 0 < L.parts }
    requires rising { IsStrictlyIncreasing values.now }
    requires below { All (λ x. x < (numbers_of format).most_sum) values.now }
    requires few { length values.now < 2 ^ 32 }
{
    let mut steps = Steps::<L>::new(blank);
    partition(alloc, &ListCost::new(values, format), &mut steps)
}

// The cuts of a list of values, where it can also be stored whole or not.
fn list_cuts<L: Ledger>(
    alloc: Global,
    blank: Blank,
    values: &[u64],
    format: Format,
    whole: bool,
) -> Result<Cuts, NoMemory>
    requires name { blank.name ≡ L.name }
    requires parts { blank.parts ≡ L.parts }
    requires some { 0 < L.parts }
    requires rising { IsStrictlyIncreasing values.now }
    requires below { All (λ x. x < (numbers_of format).most_sum) values.now }
    requires few { length values.now < 2 ^ 32 }
{
    let mut steps = Steps::<L>::new(blank);
    if whole {
        list_partition_or_whole(alloc, values, format, &mut steps)
    } else {
        list_partition(alloc, values, format, &mut steps)
    }
}

// Parts of up to ten numbers that take the same each, so that two of them may cost more than a
// charge above the part that is cut into them, and longer parts that are not allowed, in the first
// format.
#[derive(Clone, Copy)]
struct Level {
    count: u64,
    bits: u64,
    ghost few: { count < 2 ^ 8 },
    ghost charge: { 128 ≤ bits },
    ghost allowed: { bits ≤ 4096 },
}

impl SpanCost for Level {
    ghost format_of = { λ c. One };

    ghost count = { λ c. c.count };

    ghost cost_of = { λ c i j. c.bits + 4096 * ((j - i - 1) / 10) };

    fn format(&self) -> Format {
        Format::One
    }

    fn len(&self) -> u64 {
        self.count
    }

    fn cost<L: Ledger>(&self, i: u64, j: u64, steps: &mut Steps<L>) -> u64 {
        steps.tick();
        self.bits + 4096 * ((j - i - 1) / 10)
    }

    ghost few = { λ c. Prim.omega (arith, c.few) };

    ghost at_least_charge = { λ c i j h k. Prim.omega (arith, c.charge) };

    ghost monotone = { λ c h i j k p q r s. Prim.omega (arith, p, r) };

    ghost one_within_limit = { λ c i h. Prim.omega (arith, c.allowed) };
}

// The cuts of so many numbers whose parts take so many bits, if those are a part's.
fn level_cuts<L: Ledger>(
    alloc: Global,
    blank: Blank,
    count: u64,
    bits: u64,
) -> Result<Cuts, NoMemory>
    requires name { blank.name ≡ L.name }
    requires parts { blank.parts ≡ L.parts }
    requires some { 0 < L.parts }
    requires few { count < 2 ^ 8 }
    requires charge { 128 ≤ bits }
    requires allowed { bits ≤ 4096 }
{
    let mut steps = Steps::<L>::new(blank);
    partition(alloc, &Level { count, bits }, &mut steps)
}

// The cheapest cost of a sequence of values, and what it costs as one part; and the first of them
// alone.
fn cheapest<L: Ledger>(
    alloc: Global,
    blank: Blank,
    values: &[u64],
    format: Format,
    limited: bool,
) -> Result<(ExactCosts, u64), NoMemory>
    requires name { blank.name ≡ L.name }
    requires parts { blank.parts ≡ L.parts }
    requires some { 0 < L.parts }
    requires rising { IsStrictlyIncreasing values.now }
    requires below { All (λ x. x < (numbers_of format).most_sum) values.now }
    requires few { length values.now < 2 ^ 32 }
{
    let mut steps = Steps::<L>::new(blank);
    let costs = ListCost::new(values, format);
    let found = exact_costs(alloc, &costs, limited, &mut steps)?;
    Ok((found, exact_cost(alloc, &costs, limited, &mut steps)?))
}

// The numbers before the first so many multiples of 2^20.
fn far_apart(alloc: Global, count: u64) -> Result<Vec<u64>, AllocError>
    requires { count ≤ 256 }
{
    let mut values = Vec::new(alloc);
    for k in 0..count {
        values.push((k + 1) * 1_048_576 - 1)?;
    }
    Ok(values)
}

#[test]
fn near_the_cheapest(rt: HostRuntime) -> Result<(), Fail> {
    // A format, a count, a number below it that is left out, a last number; the cheapest total, and
    // 103/100 of it.
    let rows = &[
        (Format::One, 0, 0, None, 0, 0),
        (Format::One, 1_000, 1_000, None, 128, 131),
        (Format::One, 0, 0, Some(68_719_476_735), 165, 165),
        (Format::One, 600, 300, None, 386, 397),
        (Format::One, 100_000, 100_000, Some(1_000_000), 277, 285),
        (Format::Two, 0, 0, None, 0, 0),
        (Format::Two, 1_000, 1_000, None, 192, 197),
        (Format::Two, 0, 0, Some(281_474_976_710_655), 241, 241),
        // One part of them has a payload of 610 bits, three parts have 2 bits in all.
        (Format::Two, 600, 300, None, 578, 595),
        // One part of them would cost far more than the limit.
        (Format::Two, 100_000, 100_000, Some(1_000_000), 405, 417),
        (Format::Three, 0, 0, None, 0, 0),
        (Format::Three, 1_000, 1_000, None, 128, 131),
        (Format::Three, 0, 0, Some(281_474_976_710_655), 177, 177),
        (Format::Three, 600, 300, None, 386, 397),
        (Format::Three, 100_000, 100_000, Some(1_000_000), 277, 285),
    ];
    for &(format, count, without, last, least, most) in rows {
        let values = numbers(rt.alloc(), count, without, last)?;
        assert!(rt; is_sequence(&values, format));
        let found = cuts::<Brand>(rt.alloc(), Blank::new(1), &values, format)?;
        assert!(rt; least <= found.total() && found.total() <= most, "{count}");
    }
    Ok(())
}

#[test]
fn all_numbers_are_one_part(rt: HostRuntime) -> Result<(), Fail> {
    for (format, cost) in [(Format::One, 128), (Format::Two, 192), (Format::Three, 128)] {
        let values = numbers(rt.alloc(), 1_000, 1_000, None)?;
        assert!(rt; is_sequence(&values, format));
        let found = cuts::<Brand>(rt.alloc(), Blank::new(1), &values, format)?;
        assert_eq!(rt; (found.ends(), found.total()), ([1_000].as_slice(), cost));
    }
    Ok(())
}

// A format, a count, a number below it that is left out, a last number; the ends of the parts, and
// what they cost.
const IN_PARTS: [(Format, u64, u64, Option<u64>, &[u64], u64); 8] = [
    (Format::One, 0, 0, None, &[], 0),
    (Format::One, 1_000, 1_000, None, &[1_000], 128),
    // The numbers on both sides of the one that is left out take no bits, and the first behind it
    // takes 2.
    (Format::One, 600, 300, None, &[300, 301, 599], 386),
    (
        Format::One,
        100_000,
        100_000,
        Some(1_000_000),
        &[100_000, 100_001],
        277,
    ),
    (Format::Two, 0, 0, None, &[], 0),
    (Format::Two, 1_000, 1_000, None, &[1_000], 192),
    (Format::Two, 600, 300, None, &[300, 301, 599], 578),
    (
        Format::Two,
        100_000,
        100_000,
        Some(1_000_000),
        &[100_000, 100_001],
        405,
    ),
];

#[test]
fn lists_in_parts(rt: HostRuntime) -> Result<(), Fail> {
    for &(format, count, without, last, ends, total) in &IN_PARTS {
        let values = numbers(rt.alloc(), count, without, last)?;
        assert!(rt; is_sequence(&values, format));
        for whole in [false, true] {
            // Whole, these lists take nothing, or more than their parts.
            let found = list_cuts::<Brand>(rt.alloc(), Blank::new(1), &values, format, whole)?;
            assert_eq!(rt; (found.ends(), found.total()), (ends, total), "{count}");
        }
    }
    Ok(())
}

#[test]
fn lists_stored_whole(rt: HostRuntime) -> Result<(), Fail> {
    // Whole they take 5,641 bits, which no allowed partition costs as little as; as one part a
    // charge more.
    for (format, total, least, most) in [
        (Format::One, 5_769, 5_886, 6_062),
        (Format::Two, 5_833, 5_833, 6_007),
    ] {
        let values = far_apart(rt.alloc(), 256)?;
        assert!(rt; is_sequence(&values, format));
        let whole = list_cuts::<Brand>(rt.alloc(), Blank::new(1), &values, format, true)?;
        assert_eq!(rt; (whole.ends(), whole.total()), ([256].as_slice(), total));
        let parts = list_cuts::<Brand>(rt.alloc(), Blank::new(1), &values, format, false)?;
        assert!(rt; least <= parts.total() && parts.total() <= most);
    }
    Ok(())
}

// How many numbers, and what each part takes; how many parts are the fewest, which cost the least
// by more than 3/100.
const LEVEL_COSTS: [(u64, u64, usize); 8] = [
    (0, 200, 0),
    (1, 200, 1),
    (10, 200, 1),
    (11, 200, 2),
    (25, 200, 3),
    (10, 300, 1),
    (25, 300, 3),
    (200, 4_096, 20),
];

#[test]
fn costs_that_do_not_add_up(rt: HostRuntime) -> Result<(), Fail> {
    for &(count, bits, parts) in &LEVEL_COSTS {
        assert!(rt; count < 256 && 128 <= bits && bits <= 4_096 && parts < 256);
        let found = level_cuts::<Brand>(rt.alloc(), Blank::new(1), count, bits)?;
        let last = found.ends().last().copied().unwrap_or(0);
        assert_eq!(rt;
            (found.ends().len(), last, found.total()),
            (parts, count, parts as u64 * bits),
            "{count}"
        );
    }
    Ok(())
}

#[test]
fn the_cheapest_of_all_and_of_the_allowed(rt: HostRuntime) -> Result<(), Fail> {
    // A format, how many numbers; the cheapest cost of an allowed partition, and of any; what all
    // numbers cost as one part, where that is allowed, and where any is.
    let rows = &[
        (Format::One, 0, 0, 0, None, None),
        (Format::One, 1, 149, 149, Some(149), Some(149)),
        // One part of them all is above the limit.
        (Format::One, 256, 5_886, 5_769, None, Some(5_769)),
        (Format::Two, 256, 5_833, 5_833, Some(5_833), Some(5_833)),
        (Format::Three, 256, 5_886, 5_769, None, Some(5_769)),
    ];
    for &(format, count, allowed, any, whole, one_part) in rows {
        let values = far_apart(rt.alloc(), count)?;
        assert!(rt; is_sequence(&values, format));
        for (limited, least, all) in [(true, allowed, whole), (false, any, one_part)] {
            let (found, alone) = cheapest::<Brand>(
                rt.alloc(),
                Blank::new(1),
                &values,
                format,
                limited,
            )?;
            assert_eq!(rt;
                (found.least, found.whole, alone),
                (least, all, least),
                "{count}"
            );
        }
    }
    Ok(())
}
