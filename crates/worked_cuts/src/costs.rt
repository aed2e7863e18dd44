ghost use Rattle.std.specs.Prelude.{◌≡◌, ◌+◌, ◌≤◌, ◌<◌, ◌^◌, length};
ghost use Rattle.std.specs.List.{All};
ghost use Rattle.std.specs.List.Sorted.{IsStrictlyIncreasing};
ghost use Rattle.collection_model.specs.FormatNumbers.{part_charge};
ghost use Rattle.part_cost.specs.Formats.{numbers_of};
ghost use Rattle.part_cost.specs.Span.{cost_of_part};

use crate::partitions::is_sequence;
use part_cost::{Format, Kind, ListCost, SpanCost, digits, kind, low_width, payload_bits};
use std::marker::Brand;
use std::sync::ledger::{Blank, Ledger};
use step_count::Steps;

// A number, and how many binary digits it has.
const DIGITS: [(u64, u32); 7] = [
    (0, 0),
    (1, 1),
    (2, 2),
    (3, 2),
    (387, 9),
    (1 << 36, 37),
    (u64::MAX, 64),
];

#[test]
fn digits_of_numbers(rt: HostRuntime) {
    for &(n, count) in &DIGITS {
        assert_eq!(rt; digits(n), count, "{n}");
    }
}

#[test]
fn numbers_of_formats(rt: HostRuntime) {
    let rows = &[
        (Format::One, 268_435_455, 1 << 36, 2, 128, 4096, 1),
        (Format::Two, 4_294_967_295, 1 << 48, 3, 192, 6144, 2),
        (Format::Three, 4_294_967_295, 1 << 48, 2, 128, 4096, 3),
    ];
    for &(format, documents, sum, words, charge, limit, version) in rows {
        let most = (format.most_documents(), format.most_sum(), format.limit());
        let told = (format.entry_words(), format.charge(), format.version());
        assert_eq!(rt;
            (most, told),
            ((documents, sum, limit), (words, charge, version)),
            "{format:?}"
        );
    }
}

#[test]
fn parts_by_universe_and_count(rt: HostRuntime) {
    let rows = &[
        (3, 2, Kind::Bitmap, 3),
        (6, 2, Kind::Bitmap, 6),
        (7, 7, Kind::Ones, 0),
        (701, 2, Kind::Ef, 20),
        (600, 599, Kind::Bitmap, 610),
        (1281, 129, Kind::Ef, 685),
        (900_001, 1, Kind::Ef, 21),
        (1 << 36, 1, Kind::Ef, 37),
        ((1 << 47) + 1, 1, Kind::Ef, 49),
        (1 << 48, 1, Kind::Ef, 49),
        (1 << 48, 129, Kind::Ef, 5553),
        (1 << 48, (1 << 48) - 1, Kind::Bitmap, 307_863_255_777_232),
        (1 << 48, 1 << 48, Kind::Ones, 0),
    ];
    for &(u, m, form, bits) in rows {
        assert!(rt; 1 <= m && m <= u && u <= 1 << 48);
        assert_eq!(rt;
            (kind(u, m), payload_bits(u, m)),
            (form, bits),
            "{m} in {u}"
        );
    }
}

// A universe, how many numbers, and the width of a low field.
const LOW_WIDTHS: [(u64, u64, u32); 9] = [
    (1, 1, 0),
    (6, 2, 1),
    (701, 2, 8),
    (1281, 129, 3),
    (900_001, 1, 19),
    (1 << 36, 1, 35),
    ((1 << 47) + 1, 1, 46),
    (1 << 48, 1, 47),
    (1 << 48, 129, 40),
];

#[test]
fn low_widths(rt: HostRuntime) {
    for &(u, m, low) in &LOW_WIDTHS {
        assert!(rt; 1 <= m && m <= u && u <= 1 << 48);
        assert_eq!(rt; low_width(u, m), low, "{m} in {u}");
    }
}

// What a part costs, learned through the bound.
fn cost_by<C: SpanCost, L: Ledger>(costs: &C, i: u64, j: u64, steps: &mut Steps<L>) -> u64
    requires some { i < j }
    requires within { j ≤ C.count costs.now }
    ensures value { result ≡ C.cost_of costs.now i j }
    ensures step { steps.new ≡ steps.old + 1 }
{
    costs.cost(i, j, steps)
}

// What the part from i to j of a list of values costs.
fn cost_of<L: Ledger>(blank: Blank, values: &[u64], format: Format, i: u64, j: u64) -> u64
    requires name { blank.name ≡ L.name }
    requires parts { blank.parts ≡ L.parts }
    requires ledger { 0 < L.parts }
    requires rising { IsStrictlyIncreasing values.now }
    requires below { All (λ x. x < (numbers_of format).most_sum) values.now }
    requires few { length values.now < 2 ^ 32 }
    requires some { i < j }
    requires within { j ≤ length values.now }
    ensures { result ≡ cost_of_part (part_charge (numbers_of format)) values.entry.now i j }
{
    let mut steps = Steps::<L>::new(blank);
    cost_by(&ListCost::new(values, format), i, j, &mut steps)
}

// A list and a format, from which place to which a part of it is, and what the part costs.
const COSTS: [(&[u64], Format, u64, u64, u64); 8] = [
    (&[0, 2], Format::One, 0, 2, 131),
    (&[0, 5], Format::One, 0, 2, 134),
    (&[68_719_476_735], Format::One, 0, 1, 165),
    (&[0, 2], Format::Two, 0, 2, 195),
    (&[281_474_976_710_655], Format::Two, 0, 1, 241),
    (&[0, 2], Format::Three, 0, 2, 131),
    (&[281_474_976_710_655], Format::Three, 0, 1, 177),
    (&[0, 4, 9], Format::One, 1, 3, 136),
];

#[test]
fn costs_of_lists(rt: HostRuntime) {
    for &(values, format, i, j, cost) in &COSTS {
        assert!(rt; is_sequence(values, format) && i < j && j <= values.len() as u64);
        let found = cost_of::<Brand>(Blank::new(1), values, format, i, j);
        assert_eq!(rt; found, cost, "{values:?}, {format:?}");
    }
    let len = ListCost::new(&[0, 4, 9], Format::One).len();
    let format = ListCost::new(&[0, 4, 9], Format::Two).format();
    assert_eq!(rt; (len, format), (3, Format::Two));
}
