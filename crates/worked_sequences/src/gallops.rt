ghost use Rattle.std.specs.Prelude.{◌≡◌, ◌≤◌, ◌<◌, ◌^◌, length};
ghost use Rattle.std.specs.List.Sorted.{IsStrictlyIncreasing};

use crate::sequences::is_sequence;
use part_cost::Format;
use std::cell::Cell;
use std::marker::Brand;
use std::sync::ledger::{Blank, Ledger};
use std::test::Fail;
use step_count::Steps;
use two_level::{Lasts, gallop};

// The last values of parts, and how many times one was asked for.
#[derive(Drop)]
struct LentLasts<'a> {
    lasts: &'a [u64],
    asked: Cell<u32>,
    ghost rising: { IsStrictlyIncreasing lasts.now },
    ghost few: { length lasts.now < 2 ^ 32 },
}

impl<'a> Lasts for LentLasts<'a> {
    ghost lasts = { λ d. d.lasts.now };

    fn parts(&self) -> u32 {
        self.lasts.len() as u32
    }

    fn last<L: Ledger>(&self, q: u32, probes: &mut Steps<L>) -> u64 {
        probes.tick();
        self.asked.set(self.asked.get().saturating_add(1));
        self.lasts[q as usize]
    }

    ghost rising = { λ d. d.rising };
}

// The part that a gallop from another finds for x, and how many last values it asks for.
fn galloped<L: Ledger>(blank: Blank, lasts: &[u64], from: u32, x: u64) -> (u32, u32)
    requires name { blank.name ≡ L.name }
    requires parts { blank.parts ≡ L.parts }
    requires ledger { 0 < L.parts }
    requires rising { IsStrictlyIncreasing lasts.now }
    requires few { length lasts.now < 2 ^ 32 }
    requires within { from ≤ length lasts.now }
{
    let lasts = LentLasts {
        lasts,
        asked: Cell::new(0),
    };
    let mut probes = Steps::<L>::new(blank);
    let part = gallop(&lasts, from, x, &mut probes);
    (part, lasts.asked.get())
}

// From which part, for which number, the part, and for how many last values it asks at most.
const GALLOPS: [(u32, u64, u32, u32); 11] = [
    (0, 355, 35, 12),
    (35, 355, 35, 2),
    (90, 1_000, 100, 8),
    (0, 0, 0, 2),
    (0, 9, 0, 2),
    (0, 10, 1, 4),
    (0, 999, 99, 14),
    (0, 1_000, 100, 14),
    (36, 0, 36, 2),
    (99, 1_000, 100, 4),
    (100, 0, 100, 2),
];

// A hundred parts, of which part q ends with 10q + 9.
#[test]
fn gallops_to_the_part_that_reaches(rt: HostRuntime) -> Result<(), Fail> {
    let mut lasts = Vec::new(rt.alloc());
    for q in 0..100 {
        lasts.push(10 * q + 9)?;
    }
    assert!(rt; is_sequence(&lasts, Format::Two) && lasts.len() == 100);
    for &(from, x, part, most) in &GALLOPS {
        assert!(rt; from <= 100);
        let (found, asked) = galloped::<Brand>(Blank::new(1), &lasts, from, x);
        assert_eq!(rt; found, part, "for {x} from {from}");
        assert!(rt; asked <= most, "{asked} for {x} from {from}");
    }
    Ok(())
}
