ghost use Rattle.std.specs.Prelude.{◌≡◌, ℕ, ◌≤◌, ◌<◌, ◌+◌, ◌-◌, ◌*◌, false, List, length, slice_index, IsTrue};
ghost use Rattle.std.specs.List.Sorted.{IsStrictlyIncreasing};
ghost use Rattle.part_cost.specs.Payload.{digits};
ghost use Rattle.sequence_words.specs.SequenceView.{place_at_least};
ghost use Rattle.part_directory.specs.Search.{IsBehind};

use std::sync::ledger::Ledger;
use step_count::Steps;

/// The last values of parts, each learned by a call that counts one step.
pub trait Lasts {
    ghost lasts: { Self → List ℕ };

    /// How many parts there are.
    fn parts(&self) -> u32
        ensures { result ≡ length (lasts self.now) };

    /// The last value of part q. It counts one step.
    fn last<L: Ledger>(&self, q: u32, probes: &mut Steps<L>) -> u64
        requires { q < length (lasts self.now) }
        ensures value { result ≡ slice_index (lasts self.now) q }
        ensures step { probes.new ≡ probes.old + 1 };

    /// The last values rise strictly.
    ghost rising: { (d : Self) → IsStrictlyIncreasing (lasts d) };
}

// Whether the last value of a part is less than x. There is none behind the last part.
fn falls_short<D: Lasts, L: Ledger>(d: &D, q: u32, x: u64, probes: &mut Steps<L>) -> bool
    requires { q ≤ length (D.lasts d.now) }
    ensures short { IsTrue result → (q < length (D.lasts d.now))
        × (slice_index (D.lasts d.now) q < x) }
    ensures reached { result ≡ false → q < length (D.lasts d.now)
        → x ≤ slice_index (D.lasts d.now) q }
    ensures counted { probes.old ≤ probes.new }
    ensures bounded { probes.new ≤ probes.old + 1 }
{
    q < d.parts() && d.last(q, probes) < x
}

// The half of some parts in which lies the first whose last value is at least x, where the part
// behind them is such a part or the end.
fn half<D: Lasts, L: Ledger>(
    d: &D,
    low: u32,
    high: u32,
    x: u64,
    probes: &mut Steps<L>,
) -> (u32, u32)
    requires some { low < high }
    requires behind { IsBehind (D.lasts d.now) x high }
    ensures after { low ≤ result.0 }
    ensures up { result.0 ≤ result.1 }
    ensures within { result.1 ≤ high }
    ensures halved { (result.1 - result.0) * 2 ≤ high - low }
    ensures before { low < result.0 → slice_index (D.lasts d.now) (result.0 - 1) < x }
    ensures behind { IsBehind (D.lasts d.now) x result.1 }
    ensures counted { probes.old ≤ probes.new }
    ensures bounded { probes.new ≤ probes.old + 1 }
{
    let middle = low + (high - low) / 2;
    if falls_short(d, middle, x, probes) {
        (middle + 1, high)
    } else {
        (low, middle)
    }
}

// The first part from one up to another whose last value is at least x, where the other is such a
// part or the end.
fn halve<D: Lasts, L: Ledger>(d: &D, from: u32, to: u32, x: u64, probes: &mut Steps<L>) -> u32
    requires up { from ≤ to }
    requires within { to ≤ length (D.lasts d.now) }
    requires reached { to < length (D.lasts d.now) → x ≤ slice_index (D.lasts d.now) to }
    ensures after { from ≤ result }
    ensures within { result ≤ to }
    ensures before { from < result → slice_index (D.lasts d.now) (result - 1) < x }
    ensures reached { result < length (D.lasts d.now) → x ≤ slice_index (D.lasts d.now) result }
    ensures counted { probes.old ≤ probes.new }
    ensures bounded { probes.new ≤ probes.old + digits (to - from) }
{
    let mut low = from;
    let mut high = to;
    while low < high {
        (low, high) = half(d, low, high, x, probes);
    }
    low
}

/// The first part at or after one whose last value is at least x, or how many parts there are where
/// there is none. Parts at distances that double are probed, and then those between the last two by
/// halving, so that a near part takes few probes.
pub fn gallop<D: Lasts, L: Ledger>(d: &D, from: u32, x: u64, probes: &mut Steps<L>) -> u32
    requires { from ≤ length (D.lasts d.now) }
    ensures first { result ≡ place_at_least (D.lasts d.now) from x }
    ensures counted { probes.old ≤ probes.new }
    ensures bounded { probes.new ≤ probes.old + 2 * digits (result - from + 1) }
{
    let count = d.parts();
    let mut low = from;
    let mut high = from;
    while falls_short(d, high, x, probes) {
        low = high + 1;
        high = low + (high - from).min(count - low);
    }
    halve(d, low, high, x, probes)
}
