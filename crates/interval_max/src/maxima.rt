ghost use Rattle.std.specs.Prelude.{◌≡◌, ℕ, ◌+◌, ◌*◌, ◌≤◌, ◌<◌, ◌^◌, false, length, slice_index};
ghost use Rattle.interval_max.specs.Bytes.{byte_at, byte_in};

use crate::bytes::{raise_by_each, raise_by_pairs};

/// Of a posting list, for each interval of 32 neighbouring documents, a bound of its frequencies
/// there, lent: the greatest, rounded up to whole steps, so that it is one byte. Or none of a list
/// of which nothing is known.
///
/// The bytes are those of each interval, or pairs: how many intervals without documents lie between
/// the one before and this, and its byte.
#[derive(Clone, Copy)]
pub struct Bounds<'a> {
    each: &'a [u8],
    pairs: &'a [u8],
    // Not 0 where they are of a list.
    step: u32,
    // In how many intervals the list has a document: only what pays is told by it.
    intervals: u64,
    ghost small: { step ≤ 16843009 },
    ghost bytes: { (v : ℕ) → byte_at each.now pairs.now v ≤ 255 },
}

impl<'a> Bounds<'a> {
    ghost use Rattle.interval_max.specs.Maxima.{bound_of, are_known};

    /// The bounds of a list of which nothing is known.
    pub fn none() -> Bounds<'a>
        ensures { are_known result ≡ false }
    {
        Bounds {
            each: &[],
            pairs: &[],
            step: 0,
            intervals: 0,
        }
    }

    // The bounds that these bytes are, of each interval or in pairs.
    pub(crate) fn of_bytes(bytes: &'a [u8], is_each: bool, step: u32, intervals: u64) -> Bounds<'a>
        requires { step ≤ 16843009 }
        ensures bound { (v : ℕ) → bound_of result v ≡ byte_in is_each bytes.entry.now v * step }
        ensures step { result.step ≡ step }
    {
        if is_each {
            return Bounds {
                each: bytes,
                pairs: &[],
                step,
                intervals,
            };
        }
        Bounds {
            each: &[],
            pairs: bytes,
            step,
            intervals,
        }
    }

    /// A bound is a number of 32 bits.
    pub fn fit(self)
        ensures { (v : ℕ) → bound_of self.entry v ≤ 4294967295 }
    {}

    /// Whether they are of a list.
    pub fn are_known(self) -> bool
        ensures { result ≡ are_known self.entry }
    {
        0 < self.step
    }

    // In how many intervals the list has a document, about; nothing but what pays is told by it.
    pub(crate) fn intervals(self) -> u64 {
        self.intervals
    }

    /// Adds to the bound of the scores of each interval what the list can give its documents: the
    /// weight times the bound of the list there. Bound v is that of interval v; intervals behind
    /// the last bound are left out.
    pub fn raise(self, weight: u32, scores: &mut [u64])
        requires light { weight < 2 ^ 26 }
        requires room { (v : ℕ) → v < length scores.old
            → slice_index scores.old v + weight * bound_of self v < 2 ^ 64 }
        ensures count { length scores.new ≡ length scores.old }
        ensures raised { (v : ℕ) → v < length scores.old → slice_index scores.new v
            ≡ slice_index scores.old v + weight * bound_of self.entry v }
    {
        let times = u64::from(weight) * u64::from(self.step);
        raise_by_each(self.each, times, scores);
        raise_by_pairs(self.pairs, times, scores);
    }
}
