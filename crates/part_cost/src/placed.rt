ghost use Rattle.std.specs.Prelude.{◌≡◌, ◌≤◌, ◌<◌, ◌*◌, ◌^◌, length};
ghost use Rattle.part_cost.specs.Payload.{widest_low};

use bit_words::Bits;

/// Where a part of m numbers in universe u stands in lent words: the place of its first bit,
/// counted in bits.
#[derive(Clone, Copy)]
pub struct PlacedPart<'a> {
    pub bits: Bits<'a>,
    pub place: u64,
    pub u: u64,
    pub m: u64,
    pub ghost some: { 1 ≤ m },
    pub ghost fit: { m ≤ u },
    pub ghost in_range: { u ≤ 2 ^ widest_low },
    pub ghost few_words: { length bits.words.now < 2 ^ 57 },
    pub ghost placed: { place ≤ 64 * length bits.words.now },
}

impl<'a> PlacedPart<'a> {
    /// A part at a place. Its bits are not looked at.
    pub fn at(bits: Bits<'a>, place: u64, u: u64, m: u64) -> PlacedPart<'a>
        requires some { 1 ≤ m }
        requires fit { m ≤ u }
        requires in_range { u ≤ 2 ^ widest_low }
        requires words { length bits.words.now < 2 ^ 57 }
        requires place { place ≤ 64 * length bits.words.now }
        ensures bits { result.bits.words.now ≡ bits.entry.words.now }
        ensures place { result.place ≡ place }
        ensures u { result.u ≡ u }
        ensures m { result.m ≡ m }
    {
        PlacedPart { bits, place, u, m }
    }
}
