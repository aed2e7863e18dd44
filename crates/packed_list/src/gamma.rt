ghost use Rattle.std.specs.Prelude.{◌≡◌, ℕ, ◌+◌, ◌*◌, ◌^◌, ◌<◌, ◌≤◌, ◌++◌, length, OnOk, OnErr, IfSome, IfNone};
ghost use Rattle.bit_words.specs.Bits.{bits_of, field_bits, AppendsBits};
ghost use Rattle.packed_list.specs.Gamma.{gamma, gamma_length, IsGammaBefore, AreGammasBefore};
ghost use Rattle.packed_list.specs.GammaLaws.{GammaTakes, OneGamma, GammaReadsBack};

use bit_words::{BitWriter, Bits};
use no_memory::NoMemory;
use packed_sequence::window_from;
use part_cost::digits;

/// Appends the gamma code of a number. A refusal leaves a prefix of it.
pub fn put_gamma(n: u64, to: &mut BitWriter) -> Result<(), NoMemory>
    requires some { 1 ≤ n }
    requires room { length to.old + gamma_length n < 2 ^ 63 }
    ensures ok { OnOk result (to.new ≡ to.old ++ gamma n) }
    ensures err { OnErr result (AppendsBits to.old to.new (gamma n)) }
{
    let behind = digits(n) - 1;
    to.put_one_after(behind as u64)?;
    to.put(n - (1 << behind), behind)
}

// The digits of the numbers that are read.
const MOST_DIGITS: u64 = 32;

/// A number that was read, and the place behind its gamma code.
#[derive(Clone, Copy)]
pub struct GammaRead {
    pub number: u32,
    pub behind: u64,
}

/// The number below 2^32 whose gamma code stands at a place of the bits and ends at another or
/// before; None exactly where none does.
pub fn gamma_before(bits: Bits<'_>, at: u64, end: u64) -> Option<GammaRead>
    requires ordered { at ≤ end }
    requires range { end ≤ 64 * length bits.words.now }
    ensures some { IfSome result (λ read. IsGammaBefore (bits_of bits.entry.words.now) at end
        read.number) }
    ensures behind { IfSome result (λ read. read.behind ≡ at + gamma_length read.number) }
    ensures none { IfNone result ((n : ℕ) → ¬ IsGammaBefore (bits_of bits.entry.words.now) at end
        n) }
{
    // More zeros before the first one than that are of a greater number.
    let Some(one) = bits.next_one(at, at + (end - at).min(MOST_DIGITS)) else {
        return None;
    };
    let rest = one - at;
    if end - one <= rest {
        return None;
    }
    let number = (1 << rest) + bits.get(one + 1, rest as u32);
    Some(GammaRead {
        number: number as u32,
        behind: one + 1 + rest,
    })
}

// The number whose gamma code stands in the lowest 31 bits of a word, and how many it takes; None
// exactly where none does.
#[inline(always)]
fn lowest_gamma(word: u64) -> Option<GammaRead>
    ensures some { IfSome result (λ read. IsGammaBefore (field_bits 64 word) 0 31 read.number) }
    ensures behind { IfSome result (λ read. read.behind ≡ gamma_length read.number) }
    ensures none { IfNone result ((n : ℕ) → ¬ IsGammaBefore (field_bits 64 word) 0 31 n) }
{
    let zeros = word.trailing_zeros();
    if 16 <= zeros {
        return None;
    }
    let highest = 1 << zeros;
    let number = highest + ((word >> (zeros + 1)) & (highest - 1));
    Some(GammaRead {
        number: number as u32,
        behind: 2 * u64::from(zeros) + 1,
    })
}

// Two numbers that were read, and the place behind their gamma codes.
#[derive(Clone, Copy)]
pub(crate) struct GammasRead {
    pub(crate) first: u32,
    pub(crate) second: u32,
    pub(crate) behind: u64,
}

// The two numbers whose gamma codes stand one behind the other and end at a place or before, where
// they are read off the next 64 bits.
#[inline(always)]
fn near_gammas(bits: Bits<'_>, at: u64, end: u64) -> Option<GammasRead>
    requires ordered { at < end }
    requires range { end ≤ 64 * length bits.words.now }
    ensures numbers { IfSome result (λ read. AreGammasBefore (bits_of bits.entry.words.now) at end
        read.first read.second) }
    ensures behind { IfSome result (λ read. read.behind ≡ at + gamma_length read.first
        + gamma_length read.second) }
{
    let window = window_from(bits, at);
    let Some(first) = lowest_gamma(window) else {
        return None;
    };
    let Some(second) = lowest_gamma(window >> first.behind) else {
        return None;
    };
    let taken = first.behind + second.behind;
    if end - at < taken {
        return None;
    }
    Some(GammasRead {
        first: first.number,
        second: second.number,
        behind: at + taken,
    })
}

// The two numbers whose gamma codes stand one behind the other and end at a place or before, each
// read for itself; None exactly where none do.
#[inline(never)]
fn far_gammas(bits: Bits<'_>, at: u64, end: u64) -> Option<GammasRead>
    requires ordered { at < end }
    requires range { end ≤ 64 * length bits.words.now }
    ensures numbers { IfSome result (λ read. AreGammasBefore (bits_of bits.entry.words.now) at end
        read.first read.second) }
    ensures behind { IfSome result (λ read. read.behind ≡ at + gamma_length read.first
        + gamma_length read.second) }
    ensures none { IfNone result ((n m : ℕ)
        → ¬ AreGammasBefore (bits_of bits.entry.words.now) at end n m) }
{
    let Some(first) = gamma_before(bits, at, end) else {
        return None;
    };
    let Some(second) = gamma_before(bits, first.behind, end) else {
        return None;
    };
    Some(GammasRead {
        first: first.number,
        second: second.number,
        behind: second.behind,
    })
}

// The two numbers whose gamma codes stand one behind the other and end at a place or before; None
// exactly where none do.
#[inline(always)]
pub(crate) fn gammas_before(bits: Bits<'_>, at: u64, end: u64) -> Option<GammasRead>
    requires ordered { at < end }
    requires range { end ≤ 64 * length bits.words.now }
    ensures numbers { IfSome result (λ read. AreGammasBefore (bits_of bits.entry.words.now) at end
        read.first read.second) }
    ensures behind { IfSome result (λ read. read.behind ≡ at + gamma_length read.first
        + gamma_length read.second) }
    ensures none { IfNone result ((n m : ℕ)
        → ¬ AreGammasBefore (bits_of bits.entry.words.now) at end n m) }
{
    match near_gammas(bits, at, end) {
        Some(near) => Some(near),
        None => far_gammas(bits, at, end),
    }
}

// The two numbers whose gamma codes stand one behind the other.
#[inline(always)]
pub(crate) fn two_gammas(bits: Bits<'_>, at: u64, end: u64) -> GammasRead
    requires range { end ≤ 64 * length bits.words.now }
    requires stand { (n m : ℕ) × AreGammasBefore (bits_of bits.words.now) at end n m }
    ensures numbers { AreGammasBefore (bits_of bits.entry.words.now) at end result.first
        result.second }
    ensures behind { result.behind ≡ at + gamma_length result.first + gamma_length result.second }
{
    if let Some(near) = near_gammas(bits, at, end) {
        return near;
    }
    let Some(far) = far_gammas(bits, at, end) else {
        unreachable!()
    };
    far
}

/// The bits of a gamma code are so many, bits begin with one gamma code only, and it is read back
/// where it stands.
pub fn gamma_codes()
    ensures takes { GammaTakes }
    ensures one { OneGamma }
    ensures back { GammaReadsBack }
{}
