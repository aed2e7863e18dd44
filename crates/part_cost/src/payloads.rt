ghost use Rattle.std.specs.Prelude.{◌≡◌, ◌-◌, ◌*◌, ◌/◌, ◌≤◌, ◌^◌};
ghost use Rattle.part_cost.specs.Payload.{digits, widest_low, IsBestLowWidth, low_width_of, kind_of, ef_payload, bitmap_payload, payload};

use crate::kinds::Kind;

/// How many numbers lie between two samples of an Elias-Fano part.
pub const EF_SPACING: u64 = 128;

/// How many places lie between two samples of a bitmap part.
pub const BITMAP_SPACING: u64 = 512;

/// The number of binary digits of a number, 0 for 0.
pub fn digits(n: u64) -> u32
    ensures { result ≡ digits n }
{
    u64::BITS - n.leading_zeros()
}

/// The low width of a part of m numbers in universe u: how many low bits of each number an
/// Elias-Fano part stores apart. It is the first l at which the greatest number shifted right by l
/// is at most 2m, so the high bits take at most 3m places.
pub fn low_width(u: u64, m: u64) -> u32
    requires some { 1 ≤ m }
    requires fit { m ≤ u }
    requires in_range { u ≤ 2 ^ widest_low }
    ensures best { IsBestLowWidth u m result }
    ensures value { result ≡ low_width_of u m }
    ensures within { result ≤ widest_low }
    ensures few { (u - 1) / 2 ^ result ≤ 2 * m }
{
    // At the width by which the greatest number has more digits than 2m, the shifted number has as
    // many as 2m: it is that width or the next.
    let greatest = u - 1;
    let most = 2 * m;
    let low = digits(greatest).saturating_sub(digits(most));
    if greatest >> low > most { low + 1 } else { low }
}

// The bits of a part in Elias-Fano form.
fn ef_payload_bits(u: u64, m: u64) -> u64
    requires some { 1 ≤ m }
    requires fit { m ≤ u }
    requires in_range { u ≤ 2 ^ widest_low }
    ensures { result ≡ ef_payload u m }
{
    let low = low_width(u, m);
    let samples = (m - 1) / EF_SPACING * digits(3 * m) as u64;
    m * low as u64 + m + ((u - 1) >> low) + samples
}

// The bits of a part as a bitmap.
fn bitmap_payload_bits(u: u64, m: u64) -> u64
    requires some { 1 ≤ m }
    requires fit { m ≤ u }
    requires in_range { u ≤ 2 ^ widest_low }
    ensures { result ≡ bitmap_payload u m }
{
    u + (u - 1) / BITMAP_SPACING * digits(m) as u64
}

/// The kind of a part of m numbers in universe u: the form that takes the fewest bits, a bitmap at
/// a tie.
pub fn kind(u: u64, m: u64) -> Kind
    requires some { 1 ≤ m }
    requires fit { m ≤ u }
    requires in_range { u ≤ 2 ^ widest_low }
    ensures { result ≡ kind_of u m }
{
    if m == u {
        Kind::Ones
    } else if bitmap_payload_bits(u, m) <= ef_payload_bits(u, m) {
        Kind::Bitmap
    } else {
        Kind::Ef
    }
}

/// The payload of a part of m numbers in universe u, in bits.
pub fn payload_bits(u: u64, m: u64) -> u64
    requires some { 1 ≤ m }
    requires fit { m ≤ u }
    requires in_range { u ≤ 2 ^ widest_low }
    ensures { result ≡ payload u m }
{
    if m == u {
        0
    } else {
        ef_payload_bits(u, m).min(bitmap_payload_bits(u, m))
    }
}
