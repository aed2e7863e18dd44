ghost use Rattle.std.specs.Prelude.{◌≡◌, ℕ, ◌+◌, ◌*◌, ◌/◌, ◌≤◌, ◌<◌, ◌^◌, ◌==◌, cond, AllPairs, [], ◌∷◌};
ghost use Rattle.std.specs.Prelude.{◌++◌, length, take, slice_index, IfOk, OnOk};
ghost use Rattle.std.specs.Int.{div_ceil};
ghost use Rattle.std.specs.List.{All};
ghost use Rattle.interval_max.specs.Bytes.{ArePairs, byte_in, paired_byte, pairs_in, reach};
ghost use Rattle.interval_max.specs.Peaks.{peak_at};

use crate::peaks::Peak;
use no_memory::NoMemory;

// The farthest that a pair can lie behind the one before.
const FARTHEST: usize = 255;

// Puts the bytes of a list with these peaks in the place of those that are lent for it: so many
// steps reach the peak of each interval. Where it has peaks in fewer than half of `count`
// intervals, the last of which is not before any peak, they are pairs, else those of each interval;
// it tells which.
pub(crate) fn put_bytes(
    peaks: &[Peak],
    step: u32,
    count: usize,
    bytes: &mut Vec<u8>,
) -> Result<bool, NoMemory>
    requires some { 1 ≤ step }
    requires within { All (λ p. p.interval < count) peaks.now }
    requires bytes { All (λ p. div_ceil p.greatest step ≤ 255) peaks.now }
    requires rising { AllPairs (λ a b. a.interval < b.interval) peaks.now }
    ensures { IfOk result (λ is_each. (v : ℕ) → byte_in is_each bytes.new.items v
        ≡ div_ceil (peak_at peaks.now v) step) }
{
    let is_each = peaks.len() >= count / 2;
    if is_each {
        put_each(peaks, step, count, bytes)?;
    } else {
        put_pairs(peaks, step, bytes)?;
    }
    Ok(is_each)
}

// How many steps reach a frequency.
fn steps_to(freq: u32, step: u32) -> u8
    requires some { 1 ≤ step }
    requires few { div_ceil freq step ≤ 255 }
    ensures { result ≡ div_ceil freq step }
{
    if step == 1 {
        freq as u8
    } else {
        freq.div_ceil(step) as u8
    }
}

// A byte for each of `count` intervals: how many steps reach the peak there, 0 where there is none.
fn put_each(peaks: &[Peak], step: u32, count: usize, bytes: &mut Vec<u8>) -> Result<(), NoMemory>
    requires some { 1 ≤ step }
    requires within { All (λ p. p.interval < count) peaks.now }
    requires bytes { All (λ p. div_ceil p.greatest step ≤ 255) peaks.now }
    requires rising { AllPairs (λ a b. a.interval < b.interval) peaks.now }
    ensures { OnOk result ((v : ℕ) → slice_index bytes.new.items v
        ≡ div_ceil (peak_at peaks.now v) step) }
{
    bytes.clear();
    bytes.resize(count, 0)?;
    for peak in peaks {
        bytes[peak.interval as usize] = steps_to(peak.greatest, step);
    }
    Ok(())
}

// The same bytes in pairs, one for each peak, and more where peaks lie far apart.
fn put_pairs(peaks: &[Peak], step: u32, bytes: &mut Vec<u8>) -> Result<(), NoMemory>
    requires some { 1 ≤ step }
    requires bytes { All (λ p. div_ceil p.greatest step ≤ 255) peaks.now }
    requires rising { AllPairs (λ a b. a.interval < b.interval) peaks.now }
    ensures { OnOk result ((v : ℕ) → paired_byte 0 (pairs_in bytes.new.items) v
        ≡ div_ceil (peak_at peaks.now v) step) }
{
    let mut pairs = 0;
    let mut behind = 0;
    for peak in peaks {
        let interval = peak.interval as usize;
        pairs += (interval - behind) / (FARTHEST + 1) + 1;
        behind = interval + 1;
    }
    bytes.clear();
    bytes.resize(2 * pairs, 0)?;
    let mut at = 0;
    let mut next = 0;
    for peak in peaks {
        let interval = peak.interval as usize;
        let byte = steps_to(peak.greatest, step);
        at = put_pair(bytes.as_mut_slice(), at, interval - next, byte);
        next = interval + 1;
    }
    Ok(())
}

// Puts a byte behind so many intervals more, with pairs without a byte where they are too many for
// one, at a place behind other pairs. It tells the place behind them.
fn put_pair(bytes: &mut [u8], from: usize, far: usize, byte: u8) -> usize
    requires pairs { ArePairs (take from bytes.old) }
    requires room { from + 2 * (far / 256 + 1) ≤ length bytes.old }
    ensures count { length bytes.new ≡ length bytes.old }
    ensures behind { result ≡ from + 2 * (far / 256 + 1) }
    ensures pairs { ArePairs (take result bytes.new) }
    ensures reach { reach (pairs_in (take result bytes.new))
        ≡ reach (pairs_in (take from bytes.old)) + far + 1 }
    ensures byte { (v : ℕ) → paired_byte 0 (pairs_in (take result bytes.new)) v
        ≡ paired_byte 0 (pairs_in (take from bytes.old)) v
        + cond (reach (pairs_in (take from bytes.old)) + far == v) byte 0 }
{
    let mut at = from;
    let mut left = far;
    while left > FARTHEST {
        put_two(bytes, at, FARTHEST as u8, 0);
        at += 2;
        left -= FARTHEST + 1;
    }
    put_two(bytes, at, left as u8, byte);
    at + 2
}

// Puts two bytes at a place.
fn put_two(bytes: &mut [u8], at: usize, far: u8, byte: u8)
    requires room { at + 2 ≤ length bytes.old }
    ensures count { length bytes.new ≡ length bytes.old }
    ensures front { take (at + 2) bytes.new ≡ take at bytes.old ++ far ∷ byte ∷ [] }
{
    bytes[at] = far;
    bytes[at + 1] = byte;
}

// Adds to each bound so many times the byte of its interval.
pub(crate) fn raise_by_each(each: &[u8], times: u64, bounds: &mut [u64])
    requires room { (v : ℕ) → v < length bounds.old
        → slice_index bounds.old v + times * slice_index each.now v < 2 ^ 64 }
    ensures count { length bounds.new ≡ length bounds.old }
    ensures raised { (v : ℕ) → v < length bounds.old → slice_index bounds.new v
        ≡ slice_index bounds.old v + times * slice_index each.now v }
{
    if times < 1 << 32 {
        raise_by_few(each, times as u32, bounds);
        return;
    }
    for v in 0..each.len().min(bounds.len()) {
        bounds[v] += times * u64::from(each[v]);
    }
}

// The same, so many times that a product of 32 bits each will do, which is faster.
fn raise_by_few(each: &[u8], times: u32, bounds: &mut [u64])
    requires room { (v : ℕ) → v < length bounds.old
        → slice_index bounds.old v + times * slice_index each.now v < 2 ^ 64 }
    ensures count { length bounds.new ≡ length bounds.old }
    ensures raised { (v : ℕ) → v < length bounds.old → slice_index bounds.new v
        ≡ slice_index bounds.old v + times * slice_index each.now v }
{
    for v in 0..each.len().min(bounds.len()) {
        bounds[v] += u64::from(times) * u64::from(each[v]);
    }
}

// Adds to each bound so many times the byte of its interval in pairs, two of them at a time.
pub(crate) fn raise_by_pairs(bytes: &[u8], times: u64, bounds: &mut [u64])
    requires room { (v : ℕ) → v < length bounds.old
        → slice_index bounds.old v + times * paired_byte 0 (pairs_in bytes.now) v < 2 ^ 64 }
    ensures count { length bounds.new ≡ length bounds.old }
    ensures raised { (v : ℕ) → v < length bounds.old → slice_index bounds.new v
        ≡ slice_index bounds.old v + times * paired_byte 0 (pairs_in bytes.now) v }
{
    let (fours, rest) = bytes.as_chunks::<4>();
    let mut next = 0;
    for four in fours {
        let first = next + usize::from(four[0]);
        let second = first + 1 + usize::from(four[2]);
        if second >= bounds.len() {
            raise_if(bounds, first, times, four[1]);
            return;
        }
        raise_at(bounds, first, times, four[1]);
        raise_at(bounds, second, times, four[3]);
        next = second + 1;
    }
    if rest.len() >= 2 {
        raise_if(bounds, next + usize::from(rest[0]), times, rest[1]);
    }
}

// Adds so many times a byte to the bound of an interval, where there is one.
fn raise_if(bounds: &mut [u64], at: usize, times: u64, byte: u8)
    requires room { at < length bounds.old → slice_index bounds.old at + times * byte < 2 ^ 64 }
    ensures count { length bounds.new ≡ length bounds.old }
    ensures raised { (v : ℕ) → v < length bounds.old → slice_index bounds.new v
        ≡ slice_index bounds.old v + cond (at == v) (times * byte) 0 }
{
    if at < bounds.len() {
        raise_at(bounds, at, times, byte);
    }
}

// Adds so many times a byte to the bound of an interval.
fn raise_at(bounds: &mut [u64], at: usize, times: u64, byte: u8)
    requires within { at < length bounds.old }
    requires room { slice_index bounds.old at + times * byte < 2 ^ 64 }
    ensures count { length bounds.new ≡ length bounds.old }
    ensures raised { (v : ℕ) → v < length bounds.old → slice_index bounds.new v
        ≡ slice_index bounds.old v + cond (at == v) (times * byte) 0 }
{
    bounds[at] += times * u64::from(byte);
}
