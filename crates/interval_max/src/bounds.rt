ghost use Rattle.std.specs.Prelude.{◌≡◌, ℕ, ◌+◌, ◌*◌, ◌≤◌, ◌<◌, ◌^◌, ◌==◌, cond, map, length};
ghost use Rattle.std.specs.Prelude.{slice_index, sum, AllPairs, IfOk, OnOk};
ghost use Rattle.std.specs.List.{All};
ghost use Rattle.scan_plans.specs.Matches.{score};
ghost use Rattle.interval_max.specs.Intervals.{interval_count, interval_of};
ghost use Rattle.interval_max.specs.Peaks.{peak_at};
ghost use Rattle.interval_max.specs.Bounded.{AreBoundsOf, IsBoundOf, IsRaised};
ghost use Rattle.interval_max.specs.Search.{IsQuery};

use crate::maxima::Bounds;
use crate::peaks::{INTERVAL, Peak, take_peaks};
use crate::zeros::zeros;
use cursor_api::DocCursor;
use no_memory::NoMemory;
use std::alloc::Global;

// For each interval a bound of the scores of its documents. The lists of which no bounds are known
// are read by the cursors.
pub(crate) fn score_bounds<C: DocCursor>(
    alloc: Global,
    maxima: &[Bounds<'_>],
    cursors: &mut [C],
    weights: &[u32],
    n: u32,
) -> Result<Vec<u64>, NoMemory>
    requires query { IsQuery n (map C.list cursors.old) weights.now }
    requires start { All (λ c. C.place c ≡ 0) cursors.old }
    requires maxima { AreBoundsOf (map C.list cursors.old) maxima.now }
    ensures count { IfOk result (λ b. length b.items ≡ interval_count n) }
    ensures bound { IfOk result (λ b. (d : ℕ) → d < n
        → score (map C.list cursors.old) weights.now d ≤ slice_index b.items (interval_of d)) }
{
    let mut bounds = zeros(alloc, (n / INTERVAL) as usize + 1)?;
    let mut peaks = Vec::new(alloc);
    raise_by_lists(maxima, cursors, weights, &mut peaks, bounds.as_mut_slice())?;
    Ok(bounds)
}

// Adds what each list gives the documents of each interval, at most, to bounds that are 0.
fn raise_by_lists<C: DocCursor>(
    maxima: &[Bounds<'_>],
    cursors: &mut [C],
    weights: &[u32],
    peaks: &mut Vec<Peak>,
    bounds: &mut [u64],
) -> Result<(), NoMemory>
    requires each { length weights.now ≡ length cursors.old }
    requires light { sum weights.now < 2 ^ 26 }
    requires start { All (λ c. C.place c ≡ 0) cursors.old }
    requires maxima { AreBoundsOf (map C.list cursors.old) maxima.now }
    requires clear { All (λ b. b ≡ 0) bounds.old }
    ensures count { length bounds.new ≡ length bounds.old }
    ensures bound { OnOk result ((d : ℕ) → interval_of d < length bounds.old
        → score (map C.list cursors.old) weights.now d ≤ slice_index bounds.new (interval_of d)) }
{
    for i in 0..cursors.len() {
        let cursor = &mut cursors[i];
        raise_by_list(maxima[i], cursor, weights[i], peaks, bounds)?;
    }
    Ok(())
}

// Adds what a list gives the documents of each interval, at most.
fn raise_by_list<C: DocCursor>(
    maxima: Bounds<'_>,
    cursor: &mut C,
    weight: u32,
    peaks: &mut Vec<Peak>,
    bounds: &mut [u64],
) -> Result<(), NoMemory>
    requires start { C.place cursor.old ≡ 0 }
    requires maxima { IsBoundOf (C.list cursor.old) maxima }
    requires light { weight < 2 ^ 26 }
    requires room { (v : ℕ) → v < length bounds.old
        → slice_index bounds.old v + weight * 4294967295 < 2 ^ 64 }
    ensures list { C.list cursor.new ≡ C.list cursor.old }
    ensures count { length bounds.new ≡ length bounds.old }
    ensures raised { OnOk result (IsRaised (C.list cursor.old) weight bounds.old bounds.new) }
{
    if maxima.are_known() {
        maxima.raise(weight, bounds);
        return Ok(());
    }
    take_peaks(cursor, peaks)?;
    raise_by_peaks(peaks, weight, bounds);
    Ok(())
}

// Adds so many times the peak of each interval.
fn raise_by_peaks(peaks: &[Peak], weight: u32, bounds: &mut [u64])
    requires rising { AllPairs (λ a b. a.interval < b.interval) peaks.now }
    requires small { All (λ p. p.greatest ≤ 4294967295) peaks.now }
    requires room { (v : ℕ) → v < length bounds.old
        → slice_index bounds.old v + weight * 4294967295 < 2 ^ 64 }
    ensures count { length bounds.new ≡ length bounds.old }
    ensures raised { (v : ℕ) → v < length bounds.old → slice_index bounds.new v
        ≡ slice_index bounds.old v + weight * peak_at peaks.now v }
{
    for peak in peaks {
        raise_peak(bounds, *peak, weight);
    }
}

// Adds so many times a peak to the bound of its interval, where there is one.
fn raise_peak(bounds: &mut [u64], peak: Peak, weight: u32)
    requires room { peak.interval < length bounds.old
        → slice_index bounds.old peak.interval + weight * peak.greatest < 2 ^ 64 }
    ensures count { length bounds.new ≡ length bounds.old }
    ensures raised { (v : ℕ) → v < length bounds.old → slice_index bounds.new v
        ≡ slice_index bounds.old v + cond (peak.interval == v) (weight * peak.greatest) 0 }
{
    let at = peak.interval as usize;
    if at < bounds.len() {
        bounds[at] += u64::from(weight) * u64::from(peak.greatest);
    }
}
