ghost use Rattle.std.specs.Prelude.{◌≡◌, ◌<◌, ◌≤◌, ◌^◌, map, length, IfOk};
ghost use Rattle.std.specs.List.{All};
ghost use Rattle.scan_plans.specs.IsTop.{IsTop};
ghost use Rattle.scan_plans.specs.TopQuery.{IsTopQuery};
ghost use Rattle.interval_max.specs.Bounded.{AreAgain, AreBoundsOf};

use crate::bounds::score_bounds;
use crate::groups::{greatest, greatest_of_groups};
use crate::maxima::Bounds;
use crate::pass::{Pass, score_intervals};
use crate::peaks::INTERVAL;
use crate::run::{least_to_enter, new_room};
use cursor_api::DocCursor;
use no_memory::NoMemory;
use scan_plans::{
    TopK, count_postings, most_found, top_exhaustive, top_list_grows, top_list_grows_in_any_order,
    top_list_is_short,
};
use std::alloc::Global;

// Over how many intervals in between a run goes on, at most.
const MOST_GAP: u64 = 16;

// One interval of so many neighbours is looked at to tell how many are wanted.
const SAMPLE: usize = 8;

// What 1 is where parts of 1 are counted.
const UNIT: u64 = 1024;

/// What is asked of some lists: how much each weighs, and the first k of n documents.
#[derive(Clone, Copy)]
pub struct TopQuery<'w> {
    /// The weights of the lists, in their order.
    pub weights: &'w [u32],
    /// How many documents are wanted.
    pub k: u32,
    /// How many there are.
    pub n: u32,
}

/// The first k of the documents that are in any of the lists, by score falling and then document
/// rising, each with its score, as `top_exhaustive` gives them; a score stays below 2^58. `maxima`
/// are the bounds of these lists, or of none for lists of which nothing is known.
///
/// The bounds of all lists are added up for each interval of 32 documents. The intervals with the
/// greatest sums are scored first, and then all others, in the order of documents, whose sums can
/// still give a document that enters. A list is read by three cursors: for its bounds where none
/// are known, and in the two passes. Where that cannot save anything every document is scored.
pub fn top_intervals<C: DocCursor>(
    alloc: Global,
    maxima: &[Bounds<'_>],
    bounding: &mut [C],
    first: &mut [C],
    rest: &mut [C],
    query: TopQuery<'_>,
) -> Result<Vec<(u32, u64)>, NoMemory>
    requires query { IsTopQuery C.list C.place query.n rest.old query.weights.now }
    requires bounding { AreAgain C.list C.place rest.old bounding.old }
    requires first { AreAgain C.list C.place rest.old first.old }
    requires maxima { AreBoundsOf (map C.list rest.old) maxima.now }
    ensures first { IfOk result (λ r. IsTop query.entry.n (map C.list rest.old)
        query.entry.weights.now query.entry.k r.items) }
    ensures bound { IfOk result (λ r. All (λ e. e.1 < 2 ^ 58) r.items) }
{
    let TopQuery { weights, k, n } = query;
    if !intervals_can_save(rest, k, n) || !bounds_can_save(maxima, rest, n) {
        return top_exhaustive(alloc, rest, weights, k, n);
    }
    top_list_is_short();
    let k = most_found(rest, k);
    top_by_bounds(
        alloc,
        maxima,
        bounding,
        first,
        rest,
        TopQuery { weights, k, n },
    )
}

/// Whether bounds in intervals can save anything: there are far more intervals than documents are
/// wanted, and enough postings to pay for adding up bounds.
pub fn intervals_can_save<C: DocCursor>(cursors: &[C], k: u32, n: u32) -> bool {
    let intervals = intervals_of(n);
    8 * u64::from(k) <= intervals && count_postings(cursors) >= intervals / 4
}

/// Whether the bounds of lists of n documents can save anything: most postings are in lists with
/// bounds, and these stand closer together than by chance, or there is one list.
pub fn bounds_can_save<C: DocCursor>(maxima: &[Bounds<'_>], cursors: &[C], n: u32) -> bool
    requires { length maxima.now ≡ length cursors.now }
{
    count_unknown(maxima, cursors) <= count_postings(cursors) / 4
        && (cursors.len() == 1 || stand_close(maxima, cursors, n))
}

// Whether lists have documents in fewer intervals, by a sixteenth at least, than lists as long that
// are drawn: where they have not, most intervals have about the same bound, and none is passed
// over. Lists that would have documents in nearly all intervals tell nothing.
fn stand_close<C: DocCursor>(maxima: &[Bounds<'_>], cursors: &[C], n: u32) -> bool
    requires { length maxima.now ≡ length cursors.now }
{
    let intervals = intervals_of(n);
    let mut found: u64 = 0;
    let mut drawn: u64 = 0;
    for i in 0..cursors.len() {
        let hit = intervals_hit(u64::from(cursors[i].len()), intervals);
        if maxima[i].are_known() && hit < intervals - intervals / 16 {
            found = found.saturating_add(maxima[i].intervals());
            drawn = drawn.saturating_add(hit);
        }
    }
    found <= drawn - drawn / 16
}

// How many of some intervals, about, a list of so many postings has a document in if they are
// drawn: all but a part of e^-x, x postings for each of them. e^x is added up to its fourth power.
fn intervals_hit(postings: u64, intervals: u64) -> u64 {
    let x = (postings.saturating_mul(UNIT) / intervals.max(1)).min(8 * UNIT);
    let mut e = UNIT;
    for i in 0..4 {
        e = UNIT + x.saturating_mul(e) / (UNIT * (4 - i));
    }
    intervals.saturating_sub(intervals.saturating_mul(UNIT) / e.max(1))
}

// How many intervals n documents have, and one more where the last is full.
fn intervals_of(n: u32) -> u64
    ensures { result ≤ 134217728 }
{
    u64::from(n / INTERVAL) + 1
}

// How many postings there are in lists of which no bounds are known, as far as a u64 counts.
fn count_unknown<C: DocCursor>(maxima: &[Bounds<'_>], cursors: &[C]) -> u64
    requires { length maxima.now ≡ length cursors.now }
{
    let mut postings: u64 = 0;
    for i in 0..cursors.len() {
        if !maxima[i].are_known() {
            postings = postings.saturating_add(u64::from(cursors[i].len()));
        }
    }
    postings
}

// The first k documents, with room for as many: k is no more than can be found.
fn top_by_bounds<C: DocCursor>(
    alloc: Global,
    maxima: &[Bounds<'_>],
    bounding: &mut [C],
    first: &mut [C],
    rest: &mut [C],
    query: TopQuery<'_>,
) -> Result<Vec<(u32, u64)>, NoMemory>
    requires query { IsTopQuery C.list C.place query.n rest.old query.weights.now }
    requires bounding { AreAgain C.list C.place rest.old bounding.old }
    requires first { AreAgain C.list C.place rest.old first.old }
    requires maxima { AreBoundsOf (map C.list rest.old) maxima.now }
    ensures first { IfOk result (λ r. IsTop query.entry.n (map C.list rest.old)
        query.entry.weights.now query.entry.k r.items) }
    ensures bound { IfOk result (λ r. All (λ e. e.1 < 2 ^ 58) r.items) }
{
    let TopQuery { weights, k, n } = query;
    if k == 0 {
        return Ok(Vec::new(alloc));
    }
    top_list_grows();
    top_list_grows_in_any_order();
    let mut sums = score_bounds(alloc, maxima, bounding, weights, n)?;
    let groups = greatest_of_groups(alloc, &sums)?;
    let floor = first_floor(alloc, &sums, &groups, k, rest.len())?;
    if k > INTERVAL && are_alike(&sums, &groups, floor) {
        return top_exhaustive(alloc, rest, weights, k, n);
    }
    let mut pass = Pass {
        at: 0,
        floor,
        gap: worthwhile_gap(rest, n),
        groups,
        room: new_room(alloc)?,
    };
    let mut top = TopK::new(alloc, k, n)?;
    let bounds = sums.as_mut_slice();
    score_intervals(first, weights, bounds, &mut pass, &mut top);
    if most_are_wanted(bounds, least_to_enter(&top), 16) {
        return top_exhaustive(alloc, rest, weights, k, n);
    }
    pass.floor = 0;
    score_intervals(rest, weights, bounds, &mut pass, &mut top);
    top.into_list()
}

// Whether the intervals whose bounds are above `least` have all but one of so many parts of what
// all bounds are together, as far as one of each eight tells: about as much of the postings.
fn most_are_wanted(bounds: &[u64], least: u64, parts: u64) -> bool {
    let mut all: u64 = 0;
    let mut wanted: u64 = 0;
    for i in 0..bounds.len() / SAMPLE {
        let bound = bounds[SAMPLE * i];
        all = all.saturating_add(bound);
        if bound > least {
            wanted = wanted.saturating_add(bound);
        }
    }
    wanted > all - all / parts.max(1)
}

// Whether no bounds stand out: none is twice the floor of the intervals that are scored first, and
// most are above a third of it, which is about what their documents reach then.
fn are_alike(bounds: &[u64], groups: &[u64], floor: u64) -> bool {
    greatest(groups) / 2 < floor && most_are_wanted(bounds, floor / 3, 8)
}

// Over how many intervals in between a run goes on: their postings, as many as the mean has, cost
// no more to read than to seek in each list, which takes six times as long as a posting or more.
fn worthwhile_gap<C: DocCursor>(cursors: &[C], n: u32) -> usize
    requires { length cursors.now ≤ 1024 }
{
    let postings = count_postings(cursors).max(1);
    let seeks = 6 * cursors.len() as u64 * intervals_of(n);
    (seeks / postings).min(MOST_GAP) as usize
}

// A floor for the bounds of the intervals that are scored first: so many groups of intervals reach
// it as hold about a quarter of the documents that are wanted, at one in each, and fewer where
// there are many lists.
fn first_floor(
    alloc: Global,
    bounds: &[u64],
    groups: &[u64],
    k: u32,
    lists: usize,
) -> Result<u64, NoMemory> {
    let wanted = 2 + k as usize / (4 + 3 * (lists / 8));
    let mut numbers = Vec::new(alloc);
    if 4 * wanted < groups.len() {
        numbers.extend_from_slice(groups)?;
        return Ok(nth_greatest(numbers.as_mut_slice(), wanted));
    }
    numbers.extend_from_slice(bounds)?;
    Ok(nth_greatest(numbers.as_mut_slice(), 2 * wanted))
}

// The nth greatest of some numbers, from the first on, 0 where there are fewer.
fn nth_greatest(numbers: &mut [u64], nth: usize) -> u64
    requires { 1 ≤ nth }
{
    if numbers.len() < nth {
        return 0;
    }
    let at = numbers.len() - nth;
    let (_, found, _) = numbers.select_nth_unstable(at);
    *found
}
