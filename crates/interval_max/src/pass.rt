ghost use Rattle.std.specs.Prelude.{◌≡◌, ◌≢◌, ℕ, ◌+◌, ◌*◌, ◌≤◌, ◌<◌, true, false, List, map};
ghost use Rattle.std.specs.Prelude.{length, slice_index};
ghost use Rattle.std.specs.List.{All};
ghost use Rattle.collection_model.specs.Collection.{Posting};
ghost use Rattle.scan_plans.specs.IsTop.{Before};
ghost use Rattle.scan_plans.specs.Scan.{HasPassed};
ghost use Rattle.scan_plans.specs.AnyOrder.{IsOutranked};
ghost use Rattle.interval_max.specs.Intervals.{interval_count};
ghost use Rattle.interval_max.specs.Search.{AreSettled, IsQuery, IsReady, IsSearch};

use crate::groups::{GROUP, begins_low};
use crate::run::{Room, Run, least_to_enter, score_run};
use cursor_api::DocCursor;
use scan_plans::{TopK, top_list_grows_in_any_order};

// How many neighbouring intervals are scored at once, at most.
const MOST_AT_ONCE: usize = 32;

// How many low intervals are settled at once, where there are as many.
const AT_ONCE: usize = 16;

// A pass over the intervals.
#[derive(Drop)]
pub(crate) struct Pass {
    // The interval at which it is.
    pub(crate) at: usize,
    // Intervals whose bounds are lower are left for a later pass.
    pub(crate) floor: u64,
    // Over so many others between two that are scored it goes on, since to seek costs more.
    pub(crate) gap: usize,
    // The greatest bounds of groups of intervals at first, by which low ones are passed over.
    pub(crate) groups: Vec<u64>,
    pub(crate) room: Room,
}

// Scores, in order, the intervals whose bounds reach the floor and can hold a document that enters.
// With the floor 0 all intervals are settled. The cursors stand at the start of their lists.
pub(crate) fn score_intervals<C: DocCursor>(
    cursors: &mut [C],
    weights: &[u32],
    bounds: &mut [u64],
    pass: &mut Pass,
    top: &mut TopK,
)
    requires query { IsQuery top.old.n (map C.list cursors.old) weights.now }
    requires start { All (λ c. C.place c ≡ 0) cursors.old }
    requires count { length bounds.old ≡ interval_count top.old.n }
    requires ready { IsReady pass.old.room }
    requires search { IsSearch top.old.n (map C.list cursors.old) weights.now top.old.k bounds.old
        top.old.held }
    ensures ready { IsReady pass.new.room }
    ensures k { top.new.k ≡ top.old.k }
    ensures n { top.new.n ≡ top.old.n }
    ensures search { IsSearch top.old.n (map C.list cursors.old) weights.now top.old.k bounds.new
        top.new.held }
    ensures settled { pass.old.floor ≡ 0 → (v : ℕ) → v < length bounds.old
        → slice_index bounds.new v ≡ 0 }
{
    pass.at = 0;
    while pass.at < bounds.len() {
        pass.at = next_wanted(bounds, &pass.groups, pass.at, pass.floor, top);
        score_next(cursors, weights, bounds, pass, top);
    }
}

// Scores the interval at which a pass is, and some behind it, or settles it without, and goes on
// behind them.
fn score_next<C: DocCursor>(
    cursors: &mut [C],
    weights: &[u32],
    bounds: &mut [u64],
    pass: &mut Pass,
    top: &mut TopK,
)
    requires query { IsQuery top.old.n (map C.list cursors.old) weights.now }
    requires passed { All (λ c. HasPassed (32 * pass.old.at) (C.list c) (C.place c)) cursors.old }
    requires count { length bounds.old ≡ interval_count top.old.n }
    requires within { pass.old.at ≤ length bounds.old }
    requires some { pass.old.at < length bounds.old → slice_index bounds.old pass.old.at ≢ 0 }
    requires ready { IsReady pass.old.room }
    requires search { IsSearch top.old.n (map C.list cursors.old) weights.now top.old.k bounds.old
        top.old.held }
    ensures lists { map C.list cursors.new ≡ map C.list cursors.old }
    ensures passed { All (λ c. HasPassed (32 * pass.new.at) (C.list c) (C.place c)) cursors.new }
    ensures order { pass.old.at ≤ pass.new.at }
    ensures later { pass.old.at < length bounds.old → pass.old.at < pass.new.at }
    ensures within { pass.new.at ≤ length bounds.old }
    ensures floor { pass.new.floor ≡ pass.old.floor }
    ensures ready { IsReady pass.new.room }
    ensures k { top.new.k ≡ top.old.k }
    ensures n { top.new.n ≡ top.old.n }
    ensures search { IsSearch top.old.n (map C.list cursors.old) weights.now top.old.k bounds.new
        top.new.held }
    ensures settled { AreSettled pass.old.at pass.new.at bounds.old bounds.new }
{
    top_list_grows_in_any_order();
    let v = pass.at;
    if v == bounds.len() {
        return;
    }
    let first = 32 * v as u32;
    let enters = can_enter(top, bounds[v], first);
    if enters {
        let wanted = least_to_enter(top).max(pass.floor);
        let end = run_end(bounds, v, wanted, pass.gap);
        let count = 32 * (end - v);
        score_run(cursors, weights, Run { first, count }, &mut pass.room, top);
        settle(bounds, v, end);
        pass.at = end;
        return;
    }
    settle(bounds, v, v + 1);
    pass.at = v + 1;
}

// The first interval from v on that can hold a document that enters, as far as its bound tells, and
// whose bound reaches the floor, or the end. With the floor 0 those before it are settled.
fn next_wanted(bounds: &mut [u64], groups: &[u64], v: usize, floor: u64, top: &TopK) -> usize
    requires within { v ≤ length bounds.old }
    ensures order { v ≤ result }
    ensures within { result ≤ length bounds.old }
    ensures some { result < length bounds.old → slice_index bounds.new result ≢ 0 }
    ensures settled { floor ≡ 0 → AreSettled v result bounds.old bounds.new }
    ensures before { (j : ℕ) → j < v → slice_index bounds.new j ≡ slice_index bounds.old j }
    ensures search { (lists : List (List Posting)) (weights : List ℕ)
        → IsSearch top.now.n lists weights top.now.k bounds.old top.now.held
        → IsSearch top.now.n lists weights top.now.k bounds.new top.now.held }
{
    top_list_grows_in_any_order();
    let least = least_to_enter(top);
    if floor > 0 {
        return next_reaching(bounds, groups, v, floor.max(least));
    }
    settle_below(bounds, v, least)
}

// The first interval from v on whose bound is at least `least`, or the end.
fn next_reaching(bounds: &[u64], groups: &[u64], v: usize, least: u64) -> usize
    requires within { v ≤ length bounds.now }
    ensures order { v ≤ result }
    ensures within { result ≤ length bounds.now }
    ensures reached { result < length bounds.now → least ≤ slice_index bounds.now result }
{
    let mut at = v;
    while at < bounds.len() && bounds[at] < least {
        if begins_low(groups, at, least) {
            at = bounds.len().min(at + GROUP);
        } else {
            at += 1;
        }
    }
    at
}

// The same, and the intervals before it are settled.
fn settle_below(bounds: &mut [u64], v: usize, least: u64) -> usize
    requires within { v ≤ length bounds.old }
    ensures order { v ≤ result }
    ensures within { result ≤ length bounds.old }
    ensures reached { result < length bounds.old → least ≤ slice_index bounds.new result }
    ensures low { (j : ℕ) → v ≤ j → j < result → slice_index bounds.old j < least }
    ensures settled { AreSettled v result bounds.old bounds.new }
{
    let mut at = v;
    while at + AT_ONCE <= bounds.len() && are_below(bounds, at, at + AT_ONCE, least) {
        settle(bounds, at, at + AT_ONCE);
        at += AT_ONCE;
    }
    while at < bounds.len() && bounds[at] < least {
        bounds[at] = 0;
        at += 1;
    }
    at
}

// Whether the bounds from one up to another are all less than `least`.
fn are_below(bounds: &[u64], from: usize, to: usize, least: u64) -> bool
    requires within { to ≤ length bounds.now }
    ensures { result ≡ true → (j : ℕ) → from ≤ j → j < to → slice_index bounds.now j < least }
{
    let mut most = 0;
    for j in from..to {
        most = most.max(bounds[j]);
    }
    most < least
}

// Whether a document from `first` on can enter with a score of at most `bound`, as far as that and
// what is held last tell.
fn can_enter(top: &TopK, bound: u64, first: u32) -> bool
    ensures { result ≡ false → (d s : ℕ) → first ≤ d → s ≤ bound
        → IsOutranked top.now.k top.now.held (d, s) }
{
    top_list_grows_in_any_order();
    match top.last() {
        Some((doc, least)) => !comes_first(doc, least, bound, first),
        None => true,
    }
}

// Whether a document with this score stands before every one from `first` on with a score of at
// most `bound`.
fn comes_first(doc: u32, score: u64, bound: u64, first: u32) -> bool
    ensures { result ≡ true → (d s : ℕ) → first ≤ d → s ≤ bound → Before (doc, score) (d, s) }
{
    bound < score || bound == score && doc < first
}

// The end of a run of intervals from v on whose bounds are not 0: behind the last one whose bound
// is at least `least`, with no more than `gap` others between two of them.
fn run_end(bounds: &[u64], v: usize, least: u64, gap: usize) -> usize
    requires within { v < length bounds.now }
    requires some { slice_index bounds.now v ≢ 0 }
    ensures later { v < result }
    ensures within { result ≤ length bounds.now }
    ensures short { result ≤ v + 32 }
    ensures some { (j : ℕ) → v ≤ j → j < result → slice_index bounds.now j ≢ 0 }
{
    let most = bounds.len().min(v + MOST_AT_ONCE);
    let mut end = v + 1;
    let mut at = end;
    while at < most && at - end <= gap && bounds[at] > 0 {
        at += 1;
        if bounds[at - 1] >= least {
            end = at;
        }
    }
    end
}

// Settles the intervals from one up to another.
fn settle(bounds: &mut [u64], from: usize, to: usize)
    requires order { from ≤ to }
    requires within { to ≤ length bounds.old }
    ensures { AreSettled from to bounds.old bounds.new }
{
    for j in from..to {
        bounds[j] = 0;
    }
}
