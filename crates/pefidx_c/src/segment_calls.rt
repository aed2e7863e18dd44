ghost use Rattle.std.specs.Prelude.{◌≡◌, ◌≢◌, ℕ, ◌≤◌, ◌<◌, List, length, map, Some, None, IfOk};
ghost use Rattle.command_model.specs.Replies.{IsReply};
ghost use Rattle.index_intervals.specs.LongLists.{AreIndexMaxima};
ghost use Rattle.index_reading.specs.JoinedSegments as read;
ghost use Rattle.pefidx_c.specs.Asked.{last_plan, lists_of, top_refusal};
ghost use Rattle.pefidx_c.specs.Kept.{AreMaxima};
ghost use Rattle.pefidx_c.specs.Rooms.{pair_of, put_in, given_in};
ghost use Rattle.pefidx_c.specs.Segments.{AreKeptOfEach, AreSegments, joined_in};
ghost use Rattle.pefidx_c.specs.StatusNumber.{number_of};
ghost use Rattle.pefidx_c.specs.declared.status.Status.{Status as EndOf};
ghost use Rattle.scan_plans.specs.IsTop.{IsTop};
ghost use Rattle.segments.specs.Joined.{joined_wide};

use crate::joined_indexes::joined_alike;
use crate::ranking::{
    LAST_PLAN, Scored, WeightedTerms, best_of, give_best, plan_of, takes_maxima, top_refusal,
};
use crate::replying::give_reply;
use crate::room::give;
use crate::segment::Segment;
use crate::status::Status;
use index_intervals::IndexMaxima;
use index_reading::JoinedIndexes;
use interval_max::MaximaView;
use line_replies::{JoinedIntervals, JoinedLists, LineCursors};
use no_memory::NoMemory;
use std::alloc::Global;

/// What `pefidx_maxima` gives, of the collection that segments are joined to. The maxima are kept
/// beside the words of all of them.
#[unsafe(no_mangle)]
pub extern "C" fn pefidx_maxima_segments(
    alloc: Global,
    words: &[u64],
    segments: &[Segment],
    kept: &[u64],
    maxima: &mut [u8],
    count: &mut usize,
) -> u32
    requires segments { AreSegments words.now segments.now }
    requires kept { AreKeptOfEach words.now segments.now kept.now }
    ensures no_memory { result ≡ number_of Status.NoMemory
        → (maxima.new ≡ maxima.old) × (count.new ≡ count.old) }
    ensures given { result ≢ number_of Status.NoMemory
        → (made : List ℕ)
        × AreIndexMaxima (length words.now) (joined_in words.now segments.now) made
        × (result ≡ number_of (given_in (length maxima.old) (length made)))
        × (maxima.new ≡ put_in maxima.old made) × (count.new ≡ length made) }
{
    match maxima_of(alloc, words, segments, kept) {
        Ok(made) => give(made.bytes(), maxima, count),
        Err(_) => Status::NoMemory.number(),
    }
}

/// What `pefidx_top` gives, from the collection that segments are joined to.
#[unsafe(no_mangle)]
pub extern "C" fn pefidx_top_segments(
    alloc: Global,
    words: &[u64],
    segments: &[Segment],
    kept: &[u64],
    maxima: &[u8],
    plan: u32,
    terms: &[u32],
    weights: &[u32],
    k: u32,
    best: &mut [Scored],
    count: &mut usize,
) -> u32
    requires segments { AreSegments words.now segments.now }
    requires kept { AreKeptOfEach words.now segments.now kept.now }
    requires maxima { AreMaxima (length words.now) (joined_in words.now segments.now) maxima.now }
    ensures no_memory { result ≡ number_of Status.NoMemory
        → (best.new ≡ best.old) × (count.new ≡ count.old) }
    ensures refused { (status : EndOf) → result ≢ number_of Status.NoMemory
        → top_refusal (joined_in words.now segments.now) plan terms.now weights.now ≡ Some status
        → (result ≡ number_of status) × (best.new ≡ best.old) × (count.new ≡ count.old) }
    ensures given { let c = joined_in words.now segments.now in
        result ≢ number_of Status.NoMemory → top_refusal c plan terms.now weights.now ≡ None
        → (r : List (ℕ × ℕ)) × IsTop c.documents (lists_of c terms.now) weights.now k r
        × (result ≡ number_of (given_in (length best.old) (length r)))
        × (map pair_of best.new ≡ put_in (map pair_of best.old) r) × (count.new ≡ length r) }
{
    let joined = match joined_alike(alloc, words, segments, kept) {
        Ok(joined) => joined,
        Err(_) => return Status::NoMemory.number(),
    };
    let asked = WeightedTerms { terms, weights };
    if let Some(refused) = top_refusal(&joined, plan, asked) {
        return refused.number();
    }
    match best_of_joined(alloc, joined, maxima, words.len() as u64, plan, asked, k) {
        Ok(found) => give_best(found.as_slice(), best, count),
        Err(_) => Status::NoMemory.number(),
    }
}

/// What `pefidx_reply` gives, from the collection that segments are joined to.
#[unsafe(no_mangle)]
pub extern "C" fn pefidx_reply_segments(
    alloc: Global,
    words: &[u64],
    segments: &[Segment],
    kept: &[u64],
    maxima: &[u8],
    plan: u32,
    line: &[u8],
    text: &mut [u8],
    count: &mut usize,
) -> u32
    requires segments { AreSegments words.now segments.now }
    requires kept { AreKeptOfEach words.now segments.now kept.now }
    requires maxima { AreMaxima (length words.now) (joined_in words.now segments.now) maxima.now }
    ensures no_plan { last_plan < plan
        → (result ≡ number_of Status.NoPlan) × (text.new ≡ text.old) × (count.new ≡ count.old) }
    ensures no_memory { result ≡ number_of Status.NoMemory
        → (text.new ≡ text.old) × (count.new ≡ count.old) }
    ensures given { plan ≤ last_plan → result ≢ number_of Status.NoMemory
        → (reply : List ℕ) × IsReply (joined_in words.now segments.now) line.now reply
        × (result ≡ number_of (given_in (length text.old) (length reply)))
        × (text.new ≡ put_in text.old reply) × (count.new ≡ length reply) }
{
    if plan > LAST_PLAN {
        return Status::NoPlan.number();
    }
    let joined = match joined_alike(alloc, words, segments, kept) {
        Ok(joined) => joined,
        Err(_) => return Status::NoMemory.number(),
    };
    let mut cursors = LineCursors::new(alloc);
    if !takes_maxima(plan, maxima) {
        let lists = JoinedLists::over(joined, plan_of(plan));
        return give_reply(&lists, &mut cursors, line, text, count);
    }
    let by_intervals = JoinedIntervals::over(joined, MaximaView::new(maxima), words.len() as u64);
    give_reply(&by_intervals, &mut cursors, line, text, count)
}

// The maxima of the collection that segments are joined to.
fn maxima_of(
    alloc: Global,
    words: &[u64],
    segments: &[Segment],
    kept: &[u64],
) -> Result<IndexMaxima, NoMemory>
    requires segments { AreSegments words.now segments.now }
    requires kept { AreKeptOfEach words.now segments.now kept.now }
    ensures { IfOk result (λ m. AreIndexMaxima (length words.now)
        (joined_in words.now segments.now) m.bytes.items) }
{
    let joined = joined_alike(alloc, words, segments, kept)?;
    joined.stands_for_a_collection();
    IndexMaxima::of_lists(alloc, &joined, words.len() as u64)
}

// The first k documents of joined indexes by a plan, where that by intervals takes maxima; so many
// words pay for these.
fn best_of_joined<'a>(
    alloc: Global,
    joined: JoinedIndexes<'a>,
    maxima: &'a [u8],
    words: u64,
    plan: u32,
    asked: WeightedTerms<'_>,
    k: u32,
) -> Result<Vec<(u32, u64)>, NoMemory>
    requires maxima { AreMaxima words (joined_wide (read.collections_in joined.segments.items))
        maxima.now }
    requires good { top_refusal (joined_wide (read.collections_in joined.segments.items)) plan
        asked.terms.now asked.weights.now ≡ None }
    ensures { let c = joined_wide (read.collections_in joined.entry.segments.items) in
        IfOk result (λ r. IsTop c.documents (lists_of c asked.entry.terms.now)
        asked.entry.weights.now k r.items) }
{
    if !takes_maxima(plan, maxima) {
        let lists = JoinedLists::over(joined, plan_of(plan));
        return best_of(alloc, &lists, asked, k);
    }
    let by_intervals = JoinedIntervals::over(joined, MaximaView::new(maxima), words);
    best_of(alloc, &by_intervals, asked, k)
}
