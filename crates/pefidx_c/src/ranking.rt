ghost use Rattle.std.specs.Prelude.{◌≡◌, ◌≢◌, ℕ, ◌≤◌, ◌<◌, ◌^◌, List, [], length, map, sum, nat_lt};
ghost use Rattle.std.specs.Prelude.{Some, None, IfOk, IsTrue};
ghost use Rattle.std.specs.List.{All, list_all};
ghost use Rattle.index_file.specs.FileWords.{IsIndex};
ghost use Rattle.index_file.specs.IndexView.{index_stated, word_count};
ghost use Rattle.pefidx_c.specs.Asked.{collection_in, lists_of, refusal, are_weights, top_refusal};
ghost use Rattle.pefidx_c.specs.Kept.{AreKept, AreMaxima};
ghost use Rattle.pefidx_c.specs.Rooms.{pair_of, put_in, given_in};
ghost use Rattle.pefidx_c.specs.StatusNumber.{number_of};
ghost use Rattle.pefidx_c.specs.declared.status.Status.{Status as EndOf};
ghost use Rattle.scan_plans.specs.IsTop.{IsTop};

use crate::cursors::refusal;
use crate::kept::index_of;
use crate::room::given_in;
use crate::status::Status;
use index_file::Index;
use index_reading::ListSource;
use interval_max::MaximaView;
use line_replies::{IndexLists, IntervalLists, TermLists, cursors_of};
use no_memory::NoMemory;
use std::alloc::Global;
use topk_pruning::Plan;

/// A document with its score.
#[repr(C)]
#[derive(Clone, Copy, Drop)]
pub struct Scored {
    pub doc: u32,
    pub score: u64,
}

// Terms that are asked, and as many weights.
#[derive(Clone, Copy)]
pub(crate) struct WeightedTerms<'a> {
    pub(crate) terms: &'a [u32],
    pub(crate) weights: &'a [u32],
}

// The number of the plan that scores every document, of WAND, and of that by intervals; the other
// is MaxScore, of number 2.
const EXHAUSTIVE: u32 = 0;

const WAND: u32 = 1;

const INTERVALS: u32 = 3;

pub(crate) const LAST_PLAN: u32 = INTERVALS;

/// The first k of the documents that are in the list of any of these terms, by score falling and
/// then document rising, each with its score: the sum over the terms of the weight times the
/// frequency. The plan is 0, that scores every document, 1, WAND, 2, MaxScore, or 3, by intervals,
/// and changes no answer; without maxima the last is MaxScore. The first are given, as many as
/// there is room for, and how many they are.
#[unsafe(no_mangle)]
pub extern "C" fn pefidx_top(
    alloc: Global,
    words: &[u64],
    kept: &[u64],
    maxima: &[u8],
    plan: u32,
    terms: &[u32],
    weights: &[u32],
    k: u32,
    best: &mut [Scored],
    count: &mut usize,
) -> u32
    requires few { length words.now < 2 ^ 57 }
    requires index { IsIndex words.now }
    requires kept { AreKept words.now kept.now }
    requires maxima { AreMaxima (word_count (index_stated words.now)) (collection_in words.now)
        maxima.now }
    ensures refused { (status : EndOf) → top_refusal (collection_in words.now) plan terms.now
        weights.now ≡ Some status
        → (result ≡ number_of status) × (best.new ≡ best.old) × (count.new ≡ count.old) }
    ensures no_memory { result ≡ number_of Status.NoMemory
        → (best.new ≡ best.old) × (count.new ≡ count.old) }
    ensures given { let c = collection_in words.now in
        top_refusal c plan terms.now weights.now ≡ None → result ≢ number_of Status.NoMemory
        → (r : List (ℕ × ℕ)) × IsTop c.documents (lists_of c terms.now) weights.now k r
        × (result ≡ number_of (given_in (length best.old) (length r)))
        × (map pair_of best.new ≡ put_in (map pair_of best.old) r) × (count.new ≡ length r) }
{
    let index = index_of(words, kept);
    let asked = WeightedTerms { terms, weights };
    if let Some(refused) = top_refusal(&index, plan, asked) {
        return refused.number();
    }
    match best_by(alloc, &index, maxima, plan, asked, k) {
        Ok(found) => give_best(found.as_slice(), best, count),
        Err(_) => Status::NoMemory.number(),
    }
}

// How the question for the best documents is refused.
pub(crate) fn top_refusal<S: ListSource>(
    source: &S,
    plan: u32,
    asked: WeightedTerms<'_>,
) -> Option<Status>
    ensures { result ≡ top_refusal (S.collection source.now) plan asked.entry.terms.now
        asked.entry.weights.now }
{
    if plan > LAST_PLAN {
        return Some(Status::NoPlan);
    }
    if let Some(refused) = refusal(source, asked.terms) {
        return Some(refused);
    }
    if !are_weights(asked.terms.len(), asked.weights) {
        return Some(Status::BadWeights);
    }
    None
}

// Whether these are the weights of so many terms.
fn are_weights(count: usize, weights: &[u32]) -> bool
    requires { count ≤ 1024 }
    ensures { result ≡ are_weights count weights.now }
{
    if weights.len() != count {
        return false;
    }
    if !all_above_zero(weights) {
        return false;
    }
    total(weights) < 1 << 26
}

// Whether no number is 0.
fn all_above_zero(numbers: &[u32]) -> bool
    ensures { result ≡ list_all (λ n. nat_lt 0 n) numbers.now }
{
    numbers.iter().all(|number| *number > 0)
}

// The sum of some weights.
fn total(weights: &[u32]) -> u64
    requires { length weights.now ≤ 1024 }
    ensures { result ≡ sum weights.now }
{
    let mut total = 0;
    for weight in weights {
        total += u64::from(*weight);
    }
    total
}

// The first k documents of an index by a plan, where that by intervals takes maxima.
fn best_by(
    alloc: Global,
    index: &Index<'_>,
    maxima: &[u8],
    plan: u32,
    asked: WeightedTerms<'_>,
    k: u32,
) -> Result<Vec<(u32, u64)>, NoMemory>
    requires maxima { AreMaxima (word_count index.now) index.now.collection maxima.now }
    requires good { top_refusal index.now.collection plan asked.terms.now asked.weights.now ≡ None }
    ensures { IfOk result (λ r. IsTop index.now.collection.documents
        (lists_of index.now.collection asked.entry.terms.now) asked.entry.weights.now k r.items) }
{
    if !takes_maxima(plan, maxima) {
        let lists = IndexLists::new(index, plan_of(plan));
        return best_of(alloc, &lists, asked, k);
    }
    let by_intervals = IntervalLists::new(index, MaximaView::new(maxima));
    best_of(alloc, &by_intervals, asked, k)
}

// Whether a plan takes these maxima: it is that by intervals, and they are kept.
pub(crate) fn takes_maxima(plan: u32, maxima: &[u8]) -> bool
    ensures { IsTrue result → maxima.now ≢ [] }
{
    plan == INTERVALS && !maxima.is_empty()
}

// The first k documents of any lists.
pub(crate) fn best_of<L: TermLists>(
    alloc: Global,
    lists: &L,
    asked: WeightedTerms<'_>,
    k: u32,
) -> Result<Vec<(u32, u64)>, NoMemory>
    requires good { (plan : ℕ) × (top_refusal (L.collection lists.now) plan asked.terms.now
        asked.weights.now ≡ None) }
    ensures { IfOk result (λ r. IsTop (L.collection lists.now).documents
        (lists_of (L.collection lists.now) asked.entry.terms.now) asked.entry.weights.now k
        r.items) }
{
    let mut list_cursors = cursors_of(alloc, lists, asked.terms)?;
    let cursors = list_cursors.as_mut_slice();
    lists.top(alloc, asked.terms, cursors, asked.weights, k)
}

// The plan of a number; that by intervals is MaxScore where there are no maxima.
pub(crate) fn plan_of(number: u32) -> Plan {
    match number {
        EXHAUSTIVE => Plan::Exhaustive,
        WAND => Plan::Wand,
        _ => Plan::MaxScore,
    }
}

// Gives documents with their scores in a room, as many as it holds, with the count of all.
pub(crate) fn give_best(found: &[(u32, u64)], room: &mut [Scored], count: &mut usize) -> u32
    ensures status { result ≡ number_of (given_in (length room.old) (length found.now)) }
    ensures room { map pair_of room.new ≡ put_in (map pair_of room.old) found.now }
    ensures count { count.new ≡ length found.now }
{
    put_best(room, found);
    *count = found.len();
    given_in(room.len(), found.len()).number()
}

// Puts documents with their scores in from the start of a room on, as many as it holds.
fn put_best(room: &mut [Scored], found: &[(u32, u64)])
    ensures { map pair_of room.new ≡ put_in (map pair_of room.old) found.now }
{
    let count = room.len().min(found.len());
    for i in 0..count {
        let (doc, score) = found[i];
        room[i] = Scored { doc, score };
    }
}
