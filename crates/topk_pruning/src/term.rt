ghost use Rattle.std.specs.Prelude.{◌≡◌, ◌≤◌, ◌<◌, ◌*◌, ◌^◌, map, length, sum, IfOk, AllPairs};
ghost use Rattle.std.specs.List.Sorted.{IsPermutation};
ghost use Rattle.collection_model.specs.Collection.{greatest_freq};
ghost use Rattle.topk_pruning.specs.Terms.{terms_of, bounds, highest};

use cursor_api::DocCursor;
use no_memory::NoMemory;
use std::alloc::Global;

// A list of a query.
#[derive(Clone, Copy)]
pub(crate) struct Term {
    // Which of the cursors reads the list.
    pub(crate) list: usize,
    pub(crate) weight: u32,
    // The most that the list adds to a score: its weight times its greatest frequency.
    pub(crate) bound: u64,
}

// The terms of a query, the highest bound first. The bounds together are below 2^58.
pub(crate) fn terms_by_bound<C: DocCursor>(
    alloc: Global,
    cursors: &[C],
    weights: &[u32],
) -> Result<Vec<Term>, NoMemory>
    requires each { length weights.now ≡ length cursors.now }
    requires light { sum weights.now < 2 ^ 26 }
    ensures all { IfOk result (λ terms. IsPermutation
        (terms_of (map C.list cursors.now) weights.now) terms.items) }
    ensures light { IfOk result (λ terms. bounds terms.items < 2 ^ 58) }
    ensures order { IfOk result (λ terms. AllPairs (λ a b. b.bound ≤ a.bound) terms.items) }
{
    let mut terms = terms_in_order(alloc, cursors, weights)?;
    terms.sort_unstable_by(|a, b| b.bound.cmp(&a.bound));
    Ok(terms)
}

// The terms of a query in the order of its lists.
fn terms_in_order<C: DocCursor>(
    alloc: Global,
    cursors: &[C],
    weights: &[u32],
) -> Result<Vec<Term>, NoMemory>
    requires each { length weights.now ≡ length cursors.now }
    requires light { sum weights.now < 2 ^ 26 }
    ensures all { IfOk result (λ terms. terms.items
        ≡ terms_of (map C.list cursors.now) weights.now) }
    ensures light { IfOk result (λ terms. bounds terms.items < 2 ^ 58) }
{
    let mut terms = Vec::new(alloc);
    for cursor in cursors {
        let list = terms.len();
        let weight = weights[list];
        let bound = bound_of(cursor, weight);
        terms.push(Term {
            list,
            weight,
            bound,
        })?;
    }
    Ok(terms)
}

// The most that the list of a cursor adds to a score.
fn bound_of<C: DocCursor>(cursor: &C, weight: u32) -> u64
    ensures value { result ≡ weight * greatest_freq (C.list cursor.now) }
    ensures bound { result ≤ weight * 4294967295 }
{
    u64::from(weight) * u64::from(cursor.max_freq())
}

// The highest bound of a list, 0 where there is none.
pub(crate) fn highest_bound<C: DocCursor>(cursors: &[C], weights: &[u32]) -> u64
    requires each { length weights.now ≡ length cursors.now }
    ensures { result ≡ highest (terms_of (map C.list cursors.now) weights.now) }
{
    let mut most = 0;
    for list in 0..cursors.len() {
        let bound = bound_of(&cursors[list], weights[list]);
        most = bound.max(most);
    }
    most
}

// The bounds of some terms together.
pub(crate) fn total_bound(terms: &[Term]) -> u64
    requires light { bounds terms.now < 2 ^ 58 }
    ensures { result ≡ bounds terms.now }
{
    let mut total = 0;
    for term in terms {
        total += term.bound;
    }
    total
}
