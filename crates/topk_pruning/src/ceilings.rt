ghost use Rattle.std.specs.Prelude.{◌≡◌, ℕ, ◌*◌, ◌≤◌, ◌<◌, min, map, length};
ghost use Rattle.scan_plans.specs.Matches.{freq_of_doc};
ghost use Rattle.topk_pruning.specs.Terms.{AreNear, AreTerms};

use crate::term::Term;
use cursor_api::DocCursor;

/// What is known of the frequencies of a stretch of a cursor's list, beside its greatest frequency.
pub trait Ceilings<C: DocCursor> {
    /// A document at or after `doc`, and a frequency: no document from `doc` up to that one has
    /// more in the list.
    fn ceiling(&self, cursor: &C, doc: u32) -> (u32, u32)
        ensures reach { doc ≤ result.0 }
        ensures most { (d : ℕ) → doc ≤ d → d ≤ result.0
            → freq_of_doc d (C.list cursor.now) ≤ result.1 };
}

// The greatest frequency of the list, up to its end.
pub(crate) struct Greatest;

impl<C: DocCursor> Ceilings<C> for Greatest {
    fn ceiling(&self, cursor: &C, _doc: u32) -> (u32, u32) {
        (u32::MAX, cursor.max_freq())
    }
}

// Gives `near` the terms with their bounds for the documents from `first` on, the highest bound
// first, and tells the document up to which these hold.
fn bound_terms<C: DocCursor, B: Ceilings<C>>(
    cursors: &[C],
    terms: &[Term],
    ceilings: &B,
    first: u32,
    near: &mut [Term],
) -> u32
    requires terms { AreTerms (map C.list cursors.now) terms.now }
    requires each { length near.old ≡ length terms.now }
    requires in_range { first < 4294967295 }
    ensures each { length near.new ≡ length terms.now }
    ensures later { first < result }
    ensures near { AreNear (map C.list cursors.now) terms.now first result near.new }
{
    let reach = bound_each(cursors, terms, ceilings, first, near);
    near.sort_unstable_by(|a, b| b.bound.cmp(&a.bound));
    reach
}

// Gives `near` the terms with their bounds for the documents from `first` on, as `bound_terms`
// does, by the ceilings or, where these are not looked at, by the greatest frequencies of lists.
pub(crate) fn bound_window<C: DocCursor, B: Ceilings<C>>(
    cursors: &[C],
    terms: &[Term],
    ceilings: Option<&B>,
    first: u32,
    near: &mut [Term],
) -> u32
    requires terms { AreTerms (map C.list cursors.now) terms.now }
    requires each { length near.old ≡ length terms.now }
    requires in_range { first < 4294967295 }
    ensures each { length near.new ≡ length terms.now }
    ensures later { first < result }
    ensures near { AreNear (map C.list cursors.now) terms.now first result near.new }
{
    match ceilings {
        Some(ceilings) => bound_terms(cursors, terms, ceilings, first, near),
        None => bound_terms(cursors, terms, &Greatest, first, near),
    }
}

// Gives `near` these terms in the order of `terms`. The bounds hold as far as the ceiling that
// reaches least.
fn bound_each<C: DocCursor, B: Ceilings<C>>(
    cursors: &[C],
    terms: &[Term],
    ceilings: &B,
    first: u32,
    near: &mut [Term],
) -> u32
    requires terms { AreTerms (map C.list cursors.now) terms.now }
    requires each { length near.old ≡ length terms.now }
    requires in_range { first < 4294967295 }
    ensures each { length near.new ≡ length terms.now }
    ensures later { first < result }
    ensures near { AreNear (map C.list cursors.now) terms.now first result near.new }
{
    let mut reach = u32::MAX;
    for place in 0..terms.len() {
        let term = terms[place];
        let (last, greatest) = ceilings.ceiling(&cursors[term.list], first);
        let bound = most_under(term.weight, greatest, term.bound);
        reach = reach.min(last.saturating_add(1));
        near[place] = Term { bound, ..term };
    }
    reach
}

// The most that a list adds to the score of a document, where it has no more than this frequency.
fn most_under(weight: u32, ceiling: u32, bound: u64) -> u64
    ensures { result ≡ min (weight * ceiling) bound }
{
    (u64::from(weight) * u64::from(ceiling)).min(bound)
}
