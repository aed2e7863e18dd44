ghost use Rattle.std.specs.Prelude.{◌≡◌, ◌≤◌, ◌<◌, ◌^◌, ◌++◌, map, length, min, option_to_list, IfOk, IfSome};
ghost use Rattle.std.specs.List.{All, reduce};
ghost use Rattle.scan_plans.specs.IsTop.{IsTop};
ghost use Rattle.scan_plans.specs.TopQuery.{IsTopQuery};
ghost use Rattle.scan_plans.specs.Scan.{HasPassed};
ghost use Rattle.topk_pruning.specs.Terms.{AreTerms, IsFirstDoc, IsNextDoc};

use crate::alone::{next_of_one, postings_between};
use crate::ceilings::Greatest;
use crate::essential::essential_now;
use crate::floor::common_score;
use crate::probe::doc_from;
use crate::saves::pruning_can_save;
use crate::scorer::Scorer;
use crate::shortlist::Shortlist;
use crate::term::{Term, terms_by_bound};
use cursor_api::DocCursor;
use no_memory::NoMemory;
use scan_plans::{
    cursors_tell, most_found, top_exhaustive, top_list_grows, top_list_has_a_floor,
    top_list_is_short,
};
use std::alloc::Global;

/// The first k of the documents that are in any of the lists, by score falling and then document
/// rising, each with its score, as `top_exhaustive` gives them. `n` is the number of documents. The
/// weights are those of the cursors' lists, in the same order; a score stays below 2^58.
///
/// It is MaxScore: while the lists of the lowest bounds together cannot beat the bar, candidates
/// come from the others alone, the essential ones, which are scored window by window of documents,
/// and from short lists. The other lists are asked for a candidate only as long as the bounds of
/// those that are left can lift its score above the bar. A bound is the weight times the greatest
/// frequency, and the bar is the least score held. From the start it is no lower than just below a
/// score that k documents reach: the list of the highest bound is asked for a frequency that k of
/// its postings reach. While one list alone is essential, its postings are passed over whose
/// frequencies cannot lift a document above the bar with the bounds of all the others. Where
/// pruning can save nothing, every document is scored, as in `top_wand`.
pub fn top_maxscore<C: DocCursor>(
    alloc: Global,
    cursors: &mut [C],
    weights: &[u32],
    k: u32,
    n: u32,
) -> Result<Vec<(u32, u64)>, NoMemory>
    requires { IsTopQuery C.list C.place n cursors.old weights.now }
    ensures first { IfOk result (λ r. IsTop n (map C.list cursors.old) weights.now k r.items) }
    ensures bound { IfOk result (λ r. All (λ e. e.1 < 2 ^ 58) r.items) }
{
    if !pruning_can_save(cursors, weights, k, n) {
        return top_exhaustive(alloc, cursors, weights, k, n);
    }
    top_list_is_short();
    let most = most_found(cursors, k);
    score_essential(alloc, cursors, weights, most, n)
}

// The first k documents by MaxScore, with room for as many: k is no more than can be found.
fn score_essential<C: DocCursor>(
    alloc: Global,
    cursors: &mut [C],
    weights: &[u32],
    k: u32,
    n: u32,
) -> Result<Vec<(u32, u64)>, NoMemory>
    requires { IsTopQuery C.list C.place n cursors.old weights.now }
    ensures first { IfOk result (λ r. IsTop n (map C.list cursors.old) weights.now k r.items) }
    ensures bound { IfOk result (λ r. All (λ e. e.1 < 2 ^ 58) r.items) }
{
    if k == 0 {
        return Ok(Vec::new(alloc));
    }
    top_list_grows();
    top_list_has_a_floor();
    let terms = terms_by_bound(alloc, cursors, weights)?;
    let floor = common_score(cursors, &terms, k);
    let mut top = Shortlist::new(alloc, k, n, floor)?;
    let mut scorer = Scorer::new(alloc, &terms, n)?;
    let mut from = 0;
    while let Some(first) = next_candidate(cursors, &terms, &top, from) {
        scorer.narrow_after(postings_between(cursors, &terms, from, first, n));
        from = scorer.score_from(cursors, &terms, &Greatest, first, &mut top);
    }
    top.into_list()
}

// The next document from `from` on that can be held. No cursor has passed a document from `from`
// on, and none passes that document.
fn next_candidate<C: DocCursor>(
    cursors: &mut [C],
    terms: &[Term],
    top: &Shortlist,
    from: u32,
) -> Option<u32>
    requires terms { AreTerms (map C.list cursors.old) terms.now }
    requires weighty { All (λ t. 1 ≤ t.weight) terms.now }
    requires passed { All (λ c. HasPassed from (C.list c) (C.place c)) cursors.old }
    ensures lists { map C.list cursors.new ≡ map C.list cursors.old }
    ensures passed { IfSome result (λ doc. All (λ c. HasPassed doc (C.list c) (C.place c))
        cursors.new) }
    ensures next { IsNextDoc (map C.list cursors.old) terms.now top.now.floor top.now.k top.now.held
        from result }
{
    let essential = essential_now(terms, top);
    if essential == 1 {
        if let Some(bar) = top.bar() {
            return next_of_one(cursors, terms, bar, from);
        }
    }
    first_doc(cursors, &terms[..essential], from)
}

// The first document from `from` on that the list of one of the terms has. No cursor has passed a
// document from `from` on.
fn first_doc<C: DocCursor>(cursors: &mut [C], terms: &[Term], from: u32) -> Option<u32>
    requires within { All (λ t. t.list < length cursors.old) terms.now }
    requires passed { All (λ c. HasPassed from (C.list c) (C.place c)) cursors.old }
    ensures lists { map C.list cursors.new ≡ map C.list cursors.old }
    ensures passed { All (λ c. HasPassed from (C.list c) (C.place c)) cursors.new }
    ensures first { IsFirstDoc (map C.list cursors.old) terms.now from result }
{
    cursors_tell();
    let mut least = None;
    for term in terms {
        least = earlier(least, doc_from(&mut cursors[term.list], from));
    }
    least
}

// The lesser of two documents, or the one that there is.
fn earlier(a: Option<u32>, b: Option<u32>) -> Option<u32>
    ensures { result ≡ reduce min (option_to_list a ++ option_to_list b) }
{
    match (a, b) {
        (Some(a), Some(b)) => Some(a.min(b)),
        (None, b) => b,
        (a, None) => a,
    }
}
