ghost use Rattle.std.specs.Prelude.{◌≡◌, ℕ, ◌+◌, ◌*◌, ◌≤◌, ◌<◌, ◌^◌, false, List, map, length, min, slice_index, sum_by, IfOk};
ghost use Rattle.std.specs.Int.{bit_at};
ghost use Rattle.std.specs.List.{All};
ghost use Rattle.collection_model.specs.Collection.{Posting};
ghost use Rattle.scan_plans.specs.Matches.{in_any};
ghost use Rattle.scan_plans.specs.IsTop.{IsTop};
ghost use Rattle.scan_plans.specs.TopQuery.{IsTopQuery};
ghost use Rattle.scan_plans.specs.Ranking.{held_of};
ghost use Rattle.scan_plans.specs.Best.{CanBeOffered, IsBest, IsBar};
ghost use Rattle.scan_plans.specs.Window.{AreScored, IsLeftBlank, IsReached};

use crate::gathered::Gathered;
use crate::laws::top_list_is_short;
use crate::scan::least_doc;
use crate::window::{Block, Window, add_lists, new_marks, new_scores, scored_words};
use cursor_api::DocCursor;
use no_memory::NoMemory;
use std::alloc::Global;

/// The first k of the documents that are in any of the lists, by score falling and then document
/// rising, each with its score: the sum over the lists of the weight times the frequency. `n` is
/// the number of documents. It scores every document that a list has, window by window of
/// documents, and touches each posting once. It takes room for three times as many documents as
/// can be among the first k, and as much again where many are sorted. The weights are those of the
/// cursors' lists, in the same order; a score stays below 2^58.
pub fn top_exhaustive<C: DocCursor>(
    alloc: Global,
    cursors: &mut [C],
    weights: &[u32],
    k: u32,
    n: u32,
) -> Result<Vec<(u32, u64)>, NoMemory>
    requires { IsTopQuery C.list C.place n cursors.old weights.now }
    ensures first { IfOk result (λ r. IsTop n (map C.list cursors.old) weights.now k r.items) }
    ensures bound { IfOk result (λ r. All (λ e. e.1 < 2 ^ 58) r.items) }
{
    top_list_is_short();
    let most = most_found(cursors, k).min(n);
    score_all(alloc, cursors, weights, most, n)
}

/// How many documents a list of the first k can have: no more than the lists have postings.
pub fn most_found<C: DocCursor>(cursors: &[C], k: u32) -> u32
    ensures { result ≡ min k (sum_by length (map C.list cursors.now)) }
{
    count_postings(cursors).min(u64::from(k)) as u32
}

/// How many postings the lists of some cursors have together, as far as a u64 counts.
pub fn count_postings<C: DocCursor>(cursors: &[C]) -> u64
    ensures { result ≡ min (sum_by length (map C.list cursors.now)) 18446744073709551615 }
{
    let mut postings: u64 = 0;
    for cursor in cursors {
        postings = postings.saturating_add(u64::from(cursor.len()));
    }
    postings
}

// The first k documents, with room for three times as many: k is no more than can be found.
fn score_all<C: DocCursor>(
    alloc: Global,
    cursors: &mut [C],
    weights: &[u32],
    k: u32,
    n: u32,
) -> Result<Vec<(u32, u64)>, NoMemory>
    requires { IsTopQuery C.list C.place n cursors.old weights.now }
    ensures first { IfOk result (λ r. IsTop n (map C.list cursors.old) weights.now k r.items) }
    ensures bound { IfOk result (λ r. All (λ e. e.1 < 2 ^ 58) r.items) }
{
    if k == 0 {
        return Ok(Vec::new(alloc));
    }
    let mut top = Gathered::new(alloc, k)?;
    let words = scored_words(n);
    let mut score_buffer = new_scores(alloc, words)?;
    let mut mark_buffer = new_marks(alloc, words)?;
    let scores = score_buffer.as_mut_slice();
    let marks = mark_buffer.as_mut_slice();
    let mut block = Block::new();
    while let Some(first) = least_doc(cursors) {
        let window = Window {
            scores,
            marks,
            first,
        };
        let reached = add_lists(cursors, weights, window, &mut block);
        offer_marked(&mut top, first, reached, marks, scores);
    }
    Ok(top.into_list())
}

// Offers the marked documents of a window from `first` on, as far as they can enter, and takes
// their marks and scores back. So many of its places were reached, and where nothing is marked the
// score is 0.
fn offer_marked(
    top: &mut Gathered,
    first: u32,
    reached: usize,
    marks: &mut [u64],
    scores: &mut [u64],
)
    requires same { length scores.old ≡ 64 * length marks.old }
    requires reached { IsReached scores.old marks.old reached }
    requires offers { CanBeOffered first scores.old top.old }
    ensures k { top.new.k ≡ top.old.k }
    ensures above { All (λ e. e.0 < first + length scores.old) top.new.found }
    ensures best { (lists : List (List Posting)) (weights : List ℕ)
        → AreScored lists weights first scores.old
        → IsBest top.old.k lists weights (in_any first lists) (held_of top.old)
        → IsBest top.old.k lists weights (in_any (first + length scores.old) lists)
        (held_of top.new) }
    ensures bound { All (λ s. s < 2 ^ 58) scores.old → All (λ e. e.1 < 2 ^ 58) top.old.found
        → All (λ e. e.1 < 2 ^ 58) top.new.found }
    ensures left { IsLeftBlank scores.old marks.old scores.new marks.new }
{
    for i in 0..reached.div_ceil(64) {
        let base = u64::from(first) + 64 * i as u64;
        offer_word(top, base, marks[i], &mut scores[64 * i..64 * i + 64]);
        marks[i] = 0;
    }
}

// Offers the documents that the bits of a word mark, of which the lowest stands for document `base`
// and each for the one after, as far as they can enter, and takes their scores back. Where nothing
// is marked the score is 0.
fn offer_word(top: &mut Gathered, base: u64, word: u64, scores: &mut [u64])
    requires whole { length scores.old ≡ 64 }
    requires marked { (k : ℕ) → k < 64 → bit_at word k ≡ 0 → slice_index scores.old k ≡ 0 }
    requires offers { CanBeOffered base scores.old top.old }
    ensures k { top.new.k ≡ top.old.k }
    ensures above { All (λ e. e.0 < base + 64) top.new.found }
    ensures best { (lists : List (List Posting)) (weights : List ℕ)
        → AreScored lists weights base scores.old
        → IsBest top.old.k lists weights (in_any base lists) (held_of top.old)
        → IsBest top.old.k lists weights (in_any (base + 64) lists) (held_of top.new) }
    ensures bound { All (λ s. s < 2 ^ 58) scores.old → All (λ e. e.1 < 2 ^ 58) top.old.found
        → All (λ e. e.1 < 2 ^ 58) top.new.found }
    ensures count { length scores.new ≡ 64 }
    ensures clear { All (λ s. s ≡ 0) scores.new }
{
    let mut bar = top.bar();
    let mut rest = word;
    while rest != 0 {
        let at = rest.trailing_zeros() as usize;
        let score = scores[at];
        scores[at] = 0;
        if score > bar {
            top.offer((base + at as u64) as u32, score);
            bar = top.bar();
        }
        // The lowest 1 is taken back.
        rest &= !(1 << at);
    }
}
