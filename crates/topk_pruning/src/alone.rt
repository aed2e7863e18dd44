ghost use Rattle.std.specs.Prelude.{◌≡◌, ℕ, ◌+◌, ◌*◌, ◌≤◌, ◌<◌, true, drop, take, map, length, IfSome};
ghost use Rattle.std.specs.List.{All};
ghost use Rattle.scan_plans.specs.Matches.{freq_of_doc};
ghost use Rattle.scan_plans.specs.Scan.{HasPassed};
ghost use Rattle.topk_pruning.specs.Terms.{AreTerms, bounds, in_lists, score_in};

use crate::probe::doc_from;
use crate::term::{Term, total_bound};
use cursor_api::DocCursor;
use scan_plans::{cursors_stand, cursors_tell};

// The next document where the list of the first term alone is essential: the first from `from` on
// with a frequency there that lifts it above the bar with the bounds of all the others. No cursor
// has passed a document from `from` on.
pub(crate) fn next_of_one<C: DocCursor>(
    cursors: &mut [C],
    terms: &[Term],
    bar: u64,
    from: u32,
) -> Option<u32>
    requires terms { AreTerms (map C.list cursors.old) terms.now }
    requires weighty { All (λ t. 1 ≤ t.weight) terms.now }
    requires some { 1 ≤ length terms.now }
    requires others { bounds (drop 1 terms.now) ≤ bar }
    requires passed { All (λ c. HasPassed from (C.list c) (C.place c)) cursors.old }
    ensures lists { map C.list cursors.new ≡ map C.list cursors.old }
    ensures passed { IfSome result (λ doc. All (λ c. HasPassed doc (C.list c) (C.place c))
        cursors.new) }
    ensures before { (d : ℕ) → from ≤ d → IfSome result (λ doc. d < doc)
        → score_in (map C.list cursors.old) d terms.now ≤ bar }
    ensures found { IfSome result (λ doc. (from ≤ doc)
        × (in_lists (map C.list cursors.old) doc (take 1 terms.now) ≡ true)) }
{
    let one = terms[0];
    let freq = least_freq(one.weight, total_bound(&terms[1..]), bar);
    frequent_doc(&mut cursors[one.list], from, freq)
}

// The least frequency that lifts a score above the bar with the bounds of the others, or the
// greatest that there is.
fn least_freq(weight: u32, others: u64, bar: u64) -> u32
    requires weighty { 1 ≤ weight }
    requires others { others ≤ bar }
    ensures some { 1 ≤ result }
    ensures least { (f : ℕ) → f < result → weight * f + others ≤ bar }
    ensures enough { result < 4294967295 → bar < weight * result + others }
{
    let too_low = (bar - others) / u64::from(weight);
    too_low.saturating_add(1).min(u64::from(u32::MAX)) as u32
}

// The first document from `from` on with at least this frequency in a list, None where there is
// none. The cursor has passed no document from `from` on, and moves there.
fn frequent_doc<C: DocCursor>(cursor: &mut C, from: u32, freq: u32) -> Option<u32>
    requires passed { HasPassed from (C.list cursor.old) (C.place cursor.old) }
    requires some { 1 ≤ freq }
    ensures list { C.list cursor.new ≡ C.list cursor.old }
    ensures passed { IfSome result (λ doc. HasPassed doc (C.list cursor.new) (C.place cursor.new)) }
    ensures before { (d : ℕ) → from ≤ d → IfSome result (λ doc. d < doc)
        → freq_of_doc d (C.list cursor.old) < freq }
    ensures found { IfSome result (λ doc. (from ≤ doc)
        × (freq ≤ freq_of_doc doc (C.list cursor.old))) }
{
    cursors_tell();
    cursors_stand();
    let _ = doc_from(cursor, from);
    cursor.next_frequent(freq);
    cursor.doc()
}

// About how many postings the list of the first term has among the documents from one up to
// another, of which there are n.
pub(crate) fn postings_between<C: DocCursor>(
    cursors: &[C],
    terms: &[Term],
    from: u32,
    to: u32,
    n: u32,
) -> u64
    requires within { All (λ t. t.list < length cursors.now) terms.now }
{
    let Some(first) = terms.first() else {
        return 0;
    };
    let documents = u64::from(to.saturating_sub(from));
    documents * u64::from(cursors[first.list].len()) / u64::from(n.max(1))
}
