ghost use Rattle.std.specs.Prelude.{◌≡◌, ℕ, ◌≤◌, ◌<◌, ◌⊎◌, List, map, length};
ghost use Rattle.std.specs.List.{All};
ghost use Rattle.scan_plans.specs.Matches.{AreBelow, in_any_from};
ghost use Rattle.topk_pruning.specs.Terms.{AreAllTerms};

use crate::term::Term;
use cursor_api::DocCursor;
use scan_plans::frequent_postings_score;

// A score that at least k documents reach, 0 where none is told: what a frequency adds that k
// postings of the first list reach.
pub(crate) fn common_score<C: DocCursor>(cursors: &[C], terms: &[Term], k: u32) -> u64
    requires within { All (λ t. t.list < length cursors.now) terms.now }
    requires some { 1 ≤ k }
    ensures { (n : ℕ) (weights : List ℕ) → AreBelow n (map C.list cursors.now)
        → AreAllTerms (map C.list cursors.now) weights terms.now
        → (result ≡ 0) ⊎ (k ≤ length (in_any_from result n (map C.list cursors.now) weights)) }
{
    frequent_postings_score();
    let Some(first) = terms.first() else {
        return 0;
    };
    let cursor = &cursors[first.list];
    u64::from(first.weight) * u64::from(cursor.common_freq(k))
}
