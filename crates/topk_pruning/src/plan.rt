ghost use Rattle.std.specs.Prelude.{◌<◌, ◌^◌, map, IfOk};
ghost use Rattle.std.specs.List.{All};
ghost use Rattle.scan_plans.specs.IsTop.{IsTop};
ghost use Rattle.scan_plans.specs.TopQuery.{IsTopQuery};

use crate::maxscore::top_maxscore;
use crate::wand::top_wand;
use cursor_api::DocCursor;
use no_memory::NoMemory;
use scan_plans::top_exhaustive;
use std::alloc::Global;

/// How `top` is answered. The reply is the same by every plan.
#[derive(Clone, Copy, Debug, PartialEq, Eq)]
pub enum Plan {
    /// Every document that a list has is scored.
    Exhaustive,
    /// WAND: the cursors go to the first document at which the bounds of their lists together beat
    /// the least score held.
    Wand,
    /// MaxScore: candidates come from the lists without which no document can beat the least score
    /// held.
    MaxScore,
}

/// The first k of the documents that are in any of the lists, by score falling and then document
/// rising, each with its score, by this plan. `n` is the number of documents. The weights are those
/// of the cursors' lists, in the same order; a score stays below 2^58.
pub fn plan_top<C: DocCursor>(
    alloc: Global,
    plan: Plan,
    cursors: &mut [C],
    weights: &[u32],
    k: u32,
    n: u32,
) -> Result<Vec<(u32, u64)>, NoMemory>
    requires { IsTopQuery C.list C.place n cursors.old weights.now }
    ensures first { IfOk result (λ r. IsTop n (map C.list cursors.old) weights.now k r.items) }
    ensures bound { IfOk result (λ r. All (λ e. e.1 < 2 ^ 58) r.items) }
{
    match plan {
        Plan::Exhaustive => top_exhaustive(alloc, cursors, weights, k, n),
        Plan::Wand => top_wand(alloc, cursors, weights, k, n),
        Plan::MaxScore => top_maxscore(alloc, cursors, weights, k, n),
    }
}
