ghost use Rattle.std.specs.Prelude.{◌≡◌, ℕ, ◌+◌, ◌*◌, ◌<◌, ◌≤◌, List, length, slice_index_or};
ghost use Rattle.std.specs.Prelude.{IsTrue, IsSome, IfSome, IfNone, IfOk};
ghost use Rattle.std.specs.List.{sum};
ghost use Rattle.collection_model.specs.FormatNumbers.{part_charge};
ghost use Rattle.part_cost.specs.Formats.{numbers_of};
ghost use Rattle.part_cost.specs.Partition.{IsAllowed, partition_cost};
ghost use Rattle.cost_windows.specs.EdgeFacts.{Knows};
ghost use Rattle.cost_windows.specs.WindowBounds.{window_bounds};
ghost use Rattle.partition_path.specs.Trying.{CanTry, CutsCostACharge};
ghost use Rattle.partition_path.specs.Trying.{IsCheapWindow, IsWithinReach};
ghost use Rattle.partition_path.specs.Tables.{AreRoutes, AreTried, IsCheapWay, IsReached};
ghost use Rattle.partition_path.specs.Tables.{IsSettled, StandCheap, cost_to, unreached};

use crate::routes::Routes;
use cost_windows::{Edge, bounds, bounds_follow_rule};
use no_memory::NoMemory;
use part_cost::{SpanCost, bounds_cover, formats_have_room};
use std::alloc::Global;
use std::sync::ledger::Ledger;
use step_count::Steps;

// The routes that are found from all places in order: from each place that costs less than the
// next, parts are tried whose ends no known route reaches at nearly their cost. Behind the first
// windows from a place, so many as are given, it is looked whether longer parts can begin later;
// that is known only where a part that is cut costs at most a charge more.
pub(crate) fn routes_found<C: SpanCost, L: Ledger>(
    alloc: Global,
    cost: &C,
    looks: u64,
    steps: &mut Steps<L>,
) -> Result<Routes, NoMemory>
    requires looks { 0 < looks → CutsCostACharge (part_charge (numbers_of (C.format_of cost.now)))
        (C.cost_of cost.now) (C.count cost.now) }
    ensures routes { IfOk result (λ t. AreRoutes (numbers_of (C.format_of cost.now)).limit
        (C.cost_of cost.now) (C.count cost.now) (C.count cost.now) t) }
    ensures reached { IfOk result (λ t. IsReached t (C.count cost.now)) }
    ensures near { IfOk result (λ t. (others : List ℕ)
        → IsAllowed (numbers_of (C.format_of cost.now)).limit (C.cost_of cost.now)
        (C.count cost.now) others → 100 * cost_to t (C.count cost.now)
        ≤ 103 * partition_cost (C.cost_of cost.now) others) }
    ensures counted { steps.old ≤ steps.new }
    ensures bounded { steps.new ≤ steps.old
        + (2 * length (window_bounds (C.format_of cost.now)) + looks) * C.count cost.now }
{
    formats_have_room();
    let count = cost.len();
    let mut routes = Routes::new(alloc, count as usize)?;
    let mut stands = vec![in alloc; 0; bounds(cost.format()).len()]?;
    for i in 0..count {
        if routes.cost(i) < routes.cost(i + 1) {
            try_windows(&mut routes, i, looks, &mut stands, cost, steps);
        }
    }
    Ok(routes)
}

// Behind how many windows from a place of a list it is looked whether longer parts can begin later.
pub(crate) const LOOKS: u64 = 16;

// Tries parts from place i, until each allowed one is settled. Of each window that is looked at it
// is known how far a route leads that costs at most its bound more than the route to this place, or
// at most 103/100 of what the part costs that is tried next; those whose bound the next part is
// above are passed. Behind the first windows, so many as are given, it is looked whether longer
// parts can begin later, and it ends where they can.
fn try_windows<C: SpanCost, L: Ledger>(
    routes: &mut Routes,
    i: u64,
    looks: u64,
    stands: &mut Vec<u64>,
    cost: &C,
    steps: &mut Steps<L>,
)
    requires within { i < C.count cost.now }
    requires looks { 0 < looks
        → CutsCostACharge (part_charge (numbers_of (C.format_of cost.now))) (C.cost_of cost.now)
        (C.count cost.now) }
    requires routes { AreRoutes (numbers_of (C.format_of cost.now)).limit (C.cost_of cost.now)
        (C.count cost.now) i routes.old }
    requires reached { IsReached routes.old i }
    requires stands { StandCheap (window_bounds (C.format_of cost.now)) (C.count cost.now)
        (cost_to routes.old i) routes.old stands.old.items }
    requires room { cost_to routes.old i
        + 2 * (numbers_of (C.format_of cost.now)).limit < unreached }
    ensures tried { AreTried (numbers_of (C.format_of cost.now)).limit (C.cost_of cost.now)
        (C.count cost.now) i routes.old routes.new }
    ensures settled { (e : ℕ) → i < e → e ≤ C.count cost.now
        → IsSettled (numbers_of (C.format_of cost.now)).limit (C.cost_of cost.now)
        routes.new i e }
    ensures stands { StandCheap (window_bounds (C.format_of cost.now)) (C.count cost.now)
        (cost_to routes.old i) routes.new stands.new.items }
    // At most one cost for each place that a window moved on, for each window, and for each look.
    ensures counted { (steps.old ≤ steps.new) × (steps.new + sum stands.old.items
        ≤ steps.old + sum stands.new.items + length (window_bounds (C.format_of cost.now))
        + looks) }
{
    bounds_cover();
    bounds_follow_rule();
    let bounds = bounds(cost.format());
    let mut edge = Edge::at(i);
    let mut looked = 0;
    let mut k = 0;
    while k < bounds.len() && edge.end < cost.len() {
        let window = Window {
            stand: stands[k],
            bound: bounds[k],
            edge,
        };
        let moved = stretched(routes, i, window, cost, steps);
        stands[k] = moved.stand;
        edge = moved.edge;
        if looked < looks {
            if can_begin_later(routes, i, edge, cost, steps) {
                return;
            }
            looked += 1;
        }
        k = covering(bounds, k + 1, edge.next);
    }
}

// Whether parts from place i that are longer than the edge can begin there: the route to it leads
// on for at most 103/100 of the payload of the part up to there. That part is looked at only where
// the next one's payload would do.
fn can_begin_later<C: SpanCost, L: Ledger>(
    routes: &Routes,
    i: u64,
    edge: Edge,
    cost: &C,
    steps: &mut Steps<L>,
) -> bool
    requires routes { AreRoutes (numbers_of (C.format_of cost.now)).limit (C.cost_of cost.now)
        (C.count cost.now) (i + 1) routes.now }
    requires knows { Knows (C.cost_of cost.now) (C.count cost.now) i edge }
    ensures later { IsTrue result → (i < edge.end)
        × IsCheapWay (part_charge (numbers_of (C.format_of cost.now))) (C.cost_of cost.now)
        routes.now i edge.end }
    ensures counted { (steps.old ≤ steps.new) × (steps.new ≤ steps.old + 1) }
{
    let Some(next) = edge.next else {
        return false;
    };
    let charge = cost.format().charge();
    let way = routes.cost(edge.end) - routes.cost(i);
    i < edge.end
        && is_cheap_way(way, next - charge)
        && is_cheap_way(way, cost.cost(i, edge.end, steps) - charge)
}

// Whether a way to a place costs at most 103/100 of the payload of a part there, so that a part
// which goes on from the place can stand for a longer one.
pub(crate) fn is_cheap_way(way: u64, payload: u64) -> bool
    ensures { IsTrue result → 100 * way ≤ 103 * payload }
{
    way <= payload.saturating_mul(103) / 100
}

// The first bound from k on that is no less than what the next part costs, where that is known.
fn covering(bounds: &[u64], k: usize, next: Option<u64>) -> usize
    requires { k ≤ length bounds.now }
    ensures forward { k ≤ result }
    ensures within { result ≤ length bounds.now }
    ensures passed { IfSome next
        (λ c. (m : ℕ) → k ≤ m → m < result → slice_index_or bounds.now m 0 < c) }
    ensures covers { IfSome next
        (λ c. result < length bounds.now → c ≤ slice_index_or bounds.now result 0) }
    ensures unknown { IfNone next (result ≡ k) }
{
    let Some(part) = next else {
        return k;
    };
    let mut first = k;
    while first < bounds.len() && bounds[first] < part {
        first += 1;
    }
    first
}

// A window of the parts from a place: how far a route leads that costs at most the bound more than
// the one to the place, and a part from there behind whose end longer parts are tried.
#[derive(Clone, Copy)]
struct Window {
    stand: u64,
    bound: u64,
    edge: Edge,
}

// The window with the edge behind which the next part from place i costs more than the bound: up to
// there each place is reached by a route that costs at most the bound more than the one to place i,
// or at most 103/100 of what the part behind the old edge costs. Where no known route leads so far,
// the part to the edge is tried, and the window stands there.
fn stretched<C: SpanCost, L: Ledger>(
    routes: &mut Routes,
    i: u64,
    window: Window,
    cost: &C,
    steps: &mut Steps<L>,
) -> Window
    requires from { CanTry (numbers_of (C.format_of cost.now)).limit (C.cost_of cost.now)
        (C.count cost.now) i routes.old }
    requires window { IsCheapWindow (numbers_of (C.format_of cost.now)).limit
        (C.cost_of cost.now) (C.count cost.now) i routes.old window }
    ensures tried { AreTried (numbers_of (C.format_of cost.now)).limit (C.cost_of cost.now)
        (C.count cost.now) i routes.old routes.new }
    ensures knows { Knows (C.cost_of cost.now) (C.count cost.now) i result.edge }
    ensures cheap { IsWithinReach window (cost_to routes.old i)
        (cost_to routes.new result.edge.end) }
    ensures stand { (result.stand ≤ C.count cost.now)
        × (cost_to routes.new result.stand ≤ cost_to routes.old i + window.bound) }
    ensures over { result.edge.end < C.count cost.now
        → window.bound < C.cost_of cost.now i (result.edge.end + 1) }
    ensures known { result.edge.end < C.count cost.now → IsSome result.edge.next }
    ensures reaches { window.edge.end ≤ result.edge.end }
    ensures counted { (steps.old ≤ steps.new)
        × (steps.new + window.stand ≤ steps.old + result.stand + 1) }
{
    formats_have_room();
    let Window { stand, bound, edge } = window;
    let near = edge.next.unwrap_or(0) * 103 / 100;
    let most = routes.cost(i) + bound.max(near);
    let reached = routes.furthest(edge.end.max(stand), most);
    let from = if edge.end < reached {
        Edge::at(reached)
    } else {
        Edge { cost: None, ..edge }
    };
    let edge = from.lengthened(i, bound, cost, steps);
    let Some(part) = edge.cost else {
        return Window { edge, ..window };
    };
    routes.offer(i, edge.end, routes.cost(i) + part);
    Window {
        stand: edge.end,
        bound,
        edge,
    }
}
