ghost use Rattle.std.specs.Prelude.{◌≡◌, ℕ, ◌+◌, ◌<◌, ◌≤◌, None, IsSome};
ghost use Rattle.cost_windows.specs.WindowEnds.{StandsAt};
ghost use Rattle.cost_windows.specs.EdgeFacts.{CountsNumbers, IsAsked, IsLongestPart, Knows};

use part_cost::SpanCost;
use std::sync::ledger::Ledger;
use step_count::Steps;

/// The part from a place to an end, and what is known of its cost and of that of the part that is
/// one number longer.
#[derive(Clone, Copy)]
pub struct Edge {
    /// Where the part ends; at the place itself there is no part yet.
    pub end: u64,
    /// What the part costs, where that was asked.
    pub cost: Option<u64>,
    /// What the part that is one number longer costs, where that was asked.
    pub next: Option<u64>,
}

impl Edge {
    /// The part to this end, nothing known of its cost.
    pub fn at(end: u64) -> Edge
        ensures { result ≡ record { end = end; cost = None; next = None } }
    {
        Edge {
            end,
            cost: None,
            next: None,
        }
    }

    /// The part to the longest end under the bound, by asking for one number more at a time; this
    /// one where the part that is one number longer costs more than the bound, whatever this one
    /// costs. It counts at most one cost for each number, and one.
    pub fn lengthened<C: SpanCost, L: Ledger>(
        self,
        i: u64,
        bound: u64,
        cost: &C,
        steps: &mut Steps<L>,
    ) -> Edge
        requires some { i < C.count cost.now }
        requires knows { Knows (C.cost_of cost.now) (C.count cost.now) i self }
        ensures knows { Knows (C.cost_of cost.now) (C.count cost.now) i result }
        ensures stands { (i < self.end → C.cost_of cost.now i self.end ≤ bound)
            → StandsAt (C.cost_of cost.now) (C.count cost.now) bound i result.end }
        ensures affordable { self.end < result.end → IsSome result.cost
            × (C.cost_of cost.now i result.end ≤ bound) }
        ensures over { result.end < C.count cost.now
            → bound < C.cost_of cost.now i (result.end + 1) }
        ensures forward { self.end ≤ result.end }
        ensures same { result.end ≡ self.end → result.cost ≡ self.cost }
        ensures counts { CountsNumbers (C.count cost.now) self result steps.old steps.new }
        ensures next { result.end < C.count cost.now → IsSome result.next }
    {
        let mut edge = self;
        while edge.end < cost.len() {
            let next = match edge.next {
                Some(known) => known,
                None => cost.cost(i, edge.end + 1, steps),
            };
            if bound < next {
                edge.next = Some(next);
                return edge;
            }
            edge = Edge {
                end: edge.end + 1,
                cost: Some(next),
                next: None,
            };
        }
        edge
    }

    // The part to the longest end under the bound, from the position where the bound's window
    // stood.
    pub(crate) fn stretched<C: SpanCost, L: Ledger>(
        self,
        i: u64,
        position: u64,
        bound: u64,
        cost: &C,
        steps: &mut Steps<L>,
    ) -> Edge
        requires some { i < C.count cost.now }
        requires within { position ≤ C.count cost.now }
        requires knows { Knows (C.cost_of cost.now) (C.count cost.now) i self }
        requires affordable { i < self.end → C.cost_of cost.now i self.end ≤ bound }
        requires stood { i < position → C.cost_of cost.now i position ≤ bound }
        ensures longest { IsLongestPart (C.cost_of cost.now) (C.count cost.now) i position bound
            result }
        ensures counted { steps.old ≤ steps.new }
        ensures bounded { steps.new + position ≤ steps.old + result.end + 2 }
        ensures asks { self.cost ≡ None → self.next ≡ None → steps.old + 1 ≤ steps.new }
        // Nothing is asked again where the end stays.
        ensures known { IsAsked (C.count cost.now) i self → result.end ≡ self.end
            → steps.new ≡ steps.old }
    {
        let from = if self.end < position {
            Edge::at(position)
        } else {
            self
        };
        let edge = from.lengthened(i, bound, cost, steps);
        if edge.cost.is_some() || edge.end == i {
            return edge;
        }
        Edge {
            cost: Some(cost.cost(i, edge.end, steps)),
            ..edge
        }
    }
}
