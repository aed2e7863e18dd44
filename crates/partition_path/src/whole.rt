ghost use Rattle.std.specs.Prelude.{◌≡◌, ◌≤◌, ◌+◌, [], ◌∷◌, IfSome};
ghost use Rattle.part_cost.specs.Formats.{numbers_of};
ghost use Rattle.part_cost.specs.Partition.{IsNear};

use part_cost::{SpanCost, formats_have_room};
use std::sync::ledger::Ledger;
use step_count::Steps;

// What all numbers cost as one part, in bits, where no partition is cheaper: two parts cost at
// least the charge each. None where that is not known, and of an empty sequence. It counts one cost
// at most.
pub(crate) fn cost_as_one_part<C: SpanCost, L: Ledger>(
    cost: &C,
    steps: &mut Steps<L>,
) -> Option<u64>
    ensures near { IfSome result (λ total. IsNear (numbers_of (C.format_of cost.now)).limit
        (C.cost_of cost.now) (C.count cost.now) (C.count cost.now ∷ [])) }
    ensures total { IfSome result (λ total. total ≡ C.cost_of cost.now 0 (C.count cost.now)) }
    ensures counted { steps.old ≤ steps.new }
    ensures asked { IfSome result (λ total. steps.old + 1 ≤ steps.new) }
    ensures bounded { steps.new ≤ steps.old + 1 }
{
    formats_have_room();
    let count = cost.len();
    if count == 0 {
        return None;
    }
    let total = cost.cost(0, count, steps);
    if total <= 2 * cost.format().charge() {
        Some(total)
    } else {
        None
    }
}
