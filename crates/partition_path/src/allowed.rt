ghost use Rattle.std.specs.Prelude.{◌≡◌, ◌+◌, ◌*◌, ◌<◌, ◌≤◌, IfOk};
ghost use Rattle.part_cost.specs.Formats.{numbers_of};
ghost use Rattle.part_cost.specs.Partition.{IsAllowed, IsPartition, WithinLimitFrom};

use no_memory::NoMemory;
use part_cost::SpanCost;
use std::alloc::Global;
use std::sync::ledger::Ledger;
use step_count::Steps;

// The ends of a partition, each part that is not allowed cut into longest allowed ones, and no
// other.
pub(crate) fn allowed_ends<C: SpanCost, L: Ledger>(
    alloc: Global,
    ends: &[u64],
    cost: &C,
    steps: &mut Steps<L>,
) -> Result<Vec<u64>, NoMemory>
    requires { IsPartition (C.count cost.now) ends.now }
    ensures allowed { IfOk result (λ v. IsAllowed (numbers_of (C.format_of cost.now)).limit
        (C.cost_of cost.now) (C.count cost.now) v.items) }
    ensures kept { WithinLimitFrom (numbers_of (C.format_of cost.now)).limit (C.cost_of cost.now)
        0 ends.now → IfOk result (λ v. v.items ≡ ends.now) }
    ensures counted { steps.old ≤ steps.new }
    ensures bounded { steps.new ≤ steps.old + 33 * C.count cost.now }
{
    let mut allowed = Vec::new(alloc);
    let mut start = 0;
    for k in 0..ends.len() {
        while start < ends[k] {
            let end = long_allowed(start, ends[k], cost, steps);
            allowed.push(end)?;
            start = end;
        }
    }
    Ok(allowed)
}

// The end of an allowed part that is as long as one to the last place, or as a search by halves
// finds it.
fn long_allowed<C: SpanCost, L: Ledger>(
    start: u64,
    last: u64,
    cost: &C,
    steps: &mut Steps<L>,
) -> u64
    requires some { start < last }
    requires within { last ≤ C.count cost.now }
    ensures part { (start < result) × (result ≤ last) }
    ensures allowed { C.cost_of cost.now start result
        ≤ (numbers_of (C.format_of cost.now)).limit }
    ensures whole { C.cost_of cost.now start last ≤ (numbers_of (C.format_of cost.now)).limit
        → result ≡ last }
    ensures counted { (steps.old ≤ steps.new) × (steps.new ≤ steps.old + 33) }
{
    let limit = cost.format().limit();
    if cost.cost(start, last, steps) <= limit {
        return last;
    }
    let mut low = start + 1;
    let mut high = last;
    let mut turns = 0u64;
    while turns < 32 && low + 1 < high {
        let middle = low + (high - low) / 2;
        if cost.cost(start, middle, steps) <= limit {
            low = middle;
        } else {
            high = middle;
        }
        turns += 1;
    }
    low
}
