ghost use Rattle.std.specs.Prelude.{◌≡◌, ℕ, ◌≤◌, ◌<◌, ◌+◌, ◌-◌, ◌*◌, length, slice_index};
ghost use Rattle.std.specs.Prelude.{IfOk, IsTrue, not};
ghost use Rattle.part_cost.specs.Formats.{numbers_of};
ghost use Rattle.part_cost.specs.Partition.{IsCheapest, IsCheapestOfAll};
ghost use Rattle.partition_path.specs.Rests.{IsCheapestRest, LongPartsAreAbove};
ghost use Rattle.partition_path.specs.Rests.{cost_within, whole_cost};

use no_memory::NoMemory;
use part_cost::{SpanCost, formats_have_room};
use std::alloc::Global;
use std::sync::ledger::Ledger;
use step_count::Steps;

/// The least cost of a partition, and what all numbers cost as one part, in bits.
#[derive(Clone, Copy)]
pub struct ExactCosts {
    /// The least cost of a partition.
    pub least: u64,
    /// What all numbers cost as one part; `None` of no number, and where a limit holds and they
    /// cost more than it.
    pub whole: Option<u64>,
}

/// The least cost of a partition, as that of [`exact_costs`] and with as many costs counted.
pub fn exact_cost<C: SpanCost, L: Ledger>(
    alloc: Global,
    cost: &C,
    limited: bool,
    steps: &mut Steps<L>,
) -> Result<u64, NoMemory>
    ensures allowed { IsTrue limited → IfOk result
        (λ least. IsCheapest (numbers_of (C.format_of cost.now)).limit (C.cost_of cost.now)
        (C.count cost.now) least) }
    ensures of_all { IsTrue (not limited) → IfOk result
        (λ least. IsCheapestOfAll (C.cost_of cost.now) (C.count cost.now) least) }
    ensures counted { IfOk result (λ least. steps.old + C.count cost.now ≤ steps.new) }
    ensures bounded { 2 * steps.new ≤ 2 * steps.old + C.count cost.now * (C.count cost.now + 1) }
    ensures none_behind { IsTrue limited → (b : ℕ)
        → LongPartsAreAbove (numbers_of (C.format_of cost.now)).limit (C.cost_of cost.now)
        (C.count cost.now) b → steps.new ≤ steps.old + C.count cost.now * (b + 1) }
{
    Ok(exact_costs(alloc, cost, limited, steps)?.least)
}

/// The least cost of a partition into parts that are allowed in the costs' format where `limited`,
/// else of any partition, in bits; and what all numbers cost as one part, where such a part may be
/// taken.
///
/// It counts at most as many costs as there are parts: m(m + 1)/2 for m numbers, and at least one
/// for each number. Where `limited`, it looks at no part behind the first above the limit from each
/// place: where all parts of more than b numbers are, it counts at most b + 1 costs for each
/// number. It takes room for a number at each place. An `Err` comes only where memory is refused.
pub fn exact_costs<C: SpanCost, L: Ledger>(
    alloc: Global,
    cost: &C,
    limited: bool,
    steps: &mut Steps<L>,
) -> Result<ExactCosts, NoMemory>
    ensures allowed { IsTrue limited → IfOk result
        (λ found. IsCheapest (numbers_of (C.format_of cost.now)).limit (C.cost_of cost.now)
        (C.count cost.now) found.least) }
    ensures of_all { IsTrue (not limited) → IfOk result
        (λ found. IsCheapestOfAll (C.cost_of cost.now) (C.count cost.now) found.least) }
    ensures whole { IfOk result
        (λ found. found.whole ≡ whole_cost limited (numbers_of (C.format_of cost.now)).limit
        (C.cost_of cost.now) (C.count cost.now)) }
    ensures counted { IfOk result (λ found. steps.old + C.count cost.now ≤ steps.new) }
    ensures bounded { 2 * steps.new ≤ 2 * steps.old + C.count cost.now * (C.count cost.now + 1) }
    ensures none_behind { IsTrue limited → (b : ℕ)
        → LongPartsAreAbove (numbers_of (C.format_of cost.now)).limit (C.cost_of cost.now)
        (C.count cost.now) b → steps.new ≤ steps.old + C.count cost.now * (b + 1) }
{
    let count = cost.len();
    let mut rests = vec![in alloc; 0; count as usize + 1]?;
    let mut whole = None;
    for taken in 0..count {
        let i = count - 1 - taken;
        let from = costs_from(cost, limited, i, &rests, steps);
        rests[i as usize] = from.least;
        whole = from.whole;
    }
    Ok(ExactCosts {
        least: rests[0],
        whole,
    })
}

// The least cost of the parts from place i on, where it is known from each place behind, and what
// all numbers from there on cost as one part, where it may be taken.
fn costs_from<C: SpanCost, L: Ledger>(
    cost: &C,
    limited: bool,
    i: u64,
    rests: &[u64],
    steps: &mut Steps<L>,
) -> ExactCosts
    requires within { i < C.count cost.now }
    requires places { length rests.now ≡ C.count cost.now + 1 }
    requires rests { (j : ℕ) → i < j → j ≤ C.count cost.now
        → IsCheapestRest limited (numbers_of (C.format_of cost.now)).limit (C.cost_of cost.now)
        (C.count cost.now) j (slice_index rests.now j) }
    ensures cheapest { IsCheapestRest limited (numbers_of (C.format_of cost.now)).limit
        (C.cost_of cost.now) (C.count cost.now) i result.least }
    ensures whole { result.whole ≡ cost_within limited (numbers_of (C.format_of cost.now)).limit
        (C.cost_of cost.now i (C.count cost.now)) }
    ensures counted { (steps.old + 1 ≤ steps.new)
        × (steps.new ≤ steps.old + (C.count cost.now - i)) }
    ensures none_behind { IsTrue limited → (b : ℕ)
        → LongPartsAreAbove (numbers_of (C.format_of cost.now)).limit (C.cost_of cost.now)
        (C.count cost.now) b → steps.new ≤ steps.old + (b + 1) }
{
    formats_have_room();
    let limit = cost.format().limit();
    let mut last = cost.cost(i, i + 1, steps);
    let mut least = last + rests[i as usize + 1];
    for end in i + 2..cost.len() + 1 {
        let part = cost.cost(i, end, steps);
        if limited && part > limit {
            return ExactCosts { least, whole: None };
        }
        least = least.min(part.saturating_add(rests[end as usize]));
        last = part;
    }
    ExactCosts {
        least,
        whole: Some(last),
    }
}
