ghost use Rattle.std.specs.Prelude.{◌≡◌, ◌≤◌, ◌<◌, ◌+◌, ◌*◌, ◌^◌, ◌⊎◌, ◌∷◌, []};
ghost use Rattle.std.specs.Prelude.{length, IfOk, IfSome};
ghost use Rattle.std.specs.List.{All};
ghost use Rattle.std.specs.List.Sorted.{IsStrictlyIncreasing};
ghost use Rattle.collection_model.specs.FormatNumbers.{part_charge};
ghost use Rattle.part_cost.specs.Formats.{numbers_of};
ghost use Rattle.part_cost.specs.Span.{cost_of_part};
ghost use Rattle.part_cost.specs.Partition.{IsAllowed, IsNear, partition_cost};
ghost use Rattle.cost_windows.specs.WindowBounds.{window_bounds};
ghost use Rattle.partition_path.specs.FoundCuts.{AreBelowWhole, IsWhole};
ghost use Rattle.partition_path.specs.Trying.{CutsCostACharge};

use crate::allowed::allowed_ends;
use crate::joints::{shift_ends, total_cost};
use crate::lines::line_cuts;
use crate::search::{LOOKS, is_cheap_way, routes_found};
use crate::whole::cost_as_one_part;
use no_memory::NoMemory;
use part_cost::{Format, ListCost, SpanCost, formats_have_room, payloads_add};
use std::alloc::Global;
use std::marker::Model;
use std::sync::ledger::Ledger;
use step_count::Steps;

/// A partition, with its cost.
///
/// A contract sees the ends as a list, and the total as a number.
#[derive(Drop)]
pub struct Cuts {
    ends: Vec<u64>,
    total: u64,
}

impl Model for Cuts {
    ghost use Rattle.partition_path.specs.FoundCuts.{FoundCuts};

    ghost Value = { FoundCuts };

    ghost view = { λ c. record { ends = c.ends.items; total = c.total } };
}

impl Cuts {
    // All numbers as one part, which costs so much.
    fn of_one_part<C: SpanCost>(alloc: Global, cost: &C, total: u64) -> Result<Cuts, NoMemory>
        requires { total ≡ C.cost_of cost.now 0 (C.count cost.now) }
        ensures ends { IfOk result (λ cuts. cuts.ends ≡ C.count cost.now ∷ []) }
        ensures total { IfOk result (λ cuts. cuts.total
            ≡ partition_cost (C.cost_of cost.now) (C.count cost.now ∷ [])) }
    {
        let mut ends = Vec::new(alloc);
        ends.push(cost.len())?;
        Ok(Cuts { ends, total })
    }

    /// The ends of the parts, each the place after the part's last number; none of an empty
    /// sequence.
    pub fn ends(&self) -> &[u64]
        ensures { result.now ≡ self.now.ends }
    {
        self.ends.as_slice()
    }

    /// The sum of the costs of the parts, in bits.
    pub fn total(&self) -> u64
        ensures { result ≡ self.now.total }
    {
        self.total
    }
}

/// A partition into parts that are allowed in the costs' format, at most 103/100 of the cheapest
/// such, after the approximation of Ottaviano and Venturini (Partitioned Elias-Fano Indexes, SIGIR
/// 2014).
///
/// From each place in order, parts are tried to the longest ends under the format's window bounds.
/// A bound is passed over where a known route leads past its end at its cost, or at 103/100 of what
/// the next part costs, and a place where the next one costs no more. A sequence that costs no more
/// as one part than two parts without payload is not cut. At last each cut is moved to a place near
/// by where that is cheaper.
///
/// For each number and one more it counts at most three times as many costs as there are window
/// bounds, and it takes room for a few numbers at each place. An `Err` comes only where memory is
/// refused.
pub fn partition<C: SpanCost, L: Ledger>(
    alloc: Global,
    cost: &C,
    steps: &mut Steps<L>,
) -> Result<Cuts, NoMemory>
    ensures near { IfOk result (λ cuts. IsNear (numbers_of (C.format_of cost.now)).limit
        (C.cost_of cost.now) (C.count cost.now) cuts.ends) }
    ensures total { IfOk result (λ cuts. cuts.total
        ≡ partition_cost (C.cost_of cost.now) cuts.ends) }
    ensures counted { IfOk result (λ cuts. steps.old + length cuts.ends ≤ steps.new) }
    ensures bounded { steps.new ≤ steps.old + 3 * length (window_bounds (C.format_of cost.now)) *
        (C.count cost.now + 1) }
{
    if let Some(total) = cost_as_one_part(cost, steps) {
        return Cuts::of_one_part(alloc, cost, total);
    }
    cuts_found(alloc, cost, 0, steps)
}

/// A partition as that of [`partition`] of the values of a rising list.
///
/// First the cheapest way along lines under the costs of parts is found in one pass, with parts
/// that are allowed: where it costs at most 103/100 of what each partition costs by these lines, it
/// is taken, and no part is tried. Where parts are tried, no longer one is from a place where a
/// known route leads on from it for at most 103/100 of the payload of the part up to there.
pub fn list_partition<L: Ledger>(
    alloc: Global,
    values: &[u64],
    format: Format,
    steps: &mut Steps<L>,
) -> Result<Cuts, NoMemory>
    requires rising { IsStrictlyIncreasing values.now }
    requires below { All (λ x. x < (numbers_of format).most_sum) values.now }
    requires few { length values.now < 2 ^ 32 }
    ensures near { IfOk result (λ cuts. IsNear (numbers_of format).limit
        (cost_of_part (part_charge (numbers_of format)) values.now) (length values.now) cuts.ends) }
    ensures total { IfOk result (λ cuts. cuts.total
        ≡ partition_cost (cost_of_part (part_charge (numbers_of format)) values.now) cuts.ends) }
    ensures counted { IfOk result (λ cuts. steps.old + length cuts.ends ≤ steps.new) }
    ensures bounded { steps.new ≤ steps.old
        + 3 * length (window_bounds format) * (length values.now + 1) }
{
    let cost = ListCost::new(values, format);
    if let Some(total) = cost_as_one_part(&cost, steps) {
        return Cuts::of_one_part(alloc, &cost, total);
    }
    list_cuts(alloc, values, format, steps)
}

/// Of the values of a rising list that can also be stored whole, as one part without its charge: a
/// partition as that of [`list_partition`] that costs less than the whole takes, or all numbers as
/// one part, where the whole takes at most 103/100 of what each allowed partition costs.
///
/// An empty list has no parts. The total is what the parts cost, each with its charge.
pub fn list_partition_or_whole<L: Ledger>(
    alloc: Global,
    values: &[u64],
    format: Format,
    steps: &mut Steps<L>,
) -> Result<Cuts, NoMemory>
    requires rising { IsStrictlyIncreasing values.now }
    requires below { All (λ x. x < (numbers_of format).most_sum) values.now }
    requires few { length values.now < 2 ^ 32 }
    ensures either { IfOk result (λ cuts. AreBelowWhole (numbers_of format) values.now cuts.ends
        ⊎ IsWhole (numbers_of format) values.now cuts.ends) }
    ensures total { IfOk result (λ cuts. cuts.total
        ≡ partition_cost (cost_of_part (part_charge (numbers_of format)) values.now) cuts.ends) }
    ensures counted { IfOk result (λ cuts. steps.old + length cuts.ends ≤ steps.new) }
    ensures bounded { steps.new ≤ steps.old
        + 3 * length (window_bounds format) * (length values.now + 1) }
{
    let cost = ListCost::new(values, format);
    let count = cost.len();
    if count == 0 {
        return Ok(Cuts {
            ends: Vec::new(alloc),
            total: 0,
        });
    }
    let one_part = cost.cost(0, count, steps);
    let whole = one_part - format.charge();
    if whole <= 2 * format.charge() {
        return Cuts::of_one_part(alloc, &cost, one_part);
    }
    let cuts = list_cuts(alloc, values, format, steps)?;
    if cuts.total < whole {
        Ok(cuts)
    } else {
        Cuts::of_one_part(alloc, &cost, one_part)
    }
}

// A partition of the values of a rising list: that along lines, or else one that is searched for.
fn list_cuts<L: Ledger>(
    alloc: Global,
    values: &[u64],
    format: Format,
    steps: &mut Steps<L>,
) -> Result<Cuts, NoMemory>
    requires rising { IsStrictlyIncreasing values.now }
    requires below { All (λ x. x < (numbers_of format).most_sum) values.now }
    requires few { length values.now < 2 ^ 32 }
    ensures near { IfOk result (λ cuts. IsNear (numbers_of format).limit
        (cost_of_part (part_charge (numbers_of format)) values.now) (length values.now) cuts.ends) }
    ensures total { IfOk result (λ cuts. cuts.total
        ≡ partition_cost (cost_of_part (part_charge (numbers_of format)) values.now) cuts.ends) }
    ensures counted { IfOk result (λ cuts. steps.old + length cuts.ends ≤ steps.new) }
    ensures forward { steps.old ≤ steps.new }
    ensures bounded { steps.new ≤ steps.old
        + (2 * length (window_bounds format) + 103) * length values.now }
{
    payloads_add();
    let cost = ListCost::new(values, format);
    if let Some(cuts) = cuts_along_lines(alloc, values, format, steps)? {
        return Ok(cuts);
    }
    cuts_found(alloc, &cost, LOOKS, steps)
}

// The partition along lines under the costs of parts, where it is known to be near every allowed
// one.
fn cuts_along_lines<L: Ledger>(
    alloc: Global,
    values: &[u64],
    format: Format,
    steps: &mut Steps<L>,
) -> Result<Option<Cuts>, NoMemory>
    requires rising { IsStrictlyIncreasing values.now }
    requires below { All (λ x. x < (numbers_of format).most_sum) values.now }
    requires few { length values.now < 2 ^ 32 }
    ensures near { IfOk result (λ found. IfSome found (λ cuts. IsNear (numbers_of format).limit
        (cost_of_part (part_charge (numbers_of format)) values.now) (length values.now)
        cuts.ends)) }
    ensures total { IfOk result (λ found. IfSome found (λ cuts. cuts.total
        ≡ partition_cost (cost_of_part (part_charge (numbers_of format)) values.now) cuts.ends)) }
    ensures counted { IfOk result (λ found. IfSome found
        (λ cuts. steps.old + length cuts.ends ≤ steps.new)) }
    ensures forward { steps.old ≤ steps.new }
    ensures bounded { steps.new ≤ steps.old + 60 * length values.now }
{
    formats_have_room();
    let cost = ListCost::new(values, format);
    let lines = line_cuts(alloc, values, format.charge())?;
    let ends = allowed_ends(alloc, &lines.ends, &cost, steps)?;
    let cuts = cuts_near(ends, &cost, steps);
    if is_cheap_way(cuts.total, lines.least) {
        Ok(Some(cuts))
    } else {
        Ok(None)
    }
}

// The partition along the route to the last place that a search with so many looks finds, its cuts
// moved to places near by.
fn cuts_found<C: SpanCost, L: Ledger>(
    alloc: Global,
    cost: &C,
    looks: u64,
    steps: &mut Steps<L>,
) -> Result<Cuts, NoMemory>
    requires looks { 0 < looks → CutsCostACharge (part_charge (numbers_of (C.format_of cost.now)))
        (C.cost_of cost.now) (C.count cost.now) }
    ensures near { IfOk result (λ cuts. IsNear (numbers_of (C.format_of cost.now)).limit
        (C.cost_of cost.now) (C.count cost.now) cuts.ends) }
    ensures total { IfOk result (λ cuts. cuts.total
        ≡ partition_cost (C.cost_of cost.now) cuts.ends) }
    ensures counted { IfOk result (λ cuts. steps.old + length cuts.ends ≤ steps.new) }
    ensures forward { steps.old ≤ steps.new }
    ensures bounded { steps.new ≤ steps.old
        + (2 * length (window_bounds (C.format_of cost.now)) + looks + 27) * C.count cost.now }
{
    let routes = routes_found(alloc, cost, looks, steps)?;
    Ok(cuts_near(routes.ends(alloc)?, cost, steps))
}

// An allowed partition by its ends, its cuts moved to places near by.
fn cuts_near<C: SpanCost, L: Ledger>(ends: Vec<u64>, cost: &C, steps: &mut Steps<L>) -> Cuts
    requires { IsAllowed (numbers_of (C.format_of cost.now)).limit (C.cost_of cost.now)
        (C.count cost.now) ends.items }
    ensures allowed { IsAllowed (numbers_of (C.format_of cost.now)).limit (C.cost_of cost.now)
        (C.count cost.now) result.ends }
    ensures total { result.total ≡ partition_cost (C.cost_of cost.now) result.ends }
    ensures cheaper { result.total ≤ partition_cost (C.cost_of cost.now) ends.items }
    ensures counted { steps.old + length result.ends ≤ steps.new }
    ensures bounded { steps.new ≤ steps.old + 27 * C.count cost.now }
{
    let mut ends = ends;
    shift_ends(&mut ends, cost, steps);
    let total = total_cost(&ends, cost, steps);
    Cuts { ends, total }
}
