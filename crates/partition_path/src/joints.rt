ghost use Rattle.std.specs.Prelude.{◌≡◌, ◌+◌, ◌*◌, ◌^◌, ◌<◌, ◌≤◌, length};
ghost use Rattle.part_cost.specs.Formats.{numbers_of};
ghost use Rattle.part_cost.specs.Partition.{IsPartition, IsAllowed, partition_cost};
ghost use Rattle.partition_path.specs.Joints.{IsAllowedCut};

use part_cost::{SpanCost, formats_have_room};
use std::sync::ledger::Ledger;
use step_count::Steps;

// Moves each end but the last to a place near by where that is allowed and costs less.
pub(crate) fn shift_ends<C: SpanCost, L: Ledger>(
    ends: &mut Vec<u64>,
    cost: &C,
    steps: &mut Steps<L>,
)
    requires { IsAllowed (numbers_of (C.format_of cost.now)).limit (C.cost_of cost.now)
        (C.count cost.now) ends.old.items }
    ensures allowed { IsAllowed (numbers_of (C.format_of cost.now)).limit (C.cost_of cost.now)
        (C.count cost.now) ends.new.items }
    ensures cheaper { partition_cost (C.cost_of cost.now) ends.new.items
        ≤ partition_cost (C.cost_of cost.now) ends.old.items }
    ensures count { length ends.new.items ≡ length ends.old.items }
    ensures counted { steps.old ≤ steps.new }
    ensures bounded { steps.new ≤ steps.old + 26 * length ends.old.items }
{
    let mut start = 0;
    for k in 1..ends.len() {
        let cut = shifted(start, ends[k - 1], ends[k], cost, steps);
        ends[k - 1] = cut;
        start = cut;
    }
}

// The cut between two places that is the cheapest of some near by.
fn shifted<C: SpanCost, L: Ledger>(
    start: u64,
    cut: u64,
    end: u64,
    cost: &C,
    steps: &mut Steps<L>,
) -> u64
    requires within { end ≤ C.count cost.now }
    requires cut { IsAllowedCut (numbers_of (C.format_of cost.now)).limit (C.cost_of cost.now)
        start end cut }
    ensures cut { IsAllowedCut (numbers_of (C.format_of cost.now)).limit (C.cost_of cost.now)
        start end result }
    ensures cheaper { C.cost_of cost.now start result + C.cost_of cost.now result end
        ≤ C.cost_of cost.now start cut + C.cost_of cost.now cut end }
    ensures counted { steps.old ≤ steps.new }
    ensures bounded { steps.new ≤ steps.old + 26 }
{
    formats_have_room();
    let first = cost.cost(start, cut, steps);
    let mut joint = Joint {
        cut,
        cost: first + cost.cost(cut, end, steps),
    };
    for step in [32, 16, 8, 4, 2, 1] {
        joint = joint.or_at(joint.cut + step, start, end, cost, steps);
        joint = joint.or_at(joint.cut.saturating_sub(step), start, end, cost, steps);
    }
    joint.cut
}

// A cut between two places, with what the parts on both sides of it cost.
#[derive(Clone, Copy)]
struct Joint {
    cut: u64,
    cost: u64,
}

impl Joint {
    // This one, or the one at another cut where that is allowed and costs less.
    fn or_at<C: SpanCost, L: Ledger>(
        self,
        cut: u64,
        start: u64,
        end: u64,
        cost: &C,
        steps: &mut Steps<L>,
    ) -> Joint
        requires within { end ≤ C.count cost.now }
        requires cut { IsAllowedCut (numbers_of (C.format_of cost.now)).limit (C.cost_of cost.now)
            start end self.cut }
        requires cost { self.cost
            ≡ C.cost_of cost.now start self.cut + C.cost_of cost.now self.cut end }
        ensures cut { IsAllowedCut (numbers_of (C.format_of cost.now)).limit (C.cost_of cost.now)
            start end result.cut }
        ensures cost { result.cost
            ≡ C.cost_of cost.now start result.cut + C.cost_of cost.now result.cut end }
        ensures cheaper { result.cost ≤ self.cost }
        ensures counted { steps.old ≤ steps.new }
        ensures bounded { steps.new ≤ steps.old + 2 }
    {
        if cut <= start || end <= cut {
            return self;
        }
        let limit = cost.format().limit();
        let first = cost.cost(start, cut, steps);
        let second = cost.cost(cut, end, steps);
        if first > limit || second > limit || self.cost <= first + second {
            return self;
        }
        Joint {
            cut,
            cost: first + second,
        }
    }
}

// What the parts up to these ends cost together.
pub(crate) fn total_cost<C: SpanCost, L: Ledger>(
    ends: &[u64],
    cost: &C,
    steps: &mut Steps<L>,
) -> u64
    requires partition { IsPartition (C.count cost.now) ends.now }
    requires room { partition_cost (C.cost_of cost.now) ends.now < 2 ^ 64 }
    ensures value { result ≡ partition_cost (C.cost_of cost.now) ends.now }
    ensures counted { steps.new ≡ steps.old + length ends.now }
{
    let mut total = 0;
    let mut start = 0;
    for end in ends {
        total += cost.cost(start, *end, steps);
        start = *end;
    }
    total
}
