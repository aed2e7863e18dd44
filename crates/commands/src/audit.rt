ghost use Rattle.std.specs.Prelude.{◌≡◌, IsTrue};
ghost use Rattle.commands.specs.Names.{Collection, SourceState, SinkState, FindsIndexOf, outside, is_refusal, Leaves, IndexAt, Starts};
ghost use Rattle.commands.specs.Texts.{Audits};

use command_ends::load_index;
use index_printing::print_audit;
use io_traits::{Depot, Sink};
use outcomes::{Stop, after_printing};
use std::alloc::Global;
use std::sync::ledger::Ledger;
use step_count::Steps;

/// Reads the index under the name, and prints how close to the least costs each of its sequences is
/// cut.
pub fn audit<D: Depot, O: Sink, L: Ledger>(
    alloc: Global,
    index: &str,
    depot: &mut D,
    out: &mut O,
    steps: &mut Steps<L>,
) -> Result<(), Stop>
    ensures leaves { (i : SourceState) (e e' : SinkState)
        → Leaves (Audits index.now) (Starts (IndexAt index.now))
        (outside (D.state depot.old) i (O.state out.old) e steps.old)
        (outside (D.state depot.new) i (O.state out.new) e' steps.new) result }
    ensures refused { IsTrue (is_refusal result) → out.new ≡ out.old }
    ensures unaccepted { ¬ ((c : Collection) × FindsIndexOf index.now (D.state depot.old) c)
        → out.new ≡ out.old }
{
    let opened = load_index(alloc, index, depot)?;
    let index = opened.index();
    after_printing(print_audit(alloc, &index, out, steps))
}
