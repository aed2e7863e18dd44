ghost use Rattle.std.specs.Prelude.{◌≡◌, ℕ, IsTrue};
ghost use Rattle.commands.specs.Names.{Collection, SourceState, SinkState, FindsIndexOf, outside, is_refusal, Leaves, IndexAt, Starts};
ghost use Rattle.commands.specs.Texts.{Inspects};

use command_ends::load_index;
use index_printing::print_summary;
use io_traits::{Depot, Sink};
use outcomes::{Stop, after_printing};
use std::alloc::Global;

/// Reads the index under the name, and prints the line that sums it up.
pub fn inspect<D: Depot, O: Sink>(
    alloc: Global,
    index: &str,
    depot: &mut D,
    out: &mut O,
) -> Result<(), Stop>
    ensures leaves { (i : SourceState) (e e' : SinkState) (costs : ℕ)
        → Leaves (Inspects index.now) (Starts (IndexAt index.now))
        (outside (D.state depot.old) i (O.state out.old) e costs)
        (outside (D.state depot.new) i (O.state out.new) e' costs) result }
    ensures refused { IsTrue (is_refusal result) → out.new ≡ out.old }
    ensures unaccepted { ¬ ((c : Collection) × FindsIndexOf index.now (D.state depot.old) c)
        → out.new ≡ out.old }
{
    let opened = load_index(alloc, index, depot)?;
    let index = opened.index();
    after_printing(print_summary(alloc, &index, out))
}
