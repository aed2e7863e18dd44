ghost use Rattle.std.specs.Prelude.{◌≡◌, IsTrue};
ghost use Rattle.commands.specs.Names.{Collection, SinkState, LendTheSame, outside, is_refusal, CollectionAt, Starts, Leaves, numbers_of};
ghost use Rattle.commands.specs.Replies.{answer_format, IsAnswerable, Answers};

use collection_reader::{files_have_one_first_fault, spelled_files_have_no_fault};
use command_ends::{Devices, LONGEST_TEXT};
use index_building::build_words;
use index_file::{Index, one_index};
use io_traits::{Depot, Sink, Source};
use outcomes::{Stop, after_answering};
use part_cost::Format;
use std::alloc::Global;
use std::sync::ledger::Ledger;
use step_count::Steps;
use text_replies::{Plan, answer_text};

/// Builds the words of the collection under the base, and answers the input from them.
pub fn answer<D: Depot, I: Source, O: Sink, L: Ledger>(
    alloc: Global,
    base: &str,
    plan: Plan,
    on: &mut Devices<&mut D, &mut I, &mut O>,
    steps: &mut Steps<L>,
) -> Result<(), Stop>
    ensures leaves { (e e' : SinkState)
        → Leaves (Answers base.now) (Starts (CollectionAt (numbers_of answer_format) base.now))
        (outside (D.state on.old.depot.now) (I.state on.old.input.now)
        (O.state on.old.out.now) e steps.old)
        (outside (D.state on.new.depot.now) (I.state on.new.input.now)
        (O.state on.new.out.now) e' steps.new)
        result }
    ensures refused { IsTrue (is_refusal result)
        → (on.new.input.now ≡ on.old.input.now) × (on.new.out.now ≡ on.old.out.now) }
    ensures unaccepted { ¬ ((c : Collection) × IsAnswerable base.now (D.state on.old.depot.now) c)
        → (on.new.input.now ≡ on.old.input.now) × (on.new.out.now ≡ on.old.out.now) }
    ensures same { LendTheSame on.old on.new }
{
    files_have_one_first_fault();
    spelled_files_have_no_fault();
    one_index();
    let words = build_words(alloc, base, on.depot, Format::Two, steps)?;
    let index = Index::known(&words);
    let answered = answer_text(alloc, &index, plan, on.input, LONGEST_TEXT, on.out);
    after_answering(answered)
}
