ghost use Rattle.std.specs.Prelude.{◌≡◌, ℕ, IsTrue};
ghost use Rattle.commands.specs.Names.{Collection, SinkState, FindsIndexOf, LendTheSame, outside, is_refusal, Leaves, IndexAt, Starts};
ghost use Rattle.commands.specs.Replies.{Queries};

use command_ends::{Devices, LONGEST_TEXT, load_index_words, open_index_words};
use index_intervals::ListMaxima;
use io_traits::{Depot, Sink, Source};
use outcomes::{Stop, after_answering};
use std::alloc::Global;
use text_replies::{IntervalLists, answer_by_intervals};

/// Reads the index under the name, makes the maxima of its lists while it is checked, and answers
/// the input from both.
pub fn iquery<D: Depot, I: Source, O: Sink>(
    alloc: Global,
    index: &str,
    on: &mut Devices<&mut D, &mut I, &mut O>,
) -> Result<(), Stop>
    ensures leaves { (e e' : SinkState) (costs : ℕ)
        → Leaves (Queries index.now) (Starts (IndexAt index.now))
        (outside (D.state on.old.depot.now) (I.state on.old.input.now)
        (O.state on.old.out.now) e costs)
        (outside (D.state on.new.depot.now) (I.state on.new.input.now)
        (O.state on.new.out.now) e' costs)
        result }
    ensures refused { IsTrue (is_refusal result)
        → (on.new.input.now ≡ on.old.input.now) × (on.new.out.now ≡ on.old.out.now) }
    ensures unaccepted { ¬ ((c : Collection) × FindsIndexOf index.now (D.state on.old.depot.now) c)
        → (on.new.input.now ≡ on.old.input.now) × (on.new.out.now ≡ on.old.out.now) }
    ensures same { LendTheSame on.old on.new }
{
    let words = load_index_words(alloc, index, on.depot)?;
    let mut lists = ListMaxima::new(alloc, words.len() as u64);
    let opened = open_index_words(alloc, words, &mut lists)?;
    let index = opened.index();
    let maxima = lists.of(alloc, &index)?;
    let lists = IntervalLists::new(&index, maxima.view());
    let answered = answer_by_intervals(alloc, &lists, on.input, LONGEST_TEXT, on.out);
    after_answering(answered)
}
