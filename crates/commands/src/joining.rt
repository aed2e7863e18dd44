ghost use Rattle.std.specs.Prelude.{◌≡◌, ℕ, IfErr, IfOk, IsTrue, Err};
ghost use Rattle.commands.specs.Names.{Collection, SinkState, LendTheSame, outside, IndexesAt, Starts, is_refusal, Leaves, Alike, FindsJoined, IsUnread};
ghost use Rattle.command_line.specs.Command.{texts};
ghost use Rattle.commands.specs.Private.ReadSegments.{AreLoaded, IsAccepted, IsRejected};
ghost use Rattle.commands.specs.Replies.{AnswersSegments};

use command_ends::{Devices, LONGEST_TEXT, load_index};
use index_file::{one_broken_check, one_index, words_and_bytes_undo_each_other};
use io_traits::{Depot, Sink, Source};
use open_index::OpenIndex;
use outcomes::{Stop, after_answering};
use segments::{Joining, Segments};
use std::alloc::Global;
use text_replies::{Plan, answer_joined};

/// Reads the indexes under the names, one after the other, and answers the input from the
/// collection to which they are joined.
pub fn segments<D: Depot, I: Source, O: Sink>(
    alloc: Global,
    indexes: &[String],
    plan: Plan,
    on: &mut Devices<&mut D, &mut I, &mut O>,
) -> Result<(), Stop>
    ensures leaves { (e e' : SinkState) (costs : ℕ) →
        Leaves (AnswersSegments (texts indexes.now)) (Starts (IndexesAt Alike (texts indexes.now)))
        (outside (D.state on.old.depot.now) (I.state on.old.input.now)
        (O.state on.old.out.now) e costs)
        (outside (D.state on.new.depot.now) (I.state on.new.input.now)
        (O.state on.new.out.now) e' costs)
        result }
    ensures refused { IsTrue (is_refusal result) →
        (on.new.input.now ≡ on.old.input.now) × (on.new.out.now ≡ on.old.out.now) }
    ensures unaccepted { ¬ ((c : Collection)
        × FindsJoined Alike (texts indexes.now) (D.state on.old.depot.now) c) →
        (on.new.input.now ≡ on.old.input.now) × (on.new.out.now ≡ on.old.out.now) }
    ensures same { LendTheSame on.old on.new }
{
    let opened = load_segments(alloc, indexes, Joining::Alike, on.depot)?;
    let answered = answer_joined(alloc, &opened, plan, on.input, LONGEST_TEXT, on.out);
    after_answering(answered)
}

// The indexes under the names, each of which is accepted before the next is read.
pub(crate) fn load_segments<D: Depot>(
    alloc: Global,
    names: &[String],
    joining: Joining,
    depot: &mut D,
) -> Result<Vec<OpenIndex>, Stop>
    ensures loaded { IfOk result (λ opened. AreLoaded joining (texts names.now)
        (D.state depot.old) (D.state depot.new) opened.items) }
    ensures refused { IfErr result (λ stop. IsUnread (IndexesAt joining (texts names.now))
        (D.state depot.old) (D.state depot.new) (Err stop)) }
{
    one_index();
    one_broken_check();
    words_and_bytes_undo_each_other();
    let mut joined = Segments::new(joining);
    let mut opened = Vec::with_capacity(alloc, names.len())?;
    for (s, name) in names.iter().enumerate() {
        let segment = load_segment(alloc, name.as_str(), s as u64, &mut joined, depot)?;
        opened.push(segment)?;
    }
    Ok(opened)
}

// The index under the name, which is accepted as segment s behind those that are joined.
fn load_segment<D: Depot>(
    alloc: Global,
    name: &str,
    s: u64,
    joined: &mut Segments,
    depot: &mut D,
) -> Result<OpenIndex, Stop>
    ensures accepted { IfOk result (λ index. IsAccepted name.now joined.old joined.new
        (D.state depot.old) (D.state depot.new) index) }
    ensures rejected { IfErr result (λ stop. IsRejected name.now s joined.old
        (D.state depot.old) (D.state depot.new) stop) }
{
    let opened = match load_index(alloc, name, depot) {
        Ok(opened) => opened,
        Err(stop) => return Err(stop.at_segment(s)),
    };
    let index = opened.index();
    match joined.push(index.documents(), index.terms()) {
        Ok(_) => Ok(opened),
        Err(rule) => Err(Stop::UnfitSegment(rule, s)),
    }
}
