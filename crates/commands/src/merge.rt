ghost use Rattle.commands.specs.Names.{SourceState, SinkState, outside, Leaves, IndexesAt, Starts, Wide};
ghost use Rattle.command_line.specs.Command.{texts};
ghost use Rattle.commands.specs.Files.{Merges};

use crate::joining::load_segments;
use command_ends::words_fit;
use index_building::collected_words;
use index_reading::JoinedIndexes;
use io_traits::{Depot, Slot};
use outcomes::{Stop, after_writing};
use part_cost::Format;
use segments::{Joining, SegRule, joined_is_well_formed};
use std::alloc::Global;
use std::sync::ledger::Ledger;
use step_count::Steps;
use word_files::write_words;

/// Reads the indexes under the names, one after the other, and writes the packed index of the
/// collection to which they are joined, with as many terms as the most of them have, as the file of
/// another name.
pub fn merge<D: Depot, L: Ledger>(
    alloc: Global,
    indexes: &[String],
    to: &str,
    depot: &mut D,
    steps: &mut Steps<L>,
) -> Result<(), Stop>
    ensures { (i : SourceState) (o e e' : SinkState)
        → Leaves (Merges (texts indexes.now) to.now) (Starts (IndexesAt Wide (texts indexes.now)))
        (outside (D.state depot.old) i o e steps.old) (outside (D.state depot.new) i o e' steps.new)
        result }
{
    joined_is_well_formed();
    let opened = load_segments(alloc, indexes, Joining::Wide, depot)?;
    let joined = JoinedIndexes::new(alloc, &opened)?;
    if let Some(segment) = joined.too_frequent(alloc) {
        return Err(Stop::UnfitSegment(SegRule::G3, segment));
    }
    let merged = collected_words(alloc, &joined, Format::Three, steps)?;
    words_fit(&merged);
    let written = write_words(alloc, &merged, to, depot);
    after_writing(Slot::Index, written)
}
