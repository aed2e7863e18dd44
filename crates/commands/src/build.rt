ghost use Rattle.commands.specs.Names.{SourceState, SinkState, outside, CollectionAt, Starts, Leaves, numbers_of};
ghost use Rattle.commands.specs.Files.{Builds};

use collection_reader::{files_have_one_first_fault, spelled_files_have_no_fault};
use command_ends::words_fit;
use index_building::build_words;
use io_traits::{Depot, Slot};
use outcomes::{Stop, after_writing};
use part_cost::Format;
use std::alloc::Global;
use std::sync::ledger::Ledger;
use step_count::Steps;
use word_files::write_words;

/// An index that is to be written: the name of its file, and its format.
#[derive(Clone, Copy)]
pub struct NewIndex<'a> {
    pub name: &'a str,
    pub format: Format,
}

/// Builds the index of the collection under the base, and writes it as a file.
pub fn build<D: Depot, L: Ledger>(
    alloc: Global,
    base: &str,
    index: NewIndex<'_>,
    depot: &mut D,
    steps: &mut Steps<L>,
) -> Result<(), Stop>
    ensures { (i : SourceState) (o e e' : SinkState)
        → Leaves (Builds index.entry.format base.now index.entry.name.now)
        (Starts (CollectionAt (numbers_of index.entry.format) base.now))
        (outside (D.state depot.old) i o e steps.old) (outside (D.state depot.new) i o e' steps.new)
        result }
{
    files_have_one_first_fault();
    spelled_files_have_no_fault();
    let words = build_words(alloc, base, depot, index.format, steps)?;
    words_fit(&words);
    let written = write_words(alloc, &words, index.name, depot);
    after_writing(Slot::Index, written)
}
