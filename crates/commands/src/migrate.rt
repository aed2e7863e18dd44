ghost use Rattle.std.specs.Prelude.{◌≡◌};
ghost use Rattle.commands.specs.Names.{SourceState, SinkState, outside, Leaves, IndexAt, Starts};
ghost use Rattle.commands.specs.Files.{Migrates, migrate_format};

use command_ends::{load_index, words_fit};
use command_line::FileKind;
use index_building::migrated_words;
use io_traits::{Depot, Slot};
use outcomes::{Stop, after_writing};
use part_cost::Format;
use std::alloc::Global;
use std::sync::ledger::Ledger;
use step_count::Steps;
use word_files::write_words;

/// An index by its name, and the name and the kind of the file that is to be written of it.
#[derive(Clone, Copy)]
pub struct Rewrite<'a> {
    pub from: &'a str,
    pub to: &'a str,
    pub kind: FileKind,
}

/// Reads an index, and writes that of its collection, cut anew, as the file of another name: a
/// plain one in the second format, or a packed one.
pub fn migrate<D: Depot, L: Ledger>(
    alloc: Global,
    files: Rewrite<'_>,
    depot: &mut D,
    steps: &mut Steps<L>,
) -> Result<(), Stop>
    ensures { (i : SourceState) (o e e' : SinkState)
        → Leaves (Migrates (migrate_format files.entry.kind) files.entry.from.now
        files.entry.to.now)
        (Starts (IndexAt files.entry.from.now))
        (outside (D.state depot.old) i o e steps.old) (outside (D.state depot.new) i o e' steps.new)
        result }
{
    let opened = load_index(alloc, files.from, depot)?;
    let index = opened.index();
    let migrated = migrated_words(alloc, &index, migrate_format(files.kind), steps)?;
    words_fit(&migrated);
    let written = write_words(alloc, &migrated, files.to, depot);
    after_writing(Slot::Index, written)
}

// The format of a new file of a kind.
fn migrate_format(kind: FileKind) -> Format
    ensures { result ≡ migrate_format kind }
{
    match kind {
        FileKind::Plain => Format::Two,
        FileKind::Packed => Format::Three,
    }
}
