ghost use Rattle.std.specs.Prelude.{◌≡◌, ◌<◌, ◌^◌};
ghost use Rattle.std.specs.List.{All};
ghost use Rattle.index_building.specs.WordsOfFiles.{BuildsWords, words_built};

use collection_reader::{
    CollError, Fault, ListReader, files_have_one_first_fault, lists_are_read_in_turn,
};
use index_file::{Builder, FinishError, files_spell_collections, lists_are_counted};
use io_traits::{Depot, Slot};
use no_memory::NoMemory;
use part_cost::{Format, formats_have_room};
use std::alloc::Global;
use std::sync::ledger::Ledger;
use step_count::Steps;

/// Why no words were built.
#[derive(Clone, Copy, Debug, PartialEq, Eq)]
pub enum BuildError {
    /// The files break a rule: the first that breaks.
    Broken(Fault),
    /// A start or a read of this slot failed.
    Read(Slot),
    /// There would be so many words, more than 2^37.
    TooLarge(u64),
    /// Memory was refused, here or by the depot.
    NoMemory,
}

impl From<CollError> for BuildError {
    ghost use Rattle.index_building.specs.WordsOfFiles.{build_error};

    ghost from_gives = { λ e answer. answer ≡ build_error e };

    fn from(e: CollError) -> BuildError {
        match e {
            CollError::Broken(fault) => BuildError::Broken(fault),
            CollError::Read(slot) => BuildError::Read(slot),
            CollError::NoMemory => BuildError::NoMemory,
        }
    }
}

impl From<NoMemory> for BuildError {
    ghost use Rattle.index_building.specs.declared.build.BuildError.TheVariants as build;

    ghost from_gives = { λ _ answer. answer ≡ build.NoMemory };

    fn from(_e: NoMemory) -> BuildError {
        BuildError::NoMemory
    }
}

impl From<FinishError> for BuildError {
    ghost use Rattle.index_building.specs.WordsOfFiles.{finish_error};

    ghost from_gives = { λ e answer. answer ≡ finish_error e };

    fn from(e: FinishError) -> BuildError {
        match e {
            FinishError::TooLarge(count) => BuildError::TooLarge(count),
            FinishError::NoMemory => BuildError::NoMemory,
        }
    }
}

/// The words of the index file of the collection whose files are BASE.docs, BASE.freqs and
/// BASE.sizes, read with the limits of the format and cut into near-cheapest parts. Each list is
/// added as soon as it is read, so the collection is never held.
///
/// It counts, for each sequence, at least one part cost where it is not empty, and at most three
/// for each window bound of the format and each number and one more.
pub fn build_words<D: Depot, L: Ledger>(
    alloc: Global,
    base: &str,
    depot: &mut D,
    format: Format,
    steps: &mut Steps<L>,
) -> Result<Vec<u64>, BuildError>
    ensures { BuildsWords format base.now (D.state depot.old) (D.state depot.new) steps.old
        steps.new (words_built result) }
{
    formats_have_room();
    lists_are_read_in_turn();
    files_have_one_first_fault();
    lists_are_counted();
    files_spell_collections();
    let mut reader = ListReader::start(alloc, base, depot, format)?;
    let mut builder = Builder::new(alloc, reader.documents(), format)?;
    let mut docs = Vec::new(alloc);
    let mut freqs = Vec::new(alloc);
    while reader.next_list(depot, &mut docs, &mut freqs)? {
        builder.add_list(&docs, &freqs, steps)?;
    }
    let mut sizes = Vec::new(alloc);
    reader.finish(depot, &mut sizes)?;
    sizes_fit(&sizes);
    Ok(builder.finish(&sizes)?)
}

// Sizes are numbers of 32 bits.
fn sizes_fit(sizes: &[u32])
    ensures { All (λ s. s < 2 ^ 32) sizes.now }
{}
