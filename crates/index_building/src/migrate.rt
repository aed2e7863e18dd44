ghost use Rattle.std.specs.Prelude.{◌≡◌, ℕ, IfOk};
ghost use Rattle.collection_model.specs.Collection.{WellFormed};
ghost use Rattle.index_building.specs.AddedFromFiles.{AreAdded};
ghost use Rattle.part_cost.specs.Formats.{numbers_of};
ghost use Rattle.index_building.specs.WordsOfCollection.{AreWordsOf, HoldsAllOf, WouldBeTooMany};

use index_file::{Builder, FinishError, Index, files_spell_collections, lists_are_counted};
use index_reading::{ListSource, ReadLists};
use no_memory::NoMemory;
use part_cost::Format;
use std::alloc::Global;
use std::sync::ledger::Ledger;
use step_count::Steps;

/// The words of the index file of the collection that an index stands for, in a format that may
/// hold it, and cut anew into near-cheapest parts. Part costs are counted as in building.
pub fn migrated_words<L: Ledger>(
    alloc: Global,
    index: &Index<'_>,
    format: Format,
    steps: &mut Steps<L>,
) -> Result<Vec<u64>, FinishError>
    requires { HoldsAllOf (numbers_of index.now.format) (numbers_of format) }
    ensures words { IfOk result (λ words. AreWordsOf format index.now.collection steps.old
        steps.new words.items) }
    ensures too_large { (n : ℕ) → result ≡ Err (FinishError.TooLarge n)
        → WouldBeTooMany format index.now.collection steps.old steps.new n }
{
    index.stands_for_a_collection();
    collected_words(alloc, index, format, steps)
}

/// The words of the index file of a collection that is read list by list, in a format that may hold
/// it, and cut into near-cheapest parts. Each list is added as soon as it was read, so the
/// collection is never held. Part costs are counted as in building.
pub fn collected_words<S: ListSource, L: Ledger>(
    alloc: Global,
    source: &S,
    format: Format,
    steps: &mut Steps<L>,
) -> Result<Vec<u64>, FinishError>
    requires { WellFormed (numbers_of format) (S.collection source.now) }
    ensures words { IfOk result (λ words. AreWordsOf format (S.collection source.now) steps.old
        steps.new words.items) }
    ensures too_large { (n : ℕ) → result ≡ Err (FinishError.TooLarge n)
        → WouldBeTooMany format (S.collection source.now) steps.old steps.new n }
{
    files_spell_collections();
    let builder = add_lists_of(alloc, source, format, steps).map_err(|_| FinishError::NoMemory)?;
    let sizes = source
        .document_sizes(alloc)
        .map_err(|_| FinishError::NoMemory)?;
    builder.finish(&sizes)
}

// A builder with each list of a collection, for a format that may hold it.
fn add_lists_of<S: ListSource, L: Ledger>(
    alloc: Global,
    source: &S,
    format: Format,
    steps: &mut Steps<L>,
) -> Result<Builder, NoMemory>
    requires { WellFormed (numbers_of format) (S.collection source.now) }
    ensures { IfOk result (λ built. AreAdded format built (S.collection source.now).documents
        (S.collection source.now).lists steps.old steps.new) }
{
    lists_are_counted();
    let mut builder = Builder::new(alloc, source.documents(), format)?;
    let mut docs = Vec::new(alloc);
    let mut freqs = Vec::new(alloc);
    let walked = source.walked_terms();
    let mut lists = source.lists_in_turn(alloc)?;
    for term in 0..walked {
        lists.read_next(term, &mut docs, &mut freqs)?;
        builder.add_list(&docs, &freqs, steps)?;
    }
    builder.add_empty_lists(source.terms() - walked)?;
    Ok(builder)
}
