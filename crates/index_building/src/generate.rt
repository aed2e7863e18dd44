ghost use Rattle.std.specs.Prelude.{◌≡◌, ℕ, IfOk};
ghost use Rattle.pef_report.specs.Generated.{generated};
ghost use Rattle.index_building.specs.AddedFromFiles.{AreAdded};
ghost use Rattle.index_building.specs.WordsOfCollection.{AreWordsOf, WouldBeTooMany};

use index_file::{Builder, FinishError, files_spell_collections, lists_are_counted};
use no_memory::NoMemory;
use part_cost::Format;
use pef_report::{Gen, document_sizes, generated_are_well_formed};
use std::alloc::Global;
use std::sync::ledger::Ledger;
use step_count::Steps;

/// The words of the index file of the generated collection of a seed, in the second format and cut
/// into near-cheapest parts. Each list is added as soon as it is drawn, so the collection is never
/// held. Part costs are counted as in building.
pub fn generated_words<L: Ledger>(
    alloc: Global,
    seed: u32,
    documents: u32,
    terms: u32,
    steps: &mut Steps<L>,
) -> Result<Vec<u64>, FinishError>
    ensures words { IfOk result (λ words. AreWordsOf Format.Two (generated seed documents terms)
        steps.old steps.new words.items) }
    ensures too_large { (n : ℕ) → result ≡ Err (FinishError.TooLarge n)
        → WouldBeTooMany Format.Two (generated seed documents terms) steps.old steps.new n }
{
    files_spell_collections();
    generated_are_well_formed();
    let builder = add_generated(alloc, seed, documents, terms, steps).map_err(
        |_| FinishError::NoMemory,
    )?;
    let sizes = document_sizes(alloc, documents).map_err(|_| FinishError::NoMemory)?;
    builder.finish(&sizes)
}

// A builder with each list of the generated collection of a seed.
fn add_generated<L: Ledger>(
    alloc: Global,
    seed: u32,
    documents: u32,
    terms: u32,
    steps: &mut Steps<L>,
) -> Result<Builder, NoMemory>
    ensures { let all = generated seed documents terms in IfOk result
        (λ built. AreAdded Format.Two built all.documents all.lists steps.old steps.new) }
{
    lists_are_counted();
    generated_are_well_formed();
    let mut lists = Gen::new(seed, documents, terms);
    let mut builder = Builder::new(alloc, documents, Format::Two)?;
    let mut docs = Vec::new(alloc);
    let mut freqs = Vec::new(alloc);
    while lists.next_list(&mut docs, &mut freqs)? {
        builder.add_list(&docs, &freqs, steps)?;
    }
    Ok(builder)
}
