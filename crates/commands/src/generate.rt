ghost use Rattle.std.specs.Prelude.{◌≡◌, IsTrue};
ghost use Rattle.commands.specs.Names.{DepotState, SourceState, SinkState, outside, is_refusal, Starts, Leaves, Nothing};
ghost use Rattle.commands.specs.Texts.{Generates};

use index_building::generated_words;
use index_file::{Index, one_index};
use index_printing::print_generated;
use io_traits::Sink;
use outcomes::{Stop, after_printing};
use std::alloc::Global;
use std::sync::ledger::Ledger;
use step_count::Steps;

/// A generated collection: its seed, and how many documents and terms it has.
#[derive(Clone, Copy)]
pub struct GeneratedCollection {
    pub seed: u32,
    pub documents: u32,
    pub terms: u32,
}

/// Builds the words of a generated collection, and prints what is told of it.
pub fn generate<O: Sink, L: Ledger>(
    alloc: Global,
    collection: GeneratedCollection,
    out: &mut O,
    steps: &mut Steps<L>,
) -> Result<(), Stop>
    ensures leaves { (d : DepotState) (i : SourceState) (e e' : SinkState)
        → Leaves (Generates collection.seed collection.documents collection.terms)
        (Starts Nothing)
        (outside d i (O.state out.old) e steps.old) (outside d i (O.state out.new) e' steps.new)
        result }
    ensures refused { IsTrue (is_refusal result) → out.new ≡ out.old }
{
    one_index();
    let GeneratedCollection {
        seed,
        documents,
        terms,
    } = collection;
    let words = generated_words(alloc, seed, documents, terms, steps)?;
    let index = Index::known(&words);
    after_printing(print_generated(alloc, &index, out))
}
