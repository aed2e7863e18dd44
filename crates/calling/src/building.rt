ghost use Rattle.std.specs.Prelude.{◌≡◌, ℕ, ◌+◌, ◌*◌, ◌≤◌, ◌<◌, ◌^◌, [], ◌∷◌, length, IfOk};
ghost use Rattle.std.specs.List.{All};
ghost use Rattle.collection_model.specs.FormatNumbers.{format_two};
ghost use Rattle.collection_model.specs.Collection.{postings_of, IsPostingList};
ghost use Rattle.cost_windows.specs.WindowBounds.{window_bounds};
ghost use Rattle.index_file.specs.FileWords.{ListParts, Spells};
ghost use Rattle.calling.specs.OneList.{one_list, WouldBeTooMany};

use index_file::{Builder, FinishError, files_spell_collections};
use part_cost::Format;
use std::alloc::Global;
use std::sync::ledger::Ledger;
use step_count::Steps;

/// The words of the index, in the second format, of one list over as many documents as there are
/// sizes. The documents rise, and each has its frequency, at least 1, at the same place. Where
/// there would be more than 2^37 words, or memory is refused, there are none; the part costs that
/// were computed until then are counted.
pub fn index_of_list<L: Ledger>(
    alloc: Global,
    docs: &[u32],
    freqs: &[u32],
    sizes: &[u32],
    steps: &mut Steps<L>,
) -> Result<Vec<u64>, FinishError>
    requires same_length { length docs.now ≡ length freqs.now }
    requires few { length sizes.now < 2 ^ 32 }
    requires list { IsPostingList format_two (length sizes.now) (postings_of docs.now freqs.now) }
    ensures words { IfOk result (λ words. (parts : ListParts)
        × Spells format_two words.items
        (one_list (postings_of docs.now freqs.now) sizes.now) (parts ∷ [])) }
    ensures too_large { (n : ℕ) → result ≡ Err (FinishError.TooLarge n)
        → WouldBeTooMany (postings_of docs.now freqs.now) sizes.now n }
    // At most three counted costs a window for each number and one more, in each of the two
    // sequences.
    ensures bounded { steps.new ≤ steps.old + 6 * length (window_bounds Format.Two) *
        (length docs.now + 1) }
{
    files_spell_collections();
    sizes_fit(sizes);
    let Ok(mut builder) = Builder::new(alloc, sizes.len() as u32, Format::Two) else {
        return Err(FinishError::NoMemory);
    };
    let Ok(()) = builder.add_list(docs, freqs, steps) else {
        return Err(FinishError::NoMemory);
    };
    builder.finish(sizes)
}

// Sizes are numbers of 32 bits.
fn sizes_fit(sizes: &[u32])
    ensures { All (λ s. s < 2 ^ 32) sizes.now }
{}
