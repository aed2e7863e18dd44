ghost use Rattle.std.specs.Prelude.{◌≡◌, ◌<◌, ◌^◌, length, IfOk, IfErr};
ghost use Rattle.index_file.specs.FileWords.{IsIndex};
ghost use Rattle.index_file.specs.FirstBroken.{IsFirstBroken};
ghost use Rattle.index_file.specs.IndexView.{index_stated};

use index_file::{Index, OpenFault};

/// How many documents and how many terms an index has, whose words are given; or the first check
/// that breaks.
pub fn counts(words: &[u64]) -> Result<(u32, u32), OpenFault>
    requires words { length words.now < 2 ^ 57 }
    ensures documents { IfOk result (λ counts. counts.0
        ≡ (index_stated words.now).collection.documents) }
    ensures terms { IfOk result (λ counts. counts.1
        ≡ length (index_stated words.now).collection.lists) }
    ensures refused { IfErr result (λ fault. IsFirstBroken words.now fault) }
    ensures no_index { IfErr result (λ fault. ¬ IsIndex words.now) }
{
    let index = Index::view(words)?;
    Ok((index.documents(), index.terms()))
}
