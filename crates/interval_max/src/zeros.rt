ghost use Rattle.std.specs.Prelude.{◌≡◌, length, IfOk};
ghost use Rattle.std.specs.List.{All};

use no_memory::NoMemory;
use std::alloc::Global;

// How many zeros are appended at once: so few take wide stores, where a long fill may go byte by
// byte.
const BLOCK: usize = 128;

// So many zeros.
pub(crate) fn zeros(alloc: Global, count: usize) -> Result<Vec<u64>, NoMemory>
    ensures count { IfOk result (λ zeros. length zeros.items ≡ count) }
    ensures zero { IfOk result (λ zeros. All (λ n. n ≡ 0) zeros.items) }
{
    let mut zeros = Vec::with_capacity(alloc, count)?;
    while zeros.len() < count {
        let more = count.min(zeros.len() + BLOCK);
        zeros.resize(more, 0)?;
    }
    Ok(zeros)
}
