ghost use Rattle.std.specs.Prelude.{◌≡◌, ℕ, ◌+◌, ◌%◌, map, IfOk};
ghost use Rattle.std.specs.List.{range_with_len};
ghost use Rattle.pef_report.specs.Generated.{generated};

use no_memory::NoMemory;
use std::alloc::{AllocError, Global};

/// The sizes of the n documents of a generated collection, which are the same for every seed and
/// every number of lists.
pub fn document_sizes(alloc: Global, n: u32) -> Result<Vec<u32>, NoMemory>
    ensures { IfOk result (λ sizes. (seed t : ℕ) → sizes.items ≡ (generated seed n t).sizes) }
{
    Ok(sizes_of(alloc, n)?)
}

// The sizes, with the refusal of their allocation.
fn sizes_of(alloc: Global, n: u32) -> Result<Vec<u32>, AllocError>
    ensures { IfOk result (λ sizes. sizes.items ≡ map (λ d. 1 + d % 1000) (range_with_len 0 n)) }
{
    (0..n).map(|d| 1 + d % 1000).collect(alloc)
}
