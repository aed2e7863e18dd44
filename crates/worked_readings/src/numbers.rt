// Numbers in bytes.
use std::alloc::{AllocError, Global};

// The bytes of these numbers.
pub(crate) fn bytes(alloc: Global, numbers: &[u32]) -> Result<Vec<u8>, AllocError> {
    let mut all = Vec::new(alloc);
    for n in numbers {
        all.extend_from_slice(&n.to_le_bytes())?;
    }
    Ok(all)
}
