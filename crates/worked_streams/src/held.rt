// Files that are held in memory.
use std::alloc::{AllocError, Global};

// The bytes of this text.
pub(crate) fn bytes(alloc: Global, text: &str) -> Result<Vec<u8>, AllocError> {
    Vec::from_slice(alloc, text.as_bytes())
}

// Files of these names and texts.
pub(crate) fn files(
    alloc: Global,
    all: &[(&str, &str)],
) -> Result<Vec<(String, Vec<u8>)>, AllocError> {
    let mut list = Vec::new(alloc);
    for (name, text) in all {
        list.push((String::from_str(alloc, name)?, bytes(alloc, text)?))?;
    }
    Ok(list)
}
