// Several calls of a depot, one behind the other.
use pef_io::{Depot, IoFail, LoadError, Slot, depot_write_all, load_bytes};
use std::alloc::Global;

// Starts the name and reads it by two calls, the first into three bytes.
pub(crate) fn read_twice<D: Depot>(
    depot: &mut D,
    name: &str,
    buf: &mut [u8; 8],
) -> Result<usize, IoFail> {
    depot.start(Slot::Docs, name)?;
    let first = depot.read(Slot::Docs, &mut buf[..3])?;
    let second = depot.read(Slot::Docs, &mut buf[3..])?;
    Ok(first + second)
}

// Writes a file of this name.
pub(crate) fn put<D: Depot>(depot: &mut D, name: &str, text: &[u8]) -> Result<(), IoFail> {
    depot.create(name)?;
    depot_write_all(depot, text)?;
    depot.finish()
}

// Starts the name and loads it.
pub(crate) fn load<D: Depot>(
    alloc: Global,
    depot: &mut D,
    name: &str,
    limit: u64,
) -> Result<Vec<u8>, LoadError> {
    depot.start(Slot::Index, name)?;
    load_bytes(alloc, depot, Slot::Index, limit)
}

// Whether these names are told.
pub(crate) fn are_names(told: Option<&[String]>, names: &[&str]) -> bool {
    let Some(told) = told else {
        return false;
    };
    if told.len() != names.len() {
        return false;
    }
    told.iter()
        .zip(names.iter())
        .all(|(name, wanted)| name.as_str() == *wanted)
}
