ghost use Rattle.std.specs.Prelude.{◌≡◌, ◌*◌, ◌≤◌, ◌<◌, length, max, IsTrue, OnOk, take, vec_len};
ghost use Rattle.io_traits.specs.Loads.{FillsPiece, Loads, loaded};

use crate::fail::{IoFail, Slot};
use crate::traits::Depot;
use std::alloc::{AllocError, Global};

// The room, in bytes, that is taken before any byte has come.
const FIRST_ROOM: usize = 8_192;

/// Why a file was not loaded.
#[derive(Clone, Copy, Debug, PartialEq, Eq)]
pub enum LoadError {
    /// A read failed.
    Read,
    /// There are more bytes than the limit.
    TooLarge,
    /// Memory was refused.
    NoMemory,
}

impl From<IoFail> for LoadError {
    ghost use Rattle.io_traits.specs.Loads.{load_error};

    ghost from_gives = { λ fail e. e ≡ load_error fail };

    fn from(fail: IoFail) -> LoadError {
        match fail {
            IoFail::Failed => LoadError::Read,
            IoFail::NoMemory => LoadError::NoMemory,
        }
    }
}

impl From<AllocError> for LoadError {
    ghost use Rattle.io_traits.specs.declared.load.LoadError.TheVariants.{NoMemory};

    ghost from_gives = { λ _ e. e ≡ NoMemory };

    fn from(_e: AllocError) -> LoadError {
        LoadError::NoMemory
    }
}

/// All bytes that the slot has left, where they are at most `limit`. `TooLarge` comes with the
/// first byte behind `limit` bytes, and nothing is read behind that one. Room is taken as bytes
/// come, so a large limit takes none.
pub fn load_bytes<D: Depot>(
    alloc: Global,
    depot: &mut D,
    slot: Slot,
    limit: u64,
) -> Result<Vec<u8>, LoadError>
    requires { IsTrue ((D.state depot.old).started slot) }
    ensures { Loads (D.state depot.old) (D.state depot.new) slot limit (loaded result) }
{
    let most = limit.saturating_add(1) as usize;
    let mut bytes = Vec::new(alloc);
    let mut held = 0;
    while held as u64 <= limit {
        make_room(&mut bytes, held)?;
        let end = bytes.len().min(most);
        let count = depot.read(slot, &mut bytes[held..end])?;
        if count == 0 {
            bytes.truncate(held);
            return Ok(bytes);
        }
        held += count;
    }
    Err(LoadError::TooLarge)
}

// Makes room behind the bytes held, where there is none: as much again, and at least the first
// room.
fn make_room(bytes: &mut Vec<u8>, held: usize) -> Result<(), AllocError>
    requires { held ≤ vec_len bytes.old }
    ensures prefix { OnOk result (take held bytes.new.items ≡ take held bytes.old.items) }
    ensures room { OnOk result (held < vec_len bytes.new) }
    ensures at_most_doubled { OnOk result (vec_len bytes.new
        ≤ max (vec_len bytes.old) (max (2 * held) FIRST_ROOM)) }
{
    if held < bytes.len() {
        return Ok(());
    }
    bytes.resize((2 * held).max(FIRST_ROOM), 0)
}

/// Fills a piece with the next bytes of a started slot, as far as there are any, and tells how many
/// came: fewer than there is room for only at the end. A read that fails, or is refused memory,
/// ends it.
pub fn fill_piece<D: Depot>(depot: &mut D, slot: Slot, piece: &mut [u8]) -> Result<usize, IoFail>
    requires { IsTrue ((D.state depot.old).started slot) }
    ensures filled { FillsPiece (D.state depot.old) (D.state depot.new) slot piece.new result }
    ensures room { length piece.new ≡ length piece.old }
{
    let mut held = 0;
    while held < piece.len() {
        let count = depot.read(slot, &mut piece[held..])?;
        if count == 0 {
            return Ok(held);
        }
        held += count;
    }
    Ok(held)
}
