ghost use Rattle.std.specs.Prelude.{◌≡◌, ℕ, ◌≤◌, ◌<◌, length, IsTrue, Bool, List, string_bytes};
ghost use Rattle.io_traits.specs.Helpers.{WritesAll, WritesAllToFile};

use crate::fail::IoFail;
use crate::traits::{Depot, Sink};

/// Writes the whole piece.
pub fn write_all_own<K: Sink>(sink: &mut K, piece: &[u8]) -> Result<(), IoFail>
    ensures { WritesAll (K.state sink.old) (K.state sink.new) piece.now result }
{
    let mut at = 0;
    while at < piece.len() {
        at += sink.write(&piece[at..])?;
    }
    Ok(())
}

/// Writes the whole piece to the file that is being written.
pub fn depot_write_all<D: Depot>(depot: &mut D, piece: &[u8]) -> Result<(), IoFail>
    requires { IsTrue (D.state depot.old).created }
    ensures { WritesAllToFile (D.state depot.old) (D.state depot.new) piece.now result }
{
    let mut at = 0;
    while at < piece.len() {
        at += depot.write(&piece[at..])?;
    }
    Ok(())
}
