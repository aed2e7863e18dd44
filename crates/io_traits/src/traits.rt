ghost use Rattle.std.specs.Prelude.{◌≡◌, ℕ, ◌≤◌, ◌<◌, length, IsTrue, Bool, List, string_bytes};
ghost use Rattle.io_traits.specs.SourceState.{SourceState, Reads};
ghost use Rattle.io_traits.specs.SinkState.{SinkState, Writes};
ghost use Rattle.io_traits.specs.DepotState.{DepotState, Starts, ReadsSlot, Creates, WritesFile, Finishes};

use crate::fail::{IoFail, Slot};

/// Bytes that come from the outside.
pub trait Source {
    ghost state: { Self → SourceState };

    /// Moves the next bytes into the front of `buf`, and gives how many: at most `buf.len()`, and,
    /// where `buf` has room, 0 only at the end. `Failed` comes where the read failed, `NoMemory`
    /// where memory was refused; after either the next read gives what this one would have given.
    fn read(&mut self, buf: &mut [u8]) -> Result<usize, IoFail>
        ensures { Reads (state self.old) (state self.new) buf.old buf.new result };
}

/// Where bytes go.
pub trait Sink {
    ghost state: { Self → SinkState };

    /// Appends a prefix of the piece, and gives its length: at most `piece.len()`, and 0 only for
    /// an empty piece. `Failed` comes where the write failed, `NoMemory` where memory was refused;
    /// after either nothing is appended, where the sink tells its bytes.
    fn write(&mut self, piece: &[u8]) -> Result<usize, IoFail>
        ensures { Writes (state self.old) (state self.new) piece.now result };
}

/// Files under names, of which each slot reads one and at most one is being written.
pub trait Depot {
    ghost state: { Self → DepotState };

    /// Opens the file of this name for the slot, which is read from its first byte on. `Failed`
    /// comes where there is no such file, or it could not be opened, `NoMemory` where memory was
    /// refused; after either the slot is as it was.
    fn start(&mut self, slot: Slot, name: &str) -> Result<(), IoFail>
        ensures { Starts (state self.old) (state self.new) slot name.now result };

    /// Moves the next bytes of a started slot into the front of `buf`, and gives how many: at most
    /// `buf.len()`, and, where `buf` has room, 0 only at the end. `Failed` comes where the read
    /// failed, `NoMemory` where memory was refused; after either the next read gives what this one
    /// would have given.
    fn read(&mut self, slot: Slot, buf: &mut [u8]) -> Result<usize, IoFail>
        requires { IsTrue ((state self.old).started slot) }
        ensures { ReadsSlot (state self.old) (state self.new) slot buf.old buf.new result };

    /// Makes the file of this name empty, and writes to it from then on. `Failed` comes where it
    /// could not be created, `NoMemory` where memory was refused; after either the files and what
    /// is written are as they were.
    fn create(&mut self, name: &str) -> Result<(), IoFail>
        ensures { Creates (state self.old) (state self.new) name.now result };

    /// Appends a prefix of the piece to the file that is created, and gives its length: at most
    /// `piece.len()`, and 0 only for an empty piece. `Failed` comes where the write failed,
    /// `NoMemory` where memory was refused; after either the file is as it was.
    fn write(&mut self, piece: &[u8]) -> Result<usize, IoFail>
        requires { IsTrue (state self.old).created }
        ensures { WritesFile (state self.old) (state self.new) piece.now result };

    /// Ends the writing of the file that is created. `Failed` comes where that failed, and the file
    /// stays created.
    fn finish(&mut self) -> Result<(), IoFail>
        requires { IsTrue (state self.old).created }
        ensures { Finishes (state self.old) (state self.new) result };
}
