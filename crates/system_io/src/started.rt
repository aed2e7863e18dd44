ghost use Rattle.std.specs.Prelude.{◌≡◌, ◌↔◌, ◌⊎◌, [], Contains, IsTrue, OnOk, OnErr};
ghost use Rattle.system_io.specs.declared.started.FileId.{FileId};

use std::alloc::{AllocError, Global};
use std::fs::Metadata;
use std::os::unix::fs::MetadataExt;

// Which file of the system this is, whatever name leads to it: the device that it is on, and its
// inode there.
#[derive(Clone, Copy, Debug, PartialEq, Eq)]
pub(crate) struct FileId {
    device: u64,
    inode: u64,
}

impl FileId {
    pub(crate) fn of(found: &Metadata) -> FileId {
        FileId {
            device: found.dev(),
            inode: found.ino(),
        }
    }
}

// The files that were started.
#[derive(Drop)]
pub(crate) struct Started {
    files: Vec<FileId>,
}

impl Started {
    pub(crate) fn new(alloc: Global) -> Started
        ensures { result.files.items ≡ [] }
    {
        Started {
            files: Vec::new(alloc),
        }
    }

    // Whether this file was started.
    pub(crate) fn has(&self, file: FileId) -> bool
        ensures { IsTrue result ↔ Contains self.now.files.items file }
    {
        self.files.contains(&file)
    }

    // Notes that this file was started.
    pub(crate) fn add(&mut self, file: FileId) -> Result<(), AllocError>
        ensures added { OnOk result ((other : FileId) → Contains self.new.files.items other
            ↔ (Contains self.old.files.items other ⊎ (other ≡ file))) }
        ensures unchanged { OnErr result (self.new.files.items ≡ self.old.files.items) }
    {
        if self.has(file) {
            return Ok(());
        }
        self.files.push(file)?;
        Ok(())
    }
}
