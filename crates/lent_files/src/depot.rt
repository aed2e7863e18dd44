ghost use Rattle.std.specs.Prelude.{◌≡◌, [], IfOk, IsErrOf, IsOk, IsTrue, min, length, unwrap_or};
ghost use Rattle.io_traits.specs.DepotState.{Starts, ReadsSlot, Creates, WritesFile, Finishes};
ghost use Rattle.lent_files.specs.LentFiles.{IsNewDepot, file_in, lent_state};

use io_traits::{Depot, IoFail, PerSlot, Slot};

/// A file: its name, and its bytes.
#[derive(Clone, Copy, Drop)]
pub struct LentFile<'a> {
    pub name: &'a str,
    pub bytes: &'a [u8],
}

/// Files that are lent, and read without a failure; a name that is not there is read as an empty
/// file. No file can be created.
#[derive(Drop)]
pub struct LentFiles<'a> {
    files: &'a [LentFile<'a>],
    opened: PerSlot<Option<&'a [u8]>>,
    starts: PerSlot<u64>,
    // Whether a file is created, which no call does.
    created: bool,
    writing_faults: u64,
    create_faults: u64,
    finish_faults: u64,
}

impl<'a> LentFiles<'a> {
    /// A depot of these files. A name that stands twice has the bytes of its first file.
    pub fn new(files: &'a [LentFile<'a>]) -> LentFiles<'a>
        ensures { IsNewDepot files.now (lent_state result) }
    {
        LentFiles {
            files,
            opened: PerSlot {
                docs: None,
                freqs: None,
                sizes: None,
                index: None,
                side: None,
                map: None,
            },
            starts: PerSlot::all(0),
            created: false,
            writing_faults: 0,
            create_faults: 0,
            finish_faults: 0,
        }
    }
}

// The bytes under a name, none where there is no such file.
fn bytes_of<'a>(files: &'a [LentFile<'a>], name: &str) -> &'a [u8]
    ensures { result.now ≡ unwrap_or (file_in files.now name.now) [] }
{
    match files.iter().find(|file| file.name == name) {
        Some(file) => file.bytes,
        None => &[],
    }
}

impl<'a> Depot for LentFiles<'a> {
    ghost state = { lent_state };

    fn start(&mut self, slot: Slot, name: &str) -> Result<(), IoFail>
        ensures starts { Starts (lent_state self.old) (lent_state self.new) slot name.now result }
        ensures never_fails { IsOk result }
    {
        self.starts.raise(slot);
        *self.opened.get_mut(slot) = Some(bytes_of(self.files, name));
        Ok(())
    }

    fn read(&mut self, slot: Slot, buf: &mut [u8]) -> Result<usize, IoFail>
        requires { IsTrue ((lent_state self.old).started slot) }
        ensures reads { ReadsSlot (lent_state self.old) (lent_state self.new) slot buf.old buf.new
            result }
        ensures moved { IfOk result (λ n. n ≡ min (length ((lent_state self.old).left slot))
            (length buf.old)) }
        ensures never_fails { IsOk result }
    {
        let Some(left) = *self.opened.get(slot) else {
            unreachable!()
        };
        let n = left.len().min(buf.len());
        buf[..n].copy_from_slice(&left[..n]);
        *self.opened.get_mut(slot) = Some(&left[n..]);
        Ok(n)
    }

    fn create(&mut self, name: &str) -> Result<(), IoFail>
        ensures creates { Creates (lent_state self.old) (lent_state self.new) name.now result }
        ensures fails { IsErrOf result IoFail.Failed }
    {
        self.writing_faults = self.writing_faults.saturating_add(1);
        self.create_faults = self.create_faults.saturating_add(1);
        Err(IoFail::Failed)
    }

    fn write(&mut self, piece: &[u8]) -> Result<usize, IoFail>
        requires { IsTrue (lent_state self.old).created }
        ensures writes { WritesFile (lent_state self.old) (lent_state self.new) piece.now result }
        ensures fails { IsErrOf result IoFail.Failed }
    {
        self.writing_faults = self.writing_faults.saturating_add(1);
        Err(IoFail::Failed)
    }

    fn finish(&mut self) -> Result<(), IoFail>
        requires { IsTrue (lent_state self.old).created }
        ensures finishes { Finishes (lent_state self.old) (lent_state self.new) result }
        ensures fails { IsErrOf result IoFail.Failed }
    {
        self.writing_faults = self.writing_faults.saturating_add(1);
        self.finish_faults = self.finish_faults.saturating_add(1);
        Err(IoFail::Failed)
    }
}
