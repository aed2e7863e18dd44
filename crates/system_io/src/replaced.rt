ghost use Rattle.std.specs.Prelude.{◌≡◌, ◌≤◌, ◌<◌, Some, IfSome, IfNone, IfOk, length, take};
ghost use Rattle.std.specs.Io.KnownBytes.{Appends};
ghost use Rattle.std.specs.Path.{path_buf_bytes, path_file_name, path_with_file_name};
ghost use Rattle.system_io.specs.Replaced.{temporary_name, IsTemporaryOf};
ghost use Rattle.system_io.specs.Standard.{AppendsSome};

use crate::names::{behind_links, folder_of};
use crate::standard::write_some;
use crate::started::FileId;
use std::alloc::{AllocError, Global};
use std::fs::{Metadata, OpenFile, OpenOptions, Permissions};
use std::io::{ErrorKind, Write};
use std::os::unix::fs::{MetadataExt, OpenOptionsExt, PermissionsExt, lchown};
use std::path::PathBuf;
use std::rt::Files;
use std::{fs, io};

// How many temporaries may stand in one folder.
const MOST_TEMPORARIES: u32 = 1000;

// The bits of a mode that say who may read, write and run a file.
const PERMISSION_BITS: u32 = 0o777;

// The permissions of a file that replaces none, before the system takes its mask off.
const NEW_FILE: u32 = 0o666;

// A file that is written under a name of its own, and then takes the place of its target whole.
#[derive(Drop)]
pub(crate) struct Replacement<R: Files> {
    file: R::File,
    temporary: PathBuf,
    target: PathBuf,
}

impl<R: Files + AllocGlobal> Replacement<R> {
    // Opens a new file beside the one to which the name leads, of which `found` is known.
    pub(crate) fn begin(rt: &R, name: &str, found: Option<&Metadata>) -> io::Result<Replacement<R>>
        ensures beside { IfOk result (λ r. IsTemporaryOf (path_buf_bytes r.target)
            (path_buf_bytes r.temporary)) }
    {
        let target = behind_links(rt, name)?;
        let mode = match found {
            Some(found) => mode_of_target(rt, &target, found)?,
            None => NEW_FILE,
        };
        let (temporary, file) = open_temporary(rt, &target, mode)?;
        match prepare::<R>(rt, &temporary, &file, found) {
            Ok(file) => Ok(Replacement {
                file,
                temporary,
                target,
            }),
            Err(e) => {
                let _ = fs::remove_file(rt, temporary.as_path());
                Err(e)
            }
        }
    }

    // Writes a prefix of a piece, at least one byte of one that has any. Where that fails, any
    // prefix of it may have been written.
    pub(crate) fn write(&mut self, piece: &[u8]) -> Option<usize>
        ensures within { IfSome result (λ n. n ≤ length piece.now) }
        ensures not_nothing { 0 < length piece.now → IfSome result (λ n. 0 < n) }
        ensures taken { IfSome result (λ n. Appends (⟦<R::File as Write>⟧.contents self.old.file)
            (⟦<R::File as Write>⟧.contents self.new.file) (take n piece.now)) }
        ensures failed { IfNone result (AppendsSome (⟦<R::File as Write>⟧.contents self.old.file)
            (⟦<R::File as Write>⟧.contents self.new.file) piece.now) }
        ensures target { self.new.target ≡ self.old.target }
        ensures temporary { self.new.temporary ≡ self.old.temporary }
    {
        write_some(&mut self.file, piece)
    }

    // Makes what was written durable, and puts it in the place of the target.
    pub(crate) fn finish(&self, rt: &R) -> io::Result<()> {
        self.file.sync_all()?;
        fs::rename(rt, self.temporary.as_path(), self.target.as_path())?;
        // The name holds a whole file, the old or the new one, whether this succeeds or not.
        let _ = sync_folder(rt, &self.target);
        Ok(())
    }

    // Removes what was written.
    pub(crate) fn discard(self, rt: &R) {
        let _ = fs::remove_file(rt, self.temporary.as_path());
    }
}

// The permissions of the target, which has to be the file that was found, and one that may be
// written.
fn mode_of_target<R: Files>(rt: &R, target: &PathBuf, found: &Metadata) -> io::Result<u32> {
    let file = OpenOptions::new().write(true).open(rt, target.as_path())?;
    if FileId::of(&file.metadata()?) == FileId::of(found) {
        Ok(found.mode() & PERMISSION_BITS)
    } else {
        Err(ErrorKind::NotFound.into())
    }
}

// Gives the new file what it keeps of the one that it replaces: its permissions, and its group and
// its owner where the system lets them be given. Its descriptor is none of those of the standard
// streams.
fn prepare<R: Files>(
    rt: &R,
    temporary: &PathBuf,
    file: &R::File,
    found: Option<&Metadata>,
) -> io::Result<R::File> {
    if let Some(found) = found {
        let _ = lchown(rt, temporary.as_path(), None, Some(found.gid()));
        let _ = lchown(rt, temporary.as_path(), Some(found.uid()), None);
        file.set_permissions(Permissions::from_mode(found.mode() & PERMISSION_BITS))?;
    }
    file.try_clone()
}

// Makes a new file of this mode beside the target, under the first name that is free.
fn open_temporary<R: Files + AllocGlobal>(
    rt: &R,
    target: &PathBuf,
    mode: u32,
) -> io::Result<(PathBuf, R::File)>
    ensures { IfOk result (λ made. IsTemporaryOf (path_buf_bytes target.now)
        (path_buf_bytes made.0)) }
{
    let mut how = OpenOptions::new();
    how.write(true).create_new(true).mode(mode);
    for number in 0..MOST_TEMPORARIES {
        let Some(path) = temporary_of(rt.alloc(), target, number)? else {
            continue;
        };
        match how.open(rt, path.as_path()) {
            Ok(file) => return Ok((path, file)),
            Err(e) if e.kind() == ErrorKind::AlreadyExists => {}
            Err(e) => return Err(e),
        }
    }
    Err(ErrorKind::AlreadyExists.into())
}

// The temporary of this number, none where its name is the target's own.
fn temporary_of(alloc: Global, target: &PathBuf, number: u32) -> Result<Option<PathBuf>, AllocError>
    requires { number < 1000 }
    ensures other { IfOk result (λ made. IfSome made
        (λ path. IsTemporaryOf (path_buf_bytes target.now) (path_buf_bytes path))) }
    ensures numbered { IfOk result (λ made. IfSome made
        (λ path. path_buf_bytes path ≡ path_with_file_name (path_buf_bytes target.now)
        (temporary_name number))) }
    ensures own { IfOk result (λ made. IfNone made
        (path_file_name (path_buf_bytes target.now) ≡ Some (temporary_name number))) }
{
    let name = format!(in alloc; ".pefidx-{number}")?;
    if target.as_path().file_name() == Some(name.as_str()) {
        return Ok(None);
    }
    let path = target.as_path().with_file_name(alloc, name.as_str())?;
    Ok(Some(path))
}

// Makes the names in the target's folder durable.
fn sync_folder<R: Files>(rt: &R, target: &PathBuf) -> io::Result<()> {
    fs::open(rt, folder_of(target.as_path()))?.sync_all()
}
