ghost use Rattle.std.specs.Prelude.{◌≡◌};
ghost use Rattle.std.specs.Path.{path_bytes};
ghost use Rattle.system_io.specs.Replaced.{folder_path};

use std::fs::Metadata;
use std::io::ErrorKind;
use std::path::{Path, PathBuf};
use std::rt::Files;
use std::{fs, io};

// How many symbolic links a name may lead through.
const MOST_LINKS: u32 = 40;

// What is known of the file to which this name leads, none where there is no file.
pub(crate) fn found_at<R: Files>(rt: &R, name: &str) -> io::Result<Option<Metadata>> {
    match fs::metadata(rt, name) {
        Ok(found) => Ok(Some(found)),
        Err(e) if e.kind() == ErrorKind::NotFound => Ok(None),
        Err(e) => Err(e),
    }
}

// The name behind all symbolic links that this one leads through, also where there is no file.
pub(crate) fn behind_links<R: Files + AllocGlobal>(rt: &R, name: &str) -> io::Result<PathBuf> {
    let mut path = PathBuf::from_str(rt.alloc(), name)?;
    for _ in 0..MOST_LINKS {
        if !is_link(rt, path.as_path())? {
            return Ok(path);
        }
        let text = fs::read_link(rt, path.as_path())?;
        path.set_file_name(text.as_path().as_str())?;
    }
    Err(ErrorKind::FilesystemLoop.into())
}

// Whether a symbolic link stands under this name.
fn is_link<R: Files>(rt: &R, path: Path<'_>) -> io::Result<bool> {
    match fs::symlink_metadata(rt, path) {
        Ok(found) => Ok(found.is_symlink()),
        Err(e) if e.kind() == ErrorKind::NotFound => Ok(false),
        Err(e) => Err(e),
    }
}

// The folder of this file.
pub(crate) fn folder_of<'a>(path: Path<'a>) -> Path<'a>
    ensures { path_bytes result ≡ folder_path (path_bytes path.entry) }
{
    match path.parent() {
        Some(folder) if !folder.as_str().is_empty() => folder,
        _ => Path::new("."),
    }
}
