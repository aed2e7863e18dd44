// Lent files, one under a name that stands twice, read in pieces, and none written.
use crate::depot::{LentFile, LentFiles};
use io_traits::{Depot, IoFail, Slot};

const FILES: [LentFile<'static>; 3] = [
    LentFile {
        name: "a",
        bytes: b"first",
    },
    LentFile {
        name: "b",
        bytes: b"",
    },
    LentFile {
        name: "a",
        bytes: b"last",
    },
];

#[test]
fn files_are_read_in_pieces(rt: HostRuntime) {
    let mut depot = LentFiles::new(&FILES);
    assert_eq!(&rt; depot.start(Slot::Docs, "a"), Ok(()));
    let mut room = [b'.'; 4];
    assert_eq!(&rt; depot.read(Slot::Docs, &mut room), Ok(4));
    assert_eq!(&rt; &room, b"firs");
    assert_eq!(&rt; depot.read(Slot::Docs, &mut room), Ok(1));
    assert_eq!(&rt; &room, b"tirs");
    assert_eq!(&rt; depot.read(Slot::Docs, &mut room), Ok(0));
}

#[test]
fn a_name_that_is_not_there_is_an_empty_file(rt: HostRuntime) {
    let mut depot = LentFiles::new(&FILES);
    assert_eq!(&rt; depot.start(Slot::Map, "c"), Ok(()));
    assert_eq!(&rt; depot.read(Slot::Map, &mut [0; 4]), Ok(0));
}

#[test]
fn no_file_is_created(rt: HostRuntime) {
    let mut depot = LentFiles::new(&FILES);
    assert_eq!(&rt; depot.create("a"), Err(IoFail::Failed));
}
