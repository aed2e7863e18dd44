// Files of the system that are written, replaced or left as they were.
use crate::calls::{load, put, read_twice};
use pef_io::{Depot, IoFail, Slot, StdDepot, depot_write_all};
use std::fs::Permissions;
use std::os::unix::fs::{FileTypeExt, PermissionsExt, symlink};
use std::test::Fail;
use std::{fs, io};

// Makes a folder of this name with a file `x` in it, which has these three bytes.
fn make_old(rt: &HostRuntime, folder: &str, file: &str) -> io::Result<()> {
    fs::create_dir(rt, folder)?;
    fs::write(rt, file, b"old".as_slice())
}

// Whether this is all that the file has.
fn holds(rt: &HostRuntime, file: &str, text: &str) -> io::Result<bool> {
    Ok(fs::read(rt, file)?.as_slice() == text.as_bytes())
}

#[test]
fn a_file_is_replaced_whole(rt: HostRuntime) -> Result<(), Fail> {
    make_old(&rt, "whole", "whole/x")?;
    fs::set_permissions(&rt, "whole/x", Permissions::from_mode(0o640))?;
    let mut depot = StdDepot::new(rt);
    assert_eq!(rt; depot.create("whole/x"), Ok(()));
    assert_eq!(rt; depot_write_all(&mut depot, b"12345"), Ok(()));
    assert!(rt; holds(&rt, "whole/x", "old")?);
    assert_eq!(rt; depot.finish(), Ok(()));
    assert!(rt; holds(&rt, "whole/x", "12345")?);
    let mode = fs::metadata(&rt, "whole/x")?.permissions().mode();
    assert_eq!(rt; mode & 0o777, 0o640);
    fs::remove_file(&rt, "whole/x")?;
    fs::remove_dir(&rt, "whole")?;
    Ok(())
}

// Creates the file of this name, writes to it, and leaves it so.
fn leave_unfinished(rt: HostRuntime, file: &str) -> Result<(), IoFail> {
    let mut depot = StdDepot::new(rt);
    depot.create(file)?;
    depot_write_all(&mut depot, b"12345")
}

#[test]
fn what_is_not_finished_changes_no_file(rt: HostRuntime) -> Result<(), Fail> {
    make_old(&rt, "begun", "begun/x")?;
    assert_eq!(rt; leave_unfinished(rt, "begun/x"), Ok(()));
    assert_eq!(rt; leave_unfinished(rt, "begun/new"), Ok(()));
    assert!(rt; holds(&rt, "begun/x", "old")?);
    fs::remove_file(&rt, "begun/x")?;
    fs::remove_dir(&rt, "begun")?;
    Ok(())
}

#[test]
fn what_fails_leaves_the_old_bytes(rt: HostRuntime) -> Result<(), Fail> {
    make_old(&rt, "failed", "failed/x")?;
    let mut depot = StdDepot::new(rt);
    assert_eq!(rt; depot.create("failed/x"), Ok(()));
    assert_eq!(rt; depot.write(b"12345"), Ok(5));
    // What was begun is left for another file.
    assert_eq!(rt; depot.create("failed/new"), Ok(()));
    assert!(rt; holds(&rt, "failed/x", "old")?);
    fs::create_dir(&rt, "failed/new")?;
    assert_eq!(rt; depot.finish(), Err(IoFail::Failed));
    drop(depot);
    fs::remove_dir(&rt, "failed/new")?;
    fs::remove_file(&rt, "failed/x")?;
    fs::remove_dir(&rt, "failed")?;
    Ok(())
}

// Makes links to a file, to a link, to no file and to itself.
fn make_links(rt: &HostRuntime) -> io::Result<()> {
    fs::create_dir(rt, "links")?;
    symlink(rt, "../linked/x", "links/a")?;
    symlink(rt, "a", "links/b")?;
    symlink(rt, "../linked/new", "links/c")?;
    symlink(rt, "d", "links/d")
}

#[test]
fn a_link_is_followed_and_stays(rt: HostRuntime) -> Result<(), Fail> {
    make_old(&rt, "linked", "linked/x")?;
    make_links(&rt)?;
    let mut depot = StdDepot::new(rt);
    for (link, text, file) in [
        ("links/b", "12345", "linked/x"),
        ("links/c", "6", "linked/new"),
    ] {
        assert_eq!(rt; put(&mut depot, link, text.as_bytes()), Ok(()));
        assert!(rt; holds(&rt, file, text)?, "{link}");
    }
    assert_eq!(rt; put(&mut depot, "links/d", b"7"), Err(IoFail::Failed));
    for link in ["links/a", "links/b", "links/c", "links/d"] {
        assert!(rt; fs::symlink_metadata(&rt, link)?.is_symlink());
    }
    fs::remove_dir_all(&rt, "links")?;
    fs::remove_dir_all(&rt, "linked")?;
    Ok(())
}

// Makes a file with two names, and a link to it.
fn make_same(rt: &HostRuntime) -> io::Result<()> {
    make_old(rt, "same", "same/x")?;
    fs::hard_link(rt, "same/x", "same/hard")?;
    symlink(rt, "x", "same/soft")
}

#[test]
fn a_file_that_was_started_is_not_replaced(rt: HostRuntime) -> Result<(), Fail> {
    make_same(&rt)?;
    let mut depot = StdDepot::new(rt);
    assert_eq!(rt; depot.start(Slot::Docs, "same/x"), Ok(()));
    assert_eq!(rt; put(&mut depot, "same/new", b"12345"), Ok(()));
    assert_eq!(rt; depot.start(Slot::Docs, "same/new"), Ok(()));
    for name in ["same/./x", "same/hard", "same/soft", "same/new"] {
        assert_eq!(rt; depot.create(name), Err(IoFail::Failed), "{name}");
    }
    assert!(rt; holds(&rt, "same/hard", "old")?);
    fs::remove_dir_all(&rt, "same")?;
    Ok(())
}

#[test]
fn a_leftover_harms_nothing(rt: HostRuntime) -> Result<(), Fail> {
    make_old(&rt, "left", "left/.pefidx-0")?;
    let mut depot = StdDepot::new(rt);
    for (file, text) in [("left/x", "12345"), ("left/.pefidx-1", "6")] {
        assert_eq!(rt; put(&mut depot, file, text.as_bytes()), Ok(()));
    }
    for (file, text) in [
        ("left/x", "12345"),
        ("left/.pefidx-1", "6"),
        ("left/.pefidx-0", "old"),
    ] {
        assert!(rt; holds(&rt, file, text)?, "{file}");
    }
    fs::remove_dir_all(&rt, "left")?;
    Ok(())
}

#[test]
fn a_device_is_written_where_it_is(rt: HostRuntime) -> Result<(), Fail> {
    let mut depot = StdDepot::new(rt);
    assert_eq!(rt; put(&mut depot, "/dev/null", b"12345"), Ok(()));
    assert_eq!(rt; put(&mut depot, "/dev/full", b"12345"), Err(IoFail::Failed));
    let full = fs::metadata(&rt, "/dev/full")?.file_type();
    assert!(rt; full.is_char_device());
    Ok(())
}

#[test]
fn the_system_keeps_files(rt: HostRuntime) {
    let mut depot = StdDepot::new(rt);
    let mut buf = [0u8; 8];
    assert_eq!(rt;
        read_twice(&mut depot, "written", &mut buf),
        Err(IoFail::Failed)
    );
    assert_eq!(rt; put(&mut depot, "written", b"abcde"), Ok(()));
    assert_eq!(rt; read_twice(&mut depot, "written", &mut buf), Ok(5));
    assert_eq!(rt; buf, *b"abcde\0\0\0");
    let loaded = load(rt.alloc(), &mut depot, "written", 5).expect(&rt, "");
    assert_eq!(rt; loaded.as_slice(), b"abcde".as_slice());
    assert_eq!(rt;
        put(&mut depot, "no/such/folder", b"a"),
        Err(IoFail::Failed)
    );
    fs::remove_file(&rt, "written").expect(&rt, "");
}
