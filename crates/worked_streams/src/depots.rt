// Depots in memory, read and written.
use crate::calls::{are_names, put, read_twice};
use crate::held::files;
use pef_io::{Depot, IoFail, MemDepot, Op, Slot, SteadyDepot};

// Reads the file `a` and writes the file `b`.
fn read_and_put<D: Depot>(depot: &mut D) -> Result<(), IoFail> {
    let mut buf = [0u8; 8];
    read_twice(depot, "a", &mut buf)?;
    put(depot, "b", b"12345")
}

#[test]
fn depots_read_and_write(rt: HostRuntime) {
    let alloc = rt.alloc();
    let held = files(alloc, &[("a", "abcde"), ("a", "x")]).expect(&rt, "");
    let mut depot = SteadyDepot::new(alloc, held, 4).expect(&rt, "");
    let mut buf = [0u8; 8];
    for (name, count) in [("a", 5), ("none", 0)] {
        assert_eq!(rt; read_twice(&mut depot, name, &mut buf), Ok(count));
        assert_eq!(rt; buf, *b"abcde\0\0\0");
    }
    assert_eq!(rt; put(&mut depot, "a", b"12345"), Ok(()));
    assert_eq!(rt; depot.file("a").unwrap_or_default(), b"12345".as_slice());
    for op in [Op::Write, Op::Start(Slot::Docs)] {
        assert_eq!(rt; depot.calls(op), 2, "{op:?}");
    }
    assert!(rt; are_names(depot.names(Slot::Docs), &["a", "none"]));
    assert!(rt; are_names(depot.names(Slot::Freqs), &[]));
}

#[test]
fn depots_fail_where_they_are_told_to(rt: HostRuntime) {
    let alloc = rt.alloc();
    for (op, number, result, written) in [
        (Op::Start(Slot::Docs), 1, Err(IoFail::Failed), None),
        (Op::Start(Slot::Docs), 2, Ok(()), Some("12345")),
        (Op::Start(Slot::Freqs), 1, Ok(()), Some("12345")),
        (Op::Read(Slot::Docs), 2, Err(IoFail::Failed), None),
        (Op::Read(Slot::Docs), 3, Ok(()), Some("12345")),
        (Op::Create, 1, Err(IoFail::Failed), None),
        (Op::Write, 1, Err(IoFail::Failed), Some("")),
        (Op::Write, 2, Err(IoFail::Failed), Some("12")),
        (Op::Write, 4, Ok(()), Some("12345")),
        (Op::Finish, 1, Err(IoFail::Failed), Some("12345")),
    ] {
        let held = files(alloc, &[("a", "abcde")]).expect(&rt, "");
        let fails = vec![in alloc; (op, number)].expect(&rt, "");
        let mut depot = MemDepot::new(alloc, held, 2, fails).expect(&rt, "");
        let outcome = (read_and_put(&mut depot), depot.file("b"));
        let wanted = written.map(|text| text.as_bytes());
        assert_eq!(rt; outcome, (result, wanted), "{op:?} {number}");
        assert_eq!(rt; depot.start(Slot::Index, "none"), Err(IoFail::Failed));
        assert!(rt; are_names(depot.names(Slot::Docs), &["a"]));
        assert!(rt; are_names(depot.names(Slot::Index), &["none"]));
    }
}
