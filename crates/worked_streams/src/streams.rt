// Sources and sinks.
use crate::held::bytes;
use pef_io::{
    IoFail, MemSink, MemSource, Sink, Source, StdSink, StdSource, SteadySink, SteadySource,
    write_all_own,
};
use std::io;

#[test]
fn steady_sources_give_their_bytes(rt: HostRuntime) {
    let mut buf = [0u8; 8];
    let mut steady = SteadySource::new(bytes(rt.alloc(), "abcde").expect(&rt, ""), 2);
    for want in ["ab", "cd", "e", ""] {
        assert_eq!(rt; steady.read(&mut buf), Ok(want.len()));
        assert_eq!(rt; &buf[..want.len()], want.as_bytes());
    }
    assert_eq!(rt; steady.calls(), 4);
}

#[test]
fn sources_fail_where_they_are_told_to(rt: HostRuntime) {
    let mut buf = [0u8; 8];
    let fails = vec![in rt.alloc(); 1, 3].expect(&rt, "");
    let mut failing = MemSource::new(bytes(rt.alloc(), "abcde").expect(&rt, ""), 8, fails);
    for (room, want) in [
        (8, Err(IoFail::Failed)),
        (3, Ok(3)),
        (8, Err(IoFail::Failed)),
        (8, Ok(2)),
    ] {
        assert_eq!(rt; failing.read(&mut buf[..room.min(8)]), want);
    }
    assert_eq!(rt; &buf[..3], b"dec".as_slice());
    assert_eq!(rt; failing.calls(), 4);
}

#[test]
fn steady_sinks_keep_what_is_written(rt: HostRuntime) {
    let mut steady = SteadySink::new(rt.alloc(), 2).expect(&rt, "");
    assert_eq!(rt; write_all_own(&mut steady, b"abcde"), Ok(()));
    assert_eq!(rt; steady.bytes(), b"abcde".as_slice());
    assert_eq!(rt; steady.calls(), 3);
}

#[test]
fn sinks_fail_where_they_are_told_to(rt: HostRuntime) {
    let fails = vec![in rt.alloc(); 2].expect(&rt, "");
    let mut failing = MemSink::new(rt.alloc(), 2, fails).expect(&rt, "");
    assert_eq!(rt; write_all_own(&mut failing, b"abcde"), Err(IoFail::Failed));
    assert_eq!(rt; failing.bytes(), b"ab".as_slice());
    assert_eq!(rt; failing.write(b"c"), Ok(1));
    assert_eq!(rt; failing.bytes(), b"abc".as_slice());
    assert_eq!(rt; failing.calls(), 3);
}

// A writer that takes at most two bytes of a piece, and counts how often it is flushed.
#[derive(Drop)]
struct ShortWriter {
    taken: Vec<u8>,
    flushes: u64,
}

impl io::Write for ShortWriter {
    fn write(&mut self, piece: &[u8]) -> io::Result<usize> {
        let count = piece.len().min(2);
        self.taken.extend_from_slice(&piece[..count])?;
        Ok(count)
    }

    fn flush(&mut self) -> io::Result<()> {
        self.flushes = self.flushes.saturating_add(1);
        Ok(())
    }
}

#[test]
fn each_write_to_the_system_is_flushed(rt: HostRuntime) {
    let mut short = ShortWriter {
        taken: Vec::new(rt.alloc()),
        flushes: 0,
    };
    let mut out = StdSink::new(&mut short);
    assert_eq!(rt; write_all_own(&mut out, b"abcde"), Ok(()));
    assert_eq!(rt; short.taken.as_slice(), b"abcde".as_slice());
    assert_eq!(rt; short.flushes, 3);
}

#[test]
fn streams_of_the_system_are_read_and_written(rt: HostRuntime) {
    let mut buf = [0u8; 8];
    let mut input = StdSource::new(io::empty());
    assert_eq!(rt; input.read(&mut buf), Ok(0));
    let mut out = StdSink::new(rt.stderr());
    assert_eq!(rt; write_all_own(&mut out, b"written whole\n"), Ok(()));
}
