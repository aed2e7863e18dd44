// Files that are loaded up to a limit, and pieces that are filled.
use crate::calls::load;
use crate::held::files;
use no_memory::NoMemory;
use pef_io::{Depot, IoFail, LoadError, MemDepot, Op, Slot, SteadyDepot, fill_piece, load_bytes};
use std::alloc::{AllocError, Global};

// So many bytes, of which no two neighbours are equal.
fn counted(alloc: Global, count: usize) -> Result<Vec<u8>, AllocError> {
    let mut list = Vec::new(alloc);
    for i in 0..count {
        list.push((i % 251) as u8)?;
    }
    Ok(list)
}

// A file `a` of so many bytes, and a file `b`.
fn counted_file(alloc: Global, count: usize) -> Result<Vec<(String, Vec<u8>)>, AllocError> {
    let mut list = files(alloc, &[("b", "abcde")])?;
    list.push((String::from_str(alloc, "a")?, counted(alloc, count)?))?;
    Ok(list)
}

// What a load of the file `a` of so many bytes gives by a depot without faults, and by one that
// could have some.
fn loads(
    alloc: Global,
    count: usize,
    limit: u64,
) -> Result<[Result<Vec<u8>, LoadError>; 2], NoMemory> {
    let mut steady = SteadyDepot::new(alloc, counted_file(alloc, count)?, 8_192)?;
    let by_steady = load(alloc, &mut steady, "a", limit);
    let mut failing = MemDepot::new(alloc, counted_file(alloc, count)?, 4, Vec::new(alloc))?;
    Ok([by_steady, load(alloc, &mut failing, "a", limit)])
}

#[test]
fn files_are_loaded_up_to_a_limit(rt: HostRuntime) {
    let alloc = rt.alloc();
    for (count, limit, fits) in [
        (16, 16, true),
        (17, 16, false),
        (0, 0, true),
        (1, 0, false),
        (5, u64::MAX, true),
        (20_000, 1 << 40, true),
        (20_000, 20_000, true),
        (20_000, 19_999, false),
    ] {
        let wanted = if fits {
            Ok(counted(alloc, count).expect(&rt, ""))
        } else {
            Err(LoadError::TooLarge)
        };
        for loaded in loads(alloc, count, limit).expect(&rt, "") {
            assert_eq!(rt; loaded, wanted, "{count} {limit}");
        }
    }
}

// Loads the file `a` between two reads of the file `b`, and then reads on in both.
fn load_between<D: Depot>(
    alloc: Global,
    depot: &mut D,
    limit: u64,
    buf: &mut [u8; 6],
) -> Result<Vec<u8>, LoadError> {
    depot.start(Slot::Docs, "b")?;
    depot.read(Slot::Docs, &mut buf[..2])?;
    depot.start(Slot::Index, "a")?;
    let loaded = load_bytes(alloc, depot, Slot::Index, limit);
    depot.read(Slot::Docs, &mut buf[2..4])?;
    depot.read(Slot::Index, &mut buf[4..])?;
    loaded
}

#[test]
fn a_load_reads_its_slot_alone(rt: HostRuntime) {
    let alloc = rt.alloc();
    for (failing, limit, result, read) in [
        (9_999, 20_000, Ok(20_000), *b"abcd\0\0"),
        (9_999, 6, Err(LoadError::TooLarge), *b"abcd\x07\x08"),
        (3, 20_000, Err(LoadError::Read), *b"abcd\x08\x09"),
    ] {
        let held = counted_file(alloc, 20_000).expect(&rt, "");
        let fails = vec![in alloc; (Op::Read(Slot::Index), failing)].expect(&rt, "");
        let mut depot = MemDepot::new(alloc, held, 4, fails).expect(&rt, "");
        let mut buf = [0; 6];
        let loaded = load_between(alloc, &mut depot, limit, &mut buf);
        assert_eq!(rt;
            loaded.map(|bytes| bytes.len()),
            result,
            "{failing} {limit}"
        );
        assert_eq!(rt; buf, read, "{failing} {limit}");
    }
}

// Starts the file `a` and fills two pieces.
fn fill_two<D: Depot>(
    depot: &mut D,
    one: &mut [u8; 4],
    two: &mut [u8; 4],
) -> Result<(usize, usize), IoFail> {
    depot.start(Slot::Index, "a")?;
    let first = fill_piece(depot, Slot::Index, one)?;
    let second = fill_piece(depot, Slot::Index, two)?;
    Ok((first, second))
}

#[test]
fn a_piece_is_filled_by_several_reads(rt: HostRuntime) {
    let alloc = rt.alloc();
    let held = files(alloc, &[("a", "abcde")]).expect(&rt, "");
    let mut depot = SteadyDepot::new(alloc, held, 3).expect(&rt, "");
    let (mut one, mut two) = ([0; 4], [0; 4]);
    assert_eq!(rt; fill_two(&mut depot, &mut one, &mut two), Ok((4, 1)));
    assert_eq!(rt; (one, two), (*b"abcd", *b"e\0\0\0"));
}
