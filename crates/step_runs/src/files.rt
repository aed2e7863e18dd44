// Files that are loaded and written.
ghost use Rattle.std.specs.Prelude.{◌≤◌};

use io_traits::{Depot, IoFail, Slot};
use memory_io::{MemDepot, Op};
use std::alloc::Global;
use std::process::Abort;
use std::test::Fail;
use word_files::{LoadWordsError, load_words, write_words};

// The words of the file with no list over no document, in the second format.
const NO_LISTS: &[u64] = &[6360565151758173520, 2, 0, 0, 2, 5784106577086924120];

// The words with which the files begin of which all words are kept.
const OPENINGS: &[u64] = &[6360565151758173520, 4921100965631116624];

// A depot with this file, of which each call moves at most `most` bytes, and where these calls
// fail.
fn depot_of(alloc: Global, bytes: &[u8], most: usize, fails: &[(Op, u64)]) -> Result<MemDepot, Fail>
    requires { 1 ≤ most }
{
    let mut files = Vec::new(alloc);
    files.push((
        String::from_str(alloc, "x")?,
        Vec::from_slice(alloc, bytes)?,
    ))?;
    Ok(MemDepot::new(alloc, files, most, Vec::from_slice(alloc, fails)?)?)
}

// The words that are loaded from a file.
fn loaded(
    alloc: Global,
    bytes: &[u8],
    fails: &[(Op, u64)],
) -> Result<Result<Vec<u64>, LoadWordsError>, Fail> {
    let mut depot = depot_of(alloc, bytes, 4, fails)?;
    Ok(load_words(alloc, Slot::Side, OPENINGS, "x", &mut depot))
}

#[test]
fn files_are_loaded(rt: HostRuntime) -> Result<(), Fail> {
    let alloc = rt.alloc();
    for bytes in [[0; 50].as_slice(), &[0; 7]] {
        assert_eq!(rt;
            loaded(alloc, bytes, &[])?.err(),
            Some(LoadWordsError::Ragged)
        );
    }
    for (bytes, words) in [
        (b"".as_slice(), [].as_slice()),
        (b"PEFINDEX", &[6360565151758173520]),
        (b"\x01\x02\0\0\0\0\0\0\0\0\0\0\0\0\0\x80", &[513, 1 << 63]),
    ] {
        let found = loaded(alloc, bytes, &[])?.expect(&rt, "words");
        assert_eq!(rt; found.as_slice(), words);
    }
    for op in [Op::Start(Slot::Side), Op::Read(Slot::Side)] {
        let refused = loaded(alloc, b"PEFINDEX", &[(op, 1)])?.err();
        assert_eq!(rt; refused, Some(LoadWordsError::Read), "{op:?}");
    }
    Ok(())
}

#[test]
fn missing_file_is_not_loaded(rt: HostRuntime) -> Result<(), Fail> {
    let mut depot = depot_of(rt.alloc(), b"PEFINDEX", 4, &[])?;
    let refused = load_words(rt.alloc(), Slot::Index, OPENINGS, "y", &mut depot).err();
    assert_eq!(rt; refused, Some(LoadWordsError::Read));
    assert_eq!(rt; depot.calls(Op::Read(Slot::Index)), 0);
    Ok(())
}

// The bytes of some words.
fn bytes_of(alloc: Global, words: &[u64]) -> Result<Vec<u8>, Fail> {
    let mut bytes = Vec::new(alloc);
    for word in words {
        bytes.extend_from_slice(&word.to_le_bytes())?;
    }
    Ok(bytes)
}

#[test]
fn words_are_written_and_loaded(rt: HostRuntime) -> Result<(), Fail> {
    let alloc = rt.alloc();
    for count in [0_u64, 1, 6, 1023, 1024, 1025, 2048, 2049] {
        let mut words = Vec::new(alloc);
        for k in 0..count {
            words.push(OPENINGS[0].wrapping_add(k.wrapping_mul(1_000_000_007)))?;
        }
        let mut depot = depot_of(alloc, b"other", 3000, &[])?;
        assert_eq!(rt; write_words(alloc, &words, "y", &mut depot), Ok(()));
        let bytes = bytes_of(alloc, &words)?;
        assert_eq!(rt; depot.file("y"), Some(bytes.as_slice()), "{count}");
        assert_eq!(rt; depot.file("x"), Some(b"other".as_slice()), "{count}");
        assert_eq!(rt; depot.calls(Op::Finish), 1, "{count}");
        let found = load_words(alloc, Slot::Index, OPENINGS, "y", &mut depot).expect(&rt, "words");
        assert_eq!(rt; found.as_slice(), words.as_slice(), "{count}");
    }
    Ok(())
}

// How many words are kept of a file of so many bytes that begins with this word; none where it is
// refused, with the error.
fn kept(alloc: Global, first: u64, length: usize) -> Result<Result<usize, LoadWordsError>, Fail> {
    let mut bytes = Vec::from_slice(alloc, &first.to_le_bytes())?;
    bytes.resize(length, 7)?;
    let mut depot = depot_of(alloc, &bytes, 3000, &[])?;
    let words = match load_words(alloc, Slot::Index, OPENINGS, "x", &mut depot) {
        Ok(words) => words,
        Err(e) => return Ok(Err(e)),
    };
    Ok(Ok(words.len()))
}

#[test]
fn of_another_file_a_piece_is_kept(rt: HostRuntime) -> Result<(), Fail> {
    let alloc = rt.alloc();
    for (length, words, others) in [
        (8_184, 1023, 1023),
        (8_192, 1024, 1024),
        (8_200, 1025, 1024),
        (16_384, 2048, 1024),
        (200_000, 25_000, 1024),
    ] {
        for &opening in OPENINGS {
            assert_eq!(rt; kept(alloc, opening, length)?, Ok(words), "{length}");
        }
        assert_eq!(rt; kept(alloc, 7, length)?, Ok(others), "{length}");
        for more in 1..8 {
            let ragged = Err(LoadWordsError::Ragged);
            assert_eq!(rt;
                kept(alloc, OPENINGS[0], length + more)?,
                ragged,
                "{length} {more}"
            );
            assert_eq!(rt; kept(alloc, 7, length + more)?, ragged, "{length} {more}");
        }
    }
    Ok(())
}

// Asserts that the words of no list are not written where this call fails, and what the file then
// has.
fn check_failing(
    rt: &impl Abort,
    alloc: Global,
    fail: (Op, u64),
    left: Option<&[u8]>,
) -> Result<(), Fail> {
    let mut depot = depot_of(alloc, b"other", 8, &[fail])?;
    let end = write_words(alloc, NO_LISTS, "y", &mut depot);
    assert_eq!(rt; end, Err(IoFail::Failed), "{fail:?}");
    assert_eq!(rt; depot.file("y"), left, "{fail:?}");
    assert_eq!(rt; depot.file("x"), Some(b"other".as_slice()), "{fail:?}");
    Ok(())
}

#[test]
fn writing_fails(rt: HostRuntime) -> Result<(), Fail> {
    let alloc = rt.alloc();
    let bytes = bytes_of(alloc, NO_LISTS)?;
    check_failing(&rt, alloc, (Op::Create, 1), None)?;
    check_failing(&rt, alloc, (Op::Write, 1), Some(b""))?;
    check_failing(&rt, alloc, (Op::Write, 2), Some(b"PEFINDEX"))?;
    check_failing(&rt, alloc, (Op::Finish, 1), Some(bytes.as_slice()))
}
