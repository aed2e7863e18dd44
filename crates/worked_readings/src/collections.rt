// Collections that are read, whole or list by list, and those that are broken.
use crate::numbers::bytes;
use collection_reader::{CollError, Fault, ListReader, Rule, read_collection};
use held_pieces::number_at;
use io_traits::{Depot, Slot};
use memory_io::{MemDepot, Op, SteadyDepot};
use part_cost::Format;
use std::alloc::{AllocError, Global};
use std::test::Fail;

// The numbers of the three files of a collection.
#[derive(Clone, Copy)]
struct Numbers<'a> {
    docs: &'a [u32],
    freqs: &'a [u32],
    sizes: &'a [u32],
}

// The numbers of the files of one list.
const ONE_LIST_DOCS: &[u32] = &[1, 3, 2, 0, 2];

const ONE_LIST_FREQS: &[u32] = &[2, 1, 5];

const ONE_LIST_SIZES: &[u32] = &[3, 4, 0, 7];

// Three documents of sizes 4, 0 and 7, and one list: document 0 once, document 2 five times.
const ONE_LIST: Numbers<'static> = Numbers {
    docs: ONE_LIST_DOCS,
    freqs: ONE_LIST_FREQS,
    sizes: ONE_LIST_SIZES,
};

// The numbers of three files.
fn in_files<'a>(docs: &'a [u32], freqs: &'a [u32], sizes: &'a [u32]) -> Numbers<'a> {
    Numbers { docs, freqs, sizes }
}

// The three files, under `small`.
fn files(alloc: Global, numbers: &Numbers) -> Result<Vec<(String, Vec<u8>)>, AllocError> {
    cut_files(alloc, numbers, Slot::Index, 0)
}

// The three files, under `small`, the one of this slot cut to so many bytes.
fn cut_files(
    alloc: Global,
    numbers: &Numbers,
    cut: Slot,
    length: usize,
) -> Result<Vec<(String, Vec<u8>)>, AllocError> {
    let mut files = Vec::new(alloc);
    for (slot, name, of) in [
        (Slot::Docs, "small.docs", numbers.docs),
        (Slot::Freqs, "small.freqs", numbers.freqs),
        (Slot::Sizes, "small.sizes", numbers.sizes),
    ] {
        let mut bytes = bytes(alloc, of)?;
        if slot == cut {
            bytes.truncate(length);
        }
        files.push((String::from_str(alloc, name)?, bytes))?;
    }
    Ok(files)
}

// A depot of these files, of which a read gives at most five bytes.
fn depot(alloc: Global, numbers: &Numbers) -> Result<SteadyDepot, Fail> {
    Ok(SteadyDepot::new(alloc, files(alloc, numbers)?, 5)?)
}

// Whether these are the lists wanted.
fn are(lists: &[Vec<u32>], wanted: &[&[u32]]) -> bool {
    lists.len() == wanted.len()
        && lists
            .iter()
            .zip(wanted)
            .all(|(list, want)| list.as_slice() == *want)
}

// What a collection has: so many documents, lists and sizes.
#[derive(Clone, Copy)]
struct Contents<'a> {
    documents: u32,
    docs: &'a [&'a [u32]],
    freqs: &'a [&'a [u32]],
    sizes: &'a [u32],
}

// Whether these numbers are read as a collection that has this.
fn are_read_as(
    alloc: Global,
    numbers: &Numbers,
    format: Format,
    wanted: &Contents,
) -> Result<bool, Fail> {
    let read = read_collection(alloc, "small", &mut depot(alloc, numbers)?, format)?;
    Ok(
        read.documents == wanted.documents
            && are(&read.docs, wanted.docs)
            && are(&read.freqs, wanted.freqs)
            && read.sizes.as_slice() == wanted.sizes,
    )
}

#[test]
fn small_collections_are_read(rt: HostRuntime) -> Result<(), Fail> {
    let alloc = rt.alloc();
    assert_eq!(rt; number_at(&[9, 2, 1, 0, 0], 1), 258);
    let empty = in_files(&[1, 0], &[], &[0]);
    let three_lists = in_files(&[1, 2, 1, 0, 0, 1, 1], &[1, 1, 0, 1, 3], &[2, 1, 1]);
    let one = Contents {
        documents: 3,
        docs: &[&[0, 2]],
        freqs: &[&[1, 5]],
        sizes: &[4, 0, 7],
    };
    let none = Contents {
        documents: 0,
        docs: &[],
        freqs: &[],
        sizes: &[],
    };
    let three = Contents {
        documents: 2,
        docs: &[&[0], &[], &[1]],
        freqs: &[&[1], &[], &[3]],
        sizes: &[1, 1],
    };
    for format in [Format::One, Format::Two] {
        assert!(rt; are_read_as(alloc, &ONE_LIST, format, &one)?);
        assert!(rt; are_read_as(alloc, &empty, format, &none)?);
        assert!(rt; are_read_as(alloc, &three_lists, format, &three)?);
    }
    Ok(())
}

// Whether these are the documents and the frequencies wanted.
fn is_list(docs: &[u32], freqs: &[u32], wanted: (&[u32], &[u32])) -> bool {
    docs == wanted.0 && freqs == wanted.1
}

// Whether a reader gives the one list, and then none, into vectors that held other numbers.
fn gives_its_list(alloc: Global, depot: &mut SteadyDepot) -> Result<bool, CollError> {
    let mut docs = vec![in alloc; 7]?;
    let mut freqs = vec![in alloc; 7]?;
    let mut reader = ListReader::start(alloc, "small", depot, Format::One)?;
    let more = reader.next_list(depot, &mut docs, &mut freqs)?;
    if !more || reader.lists_ended() || !is_list(&docs, &freqs, (&[0, 2], &[1, 5])) {
        return Ok(false);
    }
    let more = reader.next_list(depot, &mut docs, &mut freqs)?;
    let ended = !more && reader.lists_ended() && is_list(&docs, &freqs, (&[], &[]));
    Ok(ended && reader.documents() == 3)
}

#[test]
fn readers_give_one_list_at_a_time(rt: HostRuntime) -> Result<(), Fail> {
    let mut depot = depot(rt.alloc(), &ONE_LIST)?;
    assert_eq!(rt; gives_its_list(rt.alloc(), &mut depot), Ok(true));
    Ok(())
}

// What a reader answers at two calls for a list, into vectors that held other numbers, and how many
// they hold then.
fn two_answers<D: Depot>(
    alloc: Global,
    depot: &mut D,
) -> Result<
    (
        Result<bool, CollError>,
        Result<bool, CollError>,
        usize,
        usize,
    ),
    CollError,
> {
    let mut docs = vec![in alloc; 7]?;
    let mut freqs = vec![in alloc; 7]?;
    let mut reader = ListReader::start(alloc, "small", depot, Format::Two)?;
    let first = reader.next_list(depot, &mut docs, &mut freqs);
    let second = reader.next_list(depot, &mut docs, &mut freqs);
    Ok((first, second, docs.len(), freqs.len()))
}

#[test]
fn readers_keep_a_failed_call(rt: HostRuntime) -> Result<(), Fail> {
    let alloc = rt.alloc();
    let fails = vec![in alloc; (Op::Read(Slot::Docs), 3)]?;
    let mut depot = MemDepot::new(alloc, files(alloc, &ONE_LIST)?, 5, fails)?;
    let failed = Err(CollError::Read(Slot::Docs));
    assert_eq!(rt; two_answers(alloc, &mut depot), Ok((failed, failed, 0, 0)));
    assert_eq!(rt; depot.calls(Op::Read(Slot::Docs)), 3);
    Ok(())
}

// The number of documents of a collection in a depot, or why there is none.
fn documents_read(
    alloc: Global,
    depot: &mut SteadyDepot,
    format: Format,
) -> Result<u32, CollError> {
    let read = read_collection(alloc, "small", depot, format)?;
    Ok(read.documents)
}

// The refusal of a collection that breaks this rule there.
fn broken(rule: Rule, file: Slot, term: u32, place: u32) -> Result<u32, CollError> {
    Err(CollError::Broken(Fault {
        rule,
        file,
        term,
        place,
    }))
}

// The numbers of three files and where one of them is cut, and the rule that they break and where.
const BROKEN_FILES: [(
    &[u32],
    &[u32],
    &[u32],
    (Slot, usize),
    (Rule, Slot, u32, u32),
); 14] = [
    (
        &[1, 268_435_455],
        &[],
        &[],
        (Slot::Index, 0),
        (Rule::C1, Slot::Sizes, 0, 0),
    ),
    (
        &[1, 3, 4_294_967_295],
        ONE_LIST_FREQS,
        ONE_LIST_SIZES,
        (Slot::Index, 0),
        (Rule::C1, Slot::Docs, 0, 0),
    ),
    (
        &[1, 5, 2, 4, 4],
        &[2, 1, 1],
        &[5, 0, 0, 0, 0, 0],
        (Slot::Index, 0),
        (Rule::C5, Slot::Docs, 0, 1),
    ),
    (
        &[1, 5, 2, 4, 3],
        &[2, 1, 1],
        &[5, 0, 0, 0, 0, 0],
        (Slot::Index, 0),
        (Rule::C5, Slot::Docs, 0, 1),
    ),
    (
        &[1, 3, 1, 3],
        &[1, 1],
        &[3, 0, 0, 0],
        (Slot::Index, 0),
        (Rule::C4, Slot::Docs, 0, 0),
    ),
    (
        ONE_LIST_DOCS,
        &[2, 1, 0],
        ONE_LIST_SIZES,
        (Slot::Index, 0),
        (Rule::C7, Slot::Freqs, 0, 1),
    ),
    (
        &[1, 3],
        ONE_LIST_FREQS,
        ONE_LIST_SIZES,
        (Slot::Docs, 6),
        (Rule::C1, Slot::Docs, 0, 0),
    ),
    (
        &[2, 3, 2, 0, 2],
        ONE_LIST_FREQS,
        ONE_LIST_SIZES,
        (Slot::Index, 0),
        (Rule::C2, Slot::Docs, 0, 0),
    ),
    (
        &[2],
        &[],
        &[],
        (Slot::Index, 0),
        (Rule::C2, Slot::Docs, 0, 0),
    ),
    (
        ONE_LIST_DOCS,
        &[],
        ONE_LIST_SIZES,
        (Slot::Index, 0),
        (Rule::C1, Slot::Freqs, 0, 0),
    ),
    (
        ONE_LIST_DOCS,
        &[2, 1, 5, 0],
        ONE_LIST_SIZES,
        (Slot::Index, 0),
        (Rule::C10, Slot::Freqs, 1, 0),
    ),
    (
        ONE_LIST_DOCS,
        &[3, 1, 5, 1],
        ONE_LIST_SIZES,
        (Slot::Index, 0),
        (Rule::C6, Slot::Freqs, 0, 0),
    ),
    (
        ONE_LIST_DOCS,
        ONE_LIST_FREQS,
        &[2, 4, 0],
        (Slot::Index, 0),
        (Rule::C11, Slot::Sizes, 1, 0),
    ),
    (
        ONE_LIST_DOCS,
        ONE_LIST_FREQS,
        &[3, 4, 0, 7, 0],
        (Slot::Sizes, 17),
        (Rule::C12, Slot::Sizes, 1, 3),
    ),
];

#[test]
fn collections_are_broken_in_both_formats(rt: HostRuntime) -> Result<(), Fail> {
    for &(docs, freqs, sizes, cut, (rule, file, term, place)) in &BROKEN_FILES {
        let alloc = rt.alloc();
        for format in [Format::One, Format::Two] {
            let files = cut_files(alloc, &in_files(docs, freqs, sizes), cut.0, cut.1)?;
            let mut depot = SteadyDepot::new(alloc, files, 5)?;
            let read = documents_read(alloc, &mut depot, format);
            assert_eq!(rt; read, broken(rule, file, term, place));
        }
    }
    Ok(())
}

#[test]
fn the_first_format_has_fewer_documents(rt: HostRuntime) -> Result<(), Fail> {
    let alloc = rt.alloc();
    for &(documents, format, rule, file) in &[
        (268_435_456, Format::One, Rule::C3, Slot::Docs),
        (268_435_456, Format::Two, Rule::C1, Slot::Sizes),
        (4_294_967_295, Format::One, Rule::C3, Slot::Docs),
        (4_294_967_295, Format::Two, Rule::C1, Slot::Sizes),
    ] {
        let docs = [1, documents];
        let sizes = [documents];
        let mut head = depot(alloc, &in_files(&docs, &[], &sizes))?;
        let read = documents_read(alloc, &mut head, format);
        assert_eq!(rt; read, broken(rule, file, 0, 0), "{documents}");
    }
    Ok(())
}

// One list of so many documents, all of them and each of size 0, in which every frequency but the
// last is 4,294,967,295.
fn list_of_all(alloc: Global, documents: u32, last: u32) -> Result<SteadyDepot, Fail> {
    let mut docs = vec![in alloc; 1, documents, documents]?;
    let mut freqs = vec![in alloc; documents]?;
    let mut sizes = vec![in alloc; documents]?;
    for document in 0..documents {
        docs.push(document)?;
        freqs.push(if document + 1 == documents {
            last
        } else {
            u32::MAX
        })?;
        sizes.push(0)?;
    }
    let numbers = in_files(docs.as_slice(), freqs.as_slice(), sizes.as_slice());
    Ok(SteadyDepot::new(alloc, files(alloc, &numbers)?, 8_192)?)
}

#[test]
fn frequencies_sum_to_the_greatest_of_a_format(rt: HostRuntime) -> Result<(), Fail> {
    let alloc = rt.alloc();
    let over_in_one = broken(Rule::C8, Slot::Freqs, 0, 16);
    for (documents, last, in_one, in_two) in [
        (17, 16, Ok(17), Ok(17)),
        (17, 17, over_in_one, Ok(17)),
        (65_537, 65_536, over_in_one, Ok(65_537)),
        (
            65_537,
            65_537,
            over_in_one,
            broken(Rule::C8, Slot::Freqs, 0, 65_536),
        ),
    ] {
        for (format, wanted) in [(Format::One, in_one), (Format::Two, in_two)] {
            let mut depot = list_of_all(alloc, documents, last)?;
            let read = documents_read(alloc, &mut depot, format);
            assert_eq!(rt; read, wanted, "{documents} {last}");
        }
    }
    Ok(())
}
