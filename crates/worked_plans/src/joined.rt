// Several segments as one list.
use crate::cursors::next_of;
use cursor_api::{DocCursor, PlainCursor};
use segments::{JoinedCursor, Joining, SegRule, Segments};
use std::alloc::{AllocError, Global};
use std::test::Fail;

// The documents and the terms of a segment, and the answer.
const PUSHED: [(u32, u32, Result<u32, SegRule>); 4] = [
    (u32::MAX, 1, Ok(0)),
    (1, 1, Err(SegRule::G2)),
    (1, 2, Err(SegRule::G1)),
    (0, 1, Ok(u32::MAX)),
];

#[test]
fn pushes_up_to_the_most_documents(rt: HostRuntime) {
    let mut segments = Segments::new(Joining::Alike);
    assert_eq!(rt; (segments.documents(), segments.terms()), (0, 0));
    for &(documents, terms, answer) in &PUSHED {
        assert_eq!(rt;
            segments.push(documents, terms),
            answer,
            "{documents} of {terms}"
        );
    }
    assert_eq!(rt; (segments.documents(), segments.terms()), (u32::MAX, 1));
}

// The list of documents 0 and 2, in which a term occurs once and five times, of two segments of
// three documents. Between them is a segment of one document that the list does not have.
fn joined(alloc: Global) -> Result<JoinedCursor<PlainCursor<'static>>, AllocError> {
    let list = PlainCursor::new(&[0, 2], &[1, 5]);
    let none = PlainCursor::new(&[], &[]);
    let parts = vec![in alloc; (0, list), (3, none), (4, list)]?;
    Ok(JoinedCursor::new(parts))
}

// The posting at the place of a cursor, which then goes on.
fn next_posting<C: DocCursor>(cursor: &mut C) -> Option<(u32, u32)> {
    let doc = cursor.doc()?;
    let freq = cursor.freq();
    cursor.advance();
    Some((doc, freq))
}

// The posting where `next_frequent` goes.
fn frequent_of<C: DocCursor>(cursor: &mut C, f: u32) -> Option<(u32, u32)> {
    cursor.next_frequent(f);
    let doc = cursor.doc()?;
    Some((doc, cursor.freq()))
}

// How many postings below an end a cursor gives, at most three, and what it gives.
fn three_below<C: DocCursor>(cursor: &mut C, end: u64) -> (usize, [u64; 3], [u64; 3]) {
    let mut docs = [0; 3];
    let mut freqs = [0; 3];
    let count = cursor.postings_below(end, &mut docs, &mut freqs);
    (count, docs, freqs)
}

// How many documents below an end it gives, at most three, and which.
fn three_docs_below<C: DocCursor>(cursor: &mut C, end: u64) -> (usize, [u64; 3]) {
    let mut docs = [0; 3];
    let count = cursor.docs_below(end, &mut docs);
    (count, docs)
}

// The postings in their order, and the end.
const POSTINGS: [Option<(u32, u32)>; 5] = [
    Some((0, 1)),
    Some((2, 5)),
    Some((4, 1)),
    Some((6, 5)),
    None,
];

#[test]
fn passes_from_part_to_part(rt: HostRuntime) -> Result<(), Fail> {
    let mut cursor = joined(rt.alloc())?;
    assert_eq!(rt; (cursor.len(), cursor.max_freq()), (4, 5));
    for &posting in &POSTINGS {
        assert_eq!(rt; next_posting(&mut cursor), posting);
    }
    Ok(())
}

// A frequency, and the posting where a cursor goes for it.
const NEXT_FREQUENT: [(u32, Option<(u32, u32)>); 4] = [
    (1, Some((0, 1))),
    (2, Some((2, 5))),
    (1, Some((2, 5))),
    (5, Some((2, 5))),
];

#[test]
fn goes_to_a_frequency_across_a_border(rt: HostRuntime) -> Result<(), Fail> {
    let mut cursor = joined(rt.alloc())?;
    for &(f, found) in &NEXT_FREQUENT {
        assert_eq!(rt; frequent_of(&mut cursor, f), found, "at least {f}");
    }
    let next = next_posting(&mut cursor);
    let five = frequent_of(&mut cursor, 5);
    let six = frequent_of(&mut cursor, 6);
    assert_eq!(rt; (next, five, six), (Some((2, 5)), Some((6, 5)), None));
    assert_eq!(rt; (cursor.common_freq(2), cursor.common_freq(3)), (1, 0));
    Ok(())
}

// A document, and where a cursor goes for it.
const NEXT: [(u32, Option<u32>); 6] = [
    (1, Some(2)),
    (0, Some(2)),
    (3, Some(4)),
    (5, Some(6)),
    (7, None),
    (0, None),
];

#[test]
fn goes_to_a_document_across_a_border(rt: HostRuntime) -> Result<(), Fail> {
    let mut cursor = joined(rt.alloc())?;
    for &(d, doc) in &NEXT {
        assert_eq!(rt; next_of(&mut cursor, d), doc, "from {d}");
    }
    Ok(())
}

// An end, how many postings below it a cursor gives, at most three, and these.
const POSTINGS_BELOW: [(u64, usize, [u64; 3], [u64; 3]); 4] = [
    (2, 1, [0, 0, 0], [1, 0, 0]),
    (6, 2, [2, 4, 0], [5, 1, 0]),
    (u64::MAX, 1, [6, 0, 0], [5, 0, 0]),
    (u64::MAX, 0, [0, 0, 0], [0, 0, 0]),
];

// An end, how many documents below it a cursor gives, at most three, and these.
const DOCUMENTS_BELOW: [(u64, usize, [u64; 3]); 4] = [
    (0, 0, [0, 0, 0]),
    (100, 3, [0, 2, 4]),
    (6, 0, [0, 0, 0]),
    (7, 1, [6, 0, 0]),
];

#[test]
fn reads_blocks_across_a_border(rt: HostRuntime) -> Result<(), Fail> {
    let mut cursor = joined(rt.alloc())?;
    for &(end, count, docs, freqs) in &POSTINGS_BELOW {
        assert_eq!(rt;
            three_below(&mut cursor, end),
            (count, docs, freqs),
            "below {end}"
        );
    }
    let mut cursor = joined(rt.alloc())?;
    for &(end, count, docs) in &DOCUMENTS_BELOW {
        assert_eq!(rt;
            three_docs_below(&mut cursor, end),
            (count, docs),
            "below {end}"
        );
    }
    Ok(())
}
