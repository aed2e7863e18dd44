// Plain cursors: where they go, and the postings that they give in blocks.
ghost use Rattle.std.specs.Prelude.{◌≤◌};

use cursor_api::{DocCursor, PlainCursor};

// Where `next_geq` goes, through the trait's bound.
pub(crate) fn next_of<C: DocCursor>(cursor: &mut C, d: u32) -> Option<u32> {
    cursor.next_geq(d);
    cursor.doc()
}

// The frequency and the document where `next_frequent` goes.
fn frequent_of<C: DocCursor>(cursor: &mut C, f: u32) -> Option<(u32, u32)> {
    cursor.next_frequent(f);
    match cursor.doc() {
        Some(doc) => Some((cursor.freq(), doc)),
        None => None,
    }
}

// What is told of k postings, through the trait's bound.
fn common_to<C: DocCursor>(cursor: &C, k: u32) -> u32
    requires some { 1 ≤ k }
{
    cursor.common_freq(k)
}

// How many postings below an end a cursor gives, at most two, and what it gives.
fn two_below<C: DocCursor>(cursor: &mut C, end: u64) -> (usize, [u64; 2], [u64; 2]) {
    let mut docs = [0; 2];
    let mut freqs = [0; 2];
    let count = cursor.postings_below(end, &mut docs, &mut freqs);
    (count, docs, freqs)
}

// How many documents below an end it gives, at most two, and which.
fn two_docs_below<C: DocCursor>(cursor: &mut C, end: u64) -> (usize, [u64; 2]) {
    let mut docs = [0; 2];
    let count = cursor.docs_below(end, &mut docs);
    (count, docs)
}

// An end, how many postings below it a cursor gives, at most two, and these.
const POSTINGS_BELOW: [(u64, usize, [u64; 2], [u64; 2]); 6] = [
    (1, 0, [0, 0], [0, 0]),
    (2, 1, [1, 0], [1, 0]),
    (7, 2, [2, 4], [3, 1]),
    (7, 0, [0, 0], [0, 0]),
    (u64::MAX, 1, [7, 0], [9, 0]),
    (u64::MAX, 0, [0, 0], [0, 0]),
];

// An end, how many documents below it a cursor gives, at most two, and these.
const DOCUMENTS_BELOW: [(u64, usize, [u64; 2]); 5] = [
    (0, 0, [0, 0]),
    (8, 2, [1, 2]),
    (5, 1, [4, 0]),
    (8, 1, [7, 0]),
    (8, 0, [0, 0]),
];

#[test]
fn a_list_in_blocks(rt: HostRuntime) {
    let docs = [1, 2, 4, 7];
    let freqs = [1, 3, 1, 9];
    let start = PlainCursor::new(&docs, &freqs);
    let mut cursor = start;
    for &(end, count, docs, freqs) in &POSTINGS_BELOW {
        assert_eq!(rt;
            two_below(&mut cursor, end),
            (count, docs, freqs),
            "below {end}"
        );
    }
    let mut cursor = start;
    for &(end, count, docs) in &DOCUMENTS_BELOW {
        assert_eq!(rt;
            two_docs_below(&mut cursor, end),
            (count, docs),
            "below {end}"
        );
    }
    assert_eq!(rt; cursor.doc(), None);
}

// A document, and where a cursor goes for it.
const NEXT_OF_THREE: [(u32, Option<u32>); 5] = [
    (0, Some(2)),
    (3, Some(4)),
    (1, Some(4)),
    (5, None),
    (0, None),
];

#[test]
fn a_list_of_three(rt: HostRuntime) {
    let docs = [1, 2, 4];
    let freqs = [1, 3, 1];
    let mut cursor = PlainCursor::new(&docs, &freqs);
    let told = (cursor.len(), cursor.max_freq(), cursor.doc());
    cursor.advance();
    assert_eq!(rt; (told, cursor.freq()), ((3, 3, Some(1)), 3));
    for &(d, doc) in &NEXT_OF_THREE {
        assert_eq!(rt; next_of(&mut cursor, d), doc, "from {d}");
    }
    let empty = PlainCursor::new(&[], &[]);
    assert_eq!(rt; (empty.max_freq(), empty.doc()), (0, None));
}

// A frequency, and the posting where a cursor goes for it.
const NEXT_FREQUENT: [(u32, Option<(u32, u32)>); 7] = [
    (0, Some((2, 1))),
    (3, Some((3, 2))),
    (3, Some((3, 2))),
    (4, Some((9, 7))),
    (1, Some((9, 7))),
    (10, None),
    (0, None),
];

#[test]
fn postings_by_their_frequencies(rt: HostRuntime) {
    let mut cursor = PlainCursor::new(&[1, 2, 4, 7, 9], &[2, 3, 1, 9, 3]);
    for &(f, found) in &NEXT_FREQUENT {
        assert_eq!(rt; frequent_of(&mut cursor, f), found, "at least {f}");
    }
    let common = [
        common_to(&cursor, 1),
        common_to(&cursor, 5),
        common_to(&cursor, 6),
        common_to(&PlainCursor::new(&[], &[]), 1),
    ];
    assert_eq!(rt; common, [2, 1, 0, 0]);
}
