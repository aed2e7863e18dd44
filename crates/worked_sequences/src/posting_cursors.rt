ghost use Rattle.std.specs.Prelude.{◌≡◌, ◌<◌, ◌^◌, length, IfSome};
ghost use Rattle.std.specs.List.{All};
ghost use Rattle.collection_model.specs.Collection.{greatest, greatest_freq};
ghost use Rattle.collection_model.specs.Sequences.{steps_from, postings_in};
ghost use Rattle.cursor_api.specs.NextGeq.{IsCursorList};

use crate::sequences::written;
use cursor_api::DocCursor;
use packed_sequence::LaterView;
use part_cost::Format;
use postings::{PostingCursor, cursors_stand_in_lists, first_posting, sequences_are_a_list};
use std::process::Abort;
use two_level::SeqView;

// The greatest step of sums, None where a step does not fit a frequency.
fn greatest_step(sums: &SeqView, m: u32) -> Option<u32>
    requires count { length sums.now.values ≡ m }
    requires below { All (λ s. s < 2 ^ 48) sums.now.values }
    ensures fit { IfSome result (λ g. All (λ f. f < 2 ^ 32) (steps_from 0 sums.now.values)) }
    ensures greatest { IfSome result (λ g. g ≡ greatest (steps_from 0 sums.now.values)) }
{
    let mut most = 0;
    let mut past = 0;
    for k in 0..m {
        let next = sums.get(k) + 1;
        let step = next.saturating_sub(past);
        if step > u64::from(u32::MAX) {
            return None;
        }
        most = step.max(most);
        past = next;
    }
    Some(most as u32)
}

// The words of documents and of sums in a format, and in how many parts each are.
#[derive(Clone, Copy)]
struct Words<'a> {
    format: Format,
    docs: &'a [u64],
    doc_parts: u32,
    sums: &'a [u64],
    sum_parts: u32,
}

// The two sequences of m documents below 1000 that these words are, and the greatest frequency.
fn views<'a>(rt: &impl Abort, words: Words<'a>, m: u32) -> (SeqView<'a>, SeqView<'a>, u32)
    requires docs { length words.docs.now < 2 ^ 57 }
    requires sums { length words.sums.now < 2 ^ 57 }
    ensures same_length { length result.0.values ≡ length result.1.values }
    ensures list { IsCursorList (postings_in result.0.values result.1.values) }
    ensures greatest { result.2 ≡ greatest_freq (postings_in result.0.values result.1.values) }
{
    sequences_are_a_list();
    cursors_stand_in_lists();
    let Words {
        format,
        docs,
        doc_parts,
        sums,
        sum_parts,
    } = words;
    let docs = SeqView::check(docs, doc_parts, m, 1000, format).expect(rt, "documents");
    let sums = SeqView::check(sums, sum_parts, m, format.most_sum(), format).expect(rt, "sums");
    let max = greatest_step(&sums, m).expect(rt, "frequencies that fit");
    (docs, sums, max)
}

// A cursor over them.
fn opened<'a>(rt: &impl Abort, words: Words<'a>, m: u32) -> PostingCursor<'a>
    requires docs { length words.docs.now < 2 ^ 57 }
    requires sums { length words.sums.now < 2 ^ 57 }
{
    let (docs, sums, max) = views(rt, words, m);
    PostingCursor::new(docs, LaterView::read(sums), max)
}

// The posting at the place of a cursor, which then goes on.
fn next_posting<C: DocCursor>(cursor: &mut C) -> Option<(u32, u32)> {
    let doc = cursor.doc()?;
    let freq = cursor.freq();
    cursor.advance();
    Some((doc, freq))
}

// Where `next_geq` goes, through the trait's bound.
fn next_of<C: DocCursor>(cursor: &mut C, d: u32) -> Option<u32> {
    cursor.next_geq(d);
    cursor.doc()
}

// The next three postings of a cursor.
fn next_three<C: DocCursor>(cursor: &mut C) -> [Option<(u32, u32)>; 3] {
    let first = next_posting(cursor);
    let second = next_posting(cursor);
    [first, second, next_posting(cursor)]
}

// The posting where `next_frequent` goes.
fn frequent_of<C: DocCursor>(cursor: &mut C, f: u32) -> Option<(u32, u32)> {
    cursor.next_frequent(f);
    let doc = cursor.doc()?;
    Some((doc, cursor.freq()))
}

// How many postings below an end a cursor gives, at most two, and these. Of the room behind them
// nothing is said; it is told as 0.
fn two_below<C: DocCursor>(cursor: &mut C, end: u64) -> (usize, [u64; 2], [u64; 2]) {
    let mut docs = [0; 2];
    let mut freqs = [0; 2];
    let count = cursor.postings_below(end, &mut docs, &mut freqs);
    for j in count..2 {
        docs[j] = 0;
        freqs[j] = 0;
    }
    (count, docs, freqs)
}

// How many documents below an end it gives, at most two, and which.
fn two_docs_below<C: DocCursor>(cursor: &mut C, end: u64) -> (usize, [u64; 2]) {
    let mut docs = [0; 2];
    let count = cursor.docs_below(end, &mut docs);
    (count, docs)
}

// A format, the words of documents in one part and of sums, and in how many parts these are.
type Row = (Format, &'static [u64], &'static [u64], u32);

// Documents 0, 2 with frequencies 1, 5 in one part, and 1, 2 in two, in each format.
const TWO_POSTINGS: [(Row, u32); 6] = [
    (
        (
            Format::One,
            &[137_438_953_474, 0, 5],
            &[137_438_953_477, 0, 33],
            1,
        ),
        5,
    ),
    (
        (
            Format::One,
            &[137_438_953_474, 0, 5],
            &[68_719_476_736, 0, 137_438_953_474, 0, 2],
            2,
        ),
        2,
    ),
    ((Format::Two, &[2, 2, 0, 5], &[5, 2, 0, 33], 1), 5),
    ((Format::Two, &[2, 2, 0, 5], &[0, 1, 0, 2, 2, 0, 2], 2), 2),
    (
        (
            Format::Three,
            &[562_949_953_421_314, 0, 5],
            &[562_949_953_421_317, 0, 33],
            1,
        ),
        5,
    ),
    (
        (
            Format::Three,
            &[562_949_953_421_314, 0, 5],
            &[281_474_976_710_656, 0, 562_949_953_421_314, 0, 2],
            2,
        ),
        2,
    ),
];

// Documents 0, 1, 2 with frequencies 1, 2, 3 in one part and in two.
const THREE_POSTINGS: [Row; 3] = [
    (
        Format::One,
        &[206_158_430_210, 0],
        &[206_158_430_213, 0, 37],
        1,
    ),
    (
        Format::One,
        &[206_158_430_210, 0],
        &[68_719_476_736, 0, 206_158_430_213, 0, 18],
        2,
    ),
    (Format::Two, &[2, 3, 0], &[0, 1, 0, 5, 3, 0, 18], 2),
];

// A cursor over so many documents of a row.
fn opened_at(rt: &impl Abort, row: &Row, m: u32) -> PostingCursor<'static> {
    let (format, docs, sums, sum_parts) = *row;
    assert!(rt; docs.len() < 10 && sums.len() < 10);
    let words = Words {
        format,
        docs,
        doc_parts: 1,
        sums,
        sum_parts,
    };
    opened(rt, words, m)
}

#[test]
fn reads_the_postings_back(rt: HostRuntime) {
    for (row, freq) in &TWO_POSTINGS {
        let mut cursor = opened_at(&rt, row, 2);
        let told = (cursor.len(), cursor.max_freq());
        let read = next_three(&mut cursor);
        let still = (cursor.len(), cursor.max_freq());
        let postings = [Some((0, 1)), Some((2, *freq)), None];
        assert_eq!(rt; (told, read, still), ((2, *freq), postings, (2, *freq)));
    }
}

// A document, and the first posting from it on.
const FIRST_POSTINGS: [(u32, Option<(u32, u32)>); 4] = [
    (0, Some((0, 1))),
    (1, Some((2, 2))),
    (2, Some((2, 2))),
    (3, None),
];

// The first posting whose document is large enough: of the second part of the documents, and of
// both parts of the frequencies.
#[test]
fn finds_the_first_posting(rt: HostRuntime) {
    let docs = [68_719_476_736, 0, 137_438_953_474, 0, 2];
    let sums = [68_719_476_736, 0, 137_438_953_474, 0, 2];
    let words = Words {
        format: Format::One,
        docs: &docs,
        doc_parts: 2,
        sums: &sums,
        sum_parts: 2,
    };
    let (docs, sums, _) = views(&rt, words, 2);
    for &(d, posting) in &FIRST_POSTINGS {
        assert_eq!(rt; first_posting(&docs, &sums, d), posting, "from {d}");
    }
}

// A document, and where a cursor goes for it.
const DOCUMENTS: [(u32, Option<u32>); 6] = [
    (0, Some(0)),
    (1, Some(2)),
    (0, Some(2)),
    (2, Some(2)),
    (3, None),
    (0, None),
];

// A cursor goes on to the first document that is large enough, and never back.
#[test]
fn goes_to_a_document(rt: HostRuntime) {
    let docs = [137_438_953_474, 0, 5];
    let sums = [137_438_953_477, 0, 33];
    let words = Words {
        format: Format::One,
        docs: &docs,
        doc_parts: 1,
        sums: &sums,
        sum_parts: 1,
    };
    let mut cursor = opened(&rt, words, 2);
    for &(d, doc) in &DOCUMENTS {
        assert_eq!(rt; next_of(&mut cursor, d), doc, "from {d}");
    }
}

// Read from the second on: the first document is skipped.
#[test]
fn reads_on_from_a_document(rt: HostRuntime) {
    for row in &THREE_POSTINGS {
        let mut cursor = opened_at(&rt, row, 3);
        let second = next_of(&mut cursor, 1);
        let postings = [Some((1, 2)), Some((2, 3)), None];
        assert_eq!(rt; (second, next_three(&mut cursor)), (Some(1), postings));
    }
}

// A frequency, and the posting where a cursor goes for it.
const FREQUENCIES: [(u32, Option<(u32, u32)>); 7] = [
    (0, Some((0, 1))),
    (1, Some((0, 1))),
    (2, Some((1, 2))),
    (1, Some((1, 2))),
    (3, Some((2, 3))),
    (4, None),
    (0, None),
];

// By their frequencies, before and behind a document that was read.
#[test]
fn goes_to_a_frequency(rt: HostRuntime) {
    for row in &THREE_POSTINGS[..2] {
        let mut cursor = opened_at(&rt, row, 3);
        for &(f, found) in &FREQUENCIES {
            assert_eq!(rt; frequent_of(&mut cursor, f), found, "at least {f}");
        }
        let mut cursor = opened_at(&rt, row, 3);
        let first = next_posting(&mut cursor);
        let second = frequent_of(&mut cursor, 1);
        let common = cursor.common_freq(1);
        assert_eq!(rt; (first, second, common), (Some((0, 1)), Some((1, 2)), 0));
    }
}

// Frequencies 1, 1 in one part and 100 in another, which is told.
#[test]
fn tells_a_common_frequency(rt: HostRuntime) {
    let docs = [206_158_430_210, 0];
    let sums = written(&rt, rt.alloc(), &[0, 1, 101], &[2, 3], Format::One);
    assert!(rt; sums.len() < 100);
    let words = Words {
        format: Format::One,
        docs: &docs,
        doc_parts: 1,
        sums: &sums,
        sum_parts: 2,
    };
    let mut cursor = opened(&rt, words, 3);
    let common = (cursor.common_freq(1), cursor.common_freq(2));
    assert_eq!(rt;
        (common, frequent_of(&mut cursor, 100)),
        ((100, 0), Some((2, 100)))
    );
}

// All by two, all behind the first document, and the last one.
#[test]
fn reads_the_postings_below(rt: HostRuntime) {
    let none = (0, [0, 0], [0, 0]);
    for row in &THREE_POSTINGS {
        let mut all = opened_at(&rt, row, 3);
        let first = (two_below(&mut all, 0), two_below(&mut all, 9));
        let last = (next_posting(&mut all), two_below(&mut all, 9));
        let want = ((none, (2, [0, 1], [1, 2])), (Some((2, 3)), none));
        assert_eq!(rt; (first, last), want);
        let mut behind = opened_at(&rt, row, 3);
        let first = (two_docs_below(&mut behind, 1), two_below(&mut behind, 2));
        let last = (
            two_below(&mut behind, u64::MAX),
            two_docs_below(&mut behind, u64::MAX),
        );
        let want = (
            ((1, [0, 0]), (1, [1, 0], [2, 0])),
            ((1, [2, 0], [3, 0]), (0, [0, 0])),
        );
        assert_eq!(rt; (first, last), want);
        let mut last = opened_at(&rt, row, 3);
        let place = next_of(&mut last, 2);
        let read = (two_below(&mut last, 2), two_below(&mut last, 3));
        assert_eq!(rt; (place, read), (Some(2), (none, (1, [2, 0], [3, 0]))));
    }
}

#[test]
fn an_empty_list_is_at_its_end(rt: HostRuntime) {
    for format in [Format::One, Format::Two, Format::Three] {
        let words = Words {
            format,
            docs: &[],
            doc_parts: 0,
            sums: &[],
            sum_parts: 0,
        };
        let mut cursor = opened(&rt, words, 0);
        let told = (cursor.len(), cursor.max_freq());
        let read = (next_of(&mut cursor, 0), two_below(&mut cursor, 9));
        let want = ((0, 0), (None, (0, [0, 0], [0, 0])), None);
        assert_eq!(rt; (told, read, next_posting(&mut cursor)), want);
    }
}

// How many words a cursor tells of two words of marks, and what is left of them, through the
// trait's bound.
fn kept_of<C: DocCursor>(cursor: &C, first: u32) -> (usize, [u64; 2]) {
    let mut marks = [u64::MAX; 2];
    let words = cursor.keep_in_words(first, &mut marks);
    (words, marks)
}

// The marks of a word: all, those at places that are no multiples of four, and these two places on.
const ALL: u64 = u64::MAX;

const SOME: u64 = 0xeeee_eeee_eeee_eeee;

const TWO_ON: u64 = 0xbbbb_bbbb_bbbb_bbbb;

// A document, from which place on, how many words of marks, and what is left of them.
const MARKS: [(u32, u32, usize, [u64; 2]); 10] = [
    (0, 0, 2, [ALL, ALL]),
    (0, 64, 1, [ALL, ALL]),
    (0, 65, 0, [ALL, ALL]),
    (0, u32::MAX, 0, [ALL, ALL]),
    (129, 127, 0, [ALL, ALL]),
    (129, 128, 2, [SOME, SOME]),
    (129, 130, 2, [TWO_ON, TWO_ON]),
    (129, 320, 1, [SOME, ALL]),
    (129, 321, 0, [ALL, ALL]),
    (384, 320, 0, [ALL, ALL]),
];

// Documents 0 to 127 in a part of which all places are taken, and then, in a bitmap, those up to
// 383 that are no multiples of four.
#[test]
fn keeps_marks_in_whole_words(rt: HostRuntime) {
    let docs = [
        (128 << 36) + 127,
        0,
        (320 << 36) + 383,
        0,
        SOME,
        SOME,
        SOME,
        SOME,
    ];
    let sums = [(320 << 36) + 319, 0];
    let words = Words {
        format: Format::One,
        docs: &docs,
        doc_parts: 2,
        sums: &sums,
        sum_parts: 1,
    };
    let mut cursor = opened(&rt, words, 320);
    for &(doc, first, words, marks) in &MARKS {
        next_of(&mut cursor, doc);
        assert_eq!(rt; kept_of(&cursor, first), (words, marks), "from {first}");
    }
}
