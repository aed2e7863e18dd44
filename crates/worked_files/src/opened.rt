// Indexes that are opened: what they tell, and their postings.
ghost use Rattle.std.specs.Prelude.{◌≤◌, length};

use crate::words::{
    IN_TWO_PARTS, ONE_LIST, ONE_LIST_OF_TWO, ONE_PACKED_LIST, ONE_WIDE_GAP, PACKED_END,
    PACKED_OPENING, THREE_LISTS, THREE_PACKED_LISTS,
};
use cursor_api::DocCursor;
use index_file::{Index, list_starts};
use part_cost::{Format, Kind};
use std::alloc::Global;
use std::process::Abort;
use std::test::Fail;

// The posting at the place of a cursor, which then goes on.
pub(crate) fn next_posting<C: DocCursor>(cursor: &mut C) -> Option<(u32, u32)> {
    let doc = cursor.doc()?;
    let freq = cursor.freq();
    cursor.advance();
    Some((doc, freq))
}

// An index is opened and read, in both formats and as a packed file.
#[test]
fn opens_one_list(rt: HostRuntime) {
    for (words, format, count) in [
        (ONE_LIST, Format::One, 18),
        (ONE_LIST_OF_TWO, Format::Two, 20),
        (ONE_PACKED_LIST, Format::Three, 10),
    ] {
        assert!(rt; words.len() <= 20);
        let index = Index::view(words).expect(&rt, "an index");
        assert_eq!(rt; index.format(), format);
        assert_eq!(rt; index.documents(), 3);
        assert!(rt; index.terms() == 1);
        assert_eq!(rt; index.postings(), 2);
        assert_eq!(rt; index.word_count(), count);
        assert_eq!(rt; index.size_total(), 11);
        // Of the bitmaps one takes 3 bits, and one 6.
        for (kind, parts) in [(Kind::Ones, 0), (Kind::Bitmap, 2), (Kind::Ef, 0)] {
            assert_eq!(rt; index.parts_of_kind(kind), parts);
        }
        assert_eq!(rt; index.payload_bits(), 9);
        for (d, size) in [(0, 4), (1, 0), (2, 7)] {
            assert!(rt; d < index.documents());
            assert_eq!(rt; index.size_of(d), size);
        }
        let mut cursor = index.cursor(0);
        assert_eq!(rt; (cursor.len(), cursor.max_freq()), (2, 5));
        assert_eq!(rt; next_posting(&mut cursor), Some((0, 1)));
        assert_eq!(rt; next_posting(&mut cursor), Some((2, 5)));
        assert_eq!(rt; next_posting(&mut cursor), None);
    }
}

// Documents 1 and 2 instead of 0 and 2 are an index too.
#[test]
fn opens_other_documents(rt: HostRuntime) -> Result<(), Fail> {
    for (file, payload, word) in [
        (ONE_LIST, 4, 6),
        (ONE_LIST_OF_TWO, 5, 6),
        (ONE_PACKED_LIST, 2, 17_445_986),
    ] {
        let mut words = file.to_vec(rt.alloc())?;
        assert!(rt; words.len() <= 20 && payload < words.len());
        words[payload] = word;
        let index = Index::view(&words).expect(&rt, "an index");
        assert!(rt; index.terms() == 1);
        let mut cursor = index.cursor(0);
        assert_eq!(rt; next_posting(&mut cursor), Some((1, 1)));
        assert_eq!(rt; next_posting(&mut cursor), Some((2, 5)));
    }
    Ok(())
}

// How many parts are all ones, bitmaps and in Elias-Fano form, and the bits that they take.
#[test]
fn measures_parts(rt: HostRuntime) {
    for (words, ones, bitmaps, efs, bits) in [
        (IN_TWO_PARTS, 1, 2, 0, 8),
        (THREE_LISTS, 2, 2, 0, 5),
        (THREE_PACKED_LISTS, 2, 2, 0, 5),
        (ONE_WIDE_GAP, 1, 0, 1, 8),
    ] {
        assert!(rt; words.len() <= 29);
        let index = Index::view(words).expect(&rt, "an index");
        for (kind, parts) in [(Kind::Ones, ones), (Kind::Bitmap, bitmaps), (Kind::Ef, efs)] {
            assert_eq!(rt; index.parts_of_kind(kind), parts);
        }
        assert_eq!(rt; index.payload_bits(), bits);
    }
}

// Six words may be a packed file of as many empty lists as there may be. Nothing walks over them.
#[test]
fn opens_empty_lists(rt: HostRuntime) {
    let words = [PACKED_OPENING, 3, 0, 4_294_967_295, 0, PACKED_END];
    let index = Index::view(&words).expect(&rt, "an index");
    assert_eq!(rt; (index.documents(), index.terms()), (0, u32::MAX));
    assert_eq!(rt; index.walked_terms(), 0);
    assert_eq!(rt; (index.postings(), index.size_total()), (0, 0));
    assert_eq!(rt;
        (index.payload_bits(), index.parts_of_kind(Kind::Ones)),
        (0, 0)
    );
}

// Where the lists of an index begin is kept so, and the lists are found by it.
fn keeps_starts(rt: &impl Abort, alloc: Global, words: &[u64], starts: &[u64])
    requires { length words.now ≤ 29 }
{
    let index = Index::view(words).expect(rt, "an index");
    let kept = list_starts(alloc, words).expect(rt, "memory");
    assert_eq!(rt; kept.as_slice(), starts);
    let with_starts = Index::with_starts(words, &kept);
    if index.terms() == 3 {
        for t in 0..3 {
            assert_eq!(rt;
                next_posting(&mut with_starts.cursor(t)),
                next_posting(&mut index.cursor(t))
            );
        }
    }
}

// One list takes 25 bits, and of three the second none. Nothing is kept of a plain file, nor of a
// packed one with fewer than two words for a number: with one empty list more, and of six words
// that may be as many empty lists as there may be.
#[test]
fn keeps_where_lists_begin(rt: HostRuntime) {
    keeps_starts(&rt, rt.alloc(), ONE_PACKED_LIST, &[0, 25]);
    keeps_starts(&rt, rt.alloc(), THREE_PACKED_LISTS, &[0, 3, 3, 8]);
    keeps_starts(&rt, rt.alloc(), THREE_LISTS, &[]);
    keeps_starts(&rt, rt.alloc(), ONE_LIST_OF_TWO, &[]);
    let four = [
        PACKED_OPENING,
        3,
        235,
        4_294_967_297,
        6193,
        2,
        4,
        8,
        PACKED_END,
    ];
    keeps_starts(&rt, rt.alloc(), &four, &[]);
    let words = [PACKED_OPENING, 3, 0, 4_294_967_295, 0, PACKED_END];
    keeps_starts(&rt, rt.alloc(), &words, &[]);
}
