// Two lists over three documents, built in each format, checked, and asked by calls and by lines;
// what is asked and cannot be; and lists that are none.
ghost use Rattle.std.specs.Prelude.{◌≤◌, take};
ghost use Rattle.index_file.specs.FileWords.{IsIndex};

use crate::asking::{
    Posting, pefidx_count, pefidx_documents, pefidx_next, pefidx_postings, pefidx_size_of,
    pefidx_terms,
};
use crate::building::pefidx_build;
use crate::checking::{Fault, pefidx_check};
use crate::given_lists::BadPosting;
use crate::joining::pefidx_join_top;
use crate::kept::{pefidx_keep, pefidx_maxima};
use crate::matching::{pefidx_and, pefidx_or};
use crate::merging::pefidx_merge;
use crate::packing::{CollectionFault, pefidx_pack};
use crate::ranking::{Scored, pefidx_top};
use crate::reply_room::pefidx_room;
use crate::replying::pefidx_reply;
use crate::segment::{Segment, SegmentFault};
use crate::segment_calls::{pefidx_maxima_segments, pefidx_reply_segments, pefidx_top_segments};
use crate::segment_checking::pefidx_check_segments;
use std::alloc::Global;
use std::process::Abort;

// The words in a format of two lists, document 0 twice and document 2 once, and document 2 four
// times, with the sizes 2, 0 and 5: how many they are.
fn built(rt: &impl Abort, alloc: Global, format: u32, room: &mut [u64; 64]) -> usize
    ensures within { result ≤ 64 }
    ensures index { IsIndex (take result room.new) }
{
    let mut count = 0;
    let mut bad = BadPosting { term: 9, place: 9 };
    let status = pefidx_build(
        alloc,
        format,
        &[2, 1],
        &[0, 2, 2],
        &[2, 1, 4],
        &[2, 0, 5],
        room,
        &mut count,
        &mut bad,
    );
    assert_eq!(rt; status, 0);
    assert!(rt; count <= 64);
    let mut fault = no_fault();
    assert_eq!(rt; pefidx_check(&room[..count], &mut fault), 0);
    count
}

// What no check tells.
fn no_fault() -> Fault {
    Fault {
        check: 9,
        term: 9,
        part: 9,
    }
}

// What no check of segments tells.
fn no_segment_fault() -> SegmentFault {
    SegmentFault {
        segment: 9,
        rule: 9,
        check: 9,
        term: 9,
        part: 9,
    }
}

#[test]
fn an_index_is_built_and_checked(rt: HostRuntime) {
    for format in 1..4 {
        let mut room = [0u64; 64];
        let count = built(&rt, rt.alloc(), format, &mut room);
        let words = &room[..count];
        assert_eq!(&rt; pefidx_documents(words), 3);
        assert_eq!(&rt; pefidx_terms(words), 2);
        let mut size = 0;
        assert_eq!(&rt; pefidx_size_of(words, 2, &mut size), 0);
        assert_eq!(&rt; size, 5);
        let mut fault = no_fault();
        assert!(&rt; words.len() >= 5);
        assert_eq!(&rt; pefidx_check(&words[..5], &mut fault), 3);
        assert_eq!(&rt; (fault.check, fault.term, fault.part), (1, 0, 0));
    }
}

#[test]
fn a_packed_file_is_small(rt: HostRuntime) {
    let mut room = [0u64; 64];
    // The two lists take 26 bits, and the three places of the directory one word.
    assert_eq!(&rt; built(&rt, rt.alloc(), 3, &mut room), 10);
}

#[test]
fn starts_are_kept(rt: HostRuntime) {
    for (format, what, kept) in [(2, 1, 1), (3, 0, 0), (3, 1, 6)] {
        let mut room = [0u64; 64];
        let count = built(&rt, rt.alloc(), format, &mut room);
        let words = &room[..count];
        let (mut numbers, mut many) = ([7u64; 6], 9);
        let status = pefidx_keep(rt.alloc(), words, what, &mut numbers, &mut many);
        assert_eq!(&rt; (status, many), (0, kept));
    }
}

#[test]
fn maxima_are_kept(rt: HostRuntime) {
    let mut room = [0u64; 64];
    let count = built(&rt, rt.alloc(), 3, &mut room);
    let words = &room[..count];
    for (room, status) in [(12, 0), (7, 2)] {
        // No list is long, so the only word tells that entries would begin at 0.
        let (mut maxima, mut many) = ([7u8; 12], 9);
        assert!(&rt; room <= 12);
        let ended = pefidx_maxima(rt.alloc(), words, &[], &mut maxima[..room], &mut many);
        assert_eq!(&rt; (ended, many), (status, 8));
        assert_eq!(&rt; (maxima.get(6), maxima.get(8)), (Some(&0), Some(&7)));
    }
}

#[test]
fn maxima_are_lent(rt: HostRuntime) {
    let mut room = [0u64; 64];
    let count = built(&rt, rt.alloc(), 3, &mut room);
    let words = &room[..count];
    let (mut maxima, mut many) = ([7u8; 8], 9);
    let kept = pefidx_maxima(rt.alloc(), words, &[], &mut maxima, &mut many);
    assert_eq!(&rt; (kept, many), (0, 8));
    let mut best = [Scored { doc: 7, score: 7 }; 2];
    let mut found = 9;
    let status = pefidx_top(
        rt.alloc(),
        words,
        &[],
        &maxima,
        3,
        &[0, 1],
        &[1, 10],
        5,
        &mut best,
        &mut found,
    );
    assert_eq!(&rt; (status, found), (0, 2));
    assert_eq!(&rt; (best[0].doc, best[0].score), (2, 41));
    let mut text = [b'.'; 8];
    let ended = pefidx_reply(
        rt.alloc(),
        words,
        &[],
        &maxima,
        3,
        b"top 1 0 1*10",
        &mut text,
        &mut found,
    );
    assert_eq!(&rt; (ended, found), (0, 7));
    assert_eq!(&rt; text.as_slice(), b"1 2:41\n.".as_slice());
}

#[test]
fn a_flag_is_refused(rt: HostRuntime) {
    let mut room = [0u64; 64];
    let count = built(&rt, rt.alloc(), 3, &mut room);
    let words = &room[..count];
    let (mut numbers, mut many) = ([7u64; 4], 9);
    assert_eq!(&rt;
        pefidx_keep(rt.alloc(), words, 8, &mut numbers, &mut many),
        15
    );
    assert_eq!(&rt;
        pefidx_keep(rt.alloc(), words, 1, &mut numbers[..1], &mut many),
        2
    );
    assert_eq!(&rt; (many, numbers), (6, [5, 7, 7, 7]));
}

#[test]
fn lists_are_asked_by_their_heads(rt: HostRuntime) {
    let mut room = [0u64; 64];
    let count = built(&rt, rt.alloc(), 3, &mut room);
    let words = &room[..count];
    let (mut kept, mut many) = ([7u64; 6], 9);
    let status = pefidx_keep(rt.alloc(), words, 1, &mut kept, &mut many);
    assert_eq!(&rt; (status, many), (0, 6));
    let mut found = Posting { doc: 7, freq: 7 };
    assert_eq!(&rt; pefidx_next(words, &kept, 0, 1, &mut found), 0);
    assert_eq!(&rt; (found.doc, found.freq), (2, 1));
    // A list of one posting has no head.
    assert_eq!(&rt; pefidx_next(words, &kept, 1, 0, &mut found), 0);
    assert_eq!(&rt; (found.doc, found.freq), (2, 4));
    assert_eq!(&rt; pefidx_next(words, &kept, 0, 3, &mut found), 1);
}

#[test]
fn postings_are_asked(rt: HostRuntime) {
    let mut room = [0u64; 64];
    let count = built(&rt, rt.alloc(), 3, &mut room);
    let words = &room[..count];
    let mut found = Posting { doc: 0, freq: 0 };
    for (term, doc, status) in [(0, 1, 0), (1, 3, 1), (2, 0, 4)] {
        assert_eq!(&rt; pefidx_next(words, &[], term, doc, &mut found), status);
        assert_eq!(&rt; (found.doc, found.freq), (2, 1));
    }
    let mut postings = 9;
    assert_eq!(&rt; pefidx_count(words, &[], 2, &mut postings), 4);
    assert_eq!(&rt;
        (pefidx_count(words, &[], 0, &mut postings), postings),
        (0, 2)
    );
    let mut given = 0;
    let mut list = [found; 1];
    for (place, doc, freq) in [(0, 0, 2), (1, 2, 1)] {
        assert_eq!(&rt;
            pefidx_postings(words, &[], 0, place, &mut list, &mut given),
            0
        );
        assert_eq!(&rt; (given, list[0].doc, list[0].freq), (1, doc, freq));
    }
}

#[test]
fn documents_are_matched(rt: HostRuntime) {
    let mut room = [0u64; 64];
    let count = built(&rt, rt.alloc(), 1, &mut room);
    let words = &room[..count];
    let mut docs = [7; 3];
    let mut matches = 0;
    assert_eq!(&rt;
        pefidx_and(rt.alloc(), words, &[], &[0, 1], &mut docs, &mut matches),
        0
    );
    assert_eq!(&rt; (matches, docs), (1, [2, 7, 7]));
    assert_eq!(&rt;
        pefidx_or(
            rt.alloc(),
            words,
            &[],
            &[1, 0],
            &mut docs[..1],
            &mut matches
        ),
        2
    );
    assert_eq!(&rt; (matches, docs), (2, [0, 7, 7]));
}

#[test]
fn the_best_are_found_by_each_plan(rt: HostRuntime) {
    let mut room = [0u64; 64];
    let count = built(&rt, rt.alloc(), 3, &mut room);
    let words = &room[..count];
    let mut best = [Scored { doc: 7, score: 7 }; 2];
    let mut matches = 0;
    for plan in 0..4 {
        let status = pefidx_top(
            rt.alloc(),
            words,
            &[],
            &[],
            plan,
            &[0, 1],
            &[1, 10],
            5,
            &mut best,
            &mut matches,
        );
        assert_eq!(&rt; (status, matches), (0, 2));
        assert_eq!(&rt; (best[0].doc, best[0].score), (2, 41));
        assert_eq!(&rt; (best[1].doc, best[1].score), (0, 2));
    }
}

#[test]
fn ranges_are_joined(rt: HostRuntime) {
    let given = [
        Scored { doc: 1, score: 9 },
        Scored { doc: 0, score: 4 },
        Scored { doc: 2, score: 9 },
    ];
    let mut best = [Scored { doc: 7, score: 7 }; 2];
    let mut count = 7;
    for (counts, status) in [([2, 1], 2), ([2, 2], 12)] {
        let ended = pefidx_join_top(
            rt.alloc(),
            &[5, 3],
            &counts,
            &given,
            9,
            &mut best,
            &mut count,
        );
        assert_eq!(&rt; (ended, count), (status, 3));
        assert_eq!(&rt; (best[0].doc, best[0].score), (1, 9));
        assert_eq!(&rt; (best[1].doc, best[1].score), (7, 9));
    }
}

#[test]
fn lines_are_answered(rt: HostRuntime) {
    let mut room = [0u64; 64];
    let count = built(&rt, rt.alloc(), 2, &mut room);
    let words = &room[..count];
    for (plan, line, status, length, reply) in [
        (0, "next 0 1", 0, 4, "2 1\n...."),
        (1, "top 1 0 1*10", 0, 7, "1 2:41\n."),
        (2, "or 2", 2, 9, "bad term"),
        (3, "top 1 0 1*10", 0, 7, "1 2:41\n."),
        (4, "or 0", 8, 0, "........"),
    ] {
        let mut text = [b'.'; 8];
        let mut given = 0;
        let ended = pefidx_reply(
            rt.alloc(),
            words,
            &[],
            &[],
            plan,
            line.as_bytes(),
            &mut text,
            &mut given,
        );
        assert_eq!(&rt; (ended, given), (status, length));
        assert_eq!(&rt; text.as_slice(), reply.as_bytes());
    }
}

#[test]
fn a_bad_posting_is_told(rt: HostRuntime) {
    let alloc = rt.alloc();
    let mut count = 7;
    for (docs, freqs, place) in [
        ([0, 0, 1], [1, 1, 1], 1),
        ([0, 1, 3], [1, 1, 1], 2),
        ([0, 1, 2], [1, 0, 1], 1),
    ] {
        let mut bad = BadPosting { term: 9, place: 9 };
        let status = pefidx_build(
            alloc,
            2,
            &[0, 3],
            &docs,
            &freqs,
            &[1, 1, 1],
            &mut [],
            &mut count,
            &mut bad,
        );
        assert_eq!(&rt; (status, bad.term, bad.place), (13, 1, place));
    }
}

#[test]
fn a_format_has_its_limits(rt: HostRuntime) {
    let docs = [0, 1, 2, 3, 4, 5, 6, 7, 8, 9, 10, 11, 12, 13, 14, 15, 16];
    for (format, status, place) in [(0, 14, 9), (1, 13, 16), (2, 2, 9), (3, 2, 9), (4, 14, 9)] {
        let mut count = 7;
        let mut bad = BadPosting { term: 9, place: 9 };
        let ended = pefidx_build(
            rt.alloc(),
            format,
            &[17],
            &docs,
            &[4_294_967_295; 17],
            &[0; 17],
            &mut [],
            &mut count,
            &mut bad,
        );
        assert_eq!(&rt; (ended, bad.place), (status, place));
    }
}

// The bytes of the files of the collection that is built above.
const DOCS: [u8; 28] = [
    1, 0, 0, 0, 3, 0, 0, 0, 2, 0, 0, 0, 0, 0, 0, 0, 2, 0, 0, 0, 1, 0, 0, 0, 2, 0, 0, 0,
];

const FREQS: [u8; 20] = [2, 0, 0, 0, 2, 0, 0, 0, 1, 0, 0, 0, 1, 0, 0, 0, 4, 0, 0, 0];

const SIZES: [u8; 16] = [3, 0, 0, 0, 2, 0, 0, 0, 0, 0, 0, 0, 5, 0, 0, 0];

#[test]
fn files_are_packed(rt: HostRuntime) {
    let mut wanted = [7u64; 64];
    let count = built(&rt, rt.alloc(), 3, &mut wanted);
    for (room, status) in [(64, 0), (9, 2)] {
        let mut words = [7u64; 64];
        let mut made = 0;
        let mut fault = no_collection_fault();
        assert!(&rt; room <= 64);
        let ended = pefidx_pack(
            rt.alloc(),
            &DOCS,
            &FREQS,
            &SIZES,
            &mut words[..room],
            &mut made,
            &mut fault,
        );
        assert_eq!(&rt; (ended, made, fault.rule), (status, count, 99));
        for at in 0..9 {
            assert_eq!(&rt; words.get(at), wanted.get(at));
        }
    }
}

#[test]
fn a_broken_rule_is_told(rt: HostRuntime) {
    for (docs, freqs, sizes, told) in [
        (&DOCS[..27], &FREQS[..], &SIZES[..], [1, 0, 1, 0]),
        (&DOCS[..20], &FREQS[..], &SIZES[..], [10, 1, 1, 0]),
        (&DOCS[..], &FREQS[..12], &SIZES[..], [1, 1, 1, 0]),
        (&DOCS[..], &FREQS[..], &SIZES[..12], [1, 2, 2, 2]),
    ] {
        let mut made = 7;
        let mut fault = no_collection_fault();
        let ended = pefidx_pack(
            rt.alloc(),
            docs,
            freqs,
            sizes,
            &mut [],
            &mut made,
            &mut fault,
        );
        assert_eq!(&rt; (ended, made), (17, 7));
        assert_eq!(&rt; [fault.rule, fault.file, fault.term, fault.place], told);
    }
}

// What no rule tells.
fn no_collection_fault() -> CollectionFault {
    CollectionFault {
        rule: 99,
        file: 99,
        term: 99,
        place: 99,
    }
}

#[test]
fn a_reply_has_room(rt: HostRuntime) {
    let mut room = [0u64; 64];
    let count = built(&rt, rt.alloc(), 3, &mut room);
    let words = &room[..count];
    for (line, most) in [
        ("next 0 1", 22),
        ("and 0 1", 22),
        ("or 0 1", 44),
        ("top 1 0 1", 41),
        ("or 2", 11),
    ] {
        let mut bytes = 0;
        let status = pefidx_room(rt.alloc(), words, &[], line.as_bytes(), &mut bytes);
        assert_eq!(&rt; (status, bytes), (0, most));
    }
}

#[test]
fn segments_are_asked_as_one(rt: HostRuntime) {
    let mut room = [0u64; 64];
    let count = built(&rt, rt.alloc(), 3, &mut room);
    let words = &room[..count];
    let segments = [Segment {
        first: 0,
        count: count as u64,
    }; 2];
    let mut fault = no_segment_fault();
    assert_eq!(&rt; pefidx_check_segments(words, &segments, &mut fault), 0);
    let mut best = [Scored { doc: 7, score: 7 }; 2];
    let mut found = 0;
    for plan in 0..4 {
        let status = pefidx_top_segments(
            rt.alloc(),
            words,
            &segments,
            &[],
            &[],
            plan,
            &[0, 1],
            &[1, 10],
            5,
            &mut best,
            &mut found,
        );
        assert_eq!(&rt; (status, found), (2, 4));
        assert_eq!(&rt; (best[0].doc, best[1].doc, best[1].score), (2, 5, 41));
    }
    let mut text = [b'.'; 8];
    let ended = pefidx_reply_segments(
        rt.alloc(),
        words,
        &segments,
        &[],
        &[],
        0,
        b"next 0 3",
        &mut text,
        &mut found,
    );
    assert_eq!(&rt; (ended, found), (0, 4));
    assert_eq!(&rt; text.as_slice(), b"3 2\n....".as_slice());
}

#[test]
fn maxima_of_segments_are_lent(rt: HostRuntime) {
    let mut room = [0u64; 64];
    let count = built(&rt, rt.alloc(), 3, &mut room);
    let words = &room[..count];
    let segments = [Segment {
        first: 0,
        count: count as u64,
    }; 2];
    let mut fault = no_segment_fault();
    assert_eq!(&rt; pefidx_check_segments(words, &segments, &mut fault), 0);
    let (mut maxima, mut many) = ([7u8; 8], 9);
    let kept = pefidx_maxima_segments(rt.alloc(), words, &segments, &[], &mut maxima, &mut many);
    assert_eq!(&rt; (kept, many), (0, 8));
    let mut best = [Scored { doc: 7, score: 7 }; 2];
    let mut found = 0;
    let status = pefidx_top_segments(
        rt.alloc(),
        words,
        &segments,
        &[],
        &maxima,
        3,
        &[0, 1],
        &[1, 10],
        5,
        &mut best,
        &mut found,
    );
    assert_eq!(&rt; (status, found), (2, 4));
    assert_eq!(&rt; (best[0].doc, best[1].doc, best[1].score), (2, 5, 41));
    let mut text = [b'.'; 8];
    let ended = pefidx_reply_segments(
        rt.alloc(),
        words,
        &segments,
        &[],
        &maxima,
        3,
        b"top 1 0 1*10",
        &mut text,
        &mut found,
    );
    assert_eq!(&rt; (ended, found), (0, 7));
    assert_eq!(&rt; text.as_slice(), b"1 2:41\n.".as_slice());
}

#[test]
fn segments_that_do_not_fit_are_told(rt: HostRuntime) {
    let mut room = [0u64; 64];
    let count = built(&rt, rt.alloc(), 3, &mut room);
    let words = &room[..count];
    for (first, status, segment) in [(0, 3, 1), (60, 12, 9)] {
        let whole = Segment {
            first: 0,
            count: count as u64,
        };
        let mut fault = no_segment_fault();
        let ended = pefidx_check_segments(words, &[whole, Segment { first, count: 5 }], &mut fault);
        assert_eq!(&rt; (ended, fault.segment), (status, segment));
    }
}

#[test]
fn segments_are_merged(rt: HostRuntime) {
    let mut room = [0u64; 64];
    let count = built(&rt, rt.alloc(), 2, &mut room);
    let words = &room[..count];
    let segments = [Segment {
        first: 0,
        count: count as u64,
    }; 2];
    let mut fault = no_segment_fault();
    assert_eq!(&rt; pefidx_check_segments(words, &segments, &mut fault), 0);
    let mut merged = [0u64; 64];
    let mut given = 0;
    let status = pefidx_merge(
        rt.alloc(),
        words,
        &segments,
        &mut merged,
        &mut given,
        &mut fault,
    );
    assert_eq!(&rt; status, 0);
    assert!(&rt; given <= 64);
    let mut none = no_fault();
    assert_eq!(&rt; pefidx_check(&merged[..given], &mut none), 0);
    assert_eq!(&rt; pefidx_documents(&merged[..given]), 6);
}
