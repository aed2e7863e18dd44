// The documents of all the lists, those of any, and the best of them, every document scored.
use cursor_api::PlainCursor;
use scan_plans::{TopK, and_docs, or_docs, top_exhaustive};

// Five documents; a list has the documents 1 and 4, another 1, 2 and 4.
#[test]
fn two_lists(rt: HostRuntime) {
    let starts = [
        PlainCursor::new(&[1, 4], &[2, 3]),
        PlainCursor::new(&[1, 2, 4], &[1, 3, 1]),
    ];
    let mut cursors = starts;
    let both = and_docs(rt.alloc(), &mut cursors).expect(&rt, "memory");
    assert_eq!(rt; both.as_slice(), [1, 4].as_slice());
    let mut cursors = starts;
    let any = or_docs(rt.alloc(), &mut cursors).expect(&rt, "memory");
    assert_eq!(rt; any.as_slice(), [1, 2, 4].as_slice());
    let mut cursors = starts;
    let top = top_exhaustive(rt.alloc(), &mut cursors, &[1, 1], 2, 5).expect(&rt, "memory");
    assert_eq!(rt; top.as_slice(), [(4, 4), (1, 3)].as_slice());
    let mut cursors = starts;
    let all = top_exhaustive(rt.alloc(), &mut cursors, &[1, 1], 9, 5).expect(&rt, "memory");
    assert_eq!(rt; all.as_slice(), [(4, 4), (1, 3), (2, 3)].as_slice());
}

// With weights a frequency counts as often as its list weighs.
#[test]
fn weighted_lists(rt: HostRuntime) {
    let starts = [
        PlainCursor::new(&[1, 4], &[2, 3]),
        PlainCursor::new(&[1, 2, 4], &[1, 3, 1]),
    ];
    let mut cursors = starts;
    let first = top_exhaustive(rt.alloc(), &mut cursors, &[2, 1], 3, 5).expect(&rt, "memory");
    assert_eq!(rt; first.as_slice(), [(4, 7), (1, 5), (2, 3)].as_slice());
    let mut cursors = starts;
    let second = top_exhaustive(rt.alloc(), &mut cursors, &[1, 2], 2, 5).expect(&rt, "memory");
    assert_eq!(rt; second.as_slice(), [(2, 6), (4, 5)].as_slice());
    let mut cursors = starts;
    let most = top_exhaustive(rt.alloc(), &mut cursors, &[65_535, 1], 1, 5).expect(&rt, "memory");
    assert_eq!(rt; most.as_slice(), [(4, 196_606)].as_slice());
}

#[test]
fn one_list(rt: HostRuntime) {
    let starts = [PlainCursor::new(&[0, 2], &[1, 5])];
    let mut cursors = starts;
    let both = and_docs(rt.alloc(), &mut cursors).expect(&rt, "memory");
    assert_eq!(rt; both.as_slice(), [0, 2].as_slice());
    let mut cursors = starts;
    let any = or_docs(rt.alloc(), &mut cursors).expect(&rt, "memory");
    assert_eq!(rt; any.as_slice(), [0, 2].as_slice());
    let mut cursors = starts;
    let top = top_exhaustive(rt.alloc(), &mut cursors, &[1], 1, 3).expect(&rt, "memory");
    assert_eq!(rt; top.as_slice(), [(2, 5)].as_slice());
    let mut cursors = starts;
    let none = top_exhaustive(rt.alloc(), &mut cursors, &[1], 0, 3).expect(&rt, "memory");
    assert!(rt; none.is_empty());
}

// A window of scores has 8,192 documents from its first on, and one of marks 65,536.
#[test]
fn documents_at_the_border_of_a_window(rt: HostRuntime) {
    let starts = [
        PlainCursor::new(&[0, 8191, 8192, 65_535], &[1, 2, 3, 1]),
        PlainCursor::new(&[8192, 8193, 65_536], &[6, 7, 5]),
    ];
    let mut cursors = starts;
    let both = and_docs(rt.alloc(), &mut cursors).expect(&rt, "memory");
    assert_eq!(rt; both.as_slice(), [8192].as_slice());
    let mut cursors = starts;
    let any = or_docs(rt.alloc(), &mut cursors).expect(&rt, "memory");
    assert_eq!(rt;
        any.as_slice(),
        [0, 8191, 8192, 8193, 65_535, 65_536].as_slice()
    );
    let mut cursors = starts;
    let top = top_exhaustive(rt.alloc(), &mut cursors, &[1, 1], 9, 65_537).expect(&rt, "memory");
    let best = [
        (8192, 9),
        (8193, 7),
        (65_536, 5),
        (8191, 2),
        (0, 1),
        (65_535, 1),
    ];
    assert_eq!(rt; top.as_slice(), best.as_slice());
}

#[test]
fn no_list(rt: HostRuntime) {
    let mut none: [PlainCursor; 0] = [];
    let both = and_docs(rt.alloc(), &mut none).expect(&rt, "memory");
    assert!(rt; both.is_empty());
    let any = or_docs(rt.alloc(), &mut none).expect(&rt, "memory");
    assert!(rt; any.is_empty());
    let top = top_exhaustive(rt.alloc(), &mut none, &[], 3, 5).expect(&rt, "memory");
    assert!(rt; top.is_empty());
}

#[test]
fn room_for_one(rt: HostRuntime) {
    let mut top = TopK::new(rt.alloc(), 1, 5).expect(&rt, "memory");
    assert_eq!(rt; top.threshold(), None);
    top.offer(3, 7);
    assert_eq!(rt; top.threshold(), Some(7));
    let list = top.into_list().expect(&rt, "memory");
    assert_eq!(rt; list.as_slice(), [(3, 7)].as_slice());
}
