// WAND and MaxScore over plain lists. Of no more than 8,192 documents, or of fewer than k times k
// postings, all are scored, so most rows have more.
ghost use Rattle.std.specs.Prelude.{◌≡◌, ◌≤◌, ◌<◌};

use crate::blocks::{first_documents, long_cursor};
use crate::counting::Counting;
use cursor_api::PlainCursor;
use no_memory::NoMemory;
use std::alloc::Global;
use topk_pruning::{Plan, plan_top, pruning_can_save, top_maxscore};

// Weights of two lists, how many are wanted, and the best of them.
const WEIGHED: [([u32; 2], u32, &[(u32, u64)]); 6] = [
    ([1, 1], 2, &[(4, 4), (1, 3)]),
    ([2, 1], 3, &[(4, 7), (1, 5), (2, 3)]),
    ([1, 2], 2, &[(2, 6), (4, 5)]),
    ([65_535, 1], 1, &[(4, 196_606)]),
    ([1, 1], 9, &[(4, 4), (1, 3), (2, 3)]),
    ([1, 1], 0, &[]),
];

// A list has the documents 1 and 4, another 1, 2 and 4.
#[test]
fn two_lists(rt: HostRuntime) {
    let starts = [
        PlainCursor::new(&[1, 4], &[2, 3]),
        PlainCursor::new(&[1, 2, 4], &[1, 3, 1]),
    ];
    for plan in [Plan::Wand, Plan::MaxScore] {
        for &(weights, k, wanted) in &WEIGHED {
            let mut cursors = starts;
            let top = plan_top(rt.alloc(), plan, &mut cursors, &weights, k, 9_000).expect(
                &rt, "memory",
            );
            assert_eq!(rt; top.as_slice(), wanted);
        }
    }
}

// A plain cursor that has counted nothing.
pub(crate) fn counting(cursor: PlainCursor<'_>) -> Counting<PlainCursor<'_>>
    ensures { result.cursor ≡ cursor.entry }
{
    Counting {
        cursor,
        moves: 0,
        read: 0,
    }
}

// A plan, how many are wanted, the best of them, and how many postings are read at most.
const APART: [(Plan, u32, &[(u32, u64)], u64); 6] = [
    (Plan::Wand, 1, &[(0, 1)], 4),
    (Plan::Wand, 2, &[(0, 1), (3, 1)], 4),
    (Plan::Wand, 3, &[(0, 1), (3, 1), (5, 1)], 5),
    (Plan::MaxScore, 1, &[(0, 1)], 5),
    (Plan::MaxScore, 2, &[(0, 1), (3, 1)], 5),
    (Plan::MaxScore, 3, &[(0, 1), (3, 1), (5, 1)], 5),
];

// The candidates of one list lie between those of the other. WAND passes over document 40: it has 1
// there at most.
#[test]
fn documents_of_one_list_each(rt: HostRuntime) {
    let starts = [
        PlainCursor::new(&[0, 5, 40], &[1, 1, 1]),
        PlainCursor::new(&[3, 50], &[1, 1]),
    ];
    for &(plan, k, wanted, read) in &APART {
        let mut cursors = [counting(starts[0]), counting(starts[1])];
        let top = plan_top(rt.alloc(), plan, &mut cursors, &[1, 1], k, 9_000).expect(&rt, "memory");
        assert_eq!(rt; top.as_slice(), wanted);
        let all = cursors[0].read.saturating_add(cursors[1].read);
        assert!(rt; all <= read, "{plan:?} of {k}: {all}");
    }
}

// A `k` above the number of documents takes no room for more than these.
#[test]
fn one_list(rt: HostRuntime) {
    let starts = [PlainCursor::new(&[0, 2], &[2, 10])];
    for plan in [Plan::Wand, Plan::MaxScore] {
        let mut cursors = starts;
        let top = plan_top(rt.alloc(), plan, &mut cursors, &[1], u32::MAX, 9_000).expect(
            &rt, "memory",
        );
        assert_eq!(rt; top.as_slice(), [(2, 10), (0, 2)].as_slice());
    }
}

// Two documents are wanted where four lists have one between them.
#[test]
fn one_document_of_four_lists(rt: HostRuntime) {
    let start = PlainCursor::new(&[7], &[2]);
    for plan in [Plan::Wand, Plan::MaxScore] {
        let mut cursors = [start, start, start, start];
        let top = plan_top(rt.alloc(), plan, &mut cursors, &[1, 1, 1, 1], 2, 9_000).expect(
            &rt, "memory",
        );
        assert_eq!(rt; top.as_slice(), [(7, 8)].as_slice());
    }
}

// The best k of the documents below `n`, each had once by the one list but the last, which it has
// nine times; and how many postings were read.
fn best_of_a_long_list(
    alloc: Global,
    plan: Plan,
    k: u32,
    n: u32,
) -> Result<(Vec<(u32, u64)>, u64), NoMemory>
    requires some { 2 ≤ n }
    requires few { n < 4294967295 }
{
    let docs = first_documents(alloc, n)?;
    let mut freqs = vec![in alloc; 1; n as usize - 1]?;
    freqs.push(9)?;
    let mut cursors = [counting(long_cursor(&docs, &freqs, n))];
    let top = plan_top(alloc, plan, &mut cursors, &[1], k, n)?;
    Ok((top, cursors[0].read))
}

// How many are wanted, the last of them, and how many postings MaxScore reads at most.
const FLOORS: [(u32, (u32, u64), u64); 5] = [
    (1, (8_192, 9), 100),
    (2, (0, 1), 100),
    (90, (88, 1), 200),
    (8_192, (8_190, 1), 8_193),
    (8_193, (8_191, 1), 8_193),
];

// Of a list with 8,193 postings a score is told that k of them reach, here 1. A score at this floor
// is held, and then one above it is asked for: MaxScore passes over all the others between.
#[test]
fn scores_at_a_floor(rt: HostRuntime) {
    for plan in [Plan::Exhaustive, Plan::Wand, Plan::MaxScore] {
        for &(k, last, most) in &FLOORS {
            let (top, read) = best_of_a_long_list(rt.alloc(), plan, k, 8_193).expect(&rt, "memory");
            assert_eq!(rt; top.len(), k as usize);
            assert_eq!(rt; top.last().copied(), Some(last), "of {k}");
            if plan == Plan::MaxScore {
                assert!(rt; read <= most, "of {k}: {read}");
            }
        }
    }
}

// How many are wanted, the best of them, and how many postings are read at most.
const FAR_APART: [(u32, &[(u32, u64)], u64); 3] = [
    (1, &[(30, 7)], 7),
    (2, &[(30, 7), (0, 6)], 7),
    (3, &[(30, 7), (0, 6), (40, 6)], 9),
];

// One list alone can lift a document above the bar after the first ones, and only where it has it
// often enough; at equal scores the earlier document stays. What lies between is passed over.
#[test]
fn candidates_far_apart(rt: HostRuntime) {
    let starts = [
        PlainCursor::new(&[0, 2, 4, 10, 20, 30, 40], &[5, 5, 4, 1, 4, 6, 6]),
        PlainCursor::new(&[0, 20, 30], &[1, 1, 1]),
    ];
    for &(k, wanted, read) in &FAR_APART {
        let mut cursors = [counting(starts[0]), counting(starts[1])];
        let top = top_maxscore(rt.alloc(), &mut cursors, &[1, 1], k, 9_000).expect(&rt, "memory");
        assert_eq!(rt; top.as_slice(), wanted);
        let all = cursors[0].read.saturating_add(cursors[1].read);
        assert!(rt; all <= read, "of {k}: {all}");
    }
}

// Of two lists one has a posting, once: its bound is its weight, to which the heaviest weight is
// compared, whatever the scale of both; where the bound is low, of three lists alike. Of more than
// four that are short nothing is saved.
#[test]
fn where_pruning_begins(rt: HostRuntime) {
    let none = PlainCursor::new(&[], &[]);
    let one = PlainCursor::new(&[7], &[1]);
    for (weights, n, saves) in [
        ([1, 1], 8_192, false),
        ([1, 1], 8_193, true),
        ([1_024, 1], 8_193, true),
        ([1_025, 1], 8_193, false),
        ([2_048, 2], 8_193, true),
        ([2_049, 2], 8_193, false),
    ] {
        assert_eq!(rt; pruning_can_save(&[none, one], &weights, 1, n), saves);
    }
    for (weights, saves) in [([1_024, 1, 1], true), ([1_025, 1, 1], false)] {
        assert_eq!(rt;
            pruning_can_save(&[none, one, none], &weights, 1, 8_193),
            saves
        );
    }
    assert!(rt; pruning_can_save(&[none, one, none, none], &[1, 1, 1, 1], 1, 8_193));
    assert!(rt; !pruning_can_save(&[none, one, none, none, none], &[1, 1, 1, 1, 1], 1, 8_193));
}
