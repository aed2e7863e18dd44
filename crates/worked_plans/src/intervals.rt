// Bounds of lists in intervals of 32 documents, and the plan that adds them up.
ghost use Rattle.std.specs.Prelude.{◌≡◌, ℕ, ◌≤◌, ◌<◌, Bool, List};
ghost use Rattle.std.specs.List.{All};
ghost use Rattle.collection_model.specs.Collection.{Posting, docs_of};
ghost use Rattle.interval_max.specs.Bounded.{IsBoundOf};
ghost use Rattle.interval_max.specs.Kept.{AreMaximaOf};

use crate::blocks::{first_documents, long_cursor};
use crate::counting::Counting;
use crate::pruned::counting;
use cursor_api::{DocCursor, PlainCursor};
use interval_max::{Bounds, MaximaView, MaximaWriter, TopQuery, top_intervals};
use no_memory::NoMemory;
use std::alloc::Global;

// The maxima of one list, under term 7.
fn maxima_of<'a>(alloc: Global, cursor: &mut PlainCursor<'a>, n: u32) -> Result<Vec<u8>, NoMemory>
    requires start { ⟦<PlainCursor<'a> as DocCursor>⟧.place cursor.old ≡ 0 }
    requires below { All (λ d. d < n) (docs_of (⟦<PlainCursor<'a> as DocCursor>⟧.list cursor.old)) }
{
    let mut writer = MaximaWriter::new(alloc);
    writer.add(7, cursor, n)?;
    writer.finish()
}

// The greatest frequency, 600, makes a step of 3, so 5 is rounded up to 6. The last interval has no
// sum, and is left out.
#[test]
fn bounds_in_pairs(rt: HostRuntime) {
    let mut cursor = PlainCursor::new(&[0, 31, 32, 9_632], &[3, 5, 600, 5]);
    let maxima = maxima_of(rt.alloc(), &mut cursor, 9_633).expect(&rt, "memory");
    let bounds = MaximaView::new(&maxima).bounds(7);
    bounds.fit();
    let mut sums = [0; 4];
    bounds.raise(1, &mut sums);
    assert_eq!(rt; sums, [6, 600, 0, 0]);
}

// Documents in each interval; up to 255 a frequency is its own bound.
#[test]
fn bounds_of_each_interval(rt: HostRuntime) {
    let mut cursor = PlainCursor::new(&[3, 40, 63, 64], &[7, 255, 9, 1]);
    let maxima = maxima_of(rt.alloc(), &mut cursor, 65).expect(&rt, "memory");
    let bounds = MaximaView::new(&maxima).bounds(7);
    bounds.fit();
    let mut sums = [0; 4];
    bounds.raise(1, &mut sums);
    assert_eq!(rt; sums, [7, 255, 1, 0]);
}

// The bounds of the list of a term, or none.
fn bounds_if<'a>(known: bool, maxima: MaximaView<'a>, term: u32) -> Bounds<'a>
    ensures { (has : ℕ → Bool) (list : ℕ → List Posting) (n : ℕ)
        → AreMaximaOf has list n maxima.entry.bytes.now → term < n → IsBoundOf (list term) result }
{
    if known {
        maxima.bounds(term)
    } else {
        Bounds::none()
    }
}

// How many postings two cursors read.
fn read_by(cursors: &[Counting<PlainCursor<'_>>; 2]) -> u64 {
    cursors[0].read.saturating_add(cursors[1].read)
}

// The best k of two lists of documents below `n`, and how many postings were read to find them. The
// bounds of the second list are known or not.
fn best_of_two<'a>(
    alloc: Global,
    first: PlainCursor<'a>,
    second: PlainCursor<'a>,
    known: bool,
    k: u32,
    n: u32,
) -> Result<(Vec<(u32, u64)>, u64), NoMemory>
    requires start { ⟦<PlainCursor<'a> as DocCursor>⟧.place first ≡ 0 }
    requires second_start { ⟦<PlainCursor<'a> as DocCursor>⟧.place second ≡ 0 }
    requires below { All (λ d. d < n) (docs_of (⟦<PlainCursor<'a> as DocCursor>⟧.list first)) }
    requires second_below { All (λ d. d < n)
        (docs_of (⟦<PlainCursor<'a> as DocCursor>⟧.list second)) }
{
    let (mut one, mut two) = (first, second);
    let mut writer = MaximaWriter::new(alloc);
    writer.add(0, &mut one, n)?;
    writer.add(1, &mut two, n)?;
    let bytes = writer.finish()?;
    let maxima = MaximaView::new(&bytes);
    let bounds = [bounds_if(true, maxima, 0), bounds_if(known, maxima, 1)];
    let mut bounding = [counting(first), counting(second)];
    let mut best = [counting(first), counting(second)];
    let mut rest = [counting(first), counting(second)];
    let query = TopQuery {
        weights: &[1, 1],
        k,
        n,
    };
    let top = top_intervals(alloc, &bounds, &mut bounding, &mut best, &mut rest, query)?;
    let searched = read_by(&best).saturating_add(read_by(&rest));
    Ok((top, read_by(&bounding).saturating_add(searched)))
}

// How many are wanted, the best of them, and how many postings are read at most.
const TIES: [(u32, &[(u32, u64)], u64); 4] = [
    (0, &[], 0),
    (1, &[(0, 5)], 4),
    (2, &[(0, 5), (31, 5)], 4),
    (9, &[(0, 5), (31, 5), (32, 5), (33, 5), (600, 5)], 5),
];

// All scores are 5, in three intervals: whichever is scored first, the lower documents are held.
#[test]
fn ties_in_several_intervals(rt: HostRuntime) {
    let first = PlainCursor::new(&[0, 31, 32, 600], &[5, 5, 5, 5]);
    let second = PlainCursor::new(&[33], &[5]);
    for &(k, wanted, most) in &TIES {
        let (top, read) = best_of_two(rt.alloc(), first, second, true, k, 640).expect(
            &rt, "memory",
        );
        assert_eq!(rt; top.as_slice(), wanted);
        assert!(rt; read <= most, "of {k}: {read}");
    }
}

// The best k of two lists that both have the documents below `n`, each once but the last, which
// they have nine times, and how many postings were read.
fn best_of_equal_lists(alloc: Global, k: u32, n: u32) -> Result<(Vec<(u32, u64)>, u64), NoMemory>
    requires some { 2 ≤ n }
    requires few { n < 4294967295 }
{
    let docs = first_documents(alloc, n)?;
    let mut freqs = vec![in alloc; 1; n as usize - 1]?;
    freqs.push(9)?;
    let long = long_cursor(&docs, &freqs, n);
    best_of_two(alloc, long, long, true, k, n)
}

// All intervals but the last have the bound 2. Once the first documents are held the others are
// passed over, up to the last one.
#[test]
fn one_interval_is_best(rt: HostRuntime) {
    let (top, read) = best_of_equal_lists(rt.alloc(), 3, 100_000).expect(&rt, "memory");
    assert_eq!(rt; top.as_slice(), [(99_999, 18), (0, 2), (1, 2)].as_slice());
    assert!(rt; read <= 4_096, "{read}");
}

// The best two documents of such a list and one that has document 7 five times, of which no bounds
// are known.
fn best_of_long_and_short(alloc: Global, n: u32) -> Result<(Vec<(u32, u64)>, u64), NoMemory>
    requires some { 8 ≤ n }
    requires few { n < 4294967295 }
{
    let docs = first_documents(alloc, n)?;
    let mut freqs = vec![in alloc; 1; n as usize - 1]?;
    freqs.push(9)?;
    best_of_two(
        alloc,
        long_cursor(&docs, &freqs, n),
        PlainCursor::new(&[7], &[5]),
        false,
        2,
        n,
    )
}

// A list without bounds is read for them.
#[test]
fn a_list_without_bounds(rt: HostRuntime) {
    let (top, read) = best_of_long_and_short(rt.alloc(), 5_000).expect(&rt, "memory");
    assert_eq!(rt; top.as_slice(), [(4_999, 9), (7, 6)].as_slice());
    assert!(rt; read <= 1_000, "{read}");
}
