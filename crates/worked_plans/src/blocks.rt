// Lists in blocks: side files, and which blocks are passed over.
ghost use Rattle.std.specs.Prelude.{◌≡◌, ◌<◌, ◌≤◌, [], ◌∷◌, IfOk};
ghost use Rattle.std.specs.List.{All, range_with_len};
ghost use Rattle.collection_model.specs.Collection.{docs_of};
ghost use Rattle.worked_plans.specs.OneList.{one_list, one-cut};
ghost use Rattle.block_max.specs.SideWords.{side_words, words_seen};
ghost use Rattle.worked_plans.specs.TwoLists.{long_freqs, long_list, short_list, two_lists, two-cut};

use crate::counting::Counting;
use block_max::{
    BlockCursor, BlockSource, Side, SideCheck, SideCursor, SideFault, side_words, top_blockmax,
};
use cursor_api::{DocCursor, PlainCursor};
use no_memory::NoMemory;
use std::alloc::Global;
use topk_pruning::top_maxscore;

// The list (0,1)(2,5) in one block.
#[derive(Clone, Copy)]
struct OneList;

impl BlockSource for OneList {
    ghost lists = { λ s. one_list ∷ [] };

    fn terms(&self) -> u32 {
        1
    }

    fn blocks(&self, _t: u32) -> u32 {
        1
    }

    fn last(&self, _t: u32, _q: u32) -> u32 {
        2
    }

    fn greatest(&self, _t: u32, _q: u32) -> u32 {
        5
    }

    ghost cut = { λ s. one-cut };
}

// The documents below `n`, each had once but the last, which is had nine times and is a block of
// its own; and document 0, had five times.
#[derive(Clone, Copy)]
struct TwoLists {
    n: u32,
    ghost some: { 2 ≤ n },
    ghost few: { n < 4294967295 },
}

impl BlockSource for TwoLists {
    ghost lists = { λ s. two_lists s.n };

    fn terms(&self) -> u32 {
        2
    }

    fn blocks(&self, t: u32) -> u32 {
        if t == 0 { 2 } else { 1 }
    }

    fn last(&self, t: u32, q: u32) -> u32 {
        if t != 0 {
            0
        } else if q == 0 {
            self.n - 2
        } else {
            self.n - 1
        }
    }

    fn greatest(&self, t: u32, q: u32) -> u32 {
        if t != 0 {
            5
        } else if q == 0 {
            1
        } else {
            9
        }
    }

    ghost cut = { λ s. two-cut s.n s.some s.few };
}

#[test]
fn a_side_file_of_one_list(rt: HostRuntime) {
    let words = side_words(rt.alloc(), &OneList).expect(&rt, "memory");
    assert_eq!(rt;
        words.as_slice(),
        [
            5_423_265_565_232_219_472,
            1,
            5,
            1,
            5_784_106_546_989_318_987
        ]
        .as_slice()
    );
    let Ok(side) = Side::view(&words, &OneList) else {
        return assert!(rt; false);
    };
    let mut cursors = [SideCursor::new(PlainCursor::new(&[0, 2], &[1, 5]), &OneList, side, 0)];
    for (doc, block) in [(0, Some((2, 5))), (2, Some((2, 5))), (3, None)] {
        assert_eq!(rt; cursors[0].block_at(doc), block);
    }
    let top = top_blockmax(rt.alloc(), &mut cursors, &[2], 1, 3).expect(&rt, "memory");
    assert_eq!(rt; top.as_slice(), [(2, 10)].as_slice());
}

// A fault of no block.
fn fault(check: SideCheck) -> Option<SideFault> {
    Some(SideFault {
        check,
        term: 0,
        part: 0,
    })
}

// The words of the long list's two blocks and the short one's are 1, 9 and 5.
#[test]
fn each_check_of_a_side_file(rt: HostRuntime) {
    let source = TwoLists { n: 4 };
    let words = side_words(rt.alloc(), &source).expect(&rt, "memory");
    let (opening, end) = (words[0], 5_784_106_546_989_318_987);
    assert_eq!(rt; words.as_slice(), [opening, 1, 1, 9, 5, 3, end].as_slice());
    assert_eq!(rt; source.blocks_before(2), 3);
    let wrong_block = Some(SideFault {
        check: SideCheck::S6,
        term: 0,
        part: 1,
    });
    let wrong_list = Some(SideFault {
        check: SideCheck::S6,
        term: 1,
        part: 0,
    });
    for (words, first) in [
        (words.as_slice(), None),
        (&words[..3], fault(SideCheck::S1)),
        ([end, 1, 1, 9, 5, 3, end].as_slice(), fault(SideCheck::S2)),
        ([opening, 2, 1, 9, 5, 3, 0].as_slice(), fault(SideCheck::S3)),
        (&words[..4], fault(SideCheck::S4)),
        (
            [opening, 1, 0, 9, 5, 2, end].as_slice(),
            fault(SideCheck::S5),
        ),
        ([opening, 1, 1, 9, 3, end].as_slice(), fault(SideCheck::S5)),
        ([opening, 1, 1, 8, 4, 3, end].as_slice(), wrong_block),
        ([opening, 1, 1, 9, 4, 3, end].as_slice(), wrong_list),
    ] {
        assert_eq!(rt; Side::view(words, &source).err(), first);
    }
}

// The documents below `n`.
pub(crate) fn first_documents(alloc: Global, n: u32) -> Result<Vec<u32>, NoMemory>
    ensures { IfOk result (λ docs. docs.items ≡ range_with_len 0 n) }
{
    let mut docs = Vec::new(alloc);
    for doc in 0..n {
        docs.push(doc)?;
    }
    Ok(docs)
}

// A cursor at the start of the longer list.
pub(crate) fn long_cursor<'a>(docs: &'a [u32], freqs: &'a [u32], n: u32) -> PlainCursor<'a>
    requires some { 2 ≤ n }
    requires few { n < 4294967295 }
    requires docs { docs.now ≡ range_with_len 0 n }
    requires freqs { freqs.now ≡ long_freqs n }
    ensures start { ⟦<PlainCursor<'a> as DocCursor>⟧.place result ≡ 0 }
    ensures list { ⟦<PlainCursor<'a> as DocCursor>⟧.list result ≡ long_list n }
    ensures below { All (λ d. d < n) (docs_of (⟦<PlainCursor<'a> as DocCursor>⟧.list result)) }
{
    PlainCursor::new(docs, freqs)
}

// A counting cursor at the start of the longer list.
fn long<'a>(
    docs: &'a [u32],
    freqs: &'a [u32],
    source: &'a TwoLists,
    side: Side<'a>,
) -> Counting<SideCursor<'a, PlainCursor<'a>, TwoLists>>
    requires docs { docs.now ≡ range_with_len 0 source.now.n }
    requires freqs { freqs.now ≡ long_freqs source.now.n }
    requires side { words_seen side ≡ side_words (two_lists source.now.n) }
    ensures start { ⟦<Counting<SideCursor<'a, PlainCursor<'a>, TwoLists>> as DocCursor>⟧.place
        result ≡ 0 }
    ensures below { All (λ d. d < source.entry.now.n)
        (docs_of (⟦<Counting<SideCursor<'a, PlainCursor<'a>, TwoLists>> as DocCursor>⟧.list
        result)) }
{
    Counting {
        cursor: SideCursor::new(long_cursor(docs, freqs, source.n), source, side, 0),
        moves: 0,
        read: 0,
    }
}

// A counting cursor at the start of the shorter one.
fn short<'a>(
    source: &'a TwoLists,
    side: Side<'a>,
) -> Counting<SideCursor<'a, PlainCursor<'a>, TwoLists>>
    requires side { words_seen side ≡ side_words (two_lists source.now.n) }
    ensures start { ⟦<Counting<SideCursor<'a, PlainCursor<'a>, TwoLists>> as DocCursor>⟧.place
        result ≡ 0 }
    ensures list { ⟦<Counting<SideCursor<'a, PlainCursor<'a>, TwoLists>> as DocCursor>⟧.list result
        ≡ short_list }
{
    Counting {
        cursor: SideCursor::new(PlainCursor::new(&[0], &[5]), source, side, 1),
        moves: 0,
        read: 0,
    }
}

// The best document of both lists, how many moves it took, and how many postings were read.
fn counted_best(alloc: Global, source: TwoLists) -> Result<(Vec<(u32, u64)>, u64, u64), NoMemory> {
    let docs = first_documents(alloc, source.n)?;
    let mut freqs = vec![in alloc; 1; source.n as usize - 1]?;
    freqs.push(9)?;
    let words = side_words(alloc, &source)?;
    let Ok(side) = Side::view(&words, &source) else {
        return Ok((Vec::new(alloc), 0, 0));
    };
    let mut cursors = [long(&docs, &freqs, &source, side), short(&source, side)];
    let top = top_blockmax(alloc, &mut cursors, &[1, 1], 1, source.n)?;
    let moves = cursors[0].moves.saturating_add(cursors[1].moves);
    let read = cursors[0].read.saturating_add(cursors[1].read);
    Ok((top, moves, read))
}

// Of the longer list the documents behind the first are passed over up to the end of its first
// block, and not read.
#[test]
fn blocks_are_passed_over(rt: HostRuntime) {
    for n in [1_000, 20_000] {
        let (top, moves, read) = counted_best(rt.alloc(), TwoLists { n }).expect(&rt, "memory");
        assert_eq!(rt; top.as_slice(), [(n - 1, 9)].as_slice());
        assert!(rt; moves <= 20 && read <= 100, "{n}: {moves}, {read}");
    }
}

// The best document of both lists by MaxScore, where the longer one has six times the weight of the
// shorter.
fn best_over_a_floor(alloc: Global, source: TwoLists) -> Result<Vec<(u32, u64)>, NoMemory> {
    let docs = first_documents(alloc, source.n)?;
    let mut freqs = vec![in alloc; 1; source.n as usize - 1]?;
    freqs.push(9)?;
    let words = side_words(alloc, &source)?;
    let Ok(side) = Side::view(&words, &source) else {
        return Ok(Vec::new(alloc));
    };
    let mut cursors = [long(&docs, &freqs, &source, side), short(&source, side)];
    top_maxscore(alloc, &mut cursors, &[6, 1], 1, source.n)
}

// The longer list has so many postings that a score which one document reaches is told of it: 6,
// which the shorter one alone does not.
#[test]
fn a_floor_from_the_start(rt: HostRuntime) {
    let top = best_over_a_floor(rt.alloc(), TwoLists { n: 8_193 }).expect(&rt, "memory");
    assert_eq!(rt; top.as_slice(), [(8_192, 54)].as_slice());
}
