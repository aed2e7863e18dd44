// The parts of the documents of a list as its blocks.
ghost use Rattle.std.specs.Prelude.{◌<◌, ◌^◌, length};

use crate::words::{
    IN_TWO_PARTS, ONE_LIST, ONE_LIST_OF_TWO, ONE_PACKED_LIST, PACKED_END, PACKED_OPENING,
};
use block_max::BlockSource;
use index_blocks::{IndexBlocks, block_starts, index_side_words};
use index_file::Index;
use part_cost::Which;
use std::alloc::Global;
use std::process::Abort;

// What the two sequences of list 0 cost, and the last document and the greatest frequency of each
// part of its documents.
fn has_blocks(rt: &impl Abort, words: &[u64], costs: (u64, u64), blocks: &[(u32, u32)]) {
    assert!(rt; words.len() <= 20 && blocks.len() <= 2);
    let index = Index::view(words).expect(rt, "an index");
    assert!(rt; index.terms() == 1);
    assert_eq!(rt; Index::known(words).terms(), 1);
    assert_eq!(rt; index.seq_cost(0, Which::Docs), costs.0);
    assert_eq!(rt; index.seq_cost(0, Which::Freqs), costs.1);
    let count = index.blocks(0);
    assert_eq!(rt; count as usize, blocks.len());
    for q in 0..count {
        let (last, greatest) = blocks[q as usize];
        assert_eq!(rt; index.block(0, q), (last, greatest));
        assert_eq!(rt; index.block_last(0, q), last);
    }
}

// A part costs 128 bits in the first format and 192 in the second, and its payload; one part in a
// packed file its payload alone. The frequencies 1 and 5 stand in one part.
#[test]
fn parts_are_blocks(rt: HostRuntime) {
    has_blocks(&rt, ONE_LIST, (131, 134), &[(2, 5)]);
    has_blocks(&rt, ONE_LIST_OF_TWO, (195, 198), &[(2, 5)]);
    has_blocks(&rt, IN_TWO_PARTS, (258, 134), &[(0, 1), (2, 5)]);
    has_blocks(&rt, ONE_PACKED_LIST, (3, 6), &[(2, 5)]);
}

// The list is one block, whose last document is 2 and whose greatest frequency is 5.
fn is_one_block(rt: &impl Abort, alloc: Global, words: &[u64])
    requires { length words.now < 2 ^ 57 }
{
    let Ok(index) = Index::view(words) else {
        return assert!(rt; false, "no index");
    };
    let starts = block_starts(alloc, &index).expect(rt, "memory");
    assert_eq!(rt; starts.as_slice(), [0, 1].as_slice());
    let blocks = IndexBlocks::new(&index, &starts);
    for term in 0..blocks.terms() {
        for block in 0..blocks.blocks(term) {
            assert_eq!(rt; blocks.last(term, block), 2);
        }
    }
    assert_eq!(rt; blocks.blocks_before(blocks.terms()), 1);
    let side = index_side_words(alloc, &index).expect(rt, "memory");
    assert_eq!(rt;
        side.as_slice(),
        [
            5_423_265_565_232_219_472,
            1,
            5,
            1,
            5_784_106_546_989_318_987
        ]
        .as_slice()
    );
}

#[test]
fn the_blocks_of_one_list(rt: HostRuntime) {
    for words in [ONE_LIST, ONE_LIST_OF_TWO, ONE_PACKED_LIST] {
        assert!(rt; words.len() <= 20);
        is_one_block(&rt, rt.alloc(), words);
    }
}

// How many blocks stand before the lists where it is told, before each list, and the words of the
// side file.
fn has_starts(
    rt: &impl Abort,
    alloc: Global,
    words: &[u64],
    starts: &[u64],
    ends: (u64, u64),
    side: &[u64],
)
    requires { length words.now < 2 ^ 57 }
{
    let Ok(index) = Index::view(words) else {
        return assert!(rt; false, "no index");
    };
    let told = block_starts(alloc, &index).expect(rt, "memory");
    assert_eq!(rt; told.as_slice(), starts);
    let blocks = IndexBlocks::new(&index, &told);
    let terms = blocks.terms();
    if terms > 0 {
        assert_eq!(rt; blocks.blocks_before(terms - 1), ends.0);
    }
    assert_eq!(rt; blocks.blocks_before(terms), ends.1);
    let made = index_side_words(alloc, &index).expect(rt, "memory");
    assert_eq!(rt; made.as_slice(), side);
}

// Six words may be 4,294,967,295 empty lists: it is told for three of them. Of nine lists in nine
// words only the last has a posting, in two bits, and it is told for every third.
#[test]
fn tells_blocks_of_many_lists(rt: HostRuntime) {
    let six = [PACKED_OPENING, 3, 0, 4_294_967_295, 0, PACKED_END];
    let none = [5_423_265_565_232_219_472, 1, 0, 5_784_106_546_989_318_987];
    has_starts(&rt, rt.alloc(), &six, &[0, 0, 0], (0, 0), &none);
    let nine = [PACKED_OPENING, 3, 3, 1, 2559, 1, 9, 2, PACKED_END];
    let one = [
        5_423_265_565_232_219_472,
        1,
        1,
        1,
        5_784_106_546_989_318_987,
    ];
    has_starts(&rt, rt.alloc(), &nine, &[0, 0, 0, 1], (0, 1), &one);
}
