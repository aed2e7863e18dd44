ghost use Rattle.part_cost.specs.Partition.{IsPartition};

use bit_words::BitWriter;
use packed_list::{ListParts, check_list, lists_are_short, view_list, write_list};
use std::alloc::Global;
use std::test::Fail;

// Words, and how many of their bits are taken.
#[derive(Drop)]
struct WrittenList {
    words: Vec<u64>,
    bits: u64,
}

// (0,1)(2,5) over three documents in these parts, behind so many zeros.
fn write_two(alloc: Global, zeros: u32, doc_ends: &[u64], sum_ends: &[u64]) -> Option<WrittenList>
    requires docs { IsPartition 2 doc_ends.now }
    requires sums { IsPartition 2 sum_ends.now }
{
    lists_are_short();
    let Ok(mut bits) = BitWriter::new(alloc) else {
        return None;
    };
    if zeros > 64 || bits.put(0, zeros).is_err() || bits.len() > 64 {
        return None;
    }
    let list = ListParts {
        docs: &[0, 2],
        doc_ends,
        sums: &[0, 5],
        sum_ends,
        greatest: 5,
    };
    if write_list(alloc, &list, 3, &mut bits).is_err() {
        return None;
    }
    let len = bits.len();
    Some(WrittenList {
        words: bits.into_words(),
        bits: len,
    })
}

// Whether the list is written, stands there in so many parts, and is refused with a bit more or
// less.
fn is_written(alloc: Global, zeros: u32, doc_ends: &[u64], sum_ends: &[u64], bits: u64) -> bool
    requires docs { IsPartition 2 doc_ends.now }
    requires sums { IsPartition 2 sum_ends.now }
{
    let Some(list) = write_two(alloc, zeros, doc_ends, sum_ends) else {
        return false;
    };
    let from = u64::from(zeros);
    let to = list.bits;
    if list.words.len() > 100 || from + 1 >= to || to > 64 * list.words.len() as u64 {
        return false;
    }
    if to - from != bits || !check_list(&list.words, from, to, 3) {
        return false;
    }
    let view = view_list(&list.words, from, to, 3);
    let freqs = view.freqs.into_view();
    !check_list(&list.words, from, to - 1, 3)
        && !check_list(&list.words, from + 1, to, 3)
        && view.greatest == 5
        && view.docs.len() == 2
        && view.docs.get(0) == 0
        && view.docs.get(1) == 2
        && view.docs.parts() as usize == doc_ends.len()
        && freqs.len() == 2
        && freqs.get(0) == 0
        && freqs.get(1) == 5
        && freqs.parts() as usize == sum_ends.len()
}

// One part each: 25 bits, as one word.
#[test]
fn writes_two_postings(rt: HostRuntime) -> Result<(), Fail> {
    let list = write_two(rt.alloc(), 0, &[2], &[2]).expect(&rt, "memory");
    assert_eq!(rt; list.bits, 25);
    assert_eq!(rt; list.words.as_slice(), [17_443_938].as_slice());
    Ok(())
}

// At each place of a word, in one part and in two of either sequence and of both. Two parts take a
// flag and two bits, zeros up to the end of a word, and five words.
#[test]
fn writes_at_each_place(rt: HostRuntime) {
    for zeros in 0..64_u32 {
        let at = u64::from(zeros);
        let padded = (at + 8 + 3).div_ceil(64) * 64 - at;
        assert!(rt; is_written(rt.alloc(), zeros, &[2], &[2], 25), "{zeros}");
        assert!(rt;
            is_written(rt.alloc(), zeros, &[1, 2], &[2], padded + 5 * 64 + 11),
            "{zeros}"
        );
        let behind = (at + 14 + 3).div_ceil(64) * 64 - at;
        assert!(rt;
            is_written(rt.alloc(), zeros, &[2], &[1, 2], behind + 5 * 64),
            "{zeros}"
        );
        let both = padded + 5 * 64 + 64 + 5 * 64;
        assert!(rt;
            is_written(rt.alloc(), zeros, &[1, 2], &[1, 2], both),
            "{zeros}"
        );
    }
}
