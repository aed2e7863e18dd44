// The documents that two lists have, of lists whose parts are full or bitmaps.
ghost use Rattle.std.specs.Prelude.{◌≤◌, ◌<◌, length};

use index_file::Index;
use no_memory::NoMemory;
use scan_plans::and_docs;
use std::alloc::{AllocError, Global};

// Adds the words of a bitmap of so many places, of which those are taken that are no multiples of a
// step.
fn push_bitmap(words: &mut Vec<u64>, places: u64, step: u64) -> Result<(), AllocError>
    requires few { places ≤ 1000 }
    requires some { 1 ≤ step }
{
    for i in 0..places.div_ceil(64) {
        let mut word = 0;
        for k in 0..64 {
            let place = 64 * i + k;
            if place < places && place % step != 0 {
                word |= 1 << k;
            }
        }
        words.push(word)?;
    }
    Ok(())
}

// The words of an index of 800 documents with the lists of `has`, each document once: two of a full
// part and a bitmap, and one of a full part.
fn dense_lists(alloc: Global) -> Result<Vec<u64>, AllocError> {
    let mut words = Vec::new(alloc);
    for word in [
        0x5845_444e_4946_4550,
        1,
        (300 << 36) + 299,
        0,
        (675 << 36) + 799,
        0,
    ] {
        words.push(word)?;
    }
    push_bitmap(&mut words, 500, 4)?;
    for word in [
        (675 << 36) + 674,
        0,
        (341 << 36) + 511,
        0,
        (429 << 36) + 599,
        512,
    ] {
        words.push(word)?;
    }
    push_bitmap(&mut words, 512, 3)?;
    for word in [
        (429 << 36) + 428,
        0,
        (700 << 36) + 699,
        0,
        (700 << 36) + 699,
        0,
    ] {
        words.push(word)?;
    }
    for _ in 0..400 {
        words.push(0)?;
    }
    let once = (1 << 32) + 1;
    for word in [
        2,
        14,
        (2 << 32) + 675,
        once,
        16,
        28,
        (2 << 32) + 429,
        once,
        30,
        32,
        (1 << 32) + 700,
        once,
        800,
        3,
        34,
        0x5045_4649_4e44_4558,
    ] {
        words.push(word)?;
    }
    Ok(words)
}

// Whether one of these lists has a document.
fn has(term: u32, doc: u32) -> bool {
    match term {
        0 => doc < 300 || doc < 800 && doc % 4 != 0,
        1 => doc < 512 && doc % 3 != 0 || 512 <= doc && doc < 600,
        _ => doc < 700,
    }
}

// The documents that two lists have.
fn both(alloc: Global, index: &Index<'_>, one: u32, other: u32) -> Result<Vec<u32>, NoMemory>
    requires one { one < length index.now.collection.lists }
    requires other { other < length index.now.collection.lists }
{
    let mut cursors = [index.cursor(one), index.cursor(other)];
    and_docs(alloc, &mut cursors)
}

// Each two of these lists, and each with itself.
#[test]
fn finds_the_documents_of_two_dense_lists(rt: HostRuntime) {
    let words = dense_lists(rt.alloc()).expect(&rt, "memory");
    assert_eq!(rt; words.len(), 450);
    let index = Index::view(&words).expect(&rt, "an index");
    assert_eq!(rt; index.terms(), 3);
    for one in 0..3 {
        for other in 0..3 {
            let found = both(rt.alloc(), &index, one, other).expect(&rt, "memory");
            let mut want = Vec::new(rt.alloc());
            for doc in 0..800 {
                if has(one, doc) && has(other, doc) {
                    want.push(doc).expect(&rt, "memory");
                }
            }
            assert_eq!(rt; found.as_slice(), want.as_slice(), "{one} and {other}");
        }
    }
}
