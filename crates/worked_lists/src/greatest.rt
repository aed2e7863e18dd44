use crate::spelled::put_field;
use bit_words::BitWriter;
use packed_list::{check_list, view_list};
use std::test::Fail;

// Appends the list whose frequencies are 4,294,967,295 in the documents 0 to 65,535, and 65,536 in
// the next: their sum is 2^48. All places are taken by documents. The sums are one part in
// Elias-Fano form with 31 low bits: sum k is (k + 1) (2^32 - 1) - 1, so its high part is 2k + 1,
// and its place among the high bits 3k + 1; the last is 2^48 - 1, and the bit behind that of the
// one before. The last sum is written less 65,536, by another number where it is to be refused.
fn put_list(to: &mut BitWriter, last: u64) -> bool {
    let head = [
        (1 << 16, 17),
        (1, 16),
        (1 << 31, 32),
        ((1 << 31) - 1, 31),
        (0, 1),
        (65_536, 17),
        (0, 1),
        (last, 49),
    ];
    for (value, width) in head {
        if !put_field(to, value, width) {
            return false;
        }
    }
    for k in 0..65_536_u64 {
        if !put_field(to, if k == 65_535 { 6 } else { 2 }, 3) {
            return false;
        }
    }
    for k in 0..65_537_u64 {
        let low = if k == 65_536 { 1 } else { k + 2 };
        if !put_field(to, (1 << 31) - low, 31) {
            return false;
        }
    }
    for j in 0..512_u64 {
        let place = if j == 511 { 196_607 } else { 384 * (j + 1) + 1 };
        if !put_field(to, place, 18) {
            return false;
        }
    }
    true
}

const BITS: u64 = 2_237_635;

// Whether the bits are those of that list.
fn is_list(words: &[u64]) -> bool {
    if words.len() >= 100_000 || BITS > 64 * words.len() as u64 {
        return false;
    }
    if !check_list(words, 0, BITS, 65_537) {
        return false;
    }
    let list = view_list(words, 0, BITS, 65_537);
    let freqs = list.freqs.into_view();
    list.greatest == u32::MAX
        && list.docs.len() == 65_537
        && list.docs.get(65_536) == 65_536
        && freqs.len() == 65_537
        && freqs.get(0) == 4_294_967_294
        && freqs.get(65_535) == 281_474_976_645_119
        && freqs.get(65_536) == 281_474_976_710_655
}

// A sum of 2^48 is accepted, and one more is not.
#[test]
fn the_greatest_sum(rt: HostRuntime) -> Result<(), Fail> {
    for (last, good) in [(281_474_976_645_119, true), (281_474_976_645_120, false)] {
        let mut bits = BitWriter::new(rt.alloc()).expect(&rt, "memory");
        assert!(rt; put_list(&mut bits, last));
        assert_eq!(rt; bits.len(), BITS);
        assert_eq!(rt; is_list(&bits.into_words()), good);
    }
    Ok(())
}
