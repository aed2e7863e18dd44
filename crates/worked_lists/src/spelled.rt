use bit_words::BitWriter;
use packed_list::{check_list, view_list};
use std::test::Fail;

// Appends a value as a field of so many bits, bit by bit.
pub(crate) fn put_field(to: &mut BitWriter, value: u64, width: u32) -> bool {
    for i in 0..width {
        if i < 64 && to.len() < 10_000_000 && to.put((value >> i) % 2, 1).is_err() {
            return false;
        }
    }
    true
}

// Lists of m postings in each of m documents, each with the same frequency from 1 on: as many
// documents as postings, so that the documents have no bits.
struct Row {
    // How many postings, and the fields of that number: zeros and a one, and the rest.
    m: u32,
    count: [(u64, u32); 2],
    // The fields of the documents: a zero, and the last document.
    docs: [(u64, u32); 2],
    // The digits of the number of postings.
    digits: u32,
    // How many bits the list takes where each frequency is 1, and where each is 2.
    bits: u64,
    doubled: u64,
}

const ROWS: [Row; 6] = [
    Row {
        m: 2,
        count: [(2, 2), (0, 1)],
        docs: [(0, 1), (1, 1)],
        digits: 2,
        bits: 7,
        doubled: 15,
    },
    Row {
        m: 127,
        count: [(64, 7), (63, 6)],
        docs: [(0, 1), (126, 7)],
        digits: 7,
        bits: 23,
        doubled: 286,
    },
    Row {
        m: 128,
        count: [(128, 8), (0, 7)],
        docs: [(0, 1), (127, 7)],
        digits: 8,
        bits: 25,
        doubled: 291,
    },
    Row {
        m: 129,
        count: [(128, 8), (1, 7)],
        docs: [(0, 1), (128, 8)],
        digits: 8,
        bits: 26,
        doubled: 294,
    },
    Row {
        m: 513,
        count: [(512, 10), (1, 9)],
        docs: [(0, 1), (512, 10)],
        digits: 10,
        bits: 32,
        doubled: 1090,
    },
    Row {
        m: 4_294_967_295,
        count: [(2_147_483_648, 32), (2_147_483_647, 31)],
        docs: [(0, 1), (4_294_967_294, 32)],
        digits: 32,
        bits: 98,
        doubled: 0,
    },
];

// Whether the bits are those of m postings in m documents with one frequency each, over no fewer
// documents and with no bit less.
fn is_full(words: &[u64], bits: u64, m: u32, freq: u32) -> bool {
    if words.len() >= 100 || bits == 0 || bits > 64 * words.len() as u64 || m < 2 {
        return false;
    }
    if !check_list(words, 0, bits, m) {
        return false;
    }
    let list = view_list(words, 0, bits, m);
    let freqs = list.freqs.into_view();
    !check_list(words, 0, bits, m - 1)
        && !check_list(words, 0, bits - 1, m)
        && list.greatest == freq
        && list.docs.len() == m
        && list.docs.parts() == 1
        && list.docs.get(m - 1) == u64::from(m - 1)
        && freqs.len() == m
        && freqs.parts() == 1
        && freqs.get(m / 2) + 1 == u64::from(freq) * (u64::from(m / 2) + 1)
        && freqs.get(m - 1) + 1 == u64::from(freq) * u64::from(m)
}

// Each frequency is 1: the sums take no bits either, and their last value has no digits.
#[test]
fn all_places_are_taken(rt: HostRuntime) -> Result<(), Fail> {
    for row in &ROWS {
        let mut bits = BitWriter::new(rt.alloc()).expect(&rt, "memory");
        for (value, wide) in row.count.iter().chain(&[(1, 1)]).chain(&row.docs) {
            assert!(rt; put_field(&mut bits, *value, *wide));
        }
        assert!(rt; put_field(&mut bits, 0, 1));
        assert_eq!(rt; bits.len(), row.bits);
        assert!(rt;
            is_full(&bits.into_words(), row.bits, row.m, 1),
            "{}",
            row.m
        );
    }
    Ok(())
}

// Each frequency is 2: the sums take every other place, as a bitmap with a sample behind each 512
// places.
#[test]
fn every_other_place_is_taken(rt: HostRuntime) -> Result<(), Fail> {
    for row in &ROWS {
        if row.m < 1000 {
            let m = u64::from(row.m);
            let mut bits = BitWriter::new(rt.alloc()).expect(&rt, "memory");
            for (value, wide) in row.count.iter().chain(&[(2, 2), (0, 1)]).chain(&row.docs) {
                assert!(rt; put_field(&mut bits, *value, *wide));
            }
            // The last sum, less as many as there are postings.
            assert!(rt; put_field(&mut bits, 0, 1) && put_field(&mut bits, m, row.digits));
            for _ in 0..row.m {
                assert!(rt; put_field(&mut bits, 2, 2));
            }
            for sample in 0..m / 256 {
                assert!(rt; put_field(&mut bits, 256 * (sample + 1), row.digits));
            }
            assert_eq!(rt; bits.len(), row.doubled, "{}", row.m);
            assert!(rt;
                is_full(&bits.into_words(), row.doubled, row.m, 2),
                "{}",
                row.m
            );
        }
    }
    Ok(())
}
