use part_cost::Format;
use postings::{doc_values, freq_sums, write_postings};
use std::test::Fail;

// Documents 0, 2 of frequencies 1, 5 are appended to what is there, each sequence in one part, and
// then an empty list is.
#[test]
fn writes_two_postings(rt: HostRuntime) -> Result<(), Fail> {
    let one: &[u64] = &[7, 137_438_953_474, 0, 5, 137_438_953_477, 0, 33];
    let two: &[u64] = &[7, 2, 2, 0, 5, 5, 2, 0, 33];
    let three: &[u64] = &[7, 562_949_953_421_314, 0, 5, 562_949_953_421_317, 0, 33];
    for (format, want) in [
        (Format::One, one),
        (Format::Two, two),
        (Format::Three, three),
    ] {
        let mut words = vec![in rt.alloc(); 7]?;
        write_postings(rt.alloc(), &[0, 2], &[1, 5], &[2], &[2], format, &mut words).expect(
            &rt, "memory",
        );
        assert_eq!(rt; words.as_slice(), want);
        write_postings(rt.alloc(), &[], &[], &[], &[], format, &mut words).expect(&rt, "memory");
        assert_eq!(rt; words.as_slice(), want);
    }
    Ok(())
}

// The values of the two sequences of frequencies 1, 5.
#[test]
fn makes_the_values(rt: HostRuntime) -> Result<(), Fail> {
    let docs = doc_values(rt.alloc(), &[0, 2]).expect(&rt, "memory");
    assert_eq!(rt; docs.as_slice(), [0, 2].as_slice());
    let sums = freq_sums(rt.alloc(), &[1, 5]).expect(&rt, "memory");
    assert_eq!(rt; sums.as_slice(), [0, 5].as_slice());
    Ok(())
}

// The sums of seventeen of the greatest frequencies pass 2^36, the greatest sum of the first
// format.
#[test]
fn sums_pass_the_first_format(rt: HostRuntime) -> Result<(), Fail> {
    let sums = freq_sums(rt.alloc(), &[u32::MAX; 17]).expect(&rt, "memory");
    assert_eq!(rt; sums.last().copied(), Some(73_014_444_014));
    Ok(())
}
