// The lists and the sizes of generated collections.
use no_memory::NoMemory;
use pef_report::{Gen, document_sizes};
use std::alloc::Global;

// Whether these lists are drawn of a seed over n documents, each with its documents and
// frequencies, and then none. The vectors hold another list before.
fn are_drawn(
    alloc: Global,
    seed: u32,
    n: u32,
    terms: u32,
    lists: &[(&[u32], &[u32])],
) -> Result<bool, NoMemory> {
    let mut docs = Vec::from_slice(alloc, &[9, 9, 9])?;
    let mut freqs = Vec::from_slice(alloc, &[9, 9, 9])?;
    let mut generator = Gen::new(seed, n, terms);
    for (wanted_docs, wanted_freqs) in lists {
        let more = generator.next_list(&mut docs, &mut freqs)?;
        if !more || docs.as_slice() != *wanted_docs || freqs.as_slice() != *wanted_freqs {
            return Ok(false);
        }
    }
    let more = generator.next_list(&mut docs, &mut freqs)?;
    Ok(!more && docs.is_empty() && freqs.is_empty())
}

// The state before that of 1 and those from 1 on, each with the second number that is drawn behind
// it. A list over one document takes its frequency from that number.
#[test]
fn draws_of_seed_1(rt: HostRuntime) {
    for &(state, number) in &[
        (924485352, 1),
        (1, 20267),
        (81414, 49068),
        (1328228615, 41997),
        (3215746516, 36158),
        (2752347901, 1148),
        (2369698258, 37813),
        (75278179, 48633),
        (2478129536, 60171),
    ] {
        let freqs = [1 + number % 8];
        let drawn = are_drawn(rt.alloc(), state, 1, 1, &[(&[0], &freqs)]);
        assert_eq!(rt; drawn, Ok(true), "state {state}");
    }
}

// Three documents and two lists, or the first of them alone, and none.
#[test]
fn lists_of_seed_1(rt: HostRuntime) {
    let first = ([0, 1, 2].as_slice(), [4, 5, 6].as_slice());
    let second = ([0, 2].as_slice(), [5, 6].as_slice());
    for (n, terms, lists) in [
        (3, 2, [first, second].as_slice()),
        (3, 1, [first].as_slice()),
        (0, 0, [].as_slice()),
    ] {
        let drawn = are_drawn(rt.alloc(), 1, n, terms, lists);
        assert_eq!(rt; drawn, Ok(true), "{terms} lists");
    }
}

// The sizes go from 1 to 1000, and begin anew.
#[test]
fn sizes_of_a_thousand_and_one(rt: HostRuntime) {
    let sizes = document_sizes(rt.alloc(), 1001).expect(&rt, "memory");
    assert_eq!(rt; sizes.len(), 1001);
    for &(d, size) in &[(0, 1), (1, 2), (999, 1000), (1000, 1)] {
        assert_eq!(rt; sizes.get(d).copied(), Some(size));
    }
    assert!(rt;
        document_sizes(rt.alloc(), 0)
            .expect(&rt, "memory")
            .is_empty()
    );
}
