// Runs in which memory may be refused: that is the answer then, and nothing but a front of what is
// written stands.
use memory_io::{SteadyDepot, SteadySink, SteadySource};
use pef_top::{Devices, Status, run_uncounted};
use std::alloc::Global;

// The numbers of the three files of the one list: document 0 once, document 2 five times, of three
// documents.
const ONE_LIST: [&[u32]; 3] = [&[1, 3, 2, 0, 2], &[2, 1, 5], &[3, 4, 0, 7]];

// The words of its index in the first format.
const ONE_LIST_OF_ONE: &[u64] = &[
    6360565151758173520,
    1,
    137438953474,
    0,
    5,
    137438953477,
    0,
    33,
    4,
    7,
    2,
    5,
    4294967298,
    21474836481,
    3,
    1,
    8,
    5784106577086924120,
];

// Its words in the second.
const ONE_LIST_OF_TWO: &[u64] = &[
    6360565151758173520,
    2,
    2,
    2,
    0,
    5,
    5,
    2,
    0,
    33,
    4,
    7,
    2,
    6,
    4294967298,
    21474836481,
    3,
    1,
    10,
    5784106577086924120,
];

// The bytes of these numbers.
fn spelled(alloc: Global, numbers: &[u32]) -> Option<Vec<u8>> {
    let mut bytes = Vec::new(alloc);
    for number in numbers {
        bytes.extend_from_slice(&number.to_le_bytes()).ok()?;
    }
    Some(bytes)
}

// The words of the one list in a packed file.
const ONE_LIST_PACKED: &[u64] = &[
    4_921_100_965_631_116_624,
    3,
    17_443_938,
    4,
    7,
    529,
    3,
    1,
    25,
    5_784_106_606_933_527_364,
];

// The bytes of these words.
fn bytes_of(alloc: Global, words: &[u64]) -> Option<Vec<u8>> {
    let mut bytes = Vec::new(alloc);
    for word in words {
        bytes.extend_from_slice(&word.to_le_bytes()).ok()?;
    }
    Some(bytes)
}

// How a run of these words over the index `y` ends, and the files that it leaves.
fn run_over(alloc: Global, words: [&str; 4], index: &[u64]) -> Option<(Status, SteadyDepot)> {
    let mut files = Vec::new(alloc);
    let bytes = bytes_of(alloc, index)?;
    files
        .push((String::from_str(alloc, "y").ok()?, bytes))
        .ok()?;
    let mut on = Devices {
        depot: SteadyDepot::new(alloc, files, 8192).ok()?,
        input: SteadySource::new(Vec::new(alloc), 8192),
        out: SteadySink::new(alloc, 8192).ok()?,
    };
    let mut err = SteadySink::new(alloc, 8192).ok()?;
    let mut texts = Vec::new(alloc);
    for word in words {
        texts.push(String::from_str(alloc, word).ok()?).ok()?;
    }
    let status = run_uncounted(alloc, texts.as_slice(), &mut on, &mut err);
    let Devices { depot, .. } = on;
    Some((status, depot))
}

#[test]
fn refused_memory_of_a_migration_is_told(rt: HostRuntime) {
    let alloc = rt.alloc();
    let run = run_over(alloc, ["pefidx", "migrate", "y", "z"], ONE_LIST_OF_ONE);
    let (Some((status, depot)), Some(new)) = (run, bytes_of(alloc, ONE_LIST_OF_TWO)) else {
        return;
    };
    let left = depot.file("z");
    match status {
        Status::Done => assert_eq!(rt; left, Some(new.as_slice())),
        Status::NoMemory => assert!(rt; new.starts_with(left.unwrap_or_default())),
        other => panic!(rt; "{other:?}"),
    }
}

// Whether of the files of the collection `w` those before one are whole, that one holds a prefix of
// its bytes or is not there, and those behind it are not there.
fn is_front(alloc: Global, depot: &SteadyDepot) -> Option<bool> {
    let mut right = true;
    let mut whole = true;
    for (name, numbers) in ["w.docs", "w.freqs", "w.sizes"].into_iter().zip(ONE_LIST) {
        let bytes = spelled(alloc, numbers)?;
        if let Some(left) = depot.file(name) {
            right = right && whole && bytes.starts_with(left);
        }
        whole = whole && depot.file(name) == Some(bytes.as_slice());
    }
    Some(right)
}

#[test]
fn refused_memory_of_an_export_is_told(rt: HostRuntime) {
    let alloc = rt.alloc();
    let run = run_over(alloc, ["pefidx", "export", "y", "w"], ONE_LIST_PACKED);
    let Some((status, depot)) = run else {
        return;
    };
    if let Some(right) = is_front(alloc, &depot) {
        assert!(rt; right);
    }
    match status {
        Status::Done | Status::NoMemory => {}
        other => panic!(rt; "{other:?}"),
    }
}
