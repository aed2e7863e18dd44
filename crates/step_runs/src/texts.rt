// Texts that are answered.
ghost use Rattle.std.specs.Prelude.{◌≡◌, ◌<◌};

use index_building::build_words;
use index_file::Index;
use memory_io::{MemSink, MemSource, SteadyDepot};
use part_cost::Format;
use std::alloc::Global;
use std::marker::Brand;
use std::sync::ledger::{Blank, Ledger};
use step_count::Steps;
use text_replies::{Plan, RunFault, answer_text};

// More than any text here has.
const FAR: u64 = 1 << 40;

// The bytes of these numbers.
pub(crate) fn spelled(alloc: Global, numbers: &[u32]) -> Option<Vec<u8>> {
    let mut bytes = Vec::new(alloc);
    for number in numbers {
        bytes.extend_from_slice(&number.to_le_bytes()).ok()?;
    }
    Some(bytes)
}

// The numbers of documents, of frequencies and of sizes.
pub(crate) type Numbers<'a> = [&'a [u32]; 3];

// Three documents of sizes 4, 0 and 7, and the list (0,1)(2,5).
pub(crate) const ONE_LIST: Numbers<'static> = [&[1, 3, 2, 0, 2], &[2, 1, 5], &[3, 4, 0, 7]];

// Over these documents that list, the list (0,1), and a list of nothing.
const THREE_LISTS: Numbers<'static> = [
    &[1, 3, 2, 0, 2, 1, 0, 0],
    &[2, 1, 5, 1, 1, 0],
    &[3, 4, 0, 7],
];

// Five documents of size 1, and the lists (1,2)(4,3) and (1,1)(2,3)(4,1).
const TWO_LISTS: Numbers<'static> = [
    &[1, 5, 2, 1, 4, 3, 1, 2, 4],
    &[2, 2, 3, 3, 1, 3, 1],
    &[5, 1, 1, 1, 1, 1],
];

// The words of the one list in the first format.
pub(crate) const ONE_LIST_OF_ONE: &[u64] = &[
    6360565151758173520,
    1,
    137438953474,
    0,
    5,
    137438953477,
    0,
    33,
    4,
    7,
    2,
    5,
    4294967298,
    21474836481,
    3,
    1,
    8,
    5784106577086924120,
];

// Its words where the documents are cut into two parts.
const ONE_LIST_IN_TWO_PARTS: &[u64] = &[
    6360565151758173520,
    1,
    68719476736,
    0,
    137438953474,
    0,
    2,
    137438953477,
    0,
    33,
    4,
    7,
    2,
    7,
    8589934594,
    21474836481,
    3,
    1,
    10,
    5784106577086924120,
];

// The words of the one list in the second format.
pub(crate) const ONE_LIST_OF_TWO: &[u64] = &[
    6360565151758173520,
    2,
    2,
    2,
    0,
    5,
    5,
    2,
    0,
    33,
    4,
    7,
    2,
    6,
    4294967298,
    21474836481,
    3,
    1,
    10,
    5784106577086924120,
];

// The words of the three lists in the first format.
const THREE_LISTS_OF_ONE: &[u64] = &[
    6360565151758173520,
    1,
    137438953474,
    0,
    5,
    137438953477,
    0,
    33,
    68719476736,
    0,
    68719476736,
    0,
    4,
    7,
    2,
    5,
    4294967298,
    21474836481,
    8,
    10,
    4294967297,
    4294967297,
    12,
    12,
    0,
    0,
    3,
    3,
    12,
    5784106577086924120,
];

// The words of the three lists in the second format.
const THREE_LISTS_OF_TWO: &[u64] = &[
    6360565151758173520,
    2,
    2,
    2,
    0,
    5,
    5,
    2,
    0,
    33,
    0,
    1,
    0,
    0,
    1,
    0,
    4,
    7,
    2,
    6,
    4294967298,
    21474836481,
    10,
    13,
    4294967297,
    4294967297,
    16,
    16,
    0,
    0,
    3,
    3,
    16,
    5784106577086924120,
];

// The words of an index of the collection of these numbers, in the first format; none where memory
// is wanting, or it is broken.
pub(crate) fn built<L: Ledger>(alloc: Global, numbers: Numbers, blank: Blank) -> Option<Vec<u64>>
    requires name { blank.name ≡ L.name }
    requires parts { blank.parts ≡ L.parts }
    requires some { 0 < L.parts }
{
    let mut files = Vec::new(alloc);
    for (name, numbers) in ["x.docs", "x.freqs", "x.sizes"].into_iter().zip(numbers) {
        let name = String::from_str(alloc, name).ok()?;
        files.push((name, spelled(alloc, numbers)?)).ok()?;
    }
    let mut depot = SteadyDepot::new(alloc, files, 8).ok()?;
    let mut steps = Steps::<L>::new(blank);
    build_words(alloc, "x", &mut depot, Format::One, &mut steps).ok()
}

// A text, how many bytes move at once, which reads and writes fail and what limit stands; how it
// ends, and what is written.
#[derive(Clone, Copy)]
struct Case {
    text: &'static str,
    most: usize,
    reads: &'static [u64],
    writes: &'static [u64],
    limit: u64,
    want: Result<(), RunFault>,
    out: &'static str,
}

// A case where nothing fails and all is answered.
fn whole(text: &'static str, out: &'static str) -> Case {
    Case {
        text,
        most: 100,
        reads: &[],
        writes: &[],
        limit: FAR,
        want: Ok(()),
        out,
    }
}

// Whether a case ends as it should by a plan, from the index of at most ten thousand words.
fn ends_well(alloc: Global, words: &[u64], plan: Plan, case: Case) -> Option<bool> {
    if words.len() > 10_000 {
        return None;
    }
    let most = case.most.max(1);
    let text = Vec::from_slice(alloc, case.text.as_bytes()).ok()?;
    let mut input = MemSource::new(text, most, Vec::from_slice(alloc, case.reads).ok()?);
    let mut out = MemSink::new(alloc, most, Vec::from_slice(alloc, case.writes).ok()?).ok()?;
    let end = match Index::view(words) {
        Ok(index) => answer_text(alloc, &index, plan, &mut input, case.limit, &mut out),
        Err(_) => return None,
    };
    Some(end == case.want && out.bytes() == case.out.as_bytes())
}

// Whether a case ends as it should by each plan.
fn ends_well_by_all(alloc: Global, words: &[u64], case: Case) -> Option<bool> {
    let exhaustive = ends_well(alloc, words, Plan::Exhaustive, case)?;
    let wand = ends_well(alloc, words, Plan::Wand, case)?;
    let max_score = ends_well(alloc, words, Plan::MaxScore, case)?;
    Some(exhaustive && wand && max_score)
}

// Whether a case ends as it should, from the index that is built of the collection and from each of
// these indexes of it.
fn ends_well_from(alloc: Global, numbers: Numbers, indexes: &[&[u64]], case: Case) -> Option<bool> {
    let built = built::<Brand>(alloc, numbers, Blank::new(1))?;
    let mut right = ends_well_by_all(alloc, &built, case)?;
    for words in indexes {
        right = right && ends_well_by_all(alloc, words, case)?;
    }
    Some(right)
}

// The indexes of the one list, and of the three.
const ONE_LIST_INDEXES: [&[u64]; 3] = [ONE_LIST_OF_ONE, ONE_LIST_IN_TWO_PARTS, ONE_LIST_OF_TWO];

const THREE_LISTS_INDEXES: [&[u64]; 2] = [THREE_LISTS_OF_ONE, THREE_LISTS_OF_TWO];

const FIVE_LINES: &str = "next 0 1\nnext 0 3\nand 0\n\ntop 1 0";

// Cases over the one list.
const CASES: [Case; 12] = [
    Case {
        text: FIVE_LINES,
        most: 100,
        reads: &[],
        writes: &[],
        limit: FAR,
        want: Ok(()),
        out: "2 5\nend\n2 0 2\nbad verb\n1 2:5\n",
    },
    Case {
        text: FIVE_LINES,
        most: 1,
        reads: &[],
        writes: &[],
        limit: FAR,
        want: Ok(()),
        out: "2 5\nend\n2 0 2\nbad verb\n1 2:5\n",
    },
    Case {
        text: "",
        most: 9,
        reads: &[],
        writes: &[],
        limit: 0,
        want: Ok(()),
        out: "",
    },
    Case {
        text: "next 0 1\nnext 0 3\n",
        most: 100,
        reads: &[],
        writes: &[],
        limit: 9,
        want: Err(RunFault::TooLarge),
        out: "2 5\n",
    },
    Case {
        text: "next 0 1\nnext 0 3\n",
        most: 4,
        reads: &[],
        writes: &[],
        limit: 17,
        want: Err(RunFault::TooLarge),
        out: "2 5\n",
    },
    Case {
        text: "next 0 1\nnext 0 3\n",
        most: 4,
        reads: &[],
        writes: &[],
        limit: 18,
        want: Ok(()),
        out: "2 5\nend\n",
    },
    Case {
        text: "next 2 0\nnext 0\n",
        most: 9,
        reads: &[],
        writes: &[],
        limit: 16,
        want: Ok(()),
        out: "bad term\nbad number\n",
    },
    Case {
        text: FIVE_LINES,
        most: 9,
        reads: &[1],
        writes: &[],
        limit: FAR,
        want: Err(RunFault::Read),
        out: "",
    },
    Case {
        text: "next 0 1\nnext 0",
        most: 9,
        reads: &[3],
        writes: &[],
        limit: FAR,
        want: Err(RunFault::Read),
        out: "2 5\n",
    },
    Case {
        text: FIVE_LINES,
        most: 2,
        reads: &[],
        writes: &[2],
        limit: FAR,
        want: Err(RunFault::Write),
        out: "2 ",
    },
    Case {
        text: FIVE_LINES,
        most: 1,
        reads: &[],
        writes: &[3],
        limit: FAR,
        want: Err(RunFault::Write),
        out: "2 ",
    },
    Case {
        text: FIVE_LINES,
        most: 100,
        reads: &[],
        writes: &[3],
        limit: FAR,
        want: Err(RunFault::Write),
        out: "2 5\nend\n",
    },
];

#[test]
fn texts_are_answered(rt: HostRuntime) {
    for case in CASES {
        let right = ends_well_from(rt.alloc(), ONE_LIST, &ONE_LIST_INDEXES, case);
        assert_eq!(rt; right, Some(true), "{}", case.text);
    }
}

// Lines over the one list, and their replies.
const LINES: [(&str, &str); 6] = [
    (
        "next 0 1\nnext 0 3\nand 0\nor 0 0\ntop 1 0",
        "2 5\nend\n2 0 2\n2 0 2\n1 2:5\n",
    ),
    ("next 0 0\nnext 0 2\n", "0 1\n2 5\n"),
    (
        "\n\nnear 0\n next  00 001 \n",
        "bad verb\nbad verb\nbad verb\n2 5\n",
    ),
    (
        "next 0 1\r\nNEXT 0 1\n\tnext 0 1\n",
        "bad number\nbad verb\nbad verb\n",
    ),
    (
        "next 0 4294967296\nnext 0 4294967295\nnext 1 0\nnext 4294967295 0\n",
        "bad number\nend\nbad term\nbad term\n",
    ),
    (
        "top 0 0\nand\nor\ntop 5\ntop 9 0 0\ntop 4294967295 0\n",
        "0\n0\n0\n0\n2 2:10 0:2\n2 2:5 0:1\n",
    ),
];

#[test]
fn lines_are_answered(rt: HostRuntime) {
    for (text, replies) in LINES {
        let right = ends_well_from(
            rt.alloc(),
            ONE_LIST,
            &ONE_LIST_INDEXES,
            whole(text, replies),
        );
        assert_eq!(rt; right, Some(true), "{text}");
    }
}

// Lines over the three lists, and their replies.
const LINES_OF_TERMS: [(&str, &str); 5] = [
    (
        "next 0 1\nnext 1 0\nnext 1 1\nnext 2 0\nnext 3 0\n",
        "2 5\n0 1\nend\nend\nbad term\n",
    ),
    ("and 0 1\nand 1 0\nand 0 2\nand 2\n", "1 0\n1 0\n0\n0\n"),
    ("or 0 1\nor 2 1\nor 2 1 0\nor 2\n", "2 0 2\n1 0\n2 0 2\n0\n"),
    (
        "top 2 0 1 2\ntop 1 1 0\ntop 3 1 2\ntop 3 2\n",
        "2 2:5 0:2\n1 2:5\n1 0:1\n0\n",
    ),
    (
        "top 2 1*9 0\ntop 1 0*2 1\ntop 1 3*0\ntop 1 0*\n",
        "2 0:10 2:5\n1 2:10\nbad weight\nbad number\n",
    ),
];

#[test]
fn lines_name_several_terms(rt: HostRuntime) {
    for (text, replies) in LINES_OF_TERMS {
        let right = ends_well_from(
            rt.alloc(),
            THREE_LISTS,
            &THREE_LISTS_INDEXES,
            whole(text, replies),
        );
        assert_eq!(rt; right, Some(true), "{text}");
    }
}

// Lines over the two lists, and their replies.
const LINES_OF_WEIGHTS: [(&str, &str); 2] = [
    (
        "top 2 0 1\nand 1 0\nor 0 1\n",
        "2 4:4 1:3\n2 1 4\n3 1 2 4\n",
    ),
    (
        "top 3 0*2 1\ntop 2 0 1*2\ntop 2 1*2 0\ntop 2 0 0 1\ntop 1 0*65535\ntop 1 1*3 0 1*4 0*5",
        "3 4:7 1:5 2:3\n2 2:6 4:5\n2 2:6 4:5\n2 4:7 1:5\n1 4:196605\n1 4:25\n",
    ),
];

#[test]
fn terms_have_weights(rt: HostRuntime) {
    for (text, replies) in LINES_OF_WEIGHTS {
        let right = ends_well_from(rt.alloc(), TWO_LISTS, &[], whole(text, replies));
        assert_eq!(rt; right, Some(true), "{text}");
    }
}

// Whether a line of so many bytes and one line more are so answered.
fn is_answered(alloc: Global, length: usize, replies: &str) -> Option<bool> {
    let mut text = vec![in alloc; b'a'; length].ok()?;
    text.extend_from_slice(b"\nnext 0 0\n").ok()?;
    let mut input = MemSource::new(text, 1000, Vec::new(alloc));
    let mut out = MemSink::new(alloc, 1000, Vec::new(alloc)).ok()?;
    let end = match Index::view(ONE_LIST_OF_ONE) {
        Ok(index) => answer_text(alloc, &index, Plan::Exhaustive, &mut input, FAR, &mut out),
        Err(_) => return None,
    };
    Some(end == Ok(()) && out.bytes() == replies.as_bytes())
}

#[test]
fn lines_are_long(rt: HostRuntime) {
    for (length, replies) in [
        (65_535, "bad verb\n0 1\n"),
        (65_536, "bad length\n0 1\n"),
        (200_000, "bad length\n0 1\n"),
    ] {
        let right = is_answered(rt.alloc(), length, replies);
        assert_eq!(rt; right, Some(true), "{length}");
    }
}
