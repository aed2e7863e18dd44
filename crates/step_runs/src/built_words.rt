// The words of indexes, by `build_words`. Numbers and words are written as in tables of rows:
// `7^300` is 7 300 times, `0..5` the numbers from 0 up to below 5.
ghost use Rattle.std.specs.Prelude.{◌≡◌, ◌<◌};

use collection_reader::{Fault, Rule};
use index_building::{BuildError, build_words};
use io_traits::Slot;
use memory_io::SteadyDepot;
use part_cost::Format;
use std::alloc::Global;
use std::marker::Brand;
use std::sync::ledger::{Blank, Ledger};
use step_count::Steps;

// The numbers of documents, of frequencies and of sizes.
type Collection = [&'static str; 3];

// No document and no list.
const NO_LIST: Collection = ["1 0", "", "0"];

// Three documents of sizes 4, 0 and 7, and one list: document 0 once, document 2 five times.
const ONE_LIST: Collection = ["1 3 2 0 2", "2 1 5", "3 4 0 7"];

// Two documents of size 1, and three lists: document 0 once, nothing, document 1 three times.
const THREE_LISTS: Collection = ["1 2 1 0 0 1 1", "1 1 0 1 3", "2 1 1"];

// A thousand documents of size 0 in one list, each once.
const THOUSAND: Collection = ["1 1000 1000 0..1000", "1000 1^1000", "1000 0^1000"];

// Collections, formats and the words of their indexes.
const WORDS: [(Collection, Format, &str); 17] = [
    (
        NO_LIST,
        Format::One,
        "6360565151758173520 1 0 0 2 5784106577086924120",
    ),
    (
        NO_LIST,
        Format::Two,
        "6360565151758173520 2 0 0 2 5784106577086924120",
    ),
    (
        NO_LIST,
        Format::Three,
        "4921100965631116624 3 0 0 0 5784106606933527364",
    ),
    (
        ONE_LIST,
        Format::One,
        "6360565151758173520 1 137438953474 0 5 137438953477 0 33 4 7 2 5 4294967298 21474836481 3 1 8 5784106577086924120",
    ),
    (
        ONE_LIST,
        Format::Two,
        "6360565151758173520 2 2 2 0 5 5 2 0 33 4 7 2 6 4294967298 21474836481 3 1 10 5784106577086924120",
    ),
    (
        ONE_LIST,
        Format::Three,
        "4921100965631116624 3 17443938 4 7 529 3 1 25 5784106606933527364",
    ),
    (
        THREE_LISTS,
        Format::One,
        "6360565151758173520 1 68719476736 0 68719476736 0 68719476737 0 2 68719476738 0 4 4294967297 2 4 4294967297^2 6 6 0 0 6 9 4294967297 12884901889 2 3 12 5784106577086924120",
    ),
    (
        THREE_LISTS,
        Format::Two,
        "6360565151758173520 2 0 1 0 0 1 0 1 1 0 2 2 1 0 4 4294967297 2 5 4294967297^2 8 8 0 0 8 12 4294967297 12884901889 2 3 16 5784106577086924120",
    ),
    (
        THREE_LISTS,
        Format::Three,
        "4921100965631116624 3 235 4294967297 2097 2 3 8 5784106606933527364",
    ),
    (
        THOUSAND,
        Format::One,
        "6360565151758173520 1 68719476736999 0 68719476736999 0 0^500 2 4 4294968296 4294967297 1000 1 6 5784106577086924120",
    ),
    (
        THOUSAND,
        Format::Two,
        "6360565151758173520 2 999 1000 0 999 1000 0 0^500 2 5 4294968296 4294967297 1000 1 8 5784106577086924120",
    ),
    (
        THOUSAND,
        Format::Three,
        "4921100965631116624 3 2096079360 0^500 545 1000 1 32 5784106606933527364",
    ),
    (
        ["1 8 1 5", "1 1", "8 0^8"],
        Format::Three,
        "4921100965631116624 3 23 0^4 65 8 1 5 5784106606933527364",
    ),
    (
        ["1 8 1 5", "1 1000000", "8 0^8"],
        Format::Three,
        "4921100965631116624 3 6495199559681 0^4 3081 8 1 43 5784106606933527364",
    ),
    (
        ["1 1 1 0", "1 1", "1 0"],
        Format::Three,
        "4921100965631116624 3 3 0 9 1 1 2 5784106606933527364",
    ),
    (
        [
            "1 1000001 100001 0..100000 1000000",
            "100001 1^100001",
            "1000001 0^1000001",
        ],
        Format::Three,
        "4921100965631116624 3 99006742528 9700753597356148383 281474976710656 9701035072333759040 281474976710656 1502850 0 0^500001 8209 1000001 1 385 5784106606933527364",
    ),
    (
        [
            "1 10000 1001 0..1000 9999",
            "1001 1^1000 10000",
            "10000 0^10000",
        ],
        Format::Three,
        "4921100965631116624 3 367378618099200 281474976710656999 0 281756451687376655 0 6460 5 281474976710656999 0 281756451687377655 0 14460 0^5000 8209 10000 1 768 5784106606933527364",
    ),
];

// The numbers of a text.
fn read(alloc: Global, text: &str) -> Option<Vec<u64>> {
    let mut numbers = Vec::new(alloc);
    for item in text.split_whitespace() {
        match item.split_once("..") {
            Some((first, end)) => {
                for number in first.parse::<u64>().ok()?..end.parse::<u64>().ok()? {
                    numbers.push(number).ok()?;
                }
            }
            None => {
                let (number, count) = item.split_once('^').unwrap_or((item, "1"));
                let number = number.parse::<u64>().ok()?;
                for _ in 0..count.parse::<u64>().ok()? {
                    numbers.push(number).ok()?;
                }
            }
        }
    }
    Some(numbers)
}

// The bytes of these numbers, four each.
fn spelled(alloc: Global, text: &str) -> Option<Vec<u8>> {
    let mut bytes = Vec::new(alloc);
    for number in read(alloc, text)? {
        let number = u32::try_from(number).ok()?;
        bytes.extend_from_slice(&number.to_le_bytes()).ok()?;
    }
    Some(bytes)
}

// What `build_words` gives of a collection.
fn built_counted<L: Ledger>(
    alloc: Global,
    collection: Collection,
    format: Format,
    blank: Blank,
) -> Option<Result<Vec<u64>, BuildError>>
    requires name { blank.name ≡ L.name }
    requires parts { blank.parts ≡ L.parts }
    requires some { 0 < L.parts }
{
    let mut files = Vec::new(alloc);
    for (name, text) in ["x.docs", "x.freqs", "x.sizes"].into_iter().zip(collection) {
        let name = String::from_str(alloc, name).ok()?;
        files.push((name, spelled(alloc, text)?)).ok()?;
    }
    let mut depot = SteadyDepot::new(alloc, files, 8192).ok()?;
    let mut steps = Steps::<L>::new(blank);
    Some(build_words(alloc, "x", &mut depot, format, &mut steps))
}

fn built(
    alloc: Global,
    collection: Collection,
    format: Format,
) -> Option<Result<Vec<u64>, BuildError>> {
    built_counted::<Brand>(alloc, collection, format, Blank::new(1))
}

// Whether these are the words of a collection's index.
fn are_built(alloc: Global, collection: Collection, format: Format, want: &str) -> Option<bool> {
    let words = built(alloc, collection, format)?.ok()?;
    Some(words.as_slice() == read(alloc, want)?.as_slice())
}

#[test]
fn indexes_have_their_words(rt: HostRuntime) {
    for (collection, format, want) in WORDS {
        let right = are_built(rt.alloc(), collection, format, want);
        assert_eq!(rt; right, Some(true), "{want}");
    }
}

// The second format has other limits: more documents than the first are too few sizes.
#[test]
fn limits_are_those_of_the_format(rt: HostRuntime) {
    for (format, rule, file) in [
        (Format::One, Rule::C3, Slot::Docs),
        (Format::Two, Rule::C1, Slot::Sizes),
    ] {
        let fault = Fault {
            rule,
            file,
            term: 0,
            place: 0,
        };
        match built(rt.alloc(), ["1 268435456", "", ""], format) {
            Some(Err(error)) => assert_eq!(rt; error, BuildError::Broken(fault)),
            _ => panic!(rt; "{rule:?}"),
        }
    }
}

// Where memory is refused, that is the answer, and nothing else is.
#[test]
fn refused_memory_is_told(rt: HostRuntime) {
    match built(rt.alloc(), ONE_LIST, Format::Two) {
        None | Some(Err(BuildError::NoMemory)) => {}
        Some(Ok(words)) => assert_eq!(rt; words.len(), 20),
        Some(Err(other)) => panic!(rt; "{other:?}"),
    }
}
