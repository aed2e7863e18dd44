// Broken collections of which no words are built: the first fault is told.
ghost use Rattle.std.specs.Prelude.{◌≡◌, ◌<◌};

use collection_reader::{Fault, Rule};
use index_building::{BuildError, build_words};
use io_traits::Slot;
use memory_io::SteadyDepot;
use part_cost::Format;
use std::alloc::Global;
use std::marker::Brand;
use std::sync::ledger::{Blank, Ledger};
use step_count::Steps;

// The numbers of the one list.
const DOCS: &[u32] = &[1, 3, 2, 0, 2];

const FREQS: &[u32] = &[2, 1, 5];

const SIZES: &[u32] = &[3, 4, 0, 7];

// The numbers of the three files of a collection, and how many bytes of each are there at most.
type Cut<'a> = ([&'a [u32]; 3], [usize; 3]);

// No file is cut.
const WHOLE: [usize; 3] = [100, 100, 100];

// The bytes of these numbers, at most so many.
fn cut_bytes(alloc: Global, numbers: &[u32], most: usize) -> Option<Vec<u8>> {
    let mut bytes = Vec::new(alloc);
    for number in numbers {
        bytes.extend_from_slice(&number.to_le_bytes()).ok()?;
    }
    bytes.truncate(most);
    Some(bytes)
}

// The error for which no words are built of these files, in the first format; none where they are
// built, or memory is wanting.
fn refused<L: Ledger>(alloc: Global, cut: Cut<'_>, blank: Blank) -> Option<BuildError>
    requires name { blank.name ≡ L.name }
    requires parts { blank.parts ≡ L.parts }
    requires some { 0 < L.parts }
{
    let (numbers, lengths) = cut;
    let mut files = Vec::new(alloc);
    for (k, name) in ["x.docs", "x.freqs", "x.sizes"].into_iter().enumerate() {
        let name = String::from_str(alloc, name).ok()?;
        let bytes = cut_bytes(alloc, numbers.get(k)?, *lengths.get(k)?)?;
        files.push((name, bytes)).ok()?;
    }
    let mut depot = SteadyDepot::new(alloc, files, 8192).ok()?;
    let mut steps = Steps::<L>::new(blank);
    build_words(alloc, "x", &mut depot, Format::One, &mut steps).err()
}

// Broken collections, and the rule that each breaks first, with the file, the term and the place.
const BROKEN: [(Cut<'static>, (Rule, Slot, u32, u32)); 14] = [
    (
        ([&[1, 268_435_455], &[], &[]], WHOLE),
        (Rule::C1, Slot::Sizes, 0, 0),
    ),
    (
        ([&[1, 5, 2, 4, 4], &[2, 1, 1], &[5, 0, 0, 0, 0, 0]], WHOLE),
        (Rule::C5, Slot::Docs, 0, 1),
    ),
    (
        ([&[1, 5, 2, 4, 3], &[2, 1, 1], &[5, 0, 0, 0, 0, 0]], WHOLE),
        (Rule::C5, Slot::Docs, 0, 1),
    ),
    (
        ([&[1, 3, 1, 3], &[1, 1], &[3, 0, 0, 0]], WHOLE),
        (Rule::C4, Slot::Docs, 0, 0),
    ),
    (
        ([DOCS, &[2, 1, 0], SIZES], WHOLE),
        (Rule::C7, Slot::Freqs, 0, 1),
    ),
    (
        ([&[1, 3], FREQS, SIZES], [6, 100, 100]),
        (Rule::C1, Slot::Docs, 0, 0),
    ),
    (
        ([&[2, 3, 2, 0, 2], FREQS, SIZES], WHOLE),
        (Rule::C2, Slot::Docs, 0, 0),
    ),
    (([&[2], &[], &[]], WHOLE), (Rule::C2, Slot::Docs, 0, 0)),
    (
        ([&[1, 3, u32::MAX], &[], SIZES], WHOLE),
        (Rule::C1, Slot::Docs, 0, 0),
    ),
    (([DOCS, &[], SIZES], WHOLE), (Rule::C1, Slot::Freqs, 0, 0)),
    (
        ([DOCS, &[2, 1, 5, 0], SIZES], WHOLE),
        (Rule::C10, Slot::Freqs, 1, 0),
    ),
    (
        ([DOCS, &[3, 1, 5, 1], SIZES], WHOLE),
        (Rule::C6, Slot::Freqs, 0, 0),
    ),
    (
        ([DOCS, FREQS, &[2, 4, 0]], WHOLE),
        (Rule::C11, Slot::Sizes, 1, 0),
    ),
    (
        ([DOCS, FREQS, &[3, 4, 0, 7, 0]], [100, 100, 17]),
        (Rule::C12, Slot::Sizes, 1, 3),
    ),
];

#[test]
fn no_words_are_built_of_broken_collections(rt: HostRuntime) {
    for (cut, (rule, file, term, place)) in BROKEN {
        let fault = Fault {
            rule,
            file,
            term,
            place,
        };
        let error = refused::<Brand>(rt.alloc(), cut, Blank::new(1));
        assert_eq!(rt; error, Some(BuildError::Broken(fault)));
    }
}
