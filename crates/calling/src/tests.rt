ghost use Rattle.std.specs.Prelude.{◌≡◌, ◌<◌};

use super::*;
use index_file::{FinishError, Index, OpenFault};
use std::alloc::Global;
use std::marker::Brand;
use std::process::Abort;
use std::sync::ledger::{Blank, Ledger};
use step_count::Steps;
use two_level::Check;

// The words of the index of three documents of sizes 4, 0 and 7 with one list: document 0 once,
// document 2 five times.
fn one_list<L: Ledger>(alloc: Global, blank: Blank) -> Result<Vec<u64>, FinishError>
    requires name { blank.name ≡ L.name }
    requires parts { blank.parts ≡ L.parts }
    requires some { 0 < L.parts }
{
    let mut steps = Steps::<L>::new(blank);
    index_of_list(alloc, &[0, 2], &[1, 5], &[4, 0, 7], &mut steps)
}

#[test]
fn builds_opens_walks_and_asks(rt: HostRuntime) {
    let words = one_list::<Brand>(rt.alloc(), Blank::new(1)).expect(&rt, "words");
    assert_eq!(rt; words.len(), 20);
    let index = Index::view(&words).expect(&rt, "an index");
    assert_eq!(rt; index.terms(), 1);
    assert_eq!(rt; occurrences(&index, 0), 6);
    let best = best_of_two(rt.alloc(), &index, 0, 0).expect(&rt, "memory");
    assert_eq!(rt; best.as_slice(), [(2, 10), (0, 2)].as_slice());
}

#[test]
fn tells_what_words_are(rt: HostRuntime) {
    let none = OpenFault {
        check: Check::K1,
        term: 0,
        part: 0,
    };
    assert_eq!(rt; counts(&[]), Err(none));
    let words = one_list::<Brand>(rt.alloc(), Blank::new(1)).expect(&rt, "words");
    assert_eq!(rt; words.len(), 20);
    assert_eq!(rt; counts(&words), Ok((3, 1)));
}
