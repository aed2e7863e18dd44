// What a few words may claim: six are a packed file of as many empty lists as there may be.
ghost use Rattle.std.specs.Prelude.{◌≡◌, ◌<◌};
ghost use Rattle.part_cost.specs.declared.formats.Format.{Format};
ghost use Rattle.part_cost.specs.Formats.{numbers_of};
ghost use Rattle.index_building.specs.WordsOfCollection.{HoldsAllOf};

use index_building::migrated_words;
use index_file::Index;
use part_cost::Format;
use std::alloc::Global;
use std::marker::Brand;
use std::sync::ledger::{Blank, Ledger};
use step_count::Steps;

// `PEFPACKD`, the format, no document, 4,294,967,295 lists, no list bits, `DKCAPFEP`.
const SIX_WORDS: [u64; 6] = [
    4_921_100_965_631_116_624,
    3,
    0,
    4_294_967_295,
    0,
    5_784_106_606_933_527_364,
];

// Of three lists over one document of size 1 the last has a posting, in two bits.
const LAST_OF_THREE: [u64; 9] = [
    4_921_100_965_631_116_624,
    3,
    3,
    1,
    39,
    1,
    3,
    2,
    5_784_106_606_933_527_364,
];

// Of three lists the first has it.
const FIRST_OF_THREE: [u64; 9] = [
    4_921_100_965_631_116_624,
    3,
    3,
    1,
    57,
    1,
    3,
    2,
    5_784_106_606_933_527_364,
];

// Four lists without postings over no document, in a packed file and in a plain one of the second
// format.
const FOUR_OF_NONE: [u64; 6] = [
    4_921_100_965_631_116_624,
    3,
    0,
    4,
    0,
    5_784_106_606_933_527_364,
];

const FOUR_PLAIN: [u64; 22] = [
    6_360_565_151_758_173_520,
    2,
    2,
    2,
    0,
    0,
    2,
    2,
    0,
    0,
    2,
    2,
    0,
    0,
    2,
    2,
    0,
    0,
    0,
    4,
    2,
    5_784_106_577_086_924_120,
];

// Whether these are the words of the index of the collection of an index, in a format that may hold
// all.
fn is_migrated<L: Ledger>(
    alloc: Global,
    words: &[u64],
    format: Format,
    to: &[u64],
    blank: Blank,
) -> Option<bool>
    requires name { blank.name ≡ L.name }
    requires parts { blank.parts ≡ L.parts }
    requires some { 0 < L.parts }
    requires holds { (v : Format) → HoldsAllOf (numbers_of v) (numbers_of format) }
{
    if words.len() > 100 {
        return None;
    }
    let mut steps = Steps::<L>::new(blank);
    match Index::view(words) {
        Ok(index) => {
            let migrated = migrated_words(alloc, &index, format, &mut steps).ok()?;
            Some(migrated.as_slice() == to)
        }
        Err(_) => None,
    }
}

// Lists without postings are added at once. Behind one with a posting they have bits in the
// directory, and before it too.
#[test]
fn repacks_empty_lists(rt: HostRuntime) {
    for words in [
        SIX_WORDS.as_slice(),
        LAST_OF_THREE.as_slice(),
        FIRST_OF_THREE.as_slice(),
    ] {
        let is = is_migrated::<Brand>(rt.alloc(), words, Format::Three, words, Blank::new(1));
        assert_eq!(rt; is, Some(true));
    }
}

#[test]
fn migrates_empty_lists(rt: HostRuntime) {
    let is = is_migrated::<Brand>(
        rt.alloc(),
        &FOUR_OF_NONE,
        Format::Two,
        &FOUR_PLAIN,
        Blank::new(1),
    );
    assert_eq!(rt; is, Some(true));
}
