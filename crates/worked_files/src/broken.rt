// The check that breaks first, of words that are changed, cut or longer.
ghost use Rattle.std.specs.Prelude.{◌<◌, ◌^◌, length};

use crate::words::{
    END, ONE_LIST, ONE_LIST_OF_TWO, ONE_PACKED_LIST, OPENING, PACKED_END, PACKED_OPENING,
};
use index_file::Index;
use std::alloc::Global;
use std::process::Abort;
use two_level::Check;

// The check of words that breaks first, with its term and part, None where they are an index.
fn broken(words: &[u64]) -> Option<(Check, u32, u64)>
    requires words { length words.now < 2 ^ 57 }
{
    let fault = Index::view(words).err()?;
    Some((fault.check, fault.term, fault.part))
}

// The check that a small file breaks first once one of its words is changed.
fn broken_by(
    rt: &impl Abort,
    alloc: Global,
    file: &[u64],
    at: usize,
    word: u64,
) -> Option<(Check, u32, u64)> {
    let mut words = file.to_vec(alloc).expect(rt, "memory");
    assert!(rt; words.len() <= 20 && at < words.len());
    words[at] = word;
    broken(&words)
}

// A place and the word that is put there in the first format, and the check that breaks first, with
// its part.
const BROKEN_WORDS: [(usize, u64, Check, u64); 36] = [
    (0, 0, Check::K2, 0),
    (1, 0, Check::K3, 0),
    (1, 3, Check::K3, 0),
    (1, u64::MAX, Check::K3, 0),
    // Read in the second format, the first entry ends before its first value.
    (1, 2, Check::K7, 0),
    (17, 0, Check::K4, 0),
    (14, 268_435_456, Check::K5, 0),
    (15, 2, Check::K5, 0),
    (15, 4_294_967_296, Check::K5, 0),
    (16, 7, Check::K5, 0),
    (16, u64::MAX, Check::K5, 0),
    (10, 3, Check::K6, 0),
    (10, u64::MAX, Check::K6, 0),
    (12, 0, Check::K6, 0),
    (12, 4_294_967_300, Check::K6, 0),
    (12, 18_446_744_069_414_584_322, Check::K6, 0),
    (13, 21_474_836_480, Check::K6, 0),
    (13, 21_474_836_482, Check::K6, 1),
    (11, u64::MAX, Check::K6, 1),
    (2, 137_438_953_473, Check::K6, 1),
    (2, 137_438_953_475, Check::K7, 0),
    (2, 137_438_953_472, Check::K7, 0),
    (2, 68_719_476_738, Check::K7, 0),
    (2, 206_158_430_210, Check::K7, 0),
    (3, 1, Check::K7, 0),
    (3, u64::MAX, Check::K7, 0),
    (5, 68_719_476_741, Check::K7, 1),
    // The greatest value of all needs a payload of two words.
    (5, 206_158_430_207, Check::K7, 2),
    (4, 3, Check::K8, 0),
    (4, 7, Check::K8, 0),
    (7, 3, Check::K8, 1),
    (4, 13, Check::K9, 0),
    (7, 97, Check::K9, 1),
    (13, 17_179_869_185, Check::K10, 0),
    (13, 25_769_803_777, Check::K10, 0),
    (9, 4_294_967_303, Check::K11, 0),
];

// The words of one list in the first format, each changed alone.
#[test]
fn names_the_first_broken_check(rt: HostRuntime) {
    for &(at, word, check, part) in &BROKEN_WORDS {
        let found = broken_by(&rt, rt.alloc(), ONE_LIST, at, word);
        assert_eq!(rt; found, Some((check, 0, part)), "{word} at {at}");
    }
}

// The same in the second format.
const BROKEN_WORDS_OF_TWO: [(usize, u64, Check, u64); 47] = [
    (0, 0, Check::K2, 0),
    (1, 0, Check::K3, 0),
    (1, 3, Check::K3, 0),
    // Read in the first format, the first entry has the end 0.
    (1, 1, Check::K7, 0),
    (19, 0, Check::K4, 0),
    (16, 5, Check::K5, 0),
    (16, 4_294_967_296, Check::K5, 0),
    (17, 2, Check::K5, 0),
    (17, 4_294_967_296, Check::K5, 0),
    (18, 9, Check::K5, 0),
    (18, u64::MAX, Check::K5, 0),
    (12, 3, Check::K6, 0),
    (12, u64::MAX, Check::K6, 0),
    (14, 0, Check::K6, 0),
    (14, 4_294_967_300, Check::K6, 0),
    (14, 18_446_744_069_414_584_322, Check::K6, 0),
    (15, 21_474_836_480, Check::K6, 0),
    (15, 21_474_836_482, Check::K6, 1),
    (13, 5, Check::K6, 1),
    (13, u64::MAX, Check::K6, 1),
    // 0 and 1 are all ones and need no payload.
    (2, 1, Check::K6, 1),
    (2, 3, Check::K7, 0),
    (2, 0, Check::K7, 0),
    // A last value is read whole.
    (2, 281_474_976_710_658, Check::K7, 0),
    (2, u64::MAX, Check::K7, 0),
    (3, 0, Check::K7, 0),
    (3, 1, Check::K7, 0),
    (3, 3, Check::K7, 0),
    (3, 4_294_967_298, Check::K7, 0),
    (3, u64::MAX, Check::K7, 0),
    (4, 1, Check::K7, 0),
    (4, u64::MAX, Check::K7, 0),
    (6, 0, Check::K7, 1),
    (6, 281_474_976_710_656, Check::K7, 1),
    // The greatest value of all needs a payload of two words.
    (6, 281_474_976_710_655, Check::K7, 2),
    (7, 1, Check::K7, 1),
    (7, 3, Check::K7, 1),
    (8, 1, Check::K7, 1),
    (5, 3, Check::K8, 0),
    (5, 7, Check::K8, 0),
    (6, 4, Check::K8, 1),
    (9, 3, Check::K8, 1),
    (5, 13, Check::K9, 0),
    (9, 97, Check::K9, 1),
    (15, 17_179_869_185, Check::K10, 0),
    (15, 25_769_803_777, Check::K10, 0),
    (11, 4_294_967_303, Check::K11, 0),
];

// The words of the same list in the second format, each changed alone.
#[test]
fn names_the_first_broken_check_of_two(rt: HostRuntime) {
    for &(at, word, check, part) in &BROKEN_WORDS_OF_TWO {
        let found = broken_by(&rt, rt.alloc(), ONE_LIST_OF_TWO, at, word);
        assert_eq!(rt; found, Some((check, 0, part)), "{word} at {at}");
    }
}

// The same in a packed file, with its term.
const BROKEN_PACKED_WORDS: [(usize, u64, Check, u32); 22] = [
    (0, 0, Check::K2, 0),
    (0, OPENING, Check::K3, 0),
    (1, 2, Check::K3, 0),
    (9, END, Check::K4, 0),
    (6, 4_294_967_296, Check::K5, 0),
    (7, 4_294_967_296, Check::K5, 0),
    // One bit more than a packed file may have.
    (8, 8_796_093_022_209, Check::K5, 0),
    (8, 65, Check::K5, 0),
    // The last place is not that of the end.
    (8, 26, Check::K12, 0),
    (7, 2, Check::K12, 0),
    // The first place is 8, and a bit behind the directory.
    (5, 530, Check::K12, 0),
    (5, 2577, Check::K12, 0),
    // One posting, three, and the greatest frequency 6.
    (2, 17_443_939, Check::K13, 0),
    (2, 17_443_942, Check::K13, 0),
    (2, 17_444_002, Check::K13, 0),
    // Documents in several parts, with the last value 3, and three of them.
    (2, 17_444_194, Check::K13, 0),
    (2, 17_444_450, Check::K13, 0),
    (2, 17_448_034, Check::K13, 0),
    // Frequencies of sum 14, and without their last bit.
    (2, 17_706_082, Check::K13, 0),
    (2, 666_722, Check::K13, 0),
    (2, 50_998_370, Check::K9, 1),
    (4, 4_294_967_303, Check::K11, 0),
];

// The words of the same list in a packed file, each changed alone.
#[test]
fn names_the_first_broken_check_of_packed(rt: HostRuntime) {
    for &(at, word, check, term) in &BROKEN_PACKED_WORDS {
        let found = broken_by(&rt, rt.alloc(), ONE_PACKED_LIST, at, word);
        assert_eq!(rt; found, Some((check, term, 0)), "{word} at {at}");
    }
}

// One part may not be spelled as several.
#[test]
fn one_packed_part_is_no_several(rt: HostRuntime) {
    let several = [
        PACKED_OPENING,
        3,
        866,
        562_949_953_421_314,
        0,
        5,
        1064,
        4,
        7,
        49_185,
        3,
        1,
        267,
        PACKED_END,
    ];
    assert_eq!(rt; broken(&several), Some((Check::K13, 0, 0)));
}

// Words that are cut, and a word that no list has.
#[test]
fn cut_and_longer_words_break_a_check(rt: HostRuntime) {
    assert_eq!(rt; broken(&[]), Some((Check::K1, 0, 0)));
    assert_eq!(rt; broken(&ONE_LIST[..5]), Some((Check::K1, 0, 0)));
    assert_eq!(rt; broken(&ONE_LIST[..17]), Some((Check::K4, 0, 0)));
    assert_eq!(rt; broken(&ONE_LIST_OF_TWO[..19]), Some((Check::K4, 0, 0)));
    assert_eq!(rt; broken(&ONE_PACKED_LIST[..5]), Some((Check::K1, 0, 0)));
    assert_eq!(rt; broken(&ONE_PACKED_LIST[..9]), Some((Check::K4, 0, 0)));
    let longer = [
        OPENING,
        1,
        137_438_953_474,
        0,
        5,
        137_438_953_477,
        0,
        33,
        0,
        4,
        7,
        2,
        5,
        4_294_967_298,
        21_474_836_481,
        3,
        1,
        9,
        END,
    ];
    assert_eq!(rt; broken(&longer), Some((Check::K6, 1, 0)));
}
