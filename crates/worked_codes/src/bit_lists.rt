ghost use Rattle.std.specs.Prelude.{◌<◌, ◌≤◌, ◌^◌};

use bit_words::{BitWriter, Bits};
use no_memory::NoMemory;
use std::alloc::Global;
use std::test::Fail;

// A pattern of so many bits.
fn pattern(width: u32) -> u64
    requires { width ≤ 64 }
    ensures { result < 2 ^ width }
{
    if width == 0 {
        0
    } else {
        0xa5c3_96f1_0e7b_d248 >> (64 - width)
    }
}

// The words of so many zeros, a field and a 1, None where the bits on the way are not as many.
fn field_written(alloc: Global, place: u32, width: u32) -> Result<Option<Vec<u64>>, NoMemory>
    requires place { place ≤ 64 }
    requires width { width ≤ 64 }
{
    let mut writer = BitWriter::new(alloc)?;
    writer.put(0, place)?;
    if writer.len() != place as u64 {
        return Ok(None);
    }
    writer.put(pattern(width), width)?;
    if writer.len() != (place + width) as u64 {
        return Ok(None);
    }
    writer.put(1, 1)?;
    Ok(Some(writer.into_words()))
}

// Whether these words have the field at a place, a 1 behind it, and no word more.
fn reads_field(words: &[u64], place: u32, width: u32) -> bool
    requires place { place ≤ 64 }
    requires width { width ≤ 64 }
{
    let bits = Bits { words };
    let end = (place + width) as u64;
    words.len() as u64 == end / 64 + 1
        && bits.get(place as u64, width) == pattern(width)
        && bits.bit(end)
}

// A field of every width at every place of a word, across its border too, behind zeros and before a
// 1.
#[test]
fn reads_what_was_written(rt: HostRuntime) -> Result<(), Fail> {
    for place in 0..64_u32 {
        for width in 0..65_u32 {
            let words = field_written(rt.alloc(), place, width)?.expect(&rt, "as many bits");
            assert!(rt;
                reads_field(&words, place, width),
                "{width} bits at {place}"
            );
        }
    }
    Ok(())
}

// Whether three fields of one width, one behind another, are those that are got one at a time.
fn gives_fields(bits: &Bits<'_>, at: u64, width: u32) -> bool {
    let wide = width as u64;
    if bits.words.len() != 3 || at > 64 || width > 42 {
        return false;
    }
    let mut fields = bits.fields_from(at, width);
    let first = fields.next() == bits.get(at, width);
    let second = fields.next() == bits.get(at + wide, width);
    let third = fields.next() == bits.get(at + 2 * wide, width);
    first && second && third
}

// Three fields of each width that they have room for, from each place of a word on, as they are got
// one at a time.
#[test]
fn gives_fields_one_behind_another(rt: HostRuntime) {
    let words = [pattern(64), 0x0123_4567_89ab_cdef, 0x8000_0000_0000_0006];
    let bits = Bits { words: &words };
    for width in 0..43_u32 {
        for at in 0..65_u64 {
            assert!(rt; gives_fields(&bits, at, width), "{width} bits at {at}");
        }
    }
}

// How many bits there are where none are padded, and where three are; and the words where these are
// padded again.
fn padded(alloc: Global) -> Result<(u64, u64, Vec<u64>), NoMemory> {
    let mut writer = BitWriter::new(alloc)?;
    writer.pad()?;
    let none = writer.len();
    writer.put(5, 3)?;
    writer.pad()?;
    let word = writer.len();
    writer.pad()?;
    Ok((none, word, writer.into_words()))
}

// Padding fills a word that is begun, and appends none where a word is full.
#[test]
fn pads_to_a_word(rt: HostRuntime) -> Result<(), Fail> {
    let (none, word, words) = padded(rt.alloc())?;
    assert_eq!(rt; (none, word, words.as_slice()), (0, 64, [5].as_slice()));
    Ok(())
}

// How many bits there are where so many are kept of 128 ones and a field behind them; and the words
// with a field behind these.
fn cut(alloc: Global, kept: u64) -> Result<(u64, Vec<u64>), NoMemory> {
    let mut writer = BitWriter::after(vec![in alloc; u64::MAX, u64::MAX]?);
    writer.put(3, 2)?;
    writer.truncate(kept);
    let len = writer.len();
    writer.put(2, 2)?;
    Ok((len, writer.into_words()))
}

// Of 130 bits: how many are kept, how many there are then, and the words with a field behind them.
const CUTS: [(u64, u64, &[u64]); 10] = [
    (0, 0, &[0b10]),
    (1, 1, &[0b101]),
    (63, 63, &[0x7fff_ffff_ffff_ffff, 1]),
    (64, 64, &[u64::MAX, 0b10]),
    (65, 65, &[u64::MAX, 0b101]),
    (127, 127, &[u64::MAX, 0x7fff_ffff_ffff_ffff, 1]),
    (128, 128, &[u64::MAX, u64::MAX, 0b10]),
    (130, 130, &[u64::MAX, u64::MAX, 0b1011]),
    (131, 130, &[u64::MAX, u64::MAX, 0b1011]),
    (u64::MAX, 130, &[u64::MAX, u64::MAX, 0b1011]),
];

// The first of 130 ones, and a field behind them: how many are kept, how many there are then, and
// the words.
#[test]
fn keeps_the_first_bits(rt: HostRuntime) -> Result<(), Fail> {
    for &(kept, len, want) in &CUTS {
        let (bits, words) = cut(rt.alloc(), kept)?;
        assert_eq!(rt; (bits, words.as_slice()), (len, want), "{kept} kept");
    }
    Ok(())
}

// How many ones there are in a range of three words, and the place of the first. None where it is
// no range of these.
fn found(bits: &Bits<'_>, from: u64, to: u64) -> Option<(u64, Option<u64>)> {
    if bits.words.len() != 3 || from > to || to > 192 {
        return None;
    }
    Some((bits.ones(from, to), bits.next_one(from, to)))
}

// Ranges of three words: from, to, how many ones, and the first of them.
const RANGES: [(u64, u64, u64, Option<u64>); 32] = [
    // Inside one word, and empty.
    (0, 0, 0, None),
    (0, 1, 1, Some(0)),
    (1, 3, 0, None),
    (1, 4, 1, Some(3)),
    (3, 3, 0, None),
    (4, 63, 0, None),
    (129, 131, 2, Some(129)),
    (130, 131, 1, Some(130)),
    (131, 192, 0, None),
    // Whole words, and up to their borders.
    (0, 63, 2, Some(0)),
    (0, 64, 3, Some(0)),
    (4, 64, 1, Some(63)),
    (63, 63, 0, None),
    (63, 64, 1, Some(63)),
    (64, 64, 0, None),
    (64, 127, 0, None),
    (64, 128, 0, None),
    (127, 128, 0, None),
    (128, 128, 0, None),
    (128, 192, 2, Some(129)),
    (192, 192, 0, None),
    // Across two words.
    (1, 65, 2, Some(3)),
    (4, 127, 1, Some(63)),
    (63, 65, 1, Some(63)),
    (64, 129, 0, None),
    (64, 130, 1, Some(129)),
    (127, 131, 2, Some(129)),
    // Across three.
    (0, 129, 3, Some(0)),
    (0, 192, 5, Some(0)),
    (1, 130, 3, Some(3)),
    (4, 131, 3, Some(63)),
    (63, 129, 1, Some(63)),
];

// Ranges that begin and end inside a word.
#[test]
fn counts_and_finds_ones(rt: HostRuntime) {
    let words = [0x8000_0000_0000_0009_u64, 0, 0x6];
    let bits = Bits { words: &words };
    for &(from, to, ones, first) in &RANGES {
        assert_eq!(rt;
            found(&bits, from, to),
            Some((ones, first)),
            "from {from} to {to}"
        );
    }
}

// Whether a range is found to have ones alone, no ones, and ones at its even places, in three lists
// of bits that have these.
fn found_in_range(all: &Bits<'_>, none: &Bits<'_>, even: &Bits<'_>, from: u64, to: u64) -> bool
    requires ordered { from ≤ to }
    requires few { to ≤ 192 }
{
    let first = if from < to { Some(from) } else { None };
    let place = from.div_ceil(2) * 2;
    let first_even = if place < to { Some(place) } else { None };
    let evens = to.div_ceil(2) - from.div_ceil(2);
    found(all, from, to) == Some((to - from, first))
        && found(none, from, to) == Some((0, None))
        && found(even, from, to) == Some((evens, first_even))
}

// Each range of three words of ones, of three words of zeros, and of three whose bits at even
// places are 1.
#[test]
fn counts_and_finds_in_each_range(rt: HostRuntime) {
    let (ones, zeros, evens) = ([u64::MAX; 3], [0; 3], [0x5555_5555_5555_5555; 3]);
    let all = Bits { words: &ones };
    let none = Bits { words: &zeros };
    let even = Bits { words: &evens };
    for to in 0..193_u64 {
        for from in 0..to + 1 {
            assert!(rt;
                found_in_range(&all, &none, &even, from, to),
                "from {from} to {to}"
            );
        }
    }
}

// Whether the places of the ones of a range of three words are given, one after the other and then
// none.
fn gives_ones(bits: &Bits<'_>, from: u64, to: u64) -> bool {
    if bits.words.len() != 3 || from > to || to > 192 {
        return false;
    }
    let mut ones = bits.ones_from(from, to);
    for place in from..to {
        if bits.bit(place) && ones.next() != Some(place) {
            return false;
        }
    }
    ones.next().is_none() && ones.next().is_none()
}

// Three words of ones, of zeros, with ones at even places, and with some.
const THREE_WORDS: [[u64; 3]; 4] = [
    [u64::MAX; 3],
    [0; 3],
    [0x5555_5555_5555_5555; 3],
    [0x8000_0000_0000_0009, 0, 0x8000_0000_0000_0006],
];

// The places of the ones of each range of three words, one after the other and then none.
#[test]
fn gives_the_ones_of_each_range(rt: HostRuntime) {
    for words in &THREE_WORDS {
        let bits = Bits { words };
        for to in 0..193_u64 {
            for from in 0..to + 1 {
                assert!(rt; gives_ones(&bits, from, to), "from {from} to {to}");
            }
        }
    }
}

// How many bits there are with zeros, zeros and a one behind a word, and the words. None where the
// word is not 64 bits.
fn one_after(alloc: Global, begun: u32, zeros: u64) -> Result<Option<(u64, Vec<u64>)>, NoMemory>
    requires begun { begun < 64 }
    requires zeros { zeros < 192 }
{
    let mut writer = BitWriter::after(vec![in alloc; 7]?);
    if writer.len() != 64 {
        return Ok(None);
    }
    writer.put(0, begun)?;
    writer.put_one_after(zeros)?;
    Ok(Some((writer.len(), writer.into_words())))
}

// Bits of a word that is begun and zeros behind them: how many bits with the one, and the words.
const ONES_AFTER: [(u32, u64, u64, &[u64]); 10] = [
    (0, 0, 65, &[7, 1]),
    (0, 63, 128, &[7, 0x8000_0000_0000_0000]),
    (0, 64, 129, &[7, 0, 1]),
    (3, 0, 68, &[7, 8]),
    (3, 60, 128, &[7, 0x8000_0000_0000_0000]),
    (3, 61, 129, &[7, 0, 1]),
    (3, 125, 193, &[7, 0, 0, 1]),
    (63, 0, 128, &[7, 0x8000_0000_0000_0000]),
    (63, 1, 129, &[7, 0, 1]),
    (63, 130, 258, &[7, 0, 0, 0, 2]),
];

// Zeros and then a one, behind the bits of a word: how many zeros, the place of the one, and the
// words.
#[test]
fn puts_a_one_after_zeros(rt: HostRuntime) -> Result<(), Fail> {
    for &(begun, zeros, len, want) in &ONES_AFTER {
        assert!(rt; begun < 64 && zeros < 192);
        let (bits, words) = one_after(rt.alloc(), begun, zeros)?.expect(&rt, "64 bits");
        assert_eq!(rt;
            (bits, words.as_slice()),
            (len, want),
            "{zeros} zeros behind {begun}"
        );
    }
    Ok(())
}

// One n of a range of three words from its start and from its end, and zero n. None where it is no
// range of these.
fn numbered(
    bits: &Bits<'_>,
    from: u64,
    to: u64,
    n: u64,
) -> Option<(Option<u64>, Option<u64>, Option<u64>)> {
    if bits.words.len() != 3 || from > to || to > 192 {
        return None;
    }
    Some((
        bits.nth_one(from, to, n),
        bits.nth_one_back(from, to, n),
        bits.nth_zero(from, to, n),
    ))
}

// Ranges of three words: from, to, n, one n from the start and from the end, and zero n.
const NUMBERED: [(u64, u64, u64, Option<u64>, Option<u64>, Option<u64>); 12] = [
    (0, 192, 0, Some(0), Some(130), Some(1)),
    (0, 192, 2, Some(63), Some(63), Some(4)),
    (0, 192, 4, Some(130), Some(0), Some(6)),
    (0, 192, 5, None, None, Some(7)),
    (1, 63, 0, Some(3), Some(3), Some(1)),
    (1, 63, 1, None, None, Some(2)),
    (4, 130, 1, Some(129), Some(63), Some(5)),
    (4, 130, 59, None, None, Some(64)),
    (4, 130, 123, None, None, Some(128)),
    (4, 130, 124, None, None, None),
    (64, 64, 0, None, None, None),
    (192, 192, 0, None, None, None),
];

// The ones of a range by their number from its start and from its end, and its zeros.
#[test]
fn finds_by_number(rt: HostRuntime) {
    let words = [0x8000_0000_0000_0009_u64, 0, 0x6];
    let bits = Bits { words: &words };
    for &(from, to, n, one, back, zero) in &NUMBERED {
        assert_eq!(rt;
            numbered(&bits, from, to, n),
            Some((one, back, zero)),
            "{n} from {from} to {to}"
        );
    }
}
