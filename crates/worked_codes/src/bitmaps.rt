ghost use Rattle.std.specs.Prelude.{◌≡◌, ℕ, ◌<◌, ◌≤◌, List, length};
ghost use Rattle.ranked_bitmap.specs.MapView.{Holds};

use crate::relative::is_relative;
use bit_words::{BitWriter, Bits};
use no_memory::NoMemory;
use part_cost::PlacedPart;
use ranked_bitmap::{MapView, map_obeys_laws, map_write};
use std::alloc::{AllocError, Global};
use std::test::Fail;

// 0, 5 with a sample every four places: how many bits, and the words.
fn two_numbers(alloc: Global) -> Result<(u64, Vec<u64>), NoMemory> {
    let values: &[u64] = &[0, 5];
    let mut writer = BitWriter::new(alloc)?;
    map_write::<4, _>(values, 6, &mut writer)?;
    Ok((writer.len(), writer.into_words()))
}

// 8 bits, as one word.
#[test]
fn writes_two_numbers(rt: HostRuntime) -> Result<(), Fail> {
    let (bits, words) = two_numbers(rt.alloc())?;
    assert_eq!(rt; (bits, words.as_slice()), (8, [97].as_slice()));
    Ok(())
}

// Of all patterns of so many bits, those of the five lists of two numbers in six places are
// accepted.
#[test]
fn accepts_the_lists_alone(rt: HostRuntime) {
    let lists = [97, 98, 100, 104, 48];
    for word in 0..256 {
        let words = [word];
        let view = MapView::<4>::at(PlacedPart::at(Bits { words: &words }, 0, 6, 2));
        assert_eq!(rt; view.check(), lists.contains(&word), "{word}");
    }
}

// 0 to 599 without 300, behind which one sample says that so many lie below 512.
fn words_of_600(sample: u64) -> [u64; 10]
    requires { sample < 1024 }
{
    let mut words = [u64::MAX; 10];
    words[4] = !(1 << 44);
    words[9] = (sample << 24) | ((1 << 24) - 1);
    words
}

// Number k of them. None where the words have no such part at a place.
fn number_of_599(words: &[u64], place: u64, k: u64) -> Option<u64> {
    if words.len() > 10 || place > 64 * words.len() as u64 || k >= 599 {
        return None;
    }
    let view = MapView::<512>::at(PlacedPart::at(Bits { words }, place, 600, 599));
    if view.check() {
        Some(view.get(k))
    } else {
        None
    }
}

// The place and the number of the first of them from a place on that is at least x.
fn next_of_599(words: &[u64], x: u64, from: u64) -> Option<(u64, u64)> {
    if words.len() > 10 || x >= 600 || from >= 599 {
        return None;
    }
    let view = MapView::<512>::at(PlacedPart::at(Bits { words }, 0, 600, 599));
    if view.check() {
        Some(view.next_geq(x, from))
    } else {
        None
    }
}

// Some of them: k, and number k.
const SOME_OF_599: [(u64, u64); 4] = [(0, 0), (299, 299), (300, 301), (598, 599)];

// A number and a place, and the place and the number of the first from there on that is at least
// this number.
const NEXT_OF_599: [(u64, u64, u64, u64); 5] = [
    (300, 0, 300, 301),
    (300, 400, 400, 401),
    (299, 0, 299, 299),
    (0, 0, 0, 0),
    (599, 598, 598, 599),
];

// 511 lie below 512.
#[test]
fn reads_many_numbers(rt: HostRuntime) {
    let words = words_of_600(511);
    for &(k, number) in &SOME_OF_599 {
        assert_eq!(rt; number_of_599(&words, 0, k), Some(number), "{k}");
    }
    for &(x, from, place, number) in &NEXT_OF_599 {
        assert_eq!(rt;
            next_of_599(&words, x, from),
            Some((place, number)),
            "{x} from {from}"
        );
    }
}

// How many words a view of 600 places tells of two words of marks, and what is left of them.
fn kept(view: &MapView<'_, 512>, from: u64) -> (usize, [u64; 2]) {
    let mut marks = [u64::MAX; 2];
    if !view.check() {
        return (3, marks);
    }
    let words = view.keep_in_words(from, &mut marks);
    (words, marks)
}

// A place, how many words of marks are told from there on, and what is left of them.
const MARKS: [(u64, usize, [u64; 2]); 7] = [
    (0, 2, [u64::MAX, u64::MAX]),
    (250, 2, [!(1 << 50), u64::MAX]),
    (200, 2, [u64::MAX, !(1 << 36)]),
    (472, 2, [u64::MAX, u64::MAX]),
    (473, 1, [u64::MAX, u64::MAX]),
    (537, 0, [u64::MAX, u64::MAX]),
    (u64::MAX, 0, [u64::MAX, u64::MAX]),
];

// 599 of 600 places: the marks of whole words of places.
#[test]
fn keeps_marks_in_whole_words(rt: HostRuntime) {
    let words = words_of_600(511);
    let view = MapView::<512>::at(PlacedPart::at(Bits { words: &words }, 0, 600, 599));
    for &(from, count, marks) in &MARKS {
        assert_eq!(rt; kept(&view, from), (count, marks), "from {from}");
    }
}

// 599 of 600 places with another sample, with fewer words, and at a later place.
#[test]
fn refuses_other_bits(rt: HostRuntime) {
    let words = words_of_600(511);
    let other = number_of_599(&words_of_600(510), 0, 0);
    let fewer = number_of_599(&words[..9], 0, 0);
    let later = number_of_599(&words, 31, 0);
    // The widest universe takes far more words.
    let widest = PlacedPart::at(Bits { words: &words }, 0, 1 << 48, 1 << 47);
    let widest = MapView::<512>::at(widest).check();
    assert_eq!(rt; (other, fewer, later, widest), (None, None, None, false));
}

// The words of a list, None where it is none of a part of so many places.
fn written(alloc: Global, values: &[u64], u: u64) -> Result<Option<Vec<u64>>, NoMemory> {
    map_obeys_laws();
    if !is_relative(values, u) || u > 2000 {
        return Ok(None);
    }
    let mut writer = BitWriter::new(alloc)?;
    map_write::<512, _>(values, u, &mut writer)?;
    Ok(Some(writer.into_words()))
}

// Whether number k is found by its place, by the number before it, by itself and by one more than
// the number before it.
fn finds(view: &MapView<'_, 512>, values: &[u64], k: usize) -> bool
    requires held { (ys : List ℕ) × Holds 512 view.now ys }
    requires count { length values.now ≡ view.now.part.m }
    requires within { k < length values.now }
{
    let (place, number) = (k as u64, values[k]);
    if view.get(place) != number || number >= view.part.u {
        return false;
    }
    if view.next_geq(number, 0) != (place, number) || view.next_geq(0, place) != (place, number) {
        return false;
    }
    if k == 0 {
        return true;
    }
    let before = view.get(place - 1);
    view.after(place - 1, before) == number
        && before < number
        && view.next_geq(before + 1, 0) == (place, number)
        && view.next_geq(before + 1, place - 1) == (place, number)
        && view.next_geq(before, place) == (place, number)
}

// Whether each number from number k on is found by number k, by itself and by one more than the
// number before it.
fn finds_later(view: &MapView<'_, 512>, values: &[u64], k: usize) -> bool
    requires held { (ys : List ℕ) × Holds 512 view.now ys }
    requires count { length values.now ≡ view.now.part.m }
    requires within { k < length values.now }
{
    let from = k as u64;
    let number = view.get(from);
    let mut least = 0;
    for j in k..values.len() {
        let (place, later) = (j as u64, values[j]);
        if later < least || later >= view.part.u {
            return false;
        }
        if view.first_from(from, number, least) != (place, later)
            || view.first_from(from, number, later) != (place, later)
            || view.number_at_least(later) != later
        {
            return false;
        }
        least = later + 1;
    }
    true
}

// Whether the numbers from number k on that are below x are given, as many as have room, and no
// more.
fn gives(view: &MapView<'_, 512>, values: &[u64], k: usize, x: u64, room: usize) -> bool
    requires held { (ys : List ℕ) × Holds 512 view.now ys }
    requires count { length values.now ≡ view.now.part.m }
    requires within { k < length values.now }
    requires room { room ≤ 1025 }
{
    let mut to = [0; 1025];
    let first = view.get(k as u64);
    let count = view.values_below(k as u64, first, x, &mut to[..room]);
    for j in 0..room {
        let more = k + j < values.len() && values[k + j] < x;
        if more != (j < count) || more && to[j] != values[k + j] {
            return false;
        }
    }
    true
}

// Whether they are given below number k, one more, the last number and the universe, with room for
// none, for one, for two and for all.
fn gives_blocks(view: &MapView<'_, 512>, values: &[u64], k: usize) -> bool
    requires held { (ys : List ℕ) × Holds 512 view.now ys }
    requires count { length values.now ≡ view.now.part.m }
    requires within { k < length values.now }
{
    let number = values[k];
    for x in [
        number,
        number.saturating_add(1),
        view.part.u - 1,
        view.part.u,
    ] {
        for room in [0, 1, 2, 1025] {
            if room > 1025 || !gives(view, values, k, x, room) {
                return false;
            }
        }
    }
    true
}

// Whether words are accepted as those of a list, and it is read back from them.
fn reads_back(words: &[u64], values: &[u64], u: u64) -> bool {
    let m = values.len() as u64;
    if words.len() > 100 || m == 0 || m > u || u > 2000 {
        return false;
    }
    let view = MapView::<512>::at(PlacedPart::at(Bits { words }, 0, u, m));
    if !view.check() {
        return false;
    }
    for k in 0..values.len() {
        if !finds(&view, values, k) || !finds_later(&view, values, k) {
            return false;
        }
    }
    let last = values.len() - 1;
    gives_blocks(&view, values, 0)
        && gives_blocks(&view, values, last / 2)
        && gives_blocks(&view, values, last)
}

// The multiples of a step below u outside a gap, and u - 1.
fn multiples(alloc: Global, u: u64, step: u64, gap: (u64, u64)) -> Result<Vec<u64>, AllocError>
    requires { 0 < step }
{
    let mut values = Vec::new(alloc);
    for place in 0..u {
        let in_gap = gap.0 <= place && place < gap.1;
        if place + 1 == u || place % step == 0 && !in_gap {
            values.push(place)?;
        }
    }
    Ok(values)
}

// The last word of a part of such numbers that is written and read back, None where it is not.
fn last_word(alloc: Global, u: u64, step: u64, gap: (u64, u64)) -> Result<Option<u64>, NoMemory> {
    if step == 0 {
        return Ok(None);
    }
    let values = multiples(alloc, u, step, gap)?;
    let Some(words) = written(alloc, &values, u)? else {
        return Ok(None);
    };
    if !reads_back(&words, &values, u) {
        return Ok(None);
    }
    Ok(words.last().copied())
}

// Universes, steps and gaps, and the last word of the part of these multiples.
const PARTS: [(u64, u64, (u64, u64), u64); 15] = [
    (512, 1, (300, 301), u64::MAX),
    (513, 1, (300, 301), 1 | 511 << 1),
    (600, 1, (300, 301), (511 << 24) | ((1 << 24) - 1)),
    (1025, 1, (300, 301), 1 | 511 << 1 | 1023 << 12),
    (512, 2, (0, 0), 0xd555_5555_5555_5555),
    (513, 2, (0, 0), 1 | 256 << 1),
    (1025, 2, (0, 0), 1 | 256 << 1 | 512 << 11),
    (512, 3, (64, 448), 0xc924_9249_2492_4924),
    (513, 3, (64, 448), 1 | 43 << 1),
    (1025, 3, (64, 448), 1 | 43 << 1 | 214 << 9),
    (512, 512, (0, 0), 1 << 63),
    (513, 512, (0, 0), 1 | 1 << 1),
    (1025, 512, (0, 0), 1 | 1 << 1 | 2 << 3),
    (1025, 1, (0, 1024), 1),
    (
        1900,
        1,
        (10, 1890),
        0x3ff << 34 | 10 << 44 | 10 << 49 | 10 << 54,
    ),
];

// Parts without a sample, with one and with two, and the last word of each: marks, and then
// samples.
#[test]
fn reads_what_was_written(rt: HostRuntime) -> Result<(), Fail> {
    for &(u, step, gap, last) in &PARTS {
        let word = last_word(rt.alloc(), u, step, gap)?;
        assert_eq!(rt; word, Some(last), "{u} by {step}");
    }
    Ok(())
}
