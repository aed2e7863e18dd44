ghost use Rattle.std.specs.Prelude.{◌≡◌, ℕ, ◌+◌, ◌*◌, ◌%◌, ◌^◌, ◌<◌, ◌≤◌, List, length, slice_index, slice_range};
ghost use Rattle.bit_words.specs.Bits.{bits_of, field_at};
ghost use Rattle.collection_model.specs.FormatNumbers.{format_three};
ghost use Rattle.part_cost.specs.Payload.{digits};
ghost use Rattle.packed_sequence.specs.SequenceBits.{sequence_bits};
ghost use Rattle.packed_sequence.specs.SequencePlaces.{IsSequenceBefore};
ghost use Rattle.two_level.specs.SequenceView.{words_used};
ghost use Rattle.packed_sequence.specs.Behind.{place_behind, IsInRange};
ghost use Rattle.packed_sequence.specs.Head.{IsHead};

use crate::behind::Behind;
use crate::last_field::LastField;
use crate::laws::sequence_words_fit;
use crate::window::window_from;
use bit_words::{Bits, words_are_bits};
use part_codec::part_takes_its_payload;
use part_cost::{Format, digits};
use two_level::SeqView;

/// A sequence that is known, and the place behind its bits.
#[derive(Drop)]
pub struct KnownSequence<'a> {
    pub view: SeqView<'a>,
    pub behind: Behind,
}

// A sequence of m values whose bits stand at a place, and how its last value is written where it is
// one part.
#[derive(Clone, Copy)]
struct Standing {
    at: u64,
    m: u32,
    last: LastField,
    ghost few: { m < 2 ^ 32 },
}

// The sequence where it stands as one part, behind a zero, and the field of its last value.
#[inline(always)]
fn known_lone<'a>(words: &'a [u64], sequence: Standing, field: u64) -> KnownSequence<'a>
    requires words { length words.now < 2 ^ 57 }
    requires many { 2 ≤ sequence.m }
    requires flag { slice_index (bits_of words.now) sequence.at ≡ 0 }
    requires read { field ≡ field_at (bits_of words.now) (sequence.at + 1) sequence.last.width }
    requires stands { (xs ends : List ℕ) × IsSequenceBefore sequence.last sequence.m
        format_three.most_sum (bits_of words.now) sequence.at (64 * length words.now) xs ends }
    ensures view { (xs ends : List ℕ) → IsSequenceBefore sequence.last sequence.m
        format_three.most_sum (bits_of words.entry.now) sequence.at (64 * length words.entry.now)
        xs ends → result.view ≡ record { format = format_three; values = xs; ends = ends } }
    ensures behind { (xs ends : List ℕ) → IsSequenceBefore sequence.last sequence.m
        format_three.most_sum (bits_of words.entry.now) sequence.at (64 * length words.entry.now)
        xs ends → place_behind result.behind sequence.m
        ≡ sequence.at + length (sequence_bits sequence.last sequence.at xs ends) }
    ensures range { IsInRange result.behind sequence.m }
{
    part_takes_its_payload();
    let Standing { at, m, last } = sequence;
    let place = at + 1 + u64::from(last.width);
    let end = field + last.less;
    KnownSequence {
        view: SeqView::standing_alone(words, place, end, m, Format::Three),
        behind: Behind::Part {
            place,
            universe: end + 1,
        },
    }
}

// The words from one of them on.
fn words_from<'a>(words: &'a [u64], start: u64) -> &'a [u64]
    requires within { start ≤ length words.now }
    ensures { result.now ≡ slice_range words.entry.now start (length words.entry.now) }
{
    &words[start as usize..]
}

// A sequence that stands in several parts, and the word at which its words begin.
#[derive(Drop)]
struct Parted<'a> {
    view: SeqView<'a>,
    start: u64,
}

// The sequence where it stands in so many parts, behind a one.
#[inline(always)]
fn known_parted<'a>(words: &'a [u64], sequence: Standing, parts: u32) -> Parted<'a>
    requires words { length words.now < 2 ^ 57 }
    requires many { 2 ≤ sequence.m }
    requires flag { slice_index (bits_of words.now) sequence.at ≡ 1 }
    requires read { parts ≡ field_at (bits_of words.now) (sequence.at + 1) (digits sequence.m) }
    requires stands { (xs ends : List ℕ) × IsSequenceBefore sequence.last sequence.m
        format_three.most_sum (bits_of words.now) sequence.at (64 * length words.now) xs ends }
    ensures view { (xs ends : List ℕ) → IsSequenceBefore sequence.last sequence.m
        format_three.most_sum (bits_of words.entry.now) sequence.at (64 * length words.entry.now)
        xs ends → result.view ≡ record { format = format_three; values = xs; ends = ends } }
    ensures behind { (xs ends : List ℕ) → IsSequenceBefore sequence.last sequence.m
        format_three.most_sum (bits_of words.entry.now) sequence.at (64 * length words.entry.now)
        xs ends → 64 * (result.start + words_used result.view)
        ≡ sequence.at + length (sequence_bits sequence.last sequence.at xs ends) }
{
    words_are_bits();
    sequence_words_fit();
    let Standing { at, m, .. } = sequence;
    let start = (at + 1 + u64::from(digits(u64::from(m)))).div_ceil(64);
    let view = SeqView::known(words_from(words, start), parts, m, Format::Three);
    Parted { view, start }
}

// The lowest bits of a word, so many of them.
#[inline(always)]
fn lowest_bits(word: u64, width: u32) -> u64
    requires some { 1 ≤ width }
    requires narrow { width ≤ 64 }
    ensures { result ≡ word % 2 ^ width }
{
    let above = 64 - width;
    word << above >> above
}

// How a sequence begins.
#[derive(Clone, Copy)]
enum Head {
    // With a one, and then the number of its parts.
    Parts(u32),
    // With a zero, and then the field of its last value, as one part.
    Alone(u64),
}

// The head of the sequence of m values that stands at a place.
#[inline(always)]
fn head_of(words: &[u64], at: u64, m: u32, last: LastField) -> Head
    requires words { length words.now < 2 ^ 57 }
    requires many { 2 ≤ m }
    requires narrow { last.width ≤ 64 }
    requires stands { (xs ends : List ℕ) × IsSequenceBefore last m format_three.most_sum
        (bits_of words.now) at (64 * length words.now) xs ends }
    ensures { IsHead (bits_of words.now) at m last result }
{
    part_takes_its_payload();
    // The flag, and the field behind it, which is the number of parts or the last value.
    let window = window_from(Bits { words }, at);
    if window % 2 == 1 {
        let parts = lowest_bits(window, 1 + digits(u64::from(m))) >> 1;
        Head::Parts(parts as u32)
    } else {
        // The highest bits of a field of 64 are 0.
        let head = lowest_bits(window, (1 + last.width).min(64));
        Head::Alone(head >> 1)
    }
}

/// The sequence of m values that stands at a place.
#[inline(always)]
pub fn known_sequence<'a>(words: &'a [u64], at: u64, m: u32, last: LastField) -> SeqView<'a>
    requires words { length words.now < 2 ^ 57 }
    requires many { 2 ≤ m }
    requires narrow { last.width ≤ 64 }
    requires stands { (xs ends : List ℕ) × IsSequenceBefore last m format_three.most_sum
        (bits_of words.now) at (64 * length words.now) xs ends }
    ensures { (xs ends : List ℕ) → IsSequenceBefore last m format_three.most_sum
        (bits_of words.entry.now) at (64 * length words.entry.now) xs ends
        → result ≡ record { format = format_three; values = xs; ends = ends } }
{
    let sequence = Standing { at, m, last };
    match head_of(words, at, m, last) {
        Head::Parts(parts) => known_parted(words, sequence, parts).view,
        Head::Alone(field) => known_lone(words, sequence, field).view,
    }
}

/// The sequence of m values that stands at a place, and the place behind it. Of a sequence in
/// several parts it takes two entries to find.
#[inline(always)]
pub fn known_sequence_with_end<'a>(
    words: &'a [u64],
    at: u64,
    m: u32,
    last: LastField,
) -> KnownSequence<'a>
    requires words { length words.now < 2 ^ 57 }
    requires many { 2 ≤ m }
    requires narrow { last.width ≤ 64 }
    requires stands { (xs ends : List ℕ) × IsSequenceBefore last m format_three.most_sum
        (bits_of words.now) at (64 * length words.now) xs ends }
    ensures view { (xs ends : List ℕ) → IsSequenceBefore last m format_three.most_sum
        (bits_of words.entry.now) at (64 * length words.entry.now) xs ends
        → result.view ≡ record { format = format_three; values = xs; ends = ends } }
    ensures behind { (xs ends : List ℕ) → IsSequenceBefore last m format_three.most_sum
        (bits_of words.entry.now) at (64 * length words.entry.now) xs ends
        → place_behind result.behind m ≡ at + length (sequence_bits last at xs ends) }
    ensures range { IsInRange result.behind m }
{
    let sequence = Standing { at, m, last };
    match head_of(words, at, m, last) {
        Head::Parts(parts) => {
            let parted = known_parted(words, sequence, parts);
            let behind = 64 * (parted.start + parted.view.used());
            KnownSequence {
                view: parted.view,
                behind: Behind::Place(behind),
            }
        }
        Head::Alone(field) => known_lone(words, sequence, field),
    }
}
