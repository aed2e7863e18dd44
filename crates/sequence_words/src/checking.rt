ghost use Rattle.std.specs.Prelude.{◌≡◌, ℕ, ◌≤◌, ◌<◌, ◌+◌, ◌*◌, ◌^◌, List, true, false, ◌++◌, map, take, length, IfOk, IfErr, IfSome, IfNone, OnOk};
ghost use Rattle.collection_model.specs.FormatNumbers.{entry_words};
ghost use Rattle.collection_model.specs.Collection.{greatest};
ghost use Rattle.collection_model.specs.Sequences.{steps_from};
ghost use Rattle.bit_words.specs.Bits.{bits_of, HasNoOne};
ghost use Rattle.part_cost.specs.Formats.{numbers_of};
ghost use Rattle.part_cost.specs.Stored.{HoldsPart};
ghost use Rattle.part_codec.specs.PartBits.{part_bits};
ghost use Rattle.sequence_words.specs.SequenceFault.{payload_before, word_behind, first_bit, parts_fit, may_follow, entry_breaks, IsPartStored, PassChecks, IsSequenceFault};
ghost use Rattle.sequence_words.specs.SequenceView.{sequence_stated};

use crate::check::Check;
use crate::entry::{Entry, directory_bits, directory_words, entry_at};
use bit_words::Bits;
use part_codec::{check_part, check_part_into, check_part_steps, one_list_at_place};
use part_cost::{Format, PlacedPart, formats_have_room, payload_bits};

/// The first check of a sequence's words that breaks, and its part.
#[derive(Clone, Copy, Debug, PartialEq, Eq)]
pub struct SeqFault {
    pub check: Check,
    pub part: u32,
}

/// What a check finds out of words that begin with a sequence: how many they are, and, where it is
/// asked for, the greatest step of the values.
#[derive(Clone, Copy)]
pub struct Found {
    pub used: u64,
    pub greatest: u64,
}

/// A sequence that words are to begin with: so many values below a bound, in so many parts, in a
/// format.
#[derive(Clone, Copy)]
pub struct SeqShape {
    pub parts: u32,
    pub m: u32,
    pub bound: u64,
    pub format: Format,
    pub ghost few: { m < 2 ^ 32 },
}

/// Looks for the first check that breaks, and answers what it finds out of the words. The values
/// are given where there is room for any; where a check breaks, some may have been.
pub fn check_words(
    words: &[u64],
    shape: SeqShape,
    with_steps: bool,
    to: &mut [u64],
) -> Result<Found, SeqFault>
    requires words { length words.now < 2 ^ 57 }
    requires bound { shape.bound ≤ (numbers_of shape.format).most_sum }
    requires room { 1 ≤ length to.old → length to.old ≡ shape.m }
    ensures room { length to.new ≡ length to.old }
    ensures ok { IfOk result (λ found. PassChecks (numbers_of shape.format) words.now shape.parts
        shape.m shape.bound) }
    ensures used { IfOk result (λ found. found.used
        ≡ word_behind (numbers_of shape.format) words.now shape.parts) }
    ensures step { IfOk result (λ found. with_steps ≡ true
        → found.greatest ≡ greatest (steps_from 0
        (sequence_stated (numbers_of shape.format) words.now shape.parts).values)) }
    ensures values { OnOk result (1 ≤ length to.old → to.new
        ≡ (sequence_stated (numbers_of shape.format) words.now shape.parts).values) }
    ensures first { IfErr result (λ f. IsSequenceFault (numbers_of shape.format) words.now
        shape.parts shape.m shape.bound f.check f.part) }
{
    let SeqShape {
        parts,
        m,
        bound,
        format,
    } = shape;
    let directory = directory_words(parts, format);
    if !parts_fit(m, parts) || (words.len() as u64) < directory {
        return Err(SeqFault {
            check: Check::K6,
            part: 0,
        });
    }
    let payload = check_directory(words, parts, m, bound, format)?;
    let used = directory + payload.div_ceil(64);
    if (words.len() as u64) < used {
        return Err(SeqFault {
            check: Check::K7,
            part: parts,
        });
    }
    let greatest = check_parts(words, parts, format, with_steps, to)?;
    check_padding(words, parts, payload, format)?;
    Ok(Found { used, greatest })
}

/// Whether m values can have so many parts: from 1 to m, and none where there is no value.
pub fn parts_fit(m: u32, parts: u32) -> bool
    ensures { result ≡ parts_fit m parts }
{
    if m == 0 {
        parts == 0
    } else {
        1 <= parts && parts <= m
    }
}

// What a pass over the entries has behind it: so many values, one past the last of them, and the
// payload bits of their parts.
#[derive(Clone, Copy)]
struct Passed {
    values: u64,
    past: u64,
    bits: u64,
}

impl Passed {
    // Whether an entry may follow it, where there are m values below the bound; the last entry has
    // them all.
    fn may_follow(&self, entry: Entry, m: u32, bound: u64, is_last: bool) -> bool
        ensures { result ≡ may_follow m bound self.now.values self.now.past self.now.bits is_last
            entry.end entry.last entry.offset }
    {
        self.values < entry.end
            && entry.end <= m as u64
            && entry.last < bound
            && self.past <= entry.last
            && entry.end - self.values <= entry.last + 1 - self.past
            && entry.offset == self.bits
            && (!is_last || entry.end == m as u64)
    }
}

// Goes through the entries, and answers the payload bits of all parts.
fn check_directory(
    words: &[u64],
    parts: u32,
    m: u32,
    bound: u64,
    format: Format,
) -> Result<u64, SeqFault>
    requires bound { bound ≤ (numbers_of format).most_sum }
    requires room { entry_words (numbers_of format) * parts ≤ length words.now }
    ensures entries { IfOk result (λ bits. (q : ℕ) → q < parts
        → entry_breaks (numbers_of format) words.now parts m bound q ≡ false) }
    ensures bits { IfOk result (λ bits. bits ≡ payload_before (numbers_of format) words.now parts) }
    ensures few { IfOk result (λ bits. bits ≤ 2 * (numbers_of format).most_sum) }
    ensures check { IfErr result (λ f. f.check ≡ Check.K7) }
    ensures part { IfErr result (λ f. f.part < parts) }
    ensures breaks { IfErr result (λ f. entry_breaks (numbers_of format) words.now parts m bound
        f.part ≡ true) }
    ensures first { IfErr result (λ f. (q : ℕ) → q < f.part
        → entry_breaks (numbers_of format) words.now parts m bound q ≡ false) }
{
    formats_have_room();
    let mut passed = Passed {
        values: 0,
        past: 0,
        bits: 0,
    };
    for part in 0..parts {
        let entry = entry_at(words, part, format);
        if !passed.may_follow(entry, m, bound, part + 1 == parts) {
            return Err(SeqFault {
                check: Check::K7,
                part,
            });
        }
        let universe = entry.last + 1 - passed.past;
        passed = Passed {
            values: entry.end,
            past: entry.last + 1,
            bits: passed.bits + payload_bits(universe, entry.end - passed.values),
        };
    }
    Ok(passed.bits)
}

// The greatest step of a part's numbers, where it is asked for; None where its bits are those of
// none.
fn check_step(
    part: PlacedPart<'_>,
    with_steps: bool,
    base: u64,
    from: usize,
    to: &mut [u64],
) -> Option<u64>
    requires base { base < 2 ^ 62 }
    requires room { 1 ≤ length to.old → from + part.m ≤ length to.old }
    ensures room { length to.new ≡ length to.old }
    ensures some { IfSome result (λ step. (ys : List ℕ)
        × HoldsPart part_bits (bits_of part.entry.bits.words.now) part.entry.place part.entry.u
        part.entry.m ys × (with_steps ≡ true → step ≡ greatest (steps_from 0 ys))
        × (1 ≤ length to.old → take (from + part.entry.m) to.new
        ≡ take from to.old ++ map (λ y. y + base) ys)) }
    ensures none { IfNone result ((ys : List ℕ)
        → ¬ HoldsPart part_bits (bits_of part.entry.bits.words.now) part.entry.place part.entry.u
        part.entry.m ys) }
{
    if !to.is_empty() {
        let end = from + part.m as usize;
        check_part_into(part, with_steps, base, &mut to[from..end])
    } else if with_steps {
        check_part_steps(part)
    } else if check_part(part) {
        Some(0)
    } else {
        None
    }
}

// Goes through the parts of a directory whose entries stand, and answers the greatest step of their
// values where it is asked for.
fn check_parts(
    words: &[u64],
    parts: u32,
    format: Format,
    with_steps: bool,
    to: &mut [u64],
) -> Result<u64, SeqFault>
    requires words { length words.now < 2 ^ 57 }
    requires room { entry_words (numbers_of format) * parts ≤ length words.now }
    requires entries { (m bound : ℕ) × (bound ≤ (numbers_of format).most_sum)
        × (parts_fit m parts ≡ true) × (1 ≤ length to.old → length to.old ≡ m)
        × ((q : ℕ) → q < parts → entry_breaks (numbers_of format) words.now parts m bound q
        ≡ false) }
    requires within { word_behind (numbers_of format) words.now parts ≤ length words.now }
    ensures room { length to.new ≡ length to.old }
    ensures ok { OnOk result ((q : ℕ) → q < parts
        → IsPartStored (numbers_of format) words.now parts q) }
    ensures step { IfOk result (λ most. with_steps ≡ true
        → most ≡ greatest (steps_from 0 (sequence_stated (numbers_of format) words.now
        parts).values)) }
    ensures values { OnOk result (1 ≤ length to.old → to.new
        ≡ (sequence_stated (numbers_of format) words.now parts).values) }
    ensures check { IfErr result (λ f. f.check ≡ Check.K8) }
    ensures part { IfErr result (λ f. f.part < parts) }
    ensures breaks { IfErr result (λ f. ¬ IsPartStored (numbers_of format) words.now parts f.part) }
    ensures first { IfErr result (λ f. (q : ℕ) → q < f.part
        → IsPartStored (numbers_of format) words.now parts q) }
{
    formats_have_room();
    one_list_at_place();
    let mut before = 0;
    let mut past = 0;
    let mut most = 0;
    for part in 0..parts {
        let entry = entry_at(words, part, format);
        let place = directory_bits(parts, format) + entry.offset;
        let placed = PlacedPart::at(
            Bits { words },
            place,
            entry.last + 1 - past,
            entry.end - before,
        );
        let Some(step) = check_step(placed, with_steps, past, before as usize, to) else {
            return Err(SeqFault {
                check: Check::K8,
                part,
            });
        };
        most = step.max(most);
        before = entry.end;
        past = entry.last + 1;
    }
    Ok(most)
}

// Looks for a one behind the payload.
fn check_padding(words: &[u64], parts: u32, bits: u64, format: Format) -> Result<(), SeqFault>
    requires words { length words.now < 2 ^ 57 }
    requires bits { bits ≡ payload_before (numbers_of format) words.now parts }
    requires within { word_behind (numbers_of format) words.now parts ≤ length words.now }
    ensures ok { OnOk result (HasNoOne (bits_of words.now)
        (first_bit (numbers_of format) parts + payload_before (numbers_of format) words.now parts)
        (64 * word_behind (numbers_of format) words.now parts)) }
    ensures check { IfErr result (λ f. f.check ≡ Check.K9) }
    ensures part { IfErr result (λ f. f.part ≡ 0) }
    ensures breaks { IfErr result (λ f. ¬ HasNoOne (bits_of words.now)
        (first_bit (numbers_of format) parts + payload_before (numbers_of format) words.now parts)
        (64 * word_behind (numbers_of format) words.now parts)) }
{
    let from = directory_bits(parts, format) + bits;
    let end = from.div_ceil(64) * 64;
    match (Bits { words }).next_one(from, end) {
        Some(_) => Err(SeqFault {
            check: Check::K9,
            part: 0,
        }),
        None => Ok(()),
    }
}
