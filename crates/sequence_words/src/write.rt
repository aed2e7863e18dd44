ghost use Rattle.std.specs.Prelude.{◌≡◌, ◌+◌, ◌<◌, ◌≤◌, ◌^◌, ◌++◌, length, OnOk, OnErr};
ghost use Rattle.std.specs.List.{All};
ghost use Rattle.std.specs.List.Sorted.{IsStrictlyIncreasing};
ghost use Rattle.bit_words.specs.Bits.{words_of, AppendsBits};
ghost use Rattle.part_cost.specs.Formats.{numbers_of};
ghost use Rattle.part_cost.specs.Payload.{widest_low};
ghost use Rattle.part_cost.specs.Partition.{IsPartition};
ghost use Rattle.part_cost.specs.Span.{past, universe, relative_values};
ghost use Rattle.sequence_words.specs.EntryWords.{entry};
ghost use Rattle.sequence_words.specs.EntryFacts.{most_offset};
ghost use Rattle.sequence_words.specs.SequenceWords.{directory_from, payload_from, sequence_words, Extends};

use crate::entry::{BESIDE_UNIT, ENDS_BESIDE, Entry};
use bit_words::BitWriter;
use no_memory::NoMemory;
use part_codec::{part_takes_its_payload, write_part};
use part_cost::{Format, formats_have_room, part_is_relative, parts_are_short, payload_bits};
use std::alloc::Global;
use std::mem;

/// Appends the words of a sequence in parts: its directory, and then the payload of its parts from
/// a fresh word on. A refusal leaves the words as they were.
pub fn write_seq(
    alloc: Global,
    values: &[u64],
    ends: &[u64],
    format: Format,
    to: &mut Vec<u64>,
) -> Result<(), NoMemory>
    requires rising { IsStrictlyIncreasing values.now }
    requires below { All (λ x. x < (numbers_of format).most_sum) values.now }
    requires few { length values.now ≤ (numbers_of format).most_documents }
    requires partition { IsPartition (length values.now) ends.now }
    ensures ok { OnOk result (to.new.items ≡ to.old.items
        ++ sequence_words (numbers_of format) values.now ends.now) }
    ensures err { OnErr result (to.new.items ≡ to.old.items) }
{
    let first = to.len();
    let written = append_seq(alloc, values, ends, format, to);
    if written.is_err() {
        to.truncate(first);
    }
    written
}

// More words than any memory holds, and so few that the bits of a sequence behind them can be
// counted.
const MOST_WORDS: u64 = 1 << 56;

// Appends the words of a sequence. A refusal may leave some words behind those that were there.
fn append_seq(
    alloc: Global,
    values: &[u64],
    ends: &[u64],
    format: Format,
    to: &mut Vec<u64>,
) -> Result<(), NoMemory>
    requires rising { IsStrictlyIncreasing values.now }
    requires below { All (λ x. x < (numbers_of format).most_sum) values.now }
    requires few { length values.now ≤ (numbers_of format).most_documents }
    requires partition { IsPartition (length values.now) ends.now }
    ensures ok { OnOk result (to.new.items ≡ to.old.items
        ++ sequence_words (numbers_of format) values.now ends.now) }
    ensures err { OnErr result (Extends to.old.items to.new.items) }
{
    formats_have_room();
    push_directory(values, ends, format, to)?;
    if to.len() as u64 > MOST_WORDS {
        return Err(NoMemory);
    }
    push_payload(alloc, values, ends, to)
}

// Appends the words of an entry, by the shape that it has in the format.
fn push_entry(words: &mut Vec<u64>, part: Entry, format: Format) -> Result<(), NoMemory>
    requires last { part.last < (numbers_of format).most_sum }
    requires end { part.end ≤ (numbers_of format).most_documents }
    requires offset { part.offset < most_offset }
    ensures ok { OnOk result (words.new.items
        ≡ words.old.items ++ entry (numbers_of format) part.last part.end part.offset) }
    ensures err { OnErr result (Extends words.old.items words.new.items) }
{
    match format {
        Format::One => {
            let last_and_end = part.last + format.most_sum() * part.end;
            words.extend_from_slice(&[last_and_end, part.offset])?;
        }
        Format::Two => words.extend_from_slice(&[part.last, part.end, part.offset])?,
        Format::Three => {
            let last_and_low = part.last + BESIDE_UNIT * (part.end % ENDS_BESIDE);
            let offset_and_high = part.offset + BESIDE_UNIT * (part.end / ENDS_BESIDE);
            words.extend_from_slice(&[last_and_low, offset_and_high])?;
        }
    }
    Ok(())
}

// One more than the value before a place, 0 at the start.
fn past_value(values: &[u64], place: u64) -> u64
    requires below { All (λ x. x < 2 ^ widest_low) values.now }
    requires within { place ≤ length values.now }
    ensures { result ≡ past values.now place }
{
    if place == 0 {
        0
    } else {
        values[place as usize - 1] + 1
    }
}

// How far the last value of a part lies past the value before it.
fn universe_of_part(values: &[u64], from: u64, end: u64) -> u64
    requires rising { IsStrictlyIncreasing values.now }
    requires below { All (λ x. x < 2 ^ widest_low) values.now }
    requires some { from < end }
    requires within { end ≤ length values.now }
    ensures { result ≡ universe values.now from end }
{
    part_is_relative();
    past_value(values, end) - past_value(values, from)
}

// Puts the values of a part, counted from the first place past the value before it, in place of
// what was there.
fn fill_part(values: &[u64], from: u64, end: u64, part: &mut Vec<u64>) -> Result<(), NoMemory>
    requires rising { IsStrictlyIncreasing values.now }
    requires below { All (λ x. x < 2 ^ widest_low) values.now }
    requires some { from < end }
    requires within { end ≤ length values.now }
    ensures { OnOk result (part.new.items ≡ relative_values values.now from end) }
{
    part_is_relative();
    let past = past_value(values, from);
    part.clear();
    for value in &values[from as usize..end as usize] {
        part.push(*value - past)?;
    }
    Ok(())
}

// Appends the entries of the parts.
fn push_directory(
    values: &[u64],
    ends: &[u64],
    format: Format,
    to: &mut Vec<u64>,
) -> Result<(), NoMemory>
    requires rising { IsStrictlyIncreasing values.now }
    requires below { All (λ x. x < (numbers_of format).most_sum) values.now }
    requires few { length values.now ≤ (numbers_of format).most_documents }
    requires partition { IsPartition (length values.now) ends.now }
    ensures ok { OnOk result (to.new.items ≡ to.old.items
        ++ directory_from (numbers_of format) values.now 0 0 ends.now) }
    ensures err { OnErr result (Extends to.old.items to.new.items) }
{
    formats_have_room();
    part_is_relative();
    parts_are_short();
    let mut from = 0;
    let mut offset = 0;
    for end in ends {
        let universe = universe_of_part(values, from, *end);
        let last = past_value(values, *end) - 1;
        push_entry(
            to,
            Entry {
                last,
                end: *end,
                offset,
            },
            format,
        )?;
        offset += payload_bits(universe, *end - from);
        from = *end;
    }
    Ok(())
}

// Appends the words of the payload of the parts. Its bits are written where the words stand.
fn push_payload(
    alloc: Global,
    values: &[u64],
    ends: &[u64],
    to: &mut Vec<u64>,
) -> Result<(), NoMemory>
    requires rising { IsStrictlyIncreasing values.now }
    requires below { All (λ x. x < 2 ^ widest_low) values.now }
    requires partition { IsPartition (length values.now) ends.now }
    requires room { length to.old.items ≤ 2 ^ 56 }
    ensures ok { OnOk result (to.new.items ≡ to.old.items
        ++ words_of (payload_from values.now 0 ends.now)) }
    ensures err { OnErr result (Extends to.old.items to.new.items) }
{
    parts_are_short();
    part_takes_its_payload();
    part_is_relative();
    let mut bits = BitWriter::after(mem::replace(to, Vec::new(alloc)));
    let written = write_parts(alloc, values, ends, &mut bits);
    *to = bits.into_words();
    written
}

// Appends the payload of the parts. A refusal leaves a prefix of it.
fn write_parts(
    alloc: Global,
    values: &[u64],
    ends: &[u64],
    bits: &mut BitWriter,
) -> Result<(), NoMemory>
    requires rising { IsStrictlyIncreasing values.now }
    requires below { All (λ x. x < 2 ^ widest_low) values.now }
    requires partition { IsPartition (length values.now) ends.now }
    requires room { length bits.old + length (payload_from values.now 0 ends.now) < 2 ^ 63 }
    ensures ok { OnOk result (bits.new ≡ bits.old ++ payload_from values.now 0 ends.now) }
    ensures err { OnErr result (AppendsBits bits.old bits.new
        (payload_from values.now 0 ends.now)) }
{
    part_is_relative();
    let mut part = Vec::new(alloc);
    let mut from = 0;
    for end in ends {
        fill_part(values, from, *end, &mut part)?;
        write_part(part.as_slice(), universe_of_part(values, from, *end), bits)?;
        from = *end;
    }
    Ok(())
}
