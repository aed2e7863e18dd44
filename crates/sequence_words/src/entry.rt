ghost use Rattle.std.specs.Prelude.{◌≡◌, ℕ, ◌≤◌, ◌<◌, ◌+◌, ◌*◌, ◌^◌, List, length, slice_index, bit_and};
ghost use Rattle.collection_model.specs.FormatNumbers.{entry_words};
ghost use Rattle.part_cost.specs.Formats.{numbers_of};
ghost use Rattle.sequence_words.specs.EntryWords.{last_at};
ghost use Rattle.sequence_words.specs.SequenceFault.{stated_last, stated_end, stated_offset, first_bit};

use part_cost::Format;

// In the third format an end has its low 16 bits beside the last value, and the others beside the
// payload bits: above the 48 bits of these.
pub(crate) const ENDS_BESIDE: u64 = 1 << 16;

pub(crate) const BESIDE_UNIT: u64 = 1 << 48;

/// An entry of a directory: the last value of its part, the place behind it, and the payload bits
/// before it.
#[derive(Clone, Copy)]
pub struct Entry {
    pub last: u64,
    pub end: u64,
    pub offset: u64,
}

// How many words the entries of so many parts take.
pub(crate) fn directory_words(parts: u32, format: Format) -> u64
    ensures words { result ≡ entry_words (numbers_of format) * parts }
    ensures few { result < 2 ^ 34 }
{
    format.entry_words() * parts as u64
}

/// How many bits the entries of so many parts take.
pub fn directory_bits(parts: u32, format: Format) -> u64
    ensures bits { result ≡ first_bit (numbers_of format) parts }
    ensures few { result < 2 ^ 40 }
{
    format.charge() * parts as u64
}

/// The entry of a part.
pub fn entry_at(words: &[u64], part: u32, format: Format) -> Entry
    requires within { entry_words (numbers_of format) * part + entry_words (numbers_of format)
        ≤ length words.now }
    ensures last { result.last ≡ stated_last (numbers_of format) words.now part }
    ensures end { result.end ≡ stated_end (numbers_of format) words.now part }
    ensures offset { result.offset ≡ stated_offset (numbers_of format) words.now part }
{
    let at = directory_words(part, format) as usize;
    match format {
        Format::One => Entry {
            last: words[at] % format.most_sum(),
            end: words[at] / format.most_sum(),
            offset: words[at + 1],
        },
        Format::Two => Entry {
            last: words[at],
            end: words[at + 1],
            offset: words[at + 2],
        },
        Format::Three => Entry {
            last: words[at] % BESIDE_UNIT,
            end: words[at] / BESIDE_UNIT + ENDS_BESIDE * (words[at + 1] / BESIDE_UNIT),
            offset: words[at + 1] % BESIDE_UNIT,
        },
    }
}

// The bits of the first word of an entry that are those of its last value.
fn last_bits(format: Format) -> u64
    ensures { (words : List ℕ) (p : ℕ) → slice_index words p < 2 ^ 64
        → bit_and (slice_index words p) result ≡ last_at (numbers_of format) words p }
{
    match format {
        Format::One => (1 << 36) - 1,
        Format::Two => u64::MAX,
        Format::Three => BESIDE_UNIT - 1,
    }
}

/// The last value of the entry of a part. It tests no format, so that a gallop tests it once.
pub fn entry_last(words: &[u64], part: u32, format: Format) -> u64
    requires within { entry_words (numbers_of format) * part + entry_words (numbers_of format)
        ≤ length words.now }
    ensures { result ≡ stated_last (numbers_of format) words.now part }
{
    let at = directory_words(part, format) as usize;
    words[at] & last_bits(format)
}
