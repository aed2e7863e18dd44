ghost use Rattle.std.specs.Prelude.{◌≡◌, ◌≤◌, ◌<◌, ◌+◌, ◌/◌, ◌^◌, length};
ghost use Rattle.collection_model.specs.FormatNumbers.{format_three, most_terms};
ghost use Rattle.part_cost.specs.Payload.{widest_low};
ghost use Rattle.index_file.specs.PackedWords.{most_list_bits};
ghost use Rattle.index_file.specs.PackedAt.{packed_count};
ghost use Rattle.index_file.specs.PackedFaults.{packed_numbers_break, packed_frame_broken, StatesPackedFrame};

use crate::frame::{MOST_TERMS, WORDS_BEFORE, WORDS_BEHIND};
use part_cost::{Format, payload_bits};
use two_level::Check;

// The word at the beginning of a packed file, the bytes `PEFPACKD`.
pub(crate) const PACKED_MAGIC: u64 = 4_921_100_965_631_116_624;

// The word at its end, the bytes `DKCAPFEP`.
pub(crate) const PACKED_END: u64 = 5_784_106_606_933_527_364;

// The most bits of all lists.
pub(crate) const MOST_LIST_BITS: u64 = 1 << 43;

// The bits of a word.
pub(crate) const WORD_BITS: u64 = 64;

// The numbers at the end of the words of a packed file.
#[derive(Clone, Copy)]
pub(crate) struct PackedFrame {
    pub(crate) documents: u64,
    pub(crate) terms: u64,
    // How many bits all lists take.
    pub(crate) bits: u64,
}

// The numbers at the end of the words.
pub(crate) fn packed_frame_of(words: &[u64]) -> PackedFrame
    requires some { 4 ≤ length words.now }
    ensures { StatesPackedFrame words.now result }
{
    PackedFrame {
        documents: words[words.len() - 4],
        terms: words[words.len() - 3],
        bits: words[words.len() - 2],
    }
}

// The first word of the sizes.
pub(crate) fn packed_sizes_of(frame: PackedFrame) -> u64
    requires bits { frame.bits ≤ 2 ^ widest_low }
    ensures { result ≡ 2 + (frame.bits + 63) / 64 }
{
    WORDS_BEFORE + frame.bits.div_ceil(WORD_BITS)
}

// The first word of the directory.
pub(crate) fn packed_directory_of(frame: PackedFrame) -> u64
    requires documents { frame.documents ≤ format_three.most_documents }
    requires bits { frame.bits ≤ 2 ^ widest_low }
    ensures { result ≡ 2 + (frame.bits + 63) / 64 + (frame.documents + 1) / 2 }
{
    packed_sizes_of(frame) + frame.documents.div_ceil(2)
}

// How many words a packed file has.
pub(crate) fn count_of(frame: PackedFrame) -> u64
    requires documents { frame.documents ≤ format_three.most_documents }
    requires terms { frame.terms ≤ most_terms }
    requires bits { frame.bits + frame.terms + 1 ≤ 2 ^ widest_low }
    ensures { result ≡ packed_count frame.documents frame.terms frame.bits }
{
    let directory = payload_bits(frame.bits + frame.terms + 1, frame.terms + 1);
    packed_directory_of(frame) + directory.div_ceil(WORD_BITS) + WORDS_BEHIND
}

// Whether the numbers at the end of so many words can't be theirs.
fn packed_numbers_break(frame: PackedFrame, count: u64) -> bool
    ensures { result ≡ packed_numbers_break frame.documents frame.terms frame.bits count }
{
    frame.documents > u64::from(Format::Three.most_documents())
        || frame.terms > MOST_TERMS
        || frame.bits > MOST_LIST_BITS
        || count_of(frame) != count
}

// The check of the frame of a packed file that breaks.
pub(crate) fn packed_frame_fault(words: &[u64]) -> Option<Check>
    ensures { result ≡ packed_frame_broken words.now }
{
    if words.len() < 6 {
        return Some(Check::K1);
    }
    if words[0] != PACKED_MAGIC {
        return Some(Check::K2);
    }
    if words[1] != Format::Three.version() {
        return Some(Check::K3);
    }
    if words[words.len() - 1] != PACKED_END {
        return Some(Check::K4);
    }
    if packed_numbers_break(packed_frame_of(words), words.len() as u64) {
        return Some(Check::K5);
    }
    None
}
