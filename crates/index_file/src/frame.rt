ghost use Rattle.std.specs.Prelude.{◌≡◌, ◌≤◌, ◌<◌, ◌+◌, ◌/◌, ◌^◌, length};
ghost use Rattle.part_cost.specs.Formats.{numbers_of};
ghost use Rattle.index_file.specs.FileWords.{format_read};
ghost use Rattle.index_file.specs.FirstBroken.{numbers_break, frame_broken};
ghost use Rattle.index_file.specs.ListAt.{StatesFrame};

use crate::packed_frame::PACKED_MAGIC;
use part_cost::Format;
use two_level::Check;

// The word at the beginning of a file, the bytes `PEFINDEX`.
pub(crate) const OPENING_MAGIC: u64 = 6_360_565_151_758_173_520;

// The word at the end of a file, the bytes `XEDNIFEP`.
pub(crate) const END_MAGIC: u64 = 5_784_106_577_086_924_120;

// The greatest number of lists.
pub(crate) const MOST_TERMS: u64 = 4_294_967_295;

// How many words stand before the lists.
pub(crate) const WORDS_BEFORE: u64 = 2;

// How many directory words a list has.
pub(crate) const LIST_WORDS: u64 = 4;

// How many words stand behind the directory words.
pub(crate) const WORDS_BEHIND: u64 = 4;

// The numbers at the end of the words.
#[derive(Clone, Copy)]
pub(crate) struct Frame {
    pub(crate) documents: u64,
    pub(crate) terms: u64,
    // The first word of the sizes.
    pub(crate) sizes: u64,
}

// The format in which words are read: the third where they begin as a packed file; else that of
// plain files whose version is word 1, and the first where it is the version of none.
pub(crate) fn format_of(words: &[u64]) -> Format
    ensures { result ≡ format_read words.now }
{
    if !words.is_empty() && words[0] == PACKED_MAGIC {
        Format::Three
    } else if words.len() > 1 && words[1] == Format::Two.version() {
        Format::Two
    } else {
        Format::One
    }
}

// The numbers at the end of the words.
pub(crate) fn frame_of(words: &[u64]) -> Frame
    requires some { 4 ≤ length words.now }
    ensures { StatesFrame words.now result }
{
    Frame {
        documents: words[words.len() - 4],
        terms: words[words.len() - 3],
        sizes: words[words.len() - 2],
    }
}

// The first directory word.
pub(crate) fn directory_of(frame: Frame) -> u64
    requires small { frame.sizes + (frame.documents + 1) / 2 < 2 ^ 57 }
    ensures { result ≡ frame.sizes + (frame.documents + 1) / 2 }
{
    frame.sizes + frame.documents.div_ceil(2)
}

// The check of the frame that breaks.
pub(crate) fn frame_fault(words: &[u64], format: Format) -> Option<Check>
    ensures { result ≡ frame_broken (numbers_of format) words.now }
{
    if words.len() < 6 {
        return Some(Check::K1);
    }
    if words[0] != OPENING_MAGIC {
        return Some(Check::K2);
    }
    if words[1] != format.version() {
        return Some(Check::K3);
    }
    if words[words.len() - 1] != END_MAGIC {
        return Some(Check::K4);
    }
    if numbers_break(frame_of(words), words.len() as u64, format) {
        return Some(Check::K5);
    }
    None
}

// Whether the numbers at the end of so many words can't be theirs.
pub(crate) fn numbers_break(frame: Frame, count: u64, format: Format) -> bool
    ensures { result ≡ numbers_break (numbers_of format) frame.documents frame.terms frame.sizes
        count }
{
    let stated = u128::from(frame.sizes)
        + u128::from(frame.documents).div_ceil(2)
        + u128::from(LIST_WORDS) * u128::from(frame.terms)
        + u128::from(WORDS_BEHIND);
    frame.documents > u64::from(format.most_documents())
        || frame.terms > MOST_TERMS
        || frame.sizes < WORDS_BEFORE
        || stated != u128::from(count)
}
