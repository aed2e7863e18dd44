ghost use Rattle.std.specs.Prelude.{◌≡◌, ◌<◌, ◌+◌, ◌^◌, List, length, None, IfOk, IfErr, IfSome, OnOk};
ghost use Rattle.collection_model.specs.Collection.{Collection};
ghost use Rattle.part_cost.specs.declared.formats.Format.{Format};
ghost use Rattle.part_cost.specs.Formats.{numbers_of};
ghost use Rattle.index_file.specs.FileWords.{CutList, lists_words, IsPlainIn, IsIndex};
ghost use Rattle.index_file.specs.FirstBroken.{stated_terms, IsFilePrefix, IsClosingFault, IsFirstBrokenPlain, IsFirstBroken};
ghost use Rattle.index_file.specs.PackedAt.{packed_terms, AreListsOf, HasPackedFrame};
ghost use Rattle.index_file.specs.ListAt.{HasFrame, StatesFrame, IsFirstListFault, PassesClosing};

use crate::fault::OpenFault;
use crate::frame::{Frame, WORDS_BEFORE, directory_of, format_of, frame_fault, frame_of};
use crate::laws::{file_laws, sequence_laws};
use crate::lists::{HALF, check_list};
use crate::packed_checking::check_packed;
use packed_list::ListSink;
use part_cost::Format;
use two_level::Check;

// Looks for the first check of the lists that breaks, and answers the word behind their sequences.
fn check_lists(words: &[u64], frame: Frame, format: Format) -> Result<u64, OpenFault>
    requires words { length words.now < 2 ^ 57 }
    requires frame { HasFrame (numbers_of format) words.now }
    requires numbers { StatesFrame words.now frame }
    ensures ok { IfOk result (λ p. (cs : List CutList)
        × IsFilePrefix (numbers_of format) words.now cs × (length cs ≡ stated_terms words.now)
        × (p ≡ 2 + length (lists_words (numbers_of format) cs))) }
    ensures first { IfErr result (λ f. IsFirstListFault (numbers_of format) words.now f) }
{
    sequence_laws();
    let terms = frame.terms as u32;
    let mut p = WORDS_BEFORE;
    for t in 0..terms {
        p = check_list(words, frame, t, p, format)?;
    }
    Ok(p)
}

// The check behind all lists that breaks, where p is the next word.
fn closing_fault(words: &[u64], frame: Frame, p: u64) -> Option<OpenFault>
    requires words { length words.now < 2 ^ 57 }
    requires frame { (format : Format) × HasFrame (numbers_of format) words.now }
    requires numbers { StatesFrame words.now frame }
    ensures some { IfSome result (λ f. IsClosingFault words.now p f) }
    ensures none { result ≡ None → PassesClosing words.now p }
{
    if p != frame.sizes {
        return Some(OpenFault {
            check: Check::K6,
            term: frame.terms as u32,
            part: 0,
        });
    }
    let is_odd = frame.documents % 2 == 1;
    if is_odd && words[directory_of(frame) as usize - 1] / HALF != 0 {
        return Some(OpenFault {
            check: Check::K11,
            term: 0,
            part: 0,
        });
    }
    None
}

// Looks for the first check that breaks of words that are read as a plain file.
fn check_plain(words: &[u64], format: Format) -> Result<(), OpenFault>
    requires words { length words.now < 2 ^ 57 }
    ensures ok { OnOk result (IsPlainIn (numbers_of format) words.now) }
    ensures first { IfErr result (λ f. IsFirstBrokenPlain (numbers_of format) words.now f) }
{
    if let Some(check) = frame_fault(words, format) {
        return Err(OpenFault {
            check,
            term: 0,
            part: 0,
        });
    }
    let frame = frame_of(words);
    let p = check_lists(words, frame, format)?;
    match closing_fault(words, frame, p) {
        Some(fault) => Err(fault),
        None => Ok(()),
    }
}

// Looks for the first check of the words that breaks. The lists of a packed file are given.
pub(crate) fn check_file<L: ListSink>(words: &[u64], lists: &mut L) -> Result<(), OpenFault>
    requires words { length words.now < 2 ^ 57 }
    ensures ok { OnOk result (IsIndex words.now) }
    ensures first { IfErr result (λ f. IsFirstBroken words.now f) }
    ensures took { OnOk result (HasPackedFrame words.now → (c : Collection)
        → AreListsOf words.now c → L.took lists.old c 0
        → L.took lists.new c (packed_terms words.now)) }
{
    file_laws();
    match format_of(words) {
        Format::One => check_plain(words, Format::One),
        Format::Two => check_plain(words, Format::Two),
        Format::Three => check_packed(words, lists),
    }
}
