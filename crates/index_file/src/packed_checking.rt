ghost use Rattle.std.specs.Prelude.{◌≡◌, ℕ, ◌≤◌, ◌<◌, ◌+◌, ◌*◌, ◌^◌, ◌↔◌, ◌-◌, IsTrue, List, length, slice_index, IfOk, OnOk, IfErr, IfSome, None};
ghost use Rattle.bit_words.specs.Bits.{bits_of, HasNoOne};
ghost use Rattle.collection_model.specs.Collection.{Collection};
ghost use Rattle.part_cost.specs.Payload.{payload};
ghost use Rattle.index_file.specs.PackedAt.{packed_terms, packed_bits, packed_directory, starts_universe, starts_stated, AreStarts, HasStarts, IsListStored, HasPackedFrame, AreListsOf, AreListsStored, PassesPackedClosing, PassesPacked};
ghost use Rattle.index_file.specs.PackedFaults.{IsPackedClosingFault, IsFirstBrokenPacked, StatesPackedFrame, IsFirstPackedListFault};

use crate::fault::OpenFault;
use crate::frame::WORDS_BEHIND;
use crate::gaps::go_to_gap;
use crate::lists::HALF;
use crate::packed_frame::{
    PackedFrame, WORD_BITS, packed_directory_of, packed_frame_fault, packed_frame_of,
    packed_sizes_of,
};
use crate::run::{BLOCK, Run};
use bit_words::Bits;
use packed_list::{ListSink, check_list_into};
use part_codec::{PartView, check_part, one_list_at_place};
use part_cost::{PlacedPart, payload_bits};
use two_level::Check;

/// The bit of the words of a packed file at which its first list begins.
pub const FIRST_LIST_BIT: u64 = 128;

// The directory of a packed file: the part of the places where its lists begin and the last ends.
pub(crate) fn starts_part<'a>(words: &'a [u64], frame: PackedFrame) -> PlacedPart<'a>
    requires words { length words.now < 2 ^ 57 }
    requires frame { HasPackedFrame words.now }
    requires numbers { StatesPackedFrame words.now frame }
    ensures bits { result.bits.words.now ≡ words.entry.now }
    ensures place { result.place ≡ 64 * packed_directory words.entry.now }
    ensures u { result.u ≡ starts_universe (packed_bits words.entry.now)
        (packed_terms words.entry.now) }
    ensures m { result.m ≡ packed_terms words.entry.now + 1 }
{
    PlacedPart::at(
        Bits { words },
        WORD_BITS * packed_directory_of(frame),
        frame.bits + frame.terms + 1,
        frame.terms + 1,
    )
}

// Whether the bits of the directory are those of some places.
fn starts_stand(words: &[u64], frame: PackedFrame) -> bool
    requires words { length words.now < 2 ^ 57 }
    requires frame { HasPackedFrame words.now }
    requires numbers { StatesPackedFrame words.now frame }
    ensures { IsTrue result ↔ ((ys : List ℕ) × AreStarts words.now ys) }
{
    check_part(starts_part(words, frame))
}

// The first of the places.
fn first_start(words: &[u64], frame: PackedFrame) -> u64
    requires words { length words.now < 2 ^ 57 }
    requires frame { HasPackedFrame words.now }
    requires numbers { StatesPackedFrame words.now frame }
    requires stand { (ys : List ℕ) × AreStarts words.now ys }
    ensures { (ys : List ℕ) → AreStarts words.now ys → result ≡ slice_index ys 0 }
{
    let starts = PartView::at(starts_part(words, frame));
    starts.first()
}

// Whether zeros stand behind the directory up to the end of its last word.
fn starts_filled(words: &[u64], frame: PackedFrame) -> bool
    requires words { length words.now < 2 ^ 57 }
    requires frame { HasPackedFrame words.now }
    requires numbers { StatesPackedFrame words.now frame }
    ensures { IsTrue result ↔ HasNoOne (bits_of words.now)
        (64 * packed_directory words.now + payload
        (starts_universe (packed_bits words.now) (packed_terms words.now))
        (packed_terms words.now + 1)) (64 * (length words.now - 4)) }
{
    let taken = payload_bits(frame.bits + frame.terms + 1, frame.terms + 1);
    let from = WORD_BITS * packed_directory_of(frame) + taken;
    let to = WORD_BITS * (words.len() as u64 - WORDS_BEHIND);
    match (Bits { words }).next_one(from, to) {
        None => true,
        Some(_) => false,
    }
}

// Whether the directory is one.
fn has_starts(words: &[u64], frame: PackedFrame) -> bool
    requires words { length words.now < 2 ^ 57 }
    requires frame { HasPackedFrame words.now }
    requires numbers { StatesPackedFrame words.now frame }
    ensures { IsTrue result ↔ HasStarts words.now }
{
    if !starts_stand(words, frame) {
        return false;
    }
    if first_start(words, frame) != 0 {
        return false;
    }
    starts_filled(words, frame)
}

// Looks whether the bits of list t are those of some list, where these are its number of the
// directory and the next. The list is given.
fn check_packed_list<L: ListSink>(
    words: &[u64],
    frame: PackedFrame,
    t: u32,
    number: u64,
    next: u64,
    lists: &mut L,
) -> Result<(), OpenFault>
    requires words { length words.now < 2 ^ 57 }
    requires frame { HasPackedFrame words.now }
    requires numbers { StatesPackedFrame words.now frame }
    requires starts { HasStarts words.now }
    requires within { t < packed_terms words.now }
    requires number { number ≡ slice_index (starts_stated words.now) t }
    requires next { next ≡ slice_index (starts_stated words.now) (t + 1) }
    ensures ok { OnOk result (IsListStored words.now t) }
    ensures err { IfErr result (λ f. (¬ IsListStored words.now t)
        × (f ≡ record { check = Check.K13; term = t; part = 0 })) }
    ensures took { OnOk result ((c : Collection) → AreListsOf words.now c → L.took lists.old c t
        → L.took lists.new c (t + 1)) }
{
    one_list_at_place();
    let from = FIRST_LIST_BIT + number - t as u64;
    let to = FIRST_LIST_BIT + next - 1 - t as u64;
    if check_list_into(words, from, to, t, frame.documents as u32, lists) {
        Ok(())
    } else {
        Err(OpenFault {
            check: Check::K13,
            term: t,
            part: 0,
        })
    }
}

// Looks for the first list of a packed file that is none, and gives those before it. It is linear in the words: where there
// are list bits the directory has a bit for each list, and else it looks at none.
fn check_packed_lists<L: ListSink>(
    words: &[u64],
    frame: PackedFrame,
    lists: &mut L,
) -> Result<(), OpenFault>
    requires words { length words.now < 2 ^ 57 }
    requires frame { HasPackedFrame words.now }
    requires numbers { StatesPackedFrame words.now frame }
    requires starts { HasStarts words.now }
    ensures ok { OnOk result (AreListsStored words.now (packed_terms words.now)) }
    ensures first { IfErr result (λ f. IsFirstPackedListFault words.now f) }
    ensures took { OnOk result ((c : Collection) → AreListsOf words.now c → L.took lists.old c 0
        → L.took lists.new c (packed_terms words.now)) }
{
    one_list_at_place();
    // All lists are without postings.
    if frame.bits == 0 {
        return Ok(());
    }
    let starts = PartView::at(starts_part(words, frame));
    let terms = frame.terms as u32;
    let mut numbers = [0; BLOCK];
    let start = Run {
        first: 0,
        at: 0,
        count: 1,
        marks: 0,
    };
    // Lists without postings take no bits: they are passed by looking at the numbers alone.
    let mut run = go_to_gap(&starts, terms, start, &mut numbers);
    while run.first + (run.at as u32) < terms {
        let t = run.first + run.at as u32;
        let number = numbers[run.at];
        check_packed_list(words, frame, t, number, numbers[run.at + 1], lists)?;
        let behind = Run {
            at: run.at + 1,
            ..run
        };
        run = go_to_gap(&starts, terms, behind, &mut numbers);
    }
    Ok(())
}

// The check behind all lists that breaks.
fn packed_closing_fault(words: &[u64], frame: PackedFrame) -> Option<OpenFault>
    requires words { length words.now < 2 ^ 57 }
    requires frame { HasPackedFrame words.now }
    requires numbers { StatesPackedFrame words.now frame }
    ensures some { IfSome result (λ f. IsPackedClosingFault words.now f) }
    ensures none { result ≡ None → PassesPackedClosing words.now }
{
    let behind = FIRST_LIST_BIT + frame.bits;
    let to = WORD_BITS * packed_sizes_of(frame);
    if let Some(_) = (Bits { words }).next_one(behind, to) {
        return Some(OpenFault {
            check: Check::K9,
            term: frame.terms as u32,
            part: 0,
        });
    }
    let is_odd = frame.documents % 2 == 1;
    if is_odd && words[packed_directory_of(frame) as usize - 1] / HALF != 0 {
        return Some(OpenFault {
            check: Check::K11,
            term: 0,
            part: 0,
        });
    }
    None
}

// Looks for the first check of a packed file that breaks. Its lists are given.
pub(crate) fn check_packed<L: ListSink>(words: &[u64], lists: &mut L) -> Result<(), OpenFault>
    requires words { length words.now < 2 ^ 57 }
    ensures ok { OnOk result (PassesPacked words.now) }
    ensures first { IfErr result (λ f. IsFirstBrokenPacked words.now f) }
    ensures took { OnOk result ((c : Collection) → AreListsOf words.now c → L.took lists.old c 0
        → L.took lists.new c (packed_terms words.now)) }
{
    if let Some(check) = packed_frame_fault(words) {
        return Err(OpenFault {
            check,
            term: 0,
            part: 0,
        });
    }
    let frame = packed_frame_of(words);
    if !has_starts(words, frame) {
        return Err(OpenFault {
            check: Check::K12,
            term: 0,
            part: 0,
        });
    }
    check_packed_lists(words, frame, lists)?;
    match packed_closing_fault(words, frame) {
        Some(fault) => Err(fault),
        None => Ok(()),
    }
}
