ghost use Rattle.std.specs.Prelude.{◌≡◌, ◌≤◌, ◌<◌, ◌+◌, [], ◌++◌, length, codes, Err};
ghost use Rattle.std.specs.List.{sum_by};
ghost use Rattle.arrayvec.specs.ArrayVec.{array_vec_len};
ghost use Rattle.io_traits.specs.Helpers.{WritesAll};
ghost use Rattle.outcomes.specs.ErrLines.{check_text, map_rule_text, rule_text, seg_rule_text, side_check_text, slot_text};
ghost use Rattle.outcomes.specs.Outcome.{line_of};
ghost use Rattle.outcomes.specs.Private.ErrPieces.{most_of, with_piece, with_pieces};

use self::Piece::{Number, Text};
use crate::stop::Stop;
use arrayvec::ArrayVec;
use block_max::SideCheck;
use collection_reader::Rule;
use io_traits::{IoFail, Sink, Slot, write_all_own};
use itoa::Buffer;
use remap::MapRule;
use segments::SegRule;
use two_level::Check;

// The line of words that are no command, without its newline.
const USAGE: &[u8] =
    b"usage: pefidx build BASE INDEX [--format FORMAT] | query INDEX [--plan PLAN] | answer BASE [--plan PLAN] | inspect INDEX | generate SEED N T | migrate OLD NEW | audit INDEX | blocks INDEX SIDE | bquery INDEX SIDE | remap BASE MAP NEW | segments INDEX.. [--plan PLAN] | pack BASE NEW | repack OLD NEW | export INDEX BASE | iquery INDEX | merge INDEX.. NEW";

// The most bytes of a line: that of usage has 355, and all others have fewer than 100.
const LINE_ROOM: usize = 355;

// A line that is put together on the stack.
type Line = ArrayVec<u8, LINE_ROOM>;

// A piece of a line: a text, or a number behind its label.
#[derive(Clone, Copy)]
enum Piece<'a> {
    Text(&'a [u8]),
    Number(&'static [u8], u64),
}

/// Writes the line of a run that stopped, without memory. All of it is given to err at once, and
/// again what err did not take.
pub fn write_line<E: Sink>(err: &mut E, stop: Stop) -> Result<(), IoFail>
    ensures { WritesAll (E.state err.old) (E.state err.new) (line_of (Err stop))
        result }
{
    let line = spelled(stop);
    write_all_own(err, line.as_slice())
}

// The line of a run that stopped.
fn spelled(stop: Stop) -> Line
    ensures { result.items ≡ line_of (Err stop) }
{
    match stop {
        Stop::Usage => line_of_pieces(&[Text(USAGE)]),
        Stop::BrokenCollection(fault) => line_of_pieces(&[
            Text(b"collection "),
            Text(rule_name(fault.rule)),
            Text(b" "),
            Text(slot_name(fault.file)),
            Number(b" term ", u64::from(fault.term)),
            Number(b" place ", u64::from(fault.place)),
        ]),
        Stop::BrokenIndex(fault) => line_of_pieces(&[
            Text(b"index "),
            Text(check_name(fault.check)),
            Number(b" term ", u64::from(fault.term)),
            Number(b" part ", fault.part),
        ]),
        Stop::BrokenSide(fault) => line_of_pieces(&[
            Text(b"side "),
            Text(side_check_name(fault.check)),
            Number(b" term ", u64::from(fault.term)),
            Number(b" part ", u64::from(fault.part)),
        ]),
        Stop::BrokenMap(fault) => line_of_pieces(&[
            Text(b"map "),
            Text(map_rule_name(fault.rule)),
            Number(b" place ", u64::from(fault.place)),
        ]),
        Stop::BrokenSegment(fault, s) => line_of_pieces(&[
            Text(b"index "),
            Text(check_name(fault.check)),
            Number(b" term ", u64::from(fault.term)),
            Number(b" part ", fault.part),
            Number(b" segment ", s),
        ]),
        Stop::UnfitSegment(rule, s) => line_of_pieces(&[
            Text(b"segments "),
            Text(seg_rule_name(rule)),
            Number(b" segment ", s),
        ]),
        Stop::FileFault(slot) => line_of_pieces(&[Text(b"read fault: "), Text(slot_name(slot))]),
        Stop::InputFault => line_of_pieces(&[Text(b"read fault: input")]),
        Stop::WriteFault(slot) => line_of_pieces(&[Text(b"write fault: "), Text(slot_name(slot))]),
        Stop::OutFault => line_of_pieces(&[Text(b"write fault: out")]),
        Stop::NoMemory => line_of_pieces(&[Text(b"no memory")]),
        Stop::TooLarge(slot) => line_of_pieces(&[Text(b"too large: "), Text(slot_name(slot))]),
        Stop::InputTooLarge => line_of_pieces(&[Text(b"too large: input")]),
    }
}

// Pieces, one after the other, and a newline.
fn line_of_pieces(pieces: &[Piece]) -> Line
    requires { sum_by most_of pieces.now < LINE_ROOM }
    ensures { result.items ≡ with_pieces [] pieces.now ++ codes "\n" }
{
    let mut line = Line::new();
    for piece in pieces {
        append_piece(&mut line, *piece);
    }
    append(&mut line, b"\n");
    line
}

// Appends a piece for which there is room.
fn append_piece(line: &mut Line, piece: Piece)
    requires { array_vec_len line.old + most_of piece < LINE_ROOM }
    ensures text { line.new.items ≡ with_piece line.old.items piece.entry }
    ensures room { array_vec_len line.new ≤ array_vec_len line.old + most_of piece.entry }
{
    match piece {
        Text(text) => append(line, text),
        Number(label, n) => {
            append(line, label);
            append(line, Buffer::new().format(n).as_bytes());
        }
    }
}

// Appends bytes for which there is room.
fn append(line: &mut Line, bytes: &[u8])
    requires { array_vec_len line.old + length bytes.now ≤ LINE_ROOM }
    ensures { line.new.items ≡ line.old.items ++ bytes.now }
{
    if line.try_extend_from_slice(bytes).is_err() {
        unreachable!();
    }
}

fn rule_name(rule: Rule) -> &'static [u8]
    ensures name { result.now ≡ rule_text rule }
    ensures short { length result.now ≤ 3 }
{
    match rule {
        Rule::C1 => b"C1",
        Rule::C2 => b"C2",
        Rule::C3 => b"C3",
        Rule::C4 => b"C4",
        Rule::C5 => b"C5",
        Rule::C6 => b"C6",
        Rule::C7 => b"C7",
        Rule::C8 => b"C8",
        Rule::C9 => b"C9",
        Rule::C10 => b"C10",
        Rule::C11 => b"C11",
        Rule::C12 => b"C12",
    }
}

fn map_rule_name(rule: MapRule) -> &'static [u8]
    ensures name { result.now ≡ map_rule_text rule }
    ensures short { length result.now ≤ 2 }
{
    match rule {
        MapRule::M1 => b"M1",
        MapRule::M2 => b"M2",
        MapRule::M3 => b"M3",
        MapRule::M4 => b"M4",
        MapRule::M5 => b"M5",
    }
}

fn seg_rule_name(rule: SegRule) -> &'static [u8]
    ensures name { result.now ≡ seg_rule_text rule }
    ensures short { length result.now ≤ 2 }
{
    match rule {
        SegRule::G1 => b"G1",
        SegRule::G2 => b"G2",
        SegRule::G3 => b"G3",
    }
}

fn slot_name(slot: Slot) -> &'static [u8]
    ensures name { result.now ≡ slot_text slot }
    ensures short { length result.now ≤ 5 }
{
    match slot {
        Slot::Docs => b"docs",
        Slot::Freqs => b"freqs",
        Slot::Sizes => b"sizes",
        Slot::Index => b"index",
        Slot::Side => b"side",
        Slot::Map => b"map",
    }
}

fn check_name(check: Check) -> &'static [u8]
    ensures name { result.now ≡ check_text check }
    ensures short { length result.now ≤ 3 }
{
    match check {
        Check::K1 => b"K1",
        Check::K2 => b"K2",
        Check::K3 => b"K3",
        Check::K4 => b"K4",
        Check::K5 => b"K5",
        Check::K6 => b"K6",
        Check::K7 => b"K7",
        Check::K8 => b"K8",
        Check::K9 => b"K9",
        Check::K10 => b"K10",
        Check::K11 => b"K11",
        Check::K12 => b"K12",
        Check::K13 => b"K13",
    }
}

fn side_check_name(check: SideCheck) -> &'static [u8]
    ensures name { result.now ≡ side_check_text check }
    ensures short { length result.now ≤ 2 }
{
    match check {
        SideCheck::S1 => b"S1",
        SideCheck::S2 => b"S2",
        SideCheck::S3 => b"S3",
        SideCheck::S4 => b"S4",
        SideCheck::S5 => b"S5",
        SideCheck::S6 => b"S6",
    }
}
