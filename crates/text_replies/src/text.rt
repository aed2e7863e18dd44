ghost use Rattle.std.specs.Prelude.{◌≡◌};
ghost use Rattle.index_blocks.specs.Seen.{index_seen};
ghost use Rattle.segments.specs.Joined.{joined, FitTogether};
ghost use Rattle.index_reading.specs.JoinedIndexes.{collections_of};
ghost use Rattle.text_replies.specs.AnswerText.{AnswersText};
ghost use Rattle.text_replies.specs.AnswersEnded.{AnswersEnded};
ghost use Rattle.text_replies.specs.Faults.{input_fault, out_fault};

use crate::lines::{Held, answer_line, answer_piece};
use index_file::Index;
use io_traits::{IoFail, Sink, Source};
use line_replies::{IndexLists, IntervalLists, JoinedLists, SideLists, TermLists};
use no_memory::NoMemory;
use open_index::OpenIndex;
use std::alloc::Global;
use std::mem;
use topk_pruning::Plan;

// The most bytes that are read at once.
const PIECE: usize = 8192;

/// Why a query text was not answered whole.
#[derive(Clone, Copy, Debug, PartialEq, Eq)]
pub enum RunFault {
    /// A read of the input failed: the lines that ended within the bytes read are answered.
    Read,
    /// A write on out failed: a prefix of the replies is written.
    Write,
    /// More bytes than the limit came: the lines that ended within the limit are answered.
    TooLarge,
    /// Memory was refused: a prefix of the replies is written.
    NoMemory,
}

/// Answers the lines of the input, of which at most `limit` bytes are taken, from an opened index.
/// Each reply, with its newline, is given to out as one piece, as soon as the bytes that end its
/// line are read. The replies are the same by every plan.
pub fn answer_text<I: Source, O: Sink>(
    alloc: Global,
    index: &Index<'_>,
    plan: Plan,
    input: &mut I,
    limit: u64,
    out: &mut O,
) -> Result<(), RunFault>
    ensures { AnswersText index.now.collection limit (I.state input.old) (I.state input.new)
        (O.state out.old) (O.state out.new) result }
{
    answer_from(
        &IndexLists::new(index, plan),
        &mut Held::new(alloc),
        input,
        limit,
        out,
    )
}

/// Answers the lines of the input from an opened index and its side file, given as its lists in
/// blocks, as `answer_text` does; `top` is answered by block-max WAND.
pub fn answer_by_blocks<I: Source, O: Sink>(
    alloc: Global,
    lists: &SideLists<'_, '_>,
    input: &mut I,
    limit: u64,
    out: &mut O,
) -> Result<(), RunFault>
    ensures { AnswersText (index_seen lists.now.blocks.now).collection limit (I.state input.old)
        (I.state input.new) (O.state out.old) (O.state out.new) result }
{
    answer_from(lists, &mut Held::new(alloc), input, limit, out)
}

/// Answers the lines of the input from an opened index and the maxima of its lists, as
/// `answer_text` does; `top` is answered by intervals.
pub fn answer_by_intervals<I: Source, O: Sink>(
    alloc: Global,
    lists: &IntervalLists<'_, '_>,
    input: &mut I,
    limit: u64,
    out: &mut O,
) -> Result<(), RunFault>
    ensures { AnswersText lists.now.lists.index.now.collection limit (I.state input.old)
        (I.state input.new) (O.state out.old) (O.state out.new) result }
{
    answer_from(lists, &mut Held::new(alloc), input, limit, out)
}

/// Answers the lines of the input from the collection to which these indexes are joined, in this
/// order, as `answer_text` does from one.
pub fn answer_joined<I: Source, O: Sink>(
    alloc: Global,
    indexes: &[OpenIndex],
    plan: Plan,
    input: &mut I,
    limit: u64,
    out: &mut O,
) -> Result<(), RunFault>
    requires { FitTogether (collections_of indexes.now) }
    ensures { AnswersText (joined (collections_of indexes.now)) limit
        (I.state input.old) (I.state input.new) (O.state out.old) (O.state out.new) result }
{
    match JoinedLists::new(alloc, indexes, plan) {
        Ok(lists) => answer_from(&lists, &mut Held::new(alloc), input, limit, out),
        Err(NoMemory) => Err(RunFault::NoMemory),
    }
}

// Answers the lines of the input from any lists. What was held is not looked at.
fn answer_from<L: TermLists, I: Source, O: Sink>(
    lists: &L,
    held: &mut Held<L::Cursor>,
    input: &mut I,
    limit: u64,
    out: &mut O,
) -> Result<(), RunFault>
    ensures { AnswersText (L.collection lists.now) limit (I.state input.old) (I.state input.new)
        (O.state out.old) (O.state out.new) result }
{
    let alloc = *held.line.allocator();
    let last = answer_ended_lines(lists, held, input, limit, out)?;
    if last.is_empty() {
        return Ok(());
    }
    answer_line(alloc, lists, &mut held.cursors, last.as_slice(), out).map_err(out_fault)
}

// Answers each line that a newline ends, and gives what is held of the line behind the last
// newline.
fn answer_ended_lines<L: TermLists, I: Source, O: Sink>(
    lists: &L,
    held: &mut Held<L::Cursor>,
    input: &mut I,
    limit: u64,
    out: &mut O,
) -> Result<Vec<u8>, RunFault>
    ensures { AnswersEnded (L.collection lists.now) limit (I.state input.old) (I.state input.new)
        (O.state out.old) (O.state out.new) result }
{
    let alloc = *held.line.allocator();
    held.line.clear();
    let mut piece = [0; PIECE];
    let mut rest = limit;
    'pieces: loop {
        let n = input.read(&mut piece).map_err(input_fault)?;
        if n == 0 {
            return Ok(mem::replace(&mut held.line, Vec::new(alloc)));
        }
        let within = rest.min(n as u64) as usize;
        answer_piece(alloc, lists, held, &piece[..within], out).map_err(out_fault)?;
        if within < n {
            return Err(RunFault::TooLarge);
        }
        rest -= n as u64;
    }
}

// What a refusal of a read is to the text.
fn input_fault(fail: IoFail) -> RunFault
    ensures { result ≡ input_fault fail }
{
    match fail {
        IoFail::Failed => RunFault::Read,
        IoFail::NoMemory => RunFault::NoMemory,
    }
}

// What a refusal of a write is to the text.
fn out_fault(fail: IoFail) -> RunFault
    ensures { result ≡ out_fault fail }
{
    match fail {
        IoFail::Failed => RunFault::Write,
        IoFail::NoMemory => RunFault::NoMemory,
    }
}
