ghost use Rattle.std.specs.Prelude.{◌≡◌, ◌≢◌, ◌==◌, ◌-◌, ℕ, length, take, [], ◌∷◌, ◌++◌, MatchResult, Ok, List};
ghost use Rattle.std.specs.List.{All, position};
ghost use Rattle.io_traits.specs.SinkState.{SinkState};
ghost use Rattle.query_text.specs.Lines.{newline};
ghost use Rattle.text_replies.specs.AnswersLines.{AnswersLines};
ghost use Rattle.text_replies.specs.Unended.{AnswersBytes};

use io_traits::{IoFail, Sink, write_all_own};
use line_replies::{LineCursors, TermLists, reply_to};
use no_memory::NoMemory;
use std::alloc::Global;
use std::default::MadeWith;

// The byte that ends a line.
const NEWLINE: u8 = b'\n';

// The most bytes of a line that are held: one more than a line may have, which tells that it is too
// long.
const MOST_HELD: usize = 65_536;

// What is held from one piece of a text to the next: the bytes of the line that has not ended, and
// room for the cursors of a line.
#[derive(Drop)]
pub(crate) struct Held<C: Drop> {
    pub(crate) line: Vec<u8>,
    pub(crate) cursors: LineCursors<C>,
}

impl<C: MadeWith<Global> + Drop> Held<C> {
    // Nothing is held.
    pub(crate) fn new(alloc: Global) -> Held<C> {
        Held {
            line: Vec::new(alloc),
            cursors: LineCursors::new(alloc),
        }
    }
}

// Takes the next bytes of a text. Each line that ends in them is answered, and what they leave
// unended is held.
pub(crate) fn answer_piece<L: TermLists, O: Sink>(
    alloc: Global,
    lists: &L,
    held: &mut Held<L::Cursor>,
    piece: &[u8],
    out: &mut O,
) -> Result<(), IoFail>
    ensures { let c = L.collection lists.now in (read : List ℕ) → (start : SinkState)
        → AnswersBytes c read held.old.line.items start (O.state out.old) (Ok tt)
        → AnswersBytes c (read ++ piece.now) held.new.line.items start (O.state out.new) result }
{
    let mut rest = piece;
    while let Some(at) = next_newline(rest) {
        end_line(alloc, lists, held, &rest[..at], out)?;
        rest = &rest[at + 1..];
    }
    hold(&mut held.line, rest)
}

// Takes the last bytes of a line, and answers it.
fn end_line<L: TermLists, O: Sink>(
    alloc: Global,
    lists: &L,
    held: &mut Held<L::Cursor>,
    bytes: &[u8],
    out: &mut O,
) -> Result<(), IoFail>
    requires { All (λ b. b ≢ newline) bytes.now }
    ensures { let c = L.collection lists.now in (read : List ℕ) → (start : SinkState)
        → AnswersBytes c read held.old.line.items start (O.state out.old) (Ok tt)
        → AnswersBytes c (read ++ (bytes.now ++ newline ∷ [])) held.new.line.items start
        (O.state out.new) result }
{
    hold(&mut held.line, bytes)?;
    answer_line(alloc, lists, &mut held.cursors, &held.line, out)?;
    held.line.clear();
    Ok(())
}

// Answers one line: its reply, with the newline, is one piece. Its cursors take the place of those
// that are lent.
pub(crate) fn answer_line<L: TermLists, O: Sink>(
    alloc: Global,
    lists: &L,
    cursors: &mut LineCursors<L::Cursor>,
    line: &[u8],
    out: &mut O,
) -> Result<(), IoFail>
    ensures { AnswersLines (L.collection lists.now) (line.now ∷ []) (O.state out.old)
        (O.state out.new) result }
{
    match reply_to(alloc, lists, cursors, line) {
        Ok(reply) => write_all_own(out, &reply),
        Err(NoMemory) => Err(IoFail::NoMemory),
    }
}

// Holds the next bytes of a line, as many as there is room for.
fn hold(held: &mut Vec<u8>, bytes: &[u8]) -> Result<(), IoFail>
    ensures { MatchResult result (λ _. held.new.items
        ≡ held.old.items ++ take (MOST_HELD - length held.old.items) bytes.now)
        (λ fail. fail ≡ IoFail.NoMemory) }
{
    let room = MOST_HELD.saturating_sub(held.len());
    held.extend_from_slice(&bytes[..room.min(bytes.len())])
        .map_err(|_| IoFail::NoMemory)
}

// The place of the first newline.
fn next_newline(bytes: &[u8]) -> Option<usize>
    ensures { result ≡ position (λ b. b == newline) bytes.now }
{
    bytes.iter().position(|b| *b == NEWLINE)
}
