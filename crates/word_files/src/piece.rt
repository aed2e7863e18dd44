ghost use Rattle.std.specs.Prelude.{◌≡◌, ◌+◌, ◌≤◌, [], ◌++◌, length, take, IsTrue, IfOk, IfErr, OnOk};
ghost use Rattle.collection_model.specs.Bytes.{le32};
ghost use Rattle.io_traits.specs.Helpers.{WritesAllToFile};
ghost use Rattle.word_files.specs.Given.{Gives};

use byteorder::{ByteOrder, LittleEndian};
use io_traits::{Depot, IoFail, depot_write_all};
use no_memory::NoMemory;
use std::alloc::Global;
use std::marker::Model;

// The most bytes that are held: whole numbers.
const PIECE_BYTES: usize = 65_536;

/// The bytes that were given to the file that is being written and are not in it yet, at most
/// 65,536. They are written when there is no room for more, and when they are written out.
#[derive(Drop)]
pub struct PieceWriter {
    // The first `held` bytes of the piece are held.
    piece: Vec<u8>,
    held: usize,
}

impl Model for PieceWriter {
    ghost use Rattle.std.specs.Prelude.{ℕ, ◌≤◌, List, take, vec_len};

    ghost Value = { List ℕ };

    ghost view = { λ w. take w.held w.piece.items };

    ghost invariant = { λ w. (w.held ≤ vec_len w.piece) × (4 ≤ vec_len w.piece) };
}

impl PieceWriter {
    /// Takes the room of one piece, and holds nothing.
    pub fn new(alloc: Global) -> Result<PieceWriter, NoMemory>
        ensures { IfOk result (λ writer. writer ≡ []) }
    {
        Ok(PieceWriter {
            piece: vec![in alloc; 0; PIECE_BYTES]?,
            held: 0,
        })
    }

    /// Gives a number to the file that is being written: its four bytes, the lowest first. It takes
    /// no memory of its own.
    ///
    /// The error is that of a write.
    pub fn give<D: Depot>(&mut self, number: u32, depot: &mut D) -> Result<(), IoFail>
        requires { IsTrue (D.state depot.old).created }
        ensures { Gives (le32 number) self.old self.new (D.state depot.old) (D.state depot.new)
            result }
    {
        let at = next_place(&self.piece, self.held, depot)?;
        put_number(&mut self.piece, at, number);
        self.held = at + 4;
        Ok(())
    }

    /// Writes what is held, and holds nothing then.
    ///
    /// The error is that of a write.
    pub fn write_out<D: Depot>(&mut self, depot: &mut D) -> Result<(), IoFail>
        requires { IsTrue (D.state depot.old).created }
        ensures written { WritesAllToFile (D.state depot.old) (D.state depot.new) self.old result }
        ensures held { OnOk result (self.new ≡ []) }
    {
        depot_write_all(depot, &self.piece[..self.held])?;
        self.held = 0;
        Ok(())
    }
}

// Where the next number goes in a piece of which so many bytes are held: behind them, or to the
// front once they are written, where there is no room behind them.
fn next_place<D: Depot>(piece: &[u8], held: usize, depot: &mut D) -> Result<usize, IoFail>
    requires held { held ≤ length piece.now }
    requires room { 4 ≤ length piece.now }
    requires created { IsTrue (D.state depot.old).created }
    ensures room { IfOk result (λ at. at + 4 ≤ length piece.now) }
    ensures given { IfOk result (λ at. Gives [] (take held piece.now) (take at piece.now)
        (D.state depot.old) (D.state depot.new) (Ok tt)) }
    ensures refused { IfErr result (λ fail. WritesAllToFile (D.state depot.old)
        (D.state depot.new) (take held piece.now) (Err fail)) }
{
    if piece.len() - held >= 4 {
        return Ok(held);
    }
    depot_write_all(depot, &piece[..held])?;
    Ok(0)
}

// Puts the bytes of a number into a piece, from a place on.
fn put_number(piece: &mut [u8], at: usize, number: u32)
    requires room { at + 4 ≤ length piece.old }
    ensures count { length piece.new ≡ length piece.old }
    ensures put { take (at + 4) piece.new ≡ take at piece.old ++ le32 number }
{
    LittleEndian::write_u32(&mut piece[at..at + 4], number);
}
