ghost use Rattle.std.specs.Prelude.{◌≡◌, ◌≤◌, [], ◌++◌, length, IsTrue, IfOk};
ghost use Rattle.collection_model.specs.Bytes.{le32};
ghost use Rattle.held_pieces.specs.Pieces.{LooksAhead, TakesByte, TakesNumber};

use crate::four_bytes::number_at;
use io_traits::{Depot, IoFail, Slot};
use std::alloc::{AllocError, Global};
use std::marker::Model;

// The most bytes of a slot that are read at once.
const PIECE_BYTES: usize = 8_192;

/// The bytes of a slot that were read and are still to be taken, at most 8,192.
#[derive(Drop)]
pub struct Held {
    // The bytes from `used` to `end` of the piece are held.
    piece: Vec<u8>,
    used: usize,
    end: usize,
}

impl Model for Held {
    ghost use Rattle.std.specs.Prelude.{ℕ, ◌-◌, ◌≤◌, ◌<◌, List, take, drop, vec_len};

    ghost Value = { List ℕ };

    ghost view = { λ h. take (h.end - h.used) (drop h.used h.piece.items) };

    ghost invariant = { λ h. (h.used ≤ h.end) × (h.end ≤ vec_len h.piece) × (0 < vec_len h.piece) };
}

impl Held {
    /// Takes the room of one piece, and holds none of it.
    pub fn new(alloc: Global) -> Result<Held, AllocError>
        ensures { IfOk result (λ held. held ≡ []) }
    {
        Ok(Held {
            piece: vec![in alloc; 0; PIECE_BYTES]?,
            used: 0,
            end: 0,
        })
    }

    /// Whether the slot has a byte left. Reads a piece where none is held.
    ///
    /// The error is that of the read; none is held then.
    pub fn has_byte<D: Depot>(&mut self, slot: Slot, depot: &mut D) -> Result<bool, IoFail>
        requires { IsTrue ((D.state depot.old).started slot) }
        ensures { LooksAhead slot self.old self.new (D.state depot.old) (D.state depot.new) result }
    {
        if self.used < self.end {
            return Ok(true);
        }
        match depot.read(slot, self.piece.as_mut_slice()) {
            Ok(count) => {
                self.used = 0;
                self.end = count;
                Ok(count > 0)
            }
            Err(fail) => Err(fail),
        }
    }

    /// The next byte of the slot, where there is one.
    ///
    /// The error is that of a read; none is held then.
    pub fn byte<D: Depot>(&mut self, slot: Slot, depot: &mut D) -> Result<Option<u8>, IoFail>
        requires { IsTrue ((D.state depot.old).started slot) }
        ensures { TakesByte slot self.old self.new (D.state depot.old) (D.state depot.new) result }
    {
        if !self.has_byte(slot, depot)? {
            return Ok(None);
        }
        let byte = self.piece[self.used];
        self.used += 1;
        Ok(Some(byte))
    }

    /// The next number of the slot, where four bytes are left.
    ///
    /// The error is that of a read. Where there is an error or no number, the bytes that were taken
    /// for it are gone, and none is held.
    pub fn number<D: Depot>(&mut self, slot: Slot, depot: &mut D) -> Result<Option<u32>, IoFail>
        requires { IsTrue ((D.state depot.old).started slot) }
        ensures { TakesNumber slot self.old self.new (D.state depot.old) (D.state depot.new)
            result }
    {
        if self.end - self.used >= 4 {
            return Ok(Some(self.held_number()));
        }
        let mut bytes = [0; 4];
        for byte in &mut bytes {
            let Some(next) = self.byte(slot, depot)? else {
                return Ok(None);
            };
            *byte = next;
        }
        Ok(Some(number_at(&bytes, 0)))
    }

    // The number that the next four bytes held are.
    fn held_number(&mut self) -> u32
        requires { 4 ≤ length self.old }
        ensures { self.old ≡ le32 result ++ self.new }
    {
        let at = self.used;
        self.used += 4;
        number_at(&self.piece, at)
    }
}
