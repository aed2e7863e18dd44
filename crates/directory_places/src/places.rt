ghost use Rattle.std.specs.Prelude.{◌≡◌, ℕ, ◌≤◌, ◌<◌, ◌+◌, ◌-◌, ◌*◌, ◌^◌, [], ◌∷◌, ◌++◌, length, replicate, slice_index, IfOk, OnOk, OnErr};
ghost use Rattle.std.specs.List.{range_with_len};
ghost use Rattle.directory_places.specs.Source.{AreLeft};

use crate::source::PlaceSource;
use bit_words::{BitWriter, Bits, words_are_bits};
use no_memory::NoMemory;
use std::alloc::Global;
use std::marker::Model;

/// Places, of which each is more than the one before.
#[derive(Drop)]
pub struct Places {
    // 0, and the ends of the lists that have one of their own.
    ends: Vec<u64>,
    // A bit for each list: 1 where it has one.
    marks: BitWriter,
}

impl Model for Places {
    ghost use Rattle.std.specs.Prelude.{ℕ, List};
    ghost use Rattle.directory_places.specs.Places.{AreMarked, places_of};

    ghost Value = { List ℕ };

    ghost view = { λ p. places_of p.marks p.ends.items };

    ghost invariant = { λ p. AreMarked p.marks p.ends.items };
}

impl Places {
    /// The place 0 alone.
    pub fn new(alloc: Global) -> Result<Places, NoMemory>
        ensures { IfOk result (λ p. p ≡ 0 ∷ []) }
    {
        let mut ends = Vec::new(alloc);
        ends.push(0)?;
        let marks = BitWriter::new(alloc)?;
        Ok(Places { ends, marks })
    }

    /// How many there are.
    pub fn len(&self) -> u64
        ensures { result ≡ length self.now }
    {
        self.marks.len() + 1
    }

    /// Appends the place behind a list with this end: the end with the number of lists added. A
    /// refusal leaves the places as they were.
    pub fn push(&mut self, end: u64) -> Result<(), NoMemory>
        requires end { end < 2 ^ 62 }
        requires room { length self.old < 2 ^ 62 }
        ensures ok { OnOk result (self.new ≡ self.old ++ (end + length self.old) ∷ []) }
        ensures err { OnErr result (self.new ≡ self.old) }
    {
        self.ends.push(end)?;
        if self.marks.put(1, 1).is_err() {
            self.ends.pop();
            return Err(NoMemory);
        }
        Ok(())
    }

    /// Appends so many places, each one more than the one before. They take a bit each. A refusal
    /// leaves the places as they were.
    pub fn push_run(&mut self, count: u64) -> Result<(), NoMemory>
        requires room { length self.old + count ≤ 2 ^ 62 }
        ensures ok { OnOk result (self.new ≡ self.old
            ++ range_with_len (slice_index self.old (length self.old - 1) + 1) count) }
        ensures err { OnErr result (self.new ≡ self.old) }
    {
        put_zeros(&mut self.marks, count)
    }

    /// The places, to be given one after the other.
    pub fn into_all(self) -> AllPlaces
        ensures { result ≡ self }
    {
        words_are_bits();
        let Places { ends, marks } = self;
        let lists = marks.len();
        AllPlaces {
            ends,
            marks: marks.into_words(),
            lists,
        }
    }
}

/// Places that can be given one after the other.
#[derive(Drop)]
pub struct AllPlaces {
    ends: Vec<u64>,
    marks: Vec<u64>,
    lists: u64,
}

impl Model for AllPlaces {
    ghost use Rattle.std.specs.Prelude.{ℕ, List, take};
    ghost use Rattle.bit_words.specs.Bits.{bits_of};
    ghost use Rattle.directory_places.specs.Places.{AreSpelled, places_of};

    ghost Value = { List ℕ };

    ghost view = { λ p. places_of (take p.lists (bits_of p.marks.items)) p.ends.items };

    ghost invariant = { λ p. AreSpelled p.marks.items p.ends.items p.lists };
}

impl AllPlaces {
    /// All of them, from the first on.
    pub fn source(&self) -> PlaceSource<'_>
        ensures { AreLeft result self.now }
    {
        PlaceSource {
            marks: Bits { words: &self.marks },
            ends: &self.ends,
            lists: self.lists,
            at: 0,
            passed: 0,
        }
    }
}

// Appends so many zeros, by whole words. A refusal leaves the bits as they were.
fn put_zeros(to: &mut BitWriter, count: u64) -> Result<(), NoMemory>
    requires room { length to.old + count < 2 ^ 63 }
    ensures ok { OnOk result (to.new ≡ to.old ++ replicate count 0) }
    ensures err { OnErr result (to.new ≡ to.old) }
{
    let len = to.len();
    if put_whole_zeros(to, count / 64).is_err() || to.put(0, (count % 64) as u32).is_err() {
        to.truncate(len);
        return Err(NoMemory);
    }
    Ok(())
}

// Appends so many words of zeros. A refusal leaves the bits before, and some of them.
fn put_whole_zeros(to: &mut BitWriter, words: u64) -> Result<(), NoMemory>
    requires room { length to.old + 64 * words < 2 ^ 63 }
    ensures ok { OnOk result (to.new ≡ to.old ++ replicate (64 * words) 0) }
    ensures err { OnErr result ((n : ℕ) × (to.new ≡ to.old ++ replicate n 0)) }
{
    for _ in 0..words {
        to.put(0, 64)?;
    }
    Ok(())
}
