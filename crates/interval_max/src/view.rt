ghost use Rattle.std.specs.Prelude.{◌≡◌, ◌≢◌, ℕ, ◌*◌, ◌≤◌, ◌<◌, Bool, List, length, map, MatchOption, IfOk};
ghost use Rattle.std.specs.List.{All};
ghost use Rattle.collection_model.specs.Collection.{Posting};
ghost use Rattle.interval_max.specs.Bounded.{AreBoundsOf, IsBoundOf};
ghost use Rattle.interval_max.specs.Kept.{AreMaximaOf, AreRising, count_of, directory_of, entry_byte};
ghost use Rattle.interval_max.specs.Kept.{entry_in, word_of};
ghost use Rattle.interval_max.specs.Maxima.{are_known, bound_of};

use crate::maxima::Bounds;
use crate::words::{WORD_BYTES, word_at};
use no_memory::NoMemory;
use std::alloc::Global;

// How many words the entry of a list has.
const ENTRY_WORDS: usize = 4;

// The greatest step of a list's bytes: with 255 of them a bound has 32 bits.
const MOST_STEP: u64 = 16_843_009;

/// The maxima of lists in one slice of bytes, which `MaximaWriter` made. Of other bytes the bounds
/// may be any, but nothing is read outside of them.
#[derive(Clone, Copy)]
pub struct MaximaView<'a> {
    bytes: &'a [u8],
    // The first byte of the entries, and how many there are.
    directory: usize,
    count: usize,
    ghost directory_is: { directory ≡ directory_of bytes.now },
    ghost count_is: { count ≡ count_of bytes.now },
}

impl<'a> MaximaView<'a> {
    /// The maxima that these bytes are, in constant time.
    pub fn new(bytes: &'a [u8]) -> MaximaView<'a>
        ensures { result.bytes.now ≡ bytes.entry.now }
    {
        if bytes.len() < WORD_BYTES {
            return MaximaView {
                bytes,
                directory: 0,
                count: 0,
            };
        }
        let last = bytes.len() - WORD_BYTES;
        let directory = word_at(bytes, last).min(last as u64) as usize;
        MaximaView {
            bytes,
            directory,
            count: (last - directory) / (ENTRY_WORDS * WORD_BYTES),
        }
    }

    /// The bounds of the list of a term, by a binary search; of none where it has no maxima.
    pub fn bounds(self, term: u32) -> Bounds<'a>
        ensures known { (has : ℕ → Bool) (list : ℕ → List Posting) (n : ℕ)
            → AreMaximaOf has list n self.entry.bytes.now → term < n
            → are_known result ≡ has term }
        ensures bound { (has : ℕ → Bool) (list : ℕ → List Posting) (n : ℕ)
            → AreMaximaOf has list n self.entry.bytes.now → term < n
            → IsBoundOf (list term) result }
    {
        if let Some(i) = self.place_of(term) {
            return self.bounds_at(i);
        }
        Bounds::none()
    }

    /// The bounds of the lists of some terms.
    pub fn bounds_of(self, alloc: Global, terms: &[u32]) -> Result<Vec<Bounds<'a>>, NoMemory>
        ensures { IfOk result (λ bounds. (has : ℕ → Bool) (list : ℕ → List Posting) (n : ℕ)
            → AreMaximaOf has list n self.entry.bytes.now → All (λ t. t < n) terms.now
            → AreBoundsOf (map list terms.now) bounds.items) }
    {
        let mut bounds = Vec::with_capacity(alloc, terms.len())?;
        for term in terms {
            bounds.push(self.bounds(*term))?;
        }
        Ok(bounds)
    }

    // Word k of the entries.
    fn word(self, k: usize) -> u64
        requires { k < 4 * count_of self.bytes.now }
        ensures { result ≡ word_of self.entry.bytes.now k }
    {
        word_at(self.bytes, self.directory + WORD_BYTES * k)
    }

    // The term of entry i.
    fn term_at(self, i: usize) -> u32
        requires { i < count_of self.bytes.now }
        ensures { result ≡ (entry_in (word_of self.entry.bytes.now) i).term }
    {
        (self.word(ENTRY_WORDS * i) >> 32) as u32
    }

    // The place of a term's entry among all, if it has one, where the terms rise.
    fn place_of(self, term: u32) -> Option<usize>
        ensures { MatchOption result
            (AreRising (λ i. (entry_in (word_of self.entry.bytes.now) i).term)
            (count_of self.entry.bytes.now)
            → (i : ℕ) → i < count_of self.entry.bytes.now
            → (entry_in (word_of self.entry.bytes.now) i).term ≢ term)
            (λ i. (i < count_of self.entry.bytes.now)
            × ((entry_in (word_of self.entry.bytes.now) i).term ≡ term)) }
    {
        let mut from = 0;
        let mut to = self.count;
        while from < to {
            let middle = from + (to - from) / 2;
            let found = self.term_at(middle);
            if found == term {
                return Some(middle);
            }
            if found < term {
                from = middle + 1;
            } else {
                to = middle;
            }
        }
        None
    }

    // The bounds of entry i, whose bytes end among these.
    fn bounds_at(self, i: usize) -> Bounds<'a>
        requires { i < count_of self.bytes.now }
        ensures bound { let e = entry_in (word_of self.entry.bytes.now) i in
            e.to ≤ length self.entry.bytes.now
            → (v : ℕ) → bound_of result v ≡ entry_byte self.entry.bytes.now e v * e.step }
        ensures step { result.step ≡ (entry_in (word_of self.entry.bytes.now) i).step }
    {
        let head = self.word(ENTRY_WORDS * i);
        let to = self.word(ENTRY_WORDS * i + 2).min(self.bytes.len() as u64) as usize;
        let from = self.word(ENTRY_WORDS * i + 1).min(to as u64) as usize;
        let step = (head % (1 << 31)).min(MOST_STEP) as u32;
        let intervals = self.word(ENTRY_WORDS * i + 3);
        Bounds::of_bytes(
            &self.bytes[from..to],
            (head >> 31) % 2 == 1,
            step,
            intervals,
        )
    }
}
