ghost use Rattle.std.specs.Prelude.{◌≡◌, ◌≤◌, ◌+◌, ◌*◌, ◌%◌, ◌^◌, length, IfSome, IfNone};
ghost use Rattle.bit_words.specs.Bits.{bits_of, IsFirstOne, HasNoOne};

use crate::Bits;
use std::marker::Model;

/// The places of the ones of a range of bits, in order.
#[derive(Drop)]
pub struct Ones<'a> {
    words: &'a [u64],
    // The place of the word that is read, and those of its ones in the range that are not given
    // yet.
    start: u64,
    rest: u64,
    // The place reached, and the end of the range.
    at: u64,
    end: u64,
}

impl<'a> Model for Ones<'a> {
    ghost use Rattle.bit_words.specs.Bits.{bits_of};
    ghost use Rattle.bit_words.specs.Ones.{BitRange, IsReading};

    ghost Value = { BitRange };

    ghost view = { λ o. record { bits = bits_of o.words.now; at = o.at; end = o.end } };

    ghost invariant = { λ o. IsReading o.words.now o.start o.rest o.at o.end };
}

impl<'a> Bits<'a> {
    /// The places of the ones from one place up to another.
    #[inline]
    pub fn ones_from(&self, from: u64, to: u64) -> Ones<'a>
        requires ordered { from ≤ to }
        requires range { to ≤ 64 * length self.now.words.now }
        ensures bits { result.bits ≡ bits_of self.now.words.now }
        ensures at { result.at ≡ from }
        ensures end { result.end ≡ to }
    {
        let word = self.word((from / 64) as usize);
        Ones {
            words: self.words,
            start: from / 64 * 64,
            rest: before(word & (u64::MAX << (from % 64)), to - from / 64 * 64),
            at: from,
            end: to,
        }
    }
}

impl<'a> Ones<'a> {
    /// The place of the next one, None exactly where there is none.
    #[inline]
    pub fn next(&mut self) -> Option<u64>
        ensures bits { self.new.bits ≡ self.old.bits }
        ensures end { self.new.end ≡ self.old.end }
        ensures first { IfSome result (IsFirstOne self.old.bits self.old.at self.old.end) }
        ensures behind { IfSome result (λ p. self.new.at ≡ p + 1) }
        ensures none { IfNone result (HasNoOne self.old.bits self.old.at self.old.end) }
        ensures stays { IfNone result (self.new.at ≡ self.old.at) }
    {
        'words: while self.rest == 0 {
            if self.end - self.start <= 64 {
                return None;
            }
            self.start += 64;
            self.rest = before(
                self.words[(self.start / 64) as usize],
                self.end - self.start,
            );
        }
        let one = self.start + self.rest.trailing_zeros() as u64;
        // The lowest 1 is cleared.
        self.rest &= self.rest - 1;
        self.at = one + 1;
        Some(one)
    }
}

// A word with nothing but its lowest bits, so many of them, or all where there are no more.
fn before(word: u64, end: u64) -> u64
    ensures { result ≡ word % 2 ^ end }
{
    if end < 64 {
        word & ((1 << end) - 1)
    } else {
        word
    }
}
