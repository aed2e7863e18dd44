ghost use Rattle.std.specs.Prelude.{◌≡◌, ◌≤◌, ◌<◌, ◌+◌, ◌*◌, length};
ghost use Rattle.bit_words.specs.Bits.{bits_of, field_at};
ghost use Rattle.bit_words.specs.Fields.{FieldRow, IsTaken};

use crate::Bits;
use std::marker::Model;

/// Fields of one width that stand one behind another, in order.
#[derive(Drop)]
pub struct Fields<'a> {
    words: &'a [u64],
    width: u64,
    // So many ones.
    mask: u64,
    // The word behind the one that is taken up, and of that one the bits that are not given yet,
    // and how many they are.
    next: usize,
    rest: u64,
    left: u64,
}

impl<'a> Model for Fields<'a> {
    ghost use Rattle.std.specs.Prelude.{◌-◌, ◌*◌};
    ghost use Rattle.bit_words.specs.Bits.{bits_of};
    ghost use Rattle.bit_words.specs.Fields.{FieldRow, IsTaken};

    ghost Value = { FieldRow };

    ghost view = { λ f. record {
      bits = bits_of f.words.now;
      at = 64 * f.next - f.left;
      width = f.width;
    } };

    ghost invariant = { λ f. IsTaken f.words.now f.width f.mask f.next f.rest f.left };
}

impl<'a> Bits<'a> {
    /// The fields of so many bits from a place on.
    #[inline]
    pub fn fields_from(&self, at: u64, width: u32) -> Fields<'a>
        requires narrow { width < 64 }
        ensures bits { result.bits ≡ bits_of self.now.words.now }
        ensures at { result.at ≡ at }
        ensures width { result.width ≡ width }
    {
        let word = (at / 64) as usize;
        Fields {
            words: self.words,
            width: width as u64,
            mask: (1 << width) - 1,
            next: word + 1,
            rest: self.word(word) >> (at % 64),
            left: 64 - at % 64,
        }
    }
}

impl<'a> Fields<'a> {
    /// The value of the next field. A field of no bits is 0.
    #[inline]
    pub fn next(&mut self) -> u64
        requires within { self.old.at + self.old.width ≤ length self.old.bits }
        ensures bits { self.new.bits ≡ self.old.bits }
        ensures width { self.new.width ≡ self.old.width }
        ensures behind { self.new.at ≡ self.old.at + self.old.width }
        ensures value { result ≡ field_at self.old.bits self.old.at self.old.width }
    {
        match self.left.checked_sub(self.width) {
            Some(left) => {
                let field = self.rest & self.mask;
                self.rest >>= self.width;
                self.left = left;
                field
            }
            // The field goes on in the next word.
            None => {
                let word = self.words[self.next];
                let high = self.width - self.left;
                let field = self.rest | ((word << self.left) & self.mask);
                self.next += 1;
                self.rest = word >> high;
                self.left = 64 - high;
                field
            }
        }
    }
}
