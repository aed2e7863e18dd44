ghost use Rattle.std.specs.Prelude.{◌≡◌, ℕ, ◌≤◌, ◌<◌, ◌+◌, ◌-◌, ◌*◌, ◌/◌, ◌^◌, length, sum, count_ones, IsTrue, ◌↔◌, IfSome, IfNone, slice_index};
ghost use Rattle.std.specs.Int.{bit_at};
ghost use Rattle.bit_words.specs.Bits.{field_bits, bits_of, field_at, ones_between, IsFirstOne, HasNoOne, IsNthOne, IsNthOneBack, IsNthZero, flipped, IsWordWithin};

/// Words, read bit by bit: bit p is bit p mod 64 of word p div 64.
#[derive(Clone, Copy)]
pub struct Bits<'a> {
    pub words: &'a [u64],
}

impl<'a> Bits<'a> {
    /// The value of the field of so many bits whose lowest bit stands at a place. A field of no
    /// bits is 0.
    pub fn get(&self, at: u64, width: u32) -> u64
        requires width { width ≤ 64 }
        requires range { at + width ≤ 64 * length self.now.words.now }
        ensures { result ≡ field_at (bits_of self.now.words.now) at width }
    {
        let word = (at / 64) as usize;
        let rest = self.word(word) >> (at % 64);
        if at % 64 + width as u64 <= 64 {
            return rest & lowest(width);
        }
        // The field goes on in the next word.
        rest | ((self.words[word + 1] << (64 - at % 64)) & lowest(width))
    }

    // A word, 0 where there is none.
    pub(crate) fn word(&self, i: usize) -> u64
        ensures { result ≡ slice_index self.now.words.now i }
    {
        match self.words.get(i) {
            Some(word) => *word,
            None => 0,
        }
    }

    /// Whether a bit is 1.
    pub fn bit(&self, at: u64) -> bool
        requires range { at < 64 * length self.now.words.now }
        ensures { IsTrue result ↔ (slice_index (bits_of self.now.words.now) at ≡ 1) }
    {
        self.get(at, 1) == 1
    }

    /// The first place from one up to another whose bit is 1, None exactly where there is none.
    pub fn next_one(&self, from: u64, to: u64) -> Option<u64>
        requires ordered { from ≤ to }
        requires range { to ≤ 64 * length self.now.words.now }
        ensures first { IfSome result (IsFirstOne (bits_of self.now.words.now) from to) }
        ensures none { IfNone result (HasNoOne (bits_of self.now.words.now) from to) }
    {
        // Most often it lies in the word of the first place.
        let rest = self.word((from / 64) as usize) & (u64::MAX << (from % 64));
        if rest == 0 {
            return self.ones_from(from, to).next();
        }
        let one = from / 64 * 64 + rest.trailing_zeros() as u64;
        if one < to { Some(one) } else { None }
    }

    /// How many bits from one place up to another are 1.
    pub fn ones(&self, from: u64, to: u64) -> u64
        requires ordered { from ≤ to }
        requires range { to ≤ 64 * length self.now.words.now }
        ensures { result ≡ ones_between (bits_of self.now.words.now) from to }
    {
        if to - from / 64 * 64 <= 64 {
            self.ones_within(from, to)
        } else {
            self.ones_across(from, to)
        }
    }

    /// The place of a range whose bit is 1 and before which n bits of the range are, None exactly
    /// where no more than n are 1.
    pub fn nth_one(&self, from: u64, to: u64, n: u64) -> Option<u64>
        requires ordered { from ≤ to }
        requires range { to ≤ 64 * length self.now.words.now }
        ensures some { IfSome result (IsNthOne (bits_of self.now.words.now) from to n) }
        ensures none { IfNone result (ones_between (bits_of self.now.words.now) from to ≤ n) }
    {
        self.nth_flipped(from, to, n, 0)
    }

    /// The place of a range whose bit is 1 and behind which n bits of the range are, None exactly
    /// where no more than n are 1. It is sought from the end of the range.
    pub fn nth_one_back(&self, from: u64, to: u64, n: u64) -> Option<u64>
        requires ordered { from ≤ to }
        requires range { to ≤ 64 * length self.now.words.now }
        ensures some { IfSome result (IsNthOneBack (bits_of self.now.words.now) from to n) }
        ensures none { IfNone result (ones_between (bits_of self.now.words.now) from to ≤ n) }
    {
        let mut at = to;
        let mut behind = 0;
        'words: while behind <= n {
            if at == from {
                return None;
            }
            let start = ((at - 1) / 64 * 64).max(from);
            behind += self.ones(start, at);
            at = start;
        }
        self.nth_one(at, to, behind - 1 - n)
    }

    /// The place of a range whose bit is 0 and before which n bits of the range are, None exactly
    /// where no more than n are 0.
    pub fn nth_zero(&self, from: u64, to: u64, n: u64) -> Option<u64>
        requires ordered { from ≤ to }
        requires range { to ≤ 64 * length self.now.words.now }
        ensures some { IfSome result (IsNthZero (bits_of self.now.words.now) from to n) }
        ensures none { IfNone result (to ≤ from + ones_between (bits_of self.now.words.now) from to
            + n) }
    {
        self.nth_flipped(from, to, n, u64::MAX)
    }

    // The place of a range before which n of its ones are, in words whose bits are exchanged where
    // `flip` has a 1; None exactly where no more than n are 1.
    fn nth_flipped(&self, from: u64, to: u64, n: u64, flip: u64) -> Option<u64>
        requires ordered { from ≤ to }
        requires range { to ≤ 64 * length self.now.words.now }
        ensures some { IfSome result (IsNthOne (bits_of (flipped flip self.now.words.now)) from to
            n) }
        ensures none { IfNone result (ones_between (bits_of (flipped flip self.now.words.now)) from
            to ≤ n) }
    {
        if from == to {
            return None;
        }
        let mut start = from / 64 * 64;
        let mut rest = (self.words[(from / 64) as usize] ^ flip) & (u64::MAX << (from % 64));
        let mut left = n;
        'words: while rest.count_ones() as u64 <= left {
            if to - start <= 64 {
                return None;
            }
            left -= rest.count_ones() as u64;
            start += 64;
            rest = self.words[(start / 64) as usize] ^ flip;
        }
        let one = start + nth_of_word(rest, left);
        if one < to { Some(one) } else { None }
    }

    // How many bits are 1 from one place up to another of its word, or to the end of the word.
    fn ones_within(&self, from: u64, to: u64) -> u64
        requires ordered { from ≤ to }
        requires range { to ≤ 64 * length self.now.words.now }
        requires within { to ≤ 64 * (from / 64) + 64 }
        ensures { result ≡ ones_between (bits_of self.now.words.now) from to }
    {
        let rest = self.word((from / 64) as usize) & (u64::MAX << (from % 64));
        let inside = rest & lowest((to - from / 64 * 64) as u32);
        inside.count_ones() as u64
    }

    // How many bits are 1 from a place of one word up to a place of a later one.
    fn ones_across(&self, from: u64, to: u64) -> u64
        requires ordered { from ≤ to }
        requires range { to ≤ 64 * length self.now.words.now }
        ensures { result ≡ ones_between (bits_of self.now.words.now) from to }
    {
        let mut count = 0;
        for i in from / 64..to / 64 {
            count += self.words[i as usize].count_ones() as u64;
        }
        count + self.ones_of_word(to) - self.ones_of_word(from)
    }

    // How many bits are 1 in the word of a place, before the place.
    fn ones_of_word(&self, to: u64) -> u64
        requires range { to ≤ 64 * length self.now.words.now }
        ensures { result ≡ ones_between (bits_of self.now.words.now) (64 * (to / 64)) to }
    {
        let before = self.word((to / 64) as usize) & lowest((to % 64) as u32);
        before.count_ones() as u64
    }
}

// The place of the one of a word before which n of its bits are 1.
fn nth_of_word(word: u64, n: u64) -> u64
    requires some { n < count_ones word }
    ensures within { result < 64 }
    ensures one { bit_at word result ≡ 1 }
    ensures before { sum (field_bits result word) ≡ n }
{
    let mut rest = word;
    'ones: for _ in 0..n {
        // The lowest 1 is cleared.
        rest &= rest - 1;
    }
    rest.trailing_zeros() as u64
}

// A word with so many of its lowest bits 1.
fn lowest(width: u32) -> u64
    requires width { width ≤ 64 }
    ensures { result ≡ 2 ^ width - 1 }
{
    u64::MAX.checked_shr(64 - width).unwrap_or(0)
}
