ghost use Rattle.std.specs.Prelude.{◌≡◌, ℕ, ◌+◌, ◌*◌, ◌<◌, length, slice_index};
ghost use Rattle.std.specs.Int.{bit_at};
ghost use Rattle.bit_words.specs.Bits.{bits_of};

use bit_words::Bits;

// A word, 0 where there is none.
#[inline(always)]
fn word_or_zero(words: &[u64], i: usize) -> u64
    ensures { result ≡ slice_index words.now i }
{
    match words.get(i) {
        Some(word) => *word,
        None => 0,
    }
}

/// The 64 bits from a place on, zeros where no more are left.
#[inline(always)]
pub fn window_from(bits: Bits<'_>, at: u64) -> u64
    requires within { at < 64 * length bits.words.now }
    ensures { (i : ℕ) → i < 64
        → bit_at result i ≡ slice_index (bits_of bits.entry.words.now) (at + i) }
{
    let word = (at / 64) as usize;
    let next = word_or_zero(bits.words, word + 1);
    // Nothing of the next word is taken where the place is the first of its word.
    (bits.words[word] >> (at % 64)) | (next << 1 << (63 - at % 64))
}
