ghost use Rattle.std.specs.Prelude.{◌≡◌, ◌≤◌, ◌<◌, ◌+◌, ◌*◌, ◌/◌, ◌%◌, ◌^◌, [], ◌∷◌, ◌++◌, length, take, OnOk, OnErr, IfOk, IsOk};
ghost use Rattle.bit_words.specs.Bits.{field_bits, bits_of, bits_value, one_after, padded, padding, words_of, AppendsBits, HoldNumber};

use no_memory::NoMemory;
use std::alloc::Global;
use std::marker::Model;

/// A list of bits that grows at its end.
#[derive(Drop)]
pub struct BitWriter {
    words: Vec<u64>,
    len: u64,
}

impl Model for BitWriter {
    ghost use Rattle.std.specs.Prelude.{ℕ, List, take};
    ghost use Rattle.bit_words.specs.Bits.{bits_of, HoldNumber};

    ghost Value = { List ℕ };

    ghost view = { λ w. take w.len (bits_of w.words.items) };

    ghost invariant = { λ w. HoldNumber w.words.items w.len };
}

impl BitWriter {
    /// A list of no bits.
    pub fn new(alloc: Global) -> Result<BitWriter, NoMemory>
        ensures empty { IfOk result (λ w. w ≡ []) }
        // It takes no memory, so none is refused.
        ensures always { IsOk result }
    {
        Ok(BitWriter {
            words: Vec::new(alloc),
            len: 0,
        })
    }

    /// The bits of words, which are appended to where the words stand. It takes no memory.
    pub fn after(words: Vec<u64>) -> BitWriter
        requires room { length words.items < 2 ^ 57 }
        ensures { result ≡ bits_of words.items }
    {
        let len = 64 * words.len() as u64;
        BitWriter { words, len }
    }

    /// Appends the lowest bits of the value, the lowest first. A refusal leaves the list as it was.
    pub fn put(&mut self, value: u64, width: u32) -> Result<(), NoMemory>
        requires width { width ≤ 64 }
        requires fits { value < 2 ^ width }
        requires room { length self.old + width < 2 ^ 63 }
        ensures ok { OnOk result (self.new ≡ self.old ++ field_bits width value) }
        ensures err { OnErr result (self.new ≡ self.old) }
        // It takes no memory where the last word has room.
        ensures fitting { width ≤ padding (length self.old) → IsOk result }
    {
        append(&mut self.words, self.len, value, width)?;
        self.len += width as u64;
        Ok(())
    }

    /// Appends so many zeros and then a one, by whole words. A refusal leaves a prefix of them.
    pub fn put_one_after(&mut self, zeros: u64) -> Result<(), NoMemory>
        requires room { length self.old + zeros + 1 < 2 ^ 63 }
        ensures ok { OnOk result (self.new ≡ self.old ++ one_after zeros) }
        ensures err { OnErr result (AppendsBits self.old self.new (one_after zeros)) }
    {
        for _ in 0..zeros / 64 {
            self.put(0, 64)?;
        }
        let rest = (zeros % 64) as u32;
        self.put(1 << rest, rest + 1)
    }

    /// Appends zeros up to the end of a word. It takes no memory.
    pub fn pad(&mut self) -> Result<(), NoMemory>
        requires room { length (padded self.old) < 2 ^ 63 }
        ensures ok { OnOk result (self.new ≡ padded self.old) }
        ensures err { OnErr result (self.new ≡ self.old) }
        // It takes no memory, so none is refused.
        ensures always { IsOk result }
    {
        self.len = self.len.div_ceil(64) * 64;
        Ok(())
    }

    /// Keeps the first bits, so many, or all where there are no more. It takes no memory.
    pub fn truncate(&mut self, len: u64)
        ensures { self.new ≡ take len self.old }
    {
        if len < self.len {
            cut(&mut self.words, len);
            self.len = len;
        }
    }

    /// How many bits there are.
    pub fn len(&self) -> u64
        ensures { result ≡ length self.now }
    {
        self.len
    }

    /// The words of the bits, with zeros up to the end of the last one.
    pub fn into_words(self) -> Vec<u64>
        ensures { result.items ≡ words_of self }
    {
        let BitWriter { words, len: _ } = self;
        words
    }
}

// Cuts words to so many bits, and clears what is behind these in the last word.
fn cut(words: &mut Vec<u64>, len: u64)
    requires within { len ≤ 64 * length words.old.items }
    ensures count { length words.new.items ≡ (len + 63) / 64 }
    ensures value { bits_value (bits_of words.new.items)
        ≡ bits_value (bits_of words.old.items) % 2 ^ len }
{
    words.truncate(len.div_ceil(64) as usize);
    let used = (len % 64) as u32;
    if used > 0 {
        let last = words.len() - 1;
        words[last] &= (1 << used) - 1;
    }
}

// Appends a value of so many bits to words that hold so many.
fn append(words: &mut Vec<u64>, len: u64, value: u64, width: u32) -> Result<(), NoMemory>
    requires held { HoldNumber words.old.items len }
    requires width { width ≤ 64 }
    requires fits { value < 2 ^ width }
    ensures count { OnOk result (length words.new.items ≡ (len + width + 63) / 64) }
    ensures value { OnOk result (bits_value (bits_of words.new.items)
        ≡ bits_value (bits_of words.old.items) + 2 ^ len * value) }
    ensures err { OnErr result (words.new.items ≡ words.old.items) }
    ensures fitting { width ≤ padding len → IsOk result }
{
    let used = (len % 64) as u32;
    if used == 0 {
        append_fresh(words, value, width)?;
        return Ok(());
    }
    let last = words.len() - 1;
    let pair = (value as u128) << used | words[last] as u128;
    let low = (pair & u64::MAX as u128) as u64;
    if used + width > 64 {
        append_fresh(words, (pair >> 64) as u64, 1)?;
    }
    words[last] = low;
    Ok(())
}

// Appends a word where it is to hold some bits.
fn append_fresh(words: &mut Vec<u64>, word: u64, width: u32) -> Result<(), NoMemory>
    ensures none { width ≡ 0 → OnOk result (words.new.items ≡ words.old.items) }
    ensures some { 0 < width → OnOk result (words.new.items ≡ words.old.items ++ word ∷ []) }
    ensures err { OnErr result (words.new.items ≡ words.old.items) }
    ensures nothing { width ≡ 0 → IsOk result }
{
    if width == 0 {
        return Ok(());
    }
    words.push(word)?;
    Ok(())
}
