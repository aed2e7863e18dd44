ghost use Rattle.std.specs.Prelude.{◌≡◌, ◌≢◌, ◌↔◌, ◌*◌, ◌%◌, ◌++◌, length, IfOk, OnOk, OnErr};
ghost use Rattle.collection_model.specs.Bytes.{word_bytes};

use byteorder::{ByteOrder, LittleEndian};
use no_memory::NoMemory;
use std::alloc::Global;

/// Why bytes are no words.
#[derive(Clone, Copy, Debug, PartialEq, Eq)]
pub enum WordsError {
    /// The number of bytes is no multiple of eight.
    Ragged,
    /// Memory was refused.
    NoMemory,
}

/// The bytes of words, eight a word, the lowest first.
pub fn spell_words(alloc: Global, words: &[u64]) -> Result<Vec<u8>, NoMemory>
    ensures { IfOk result (λ bytes. bytes.items ≡ word_bytes words.now) }
{
    let mut bytes = Vec::new(alloc);
    for word in words {
        let mut piece = [0; 8];
        LittleEndian::write_u64(&mut piece, *word);
        bytes.extend_from_slice(&piece)?;
    }
    Ok(bytes)
}

/// Writes the bytes of words into a piece that has room for just them.
pub fn spell_into(words: &[u64], piece: &mut [u8])
    requires { length piece.old ≡ 8 * length words.now }
    ensures { piece.new ≡ word_bytes words.now }
{
    let mut at = 0;
    for word in words {
        LittleEndian::write_u64(&mut piece[at..at + 8], *word);
        at += 8;
    }
}

/// Appends the words of bytes, eight a word, the lowest first. Ragged is answered before memory is
/// taken, and a refusal leaves the words as they were.
pub fn read_words_into(bytes: &[u8], words: &mut Vec<u64>) -> Result<(), WordsError>
    ensures words { OnOk result (word_bytes words.new.items
        ≡ word_bytes words.old.items ++ bytes.now) }
    ensures whole { OnOk result (length bytes.now % 8 ≡ 0) }
    ensures ragged { (result ≡ Err WordsError.Ragged) ↔ (length bytes.now % 8 ≢ 0) }
    ensures refused { OnErr result (words.new.items ≡ words.old.items) }
{
    let (pieces, rest) = bytes.as_chunks::<8>();
    if !rest.is_empty() {
        return Err(WordsError::Ragged);
    }
    let held = words.len();
    words
        .resize(held + pieces.len(), 0)
        .map_err(|_| WordsError::NoMemory)?;
    let room = &mut words[held..];
    for k in 0..pieces.len() {
        room[k] = LittleEndian::read_u64(&pieces[k]);
    }
    Ok(())
}

/// The words of bytes, eight a word, the lowest first. Ragged is answered before memory is taken.
pub fn read_words(alloc: Global, bytes: &[u8]) -> Result<Vec<u64>, WordsError>
    ensures words { IfOk result (λ words. bytes.now ≡ word_bytes words.items) }
    ensures whole { IfOk result (λ words. length bytes.now % 8 ≡ 0) }
    ensures ragged { (result ≡ Err WordsError.Ragged) ↔ (length bytes.now % 8 ≢ 0) }
{
    let mut words = Vec::new(alloc);
    read_words_into(bytes, &mut words)?;
    Ok(words)
}
