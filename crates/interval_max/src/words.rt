ghost use Rattle.std.specs.Prelude.{◌≡◌, ◌+◌, ◌≤◌, ◌++◌, length, OnOk};
ghost use Rattle.collection_model.specs.Bytes.{le64};
ghost use Rattle.interval_max.specs.Kept.{word_from};

use no_memory::NoMemory;

/// How many bytes a word has.
pub(crate) const WORD_BYTES: usize = 8;

// The word of the eight bytes from one on, the lowest first.
pub(crate) fn word_at(bytes: &[u8], at: usize) -> u64
    requires { at + 8 ≤ length bytes.now }
    ensures { result ≡ word_from bytes.now at }
{
    let mut word = [0; WORD_BYTES];
    word.copy_from_slice(&bytes[at..at + WORD_BYTES]);
    u64::from_le_bytes(word)
}

// Appends the eight bytes of a word, the lowest first.
pub(crate) fn push_word(bytes: &mut Vec<u8>, word: u64) -> Result<(), NoMemory>
    ensures { OnOk result (bytes.new.items ≡ bytes.old.items ++ le64 word) }
{
    bytes.extend_from_slice(&word.to_le_bytes())?;
    Ok(())
}
