ghost use Rattle.std.specs.Prelude.{◌≡◌, ◌<◌, ◌+◌, ◌*◌, ◌/◌, ◌^◌, [], ◌∷◌, ◌++◌, length, OnOk, OnErr};
ghost use Rattle.collection_model.specs.Collection.{greatest};
ghost use Rattle.index_file.specs.FileWords.{sizes_words};
ghost use Rattle.index_file.specs.Builder.{repeated};

use no_memory::NoMemory;
use partition_path::Cuts;

// The bits of a word.
const WORD_BITS: u64 = 64;

// The word of two halves.
fn word_of_halves(low: u64, high: u64) -> u64
    requires low { low < 2 ^ 32 }
    requires high { high < 2 ^ 32 }
    ensures { result ≡ low + 2 ^ 32 * high }
{
    low + (high << 32)
}

// The greatest frequency, 0 where there is none.
pub(crate) fn greatest_freq(freqs: &[u32]) -> u32
    ensures { result ≡ greatest freqs.now }
{
    let mut most = 0;
    for freq in freqs {
        most = most.max(*freq);
    }
    most
}

// The directory words of a list of these frequencies, whose sequences begin at a word.
pub(crate) fn spell_entry(first: u64, freqs: &[u32], doc_cuts: &Cuts, freq_cuts: &Cuts) -> [u64; 4]
    requires first { first < 2 ^ 63 }
    requires postings { length freqs.now < 2 ^ 32 }
    requires doc_parts { length doc_cuts.now.ends < 2 ^ 32 }
    requires freq_parts { length freq_cuts.now.ends < 2 ^ 32 }
    ensures { result ≡ first ∷ (first + (doc_cuts.now.total + 63) / 64) ∷
        (length freqs.now + 2 ^ 32 * length doc_cuts.now.ends) ∷
        (length freq_cuts.now.ends + 2 ^ 32 * greatest freqs.now) ∷ [] }
{
    [
        first,
        first + doc_cuts.total().div_ceil(WORD_BITS),
        word_of_halves(freqs.len() as u64, doc_cuts.ends().len() as u64),
        word_of_halves(
            freq_cuts.ends().len() as u64,
            u64::from(greatest_freq(freqs)),
        ),
    ]
}

// Appends sizes, two in a word, the lower document in the low half.
pub(crate) fn push_sizes(words: &mut Vec<u64>, sizes: &[u32]) -> Result<(), NoMemory>
    ensures { OnOk result (words.new.items ≡ words.old.items ++ sizes_words sizes.now) }
{
    let (pairs, last) = sizes.as_chunks::<2>();
    for pair in pairs {
        let word = word_of_halves(u64::from(pair[0]), u64::from(pair[1]));
        words.push(word)?;
    }
    if let Some(size) = last.first() {
        words.push(u64::from(*size))?;
    }
    Ok(())
}

// Appends an entry so many times. A refusal leaves the words as they were.
pub(crate) fn push_entries(to: &mut Vec<u64>, entry: [u64; 4], count: u64) -> Result<(), NoMemory>
    requires few { count < 2 ^ 32 }
    ensures ok { OnOk result (to.new.items ≡ to.old.items ++ repeated count entry) }
    ensures err { OnErr result (to.new.items ≡ to.old.items) }
{
    let len = to.len();
    to.reserve_exact(4 * count as usize)?;
    for _ in 0..count {
        if to.extend_from_slice(&entry).is_err() {
            to.truncate(len);
            return Err(NoMemory);
        }
    }
    Ok(())
}
