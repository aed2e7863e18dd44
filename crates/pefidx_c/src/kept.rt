// What a caller keeps of an index beside its words.
ghost use Rattle.std.specs.Prelude.{◌≡◌, ◌≢◌, ◌⊎◌, ◌<◌, ◌≤◌, ◌^◌, List, ℕ, [], ◌∷◌, ◌++◌, length, option_map, IfOk};
ghost use Rattle.collection_model.specs.Collection.{list_of, first_at_least};
ghost use Rattle.index_file.specs.FileWords.{IsIndex};
ghost use Rattle.index_file.specs.IndexView.{index_stated, with_starts, word_count};
ghost use Rattle.pefidx_c.specs.Asked.{collection_in};
ghost use Rattle.index_intervals.specs.LongLists.{AreIndexMaxima};
ghost use Rattle.pefidx_c.specs.Kept.{AreKept, TellsOf, all_flags, kept_by};
ghost use Rattle.pefidx_c.specs.Rooms.{put_in, given_in};
ghost use Rattle.pefidx_c.specs.StatusNumber.{number_of};

use crate::heads::{list_heads, posting_by_head};
use crate::room::give;
use crate::status::Status;
use index_file::{FIRST_LIST_BIT, Index, list_starts, packed_lists_stand};
use index_intervals::IndexMaxima;
use no_memory::NoMemory;
use std::alloc::Global;

// The greatest sum of flags. The only flag is 1, for where the lists begin and for their heads.
const ALL_FLAGS: u32 = 1;

/// The numbers that a caller keeps beside the words and lends to each call that asks; `what` is a
/// sum of flags. 1: where the lists of a packed file begin, by which a list is found without a
/// search, and what the head of each says, by which its two sequences are. The first are given, as
/// many as there is room for, and how many there are.
#[unsafe(no_mangle)]
pub extern "C" fn pefidx_keep(
    alloc: Global,
    words: &[u64],
    what: u32,
    kept: &mut [u64],
    count: &mut usize,
) -> u32
    requires few { length words.now < 2 ^ 57 }
    requires index { IsIndex words.now }
    ensures no_flag { all_flags < what
        → (result ≡ number_of Status.NoFlag) × (kept.new ≡ kept.old) × (count.new ≡ count.old) }
    ensures no_memory { result ≡ number_of Status.NoMemory
        → (kept.new ≡ kept.old) × (count.new ≡ count.old) }
    ensures given { let made = kept_by what words.now in
        what ≤ all_flags → result ≢ number_of Status.NoMemory
        → (result ≡ number_of (given_in (length kept.old) (length made)))
        × (kept.new ≡ put_in kept.old made) × (count.new ≡ length made) }
{
    if what > ALL_FLAGS {
        return Status::NoFlag.number();
    }
    match numbers_kept(alloc, words, what) {
        Ok(made) => give(made.as_slice(), kept, count),
        Err(_) => Status::NoMemory.number(),
    }
}

/// The interval maxima of the longer lists, as bytes that a caller keeps beside the words and lends
/// to each call that asks by intervals. The first are given, as many as there is room for, and how
/// many there are.
#[unsafe(no_mangle)]
pub extern "C" fn pefidx_maxima(
    alloc: Global,
    words: &[u64],
    kept: &[u64],
    maxima: &mut [u8],
    count: &mut usize,
) -> u32
    requires few { length words.now < 2 ^ 57 }
    requires index { IsIndex words.now }
    requires kept { AreKept words.now kept.now }
    ensures no_memory { result ≡ number_of Status.NoMemory
        → (maxima.new ≡ maxima.old) × (count.new ≡ count.old) }
    ensures given { result ≢ number_of Status.NoMemory
        → (made : List ℕ)
        × AreIndexMaxima (word_count (index_stated words.now)) (collection_in words.now) made
        × (result ≡ number_of (given_in (length maxima.old) (length made)))
        × (maxima.new ≡ put_in maxima.old made) × (count.new ≡ length made) }
{
    match IndexMaxima::of(alloc, &index_of(words, kept)) {
        Ok(made) => give(made.bytes(), maxima, count),
        Err(_) => Status::NoMemory.number(),
    }
}

// The numbers that a sum of flags asks for.
fn numbers_kept(alloc: Global, words: &[u64], what: u32) -> Result<Vec<u64>, NoMemory>
    requires few { length words.now < 2 ^ 57 }
    requires index { IsIndex words.now }
    ensures { IfOk result (λ made. made.items ≡ kept_by what words.now) }
{
    packed_lists_stand();
    if what == 0 {
        return Ok(Vec::new(alloc));
    }
    let starts = list_starts(alloc, words)?;
    let documents = Index::known(words).documents();
    let heads = list_heads(alloc, words, documents, &starts)?;
    let count = starts.len() + heads.len();
    let mut numbers = Vec::with_capacity(alloc, count + 1)?;
    numbers.push(count as u64)?;
    numbers.extend_from_slice(&starts)?;
    numbers.extend_from_slice(&heads)?;
    Ok(numbers)
}

// The index that checked words are, with what is kept of it.
pub(crate) fn index_of<'a>(words: &'a [u64], kept: &'a [u64]) -> Index<'a>
    requires few { length words.now < 2 ^ 57 }
    requires index { IsIndex words.now }
    requires kept { AreKept words.now kept.now }
    ensures collection { result.collection ≡ collection_in words.entry.now }
    ensures stated { result ≡ with_starts (index_stated words.entry.now) result.starts }
{
    Index::with_starts(words, starts_in(kept))
}

// Where the lists begin, as far as it is kept.
fn starts_in(kept: &[u64]) -> &[u64]
    requires { (kept.now ≡ [])
        ⊎ ((starts : List ℕ) × (heads : List ℕ) × TellsOf kept.now starts heads) }
    ensures none { kept.entry.now ≡ [] → result.now ≡ [] }
    ensures starts { (starts : List ℕ) (heads : List ℕ) → TellsOf kept.entry.now starts heads
        → result.now ≡ starts }
{
    if kept.is_empty() {
        return kept;
    }
    &kept[1..1 + (kept[0] as usize).div_ceil(2)]
}

// What is kept of the first of some indexes, and of the others.
pub(crate) fn first_kept(kept: &[u64]) -> (&[u64], &[u64])
    requires { (kept.now ≡ [])
        ⊎ ((starts : List ℕ) × (others : List ℕ)
        × (kept.now ≡ (length starts ∷ starts) ++ others)) }
    ensures none { kept.entry.now ≡ [] → (result.0.now ≡ []) × (result.1.now ≡ []) }
    ensures first { (starts : List ℕ) (others : List ℕ)
        → kept.entry.now ≡ (length starts ∷ starts) ++ others
        → (result.0.now ≡ length starts ∷ starts) × (result.1.now ≡ others) }
{
    if kept.is_empty() {
        return (kept, kept);
    }
    kept.split_at(1 + kept[0] as usize)
}

// The first posting of a term's list whose document is at least d, by what is kept of the list.
pub(crate) fn posting_from(
    words: &[u64],
    kept: &[u64],
    index: &Index<'_>,
    term: u32,
    d: u32,
) -> Option<(u32, u32)>
    requires few { length words.now < 2 ^ 57 }
    requires is_index { IsIndex words.now }
    requires kept { AreKept words.now kept.now }
    requires collection { index.now.collection ≡ collection_in words.now }
    requires within { term < length (collection_in words.now).lists }
    ensures { result ≡ option_map (λ p. (p.doc, p.freq))
        (first_at_least (list_of (collection_in words.now) term) d) }
{
    packed_lists_stand();
    if kept.len() < 2 {
        return index.first_posting(term, d);
    }
    let head = kept[kept.len() / 2 + 1 + term as usize];
    if head == 0 {
        return index.first_posting(term, d);
    }
    let from = FIRST_LIST_BIT + kept[1 + term as usize];
    posting_by_head(words, index.documents(), from, head, d)
}
