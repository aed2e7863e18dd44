ghost use Rattle.std.specs.Prelude.{◌≡◌, ◌≢◌, ℕ, ◌+◌, ◌^◌, ◌<◌, ◌≤◌, ◌++◌, List, [], map, length, slice_index, IfOk, IfErr, IfSome, IfNone, OnOk};
ghost use Rattle.block_max.specs.Blocks.{BlockList, blocks_before, blocks_of, nth_list};
ghost use Rattle.block_max.specs.SideWords.{block_freqs, side_words, words_seen};
ghost use Rattle.block_max.specs.SideFaults.{HasFrame, IsFirstSideFault, IsFirstWrong, IsFirstWrongOf, AreRight, AllRight};

use crate::fault::{SideCheck, SideFault};
use crate::source::BlockSource;
use no_memory::NoMemory;
use std::alloc::Global;

// The first word of a side file: the bytes `PEFBLOCK`.
const OPENING: u64 = 5_423_265_565_232_219_472;

// The last one: the bytes `KCOLBFEP`.
const END: u64 = 5_784_106_546_989_318_987;

/// The words of the side file of some lists: for each block its greatest frequency, between two
/// words before them and two behind.
pub fn side_words<S: BlockSource>(alloc: Global, source: &S) -> Result<Vec<u64>, NoMemory>
    ensures { IfOk result (λ words. words.items ≡ side_words (S.lists source.now)) }
{
    let mut words = vec![in alloc; OPENING, 1]?;
    for term in 0..source.walked_terms() {
        add_blocks(&mut words, source, term)?;
    }
    let blocks = words.len() as u64 - 2;
    words.push(blocks)?;
    words.push(END)?;
    Ok(words)
}

// Appends the greatest frequency of each block of a list.
fn add_blocks<S: BlockSource>(words: &mut Vec<u64>, source: &S, term: u32) -> Result<(), NoMemory>
    requires { term < length (S.lists source.now) }
    ensures { OnOk result (words.new.items ≡ words.old.items
        ++ map (λ b. b.greatest) (blocks_of (nth_list (S.lists source.now) term))) }
{
    for block in 0..source.blocks(term) {
        words.push(u64::from(source.greatest(term, block)))?;
    }
    Ok(())
}

/// The words of a side file, of which it is known that they are those of some lists.
#[derive(Clone, Copy)]
pub struct Side<'a> {
    words: &'a [u64],
}

impl<'a> Side<'a> {
    /// The words as a side file of these lists, or their first check that breaks.
    pub fn view<S: BlockSource>(words: &'a [u64], source: &S) -> Result<Side<'a>, SideFault>
        ensures seen { IfOk result (λ side. words_seen side ≡ words.entry.now) }
        ensures ok { IfOk result (λ side. words.entry.now ≡ side_words (S.lists source.now)) }
        ensures other_words { IfErr result (λ f.
            words.entry.now ≢ side_words (S.lists source.now)) }
        ensures first { IfErr result (λ f. IsFirstSideFault (S.lists source.now) words.entry.now
            f) }
    {
        let stated = match frame(words) {
            Ok(stated) => stated,
            Err(check) => return Err(whole(check)),
        };
        let total = source.blocks_before(source.terms());
        if stated != total || words.len() as u64 - 4 != total {
            return Err(whole(SideCheck::S5));
        }
        match first_wrong(words, source) {
            Some((term, part)) => Err(SideFault {
                check: SideCheck::S6,
                term,
                part,
            }),
            None => Ok(Side { words }),
        }
    }

    // The side file of no words.
    pub(crate) fn of_nothing() -> Side<'a>
        ensures { words_seen result ≡ [] }
    {
        Side { words: &[] }
    }

    /// The side file that the words are, where it is known that `view` accepts them: nothing is
    /// looked at.
    pub fn known<S: BlockSource>(words: &'a [u64], _source: &S) -> Side<'a>
        requires { words.now ≡ side_words (S.lists _source.now) }
        ensures { words_seen result ≡ words.entry.now }
    {
        Side { words }
    }
}

impl<'a> Side<'a> {
    // The greatest frequency of a block of a list, before whose blocks there are so many others.
    pub(crate) fn greatest(&self, before: u64, block: u32) -> u32
        requires within { 2 + before + block < length (words_seen self.now) }
        requires fits { slice_index (words_seen self.now) (2 + before + block) < 2 ^ 32 }
        ensures { result ≡ slice_index (words_seen self.now) (2 + before + block) }
    {
        word_of(self.words, before, block) as u32
    }
}

// A fault of no block.
fn whole(check: SideCheck) -> SideFault
    ensures { result ≡ record { check = check; term = 0; part = 0 } }
{
    SideFault {
        check,
        term: 0,
        part: 0,
    }
}

// How many blocks the words state, or the first of the first four checks that breaks.
fn frame(words: &[u64]) -> Result<u64, SideCheck>
    ensures ok { IfOk result (λ stated. HasFrame words.now stated) }
    ensures broken { IfErr result (λ check. (cs : List BlockList)
        → IsFirstSideFault cs words.now (record { check = check; term = 0; part = 0 })) }
{
    let count = words.len();
    if count < 4 {
        return Err(SideCheck::S1);
    }
    if words[0] != OPENING {
        return Err(SideCheck::S2);
    }
    if words[1] != 1 {
        return Err(SideCheck::S3);
    }
    if words[count - 1] != END {
        return Err(SideCheck::S4);
    }
    Ok(words[count - 2])
}

// The first block whose word is not its greatest frequency, as its term and its place among the
// term's blocks.
fn first_wrong<S: BlockSource>(words: &[u64], source: &S) -> Option<(u32, u32)>
    requires { length (block_freqs (S.lists source.now)) + 4 ≤ length words.now }
    ensures some { IfSome result (λ at. IsFirstWrong (S.lists source.now) words.now at.0 at.1) }
    ensures none { IfNone result (AllRight (S.lists source.now) words.now
        (length (S.lists source.now))) }
{
    let mut before = 0;
    for term in 0..source.walked_terms() {
        if let Some(part) = wrong_block(words, source, term, before) {
            return Some((term, part));
        }
        before += u64::from(source.blocks(term));
    }
    None
}

// The first such block of a list, before whose blocks there are so many others.
fn wrong_block<S: BlockSource>(words: &[u64], source: &S, term: u32, before: u64) -> Option<u32>
    requires term { term < length (S.lists source.now) }
    requires before { before ≡ blocks_before (S.lists source.now) term }
    requires room { length (block_freqs (S.lists source.now)) + 4 ≤ length words.now }
    ensures some { IfSome result (λ q. IsFirstWrongOf (S.lists source.now) words.now term q) }
    ensures none { IfNone result (AreRight (S.lists source.now) words.now term
        (length (nth_list (S.lists source.now) term).ends)) }
{
    for block in 0..source.blocks(term) {
        if word_of(words, before, block) != u64::from(source.greatest(term, block)) {
            return Some(block);
        }
    }
    None
}

// The word of a block, before whose list's blocks there are so many others.
fn word_of(words: &[u64], before: u64, block: u32) -> u64
    requires { 2 + before + block < length words.now }
    ensures { result ≡ slice_index words.now (2 + before + block) }
{
    words[2 + before as usize + block as usize]
}
