ghost use Rattle.std.specs.Prelude.{◌≡◌, ℕ, ◌+◌, ◌*◌, ◌^◌, ◌≤◌, ◌<◌, ◌&&◌, Bool, true, false, List, ◌∷◌, map, length, IfOk, OnOk};
ghost use Rattle.std.specs.Int.{bit_at};
ghost use Rattle.std.specs.List.{All};
ghost use Rattle.std.specs.List.Sorted.{IsPermutation, IsNonDecreasingBy};
ghost use Rattle.collection_model.specs.Collection.{Posting};
ghost use Rattle.scan_plans.specs.Matches.{AreBelow, in_all, in_any};
ghost use Rattle.scan_plans.specs.Scan.{in_each};
ghost use Rattle.scan_plans.specs.Window.{AllAreMarked, AreMarkedBy, IsMarkedWord, is_marked, passing};

use crate::scan::{least_doc, seek_all};
use crate::window::{Block, MARKED_WORDS, mark_lists, new_marks};
use cursor_api::{DocCursor, next_geq_is_first};
use no_memory::NoMemory;
use std::alloc::Global;

// How many documents room is taken for at first, at most.
const FIRST_ROOM: usize = 64;

// How many words of marks are told at once, at most.
const WORDS_AT_ONCE: usize = 64;

// How many documents lie between two tries to tell words, at least.
const UNTRIED: u32 = 256;

// Words of marks in which documents are told at once.
#[derive(Drop)]
struct ToldWords {
    marks: [u64; WORDS_AT_ONCE],
    // The first document from which words are tried again.
    next_try: u32,
}

/// The documents that are in all the lists, rising; none where there is no list. It goes along the
/// shortest list, whose documents the others are asked for by `next_geq`, or by whole words of
/// marks, and leaves the cursors in the order of their lists' lengths.
pub fn and_docs<C: DocCursor>(alloc: Global, cursors: &mut [C]) -> Result<Vec<u32>, NoMemory>
    requires few { length cursors.old ≤ 1024 }
    requires at_start { All (λ c. C.place c ≡ 0) cursors.old }
    ensures { (n : ℕ) → AreBelow n (map C.list cursors.old)
        → IfOk result (λ r. r.items ≡ in_all n (map C.list cursors.old)) }
{
    shortest_first(cursors);
    match cursors.split_first_mut() {
        Some((shortest, others)) => shared_docs(alloc, shortest, others),
        None => Ok(Vec::new(alloc)),
    }
}

// The documents that a list and all the others have, rising, from the starts of the lists on. Where
// all of them tell whole words of marks, the documents of these words are told at once.
fn shared_docs<C: DocCursor>(
    alloc: Global,
    shortest: &mut C,
    others: &mut [C],
) -> Result<Vec<u32>, NoMemory>
    requires at_start { C.place shortest.old ≡ 0 }
    requires others_at_start { All (λ c. C.place c ≡ 0) others.old }
    ensures { (n : ℕ) → AreBelow n (C.list shortest.old ∷ map C.list others.old)
        → IfOk result (λ r. r.items ≡ in_all n (C.list shortest.old ∷ map C.list others.old)) }
{
    next_geq_is_first();
    let mut docs = Vec::with_capacity(alloc, FIRST_ROOM.min(shortest.len() as usize))?;
    let mut told = ToldWords {
        marks: [u64::MAX; WORDS_AT_ONCE],
        next_try: 0,
    };
    while let Some(doc) = shortest.doc() {
        let Some(next) = seek_all(others, doc) else {
            return Ok(docs);
        };
        if next != doc {
            shortest.next_geq(next);
            continue;
        }
        let words = append_words(&mut docs, doc, shortest, others, &mut told)?;
        if words > 0 {
            shortest.next_geq(doc.saturating_add(64 * words as u32));
        } else {
            docs.push(doc)?;
            shortest.advance();
        }
    }
    Ok(docs)
}

// Adds the documents from one on that a list and all the others have, in as many whole words of
// marks as all of them tell, and tells how many words these are. Where a try was made not long
// before, it makes none. All places are marked, and are so again in the end.
fn append_words<C: DocCursor>(
    docs: &mut Vec<u32>,
    first: u32,
    shortest: &C,
    others: &[C],
    told: &mut ToldWords,
) -> Result<usize, NoMemory>
    requires small { length told.old.marks ≤ 1024 }
    requires marked { AllAreMarked told.old.marks }
    ensures within { IfOk result (λ words. words ≤ length told.old.marks) }
    ensures docs { IfOk result (λ words. docs.old.items
        ≡ passing (λ d. in_each d (C.list shortest.now ∷ map C.list others.now)) first
        → docs.new.items ≡ passing (λ d. in_each d (C.list shortest.now ∷ map C.list others.now))
        (first + 64 * words)) }
    ensures count { length told.new.marks ≡ length told.old.marks }
    ensures marked { OnOk result (AllAreMarked told.new.marks) }
{
    if first < told.next_try {
        return Ok(0);
    }
    told.next_try = first.saturating_add(UNTRIED);
    let marks = &mut told.marks;
    let most = shortest.keep_in_words(first, marks);
    if most == 0 {
        return Ok(0);
    }
    let words = keep_in_all(others, first, most, marks);
    append_marked(docs, first, 64 * words, &mut marks[..words])?;
    mark_all(marks);
    Ok(words)
}

// Takes back the marks of documents that any of the lists does not have, in as many of the first
// words, `most` at most, as all the cursors tell. It tells how many words these are.
fn keep_in_all<C: DocCursor>(cursors: &[C], first: u32, most: usize, marks: &mut [u64]) -> usize
    requires room { most ≤ length marks.old }
    ensures within { result ≤ most }
    ensures count { length marks.new ≡ length marks.old }
    ensures kept { (k : ℕ) → k < 64 * result → is_marked marks.new k
        ≡ (is_marked marks.old k && in_each (first + k) (map C.list cursors.now)) }
{
    let mut words = most;
    for cursor in cursors {
        words = cursor.keep_in_words(first, &mut marks[..words]);
    }
    words
}

// Marks all places.
fn mark_all(marks: &mut [u64])
    ensures count { length marks.new ≡ length marks.old }
    ensures marked { AllAreMarked marks.new }
{
    for i in 0..marks.len() {
        marks[i] = u64::MAX;
    }
}

// Puts the cursors into the order of their lists' lengths.
fn shortest_first<C: DocCursor>(cursors: &mut [C])
    ensures same { IsPermutation cursors.old cursors.new }
    ensures rising { IsNonDecreasingBy (λ c. length (C.list c)) cursors.new }
{
    cursors.sort_unstable_by_key(|cursor| cursor.len());
}

/// The documents that are in any of the lists, rising, each once. It touches each posting once:
/// window by window of documents, it marks those of one list after another.
pub fn or_docs<C: DocCursor>(alloc: Global, cursors: &mut [C]) -> Result<Vec<u32>, NoMemory>
    requires few { length cursors.old ≤ 1024 }
    requires at_start { All (λ c. C.place c ≡ 0) cursors.old }
    ensures { (n : ℕ) → AreBelow n (map C.list cursors.old)
        → IfOk result (λ r. r.items ≡ in_any n (map C.list cursors.old)) }
{
    let mut docs = Vec::new(alloc);
    let mut buffer = new_marks(alloc, MARKED_WORDS)?;
    let marks = buffer.as_mut_slice();
    let mut block = Block::new();
    while let Some(first) = least_doc(cursors) {
        let reached = mark_lists(cursors, first, marks, &mut block);
        append_marked(&mut docs, first, reached, marks)?;
    }
    Ok(docs)
}

// Adds the marked documents of a window from `first` on, of which so many places were reached, and
// takes their marks back.
fn append_marked(
    docs: &mut Vec<u32>,
    first: u32,
    reached: usize,
    marks: &mut [u64],
) -> Result<(), NoMemory>
    requires small { length marks.old ≤ 1024 }
    requires within { reached ≤ 64 * length marks.old }
    requires behind { (k : ℕ) → reached ≤ k → k < 64 * length marks.old
        → is_marked marks.old k ≡ false }
    requires fit { (k : ℕ) → k < 64 * length marks.old → is_marked marks.old k ≡ true
        → first + k < 2 ^ 32 }
    ensures docs { OnOk result ((test : ℕ → Bool) → AreMarkedBy test first marks.old
        → docs.old.items ≡ passing test first
        → docs.new.items ≡ passing test (first + 64 * length marks.old)) }
    ensures count { length marks.new ≡ length marks.old }
    ensures clear { OnOk result (All (λ w. w ≡ 0) marks.new) }
{
    for i in 0..reached.div_ceil(64) {
        append_word(docs, u64::from(first) + 64 * i as u64, marks[i])?;
        marks[i] = 0;
    }
    Ok(())
}

// Adds the documents that the bits of a word mark, of which the lowest stands for document `base`
// and each for the one after.
fn append_word(docs: &mut Vec<u32>, base: u64, word: u64) -> Result<(), NoMemory>
    requires fit { (k : ℕ) → k < 64 → bit_at word k ≡ 1 → base + k < 2 ^ 32 }
    ensures docs { OnOk result ((test : ℕ → Bool) → IsMarkedWord test base word
        → docs.old.items ≡ passing test base → docs.new.items ≡ passing test (base + 64)) }
{
    let mut rest = word;
    while rest != 0 {
        let one = rest.trailing_zeros();
        docs.push((base + u64::from(one)) as u32)?;
        // The lowest 1 is taken back.
        rest &= !(1 << one);
    }
    Ok(())
}
