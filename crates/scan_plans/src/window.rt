ghost use Rattle.std.specs.Prelude.{◌≡◌, ℕ, ◌+◌, ◌-◌, ◌*◌, ◌^◌, ◌≤◌, ◌<◌, ◌||◌, true, false, map, length, sum, slice_index, IfOk, IfSome, IfNone};
ghost use Rattle.std.specs.List.{All};
ghost use Rattle.std.specs.List.Sorted.{IsStrictlyIncreasing};
ghost use Rattle.collection_model.specs.Collection.{docs_of};
ghost use Rattle.scan_plans.specs.Matches.{has_doc};
ghost use Rattle.scan_plans.specs.Scan.{doc_at, StandsFrom};
ghost use Rattle.scan_plans.specs.Window.{AreGiven, AreInside, AreMarked, IsAdded, IsBlank, IsFilled, IsReached, IsFirstCandidate, NoneIsCandidate, AreTakenBack, is_marked};

use cursor_api::DocCursor;
use no_memory::NoMemory;
use std::alloc::Global;

// How many words mark the documents of a window that are scored, where there are so many: their
// scores take 64 KiB.
const SCORED_WORDS: usize = 128;

// How many words mark the documents of a window of which no scores are wanted: it has 65,536
// documents.
pub(crate) const MARKED_WORDS: usize = 1024;

// How many postings are read at once.
const BLOCK: usize = 128;

/// A window of documents that is scored. It has as many documents as scores.
#[derive(Drop)]
pub struct Window<'a> {
    /// The scores of its documents.
    pub scores: &'a mut [u64],
    /// A bit for each, in words of 64.
    pub marks: &'a mut [u64],
    /// Its first document.
    pub first: u32,
}

/// Room for the postings that are read at once.
#[derive(Drop)]
pub struct Block {
    docs: [u64; BLOCK],
    freqs: [u64; BLOCK],
}

impl Block {
    /// Room for 128 postings.
    pub fn new() -> Block {
        Block {
            docs: [0; BLOCK],
            freqs: [0; BLOCK],
        }
    }
}

/// How many words mark the documents of a window that is scored: as many as `n` documents need, and
/// no more than 128.
pub fn scored_words(n: u32) -> usize
    ensures some { 1 ≤ result }
    ensures small { result ≤ 128 }
{
    (n as usize).div_ceil(64).max(1).min(SCORED_WORDS)
}

/// Room for the scores of a window's documents, 64 for each word that marks them, all 0.
pub fn new_scores(alloc: Global, words: usize) -> Result<Vec<u64>, NoMemory>
    requires small { words ≤ 128 }
    ensures count { IfOk result (λ scores. length scores.items ≡ 64 * words) }
    ensures clear { IfOk result (λ scores. All (λ s. s ≡ 0) scores.items) }
{
    Ok(vec![in alloc; 0; 64 * words]?)
}

/// Room for the marks of a window's documents, a bit for each, none set.
pub fn new_marks(alloc: Global, words: usize) -> Result<Vec<u64>, NoMemory>
    ensures count { IfOk result (λ marks. length marks.items ≡ words) }
    ensures clear { IfOk result (λ marks. All (λ w. w ≡ 0) marks.items) }
    ensures none { IfOk result (λ marks. (k : ℕ) → k < 64 * words
        → is_marked marks.items k ≡ false) }
{
    Ok(vec![in alloc; 0; words]?)
}

// Whether a cursor stands at a document below an end.
fn stands_below<C: DocCursor>(cursor: &C, end: u64) -> bool
    ensures below { result ≡ true → (C.place cursor.now < length (C.list cursor.now))
        × (slice_index (docs_of (C.list cursor.now)) (C.place cursor.now) < end) }
    ensures behind { result ≡ false → (d : ℕ)
        → doc_at (C.list cursor.now) (C.place cursor.now) ≡ Some d → end ≤ d }
{
    match cursor.doc() {
        Some(doc) => u64::from(doc) < end,
        None => false,
    }
}

// Adds the frequencies of some postings, times their list's weight, to the scores of their
// documents in a window, and marks these.
fn add_postings(docs: &[u64], freqs: &[u64], weight: u32, window: Window<'_>)
    requires each { length docs.now ≤ length freqs.now }
    requires rising { IsStrictlyIncreasing docs.now }
    requires inside { AreInside window.first (length window.scores.now) docs.now }
    requires wide { length window.scores.now ≤ 64 * length window.marks.now }
    requires room { (j : ℕ) → j < length docs.now
        → slice_index window.scores.now (slice_index docs.now j - window.first)
        + weight * slice_index freqs.now j < 2 ^ 64 }
    ensures count { length window.exit.0.now ≡ length window.entry.scores.now }
    ensures marks_count { length window.exit.1.0.now ≡ length window.entry.marks.now }
    ensures given { AreGiven ◌+◌ window.entry.first docs.now
        (λ j. weight * slice_index freqs.now j) 0 (length docs.now)
        (slice_index window.entry.scores.now) (slice_index window.exit.0.now) }
    ensures marked { AreGiven ◌||◌ window.entry.first docs.now (λ _. true) 0 (length docs.now)
        (is_marked window.entry.marks.now) (is_marked window.exit.1.0.now) }
{
    let Window {
        scores,
        marks,
        first,
    } = window;
    for j in 0..docs.len() {
        let at = (docs[j] - u64::from(first)) as usize;
        scores[at] += u64::from(weight) * freqs[j];
        marks[at / 64] |= 1 << (at % 64);
    }
}

/// Adds what a list gives the documents of a window, its weight times their frequencies, marks
/// them, and moves its cursor behind the window, block by block. It tells how many of the window's
/// places it reached.
pub fn add_list<C: DocCursor>(
    cursor: &mut C,
    weight: u32,
    window: Window<'_>,
    block: &mut Block,
) -> usize
    requires stand { StandsFrom window.first (C.list cursor.old) (C.place cursor.old) }
    requires wide { length window.scores.now ≤ 64 * length window.marks.now }
    requires room { All (λ s. s + weight * 4294967295 < 2 ^ 64) window.scores.now }
    ensures list { C.list cursor.new ≡ C.list cursor.old }
    ensures stand { StandsFrom (window.entry.first + length window.entry.scores.now)
        (C.list cursor.new) (C.place cursor.new) }
    ensures added { IsAdded (C.list cursor.old) weight window.entry.first window.entry.scores.now
        window.entry.marks.now window.exit.0.now window.exit.1.0.now result }
{
    let Window {
        scores,
        marks,
        first,
    } = window;
    let end = u64::from(first) + scores.len() as u64;
    let mut reached = 0;
    while stands_below(cursor, end) {
        let count = cursor.postings_below(end, &mut block.docs, &mut block.freqs);
        add_postings(
            &block.docs[..count],
            &block.freqs,
            weight,
            Window {
                scores,
                marks,
                first,
            },
        );
        reached = (block.docs[count - 1] - u64::from(first)) as usize + 1;
    }
    reached
}

// Scores and marks the documents of a window that any of the lists has, and moves the cursors
// behind it. A score is below 2^58. It tells how many of the window's places were reached: from
// there on none is marked.
pub(crate) fn add_lists<C: DocCursor>(
    cursors: &mut [C],
    weights: &[u32],
    window: Window<'_>,
    block: &mut Block,
) -> usize
    requires stand { All (λ c. StandsFrom window.first (C.list c) (C.place c)) cursors.old }
    requires each { length weights.now ≡ length cursors.old }
    requires some { All (λ w. 1 ≤ w) weights.now }
    requires light { sum weights.now < 2 ^ 26 }
    requires same { length window.scores.now ≡ 64 * length window.marks.now }
    requires blank { IsBlank window.scores.now window.marks.now }
    ensures lists { map C.list cursors.new ≡ map C.list cursors.old }
    ensures stand { All (λ c. StandsFrom (window.entry.first + length window.entry.scores.now)
        (C.list c) (C.place c)) cursors.new }
    ensures filled { IsFilled (map C.list cursors.old) weights.now window.entry.first
        window.entry.scores.now window.entry.marks.now window.exit.0.now window.exit.1.0.now
        result }
{
    let Window {
        scores,
        marks,
        first,
    } = window;
    let mut reached = 0;
    for i in 0..cursors.len() {
        let window = Window {
            scores,
            marks,
            first,
        };
        reached = add_list(&mut cursors[i], weights[i], window, block).max(reached);
    }
    reached
}

/// Takes back the places of a window from `from` on, up to the first marked one whose score is at
/// least `least`, and gives that place with its score; None where no other has so much, and then
/// all are taken back. No place before `from` is marked, nor one from `reached` on.
pub fn take_candidate(
    from: usize,
    reached: usize,
    least: u64,
    scores: &mut [u64],
    marks: &mut [u64],
) -> Option<(usize, u64)>
    requires reached { IsReached scores.old marks.old reached }
    requires start { from ≤ length scores.old }
    requires taken { (k : ℕ) → k < from → is_marked marks.old k ≡ false }
    ensures some { IfSome result (λ e. IsFirstCandidate least scores.old marks.old e.0 e.1) }
    ensures taken { IfSome result (λ e. AreTakenBack (e.0 + 1) scores.old marks.old scores.new
        marks.new) }
    ensures none { IfNone result (NoneIsCandidate least scores.old marks.old) }
    ensures all_taken { IfNone result (AreTakenBack (length scores.old) scores.old marks.old
        scores.new marks.new) }
{
    let words = reached.div_ceil(64);
    let mut i = from / 64;
    while i < words {
        if let Some(candidate) = take_in_word(i, least, scores, marks) {
            return Some(candidate);
        }
        i += 1;
    }
    None
}

// Takes back the places of word i, up to the first marked one whose score is at least `least`, and
// gives that place with its score. No place before the word is marked.
fn take_in_word(i: usize, least: u64, scores: &mut [u64], marks: &mut [u64]) -> Option<(usize, u64)>
    requires word { i < length marks.old }
    requires wide { length scores.old ≤ 64 * length marks.old }
    requires taken { (k : ℕ) → k < 64 * i → is_marked marks.old k ≡ false }
    requires inside { (k : ℕ) → k < 64 * (i + 1) → is_marked marks.old k ≡ true
        → k < length scores.old }
    requires marked { (k : ℕ) → k < length scores.old → is_marked marks.old k ≡ false
        → slice_index scores.old k ≡ 0 }
    ensures some { IfSome result (λ e. IsFirstCandidate least scores.old marks.old e.0 e.1) }
    ensures taken { IfSome result (λ e. AreTakenBack (e.0 + 1) scores.old marks.old scores.new
        marks.new) }
    ensures none { IfNone result ((k : ℕ) → k < 64 * (i + 1) → is_marked marks.old k ≡ true
        → slice_index scores.old k < least) }
    ensures all_taken { IfNone result (AreTakenBack (64 * (i + 1)) scores.old marks.old scores.new
        marks.new) }
{
    let mut rest = marks[i];
    while rest != 0 {
        let one = rest.trailing_zeros() as usize;
        let at = 64 * i + one;
        let score = scores[at];
        scores[at] = 0;
        // The lowest 1 is taken back.
        rest &= !(1 << one);
        if score >= least {
            marks[i] = rest;
            return Some((at, score));
        }
    }
    marks[i] = 0;
    None
}

// Marks some documents of a window from `first` on.
fn mark_docs(docs: &[u64], first: u32, marks: &mut [u64])
    requires rising { IsStrictlyIncreasing docs.now }
    requires inside { AreInside first (64 * length marks.old) docs.now }
    ensures count { length marks.new ≡ length marks.old }
    ensures given { AreGiven ◌||◌ first docs.now (λ _. true) 0 (length docs.now)
        (is_marked marks.old) (is_marked marks.new) }
{
    for j in 0..docs.len() {
        let at = (docs[j] - u64::from(first)) as usize;
        marks[at / 64] |= 1 << (at % 64);
    }
}

// Marks the documents of a list in a window from `first` on, and moves its cursor behind the
// window, block by block. It tells how many of the window's places it reached.
fn mark_list<C: DocCursor>(
    cursor: &mut C,
    first: u32,
    marks: &mut [u64],
    block: &mut Block,
) -> usize
    requires stand { StandsFrom first (C.list cursor.old) (C.place cursor.old) }
    requires small { length marks.old ≤ 1024 }
    ensures list { C.list cursor.new ≡ C.list cursor.old }
    ensures stand { StandsFrom (first + 64 * length marks.old) (C.list cursor.new)
        (C.place cursor.new) }
    ensures count { length marks.new ≡ length marks.old }
    ensures marks { (k : ℕ) → k < 64 * length marks.old
        → is_marked marks.new k ≡ (is_marked marks.old k || has_doc (first + k)
        (C.list cursor.old)) }
    ensures within { result ≤ 64 * length marks.old }
    ensures behind { (k : ℕ) → result ≤ k → k < 64 * length marks.old
        → is_marked marks.new k ≡ is_marked marks.old k }
{
    let end = u64::from(first) + 64 * marks.len() as u64;
    let mut reached = 0;
    while stands_below(cursor, end) {
        let count = cursor.docs_below(end, &mut block.docs);
        mark_docs(&block.docs[..count], first, marks);
        reached = (block.docs[count - 1] - u64::from(first)) as usize + 1;
    }
    reached
}

// Marks the documents of a window from `first` on that any of the lists has, and moves the cursors
// behind it. It tells how many of the window's places were reached: from there on none is marked.
pub(crate) fn mark_lists<C: DocCursor>(
    cursors: &mut [C],
    first: u32,
    marks: &mut [u64],
    block: &mut Block,
) -> usize
    requires stand { All (λ c. StandsFrom first (C.list c) (C.place c)) cursors.old }
    requires small { length marks.old ≤ 1024 }
    requires clear { All (λ w. w ≡ 0) marks.old }
    ensures lists { map C.list cursors.new ≡ map C.list cursors.old }
    ensures stand { All (λ c. StandsFrom (first + 64 * length marks.old) (C.list c) (C.place c))
        cursors.new }
    ensures count { length marks.new ≡ length marks.old }
    ensures marks { AreMarked (map C.list cursors.old) first marks.new }
    ensures within { result ≤ 64 * length marks.old }
    ensures behind { (k : ℕ) → result ≤ k → k < 64 * length marks.old
        → is_marked marks.new k ≡ false }
{
    let mut reached = 0;
    for cursor in cursors.iter_mut() {
        reached = mark_list(cursor, first, marks, block).max(reached);
    }
    reached
}
