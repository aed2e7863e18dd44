ghost use Rattle.std.specs.Prelude.{◌≡◌, ℕ, ◌+◌, ◌*◌, ◌<◌, ◌^◌, Bool, true, List, length, IfOk, OnOk};
ghost use Rattle.std.specs.Prelude.{◌++◌, ◌∷◌, []};
ghost use Rattle.std.specs.List.{All};
ghost use Rattle.collection_model.specs.Bytes.{word_bytes};
ghost use Rattle.collection_model.specs.Collection.{Posting, docs_of, greatest_freq};
ghost use Rattle.collection_model.specs.Sequences.{postings_in};
ghost use Rattle.cursor_api.specs.NextGeq.{IsCursorList};
ghost use Rattle.interval_max.specs.Kept.{entry_words};

use crate::bytes::put_bytes;
use crate::peaks::{INTERVAL, NO_PEAK, Peak, sequence_peaks, take_peaks};
use crate::words::push_word;
use cursor_api::DocCursor;
use no_memory::NoMemory;
use std::alloc::Global;

// The most steps that a byte counts.
const MOST_STEPS: u32 = 255;

// What the form of a list's bytes counts in its first word, behind the step.
const FORM: u64 = 1 << 31;

/// The maxima of lists, which are added one after the other, by rising term. They become one slice
/// of bytes, of which `MaximaView` is a view.
#[derive(Drop)]
pub struct MaximaWriter {
    // The bytes of each list, one behind the other.
    bytes: Vec<u8>,
    // Four words for each list: its term, form and step; where its bytes begin; where they end; in
    // how many intervals it has a document.
    words: Vec<u64>,
    // The peaks and the bytes of one list, in room that is kept from each to the next.
    peaks: Vec<Peak>,
    part: Vec<u8>,
}

impl MaximaWriter {
    ghost use Rattle.interval_max.specs.Kept.{AreMaximaOf, HoldsMaxima};

    /// The maxima of no list.
    pub fn new(alloc: Global) -> MaximaWriter
        ensures { (has : ℕ → Bool) (list : ℕ → List Posting) → HoldsMaxima has list 0 result }
    {
        MaximaWriter {
            bytes: Vec::new(alloc),
            words: Vec::new(alloc),
            peaks: Vec::new(alloc),
            part: Vec::new(alloc),
        }
    }

    /// Adds the maxima of a list whose documents are below `n`, under a term above those of the
    /// lists that were added before. The cursor stands at the start of the list, and at its end
    /// behind the call.
    pub fn add<C: DocCursor>(&mut self, term: u32, cursor: &mut C, n: u32) -> Result<(), NoMemory>
        requires start { C.place cursor.old ≡ 0 }
        requires below { All (λ d. d < n) (docs_of (C.list cursor.old)) }
        ensures added { OnOk result ((has : ℕ → Bool) (list : ℕ → List Posting)
            → HoldsMaxima has list term self.old → has term ≡ true
            → list term ≡ C.list cursor.old → HoldsMaxima has list (term + 1) self.new) }
    {
        take_peaks(cursor, &mut self.peaks)?;
        let step = cursor.max_freq().div_ceil(MOST_STEPS).max(1);
        let intervals = (n / INTERVAL) as usize + 1;
        let is_each = put_bytes(&self.peaks, step, intervals, &mut self.part)?;
        let count = self.peaks.len();
        self.push_part(term, is_each, step, count)?;
        Ok(())
    }

    /// Adds the maxima of a list by its two sequences, as `add` does those of a list under a cursor:
    /// by its documents, and by the sums of its frequencies. Its greatest frequency is given.
    pub fn add_sequences(
        &mut self,
        term: u32,
        docs: &[u64],
        sums: &[u64],
        greatest: u32,
        n: u32,
    ) -> Result<(), NoMemory>
        requires each { length sums.now ≡ length docs.now }
        requires list { IsCursorList (postings_in docs.now sums.now) }
        requires below { All (λ d. d < n) docs.now }
        requires greatest { greatest ≡ greatest_freq (postings_in docs.now sums.now) }
        ensures added { OnOk result ((has : ℕ → Bool) (list : ℕ → List Posting)
            → HoldsMaxima has list term self.old → has term ≡ true
            → list term ≡ postings_in docs.now sums.now
            → HoldsMaxima has list (term + 1) self.new) }
    {
        if self.peaks.len() <= docs.len() {
            self.peaks.resize(docs.len() + 1, NO_PEAK)?;
        }
        let count = sequence_peaks(docs, sums, &mut self.peaks);
        let step = greatest.div_ceil(MOST_STEPS).max(1);
        let intervals = (n / INTERVAL) as usize + 1;
        let is_each = put_bytes(&self.peaks[..count], step, intervals, &mut self.part)?;
        self.push_part(term, is_each, step, count)?;
        Ok(())
    }

    // Appends the bytes of the part, and its four words. The list has a document in so many
    // intervals.
    fn push_part(
        &mut self,
        term: u32,
        is_each: bool,
        step: u32,
        intervals: usize,
    ) -> Result<(), NoMemory>
        requires { step < 2 ^ 31 }
        ensures bytes { OnOk result (self.new.bytes.items
            ≡ self.old.bytes.items ++ self.old.part.items) }
        ensures words { OnOk result (self.new.words.items ≡ self.old.words.items
            ++ entry_words term is_each step (length self.old.bytes.items)
            (length self.old.bytes.items + length self.old.part.items)
            intervals) }
    {
        let from = self.bytes.len() as u64;
        self.bytes.extend_from_slice(&self.part)?;
        let to = self.bytes.len() as u64;
        let form = if is_each { FORM } else { 0 };
        let head = (u64::from(term) << 32) + form + u64::from(step);
        self.words
            .extend_from_slice(&[head, from, to, intervals as u64])?;
        Ok(())
    }

    /// The maxima of all lists that were added, as one slice of bytes.
    pub fn finish(self) -> Result<Vec<u8>, NoMemory>
        ensures { IfOk result (λ bytes. (has : ℕ → Bool) (list : ℕ → List Posting) (n : ℕ)
            → HoldsMaxima has list n self → AreMaximaOf has list n bytes.items) }
    {
        let mut bytes = self.bytes;
        let begin = bytes.len() as u64;
        push_words(&mut bytes, &self.words)?;
        push_word(&mut bytes, begin)?;
        bytes.shrink_to_fit();
        Ok(bytes)
    }
}

// Appends the bytes of words.
fn push_words(bytes: &mut Vec<u8>, words: &[u64]) -> Result<(), NoMemory>
    ensures added { OnOk result (bytes.new.items ≡ bytes.old.items ++ word_bytes words.now) }
    ensures words { OnOk result (All (λ w. w < 2 ^ 64) words.now) }
{
    for word in words {
        push_word(bytes, *word)?;
    }
    Ok(())
}
