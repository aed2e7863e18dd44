ghost use Rattle.std.specs.Prelude.{◌≡◌, ℕ, ◌+◌, ◌≤◌, ◌<◌, ◌^◌, List, [], ◌∷◌, ◌++◌, length};
ghost use Rattle.std.specs.Prelude.{take, slice_index, OnOk};
ghost use Rattle.std.specs.List.{All};
ghost use Rattle.collection_model.specs.Collection.{Posting};
ghost use Rattle.collection_model.specs.Sequences.{postings_in};
ghost use Rattle.cursor_api.specs.NextGeq.{IsCursorList};
ghost use Rattle.interval_max.specs.Peaks.{ArePeaksTo, ArePostingsFrom};

use cursor_api::DocCursor;
use no_memory::NoMemory;

/// How many neighbouring documents an interval has.
pub const INTERVAL: u32 = 32;

// How many postings are read at once.
const BLOCK: usize = 128;

// Every document is below it.
const BEHIND_ALL: u64 = 1 << 32;

// An interval in which a list has a document, and the greatest frequency of the list there.
#[derive(Clone, Copy)]
pub(crate) struct Peak {
    pub(crate) interval: u32,
    pub(crate) greatest: u32,
}

// A peak that tells nothing.
pub(crate) const NO_PEAK: Peak = Peak {
    interval: 0,
    greatest: 0,
};

// Gives the peaks of a list, by rising interval. The cursor is then at the end of the list.
pub(crate) fn take_peaks<C: DocCursor>(
    cursor: &mut C,
    peaks: &mut Vec<Peak>,
) -> Result<(), NoMemory>
    requires start { C.place cursor.old ≡ 0 }
    ensures list { C.list cursor.new ≡ C.list cursor.old }
    ensures peaks { OnOk result (ArePeaksTo (C.list cursor.old) (length (C.list cursor.old))
        peaks.new.items) }
{
    let mut docs = [0; BLOCK];
    let mut freqs = [0; BLOCK];
    peaks.clear();
    loop {
        let count = cursor.postings_below(BEHIND_ALL, &mut docs, &mut freqs);
        if count == 0 {
            return Ok(());
        }
        add_block(&docs[..count], &freqs, peaks)?;
    }
}

// Gives the peaks of a list by its two sequences, by rising interval, and tells how many they are.
// There is room for one more than its postings.
#[inline(never)]
pub(crate) fn sequence_peaks(docs: &[u64], sums: &[u64], peaks: &mut [Peak]) -> usize
    requires each { length sums.now ≡ length docs.now }
    requires room { length docs.now < length peaks.old }
    requires list { IsCursorList (postings_in docs.now sums.now) }
    ensures room { length peaks.new ≡ length peaks.old }
    ensures within { result ≤ length peaks.new }
    ensures peaks { ArePeaksTo (postings_in docs.now sums.now) (length docs.now)
        (take result peaks.new) }
{
    let mut last = NO_PEAK;
    let mut past = 0;
    let mut count = 0;
    for j in 0..docs.len() {
        let interval = docs[j] as u32 / INTERVAL;
        let freq = (sums[j] + 1 - past) as u32;
        past = sums[j] + 1;
        if interval == last.interval {
            let greatest = last.greatest.max(freq);
            last = Peak { interval, greatest };
        } else {
            peaks[count] = last;
            count += 1;
            last = Peak {
                interval,
                greatest: freq,
            };
        }
    }
    peaks[count] = last;
    count + 1
}

// Adds the peaks of the next postings of a list. The last peak is held apart, since more postings
// of its interval may come.
fn add_block(docs: &[u64], freqs: &[u64], peaks: &mut Vec<Peak>) -> Result<(), NoMemory>
    requires few { length docs.now ≤ 128 }
    requires each { length docs.now ≤ length freqs.now }
    requires docs { All (λ d. d < 2 ^ 32) docs.now }
    requires freqs { (j : ℕ) → j < length docs.now → slice_index freqs.now j < 2 ^ 32 }
    ensures { OnOk result ((list : List Posting) (from : ℕ)
        → ArePostingsFrom list from docs.now freqs.now → ArePeaksTo list from peaks.old.items
        → ArePeaksTo list (from + length docs.now) peaks.new.items) }
{
    let mut last = pop_peak(peaks);
    let mut found = [NO_PEAK; BLOCK];
    let mut count = 0;
    for j in 0..docs.len() {
        let interval = docs[j] as u32 / INTERVAL;
        let freq = freqs[j] as u32;
        if interval == last.interval {
            let greatest = last.greatest.max(freq);
            last = Peak { interval, greatest };
        } else {
            found[count] = last;
            count += 1;
            last = Peak {
                interval,
                greatest: freq,
            };
        }
    }
    peaks.extend_from_slice(&found[..count])?;
    peaks.push(last)?;
    Ok(())
}

// Takes the last peak, or where there is none a peak of 0, which tells nothing.
fn pop_peak(peaks: &mut Vec<Peak>) -> Peak
    ensures { (list : List Posting) (from : ℕ) → ArePeaksTo list from peaks.old.items
        → ArePeaksTo list from (peaks.new.items ++ result ∷ []) }
{
    match peaks.pop() {
        Some(last) => last,
        None => NO_PEAK,
    }
}
