ghost use Rattle.std.specs.Prelude.{◌≡◌, ◌≤◌, nat_le, length};
ghost use Rattle.std.specs.List.{position_or_len};
ghost use Rattle.std.specs.List.Sorted.{IsNonDecreasingBy};
ghost use Rattle.collection_model.specs.Collection.{postings_of};
ghost use Rattle.cursor_api.specs.NextGeq.{IsCursorList, IsCursorAt, IsFirstFrom};
ghost use Rattle.cursor_api.specs.Postings.{postings-stand_at};

use crate::cursor::DocCursor;

/// A cursor over lent documents and their frequencies.
#[derive(Clone, Copy)]
pub struct PlainCursor<'a> {
    docs: &'a [u32],
    freqs: &'a [u32],
    at: usize,
    ghost same_length: { length docs.now ≡ length freqs.now },
    ghost lent: { IsCursorList (postings_of docs.now freqs.now) },
    ghost within: { at ≤ length docs.now },
}

impl<'a> PlainCursor<'a> {
    /// A cursor at the start of the list: the document at each place has the frequency at that
    /// place.
    pub fn new(docs: &'a [u32], freqs: &'a [u32]) -> PlainCursor<'a>
        requires same_length { length docs.now ≡ length freqs.now }
        requires list { IsCursorList (postings_of docs.now freqs.now) }
        ensures list { ⟦<PlainCursor<'a> as DocCursor>⟧.list result
            ≡ postings_of docs.entry.now freqs.entry.now }
        ensures start { ⟦<PlainCursor<'a> as DocCursor>⟧.place result ≡ 0 }
    {
        PlainCursor { docs, freqs, at: 0 }
    }
}

impl<'a> DocCursor for PlainCursor<'a> {
    ghost list = { λ c. postings_of c.docs.now c.freqs.now };

    ghost place = { λ c. c.at };

    fn doc(&self) -> Option<u32> {
        self.docs.get(self.at).copied()
    }

    fn freq(&mut self) -> u32 {
        self.freqs[self.at]
    }

    fn advance(&mut self) {
        self.at += 1;
    }

    fn next_geq(&mut self, d: u32) {
        let passed = gallop(&self.docs[self.at..], d);
        self.at += passed;
    }

    fn next_frequent(&mut self, f: u32) {
        let skipped = first_reaching(&self.freqs[self.at..], f);
        self.at += skipped;
    }

    fn docs_below(&mut self, end: u64, docs: &mut [u64]) -> usize {
        let rest = &self.docs[self.at..];
        let count = rest
            .partition_point(|doc| u64::from(*doc) < end)
            .min(docs.len());
        for j in 0..count {
            docs[j] = u64::from(rest[j]);
        }
        self.at += count;
        count
    }

    fn postings_below(&mut self, end: u64, docs: &mut [u64], freqs: &mut [u64]) -> usize {
        let first = self.at;
        let count = self.docs_below(end, docs);
        for j in 0..count {
            freqs[j] = u64::from(self.freqs[first + j]);
        }
        count
    }

    fn max_freq(&self) -> u32 {
        self.freqs.iter().max().copied().unwrap_or(0)
    }

    // The least frequency of the first k postings, which they all reach.
    fn common_freq(&self, k: u32) -> u32 {
        let count = k as usize;
        if count <= self.freqs.len() {
            self.freqs[..count].iter().min().copied().unwrap_or(0)
        } else {
            0
        }
    }

    fn len(&self) -> u32 {
        self.docs.len() as u32
    }

    ghost well_formed = { λ c. postings-stand_at c.docs.now c.freqs.now c.at c.same_length c.lent
        c.within };
}

// How many of the first documents are below `d`: a reach that doubles until it passes them, and a
// search by halves inside it.
fn gallop(docs: &[u32], d: u32) -> usize
    requires rising { IsNonDecreasingBy (λ x. x) docs.now }
    ensures { IsFirstFrom docs.now d result }
{
    let mut low = 0;
    while low < docs.len() - low && docs[2 * low] < d {
        low = 2 * low + 1;
    }
    let high = low + (docs.len() - low).min(low + 1);
    low + docs[low..high].partition_point(|doc| *doc < d)
}

// The place of the first number that is at least f, or how many they are.
fn first_reaching(numbers: &[u32], f: u32) -> usize
    ensures within { result ≤ length numbers.now }
    ensures first { result ≡ position_or_len (λ x. nat_le f x) numbers.now }
{
    numbers
        .iter()
        .position(|number| f <= *number)
        .unwrap_or(numbers.len())
}
