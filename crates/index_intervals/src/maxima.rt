ghost use Rattle.std.specs.Prelude.{◌≡◌, ◌+◌, ◌*◌, ◌≤◌, ◌<◌, ◌&&◌, nat_le, length, IfOk, OnOk};
ghost use Rattle.collection_model.specs.Collection.{list_of};
ghost use Rattle.index_file.specs.IndexView.{word_count};
ghost use Rattle.interval_max.specs.Intervals.{interval_count};
ghost use Rattle.interval_max.specs.Kept.{HoldsMaxima};
ghost use Rattle.index_intervals.specs.LongLists.{AreIndexMaxima, StandsBefore, has_maxima};
ghost use Rattle.index_intervals.specs.LongLists.{long_postings};
ghost use Rattle.segments.specs.Laws.{IsInRange};

use cursor_api::DocCursor;
use index_file::{Index, ListWalk};
use index_reading::ListSource;
use interval_max::{INTERVAL, MaximaView, MaximaWriter};
use no_memory::NoMemory;
use postings::PostingCursor;
use std::alloc::Global;

// The fewest postings of a list that has maxima.
const FEWEST: u32 = 256;

// For each so many intervals such a list has a posting at least.
const WIDEST: u64 = 256;

// The most postings that such lists have, for each word that pays.
pub(crate) const POSTINGS_A_WORD: u64 = 64;

/// The maxima of the longer lists of a collection, in one slice of bytes that a caller can keep.
///
/// These lists have 256 postings or more and one for each 256 intervals, and all of them no more
/// than 64 for each word of the file. So what making them takes, time and memory, is at most a
/// fixed number of times what the file is, also where few words state many long lists.
#[derive(Drop)]
pub struct IndexMaxima {
    pub(crate) bytes: Vec<u8>,
}

impl IndexMaxima {
    /// The maxima of an index, by one pass over its lists; those behind the last with postings are
    /// not looked at.
    pub fn of(alloc: Global, index: &Index<'_>) -> Result<IndexMaxima, NoMemory>
        ensures { IfOk result (λ m. AreIndexMaxima (word_count index.now) index.now.collection
            m.bytes.items) }
    {
        index.stands_for_a_collection();
        let mut writer = MaximaWriter::new(alloc);
        let mut lists = index.lists_in_turn();
        let mut postings = 0;
        for term in 0..index.walked_terms() {
            postings = add_list(index, &mut lists, term, postings, &mut writer)?;
        }
        let bytes = writer.finish()?;
        Ok(IndexMaxima { bytes })
    }

    /// The maxima of any lists, for which so many words pay, by a cursor over each.
    pub fn of_lists<S: ListSource>(
        alloc: Global,
        source: &S,
        words: u64,
    ) -> Result<IndexMaxima, NoMemory>
        requires { IsInRange (S.collection source.now) }
        ensures { IfOk result (λ m. AreIndexMaxima words (S.collection source.now) m.bytes.items) }
    {
        let mut writer = MaximaWriter::new(alloc);
        let mut postings = 0;
        for term in 0..source.walked_terms() {
            postings = add_by_cursor(alloc, source, words, term, postings, &mut writer)?;
        }
        let bytes = writer.finish()?;
        Ok(IndexMaxima { bytes })
    }

    /// The bytes, of which a `MaximaView` can be made as long as they are kept.
    pub fn bytes(&self) -> &[u8]
        ensures { result.now ≡ self.now.bytes.items }
    {
        self.bytes.as_slice()
    }

    /// The maxima, lent.
    pub fn view(&self) -> MaximaView<'_>
        ensures { result.bytes.now ≡ self.now.bytes.items }
    {
        MaximaView::new(self.bytes.as_slice())
    }
}

// Adds the next list, where it has maxima. The long lists before it have so many postings; it tells
// how many they have with it.
fn add_list(
    index: &Index<'_>,
    lists: &mut ListWalk<'_>,
    term: u32,
    before: u64,
    writer: &mut MaximaWriter,
) -> Result<u64, NoMemory>
    requires within { term < length index.now.collection.lists }
    requires stands { StandsBefore index.now term lists.old }
    requires before { before ≡ long_postings index.now.collection term }
    requires narrow { before ≤ 4294967295 * term }
    ensures stands { IfOk result (λ n. StandsBefore index.now (term + 1) lists.new) }
    ensures postings { IfOk result (λ n. n ≡ long_postings index.now.collection (term + 1)) }
    ensures narrow { IfOk result (λ n. n ≤ 4294967295 * (term + 1)) }
    ensures added { let c = index.now.collection in let words = word_count index.now in
        OnOk result (HoldsMaxima (has_maxima words c) (list_of c) term writer.old
        → HoldsMaxima (has_maxima words c) (list_of c) (term + 1) writer.new) }
{
    index.stands_for_a_collection();
    if !lists.is_next(term) {
        return Ok(before);
    }
    let list = lists.next_list();
    lists.pass_list();
    let count = list.docs.len();
    if !is_long(count, index.documents()) {
        return Ok(before);
    }
    let postings = before + u64::from(count);
    if postings / POSTINGS_A_WORD <= index.word_count() {
        let mut cursor = PostingCursor::new(list.docs, list.freqs, list.greatest);
        writer.add(term, &mut cursor, index.documents())?;
    }
    Ok(postings)
}

// Adds the list of a term by a cursor over it, where it has maxima. The long lists before it have
// so many postings; it tells how many they have with it.
fn add_by_cursor<S: ListSource>(
    alloc: Global,
    source: &S,
    words: u64,
    term: u32,
    before: u64,
    writer: &mut MaximaWriter,
) -> Result<u64, NoMemory>
    requires in_range { IsInRange (S.collection source.now) }
    requires within { term < length (S.collection source.now).lists }
    requires before { before ≡ long_postings (S.collection source.now) term }
    requires narrow { before ≤ 4294967295 * term }
    ensures postings { IfOk result (λ n. n ≡ long_postings (S.collection source.now) (term + 1)) }
    ensures narrow { IfOk result (λ n. n ≤ 4294967295 * (term + 1)) }
    ensures added { let c = S.collection source.now in
        OnOk result (HoldsMaxima (has_maxima words c) (list_of c) term writer.old
        → HoldsMaxima (has_maxima words c) (list_of c) (term + 1) writer.new) }
{
    let mut cursor = source.list_cursor(alloc, term)?;
    let count = cursor.len();
    if !is_long(count, source.documents()) {
        return Ok(before);
    }
    let postings = before + u64::from(count);
    if postings / POSTINGS_A_WORD > words {
        return Ok(postings);
    }
    writer.add(term, &mut cursor, source.documents())?;
    Ok(postings)
}

// Whether a list of so many of n documents is long.
pub(crate) fn is_long(postings: u32, n: u32) -> bool
    ensures { result ≡ (nat_le 256 postings && nat_le (interval_count n) (256 * postings)) }
{
    let intervals = u64::from(n / INTERVAL) + 1;
    postings >= FEWEST && intervals <= WIDEST * u64::from(postings)
}
