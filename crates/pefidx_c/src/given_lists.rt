// The lists of a collection that is given as arrays.
ghost use Rattle.std.specs.Prelude.{◌≡◌, ◌+◌, ◌≤◌, ◌<◌, ◌^◌, length, take, drop, sum, IfSome, IfNone};
ghost use Rattle.std.specs.List.{All};
ghost use Rattle.collection_model.specs.Collection.{postings_of, IsPostingList};
ghost use Rattle.part_cost.specs.Formats.{numbers_of};
ghost use Rattle.pefidx_c.specs.GivenLists.{format_of, lists_given, build_refusal, IsFirstBad};

use crate::status::Status;
use part_cost::{Format, formats_have_room};

// The most lists.
pub(crate) const MOST_LISTS: usize = 4_294_967_295;

// The number of the first format, and of the second; the other is the third, of number 3.
const FIRST: u32 = 1;

const SECOND: u32 = 2;

const LAST_FORMAT: u32 = 3;

// The lists of a collection: how many postings each has, the documents of all lists one after the
// other, their frequencies, and a size for each document.
#[derive(Clone, Copy)]
pub(crate) struct GivenLists<'a> {
    pub(crate) lengths: &'a [u32],
    pub(crate) docs: &'a [u32],
    pub(crate) freqs: &'a [u32],
    pub(crate) sizes: &'a [u32],
}

/// A posting that cannot stand in its list: the term, and how many postings stand before it.
#[repr(C)]
#[derive(Clone, Copy, Drop)]
pub struct BadPosting {
    pub term: u32,
    pub place: u64,
}

// The format of a number.
pub(crate) fn format_of(number: u32) -> Format
    ensures { result ≡ format_of number }
{
    if number == FIRST {
        Format::One
    } else if number == SECOND {
        Format::Two
    } else {
        Format::Three
    }
}

// How what is to be built in the format of a number is refused before a posting is looked at.
pub(crate) fn build_refusal(format: u32, given: GivenLists<'_>) -> Option<Status>
    ensures { result ≡ build_refusal format given.entry.lengths.now given.entry.docs.now
        given.entry.freqs.now given.entry.sizes.now }
{
    if format == 0 || format > LAST_FORMAT {
        return Some(Status::NoFormat);
    }
    let most_documents = format_of(format).most_documents();
    if given.lengths.len() > MOST_LISTS || given.sizes.len() > most_documents as usize {
        return Some(Status::TooMany);
    }
    if !(total(given.lengths) == given.docs.len() as u64 && given.docs.len() == given.freqs.len()) {
        return Some(Status::NotWhole);
    }
    None
}

// The sum of some lengths.
pub(crate) fn total(lengths: &[u32]) -> u64
    requires { length lengths.now < 2 ^ 32 }
    ensures { result ≡ sum lengths.now }
{
    let mut total = 0;
    for length in lengths {
        total += u64::from(*length);
    }
    total
}

// The first posting that cannot stand in its list.
pub(crate) fn first_bad(format: Format, given: GivenLists<'_>) -> Option<BadPosting>
    requires few { length given.lengths.now < 2 ^ 32 }
    requires documents { length given.sizes.now < 2 ^ 32 }
    requires whole { sum given.lengths.now ≡ length given.docs.now }
    requires same_length { length given.docs.now ≡ length given.freqs.now }
    ensures none { IfNone result (All
        (IsPostingList (numbers_of format) (length given.entry.sizes.now))
        (lists_given given.entry.lengths.now given.entry.docs.now given.entry.freqs.now)) }
    ensures bad { IfSome result (λ bad. IsFirstBad (numbers_of format)
        (length given.entry.sizes.now)
        (lists_given given.entry.lengths.now given.entry.docs.now given.entry.freqs.now)
        bad.term bad.place) }
{
    let documents = given.sizes.len() as u32;
    let mut from = 0;
    for term in 0..given.lengths.len() {
        let length = given.lengths[term] as usize;
        let list = part(given.docs, from, length);
        let counts = part(given.freqs, from, length);
        let good = good_prefix(format, list, counts, documents);
        if good < length {
            return Some(BadPosting {
                term: term as u32,
                place: good as u64,
            });
        }
        from += length;
    }
    None
}

// So many items from a place on.
pub(crate) fn part<T>(items: &[T], from: usize, count: usize) -> &[T]
    requires { from + count ≤ length items.now }
    ensures { result.now ≡ take count (drop from items.now) }
{
    &items[from..from + count]
}

// How many postings the longest prefix has that is a posting list in a format.
fn good_prefix(format: Format, docs: &[u32], freqs: &[u32], documents: u32) -> usize
    requires same_length { length docs.now ≡ length freqs.now }
    ensures within { result ≤ length docs.now }
    ensures good { IsPostingList (numbers_of format) documents
        (take result (postings_of docs.now freqs.now)) }
    ensures bad { result < length docs.now → ¬ IsPostingList (numbers_of format) documents
        (take (result + 1) (postings_of docs.now freqs.now)) }
{
    formats_have_room();
    // The least document that may come next, and the sum of the frequencies before it.
    let mut least: u64 = 0;
    let mut sum: u64 = 0;
    for place in 0..docs.len() {
        let doc = docs[place];
        let freq = freqs[place];
        if u64::from(doc) < least
            || doc >= documents
            || freq == 0
            || sum + u64::from(freq) > format.most_sum()
        {
            return place;
        }
        least = u64::from(doc) + 1;
        sum += u64::from(freq);
    }
    docs.len()
}
