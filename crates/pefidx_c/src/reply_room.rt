ghost use Rattle.std.specs.Prelude.{◌≡◌, ◌≢◌, ◌≤◌, ◌<◌, ◌^◌, List, ℕ, length, IfOk};
ghost use Rattle.std.specs.List.{All};
ghost use Rattle.command_model.specs.Replies.{IsReply};
ghost use Rattle.index_file.specs.FileWords.{IsIndex};
ghost use Rattle.collection_model.specs.Collection.{list_of};
ghost use Rattle.pefidx_c.specs.Asked.{collection_in, lists_of};
ghost use Rattle.pefidx_c.specs.Kept.{AreKept};
ghost use Rattle.pefidx_c.specs.ReplyRoom.{most_in_all, most_in_any, query_bytes, reply_bytes};
ghost use Rattle.pefidx_c.specs.StatusNumber.{number_of};
ghost use Rattle.query_text.specs.Parse.{NamesTerms};

use crate::kept::index_of;
use crate::status::Status;
use cursor_api::DocCursor;
use index_file::Index;
use no_memory::NoMemory;
use query_text::{ParseError, Query, parse};
use std::alloc::Global;

// The most bytes of the reply to a line that breaks a rule, and of that to `next`.
const BAD_BYTES: u64 = 11;

const NEXT_BYTES: u64 = 22;

// The most bytes of a count with the newline, of a document with the space before it, and of one
// with its score.
const COUNT_BYTES: u64 = 11;

const DOC_BYTES: u64 = 11;

const SCORED_BYTES: u64 = 30;

/// How many bytes the reply to a query line takes at most, with its newline, from the lengths of
/// the lists alone; nothing is answered. The line is given without its newline.
#[unsafe(no_mangle)]
pub extern "C" fn pefidx_room(
    alloc: Global,
    words: &[u64],
    kept: &[u64],
    line: &[u8],
    bytes: &mut usize,
) -> u32
    requires few { length words.now < 2 ^ 57 }
    requires index { IsIndex words.now }
    requires kept { AreKept words.now kept.now }
    ensures no_memory { result ≡ number_of Status.NoMemory → bytes.new ≡ bytes.old }
    ensures done { result ≢ number_of Status.NoMemory → (result ≡ number_of Status.Done)
        × (bytes.new ≡ reply_bytes (collection_in words.now) line.now) }
    ensures enough { (reply : List ℕ) → result ≢ number_of Status.NoMemory
        → IsReply (collection_in words.now) line.now reply → length reply ≤ bytes.new }
{
    let index = index_of(words, kept);
    match reply_bytes(alloc, &index, line) {
        Ok(most) => {
            *bytes = most as usize;
            Status::Done.number()
        }
        Err(_) => Status::NoMemory.number(),
    }
}

// The most bytes of the reply to a line.
fn reply_bytes(alloc: Global, index: &Index<'_>, line: &[u8]) -> Result<u64, NoMemory>
    ensures value { IfOk result (λ most. most ≡ reply_bytes index.now.collection line.now) }
    ensures enough { IfOk result (λ most. (reply : List ℕ)
        → IsReply index.now.collection line.now reply → length reply ≤ most) }
{
    index.stands_for_a_collection();
    match parse(alloc, line, index.terms()) {
        Ok(query) => Ok(query_bytes(index, &query)),
        Err(ParseError::Bad(_bad)) => Ok(BAD_BYTES),
        Err(ParseError::NoMemory) => Err(NoMemory),
    }
}

// The most bytes of the reply to what a line asks.
fn query_bytes(index: &Index<'_>, query: &Query) -> u64
    requires { NamesTerms (length index.now.collection.lists) query.now }
    ensures { result ≡ query_bytes index.now.collection query.now }
{
    match query {
        Query::Next { .. } => NEXT_BYTES,
        Query::And(terms) => COUNT_BYTES + DOC_BYTES * most_in_all(index, terms.as_slice()),
        Query::Or(terms) => COUNT_BYTES + DOC_BYTES * most_in_any(index, terms.as_slice()),
        Query::Top { k, terms } => {
            let most = most_in_any(index, terms.terms());
            COUNT_BYTES + SCORED_BYTES * most.min(u64::from(*k))
        }
    }
}

// How many documents can be in all of these terms' lists.
fn most_in_all(index: &Index<'_>, terms: &[u32]) -> u64
    requires { All (λ t. t < length index.now.collection.lists) terms.now }
    ensures value { result ≡ most_in_all index.now.collection.documents
        (lists_of index.now.collection terms.now) }
    ensures few { result < 2 ^ 32 }
{
    if terms.is_empty() {
        return 0;
    }
    let mut most = index.documents();
    for term in terms {
        most = count_of(index, *term).min(most);
    }
    u64::from(most)
}

// How many can be in any of them.
fn most_in_any(index: &Index<'_>, terms: &[u32]) -> u64
    requires few { length terms.now ≤ 1024 }
    requires named { All (λ t. t < length index.now.collection.lists) terms.now }
    ensures value { result ≡ most_in_any index.now.collection.documents
        (lists_of index.now.collection terms.now) }
    ensures few { result < 2 ^ 32 }
{
    let mut total = 0;
    for term in terms {
        total += u64::from(count_of(index, *term));
    }
    total.min(u64::from(index.documents()))
}

// How many postings a term's list has.
pub(crate) fn count_of(index: &Index<'_>, term: u32) -> u32
    requires { term < length index.now.collection.lists }
    ensures { result ≡ length (list_of index.now.collection term) }
{
    index.cursor(term).len()
}
