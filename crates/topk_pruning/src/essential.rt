ghost use Rattle.std.specs.Prelude.{◌≡◌, ℕ, ◌+◌, ◌≤◌, ◌<◌, ◌^◌, List, drop, length};
ghost use Rattle.std.specs.List.{All};
ghost use Rattle.std.specs.List.Sorted.{IsPermutation};
ghost use Rattle.topk_pruning.specs.Terms.{AreSpared, IsEssential, bounds};

use crate::probe::is_above;
use crate::shortlist::Shortlist;
use crate::term::{Term, total_bound};
use cursor_api::DocCursor;

// A list of no more postings is always read, and never asked for a candidate. With half and with
// twice as many `tiny` takes 1.02 and 1.01 times the instructions, and with none lists of a 64th of
// 20,000 documents take 1.33 times.
const MOST_READ: u32 = 2_048;

// How many terms are essential with what is held: none where all the bounds together do not beat
// the bar, and all while there is no bar.
pub(crate) fn essential_now(terms: &[Term], top: &Shortlist) -> usize
    requires light { bounds terms.now < 2 ^ 58 }
    ensures { AreSpared top.now.floor top.now.k top.now.held terms.now result }
{
    essential_terms(terms, top.bar())
}

// How many terms are essential: the bounds of the others together do not beat the bar, and those of
// one more would.
fn essential_terms(terms: &[Term], bar: Option<u64>) -> usize
    requires light { bounds terms.now < 2 ^ 58 }
    ensures { IsEssential terms.now bar result }
{
    let mut left = total_bound(terms);
    let mut count = 0;
    for term in terms {
        if !is_above(left, bar) {
            return count;
        }
        left -= term.bound;
        count += 1;
    }
    count
}

// Makes the terms of short lists essential too: to read such a list costs less than to ask it for
// candidates. They go behind the essential terms; it tells how many are essential then.
pub(crate) fn with_short_lists<C: DocCursor>(
    cursors: &[C],
    terms: &mut [Term],
    essential: usize,
) -> usize
    requires within { All (λ t. t.list < length cursors.now) terms.old }
    requires few { essential ≤ length terms.old }
    ensures moved { IsPermutation terms.old terms.new }
    ensures spared { (floor k : ℕ) (held : List (ℕ × ℕ))
        → AreSpared floor k held terms.old essential → AreSpared floor k held terms.new result }
{
    let mut count = essential;
    for place in essential..terms.len() {
        count = take_short(cursors, terms, count, place);
    }
    count
}

// Puts the term at a place behind the first so many where its list is short, and tells how many
// they are then.
fn take_short<C: DocCursor>(cursors: &[C], terms: &mut [Term], count: usize, place: usize) -> usize
    requires within { All (λ t. t.list < length cursors.now) terms.old }
    requires before { count ≤ place }
    requires inside { place < length terms.old }
    ensures moved { IsPermutation terms.old terms.new }
    ensures each { length terms.new ≡ length terms.old }
    ensures more { count ≤ result }
    ensures within { result ≤ place + 1 }
    ensures less { bounds (drop result terms.new) ≤ bounds (drop count terms.old) }
{
    let term = terms[place];
    if cursors[term.list].len() > MOST_READ {
        return count;
    }
    terms.swap(count, place);
    count + 1
}
