ghost use Rattle.std.specs.Prelude.{◌≡◌, ◌<◌, ◌^◌, IsTrue, IfSome, IfNone, map, length, sum};
ghost use Rattle.collection_model.specs.Collection.{greatest};
ghost use Rattle.topk_pruning.specs.Saves.{are_apart, are_read, are_sparse, count_of, is_long};
ghost use Rattle.topk_pruning.specs.Saves.{longest_of, most_alike, one_is_long, pruning_saves};

use crate::term::highest_bound;
use cursor_api::DocCursor;

// The documents of one window of `top_exhaustive`. Where there are no more, most is read before
// there is a bar: pruning cost 0.99 to 1.34 times as much as scoring every document.
const ONE_WINDOW: u32 = 8_192;

// Of more lists than these, with fewer postings in the mean than MEAN_LENGTH, moving from pivot to
// pivot costs more than reading: 8 and 16 lists of 128 postings cost 1.05 and 1.17 times as much,
// and 16 of some 400 about 1.1 times.
const FEW_LISTS: usize = 4;

const MEAN_LENGTH: u128 = 1_024;

// Of several lists with fewer postings in the mean than one for so many documents, few lie in a
// window, and to go from window to window costs more than is saved: two to four lists of a learned
// sparse collection cost 0.95 to 1.28 times as much as reading, eight and sixteen 0.98 to 1.25
// times. With 24 in place of 16 sixteen lists still cost up to 1.21 times, and with 32 and 12 those
// of `frequent` take 1.003 times the instructions.
const DOCUMENTS_OF_SOME: u128 = 64;

const DOCUMENTS_OF_MORE: u128 = 16;

// So many lists are still some.
const SOME_LISTS: usize = 5;

// Of fewer postings pruning costs up to 0.98 times as much, since it fills less room for scores.
const LEAST_SPARSE: u64 = 256;

// The most postings, times k, for each frequency of the heaviest term up to the highest bound. Of
// more, the k documents held leave so many just below the bar that to ask for these costs more than
// to read them. Two lists with 5,770 of them cost 0.09 to 1.02 times as much, six with 2,680 cost
// 0.22 to 0.70, eight with 3,750 cost 1.06 to 1.08, and four with 11,330 cost 0.17 to 1.07; 24 and
// 32 with up to 710 cost 0.02 to 0.73, and with 840 and more, k being 100, mostly more than 1.
const MOST_ALIKE_OF_TWO: u128 = 6_144;

const MOST_ALIKE: u128 = 3_072;

const MOST_ALIKE_OF_MANY: u128 = 768;

// So many lists are many.
const MANY_LISTS: usize = 17;

// So many times k frequencies of the heaviest term, up to the highest bound, let documents stand
// apart. Of fewer the bar lies low, and each list is asked for most documents of the others: two to
// four lists of `tiny` cost 1.11 to 1.93 times as much as reading. With 4 they still do, and with
// 32 a collection of 20,000 documents takes 1.01 times the instructions.
const MANY_FREQUENCIES: u128 = 8;

// Where these are fewer, so many postings, times k, for each of them are the most. With 1,536 two
// lists of `tiny` cost 1.49 times as much, and with none of 364 postings 1.0 instead of 0.83.
const FEW_ALIKE: u128 = 1_024;

// A list that has so many times the postings of all the others is asked for theirs rather than
// read, however few documents there are. With half, twice and four times as many a dictionary of
// 4,877 documents takes 1.00 times the instructions.
const MOST_TIMES: u128 = 16;

// But with fewer postings it is read as soon: pairs of `small` cost 1.4 to 2.9 times as much.
const LEAST_LONG: u64 = 512;

/// Whether it can save anything to look for documents to pass over, where k of `n` are wanted: it
/// is what `top_wand`, `top_maxscore` and `top_wand_under` decide by.
pub fn pruning_can_save<C: DocCursor>(cursors: &[C], weights: &[u32], k: u32, n: u32) -> bool
    requires each { length weights.now ≡ length cursors.now }
    requires light { sum weights.now < 2 ^ 26 }
    ensures { result ≡ pruning_saves n (map C.list cursors.now) weights.now k }
{
    let postings = count_lists(cursors);
    if are_soon_read(cursors.len(), postings.all) {
        return false;
    }
    // Of fewer than k postings for each of the k documents, nearly all are read: with 1,000 wanted
    // pruning cost 1.02 to 1.23 times as much with up to 150 for each, and with 500 mostly as much
    // with up to 300.
    u64::from(k) * u64::from(k) <= postings.all
        && (postings.one_list_is_long(k)
            || (n > ONE_WINDOW
                && (cursors.len() == 1
                    || (!postings_lie_far_apart(cursors.len(), postings.all, n)
                        && scores_lie_apart(cursors, weights, postings.all, k)))))
}

/// How many postings the one list has that has 512 or more, and sixteen times those of all the
/// others together, where these are k or more; None where no list has so many.
pub fn long_list<C: DocCursor>(cursors: &[C], k: u32) -> Option<u32>
    ensures some { IfSome result (λ longest. IsTrue (one_is_long (map C.list cursors.now) k)
        × (longest ≡ longest_of (map C.list cursors.now))) }
    ensures none { IfNone result (¬ IsTrue (one_is_long (map C.list cursors.now) k)) }
{
    let postings = count_lists(cursors);
    if postings.one_list_is_long(k) {
        Some(postings.longest)
    } else {
        None
    }
}

// How many postings some lists have together, as far as a u64 counts, and how many the longest of
// them has.
#[derive(Clone, Copy)]
struct Postings {
    all: u64,
    longest: u32,
}

// The postings of the lists of some cursors.
fn count_lists<C: DocCursor>(cursors: &[C]) -> Postings
    ensures all { result.all ≡ count_of (map C.list cursors.now) }
    ensures longest { result.longest ≡ longest_of (map C.list cursors.now) }
{
    let mut all: u64 = 0;
    let mut longest = 0;
    for cursor in cursors {
        let count = cursor.len();
        all = all.saturating_add(u64::from(count));
        longest = count.max(longest);
    }
    Postings { all, longest }
}

impl Postings {
    // Whether nearly all of them are in one list, and those of the others can be the best.
    fn one_list_is_long(self, k: u32) -> bool
        ensures { result ≡ is_long self.all self.longest k }
    {
        let longest = u64::from(self.longest);
        let others = self.all.saturating_sub(longest);
        longest >= LEAST_LONG
            && u128::from(others) * MOST_TIMES <= u128::from(longest)
            && u64::from(k) <= others
    }
}

// Whether so many lists with so many postings are read sooner than searched: they are more than a
// few, and short in the mean.
fn are_soon_read(lists: usize, postings: u64) -> bool
    ensures { result ≡ are_read lists postings }
{
    lists > FEW_LISTS && u128::from(postings) < MEAN_LENGTH * lists as u128
}

// Whether the postings of so many lists, of which there are so many, lie far apart in n documents.
fn postings_lie_far_apart(lists: usize, postings: u64, n: u32) -> bool
    ensures { result ≡ are_sparse n lists postings }
{
    let documents = if lists <= SOME_LISTS {
        DOCUMENTS_OF_SOME
    } else {
        DOCUMENTS_OF_MORE
    };
    postings >= LEAST_SPARSE && documents * u128::from(postings) < u128::from(n) * lists as u128
}

// Whether few of the postings, of which there are so many, have to share a score. The scale of
// weights does not count.
fn scores_lie_apart<C: DocCursor>(cursors: &[C], weights: &[u32], postings: u64, k: u32) -> bool
    requires each { length weights.now ≡ length cursors.now }
    requires count { postings ≡ count_of (map C.list cursors.now) }
    ensures { result ≡ are_apart (map C.list cursors.now) weights.now k }
{
    let each = u128::from(u64::from(k) * u64::from(heaviest(weights)));
    let highest = u128::from(highest_bound(cursors, weights));
    let alike = u128::from(postings) * each;
    alike <= most_alike(cursors.len()) * highest
        && (MANY_FREQUENCIES * each <= highest || alike <= FEW_ALIKE * highest)
}

// How many postings of so many lists, times k, may share a frequency of the heaviest term.
fn most_alike(lists: usize) -> u128
    ensures { result ≡ most_alike lists }
{
    if lists <= 2 {
        MOST_ALIKE_OF_TWO
    } else if lists < MANY_LISTS {
        MOST_ALIKE
    } else {
        MOST_ALIKE_OF_MANY
    }
}

// The greatest weight, 0 where there is none.
fn heaviest(weights: &[u32]) -> u32
    ensures { result ≡ greatest weights.now }
{
    let mut most = 0;
    for weight in weights {
        most = (*weight).max(most);
    }
    most
}
