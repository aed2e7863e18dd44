ghost use Rattle.std.specs.Prelude.{◌≡◌, ℕ, ◌+◌, ◌-◌, ◌*◌, ◌≤◌, ◌<◌, ◌^◌, true, false, map, take, drop, length, min, IfSome, IfNone};
ghost use Rattle.std.specs.List.{All};
ghost use Rattle.scan_plans.specs.Scan.{HasPassed};
ghost use Rattle.scan_plans.specs.Window.{IsBlank, IsLeftBlank};
ghost use Rattle.topk_pruning.specs.Held.{IsConsidered, IsSearch, IsSearchedTo};
ghost use Rattle.topk_pruning.specs.Terms.{AreBefore, AreKept, AreSpared, AreTermsIn, AreWindowTerms, beats, score_in};
ghost use Rattle.topk_pruning.specs.Windows.{AreAsked, IsScoredIn};

use crate::probe::{doc_from, is_above, probe};
use crate::shortlist::Shortlist;
use crate::term::{Term, total_bound};
use cursor_api::DocCursor;
use scan_plans::{Block, Window, add_list, take_candidate, top_list_grows};

// To ask a list for a candidate costs as much as to read so many of its postings. With 3 and with 5
// lines of up to 17 long lists of `tiny` cost up to 1.18 and 1.04 times as much as scoring every
// document, with 8 they cost 1.03.
const COST_OF_ASKING: u64 = 8;

// Of so many scores one is looked at to tell how many candidates there will be.
const SEEN_OF: usize = 16;

// A window of so many documents from `first` on, of `n` in all, and its terms, so many essential
// ones first: their lists are read, and those of the others are asked for candidates, or read where
// that costs less.
#[derive(Clone, Copy)]
pub(crate) struct WindowTerms<'a> {
    pub(crate) all: &'a [Term],
    pub(crate) essential: usize,
    pub(crate) first: u32,
    pub(crate) count: usize,
    pub(crate) n: u32,
}

// A document of which the score in some lists is known, and what the others can add to it.
#[derive(Clone, Copy)]
struct Candidate {
    doc: u32,
    known: u64,
    left: u64,
}

impl WindowTerms<'_> {
    // About how many of the postings of a list, of which there are so many, lie in the window.
    fn here(self, postings: u64) -> u64 {
        postings.saturating_mul(self.count as u64) / u64::from(self.n.max(1))
    }

    // Scores the documents of the window that the lists of the essential terms have, and offers
    // those that can be held. The cursors are then behind the window, or before it where their
    // lists were not asked.
    pub(crate) fn score_window<C: DocCursor>(
        self,
        cursors: &mut [C],
        scores: &mut [u64],
        marks: &mut [u64],
        block: &mut Block,
        top: &mut Shortlist,
    )
        requires terms { AreWindowTerms (map C.list cursors.old) self.first
            (self.first + self.count) self.all.now }
        requires passed { All (λ c. HasPassed self.first (C.list c) (C.place c)) cursors.old }
        requires fits { self.count ≤ length scores.old }
        requires blank { IsBlank scores.old marks.old }
        requires search { IsSearch (map C.list cursors.old) self.first (self.first + self.count)
            top.old }
        requires essential { AreSpared top.old.floor top.old.k top.old.held self.all.now
            self.essential }
        ensures lists { map C.list cursors.new ≡ map C.list cursors.old }
        ensures passed { All (λ c. HasPassed (self.entry.first + self.entry.count) (C.list c)
            (C.place c)) cursors.new }
        ensures left { IsLeftBlank scores.old marks.old scores.new marks.new }
        ensures searched { IsSearchedTo (map C.list cursors.old) self.entry.all.now
            self.entry.first (self.entry.first + self.entry.count) top.old top.new }
    {
        let scores = &mut scores[..self.count];
        self.score_documents(cursors, scores, marks, block, top);
    }

    // Scores the documents of the window, each of which has one of the scores.
    fn score_documents<C: DocCursor>(
        self,
        cursors: &mut [C],
        scores: &mut [u64],
        marks: &mut [u64],
        block: &mut Block,
        top: &mut Shortlist,
    )
        requires terms { AreWindowTerms (map C.list cursors.old) self.first
            (self.first + self.count) self.all.now }
        requires passed { All (λ c. HasPassed self.first (C.list c) (C.place c)) cursors.old }
        requires each { length scores.old ≡ self.count }
        requires blank { IsBlank scores.old marks.old }
        requires search { IsSearch (map C.list cursors.old) self.first (self.first + self.count)
            top.old }
        requires essential { AreSpared top.old.floor top.old.k top.old.held self.all.now
            self.essential }
        ensures lists { map C.list cursors.new ≡ map C.list cursors.old }
        ensures passed { All (λ c. HasPassed (self.entry.first + self.entry.count) (C.list c)
            (C.place c)) cursors.new }
        ensures left { IsLeftBlank scores.old marks.old scores.new marks.new }
        ensures searched { IsSearchedTo (map C.list cursors.old) self.entry.all.now
            self.entry.first (self.entry.first + self.entry.count) top.old top.new }
    {
        let first = self.first;
        let whole = Window {
            scores,
            marks,
            first,
        };
        let (essential, reached) = add_terms(cursors, self, top.bar(), whole, block);
        let scored = Window {
            scores,
            marks,
            first,
        };
        let terms = WindowTerms { essential, ..self };
        offer_candidates(cursors, terms, reached, scored, top);
    }
}

// Adds what the lists of the essential terms of a window give its documents, marks these, and moves
// the cursors of the terms behind the window; then those of the next terms, as long as to read a
// list costs less than to ask it for the candidates. It tells how many lists were read, and how
// many of the window's places were reached.
fn add_terms<C: DocCursor>(
    cursors: &mut [C],
    terms: WindowTerms<'_>,
    bar: Option<u64>,
    window: Window<'_>,
    block: &mut Block,
) -> (usize, usize)
    requires terms { AreWindowTerms (map C.list cursors.old) window.first
        (window.first + length window.scores.now) terms.all.now }
    requires passed { All (λ c. HasPassed window.first (C.list c) (C.place c)) cursors.old }
    requires blank { IsBlank window.scores.now window.marks.now }
    requires few { terms.essential ≤ length terms.all.now }
    ensures lists { map C.list cursors.new ≡ map C.list cursors.old }
    ensures passed { All (λ c. HasPassed (window.entry.first + length window.entry.scores.now)
        (C.list c) (C.place c)) cursors.new }
    ensures more { terms.entry.essential ≤ result.0 }
    ensures few { result.0 ≤ length terms.entry.all.now }
    ensures kept { AreKept (take result.0 terms.entry.all.now) cursors.old cursors.new }
    ensures count { length window.exit.0.now ≡ length window.entry.scores.now }
    ensures marks_count { length window.exit.1.0.now ≡ length window.entry.marks.now }
    ensures scored { IsScoredIn (map C.list cursors.old) (take result.0 terms.entry.all.now)
        window.entry.first window.exit.0.now window.exit.1.0.now result.1 }
{
    let Window {
        scores,
        marks,
        first,
    } = window;
    let mut reached = 0;
    let mut left = total_bound(terms.all);
    let mut read: u64 = 0;
    let mut place = 0;
    while place < terms.all.len() {
        let term = terms.all[place];
        let postings = u64::from(cursors[term.list].len());
        if place >= terms.essential
            && (postings > read.saturating_mul(COST_OF_ASKING)
                || terms.here(postings)
                    > cost_of_asking(&scores[..reached], least_score(bar, left)))
        {
            return (place, reached);
        }
        let cursor = &mut cursors[term.list];
        let _ = doc_from(cursor, first);
        let window = Window {
            scores,
            marks,
            first,
        };
        reached = add_list(cursor, term.weight, window, block).max(reached);
        left = left.saturating_sub(term.bound);
        read = read.saturating_add(postings);
        place += 1;
    }
    (place, reached)
}

// About how many postings of a list it costs as much to read as to ask it for the candidates of
// some documents: those whose scores are at least `least`.
fn cost_of_asking(scores: &[u64], least: u64) -> u64 {
    let mut candidates: u64 = 0;
    for seen in 0..scores.len().div_ceil(SEEN_OF) {
        if scores[SEEN_OF * seen] >= least {
            candidates = candidates.wrapping_add(SEEN_OF as u64);
        }
    }
    candidates.saturating_mul(COST_OF_ASKING)
}

// Offers the marked documents of a window, of which so many places were reached, that can be held,
// with what the lists of the other terms add to their scores, and takes all marks and scores back.
fn offer_candidates<C: DocCursor>(
    cursors: &mut [C],
    terms: WindowTerms<'_>,
    reached: usize,
    window: Window<'_>,
    top: &mut Shortlist,
)
    requires terms { AreTermsIn (map C.list cursors.old) window.first
        (window.first + length window.scores.now) terms.all.now }
    requires before { AreBefore C.list C.place window.first (drop terms.essential terms.all.now)
        cursors.old }
    requires passed { All (λ c. HasPassed (window.first + length window.scores.now) (C.list c)
        (C.place c)) cursors.old }
    requires scored { IsScoredIn (map C.list cursors.old) (take terms.essential terms.all.now)
        window.first window.scores.now window.marks.now reached }
    requires search { IsSearch (map C.list cursors.old) window.first window.first top.old }
    requires essential { AreSpared top.old.floor top.old.k top.old.held terms.all.now
        terms.essential }
    ensures lists { map C.list cursors.new ≡ map C.list cursors.old }
    ensures passed { All (λ c. HasPassed (window.entry.first + length window.entry.scores.now)
        (C.list c) (C.place c)) cursors.new }
    ensures left { IsLeftBlank window.entry.scores.now window.entry.marks.now window.exit.0.now
        window.exit.1.0.now }
    ensures searched { IsSearchedTo (map C.list cursors.old) terms.entry.all.now
        window.entry.first
        (min (window.entry.first + length window.entry.scores.now) top.old.n) top.old top.new }
{
    top_list_grows();
    let Window {
        scores,
        marks,
        first,
    } = window;
    let others = &terms.all[terms.essential..];
    let left = total_bound(others);
    let mut from = 0;
    while let Some((place, score)) = take_candidate(
        from,
        reached,
        least_score(top.bar(), left),
        scores,
        marks,
    ) {
        let doc = (u64::from(first) + place as u64) as u32;
        let candidate = Candidate {
            doc,
            known: score,
            left,
        };
        consider(cursors, others, candidate, top);
        from = place + 1;
    }
}

// The least score that the bounds left can lift above the bar.
fn least_score(bar: Option<u64>, left: u64) -> u64
    ensures none { IfNone bar (result ≡ 0) }
    ensures some { IfSome bar (λ bar. result ≡ min (bar + 1) 18446744073709551615 - left) }
{
    match bar {
        Some(bar) => bar.saturating_add(1).saturating_sub(left),
        None => 0,
    }
}

// Offers a candidate where with the lists of the other terms it can be held.
fn consider<C: DocCursor>(
    cursors: &mut [C],
    others: &[Term],
    candidate: Candidate,
    top: &mut Shortlist,
)
    requires asked { AreAsked C.list C.place candidate others.now cursors.old }
    requires in_range { candidate.doc < top.old.n }
    requires above { All (λ e. e.0 < candidate.doc) top.old.held }
    ensures lists { map C.list cursors.new ≡ map C.list cursors.old }
    ensures before { AreBefore C.list C.place candidate.doc others.now cursors.new }
    ensures passed { (e : ℕ) → candidate.doc ≤ e
        → All (λ c. HasPassed e (C.list c) (C.place c)) cursors.old
        → All (λ c. HasPassed e (C.list c) (C.place c)) cursors.new }
    ensures considered { IsConsidered candidate.doc
        (candidate.known + score_in (map C.list cursors.old) candidate.doc others.now) top.old
        top.new }
{
    if let Some(score) = score_above(cursors, others, candidate, top.bar()) {
        top.offer(candidate.doc, score);
    }
}

// The score of a candidate where it beats the bar, else None. The lists of the other terms are
// probed from the highest bound down, and no further than until the bounds that are left cannot
// lift the score above the bar.
fn score_above<C: DocCursor>(
    cursors: &mut [C],
    others: &[Term],
    candidate: Candidate,
    bar: Option<u64>,
) -> Option<u64>
    requires asked { AreAsked C.list C.place candidate others.now cursors.old }
    ensures lists { map C.list cursors.new ≡ map C.list cursors.old }
    ensures before { AreBefore C.list C.place candidate.doc others.now cursors.new }
    ensures passed { (e : ℕ) → candidate.doc ≤ e
        → All (λ c. HasPassed e (C.list c) (C.place c)) cursors.old
        → All (λ c. HasPassed e (C.list c) (C.place c)) cursors.new }
    ensures value { IfSome result (λ score. score
        ≡ candidate.known + score_in (map C.list cursors.old) candidate.doc others.now) }
    ensures above { IfSome result (λ score. beats bar score ≡ true) }
    ensures dropped { IfNone result (beats bar
        (candidate.known + score_in (map C.list cursors.old) candidate.doc others.now)
        ≡ false) }
{
    let Candidate {
        doc,
        known,
        left: bound,
    } = candidate;
    let mut score = known;
    let mut left = bound;
    for term in others {
        if !is_above(score + left, bar) {
            return None;
        }
        left -= term.bound;
        score += probe(&mut cursors[term.list], term.weight, doc);
    }
    if is_above(score, bar) {
        Some(score)
    } else {
        None
    }
}
