ghost use Rattle.std.specs.Prelude.{◌≡◌, ℕ, ◌+◌, ◌≤◌, ◌<◌, map, length, IfOk};
ghost use Rattle.std.specs.List.{All};
ghost use Rattle.scan_plans.specs.Scan.{HasPassed};
ghost use Rattle.topk_pruning.specs.Held.{IsSearch, IsSearchedTo};
ghost use Rattle.topk_pruning.specs.Terms.{AreQueryTerms, AreWindowTerms};
ghost use Rattle.topk_pruning.specs.Windows.{IsReady};

use crate::candidates::WindowTerms;
use crate::ceilings::{Ceilings, bound_window};
use crate::essential::{essential_now, with_short_lists};
use crate::shortlist::Shortlist;
use crate::term::Term;
use cursor_api::DocCursor;
use no_memory::NoMemory;
use scan_plans::{Block, new_marks, new_scores, scored_words, top_list_grows};
use std::alloc::Global;

// How many documents the first window has. Each later one has sixteen times as many, as far as
// there is room for their scores: a query whose best documents come early ends early.
const FIRST_WIDTH: usize = 8;

// After so many postings that were passed over a window is narrow again.
const MANY_PASSED: u64 = 32;

// How many words mark the documents of a window, at most: the scores of so many documents take 32
// KiB, which stay near the processor.
const MOST_WORDS: usize = 64;

// In so many windows ceilings are looked at before it is asked whether that pays.
const TRIED: u32 = 8;

// So many windows go without them at most.
const MOST_WITHOUT: u32 = 8;

// Whether it pays to look at ceilings: where in some windows fewer documents were passed over than
// scored, the next ones go without, first one and each time twice as many. To look at the blocks of
// 16 lists in each window costs up to 1.46 times as much as scoring every document of `frequent`,
// and so 1.08 times.
#[derive(Clone, Copy)]
struct Trial {
    windows: u32,
    passed: u64,
    scored: u64,
    // How many of the next windows go without.
    without: u32,
    // And how many where it does not pay again.
    again: u32,
}

impl Trial {
    fn new() -> Trial {
        Trial {
            windows: 0,
            passed: 0,
            scored: 0,
            without: 0,
            again: 1,
        }
    }

    // The trial after a window of so many documents, all of which were passed over or not.
    fn after(self, documents: u32, are_passed: bool) -> Trial {
        let mut trial = self;
        if trial.without > 0 {
            trial.without -= 1;
            return trial;
        }
        if are_passed {
            trial.passed = trial.passed.saturating_add(u64::from(documents));
        } else {
            trial.scored = trial.scored.saturating_add(u64::from(documents));
        }
        trial.windows = trial.windows.saturating_add(1);
        if trial.windows < TRIED {
            return trial;
        }
        if trial.passed >= trial.scored {
            return Trial::new();
        }
        Trial {
            without: trial.again,
            again: trial.again.saturating_mul(2).min(MOST_WITHOUT),
            ..Trial::new()
        }
    }
}

// What the windows of documents of a query are scored with.
#[derive(Drop)]
pub(crate) struct Scorer {
    // The terms with their bounds in a window.
    terms: Vec<Term>,
    scores: Vec<u64>,
    marks: Vec<u64>,
    block: Block,
    // How many documents the next window has, at most.
    width: usize,
    // How many documents there are.
    n: u32,
    trial: Trial,
}

impl Scorer {
    // A scorer of the windows of a query with these terms, the first of 8 documents.
    pub(crate) fn new(alloc: Global, terms: &[Term], n: u32) -> Result<Scorer, NoMemory>
        ensures { IfOk result (IsReady (length terms.now) n) }
    {
        let mut near = Vec::new(alloc);
        near.extend_from_slice(terms)?;
        let words = scored_words(n).min(MOST_WORDS);
        let scores = new_scores(alloc, words)?;
        let marks = new_marks(alloc, words)?;
        Ok(Scorer {
            terms: near,
            scores,
            marks,
            block: Block::new(),
            width: FIRST_WIDTH,
            n,
            trial: Trial::new(),
        })
    }

    // Makes the next window no wider than the first where many postings were passed over before it:
    // of those in it most would be too.
    pub(crate) fn narrow_after(&mut self, passed: u64)
        ensures ready { (count n : ℕ) → IsReady count n self.old → IsReady count n self.new }
    {
        if passed >= MANY_PASSED {
            self.width = self.width.min(FIRST_WIDTH);
        }
    }

    // Scores the documents of a window from `first` on that can be held and offers them, or passes
    // over documents of which none can, and tells from which document on the search goes on. No
    // document from there on has been passed by a cursor.
    #[inline(never)]
    pub(crate) fn score_from<C: DocCursor, B: Ceilings<C>>(
        &mut self,
        cursors: &mut [C],
        terms: &[Term],
        ceilings: &B,
        first: u32,
        top: &mut Shortlist,
    ) -> u32
        requires terms { AreQueryTerms (map C.list cursors.old) terms.now }
        requires passed { All (λ c. HasPassed first (C.list c) (C.place c)) cursors.old }
        requires search { IsSearch (map C.list cursors.old) first (first + 1) top.old }
        requires ready { IsReady (length terms.now) top.old.n self.old }
        ensures lists { map C.list cursors.new ≡ map C.list cursors.old }
        ensures passed { All (λ c. HasPassed result (C.list c) (C.place c)) cursors.new }
        ensures ready { IsReady (length terms.now) top.old.n self.new }
        ensures between { (first < result) × (result ≤ top.old.n) }
        ensures searched { IsSearchedTo (map C.list cursors.old) terms.now first result top.old
            top.new }
    {
        let looked_at = if self.trial.without == 0 {
            Some(ceilings)
        } else {
            None
        };
        let near = self.terms.as_mut_slice();
        let reach = bound_window(cursors, terms, looked_at, first, near).min(self.n);
        score_up_to(cursors, first, reach, self, top)
    }
}

// Scores a window of the documents from `first` on by the terms of the scorer, whose bounds hold up
// to `reach`, and tells from which document on the search goes on. Where all the bounds together do
// not beat the bar, no document up to there can be held, and no cursor moves.
fn score_up_to<C: DocCursor>(
    cursors: &mut [C],
    first: u32,
    reach: u32,
    scorer: &mut Scorer,
    top: &mut Shortlist,
) -> u32
    requires terms { AreWindowTerms (map C.list cursors.old) first reach scorer.old.terms.items }
    requires passed { All (λ c. HasPassed first (C.list c) (C.place c)) cursors.old }
    requires search { IsSearch (map C.list cursors.old) first reach top.old }
    requires later { first < reach }
    requires ready { IsReady (length scorer.old.terms.items) top.old.n scorer.old }
    ensures lists { map C.list cursors.new ≡ map C.list cursors.old }
    ensures passed { All (λ c. HasPassed result (C.list c) (C.place c)) cursors.new }
    ensures ready { IsReady (length scorer.old.terms.items) top.old.n scorer.new }
    ensures between { (first < result) × (result ≤ reach) }
    ensures searched { IsSearchedTo (map C.list cursors.old) scorer.old.terms.items first result
        top.old top.new }
{
    top_list_grows();
    let width = scorer.width;
    scorer.width = width.saturating_mul(16).min(scorer.scores.len());
    let essential = essential_now(&scorer.terms, top);
    scorer.trial = scorer.trial.after(reach - first, essential == 0);
    if essential == 0 {
        return reach;
    }
    let essential = with_short_lists(cursors, scorer.terms.as_mut_slice(), essential);
    let count = width.min((reach - first) as usize);
    let terms = WindowTerms {
        all: &scorer.terms,
        essential,
        first,
        count,
        n: scorer.n,
    };
    terms.score_window(
        cursors,
        scorer.scores.as_mut_slice(),
        scorer.marks.as_mut_slice(),
        &mut scorer.block,
        top,
    );
    first + count as u32
}
