ghost use Rattle.std.specs.Prelude.{◌≡◌, ℕ, ◌+◌, ◌≤◌, ◌<◌, ◌^◌, ◌∷◌, Bool, false, List, map};
ghost use Rattle.std.specs.Prelude.{length, sum, Contains, IfOk};
ghost use Rattle.std.specs.List.{All};
ghost use Rattle.collection_model.specs.Collection.{Posting};
ghost use Rattle.scan_plans.specs.Ranking.{IsFirstK};
ghost use Rattle.scan_plans.specs.Scan.{HasPassed, StandsFrom};
ghost use Rattle.scan_plans.specs.Window.{AreScored};
ghost use Rattle.scan_plans.specs.AnyOrder.{IsTopSeen};
ghost use Rattle.interval_max.specs.Search.{AreOffers, AreOutside, IsClear, IsLeastToEnter};
ghost use Rattle.interval_max.specs.Search.{HasSeen, IsQuery, IsReady, seen_with};

use crate::zeros::zeros;
use cursor_api::DocCursor;
use no_memory::NoMemory;
use scan_plans::{
    Block, TopK, Window, add_list, cursors_stand, new_marks, top_list_grows,
    top_list_grows_in_any_order,
};
use std::alloc::Global;

// How many words mark the documents of the longest window: it has 1,024.
const MOST_WORDS: usize = 16;

// Room to score a window of documents.
#[derive(Drop)]
pub(crate) struct Room {
    pub(crate) scores: Vec<u64>,
    pub(crate) marks: Vec<u64>,
    pub(crate) block: Block,
}

// Room for 1,024 documents.
pub(crate) fn new_room(alloc: Global) -> Result<Room, NoMemory>
    ensures { IfOk result IsReady }
{
    let scores = zeros(alloc, 64 * MOST_WORDS)?;
    let marks = new_marks(alloc, MOST_WORDS)?;
    Ok(Room {
        scores,
        marks,
        block: Block::new(),
    })
}

// Documents from `first` on, so many.
#[derive(Clone, Copy)]
pub(crate) struct Run {
    pub(crate) first: u32,
    pub(crate) count: usize,
}

// Scores the documents of a run that any of the lists has, and offers them. None of them is held.
// The cursors have passed no document from the first on, and are then behind the run.
pub(crate) fn score_run<C: DocCursor>(
    cursors: &mut [C],
    weights: &[u32],
    run: Run,
    room: &mut Room,
    top: &mut TopK,
)
    requires query { IsQuery top.old.n (map C.list cursors.old) weights.now }
    requires passed { All (λ c. HasPassed run.first (C.list c) (C.place c)) cursors.old }
    requires ready { IsReady room.old }
    requires fits { run.count ≤ 1024 }
    requires outside { AreOutside run.first (run.first + run.count) top.old.held }
    ensures lists { map C.list cursors.new ≡ map C.list cursors.old }
    ensures passed { All (λ c. HasPassed (run.first + run.count) (C.list c) (C.place c))
        cursors.new }
    ensures ready { IsReady room.new }
    ensures seen { HasSeen (map C.list cursors.old) weights.now run.first (run.first + run.count)
        top.old top.new }
{
    score_window(
        cursors,
        weights,
        run,
        room.scores.as_mut_slice(),
        room.marks.as_mut_slice(),
        &mut room.block,
        top,
    );
}

// The same in the first places of a window.
fn score_window<C: DocCursor>(
    cursors: &mut [C],
    weights: &[u32],
    run: Run,
    scores: &mut [u64],
    marks: &mut [u64],
    block: &mut Block,
    top: &mut TopK,
)
    requires query { IsQuery top.old.n (map C.list cursors.old) weights.now }
    requires passed { All (λ c. HasPassed run.first (C.list c) (C.place c)) cursors.old }
    requires fits { run.count ≤ length scores.old }
    requires clear { IsClear scores.old marks.old }
    requires outside { AreOutside run.first (run.first + run.count) top.old.held }
    ensures lists { map C.list cursors.new ≡ map C.list cursors.old }
    ensures passed { All (λ c. HasPassed (run.first + run.count) (C.list c) (C.place c))
        cursors.new }
    ensures clear { IsClear scores.new marks.new }
    ensures seen { HasSeen (map C.list cursors.old) weights.now run.first (run.first + run.count)
        top.old top.new }
{
    top_list_grows();
    let scores = &mut scores[..run.count];
    let window = Window {
        scores,
        marks,
        first: run.first,
    };
    add_all(cursors, weights, window, block);
    offer_scored(top, run.first, scores);
}

// Moves the cursors to the window, scores its documents, and moves the cursors behind it.
fn add_all<C: DocCursor>(cursors: &mut [C], weights: &[u32], window: Window<'_>, block: &mut Block)
    requires passed { All (λ c. HasPassed window.first (C.list c) (C.place c)) cursors.old }
    requires each { length weights.now ≡ length cursors.old }
    requires some { All (λ w. 1 ≤ w) weights.now }
    requires light { sum weights.now < 2 ^ 26 }
    requires clear { IsClear window.scores.now window.marks.now }
    ensures lists { map C.list cursors.new ≡ map C.list cursors.old }
    ensures passed { All (λ c. HasPassed (window.entry.first + length window.entry.scores.now)
        (C.list c) (C.place c)) cursors.new }
    ensures count { length window.exit.0.now ≡ length window.entry.scores.now }
    ensures marks_count { length window.exit.1.0.now ≡ length window.entry.marks.now }
    ensures scored { AreScored (map C.list cursors.old) weights.now window.entry.first
        window.exit.0.now }
{
    let Window {
        scores,
        marks,
        first,
    } = window;
    for i in 0..cursors.len() {
        let cursor = &mut cursors[i];
        seek(cursor, first);
        let window = Window {
            scores,
            marks,
            first,
        };
        let _ = add_list(cursor, weights[i], window, block);
    }
}

// Moves a cursor to the first document at or after `first`.
fn seek<C: DocCursor>(cursor: &mut C, first: u32)
    requires { HasPassed first (C.list cursor.old) (C.place cursor.old) }
    ensures list { C.list cursor.new ≡ C.list cursor.old }
    ensures stand { StandsFrom first (C.list cursor.new) (C.place cursor.new) }
{
    cursors_stand();
    cursor.next_geq(first);
}

// Offers the documents of a window from `first` on that have a score, as far as they can enter, and
// takes the scores back.
fn offer_scored(top: &mut TopK, first: u32, scores: &mut [u64])
    requires offers { AreOffers first scores.old top.old }
    ensures k { top.new.k ≡ top.old.k }
    ensures n { top.new.n ≡ top.old.n }
    ensures count { length scores.new ≡ length scores.old }
    ensures clear { All (λ s. s ≡ 0) scores.new }
    ensures top { (lists : List (List Posting)) (weights : List ℕ) (seen : ℕ → Bool)
        → AreScored lists weights first scores.old
        → ((d : ℕ) → first ≤ d → d < first + length scores.old → seen d ≡ false)
        → IsTopSeen seen top.old.n lists weights top.old.k top.old.held
        → IsTopSeen (seen_with seen first (first + length scores.old)) top.old.n lists weights
        top.old.k top.new.held }
{
    top_list_grows_in_any_order();
    let mut least = least_to_enter(top);
    for i in 0..scores.len() {
        least = offer(top, u64::from(first) + i as u64, scores[i], least);
        scores[i] = 0;
    }
}

// Offers a document if its score is at least `least`, which one must have to enter, and gives what
// the next must have.
fn offer(top: &mut TopK, doc: u64, score: u64, least: u64) -> u64
    requires narrow { top.old.n < 2 ^ 32 }
    requires least { IsLeastToEnter top.old least }
    requires in_range { 0 < score → doc < top.old.n }
    requires new { 0 < score → ¬ Contains (map (λ e. e.0) top.old.held) doc }
    ensures k { top.new.k ≡ top.old.k }
    ensures n { top.new.n ≡ top.old.n }
    ensures first { least ≤ score
        → IsFirstK top.old.k ((doc, score) ∷ top.old.held) top.new.held }
    ensures less { score < least → top.new.held ≡ top.old.held }
    ensures least { IsLeastToEnter top.new result }
{
    if score < least {
        return least;
    }
    top.offer(doc as u32, score);
    least_to_enter(top)
}

// The least score with which a document can enter: 1, or the least that is held once k are.
pub(crate) fn least_to_enter(top: &TopK) -> u64
    ensures { IsLeastToEnter top.now result }
{
    match top.threshold() {
        Some(least) => least.max(1),
        None => 1,
    }
}
