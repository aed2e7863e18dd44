// How often the plans of `top` move their cursors.
ghost use Rattle.std.specs.Prelude.{◌≡◌, ◌<◌};

use crate::texts::built;
use cursor_api::DocCursor;
use index_file::Index;
use std::alloc::Global;
use std::marker::Brand;
use std::sync::ledger::{Blank, Ledger};
use topk_pruning::{Plan, plan_top};

// A cursor that counts how many moves it makes; one behind a block is as many as the block has
// postings.
#[derive(Drop)]
struct Counting<C> {
    cursor: C,
    moves: u64,
}

impl<C: DocCursor> Counting<C> {
    fn new(cursor: C) -> Counting<C>
        ensures { result.cursor ≡ cursor }
    {
        Counting { cursor, moves: 0 }
    }
}

impl<C: DocCursor> DocCursor for Counting<C> {
    ghost list = { λ c. C.list c.cursor };

    ghost place = { λ c. C.place c.cursor };

    fn doc(&self) -> Option<u32> {
        self.cursor.doc()
    }

    fn freq(&mut self) -> u32 {
        self.cursor.freq()
    }

    fn advance(&mut self) {
        self.moves = self.moves.saturating_add(1);
        self.cursor.advance();
    }

    fn next_geq(&mut self, d: u32) {
        self.moves = self.moves.saturating_add(1);
        self.cursor.next_geq(d);
    }

    fn next_frequent(&mut self, f: u32) {
        self.moves = self.moves.saturating_add(1);
        self.cursor.next_frequent(f);
    }

    fn docs_below(&mut self, end: u64, docs: &mut [u64]) -> usize {
        let count = self.cursor.docs_below(end, docs);
        self.moves = self.moves.saturating_add(count as u64);
        count
    }

    fn postings_below(&mut self, end: u64, docs: &mut [u64], freqs: &mut [u64]) -> usize {
        let count = self.cursor.postings_below(end, docs, freqs);
        self.moves = self.moves.saturating_add(count as u64);
        count
    }

    fn max_freq(&self) -> u32 {
        self.cursor.max_freq()
    }

    fn common_freq(&self, k: u32) -> u32 {
        self.cursor.common_freq(k)
    }

    fn len(&self) -> u32 {
        self.cursor.len()
    }

    ghost well_formed = { λ c. C.well_formed c.cursor };
}

// The words of the index of a list with the documents 0 to 999, once each, and one with document 0,
// five times.
fn long_list_and_short_list<L: Ledger>(alloc: Global, blank: Blank) -> Option<Vec<u64>>
    requires name { blank.name ≡ L.name }
    requires parts { blank.parts ≡ L.parts }
    requires some { 0 < L.parts }
{
    let mut docs = vec![in alloc; 1, 1000, 1000].ok()?;
    for doc in 0..1000 {
        docs.push(doc).ok()?;
    }
    docs.extend_from_slice(&[1, 0]).ok()?;
    let mut freqs = vec![in alloc; 1; 1001].ok()?;
    freqs[0] = 1000;
    freqs.extend_from_slice(&[1, 5]).ok()?;
    let mut sizes = vec![in alloc; 1; 1001].ok()?;
    sizes[0] = 1000;
    let numbers = [docs.as_slice(), freqs.as_slice(), sizes.as_slice()];
    built::<L>(alloc, numbers, blank)
}

// How often the cursors of both lists are moved to find the first document of both, which has the
// score 6; none where memory is wanting, or another is found.
fn moves_by(alloc: Global, index: &Index<'_>, plan: Plan) -> Option<u64> {
    index.stands_for_a_collection();
    if index.terms() != 2 {
        return None;
    }
    let mut cursors = [
        Counting::new(index.cursor(0)),
        Counting::new(index.cursor(1)),
    ];
    let top = plan_top(alloc, plan, &mut cursors, &[1, 1], 1, index.documents()).ok()?;
    if top.as_slice() != [(0, 6)].as_slice() {
        return None;
    }
    Some(cursors[0].moves.saturating_add(cursors[1].moves))
}

#[test]
fn plans_pass_over_documents(rt: HostRuntime) {
    let alloc = rt.alloc();
    let words = long_list_and_short_list::<Brand>(alloc, Blank::new(1)).expect(&rt, "memory");
    assert!(rt; words.len() <= 10_000);
    let index = Index::view(&words).expect(&rt, "an index");
    for (plan, least, most) in [
        (Plan::Exhaustive, 1000, 1010),
        (Plan::Wand, 0, 10),
        (Plan::MaxScore, 0, 10),
    ] {
        let moves = moves_by(alloc, &index, plan).expect(&rt, "the first document");
        assert!(rt; least <= moves && moves <= most, "{moves}");
    }
}
