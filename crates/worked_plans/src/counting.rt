// A cursor that counts what a plan does with it.
use block_max::BlockCursor;
use cursor_api::DocCursor;

// A cursor that counts how often it is moved, and how many postings it gives.
#[derive(Drop)]
pub(crate) struct Counting<C: DocCursor> {
    pub(crate) cursor: C,
    pub(crate) moves: u64,
    pub(crate) read: u64,
}

impl<C: DocCursor> DocCursor for Counting<C> {
    ghost list = { λ c. C.list c.cursor };

    ghost place = { λ c. C.place c.cursor };

    fn doc(&self) -> Option<u32> {
        self.cursor.doc()
    }

    fn freq(&mut self) -> u32 {
        self.cursor.freq()
    }

    fn advance(&mut self) {
        self.moves = self.moves.saturating_add(1);
        self.cursor.advance();
    }

    fn next_geq(&mut self, d: u32) {
        self.moves = self.moves.saturating_add(1);
        self.cursor.next_geq(d);
    }

    fn next_frequent(&mut self, f: u32) {
        self.moves = self.moves.saturating_add(1);
        self.cursor.next_frequent(f);
    }

    fn docs_below(&mut self, end: u64, docs: &mut [u64]) -> usize {
        let count = self.cursor.docs_below(end, docs);
        self.read = self.read.saturating_add(count as u64);
        count
    }

    fn postings_below(&mut self, end: u64, docs: &mut [u64], freqs: &mut [u64]) -> usize {
        let count = self.cursor.postings_below(end, docs, freqs);
        self.read = self.read.saturating_add(count as u64);
        count
    }

    fn max_freq(&self) -> u32 {
        self.cursor.max_freq()
    }

    fn common_freq(&self, k: u32) -> u32 {
        self.cursor.common_freq(k)
    }

    fn len(&self) -> u32 {
        self.cursor.len()
    }

    ghost well_formed = { λ c. C.well_formed c.cursor };
}

impl<C: BlockCursor> BlockCursor for Counting<C> {
    ghost blocks = { λ c. C.blocks c.cursor };

    fn block_at(&self, doc: u32) -> Option<(u32, u32)> {
        self.cursor.block_at(doc)
    }

    ghost are_blocks = { λ c. C.are_blocks c.cursor };
}
