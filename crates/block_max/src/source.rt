ghost use Rattle.std.specs.Prelude.{◌≡◌, ℕ, ◌<◌, ◌≤◌, List, [], length};
ghost use Rattle.std.specs.List.{All};
ghost use Rattle.block_max.specs.Blocks.{BlockList, IsBlockList, blocks_before, nth_block, nth_list};

/// Posting lists that are cut into blocks.
pub trait BlockSource {
    ghost lists: { Self → List BlockList };

    /// How many lists there are.
    fn terms(&self) -> u32
        ensures { result ≡ length (lists self.now) };

    /// How many lists a walk over all has to look at: those from there on have no blocks. They are
    /// all here; a source may know of fewer.
    fn walked_terms(&self) -> u32
        ensures within { result ≤ length (lists self.now) }
        ensures rest { (t : ℕ) → result ≤ t → (nth_list (lists self.now) t).ends ≡ [] }
    {
        self.terms()
    }

    /// How many blocks list t has.
    fn blocks(&self, t: u32) -> u32
        requires { t < length (lists self.now) }
        ensures { result ≡ length (nth_list (lists self.now) t).ends };

    /// The last document of block q of list t.
    fn last(&self, t: u32, q: u32) -> u32
        requires term { t < length (lists self.now) }
        requires block { q < length (nth_list (lists self.now) t).ends }
        ensures { result ≡ (nth_block (lists self.now) t q).last };

    /// Its greatest frequency.
    fn greatest(&self, t: u32, q: u32) -> u32
        requires term { t < length (lists self.now) }
        requires block { q < length (nth_list (lists self.now) t).ends }
        ensures { result ≡ (nth_block (lists self.now) t q).greatest };

    /// How many blocks the lists before list t have together; t may be the number of lists. It adds
    /// them up; a source with a table of these sums reads it there.
    fn blocks_before(&self, t: u32) -> u64
        requires { t ≤ length (lists self.now) }
        ensures { result ≡ blocks_before (lists self.now) t }
    {
        let mut count = 0;
        for term in 0..t {
            count += u64::from(self.blocks(term));
        }
        count
    }

    ghost cut: { (s : Self) → All IsBlockList (lists s) };
}
