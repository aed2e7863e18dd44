ghost use Rattle.std.specs.Prelude.{◌≡◌};

use index_file::ListWalk;

// The lists of an index in turn, and how many documents stand before its own.
#[derive(Drop)]
pub(crate) struct Part<'a> {
    pub(crate) first: u32,
    // Which list is the next that has postings.
    pub(crate) next: u32,
    pub(crate) lists: ListWalk<'a>,
    ghost next_is: { next ≡ lists.next },
}
