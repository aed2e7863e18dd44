ghost use Rattle.std.specs.Prelude.{◌≡◌, ℕ, IsTrue};
ghost use Rattle.commands.specs.Names.{Collection, SinkState, LendTheSame, outside, SideAt, Starts, is_refusal, Leaves, FindsWithSide};
ghost use Rattle.commands.specs.Replies.{QueriesBlocks};

use crate::side_loading::load_side;
use block_max::{Side, one_side_fault};
use command_ends::{Devices, LONGEST_TEXT, load_index};
use index_blocks::{IndexBlocks, block_starts, side_files_fit};
use index_file::{one_broken_check, one_index, words_and_bytes_undo_each_other};
use io_traits::{Depot, Sink, Source};
use outcomes::{Stop, after_answering};
use std::alloc::Global;
use text_replies::{SideLists, answer_by_blocks};

/// Reads the index under one name and its side file under another, and answers the input from both.
pub fn bquery<D: Depot, I: Source, O: Sink>(
    alloc: Global,
    index: &str,
    side: &str,
    on: &mut Devices<&mut D, &mut I, &mut O>,
) -> Result<(), Stop>
    ensures leaves { (e e' : SinkState) (costs : ℕ) →
        Leaves (QueriesBlocks index.now side.now) (Starts (SideAt index.now side.now))
        (outside (D.state on.old.depot.now) (I.state on.old.input.now)
        (O.state on.old.out.now) e costs)
        (outside (D.state on.new.depot.now) (I.state on.new.input.now)
        (O.state on.new.out.now) e' costs)
        result }
    ensures refused { IsTrue (is_refusal result) →
        (on.new.input.now ≡ on.old.input.now) × (on.new.out.now ≡ on.old.out.now) }
    ensures unaccepted { ¬ ((c : Collection)
        × FindsWithSide index.now side.now (D.state on.old.depot.now) c) →
        (on.new.input.now ≡ on.old.input.now) × (on.new.out.now ≡ on.old.out.now) }
    ensures same { LendTheSame on.old on.new }
{
    one_broken_check();
    words_and_bytes_undo_each_other();
    one_index();
    one_side_fault();
    side_files_fit();
    let opened = load_index(alloc, index, on.depot)?;
    let index = opened.index();
    let starts = block_starts(alloc, &index)?;
    let blocks = IndexBlocks::new(&index, &starts);
    let greatest = load_side(alloc, side, &blocks, on.depot)?;
    let side = Side::known(&greatest, &blocks);
    let lists = SideLists::new(&blocks, side);
    let answered = answer_by_blocks(alloc, &lists, on.input, LONGEST_TEXT, on.out);
    after_answering(answered)
}
