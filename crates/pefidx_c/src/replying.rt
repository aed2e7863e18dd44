ghost use Rattle.std.specs.Prelude.{◌≡◌, ◌≢◌, ◌≤◌, ◌<◌, ◌^◌, List, ℕ, length};
ghost use Rattle.command_model.specs.Replies.{IsReply};
ghost use Rattle.index_file.specs.FileWords.{IsIndex};
ghost use Rattle.index_file.specs.IndexView.{index_stated, word_count};
ghost use Rattle.pefidx_c.specs.Asked.{collection_in, last_plan};
ghost use Rattle.pefidx_c.specs.Kept.{AreKept, AreMaxima};
ghost use Rattle.pefidx_c.specs.Rooms.{put_in, given_in};
ghost use Rattle.pefidx_c.specs.StatusNumber.{number_of};

use crate::kept::index_of;
use crate::ranking::{LAST_PLAN, plan_of, takes_maxima};
use crate::room::give;
use crate::status::Status;
use interval_max::MaximaView;
use line_replies::{IndexLists, IntervalLists, LineCursors, TermLists, reply_to};
use std::alloc::Global;

/// The text of the reply to a query line, with its newline, as the program writes it; a line that
/// breaks a rule has its reply too. The line is given without its newline. The plan is that of
/// `top`, as `pefidx_top` takes it. The first bytes are given, as many as there is room for, and
/// how many there are.
#[unsafe(no_mangle)]
pub extern "C" fn pefidx_reply(
    alloc: Global,
    words: &[u64],
    kept: &[u64],
    maxima: &[u8],
    plan: u32,
    line: &[u8],
    text: &mut [u8],
    count: &mut usize,
) -> u32
    requires few { length words.now < 2 ^ 57 }
    requires index { IsIndex words.now }
    requires kept { AreKept words.now kept.now }
    requires maxima { AreMaxima (word_count (index_stated words.now)) (collection_in words.now)
        maxima.now }
    ensures no_plan { last_plan < plan
        → (result ≡ number_of Status.NoPlan) × (text.new ≡ text.old) × (count.new ≡ count.old) }
    ensures no_memory { result ≡ number_of Status.NoMemory
        → (text.new ≡ text.old) × (count.new ≡ count.old) }
    ensures given { plan ≤ last_plan → result ≢ number_of Status.NoMemory
        → (reply : List ℕ) × IsReply (collection_in words.now) line.now reply
        × (result ≡ number_of (given_in (length text.old) (length reply)))
        × (text.new ≡ put_in text.old reply) × (count.new ≡ length reply) }
{
    if plan > LAST_PLAN {
        return Status::NoPlan.number();
    }
    let index = index_of(words, kept);
    let mut cursors = LineCursors::new(alloc);
    if !takes_maxima(plan, maxima) {
        let lists = IndexLists::new(&index, plan_of(plan));
        return give_reply(&lists, &mut cursors, line, text, count);
    }
    let by_intervals = IntervalLists::new(&index, MaximaView::new(maxima));
    give_reply(&by_intervals, &mut cursors, line, text, count)
}

// Gives the text of the reply to a line from any lists in a room, as much of it as it holds, with
// the count of all its bytes.
pub(crate) fn give_reply<L: TermLists>(
    lists: &L,
    cursors: &mut LineCursors<L::Cursor>,
    line: &[u8],
    text: &mut [u8],
    count: &mut usize,
) -> u32
    ensures no_memory { result ≡ number_of Status.NoMemory
        → (text.new ≡ text.old) × (count.new ≡ count.old) }
    ensures given { result ≢ number_of Status.NoMemory
        → (reply : List ℕ) × IsReply (L.collection lists.now) line.now reply
        × (result ≡ number_of (given_in (length text.old) (length reply)))
        × (text.new ≡ put_in text.old reply) × (count.new ≡ length reply) }
{
    match reply_to(*cursors.allocator(), lists, cursors, line) {
        Ok(reply) => give(&reply, text, count),
        Err(_) => Status::NoMemory.number(),
    }
}
