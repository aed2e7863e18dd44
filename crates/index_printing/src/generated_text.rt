ghost use Rattle.std.specs.Prelude.{◌≡◌, ◌≤◌, ◌*◌, ◌^◌, ◌++◌, ℕ, List, length, replicate, string_bytes, IfOk, OnOk};
ghost use Rattle.part_cost.specs.Formats.{numbers_of};
ghost use Rattle.index_file.specs.Builder.{most_words};
ghost use Rattle.index_file.specs.IndexView.{word_count};
ghost use Rattle.command_model.specs.GeneratedText.{IsGeneratedText, cost_of_lists, counts_line, next_line, top_line};
ghost use Rattle.command_model.specs.Replies.{AreReplies, IsReply};
ghost use Rattle.index_printing.specs.PrintText.{MakesAndPrints};

use index_file::Index;
use io_traits::{IoFail, Sink, write_all_own};
use line_replies::{IndexLists, LineCursors, TermLists, reply_to};
use no_memory::NoMemory;
use part_codec::part_takes_its_payload;
use part_cost::formats_have_room;
use postings::sequences_of_a_list_rise;
use std::alloc::{AllocError, Global};
use topk_pruning::Plan;
use two_level::sequence_takes_its_cost;

// The plans by which the first documents of a generated collection are asked for.
const PLANS: [Plan; 3] = [Plan::Exhaustive, Plan::Wand, Plan::MaxScore];

/// Prints what is told of a generated collection, from an index of it, which is given to out as one
/// piece: the line that counts it, and the replies to what it is asked. Out is not called before
/// all is made.
pub fn print_generated<O: Sink>(alloc: Global, index: &Index<'_>, out: &mut O) -> Result<(), IoFail>
    requires few { word_count index.now ≤ most_words }
    ensures { MakesAndPrints (IsGeneratedText (numbers_of index.now.format) index.now.collection
        index.now.parts) (O.state out.old) (O.state out.new) result }
{
    let text = generated_text(alloc, index).map_err(|_| IoFail::NoMemory)?;
    write_all_own(out, text.as_slice())
}

// What is told of a generated collection.
fn generated_text(alloc: Global, index: &Index<'_>) -> Result<Vec<u8>, NoMemory>
    requires few { word_count index.now ≤ most_words }
    ensures { IfOk result (λ text. IsGeneratedText (numbers_of index.now.format)
        index.now.collection index.now.parts text.items) }
{
    let mut text = counts_line(alloc, index)?.into_bytes();
    if index.terms() > 0 {
        let lists = IndexLists::new(index, Plan::Exhaustive);
        let next = next_line(alloc, index)?;
        let top = top_line(alloc, index)?;
        push_reply(
            alloc,
            &lists,
            &mut LineCursors::new(alloc),
            &next,
            &mut text,
        )?;
        push_replies(alloc, index, &PLANS, &top, &mut text)?;
    }
    Ok(text)
}

// The line that counts what a collection has.
fn counts_line(alloc: Global, index: &Index<'_>) -> Result<String, AllocError>
    requires few { word_count index.now ≤ most_words }
    ensures { IfOk result (λ line. string_bytes line
        ≡ counts_line (numbers_of index.now.format) index.now.collection index.now.parts) }
{
    let documents = index.documents();
    let terms = index.terms();
    let postings = index.postings();
    let bits = cost_of_lists(index);
    format!(in alloc; "documents {documents} terms {terms} postings {postings} bits {bits}\n")
}

// What all partitions cost, in bits: the payload of each part, and its charge.
fn cost_of_lists(index: &Index<'_>) -> u64
    requires few { word_count index.now ≤ most_words }
    ensures { result ≡ cost_of_lists (numbers_of index.now.format) index.now.collection
        index.now.parts }
{
    lists_cost_their_words(index);
    let counts = index.part_counts();
    let parts = counts.ones_parts + counts.bitmap_parts + counts.ef_parts;
    counts.payload_bits + index.format().charge() * parts
}

// All partitions cost no more than 2^14 for each word of the file.
fn lists_cost_their_words(index: &Index<'_>)
    ensures { cost_of_lists (numbers_of index.now.format) index.now.collection index.now.parts
        ≤ 2 ^ 14 * word_count index.now }
{
    part_takes_its_payload();
    formats_have_room();
    sequences_of_a_list_rise();
    sequence_takes_its_cost();
    index.stands_for_a_collection();
}

// The line that asks for the first posting of the last term from the middle document on.
fn next_line(alloc: Global, index: &Index<'_>) -> Result<String, AllocError>
    requires some { 1 ≤ length index.now.collection.lists }
    ensures { IfOk result (λ line. string_bytes line ≡ next_line index.now.collection) }
{
    let last = index.terms() - 1;
    let middle = index.documents() / 2;
    format!(in alloc; "next {last} {middle}")
}

// The line that asks for the first ten documents of the first and the last term.
fn top_line(alloc: Global, index: &Index<'_>) -> Result<String, AllocError>
    requires some { 1 ≤ length index.now.collection.lists }
    ensures { IfOk result (λ line. string_bytes line ≡ top_line index.now.collection) }
{
    let last = index.terms() - 1;
    format!(in alloc; "top 10 0 {last}")
}

// Appends the reply to a line. Its cursors take the place of those that are lent.
fn push_reply<L: TermLists>(
    alloc: Global,
    lists: &L,
    cursors: &mut LineCursors<L::Cursor>,
    line: &str,
    text: &mut Vec<u8>,
) -> Result<(), NoMemory>
    ensures { OnOk result ((reply : List ℕ) × IsReply (L.collection lists.now) line.now reply
        × (text.new.items ≡ text.old.items ++ reply)) }
{
    let reply = reply_to(alloc, lists, cursors, line.as_bytes())?;
    Ok(text.extend_from_slice(&reply)?)
}

// Appends the reply to a line by each of these plans.
fn push_replies(
    alloc: Global,
    index: &Index<'_>,
    plans: &[Plan],
    line: &str,
    text: &mut Vec<u8>,
) -> Result<(), NoMemory>
    ensures { OnOk result ((replies : List ℕ)
        × AreReplies index.now.collection (replicate (length plans.now) line.now) replies
        × (text.new.items ≡ text.old.items ++ replies)) }
{
    let mut cursors = LineCursors::new(alloc);
    for plan in plans {
        push_reply(
            alloc,
            &IndexLists::new(index, *plan),
            &mut cursors,
            line,
            text,
        )?;
    }
    Ok(())
}
