// The replies to lines, from the cursors of their terms.
ghost use Rattle.std.specs.Prelude.{◌≡◌, ◌≤◌, ◌<◌, length, map, option_map, IfOk, IfErr, MatchResult};
ghost use Rattle.std.specs.Cow.{cow_slice_items, IsBorrowedSlice};
ghost use Rattle.std.specs.List.{All};
ghost use Rattle.collection_model.specs.Collection.{first_at_least, list_of};
ghost use Rattle.query_text.specs.Parse.{NamesTerms, parse_line};
ghost use Rattle.query_text.specs.TermSet.{AreTerms};
ghost use Rattle.query_text.specs.Texts.{list_text, next_text};
ghost use Rattle.scan_plans.specs.Matches.{in_all, in_any};
ghost use Rattle.command_model.specs.Replies.{IsAnswer, IsReply, IsTopText, lists_of, terms_of};
ghost use Rattle.line_replies.specs.CursorRoom.{KeepsRoom, KeepsRoomFor};

use crate::lists::{LineCursors, TermLists};
use crate::term_cursors::set_cursors;
use cursor_api::DocCursor;
use no_memory::NoMemory;
use query_text::{
    ParseError, Query, Weighted, bad_reply, list_reply, next_reply, parse, top_reply,
};
use scan_plans::{and_docs, or_docs};
use std::alloc::Global;
use std::borrow::CowSlice;

/// The reply to one line, with its newline. That to a line which asks nothing is lent, and takes no
/// memory. The cursors that the line needs take the place of those that are lent for it, in their
/// room, so of lines that are answered one after the other only one with more than four terms, and
/// more than any before it, takes memory for them.
pub fn reply_to<L: TermLists>(
    alloc: Global,
    lists: &L,
    cursors: &mut LineCursors<L::Cursor>,
    line: &[u8],
) -> Result<CowSlice<'static, u8>, NoMemory>
    ensures reply { IfOk result (λ reply. IsReply (L.collection lists.now) line.now
        (cow_slice_items reply)) }
    ensures bad { IfErr (parse_line (length (L.collection lists.now).lists) line.now)
        (λ bad. MatchResult result IsBorrowedSlice (λ e. ⊥)) }
    ensures room { KeepsRoomFor (parse_line (length (L.collection lists.now).lists) line.now)
        cursors.old cursors.new }
{
    match parse(alloc, line, lists.terms()) {
        Ok(query) => Ok(CowSlice::Owned(answer(alloc, lists, cursors, &query)?)),
        Err(ParseError::Bad(bad)) => Ok(CowSlice::Borrowed(bad_reply(bad))),
        Err(ParseError::NoMemory) => Err(NoMemory),
    }
}

// The reply to what a line asks.
fn answer<L: TermLists>(
    alloc: Global,
    lists: &L,
    cursors: &mut LineCursors<L::Cursor>,
    query: &Query,
) -> Result<Vec<u8>, NoMemory>
    requires { NamesTerms (length (L.collection lists.now).lists) query.now }
    ensures text { IfOk result (λ text. IsAnswer (L.collection lists.now) query.now text.items) }
    ensures room { KeepsRoom (length (terms_of query.now)) cursors.old.capacity
        cursors.new.capacity }
{
    match query {
        Query::Next { term, doc } => next_answer(alloc, lists, *term, *doc),
        Query::And(terms) => and_answer(alloc, lists, cursors, terms.as_slice()),
        Query::Or(terms) => or_answer(alloc, lists, cursors, terms.as_slice()),
        Query::Top { k, terms } => top_answer(alloc, lists, cursors, terms, *k),
    }
}

// The reply with the first posting of a term's list whose document is at least this one.
fn next_answer<L: TermLists>(
    alloc: Global,
    lists: &L,
    term: u32,
    doc: u32,
) -> Result<Vec<u8>, NoMemory>
    requires { term < length (L.collection lists.now).lists }
    ensures { IfOk result (λ text. text.items
        ≡ next_text (option_map (λ p. (p.doc, p.freq))
        (first_at_least (list_of (L.collection lists.now) term) doc))) }
{
    next_reply(alloc, lists.first_posting(term, doc))
}

// The reply with the documents that are in the lists of all these terms.
fn and_answer<L: TermLists>(
    alloc: Global,
    lists: &L,
    cursors: &mut LineCursors<L::Cursor>,
    terms: &[u32],
) -> Result<Vec<u8>, NoMemory>
    requires few { length terms.now ≤ 1024 }
    requires named { All (λ t. t < length (L.collection lists.now).lists) terms.now }
    ensures text { IfOk result (λ text. text.items
        ≡ list_text (in_all (L.collection lists.now).documents
        (lists_of (L.collection lists.now) terms.now))) }
    ensures room { KeepsRoom (length terms.now) cursors.old.capacity cursors.new.capacity }
{
    set_cursors(alloc, lists, cursors, terms)?;
    let docs = and_docs(alloc, cursors.as_mut_slice())?;
    list_reply(alloc, docs.as_slice())
}

// The reply with the documents that are in the list of any of these terms.
fn or_answer<L: TermLists>(
    alloc: Global,
    lists: &L,
    cursors: &mut LineCursors<L::Cursor>,
    terms: &[u32],
) -> Result<Vec<u8>, NoMemory>
    requires few { length terms.now ≤ 1024 }
    requires named { All (λ t. t < length (L.collection lists.now).lists) terms.now }
    ensures text { IfOk result (λ text. text.items
        ≡ list_text (in_any (L.collection lists.now).documents
        (lists_of (L.collection lists.now) terms.now))) }
    ensures room { KeepsRoom (length terms.now) cursors.old.capacity cursors.new.capacity }
{
    set_cursors(alloc, lists, cursors, terms)?;
    let docs = or_docs(alloc, cursors.as_mut_slice())?;
    list_reply(alloc, docs.as_slice())
}

// The reply with the first k documents that are in the list of any of these weighted terms.
fn top_answer<L: TermLists>(
    alloc: Global,
    lists: &L,
    cursors: &mut LineCursors<L::Cursor>,
    terms: &Weighted,
    k: u32,
) -> Result<Vec<u8>, NoMemory>
    requires { AreTerms (length (L.collection lists.now).lists) (map (λ t. t.0) terms.now) }
    ensures text { let c = L.collection lists.now in
        IfOk result (λ text. IsTopText c.documents (lists_of c (map (λ t. t.0) terms.now))
        (map (λ t. t.1) terms.now) k text.items) }
    ensures room { KeepsRoom (length (map (λ t. t.0) terms.now)) cursors.old.capacity
        cursors.new.capacity }
{
    let named = terms.terms();
    set_cursors(alloc, lists, cursors, named)?;
    let top = lists.top(alloc, named, cursors.as_mut_slice(), terms.weights(), k)?;
    top_reply(alloc, top.as_slice())
}
