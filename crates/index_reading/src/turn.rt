ghost use Rattle.std.specs.Prelude.{◌≡◌, ◌≢◌, ◌+◌, ◌^◌, ◌≤◌, ◌<◌, ◌++◌, [], length, map};
ghost use Rattle.std.specs.Prelude.{slice_range, OnOk, IfOk};
ghost use Rattle.std.specs.List.{All};
ghost use Rattle.collection_model.specs.Collection.{docs_of, freqs_of, greatest, greatest_freq};
ghost use Rattle.collection_model.specs.Collection.{list_of};
ghost use Rattle.collection_model.specs.Sequences.{postings_in, steps_from};
ghost use Rattle.cursor_api.specs.NextGeq.{IsCursorList};
ghost use Rattle.segments.specs.Joined.{joined_list, joined_wide, most_joined, EndsBelow};
ghost use Rattle.segments.specs.JoinedCursor.{part_of};
ghost use Rattle.index_reading.specs.InTurn.{placed_in, collections_placed, lists_placed, AreAdded};
ghost use Rattle.index_reading.specs.InTurn.{ArePlaced, AreTaken, StandsBefore};
ghost use Rattle.index_file.specs.ListWalk.{AreOfList};

use crate::lists::read_list;
use crate::part::Part;
use crate::source::ReadLists;
use cursor_api::DocCursor;
use index_file::{Index, ListWalk};
use no_memory::NoMemory;
use packed_list::{ListRead, ListViews};
use packed_sequence::LaterView;
use postings::PostingCursor;
use segments::joined_lists_follow;
use std::alloc::{AllocError, Global};
use two_level::SeqView;

// So many postings are read at once.
const ROOM: usize = 128;

/// The lists of an index, read one after the other.
#[derive(Drop)]
pub struct IndexLists<'a> {
    lists: ListWalk<'a>,
}

impl<'a> IndexLists<'a> {
    // Those of an index, from the first on.
    pub(crate) fn of(index: &Index<'a>) -> IndexLists<'a>
        ensures collection { result.lists.collection ≡ index.now.collection }
        ensures start { AreTaken 0 result.lists }
    {
        IndexLists {
            lists: index.lists_in_turn(),
        }
    }
}

impl<'a> ReadLists for IndexLists<'a> {
    ghost collection = { λ r. r.lists.collection };

    ghost stands_before = { λ t r. AreTaken t r.lists };

    fn read_next(
        &mut self,
        term: u32,
        docs: &mut Vec<u32>,
        freqs: &mut Vec<u32>,
    ) -> Result<(), AllocError> {
        if !self.lists.is_next(term) {
            docs.clear();
            freqs.clear();
            return Ok(());
        }
        let list = self.lists.next_list();
        self.lists.pass_list();
        let mut cursor = PostingCursor::new(list.docs, list.freqs, list.greatest);
        read_list(&mut cursor, docs, freqs)
    }
}

// Room for postings that are read at once.
#[derive(Drop)]
struct Room {
    docs: Vec<u64>,
    freqs: Vec<u64>,
    ghost docs_room: { length docs.items ≡ 128 },
    ghost freqs_room: { length freqs.items ≡ 128 },
}

impl Room {
    fn new(alloc: Global) -> Result<Room, AllocError> {
        let docs = vec![in alloc; 0; ROOM]?;
        let freqs = vec![in alloc; 0; ROOM]?;
        Ok(Room { docs, freqs })
    }
}

// Adds the postings from the place of a cursor on, as many as there are and have room, behind those
// of the vectors, with each document counted on from a first one.
fn add_some<C: DocCursor>(
    cursor: &mut C,
    first: u32,
    given_docs: &mut [u64],
    given_freqs: &mut [u64],
    docs: &mut Vec<u32>,
    freqs: &mut Vec<u32>,
) -> Result<(), AllocError>
    requires left { C.place cursor.old < length (C.list cursor.old) }
    requires few { EndsBelow (part_of first (C.list cursor.old)) most_joined }
    requires some_room { 0 < length given_docs.old }
    requires room { length given_docs.old ≤ length given_freqs.old }
    ensures list { C.list cursor.new ≡ C.list cursor.old }
    ensures docs_room { length given_docs.new ≡ length given_docs.old }
    ensures freqs_room { length given_freqs.new ≡ length given_freqs.old }
    ensures on { OnOk result (C.place cursor.old < C.place cursor.new) }
    ensures added { OnOk result (AreAdded first
        (slice_range (C.list cursor.old) (C.place cursor.old) (C.place cursor.new))
        docs.old.items freqs.old.items docs.new.items freqs.new.items) }
{
    let count = cursor.postings_below(u64::MAX, given_docs, given_freqs);
    for j in 0..count {
        docs.push(first + given_docs[j] as u32)?;
    }
    for k in 0..count {
        freqs.push(given_freqs[k] as u32)?;
    }
    Ok(())
}

// Adds the postings of the list of a cursor that stands at its start.
fn add_postings<C: DocCursor>(
    cursor: &mut C,
    first: u32,
    room: &mut Room,
    docs: &mut Vec<u32>,
    freqs: &mut Vec<u32>,
) -> Result<(), AllocError>
    requires start { C.place cursor.old ≡ 0 }
    requires few { EndsBelow (part_of first (C.list cursor.old)) most_joined }
    ensures { OnOk result (AreAdded first (C.list cursor.old) docs.old.items freqs.old.items
        docs.new.items freqs.new.items) }
{
    let given_docs = room.docs.as_mut_slice();
    let given_freqs = room.freqs.as_mut_slice();
    while cursor.doc().is_some() {
        add_some(cursor, first, given_docs, given_freqs, docs, freqs)?;
    }
    Ok(())
}

// Adds the documents of a list of as many postings as have room, each counted on from a first one.
fn add_docs(
    view: &SeqView<'_>,
    first: u32,
    given: &mut [u64],
    docs: &mut Vec<u32>,
) -> Result<(), AllocError>
    requires some { 0 < length given.old }
    requires room { length given.old ≡ length view.now.values }
    requires few { All (λ d. d < most_joined) (map (λ d. first + d) view.now.values) }
    ensures { OnOk result (docs.new.items
        ≡ docs.old.items ++ map (λ d. first + d) view.now.values) }
{
    view.values_into(given);
    for j in 0..given.len() {
        docs.push(first + given[j] as u32)?;
    }
    Ok(())
}

// Adds the frequencies of a list of as many postings as have room, by their sums. Where the
// greatest is 1 these are not read.
fn add_freqs(
    sums: &LaterView<'_>,
    most: u32,
    given: &mut [u64],
    freqs: &mut Vec<u32>,
) -> Result<(), AllocError>
    requires some { 0 < length given.old }
    requires few { length given.old ≤ 128 }
    requires room { length given.old ≡ length sums.now.values }
    requires not_zero { All (λ f. 1 ≤ f) (steps_from 0 sums.now.values) }
    requires fit { All (λ f. f < 2 ^ 32) (steps_from 0 sums.now.values) }
    requires most { most ≡ greatest (steps_from 0 sums.now.values) }
    ensures { OnOk result (freqs.new.items ≡ freqs.old.items ++ steps_from 0 sums.now.values) }
{
    if most == 1 {
        for _ in 0..given.len() {
            freqs.push(1)?;
        }
        return Ok(());
    }
    sums.values_into(given);
    let mut past = 0;
    for k in 0..given.len() {
        let next = given[k] + 1;
        freqs.push((next - past) as u32)?;
        past = next;
    }
    Ok(())
}

// Adds the postings of a list of as many as have room.
fn add_short(
    list: &ListViews<'_>,
    first: u32,
    given: &mut [u64],
    docs: &mut Vec<u32>,
    freqs: &mut Vec<u32>,
) -> Result<(), AllocError>
    requires some { 0 < length list.now.docs.values }
    requires fits { length list.now.docs.values ≤ 128 }
    requires room { length list.now.docs.values ≤ length given.old }
    requires same_length { length list.now.docs.values ≡ length list.now.freqs.values }
    requires list { IsCursorList (postings_in list.now.docs.values list.now.freqs.values) }
    requires most { list.now.greatest
        ≡ greatest_freq (postings_in list.now.docs.values list.now.freqs.values) }
    requires few { EndsBelow (part_of first
        (postings_in list.now.docs.values list.now.freqs.values)) most_joined }
    ensures room { length given.new ≡ length given.old }
    ensures added { OnOk result (AreAdded first
        (postings_in list.now.docs.values list.now.freqs.values) docs.old.items freqs.old.items
        docs.new.items freqs.new.items) }
{
    let count = list.docs.len() as usize;
    add_docs(&list.docs, first, &mut given[..count], docs)?;
    add_freqs(&list.freqs, list.greatest, &mut given[..count], freqs)
}

// Adds the postings of a list that has some, by a cursor over its two sequences.
#[inline(never)]
fn add_by_cursor(
    list: ListViews<'_>,
    first: u32,
    room: &mut Room,
    docs: &mut Vec<u32>,
    freqs: &mut Vec<u32>,
) -> Result<(), AllocError>
    requires list { AreOfList list.docs list.freqs list.greatest
        (postings_in list.docs.values list.freqs.values) }
    requires few { EndsBelow (part_of first (postings_in list.docs.values list.freqs.values))
        most_joined }
    ensures { OnOk result (AreAdded first
        (postings_in list.entry.docs.values list.entry.freqs.values) docs.old.items
        freqs.old.items docs.new.items freqs.new.items) }
{
    let mut cursor = PostingCursor::new(list.docs, list.freqs, list.greatest);
    add_postings(&mut cursor, first, room, docs, freqs)
}

// Adds the postings of a list that has some, by its two sequences.
#[inline(never)]
fn add_several(
    list: ListViews<'_>,
    first: u32,
    room: &mut Room,
    docs: &mut Vec<u32>,
    freqs: &mut Vec<u32>,
) -> Result<(), AllocError>
    requires some { 0 < length list.docs.values }
    requires list { AreOfList list.docs list.freqs list.greatest
        (postings_in list.docs.values list.freqs.values) }
    requires few { EndsBelow (part_of first (postings_in list.docs.values list.freqs.values))
        most_joined }
    ensures { OnOk result (AreAdded first
        (postings_in list.entry.docs.values list.entry.freqs.values) docs.old.items
        freqs.old.items docs.new.items freqs.new.items) }
{
    if list.docs.len() as usize <= ROOM {
        add_short(&list, first, room.docs.as_mut_slice(), docs, freqs)
    } else {
        add_by_cursor(list, first, room, docs, freqs)
    }
}

// Adds the postings of the next of some lists that has some.
fn add_list(
    lists: &ListWalk<'_>,
    first: u32,
    room: &mut Room,
    docs: &mut Vec<u32>,
    freqs: &mut Vec<u32>,
) -> Result<(), AllocError>
    requires within { lists.now.next < length lists.now.collection.lists }
    requires some { list_of lists.now.collection lists.now.next ≢ [] }
    requires few { EndsBelow (part_of first (list_of lists.now.collection lists.now.next))
        most_joined }
    ensures { OnOk result (AreAdded first (list_of lists.now.collection lists.now.next)
        docs.old.items freqs.old.items docs.new.items freqs.new.items) }
{
    match lists.next_read() {
        ListRead::One(doc, freq) => {
            docs.push(first + doc)?;
            freqs.push(freq)?;
            Ok(())
        }
        ListRead::Several(list) => add_several(list, first, room, docs, freqs),
    }
}

impl<'a> Part<'a> {
    // Adds its list of a term, which is the next that has postings or has none.
    fn add_next(
        &mut self,
        term: u32,
        room: &mut Room,
        docs: &mut Vec<u32>,
        freqs: &mut Vec<u32>,
    ) -> Result<(), AllocError>
        requires next { StandsBefore term self.old }
        requires few { EndsBelow (part_of self.old.first
            (list_of self.old.lists.collection term)) most_joined }
        ensures first { self.new.first ≡ self.old.first }
        ensures collection { self.new.lists.collection ≡ self.old.lists.collection }
        ensures next { OnOk result (StandsBefore (term + 1) self.new) }
        ensures added { OnOk result (AreAdded self.old.first
            (list_of self.old.lists.collection term) docs.old.items freqs.old.items docs.new.items
            freqs.new.items) }
    {
        if self.next != term {
            return Ok(());
        }
        if !self.lists.has_list(term) {
            return Ok(());
        }
        add_list(&self.lists, self.first, room, docs, freqs)?;
        self.lists.pass_list();
        self.next = self.lists.next();
        Ok(())
    }
}

// Adds the list of a term of each part, one after the other.
fn add_all(
    parts: &mut [Part<'_>],
    term: u32,
    room: &mut Room,
    docs: &mut Vec<u32>,
    freqs: &mut Vec<u32>,
) -> Result<(), AllocError>
    requires next { All (StandsBefore term) parts.old }
    requires few { All (λ p. EndsBelow p most_joined) (lists_placed (placed_in parts.old) term) }
    requires no_docs { docs.old.items ≡ [] }
    requires no_freqs { freqs.old.items ≡ [] }
    ensures placed { placed_in parts.new ≡ placed_in parts.old }
    ensures next { OnOk result (All (StandsBefore (term + 1)) parts.new) }
    ensures docs { OnOk result (docs.new.items
        ≡ docs_of (joined_list (lists_placed (placed_in parts.old) term))) }
    ensures freqs { OnOk result (freqs.new.items
        ≡ freqs_of (joined_list (lists_placed (placed_in parts.old) term))) }
{
    for i in 0..parts.len() {
        parts[i].add_next(term, room, docs, freqs)?;
    }
    Ok(())
}

/// The lists of several indexes as one, read one after the other.
#[derive(Drop)]
pub struct JoinedLists<'a> {
    parts: Vec<Part<'a>>,
    room: Room,
    ghost are_placed: { ArePlaced (placed_in parts.items) },
}

impl<'a> JoinedLists<'a> {
    // The lists of indexes that can be joined, from the first on.
    pub(crate) fn new(alloc: Global, parts: Vec<Part<'a>>) -> Result<JoinedLists<'a>, NoMemory>
        requires { ArePlaced (placed_in parts.items) }
        ensures { IfOk result (λ r. r.parts.items ≡ parts.entry.items) }
    {
        let room = Room::new(alloc)?;
        Ok(JoinedLists { parts, room })
    }
}

impl<'a> ReadLists for JoinedLists<'a> {
    ghost collection = { λ r. joined_wide (collections_placed (placed_in r.parts.items)) };

    ghost stands_before = { λ t r. All (StandsBefore t) r.parts.items };

    fn read_next(
        &mut self,
        term: u32,
        docs: &mut Vec<u32>,
        freqs: &mut Vec<u32>,
    ) -> Result<(), AllocError> {
        joined_lists_follow();
        docs.clear();
        freqs.clear();
        add_all(self.parts.as_mut_slice(), term, &mut self.room, docs, freqs)
    }
}
