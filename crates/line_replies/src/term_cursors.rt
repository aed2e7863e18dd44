// The cursors of terms.
ghost use Rattle.std.specs.Prelude.{◌≡◌, ◌≤◌, ◌<◌, map, length, IfOk, OnOk};
ghost use Rattle.std.specs.List.{All};
ghost use Rattle.command_model.specs.Replies.{lists_of};
ghost use Rattle.line_replies.specs.CursorRoom.{KeepsRoom};

use crate::lists::{LineCursors, TermLists};
use no_memory::NoMemory;
use std::alloc::Global;
use std::default::MadeWith;

/// A cursor at the start of each of these terms' lists.
pub fn cursors_of<L: TermLists>(
    alloc: Global,
    lists: &L,
    terms: &[u32],
) -> Result<Vec<L::Cursor>, NoMemory>
    requires { All (λ t. t < length (L.collection lists.now).lists) terms.now }
    ensures lists { IfOk result (λ cursors. map L.Cursor.list cursors.items
        ≡ lists_of (L.collection lists.now) terms.now) }
    ensures start { IfOk result (λ cursors. All (λ c. L.Cursor.place c ≡ 0) cursors.items) }
{
    let mut cursors = Vec::with_capacity(alloc, terms.len())?;
    for term in terms {
        let mut cursor = L::Cursor::made_with(alloc);
        lists.put_cursor(alloc, &mut cursor, *term)?;
        cursors.push(cursor)?;
    }
    Ok(cursors)
}

// Puts a cursor at the start of each of these terms' lists in the place of other cursors. Where
// there is room for as many, no memory is taken for that.
pub(crate) fn set_cursors<L: TermLists>(
    alloc: Global,
    lists: &L,
    cursors: &mut LineCursors<L::Cursor>,
    terms: &[u32],
) -> Result<(), NoMemory>
    requires { All (λ t. t < length (L.collection lists.now).lists) terms.now }
    ensures lists { OnOk result (map L.Cursor.list cursors.new.items
        ≡ lists_of (L.collection lists.now) terms.now) }
    ensures start { OnOk result (All (λ c. L.Cursor.place c ≡ 0) cursors.new.items) }
    ensures room { KeepsRoom (length terms.now) cursors.old.capacity cursors.new.capacity }
{
    cursors.resize_with(terms.len(), || L::Cursor::made_with(alloc))?;
    put_cursors(alloc, lists, cursors.as_mut_slice(), terms)
}

// Puts a cursor at the start of each of these terms' lists in the place of as many others.
fn put_cursors<L: TermLists>(
    alloc: Global,
    lists: &L,
    cursors: &mut [L::Cursor],
    terms: &[u32],
) -> Result<(), NoMemory>
    requires named { All (λ t. t < length (L.collection lists.now).lists) terms.now }
    requires each { length cursors.old ≡ length terms.now }
    ensures lists { OnOk result (map L.Cursor.list cursors.new
        ≡ lists_of (L.collection lists.now) terms.now) }
    ensures start { OnOk result (All (λ c. L.Cursor.place c ≡ 0) cursors.new) }
    ensures each { length cursors.new ≡ length cursors.old }
{
    for at in 0..terms.len() {
        lists.put_cursor(alloc, &mut cursors[at], terms[at])?;
    }
    Ok(())
}
