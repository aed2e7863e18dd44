ghost use Rattle.std.specs.Prelude.{◌≡◌, ℕ, ◌≤◌, length, IfOk, IfSome};
ghost use Rattle.collection_model.specs.Collection.{Collection};
ghost use Rattle.part_cost.specs.declared.formats.Format.TheVariants.{Three};
ghost use Rattle.index_file.specs.IndexView.{word_count};
ghost use Rattle.index_intervals.specs.LongLists.{AreIndexMaxima};

use crate::maxima::{IndexMaxima, POSTINGS_A_WORD, is_long};
use index_file::Index;
use interval_max::MaximaWriter;
use no_memory::NoMemory;
use packed_list::{ListHead, ListRoom, ListSink};
use part_cost::Format;
use postings::{cursors_stand_in_lists, sequences_give_their_list};
use std::alloc::Global;
use std::mem;

/// Makes the maxima of the lists of an index as they are checked.
#[derive(Drop)]
pub struct ListMaxima {
    writer: MaximaWriter,
    words: u64,
    // The postings of the long lists before.
    postings: u64,
    // Room for the sequences of a list, which is kept from each to the next.
    room: ListRoom,
    // Some list was not taken: it has more postings than there are words, or memory was refused.
    is_lost: bool,
}

impl ListMaxima {
    ghost use Rattle.index_intervals.specs.Taken.{AreTakenOrLost};

    /// Of no list yet, where so many words pay.
    pub fn new(alloc: Global, words: u64) -> ListMaxima
        ensures { (c : Collection) → AreTakenOrLost result c 0 }
    {
        ListMaxima {
            writer: MaximaWriter::new(alloc),
            words,
            postings: 0,
            room: no_room(alloc),
            is_lost: false,
        }
    }

    /// The maxima of an index. The lists of a packed one were given as it was opened.
    pub fn of(self, alloc: Global, index: &Index<'_>) -> Result<IndexMaxima, NoMemory>
        requires given { index.now.format ≡ Three → AreTakenOrLost self index.now.collection
            (length index.now.collection.lists) }
        ensures { IfOk result (λ m. AreIndexMaxima (word_count index.now) index.now.collection
            m.bytes.items) }
    {
        match index.format() {
            Format::Three => {
                index.stands_for_a_collection();
                if self.is_lost || self.words != index.word_count() {
                    return IndexMaxima::of(alloc, index);
                }
                let bytes = self.writer.finish()?;
                Ok(IndexMaxima { bytes })
            }
            Format::One => IndexMaxima::of(alloc, index),
            Format::Two => IndexMaxima::of(alloc, index),
        }
    }
}

// Lends room for so many postings; None where there is no memory for it.
fn lend(kept: &mut ListRoom, postings: u32) -> Option<ListRoom>
    ensures docs { IfSome result (λ room. postings ≤ length room.docs.items) }
    ensures sums { IfSome result (λ room. postings ≤ length room.sums.items) }
{
    let alloc = *kept.docs.allocator();
    let mut room = mem::replace(kept, no_room(alloc));
    let least = postings as usize;
    if room.docs.len() < least && room.docs.resize(least, 0).is_err() {
        return None;
    }
    if room.sums.len() < least && room.sums.resize(least, 0).is_err() {
        return None;
    }
    Some(room)
}

// Room for no list.
fn no_room(alloc: Global) -> ListRoom {
    ListRoom {
        docs: Vec::new(alloc),
        sums: Vec::new(alloc),
    }
}

impl ListSink for ListMaxima {
    ghost use Rattle.index_intervals.specs.Taken.{AreTakenOrLost};
    ghost use Rattle.index_intervals.specs.Passed.{short-passed};

    ghost took = { AreTakenOrLost };

    ghost passes = { short-passed };

    fn room(&mut self, head: ListHead) -> Option<ListRoom> {
        if self.is_lost || !is_long(head.postings, head.documents) {
            return None;
        }
        let Some(postings) = self.postings.checked_add(u64::from(head.postings)) else {
            self.is_lost = true;
            return None;
        };
        if postings / POSTINGS_A_WORD > self.words {
            self.postings = postings;
            return None;
        }
        if u64::from(head.postings) > self.words {
            self.is_lost = true;
            return None;
        }
        let room = lend(&mut self.room, head.postings);
        self.is_lost = room.is_none();
        room
    }

    fn take(&mut self, head: ListHead, room: ListRoom) {
        if self.is_lost || !is_long(head.postings, head.documents) {
            return;
        }
        let Some(postings) = self.postings.checked_add(u64::from(head.postings)) else {
            self.is_lost = true;
            return;
        };
        self.postings = postings;
        if postings / POSTINGS_A_WORD > self.words {
            return;
        }
        sequences_give_their_list();
        cursors_stand_in_lists();
        let count = head.postings as usize;
        let added = self.writer.add_sequences(
            head.term,
            &room.docs[..count],
            &room.sums[..count],
            head.greatest,
            head.documents,
        );
        self.is_lost = added.is_err();
        self.room = room;
    }
}
