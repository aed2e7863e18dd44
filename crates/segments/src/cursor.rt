ghost use Rattle.std.specs.Prelude.{◌≡◌, [], length};
ghost use Rattle.std.specs.List.{All};
ghost use Rattle.cursor_api.specs.NextGeq.{IsCursorList};
ghost use Rattle.segments.specs.Joined.{joined_list, FollowInOrder};
ghost use Rattle.segments.specs.JoinedCursor.{parts_of, places_of, joined_place, StandsAt};
ghost use Rattle.segments.specs.CursorPlaces.{joined-cursor};

use crate::part::part_doc;
use crate::parts::{
    common_of, count_all, docs_from, greatest_of, postings_from, seek, seek_frequency, settled,
};
use cursor_api::{BlankCursor, DocCursor};
use std::alloc::Global;
use std::default::MadeWith;

/// A cursor over the lists of segments as one list: they stand one after the other, and the
/// documents of each are counted on from the first document of its segment. No call takes memory.
///
/// It goes on from the part at which it stands: a part that is passed is never looked at again.
#[derive(Drop)]
pub struct JoinedCursor<C: DocCursor> {
    parts: Vec<(u32, C)>,
    // The part at which it stands: its cursor is at a posting. At the end of the list the number of
    // parts.
    at: usize,
    len: u32,
    ghost listed: { IsCursorList (joined_list (parts_of C.list parts.items)) },
    ghost stands: { StandsAt (parts_of C.list parts.items) (places_of C.place parts.items) at },
    ghost count: { len ≡ length (joined_list (parts_of C.list parts.items)) },
}

impl<C: DocCursor> JoinedCursor<C> {
    /// A cursor at the start of the lists of these parts, each the first document of its segment
    /// and a cursor at the start of the segment's list. The documents of a part lie below the first
    /// document of each later one, and all of them below 4,294,967,295.
    pub fn new(parts: Vec<(u32, C)>) -> JoinedCursor<C>
        requires at_start { All (λ p. C.place p.1 ≡ 0) parts.items }
        requires follow { FollowInOrder (parts_of C.list parts.items) }
        ensures list { ⟦<JoinedCursor<C> as DocCursor>⟧.list result
            ≡ joined_list (parts_of C.list parts.items) }
        ensures start { ⟦<JoinedCursor<C> as DocCursor>⟧.place result ≡ 0 }
    {
        let at = settled(&parts, 0);
        let len = count_all(&parts);
        JoinedCursor { parts, at, len }
    }
}

/// A blank: a cursor over no parts, whose list is empty.
impl<C: DocCursor> MadeWith<Global> for JoinedCursor<C> {
    ghost is_made_with = { λ c. joined_list (parts_of C.list c.parts.items) ≡ [] };

    fn made_with(alloc: Global) -> JoinedCursor<C> {
        JoinedCursor::new(Vec::new(alloc))
    }
}

impl<C: DocCursor> DocCursor for JoinedCursor<C> {
    ghost list = { λ c. joined_list (parts_of C.list c.parts.items) };

    ghost place = { λ c. joined_place (parts_of C.list c.parts.items)
        (places_of C.place c.parts.items) c.at };

    fn doc(&self) -> Option<u32> {
        part_doc(self.parts.get(self.at)?)
    }

    fn freq(&mut self) -> u32 {
        self.parts[self.at].1.freq()
    }

    fn advance(&mut self) {
        let at = self.at;
        self.parts[at].1.advance();
        self.at = settled(&self.parts, at);
    }

    fn next_geq(&mut self, d: u32) {
        self.at = seek(&mut self.parts, self.at, d);
    }

    fn next_frequent(&mut self, f: u32) {
        self.at = seek_frequency(&mut self.parts, self.at, f);
    }

    fn docs_below(&mut self, end: u64, docs: &mut [u64]) -> usize {
        let (at, count) = docs_from(&mut self.parts, self.at, end, docs);
        self.at = at;
        count
    }

    fn postings_below(&mut self, end: u64, docs: &mut [u64], freqs: &mut [u64]) -> usize {
        let (at, count) = postings_from(&mut self.parts, self.at, end, docs, freqs);
        self.at = at;
        count
    }

    fn max_freq(&self) -> u32 {
        greatest_of(&self.parts)
    }

    fn common_freq(&self, k: u32) -> u32 {
        common_of(&self.parts, k)
    }

    fn len(&self) -> u32 {
        self.len
    }

    ghost well_formed = { λ c. joined-cursor C.list C.place c.parts.items c.at c.listed c.stands };
}

impl<C: DocCursor> BlankCursor for JoinedCursor<C> {
    ghost empty = { λ c is. is };
}
