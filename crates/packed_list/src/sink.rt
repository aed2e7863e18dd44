ghost use Rattle.std.specs.Prelude.{◌≡◌, ℕ, ◌+◌, ◌^◌, ◌<◌, ◌≤◌, List, length, take, IfSome, IfNone};
ghost use Rattle.collection_model.specs.Collection.{Collection, Posting, list_of};
ghost use Rattle.collection_model.specs.Sequences.{doc_sequence, freq_sequence};

/// What the head of a list says: how many postings it has, and its greatest frequency; of which
/// term it is, and over how many documents.
#[derive(Clone, Copy)]
pub struct ListHead {
    pub term: u32,
    pub documents: u32,
    pub postings: u32,
    pub greatest: u32,
    pub ghost documents_fit: { documents < 2 ^ 32 },
    pub ghost few: { postings < 2 ^ 32 },
    pub ghost greatest_fits: { greatest < 2 ^ 32 },
}

/// Room for the two sequences of a list, or more: its documents, and the sums of its frequencies.
#[derive(Drop)]
pub struct ListRoom {
    pub docs: Vec<u64>,
    pub sums: Vec<u64>,
}

/// What takes lists as they are checked, by rising term. Lists of one posting are not given.
pub trait ListSink {
    ghost use Rattle.packed_list.specs.ListHead.{IsHeadOf, BeginWithList};

    /// The lists of the terms below this one were taken, of this collection.
    ghost took: { Self → Collection → ℕ → Type 0 };

    /// Room for the sequences of a list, which is lent until they are checked; None where the list
    /// is not wanted.
    fn room(&mut self, head: ListHead) -> Option<ListRoom>
        ensures docs { IfSome result (λ room. head.postings ≤ length room.docs.items) }
        ensures sums { IfSome result (λ room. head.postings ≤ length room.sums.items) }
        ensures lent { IfSome result (λ room. (c : Collection) → took self.old c head.term
            → took self.new c head.term) }
        ensures passed { IfNone result ((c : Collection) → took self.old c head.term
            → IsHeadOf head c → took self.new c (head.term + 1)) };

    /// Takes a list by its sequences, with which the room that was lent begins.
    fn take(&mut self, head: ListHead, room: ListRoom)
        requires { (list : List Posting)
            × BeginWithList head room.docs.items room.sums.items list }
        ensures { (c : Collection) → took self.old c head.term → IsHeadOf head c
            → take head.postings room.docs.items ≡ doc_sequence (list_of c head.term)
            → take head.postings room.sums.items ≡ freq_sequence (list_of c head.term)
            → took self.new c (head.term + 1) };

    /// A list of one posting or none is passed.
    ghost passes: { (s : Self) (c : Collection) (t : ℕ) → took s c t
        → length (list_of c t) ≤ 1 → took s c (t + 1) };
}

/// Takes no lists.
#[derive(Clone, Copy)]
pub struct NoLists;

impl ListSink for NoLists {
    ghost took = { λ _ _ _. Unit {0} };

    fn room(&mut self, _head: ListHead) -> Option<ListRoom> {
        None
    }

    fn take(&mut self, _head: ListHead, _room: ListRoom) {}

    ghost passes = { λ _ _ _ _ _. tt };
}
