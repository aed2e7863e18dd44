ghost use Rattle.std.specs.Prelude.{◌≡◌, ℕ, ◌+◌, ◌*◌, ◌^◌, ◌<◌, ◌≤◌, true, List, length};
ghost use Rattle.std.specs.Prelude.{slice_index, slice_range};
ghost use Rattle.bit_words.specs.Bits.{bits_of, field_at};
ghost use Rattle.collection_model.specs.FormatNumbers.{format_three};
ghost use Rattle.packed_sequence.specs.SequenceBits.{sequence_bits};
ghost use Rattle.packed_sequence.specs.SequencePlaces.{IsSequenceBefore};
ghost use Rattle.packed_list.specs.ListPlaces.{HoldsList};
ghost use Rattle.packed_list.specs.ListStated.{list_at, IsRead};

use crate::gamma::two_gammas;
use crate::list_laws::lists_state_back;
use bit_words::Bits;
use packed_sequence::{LaterView, known_sequence_with_end, last_doc};
use part_cost::Format;
use postings::{sequences_give_their_list, sequences_of_a_list_rise};
use two_level::SeqView;

/// A list, ready to be read: its two sequences, and its greatest frequency.
#[derive(Drop)]
pub struct ListViews<'a> {
    pub docs: SeqView<'a>,
    pub freqs: LaterView<'a>,
    pub greatest: u32,
}

/// What was read of a list with postings: the document and the frequency of its one posting, or its
/// sequences where it has several.
#[derive(Drop)]
pub enum ListRead<'a> {
    One(u32, u32),
    Several(ListViews<'a>),
}

/// Reads the list with postings whose bits stand between two places of the words. The parts of a
/// list of several are not looked at.
pub fn read_list<'a>(words: &'a [u64], from: u64, to: u64, documents: u32) -> ListRead<'a>
    requires words { length words.now < 2 ^ 57 }
    requires some { from < to }
    requires range { to ≤ 64 * length words.now }
    requires list { HoldsList documents (bits_of words.now) from to }
    ensures { IsRead result (list_at documents words.entry.now from) }
{
    lists_state_back();
    sequences_of_a_list_rise();
    sequences_give_their_list();
    let bits = Bits { words };
    let head = two_gammas(bits, from, to);
    let field = last_doc(documents);
    if head.first == 1 {
        let doc = bits.get(head.behind, field.width);
        return ListRead::One(doc as u32, head.second);
    }
    let docs = known_sequence_with_end(words, head.behind, head.first, field);
    ListRead::Several(ListViews {
        docs: docs.view,
        freqs: LaterView::of_sums(words, docs.behind, head.first, head.second),
        greatest: head.second,
    })
}

/// The list with postings whose bits stand between two places of the words. Its parts are not
/// looked at.
pub fn view_list<'a>(words: &'a [u64], from: u64, to: u64, documents: u32) -> ListViews<'a>
    requires words { length words.now < 2 ^ 57 }
    requires some { from < to }
    requires range { to ≤ 64 * length words.now }
    requires list { HoldsList documents (bits_of words.now) from to }
    ensures docs { result.docs ≡ (list_at documents words.entry.now from).docs }
    ensures freqs { result.freqs ≡ (list_at documents words.entry.now from).freqs }
    ensures greatest { result.greatest ≡ (list_at documents words.entry.now from).most }
{
    lists_state_back();
    sequences_of_a_list_rise();
    sequences_give_their_list();
    let bits = Bits { words };
    let head = two_gammas(bits, from, to);
    let field = last_doc(documents);
    if head.first == 1 {
        let doc = bits.get(head.behind, field.width);
        let sum = u64::from(head.second) - 1;
        return ListViews {
            docs: SeqView::standing_alone(words, from, doc, 1, Format::Three),
            freqs: LaterView::read(SeqView::standing_alone(words, from, sum, 1, Format::Three)),
            greatest: head.second,
        };
    }
    let docs = known_sequence_with_end(words, head.behind, head.first, field);
    ListViews {
        docs: docs.view,
        freqs: LaterView::of_sums(words, docs.behind, head.first, head.second),
        greatest: head.second,
    }
}
