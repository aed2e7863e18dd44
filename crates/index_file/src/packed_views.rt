ghost use Rattle.std.specs.Prelude.{◌≡◌, ℕ, ◌+◌, ◌≤◌, ◌<◌, ◌^◌, List, length, slice_index};
ghost use Rattle.part_codec.specs.PartView.{Holds, count_of};
ghost use Rattle.index_file.specs.PackedAt.{packed_terms, start_stated, HasStarts, HasPackedFrame, PassesPacked};
ghost use Rattle.index_file.specs.ListStarts.{AreNoneOr, list_starts};
ghost use Rattle.index_file.specs.PackedFaults.{StatesPackedFrame};
ghost use Rattle.index_file.specs.PackedView.{packed_list_stated};

use crate::gaps::number_after;
use crate::packed_checking::{FIRST_LIST_BIT, starts_part};
use crate::packed_frame::{PackedFrame, packed_frame_of};
use packed_list::{ListViews, view_list};
use packed_sequence::LaterView;
use part_codec::{PartCodec, PartView, one_list_at_place};
use part_cost::Format;
use two_level::SeqView;

// Number t of the directory.
fn number_at(starts: &PartView, t: u64) -> u64
    requires held { (ys : List ℕ) × Holds starts.now ys }
    requires within { t < count_of starts.now }
    ensures { (ys : List ℕ) → Holds starts.now ys → result ≡ slice_index ys t }
{
    starts.get(t)
}

// Where the bits of a list stand among those of all lists.
#[derive(Clone, Copy)]
struct BitRange {
    from: u64,
    to: u64,
}

// How many list bits stand before list t of a packed file, and before the next one.
fn bits_of_list(words: &[u64], frame: PackedFrame, t: u64) -> BitRange
    requires words { length words.now < 2 ^ 57 }
    requires frame { HasPackedFrame words.now }
    requires numbers { StatesPackedFrame words.now frame }
    requires starts { HasStarts words.now }
    requires within { t < packed_terms words.now }
    ensures from { result.from ≡ start_stated words.now t }
    ensures to { result.to ≡ start_stated words.now (t + 1) }
{
    one_list_at_place();
    let starts = PartView::at(starts_part(words, frame));
    let number = number_at(&starts, t);
    let next = number_after(&starts, t, number);
    BitRange {
        from: number - t,
        to: next - t - 1,
    }
}

// How many list bits stand before list t of a packed file, and before the next one: by where the
// lists begin, and where that is not kept by the directory.
fn range_of_list(words: &[u64], starts: &[u64], frame: PackedFrame, t: u64) -> BitRange
    requires words { length words.now < 2 ^ 57 }
    requires frame { HasPackedFrame words.now }
    requires numbers { StatesPackedFrame words.now frame }
    requires directory { HasStarts words.now }
    requires starts { AreNoneOr (list_starts words.now) starts.now }
    requires within { t < packed_terms words.now }
    ensures from { result.from ≡ start_stated words.now t }
    ensures to { result.to ≡ start_stated words.now (t + 1) }
{
    if starts.is_empty() {
        bits_of_list(words, frame, t)
    } else {
        BitRange {
            from: starts[t as usize],
            to: starts[t as usize + 1],
        }
    }
}

// List t of the words of a packed file. It reads the list's head, and where the lists' starts are
// not kept two numbers of the directory.
pub(crate) fn packed_list_views<'a>(words: &'a [u64], starts: &[u64], t: u32) -> ListViews<'a>
    requires words { length words.now < 2 ^ 57 }
    requires starts { AreNoneOr (list_starts words.now) starts.now }
    requires passes { PassesPacked words.now }
    requires within { t < packed_terms words.now }
    ensures docs { result.docs ≡ (packed_list_stated words.entry.now t).docs }
    ensures freqs { result.freqs ≡ (packed_list_stated words.entry.now t).freqs }
    ensures greatest { result.greatest ≡ (packed_list_stated words.entry.now t).most }
{
    one_list_at_place();
    let frame = packed_frame_of(words);
    let range = range_of_list(words, starts, frame, t as u64);
    if range.from == range.to {
        return ListViews {
            docs: SeqView::without_values(Format::Three),
            freqs: LaterView::read(SeqView::without_values(Format::Three)),
            greatest: 0,
        };
    }
    view_list(
        words,
        FIRST_LIST_BIT + range.from,
        FIRST_LIST_BIT + range.to,
        frame.documents as u32,
    )
}
