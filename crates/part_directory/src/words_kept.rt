ghost use Rattle.std.specs.Prelude.{◌≡◌, ℕ, ◌-◌, ◌*◌, ◌≤◌, List, length};
ghost use Rattle.std.specs.List.Sorted.{IsStrictlyIncreasing};
ghost use Rattle.collection_model.specs.Marks.{AreKept};
ghost use Rattle.part_cost.specs.Payload.{kind_of};
ghost use Rattle.part_codec.specs.KeptWords.{words_kept};
ghost use Rattle.part_codec.specs.PartView.{Holds, universe_of, count_of};
ghost use Rattle.part_directory.specs.HeldParts.{HoldsValues};
ghost use Rattle.part_directory.specs.KeptWords.{words_kept_by_part};

use crate::held::HeldPart;
use part_codec::PartView;

// Takes back the marks of places that are none of the numbers of a part that holds some, in as many
// whole words as it tells.
fn keep_numbers(view: &PartView, from: u64, marks: &mut [u64]) -> usize
    requires held { (ys : List ℕ) × Holds view.now ys }
    ensures words { result ≡ words_kept (kind_of (universe_of view.now) (count_of view.now))
        (universe_of view.now) from (length marks.old) }
    ensures inside { 64 * result ≤ universe_of view.now - from }
    ensures kept { (ys : List ℕ) → Holds view.now ys → AreKept ys from marks.old marks.new result }
{
    view.keep_in_words(from, marks)
}

impl<'a> HeldPart<'a> {
    /// Takes back the marks of numbers that are no values of the sequence, in as many whole words
    /// of marks as it tells: bit k of the words stands for `first` + k. The others are left.
    pub fn keep_in_words(&self, first: u64, marks: &mut [u64]) -> usize
        requires values { (xs : List ℕ) × HoldsValues self.now xs }
        ensures words { (xs : List ℕ) → HoldsValues self.now xs → result
            ≡ words_kept_by_part xs self.now.part.from self.now.part.to first
            (length marks.old) }
        ensures kept { (xs : List ℕ) → HoldsValues self.now xs → IsStrictlyIncreasing xs
            → AreKept xs first marks.old marks.new result }
    {
        match first.checked_sub(self.past) {
            Some(from) => keep_numbers(&self.view, from, marks),
            None => 0,
        }
    }
}
