// Where the lists of a packed file begin, read once.
ghost use Rattle.std.specs.Prelude.{◌≡◌, ℕ, ◌+◌, ◌-◌, ◌^◌, ◌<◌, ◌≤◌, List, length, slice_index, IfOk};
ghost use Rattle.part_codec.specs.PartView.{Holds, universe_of, count_of};
ghost use Rattle.index_file.specs.FileWords.{IsIndex};
ghost use Rattle.index_file.specs.PackedAt.{PassesPacked, starts_stated, packed_terms};
ghost use Rattle.index_file.specs.IndexView.{index_stated, starts_of};
ghost use Rattle.index_file.specs.ListStarts.{kept_starts, starts_of_format};
ghost use Rattle.part_cost.specs.declared.formats.Format.TheVariants.{Three};

use crate::frame::format_of;
use crate::laws::file_laws;
use crate::packed_checking::starts_part;
use crate::packed_frame::packed_frame_of;
use no_memory::NoMemory;
use part_codec::{PartCodec, PartView, one_list_at_place};
use part_cost::Format;
use std::alloc::Global;

// So many words a file has at least for each number that is kept of it.
const WORDS_A_START: u64 = 2;

/// Where the bits of each list of a packed file begin, counted among those of all lists, and behind
/// them where the last end; what `Index::with_starts` is given. There are none for a plain file,
/// whose directory says it word by word, nor where there would be more than one number for two
/// words, so that no more memory is taken than half of the file's. The words are those that
/// `Index::view` accepts.
pub fn list_starts(alloc: Global, words: &[u64]) -> Result<Vec<u64>, NoMemory>
    requires words { length words.now < 2 ^ 57 }
    requires index { IsIndex words.now }
    ensures starts { IfOk result (λ starts. starts.items ≡ kept_starts words.now) }
    ensures of_index { kept_starts words.now ≡ starts_of (index_stated words.now) }
{
    file_laws();
    match format_of(words) {
        Format::One => Ok(Vec::new(alloc)),
        Format::Two => Ok(Vec::new(alloc)),
        Format::Three => packed_starts(alloc, words),
    }
}

// Where the lists of a packed file begin, if it has so many words for each number.
fn packed_starts(alloc: Global, words: &[u64]) -> Result<Vec<u64>, NoMemory>
    requires words { length words.now < 2 ^ 57 }
    requires passes { PassesPacked words.now }
    ensures { IfOk result (λ starts. starts.items ≡ starts_of_format Three words.now) }
{
    one_list_at_place();
    let frame = packed_frame_of(words);
    if WORDS_A_START * (frame.terms + 1) > words.len() as u64 {
        return Ok(Vec::new(alloc));
    }
    let mut starts = vec![in alloc; 0; frame.terms as usize + 1]?;
    let directory = PartView::at(starts_part(words, frame));
    read_starts(&directory, starts.as_mut_slice());
    Ok(starts)
}

// Gives each number of a directory less its place.
fn read_starts(directory: &PartView, to: &mut [u64])
    requires held { (ys : List ℕ) × Holds directory.now ys × ((t : ℕ) → t < length ys
        → t ≤ slice_index ys t) }
    requires count { count_of directory.now ≡ length to.old }
    requires some { 0 < length to.old }
    requires small { universe_of directory.now < 2 ^ 63 }
    ensures count { length to.new ≡ length to.old }
    ensures less { (ys : List ℕ) → Holds directory.now ys → (t : ℕ) → t < length ys
        → slice_index to.new t ≡ slice_index ys t - t }
{
    read_numbers(directory, to);
    less_places(to);
}

// Gives all numbers of a part that holds some.
fn read_numbers(part: &PartView, to: &mut [u64])
    requires held { (ys : List ℕ) × Holds part.now ys }
    requires count { count_of part.now ≡ length to.old }
    requires some { 0 < length to.old }
    requires small { universe_of part.now < 2 ^ 63 }
    ensures { (ys : List ℕ) → Holds part.now ys → to.new ≡ ys }
{
    part.values_below(0, part.first(), u64::MAX, to);
}

// Takes from each number its place.
fn less_places(numbers: &mut [u64])
    requires above { (t : ℕ) → t < length numbers.old → t ≤ slice_index numbers.old t }
    ensures count { length numbers.new ≡ length numbers.old }
    ensures less { (t : ℕ) → t < length numbers.old
        → slice_index numbers.new t ≡ slice_index numbers.old t - t }
{
    for t in 0..numbers.len() {
        numbers[t] -= t as u64;
    }
}
