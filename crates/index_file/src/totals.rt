ghost use Rattle.std.specs.Prelude.{◌≡◌, ℕ, ◌≤◌, ◌<◌, ◌+◌, ◌/◌, ◌^◌, ◌↔◌, IsTrue, [], sum_by};
ghost use Rattle.std.specs.Prelude.{length};
ghost use Rattle.std.specs.List.{range_with_len};
ghost use Rattle.collection_model.specs.Collection.{list_of};
ghost use Rattle.part_cost.specs.declared.formats.Format.TheVariants.{Three};
ghost use Rattle.part_cost.specs.Formats.{numbers_of};
ghost use Rattle.index_file.specs.FileWords.{IsIndexIn, Spells};
ghost use Rattle.index_file.specs.FirstBroken.{stated_terms};
ghost use Rattle.index_file.specs.ListStarts.{AreNoneOr, list_starts};
ghost use Rattle.index_file.specs.IndexView.{index_stated, sizes_of_kind};
ghost use Rattle.index_file.specs.PackedAt.{packed_bits};
ghost use Rattle.index_file.specs.PackedView.{size_at};

use crate::frame::frame_of;
use crate::laws::file_laws;
use crate::lists::halves;
use crate::packed_frame::{packed_frame_of, packed_sizes_of};
use crate::views::list_views;
use part_cost::Format;

// The first word of sizes.
pub(crate) fn sizes_from(words: &[u64], format: Format) -> u64
    requires words { length words.now < 2 ^ 57 }
    requires index { IsIndexIn (numbers_of format) words.now }
    ensures { result ≡ sizes_of_kind (numbers_of format).kind words.now }
{
    file_laws();
    match format {
        Format::One => frame_of(words).sizes,
        Format::Two => frame_of(words).sizes,
        Format::Three => packed_sizes_of(packed_frame_of(words)),
    }
}

// The size of document d, where the sizes begin at word `first`.
pub(crate) fn size_at(words: &[u64], first: u64, d: u32) -> u32
    requires words { length words.now < 2 ^ 57 }
    requires within { first + d / 2 < length words.now }
    ensures { result ≡ size_at words.now first d }
{
    let at = first as usize + d as usize / 2;
    let (low, high) = halves(words[at]);
    if d % 2 == 0 { low } else { high }
}

// The sum of the sizes of so many documents, which begin at word `first`.
pub(crate) fn all_sizes(words: &[u64], first: u64, documents: u32) -> u64
    requires words { length words.now < 2 ^ 57 }
    requires within { first + (documents + 1) / 2 ≤ length words.now }
    ensures { result ≡ sum_by (size_at words.now first) (range_with_len 0 documents) }
{
    let mut total = 0;
    for d in 0..documents {
        total += u64::from(size_at(words, first, d));
    }
    total
}

// Whether this is a packed file whose lists take no bits, so that none has postings.
pub(crate) fn is_without_bits(words: &[u64], format: Format) -> bool
    requires some { 4 ≤ length words.now }
    ensures { IsTrue result ↔ ((format ≡ Three) × (packed_bits words.now ≡ 0)) }
{
    match format {
        Format::One => false,
        Format::Two => false,
        Format::Three => packed_frame_of(words).bits == 0,
    }
}

// How many lists a walk over all looks at: none where no list takes bits.
pub(crate) fn walked_terms(words: &[u64], format: Format) -> u32
    requires words { length words.now < 2 ^ 57 }
    requires index { Spells (numbers_of format) words.now (index_stated words.now).collection
        (index_stated words.now).parts }
    ensures within { result ≤ stated_terms words.now }
    ensures rest { (t : ℕ) → result ≤ t → list_of (index_stated words.now).collection t ≡ [] }
    ensures none { format ≡ Three → sum_by length (index_stated words.now).collection.lists ≡ 0
        → result ≡ 0 }
{
    file_laws();
    if is_without_bits(words, format) {
        return 0;
    }
    frame_of(words).terms as u32
}

// How many postings all lists have, by where the lists of a packed file begin, if that is kept.
pub(crate) fn all_postings(words: &[u64], starts: &[u64], format: Format) -> u64
    requires words { length words.now < 2 ^ 57 }
    requires starts { format ≡ Three → AreNoneOr (list_starts words.now) starts.now }
    requires index { Spells (numbers_of format) words.now (index_stated words.now).collection
        (index_stated words.now).parts }
    ensures { result ≡ sum_by length (index_stated words.now).collection.lists }
{
    file_laws();
    let mut total = 0;
    for t in 0..walked_terms(words, format) {
        total += u64::from(list_views(words, starts, t, format).docs.len());
    }
    total
}
