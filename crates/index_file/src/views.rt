ghost use Rattle.std.specs.Prelude.{◌≡◌, ◌≤◌, ◌<◌, ◌^◌, length, drop};
ghost use Rattle.part_cost.specs.Formats.{numbers_of};
ghost use Rattle.two_level.specs.SequenceView.{SequenceView, BeginWith};
ghost use Rattle.index_file.specs.FileWords.{IsPlainIn, IsIndexIn};
ghost use Rattle.index_file.specs.FirstBroken.{stated_terms, stated_greatest};
ghost use Rattle.part_cost.specs.declared.formats.Format.TheVariants.{Three};
ghost use Rattle.index_file.specs.ListStarts.{AreNoneOr, list_starts};
ghost use Rattle.index_file.specs.IndexView.{docs_stated, freqs_stated, list_of_kind};

use crate::frame::frame_of;
use crate::laws::{file_laws, sequence_laws};
use crate::lists::list_entry;
use crate::packed_views::packed_list_views;
use packed_list::ListViews;
use packed_sequence::LaterView;
use part_cost::Format;
use two_level::SeqView;

// List t of the words of an index in a format, by where the lists of a packed file begin, if that
// is kept.
pub(crate) fn list_views<'a>(
    words: &'a [u64],
    starts: &[u64],
    t: u32,
    format: Format,
) -> ListViews<'a>
    requires words { length words.now < 2 ^ 57 }
    requires starts { format ≡ Three → AreNoneOr (list_starts words.now) starts.now }
    requires index { IsIndexIn (numbers_of format) words.now }
    requires within { t < stated_terms words.now }
    ensures docs { result.docs ≡ (list_of_kind (numbers_of format).kind (numbers_of format)
        words.entry.now t).docs }
    ensures freqs { result.freqs ≡ (list_of_kind (numbers_of format).kind (numbers_of format)
        words.entry.now t).freqs }
    ensures greatest { result.greatest ≡ (list_of_kind (numbers_of format).kind (numbers_of format)
        words.entry.now t).most }
{
    file_laws();
    match format {
        Format::One => plain_list_views(words, t, Format::One),
        Format::Two => plain_list_views(words, t, Format::Two),
        Format::Three => packed_list_views(words, starts, t),
    }
}

// List t of the words of a plain file.
pub(crate) fn plain_list_views<'a>(words: &'a [u64], t: u32, format: Format) -> ListViews<'a>
    requires words { length words.now < 2 ^ 57 }
    requires index { IsPlainIn (numbers_of format) words.now }
    requires within { t < stated_terms words.now }
    ensures docs { result.docs ≡ docs_stated (numbers_of format) words.entry.now t }
    ensures freqs { result.freqs ≡ freqs_stated (numbers_of format) words.entry.now t }
    ensures greatest { result.greatest ≡ stated_greatest words.entry.now t }
{
    sequence_laws();
    let list = list_entry(words, frame_of(words), t);
    let docs = known_at(words, list.docs, list.doc_parts, list.len, format);
    let freqs = known_at(words, list.sums, list.sum_parts, list.len, format);
    ListViews {
        docs,
        freqs: LaterView::read(freqs),
        greatest: list.greatest,
    }
}

// The sequence of m values in so many parts with which the words from word p on begin.
fn known_at<'a>(words: &'a [u64], p: u64, parts: u32, m: u32, format: Format) -> SeqView<'a>
    requires words { length words.now < 2 ^ 57 }
    requires within { p ≤ length words.now }
    requires checked { (v : SequenceView) × (v.format ≡ numbers_of format)
        × BeginWith (drop p words.now) parts m v }
    ensures same { (v : SequenceView) → v.format ≡ numbers_of format
        → BeginWith (drop p words.entry.now) parts m v → result ≡ v }
{
    SeqView::known(&words[p as usize..], parts, m, format)
}
