ghost use Rattle.std.specs.Prelude.{◌≡◌, ◌≤◌, ◌<◌, ◌-◌, ◌+◌, ◌^◌, length, map, slice_index, sum_by};
ghost use Rattle.part_cost.specs.declared.formats.Format.TheVariants.{Three};
ghost use Rattle.part_cost.specs.declared.kinds.Kind.TheVariants.{Ones, Bitmap, Ef};
ghost use Rattle.part_cost.specs.Formats.{numbers_of};
ghost use Rattle.part_cost.specs.Payload.{widest_low};
ghost use Rattle.part_cost.specs.Partition.{partition_cost};
ghost use Rattle.index_file.specs.FileWords.{Spells};
ghost use Rattle.index_file.specs.FirstBroken.{stated_terms};
ghost use Rattle.index_file.specs.ListStarts.{AreNoneOr, list_starts};
ghost use Rattle.index_file.specs.IndexView.{index_stated, cut_lists};
ghost use Rattle.index_file.specs.Measures.{Measure, PartsOf, Payload, counted, measure_at};
ghost use Rattle.index_file.specs.Measures.{measure_of_part, measure_of_list, IsMeasured};

use crate::laws::file_laws;
use crate::totals::walked_terms;
use crate::views::list_views;
use part_cost::{Format, Kind, part_is_relative};
use two_level::{Part, SeqView, sequence_takes_its_cost};

/// How many parts there are of each form, and how many bits all take, without those of the
/// directories and without padding.
#[derive(Clone, Copy)]
pub struct PartCounts {
    pub ones_parts: u64,
    pub bitmap_parts: u64,
    pub ef_parts: u64,
    pub payload_bits: u64,
}

impl PartCounts {
    // Those of no part.
    fn none() -> PartCounts
        ensures { (measure : Measure) → counted result measure ≡ 0 }
    {
        PartCounts {
            ones_parts: 0,
            bitmap_parts: 0,
            ef_parts: 0,
            payload_bits: 0,
        }
    }

    // Both together.
    fn plus(self, more: PartCounts) -> PartCounts
        requires small { (measure : Measure)
            → counted self measure + counted more measure < 2 ^ 64 }
        ensures { (measure : Measure)
            → counted result measure ≡ counted self measure + counted more measure }
    {
        PartCounts {
            ones_parts: self.ones_parts + more.ones_parts,
            bitmap_parts: self.bitmap_parts + more.bitmap_parts,
            ef_parts: self.ef_parts + more.ef_parts,
            payload_bits: self.payload_bits + more.payload_bits,
        }
    }
}

// What a part adds.
fn of_part(part: Part) -> PartCounts
    requires some { part.from < part.to }
    requires fit { part.to - part.from ≤ part.u }
    requires in_range { part.u ≤ 2 ^ widest_low }
    ensures ones { result.ones_parts ≡ measure_at (PartsOf Ones) part.u (part.to - part.from) }
    ensures bitmaps { result.bitmap_parts
        ≡ measure_at (PartsOf Bitmap) part.u (part.to - part.from) }
    ensures efs { result.ef_parts ≡ measure_at (PartsOf Ef) part.u (part.to - part.from) }
    ensures bits { result.payload_bits ≡ measure_at Payload part.u (part.to - part.from) }
{
    let len = u64::from(part.to - part.from);
    let kind = part_cost::kind(part.u, len);
    PartCounts {
        ones_parts: u64::from(kind == Kind::Ones),
        bitmap_parts: u64::from(kind == Kind::Bitmap),
        ef_parts: u64::from(kind == Kind::Ef),
        payload_bits: part_cost::payload_bits(part.u, len),
    }
}

// What the parts of a sequence add.
fn of_sequence(sequence: &SeqView) -> PartCounts
    requires measured { (measure : Measure) → IsMeasured measure sequence.now }
    ensures { (measure : Measure) → counted result measure
        ≡ partition_cost (measure_of_part measure sequence.now.values) sequence.now.ends }
{
    part_is_relative();
    let mut total = PartCounts::none();
    for i in 0..sequence.parts() {
        total = total.plus(of_part(sequence.part(i)));
    }
    total
}

// What the two sequences of list t of the words of an index add, by where the lists of a packed
// file begin, if that is kept.
fn of_list(words: &[u64], starts: &[u64], t: u32, format: Format) -> PartCounts
    requires words { length words.now < 2 ^ 57 }
    requires starts { format ≡ Three → AreNoneOr (list_starts words.now) starts.now }
    requires index { Spells (numbers_of format) words.now (index_stated words.now).collection
        (index_stated words.now).parts }
    requires within { t < stated_terms words.now }
    ensures { (measure : Measure) → counted result measure
        ≡ slice_index (map (measure_of_list measure) (cut_lists (index_stated words.now))) t }
{
    file_laws();
    sequence_takes_its_cost();
    let list = list_views(words, starts, t, format);
    let docs = of_sequence(&list.docs);
    docs.plus(of_sequence(&list.freqs.into_view()))
}

// What the sequences of all lists of the words of an index add.
pub(crate) fn of_index(words: &[u64], starts: &[u64], format: Format) -> PartCounts
    requires words { length words.now < 2 ^ 57 }
    requires starts { format ≡ Three → AreNoneOr (list_starts words.now) starts.now }
    requires index { Spells (numbers_of format) words.now (index_stated words.now).collection
        (index_stated words.now).parts }
    ensures { (measure : Measure) → counted result measure
        ≡ sum_by (measure_of_list measure) (cut_lists (index_stated words.now)) }
{
    file_laws();
    sequence_takes_its_cost();
    let mut total = PartCounts::none();
    for t in 0..walked_terms(words, format) {
        total = total.plus(of_list(words, starts, t, format));
    }
    total
}
