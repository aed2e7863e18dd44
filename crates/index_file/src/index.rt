ghost use Rattle.std.specs.Prelude.{◌≡◌, ℕ, ◌≤◌, ◌<◌, ◌-◌, ◌^◌, List, [], length, sum, slice_index, take, drop, option_map, IfOk, IfErr};
ghost use Rattle.collection_model.specs.Collection.{Collection, WellFormed, list_of, docs_of, first_at_least, greatest_freq};
ghost use Rattle.part_cost.specs.declared.formats.Format.TheVariants.{Three};
ghost use Rattle.part_cost.specs.declared.kinds.Kind.TheVariants.{Ones, Bitmap, Ef};
ghost use Rattle.part_cost.specs.Formats.{numbers_of};
ghost use Rattle.part_cost.specs.Partition.{IsPartition};
ghost use Rattle.two_level.specs.SequenceView.{start_of_part};
ghost use Rattle.index_file.specs.FileWords.{ListParts, ArePartitions, Spells, IsIndexIn, IsIndex};
ghost use Rattle.index_file.specs.FirstBroken.{stated_terms, IsFirstBroken};
ghost use Rattle.index_file.specs.ListStarts.{AreNoneOr, list_starts, kept_starts};
ghost use Rattle.index_file.specs.ListWalk.{AreEmpty};
ghost use Rattle.index_file.specs.IndexView as of;

use crate::checking::check_file;
use crate::fault::OpenFault;
use crate::frame::{format_of, frame_of};
use crate::laws::file_laws;
use crate::measures::{PartCounts, of_index};
use crate::totals::{all_postings, all_sizes, size_at, sizes_from, walked_terms};
use crate::views::list_views;
use crate::walk::ListWalk;
use cursor_api::DocCursor;
use packed_list::{ListSink, ListViews, NoLists};
use part_cost::{Format, Kind, Which};
use postings::{PostingCursor, first_posting};
use std::marker::Model;
use two_level::SeqView;

/// An index over the words of its file, a plain one or a packed one.
#[derive(Drop)]
pub struct Index<'a> {
    words: &'a [u64],
    // Where the lists of a packed file begin, if it is kept.
    starts: &'a [u64],
}

impl<'a> Model for Index<'a> {
    ghost use Rattle.std.specs.Prelude.{◌<◌, ◌^◌, length};
    ghost use Rattle.std.specs.List.{All};
    ghost use Rattle.part_cost.specs.Formats.{numbers_of};
    ghost use Rattle.index_file.specs.FileWords.{Spells};
    ghost use Rattle.index_file.specs.ListStarts.{AreNoneOr, kept_starts};
    ghost use Rattle.index_file.specs.IndexView.{IndexView, index_stated, with_starts};

    ghost Value = { IndexView };

    ghost view = { λ i. with_starts (index_stated i.words.now) i.starts.now };

    ghost invariant = { λ i. Spells (numbers_of (index_stated i.words.now).format) i.words.now
        (index_stated i.words.now).collection (index_stated i.words.now).parts
        × (length i.words.now < 2 ^ 57) × All (λ w. w < 2 ^ 64) i.words.now
        × AreNoneOr (kept_starts i.words.now) i.starts.now };
}

impl<'a> Index<'a> {
    /// The index that the words are, in the format in which they are read, or their first broken
    /// check.
    pub fn view(words: &'a [u64]) -> Result<Index<'a>, OpenFault>
        requires words { length words.now < 2 ^ 57 }
        ensures ok { IfOk result (λ index. Spells (numbers_of index.format) words.entry.now
            index.collection index.parts) }
        ensures no_index { IfErr result (λ f. ¬ IsIndex words.entry.now) }
        ensures first { IfErr result (λ f. IsFirstBroken words.entry.now f) }
        ensures stated { IfOk result (λ index. index ≡ of.index_stated words.entry.now) }
    {
        Index::view_into(words, &mut NoLists)
    }

    /// The index that `view` gives. The lists of a packed file are given to what takes lists; where
    /// a check breaks, some may have been.
    pub fn view_into<L: ListSink>(words: &'a [u64], lists: &mut L) -> Result<Index<'a>, OpenFault>
        requires words { length words.now < 2 ^ 57 }
        ensures ok { IfOk result (λ index. Spells (numbers_of index.format) words.entry.now
            index.collection index.parts) }
        ensures no_index { IfErr result (λ f. ¬ IsIndex words.entry.now) }
        ensures first { IfErr result (λ f. IsFirstBroken words.entry.now f) }
        ensures stated { IfOk result (λ index. index ≡ of.index_stated words.entry.now) }
        ensures took { IfOk result (λ index. index.format ≡ Three
            → L.took lists.old index.collection 0
            → L.took lists.new index.collection (length index.collection.lists)) }
    {
        file_laws();
        check_file(words, lists)?;
        Ok(Index {
            words,
            starts: &words[..0],
        })
    }

    /// The index that the words are, where it is known that `view` accepts them: nothing is
    /// checked.
    pub fn known(words: &'a [u64]) -> Index<'a>
        requires words { length words.now < 2 ^ 57 }
        requires index { IsIndex words.now }
        ensures spells { Spells (numbers_of result.format) words.entry.now result.collection
            result.parts }
        ensures stated { result ≡ of.index_stated words.entry.now }
    {
        file_laws();
        Index {
            words,
            starts: &words[..0],
        }
    }

    /// The index of `known`, which keeps where the lists of a packed file begin, if that is given
    /// as `list_starts` tells it, and finds a list by it and not by the directory.
    pub fn with_starts(words: &'a [u64], starts: &'a [u64]) -> Index<'a>
        requires words { length words.now < 2 ^ 57 }
        requires index { IsIndex words.now }
        requires starts { AreNoneOr (kept_starts words.now) starts.now }
        ensures spells { Spells (numbers_of result.format) words.entry.now result.collection
            result.parts }
        ensures kept { result
            ≡ of.with_starts (of.index_stated words.entry.now) starts.entry.now }
    {
        file_laws();
        Index { words, starts }
    }

    /// What every index is: its collection is well formed in its format, and the sequences of its
    /// lists are cut into partitions.
    pub fn stands_for_a_collection(&self)
        ensures well_formed { WellFormed (numbers_of self.now.format) self.now.collection }
        ensures partitions { ArePartitions self.now.collection.lists self.now.parts }
    {
        let _words = self.words;
    }

    /// The format of the file.
    pub fn format(&self) -> Format
        ensures { result ≡ self.now.format }
    {
        format_of(self.words)
    }

    /// How many documents there are.
    pub fn documents(&self) -> u32
        ensures { result ≡ self.now.collection.documents }
    {
        file_laws();
        frame_of(self.words).documents as u32
    }

    /// How many lists there are.
    pub fn terms(&self) -> u32
        ensures { result ≡ length self.now.collection.lists }
    {
        file_laws();
        frame_of(self.words).terms as u32
    }

    /// How many lists a walk over all has to look at: those from there on have no postings. It is 0
    /// where a packed file has no list bits, as six words may be a file of 4,294,967,295 empty
    /// lists.
    pub fn walked_terms(&self) -> u32
        ensures within { result ≤ length self.now.collection.lists }
        ensures rest { (t : ℕ) → result ≤ t → list_of self.now.collection t ≡ [] }
        ensures none { self.now.format ≡ Three → of.postings_count self.now ≡ 0 → result ≡ 0 }
    {
        file_laws();
        walked_terms(self.words, self.format())
    }

    /// How many postings all lists have.
    pub fn postings(&self) -> u64
        ensures { result ≡ of.postings_count self.now }
    {
        all_postings(self.words, self.starts, self.format())
    }

    /// The size of document d.
    pub fn size_of(&self, d: u32) -> u32
        requires within { d < self.now.collection.documents }
        ensures { result ≡ slice_index self.now.collection.sizes d }
    {
        file_laws();
        size_at(self.words, sizes_from(self.words, self.format()), d)
    }

    /// The sum of all sizes.
    pub fn size_total(&self) -> u64
        ensures { result ≡ sum self.now.collection.sizes }
    {
        file_laws();
        let first = sizes_from(self.words, self.format());
        all_sizes(self.words, first, self.documents())
    }

    /// How many words the file has.
    pub fn word_count(&self) -> u64
        ensures { result ≡ of.word_count self.now }
    {
        self.words.len() as u64
    }

    /// How many parts of each kind the sequences of all lists have, of documents and of
    /// frequencies, and how many bits these take.
    pub fn part_counts(&self) -> PartCounts
        ensures ones { result.ones_parts ≡ of.parts_of_kind self.now Ones }
        ensures bitmaps { result.bitmap_parts ≡ of.parts_of_kind self.now Bitmap }
        ensures efs { result.ef_parts ≡ of.parts_of_kind self.now Ef }
        ensures bits { result.payload_bits ≡ of.payload_bits self.now }
    {
        of_index(self.words, self.starts, self.format())
    }

    /// How many parts of a kind they have.
    pub fn parts_of_kind(&self, kind: Kind) -> u64
        ensures { result ≡ of.parts_of_kind self.now kind }
    {
        let counts = self.part_counts();
        match kind {
            Kind::Ones => counts.ones_parts,
            Kind::Bitmap => counts.bitmap_parts,
            Kind::Ef => counts.ef_parts,
        }
    }

    /// How many bits all parts take, without those of the directories and without padding.
    pub fn payload_bits(&self) -> u64
        ensures { result ≡ of.payload_bits self.now }
    {
        self.part_counts().payload_bits
    }

    /// How many bits a sequence of list t takes as it stands in the file: what its parts cost, and
    /// in a packed file of one part the payload alone, of one value none. It looks at one entry.
    pub fn seq_cost(&self, t: u32, which: Which) -> u64
        requires within { t < length self.now.collection.lists }
        ensures { result ≡ of.sequence_cost self.now t which }
    {
        self.stands_for_a_collection();
        let format = self.format();
        let list = self.list(t);
        match which {
            Which::Docs => stored_cost(&list.docs, format),
            Which::Freqs => stored_cost(&list.freqs.into_view(), format),
        }
    }

    /// How many parts the documents of list t have.
    pub fn blocks(&self, t: u32) -> u32
        requires within { t < length self.now.collection.lists }
        ensures { result ≡ length (of.doc_ends_of self.now t) }
    {
        self.list(t).docs.parts()
    }

    /// The last document of part q of the documents of list t, and the greatest frequency in that
    /// part. It reads each frequency of the part that does not lie in a part of frequencies that
    /// are all 1.
    pub fn block(&self, t: u32, q: u32) -> (u32, u32)
        requires within { t < length self.now.collection.lists }
        requires part { q < length (of.doc_ends_of self.now t) }
        ensures last { result.0 ≡ slice_index (docs_of (list_of self.now.collection t))
            (slice_index (of.doc_ends_of self.now t) q - 1) }
        ensures greatest { let ends = of.doc_ends_of self.now t in
            result.1 ≡ greatest_freq (take (slice_index ends q - start_of_part ends q)
            (drop (start_of_part ends q) (list_of self.now.collection t))) }
    {
        self.stands_for_a_collection();
        let list = self.list(t);
        let part = list.docs.part(q);
        let greatest = list.freqs.into_view().greatest_step(part.from, part.to);
        (part.last as u32, greatest as u32)
    }

    /// The last document of part q of the documents of list t. It looks at one entry.
    pub fn block_last(&self, t: u32, q: u32) -> u32
        requires within { t < length self.now.collection.lists }
        requires part { q < length (of.doc_ends_of self.now t) }
        ensures { result ≡ slice_index (docs_of (list_of self.now.collection t))
            (slice_index (of.doc_ends_of self.now t) q - 1) }
    {
        self.stands_for_a_collection();
        self.list(t).docs.last_of_part(q) as u32
    }

    // The two sequences of list t.
    fn list(&self, t: u32) -> ListViews<'a>
        requires within { t < length self.now.collection.lists }
        ensures docs { result.docs ≡ of.docs_view (numbers_of self.now.format)
            (of.cut_list_at self.now t) }
        ensures freqs { result.freqs ≡ of.freqs_view (numbers_of self.now.format)
            (of.cut_list_at self.now t) }
    {
        file_laws();
        list_views(self.words, self.starts, t, self.format())
    }

    /// A cursor at the start of list t.
    pub fn cursor(&self, t: u32) -> PostingCursor<'a>
        requires within { t < length self.now.collection.lists }
        ensures list { ⟦<PostingCursor<'a> as DocCursor>⟧.list result
            ≡ list_of self.now.collection t }
        ensures start { ⟦<PostingCursor<'a> as DocCursor>⟧.place result ≡ 0 }
    {
        file_laws();
        cursor_at(self.words, self.starts, t, self.format())
    }

    /// Its lists that have postings, one after the other.
    pub fn lists_in_turn(&self) -> ListWalk<'a>
        ensures collection { result.collection ≡ self.now.collection }
        ensures empty { AreEmpty result.collection 0 result.next }
    {
        file_laws();
        ListWalk::over(self.words, self.format())
    }

    /// The first posting of list t whose document is at least d, as document and frequency.
    pub fn first_posting(&self, t: u32, d: u32) -> Option<(u32, u32)>
        requires within { t < length self.now.collection.lists }
        ensures { result ≡ option_map (λ p. (p.doc, p.freq))
            (first_at_least (list_of self.now.collection t) d) }
    {
        file_laws();
        posting_from(self.words, self.starts, t, d, self.format())
    }
}

// How many bits a sequence takes as it stands in a file of a format.
fn stored_cost(sequence: &SeqView, format: Format) -> u64
    requires format { sequence.now.format ≡ numbers_of format }
    requires cut { IsPartition (length sequence.now.values) sequence.now.ends }
    ensures { result ≡ of.cost_of_view sequence.now }
{
    let cost = sequence.cost();
    match format {
        Format::One => cost,
        Format::Two => cost,
        Format::Three => {
            if sequence.parts() != 1 {
                return cost;
            }
            if sequence.len() == 1 {
                0
            } else {
                cost - Format::Three.charge()
            }
        }
    }
}

// A cursor at the start of list t of the words of an index.
fn cursor_at<'a>(words: &'a [u64], starts: &[u64], t: u32, format: Format) -> PostingCursor<'a>
    requires words { length words.now < 2 ^ 57 }
    requires starts { format ≡ Three → AreNoneOr (list_starts words.now) starts.now }
    requires index { IsIndexIn (numbers_of format) words.now }
    requires within { t < stated_terms words.now }
    ensures list { (c : Collection) (parts : List ListParts)
        → Spells (numbers_of format) words.entry.now c parts
        → ⟦<PostingCursor<'a> as DocCursor>⟧.list result ≡ list_of c t }
    ensures start { ⟦<PostingCursor<'a> as DocCursor>⟧.place result ≡ 0 }
{
    file_laws();
    let list = list_views(words, starts, t, format);
    PostingCursor::new(list.docs, list.freqs, list.greatest)
}

// The first posting of list t of the words of an index whose document is at least d.
fn posting_from(words: &[u64], starts: &[u64], t: u32, d: u32, format: Format) -> Option<(u32, u32)>
    requires words { length words.now < 2 ^ 57 }
    requires starts { format ≡ Three → AreNoneOr (list_starts words.now) starts.now }
    requires index { IsIndexIn (numbers_of format) words.now }
    requires within { t < stated_terms words.now }
    ensures { (c : Collection) (parts : List ListParts)
        → Spells (numbers_of format) words.now c parts
        → result ≡ option_map (λ p. (p.doc, p.freq)) (first_at_least (list_of c t) d) }
{
    file_laws();
    let list = list_views(words, starts, t, format);
    let freqs = list.freqs.into_view();
    first_posting(&list.docs, &freqs, d)
}
