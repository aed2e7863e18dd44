ghost use Rattle.std.specs.Prelude.{◌≡◌, ℕ, ◌≤◌, ◌<◌, ◌+◌, ◌*◌, ◌/◌, ◌^◌, List, [], length, IfOk, OnOk, OnErr};
ghost use Rattle.collection_model.specs.FormatNumbers.{most_terms, part_charge};
ghost use Rattle.collection_model.specs.Collection.{postings_of, IsPostingList};
ghost use Rattle.collection_model.specs.Sequences.{doc_sequence, freq_sequence};
ghost use Rattle.part_cost.specs.Formats.{numbers_of};
ghost use Rattle.part_cost.specs.Span.{cost_of_part};
ghost use Rattle.part_cost.specs.Partition.{partition_cost};
ghost use Rattle.cost_windows.specs.WindowBounds.{window_bounds};
ghost use Rattle.index_file.specs.FileWords.{CutList, words_of_file};
ghost use Rattle.index_file.specs.Builder.{StandsFor, IsNearCut, AddsList, AddsEmptyLists, lists_added, most_words, cut_list, with_list};

use crate::packed_tail::PackedTail;
use crate::partitions::cut;
use crate::plain_builder::PlainBuilder;
use no_memory::NoMemory;
use part_cost::{Format, formats_have_room};
use partition_path::Cuts;
use postings::{doc_values, freq_sums, sequences_of_a_list_rise};
use std::alloc::Global;
use std::marker::Model;
use std::sync::ledger::Ledger;
use step_count::Steps;

// The greatest number of words of a file.
const MOST_WORDS: u64 = 1 << 37;

/// Why there is no file.
#[derive(Clone, Copy, Debug, PartialEq, Eq)]
pub enum FinishError {
    /// There would be so many words, more than 2^37.
    TooLarge(u64),
    /// Memory was refused.
    NoMemory,
}

/// The words of an index in a format, list by list.
#[derive(Drop)]
pub struct Builder {
    alloc: Global,
    format: Format,
    // The halves, of which that of the format's kind is filled.
    plain: PlainBuilder,
    packed: PackedTail,
}

impl Model for Builder {
    ghost use Rattle.index_file.specs.Builder.{Built, IsBuilder, built_of};

    ghost Value = { Built };

    ghost view = { λ b. built_of b.format b.plain b.packed };

    ghost invariant = { λ b. IsBuilder b.format b.plain b.packed };
}

impl Builder {
    /// The builder of an index of so many documents in a format, with no list.
    pub fn new(alloc: Global, documents: u32, format: Format) -> Result<Builder, NoMemory>
        requires few { documents ≤ (numbers_of format).most_documents }
        ensures format { IfOk result (λ b. b.format ≡ format) }
        ensures documents { IfOk result (λ b. b.documents ≡ documents) }
        ensures no_list { IfOk result (λ b. StandsFor b []) }
    {
        let plain = PlainBuilder::new(alloc, documents, format)?;
        let packed = PackedTail::new(alloc, documents)?;
        Ok(Builder {
            alloc,
            format,
            plain,
            packed,
        })
    }

    /// Adds a list, its two sequences in near-cheapest parts. A refusal leaves the lists as they
    /// were.
    pub fn add_list<L: Ledger>(
        &mut self,
        docs: &[u32],
        freqs: &[u32],
        steps: &mut Steps<L>,
    ) -> Result<(), NoMemory>
        requires same_length { length docs.now ≡ length freqs.now }
        requires list { IsPostingList (numbers_of self.old.format) self.old.documents
            (postings_of docs.now freqs.now) }
        requires room { lists_added self.old < most_terms }
        ensures ok { OnOk result (AddsList self.old self.new (postings_of docs.now freqs.now)
            steps.old steps.new) }
        ensures err { OnErr result (self.new ≡ self.old) }
        // At most three counted costs a window for each number and one more, in each of the two
        // sequences.
        ensures bounded { steps.new ≤ steps.old
            + 6 * length (window_bounds self.old.format) * (length docs.now + 1) }
    {
        sequences_of_a_list_rise();
        formats_have_room();
        let values = doc_values(self.alloc, docs)?;
        let doc_cuts = cut(self.alloc, &values, self.format, steps)?;
        let sums = freq_sums(self.alloc, freqs)?;
        let freq_cuts = cut(self.alloc, &sums, self.format, steps)?;
        self.append(&values, &sums, freqs, &doc_cuts, &freq_cuts)
    }

    /// Adds so many lists without postings. In a packed file they take no memory until a list with
    /// postings follows. A refusal leaves the lists as they were.
    pub fn add_empty_lists(&mut self, count: u32) -> Result<(), NoMemory>
        requires room { lists_added self.old + count ≤ most_terms }
        ensures ok { OnOk result (AddsEmptyLists self.old self.new count) }
        ensures err { OnErr result (self.new ≡ self.old) }
    {
        match self.format {
            Format::One => self.plain.append_empty(u64::from(count)),
            Format::Two => self.plain.append_empty(u64::from(count)),
            Format::Three => {
                self.packed.append_empty(u64::from(count));
                Ok(())
            }
        }
    }

    // Appends a list whose sequences are these, and are cut so.
    fn append(
        &mut self,
        docs: &[u64],
        sums: &[u64],
        freqs: &[u32],
        doc_cuts: &Cuts,
        freq_cuts: &Cuts,
    ) -> Result<(), NoMemory>
        requires same_length { length docs.now ≡ length freqs.now }
        requires list { IsPostingList (numbers_of self.old.format) self.old.documents
            (postings_of docs.now freqs.now) }
        requires sums { sums.now ≡ freq_sequence (postings_of docs.now freqs.now) }
        requires room { lists_added self.old < most_terms }
        requires near { IsNearCut (numbers_of self.old.format)
            (cut_list docs.now freqs.now doc_cuts.now.ends freq_cuts.now.ends) }
        requires total { doc_cuts.now.total ≡ partition_cost
            (cost_of_part (part_charge (numbers_of self.old.format))
            (doc_sequence (postings_of docs.now freqs.now))) doc_cuts.now.ends }
        ensures ok { OnOk result (self.new ≡ with_list self.old
            (cut_list docs.now freqs.now doc_cuts.now.ends freq_cuts.now.ends)) }
        ensures err { OnErr result (self.new ≡ self.old) }
    {
        match self.format {
            Format::One => self.plain.append(docs, sums, freqs, doc_cuts, freq_cuts),
            Format::Two => self.plain.append(docs, sums, freqs, doc_cuts, freq_cuts),
            Format::Three => {
                self.packed
                    .append(docs, sums, freqs, doc_cuts.ends(), freq_cuts.ends())
            }
        }
    }

    /// The words of the file of the lists, with these sizes. A file of more than 2^37 words is
    /// refused before memory is taken.
    pub fn finish(self, sizes: &[u32]) -> Result<Vec<u64>, FinishError>
        requires sizes { length sizes.now ≡ self.documents }
        ensures words { (cs : List CutList) → StandsFor self cs
            → IfOk result (λ words. words.items
            ≡ words_of_file (numbers_of self.format) self.documents cs sizes.now) }
        ensures within { IfOk result (λ words. length words.items ≤ most_words) }
        ensures too_large { (n : ℕ) → result ≡ Err (FinishError.TooLarge n) → most_words < n }
        ensures would_be { (n : ℕ) → result ≡ Err (FinishError.TooLarge n)
            → (cs : List CutList) → StandsFor self cs
            → n ≡ length (words_of_file (numbers_of self.format) self.documents cs sizes.now) }
        ensures refused { (cs : List CutList) → StandsFor self cs
            → most_words < length (words_of_file (numbers_of self.format) self.documents cs
            sizes.now)
            → result ≡ Err (FinishError.TooLarge
            (length (words_of_file (numbers_of self.format) self.documents cs sizes.now))) }
    {
        let count = self.count_words(sizes.len() as u64);
        if count > MOST_WORDS {
            return Err(FinishError::TooLarge(count));
        }
        self.into_words(sizes).map_err(|_| FinishError::NoMemory)
    }

    // How many words the file has with so many sizes.
    fn count_words(&self, sizes: u64) -> u64
        requires few { sizes < 2 ^ 32 }
        ensures { (cs : List CutList) (of : List ℕ) → StandsFor self.now cs → length of ≡ sizes
            → result ≡ length (words_of_file (numbers_of self.now.format) self.now.documents cs
            of) }
    {
        match self.format {
            Format::One => self.plain.count_words(sizes),
            Format::Two => self.plain.count_words(sizes),
            Format::Three => self.packed.count_words(sizes),
        }
    }

    // The words of the file.
    fn into_words(self, sizes: &[u32]) -> Result<Vec<u64>, NoMemory>
        ensures { (cs : List CutList) → StandsFor self cs
            → IfOk result (λ words. words.items
            ≡ words_of_file (numbers_of self.format) self.documents cs sizes.now) }
    {
        let Builder {
            alloc: _,
            format,
            plain,
            packed,
        } = self;
        match format {
            Format::One => plain.into_words(sizes),
            Format::Two => plain.into_words(sizes),
            Format::Three => packed.into_words(sizes),
        }
    }
}
