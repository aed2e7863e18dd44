ghost use Rattle.std.specs.Prelude.{◌≡◌, ℕ, ◌≤◌, ◌<◌, ◌+◌, ◌*◌, ◌/◌, ◌^◌, List, [], length, IfOk, OnOk, OnErr};
ghost use Rattle.collection_model.specs.FormatNumbers.{most_terms, part_charge};
ghost use Rattle.collection_model.specs.Collection.{postings_of, IsPostingList};
ghost use Rattle.collection_model.specs.Sequences.{doc_sequence, freq_sequence};
ghost use Rattle.part_cost.specs.Formats.{numbers_of};
ghost use Rattle.part_cost.specs.Span.{cost_of_part};
ghost use Rattle.part_cost.specs.Partition.{partition_cost};
ghost use Rattle.index_file.specs.FileWords.{CutList, plain_words};
ghost use Rattle.index_file.specs.Builder.{StandsForPlain, IsNearCut, cut_list, with_empty_plain_lists, with_plain_list};

use crate::entries::{push_entries, push_sizes, spell_entry};
use crate::frame::{END_MAGIC, LIST_WORDS, OPENING_MAGIC, WORDS_BEHIND};
use no_memory::NoMemory;
use part_cost::{Format, formats_have_room};
use partition_path::Cuts;
use postings::{CutSequence, write_sequences};
use std::alloc::Global;
use std::marker::Model;
use two_level::sequence_takes_its_cost;

// The words of a plain file in a format, list by list.
#[derive(Drop)]
pub(crate) struct PlainBuilder {
    alloc: Global,
    format: Format,
    documents: u32,
    words: Vec<u64>,
    directory: Vec<u64>,
}

impl Model for PlainBuilder {
    ghost use Rattle.std.specs.Prelude.{drop};
    ghost use Rattle.index_file.specs.Builder.{Built, IsKept};

    ghost Value = { Built };

    ghost view = { λ b. record {
      format = b.format;
      documents = b.documents;
      words = drop 2 b.words.items;
      directory = b.directory.items;
    } };

    ghost invariant = { λ b. IsKept b.format b.documents b.words.items b.directory.items };
}

impl PlainBuilder {
    // The builder of a plain file of so many documents in a format, with no list.
    pub(crate) fn new(
        alloc: Global,
        documents: u32,
        format: Format,
    ) -> Result<PlainBuilder, NoMemory>
        requires few { documents ≤ (numbers_of format).most_documents }
        ensures format { IfOk result (λ b. b.format ≡ format) }
        ensures documents { IfOk result (λ b. b.documents ≡ documents) }
        ensures no_list { IfOk result (λ b. StandsForPlain b []) }
    {
        let mut words = Vec::new(alloc);
        words.extend_from_slice(&[OPENING_MAGIC, format.version()])?;
        let directory = Vec::new(alloc);
        Ok(PlainBuilder {
            alloc,
            format,
            documents,
            words,
            directory,
        })
    }

    // Appends a list whose sequences are these, and are cut so.
    pub(crate) fn append(
        &mut self,
        docs: &[u64],
        sums: &[u64],
        freqs: &[u32],
        doc_cuts: &Cuts,
        freq_cuts: &Cuts,
    ) -> Result<(), NoMemory>
        requires same_length { length docs.now ≡ length freqs.now }
        requires list { IsPostingList (numbers_of self.old.format) self.old.documents
            (postings_of docs.now freqs.now) }
        requires sums { sums.now ≡ freq_sequence (postings_of docs.now freqs.now) }
        requires room { length self.old.directory / 4 < most_terms }
        requires near { IsNearCut (numbers_of self.old.format)
            (cut_list docs.now freqs.now doc_cuts.now.ends freq_cuts.now.ends) }
        requires total { doc_cuts.now.total ≡ partition_cost
            (cost_of_part (part_charge (numbers_of self.old.format))
            (doc_sequence (postings_of docs.now freqs.now))) doc_cuts.now.ends }
        ensures ok { OnOk result (self.new ≡ with_plain_list self.old
            (cut_list docs.now freqs.now doc_cuts.now.ends freq_cuts.now.ends)) }
        ensures err { OnErr result (self.new ≡ self.old) }
    {
        sequence_takes_its_cost();
        formats_have_room();
        let first = self.words.len();
        let entry = spell_entry(first as u64, freqs, doc_cuts, freq_cuts);
        let docs = CutSequence {
            values: docs,
            ends: doc_cuts.ends(),
        };
        let sums = CutSequence {
            values: sums,
            ends: freq_cuts.ends(),
        };
        write_sequences(self.alloc, docs, sums, self.format, &mut self.words)?;
        if self.directory.extend_from_slice(&entry).is_err() {
            self.words.truncate(first);
            return Err(NoMemory);
        }
        Ok(())
    }

    // Appends so many lists without postings. A refusal leaves the lists as they were.
    pub(crate) fn append_empty(&mut self, count: u64) -> Result<(), NoMemory>
        requires room { length self.old.directory / 4 + count ≤ most_terms }
        ensures ok { OnOk result (self.new ≡ with_empty_plain_lists self.old count) }
        ensures err { OnErr result (self.new ≡ self.old) }
    {
        let first = self.words.len() as u64;
        push_entries(&mut self.directory, [first, first, 0, 0], count)
    }

    // How many words the file has with so many sizes.
    pub(crate) fn count_words(&self, sizes: u64) -> u64
        requires few { sizes < 2 ^ 32 }
        ensures { result ≡ 2 + length self.now.words + (sizes + 1) / 2 + length self.now.directory
            + 4 }
    {
        self.words.len() as u64 + sizes.div_ceil(2) + self.directory.len() as u64 + WORDS_BEHIND
    }

    // The words of the file of the lists, with these sizes.
    pub(crate) fn into_words(self, sizes: &[u32]) -> Result<Vec<u64>, NoMemory>
        ensures { (cs : List CutList) → StandsForPlain self cs
            → IfOk result (λ words. words.items
            ≡ plain_words (numbers_of self.format) self.documents cs sizes.now) }
    {
        let PlainBuilder {
            alloc: _,
            format: _,
            documents,
            mut words,
            directory,
        } = self;
        let lists = directory.len() as u64 / LIST_WORDS;
        let sizes_from = words.len() as u64;
        push_sizes(&mut words, sizes)?;
        words.extend_from_slice(&directory)?;
        words.extend_from_slice(&[u64::from(documents), lists, sizes_from, END_MAGIC])?;
        Ok(words)
    }
}
