ghost use Rattle.std.specs.Prelude.{◌≡◌, ℕ, ◌+◌, ◌≤◌, ◌<◌, ◌^◌, List, [], length, IfOk, OnOk, OnErr};
ghost use Rattle.collection_model.specs.FormatNumbers.{format_three, most_terms};
ghost use Rattle.collection_model.specs.Collection.{postings_of, IsPostingList};
ghost use Rattle.collection_model.specs.Sequences.{freq_sequence};
ghost use Rattle.index_file.specs.CutLists.{CutList};
ghost use Rattle.index_file.specs.PackedWords.{packed_words};
ghost use Rattle.index_file.specs.Builder.{StandsFor, IsNearCut, cut_list, with_list, with_empty_lists};

use crate::packed_builder::PackedBuilder;
use no_memory::NoMemory;
use part_cost::Format;
use std::alloc::Global;
use std::marker::Model;

// The lists of a packed file, of which those without postings behind the last with some are only
// counted.
#[derive(Drop)]
pub(crate) struct PackedTail {
    lists: PackedBuilder,
    // How many lists without postings follow.
    tail: u64,
}

impl Model for PackedTail {
    ghost use Rattle.index_file.specs.Builder.{Built, HasEmptyTail, with_empty_lists};

    ghost Value = { Built };

    ghost view = { λ b. with_empty_lists b.lists b.tail };

    ghost invariant = { λ b. HasEmptyTail b.lists b.tail };
}

impl PackedTail {
    // The builder of a packed file of so many documents, with no list.
    pub(crate) fn new(alloc: Global, documents: u32) -> Result<PackedTail, NoMemory>
        ensures format { IfOk result (λ b. b.format ≡ Format.Three) }
        ensures documents { IfOk result (λ b. b.documents ≡ documents) }
        ensures no_list { IfOk result (λ b. StandsFor b []) }
    {
        let lists = PackedBuilder::new(alloc, documents)?;
        Ok(PackedTail { lists, tail: 0 })
    }

    // Appends a list whose sequences are these, in parts with these ends. A refusal leaves the
    // lists as they were.
    pub(crate) fn append(
        &mut self,
        docs: &[u64],
        sums: &[u64],
        freqs: &[u32],
        doc_ends: &[u64],
        sum_ends: &[u64],
    ) -> Result<(), NoMemory>
        requires same_length { length docs.now ≡ length freqs.now }
        requires list { IsPostingList format_three self.old.documents
            (postings_of docs.now freqs.now) }
        requires sums { sums.now ≡ freq_sequence (postings_of docs.now freqs.now) }
        requires room { length self.old.directory ≤ most_terms }
        requires near { IsNearCut format_three
            (cut_list docs.now freqs.now doc_ends.now sum_ends.now) }
        ensures ok { OnOk result (self.new ≡ with_list self.old
            (cut_list docs.now freqs.now doc_ends.now sum_ends.now)) }
        ensures err { OnErr result (self.new ≡ self.old) }
    {
        if docs.is_empty() {
            self.tail += 1;
            return Ok(());
        }
        self.lists.append_empty(self.tail)?;
        self.tail = 0;
        self.lists.append(docs, sums, freqs, doc_ends, sum_ends)
    }

    // Appends so many lists without postings.
    pub(crate) fn append_empty(&mut self, count: u64)
        requires room { length self.old.directory + count ≤ most_terms + 1 }
        ensures { self.new ≡ with_empty_lists self.old count }
    {
        self.tail += count;
    }

    // How many words the file has with so many sizes.
    pub(crate) fn count_words(&self, sizes: u64) -> u64
        requires few { sizes < 2 ^ 32 }
        ensures { (cs : List CutList) (of : List ℕ) → StandsFor self.now cs → length of ≡ sizes
            → result ≡ length (packed_words self.now.documents cs of) }
    {
        self.lists.count_words(self.tail, sizes)
    }

    // The words of the file of the lists, with these sizes.
    pub(crate) fn into_words(self, sizes: &[u32]) -> Result<Vec<u64>, NoMemory>
        ensures { (cs : List CutList) → StandsFor self cs
            → IfOk result (λ words. words.items ≡ packed_words self.documents cs sizes.now) }
    {
        let PackedTail { mut lists, tail } = self;
        if lists.has_no_bits() {
            return lists.into_empty_words(tail, sizes);
        }
        lists.append_empty(tail)?;
        lists.into_words(sizes)
    }
}
