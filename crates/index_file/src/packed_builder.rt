ghost use Rattle.std.specs.Prelude.{◌≡◌, ℕ, ◌+◌, ◌≤◌, ◌<◌, ◌^◌, ◌↔◌, ◌++◌, ◌∷◌, List, [], length, IsTrue, IfOk, OnOk, OnErr};
ghost use Rattle.collection_model.specs.FormatNumbers.{format_three, most_terms};
ghost use Rattle.collection_model.specs.Collection.{postings_of, IsPostingList};
ghost use Rattle.collection_model.specs.Sequences.{freq_sequence};
ghost use Rattle.part_cost.specs.Payload.{widest_low};
ghost use Rattle.index_file.specs.CutLists.{CutList};
ghost use Rattle.index_file.specs.PackedWords.{packed_words};
ghost use Rattle.index_file.specs.Builder.{StandsFor, IsNearCut, cut_list, with_list, with_empty_lists};

use crate::entries::{greatest_freq, push_sizes};
use crate::frame::MOST_TERMS;
use crate::packed_checking::FIRST_LIST_BIT;
use crate::packed_frame::{PACKED_END, PACKED_MAGIC, PackedFrame, count_of};
use bit_words::BitWriter;
use directory_places::Places;
use no_memory::NoMemory;
use packed_list::{ListParts, lists_are_short, write_list};
use part_codec::{part_takes_its_payload, write_part};
use part_cost::Format;
use postings::sequences_of_a_list_rise;
use std::alloc::Global;
use std::marker::Model;

// The most bits of lists: behind them the places of the most lists lie in a part's widest universe.
const MOST_STATED_BITS: u64 = (1 << 48) - MOST_TERMS - 1;

// The bits of a packed file, list by list, and the places where the lists begin.
#[derive(Drop)]
pub(crate) struct PackedBuilder {
    alloc: Global,
    documents: u32,
    bits: BitWriter,
    starts: Places,
}

impl Model for PackedBuilder {
    ghost use Rattle.index_file.specs.Builder.{Built, IsPackedKept, packed_built};

    ghost Value = { Built };

    ghost view = { λ b. packed_built b.documents b.bits b.starts };

    ghost invariant = { λ b. IsPackedKept b.documents b.bits b.starts };
}

impl PackedBuilder {
    // The builder of a packed file of so many documents, with no list.
    pub(crate) fn new(alloc: Global, documents: u32) -> Result<PackedBuilder, NoMemory>
        ensures format { IfOk result (λ b. b.format ≡ Format.Three) }
        ensures documents { IfOk result (λ b. b.documents ≡ documents) }
        ensures no_list { IfOk result (λ b. StandsFor b []) }
    {
        let mut bits = BitWriter::new(alloc)?;
        bits.put(PACKED_MAGIC, 64)?;
        bits.put(Format::Three.version(), 64)?;
        let starts = Places::new(alloc)?;
        Ok(PackedBuilder {
            alloc,
            documents,
            bits,
            starts,
        })
    }

    // Appends a list whose sequences are these, in parts with these ends. A refusal leaves the
    // lists as they were.
    pub(crate) fn append(
        &mut self,
        docs: &[u64],
        sums: &[u64],
        freqs: &[u32],
        doc_ends: &[u64],
        sum_ends: &[u64],
    ) -> Result<(), NoMemory>
        requires same_length { length docs.now ≡ length freqs.now }
        requires list { IsPostingList format_three self.old.documents
            (postings_of docs.now freqs.now) }
        requires sums { sums.now ≡ freq_sequence (postings_of docs.now freqs.now) }
        requires room { length self.old.directory ≤ most_terms }
        requires near { IsNearCut format_three
            (cut_list docs.now freqs.now doc_ends.now sum_ends.now) }
        ensures ok { OnOk result (self.new ≡ with_list self.old
            (cut_list docs.now freqs.now doc_ends.now sum_ends.now)) }
        ensures err { OnErr result (self.new ≡ self.old) }
    {
        lists_are_short();
        sequences_of_a_list_rise();
        let first = self.bits.len();
        let list = ListParts {
            docs,
            doc_ends,
            sums,
            sum_ends,
            greatest: greatest_freq(freqs),
        };
        write_list(self.alloc, &list, self.documents, &mut self.bits)?;
        let end = self.bits.len() - FIRST_LIST_BIT;
        if push_end(&mut self.starts, end).is_err() {
            self.bits.truncate(first);
            return Err(NoMemory);
        }
        Ok(())
    }

    // Appends so many lists without postings, of which each takes a bit. A refusal leaves the lists
    // as they were.
    pub(crate) fn append_empty(&mut self, count: u64) -> Result<(), NoMemory>
        requires room { length self.old.directory + count ≤ most_terms + 1 }
        ensures ok { OnOk result (self.new ≡ with_empty_lists self.old count) }
        ensures err { OnErr result (self.new ≡ self.old) }
    {
        self.starts.push_run(count)
    }

    // How many words the file has with so many lists without postings more, and so many sizes.
    pub(crate) fn count_words(&self, tail: u64, sizes: u64) -> u64
        requires few { sizes < 2 ^ 32 }
        requires room { length self.now.directory + tail ≤ most_terms + 1 }
        ensures { (cs : List CutList) (of : List ℕ) → StandsFor (with_empty_lists self.now tail) cs
            → length of ≡ sizes → result ≡ length (packed_words self.now.documents cs of) }
    {
        part_takes_its_payload();
        count_of(PackedFrame {
            documents: sizes,
            terms: self.starts.len() - 1 + tail,
            bits: self.bits.len() - FIRST_LIST_BIT,
        })
    }

    // Whether no list has a posting.
    pub(crate) fn has_no_bits(&self) -> bool
        ensures { IsTrue result ↔ (self.now.words ≡ []) }
    {
        self.bits.len() == FIRST_LIST_BIT
    }

    // The words of the file of the lists and of so many more, none of which has a posting, with
    // these sizes.
    pub(crate) fn into_empty_words(self, tail: u64, sizes: &[u32]) -> Result<Vec<u64>, NoMemory>
        requires empty { self.words ≡ [] }
        requires room { length self.directory + tail ≤ most_terms + 1 }
        ensures { (cs : List CutList) → StandsFor (with_empty_lists self tail) cs
            → IfOk result (λ words. words.items ≡ packed_words self.documents cs sizes.now) }
    {
        part_takes_its_payload();
        let lists = self.starts.len() - 1 + tail;
        let mut words = self.bits.into_words();
        push_sizes(&mut words, sizes)?;
        words.extend_from_slice(&[self.documents as u64, lists, 0, PACKED_END])?;
        Ok(words)
    }

    // The words of the file of the lists, with these sizes.
    pub(crate) fn into_words(self, sizes: &[u32]) -> Result<Vec<u64>, NoMemory>
        ensures { (cs : List CutList) → StandsFor self cs
            → IfOk result (λ words. words.items ≡ packed_words self.documents cs sizes.now) }
    {
        part_takes_its_payload();
        let PackedBuilder {
            alloc,
            documents,
            bits,
            starts,
        } = self;
        let lists = starts.len() - 1;
        let list_bits = bits.len() - FIRST_LIST_BIT;
        let mut words = bits.into_words();
        push_sizes(&mut words, sizes)?;
        let places = starts.into_all();
        let mut directory = BitWriter::new(alloc)?;
        write_part(places.source(), list_bits + lists + 1, &mut directory)?;
        words.extend_from_slice(&directory.into_words())?;
        words.extend_from_slice(&[documents as u64, lists, list_bits, PACKED_END])?;
        Ok(words)
    }
}

// Appends the place behind a list with this end. A refusal leaves the places as they were.
fn push_end(starts: &mut Places, end: u64) -> Result<(), NoMemory>
    requires room { length starts.old ≤ most_terms }
    ensures ok { OnOk result (starts.new ≡ starts.old ++ (end + length starts.old) ∷ []) }
    ensures stated { OnOk result (end + most_terms + 1 ≤ 2 ^ widest_low) }
    ensures err { OnErr result (starts.new ≡ starts.old) }
{
    if end > MOST_STATED_BITS {
        return Err(NoMemory);
    }
    starts.push(end)
}
