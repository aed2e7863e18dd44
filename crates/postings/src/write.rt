ghost use Rattle.std.specs.Prelude.{◌≡◌, ℕ, ◌^◌, ◌<◌, ◌≤◌, List, ◌++◌, sum, length, IfOk, OnOk, OnErr};
ghost use Rattle.std.specs.List.{All};
ghost use Rattle.collection_model.specs.Collection.{Posting, IsPostingList, postings_of};
ghost use Rattle.collection_model.specs.Sequences.{doc_sequence, freq_sequence, lessened, sums_from};
ghost use Rattle.part_cost.specs.Formats.{numbers_of};
ghost use Rattle.part_cost.specs.Partition.{IsPartition};
ghost use Rattle.two_level.specs.SequenceWords.{sequence_words};

use no_memory::NoMemory;
use part_cost::Format;
use std::alloc::Global;
use two_level::write_seq;

/// Appends the words of the two sequences of a list in a format, each in its parts: first of its
/// documents, then of the sums of its frequencies. A refusal leaves the words as they were.
pub fn write_postings(
    alloc: Global,
    docs: &[u32],
    freqs: &[u32],
    doc_ends: &[u64],
    freq_ends: &[u64],
    format: Format,
    to: &mut Vec<u64>,
) -> Result<(), NoMemory>
    requires same_length { length docs.now ≡ length freqs.now }
    requires list { IsPostingList (numbers_of format) (numbers_of format).most_documents
        (postings_of docs.now freqs.now) }
    requires doc_parts { IsPartition (length docs.now) doc_ends.now }
    requires freq_parts { IsPartition (length freqs.now) freq_ends.now }
    ensures ok { OnOk result (to.new.items ≡ to.old.items
        ++ sequence_words (numbers_of format) (doc_sequence (postings_of docs.now freqs.now))
        doc_ends.now
        ++ sequence_words (numbers_of format) (freq_sequence (postings_of docs.now freqs.now))
        freq_ends.now) }
    ensures err { OnErr result (to.new.items ≡ to.old.items) }
{
    let values = doc_values(alloc, docs)?;
    let sums = freq_sums(alloc, freqs)?;
    let docs = CutSequence {
        values: &values,
        ends: doc_ends,
    };
    let sums = CutSequence {
        values: &sums,
        ends: freq_ends,
    };
    write_sequences(alloc, docs, sums, format, to)
}

/// The values of a sequence, and the ends of the parts into which it is cut.
#[derive(Clone, Copy)]
pub struct CutSequence<'a> {
    pub values: &'a [u64],
    pub ends: &'a [u64],
}

/// Appends the same words by the values of the two sequences, as `doc_values` and `freq_sums` give
/// them.
pub fn write_sequences(
    alloc: Global,
    docs: CutSequence<'_>,
    sums: CutSequence<'_>,
    format: Format,
    to: &mut Vec<u64>,
) -> Result<(), NoMemory>
    requires list { (list : List Posting) × IsPostingList (numbers_of format)
        (numbers_of format).most_documents list
        × (docs.values.now ≡ doc_sequence list) × (sums.values.now ≡ freq_sequence list) }
    requires doc_parts { IsPartition (length docs.values.now) docs.ends.now }
    requires freq_parts { IsPartition (length sums.values.now) sums.ends.now }
    ensures ok { OnOk result (to.new.items ≡ to.old.items
        ++ sequence_words (numbers_of format) docs.entry.values.now docs.entry.ends.now
        ++ sequence_words (numbers_of format) sums.entry.values.now sums.entry.ends.now) }
    ensures err { OnErr result (to.new.items ≡ to.old.items) }
{
    let first = to.len();
    write_seq(alloc, docs.values, docs.ends, format, to)?;
    let written = write_seq(alloc, sums.values, sums.ends, format, to);
    if written.is_err() {
        to.truncate(first);
    }
    written
}

/// The documents of a list as the values of their sequence.
pub fn doc_values(alloc: Global, docs: &[u32]) -> Result<Vec<u64>, NoMemory>
    ensures { IfOk result (λ values. values.items ≡ docs.now) }
{
    let mut values = Vec::new(alloc);
    for doc in docs {
        values.push(u64::from(*doc))?;
    }
    Ok(values)
}

/// The sums of the frequencies of a list up to and with each, less one: the values of their
/// sequence.
pub fn freq_sums(alloc: Global, freqs: &[u32]) -> Result<Vec<u64>, NoMemory>
    requires not_zero { All (λ f. 1 ≤ f) freqs.now }
    requires sum_within { sum freqs.now < 2 ^ 64 }
    ensures { IfOk result (λ sums. sums.items ≡ lessened (sums_from 0 freqs.now)) }
{
    let mut sums = Vec::new(alloc);
    let mut sum = 0;
    for freq in freqs {
        sum += u64::from(*freq);
        sums.push(sum - 1)?;
    }
    Ok(sums)
}
