ghost use Rattle.std.specs.Prelude.{◌≡◌, ℕ, ◌+◌, ◌-◌, ◌^◌, ◌<◌, ◌≤◌, List, ◌++◌, length, OnOk, OnErr};
ghost use Rattle.std.specs.List.{All};
ghost use Rattle.std.specs.List.Sorted.{IsStrictlyIncreasing};
ghost use Rattle.bit_words.specs.Bits.{bits_of, AppendsBits};
ghost use Rattle.collection_model.specs.Collection.{Posting};
ghost use Rattle.collection_model.specs.FormatNumbers.{format_three};
ghost use Rattle.part_cost.specs.Partition.{IsPartition};
ghost use Rattle.part_cost.specs.Span.{past};
ghost use Rattle.packed_sequence.specs.SequenceBits.{lone_part_bits, parted_bits, sequence_bits, IsStored};
ghost use Rattle.packed_list.specs.ListBits.{list_bits};
ghost use Rattle.packed_list.specs.ListParts.{IsPartsOf};

use crate::gamma::put_gamma;
use bit_words::BitWriter;
use no_memory::NoMemory;
use packed_sequence::{LastField, last_doc, last_sum};
use part_codec::write_part;
use part_cost::{Format, digits};
use postings::sequences_of_a_list_rise;
use std::alloc::Global;
use two_level::write_seq;

/// A list that is to be written: the values of its two sequences, the ends of their parts, and its
/// greatest frequency.
#[derive(Clone, Copy)]
pub struct ListParts<'a> {
    pub docs: &'a [u64],
    pub doc_ends: &'a [u64],
    /// The sums of the frequencies up to and with each, less one.
    pub sums: &'a [u64],
    pub sum_ends: &'a [u64],
    pub greatest: u32,
}

// Appends the bits of words.
fn append_words(words: &[u64], to: &mut BitWriter) -> Result<(), NoMemory>
    requires room { length to.old + length (bits_of words.now) < 2 ^ 63 }
    ensures ok { OnOk result (to.new ≡ to.old ++ bits_of words.now) }
    ensures err { OnErr result (AppendsBits to.old to.new (bits_of words.now)) }
{
    for word in words {
        to.put(*word, 64)?;
    }
    Ok(())
}

// Appends a sequence as one part: a zero, its last value, and the bits of the part.
fn append_lone(values: &[u64], last: LastField, to: &mut BitWriter) -> Result<(), NoMemory>
    requires rising { IsStrictlyIncreasing values.now }
    requires below { All (λ x. x < format_three.most_sum) values.now }
    requires some { 1 ≤ length values.now }
    requires less { last.less ≤ past values.now (length values.now) - 1 }
    requires fits { past values.now (length values.now) - 1 - last.less < 2 ^ last.width }
    requires narrow { last.width ≤ 64 }
    requires room { length to.old + length (lone_part_bits last values.now) < 2 ^ 63 }
    ensures ok { OnOk result (to.new ≡ to.old ++ lone_part_bits last values.now) }
    ensures err { OnErr result (AppendsBits to.old to.new (lone_part_bits last values.now)) }
{
    let end = values[values.len() - 1];
    to.put(0, 1)?;
    to.put(end - last.less, last.width)?;
    write_part(values, end + 1, to)
}

// Appends a sequence in several parts: a one, the number of parts, and from the next word on the
// words of the sequence.
fn append_parted(
    alloc: Global,
    values: &[u64],
    ends: &[u64],
    to: &mut BitWriter,
) -> Result<(), NoMemory>
    requires rising { IsStrictlyIncreasing values.now }
    requires below { All (λ x. x < format_three.most_sum) values.now }
    requires few { length values.now ≤ format_three.most_documents }
    requires partition { IsPartition (length values.now) ends.now }
    requires room { length to.old + length (parted_bits (length to.old) values.now ends.now)
        < 2 ^ 63 }
    ensures ok { OnOk result (to.new ≡ to.old ++ parted_bits (length to.old) values.now ends.now) }
    ensures err { OnErr result (AppendsBits to.old to.new
        (parted_bits (length to.old) values.now ends.now)) }
{
    to.put(1, 1)?;
    to.put(ends.len() as u64, digits(values.len() as u64))?;
    to.pad()?;
    let mut words = Vec::new(alloc);
    write_seq(alloc, values, ends, Format::Three, &mut words)?;
    append_words(&words, to)
}

// Appends a sequence in its parts.
fn append_sequence(
    alloc: Global,
    values: &[u64],
    ends: &[u64],
    last: LastField,
    to: &mut BitWriter,
) -> Result<(), NoMemory>
    requires stored { IsStored last (length values.now) values.now ends.now }
    requires some { 1 ≤ length values.now }
    requires few { length values.now ≤ format_three.most_documents }
    requires narrow { last.width ≤ 64 }
    requires room { length to.old + length (sequence_bits last (length to.old) values.now ends.now)
        < 2 ^ 63 }
    ensures ok { OnOk result (to.new ≡ to.old
        ++ sequence_bits last (length to.old) values.now ends.now) }
    ensures err { OnErr result (AppendsBits to.old to.new
        (sequence_bits last (length to.old) values.now ends.now)) }
{
    if ends.len() == 1 {
        append_lone(values, last, to)
    } else {
        append_parted(alloc, values, ends, to)
    }
}

// Appends the bits of a list. A refusal leaves a prefix of them.
fn append_list(
    alloc: Global,
    list: &ListParts<'_>,
    documents: u32,
    to: &mut BitWriter,
) -> Result<(), NoMemory>
    requires list { (postings : List Posting) × IsPartsOf documents list.now postings }
    requires room { (postings : List Posting) → IsPartsOf documents list.now postings
        → length to.old + length (list_bits documents (length to.old) postings list.now.doc_ends.now
        list.now.sum_ends.now) < 2 ^ 63 }
    ensures ok { (postings : List Posting) → IsPartsOf documents list.now postings
        → OnOk result (to.new ≡ to.old ++ list_bits documents (length to.old) postings
        list.now.doc_ends.now list.now.sum_ends.now) }
    ensures err { (postings : List Posting) → IsPartsOf documents list.now postings
        → OnErr result (AppendsBits to.old to.new
        (list_bits documents (length to.old) postings list.now.doc_ends.now
        list.now.sum_ends.now)) }
{
    sequences_of_a_list_rise();
    let m = list.docs.len() as u64;
    if m == 0 {
        return Ok(());
    }
    put_gamma(m, to)?;
    put_gamma(u64::from(list.greatest), to)?;
    let docs = last_doc(documents);
    if m == 1 {
        return to.put(list.docs[0], docs.width);
    }
    let sums = last_sum(m as u32, list.greatest);
    append_sequence(alloc, list.docs, list.doc_ends, docs, to)?;
    append_sequence(alloc, list.sums, list.sum_ends, sums, to)
}

/// Appends the bits of a list over so many documents, at any place. A refusal leaves the bits as
/// they were.
pub fn write_list(
    alloc: Global,
    list: &ListParts<'_>,
    documents: u32,
    to: &mut BitWriter,
) -> Result<(), NoMemory>
    requires list { (postings : List Posting) × IsPartsOf documents list.now postings }
    requires room { (postings : List Posting) → IsPartsOf documents list.now postings
        → length to.old + length (list_bits documents (length to.old) postings list.now.doc_ends.now
        list.now.sum_ends.now) < 2 ^ 63 }
    ensures ok { (postings : List Posting) → IsPartsOf documents list.now postings
        → OnOk result (to.new ≡ to.old ++ list_bits documents (length to.old) postings
        list.now.doc_ends.now list.now.sum_ends.now) }
    ensures err { OnErr result (to.new ≡ to.old) }
{
    let first = to.len();
    match append_list(alloc, list, documents, to) {
        Ok(()) => Ok(()),
        Err(refused) => {
            to.truncate(first);
            Err(refused)
        }
    }
}
