// What is kept of the heads of the lists of a packed file.
ghost use Rattle.std.specs.Prelude.{◌≡◌, ℕ, ◌+◌, ◌*◌, ◌<◌, ◌≤◌, ◌^◌, length, slice_index, option_map, IfOk};
ghost use Rattle.bit_words.specs.Bits.{bits_of};
ghost use Rattle.collection_model.specs.Collection.{first_at_least};
ghost use Rattle.packed_list.specs.Gamma.{zeros_at, gamma_at, behind_gamma};
ghost use Rattle.packed_list.specs.ListStated.{list_at};
ghost use Rattle.index_file.specs.PackedWords.{first_list_bit};
ghost use Rattle.index_file.specs.PackedView.{packed_postings};
ghost use Rattle.pefidx_c.specs.Heads.{IsListRange, sums_place, head_stated, head_between, heads_of};

use bit_words::Bits;
use index_file::FIRST_LIST_BIT;
use no_memory::NoMemory;
use packed_list::{gamma_before, lists_state_back};
use packed_sequence::{
    known_sequence, known_sequence_with_end, last_doc, last_sum, sequences_state_back,
};
use postings::{sequences_give_their_list, sequences_of_a_list_rise};
use std::alloc::Global;

// A gamma code of a list begins with fewer zeros.
const MOST_ZEROS: u64 = 32;

// The head of the list whose bits stand between two places, as it is kept: how many zeros each of
// its two gamma codes begins with, and where its sums stand. It is 0 where there are fewer than two
// postings.
fn head_between(words: &[u64], documents: u32, from: u64, to: u64) -> u64
    requires words { length words.now < 2 ^ 57 }
    requires list { IsListRange documents words.now from to }
    ensures { result ≡ head_between documents words.now from to }
{
    sequences_of_a_list_rise();
    sequences_give_their_list();
    sequences_state_back();
    if from == to {
        return 0;
    }
    let bits = Bits { words };
    let Some(count) = gamma_before(bits, from, to) else {
        unreachable!()
    };
    if count.number == 1 {
        return 0;
    }
    let Some(greatest) = gamma_before(bits, count.behind, to) else {
        unreachable!()
    };
    let docs = known_sequence_with_end(words, greatest.behind, count.number, last_doc(documents));
    let sums = docs.behind.of(count.number);
    let zeros = (count.behind - from) / 2;
    let others = (greatest.behind - count.behind) / 2;
    zeros + MOST_ZEROS * (others + MOST_ZEROS * sums)
}

// The heads of all lists over so many documents, by where they begin.
pub(crate) fn list_heads(
    alloc: Global,
    words: &[u64],
    documents: u32,
    starts: &[u64],
) -> Result<Vec<u64>, NoMemory>
    requires words { length words.now < 2 ^ 57 }
    requires lists { (t : ℕ) → t + 1 < length starts.now
        → IsListRange documents words.now (first_list_bit + slice_index starts.now t)
        (first_list_bit + slice_index starts.now (t + 1)) }
    ensures { IfOk result (λ heads. heads.items ≡ heads_of documents words.now starts.now) }
{
    let lists = starts.len().saturating_sub(1);
    let mut heads = Vec::with_capacity(alloc, lists)?;
    for t in 0..lists {
        let from = FIRST_LIST_BIT + starts[t];
        let to = FIRST_LIST_BIT + starts[t + 1];
        let head = head_between(words, documents, from, to);
        heads.push(head)?;
    }
    Ok(heads)
}

// The number whose gamma code stands at a place, by the zeros with which it begins.
#[inline(always)]
fn gamma_behind(bits: Bits<'_>, at: u64, zeros: u64) -> u32
    requires zeros { zeros ≡ zeros_at (bits_of bits.words.now) at }
    requires few { zeros < 32 }
    requires range { at + 2 * zeros + 1 ≤ 64 * length bits.words.now }
    requires small { length bits.words.now < 2 ^ 57 }
    ensures { result ≡ gamma_at (bits_of bits.entry.words.now) at }
{
    let number = (1 << zeros) + bits.get(at + zeros + 1, zeros as u32);
    number as u32
}

// What the head of a list of two postings and more says: how many postings it has, its greatest
// frequency, and where its two sequences stand.
#[derive(Clone, Copy)]
struct ListPlaces {
    count: u32,
    greatest: u32,
    docs: u64,
    sums: u64,
}

// What is said of the list over so many documents whose bits begin at a place, by its head.
#[inline(always)]
fn places_by_head(words: &[u64], documents: u32, from: u64, head: u64) -> ListPlaces
    requires words { length words.now < 2 ^ 57 }
    requires list { (to : ℕ) × (from < to) × IsListRange documents words.now from to }
    requires head { head ≡ head_stated documents words.now from }
    ensures count { result.count ≡ gamma_at (bits_of words.now) from }
    ensures greatest { let bits = bits_of words.now in
        result.greatest ≡ gamma_at bits (behind_gamma bits from) }
    ensures docs { let bits = bits_of words.now in
        result.docs ≡ behind_gamma bits (behind_gamma bits from) }
    ensures sums { result.sums ≡ sums_place documents words.now from }
{
    let bits = Bits { words };
    let zeros = head % MOST_ZEROS;
    let others = head / MOST_ZEROS % MOST_ZEROS;
    let sums = head / MOST_ZEROS / MOST_ZEROS;
    let behind = from + 2 * zeros + 1;
    let docs = behind + 2 * others + 1;
    let count = gamma_behind(bits, from, zeros);
    let greatest = gamma_behind(bits, behind, others);
    ListPlaces {
        count,
        greatest,
        docs,
        sums,
    }
}

/// The first posting, whose document is at least d, of the list over so many documents whose bits
/// begin at a place, by its head.
#[inline(never)]
pub(crate) fn posting_by_head(
    words: &[u64],
    documents: u32,
    from: u64,
    head: u64,
    d: u32,
) -> Option<(u32, u32)>
    requires words { length words.now < 2 ^ 57 }
    requires list { (to : ℕ) × (from < to) × IsListRange documents words.now from to }
    requires many { 2 ≤ gamma_at (bits_of words.now) from }
    requires head { head ≡ head_stated documents words.now from }
    ensures { result ≡ option_map (λ p. (p.doc, p.freq))
        (first_at_least (packed_postings (list_at documents words.now from)) d) }
{
    sequences_of_a_list_rise();
    sequences_give_their_list();
    sequences_state_back();
    lists_state_back();
    let places = places_by_head(words, documents, from, head);
    let docs = known_sequence(words, places.docs, places.count, last_doc(documents));
    let cursor = docs.cursor_from(u64::from(d));
    match cursor.current() {
        Some(doc) => {
            let last = last_sum(places.count, places.greatest);
            let sums = known_sequence(words, places.sums, places.count, last);
            Some((doc as u32, sums.step(cursor.place()) as u32))
        }
        None => None,
    }
}
