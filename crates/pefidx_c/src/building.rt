ghost use Rattle.std.specs.Prelude.{◌≡◌, ◌≢◌, ℕ, ◌≤◌, ◌<◌, ◌^◌, List, [], length, sum, Some, None, IfOk};
ghost use Rattle.std.specs.List.{All};
ghost use Rattle.collection_model.specs.Collection.{IsPostingList};
ghost use Rattle.part_cost.specs.Formats.{numbers_of};
ghost use Rattle.index_file.specs.Builder.{StandsFor};
ghost use Rattle.pefidx_c.specs.BuiltWords.{AreWordsOf, WouldBeTooMany};
ghost use Rattle.pefidx_c.specs.GivenLists.{format_of, lists_given, collection_given, build_refusal, IsFirstBad};
ghost use Rattle.pefidx_c.specs.Rooms.{put_in, given_in};
ghost use Rattle.pefidx_c.specs.StatusNumber.{number_of};
ghost use Rattle.pefidx_c.specs.declared.status.Status.{Status as EndOf};

use crate::given_lists::{BadPosting, GivenLists, build_refusal, first_bad, format_of, part};
use crate::room::give;
use crate::status::Status;
use index_file::{Builder, FinishError, files_spell_collections, lists_are_counted};
use part_cost::{Format, formats_have_room};
use std::alloc::Global;
use std::marker::Brand;
use std::sync::ledger::{Blank, Ledger};
use step_count::Steps;

/// The words of the index file, in the format of a number from 1 to 3, of the lists of these
/// lengths, whose documents and frequencies stand one after the other, with a document for each
/// size; in the third format they are those of a packed file. The first are given, as many as there
/// is room for, and how many there are. Where a list is no posting list, its first posting that
/// cannot stand there is told.
#[unsafe(no_mangle)]
pub extern "C" fn pefidx_build(
    alloc: Global,
    format: u32,
    lengths: &[u32],
    docs: &[u32],
    freqs: &[u32],
    sizes: &[u32],
    words: &mut [u64],
    count: &mut usize,
    bad: &mut BadPosting,
) -> u32
    ensures refused { (status : EndOf) → build_refusal format lengths.now docs.now freqs.now
        sizes.now ≡ Some status
        → (result ≡ number_of status) × (words.new ≡ words.old) × (count.new ≡ count.old)
        × (bad.new ≡ bad.old) }
    ensures bad_posting { result ≡ number_of Status.BadPosting
        → IsFirstBad (numbers_of (format_of format)) (length sizes.now)
        (lists_given lengths.now docs.now freqs.now) bad.new.term bad.new.place
        × (words.new ≡ words.old) × (count.new ≡ count.old) }
    ensures bad_is_told { build_refusal format lengths.now docs.now freqs.now sizes.now ≡ None
        → result ≢ number_of Status.BadPosting
        → All (IsPostingList (numbers_of (format_of format)) (length sizes.now))
        (lists_given lengths.now docs.now freqs.now) }
    ensures no_memory { result ≡ number_of Status.NoMemory
        → (words.new ≡ words.old) × (count.new ≡ count.old) × (bad.new ≡ bad.old) }
    ensures too_large { result ≡ number_of Status.TooLarge
        → WouldBeTooMany (numbers_of (format_of format))
        (collection_given lengths.now docs.now freqs.now sizes.now) count.new
        × (words.new ≡ words.old) × (bad.new ≡ bad.old) }
    ensures given { build_refusal format lengths.now docs.now freqs.now sizes.now ≡ None
        → result ≢ number_of Status.BadPosting → result ≢ number_of Status.NoMemory
        → result ≢ number_of Status.TooLarge
        → (made : List ℕ) × AreWordsOf (numbers_of (format_of format))
        (collection_given lengths.now docs.now freqs.now sizes.now) made
        × (result ≡ number_of (given_in (length words.old) (length made)))
        × (words.new ≡ put_in words.old made) × (count.new ≡ length made)
        × (bad.new ≡ bad.old) }
{
    let given = GivenLists {
        lengths,
        docs,
        freqs,
        sizes,
    };
    if let Some(refused) = build_refusal(format, given) {
        return refused.number();
    }
    let format = format_of(format);
    if let Some(found) = first_bad(format, given) {
        *bad = found;
        return Status::BadPosting.number();
    }
    match built(alloc, format, given) {
        Ok(made) => give(made.as_slice(), words, count),
        Err(FinishError::TooLarge(would_be)) => {
            *count = would_be as usize;
            Status::TooLarge.number()
        }
        Err(FinishError::NoMemory) => Status::NoMemory.number(),
    }
}

// The words, of which the part costs are counted for nobody.
fn built(alloc: Global, format: Format, given: GivenLists<'_>) -> Result<Vec<u64>, FinishError>
    requires few { length given.lengths.now < 2 ^ 32 }
    requires documents { length given.sizes.now ≤ (numbers_of format).most_documents }
    requires whole { sum given.lengths.now ≡ length given.docs.now }
    requires same_length { length given.docs.now ≡ length given.freqs.now }
    requires lists { All (IsPostingList (numbers_of format) (length given.sizes.now))
        (lists_given given.lengths.now given.docs.now given.freqs.now) }
    ensures words { IfOk result (λ words. AreWordsOf (numbers_of format)
        (collection_given given.entry.lengths.now given.entry.docs.now given.entry.freqs.now
        given.entry.sizes.now) words.items) }
    ensures too_large { (n : ℕ) → result ≡ Err (FinishError.TooLarge n)
        → WouldBeTooMany (numbers_of format)
        (collection_given given.entry.lengths.now given.entry.docs.now given.entry.freqs.now
        given.entry.sizes.now) n }
{
    built_counted::<Brand>(alloc, format, given, Blank::new(1))
}

// The words, with a counter of their own.
fn built_counted<L: Ledger>(
    alloc: Global,
    format: Format,
    given: GivenLists<'_>,
    blank: Blank,
) -> Result<Vec<u64>, FinishError>
    requires name { blank.name ≡ L.name }
    requires parts { blank.parts ≡ L.parts }
    requires some { 0 < L.parts }
    requires few { length given.lengths.now < 2 ^ 32 }
    requires documents { length given.sizes.now ≤ (numbers_of format).most_documents }
    requires whole { sum given.lengths.now ≡ length given.docs.now }
    requires same_length { length given.docs.now ≡ length given.freqs.now }
    requires lists { All (IsPostingList (numbers_of format) (length given.sizes.now))
        (lists_given given.lengths.now given.docs.now given.freqs.now) }
    ensures words { IfOk result (λ words. AreWordsOf (numbers_of format)
        (collection_given given.entry.lengths.now given.entry.docs.now given.entry.freqs.now
        given.entry.sizes.now) words.items) }
    ensures too_large { (n : ℕ) → result ≡ Err (FinishError.TooLarge n)
        → WouldBeTooMany (numbers_of format)
        (collection_given given.entry.lengths.now given.entry.docs.now given.entry.freqs.now
        given.entry.sizes.now) n }
{
    formats_have_room();
    let mut steps = Steps::<L>::new(blank);
    match Builder::new(alloc, given.sizes.len() as u32, format) {
        Ok(builder) => words_of(builder, given, &mut steps),
        Err(_) => Err(FinishError::NoMemory),
    }
}

// The words, of a builder that has no list yet.
fn words_of<L: Ledger>(
    mut builder: Builder,
    given: GivenLists<'_>,
    steps: &mut Steps<L>,
) -> Result<Vec<u64>, FinishError>
    requires documents { builder.documents ≡ length given.sizes.now }
    requires sizes { length given.sizes.now ≤ (numbers_of builder.format).most_documents }
    requires no_list { StandsFor builder [] }
    requires few { length given.lengths.now < 2 ^ 32 }
    requires whole { sum given.lengths.now ≡ length given.docs.now }
    requires same_length { length given.docs.now ≡ length given.freqs.now }
    requires lists { All (IsPostingList (numbers_of builder.format) (length given.sizes.now))
        (lists_given given.lengths.now given.docs.now given.freqs.now) }
    ensures words { IfOk result (λ words. AreWordsOf (numbers_of builder.format)
        (collection_given given.entry.lengths.now given.entry.docs.now given.entry.freqs.now
        given.entry.sizes.now) words.items) }
    ensures too_large { (n : ℕ) → result ≡ Err (FinishError.TooLarge n)
        → WouldBeTooMany (numbers_of builder.format)
        (collection_given given.entry.lengths.now given.entry.docs.now given.entry.freqs.now
        given.entry.sizes.now) n }
{
    files_spell_collections();
    lists_are_counted();
    sizes_fit(given.sizes);
    let mut from = 0;
    for term in 0..given.lengths.len() {
        let length = given.lengths[term] as usize;
        let list = part(given.docs, from, length);
        let counts = part(given.freqs, from, length);
        match builder.add_list(list, counts, steps) {
            Ok(()) => from += length,
            Err(_) => return Err(FinishError::NoMemory),
        }
    }
    builder.finish(given.sizes)
}

// Sizes are numbers of 32 bits.
fn sizes_fit(sizes: &[u32])
    ensures { All (λ s. s < 2 ^ 32) sizes.now }
{}
