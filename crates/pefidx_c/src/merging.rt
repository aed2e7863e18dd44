ghost use Rattle.std.specs.Prelude.{◌≡◌, ◌≢◌, ℕ, ◌+◌, ◌≤◌, ◌<◌, ◌^◌, List, length, Some, None, IfErr, IfNone, IfOk, IfSome};
ghost use Rattle.std.specs.List.{All};
ghost use Rattle.collection_model.specs.Collection.{WellFormed};
ghost use Rattle.collection_model.specs.FormatNumbers.{format_three};
ghost use Rattle.index_file.specs.FileWords.{IsIndex};
ghost use Rattle.index_reading.specs.JoinedSegments as read;
ghost use Rattle.segments.specs.Joined.{documents_in, joined_wide, most_joined};
ghost use Rattle.segments.specs.Laws.{IsWellFormed};
ghost use Rattle.pefidx_c.specs.BuiltWords.{AreWordsOf, WouldBeTooMany};
ghost use Rattle.pefidx_c.specs.Merging.{EndsUnmerged};
ghost use Rattle.pefidx_c.specs.Rooms.{put_in, given_in};
ghost use Rattle.pefidx_c.specs.Segments.{AreIndexes, CanMerge, HasTooMany, IsUnmerged, collections_in, places_refusal, words_in};
ghost use Rattle.pefidx_c.specs.StatusNumber.{number_of};
ghost use Rattle.pefidx_c.specs.declared.status.Status.{Status as EndOf};

use crate::joined_indexes::joined_of;
use crate::room::give;
use crate::segment::{Segment, SegmentFault, places_refusal, unjoined_at, words_of};
use crate::status::Status;
use index_building::collected_words;
use index_file::{FinishError, Index};
use index_reading::{JoinedIndexes, ListSource};
use part_cost::Format;
use segments::{SegRule, joined_is_well_formed};
use std::alloc::Global;
use std::marker::Brand;
use std::sync::ledger::{Blank, Ledger};
use step_count::Steps;

// The most documents of segments together.
const MOST_DOCUMENTS: u64 = 4_294_967_295;

// Why segments are not merged.
#[derive(Drop)]
pub(crate) enum Unmerged {
    NoJoin(SegmentFault),
    TooLarge(u64),
    NoMemory,
}

/// The words of the packed file of the collection that segments are joined to, with as many terms
/// as the most of them have. The first are given, as many as there is room for, and how many there
/// are. A segment with which there are too many documents, or with which a joined list is too
/// frequent, is told.
#[unsafe(no_mangle)]
pub extern "C" fn pefidx_merge(
    alloc: Global,
    words: &[u64],
    segments: &[Segment],
    merged: &mut [u64],
    count: &mut usize,
    fault: &mut SegmentFault,
) -> u32
    requires few { length words.now < 2 ^ 57 }
    requires indexes { All (λ s. s.first + s.count ≤ length words.now
        → IsIndex (words_in words.now s)) segments.now }
    ensures refused { (status : EndOf)
        → places_refusal (length words.now) segments.now ≡ Some status
        → (result ≡ number_of status) × (merged.new ≡ merged.old) × (count.new ≡ count.old)
        × (fault.new ≡ fault.old) }
    ensures no_join { result ≡ number_of Status.NoJoin
        → IsUnmerged (collections_in words.now segments.now) fault.new
        × (merged.new ≡ merged.old) × (count.new ≡ count.old) }
    ensures no_memory { result ≡ number_of Status.NoMemory
        → (merged.new ≡ merged.old) × (count.new ≡ count.old) × (fault.new ≡ fault.old) }
    ensures too_large { let cs = collections_in words.now segments.now in
        result ≡ number_of Status.TooLarge
        → CanMerge cs × WouldBeTooMany format_three (joined_wide cs) count.new
        × (merged.new ≡ merged.old) × (fault.new ≡ fault.old) }
    ensures given { places_refusal (length words.now) segments.now ≡ None
        → result ≢ number_of Status.NoJoin → result ≢ number_of Status.NoMemory
        → result ≢ number_of Status.TooLarge
        → (made : List ℕ)
        × AreWordsOf format_three (joined_wide (collections_in words.now segments.now)) made
        × (result ≡ number_of (given_in (length merged.old) (length made)))
        × (merged.new ≡ put_in merged.old made) × (count.new ≡ length made)
        × (fault.new ≡ fault.old) }
{
    if let Some(refused) = places_refusal(words.len(), segments) {
        return refused.number();
    }
    match merged_words(alloc, words, segments) {
        Ok(made) => give(made.as_slice(), merged, count),
        Err(Unmerged::NoJoin(found)) => {
            *fault = found;
            Status::NoJoin.number()
        }
        Err(Unmerged::TooLarge(would_be)) => {
            *count = would_be as usize;
            Status::TooLarge.number()
        }
        Err(Unmerged::NoMemory) => Status::NoMemory.number(),
    }
}

// The words of the packed file of what segments are joined to.
fn merged_words(alloc: Global, words: &[u64], segments: &[Segment]) -> Result<Vec<u64>, Unmerged>
    requires indexes { AreIndexes words.now segments.now }
    requires count { length segments.now ≤ 64 }
    ensures words { IfOk result (λ made. AreWordsOf format_three
        (joined_wide (collections_in words.now segments.now)) made.items) }
    ensures unmerged { IfErr result (EndsUnmerged (collections_in words.now segments.now)) }
{
    joined_is_well_formed();
    if let Some(s) = passing_segment(words, segments) {
        return Err(Unmerged::NoJoin(unjoined_at(s, SegRule::G2)));
    }
    let joined = match joined_of(alloc, words, segments, &words[..0]) {
        Ok(joined) => joined,
        Err(_) => return Err(Unmerged::NoMemory),
    };
    if let Some(s) = joined.too_frequent(alloc) {
        return Err(Unmerged::NoJoin(unjoined_at(s as u32, SegRule::G3)));
    }
    match words_of_joined::<Brand>(alloc, &joined, Blank::new(1)) {
        Ok(made) => Ok(made),
        Err(FinishError::TooLarge(would_be)) => Err(Unmerged::TooLarge(would_be)),
        Err(FinishError::NoMemory) => Err(Unmerged::NoMemory),
    }
}

// The first segment with which there are too many documents.
fn passing_segment(words: &[u64], segments: &[Segment]) -> Option<u32>
    requires indexes { AreIndexes words.now segments.now }
    requires count { length segments.now ≤ 64 }
    ensures none { IfNone result (documents_in (collections_in words.now segments.now)
        ≤ most_joined) }
    ensures formed { IfNone result (All IsWellFormed (collections_in words.now segments.now)) }
    ensures some { IfSome result (HasTooMany (collections_in words.now segments.now)) }
{
    let mut total = 0;
    for s in 0..segments.len() {
        let index = Index::known(words_of(words, segments[s]));
        index.stands_for_a_collection();
        total += u64::from(index.documents());
        if total > MOST_DOCUMENTS {
            return Some(s as u32);
        }
    }
    None
}

// The words of the packed file of joined indexes, of which the part costs are counted for nobody.
fn words_of_joined<L: Ledger>(
    alloc: Global,
    joined: &JoinedIndexes<'_>,
    blank: Blank,
) -> Result<Vec<u64>, FinishError>
    requires name { blank.name ≡ L.name }
    requires parts { blank.parts ≡ L.parts }
    requires some { 0 < L.parts }
    requires well { WellFormed format_three
        (joined_wide (read.collections_in joined.now.segments.items)) }
    ensures words { IfOk result (λ made. AreWordsOf format_three
        (joined_wide (read.collections_in joined.now.segments.items)) made.items) }
    ensures too_large { (n : ℕ) → result ≡ Err (FinishError.TooLarge n)
        → WouldBeTooMany format_three
        (joined_wide (read.collections_in joined.now.segments.items)) n }
{
    let mut steps = Steps::<L>::new(blank);
    collected_words(alloc, joined, Format::Three, &mut steps)
}
