ghost use Rattle.std.specs.Prelude.{◌≡◌, ◌⊎◌, ◌+◌, ◌≤◌, ◌<◌, ◌^◌, length, IfNone, IfSome, Some, None};
ghost use Rattle.std.specs.List.{All};
ghost use Rattle.index_file.specs.FileWords.{IsIndex};
ghost use Rattle.segments.specs.Segments.{rule_broken, with_segment};
ghost use Rattle.pefidx_c.specs.Asked.{collection_in};
ghost use Rattle.pefidx_c.specs.Segments.{segments_refusal, AreSegments, IsNoIndex, IsUnjoined};
ghost use Rattle.pefidx_c.specs.SegmentChecks.{IsUnfit, IsUnfitBehind};
ghost use Rattle.pefidx_c.specs.StatusNumber.{number_of};
ghost use Rattle.pefidx_c.specs.declared.status.Status.{Status as EndOf};

use crate::checking::TOO_MANY_WORDS;
use crate::segment::{Segment, SegmentFault, no_index_at, places_refusal, unjoined_at, words_of};
use crate::status::Status;
use index_file::Index;
use segments::{Joining, Segments};

// How a segment does not fit behind others: it is no index, or breaks a rule.
#[derive(Clone, Copy, Drop)]
pub(crate) enum Unfit {
    NoIndex(SegmentFault),
    NoJoin(SegmentFault),
}

/// Checks segments among words in turn, whether each is an index, of any format, and can be joined
/// to those before it. The first that is none or cannot is told. It takes no memory.
#[unsafe(no_mangle)]
pub extern "C" fn pefidx_check_segments(
    words: &[u64],
    segments: &[Segment],
    fault: &mut SegmentFault,
) -> u32
    ensures refused { (status : EndOf)
        → segments_refusal (length words.now) segments.now ≡ Some status
        → (result ≡ number_of status) × (fault.new ≡ fault.old) }
    ensures one_of { segments_refusal (length words.now) segments.now ≡ None
        → (result ≡ number_of Status.Done) ⊎ (result ≡ number_of Status.NoIndex)
        ⊎ (result ≡ number_of Status.NoJoin) }
    ensures done { result ≡ number_of Status.Done
        → AreSegments words.now segments.now × (fault.new ≡ fault.old) }
    ensures no_index { result ≡ number_of Status.NoIndex
        → IsNoIndex words.now segments.now fault.new }
    ensures no_join { result ≡ number_of Status.NoJoin
        → IsUnjoined words.now segments.now fault.new }
{
    if let Some(refused) = segments_refusal(words.len(), segments) {
        return refused.number();
    }
    match first_unfit(words, segments) {
        None => Status::Done.number(),
        Some(Unfit::NoIndex(found)) => {
            *fault = found;
            Status::NoIndex.number()
        }
        Some(Unfit::NoJoin(found)) => {
            *fault = found;
            Status::NoJoin.number()
        }
    }
}

// How segments among so many words are refused before a word is looked at.
fn segments_refusal(count: usize, segments: &[Segment]) -> Option<Status>
    ensures { result ≡ segments_refusal count segments.now }
{
    if count >= TOO_MANY_WORDS {
        return Some(Status::TooLarge);
    }
    places_refusal(count, segments)
}

// The first segment that does not fit behind those before it.
fn first_unfit(words: &[u64], segments: &[Segment]) -> Option<Unfit>
    requires few { length words.now < 2 ^ 57 }
    requires count { length segments.now ≤ 64 }
    requires within { All (λ s. s.first + s.count ≤ length words.now) segments.now }
    ensures none { IfNone result (AreSegments words.now segments.now) }
    ensures unfit { IfSome result (IsUnfit words.now segments.now) }
{
    let mut joined = Segments::new(Joining::Alike);
    for s in 0..segments.len() {
        let unfit = unfit_behind(words_of(words, segments[s]), s as u32, &mut joined);
        if unfit.is_some() {
            return unfit;
        }
    }
    None
}

// How the words of segment s do not fit behind what is joined.
fn unfit_behind(words: &[u64], s: u32, joined: &mut Segments) -> Option<Unfit>
    requires { length words.now < 2 ^ 57 }
    ensures index { IfNone result (IsIndex words.now) }
    ensures rule { let c = collection_in words.now in
        IfNone result (rule_broken joined.old c.documents (length c.lists) ≡ None) }
    ensures joined { let c = collection_in words.now in
        IfNone result (joined.new ≡ with_segment joined.old c.documents (length c.lists)) }
    ensures unfit { IfSome result (IsUnfitBehind joined.old words.now s) }
{
    match Index::view(words) {
        Ok(index) => match joined.push(index.documents(), index.terms()) {
            Ok(_first) => None,
            Err(rule) => Some(Unfit::NoJoin(unjoined_at(s, rule))),
        },
        Err(broken) => Some(Unfit::NoIndex(no_index_at(s, broken))),
    }
}
