// The indexes that segments are, as one.
ghost use Rattle.std.specs.Prelude.{◌≡◌, ◌≤◌, IfOk};
ghost use Rattle.segments.specs.Joined.{documents_in, most_joined};
ghost use Rattle.index_reading.specs.JoinedSegments as read;
ghost use Rattle.pefidx_c.specs.Segments.{AreIndexes, AreKeptOfEach, AreSegments, collections_in, joined_in};

use crate::kept::{first_kept, index_of};
use crate::segment::{Segment, words_of};
use index_reading::{JoinedIndexes, ListSource};
use no_memory::NoMemory;
use segments::joined_lists_follow;
use std::alloc::Global;

// The indexes that segments are, joined in turn, with what is kept of each.
pub(crate) fn joined_of<'a>(
    alloc: Global,
    words: &'a [u64],
    segments: &[Segment],
    kept: &'a [u64],
) -> Result<JoinedIndexes<'a>, NoMemory>
    requires indexes { AreIndexes words.now segments.now }
    requires kept { AreKeptOfEach words.now segments.now kept.now }
    requires few { documents_in (collections_in words.now segments.now) ≤ most_joined }
    ensures { IfOk result (λ joined. read.collections_in joined.segments.items
        ≡ collections_in words.entry.now segments.now) }
{
    let mut joined = JoinedIndexes::with_capacity(alloc, segments.len())?;
    let mut rest = kept;
    for s in 0..segments.len() {
        let own = words_of(words, segments[s]);
        let (starts, others) = first_kept(rest);
        rest = others;
        joined = joined.with(index_of(own, starts))?;
    }
    Ok(joined)
}

// The same where each has as many terms as the first.
pub(crate) fn joined_alike<'a>(
    alloc: Global,
    words: &'a [u64],
    segments: &[Segment],
    kept: &'a [u64],
) -> Result<JoinedIndexes<'a>, NoMemory>
    requires segments { AreSegments words.now segments.now }
    requires kept { AreKeptOfEach words.now segments.now kept.now }
    ensures { IfOk result (λ joined. ⟦<JoinedIndexes<'a> as ListSource>⟧.collection joined
        ≡ joined_in words.entry.now segments.now) }
{
    joined_lists_follow();
    joined_of(alloc, words, segments, kept)
}
