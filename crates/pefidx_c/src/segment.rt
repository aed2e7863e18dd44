// Where the words of indexes are among others.
ghost use Rattle.std.specs.Prelude.{◌≡◌, ◌+◌, ◌≤◌, ◌<◌, length};
ghost use Rattle.std.specs.List.{list_all};
ghost use Rattle.pefidx_c.specs.Faults.{check_number};
ghost use Rattle.pefidx_c.specs.Segments.{is_within, places_refusal, words_in, no_index_at, unjoined_at, rule_number};

use crate::checking::check_number;
use crate::given_lists::part;
use crate::status::Status;
use index_file::OpenFault;
use segments::SegRule;

// The most segments.
const MOST_SEGMENTS: usize = 64;

/// Where the words of an index are among others: the place of the first, and how many they are.
#[repr(C)]
#[derive(Clone, Copy, Drop)]
pub struct Segment {
    pub first: u64,
    pub count: u64,
}

/// A segment that is no index, by its first check that breaks, or that cannot be joined, by the
/// rule: the other is 0.
#[repr(C)]
#[derive(Clone, Copy, Drop)]
pub struct SegmentFault {
    pub segment: u32,
    pub rule: u32,
    pub check: u32,
    pub term: u32,
    pub part: u64,
}

// How segments among so many words are refused before a word is looked at.
pub(crate) fn places_refusal(count: usize, segments: &[Segment]) -> Option<Status>
    ensures { result ≡ places_refusal count segments.now }
{
    if segments.len() > MOST_SEGMENTS {
        return Some(Status::TooMany);
    }
    if !all_within(segments, count) {
        return Some(Status::NotWhole);
    }
    None
}

// Whether all segments are within so many words.
fn all_within(segments: &[Segment], count: usize) -> bool
    ensures { result ≡ list_all (is_within count) segments.now }
{
    segments.iter().all(|segment| is_within(*segment, count))
}

// Whether a segment is within so many words.
fn is_within(segment: Segment, count: usize) -> bool
    ensures { result ≡ is_within count segment }
{
    let count = count as u64;
    segment.first <= count && segment.count <= count - segment.first
}

// The words of a segment.
pub(crate) fn words_of(words: &[u64], segment: Segment) -> &[u64]
    requires { segment.first + segment.count ≤ length words.now }
    ensures { result.now ≡ words_in words.entry.now segment }
{
    part(words, segment.first as usize, segment.count as usize)
}

// A segment that is no index, as it is told.
pub(crate) fn no_index_at(segment: u32, broken: OpenFault) -> SegmentFault
    ensures { result ≡ no_index_at segment broken }
{
    SegmentFault {
        segment,
        rule: 0,
        check: check_number(broken.check),
        term: broken.term,
        part: broken.part,
    }
}

// One that breaks a rule.
pub(crate) fn unjoined_at(segment: u32, rule: SegRule) -> SegmentFault
    ensures { result ≡ unjoined_at segment rule }
{
    SegmentFault {
        segment,
        rule: rule_number(rule),
        check: 0,
        term: 0,
        part: 0,
    }
}

// The number of a rule.
fn rule_number(rule: SegRule) -> u32
    ensures { result ≡ rule_number rule }
{
    match rule {
        SegRule::G1 => 1,
        SegRule::G2 => 2,
        SegRule::G3 => 3,
    }
}
