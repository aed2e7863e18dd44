ghost use Rattle.std.specs.Prelude.{◌≡◌, ◌≢◌, ℕ, ◌+◌, ◌<◌, ◌≤◌, ◌++◌, List, map, length, sum, Some};
ghost use Rattle.std.specs.Prelude.{None, IfOk, OnOk};
ghost use Rattle.std.specs.List.{All};
ghost use Rattle.scan_plans.specs.Ranking.{IsFirstK};
ghost use Rattle.pefidx_c.specs.JoinedTop.{AreOnce, IsTopOfWhole, join_refusal, joined_pairs};
ghost use Rattle.pefidx_c.specs.Rooms.{pair_of, put_in, given_in};
ghost use Rattle.pefidx_c.specs.StatusNumber.{number_of};
ghost use Rattle.pefidx_c.specs.declared.status.Status.{Status as EndOf};

use crate::given_lists::{MOST_LISTS, part, total};
use crate::ranking::{Scored, give_best};
use crate::status::Status;
use no_memory::NoMemory;
use scan_plans::{TopK, top_list_grows_in_any_order};
use segments::joined_lists_follow;
use std::alloc::Global;

// The most documents of ranges together; none of them has this number.
const MOST_JOINED: u32 = 4_294_967_295;

// How many documents each range has, how many of them each gave, and these with their scores, one
// range after the other.
#[derive(Clone, Copy)]
struct Ranges<'a> {
    documents: &'a [u32],
    counts: &'a [u32],
    given: &'a [Scored],
}

/// The first k of the documents that ranges gave, as the whole gives them: by score falling and
/// then document rising, with the documents of a range counted on from those of the ranges before
/// it. Where each range gave its own first k, they are those of the whole. `documents` is how many
/// documents each range has, `counts` how many each gave, and `given` these, one range after the
/// other. The first are given, as many as there is room for, and how many they are.
#[unsafe(no_mangle)]
pub extern "C" fn pefidx_join_top(
    alloc: Global,
    documents: &[u32],
    counts: &[u32],
    given: &[Scored],
    k: u32,
    best: &mut [Scored],
    count: &mut usize,
) -> u32
    requires { AreOnce 4294967295
        (joined_pairs 0 documents.now counts.now (map pair_of given.now)) }
    ensures refused { (status : EndOf)
        → join_refusal documents.now counts.now (length given.now) ≡ Some status
        → (result ≡ number_of status) × (best.new ≡ best.old) × (count.new ≡ count.old) }
    ensures no_memory { result ≡ number_of Status.NoMemory
        → (best.new ≡ best.old) × (count.new ≡ count.old) }
    ensures given { let all = joined_pairs 0 documents.now counts.now (map pair_of given.now) in
        join_refusal documents.now counts.now (length given.now) ≡ None
        → result ≢ number_of Status.NoMemory
        → (r : List (ℕ × ℕ)) × IsFirstK k all r
        × IsTopOfWhole documents.now counts.now (map pair_of given.now) k r
        × (result ≡ number_of (given_in (length best.old) (length r)))
        × (map pair_of best.new ≡ put_in (map pair_of best.old) r) × (count.new ≡ length r) }
{
    let ranges = Ranges {
        documents,
        counts,
        given,
    };
    if let Some(refused) = join_refusal(ranges) {
        return refused.number();
    }
    joined_lists_follow();
    match best_of(alloc, ranges, k) {
        Ok(found) => give_best(found.as_slice(), best, count),
        Err(_) => Status::NoMemory.number(),
    }
}

// How ranges are refused.
fn join_refusal(ranges: Ranges<'_>) -> Option<Status>
    ensures { result ≡ join_refusal ranges.entry.documents.now ranges.entry.counts.now
        (length ranges.entry.given.now) }
{
    if ranges.documents.len() > MOST_LISTS {
        return Some(Status::TooMany);
    }
    let given = ranges.given.len() as u64;
    if !(ranges.documents.len() == ranges.counts.len() && total(ranges.counts) == given) {
        return Some(Status::NotWhole);
    }
    if total(ranges.documents) > u64::from(MOST_JOINED) {
        return Some(Status::TooMany);
    }
    None
}

// The first k of what the ranges gave.
fn best_of(alloc: Global, ranges: Ranges<'_>, k: u32) -> Result<Vec<(u32, u64)>, NoMemory>
    requires good { join_refusal ranges.documents.now ranges.counts.now (length ranges.given.now)
        ≡ None }
    requires once { AreOnce 4294967295 (joined_pairs 0 ranges.documents.now ranges.counts.now
        (map pair_of ranges.given.now)) }
    ensures { IfOk result (λ r. IsFirstK k (joined_pairs 0 ranges.entry.documents.now
        ranges.entry.counts.now (map pair_of ranges.entry.given.now)) r.items) }
{
    let pairs = counted_on(alloc, ranges)?;
    first_of(alloc, &pairs, k)
}

// What the ranges gave, as the whole gives it.
fn counted_on(alloc: Global, ranges: Ranges<'_>) -> Result<Vec<(u32, u64)>, NoMemory>
    requires each { length ranges.documents.now ≡ length ranges.counts.now }
    requires whole { sum ranges.counts.now ≡ length ranges.given.now }
    requires few { sum ranges.documents.now ≤ 4294967295 }
    requires once { AreOnce 4294967295 (joined_pairs 0 ranges.documents.now ranges.counts.now
        (map pair_of ranges.given.now)) }
    ensures { IfOk result (λ pairs. pairs.items ≡ joined_pairs 0 ranges.entry.documents.now
        ranges.entry.counts.now (map pair_of ranges.entry.given.now)) }
{
    let mut pairs = Vec::with_capacity(alloc, ranges.given.len())?;
    let mut first = 0;
    let mut from = 0;
    for range in 0..ranges.documents.len() {
        let count = ranges.counts[range] as usize;
        add_range(&mut pairs, part(ranges.given, from, count), first)?;
        first += ranges.documents[range];
        from += count;
    }
    Ok(pairs)
}

// Adds what a range gave, its documents counted on from a first one.
fn add_range(pairs: &mut Vec<(u32, u64)>, given: &[Scored], first: u32) -> Result<(), NoMemory>
    requires { All (λ e. first + e.0 < 4294967295) (map pair_of given.now) }
    ensures { OnOk result (pairs.new.items
        ≡ pairs.old.items ++ map (λ e. (first + e.0, e.1)) (map pair_of given.now)) }
{
    for scored in given {
        pairs.push((first + scored.doc, scored.score))?;
    }
    Ok(())
}

// The first k of pairs of different documents.
fn first_of(alloc: Global, pairs: &[(u32, u64)], k: u32) -> Result<Vec<(u32, u64)>, NoMemory>
    requires { AreOnce 4294967295 pairs.now }
    ensures { IfOk result (λ r. IsFirstK k pairs.now r.items) }
{
    top_list_grows_in_any_order();
    let most = (pairs.len() as u64).min(u64::from(k)) as u32;
    if most == 0 {
        return Ok(Vec::new(alloc));
    }
    let mut top = TopK::new(alloc, most, MOST_JOINED)?;
    for pair in pairs {
        top.offer(pair.0, pair.1);
    }
    top.into_list()
}
