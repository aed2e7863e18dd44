ghost use Rattle.std.specs.Prelude.{◌≡◌, ℕ, ◌+◌, ◌-◌, ◌*◌, ◌^◌, ◌<◌, ◌≤◌};
ghost use Rattle.std.specs.Prelude.{List, length, slice_index_or, IfOk};
ghost use Rattle.std.specs.List.{All};
ghost use Rattle.std.specs.List.Sorted.{IsStrictlyIncreasing};
ghost use Rattle.part_cost.specs.Partition.{IsPartition, partition_cost};
ghost use Rattle.part_cost.specs.Payload.{digits, widest_low};
ghost use Rattle.part_cost.specs.Span.{cost_of_part};
ghost use Rattle.partition_path.specs.Lines.{AreKnown, AreLonger, IsLonger};
ghost use Rattle.partition_path.specs.Lines.{gap_at, no_open, width_weight};

use no_memory::NoMemory;
use part_cost::{digits, digits_hold};
use std::alloc::Global;

// A partition by its ends, and what each partition costs at least, in bits.
#[derive(Drop)]
pub(crate) struct LineCuts {
    pub(crate) ends: Vec<u64>,
    pub(crate) least: u64,
}

// A partition of a rising list by lines under the costs of its parts, where each part costs the
// charge and its payload. A part costs no less than so much, and so much more for each number and
// its gap: by a line for each low width of Elias-Fano parts, one for bitmaps and one for parts that
// take all places. The cheapest way along these lines is found in one pass, with as many steps for
// each number as the greatest gap has digits. Its parts are those of the partition, and each
// partition costs no less than it. An `Err` comes only where memory is refused.
pub(crate) fn line_cuts(alloc: Global, values: &[u64], charge: u64) -> Result<LineCuts, NoMemory>
    requires rising { IsStrictlyIncreasing values.now }
    requires below { All (λ x. x < 2 ^ widest_low) values.now }
    requires few { length values.now < 2 ^ 32 }
    requires charge { (10 ≤ charge) × (charge < 2 ^ 20) }
    ensures partition { IfOk result (λ cuts. IsPartition (length values.now) cuts.ends.items) }
    ensures least { IfOk result (λ cuts. (others : List ℕ) → IsPartition (length values.now) others
        → cuts.least ≤ partition_cost (cost_of_part charge values.now) others) }
{
    let known = known_routes(alloc, values, charge)?;
    let least = known[values.len()].least / 1024;
    let ends = ends_along(alloc, &known)?;
    Ok(LineCuts { ends, least })
}

// A route to a place whose last part is open: what it costs at least, in 1/1024 of a bit, and where
// that part starts.
#[derive(Clone, Copy)]
struct Open {
    least: u64,
    start: u64,
}

const NO_OPEN: Open = Open {
    least: u64::MAX,
    start: 0,
};

impl Open {
    // The cheaper of this route and one whose last part starts with a number behind a known route,
    // both with the number.
    fn longer(self, number: Number, charge: u64, weight: u64) -> Open
        requires { number.known + charge + weight < 2 ^ 64 }
        ensures { IsLonger number.place number.known charge weight self result }
    {
        let begun = Open {
            least: number.known + charge,
            start: number.place,
        };
        let from = self.or(begun);
        Open {
            least: from.least + weight,
            ..from
        }
    }

    // The cheaper of two routes.
    fn or(self, other: Open) -> Open
        ensures this { result.least ≤ self.least }
        ensures that { result.least ≤ other.least }
        ensures start { (place : ℕ) → self.start ≤ place → other.start ≤ place
            → result.start ≤ place }
    {
        if other.least < self.least {
            other
        } else {
            self
        }
    }
}

// A number behind a gap, and what the known route to its place costs.
#[derive(Clone, Copy)]
struct Number {
    place: u64,
    gap: u64,
    known: u64,
}

// What a number behind a gap takes at least at a low width.
fn weight(width: usize, gap: u64) -> u64
    requires width { width < 64 }
    requires gap { gap ≤ 2 ^ widest_low }
    ensures value { result ≡ width_weight width gap }
    ensures small { result < 2 ^ 60 }
{
    1024 * (width as u64 + 1) + 72 + ((1024 * gap) >> width as u32)
}

// The routes with a last part of each low width, all with a number more, and the cheapest of them.
fn widths_longer(routes: &mut Vec<Open>, number: Number, charge: u64) -> Open
    requires few { length routes.old.items < 64 }
    requires gap { number.gap ≤ 2 ^ widest_low }
    requires known { number.known + charge + 2 ^ 60 ≤ 2 ^ 64 }
    ensures { AreLonger number.place number.known charge number.gap routes.old.items
        routes.new.items result }
{
    let mut best = NO_OPEN;
    for k in 0..routes.len() {
        let longer = routes[k].longer(number, charge, weight(k, number.gap));
        routes[k] = longer;
        best = best.or(longer);
    }
    best
}

// The gap before a value, from one past the value before it.
fn gap(values: &[u64], j: usize) -> u64
    requires within { j < length values.now }
    requires rising { IsStrictlyIncreasing values.now }
    requires below { All (λ x. x < 2 ^ widest_low) values.now }
    ensures value { result ≡ gap_at values.now j }
    ensures within { result ≤ 2 ^ widest_low }
{
    match j.checked_sub(1) {
        Some(before) => values[j] - values[before],
        None => values[j] + 1,
    }
}

// The greatest gap before a value; 0 where there is none.
fn greatest_gap(values: &[u64]) -> u64
    requires rising { IsStrictlyIncreasing values.now }
    requires below { All (λ x. x < 2 ^ widest_low) values.now }
    ensures each { (j : ℕ) → j < length values.now → gap_at values.now j ≤ result }
    ensures within { result ≤ 2 ^ widest_low }
{
    let mut greatest = 0;
    for j in 0..values.len() {
        greatest = greatest.max(gap(values, j));
    }
    greatest
}

// The known routes to all places, each with its last part, along the lines of Elias-Fano parts of
// each low width, of bitmaps and of parts that take all places.
fn known_routes(alloc: Global, values: &[u64], charge: u64) -> Result<Vec<Open>, NoMemory>
    requires rising { IsStrictlyIncreasing values.now }
    requires below { All (λ x. x < 2 ^ widest_low) values.now }
    requires few { length values.now < 2 ^ 32 }
    requires charge { (10 ≤ charge) × (charge < 2 ^ 20) }
    ensures { IfOk result (λ known. AreKnown (cost_of_part charge values.now) (length values.now)
        known.items) }
{
    digits_hold();
    let widths = digits(greatest_gap(values)) as usize;
    let mut routes = vec![in alloc; NO_OPEN; widths]?;
    let mut bitmap = NO_OPEN;
    let mut full = NO_OPEN;
    let mut known = Vec::new(alloc);
    known.push(Open { least: 0, start: 0 })?;
    for j in 0..values.len() {
        let number = Number {
            place: j as u64,
            gap: gap(values, j),
            known: known[j].least,
        };
        bitmap = bitmap.longer(number, 1024 * charge, 1024 * number.gap);
        full = if number.gap == 1 {
            full.longer(number, 1024 * charge, 0)
        } else {
            NO_OPEN
        };
        let best = widths_longer(&mut routes, number, 1024 * (charge - 10));
        known.push(best.or(bitmap).or(full))?;
    }
    Ok(known)
}

// The ends of the parts of the route to the last place.
fn ends_along(alloc: Global, known: &[Open]) -> Result<Vec<u64>, NoMemory>
    requires some { 0 < length known.now }
    requires few { length known.now < 2 ^ 64 }
    requires earlier { (e : ℕ) → 0 < e → e < length known.now
        → (slice_index_or known.now e no_open).start < e }
    ensures { IfOk result (λ ends. IsPartition (length known.now - 1) ends.items) }
{
    let mut ends = Vec::new(alloc);
    let mut end = known.len() as u64 - 1;
    while end > 0 {
        ends.push(end)?;
        end = known[end as usize].start;
    }
    ends.reverse();
    Ok(ends)
}
