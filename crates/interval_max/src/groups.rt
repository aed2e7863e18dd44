use crate::zeros::zeros;
use no_memory::NoMemory;
use std::alloc::Global;

/// How many neighbouring intervals are a group, of which the greatest bound is looked at.
pub(crate) const GROUP: usize = 16;

// The greatest bound of each group of intervals, and of those behind the last group.
pub(crate) fn greatest_of_groups(alloc: Global, bounds: &[u64]) -> Result<Vec<u64>, NoMemory> {
    let (groups, rest) = bounds.as_chunks::<GROUP>();
    let mut bounds = zeros(alloc, groups.len() + 1)?;
    for g in 0..groups.len() {
        bounds[g] = greatest(&groups[g]);
    }
    bounds[groups.len()] = greatest(rest);
    Ok(bounds)
}

// The greatest of some numbers, 0 where there are none.
pub(crate) fn greatest(numbers: &[u64]) -> u64 {
    let mut most = 0;
    for number in numbers {
        most = most.max(*number);
    }
    most
}

// Whether a group begins at an interval, and its greatest bound was less than `least`.
pub(crate) fn begins_low(groups: &[u64], at: usize, least: u64) -> bool {
    let group = at / GROUP;
    at % GROUP == 0 && group < groups.len() && groups[group] < least
}
