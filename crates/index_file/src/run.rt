// So many numbers are read at once.
pub(crate) const BLOCK: usize = 16;

// The number of those that were read at once that is looked at: it stands at this place among them,
// and they begin at another among all. Marks tell which of the places from the last of those on are
// numbers, as far as the highest mark.
#[derive(Clone, Copy)]
pub(crate) struct Run {
    pub(crate) first: u32,
    pub(crate) at: usize,
    pub(crate) count: usize,
    pub(crate) marks: u64,
}
