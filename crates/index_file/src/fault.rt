use two_level::Check;

/// The first check of the words of a file that breaks, and where.
#[derive(Clone, Copy, Debug, PartialEq, Eq)]
pub struct OpenFault {
    /// The check.
    pub check: Check,
    /// The list at which it breaks, counted from 0. Behind the last list it is the number of lists,
    /// and where no list is concerned 0.
    pub term: u32,
    /// The part of the list at which it breaks, those of its documents first, and 0 where no part
    /// is concerned.
    pub part: u64,
}
