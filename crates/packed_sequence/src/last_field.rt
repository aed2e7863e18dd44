ghost use Rattle.std.specs.Prelude.{◌≡◌, ◌≤◌};
ghost use Rattle.packed_sequence.specs.SequenceBits.{last_doc, last_sum};

use part_cost::digits;

/// How the last value of a sequence is written that stands as one part: less so much, in a field of
/// so many bits.
#[derive(Clone, Copy)]
pub struct LastField {
    pub less: u64,
    pub width: u32,
}

/// The last document of a list over so many documents.
pub fn last_doc(documents: u32) -> LastField
    ensures { result ≡ last_doc documents }
{
    LastField {
        less: 0,
        width: digits(u64::from(documents.saturating_sub(1))),
    }
}

/// The last sum of m frequencies, of which the greatest is known.
pub fn last_sum(m: u32, greatest: u32) -> LastField
    requires some { 1 ≤ m }
    requires not_zero { 1 ≤ greatest }
    ensures { result ≡ last_sum m greatest }
{
    LastField {
        less: u64::from(m - 1),
        width: digits(u64::from(m) * u64::from(greatest - 1)),
    }
}
