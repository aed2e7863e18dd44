ghost use Rattle.std.specs.Prelude.{◌≡◌, ◌≤◌, ◌<◌, ◌^◌};
ghost use Rattle.packed_sequence.specs.Behind.{place_behind, IsInRange};

use part_cost::payload_bits;

/// The place behind the bits of a sequence.
#[derive(Clone, Copy)]
pub enum Behind {
    /// This place.
    Place(u64),
    /// That behind the payload of a part in this universe that stands at this place. It is counted
    /// where it is asked for.
    Part { place: u64, universe: u64 },
}

impl Behind {
    /// The place, behind a sequence of m values.
    pub fn of(self, m: u32) -> u64
        requires some { 1 ≤ m }
        requires range { IsInRange self m }
        requires room { place_behind self m < 2 ^ 64 }
        ensures { result ≡ place_behind self m }
    {
        match self {
            Behind::Place(place) => place,
            Behind::Part { place, universe } => place + payload_bits(universe, u64::from(m)),
        }
    }
}
