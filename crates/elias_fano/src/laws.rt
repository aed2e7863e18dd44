ghost use Rattle.elias_fano.specs.Laws.{EfLaws, PlacesFit};

use part_cost::{digits_hold, low_width_is_best};

/// All that a view answers speaks of one list, and a part takes so many bits, at any spacing of its
/// samples and at that of the format, where it is what the part costs.
pub fn ef_obeys_laws()
    ensures { EfLaws }
{
    low_width_is_best();
}

/// The place of each number among the high bits has room in a sample.
pub fn places_fit_samples()
    ensures { PlacesFit }
{
    low_width_is_best();
    digits_hold();
}
