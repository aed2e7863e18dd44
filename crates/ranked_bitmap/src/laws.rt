ghost use Rattle.ranked_bitmap.specs.Laws.{MapLaws};

/// All that a view answers speaks of one list, and a part takes so many bits, at any spacing of its
/// samples and at that of the format, where it is what the part costs.
pub fn map_obeys_laws()
    ensures { MapLaws }
{}
