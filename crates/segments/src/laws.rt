ghost use Rattle.segments.specs.Laws.{ListsFollow, ListsAreJoined, JoinedIsInRange, WideIsJoined, JoinedIsWellFormed, RangesAreJoined};

/// The lists of a term in collections that can be joined are parts that follow one another, and one
/// after the other they are its list in the joined collection, whose documents are below their
/// number.
pub fn joined_lists_follow()
    ensures follow { ListsFollow }
    ensures list { ListsAreJoined }
    ensures in_range { JoinedIsInRange }
    ensures wide { WideIsJoined }
{}

/// Well-formed collections are joined to a well-formed one, where it has not too many documents and
/// no list has too great a sum of frequencies.
pub fn joined_is_well_formed()
    ensures { JoinedIsWellFormed }
{}

/// The ranges into which a collection is cut are joined to that collection.
pub fn ranges_are_joined()
    ensures { RangesAreJoined }
{}
