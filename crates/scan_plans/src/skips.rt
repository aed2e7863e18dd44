ghost use Rattle.scan_plans.specs.Skips.{TopOfNone, TopAfterOffer, TopAfterSkips, TopIsBelow, HasOnlyBelow};
ghost use Rattle.scan_plans.specs.Skips.{StandsWhereItIs, StandsOneLater, StandsAtNextGeq};
ghost use Rattle.scan_plans.specs.AnyOrder.{FirstOfNone, FirstAfterOffer, FirstAfterPass, OutrankedByLast};
ghost use Rattle.scan_plans.specs.AnyOrder.{SeenNone, SeenIsHeld, SeenAfterOffer, SeenAfterSkips, SeenAll};
ghost use Rattle.scan_plans.specs.Skips.{HasWhereItStands, HasNotWhereItStands, NothingBetween, NothingLeft};

use cursor_api::next_geq_is_first;

/// The top list of the documents from a floor on is made document after document: each is offered
/// in turn, or skipped where it cannot enter. With the floor 0 they are all documents.
pub fn top_list_grows()
    ensures none { TopOfNone }
    ensures offered { TopAfterOffer }
    ensures skipped { TopAfterSkips }
    ensures below { TopIsBelow }
    ensures in_range { HasOnlyBelow }
{}

/// The top list of a set grows in any order: that of the pairs offered so far and one more is made
/// of what is held and this one. So does that of the documents seen so far, of which those are
/// passed over that come after all k held.
pub fn top_list_grows_in_any_order()
    ensures first_none { FirstOfNone }
    ensures first_offered { FirstAfterOffer }
    ensures first_passed { FirstAfterPass }
    ensures after_last { OutrankedByLast }
    ensures none { SeenNone }
    ensures not_held { SeenIsHeld }
    ensures offered { SeenAfterOffer }
    ensures skipped { SeenAfterSkips }
    ensures all { SeenAll }
{}

/// Where a cursor stands that has passed no document from a given one on.
pub fn cursors_stand()
    ensures here { StandsWhereItIs }
    ensures one_later { StandsOneLater }
    ensures next_geq { StandsAtNextGeq }
{
    next_geq_is_first();
}

/// What a cursor that stands from a document on tells of its list.
pub fn cursors_tell()
    ensures at { HasWhereItStands }
    ensures not_at { HasNotWhereItStands }
    ensures between { NothingBetween }
    ensures left { NothingLeft }
{}
