ghost use Rattle.part_codec.specs.Laws.{OneListAtPlace, PartIsBits, TakesItsPayload, ValuesStandAt};

use elias_fano::ef_obeys_laws;
use part_cost::payload_is_of_kind;
use ranked_bitmap::map_obeys_laws;

/// The bits of a part are bits, as many as its payload says.
pub fn part_takes_its_payload()
    ensures bits { PartIsBits }
    ensures payload { TakesItsPayload }
{
    ef_obeys_laws();
    map_obeys_laws();
    payload_is_of_kind();
}

/// The bits at a place are those of one list at most, the values at that place.
pub fn one_list_at_place()
    ensures one { OneListAtPlace }
    ensures values { ValuesStandAt }
{}
