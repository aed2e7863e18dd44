ghost use Rattle.scan_plans.specs.IsTop.{OneTop, TopOfPostings, TopAboveFloor, ScoresOfFrequent};

/// There is one list of the first k documents only.
pub fn top_list_is_one()
    ensures { OneTop }
{}

/// A top list has no more documents than the lists have postings.
pub fn top_list_is_short()
    ensures { TopOfPostings }
{}

/// The top list of the documents whose scores reach a floor is that of all, where there are k of
/// them or the floor is 0.
pub fn top_list_has_a_floor()
    ensures { TopAboveFloor }
{}

/// So many documents reach a score as a list has postings of a frequency that alone gives it.
pub fn frequent_postings_score()
    ensures { ScoresOfFrequent }
{}
