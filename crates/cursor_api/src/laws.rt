ghost use Rattle.cursor_api.specs.Laws.{FirstIsAtTheNextPlace, NextGeqIsFirst, OneNextGeq};

/// The next place of a document at or after `d` is the first place at or after the present one
/// whose document is at least `d`, or the end of the list, and it is the only such place.
pub fn next_geq_is_first()
    ensures first { NextGeqIsFirst }
    ensures one { OneNextGeq }
{}

/// From the start of a list, the posting at the next place of `d` is the first whose document is at
/// least `d`.
pub fn first_is_at_the_next_place()
    ensures { FirstIsAtTheNextPlace }
{}
