ghost use Rattle.postings.specs.Laws.{CursorsStandInLists, SequencesAreAList, SequencesGiveTheirList, SequencesRise};

/// The postings in the two sequences of a posting list are that list.
pub fn sequences_give_their_list()
    ensures { SequencesGiveTheirList }
{}

/// The two sequences of a posting list rise, below its number of documents and below the greatest
/// sum of its format, and are as long as the list.
pub fn sequences_of_a_list_rise()
    ensures { SequencesRise }
{}

/// Two rising sequences of one length, in these bounds and with steps that fit a frequency, are
/// those of one posting list: the postings in them.
pub fn sequences_are_a_list()
    ensures { SequencesAreAList }
{}

/// A cursor may stand in each posting list over at most 4,294,967,295 documents.
pub fn cursors_stand_in_lists()
    ensures { CursorsStandInLists }
{}
