ghost use Rattle.part_cost.specs.Formats.{numbers_of};
ghost use Rattle.part_cost.specs.declared.formats.Format.{Format};
ghost use Rattle.sequence_words.specs.Laws.{ChecksAcceptASequence, ChecksRefuseNoSequence, DirectoryStates, OneSequence, SequencesPassChecks, TakesItsCost, WordsState};

use bit_words::words_are_bits;
use part_codec::{one_list_at_place, part_takes_its_payload};
use part_cost::{formats_have_room, part_is_relative, parts_are_short};

/// A sequence takes exactly what its partition costs, in whole words.
pub fn sequence_takes_its_cost()
    ensures { (format : Format) → TakesItsCost (numbers_of format) }
{
    formats_have_room();
    part_takes_its_payload();
    part_is_relative();
    parts_are_short();
}

/// Words begin with one sequence of so many values in so many parts only.
pub fn one_sequence()
    ensures { (format : Format) → OneSequence (numbers_of format) }
{
    formats_have_room();
    words_are_bits();
    part_takes_its_payload();
    one_list_at_place();
    part_is_relative();
    parts_are_short();
}

/// Words that begin with a sequence break no check.
pub fn checks_refuse_no_sequence()
    ensures { (format : Format) → ChecksRefuseNoSequence (numbers_of format) }
{
    formats_have_room();
    words_are_bits();
    part_takes_its_payload();
    part_is_relative();
    parts_are_short();
}

/// Words that pass every check begin with a sequence.
pub fn checks_accept_a_sequence()
    ensures { (format : Format) → ChecksAcceptASequence (numbers_of format) }
{
    formats_have_room();
    words_are_bits();
    part_takes_its_payload();
    part_is_relative();
    parts_are_short();
}

/// The values and the ends that words state are those of the sequence with which they begin.
pub fn words_state_their_sequence()
    ensures { (format : Format) → WordsState (numbers_of format) }
{
    formats_have_room();
    words_are_bits();
    part_takes_its_payload();
    one_list_at_place();
    part_is_relative();
    parts_are_short();
}

/// Words that begin with a sequence pass every check, and their payload ends where the sequence
/// does.
pub fn sequences_pass_checks()
    ensures { (format : Format) → SequencesPassChecks (numbers_of format) }
{
    formats_have_room();
    words_are_bits();
    part_takes_its_payload();
    part_is_relative();
    parts_are_short();
}

/// The directory of words that begin with a sequence states its parts.
pub fn directory_states_its_parts()
    ensures { (format : Format) → DirectoryStates (numbers_of format) }
{
    formats_have_room();
    words_are_bits();
    part_takes_its_payload();
    part_is_relative();
    parts_are_short();
}
