ghost use Rattle.packed_sequence.specs.Laws.{SequenceWordsFit, SequencesStateBack};
ghost use Rattle.packed_sequence.specs.SequencePlaces.{OneSequenceAtPlace};

use bit_words::words_are_bits;
use part_codec::{one_list_at_place, part_takes_its_payload};
use part_cost::parts_are_short;
use two_level::{one_sequence, sequences_pass_checks, words_state_their_sequence};

/// The words of a sequence are words of 64 bits.
pub fn sequence_words_fit()
    ensures { SequenceWordsFit }
{
    part_takes_its_payload();
    parts_are_short();
}

/// Where the bits of a sequence stand there is no other.
pub fn one_sequence_at_place()
    ensures { OneSequenceAtPlace }
{
    words_are_bits();
    part_takes_its_payload();
    one_list_at_place();
    one_sequence();
    sequence_words_fit();
}

/// Where the bits of a sequence stand in words, these state it and its parts.
pub fn sequences_state_back()
    ensures { SequencesStateBack }
{
    words_are_bits();
    part_takes_its_payload();
    one_list_at_place();
    one_sequence();
    words_state_their_sequence();
    sequences_pass_checks();
    sequence_words_fit();
}
