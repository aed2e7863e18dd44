ghost use Rattle.packed_list.specs.Laws.{OnePackedList, ListsStateBack, ListsAreShort};

use bit_words::words_are_bits;
use packed_sequence::sequence_words_fit;
use part_codec::{one_list_at_place, part_takes_its_payload};
use part_cost::parts_are_short;
use postings::{sequences_give_their_list, sequences_of_a_list_rise};
use two_level::{
    one_sequence, sequence_takes_its_cost, sequences_pass_checks, words_state_their_sequence,
};

/// Bits are those of one list and one partition of each of its sequences only.
pub fn one_packed_list()
    ensures { OnePackedList }
{
    words_are_bits();
    part_takes_its_payload();
    one_list_at_place();
    one_sequence();
    sequence_words_fit();
    sequences_give_their_list();
    sequences_of_a_list_rise();
}

/// Where the bits of a list stand in words, these are the list and its parts.
pub fn lists_state_back()
    ensures { ListsStateBack }
{
    words_are_bits();
    part_takes_its_payload();
    one_list_at_place();
    one_sequence();
    sequence_words_fit();
    words_state_their_sequence();
    sequences_pass_checks();
    sequences_of_a_list_rise();
}

/// No list takes 2^44 bits, so there is room for it behind any bits that are fewer than 2^62.
pub fn lists_are_short()
    ensures { ListsAreShort }
{
    part_takes_its_payload();
    parts_are_short();
    sequence_takes_its_cost();
    sequences_of_a_list_rise();
}
