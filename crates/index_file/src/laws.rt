ghost use Rattle.part_cost.specs.declared.formats.Format.{Format};
ghost use Rattle.part_cost.specs.Formats.{numbers_of};
ghost use Rattle.index_file.specs.Laws.{BytesAreSpelled, FilesSpellCollections, FileLaws, IndexIsRead, ListsAreCounted, NoVersionBreaks, OneBrokenCheck, OneIndex, SequenceLaws, WordsAreRead};
ghost use Rattle.index_file.specs.PackedLaws.{PackedListsStand};

use crate::packed_laws::one_packed_file;
use bit_words::words_are_bits;
use packed_list::{lists_are_short, lists_state_back};
use part_codec::{one_list_at_place, part_takes_its_payload};
use postings::{sequences_give_their_list, sequences_of_a_list_rise};
use two_level::{one_sequence, sequences_pass_checks, words_state_their_sequence};

/// Words and their bytes undo each other: words of 64 bits are all that their bytes can be read as,
/// and bytes in whole eights are those of such words.
pub fn words_and_bytes_undo_each_other()
    ensures read { WordsAreRead }
    ensures spelled { BytesAreSpelled }
{}

/// A builder that stands for some lists has so many lists added.
pub fn lists_are_counted()
    ensures { ListsAreCounted }
{}

/// The file of a builder's lists, with a size for each document, is that of their collection, and
/// the index of it where a file of its kind has room for them.
pub fn files_spell_collections()
    ensures { FilesSpellCollections }
{}

/// An index is read in the format in which it is spelled.
pub fn index_is_read()
    ensures { IndexIsRead }
{}

/// Words are an index of one collection in one format and one cut only.
pub fn one_index()
    ensures { OneIndex }
{
    file_laws();
}

/// Words that are no index have one first broken check, and an index has none.
pub fn one_broken_check()
    ensures { OneBrokenCheck }
{
    file_laws();
}

/// Behind the opening word, a word 1 that is the version of no format of plain files is the first
/// check that breaks.
pub fn no_version_breaks()
    ensures { NoVersionBreaks }
{}

/// Where the lists of a packed file begin, as `list_starts` tells it, their bits stand.
pub fn packed_lists_stand()
    ensures { PackedListsStand }
{
    file_laws();
}

// What the crates below say of the sequences of lists, in each format.
pub(crate) fn sequence_laws()
    ensures { (format : Format) → SequenceLaws (numbers_of format) }
{
    one_sequence();
    sequences_of_a_list_rise();
    sequences_give_their_list();
    sequences_pass_checks();
    words_state_their_sequence();
}

// What holds of the lists and of the bits of files of both kinds.
pub(crate) fn file_laws()
    ensures { FileLaws }
{
    sequence_laws();
    words_are_bits();
    part_takes_its_payload();
    one_list_at_place();
    lists_state_back();
    lists_are_short();
    one_packed_file();
}
