ghost use Rattle.index_file.specs.PackedLaws.{OnePackedFile};

use bit_words::words_are_bits;
use packed_list::one_packed_list;
use part_codec::{one_list_at_place, part_takes_its_payload};

/// Words are those of one packed file only.
pub fn one_packed_file()
    ensures { OnePackedFile }
{
    words_are_bits();
    part_takes_its_payload();
    one_list_at_place();
    one_packed_list();
}
