ghost use Rattle.bit_words.specs.Laws.{BitsOfAppended, BitsOfWords, FieldOfAppended, FieldOfTwo, FieldReadBack, FieldStays, WordsOfBits, WordsOfPadded};

/// The laws of words as bits, for the layers above: bits of appended words, words of padded bits,
/// and the way back.
pub fn words_are_bits()
    ensures appended { BitsOfAppended }
    ensures bits { BitsOfWords }
    ensures words { WordsOfBits }
    ensures padded { WordsOfPadded }
{}

/// The laws of fields, for the layers above: a field of appended bits, and one that is read in two
/// parts.
pub fn fields_of_bits()
    ensures stays { FieldStays }
    ensures read_back { FieldReadBack }
    ensures appended { FieldOfAppended }
    ensures two { FieldOfTwo }
{}
