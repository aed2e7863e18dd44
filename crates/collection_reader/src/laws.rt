ghost use Rattle.std.specs.Prelude.{◌<◌, ◌^◌};
ghost use Rattle.collection_model.specs.FormatNumbers.{FormatNumbers};
ghost use Rattle.part_cost.specs.declared.formats.Format.TheVariants.{Two};
ghost use Rattle.part_cost.specs.Formats.{numbers_of};
ghost use Rattle.collection_reader.specs.InTurn.{ReadsInTurn};
ghost use Rattle.collection_reader.specs.Laws.{NeverTooManyDocuments, NoFaultMeansSpelled, NoHeadFaultMeansPrefix, OneFirstFault, SpelledHasNoFault};

/// Three files have one first fault only, or none, in every format whose document numbers fit four
/// bytes.
pub fn files_have_one_first_fault()
    ensures { (format : FormatNumbers) → format.most_documents < 2 ^ 32 → OneFirstFault format }
{}

/// Files of bytes have no fault exactly where a well-formed collection spells them, in every such
/// format.
pub fn no_fault_means_spelled()
    ensures { (format : FormatNumbers) → format.most_documents < 2 ^ 32
        → NoFaultMeansSpelled format }
{}

/// The files of a well-formed collection have no fault, in every such format.
pub fn spelled_files_have_no_fault()
    ensures { (format : FormatNumbers) → format.most_documents < 2 ^ 32 → SpelledHasNoFault format }
{}

/// In the second format any number that a head states is a number of documents, so C3 never breaks.
pub fn second_format_never_has_too_many_documents()
    ensures { NeverTooManyDocuments (numbers_of Two) }
{}

/// A collection that is read list by list is the one that is read at once, and each refusal is the
/// same, in every such format.
pub fn lists_are_read_in_turn()
    ensures { (format : FormatNumbers) → format.most_documents < 2 ^ 32 → ReadsInTurn format }
{}

/// The head of a file of bytes has no fault exactly where the files have a prefix, in every such
/// format.
pub fn no_head_fault_means_prefix()
    ensures { (format : FormatNumbers) → format.most_documents < 2 ^ 32
        → NoHeadFaultMeansPrefix format }
{}
