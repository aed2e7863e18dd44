ghost use Rattle.std.specs.Prelude.{◌<◌, ◌^◌};
ghost use Rattle.collection_model.specs.FormatNumbers.{FormatNumbers};
ghost use Rattle.collection_model.specs.Laws.{OneCollection, NextStopAtFirst, OneCount};

/// Three byte strings spell at most one collection, in every format whose document numbers fit four
/// bytes.
pub fn files_spell_one_collection()
    ensures { (format : FormatNumbers) → format.most_documents < 2 ^ 32 → OneCollection format }
{}

/// The next numbers below one are given as far as they go or have room, and so many are one count
/// only.
pub fn next_stop_at_first()
    ensures list { NextStopAtFirst }
    ensures one { OneCount }
{}
