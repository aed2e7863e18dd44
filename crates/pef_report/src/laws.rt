ghost use Rattle.pef_report.specs.Laws.{GeneratedAreWellFormed};

/// A format in which eight occurrences in each document are not too many can hold what is generated
/// within its limits.
pub fn generated_are_well_formed()
    ensures { GeneratedAreWellFormed }
{}
