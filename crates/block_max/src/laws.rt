ghost use Rattle.block_max.specs.Laws.{CutsAreBlocks, NoBlockBehindTheList, OneSideFault};

/// The blocks of a list that is cut are blocks of it, and there is none from a document on exactly
/// where every document of the list is below it.
pub fn blocks_cover_a_list()
    ensures cut { CutsAreBlocks }
    ensures behind { NoBlockBehindTheList }
{}

/// No check of a side file breaks at the side words of some lists, and of other words one fault is
/// the first.
pub fn one_side_fault()
    ensures { OneSideFault }
{}
