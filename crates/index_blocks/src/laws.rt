ghost use Rattle.index_blocks.specs.Laws.{SideFilesFit};

/// The side file of an index of at most 2^37 words has no more than 2^37 words.
pub fn side_files_fit()
    ensures { SideFilesFit }
{}
