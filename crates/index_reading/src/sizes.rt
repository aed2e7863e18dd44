ghost use Rattle.std.specs.Prelude.{◌≡◌, ◌++◌, OnOk};

use index_file::Index;
use std::alloc::AllocError;

// Adds the size of each document of an index behind others, in the order of the documents.
pub(crate) fn add_sizes(index: &Index<'_>, sizes: &mut Vec<u32>) -> Result<(), AllocError>
    ensures { OnOk result (sizes.new.items ≡ sizes.old.items ++ index.now.collection.sizes) }
{
    index.stands_for_a_collection();
    for document in 0..index.documents() {
        sizes.push(index.size_of(document))?;
    }
    Ok(())
}
