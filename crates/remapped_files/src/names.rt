ghost use Rattle.std.specs.Prelude.{◌≡◌, IfOk};
ghost use Rattle.collection_model.specs.Spelling.{Files};
ghost use Rattle.command_model.specs.FilesWritten.{AreApart};
ghost use Rattle.command_model.specs.FoundMap.{files_under};
ghost use Rattle.remapped_files.specs.NamedFiles.{files_named, name_of};

use io_traits::Slot;
use no_memory::NoMemory;
use std::alloc::Global;

/// The names of the three files of a collection.
#[derive(Drop)]
pub struct FileNames {
    docs: String,
    freqs: String,
    sizes: String,
}

/// The names of the files of a collection under a base.
pub fn names_under(alloc: Global, base: &str) -> Result<FileNames, NoMemory>
    ensures under { IfOk result (λ names.
        (files : Files) → files_named names files ≡ files_under base.now files) }
    ensures apart { IfOk result (λ names. (files : Files) → AreApart (files_named names files)) }
{
    Ok(FileNames {
        docs: format!(in alloc; "{base}.docs")?,
        freqs: format!(in alloc; "{base}.freqs")?,
        sizes: format!(in alloc; "{base}.sizes")?,
    })
}

impl FileNames {
    /// The name of the file of a slot.
    pub fn of(&self, slot: Slot) -> &str
        ensures { result.now ≡ name_of self.now slot }
    {
        match slot {
            Slot::Docs => self.docs.as_str(),
            Slot::Freqs => self.freqs.as_str(),
            _ => self.sizes.as_str(),
        }
    }
}
