ghost use Rattle.std.specs.Prelude.{◌≡◌, ℕ, ◌++◌, List, [], IfOk, OnOk, OnErr, option_map, unwrap_or};
ghost use Rattle.std.specs.List.{position};
ghost use Rattle.memory_io.specs.InMemory.{file_in};
ghost use Rattle.memory_io.specs.Files.{has_name, name_at, IsFirst, Puts};

use std::alloc::{AllocError, Global};

// Files under names; of two with one name the first counts.
#[derive(Drop)]
pub(crate) struct Files {
    pub(crate) list: Vec<(String, Vec<u8>)>,
}

impl Files {
    // The place of the first file of this name.
    pub(crate) fn place_of(&self, name: &str) -> Option<usize>
        ensures { result ≡ position (has_name name.now) self.now.list.items }
    {
        self.list.iter().position(|file| file.0.as_str() == name)
    }

    // The bytes under a name.
    pub(crate) fn bytes_of(&self, name: &str) -> Option<&[u8]>
        ensures { option_map (λ bytes. bytes.now) result ≡ file_in self.now.list.items name.now }
    {
        let at = self.place_of(name)?;
        Some(self.list[at].1.as_slice())
    }

    // A copy of the bytes under a name, none where there is no such file.
    pub(crate) fn copy_of(&self, alloc: Global, name: &str) -> Result<Vec<u8>, AllocError>
        ensures { IfOk result (λ bytes. bytes.items
            ≡ unwrap_or (file_in self.now.list.items name.now) []) }
    {
        match self.bytes_of(name) {
            Some(bytes) => Vec::from_slice(alloc, bytes),
            None => Ok(Vec::new(alloc)),
        }
    }

    // Makes the file of this name empty, and gives its place.
    pub(crate) fn make_empty(&mut self, alloc: Global, name: &str) -> Result<usize, AllocError>
        ensures put { IfOk result (λ at. Puts self.old.list.items self.new.list.items at name.now
            []) }
        ensures unchanged { OnErr result (self.new.list.items ≡ self.old.list.items) }
    {
        match self.place_of(name) {
            Some(at) => {
                let file = &mut self.list[at];
                file.1.clear();
                Ok(at)
            }
            None => {
                let at = self.list.len();
                let name = String::from_str(alloc, name)?;
                self.list.push((name, Vec::new(alloc)))?;
                Ok(at)
            }
        }
    }

    // Puts the piece at the end of the file at this place.
    pub(crate) fn append(&mut self, at: usize, piece: &[u8]) -> Result<(), AllocError>
        requires { IsFirst self.old.list.items at }
        ensures first { IsFirst self.new.list.items at }
        ensures named { name_at self.new.list.items at ≡ name_at self.old.list.items at }
        ensures put { OnOk result (Puts self.old.list.items self.new.list.items at
            (name_at self.old.list.items at) (unwrap_or
            (file_in self.old.list.items (name_at self.old.list.items at)) [] ++ piece.now)) }
        ensures unchanged { OnErr result ((name : List ℕ)
            → file_in self.new.list.items name ≡ file_in self.old.list.items name) }
    {
        let file = &mut self.list[at];
        file.1.extend_from_slice(piece)
    }
}
