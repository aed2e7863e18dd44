ghost use Rattle.std.specs.Prelude.{◌≡◌, ◌≢◌, ◌↔◌, ◌++◌, ◌∷◌, [], IsTrue, IsSome, IfSome, OnOk, map, string_bytes};
ghost use Rattle.io_traits.specs.PerSlot.{at_slot};
ghost use Rattle.memory_io.specs.Asked.{names_asked};
ghost use Rattle.io_traits.specs.declared.fail.Slot.{Slot};

use io_traits::{PerSlot, Slot};
use std::alloc::{AllocError, Global};

// The names under which a slot was asked to start, told as long as there was memory for each.
#[derive(Drop)]
pub(crate) struct Asked {
    names: Vec<String>,
    told: bool,
}

impl Asked {
    pub(crate) fn new(alloc: Global) -> Asked
        ensures none { names_asked result ≡ [] }
        ensures told { IsTrue result.told }
    {
        Asked {
            names: Vec::new(alloc),
            told: true,
        }
    }

    // The names, in their order, where they are told.
    pub(crate) fn names(&self) -> Option<&[String]>
        ensures told { IsSome result ↔ IsTrue self.now.told }
        ensures names { IfSome result (λ names. map string_bytes names.now
            ≡ names_asked self.now) }
    {
        if self.told {
            return Some(self.names.as_slice());
        }
        None
    }

    // Notes a name; where memory is refused for it, none is told from then on.
    pub(crate) fn add(&mut self, alloc: Global, name: &str) -> Result<(), AllocError>
        ensures told { IsTrue self.new.told → IsTrue self.old.told }
        ensures named { IsTrue self.new.told → names_asked self.new
            ≡ names_asked self.old ++ name.now ∷ [] }
        ensures told_on { OnOk result (self.new.told ≡ self.old.told) }
    {
        let added = self.push(alloc, name);
        if added.is_err() {
            self.told = false;
        }
        added
    }

    // Puts a name behind the others.
    fn push(&mut self, alloc: Global, name: &str) -> Result<(), AllocError>
        ensures told { self.new.told ≡ self.old.told }
        ensures named { OnOk result (names_asked self.new ≡ names_asked self.old ++ name.now ∷ []) }
    {
        let name = String::from_str(alloc, name)?;
        self.names.push(name)?;
        Ok(())
    }
}

// Notes that the slot was asked to start under this name.
pub(crate) fn note(
    asked: &mut PerSlot<Asked>,
    alloc: Global,
    slot: Slot,
    name: &str,
) -> Result<(), AllocError>
    ensures told { IsTrue (at_slot asked.new slot).told → IsTrue (at_slot asked.old slot).told }
    ensures named { IsTrue (at_slot asked.new slot).told → names_asked (at_slot asked.new slot)
        ≡ names_asked (at_slot asked.old slot) ++ name.now ∷ [] }
    ensures told_on { OnOk result ((at_slot asked.new slot).told ≡ (at_slot asked.old slot).told) }
    ensures others { (other : Slot) → other ≢ slot
        → at_slot asked.new other ≡ at_slot asked.old other }
{
    asked.get_mut(slot).add(alloc, name)
}
