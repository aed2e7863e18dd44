ghost use Rattle.std.specs.Prelude.{◌≡◌, ◌≢◌, ◌≤◌};
ghost use Rattle.io_traits.specs.Calls.{Rose, one_more};
ghost use Rattle.std.specs.Borrow.{sem};
ghost use Rattle.io_traits.specs.PerSlot.{at_slot};
ghost use Rattle.io_traits.specs.LentSlot.{LendsSlot};
ghost use Rattle.io_traits.specs.declared.fail.Slot.{Slot};

use crate::fail::Slot;

/// One value for each slot.
#[derive(Drop)]
pub struct PerSlot<T> {
    /// Of the documents of a collection.
    pub docs: T,
    /// Of the frequencies of a collection.
    pub freqs: T,
    /// Of the sizes of a collection's documents.
    pub sizes: T,
    /// Of an index.
    pub index: T,
    /// Of a side file of an index.
    pub side: T,
    /// Of a map of new document ids.
    pub map: T,
}

impl PerSlot<u64> {
    /// One number for every slot.
    pub fn all(number: u64) -> PerSlot<u64>
        ensures { (slot : Slot) → at_slot result slot ≡ number }
    {
        PerSlot {
            docs: number,
            freqs: number,
            sizes: number,
            index: number,
            side: number,
            map: number,
        }
    }

    /// Raises the number at the slot, which stays at its type's last value.
    pub fn raise(&mut self, slot: Slot)
        ensures this { at_slot self.new slot ≡ one_more (at_slot self.old slot) }
        ensures never_falls { at_slot self.old slot ≤ at_slot self.new slot }
        ensures rose { Rose (at_slot self.old slot) (at_slot self.new slot) }
        ensures others { (other : Slot) → other ≢ slot
            → at_slot self.new other ≡ at_slot self.old other }
    {
        let number = self.get_mut(slot);
        *number = number.saturating_add(1);
    }
}

impl<T> PerSlot<T> {
    /// The value of this slot.
    pub fn get(&self, slot: Slot) -> &T
        ensures { result.now ≡ at_slot self.now slot }
    {
        match slot {
            Slot::Docs => &self.docs,
            Slot::Freqs => &self.freqs,
            Slot::Sizes => &self.sizes,
            Slot::Index => &self.index,
            Slot::Side => &self.side,
            Slot::Map => &self.map,
        }
    }

    /// The same, to be changed.
    pub fn get_mut(&mut self, slot: Slot) -> &mut T
        ensures* writes_back { sem 𝓛 (LendsSlot T.row self.entry slot result) }
        ensures value { result.now ≡ at_slot self.old slot }
    {
        match slot {
            Slot::Docs => &mut self.docs,
            Slot::Freqs => &mut self.freqs,
            Slot::Sizes => &mut self.sizes,
            Slot::Index => &mut self.index,
            Slot::Side => &mut self.side,
            Slot::Map => &mut self.map,
        }
    }
}
