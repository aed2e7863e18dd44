ghost use Rattle.std.specs.Prelude.{◌≡◌};
ghost use Rattle.memory_io.specs.DepotCalls.{calls_of, CountsCall, CountsStart};
ghost use Rattle.io_traits.specs.PerSlot.{at_slot};
ghost use Rattle.io_traits.specs.declared.fail.Slot.{Slot};
ghost use Rattle.memory_io.specs.declared.calls.Op.{Op};

use io_traits::{PerSlot, Slot};

/// A kind of call of a depot, each counted for itself.
#[derive(Clone, Copy, Debug, PartialEq, Eq)]
pub enum Op {
    /// A start of this slot.
    Start(Slot),
    /// A read from this slot.
    Read(Slot),
    /// A create of a file.
    Create,
    /// A write to the file that is created.
    Write,
    /// The end of the writing.
    Finish,
}

// How often each kind of call was made.
#[derive(Drop)]
pub(crate) struct Calls {
    starts: PerSlot<u64>,
    reads: PerSlot<u64>,
    creates: u64,
    writes: u64,
    finishes: u64,
}

impl Calls {
    pub(crate) fn new() -> Calls
        ensures none { (op : Op) → calls_of result op ≡ 0 }
        ensures no_start { (slot : Slot) → at_slot result.starts slot ≡ 0 }
    {
        Calls {
            starts: PerSlot::all(0),
            reads: PerSlot::all(0),
            creates: 0,
            writes: 0,
            finishes: 0,
        }
    }

    pub(crate) fn of(&self, op: Op) -> u64
        ensures { result ≡ calls_of self.now op }
    {
        match op {
            Op::Start(slot) => *self.starts.get(slot),
            Op::Read(slot) => *self.reads.get(slot),
            Op::Create => self.creates,
            Op::Write => self.writes,
            Op::Finish => self.finishes,
        }
    }

    pub(crate) fn count(&mut self, op: Op)
        ensures counted { CountsCall op self.old self.new }
        ensures started { CountsStart op self.old self.new }
    {
        match op {
            Op::Start(slot) => self.starts.raise(slot),
            Op::Read(slot) => self.reads.raise(slot),
            Op::Create => self.creates = self.creates.saturating_add(1),
            Op::Write => self.writes = self.writes.saturating_add(1),
            Op::Finish => self.finishes = self.finishes.saturating_add(1),
        }
    }
}
