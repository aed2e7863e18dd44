ghost use Rattle.std.specs.Prelude.{◌≡◌, ◌≤◌, ◌↔◌, ◌⊎◌, min, length, IfOk, IsOk, IsErrOf, IsTrue, IsSome, IfSome, None, map, string_bytes, option_map};
ghost use Rattle.memory_io.specs.InMemory.{IsNewDepot, CalledOnce, FailsNext, TellsOn};
ghost use Rattle.memory_io.specs.MemDepot.{mem_depot, CountsFault};
ghost use Rattle.io_traits.specs.DepotState.{SameButCounts, Starts, ReadsSlot, Creates, WritesFile, Finishes};
ghost use Rattle.memory_io.specs.declared.calls.Op.{Op};

use crate::asked::note;
use crate::calls::Op;
use crate::steady_depot::SteadyDepot;
use io_traits::{Depot, IoFail, PerSlot, Slot};
use no_memory::NoMemory;
use std::alloc::Global;

/// Files in memory, where some calls fail, and each start of a name that has no file.
#[derive(Drop)]
pub struct MemDepot {
    depot: SteadyDepot,
    fails: Vec<(Op, u64)>,
    faults: PerSlot<u64>,
    writing_faults: u64,
    create_faults: u64,
    finish_faults: u64,
}

impl MemDepot {
    /// A depot of these files, of which each read and write moves at most `most` bytes. The calls
    /// `fails` fail, each kind of call counted for itself from 1. A name that stands twice has the
    /// bytes of its first file.
    pub fn new(
        alloc: Global,
        files: Vec<(String, Vec<u8>)>,
        most: usize,
        fails: Vec<(Op, u64)>,
    ) -> Result<MemDepot, NoMemory>
        requires { 1 ≤ most }
        ensures always { IsOk result }
        ensures fresh { IfOk result (λ d. IsNewDepot files.items (mem_depot d).state) }
        ensures made { IfOk result (λ d. ((mem_depot d).most ≡ most)
            × ((op : Op) → (mem_depot d).calls op ≡ 0) × ((mem_depot d).fails ≡ fails.items)) }
    {
        let depot = SteadyDepot::new(alloc, files, most)?;
        Ok(MemDepot {
            depot,
            fails,
            faults: PerSlot::all(0),
            writing_faults: 0,
            create_faults: 0,
            finish_faults: 0,
        })
    }

    /// The bytes under a name.
    pub fn file(&self, name: &str) -> Option<&[u8]>
        ensures { option_map (λ bytes. bytes.now) result
            ≡ (mem_depot self.now).state.file name.now }
    {
        self.depot.file(name)
    }

    /// How often this kind of call was made.
    pub fn calls(&self, op: Op) -> u64
        ensures { result ≡ (mem_depot self.now).calls op }
    {
        self.depot.calls(op)
    }

    /// The names under which the slot was asked to start, in their order, also where that failed;
    /// none once memory was refused for one.
    pub fn names(&self, slot: Slot) -> Option<&[String]>
        ensures told { IsSome result ↔ IsTrue ((mem_depot self.now).state.starts slot).told }
        ensures names { IfSome result (λ names. map string_bytes names.now
            ≡ ((mem_depot self.now).state.starts slot).names) }
    {
        self.depot.names(slot)
    }

    // Whether the next call of this kind is one of those that fail.
    fn fails_next(&self, op: Op) -> bool
        ensures { IsTrue result ↔ FailsNext (mem_depot self.now) op }
    {
        let number = self.depot.calls(op).saturating_add(1);
        self.fails.contains(&(op, number))
    }

    // Counts a call of this kind and its fault.
    fn fail(&mut self, op: Op) -> IoFail
        ensures failed { result ≡ IoFail.Failed }
        ensures unchanged { SameButCounts (mem_depot self.old).state (mem_depot self.new).state }
        ensures fault { CountsFault op (mem_depot self.old).state (mem_depot self.new).state }
        ensures counted { CalledOnce op (mem_depot self.old) (mem_depot self.new) }
    {
        self.depot.calls.count(op);
        match op {
            Op::Start(slot) | Op::Read(slot) => self.faults.raise(slot),
            Op::Create => {
                self.writing_faults = self.writing_faults.saturating_add(1);
                self.create_faults = self.create_faults.saturating_add(1);
            }
            Op::Write => self.writing_faults = self.writing_faults.saturating_add(1),
            Op::Finish => {
                self.writing_faults = self.writing_faults.saturating_add(1);
                self.finish_faults = self.finish_faults.saturating_add(1);
            }
        }
        IoFail::Failed
    }
}

impl Depot for MemDepot {
    ghost state = { λ d. (mem_depot d).state };

    fn start(&mut self, slot: Slot, name: &str) -> Result<(), IoFail>
        ensures starts { Starts (mem_depot self.old).state (mem_depot self.new).state slot name.now
            result }
        ensures fails_where_listed { IsErrOf result IoFail.NoMemory
            ⊎ (IsErrOf result IoFail.Failed ↔ (FailsNext (mem_depot self.old) (Op.Start slot)
            ⊎ ((mem_depot self.old).state.file name.now ≡ None))) }
        ensures counted { CalledOnce (Op.Start slot) (mem_depot self.old) (mem_depot self.new) }
        ensures tells_on { IsErrOf result IoFail.NoMemory
            ⊎ TellsOn slot (mem_depot self.old).state (mem_depot self.new).state }
    {
        let op = Op::Start(slot);
        if self.fails_next(op) || self.depot.file(name).is_none() {
            if note(&mut self.depot.asked, self.depot.alloc, slot, name).is_err() {
                self.depot.calls.count(op);
                self.depot.refusals = self.depot.refusals.saturating_add(1);
                return Err(IoFail::NoMemory);
            }
            return Err(self.fail(op));
        }
        self.depot.start(slot, name)
    }

    fn read(&mut self, slot: Slot, buf: &mut [u8]) -> Result<usize, IoFail>
        requires { IsTrue ((mem_depot self.old).state.started slot) }
        ensures reads { ReadsSlot (mem_depot self.old).state (mem_depot self.new).state slot buf.old
            buf.new result }
        ensures moved { IfOk result (λ n. n ≡ min
            (min (length ((mem_depot self.old).state.left slot)) (length buf.old))
            (mem_depot self.old).most) }
        ensures fails_where_listed { IsErrOf result IoFail.Failed
            ↔ FailsNext (mem_depot self.old) (Op.Read slot) }
        ensures takes_no_memory { IsErrOf result IoFail.NoMemory → ⊥ }
        ensures counted { CalledOnce (Op.Read slot) (mem_depot self.old) (mem_depot self.new) }
    {
        let op = Op::Read(slot);
        if self.fails_next(op) {
            return Err(self.fail(op));
        }
        self.depot.read(slot, buf)
    }

    fn create(&mut self, name: &str) -> Result<(), IoFail>
        ensures creates { Creates (mem_depot self.old).state (mem_depot self.new).state name.now
            result }
        ensures fails_where_listed { IsErrOf result IoFail.Failed
            ↔ FailsNext (mem_depot self.old) Op.Create }
        ensures counted { CalledOnce Op.Create (mem_depot self.old) (mem_depot self.new) }
    {
        if self.fails_next(Op::Create) {
            return Err(self.fail(Op::Create));
        }
        self.depot.create(name)
    }

    fn write(&mut self, piece: &[u8]) -> Result<usize, IoFail>
        requires { IsTrue (mem_depot self.old).state.created }
        ensures writes { WritesFile (mem_depot self.old).state (mem_depot self.new).state piece.now
            result }
        ensures moved { IfOk result (λ n. n ≡ min (length piece.now) (mem_depot self.old).most) }
        ensures fails_where_listed { IsErrOf result IoFail.Failed
            ↔ FailsNext (mem_depot self.old) Op.Write }
        ensures counted { CalledOnce Op.Write (mem_depot self.old) (mem_depot self.new) }
    {
        if self.fails_next(Op::Write) {
            return Err(self.fail(Op::Write));
        }
        self.depot.write(piece)
    }

    fn finish(&mut self) -> Result<(), IoFail>
        requires { IsTrue (mem_depot self.old).state.created }
        ensures finishes { Finishes (mem_depot self.old).state (mem_depot self.new).state result }
        ensures fails_where_listed { IsErrOf result IoFail.Failed
            ↔ FailsNext (mem_depot self.old) Op.Finish }
        ensures takes_no_memory { IsErrOf result IoFail.NoMemory → ⊥ }
        ensures counted { CalledOnce Op.Finish (mem_depot self.old) (mem_depot self.new) }
    {
        if self.fails_next(Op::Finish) {
            return Err(self.fail(Op::Finish));
        }
        self.depot.finish()
    }
}
