ghost use Rattle.std.specs.Prelude.{◌≡◌, ℕ, ◌≤◌, [], Some, min, length, IfOk, IsOk, IsErrOf, IsTrue, IsSome, IfSome, ◌↔◌, ◌⊎◌, map, string_bytes, option_map};
ghost use Rattle.memory_io.specs.InMemory.{IsNewDepot, CalledOnce, TellsOn};
ghost use Rattle.memory_io.specs.Files.{IsFirst};
ghost use Rattle.io_traits.specs.DepotState.{Starts, ReadsSlot, Creates, WritesFile, Finishes};
ghost use Rattle.memory_io.specs.declared.calls.Op.{Op};

use crate::asked::{Asked, note};
use crate::calls::{Calls, Op};
use crate::files::Files;
use crate::opened::Opened;
use io_traits::{Depot, IoFail, PerSlot, Slot};
use no_memory::NoMemory;
use std::alloc::Global;

/// Files in memory that are read and written without a fault; memory may be refused.
#[derive(Drop)]
pub struct SteadyDepot {
    pub(crate) alloc: Global,
    pub(crate) files: Files,
    opened: PerSlot<Option<Opened>>,
    created: Option<usize>,
    most: usize,
    pub(crate) calls: Calls,
    pub(crate) asked: PerSlot<Asked>,
    pub(crate) refusals: u64,
    ghost moves_some: { 1 ≤ most },
    ghost writes_first: { (at : ℕ) → created ≡ Some at → IsFirst files.list.items at },
}

impl SteadyDepot {
    ghost use Rattle.memory_io.specs.SteadyDepot.{steady_depot};

    /// A depot of these files, of which each read and write moves at most `most` bytes. A name that
    /// stands twice has the bytes of its first file.
    pub fn new(
        alloc: Global,
        files: Vec<(String, Vec<u8>)>,
        most: usize,
    ) -> Result<SteadyDepot, NoMemory>
        requires { 1 ≤ most }
        ensures always { IsOk result }
        ensures fresh { IfOk result (λ d. IsNewDepot files.items (steady_depot d).state) }
        ensures made { IfOk result (λ d. ((steady_depot d).most ≡ most)
            × ((op : Op) → (steady_depot d).calls op ≡ 0) × ((steady_depot d).fails ≡ [])) }
    {
        Ok(SteadyDepot {
            alloc,
            files: Files { list: files },
            opened: PerSlot {
                docs: None,
                freqs: None,
                sizes: None,
                index: None,
                side: None,
                map: None,
            },
            created: None,
            most,
            calls: Calls::new(),
            asked: PerSlot {
                docs: Asked::new(alloc),
                freqs: Asked::new(alloc),
                sizes: Asked::new(alloc),
                index: Asked::new(alloc),
                side: Asked::new(alloc),
                map: Asked::new(alloc),
            },
            refusals: 0,
        })
    }

    /// The bytes under a name.
    pub fn file(&self, name: &str) -> Option<&[u8]>
        ensures { option_map (λ bytes. bytes.now) result
            ≡ (steady_depot self.now).state.file name.now }
    {
        self.files.bytes_of(name)
    }

    /// How often this kind of call was made.
    pub fn calls(&self, op: Op) -> u64
        ensures { result ≡ (steady_depot self.now).calls op }
    {
        self.calls.of(op)
    }

    /// The names under which the slot was asked to start, in their order, also where that failed;
    /// none once memory was refused for one.
    pub fn names(&self, slot: Slot) -> Option<&[String]>
        ensures told { IsSome result ↔ IsTrue ((steady_depot self.now).state.starts slot).told }
        ensures names { IfSome result (λ names. map string_bytes names.now
            ≡ ((steady_depot self.now).state.starts slot).names) }
    {
        self.asked.get(slot).names()
    }
}

impl Depot for SteadyDepot {
    ghost use Rattle.memory_io.specs.SteadyDepot.{steady_depot};

    ghost state = { λ d. (steady_depot d).state };

    fn start(&mut self, slot: Slot, name: &str) -> Result<(), IoFail>
        ensures starts { Starts (steady_depot self.old).state (steady_depot self.new).state slot
            name.now result }
        ensures never_fails { IsErrOf result IoFail.Failed → ⊥ }
        ensures counted { CalledOnce (Op.Start slot) (steady_depot self.old)
            (steady_depot self.new) }
        ensures tells_on { IsErrOf result IoFail.NoMemory
            ⊎ TellsOn slot (steady_depot self.old).state (steady_depot self.new).state }
    {
        self.calls.count(Op::Start(slot));
        if note(&mut self.asked, self.alloc, slot, name).is_err() {
            self.refusals = self.refusals.saturating_add(1);
            return Err(IoFail::NoMemory);
        }
        let Ok(bytes) = self.files.copy_of(self.alloc, name) else {
            self.refusals = self.refusals.saturating_add(1);
            return Err(IoFail::NoMemory);
        };
        *self.opened.get_mut(slot) = Some(Opened::new(bytes));
        Ok(())
    }

    fn read(&mut self, slot: Slot, buf: &mut [u8]) -> Result<usize, IoFail>
        requires { IsTrue ((steady_depot self.old).state.started slot) }
        ensures reads { ReadsSlot (steady_depot self.old).state (steady_depot self.new).state slot
            buf.old buf.new result }
        ensures moved { IfOk result (λ n. n ≡ min
            (min (length ((steady_depot self.old).state.left slot)) (length buf.old))
            (steady_depot self.old).most) }
        ensures never_fails { IsOk result }
        ensures counted { CalledOnce (Op.Read slot) (steady_depot self.old)
            (steady_depot self.new) }
    {
        self.calls.count(Op::Read(slot));
        let Some(opened) = self.opened.get_mut(slot) else {
            unreachable!()
        };
        Ok(opened.read(buf, self.most))
    }

    fn create(&mut self, name: &str) -> Result<(), IoFail>
        ensures creates { Creates (steady_depot self.old).state (steady_depot self.new).state
            name.now result }
        ensures never_fails { IsErrOf result IoFail.Failed → ⊥ }
        ensures counted { CalledOnce Op.Create (steady_depot self.old) (steady_depot self.new) }
    {
        self.calls.count(Op::Create);
        match self.files.make_empty(self.alloc, name) {
            Ok(at) => {
                self.created = Some(at);
                Ok(())
            }
            Err(_) => {
                self.refusals = self.refusals.saturating_add(1);
                Err(IoFail::NoMemory)
            }
        }
    }

    fn write(&mut self, piece: &[u8]) -> Result<usize, IoFail>
        requires { IsTrue (steady_depot self.old).state.created }
        ensures writes { WritesFile (steady_depot self.old).state (steady_depot self.new).state
            piece.now result }
        ensures moved { IfOk result (λ n. n ≡ min (length piece.now) (steady_depot self.old).most) }
        ensures never_fails { IsErrOf result IoFail.Failed → ⊥ }
        ensures counted { CalledOnce Op.Write (steady_depot self.old) (steady_depot self.new) }
    {
        self.calls.count(Op::Write);
        let Some(at) = self.created else {
            unreachable!()
        };
        let n = piece.len().min(self.most);
        if self.files.append(at, &piece[..n]).is_err() {
            self.refusals = self.refusals.saturating_add(1);
            return Err(IoFail::NoMemory);
        }
        Ok(n)
    }

    fn finish(&mut self) -> Result<(), IoFail>
        requires { IsTrue (steady_depot self.old).state.created }
        ensures finishes { Finishes (steady_depot self.old).state (steady_depot self.new).state
            result }
        ensures never_fails { IsOk result }
        ensures counted { CalledOnce Op.Finish (steady_depot self.old) (steady_depot self.new) }
    {
        self.calls.count(Op::Finish);
        self.created = None;
        Ok(())
    }
}
