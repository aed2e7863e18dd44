ghost use Rattle.std.specs.Prelude.{◌≡◌, ◌≤◌, ◌+◌, [], IfOk, IsOk, IsErrOf, min, length};
ghost use Rattle.memory_io.specs.InMemory.{IsNewSource, IsNewSink, ReadOnce, WrittenOnce};
ghost use Rattle.io_traits.specs.SourceState.{Reads};
ghost use Rattle.io_traits.specs.SinkState.{Writes};

use crate::opened::Opened;
use io_traits::{IoFail, Sink, Source};
use no_memory::NoMemory;
use std::alloc::Global;
use std::marker::Model;

/// Bytes in memory that are read without a fault.
#[derive(Drop)]
pub struct SteadySource {
    opened: Opened,
    most: usize,
    calls: u64,
}

impl Model for SteadySource {
    ghost use Rattle.std.specs.Prelude.{◌≤◌, true, []};
    ghost use Rattle.memory_io.specs.InMemory.{SourceInMemory};
    ghost use Rattle.memory_io.specs.Opened.{rest};

    ghost Value = { SourceInMemory };

    ghost view = { λ s. record {
      state = record { tells = true; left = rest s.opened; faults = 0 };
      most = s.most;
      fails = [];
      calls = s.calls;
    } };

    ghost invariant = { λ s. 1 ≤ s.most };
}

impl SteadySource {
    /// A source of these bytes, of which each read moves at most `most`.
    pub fn new(bytes: Vec<u8>, most: usize) -> SteadySource
        requires { 1 ≤ most }
        ensures fresh { IsNewSource bytes.items result.state }
        ensures made { (result.most ≡ most) × (result.fails ≡ []) × (result.calls ≡ 0) }
    {
        SteadySource {
            opened: Opened::new(bytes),
            most,
            calls: 0,
        }
    }

    /// How often it was read.
    pub fn calls(&self) -> u64
        ensures { result ≡ self.now.calls }
    {
        self.calls
    }

    // Counts a read.
    pub(crate) fn count_call(&mut self)
        ensures counted { ReadOnce self.old self.new }
        ensures unread { self.new.state ≡ self.old.state }
    {
        self.calls = self.calls.saturating_add(1);
    }
}

impl Source for SteadySource {
    ghost state = { λ s. s.state };

    fn read(&mut self, buf: &mut [u8]) -> Result<usize, IoFail>
        ensures reads { Reads self.old.state self.new.state buf.old buf.new result }
        ensures moved { IfOk result (λ n. n ≡ min
            (min (length self.old.state.left) (length buf.old)) self.old.most) }
        ensures never_fails { IsOk result }
        ensures counted { ReadOnce self.old self.new }
    {
        self.calls = self.calls.saturating_add(1);
        Ok(self.opened.read(buf, self.most))
    }
}

/// Bytes in memory that are written without a fault; memory may be refused.
#[derive(Drop)]
pub struct SteadySink {
    bytes: Vec<u8>,
    most: usize,
    refusals: u64,
    calls: u64,
}

impl Model for SteadySink {
    ghost use Rattle.std.specs.Prelude.{◌≤◌, true, []};
    ghost use Rattle.memory_io.specs.InMemory.{SinkInMemory};

    ghost Value = { SinkInMemory };

    ghost view = { λ s. record {
      state = record {
        tells = true;
        written = s.bytes.items;
        faults = 0;
        refusals = s.refusals;
      };
      most = s.most;
      fails = [];
      calls = s.calls;
    } };

    ghost invariant = { λ s. 1 ≤ s.most };
}

impl SteadySink {
    /// An empty sink, to which each write moves at most `most` bytes.
    pub fn new(alloc: Global, most: usize) -> Result<SteadySink, NoMemory>
        requires { 1 ≤ most }
        ensures always { IsOk result }
        ensures fresh { IfOk result (λ s. IsNewSink s.state) }
        ensures made { IfOk result (λ s. (s.most ≡ most) × (s.fails ≡ []) × (s.calls ≡ 0)) }
    {
        Ok(SteadySink {
            bytes: Vec::new(alloc),
            most,
            refusals: 0,
            calls: 0,
        })
    }

    /// What was written.
    pub fn bytes(&self) -> &[u8]
        ensures { result.now ≡ self.now.state.written }
    {
        self.bytes.as_slice()
    }

    /// How often it was written to.
    pub fn calls(&self) -> u64
        ensures { result ≡ self.now.calls }
    {
        self.calls
    }

    // Counts a write.
    pub(crate) fn count_call(&mut self)
        ensures counted { WrittenOnce self.old self.new }
        ensures unwritten { self.new.state ≡ self.old.state }
    {
        self.calls = self.calls.saturating_add(1);
    }
}

impl Sink for SteadySink {
    ghost state = { λ s. s.state };

    fn write(&mut self, piece: &[u8]) -> Result<usize, IoFail>
        ensures writes { Writes self.old.state self.new.state piece.now result }
        ensures moved { IfOk result (λ n. n ≡ min (length piece.now) self.old.most) }
        ensures never_fails { IsErrOf result IoFail.Failed → ⊥ }
        ensures counted { WrittenOnce self.old self.new }
    {
        self.calls = self.calls.saturating_add(1);
        let n = piece.len().min(self.most);
        if self.bytes.extend_from_slice(&piece[..n]).is_err() {
            self.refusals = self.refusals.saturating_add(1);
            return Err(IoFail::NoMemory);
        }
        Ok(n)
    }
}
