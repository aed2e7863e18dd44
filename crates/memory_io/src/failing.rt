ghost use Rattle.std.specs.Prelude.{◌≡◌, ◌≤◌, IfOk, IsOk, ◌↔◌, min, length, IsErrOf, Contains};
ghost use Rattle.memory_io.specs.InMemory.{IsNewSource, IsNewSink, ReadOnce, WrittenOnce};
ghost use Rattle.io_traits.specs.SourceState.{Reads};
ghost use Rattle.io_traits.specs.SinkState.{Writes};

use crate::steady::{SteadySink, SteadySource};
use io_traits::{IoFail, Sink, Source};
use no_memory::NoMemory;
use std::alloc::Global;
use std::marker::Model;

/// Bytes in memory, where some reads fail.
#[derive(Drop)]
pub struct MemSource {
    source: SteadySource,
    fails: Vec<u64>,
    faults: u64,
}

impl Model for MemSource {
    ghost use Rattle.memory_io.specs.InMemory.{SourceInMemory};

    ghost Value = { SourceInMemory };

    ghost view = { λ s. record {
      state = record s.source.state { faults = s.faults };
      most = s.source.most;
      fails = s.fails.items;
      calls = s.source.calls;
    } };
}

impl MemSource {
    /// A source of these bytes, of which each read moves at most `most`. The reads with the numbers
    /// `fails` fail, counted from 1.
    pub fn new(bytes: Vec<u8>, most: usize, fails: Vec<u64>) -> MemSource
        requires { 1 ≤ most }
        ensures fresh { IsNewSource bytes.items result.state }
        ensures made { (result.most ≡ most) × (result.fails ≡ fails.items) × (result.calls ≡ 0) }
    {
        MemSource {
            source: SteadySource::new(bytes, most),
            fails,
            faults: 0,
        }
    }

    /// How often it was read.
    pub fn calls(&self) -> u64
        ensures { result ≡ self.now.calls }
    {
        self.source.calls()
    }
}

impl Source for MemSource {
    ghost state = { λ s. s.state };

    fn read(&mut self, buf: &mut [u8]) -> Result<usize, IoFail>
        ensures reads { Reads self.old.state self.new.state buf.old buf.new result }
        ensures moved { IfOk result (λ n. n ≡ min
            (min (length self.old.state.left) (length buf.old)) self.old.most) }
        ensures fails_where_listed { IsErrOf result IoFail.Failed
            ↔ Contains self.old.fails self.new.calls }
        ensures takes_no_memory { IsErrOf result IoFail.NoMemory → ⊥ }
        ensures counted { ReadOnce self.old self.new }
    {
        let number = self.source.calls().saturating_add(1);
        if self.fails.contains(&number) {
            self.source.count_call();
            self.faults = self.faults.saturating_add(1);
            return Err(IoFail::Failed);
        }
        self.source.read(buf)
    }
}

/// Bytes in memory that are written, where some writes fail.
#[derive(Drop)]
pub struct MemSink {
    sink: SteadySink,
    fails: Vec<u64>,
    faults: u64,
}

impl Model for MemSink {
    ghost use Rattle.memory_io.specs.InMemory.{SinkInMemory};

    ghost Value = { SinkInMemory };

    ghost view = { λ s. record {
      state = record s.sink.state { faults = s.faults };
      most = s.sink.most;
      fails = s.fails.items;
      calls = s.sink.calls;
    } };
}

impl MemSink {
    /// An empty sink, to which each write moves at most `most` bytes. The writes with the numbers
    /// `fails` fail, counted from 1.
    pub fn new(alloc: Global, most: usize, fails: Vec<u64>) -> Result<MemSink, NoMemory>
        requires { 1 ≤ most }
        ensures always { IsOk result }
        ensures fresh { IfOk result (λ s. IsNewSink s.state) }
        ensures made { IfOk result (λ s. (s.most ≡ most) × (s.fails ≡ fails.items)
            × (s.calls ≡ 0)) }
    {
        let sink = SteadySink::new(alloc, most)?;
        Ok(MemSink {
            sink,
            fails,
            faults: 0,
        })
    }

    /// What was written.
    pub fn bytes(&self) -> &[u8]
        ensures { result.now ≡ self.now.state.written }
    {
        self.sink.bytes()
    }

    /// How often it was written to.
    pub fn calls(&self) -> u64
        ensures { result ≡ self.now.calls }
    {
        self.sink.calls()
    }
}

impl Sink for MemSink {
    ghost state = { λ s. s.state };

    fn write(&mut self, piece: &[u8]) -> Result<usize, IoFail>
        ensures writes { Writes self.old.state self.new.state piece.now result }
        ensures moved { IfOk result (λ n. n ≡ min (length piece.now) self.old.most) }
        ensures fails_where_listed { IsErrOf result IoFail.Failed
            ↔ Contains self.old.fails self.new.calls }
        ensures counted { WrittenOnce self.old self.new }
    {
        let number = self.sink.calls().saturating_add(1);
        if self.fails.contains(&number) {
            self.sink.count_call();
            self.faults = self.faults.saturating_add(1);
            return Err(IoFail::Failed);
        }
        self.sink.write(piece)
    }
}
