ghost use Rattle.std.specs.Prelude.{◌≡◌, ◌≤◌, ◌<◌, false, [], None, is_some, IsTrue, IfSome, IfNone, IfOk, OnOk, OnErr, IsErrOf, length, take, option_and_then};
ghost use Rattle.std.specs.Io.KnownBytes.{Appends, ReadConsumes};
ghost use Rattle.io_traits.specs.SourceState.{SourceState, Reads};
ghost use Rattle.io_traits.specs.SinkState.{SinkState, Writes};
ghost use Rattle.io_traits.specs.DepotState.{DepotState, Creates, Finishes, ReadsSlot, Starts, WritesFile};
ghost use Rattle.system_io.specs.Standard.{AppendsSome, IsUntouched, SameBut};
ghost use Rattle.io_traits.specs.PerSlot.{at_slot};
ghost use Rattle.system_io.specs.Known.{IsOneMore};

use crate::names::found_at;
use crate::replaced::Replacement;
use crate::started::{FileId, Started};
use io_traits::{Depot, IoFail, PerSlot, Sink, Slot, Source};
use std::fs::OpenFile;
use std::io::{ErrorKind, Read, Write};
use std::rt::Files;
use std::{fs, io};

/// A reader of the system, as standard input. Any error of a read is a fault, also an interruption.
#[derive(Drop)]
pub struct StdSource<R> {
    reader: R,
    faults: u64,
}

impl<R: Read> StdSource<R> {
    /// A source of what this reader gives from here on.
    pub fn new(reader: R) -> StdSource<R>
        ensures none_failed { (⟦<StdSource<R> as Source>⟧.state result).faults ≡ 0 }
        ensures unread { result.reader ≡ reader }
    {
        StdSource { reader, faults: 0 }
    }
}

impl<R: Read> Source for StdSource<R> {
    ghost state = { λ s. record { tells = false; left = []; faults = s.faults } };

    fn read(&mut self, buf: &mut [u8]) -> Result<usize, IoFail>
        ensures reads { Reads (⟦<StdSource<R> as Source>⟧.state self.old)
            (⟦<StdSource<R> as Source>⟧.state self.new) buf.old buf.new result }
        ensures given { ReadConsumes (R.remaining self.old.reader) (R.remaining self.new.reader)
            result buf.new }
        ensures takes_no_memory { IsErrOf result IoFail.NoMemory → ⊥ }
    {
        if let Ok(n) = self.reader.read(buf) {
            return Ok(n);
        }
        self.faults = self.faults.saturating_add(1);
        Err(IoFail::Failed)
    }
}

/// A writer of the system, as standard output. Each write is flushed; any error is a fault, also an
/// interruption, and so is a write that takes nothing of a piece. After a fault any prefix of the
/// piece may have been written, since a flush may fail behind it.
#[derive(Drop)]
pub struct StdSink<W> {
    writer: W,
    faults: u64,
}

impl<W: Write> StdSink<W> {
    /// A sink behind what this writer was given before.
    pub fn new(writer: W) -> StdSink<W>
        ensures none_failed { (⟦<StdSink<W> as Sink>⟧.state result).faults ≡ 0 }
        ensures unwritten { result.writer ≡ writer }
    {
        StdSink { writer, faults: 0 }
    }
}

impl<W: Write> Sink for StdSink<W> {
    ghost state = { λ s. record { tells = false; written = []; faults = s.faults; refusals = 0 } };

    fn write(&mut self, piece: &[u8]) -> Result<usize, IoFail>
        ensures writes { Writes (⟦<StdSink<W> as Sink>⟧.state self.old)
            (⟦<StdSink<W> as Sink>⟧.state self.new) piece.now result }
        ensures taken { IfOk result (λ n. Appends (W.contents self.old.writer)
            (W.contents self.new.writer) (take n piece.now)) }
        ensures failed { OnErr result (AppendsSome (W.contents self.old.writer)
            (W.contents self.new.writer) piece.now) }
        ensures takes_no_memory { IsErrOf result IoFail.NoMemory → ⊥ }
    {
        if let Some(n) = write_some(&mut self.writer, piece) {
            return Ok(n);
        }
        self.faults = self.faults.saturating_add(1);
        Err(IoFail::Failed)
    }
}

// Writes and flushes a prefix of a piece, at least one byte of one that has any. Where that fails,
// any prefix of it may have been written.
pub(crate) fn write_some<W: Write>(writer: &mut W, piece: &[u8]) -> Option<usize>
    ensures within { IfSome result (λ n. n ≤ length piece.now) }
    ensures not_nothing { 0 < length piece.now → IfSome result (λ n. 0 < n) }
    ensures taken { IfSome result (λ n. Appends (W.contents writer.old) (W.contents writer.new)
        (take n piece.now)) }
    ensures failed { IfNone result (AppendsSome (W.contents writer.old) (W.contents writer.new)
        piece.now) }
{
    let n = writer.write(piece).ok()?;
    if n == 0 && !piece.is_empty() {
        return None;
    }
    writer.flush().ok()?;
    Some(n)
}

// What is created and not finished, and which file of the system stood under its name.
#[derive(Drop)]
enum Created<R: Files> {
    /// A device, a pipe or the like, which is written where it is.
    InPlace(R::File, FileId),
    /// A file that takes the place of the one of its name, if there is one, when it is finished.
    Beside(Replacement<R>, Option<FileId>),
}

impl<R: Files + AllocGlobal> Created<R> {
    ghost use Rattle.system_io.specs.Created.{file_of, IsBesideTarget, Spares, StaysCreated};

    // Creates what stands under the name, unless it leads to a file that was started.
    fn begin(rt: &R, started: &Started, name: &str) -> io::Result<Created<R>>
        ensures beside { IfOk result IsBesideTarget }
        ensures spares { IfOk result (λ made. Spares made started.now.files.items) }
    {
        let Some(found) = found_at(rt, name)? else {
            return Ok(Created::Beside(Replacement::begin(rt, name, None)?, None));
        };
        let file = FileId::of(&found);
        if started.has(file) {
            return Err(ErrorKind::ResourceBusy.into());
        }
        if !found.is_file() {
            let device = fs::create(rt, name)?;
            return Ok(Created::InPlace(device.try_clone()?, file));
        }
        let replacement = Replacement::begin(rt, name, Some(&found))?;
        Ok(Created::Beside(replacement, Some(file)))
    }

    fn write(&mut self, piece: &[u8]) -> Option<usize>
        ensures within { IfSome result (λ n. n ≤ length piece.now) }
        ensures not_nothing { 0 < length piece.now → IfSome result (λ n. 0 < n) }
        ensures taken { IfSome result (λ n. Appends
            (⟦<R::File as Write>⟧.contents (file_of self.old))
            (⟦<R::File as Write>⟧.contents (file_of self.new)) (take n piece.now)) }
        ensures failed { IfNone result (AppendsSome
            (⟦<R::File as Write>⟧.contents (file_of self.old))
            (⟦<R::File as Write>⟧.contents (file_of self.new)) piece.now) }
        ensures stays { StaysCreated self.old self.new }
    {
        match self {
            Created::InPlace(file, _) => write_some(file, piece),
            Created::Beside(replacement, _) => replacement.write(piece),
        }
    }

    fn finish(&self, rt: &R) -> io::Result<()> {
        match self {
            Created::InPlace(..) => Ok(()),
            Created::Beside(replacement, _) => replacement.finish(rt),
        }
    }

    fn discard(self, rt: &R) {
        if let Created::Beside(replacement, _) = self {
            replacement.discard(rt);
        }
    }
}

/// The files of the system. A name that has no file is a fault of `start`.
///
/// A file that is created replaces the one of its name whole when it is finished, and not before:
/// until then it is written beside it, under a name of its own, and is removed again where the
/// depot is dropped first. A symbolic link is followed, and stays. A device or a pipe is written
/// where it is. A name that leads to a file that was started is a fault of `create`: which files
/// were started is never forgotten.
pub struct StdDepot<R: Files + AllocGlobal> {
    rt: R,
    opened: PerSlot<Option<R::File>>,
    known: Started,
    created: Option<Created<R>>,
    starts: PerSlot<u64>,
    faults: PerSlot<u64>,
    writing_faults: u64,
    create_faults: u64,
    finish_faults: u64,
    refusals: u64,
}

impl<R: Files + AllocGlobal> StdDepot<R> {
    pub fn new(rt: R) -> StdDepot<R>
        ensures { IsUntouched (⟦<StdDepot<R> as Depot>⟧.state result) }
    {
        let known = Started::new(rt.alloc());
        StdDepot {
            rt,
            opened: PerSlot {
                docs: None,
                freqs: None,
                sizes: None,
                index: None,
                side: None,
                map: None,
            },
            known,
            created: None,
            starts: PerSlot::all(0),
            faults: PerSlot::all(0),
            writing_faults: 0,
            create_faults: 0,
            finish_faults: 0,
            refusals: 0,
        }
    }
}

impl<R: Files + AllocGlobal + Drop> Drop for StdDepot<R> {
    fn drop(self) {
        let StdDepot {
            rt,
            opened: _,
            known: _,
            created,
            starts: _,
            faults: _,
            writing_faults: _,
            create_faults: _,
            finish_faults: _,
            refusals: _,
        } = self;
        discard(&rt, created);
    }
}

// Removes what is created and not finished.
fn discard<R: Files + AllocGlobal>(rt: &R, created: Option<Created<R>>) {
    if let Some(created) = created {
        created.discard(rt);
    }
}

// Opens the file of this name, and notes which it is. Its descriptor is none of the three of the
// standard streams, one of which may have been closed when the program started.
fn open_file<R: Files>(rt: &R, known: &mut Started, name: &str) -> io::Result<R::File>
    ensures remembered { OnOk result (IsOneMore known.old.files.items known.new.files.items) }
    ensures unchanged { OnErr result (known.new.files.items ≡ known.old.files.items) }
{
    let file = fs::open(rt, name)?.try_clone()?;
    known.add(FileId::of(&file.metadata()?))?;
    Ok(file)
}

impl<R: Files + AllocGlobal> Depot for StdDepot<R> {
    ghost use Rattle.system_io.specs.Created.{file_of, Spares, StaysCreated};

    ghost state = { λ d. record {
      tells = false;
      file = λ _. None;
      left = λ _. [];
      name = [];
      started = λ slot. is_some (at_slot d.opened slot);
      created = is_some d.created;
      faults = λ slot. at_slot d.faults slot;
      writing_faults = d.writing_faults;
      create_faults = d.create_faults;
      finish_faults = d.finish_faults;
      starts = λ slot. record { count = at_slot d.starts slot; told = false; names = [] };
      refusals = d.refusals;
    } };

    fn start(&mut self, slot: Slot, name: &str) -> Result<(), IoFail>
        ensures starts { Starts (⟦<StdDepot<R> as Depot>⟧.state self.old)
            (⟦<StdDepot<R> as Depot>⟧.state self.new) slot name.now result }
        ensures remembers { OnOk result (IsOneMore self.old.known.files.items
            self.new.known.files.items) }
        ensures forgets_none { OnErr result (self.new.known.files.items
            ≡ self.old.known.files.items) }
        ensures others { SameBut slot self.old.opened self.new.opened }
        ensures kept { OnErr result (self.new.opened ≡ self.old.opened) }
        ensures created { self.new.created ≡ self.old.created }
    {
        self.starts.raise(slot);
        match open_file(&self.rt, &mut self.known, name) {
            Ok(file) => {
                *self.opened.get_mut(slot) = Some(file);
                Ok(())
            }
            Err(e) if e.kind() == ErrorKind::OutOfMemory => {
                self.refusals = self.refusals.saturating_add(1);
                Err(IoFail::NoMemory)
            }
            Err(_) => {
                self.faults.raise(slot);
                Err(IoFail::Failed)
            }
        }
    }

    fn read(&mut self, slot: Slot, buf: &mut [u8]) -> Result<usize, IoFail>
        requires { IsTrue ((⟦<StdDepot<R> as Depot>⟧.state self.old).started slot) }
        ensures reads { ReadsSlot (⟦<StdDepot<R> as Depot>⟧.state self.old)
            (⟦<StdDepot<R> as Depot>⟧.state self.new) slot buf.old buf.new result }
        ensures given { ReadConsumes (option_and_then ⟦<R::File as Read>⟧.remaining
            (at_slot self.old.opened slot)) (option_and_then ⟦<R::File as Read>⟧.remaining
            (at_slot self.new.opened slot)) result buf.new }
        ensures takes_no_memory { IsErrOf result IoFail.NoMemory → ⊥ }
        ensures forgets_none { self.new.known.files.items ≡ self.old.known.files.items }
        ensures others { SameBut slot self.old.opened self.new.opened }
        ensures created { self.new.created ≡ self.old.created }
    {
        let Some(file) = self.opened.get_mut(slot) else {
            unreachable!()
        };
        if let Ok(n) = file.read(buf) {
            return Ok(n);
        }
        self.faults.raise(slot);
        Err(IoFail::Failed)
    }

    fn create(&mut self, name: &str) -> Result<(), IoFail>
        ensures creates { Creates (⟦<StdDepot<R> as Depot>⟧.state self.old)
            (⟦<StdDepot<R> as Depot>⟧.state self.new) name.now result }
        ensures spares { OnOk result (IfSome self.new.created
            (λ made. Spares made self.old.known.files.items)) }
        ensures forgets_none { self.new.known.files.items ≡ self.old.known.files.items }
        ensures opened { self.new.opened ≡ self.old.opened }
        ensures kept { OnErr result (self.new.created ≡ self.old.created) }
    {
        match Created::begin(&self.rt, &self.known, name) {
            Ok(created) => {
                let before = self.created.replace(created);
                discard(&self.rt, before);
                Ok(())
            }
            Err(e) if e.kind() == ErrorKind::OutOfMemory => {
                self.refusals = self.refusals.saturating_add(1);
                Err(IoFail::NoMemory)
            }
            Err(_) => {
                self.writing_faults = self.writing_faults.saturating_add(1);
                self.create_faults = self.create_faults.saturating_add(1);
                Err(IoFail::Failed)
            }
        }
    }

    fn write(&mut self, piece: &[u8]) -> Result<usize, IoFail>
        requires { IsTrue (⟦<StdDepot<R> as Depot>⟧.state self.old).created }
        ensures writes { WritesFile (⟦<StdDepot<R> as Depot>⟧.state self.old)
            (⟦<StdDepot<R> as Depot>⟧.state self.new) piece.now result }
        ensures taken { IfOk result (λ n. Appends
            (option_and_then (λ c. ⟦<R::File as Write>⟧.contents (file_of c)) self.old.created)
            (option_and_then (λ c. ⟦<R::File as Write>⟧.contents (file_of c)) self.new.created)
            (take n piece.now)) }
        ensures failed { OnErr result (AppendsSome
            (option_and_then (λ c. ⟦<R::File as Write>⟧.contents (file_of c)) self.old.created)
            (option_and_then (λ c. ⟦<R::File as Write>⟧.contents (file_of c)) self.new.created)
            piece.now) }
        ensures stays { IfSome self.old.created (λ old. IfSome self.new.created
            (λ new. StaysCreated old new)) }
        ensures takes_no_memory { IsErrOf result IoFail.NoMemory → ⊥ }
        ensures forgets_none { self.new.known.files.items ≡ self.old.known.files.items }
        ensures opened { self.new.opened ≡ self.old.opened }
    {
        let Some(created) = &mut self.created else {
            unreachable!()
        };
        if let Some(n) = created.write(piece) {
            return Ok(n);
        }
        self.writing_faults = self.writing_faults.saturating_add(1);
        Err(IoFail::Failed)
    }

    fn finish(&mut self) -> Result<(), IoFail>
        requires { IsTrue (⟦<StdDepot<R> as Depot>⟧.state self.old).created }
        ensures finishes { Finishes (⟦<StdDepot<R> as Depot>⟧.state self.old)
            (⟦<StdDepot<R> as Depot>⟧.state self.new) result }
        ensures takes_no_memory { IsErrOf result IoFail.NoMemory → ⊥ }
        ensures forgets_none { self.new.known.files.items ≡ self.old.known.files.items }
        ensures opened { self.new.opened ≡ self.old.opened }
        ensures kept { OnErr result (self.new.created ≡ self.old.created) }
    {
        let Some(created) = &self.created else {
            unreachable!()
        };
        if created.finish(&self.rt).is_ok() {
            self.created = None;
            return Ok(());
        }
        self.writing_faults = self.writing_faults.saturating_add(1);
        self.finish_faults = self.finish_faults.saturating_add(1);
        Err(IoFail::Failed)
    }
}
