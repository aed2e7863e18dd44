ghost use Rattle.std.specs.Prelude.{◌≡◌, Err};
ghost use Rattle.outcomes.specs.Outcome.{status_of};
ghost use Rattle.outcomes.specs.Stops.{at_segment, outcome_by, stop_of_answering, stop_of_file, stop_of_loading, stop_of_printing, stop_of_writing};

use crate::status::Status;
use block_max::SideFault;
use collection_reader::Fault;
use command_line::WordsError;
use index_building::BuildError;
use index_file::{FinishError, OpenFault};
use io_traits::{IoFail, Slot};
use no_memory::NoMemory;
use remap::MapFault;
use remapped_files::{FileFail, ImageError};
use segments::SegRule;
use std::alloc::{AllocError, AllocFailed};
use text_replies::RunFault;
use word_files::LoadWordsError;

/// Why a run ended before all was done.
#[derive(Clone, Copy, Debug, PartialEq, Eq)]
pub enum Stop {
    /// The words are no command.
    Usage,
    /// The files of the collection break a rule.
    BrokenCollection(Fault),
    /// The file is no index.
    BrokenIndex(OpenFault),
    /// The file is no side file of the index.
    BrokenSide(SideFault),
    /// The file is no order of the documents.
    BrokenMap(MapFault),
    /// The file of this segment, counted from 0, is no index.
    BrokenSegment(OpenFault, u64),
    /// The index of this segment, counted from 0, cannot be joined to those before it.
    UnfitSegment(SegRule, u64),
    /// A start or a read of this file failed.
    FileFault(Slot),
    /// A read of the input failed.
    InputFault,
    /// A create, a write or a finish of this file failed.
    WriteFault(Slot),
    /// A write on out failed.
    OutFault,
    /// Memory was refused.
    NoMemory,
    /// This file would be, or is, larger than its limit: an index has at most 2^37 words.
    TooLarge(Slot),
    /// The query text is longer than the limit.
    InputTooLarge,
}

impl Stop {
    /// The status of a run that stopped so.
    pub fn status(self) -> Status
        ensures { result ≡ status_of (Err self) }
    {
        match self {
            Stop::Usage => Status::Usage,
            Stop::BrokenCollection(_) => Status::Collection,
            Stop::BrokenIndex(_) | Stop::BrokenSegment(..) => Status::Index,
            Stop::BrokenSide(_) => Status::Side,
            Stop::BrokenMap(_) => Status::Map,
            Stop::UnfitSegment(..) => Status::Segments,
            Stop::FileFault(_) | Stop::InputFault => Status::Read,
            Stop::WriteFault(_) | Stop::OutFault => Status::Write,
            Stop::NoMemory => Status::NoMemory,
            Stop::TooLarge(_) | Stop::InputTooLarge => Status::TooLarge,
        }
    }

    /// This stop where the index that was refused is segment s.
    pub fn at_segment(self, s: u64) -> Stop
        ensures { result ≡ at_segment s self }
    {
        match self {
            Stop::BrokenIndex(fault) => Stop::BrokenSegment(fault, s),
            other => other,
        }
    }
}

impl From<WordsError> for Stop {
    ghost use Rattle.outcomes.specs.Stops.{stop_of_words};

    ghost from_gives = { λ e stop. stop ≡ stop_of_words e };

    fn from(e: WordsError) -> Stop {
        match e {
            WordsError::Usage => Stop::Usage,
            WordsError::NoMemory => Stop::NoMemory,
        }
    }
}

impl From<AllocError> for Stop {
    ghost use Rattle.outcomes.specs.declared.stop.Stop.TheVariants as stop;

    ghost from_gives = { λ _ answer. answer ≡ stop.NoMemory };

    fn from(_refused: AllocError) -> Stop {
        Stop::NoMemory
    }
}

impl<T: Drop> From<AllocFailed<T>> for Stop {
    ghost use Rattle.outcomes.specs.declared.stop.Stop.TheVariants as stop;

    ghost from_gives = { λ _ answer. answer ≡ stop.NoMemory };

    fn from(_refused: AllocFailed<T>) -> Stop {
        Stop::NoMemory
    }
}

impl From<BuildError> for Stop {
    ghost use Rattle.outcomes.specs.Stops.{stop_of_building};

    ghost from_gives = { λ e stop. stop ≡ stop_of_building e };

    fn from(e: BuildError) -> Stop {
        match e {
            BuildError::Broken(fault) => Stop::BrokenCollection(fault),
            BuildError::Read(slot) => Stop::FileFault(slot),
            BuildError::TooLarge(_) => Stop::TooLarge(Slot::Index),
            BuildError::NoMemory => Stop::NoMemory,
        }
    }
}

impl From<FinishError> for Stop {
    ghost use Rattle.outcomes.specs.Stops.{stop_of_making};

    ghost from_gives = { λ e stop. stop ≡ stop_of_making e };

    fn from(e: FinishError) -> Stop {
        match e {
            FinishError::TooLarge(_) => Stop::TooLarge(Slot::Index),
            FinishError::NoMemory => Stop::NoMemory,
        }
    }
}

impl From<NoMemory> for Stop {
    ghost use Rattle.outcomes.specs.declared.stop.Stop.TheVariants as stop;

    ghost from_gives = { λ e answer. answer ≡ stop.NoMemory };

    fn from(_e: NoMemory) -> Stop {
        Stop::NoMemory
    }
}

impl From<OpenFault> for Stop {
    ghost use Rattle.outcomes.specs.declared.stop.Stop.TheVariants as stop;

    ghost from_gives = { λ e answer. answer ≡ stop.BrokenIndex e };

    fn from(e: OpenFault) -> Stop {
        Stop::BrokenIndex(e)
    }
}

impl From<SideFault> for Stop {
    ghost use Rattle.outcomes.specs.declared.stop.Stop.TheVariants as stop;

    ghost from_gives = { λ e answer. answer ≡ stop.BrokenSide e };

    fn from(e: SideFault) -> Stop {
        Stop::BrokenSide(e)
    }
}

/// Where a run stops that could not load the words of the file of this slot: at `ragged` where they
/// are no whole words.
pub fn stop_of_loading(slot: Slot, ragged: Stop, error: LoadWordsError) -> Stop
    ensures { result ≡ stop_of_loading slot ragged error }
{
    match error {
        LoadWordsError::Ragged => ragged,
        LoadWordsError::Read => Stop::FileFault(slot),
        LoadWordsError::TooLarge => Stop::TooLarge(slot),
        LoadWordsError::NoMemory => Stop::NoMemory,
    }
}

impl From<ImageError> for Stop {
    ghost use Rattle.outcomes.specs.Stops.{stop_of_image};

    ghost from_gives = { λ e stop. stop ≡ stop_of_image e };

    fn from(e: ImageError) -> Stop {
        match e {
            ImageError::Broken(fault) => Stop::BrokenCollection(fault),
            ImageError::BrokenMap(fault) => Stop::BrokenMap(fault),
            ImageError::Read(slot) => Stop::FileFault(slot),
            ImageError::NoMemory => Stop::NoMemory,
        }
    }
}

// Where a run stops that could not write the file of this slot.
fn stop_of_writing(slot: Slot, fail: IoFail) -> Stop
    ensures { result ≡ stop_of_writing slot fail }
{
    match fail {
        IoFail::Failed => Stop::WriteFault(slot),
        IoFail::NoMemory => Stop::NoMemory,
    }
}

/// The outcome of a run that wrote the file of this slot, or stopped at that.
pub fn after_writing(slot: Slot, written: Result<(), IoFail>) -> Result<(), Stop>
    ensures { result ≡ outcome_by (stop_of_writing slot) written }
{
    written.map_err(|fail| stop_of_writing(slot, fail))
}

/// The outcome of a run that printed a text, or stopped at that.
pub fn after_printing(printed: Result<(), IoFail>) -> Result<(), Stop>
    ensures { result ≡ outcome_by stop_of_printing printed }
{
    match printed {
        Ok(()) => Ok(()),
        Err(IoFail::Failed) => Err(Stop::OutFault),
        Err(IoFail::NoMemory) => Err(Stop::NoMemory),
    }
}

/// The outcome of a run that answered a text, or stopped at that.
pub fn after_answering(answered: Result<(), RunFault>) -> Result<(), Stop>
    ensures { result ≡ outcome_by stop_of_answering answered }
{
    match answered {
        Ok(()) => Ok(()),
        Err(RunFault::Read) => Err(Stop::InputFault),
        Err(RunFault::Write) => Err(Stop::OutFault),
        Err(RunFault::TooLarge) => Err(Stop::InputTooLarge),
        Err(RunFault::NoMemory) => Err(Stop::NoMemory),
    }
}

/// The outcome of a run that wrote the files of a collection, or stopped at one.
pub fn after_writing_files(written: Result<(), FileFail>) -> Result<(), Stop>
    ensures { result ≡ outcome_by stop_of_file written }
{
    written.map_err(|e| stop_of_writing(e.slot, e.fail))
}
