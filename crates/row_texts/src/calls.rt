// The calls of a run.
use crate::faults::Fault;
use crate::lines::first_word;
use crate::lists::named;

/// A place of a depot that is read.
#[derive(Clone, Copy, PartialEq, Eq)]
pub enum Slot {
    Docs,
    Freqs,
    Sizes,
    Index,
    Side,
    Map,
}

/// All places of a depot that are read.
pub const SLOTS: [Slot; 6] = [
    Slot::Docs,
    Slot::Freqs,
    Slot::Sizes,
    Slot::Index,
    Slot::Side,
    Slot::Map,
];

// Their names.
const SLOT_NAMES: [(&str, Slot); 6] = [
    ("docs", Slot::Docs),
    ("freqs", Slot::Freqs),
    ("sizes", Slot::Sizes),
    ("index", Slot::Index),
    ("side", Slot::Side),
    ("map", Slot::Map),
];

/// A kind of call, each counted for itself.
#[derive(Clone, Copy, PartialEq, Eq)]
pub enum Call {
    /// A read of the input.
    In,
    /// A write on out.
    Out,
    /// A write on err.
    Err,
    Create,
    Write,
    Finish,
    Start(Slot),
    Read(Slot),
}

// The names of those that are of no slot.
const CALL_NAMES: [(&str, Call); 6] = [
    ("in", Call::In),
    ("out", Call::Out),
    ("err", Call::Err),
    ("create", Call::Create),
    ("write", Call::Write),
    ("finish", Call::Finish),
];

/// Calls that go together.
#[derive(Clone, Copy)]
pub enum Group {
    /// Those that change files.
    Writing,
    /// Those of the input and of out.
    Streams,
    /// Those of out.
    Out,
    /// Those of err.
    Err,
}

impl Call {
    /// Whether it is of a group.
    pub fn is_of(self, group: Group) -> bool {
        match group {
            Group::Writing => matches!(self, Call::Create | Call::Write | Call::Finish),
            Group::Streams => matches!(self, Call::In | Call::Out),
            Group::Out => matches!(self, Call::Out),
            Group::Err => matches!(self, Call::Err),
        }
    }

    /// What tells of it.
    pub fn name(self) -> &'static str {
        match self {
            Call::In => "in",
            Call::Out => "out",
            Call::Err => "err",
            Call::Create => "create",
            Call::Write => "write",
            Call::Finish => "finish",
            Call::Start(slot) => start_name(slot),
            Call::Read(slot) => read_name(slot),
        }
    }
}

fn start_name(slot: Slot) -> &'static str {
    match slot {
        Slot::Docs => "start docs",
        Slot::Freqs => "start freqs",
        Slot::Sizes => "start sizes",
        Slot::Index => "start index",
        Slot::Side => "start side",
        Slot::Map => "start map",
    }
}

fn read_name(slot: Slot) -> &'static str {
    match slot {
        Slot::Docs => "read docs",
        Slot::Freqs => "read freqs",
        Slot::Sizes => "read sizes",
        Slot::Index => "read index",
        Slot::Side => "read side",
        Slot::Map => "read map",
    }
}

// The call that a line begins with, and what is behind it.
pub(crate) fn first_call(line: &str) -> Result<(Call, &str), Fault> {
    let (word, rest) = first_word(line);
    match named(&CALL_NAMES, word) {
        Some(call) => Ok((call, rest)),
        None => slot_call(word, rest),
    }
}

// The call of this word at the slot that a line begins with, and what is behind it.
fn slot_call<'a>(word: &str, line: &'a str) -> Result<(Call, &'a str), Fault> {
    let (slot, rest) = first_slot(line)?;
    match word {
        "start" => Ok((Call::Start(slot), rest)),
        "read" => Ok((Call::Read(slot), rest)),
        _ => Err(Fault::Unread),
    }
}

// The slot that a line begins with, and what is behind it.
pub(crate) fn first_slot(line: &str) -> Result<(Slot, &str), Fault> {
    let (word, rest) = first_word(line);
    match named(&SLOT_NAMES, word) {
        Some(slot) => Ok((slot, rest)),
        None => Err(Fault::Unread),
    }
}
