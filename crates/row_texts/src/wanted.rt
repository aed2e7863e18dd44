// What has to stand after a run.
use crate::calls::{Call, Slot, first_call, first_slot};
use crate::faults::Fault;
use crate::files::{Place, collection_of};
use crate::items::{number_of, push_bytes};
use crate::lines::{first_word, words_of};
use crate::lists::{named, value_mut, value_under};
use crate::texts::push_texts;
use std::alloc::Global;

// How a text has to stand on an output.
#[derive(Clone, Copy)]
enum Form {
    Is,
    Front,
    Part,
    InTurn,
    Free,
}

// What a line speaks of.
#[derive(Clone, Copy)]
enum Said {
    Status,
    Out(Form),
    Err(Form),
    InRead,
    Untouched,
    Left,
    LeftCollection,
    LeftInTurn,
    Calls,
    Starts,
}

// The first words of lines of what has to stand.
const LINES: [(&str, Said); 16] = [
    ("status", Said::Status),
    ("out", Said::Out(Form::Is)),
    ("out-front", Said::Out(Form::Front)),
    ("out-in-turn", Said::Out(Form::InTurn)),
    ("out-free", Said::Out(Form::Free)),
    ("err", Said::Err(Form::Is)),
    ("err-front", Said::Err(Form::Front)),
    ("err-part", Said::Err(Form::Part)),
    ("err-free", Said::Err(Form::Free)),
    ("in-read", Said::InRead),
    ("untouched", Said::Untouched),
    ("left", Said::Left),
    ("left-collection", Said::LeftCollection),
    ("left-in-turn", Said::LeftInTurn),
    ("calls", Said::Calls),
    ("starts", Said::Starts),
];

/// What has to stand on an output.
#[derive(Drop)]
pub enum Told {
    /// This text.
    Is(Vec<u8>),
    /// A text that begins so.
    Front(Vec<u8>),
    /// A proper front of this text.
    Part(Vec<u8>),
    /// What is written before the call that fails.
    InTurn,
    /// Anything.
    Free,
}

/// What has to stand under a name.
#[derive(Drop)]
pub enum Left {
    /// These bytes.
    Is(Vec<u8>),
    /// A front of these bytes, or no file.
    Front(Vec<u8>),
    /// A file with these bytes from a word on.
    At(Place, Vec<u8>),
    /// What stood there before the run.
    Same,
    /// What stood under another name before the run.
    Other(String),
    /// No file.
    Absent,
    /// Anything.
    Free,
}

/// What has to stand after a run.
#[derive(Drop)]
pub struct Wanted {
    pub status: u64,
    /// On out; nothing where it is not said.
    pub out: Option<Told>,
    /// On err; nothing where it is not said.
    pub err: Option<Told>,
    /// Files by name; as before the run where nothing is said of one.
    pub left: Vec<(String, Left)>,
    /// The names of files that are written one behind another.
    pub in_turn: Vec<String>,
    /// How often kinds of call are made.
    pub calls: Vec<(Call, u64)>,
    /// The names under which slots are asked to start.
    pub starts: Vec<(Slot, Vec<String>)>,
    /// Whether the input may be read though the run ends with another status than 0.
    pub reads: bool,
    /// Whether there is no call of the depot.
    pub depot_untouched: bool,
    /// Whether there is no call of the input or of out.
    pub streams_untouched: bool,
}

impl Told {
    /// Whether a text is as it has to be; none has to stand where nothing is said.
    pub fn allows(told: Option<&Told>, text: &[u8]) -> bool {
        match told {
            None => text.is_empty(),
            Some(Told::Is(wanted)) => text == wanted.as_slice(),
            Some(Told::Front(wanted)) => text.starts_with(wanted),
            Some(Told::Part(wanted)) => wanted.starts_with(text) && text.len() < wanted.len(),
            Some(Told::InTurn | Told::Free) => true,
        }
    }

    /// How a text has to stand there, and the text.
    pub fn text(told: Option<&Told>) -> (&'static str, &[u8]) {
        match told {
            None | Some(Told::InTurn | Told::Free) => ("", [].as_slice()),
            Some(Told::Is(text)) => ("", text.as_slice()),
            Some(Told::Front(text)) => ("at the front ", text.as_slice()),
            Some(Told::Part(text)) => ("a proper front of ", text.as_slice()),
        }
    }
}

impl Wanted {
    pub fn new(alloc: Global) -> Wanted {
        Wanted {
            status: 0,
            out: None,
            err: None,
            left: Vec::new(alloc),
            in_turn: Vec::new(alloc),
            calls: Vec::new(alloc),
            starts: Vec::new(alloc),
            reads: false,
            depot_untouched: false,
            streams_untouched: false,
        }
    }

    /// Takes a line of what has to stand; no where it is none of these.
    pub fn take(&mut self, alloc: Global, word: &str, line: &str) -> Result<bool, Fault> {
        let Some(said) = named(&LINES, word) else {
            return Ok(false);
        };
        self.take_said(alloc, said, line)?;
        Ok(true)
    }

    // Takes what a line says.
    fn take_said(&mut self, alloc: Global, said: Said, line: &str) -> Result<(), Fault> {
        match said {
            Said::Status => self.take_status(line),
            Said::Out(form) => take_told(alloc, &mut self.out, form, line),
            Said::Err(form) => take_told(alloc, &mut self.err, form, line),
            Said::InRead => self.take_read(),
            Said::Untouched => self.take_untouched(line),
            Said::Left => self.take_left(alloc, line),
            Said::LeftCollection => self.take_collection(alloc, line),
            Said::LeftInTurn => self.take_in_turn(alloc, line),
            Said::Calls => self.take_calls(line),
            Said::Starts => self.take_starts(alloc, line),
        }
    }

    // Takes the status.
    fn take_status(&mut self, line: &str) -> Result<(), Fault> {
        self.status = number_of(line)?;
        Ok(())
    }

    // Takes that the input may be read.
    fn take_read(&mut self) -> Result<(), Fault> {
        self.reads = true;
        Ok(())
    }

    // Takes the names of files that are written one behind another.
    fn take_in_turn(&mut self, alloc: Global, line: &str) -> Result<(), Fault> {
        self.in_turn = words_of(alloc, line)?;
        Ok(())
    }

    // Takes a line `NAME WHAT`. Bytes of a name that has some are added to them.
    fn take_left(&mut self, alloc: Global, line: &str) -> Result<(), Fault> {
        let (name, what) = first_word(line);
        match left_of(alloc, what)? {
            Left::Is(bytes) => self.add_bytes(alloc, name, bytes),
            left => self.add_left(alloc, name, left),
        }
    }

    // Adds bytes to those that have to stand under a name.
    fn add_bytes(&mut self, alloc: Global, name: &str, more: Vec<u8>) -> Result<(), Fault> {
        if let Some(bytes) = bytes_of(&mut self.left, name) {
            bytes.extend_from_slice(&more)?;
            return Ok(());
        }
        self.add_left(alloc, name, Left::Is(more))
    }

    // Adds what has to stand under a name.
    fn add_left(&mut self, alloc: Global, name: &str, left: Left) -> Result<(), Fault> {
        let name = String::from_str(alloc, name)?;
        self.left.push((name, left))?;
        Ok(())
    }

    // Takes a line `CALL NUMBER`.
    fn take_calls(&mut self, line: &str) -> Result<(), Fault> {
        let (call, number) = first_call(line)?;
        self.calls.push((call, number_of(number)?))?;
        Ok(())
    }

    // Takes a line `SLOT NAME..`.
    fn take_starts(&mut self, alloc: Global, line: &str) -> Result<(), Fault> {
        let (slot, names) = first_slot(line)?;
        self.starts.push((slot, words_of(alloc, names)?))?;
        Ok(())
    }

    // Takes what stands behind `untouched`.
    fn take_untouched(&mut self, line: &str) -> Result<(), Fault> {
        match line {
            "" => self.streams_untouched = true,
            "depot" => {}
            _ => return Err(Fault::Unread),
        }
        self.depot_untouched = true;
        Ok(())
    }

    // Takes the three files of a collection: `BASE DOCS ; FREQS ; SIZES`.
    fn take_collection(&mut self, alloc: Global, line: &str) -> Result<(), Fault> {
        for (name, bytes) in collection_of(alloc, line)? {
            self.left.push((name, Left::Is(bytes)))?;
        }
        Ok(())
    }

    /// The bytes that have to stand under a name.
    pub fn bytes_left(&self, name: &str) -> Option<&[u8]> {
        match self.left_under(name)? {
            Left::Is(bytes) => Some(bytes),
            _ => None,
        }
    }

    /// What has to stand under a name.
    pub fn left_under(&self, name: &str) -> Option<&Left> {
        value_under(&self.left, name)
    }

    /// The text that has to stand on out.
    pub fn text_on_out(&self) -> Option<&[u8]> {
        match &self.out {
            Some(Told::Is(text)) => Some(text),
            _ => None,
        }
    }
}

// The bytes that have to stand under a name, to be added to.
fn bytes_of<'a>(left: &'a mut [(String, Left)], name: &str) -> Option<&'a mut Vec<u8>> {
    match value_mut(left, name)? {
        Left::Is(bytes) => Some(bytes),
        _ => None,
    }
}

// What a line says of a file.
fn left_of(alloc: Global, line: &str) -> Result<Left, Fault> {
    match line.trim_end() {
        "absent" => Ok(Left::Absent),
        "same" => Ok(Left::Same),
        "free" => Ok(Left::Free),
        _ => left_bytes(alloc, line),
    }
}

// What a line says of the bytes of a file.
fn left_bytes(alloc: Global, line: &str) -> Result<Left, Fault> {
    let (word, rest) = first_word(line);
    match word {
        "is" => Ok(Left::Other(String::from_str(alloc, rest)?)),
        "front" => Ok(Left::Front(read_bytes(alloc, rest)?)),
        "at" => left_at(alloc, rest),
        _ => Ok(Left::Is(read_bytes(alloc, line)?)),
    }
}

// What a line says of the bytes of a file from a word on: `PLACE BYTES`.
fn left_at(alloc: Global, line: &str) -> Result<Left, Fault> {
    let (place, bytes) = first_word(line);
    Ok(Left::At(Place::read(place)?, read_bytes(alloc, bytes)?))
}

fn read_bytes(alloc: Global, line: &str) -> Result<Vec<u8>, Fault> {
    let mut bytes = Vec::new(alloc);
    push_bytes(&mut bytes, line)?;
    Ok(bytes)
}

fn text_of(alloc: Global, line: &str) -> Result<Vec<u8>, Fault> {
    let mut bytes = Vec::new(alloc);
    push_texts(&mut bytes, line)?;
    Ok(bytes)
}

// Takes what a line says of an output; a whole text is added to that which stands there.
fn take_told(alloc: Global, told: &mut Option<Told>, form: Form, line: &str) -> Result<(), Fault> {
    if let (Form::Is, Some(Told::Is(bytes))) = (form, &mut *told) {
        return push_texts(bytes, line);
    }
    *told = Some(told_of(alloc, form, line)?);
    Ok(())
}

// What a line says of an output.
fn told_of(alloc: Global, form: Form, line: &str) -> Result<Told, Fault> {
    match form {
        Form::Is => Ok(Told::Is(text_of(alloc, line)?)),
        Form::Front => Ok(Told::Front(text_of(alloc, line)?)),
        Form::Part => Ok(Told::Part(text_of(alloc, line)?)),
        Form::InTurn => Ok(Told::InTurn),
        Form::Free => Ok(Told::Free),
    }
}
