// One run over objects in memory.
use io_traits::Slot as Place;
use memory_io::{MemDepot, MemSink, MemSource, Op};
use row_texts::{Call, Fault, Files, Given, Slot};
use std::alloc::Global;

/// A program whose runs are made.
pub trait Program {
    /// A run of these words, the program's name first, over objects in memory.
    fn run(alloc: Global, words: &[String], objects: Objects) -> Outcome;
}

/// What a run works on.
#[derive(Drop)]
pub struct Objects {
    pub depot: MemDepot,
    pub input: MemSource,
    pub out: MemSink,
    pub err: MemSink,
}

/// What stands after a run.
#[derive(Drop)]
pub struct Outcome {
    /// The number with which the process ends.
    pub status: u8,
    pub objects: Objects,
}

impl Outcome {
    // How often this kind of call was made.
    pub(crate) fn calls(&self, call: Call) -> u64 {
        match op_of(call) {
            Some(op) => self.objects.depot.calls(op),
            None => self.stream_calls(call),
        }
    }

    // How often this kind of call of the input, of out or of err was made.
    fn stream_calls(&self, call: Call) -> u64 {
        match call {
            Call::In => self.objects.input.calls(),
            Call::Out => self.objects.out.calls(),
            _ => self.objects.err.calls(),
        }
    }

    // Whether it ended with 0 and nothing on err.
    pub(crate) fn is_done(&self) -> bool {
        self.status == 0 && self.objects.err.bytes().is_empty()
    }

    // The names under which a slot was asked to start.
    pub(crate) fn names(&self, slot: Slot) -> Option<&[String]> {
        self.objects.depot.names(place_of(slot))
    }
}

// The place of a depot that a table names.
fn place_of(slot: Slot) -> Place {
    match slot {
        Slot::Docs => Place::Docs,
        Slot::Freqs => Place::Freqs,
        Slot::Sizes => Place::Sizes,
        Slot::Index => Place::Index,
        Slot::Side => Place::Side,
        Slot::Map => Place::Map,
    }
}

// What a call does to a depot, none where it is of the input, of out or of err.
fn op_of(call: Call) -> Option<Op> {
    match call {
        Call::In | Call::Out | Call::Err => None,
        Call::Create => Some(Op::Create),
        Call::Write => Some(Op::Write),
        Call::Finish => Some(Op::Finish),
        Call::Start(slot) => Some(Op::Start(place_of(slot))),
        Call::Read(slot) => Some(Op::Read(place_of(slot))),
    }
}

// The calls that fail, by their numbers.
#[derive(Drop)]
pub(crate) struct Fails {
    depot: Vec<(Op, u64)>,
    reads: Vec<u64>,
    writes: Vec<u64>,
    tells: Vec<u64>,
}

impl Fails {
    // No call fails.
    pub(crate) fn none(alloc: Global) -> Fails {
        Fails {
            depot: Vec::new(alloc),
            reads: Vec::new(alloc),
            writes: Vec::new(alloc),
            tells: Vec::new(alloc),
        }
    }

    // Those of what is given, and one more.
    pub(crate) fn of(
        alloc: Global,
        given: &Given,
        failing: Option<(Call, u64)>,
    ) -> Result<Fails, Fault> {
        let mut fails = Fails::none(alloc);
        fails.add_all(&given.fails)?;
        if let Some((call, number)) = failing {
            fails.add(call, number)?;
        }
        Ok(fails)
    }

    fn add_all(&mut self, calls: &[(Call, u64)]) -> Result<(), Fault> {
        for (call, number) in calls {
            self.add(*call, *number)?;
        }
        Ok(())
    }

    fn add(&mut self, call: Call, number: u64) -> Result<(), Fault> {
        let Some(op) = op_of(call) else {
            self.of_stream(call).push(number)?;
            return Ok(());
        };
        self.depot.push((op, number))?;
        Ok(())
    }

    // The numbers of the calls of the input, of out or of err that fail.
    fn of_stream(&mut self, call: Call) -> &mut Vec<u64> {
        match call {
            Call::In => &mut self.reads,
            Call::Out => &mut self.writes,
            _ => &mut self.tells,
        }
    }

    // Objects that hold these files and the text of what is given, of which these calls fail.
    pub(crate) fn objects(
        self,
        alloc: Global,
        files: Files,
        given: &Given,
    ) -> Result<Objects, Fault> {
        let most = given.most.max(1);
        Ok(Objects {
            depot: MemDepot::new(alloc, files.into_list(), most, self.depot)?,
            input: MemSource::new(Vec::from_slice(alloc, &given.text)?, most, self.reads),
            out: MemSink::new(alloc, most, self.writes)?,
            err: MemSink::new(alloc, most, self.tells)?,
        })
    }
}
