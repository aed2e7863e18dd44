// What a run is given.
use crate::calls::{Call, Group, first_call};
use crate::faults::Fault;
use crate::items::number_of;
use crate::texts::push_texts;
use crate::turns::{Damages, Each};
use std::alloc::Global;
use std::mem;

/// The words of a run, the program's name first.
pub type Words = Vec<String>;

/// What the runs of a line are given, of which the last is compared.
#[derive(Drop)]
pub struct Given {
    /// The words of the runs before the last.
    pub earlier: Vec<Words>,
    /// The words of the last.
    pub words: Words,
    /// How many bytes a call moves at most.
    pub most: usize,
    pub text: Vec<u8>,
    /// The calls that fail.
    pub fails: Vec<(Call, u64)>,
    /// The kinds of call of which each fails in turn.
    pub turns: Vec<Each>,
    /// The files that are changed in turn.
    pub damages: Vec<Damages>,
}

impl Given {
    /// Runs of the words of a line, `;` between two runs.
    pub fn read(alloc: Global, line: &str, most: usize) -> Result<Given, Fault> {
        let mut given = Given::nothing(alloc, most);
        given.words = program_name(alloc)?;
        for word in line.split_whitespace() {
            given.add_word(alloc, word)?;
        }
        Ok(given)
    }

    // Adds a word, or begins another run.
    fn add_word(&mut self, alloc: Global, word: &str) -> Result<(), Fault> {
        if word == ";" {
            let words = mem::replace(&mut self.words, program_name(alloc)?);
            self.earlier.push(words)?;
            return Ok(());
        }
        let word = if word == "\"\"" { "" } else { word };
        self.words.push(String::from_str(alloc, word)?)?;
        Ok(())
    }

    /// A run of no word at all.
    pub fn nothing(alloc: Global, most: usize) -> Given {
        Given {
            earlier: Vec::new(alloc),
            words: Vec::new(alloc),
            most,
            text: Vec::new(alloc),
            fails: Vec::new(alloc),
            turns: Vec::new(alloc),
            damages: Vec::new(alloc),
        }
    }

    /// Takes a line of what is given; no where it is none of these.
    pub fn take(&mut self, alloc: Global, word: &str, line: &str) -> Result<bool, Fault> {
        let taken = match word {
            "in" => push_texts(&mut self.text, line),
            "fail" => self.take_fails(line),
            "each" => self.take_each(line),
            "cut-each" => self.take_damages(Damages::read_cuts(alloc, line)),
            "flip" => self.take_damages(Damages::read_flips(alloc, line)),
            _ => return Ok(false),
        };
        taken?;
        Ok(true)
    }

    // Takes the calls of a kind that fail in turn.
    fn take_each(&mut self, line: &str) -> Result<(), Fault> {
        self.turns.push(Each::read(line)?)?;
        Ok(())
    }

    // Takes a file that is changed in turn.
    fn take_damages(&mut self, damages: Result<Damages, Fault>) -> Result<(), Fault> {
        self.damages.push(damages?)?;
        Ok(())
    }

    /// Whether a call of a group is to fail.
    pub fn fails_at(&self, group: Group) -> bool {
        for (call, _) in &self.fails {
            if call.is_of(group) {
                return true;
            }
        }
        for each in &self.turns {
            if each.call.is_of(group) {
                return true;
            }
        }
        false
    }

    /// Whether calls fail in turn, all of a group.
    pub fn fails_in_turn(&self, group: Group) -> bool {
        for each in &self.turns {
            if !each.call.is_of(group) {
                return false;
            }
        }
        !self.turns.is_empty()
    }

    /// Whether calls fail in turn until a run makes no such call.
    pub fn ends_whole(&self) -> bool {
        for each in &self.turns {
            if each.to.is_none() {
                return true;
            }
        }
        false
    }

    // Takes the calls that fail: `CALL NUMBER..`.
    fn take_fails(&mut self, line: &str) -> Result<(), Fault> {
        let (call, numbers) = first_call(line)?;
        for number in numbers.split_whitespace() {
            self.fails.push((call, number_of(number)?))?;
        }
        Ok(())
    }
}

// The program's name as the only word.
fn program_name(alloc: Global) -> Result<Words, Fault> {
    let mut words = Vec::new(alloc);
    words.push(String::from_str(alloc, "pefidx")?)?;
    Ok(words)
}
