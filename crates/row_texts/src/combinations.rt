// Rows that are made for each combination of values.
use crate::faults::Fault;
use crate::heads::Head;
use crate::lines::first_word;
use crate::names::Names;
use std::alloc::Global;

// Names, and the values that they have in turn, in which names are not replaced.
#[derive(Drop)]
pub(crate) struct Loop {
    /// The names, a space between two.
    names: String,
    /// A line of values for each turn, `|` between two.
    lines: Vec<String>,
}

/// The lines `for` at the head of a row.
#[derive(Drop)]
pub struct Loops {
    list: Vec<Loop>,
    /// How many lines they are.
    lines: usize,
}

impl Loops {
    /// None yet.
    pub fn new(alloc: Global) -> Loops {
        Loops {
            list: Vec::new(alloc),
            lines: 0,
        }
    }

    /// How many lines they are.
    pub fn lines(&self) -> usize {
        self.lines
    }

    /// Takes a line; no where it is none of them.
    pub fn take(&mut self, alloc: Global, head: &Head, line: &str) -> Result<bool, Fault> {
        let (word, rest) = first_word(line);
        let taken = match word {
            "for" => self.add(Loop::new(alloc, rest)),
            "for-list" => self.add(head.copy_of(alloc, rest.trim())),
            "-" => self.add_values(alloc, rest),
            _ => return Ok(false),
        };
        self.lines = self.lines.saturating_add(1);
        taken?;
        Ok(true)
    }

    // Adds names and their values.
    fn add(&mut self, values: Result<Loop, Fault>) -> Result<(), Fault> {
        self.list.push(values?)?;
        Ok(())
    }

    // Adds a line of values to the last.
    fn add_values(&mut self, alloc: Global, line: &str) -> Result<(), Fault> {
        let last = self.list.last_mut().ok_or(Fault::Unread)?;
        last.add(alloc, line)
    }

    /// How many combinations there are; none where they cannot be counted.
    pub fn count(&self) -> Option<usize> {
        let mut count: usize = 1;
        for values in &self.list {
            count = count.checked_mul(values.lines.len())?;
        }
        Some(count)
    }

    /// Adds the values of the combination of this number to names, and gives what tells of it.
    pub fn pick(&self, alloc: Global, number: usize, names: &mut Names) -> Result<String, Fault> {
        let mut told = String::new(alloc);
        self.pick_each(alloc, number, names, &mut told)?;
        if !told.is_empty() {
            told.push(']')?;
        }
        Ok(told)
    }

    // Adds the values of the combination of this number to names, and to a text what tells of them.
    fn pick_each(
        &self,
        alloc: Global,
        number: usize,
        names: &mut Names,
        told: &mut String,
    ) -> Result<(), Fault> {
        let mut stride = self.count().ok_or(Fault::Unread)?;
        for values in &self.list {
            stride = stride.checked_div(values.lines.len()).ok_or(Fault::Unread)?;
            let line = values.picked(number, stride).ok_or(Fault::Unread)?;
            tell_values(told, line)?;
            values.define(alloc, line, names)?;
        }
        Ok(())
    }
}

impl Loop {
    // The names of a line, without values.
    pub(crate) fn new(alloc: Global, names: &str) -> Result<Loop, Fault> {
        Ok(Loop {
            names: String::from_str(alloc, names)?,
            lines: Vec::new(alloc),
        })
    }

    // The values in the combination of this number, where so many behind one another have the same.
    fn picked(&self, number: usize, stride: usize) -> Option<&str> {
        let steps = number.checked_div(stride)?;
        let line = self.lines.get(steps.checked_rem(self.lines.len())?)?;
        Some(line.as_str())
    }

    // Adds the values of a line to names; names in them are replaced.
    fn define(&self, alloc: Global, line: &str, names: &mut Names) -> Result<(), Fault> {
        for (name, value) in self.names.split_whitespace().zip(line.split('|')) {
            let value = names.expand(alloc, value.trim())?;
            names.add(alloc, name, &value)?;
        }
        Ok(())
    }

    // The same names and values once more.
    pub(crate) fn copy(&self, alloc: Global) -> Result<Loop, Fault> {
        let lines = copies(alloc, &self.lines)?;
        let names = String::from_str(alloc, &self.names)?;
        Ok(Loop { names, lines })
    }

    // Adds the values of a line.
    pub(crate) fn add(&mut self, alloc: Global, line: &str) -> Result<(), Fault> {
        if line.split('|').count() != self.names.split_whitespace().count() {
            return Err(Fault::Unread);
        }
        self.lines.push(String::from_str(alloc, line)?)?;
        Ok(())
    }
}

// Adds what tells of values behind others.
fn tell_values(told: &mut String, line: &str) -> Result<(), Fault> {
    if told.is_empty() {
        told.push_str(" [")?;
    } else {
        told.push_str(", ")?;
    }
    let mut is_first = true;
    for value in line.split('|') {
        if !is_first {
            told.push_str(" | ")?;
        }
        told.push_str(value.trim())?;
        is_first = false;
    }
    Ok(())
}

// The same texts once more.
fn copies(alloc: Global, texts: &[String]) -> Result<Vec<String>, Fault> {
    let mut list = Vec::new(alloc);
    for text in texts {
        list.push(String::from_str(alloc, text)?)?;
    }
    Ok(list)
}
