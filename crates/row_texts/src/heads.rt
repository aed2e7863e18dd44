// What stands before the rows of a table.
use crate::combinations::Loop;
use crate::faults::Fault;
use crate::lines::first_word;
use crate::lists::value_under;
use crate::names::Names;
use std::alloc::Global;

/// Texts and lists of values, by name.
#[derive(Drop)]
pub struct Head {
    pub names: Names,
    lists: Vec<(String, Loop)>,
}

impl Head {
    pub fn new(alloc: Global) -> Head {
        Head {
            names: Names::new(alloc),
            lists: Vec::new(alloc),
        }
    }

    // The values of a list once more.
    pub(crate) fn copy_of(&self, alloc: Global, name: &str) -> Result<Loop, Fault> {
        value_under(&self.lists, name)
            .ok_or(Fault::Unread)?
            .copy(alloc)
    }

    /// Takes a line: `let NAME TEXT`, `list NAME COLUMN..`, or `- VALUE | VALUE..` of the last
    /// list.
    pub fn take(&mut self, alloc: Global, line: &str) -> Result<(), Fault> {
        let (word, rest) = first_word(line);
        match word {
            "let" => self.names.define(alloc, rest),
            "list" => self.begin_list(alloc, rest),
            "-" => self.add_values(alloc, rest),
            _ => Err(Fault::Unread),
        }
    }

    // Adds a line of values to the last list.
    fn add_values(&mut self, alloc: Global, line: &str) -> Result<(), Fault> {
        let last = self.lists.last_mut().ok_or(Fault::Unread)?;
        last.1.add(alloc, line)
    }

    // Takes the name and the columns of a list, without values.
    fn begin_list(&mut self, alloc: Global, line: &str) -> Result<(), Fault> {
        let (name, columns) = first_word(line);
        let columns = Loop::new(alloc, columns)?;
        self.lists.push((String::from_str(alloc, name)?, columns))?;
        Ok(())
    }
}
