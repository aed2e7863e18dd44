// How many rows differ.
use crate::shown::Difference;
use row_texts::{Fault, Line};
use std::alloc::Global;

// How many runs were compared and how many differ, with a line for each that does.
#[derive(Drop)]
pub(crate) struct Tally {
    runs: u64,
    differ: u64,
    told: String,
}

impl Tally {
    // No run.
    pub(crate) fn new(alloc: Global) -> Tally {
        Tally {
            runs: 0,
            differ: 0,
            told: String::new(alloc),
        }
    }

    // How many runs were compared.
    pub(crate) fn runs(&self) -> u64 {
        self.runs
    }

    // How many differ, with the lines that cannot be read.
    pub(crate) fn differ(&self) -> u64 {
        self.differ
    }

    // A line for each that differs.
    pub(crate) fn told(&self) -> &str {
        self.told.as_str()
    }

    // Counts a run that was compared, and tells how it differs; whether it does not.
    pub(crate) fn take_run(
        &mut self,
        label: &str,
        compared: Result<(), Difference>,
    ) -> Result<bool, Fault> {
        self.runs = self.runs.saturating_add(1);
        match compared {
            Ok(()) => Ok(true),
            Err(Difference::NoMemory) => Err(Fault::NoMemory),
            Err(Difference::Told(found)) => {
                self.tell(label, &found)?;
                Ok(false)
            }
        }
    }

    // Tells what is wrong, and of what.
    pub(crate) fn tell(&mut self, label: &str, what: &str) -> Result<(), Fault> {
        self.differ = self.differ.saturating_add(1);
        self.told.push_str(label)?;
        self.told.push_str(": ")?;
        self.told.push_str(what)?;
        self.told.push('\n')?;
        Ok(())
    }

    // Tells of a line that could not be read; whether it could.
    pub(crate) fn take(
        &mut self,
        table: &str,
        line: &Line,
        taken: Result<(), Fault>,
    ) -> Result<bool, Fault> {
        match taken {
            Ok(()) => Ok(true),
            Err(Fault::NoMemory) => Err(Fault::NoMemory),
            Err(Fault::Unread) => {
                self.tell_line(table, line)?;
                Ok(false)
            }
        }
    }

    // Tells of a line that cannot be read.
    fn tell_line(&mut self, table: &str, line: &Line) -> Result<(), Fault> {
        let (number, text, alloc) = (line.number, &line.text, *self.told.allocator());
        let label = format!(in alloc; "{table} line {number}")?;
        self.tell(&label, &format!(in alloc; "{text} cannot be read")?)
    }
}
