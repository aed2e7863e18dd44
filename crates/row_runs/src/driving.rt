// Tables that are read from files and checked.
use crate::runs::Program;
use crate::tables::{play_table, read_shared};
use crate::tallies::Tally;
use row_texts::Fault;
use std::process::ExitCode;
use std::rt::{Env, Files};
use std::{env, fs, io};

// How many runs were made, and how many differ.
#[derive(Clone, Copy)]
struct Sums {
    runs: u64,
    differ: u64,
}

impl Sums {
    // Adds the runs of a table, and prints a line for each that differs.
    fn take<R: Print>(
        &mut self,
        rt: &R,
        name: &str,
        checked: Result<Tally, Fault>,
    ) -> io::Result<()> {
        let Ok(tally) = checked else {
            return self.tell(rt, name, "memory was refused");
        };
        self.runs = self.runs.saturating_add(tally.runs());
        self.differ = self.differ.saturating_add(tally.differ());
        let told = tally.told();
        print!(rt; "{told}")
    }

    // Takes the file of the lines that tables share, and gives its text.
    fn take_shared<R: Files + Print + AllocGlobal>(
        &mut self,
        rt: &R,
        name: &str,
    ) -> io::Result<String> {
        let Ok(text) = fs::read_to_string(rt, name) else {
            self.tell(rt, name, "the file cannot be read")?;
            return Ok(String::new(rt.alloc()));
        };
        self.take(rt, name, read_shared(rt.alloc(), name, &text))?;
        Ok(text)
    }

    // Takes the file of a table.
    fn take_table<P: Program, R: Files + Print + AllocGlobal>(
        &mut self,
        rt: &R,
        shared: &str,
        name: &str,
    ) -> io::Result<()> {
        let Ok(text) = fs::read_to_string(rt, name) else {
            return self.tell(rt, name, "the file cannot be read");
        };
        self.take(rt, name, play_table::<P>(rt.alloc(), shared, name, &text))
    }

    // Prints a line, and counts it as a difference.
    fn tell<R: Print>(&mut self, rt: &R, name: &str, what: &str) -> io::Result<()> {
        self.differ = self.differ.saturating_add(1);
        println!(rt; "{name}: {what}")
    }

    // Prints how many there are.
    fn print<R: Print>(self, rt: &R) -> io::Result<()> {
        let Sums { runs, differ } = self;
        println!(rt; "{runs} rows, {differ} differ")
    }
}

/// Checks the tables that the words of the command line name, behind a file of the lines that they
/// share: prints a line for each run that differs, each line that cannot be read, each table
/// without a run and each file that cannot be read, and last `N rows, M differ`. It is a success
/// where there is a run and nothing else was told.
pub fn check_tables<P: Program, R: Env + Files + Print + AllocGlobal>(
    rt: &R,
) -> io::Result<ExitCode> {
    let mut sums = Sums { runs: 0, differ: 0 };
    let mut shared = String::new(rt.alloc());
    for (at, name) in env::args(rt)?.skip(1).enumerate() {
        if at == 0 {
            shared = sums.take_shared(rt, &name)?;
        } else {
            sums.take_table::<P, R>(rt, &shared, &name)?;
        }
    }
    sums.print(rt)?;
    if sums.runs > 0 && sums.differ == 0 {
        Ok(ExitCode::SUCCESS)
    } else {
        Ok(ExitCode::FAILURE)
    }
}
