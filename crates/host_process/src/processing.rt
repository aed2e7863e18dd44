ghost use Rattle.std.specs.Prelude.{◌≡◌};
ghost use Rattle.std.specs.Process.{exit_status};
ghost use Rattle.outcomes.specs.declared.status.Status as ended;
ghost use Rattle.outcomes.specs.Outside.{outside};
ghost use Rattle.outcomes.specs.StatusNumber.{status_number};
ghost use Rattle.host_process.specs.Process.{Processes};
ghost use Rattle.host_process.specs.Words.{TakenWords, TakesWords};

use crate::words::words_of;
use io_traits::{Depot, Sink, Source};
use no_memory::NoMemory;
use outcomes::{Stop, write_line};
use pef_top::{Devices, Status, run_uncounted};
use std::alloc::Global;
use std::env::Args;
use std::io;
use std::process::ExitCode;

/// What a process does: it runs the command of the words that it was given, the program's name
/// first, and ends with the number of the status. Where memory was refused for the words, it says
/// so on err and calls nothing else.
pub fn process<D: Depot, I: Source, O: Sink, E: Sink>(
    alloc: Global,
    given: io::Result<Args>,
    on: &mut Devices<D, I, O>,
    err: &mut E,
) -> ExitCode
    ensures { (status : ended.Status) × (words : TakenWords)
        × (exit_status result ≡ status_number status) × TakesWords given words
        × Processes words
        (outside (D.state on.old.depot) (I.state on.old.input) (O.state on.old.out)
        (E.state err.old) 0)
        (λ costs. outside (D.state on.new.depot) (I.state on.new.input) (O.state on.new.out)
        (E.state err.new) costs)
        on.old on.new err.old err.new status }
{
    let words = words_of(alloc, given);
    exit_code(run_words(alloc, words, on, err))
}

// Runs the command of the words, and says how it ended.
fn run_words<D: Depot, I: Source, O: Sink, E: Sink>(
    alloc: Global,
    words: Result<Vec<String>, NoMemory>,
    on: &mut Devices<D, I, O>,
    err: &mut E,
) -> Status
    ensures { Processes words
        (outside (D.state on.old.depot) (I.state on.old.input) (O.state on.old.out)
        (E.state err.old) 0)
        (λ costs. outside (D.state on.new.depot) (I.state on.new.input) (O.state on.new.out)
        (E.state err.new) costs)
        on.old on.new err.old err.new result }
{
    match words {
        Ok(words) => run_uncounted(alloc, words.as_slice(), on, err),
        Err(NoMemory) => {
            let _ = write_line(err, Stop::NoMemory);
            Status::NoMemory
        }
    }
}

// The code with which the process ends: the number of the status.
fn exit_code(status: Status) -> ExitCode
    ensures { exit_status result ≡ status_number status }
{
    ExitCode::from(status.number())
}
