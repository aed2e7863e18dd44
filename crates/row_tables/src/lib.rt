//! Tables of rows: whole runs of the program over files, an input and outputs in memory, written as
//! text.
#![tactic(auto)]

use pef_top::{Devices, run_uncounted};
use row_runs::{Objects, Outcome, Program};
use std::alloc::Global;
use std::io;
use std::process::ExitCode;
use std::rt::{Env, Files};

// The program `pefidx`.
struct Pefidx;

impl Program for Pefidx {
    fn run(alloc: Global, words: &[String], objects: Objects) -> Outcome {
        let Objects {
            depot,
            input,
            out,
            mut err,
        } = objects;
        let mut on = Devices { depot, input, out };
        let status = run_uncounted(alloc, words, &mut on, &mut err);
        let Devices { depot, input, out } = on;
        Outcome {
            status: status.number(),
            objects: Objects {
                depot,
                input,
                out,
                err,
            },
        }
    }
}

/// Checks the tables that the words of the command line name, as `row_runs::check_tables` does, by
/// runs of `pefidx`.
pub fn check_tables<R: Env + Files + Print + AllocGlobal>(rt: &R) -> io::Result<ExitCode> {
    row_runs::check_tables::<Pefidx, R>(rt)
}
