//! Makes the runs of tables of rows, and tells of each that differs.
#![tactic(auto)]

#[cfg(test)]
mod refused_memory;

use row_tables::check_tables;
use std::io;
use std::process::ExitCode;

fn main(rt: HostRuntime) -> io::Result<ExitCode> {
    check_tables(&rt)
}
