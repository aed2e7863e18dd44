//! Makes the runs of a table whose rows are wrong, each in one of its lines, so that what tells of
//! them is seen.
#![tactic(auto)]

use row_tables::check_tables;
use std::io;
use std::process::ExitCode;

fn main(rt: HostRuntime) -> io::Result<ExitCode> {
    check_tables(&rt)
}
