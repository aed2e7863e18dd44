//! Runs the posting store over the files and the streams of the system.
#![tactic(auto)]

use host_process::run_process;
use std::env;
use std::process::ExitCode;

fn main(rt: HostRuntime) -> ExitCode {
    run_process(rt, env::args(&rt), rt.stdin(), rt.stdout(), rt.stderr())
}
