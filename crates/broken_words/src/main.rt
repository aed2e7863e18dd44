//! Runs the posting store as `pefidx` does, where a word of the command line is no UTF-8.
#![tactic(auto)]

use host_process::run_process;
use std::env;
use std::process::ExitCode;

fn main(rt: HostRuntime) -> ExitCode {
    run_process(rt, env::args(&rt), rt.stdin(), rt.stdout(), rt.stderr())
}
