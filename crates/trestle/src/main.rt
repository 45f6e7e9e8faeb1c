//! The program: it plays the script on standard input, and ends with the status of the call.
#![tactic(auto)]

mod runs;

use crate::runs::run;
use std::env;
use std::process::ExitCode;
use tr_io::{StdSink, StdSource};

fn main(rt: HostRuntime) -> ExitCode {
    let mut source = StdSource::new(rt.stdin());
    let mut sink = StdSink::new(rt.stdout());
    run(&rt, rt.alloc(), env::args(&rt), &mut source, &mut sink)
}
