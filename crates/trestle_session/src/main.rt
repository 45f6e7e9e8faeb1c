//! The program: it answers the lines of a script as they come on standard input. It has no arguments, and
//! looks at none.
#![tactic(auto)]

mod runs;

use crate::runs::run;
use std::process::ExitCode;
use tr_io::{StdSink, StdSource};

fn main(rt: HostRuntime) -> ExitCode {
    let mut source = StdSource::new(rt.stdin());
    let mut sink = StdSink::new(rt.stdout());
    run(rt.alloc(), &mut source, &mut sink)
}
