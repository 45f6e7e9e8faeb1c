ghost use Rattle.std.specs.Prelude.{◌≡◌};
ghost use Rattle.std.specs.Process.{exit_status};
ghost use Rattle.tr_io.specs.Faults.{HasFault};
ghost use Rattle.tr_session.specs.Calls.{change_of_sink, change_of_source};
ghost use Rattle.trestle_session.specs.Runs.{IsSessionEnd};

use std::alloc::Global;
use std::process::ExitCode;
use tr_io::{Sink, Source};
use tr_session::serve;

/// Answers the lines of a source. The result is the status to end with: 0 after `!quit` and at the end of
/// the input, 4 if a read failed, 5 if a write failed, 6 for want of memory.
pub fn run<S: Source, K: Sink>(alloc: Global, source: &mut S, sink: &mut K) -> ExitCode
    ensures served { IsSessionEnd (change_of_source S.Source source.old source.new) (exit_status result)
        (change_of_sink K.Sink sink.old sink.new) }
    ensures read_fault { exit_status result ≡ 4 → HasFault (S.faults source.old) (S.faults source.new) }
    ensures write_fault { exit_status result ≡ 5 → HasFault (K.faults sink.old) (K.faults sink.new) }
{
    match serve(alloc, source, sink) {
        Ok(()) => ExitCode::SUCCESS,
        Err(stopped) => ExitCode::from(stopped.code()),
    }
}
