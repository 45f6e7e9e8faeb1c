ghost use Rattle.std.specs.Prelude.{◌≡◌, ◌≢◌, ◌⊎◌, ◌↔◌, drop, None, IfOk, IfSome, IsSome};
ghost use Rattle.std.specs.Process.{exit_status};
ghost use Rattle.std.specs.Vec.Iter.{into_iter_items};
ghost use Rattle.tr_io.specs.Faults.{HasFault};
ghost use Rattle.tr_io.specs.Streams.{Grew};
ghost use Rattle.tr_mirror.specs.Readings.{first_fault};
ghost use Rattle.tr_show.specs.Shows.{shown_text};
ghost use Rattle.tr_grammar.specs.Scripts.{script_of};
ghost use Rattle.tr_serial.specs.Outputs.{gen_text};
ghost use Rattle.tr_player.specs.Statuses.{code};
ghost use Rattle.tr_arguments.specs.Commands.{command_of};
ghost use Rattle.tr_player.specs.Answers.{IsAllowed, OfNumber, OfOneThread, OfScriptRead, OfStreamRead, OfThreads};
ghost use Rattle.tr_player.specs.Answers.{Yields};
ghost use Rattle.tr_player.specs.Answers.{refusal_for, sink_change, source_change, text_for};
ghost use Rattle.trestle.specs.Arguments.{heard, status_unheard, status_without};
ghost use Rattle.trestle.specs.Runs.{IsEnd, IsPrinted};

use std::alloc::{AllocError, Global};
use std::env::Args;
use std::io;
use std::io::ErrorKind;
use std::process::ExitCode;
use std::sync::Wait;
use std::thread::Threads;
use tr_io::{Sink, Source};
use tr_player::{OpenGate, Status, trestle_call};

/// The status if the system refused the program its arguments. No call answers it.
const REFUSED_STATUS: u8 = 7;

/// Does the command of the arguments that the system gave. The first of them is the program's name.
/// The answer is the status to end with.
pub fn run<R: Threads + Wait + Sync, S: Source, K: Sink>(
    rt: &R,
    alloc: Global,
    all: io::Result<Args>,
    source: &mut S,
    sink: &mut K,
) -> ExitCode
    // Without arguments: 6 for want of memory, else 7. Nothing is read or written.
    ensures unheard { IfSome (status_unheard all) (λ status. exit_status result ≡ status) }
    ensures untouched { IfSome (status_unheard all) (λ status.
        (S.left source.new ≡ S.left source.old) × (S.faults source.new ≡ S.faults source.old)
        × (K.written sink.new ≡ K.written sink.old) × (K.faults sink.new ≡ K.faults sink.old)) }

    // With them: the status of the call, all of it at once, and then its most important facts.
    ensures answered { IfSome (heard all) (λ words. IsEnd (command_of words)
        (source_change S.Source source.old source.new) (exit_status result)
        (sink_change K.Sink sink.old sink.new)) }
    ensures usage { IfSome (heard all) (λ words. Yields (exit_status result)
        ((exit_status result ≡ code Status.Usage) ↔ (command_of words ≡ None))) }
    ensures refused { IfSome (heard all) (λ words. Yields (exit_status result)
        (exit_status result ≢ code Status.ReadFault →
        OfScriptRead (command_of words) (S.left source.old) (λ command bytes.
        (exit_status result ≡ code Status.Refused) ↔ IsSome (refusal_for command bytes)))) }
    ensures output { IfSome (heard all) (λ words. exit_status result ≡ code Status.Done →
        OfOneThread (command_of words) (S.left source.old) (λ command bytes.
        Grew (K.written sink.old) (K.written sink.new) (text_for command (script_of bytes)))) }
    ensures threads { IfSome (heard all) (λ words. exit_status result ≡ code Status.Done →
        OfThreads (command_of words) (S.left source.old) (λ bytes.
        IsPrinted (script_of bytes) (sink_change K.Sink sink.old sink.new))) }
    ensures faulty { IfSome (heard all) (λ words. Yields (exit_status result)
        (exit_status result ≢ code Status.ReadFault →
        OfStreamRead (command_of words) (S.left source.old) (λ bytes.
        (exit_status result ≡ code Status.Refused) ↔ IsSome (first_fault bytes)))) }
    ensures shown { IfSome (heard all) (λ words. exit_status result ≡ code Status.Done →
        OfStreamRead (command_of words) (S.left source.old) (λ bytes.
        Grew (K.written sink.old) (K.written sink.new) (shown_text bytes))) }
    ensures summed_up { IfSome (heard all) (λ words. exit_status result ≡ code Status.Done →
        OfNumber (command_of words) (λ number.
        Grew (K.written sink.old) (K.written sink.new) (gen_text number))) }
    ensures read_fault { exit_status result ≡ code Status.ReadFault →
        HasFault (S.faults source.old) (S.faults source.new) }
    ensures write_fault { exit_status result ≡ code Status.WriteFault →
        HasFault (K.faults sink.old) (K.faults sink.new) }
    ensures no_memory { exit_status result ≡ code Status.NoMemory →
        K.written sink.new ≡ K.written sink.old }
    ensures complete { IfSome (heard all) (λ words. IsAllowed (command_of words) (S.left source.old) →
        (HasFault (S.faults source.old) (S.faults source.new) → ⊥) →
        (HasFault (K.faults sink.old) (K.faults sink.new) → ⊥) →
        (exit_status result ≡ code Status.Done) ⊎ (exit_status result ≡ code Status.NoMemory)) }
{
    match all {
        Ok(all) => match after_name(alloc, all) {
            Ok(words) => {
                let outcome = trestle_call(rt, alloc, &words, source, sink, &OpenGate);
                ExitCode::from(outcome.end())
            }
            Err(_) => ExitCode::from(Status::NoMemory.code()),
        },
        Err(error) => ExitCode::from(status_without(error.kind())),
    }
}

/// The arguments after the program's name.
fn after_name(alloc: Global, all: Args) -> Result<Vec<String>, AllocError>
    ensures { IfOk result (λ v. v.items ≡ drop 1 (into_iter_items all)) }
{
    let mut rest = all;
    // The program's name.
    let _ = rest.next();
    let mut arguments = Vec::new(alloc);
    while let Some(argument) = rest.next() {
        arguments.push(argument)?;
    }
    Ok(arguments)
}

/// The status if the system gave no arguments. One of the causes is an argument that is no text; only want
/// of memory has a status of its own.
fn status_without(kind: ErrorKind) -> u8
    ensures { result ≡ status_without kind }
{
    match kind {
        ErrorKind::OutOfMemory => Status::NoMemory.code(),
        _ => REFUSED_STATUS,
    }
}
