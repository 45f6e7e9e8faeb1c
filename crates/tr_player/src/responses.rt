ghost use Rattle.std.specs.Prelude.{◌≡◌, ◌≢◌, ◌≤◌, Err, IfOk, OnOk};
ghost use Rattle.tr_io.specs.Faults.{HasFault};
ghost use Rattle.tr_io.specs.Streams.{Grew, GrewByPrefix};
ghost use Rattle.tr_grammar.specs.Scripts.{IsPlayableScript};
ghost use Rattle.tr_arguments.specs.declared.Command.TheVariants.{Play};
ghost use Rattle.tr_arguments.specs.Commands.{command_of as the_command_of, texts_of};
ghost use Rattle.tr_serial.specs.Screens.{report_count};
ghost use Rattle.tr_player.specs.Answers as spec;
ghost use Rattle.tr_player.specs.Answers.{Due, IsDifferenceOf, IsDue, IsDueOfBytes, IsDueOfStream, IsReadBack, IsStageOf};
ghost use Rattle.tr_player.specs.Answers.{ReadsNone, faulty, of_one_thread, refused, source_change, status_of};
ghost use Rattle.tr_player.specs.Responses.{IsDueOfShow, IsDueOfText, IsResponse, due_of_script, response_text};

use crate::checks::is_checkable;
use crate::errors::ReadError;
use crate::statuses::Status;
use crate::streams::{read_all, write_at_once};
use std::alloc::Global;
use std::sync::Wait;
use std::thread::Threads;
use tr_arguments::{Command, command_of};
use tr_base::NoMemory;
use tr_chunks::read_script_in_chunks;
use tr_grammar::{Code, LONGEST_SCRIPT, ReadRefused};
use tr_io::{Sink, Source};
use tr_mirror::{LONGEST_STREAM, MirrorFault};
use tr_output::{Output, WriteRefused};
use tr_play::{Gate, Workers};
use tr_reader::Script;
use tr_script::read_script;
use tr_serial::{Played, check, mirror, serial, summary};
use tr_server::Differs;
use tr_show::{ShowRefused, show};
use tr_stage::Stage;
use tr_threads::{Threaded, threads};
use tr_widget::Widget;

/// The text for words that are no command.
const USAGE_TEXT: &[u8] = b"usage: trestle play|serial|check|mirror|show|gen N\n";

/// The text for a fault of the source.
const READ_FAULT_TEXT: &[u8] = b"read fault\n";

/// The answer of a call before it is written.
#[derive(Drop)]
pub enum Response {
    /// The words are no command.
    Usage,
    /// A read failed.
    ReadFault,
    /// The script, or the stream, is refused: the text of the refusal.
    Refused(Vec<u8>),
    /// A script was played on one thread.
    Played(Played),
    /// Threads played a script.
    Threaded(Threaded),
    /// A stream was read: the dumps of its screens.
    Shown(Output),
}

impl Response {
    /// The status after the text is written.
    pub fn status(&self) -> Status
        ensures { (due : Due) → IsResponse due self.now → result ≡ status_of due }
    {
        match self {
            Response::Usage => Status::Usage,
            Response::ReadFault => Status::ReadFault,
            Response::Refused(_) => Status::Refused,
            Response::Played(_) | Response::Threaded(_) | Response::Shown(_) => Status::Done,
        }
    }

    /// Writes the text. For want of memory nothing is written.
    pub fn write_to<K: Sink>(&self, sink: &mut K) -> Result<(), WriteRefused>
        ensures ok { OnOk result (Grew (K.written sink.old) (K.written sink.new) (response_text self.now)) }
        ensures no_memory { result ≡ Err WriteRefused.NoMemory → K.written sink.new ≡ K.written sink.old }
        ensures failed { result ≡ Err WriteRefused.Failed →
            HasFault (K.faults sink.old) (K.faults sink.new)
            × GrewByPrefix (K.written sink.old) (K.written sink.new) (response_text self.now) }
        ensures rising { K.faults sink.old ≤ K.faults sink.new }
    {
        match self {
            Response::Usage => write_at_once(sink, USAGE_TEXT),
            Response::ReadFault => write_at_once(sink, READ_FAULT_TEXT),
            Response::Refused(text) => write_at_once(sink, text),
            Response::Shown(text) => text.write_to(sink),
            Response::Played(played) => played.text.write_to(sink),
            Response::Threaded(threaded) => threaded.text.write_to(sink),
        }
    }

    /// The stage of a script that was played, and the difference that a session of threads found.
    pub fn into_parts(self) -> (Option<Stage<Widget>>, Option<Differs<Widget>>)
        ensures stage { (due : Due) → IsResponse due self → IsStageOf due result.0 }
        ensures differs { (due : Due) → IsResponse due self → IsDifferenceOf due result.1 }
    {
        match self {
            Response::Played(Played { stage, .. }) => (Some(stage), None),
            Response::Threaded(Threaded { stage, differs, .. }) => (Some(stage), differs),
            _ => (None, None),
        }
    }
}

/// The response to the words, and to the remaining bytes of the source if the words ask for a script in it.
/// One thread does the command; `play` is none for it.
pub fn response_on_one_thread<S: Source>(
    alloc: Global,
    words: &[String],
    source: &mut S,
) -> Result<Response, NoMemory>
    ensures due { let asked = of_one_thread (the_command_of (texts_of words.now)) in IfOk result (λ response.
        (due : Due) × IsResponse due response
        × IsDue asked (source_change S.Source source.old source.new) due) }
    ensures unread { ReadsNone (of_one_thread (the_command_of (texts_of words.now))) →
        (S.left source.new ≡ S.left source.old) × (S.faults source.new ≡ S.faults source.old) }
    ensures rising { S.faults source.old ≤ S.faults source.new }
{
    match command_of(alloc, words)? {
        Some(Command::Serial) => response_to_source(alloc, Command::Serial, source),
        Some(Command::Check) => response_to_source(alloc, Command::Check, source),
        Some(Command::Mirror) => response_to_source(alloc, Command::Mirror, source),
        Some(Command::Show) => response_to_stream(alloc, source),
        Some(Command::Gen(number)) => Ok(Response::Played(summary(alloc, number)?)),
        Some(Command::Play) => Ok(Response::Usage),
        None => Ok(Response::Usage),
    }
}

/// The same, but threads do `play`.
pub fn response_by_threads<R: Threads + Wait + Sync, S: Source, G: Gate + Sync>(
    workers: &Workers<'_, R, G>,
    words: &[String],
    source: &mut S,
) -> Result<Response, NoMemory>
    ensures due { let asked = the_command_of (texts_of words.now) in IfOk result (λ response.
        (due : Due) × IsResponse due response
        × IsDue asked (source_change S.Source source.old source.new) due) }
    ensures unread { ReadsNone (the_command_of (texts_of words.now)) →
        (S.left source.new ≡ S.left source.old) × (S.faults source.new ≡ S.faults source.old) }
    ensures rising { S.faults source.old ≤ S.faults source.new }
{
    let alloc = workers.alloc;
    match command_of(workers.alloc, words)? {
        Some(Command::Play) => response_to_play(workers, source),
        Some(Command::Serial) => response_to_source(alloc, Command::Serial, source),
        Some(Command::Check) => response_to_source(alloc, Command::Check, source),
        Some(Command::Mirror) => response_to_source(alloc, Command::Mirror, source),
        Some(Command::Show) => response_to_stream(alloc, source),
        Some(Command::Gen(number)) => Ok(Response::Played(summary(alloc, number)?)),
        None => Ok(Response::Usage),
    }
}

/// The response of threads to the script in the source.
fn response_to_play<R: Threads + Wait + Sync, S: Source, G: Gate + Sync>(
    workers: &Workers<'_, R, G>,
    source: &mut S,
) -> Result<Response, NoMemory>
    ensures due { IfOk result (λ response. (due : Due) × IsResponse due response
        × IsDueOfBytes Play (source_change S.Source source.old source.new) due) }
    ensures rising { S.faults source.old ≤ S.faults source.new }
{
    match read_all(workers.alloc, source, most_read(Command::Play)) {
        Ok(bytes) => response_to_played(workers, bytes),
        Err(ReadError::Failed) => Ok(Response::ReadFault),
        Err(ReadError::NoMemory) => Err(NoMemory),
    }
}

/// The response of threads to the bytes of a script.
fn response_to_played<R: Threads + Wait + Sync, G: Gate + Sync>(
    workers: &Workers<'_, R, G>,
    bytes: Vec<u8>,
) -> Result<Response, NoMemory>
    ensures { IfOk result (λ response.
        (due : Due) × IsResponse due response × IsDueOfText Play bytes.items due) }
{
    match read_script_in_chunks(workers.rt, workers.alloc, &bytes) {
        Ok(script) => {
            give_back(bytes);
            Ok(Response::Threaded(threads(workers, script)?))
        }
        Err(ReadRefused::Refused { line, code }) => refusal(workers.alloc, line, code),
        Err(ReadRefused::NoMemory) => Err(NoMemory),
    }
}

/// The response to the script in the source.
fn response_to_source<S: Source>(
    alloc: Global,
    command: Command,
    source: &mut S,
) -> Result<Response, NoMemory>
    requires { command ≢ Play }
    ensures due { IfOk result (λ response. (due : Due) × IsResponse due response
        × IsDueOfBytes command (source_change S.Source source.old source.new) due) }
    ensures rising { S.faults source.old ≤ S.faults source.new }
{
    match read_all(alloc, source, most_read(command)) {
        Ok(bytes) => response_to_bytes(alloc, command, bytes),
        Err(ReadError::Failed) => Ok(Response::ReadFault),
        Err(ReadError::NoMemory) => Err(NoMemory),
    }
}

/// The most bytes that are read: one more than the limit shows that there are too many.
fn most_read(command: Command) -> usize
    ensures { result ≡ spec.most_read command }
{
    match command {
        Command::Show => LONGEST_STREAM as usize + 1,
        _ => LONGEST_SCRIPT + 1,
    }
}

/// The response to the bytes of a script.
fn response_to_bytes(alloc: Global, command: Command, bytes: Vec<u8>) -> Result<Response, NoMemory>
    requires { command ≢ Play }
    ensures { IfOk result (λ response.
        (due : Due) × IsResponse due response × IsDueOfText command bytes.items due) }
{
    match read_script(alloc, &bytes) {
        Ok(script) => {
            give_back(bytes);
            response_to_script(alloc, command, script)
        }
        Err(ReadRefused::Refused { line, code }) => refusal(alloc, line, code),
        Err(ReadRefused::NoMemory) => Err(NoMemory),
    }
}

/// Gives back the memory of a script's bytes before the script is played. The block is made small first: once
/// glibc's malloc has freed a mapped block, it takes blocks up to that size from its heap.
fn give_back(mut bytes: Vec<u8>) {
    bytes.clear();
    bytes.shrink_to(1);
}

/// The response to a script: it is played, unless a check of it is beyond the limits.
#[tactic(auto, using(crate::proofs::ResponseLemmas::read_back))]
fn response_to_script(alloc: Global, command: Command, script: Script) -> Result<Response, NoMemory>
    requires playable { IsPlayableScript script }
    requires few { report_count script.parts ≤ 64 }
    ensures response { IfOk result (λ response. IsResponse (due_of_script command script) response) }
    ensures read_back { OnOk result (IsReadBack command script) }
{
    match command {
        Command::Check if is_checkable(&script) => Ok(Response::Played(check(alloc, script)?)),
        Command::Check => refusal(alloc, 0, Code::B7.number()),
        Command::Mirror => Ok(Response::Played(mirror(alloc, script)?)),
        _ => Ok(Response::Played(serial(alloc, script)?)),
    }
}

/// The response to a text that isn't played.
fn refusal(alloc: Global, line: u32, code: u8) -> Result<Response, NoMemory>
    ensures { IfOk result (λ response.
        IsResponse (refused (record { line = line; code = code })) response) }
{
    let text = format!(in alloc; "refused: line {line} B{code}\n")?;
    Ok(Response::Refused(text.into_bytes()))
}

/// The response to the stream in the source.
fn response_to_stream<S: Source>(alloc: Global, source: &mut S) -> Result<Response, NoMemory>
    ensures due { IfOk result (λ response. (due : Due) × IsResponse due response
        × IsDueOfStream (source_change S.Source source.old source.new) due) }
    ensures rising { S.faults source.old ≤ S.faults source.new }
{
    match read_all(alloc, source, most_read(Command::Show)) {
        Ok(bytes) => response_to_show(alloc, &bytes),
        Err(ReadError::Failed) => Ok(Response::ReadFault),
        Err(ReadError::NoMemory) => Err(NoMemory),
    }
}

/// The response to the bytes of a stream: the dumps of its screens, unless it has a fault.
fn response_to_show(alloc: Global, bytes: &[u8]) -> Result<Response, NoMemory>
    ensures { IfOk result (λ response.
        (due : Due) × IsResponse due response × IsDueOfShow bytes.now due) }
{
    match show(alloc, bytes) {
        Ok(text) => Ok(Response::Shown(text)),
        Err(ShowRefused::Fault(fault)) => stream_refusal(alloc, fault),
        Err(ShowRefused::NoMemory) => Err(NoMemory),
    }
}

/// The response to a stream that isn't shown.
fn stream_refusal(alloc: Global, fault: MirrorFault) -> Result<Response, NoMemory>
    ensures { IfOk result (λ response. IsResponse (faulty fault) response) }
{
    let place = fault.place;
    let code = fault.fault.number();
    let text = format!(in alloc; "refused: byte {place} M{code}\n")?;
    Ok(Response::Refused(text.into_bytes()))
}
