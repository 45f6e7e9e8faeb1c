ghost use Rattle.std.specs.Prelude.{◌≡◌, ◌≢◌, ◌⊎◌, ◌↔◌, ◌≤◌, ◌++◌, [], List, ℕ, None, Some, take};
ghost use Rattle.std.specs.Prelude.{IfOk, IfSome, IsNone, IsSome, IsSomeAnd, OnErr};
ghost use Rattle.tr_io.specs.Faults.{HasFault};
ghost use Rattle.tr_io.specs.Streams.{Grew, GrewByPrefix};
ghost use Rattle.tr_grammar.specs.Scripts.{Script, script_of};
ghost use Rattle.tr_mirror.specs.Readings.{first_fault};
ghost use Rattle.tr_show.specs.Shows.{shown_text};
ghost use Rattle.tr_arguments.specs.declared.Command.{Command};
ghost use Rattle.tr_arguments.specs.Commands.{command_of, texts_of};
ghost use Rattle.tr_serial.specs.Outputs.{drawn, gen_text, out_text, widgets};
ghost use Rattle.tr_parts.specs.Plays.{HasInterleaved};
ghost use Rattle.tr_threads.specs.Threads.{HasDifferedIn, again_text, threads_text};
ghost use Rattle.tr_player.specs.Statuses.{code};
ghost use Rattle.tr_player.specs.Answers.{Due, HasPlayed, IsAllowed, IsAnswered, IsDelivered, IsDue};
ghost use Rattle.tr_player.specs.Answers.{IsReadBack, IsReadThrough, OfNumber, OfOneThread, OfReader, OfScriptRead};
ghost use Rattle.tr_player.specs.Answers.{OfStreamRead, OfThreads};
ghost use Rattle.tr_player.specs.Answers.{ReadsNone, Yields, asked_by, faulty_text, read_fault_text};
ghost use Rattle.tr_player.specs.Answers.{refusal_for, refused_text};
ghost use Rattle.tr_player.specs.Answers.{IsDifferenceOf, IsStageOf, sink_change, source_change, status_of, text_for};
ghost use Rattle.tr_player.specs.Answers.{due_text, usage_text};
ghost use Rattle.tr_player.specs.Responses.{IsResponse};

use crate::responses::{Response, response_by_threads, response_on_one_thread};
use crate::statuses::Status;
use std::alloc::Global;
use std::mem;
use std::sync::Wait;
use std::thread::Threads;
use tr_base::NoMemory;
use tr_io::{Sink, Source};
use tr_output::WriteRefused;
use tr_play::{Gate, Workers};
use tr_server::Differs;
use tr_stage::Stage;
use tr_widget::Widget;

/// The outcome of a call.
#[derive(Drop)]
pub struct Outcome {
    /// The code of a `Status`.
    pub status: u8,
    /// The stage after all steps, if the status is 0 and a script was played.
    pub stage: Option<Stage<Widget>>,
    /// The difference that a session of threads found between its stage and its passes, if the status is 0.
    /// Then all was played again on one thread.
    pub differs: Option<Differs<Widget>>,
}

impl Outcome {
    /// The status that a program ends with. The stage and the difference aren't freed, block by block: the
    /// system takes back the memory of a program that ends.
    pub fn end(self) -> u8
        ensures { result ≡ self.status }
    {
        let Outcome {
            status,
            stage,
            differs,
        } = self;
        mem::forget((stage, differs));
        status
    }

    /// The status and the stage: a difference is dropped.
    pub fn into_stage(self) -> (u8, Option<Stage<Widget>>)
        ensures status { result.0 ≡ self.status }
        ensures stage { result.1 ≡ self.stage }
    {
        let Outcome {
            status,
            stage,
            differs,
        } = self;
        drop(differs);
        (status, stage)
    }
}

/// Plays a script on one thread, and writes the answer. The words are those after the program's name. For
/// `serial` the text is the reports of the script in the source; for `check` also the number of points that
/// lag behind the windows after each entry of the journal, except a sync's or a report's; for `mirror` the
/// stream of the screens that the script dumps; for `gen N` a summary of the script of that number. For
/// `show` the source has such a stream, and its screens are dumped. For other words, and for `play`, the
/// answer is the usage. For these and for `gen` nothing is read.
///
/// The causes are tried in this order: usage, read fault, script, run. Want of memory may replace each
/// answer before the first byte is written, and a write fault afterwards.
pub fn serial_call<S: Source, K: Sink>(
    alloc: Global,
    words: &[String],
    source: &mut S,
    sink: &mut K,
) -> Outcome
    ensures statuses { (status : Status) × (result.status ≡ code status) }
    ensures rising { (S.faults source.old ≤ S.faults source.new) × (K.faults sink.old ≤ K.faults sink.new) }

    // All at once: memory ran out before an answer, or one of the answers is due, and was written, or a fault
    // or want of memory came in the way. The clauses below follow.
    ensures answered { IsAnswered (asked_by (texts_of words.now))
        (source_change S.Source source.old source.new) result (sink_change K.Sink sink.old sink.new) }

    // Usage: exactly if the words are no accepted list; `play` is none here.
    ensures usage { Yields result.status
        ((result.status ≡ code Status.Usage) ↔ (asked_by (texts_of words.now) ≡ None)) }
    ensures usage_text { result.status ≡ code Status.Usage →
        Grew (K.written sink.old) (K.written sink.new) usage_text }

    // For these words, and for a number, nothing is read, with any answer.
    ensures unread { ReadsNone (asked_by (texts_of words.now)) →
        (S.left source.new ≡ S.left source.old) × (S.faults source.new ≡ S.faults source.old) }

    // Read fault: only where the source had one.
    ensures read_fault { result.status ≡ code Status.ReadFault →
        HasFault (S.faults source.old) (S.faults source.new) }
    ensures read_fault_text { result.status ≡ code Status.ReadFault →
        Grew (K.written sink.old) (K.written sink.new) read_fault_text }

    // Refused: among the answers to a script that was read, exactly if its bytes are refused, with the
    // first fault.
    ensures refused { Yields result.status (result.status ≢ code Status.ReadFault →
        OfScriptRead (asked_by (texts_of words.now)) (S.left source.old) (λ command bytes.
        (result.status ≡ code Status.Refused) ↔ IsSome (refusal_for command bytes))) }
    ensures refused_text { result.status ≡ code Status.Refused →
        OfScriptRead (asked_by (texts_of words.now)) (S.left source.old) (λ command bytes.
        IsSomeAnd (refusal_for command bytes) (λ refusal.
        Grew (K.written sink.old) (K.written sink.new) (refused_text refusal))) }
    ensures never_refused { OfNumber (asked_by (texts_of words.now)) (λ number.
        result.status ≢ code Status.Refused) }

    // The same of a stream, by its records.
    ensures faulty { Yields result.status (result.status ≢ code Status.ReadFault →
        OfStreamRead (asked_by (texts_of words.now)) (S.left source.old) (λ bytes.
        (result.status ≡ code Status.Refused) ↔ IsSome (first_fault bytes))) }
    ensures faulty_text { result.status ≡ code Status.Refused →
        OfStreamRead (asked_by (texts_of words.now)) (S.left source.old) (λ bytes.
        IsSomeAnd (first_fault bytes) (λ fault.
        Grew (K.written sink.old) (K.written sink.new) (faulty_text fault))) }

    // Done and refused: the source was read to its end, or to one byte more than the greatest length.
    ensures read_through { (result.status ≡ code Status.Done) ⊎ (result.status ≡ code Status.Refused) →
        OfReader (asked_by (texts_of words.now)) (λ command.
        IsReadThrough command (S.left source.old) (S.left source.new)) }

    // Done: the source was read to its end. The script in the bytes read was played: the sink got its
    // text, the stage has its opening, and the journal is the serial one.
    ensures read_to_end { result.status ≡ code Status.Done → (ReadsNone (asked_by (texts_of words.now)) → ⊥) →
        IfSome (S.left source.new) (λ rest. rest ≡ []) }
    ensures output { result.status ≡ code Status.Done →
        OfOneThread (asked_by (texts_of words.now)) (S.left source.old) (λ command bytes.
        Grew (K.written sink.old) (K.written sink.new) (text_for command (script_of bytes))) }
    ensures stage { result.status ≡ code Status.Done →
        OfOneThread (asked_by (texts_of words.now)) (S.left source.old) (λ command bytes.
        IsSomeAnd result.stage (λ stage. HasPlayed (script_of bytes) stage)) }

    // The same of the script of a number.
    ensures summed_up { result.status ≡ code Status.Done →
        OfNumber (asked_by (texts_of words.now)) (λ number.
        Grew (K.written sink.old) (K.written sink.new) (gen_text number)
        × IsSomeAnd result.stage (λ stage. HasPlayed (drawn number) stage)) }

    // The screens at the cuts of a stream are dumped. A stream that was written for a script shows the
    // script's dumps.
    ensures shown { result.status ≡ code Status.Done →
        OfStreamRead (asked_by (texts_of words.now)) (S.left source.old) (λ bytes.
        Grew (K.written sink.old) (K.written sink.new) (shown_text bytes)) }
    ensures read_back { result.status ≡ code Status.Done →
        OfOneThread (asked_by (texts_of words.now)) (S.left source.old) (λ command bytes.
        IsReadBack command (script_of bytes)) }

    // There is a stage exactly if a script was played, and never a difference.
    ensures has_stage { IsSome result.stage ↔
        ((result.status ≡ code Status.Done) × (asked_by (texts_of words.now) ≢ Some Command.Show)) }
    ensures no_difference { result.differs ≡ None }

    // Write fault: only if the sink had one. The sink got a prefix of the text.
    ensures write_fault { result.status ≡ code Status.WriteFault →
        HasFault (K.faults sink.old) (K.faults sink.new) }
    ensures prefix { result.status ≡ code Status.WriteFault → (due : Due)
        × IsDue (asked_by (texts_of words.now)) (source_change S.Source source.old source.new) due
        × GrewByPrefix (K.written sink.old) (K.written sink.new) (due_text due) }

    // Want of memory: nothing is written.
    ensures no_memory { result.status ≡ code Status.NoMemory →
        K.written sink.new ≡ K.written sink.old }

    // A script or stream that isn't refused is played, unless a fault is counted.
    ensures complete { IsAllowed (asked_by (texts_of words.now)) (S.left source.old) →
        (HasFault (S.faults source.old) (S.faults source.new) → ⊥) →
        (HasFault (K.faults sink.old) (K.faults sink.new) → ⊥) →
        (result.status ≡ code Status.Done) ⊎ (result.status ≡ code Status.NoMemory) }
{
    let response = response_on_one_thread(alloc, words, source);
    answer(sink, response)
}

/// Plays a script by threads if the words are `play`, else does the same as `serial_call`. For `play` threads
/// make the steps of the leaves' clients and of the desk, and the painter brings the screen up to date
/// meanwhile. A thread calls the gate before each step of a script; an open gate is called before commands
/// alone. The text is the script's reports, and `played threads`. If a session finds a stage that differs
/// from its passes, all is played again on one thread, and the text says so.
///
/// The threads take locks, so with `play` the call may wait; it returns if each thread returns.
pub fn trestle_call<R: Threads + Wait + Sync, S: Source, K: Sink, G: Gate + Sync>(
    rt: &R,
    alloc: Global,
    words: &[String],
    source: &mut S,
    sink: &mut K,
    gate: &G,
) -> Outcome
    ensures statuses { (status : Status) × (result.status ≡ code status) }
    ensures rising { (S.faults source.old ≤ S.faults source.new) × (K.faults sink.old ≤ K.faults sink.new) }

    // All at once: memory ran out before an answer, or one of the answers is due, and was written, or a fault
    // or want of memory came in the way. The clauses below follow.
    ensures answered { IsAnswered (command_of (texts_of words.now))
        (source_change S.Source source.old source.new) result (sink_change K.Sink sink.old sink.new) }

    // Usage: exactly if the words are no accepted list.
    ensures usage { Yields result.status
        ((result.status ≡ code Status.Usage) ↔ (command_of (texts_of words.now) ≡ None)) }
    ensures usage_text { result.status ≡ code Status.Usage →
        Grew (K.written sink.old) (K.written sink.new) usage_text }

    // For these words, and for a number, nothing is read, with any answer.
    ensures unread { ReadsNone (command_of (texts_of words.now)) →
        (S.left source.new ≡ S.left source.old) × (S.faults source.new ≡ S.faults source.old) }

    // Read fault: only where the source had one.
    ensures read_fault { result.status ≡ code Status.ReadFault →
        HasFault (S.faults source.old) (S.faults source.new) }
    ensures read_fault_text { result.status ≡ code Status.ReadFault →
        Grew (K.written sink.old) (K.written sink.new) read_fault_text }

    // Refused: among the answers to a script that was read, exactly if its bytes are refused, with the
    // first fault.
    ensures refused { Yields result.status (result.status ≢ code Status.ReadFault →
        OfScriptRead (command_of (texts_of words.now)) (S.left source.old) (λ command bytes.
        (result.status ≡ code Status.Refused) ↔ IsSome (refusal_for command bytes))) }
    ensures refused_text { result.status ≡ code Status.Refused →
        OfScriptRead (command_of (texts_of words.now)) (S.left source.old) (λ command bytes.
        IsSomeAnd (refusal_for command bytes) (λ refusal.
        Grew (K.written sink.old) (K.written sink.new) (refused_text refusal))) }
    ensures never_refused { OfNumber (command_of (texts_of words.now)) (λ number.
        result.status ≢ code Status.Refused) }

    // The same of a stream, by its records.
    ensures faulty { Yields result.status (result.status ≢ code Status.ReadFault →
        OfStreamRead (command_of (texts_of words.now)) (S.left source.old) (λ bytes.
        (result.status ≡ code Status.Refused) ↔ IsSome (first_fault bytes))) }
    ensures faulty_text { result.status ≡ code Status.Refused →
        OfStreamRead (command_of (texts_of words.now)) (S.left source.old) (λ bytes.
        IsSomeAnd (first_fault bytes) (λ fault.
        Grew (K.written sink.old) (K.written sink.new) (faulty_text fault))) }

    // Done and refused: the source was read to its end, or to one byte more than the greatest length.
    ensures read_through { (result.status ≡ code Status.Done) ⊎ (result.status ≡ code Status.Refused) →
        OfReader (command_of (texts_of words.now)) (λ command.
        IsReadThrough command (S.left source.old) (S.left source.new)) }

    // Done: the source was read to its end. The script in the bytes read was played: the sink got its
    // text, the stage has its opening, and the journal is the serial one.
    ensures read_to_end { result.status ≡ code Status.Done →
        (ReadsNone (command_of (texts_of words.now)) → ⊥) →
        IfSome (S.left source.new) (λ rest. rest ≡ []) }
    ensures output { result.status ≡ code Status.Done →
        OfOneThread (command_of (texts_of words.now)) (S.left source.old) (λ command bytes.
        Grew (K.written sink.old) (K.written sink.new) (text_for command (script_of bytes))) }
    ensures stage { result.status ≡ code Status.Done →
        OfOneThread (command_of (texts_of words.now)) (S.left source.old) (λ command bytes.
        IsSomeAnd result.stage (λ stage. HasPlayed (script_of bytes) stage)) }

    // The same of the script of a number.
    ensures summed_up { result.status ≡ code Status.Done →
        OfNumber (command_of (texts_of words.now)) (λ number.
        Grew (K.written sink.old) (K.written sink.new) (gen_text number)
        × IsSomeAnd result.stage (λ stage. HasPlayed (drawn number) stage)) }

    // The screens at the cuts of a stream are dumped. A stream that was written for a script shows the
    // script's dumps.
    ensures shown { result.status ≡ code Status.Done →
        OfStreamRead (command_of (texts_of words.now)) (S.left source.old) (λ bytes.
        Grew (K.written sink.old) (K.written sink.new) (shown_text bytes)) }
    ensures read_back { result.status ≡ code Status.Done →
        OfOneThread (command_of (texts_of words.now)) (S.left source.old) (λ command bytes.
        IsReadBack command (script_of bytes)) }

    // `play`: threads made the steps of the script in the bytes read, in some order. The stage's journal is
    // one of the machine and interleaves the script, and the text is that of this very journal.
    ensures threads { result.status ≡ code Status.Done → IsNone result.differs →
        OfThreads (command_of (texts_of words.now)) (S.left source.old) (λ bytes.
        IsSomeAnd result.stage (λ stage.
        HasInterleaved widgets (script_of bytes).opening (script_of bytes).parts stage
        × Grew (K.written sink.old) (K.written sink.new) (threads_text (script_of bytes) stage))) }

    // If a session found a stage that differs from its passes, the outcome has the difference, and all was
    // played again on one thread.
    ensures again { result.status ≡ code Status.Done →
        OfThreads (command_of (texts_of words.now)) (S.left source.old) (λ bytes. IfSome result.differs (λ d.
        HasDifferedIn (script_of bytes) d
        × IsSomeAnd result.stage (λ stage. HasPlayed (script_of bytes) stage)
        × Grew (K.written sink.old) (K.written sink.new)
        (out_text (script_of bytes) ++ again_text (script_of bytes) d))) }
    ensures differs { IsSome result.differs →
        (result.status ≡ code Status.Done) × (command_of (texts_of words.now) ≡ Some Command.Play) }

    // There is a stage exactly if a script was played.
    ensures has_stage { IsSome result.stage ↔
        ((result.status ≡ code Status.Done) × (command_of (texts_of words.now) ≢ Some Command.Show)) }

    // Write fault: only if the sink had one. The sink got a prefix of the text.
    ensures write_fault { result.status ≡ code Status.WriteFault →
        HasFault (K.faults sink.old) (K.faults sink.new) }
    ensures prefix { result.status ≡ code Status.WriteFault → (due : Due)
        × IsDue (command_of (texts_of words.now)) (source_change S.Source source.old source.new) due
        × GrewByPrefix (K.written sink.old) (K.written sink.new) (due_text due) }

    // Want of memory: nothing is written.
    ensures no_memory { result.status ≡ code Status.NoMemory →
        K.written sink.new ≡ K.written sink.old }

    // A script or stream that isn't refused is played, unless a fault is counted.
    ensures complete { IsAllowed (command_of (texts_of words.now)) (S.left source.old) →
        (HasFault (S.faults source.old) (S.faults source.new) → ⊥) →
        (HasFault (K.faults sink.old) (K.faults sink.new) → ⊥) →
        (result.status ≡ code Status.Done) ⊎ (result.status ≡ code Status.NoMemory) }
{
    let workers = Workers { rt, alloc, gate };
    let response = response_by_threads(&workers, words, source);
    answer(sink, response)
}

/// Delivers a response, or answers that memory ran out before there was one.
fn answer<K: Sink>(sink: &mut K, response: Result<Response, NoMemory>) -> Outcome
    ensures ok { IfOk response (λ r. (due : Due) → IsResponse due r →
        IsDelivered due result (sink_change K.Sink sink.old sink.new)) }
    ensures err { OnErr response ((result.status ≡ code Status.NoMemory) × (result.stage ≡ None)
        × (K.written sink.new ≡ K.written sink.old) × (result.differs ≡ None)) }
    ensures rising { K.faults sink.old ≤ K.faults sink.new }
{
    match response {
        Ok(response) => deliver(sink, response),
        Err(NoMemory) => nothing(),
    }
}

/// The answer for want of memory.
fn nothing() -> Outcome
    ensures status { result.status ≡ code Status.NoMemory }
    ensures stage { result.stage ≡ None }
    ensures differs { result.differs ≡ None }
{
    Outcome {
        status: Status::NoMemory.code(),
        stage: None,
        differs: None,
    }
}

/// Writes the text of a response, and answers its status, its stage, and its difference.
fn deliver<K: Sink>(sink: &mut K, response: Response) -> Outcome
    ensures delivered { (due : Due) → IsResponse due response →
        IsDelivered due result (sink_change K.Sink sink.old sink.new) }
    ensures rising { K.faults sink.old ≤ K.faults sink.new }
{
    match response.write_to(sink) {
        Ok(()) => done(response),
        Err(WriteRefused::NoMemory) => undone(response, Status::NoMemory),
        Err(WriteRefused::Failed) => undone(response, Status::WriteFault),
    }
}

/// The answer after all is written.
fn done(response: Response) -> Outcome
    ensures status { (due : Due) → IsResponse due response → result.status ≡ code (status_of due) }
    ensures stage { (due : Due) → IsResponse due response → IsStageOf due result.stage }
    ensures differs { (due : Due) → IsResponse due response → IsDifferenceOf due result.differs }
{
    let status = response.status().code();
    let (stage, differs) = response.into_parts();
    Outcome {
        status,
        stage,
        differs,
    }
}

/// The answer if not all is written: stage and difference are dropped.
fn undone(response: Response, status: Status) -> Outcome
    ensures status { result.status ≡ code status }
    ensures stage { result.stage ≡ None }
    ensures differs { result.differs ≡ None }
{
    drop(response);
    Outcome {
        status: status.code(),
        stage: None,
        differs: None,
    }
}
