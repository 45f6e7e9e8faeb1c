ghost use Rattle.std.specs.Prelude.{◌≡◌, ◌<◌, ◌++◌, None, Ok, Some, IfErr, IfOk, length};
ghost use Rattle.tr_grammar.specs.Scripts.{IsPlayableScript};
ghost use Rattle.tr_server.specs.Closing.{IfDiffers};
ghost use Rattle.tr_serial.specs.Outputs.{out_text, serial_journal};
ghost use Rattle.tr_threads.specs.Threads.{IsPlayedByThreads, IsThreaded, HasDifferedIn, again_text};

use crate::lines::again_lines;
use std::alloc::Global;
use std::sync::Wait;
use std::thread::Threads;
use tr_base::NoMemory;
use tr_output::Output;
use tr_play::{Gate, Workers, play};
use tr_reader::Script;
use tr_run::{Finished, Mode, Run};
use tr_serial::{Played, serial};
use tr_server::{CloseRefused, Differs};
use tr_stage::Stage;
use tr_widget::Widget;

/// The end of a script that threads played.
#[derive(Drop)]
pub struct Threaded {
    /// The text.
    pub text: Output,
    /// The stage after all steps.
    pub stage: Stage<Widget>,
    /// The difference that a session found between its stage and its passes. Then the text and the stage are
    /// those of one thread.
    pub differs: Option<Differs<Widget>>,
}

/// Plays a script of some parts by threads: they make the steps of the leaves' clients and of the desk, and
/// the painter repaints the screen meanwhile. The text is the reports, and a line that says that threads
/// played.
pub fn threads<R: Threads + Wait + Sync, G: Gate + Sync>(
    workers: &Workers<'_, R, G>,
    script: Script,
) -> Result<Threaded, NoMemory>
    requires playable { IsPlayableScript script }
    requires some { 0 < length script.parts }
    ensures { IfOk result (λ end. IsThreaded script end) }
{
    match play_side_by_side(workers, &script) {
        Ok(end) => {
            drop(script);
            Ok(by_threads(end))
        }
        Err(refused) => play_unless_refused(workers.alloc, script, refused),
    }
}

/// The end of a script that threads played.
fn by_threads(end: Finished<Widget>) -> Threaded
    ensures text { result.text ≡ end.text }
    ensures stage { result.stage ≡ end.stage }
    ensures differs { result.differs ≡ None }
{
    let Finished { stage, text, .. } = end;
    Threaded {
        text,
        stage,
        differs: None,
    }
}

/// Plays a script again if a session differed, but not for want of memory.
fn play_unless_refused(
    alloc: Global,
    script: Script,
    refused: CloseRefused<Widget>,
) -> Result<Threaded, NoMemory>
    requires playable { IsPlayableScript script }
    requires differs { IfDiffers refused (λ d. HasDifferedIn script d) }
    ensures { IfOk result (λ end. IsThreaded script end) }
{
    match refused {
        CloseRefused::Differs(differs) => play_again(alloc, script, differs),
        CloseRefused::NoMemory => {
            drop(script);
            Err(NoMemory)
        }
    }
}

/// Plays a script by threads.
fn play_side_by_side<R: Threads + Wait + Sync, G: Gate + Sync>(
    workers: &Workers<'_, R, G>,
    script: &Script,
) -> Result<Finished<Widget>, CloseRefused<Widget>>
    requires playable { IsPlayableScript script.now }
    requires some { 0 < length script.now.parts }
    ensures ok { IfOk result (λ end. IsPlayedByThreads script.now end.stage end.text) }
    ensures differs { IfErr result (λ e. IfDiffers e (λ d. HasDifferedIn script.now d)) }
{
    let Ok(opening) = script.opening.copy() else {
        return Err(CloseRefused::NoMemory);
    };
    let Ok(run) = Run::start(workers.alloc, opening, &script.names, Mode::Serial) else {
        return Err(CloseRefused::NoMemory);
    };
    play(workers, run, &script.parts)
}

/// Plays a script on one thread, since a session that played a part of it differed. Writes that, too.
fn play_again(alloc: Global, script: Script, differs: Differs<Widget>) -> Result<Threaded, NoMemory>
    requires playable { IsPlayableScript script }
    requires differs { HasDifferedIn script differs }
    ensures { IfOk result (λ end. IsThreaded script end) }
{
    match last_lines(alloc, &script, &differs) {
        Ok(last) => ended(play_with(alloc, script, &last), differs),
        Err(refused) => {
            drop((script, differs));
            Err(refused)
        }
    }
}

/// The end of a script that was played on one thread after this difference.
fn ended(played: Result<Played, NoMemory>, differs: Differs<Widget>) -> Result<Threaded, NoMemory>
    ensures played { IfOk result (λ end. played ≡ Ok (record { text = end.text; stage = end.stage })) }
    ensures differs { IfOk result (λ end. end.differs ≡ Some differs) }
{
    match played {
        Ok(Played { text, stage }) => Ok(Threaded {
            text,
            stage,
            differs: Some(differs),
        }),
        Err(refused) => {
            drop(differs);
            Err(refused)
        }
    }
}

/// Plays a script on one thread, and writes its reports and then these last lines.
fn play_with(alloc: Global, script: Script, last: &[u8]) -> Result<Played, NoMemory>
    requires playable { IsPlayableScript script }
    ensures text { IfOk result (λ played. played.text ≡ out_text script ++ last.now) }
    ensures journal { IfOk result (λ played. played.stage.journal ≡ serial_journal script) }
    ensures opening { IfOk result (λ played. played.stage.opening ≡ script.opening) }
{
    let mut played = serial(alloc, script)?;
    let Ok(()) = played.text.append_bytes(last) else {
        drop(played);
        return Err(NoMemory);
    };
    Ok(played)
}

/// The last two lines of a script that is played again since a session found this.
fn last_lines(
    alloc: Global,
    script: &Script,
    differs: &Differs<Widget>,
) -> Result<Vec<u8>, NoMemory>
    requires playable { IsPlayableScript script.now }
    requires differs { HasDifferedIn script.now differs.now }
    ensures { IfOk result (λ text. text.items ≡ again_text script.now differs.now) }
{
    differs.stage().invariant();
    again_lines(alloc, &script.names, differs.difference())
}
