ghost use Rattle.std.specs.Prelude.{◌≡◌, ◌<◌, ◌++◌, All, IfErr, IfOk, length};
ghost use Rattle.tr_journal.specs.Openings.{tree_of};
ghost use Rattle.tr_widget.specs.Widgets.{widget_words};
ghost use Rattle.tr_grammar.specs.Scripts.{IsPlayablePart};
ghost use Rattle.tr_run.specs.declared.Mode.TheVariants.{Serial};
ghost use Rattle.tr_parts.specs.Plays.{HasInterleaved, journal_texts, played_threads};
ghost use Rattle.tr_parts.specs.Runs.{IsNewRun, HasPlayedNext, HasPlayedParts};
ghost use Rattle.tr_server.specs.Closing.{IfDiffers};
ghost use Rattle.tr_play.specs.Begun.{DiffersAmong, DiffersNext};
ghost use Rattle.tr_play.specs.Plays.{DiffersInPart};

use crate::gates::Gate;
use crate::threads::{Workers, make_side_by_side};
use std::sync::Wait;
use std::thread::Threads;
use tr_client::Client;
use tr_journal::NameOf;
use tr_parts::{begin_part, finish};
use tr_reader::Part;
use tr_run::{Finished, Run};
use tr_server::CloseRefused;
use tr_widget::WidgetCmd;

/// Plays the parts of a script, at least one, in a run before its first step. For each part the player
/// makes the reports, and then threads make the steps, in some order. The run's text gets the texts of the
/// journal's reports, and then the line that says that threads played. `Differs` means that a session found
/// its stage to differ from its passes, and has that stage; after any other `Err` the stage is dropped.
pub fn play<'a, C: Client<Cmd = WidgetCmd>, N: NameOf, R: Threads + Wait + Sync, G: Gate + Sync>(
    workers: &Workers<'_, R, G>,
    run: Run<'a, C, N>,
    parts: &[Part],
) -> Result<Finished<C>, CloseRefused<C>>
    requires begun { IsNewRun run }
    requires some { 0 < length parts.now }
    requires playable { All (IsPlayablePart (tree_of run.stage.opening).nodes) parts.now }
    ensures journal { IfOk result (λ end.
        HasInterleaved C.Client run.entry.stage.opening parts.now end.stage) }
    ensures text { IfOk result (λ end. end.text ≡ journal_texts C.Client widget_words
        run.entry.names run.entry.stage.opening end.stage.journal ++ played_threads) }
    ensures sum { IfOk result (λ end. end.sum ≡ run.entry.sum) }
    ensures differs { IfErr result (λ e. IfDiffers e (λ d.
        DiffersInPart C.Client run.entry.stage.opening parts.now d)) }
{
    let run = play_parts(workers, run, parts)?;
    run.stage().invariant();
    match finish(run) {
        Ok(end) => Ok(end),
        Err(_) => Err(CloseRefused::NoMemory),
    }
}

/// Plays parts, one after another. Each later one begins with a sync.
fn play_parts<'a, C: Client<Cmd = WidgetCmd>, N: NameOf, R: Threads + Wait + Sync, G: Gate + Sync>(
    workers: &Workers<'_, R, G>,
    run: Run<'a, C, N>,
    parts: &[Part],
) -> Result<Run<'a, C, N>, CloseRefused<C>>
    requires mode { run.mode ≡ Serial }
    requires playable { All (IsPlayablePart (tree_of run.stage.opening).nodes) parts.now }
    ensures ok { IfOk result (λ new.
        HasPlayedParts C.Client widget_words run.entry new parts.now) }
    ensures differs { IfErr result (λ e. IfDiffers e (λ d.
        DiffersAmong C.Client widget_words run.entry parts.now d)) }
{
    let mut run = run;
    let mut is_later = false;
    for part in parts {
        run = play_part(workers, run, is_later, part)?;
        is_later = true;
    }
    Ok(run)
}

/// Plays a part: its reports, and then its steps. A later one begins with a sync.
fn play_part<'a, C: Client<Cmd = WidgetCmd>, N: NameOf, R: Threads + Wait + Sync, G: Gate + Sync>(
    workers: &Workers<'_, R, G>,
    run: Run<'a, C, N>,
    is_later: bool,
    part: &Part,
) -> Result<Run<'a, C, N>, CloseRefused<C>>
    requires mode { run.mode ≡ Serial }
    requires playable { IsPlayablePart (tree_of run.stage.opening).nodes part.now }
    ensures ok { IfOk result (λ new.
        HasPlayedNext C.Client widget_words run.entry new is_later part.now) }
    ensures differs { IfErr result (λ e. IfDiffers e (λ d.
        DiffersNext C.Client widget_words run.entry is_later part.now d)) }
{
    let mut run = run;
    let Ok(()) = begin_part(&mut run, is_later, &part.reports) else {
        drop(run);
        return Err(CloseRefused::NoMemory);
    };
    run.stage().invariant();
    let (stage, paused) = run.pause();
    match make_side_by_side(workers, stage, &part.steps) {
        Ok(stage) => {
            stage.invariant();
            Ok(paused.resume(stage))
        }
        Err(refused) => {
            drop(paused);
            Err(refused)
        }
    }
}
