ghost use Rattle.std.specs.Prelude.{◌≡◌, true, false, [], ◌∷◌, ◌++◌, if◌then◌else◌, All, IfOk, OnOk, map};
ghost use Rattle.std.specs.List.{flat_map};
ghost use Rattle.tr_journal.specs.declared.Actor.TheVariants.{Player};
ghost use Rattle.tr_journal.specs.declared.Step.TheVariants.{Sync};
ghost use Rattle.tr_journal.specs.Openings.{tree_of};
ghost use Rattle.tr_journal.specs.Reports.{is_report};
ghost use Rattle.tr_journal.specs.Steps.{IsOwn, IsQuery};
ghost use Rattle.tr_widget.specs.Widgets.{widget_words};
ghost use Rattle.tr_grammar.specs.Scripts.{IsPlayablePart, IsPlayableScript};
ghost use Rattle.tr_run.specs.Runs.{makes, reporting};
ghost use Rattle.tr_run.specs.Views.{Does};
ghost use Rattle.tr_serial.specs.Outputs as spec;

use std::alloc::Global;
use tr_base::NoMemory;
use tr_client::Client;
use tr_journal::{Actor, NameOf, Query, Step};
use tr_output::Output;
use tr_reader::{Names, Part, Script};
use tr_run::{Finished, Mode, Run};
use tr_stage::Stage;
use tr_widget::{Widget, WidgetCmd};

/// The end of a script.
#[derive(Drop)]
pub struct Played {
    /// The text.
    pub text: Output,
    /// The stage after all steps.
    pub stage: Stage<Widget>,
}

/// Plays a script, and writes its reports.
pub fn serial(alloc: Global, script: Script) -> Result<Played, NoMemory>
    requires playable { IsPlayableScript script }
    ensures text { IfOk result (λ played. played.text ≡ spec.out_text script) }
    ensures journal { IfOk result (λ played. played.stage.journal ≡ spec.serial_journal script) }
    ensures opening { IfOk result (λ played. played.stage.opening ≡ script.opening) }
{
    let Finished { stage, text, .. } = play(alloc, script, Mode::Serial)?;
    Ok(Played { text, stage })
}

/// Plays a script, and writes its reports and, after each entry of the journal but a sync's or a report's,
/// the number of points that lag behind the windows.
pub fn check(alloc: Global, script: Script) -> Result<Played, NoMemory>
    requires playable { IsPlayableScript script }
    ensures text { IfOk result (λ played. played.text ≡ spec.check_text script) }
    ensures journal { IfOk result (λ played. played.stage.journal ≡ spec.serial_journal script) }
    ensures opening { IfOk result (λ played. played.stage.opening ≡ script.opening) }
{
    let Finished { stage, text, .. } = play(alloc, script, Mode::Check)?;
    Ok(Played { text, stage })
}

/// Plays a script in one of the modes.
pub(crate) fn play(alloc: Global, script: Script, mode: Mode) -> Result<Finished<Widget>, NoMemory>
    requires playable { IsPlayableScript script }
    ensures text { IfOk result (λ end. end.text ≡ spec.played_text mode script) }
    ensures sum { IfOk result (λ end. end.sum ≡ spec.played_sum mode script) }
    ensures journal { IfOk result (λ end. end.stage.journal ≡ spec.serial_journal script) }
    ensures opening { IfOk result (λ end. end.stage.opening ≡ script.opening) }
{
    let Script {
        opening,
        names,
        parts,
    } = script;
    let mut run = Run::start(alloc, opening, &names, mode)?;
    let Ok(()) = play_parts(&mut run, parts) else {
        drop(run);
        return Err(NoMemory);
    };
    Ok(run.finish())
}

/// Plays parts, one after another. Each later one begins with a sync.
fn play_parts<C: Client<Cmd = WidgetCmd>, N: NameOf>(
    run: &mut Run<C, N>,
    parts: Vec<Part>,
) -> Result<(), NoMemory>
    requires playable { All (IsPlayablePart (tree_of run.old.stage.opening).nodes) parts.items }
    ensures { OnOk result (Does C.Client widget_words run.old run.new (spec.cues parts.items)) }
{
    let mut is_later = false;
    for part in parts {
        play_part(run, is_later, part)?;
        is_later = true;
    }
    Ok(())
}

/// Plays a part: its reports, and then its steps. A later one begins with a sync.
fn play_part<C: Client<Cmd = WidgetCmd>, N: NameOf>(
    run: &mut Run<C, N>,
    is_later: bool,
    part: Part,
) -> Result<(), NoMemory>
    requires playable { IsPlayablePart (tree_of run.old.stage.opening).nodes part }
    ensures { OnOk result (Does C.Client widget_words run.old run.new
        ((if is_later then makes Player Sync ∷ [] else []) ++ spec.part_cues part)) }
{
    let Part { reports, steps } = part;
    begin(run, is_later)?;
    report_all(run, &reports)?;
    make_all(run, steps)
}

/// The player makes a sync before a later part.
pub(crate) fn begin<C: Client, N: NameOf>(
    run: &mut Run<C, N>,
    is_later: bool,
) -> Result<(), NoMemory>
    ensures { OnOk result (Does C.Client C.Cmd.words run.old run.new
        (if is_later then makes Player Sync ∷ [] else [])) }
{
    if is_later {
        run.make(Actor::Player, Step::Sync)
    } else {
        Ok(())
    }
}

/// Makes reports, one after another.
fn report_all<C: Client, N: NameOf>(run: &mut Run<C, N>, reports: &[Query]) -> Result<(), NoMemory>
    requires queries { All (IsQuery (tree_of run.old.stage.opening).nodes) reports.now }
    ensures { OnOk result (Does C.Client C.Cmd.words run.old run.new (flat_map reporting reports.now)) }
{
    for query in reports {
        run.report(*query)?;
    }
    Ok(())
}

/// The number of steps that are made before the memory of those steps is given back.
const GIVEN_BACK: usize = 4_096;

/// Makes steps, one after another. Their memory is given back meanwhile, since the journal grows by as many
/// entries.
pub(crate) fn make_all<C: Client, N: NameOf>(
    run: &mut Run<C, N>,
    steps: Vec<(Actor, Step<C::Cmd>)>,
) -> Result<(), NoMemory>
    requires own { All (λ made. IsOwn (tree_of run.old.stage.opening).nodes made.0 made.1) steps.items }
    requires other { All (λ made. is_report made.1 ≡ false) steps.items }
    ensures { OnOk result (Does C.Client C.Cmd.words run.old run.new
        (map (λ made. makes made.0 made.1) steps.items)) }
{
    // The next step is the last of these, so the others needn't move when it is taken out.
    let mut left = steps;
    left.reverse();
    while let Some((actor, step)) = left.pop() {
        give_back(&mut left);
        run.make(actor, step)?;
    }
    Ok(())
}

/// Gives back, from time to time, the memory of the steps that were taken out.
fn give_back<S>(left: &mut Vec<S>)
    ensures { left.new.items ≡ left.old.items }
{
    if left.len() % GIVEN_BACK == 0 {
        left.shrink_to_fit();
    }
}
