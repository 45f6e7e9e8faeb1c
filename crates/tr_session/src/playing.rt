//! The stage of a session, and the effect of a line on it.
ghost use Rattle.std.specs.Prelude.{◌≡◌, [], ◌∷◌, true, false, Err, IfOk, IfErr, OnOk};
ghost use Rattle.tr_grammar.specs.Texts.{is_plain};
ghost use Rattle.tr_journal.specs.Openings.{tree_of};
ghost use Rattle.tr_journal.specs.Reports.{is_report};
ghost use Rattle.tr_journal.specs.Steps.{IsOwn, IsQuery};
ghost use Rattle.tr_widget.specs.Widgets.{widget_words};
ghost use Rattle.tr_run.specs.Runs.{makes, reporting};
ghost use Rattle.tr_run.specs.Views.{Does};
ghost use Rattle.tr_run.specs.declared.Mode.TheVariants.{Serial};
ghost use Rattle.tr_session.specs.declared.errors.Unanswered.TheVariants as unanswered;
ghost use Rattle.tr_session.specs.Playing.{Acts, ActsBehindSync, FollowsLine, HasOutcome, HasStarted, IsMeant, IsWantOfMemory, KeepsLines, begun_by};

use crate::errors::Unanswered;
use crate::openings::script_of;
use crate::saving::Saved;
use std::alloc::Global;
use std::marker::Model;
use tr_base::NoMemory;
use tr_client::Client;
use tr_grammar::Meaning;
use tr_journal::{Actor, NameOf, Query, Step};
use tr_output::Output;
use tr_reader::{Names, Script};
use tr_run::{Finished, Mode, Run};
use tr_screen::Screen;
use tr_stage::Stage;
use tr_widget::{Widget, WidgetCmd};

/// The room for the outcome of a step.
const OUTCOME_ROOM: usize = 6144;

/// The stage of a session that has begun, and the names of its nodes and leaves.
#[derive(Drop)]
pub(crate) struct Played {
    names: Names,
    stage: Stage<Widget>,
}

impl Model for Played {
    ghost use Rattle.tr_run.specs.Views.{IsNamed};
    ghost use Rattle.tr_serial.specs.Outputs.{widgets};
    ghost use Rattle.tr_session.specs.Playing.{PlayedView};

    ghost Value = { PlayedView };

    ghost view = { λ p. record { names = p.names; stage = p.stage } };

    ghost invariant = { λ p. IsNamed widgets p.names p.stage };
}

/// The effect of a line on the stage.
#[derive(Drop)]
pub(crate) struct Followed {
    pub(crate) result: Result<(), Unanswered>,
    /// The text of a report.
    pub(crate) text: Output,
}

impl Played {
    /// The stage after these lines and `line`, which is `begin`.
    pub(crate) fn begin(alloc: Global, saved: &Saved, line: &[u8]) -> Result<Played, NoMemory>
        requires { is_plain line.now ≡ true }
        ensures { IfOk result (λ p. HasStarted p (begun_by saved.now.lines line.now)) }
    {
        let text = saved.opening(alloc, line)?;
        let Script {
            opening,
            names,
            parts,
        } = script_of(alloc, &text)?;
        drop(parts);
        let run = Run::start(alloc, opening, &names, Mode::Serial)?;
        let Finished { stage, .. } = run.finish();
        stage.invariant();
        Ok(Played { names, stage })
    }

    /// The screen as it is.
    pub(crate) fn screen(&self) -> &Screen
        ensures { result.now ≡ self.now.stage.screen }
    {
        self.stage.screen()
    }

    /// Does a line with this meaning, and a sync before it if it needs one. `out` gets the outcome of a step.
    pub(crate) fn follow(
        self,
        alloc: Global,
        said: Option<Meaning>,
        needs_sync: bool,
        out: &mut Vec<u8>,
    ) -> (Played, Followed)
        requires { IsMeant (tree_of self.stage.opening).nodes said }
        ensures { FollowsLine self result.0 said needs_sync result.1 out.old.items out.new.items }
    {
        let Played { names, stage } = self;
        let mut run = Run::over(alloc, stage, &names, Mode::Serial);
        let result = follow(&mut run, said, needs_sync, out);
        let Finished { stage, text, .. } = run.finish();
        stage.invariant();
        let followed = Followed { result, text };
        (Played { names, stage }, followed)
    }
}

/// Makes the sync, if one is needed, and then does a line with this meaning.
fn follow<C: Client<Cmd = WidgetCmd>, N: NameOf>(
    run: &mut Run<C, N>,
    said: Option<Meaning>,
    needs_sync: bool,
    out: &mut Vec<u8>,
) -> Result<(), Unanswered>
    requires meant { IsMeant (tree_of run.old.stage.opening).nodes said }
    requires mode { run.old.mode ≡ Serial }
    ensures { ActsBehindSync C.Client run.old run.new said needs_sync result
        out.old.items out.new.items }
{
    if !needs_sync {
        return act(run, said, out);
    }
    match run.make(Actor::Player, Step::Sync) {
        Ok(()) => match act(run, said, out) {
            Ok(()) => Ok(()),
            // The sync was made.
            Err(_) => Err(Unanswered::Lost),
        },
        Err(NoMemory) => {
            drop(said);
            Err(Unanswered::NoMemory)
        }
    }
}

/// Does a line with this meaning. It comes after `begin`.
fn act<C: Client<Cmd = WidgetCmd>, N: NameOf>(
    run: &mut Run<C, N>,
    said: Option<Meaning>,
    out: &mut Vec<u8>,
) -> Result<(), Unanswered>
    requires meant { IsMeant (tree_of run.old.stage.opening).nodes said }
    requires mode { run.old.mode ≡ Serial }
    ensures { Acts C.Client run.old run.new said result out.old.items out.new.items }
{
    let Some(meaning) = said else {
        return Ok(());
    };
    match meaning {
        Meaning::Step { actor, step } => make(run, actor, step, out),
        Meaning::Sync => make(run, Actor::Player, Step::Sync, out),
        Meaning::Report(query) => report(run, query),
        Meaning::Item(item) => {
            drop(item);
            Ok(())
        }
        Meaning::Version(_) => Ok(()),
        Meaning::Begin => Ok(()),
        Meaning::End => Ok(()),
    }
}

/// An actor makes a step, and `out` gets its outcome. There is room for the outcome before the step.
fn make<C: Client<Cmd = WidgetCmd>, N: NameOf>(
    run: &mut Run<C, N>,
    actor: Actor,
    step: Step<WidgetCmd>,
    out: &mut Vec<u8>,
) -> Result<(), Unanswered>
    requires own { IsOwn (tree_of run.old.stage.opening).nodes actor step }
    requires other { is_report step ≡ false }
    requires mode { run.old.mode ≡ Serial }
    ensures names { run.new.names ≡ run.old.names }
    ensures did { OnOk result (Does C.Client widget_words run.old run.new (makes actor step ∷ [])) }
    ensures outcome { OnOk result (HasOutcome run.new out.old.items out.new.items) }
    ensures err { result ≡ Err unanswered.NoMemory → KeepsLines run.old.stage run.new.stage }
    ensures fault { IfErr result (λ e. IsWantOfMemory e) }
{
    if out.reserve(OUTCOME_ROOM).is_err() {
        drop(step);
        return Err(Unanswered::NoMemory);
    }
    run.make(actor, step)?;
    match run.outcome(out) {
        Ok(()) => Ok(()),
        Err(NoMemory) => Err(Unanswered::Lost),
    }
}

/// The player makes a report. If memory runs out once the painter has made some of the steps that settle, the
/// stage is no longer that of the lines.
fn report<C: Client, N: NameOf>(run: &mut Run<C, N>, query: Query) -> Result<(), Unanswered>
    requires { IsQuery (tree_of run.old.stage.opening).nodes query }
    ensures names { run.new.names ≡ run.old.names }
    ensures did { OnOk result (Does C.Client C.Cmd.words run.old run.new (reporting query)) }
    ensures err { result ≡ Err unanswered.NoMemory → KeepsLines run.old.stage run.new.stage }
    ensures fault { IfErr result (λ e. IsWantOfMemory e) }
{
    let before = run.stage().journal().len();
    match run.report(query) {
        Ok(()) => Ok(()),
        Err(NoMemory) => {
            if run.stage().journal().len() == before {
                Err(Unanswered::NoMemory)
            } else {
                Err(Unanswered::Lost)
            }
        }
    }
}
