ghost use Rattle.std.specs.Prelude.{◌≡◌, ◌<◌, ◌-◌, ◌++◌, [], ◌∷◌, false, not, ◌&&◌, ◌⊎◌, All, IsSome, IsSomeAnd, IfOk, OnOk, OnErr, length, slice_get};
ghost use Rattle.tr_levels.specs.declared.Level.TheVariants.{Mu};
ghost use Rattle.tr_journal.specs.declared.Actor.TheVariants.{Painter, Player};
ghost use Rattle.tr_journal.specs.declared.Query.TheVariants.{Dump};
ghost use Rattle.tr_journal.specs.declared.Step.TheVariants.{Report};
ghost use Rattle.tr_journal.specs.Journals.{JournalLine};
ghost use Rattle.tr_journal.specs.Openings.{tree_of};
ghost use Rattle.tr_journal.specs.Reports.{is_report};
ghost use Rattle.tr_journal.specs.Steps.{IsOwn, IsQuery, stated};
ghost use Rattle.tr_machine.specs.Pictures.{render};
ghost use Rattle.tr_dump.specs.Reports.{outcome_text};
ghost use Rattle.tr_journal.specs.Names.{names_of};
ghost use Rattle.tr_machine.specs.Replays.{line_of_step, lines_of_steps};
ghost use Rattle.tr_machine.specs.SettleSteps.{settling_lines};
ghost use Rattle.tr_stage.specs.Making.{MakesWithoutReply};
ghost use Rattle.tr_stage.specs.Stages.{IsPainters, is_note, state};
ghost use Rattle.tr_run.specs.Runs.{makes, reporting};
ghost use Rattle.tr_run.specs.Texts.{is_check, sum_after, text_of_step};
ghost use Rattle.tr_run.specs.Views.{
  AreNamed,
  IsNamed,
  AddsLines,
  AddsSome,
  AddsUntold,
  Does,
  DoesSome,
  IsUnchanged,
  TellsUnmade,
};

use crate::modes::Mode;
use crate::reports::{append_lag, append_report};
use crate::sums::sum_of;
use std::alloc::Global;
use std::marker::Model;
use tr_base::NoMemory;
use tr_client::Client;
use tr_dump::outcome;
use tr_journal::{Actor, Attempt, NameOf, Opening, Query, Step, stated};
use tr_output::Output;
use tr_stage::Stage;

/// A stage on which steps and reports are made one after another, and their text. Each node and each
/// leaf has a name.
#[derive(Drop)]
pub struct Run<'a, C: Client, N: NameOf> {
    alloc: Global,
    stage: Stage<C>,
    names: &'a N,
    mode: Mode,
    text: Output,
    sum: u64,
}

impl<'a, C: Client, N: NameOf> Model for Run<'a, C, N> {
    ghost use Rattle.tr_journal.specs.Names.{names_of};
    ghost use Rattle.tr_run.specs.Views.{IsNamed, RunView};

    ghost Value = { RunView C C.Cmd };

    ghost view = { λ r. record {
      stage = r.stage;
      names = names_of N.NameOf r.names.now;
      mode = r.mode;
      text = r.text;
      sum = r.sum;
    } };

    ghost invariant = { λ r. IsNamed C.Client (names_of N.NameOf r.names.now) r.stage };
}

/// The end of a run.
#[derive(Drop)]
pub struct Finished<C: Client> {
    /// The stage after all steps.
    pub stage: Stage<C>,
    /// The text.
    pub text: Output,
    /// The sum of the pixels of the last dump, if there is no text.
    pub sum: u64,
}

impl<'a, C: Client, N: NameOf> Run<'a, C, N> {
    /// A run of an opening whose root was set, before any step.
    pub fn start(
        alloc: Global,
        opening: Opening<C>,
        names: &'a N,
        mode: Mode,
    ) -> Result<Run<'a, C, N>, NoMemory>
        requires ready { IsSome (tree_of opening).nodes.root }
        requires named { AreNamed (names_of N.NameOf names.now) (tree_of opening).nodes }
        ensures opening { IfOk result (λ run. run.stage.opening ≡ opening) }
        ensures journal { IfOk result (λ run. run.stage.journal ≡ []) }
        ensures names { IfOk result (λ run. run.names ≡ names_of N.NameOf names.now) }
        ensures mode { IfOk result (λ run. run.mode ≡ mode) }
        ensures text { IfOk result (λ run. run.text ≡ []) }
        ensures sum { IfOk result (λ run. run.sum ≡ 0) }
    {
        match Stage::start(alloc, opening) {
            Ok(stage) => Ok(Run {
                alloc,
                stage,
                names,
                mode,
                text: Output::new(alloc),
                sum: 0,
            }),
            Err(opening) => {
                drop(opening);
                Err(NoMemory)
            }
        }
    }

    /// A run of a stage on which steps may have been made. Each of its nodes and leaves has a name, and so
    /// have those in its journal.
    pub fn over(alloc: Global, stage: Stage<C>, names: &'a N, mode: Mode) -> Run<'a, C, N>
        requires { IsNamed C.Client (names_of N.NameOf names.now) stage }
        ensures stage { result.stage ≡ stage }
        ensures names { result.names ≡ names_of N.NameOf names.now }
        ensures mode { result.mode ≡ mode }
        ensures text { result.text ≡ [] }
        ensures sum { result.sum ≡ 0 }
    {
        Run {
            alloc,
            stage,
            names,
            mode,
            text: Output::new(alloc),
            sum: 0,
        }
    }

    /// Appends the outcome of the last step to `out`: its answer and the events that it sent.
    pub fn outcome(&self, out: &mut Vec<u8>) -> Result<(), NoMemory>
        requires { 0 < length self.now.stage.journal }
        ensures ok { OnOk result (IsSomeAnd
            (slice_get self.now.stage.journal (length self.now.stage.journal - 1))
            (λ line. out.new.items ≡ out.old.items ++ outcome_text self.now.names line)) }
        ensures err { OnErr result (out.new.items ≡ out.old.items) }
    {
        let journal = self.stage.journal();
        outcome(journal, journal.len() - 1, self.names, out)
    }

    /// An actor makes a step other than a report, holding exactly the step's levels. For want of memory
    /// nothing changes; but in a check the step may be made, and the text of the screen's lag be missing.
    #[inline(always)]
    pub fn make(&mut self, actor: Actor, step: Step<C::Cmd>) -> Result<(), NoMemory>
        requires own { IsOwn (tree_of self.old.stage.opening).nodes actor step }
        requires other { is_report step ≡ false }
        ensures ok { OnOk result (Does C.Client C.Cmd.words self.old self.new (makes actor step ∷ [])) }
        ensures err { OnErr result (IsUnchanged self.old self.new ⊎ AddsUntold self.old self.new
            (line_of_step C.Client (state C.Client self.old.stage) actor (stated step) step)) }
    {
        let lags = is_lagging(self.mode, &step);
        self.add(actor, step)?;
        if lags {
            append_lag(self.alloc, &self.stage, &mut self.text)?;
        }
        Ok(())
    }

    /// The player makes a report. The screen is settled before it is dumped. For want of memory the report
    /// isn't made, though its text may be added; the painter may have made the first of the steps that
    /// settle.
    pub fn report(&mut self, query: Query) -> Result<(), NoMemory>
        requires { IsQuery (tree_of self.old.stage.opening).nodes query }
        ensures ok { OnOk result (Does C.Client C.Cmd.words self.old self.new (reporting query)) }
        ensures err { OnErr result (DoesSome C.Client C.Cmd.words self.old self.new (reporting query)) }
    {
        match query {
            Query::Dump => self.dump(),
            _ => self.answer(query),
        }
    }

    /// The stage so far.
    pub fn stage(&self) -> &Stage<C>
        ensures { result.now ≡ self.now.stage }
    {
        &self.stage
    }

    /// Takes the stage out, so that others may make steps on it.
    pub fn pause(self) -> (Stage<C>, Paused<'a, N>)
        ensures stage { result.0 ≡ self.entry.stage }
        ensures names { result.1.names ≡ self.entry.names }
        ensures mode { result.1.mode ≡ self.entry.mode }
        ensures text { result.1.text ≡ self.entry.text }
        ensures sum { result.1.sum ≡ self.entry.sum }
        ensures invariant { IsNamed C.Client self.entry.names self.entry.stage }
    {
        let Run {
            alloc,
            stage,
            names,
            mode,
            text,
            sum,
        } = self;
        let paused = Paused {
            alloc,
            names,
            mode,
            text,
            sum,
        };
        (stage, paused)
    }

    /// The end of the run.
    pub fn finish(self) -> Finished<C>
        ensures stage { result.stage ≡ self.entry.stage }
        ensures text { result.text ≡ self.entry.text }
        ensures sum { result.sum ≡ self.entry.sum }
        ensures invariant { IsNamed C.Client self.entry.names self.entry.stage }
    {
        let Run {
            stage,
            text,
            sum,
            ..
        } = self;
        Finished { stage, text, sum }
    }

    /// An actor makes a step, holding exactly the step's levels. It adds no text.
    #[inline(always)]
    fn add(&mut self, actor: Actor, step: Step<C::Cmd>) -> Result<(), NoMemory>
        requires own { IsOwn (tree_of self.old.stage.opening).nodes actor step }
        ensures made { MakesWithoutReply C.Client self.old.stage self.new.stage actor
            (stated step) step result }
        ensures names { self.new.names ≡ self.old.names }
        ensures mode { self.new.mode ≡ self.old.mode }
        ensures text { self.new.text ≡ self.old.text }
        ensures sum { self.new.sum ≡ self.old.sum }
    {
        self.stage.invariant();
        let level = stated(&step);
        self.stage.step(Attempt { actor, level, step })?;
        Ok(())
    }

    /// The player dumps the screen, after it is settled.
    fn dump(&mut self) -> Result<(), NoMemory>
        ensures ok { OnOk result (Does C.Client C.Cmd.words self.old self.new (reporting Dump)) }
        ensures err { OnErr result (DoesSome C.Client C.Cmd.words self.old self.new (reporting Dump)) }
    {
        self.settle()?;
        self.answer(Query::Dump)?;
        Ok(())
    }

    /// The player makes a report, and its text is added. The stage is settled before a dump.
    fn answer(&mut self, query: Query) -> Result<(), NoMemory>
        requires values { IsQuery (tree_of self.old.stage.opening).nodes query }
        requires settled { query ≡ Dump →
            self.old.stage.screen ≡ render C.Client (state C.Client self.old.stage) }
        ensures ok { OnOk result (AddsLines C.Client C.Cmd.words self.old self.new
            (line_of_step C.Client (state C.Client self.old.stage) Player (Mu ∷ []) (Report query) ∷ [])) }
        ensures err { OnErr result (IsUnchanged self.old self.new ⊎ TellsUnmade C.Client C.Cmd.words
            self.old self.new
            (line_of_step C.Client (state C.Client self.old.stage) Player (Mu ∷ []) (Report query))) }
    {
        self.tell(&query)?;
        self.add(Actor::Player, Step::Report { query })?;
        Ok(())
    }

    /// The painter brings the screen up to date. An `Err` comes before one of the lines that this makes, or
    /// before any line that is due after them.
    fn settle(&mut self) -> Result<(), NoMemory>
        ensures lines { OnOk result (AddsLines C.Client C.Cmd.words self.old self.new
            (settling_lines C.Client (state C.Client self.old.stage))) }
        ensures screen { OnOk result (self.new.stage.screen
            ≡ render C.Client (state C.Client self.new.stage)) }
        ensures err { OnErr result ((line : JournalLine C.Cmd) → AddsSome C.Client C.Cmd.words
            self.old self.new (settling_lines C.Client (state C.Client self.old.stage) ++ line ∷ [])) }
    {
        self.stage.invariant();
        let steps = self.stage.steps_to_settle()?;
        self.paint_all(steps)?;
        self.stage.invariant();
        Ok(())
    }

    /// The painter makes steps, one after another, under the tree's lock.
    fn paint_all(&mut self, steps: Vec<Step<C::Cmd>>) -> Result<(), NoMemory>
        requires { All (IsPainters (tree_of self.old.stage.opening).nodes) steps.items }
        ensures ok { OnOk result (AddsLines C.Client C.Cmd.words self.old self.new
            (lines_of_steps C.Client Painter (Mu ∷ []) (state C.Client self.old.stage) steps.items)) }
        ensures err { OnErr result (AddsSome C.Client C.Cmd.words self.old self.new
            (lines_of_steps C.Client Painter (Mu ∷ []) (state C.Client self.old.stage) steps.items)) }
    {
        for step in steps {
            self.make(Actor::Painter, step)?;
        }
        Ok(())
    }

    /// Writes a report, or adds up the pixels of a dump.
    fn tell(&mut self, query: &Query) -> Result<(), NoMemory>
        requires values { IsQuery (tree_of self.old.stage.opening).nodes query.now }
        requires settled { query.now ≡ Dump →
            self.old.stage.screen ≡ render C.Client (state C.Client self.old.stage) }
        ensures stage { self.new.stage ≡ self.old.stage }
        ensures names { self.new.names ≡ self.old.names }
        ensures mode { self.new.mode ≡ self.old.mode }
        ensures text { OnOk result (self.new.text ≡ self.old.text ++ text_of_step C.Client C.Cmd.words
            self.old.names self.old.mode self.old.stage.journal (state C.Client self.old.stage)
            (Report query.now)) }
        ensures sum { OnOk result (self.new.sum ≡ sum_after C.Client
            self.old.mode (state C.Client self.old.stage) self.old.sum (Report query.now)) }
        ensures err_text { OnErr result (self.new.text ≡ self.old.text) }
        ensures err_sum { OnErr result (self.new.sum ≡ self.old.sum) }
    {
        match (self.mode, query) {
            (Mode::Gen, Query::Dump) => {
                self.sum = sum_of(self.stage.screen());
                Ok(())
            }
            (Mode::Gen, _) => Ok(()),
            _ => append_report(&self.stage, self.names, query, &mut self.text),
        }
    }
}

/// A run without its stage.
#[derive(Drop)]
pub struct Paused<'a, N: NameOf> {
    alloc: Global,
    names: &'a N,
    mode: Mode,
    text: Output,
    sum: u64,
}

impl<'a, N: NameOf> Model for Paused<'a, N> {
    ghost use Rattle.tr_journal.specs.Names.{names_of};
    ghost use Rattle.tr_run.specs.Views.{PausedView};

    ghost Value = { PausedView };

    ghost view = { λ r. record {
      names = names_of N.NameOf r.names.now;
      mode = r.mode;
      text = r.text;
      sum = r.sum;
    } };
}

impl<'a, N: NameOf> Paused<'a, N> {
    /// Continues with a stage. Each of its nodes and leaves has a name, and so have those in its journal.
    pub fn resume<C: Client>(self, stage: Stage<C>) -> Run<'a, C, N>
        requires named { IsNamed C.Client self.names stage }
        ensures stage { result.stage ≡ stage }
        ensures names { result.names ≡ self.entry.names }
        ensures mode { result.mode ≡ self.entry.mode }
        ensures text { result.text ≡ self.entry.text }
        ensures sum { result.sum ≡ self.entry.sum }
    {
        let Paused {
            alloc,
            names,
            mode,
            text,
            sum,
        } = self;
        Run {
            alloc,
            stage,
            names,
            mode,
            text,
            sum,
        }
    }
}

/// Whether the text has the screen's lag after a step.
fn is_lagging<M>(mode: Mode, step: &Step<M>) -> bool
    ensures { result ≡ is_check mode && not (is_note step.now) }
{
    mode == Mode::Check && !matches!(step, Step::Sync | Step::Report { .. })
}
