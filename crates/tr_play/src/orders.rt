//! A long part with the steps of one actor. None of them can be made beside another one, so no session is
//! started.
ghost use Rattle.std.specs.Prelude.{◌≡◌, ◌++◌, ◌∷◌, [], All, IfErr, IfOk, OnOk};
ghost use Rattle.tr_journal.specs.Openings.{tree_of};
ghost use Rattle.tr_journal.specs.Steps.{IsOwn, stated};
ghost use Rattle.tr_machine.specs.Replays.{line_of_step};
ghost use Rattle.tr_stage.specs.Stages.{state};
ghost use Rattle.tr_parts.specs.Turns.{HasRun, IsPartStep};
ghost use Rattle.tr_server.specs.Closing.{IfDiffers};
ghost use Rattle.tr_play.specs.Plays.{HasLeft};

use crate::gates::Gate;
use crate::threads::Workers;
use std::sync::Wait;
use tr_base::{Command, NoMemory};
use tr_client::Client;
use tr_journal::{Actor, Attempt, Step, stated};
use tr_server::CloseRefused;
use tr_stage::Stage;

/// Of so many steps or fewer a session costs little.
const FEW_STEPS: usize = 1000;

/// Whether these are many steps, and all are those of one actor.
pub(crate) fn is_by_one<M: Command>(steps: &[(Actor, Step<M>)]) -> bool {
    for made in steps {
        if made.0 != steps[0].0 {
            return false;
        }
    }
    FEW_STEPS < steps.len()
}

/// Makes the steps of a part on a stage, on this thread, in the script's order. The gate is called before
/// each. If memory runs out, the stage is dropped.
pub(crate) fn make_in_order<C: Client, R: Wait, G: Gate>(
    workers: &Workers<'_, R, G>,
    stage: Stage<C>,
    steps: &[(Actor, Step<C::Cmd>)],
) -> Result<Stage<C>, CloseRefused<C>>
    requires { All (IsPartStep (tree_of stage.opening).nodes) steps.now }
    ensures ok { IfOk result (λ s. HasRun stage s steps.now) }
    ensures differs { IfErr result (λ e. IfDiffers e (λ d. HasLeft stage steps.now d)) }
{
    let mut stage = stage;
    match make_all(workers, &mut stage, steps) {
        Ok(()) => Ok(stage),
        Err(_) => {
            drop(stage);
            Err(CloseRefused::NoMemory)
        }
    }
}

/// The same on a stage that is lent. If memory runs out, the first of them were made.
fn make_all<C: Client, R: Wait, G: Gate>(
    workers: &Workers<'_, R, G>,
    stage: &mut Stage<C>,
    steps: &[(Actor, Step<C::Cmd>)],
) -> Result<(), NoMemory>
    requires { All (IsPartStep (tree_of stage.old.opening).nodes) steps.now }
    ensures { OnOk result (HasRun stage.old stage.new steps.now) }
{
    let mut number: u32 = 0;
    for made in steps {
        number = number.saturating_add(1);
        workers.gate.turn(workers.rt, made.0, number);
        let step = made.1.copy(workers.alloc)?;
        make(stage, made.0, step)?;
    }
    Ok(())
}

/// An actor makes a step, holding exactly the step's levels.
fn make<C: Client>(stage: &mut Stage<C>, actor: Actor, step: Step<C::Cmd>) -> Result<(), NoMemory>
    requires own { IsOwn (tree_of stage.old.opening).nodes actor step }
    ensures opening { stage.new.opening ≡ stage.old.opening }
    ensures journal { OnOk result (stage.new.journal ≡ stage.old.journal ++
        line_of_step C.Client (state C.Client stage.old) actor (stated step) step ∷ []) }
{
    let level = stated(&step);
    stage.step(Attempt { actor, level, step })?;
    Ok(())
}
