ghost use Rattle.std.specs.Prelude.{◌≡◌};
ghost use Rattle.tr_forest.specs.Nodes.{Nodes};
ghost use Rattle.tr_journal.specs.Steps as spec;
ghost use Rattle.tr_journal.specs.Steps.{AreLevels, IsStep};

use crate::steps::{Actor, Step};
use tr_levels::{Held, Level};

/// Whether this actor has the right to make the step.
pub fn may<M>(actor: Actor, step: &Step<M>) -> bool
    ensures { result ≡ spec.may actor step.now }
{
    match step {
        Step::Act { leaf, .. }
        | Step::Mark { leaf, .. }
        | Step::Take { leaf }
        | Step::SetCage { leaf, .. }
        | Step::Own { leaf, .. }
        | Step::Disown { leaf, .. }
        | Step::Read { leaf, .. } => actor == Actor::Leaf(*leaf),
        Step::Mouse { .. } | Step::Motion { .. } | Step::Key { .. } | Step::Alter { .. } => {
            actor == Actor::Desk
        }
        Step::Flush { leaf } | Step::Repaint { leaf } => {
            actor == Actor::Leaf(*leaf) || actor == Actor::Painter
        }
        Step::PaintFrame => actor == Actor::Painter,
        Step::Sync | Step::Report { .. } => actor == Actor::Player,
    }
}

/// Whether the held levels suffice for the step. For a repaint, the leaf's share may replace the tree's
/// lock.
pub fn covers<M>(held: Held, step: &Step<M>) -> bool
    ensures { result ≡ spec.covers held step.now }
{
    match step {
        Step::Act { leaf, .. } => is_held(&held, Level::Win(*leaf)),
        Step::Mark { leaf, .. }
        | Step::Take { leaf }
        | Step::SetCage { leaf, .. }
        | Step::Own { leaf, .. }
        | Step::Disown { leaf, .. }
        | Step::Read { leaf, .. } => {
            is_held(&held, Level::Mu) && is_held(&held, Level::Win(*leaf))
        }
        Step::Repaint { leaf } => is_held(&held, Level::Mu) || is_held(&held, Level::Share(*leaf)),
        _ => is_held(&held, Level::Mu),
    }
}

/// The levels that a step requires; for a repaint it is `Mu`.
pub fn stated<M>(step: &Step<M>) -> Held
    ensures value { result ≡ spec.stated step.now }
    ensures levels { (t : Nodes) → IsStep t step.now → AreLevels t result }
{
    let none = Held::none();
    match step {
        Step::Act { leaf, .. } => none.with(Level::Win(*leaf)),
        Step::Mark { leaf, .. }
        | Step::Take { leaf }
        | Step::SetCage { leaf, .. }
        | Step::Own { leaf, .. }
        | Step::Disown { leaf, .. }
        | Step::Read { leaf, .. } => none.with(Level::Mu).with(Level::Win(*leaf)),
        _ => none.with(Level::Mu),
    }
}

/// Whether the level is held.
fn is_held(held: &Held, level: Level) -> bool
    ensures { result ≡ spec.is_level_held held.now level }
{
    held.has(level)
}
