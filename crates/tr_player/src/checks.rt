ghost use Rattle.std.specs.Prelude.{◌≡◌, ◌*◌, nat_le};
ghost use Rattle.std.specs.List.{list_all};
ghost use Rattle.tr_player.specs.Checks as spec;

use tr_base::Size;
use tr_forest::Edit;
use tr_journal::{Actor, Step};
use tr_reader::{Part, Script};
use tr_widget::WidgetCmd;

/// The most steps that a check plays.
const MOST_STEPS: usize = 2_000;

/// The most pixels of a screen in a check.
const MOST_PIXELS: u32 = 65_536;

/// Whether a script is within the limits of a check: at most 2,000 steps, and no screen of more than
/// 65,536 pixels.
#[tactic(auto, unfolding(crate::specs::Checks::is_checkable))]
pub fn is_checkable(script: &Script) -> bool
    ensures { result ≡ spec.is_checkable script.now }
{
    if !are_few(&script.parts) {
        return false;
    }
    if !is_small(script.opening.tree().size()) {
        return false;
    }
    are_small_parts(&script.parts)
}

/// Whether there are at most `MOST_STEPS` steps.
fn are_few(parts: &[Part]) -> bool
    ensures { result ≡ nat_le (spec.step_count parts.now) 2000 }
{
    let mut left = MOST_STEPS;
    for part in parts {
        let count = part.steps.len();
        if count > left {
            return false;
        }
        left -= count;
    }
    true
}

/// Whether no step of the parts makes the screen greater than the limit.
fn are_small_parts(parts: &[Part]) -> bool
    ensures { result ≡ list_all spec.is_small_part parts.now }
{
    for part in parts {
        if !are_small(&part.steps) {
            return false;
        }
    }
    true
}

/// Whether no step makes the screen greater than the limit.
fn are_small(steps: &[(Actor, Step<WidgetCmd>)]) -> bool
    ensures { result ≡ list_all spec.is_small_step steps.now }
{
    for (_, step) in steps {
        if let Step::Alter {
            edit: Edit::Resize { size },
        } = step
            && !is_small(*size)
        {
            return false;
        }
    }
    true
}

/// Whether a screen of this size has at most `MOST_PIXELS` pixels.
fn is_small(size: Size) -> bool
    ensures { result ≡ spec.is_small size }
{
    u32::from(size.wide) * u32::from(size.high) <= MOST_PIXELS
}
