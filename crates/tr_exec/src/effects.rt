ghost use Rattle.std.specs.Prelude.{◌≡◌};
ghost use Rattle.tr_paint.specs.Paints.{IsNearPaint};
ghost use Rattle.tr_paint.specs.Views.{viewed};
ghost use Rattle.tr_exec.specs.Unknown as spec;

use tr_base::Point;
use tr_paint::PaintView;
use tr_region::Region;

/// The effect of a command on the knowledge of the points of its area.
#[derive(Clone, Copy)]
pub(crate) enum Effect {
    /// Each point is known afterwards.
    Tells,
    /// No point is known afterwards.
    Loses,
    /// Each point is known afterwards if it was before.
    Keeps,
    /// Each point is known afterwards if the point at this distance before it was.
    Moves(Point),
}

/// The effect of the command on the knowledge of the points of its area.
pub(crate) fn effect_of(paint: &PaintView) -> Effect
    requires { IsNearPaint (viewed paint.now) }
    ensures value { result ≡ spec.effect_of (viewed paint.now) }
    ensures near { spec.IsNearEffect result }
{
    match paint {
        PaintView::Scroll { delta, .. } => Effect::Moves(*delta),
        PaintView::Spoil { .. } => Effect::Loses,
        _ if paint.is_opaque() => Effect::Tells,
        _ => Effect::Keeps,
    }
}

/// Whether an effect moves no point and leaves the same points unknown, in any area: then the area
/// needn't be computed.
pub(crate) fn keeps_known(effect: Effect, unknown: &Region) -> bool
    ensures { result ≡ spec.keeps_known effect unknown.now }
{
    match effect {
        Effect::Tells => unknown.is_empty(),
        Effect::Keeps => true,
        Effect::Loses | Effect::Moves(_) => false,
    }
}
