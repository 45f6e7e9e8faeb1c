//! One operation on the points of an area. It is chosen once, and not for each row.
ghost use Rattle.std.specs.Prelude.{◌≡◌, true};
ghost use Rattle.tr_base.specs.Ops.{eff as eff_of, exchanged, opaque as is_opaque};
ghost use Rattle.tr_base.specs.Rects.{Edges};
ghost use Rattle.tr_region.specs.Points.{holds};
ghost use Rattle.tr_screen.specs.Pictures.{pixel_of};
ghost use Rattle.tr_screen.specs.Runs.{Repaints};
ghost use Rattle.tr_exec.specs.Walks.{AreOn, in_area};

use crate::brushes::{ExchangeBrush, FillBrush};
use crate::walks::paint_within;
use tr_base::{Kind, Op, Rect, eff, resolved};
use tr_region::Region;
use tr_screen::Screen;

/// An operation on pixels of a kind, and the area in which it is applied.
#[derive(Clone, Copy)]
pub(crate) struct Tint {
    pub area: Rect,
    pub kind: Kind,
    pub op: Op,
}

/// Applies the operation to the points of a region that lie in the area.
pub(crate) fn paint_tint(screen: &mut Screen, visible: &Region, tint: Tint)
    requires { AreOn screen.old.size (in_area (holds visible.now) tint.area) }
    ensures { Repaints (in_area (holds visible.now) tint.area)
        (λ p. eff_of tint.kind tint.op (pixel_of screen.old p)) screen.old screen.new }
{
    match tint.op {
        Op::Transparent => {}
        Op::Exchange(a, b) => {
            let brush = ExchangeBrush {
                area: tint.area,
                x: resolved(tint.kind, a),
                y: resolved(tint.kind, b),
            };
            paint_within(screen, visible, &brush);
        }
        Op::Bg | Op::Fg | Op::Set(_) => fill_tint(screen, visible, tint),
    }
}

/// The same for an operation that leaves one pixel, whatever was there.
fn fill_tint(screen: &mut Screen, visible: &Region, tint: Tint)
    requires opaque { is_opaque tint.op ≡ true }
    requires on { AreOn screen.old.size (in_area (holds visible.now) tint.area) }
    ensures { Repaints (in_area (holds visible.now) tint.area)
        (λ p. eff_of tint.kind tint.op (pixel_of screen.old p)) screen.old screen.new }
{
    let brush = FillBrush {
        area: tint.area,
        pixel: eff(tint.kind, tint.op, 0),
    };
    paint_within(screen, visible, &brush);
}
