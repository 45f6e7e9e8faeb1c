//! A text of two opaque operations is written in two colours: as one block if all its cells are visible, else
//! run by run. Any other text is painted through a mask.
ghost use Rattle.std.specs.Prelude.{◌≡◌, ◌*◌, ◌<◌, pos, ◌+ℤ◌, true, length, IsTrue};
ghost use Rattle.tr_base.specs.declared.Point.{Point};
ghost use Rattle.tr_base.specs.Layouts.{IsBetween};
ghost use Rattle.tr_base.specs.Ops.{opaque as is_opaque};
ghost use Rattle.tr_base.specs.Rects.{InReach, has_point, rect_of, before_shift};
ghost use Rattle.tr_region.specs.Points.{holds};
ghost use Rattle.tr_screen.specs.Pictures.{pixel_of};
ghost use Rattle.tr_screen.specs.Runs.{Repaints};
ghost use Rattle.tr_paint.specs.Paints.{cells_of, text_bit};
ghost use Rattle.tr_kernel.specs.Masks.{painted};
ghost use Rattle.tr_exec.specs.Strokes.{IsCorner};
ghost use Rattle.tr_exec.specs.Walks.{AreOn, in_area};

use crate::brushes::{LettersBrush, TextBrush};
use crate::strokes::GlyphRows;
use crate::walks::paint_within;
use tr_base::{Env, Line, Pair, Point, Rect, eff, opaque};
use tr_kernel::{Lettering, Mask};
use tr_region::Region;
use tr_screen::Screen;

/// A text whose cells begin at the point `at` of the screen and contain the area.
#[derive(Drop)]
pub(crate) struct PlacedText<'a> {
    pub area: Rect,
    pub at: Point,
    pub ops: Pair,
    pub text: &'a Line,
    pub ghost corner: { IsCorner at },
    pub ghost within: { (p : Point) → has_point area p ≡ true →
        has_point (rect_of (pos 0) (pos (8 * length text.now)) (pos 0) (pos 8)) (before_shift p at) ≡ true },
}

/// Applies the operations of a text to the points of a region that lie in its area.
pub(crate) fn paint_text(
    screen: &mut Screen,
    visible: &Region,
    env: &Env<'_>,
    text: &PlacedText<'_>,
)
    requires { AreOn screen.old.size (in_area (holds visible.now) text.now.area) }
    ensures { Repaints (in_area (holds visible.now) text.now.area)
        (λ p. painted (record { ops = text.now.ops; kind = env.now.kind })
        (text_bit env.now.font.now text.now.at text.now.text.now p) (pixel_of screen.old p))
        screen.old screen.new }
{
    if opaque(text.ops.one) && opaque(text.ops.zero) {
        write_text(screen, visible, env, text);
    } else {
        mask_text(screen, visible, env, text);
    }
}

/// The same for two opaque operations: each leaves one colour, whatever was there.
fn write_text(screen: &mut Screen, visible: &Region, env: &Env<'_>, text: &PlacedText<'_>)
    requires one { is_opaque text.now.ops.one ≡ true }
    requires zero { is_opaque text.now.ops.zero ≡ true }
    requires on { AreOn screen.old.size (in_area (holds visible.now) text.now.area) }
    ensures { Repaints (in_area (holds visible.now) text.now.area)
        (λ p. painted (record { ops = text.now.ops; kind = env.now.kind })
        (text_bit env.now.font.now text.now.at text.now.text.now p) (pixel_of screen.old p))
        screen.old screen.new }
{
    let lettering = Lettering {
        font: env.font,
        text: text.text,
        one: eff(env.kind, text.ops.one, 0),
        zero: eff(env.kind, text.ops.zero, 0),
    };
    if is_all_visible(visible, text) {
        screen.write_lettering(text.at, &lettering);
    } else {
        let brush = LettersBrush {
            area: text.area,
            lettering: &lettering,
            at: text.at,
        };
        paint_within(screen, visible, &brush);
    }
}

/// The same for any operations.
fn mask_text(screen: &mut Screen, visible: &Region, env: &Env<'_>, text: &PlacedText<'_>)
    requires { AreOn screen.old.size (in_area (holds visible.now) text.now.area) }
    ensures { Repaints (in_area (holds visible.now) text.now.area)
        (λ p. painted (record { ops = text.now.ops; kind = env.now.kind })
        (text_bit env.now.font.now text.now.at text.now.text.now p) (pixel_of screen.old p))
        screen.old screen.new }
{
    let brush = TextBrush {
        area: text.area,
        mask: &Mask::of(text.ops, env.kind),
        glyphs: &GlyphRows::of(env.font, text.text),
        at: text.at,
    };
    paint_within(screen, visible, &brush);
}

/// Whether the area of a text has all its cells, of which there are some, and all of them are visible in one
/// rectangle.
fn is_all_visible(visible: &Region, text: &PlacedText<'_>) -> bool
    ensures some { IsTrue result → 0 < length text.now.text.now }
    ensures cells { IsTrue result → text.now.area ≡ cells_of text.now.at (length text.now.text.now) }
    ensures visible { IsTrue result → (p : Point) → has_point text.now.area p ≡ true →
        holds visible.now p ≡ true }
{
    !text.text.bytes().is_empty() && has_all_cells(text) && is_in_one_rect(&text.area, visible)
}

/// Whether the area of a text has all its cells.
fn has_all_cells(text: &PlacedText<'_>) -> bool
    ensures { IsTrue result → text.now.area ≡ cells_of text.now.at (length text.now.text.now) }
{
    text.area == cells(text)
}

/// The cells of a text.
fn cells(text: &PlacedText<'_>) -> Rect
    ensures { result ≡ cells_of text.now.at (length text.now.text.now) }
{
    Rect::edges(text.at.h, end_of(text), text.at.v, text.at.v + 8)
}

/// The column after a text's last cell.
fn end_of(text: &PlacedText<'_>) -> i32
    ensures value { result ≡ text.now.at.h +ℤ pos (8 * length text.now.text.now) }
    ensures reach { InReach result }
{
    text.at.h + 8 * text.text.bytes().len() as i32
}

/// Whether a region is one rectangle that has all points of an area.
fn is_in_one_rect(area: &Rect, visible: &Region) -> bool
    ensures { IsTrue result → (p : Point) → has_point area.now p ≡ true → holds visible.now p ≡ true }
{
    let rects = visible.rects();
    if rects.len() == 1 {
        is_between(area, &rects[0])
    } else {
        false
    }
}

/// Whether the edges of a rectangle lie between those of another.
fn is_between(inner: &Rect, outer: &Rect) -> bool
    ensures { IsTrue result → IsBetween inner.now outer.now }
{
    let west = outer.west() <= inner.west();
    let east = inner.east() <= outer.east();
    let north = outer.north() <= inner.north();
    let south = inner.south() <= outer.south();
    west && east && north && south
}
