ghost use Rattle.std.specs.Prelude.{◌≡◌, ◌+ℤ◌, true, List, length, pos, ℕ};
ghost use Rattle.std.specs.List.{AllZip};
ghost use Rattle.tr_base.specs.declared.Point.{Point};
ghost use Rattle.tr_base.specs.Ops.{eff, resolved};
ghost use Rattle.tr_base.specs.Rects.{Edges, has_point, before_shift};
ghost use Rattle.tr_base.specs.Tiles.{tile_bit};
ghost use Rattle.tr_base.specs.Pixmaps.{pixmap_at};
ghost use Rattle.tr_region.specs.Points.{holds};
ghost use Rattle.tr_screen.specs.Pictures.{pixel_of};
ghost use Rattle.tr_paint.specs.Paints.{IsNearPaint, IsNearPoint};
ghost use Rattle.tr_paint.specs.Views.{viewed};
ghost use Rattle.tr_paint.specs.Traces.{look_of};
ghost use Rattle.tr_exec.specs.Executions.{IsOrigin, RegionLiesOn, screen_point, base_of};
ghost use Rattle.tr_exec.specs.Strokes.{IsCorner};
ghost use Rattle.tr_exec.specs.Unknown.{IsMovedBy};
ghost use Rattle.tr_exec.specs.Painted.{IsPainted, ShowsBatch};

use crate::brushes::{PixelsBrush, TextureBrush};
use crate::sites::Site;
use crate::texts::{PlacedText, paint_text};
use crate::tints::{Tint, paint_tint};
use crate::walks::paint_within;
use tr_base::{Env, Point, moved};
use tr_kernel::Mask;
use tr_paint::{Batch, Paint, PaintView};
use tr_region::Region;
use tr_repair::move_pixels;
use tr_screen::Screen;

impl Site<'_> {
    /// Executes the commands of a batch on the screen, given the points that each moves.
    pub fn paint_all(&self, env: &Env<'_>, batch: &Batch, moves: &[Region], screen: &mut Screen)
        requires origin { IsOrigin self.now.origin }
        requires visible { RegionLiesOn screen.old.size self.now.visible.now }
        requires moves { AllZip (IsMovedBy self.now.origin self.now.visible.now)
            batch.now moves.now }
        requires count { length moves.now ≡ length batch.now }
        ensures { let look = look_of env.now.kind env.now.font.now in
            let origin = self.now.origin in
            let visible = self.now.visible.now in
            (bad : List Edges) → ShowsBatch look (base_of origin visible bad screen.old) batch.now
            origin visible screen.old screen.new }
    {
        // Names `Paint`, so that the borrow checker knows the types that a view lends.
        let _none: Option<Paint> = None;
        for i in 0..batch.len() {
            let paint = batch.get(i);
            self.paint(env, &paint, &moves[i], screen);
        }
    }

    /// Executes a command on the screen.
    fn paint(&self, env: &Env<'_>, paint: &PaintView, moved: &Region, screen: &mut Screen)
        requires near { IsNearPaint (viewed paint.now) }
        requires origin { IsOrigin self.now.origin }
        requires visible { RegionLiesOn screen.old.size self.now.visible.now }
        requires moved { IsMovedBy self.now.origin self.now.visible.now (viewed paint.now) moved.now }
        ensures { let look = look_of env.now.kind env.now.font.now in
            IsPainted look (viewed paint.now) self.now.origin self.now.visible.now screen.old screen.new }
    {
        let area = self.area(paint);
        match paint {
            PaintView::Tint { op, .. } => {
                let tint = Tint {
                    area,
                    kind: env.kind,
                    op: *op,
                };
                paint_tint(screen, self.visible, tint);
            }
            PaintView::Texture {
                ops,
                tile,
                delta,
                ..
            } => {
                let brush = TextureBrush {
                    area,
                    mask: &Mask::of(*ops, env.kind),
                    tile,
                    at: self.place(*delta),
                };
                paint_within(screen, self.visible, &brush);
            }
            PaintView::Pixels { src, delta, .. } => {
                let brush = PixelsBrush {
                    area,
                    kind: env.kind,
                    src: src.pixmap(),
                    at: self.place(*delta),
                };
                paint_within(screen, self.visible, &brush);
            }
            PaintView::Text { at, ops, text, .. } => {
                let placed = PlacedText {
                    area,
                    at: self.place(*at),
                    ops: *ops,
                    text,
                };
                paint_text(screen, self.visible, env, &placed);
            }
            PaintView::Scroll { delta, .. } => move_pixels(screen, moved, *delta),
            PaintView::Spoil { .. } => {}
        }
    }

    /// The point of the screen at a point of the window.
    fn place(&self, q: Point) -> Point
        requires near { IsNearPoint q }
        requires origin { IsOrigin self.now.origin }
        ensures value { result ≡ screen_point self.now.origin q }
        ensures corner { IsCorner result }
    {
        Point {
            h: moved(q.h, self.origin.h),
            v: moved(q.v, self.origin.v),
        }
    }
}
