//! Random batches, each also traced back point by point, by a plain and slow function whose
//! contract is the definition.
ghost use Rattle.std.specs.Prelude.{◌≡◌, ◌-ℤ◌, ◌/◌, true, Some, None, if◌then◌else◌, length, slice_index, unsigned_abs};
ghost use Rattle.tr_base.specs.Rects.{InReach, before_shift, has_point, whole_of};
ghost use Rattle.tr_base.specs.Fonts.{glyph_bit};
ghost use Rattle.tr_region.specs.Points.{holds};
ghost use Rattle.tr_screen.specs.Pictures.{pixel_of};
ghost use Rattle.tr_paint.specs.Paints as spec;
ghost use Rattle.tr_paint.specs.Paints.{IsNearZero, IsNearPaint, IsNearPoint};
ghost use Rattle.tr_paint.specs.Batches.{IsBatch};
ghost use Rattle.tr_paint.specs.Traces.{after, look_of};
ghost use Rattle.tr_exec.specs.Executions.{IsOrigin, RegionLiesOn, screen_point, base_of};
ghost use Rattle.tr_exec.specs.Strokes.{IsCorner, IsInCells};

use super::draws::Draw;
use super::ends::made;
use std::process::Abort;
use tr_base::{Env, Font, Line, Op, Pair, Point, eff, is_set, moved, tile_bit, whole};
use tr_exec::execute;
use tr_paint::{Batch, Paint};
use tr_region::Region;
use tr_screen::Screen;

/// What there is before a batch.
#[derive(Clone, Copy)]
struct Ground<'a> {
    env: Env<'a>,
    origin: Point,
    visible: &'a Region,
    bad: &'a Region,
    screen: &'a Screen,
    ghost corner: { IsOrigin origin },
    ghost within: { RegionLiesOn screen.now.size visible.now },
}

impl Ground<'_> {
    /// The point of the screen at which a point of the window lies.
    fn place(&self, q: Point) -> Point
        requires { IsCorner q }
        ensures { result ≡ screen_point self.now.origin q }
    {
        Point {
            h: moved(q.h, self.origin.h),
            v: moved(q.v, self.origin.v),
        }
    }

    /// The pixel of a point of the screen, if it is known before any command.
    fn known(&self, p: Point) -> Option<u8>
        requires { has_point (whole_of self.now.screen.now.size) p ≡ true }
        ensures { let bad = holds self.now.bad.now p in
            result ≡ (if bad then None else Some (pixel_of self.now.screen.now p)) }
    {
        if self.bad.has(p) {
            None
        } else {
            Some(self.screen.at(p))
        }
    }

    /// The colour of a point of the window after commands, traced back from the last one; none
    /// where it isn't known.
    fn traced(&self, paints: &[Paint], q: Point) -> Option<u8>
        requires batch { IsBatch paints.now }
        requires reach { IsCorner q }
        ensures { let look = look_of self.now.env.kind self.now.env.font.now in
            let base = base_of self.now.origin self.now.visible.now self.now.bad.now
            self.now.screen.now in
            result ≡ after look base paints.now q }
    {
        let p = self.place(q);
        if !self.visible.has(p) {
            return None;
        }
        let Some((paint, before)) = paints.split_last() else {
            return self.known(p);
        };
        if !paint.area().has(q) {
            return self.traced(before, q);
        }
        match paint {
            Paint::Scroll { delta, .. } => self.traced(before, earlier(q, *delta)),
            Paint::Spoil { .. } => None,
            _ => {
                let op = op_at(self.env.font, paint, q);
                if paint.is_opaque() {
                    return Some(eff(self.env.kind, op, 0));
                }
                Some(eff(self.env.kind, op, self.traced(before, q)?))
            }
        }
    }

    /// What the trace tells of a point of the screen: its pixel, where that is known, and whether
    /// the point is bad.
    fn told(&self, paints: &[Paint], p: Point) -> (Option<u8>, bool)
        requires batch { IsBatch paints.now }
        requires h { IsNearZero p.h }
        requires v { IsNearZero p.v }
    {
        if self.visible.has(p) {
            let colour = self.traced(paints, earlier(p, self.origin));
            (colour, colour.is_none())
        } else {
            (shown(self.screen, p), self.bad.has(p))
        }
    }

    /// The first point of the screen of which the trace tells something else than a batch has left.
    fn first_difference(&self, paints: &[Paint], screen: &Screen, bad: &Region) -> Option<Point>
        requires { IsBatch paints.now }
    {
        let size = self.screen.size();
        for v in 0..size.high {
            for h in 0..size.wide {
                let p = Point {
                    h: i32::from(h),
                    v: i32::from(v),
                };
                let (pixel, is_bad) = self.told(paints, p);
                if bad.has(p) != is_bad || pixel.is_some() && pixel != shown(screen, p) {
                    return Some(p);
                }
            }
        }
        None
    }
}

/// The pixel of a point of the screen.
fn shown(screen: &Screen, p: Point) -> Option<u8> {
    if whole(screen.size()).has(p) {
        Some(screen.at(p))
    } else {
        None
    }
}

/// The point that lies `delta` before another one.
fn earlier(q: Point, delta: Point) -> Point
    requires h { IsNearZero q.h }
    requires v { IsNearZero q.v }
    requires delta { IsOrigin delta }
    ensures value { result ≡ before_shift q delta }
    ensures reach { IsCorner result }
{
    Point {
        h: difference(q.h, delta.h),
        v: difference(q.v, delta.v),
    }
}

fn difference(x: i32, y: i32) -> i32
    requires { InReach (x -ℤ y) }
    ensures value { result ≡ x -ℤ y }
    ensures reach { InReach result }
{
    x - y
}

/// The operation of a command at a point of its area.
fn op_at(font: &Font, paint: &Paint, q: Point) -> Op
    requires near { IsNearPaint paint.now }
    requires h { IsNearZero q.h }
    requires v { IsNearZero q.v }
    requires area { has_point (spec.area paint.now) q ≡ true }
    ensures { result ≡ spec.op_at font.now paint.now q }
{
    match paint {
        Paint::Tint { op, .. } => *op,
        Paint::Texture {
            ops,
            tile,
            delta,
            ..
        } => {
            let from = earlier(q, *delta);
            chosen(*ops, tile_bit(tile, from.h, from.v))
        }
        Paint::Pixels { src, delta, .. } => Op::Set(src.pixmap().at(earlier(q, *delta))),
        Paint::Text { at, ops, text, .. } => chosen(*ops, cell_bit(font, text, earlier(q, *at))),
        Paint::Scroll { .. } | Paint::Spoil { .. } => Op::Transparent,
    }
}

fn chosen(ops: Pair, bit: bool) -> Op
    ensures { result ≡ spec.chosen ops bit }
{
    if bit { ops.one } else { ops.zero }
}

/// The bit of a text at a point, counted from the corner of its cells.
fn cell_bit(font: &Font, text: &Line, from: Point) -> bool
    requires { IsInCells (length text.now) from 1 }
    ensures { let h = unsigned_abs from.h in
        result ≡ glyph_bit font.now (slice_index text.now (h / 8)) h (unsigned_abs from.v) }
{
    let h = from.h.unsigned_abs() as usize;
    let v = from.v.unsigned_abs() as usize;
    is_set(font.glyph_of(text.bytes()[h / 8])[v], (h % 8) as u8)
}

/// Copies of the commands of a batch.
fn copies_of(rt: &(impl Abort + AllocGlobal), batch: &Batch) -> Vec<Paint>
    ensures { IsBatch result.items }
{
    let mut copies = Vec::new(rt.alloc());
    for i in 0..batch.len() {
        let copy = made(rt, batch.get(i).copy());
        made(rt, copies.push(copy));
    }
    copies
}

/// Whether a random batch leaves what the trace tells, and nothing else changes.
fn leaves_what_is_traced(rt: &(impl Abort + AllocGlobal), draw: &mut Draw) -> bool {
    let font = draw.font(rt);
    let env = Env {
        kind: draw.kind(),
        font: &font,
    };
    let size = draw.size();
    let batch = draw.batch(rt);
    let visible = draw.region(rt, size);
    let mut again = *draw;
    let ground = Ground {
        env,
        origin: draw.step(),
        visible: &visible,
        bad: &draw.region(rt, size),
        screen: &draw.screen(rt, size, env.kind),
    };
    let origin = again.step();
    let mut bad = again.region(rt, size);
    let mut screen = again.screen(rt, size, env.kind);
    made(
        rt,
        execute(
            rt.alloc(),
            &batch,
            &env,
            origin,
            &visible,
            &mut screen,
            &mut bad,
        ),
    );
    let paints = copies_of(rt, &batch);
    ground.first_difference(&paints, &screen, &bad).is_none()
}

#[test]
fn random_batches_are_traced(rt: HostRuntime) {
    let mut draw = Draw::new(7);
    for count in 0..20_000 {
        assert!(rt; leaves_what_is_traced(&rt, &mut draw), "batch {count}");
    }
}
