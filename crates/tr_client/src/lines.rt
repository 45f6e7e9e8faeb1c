ghost use Rattle.std.specs.Prelude.{◌≡◌, ◌≤◌, ◌*◌, ◌++◌, ◌↔◌, pos, length, IfOk, IsTrue, OnOk, OnErr, take};
ghost use Rattle.tr_base.specs.Rects.{InReach};
ghost use Rattle.tr_base.specs.Layouts.{longest};
ghost use Rattle.tr_paint.specs.Paints.{IsNearPoint, IsNearRect};
ghost use Rattle.tr_paint.specs.Traces.{Look};
ghost use Rattle.tr_paint.specs.Paintings.{IsPainting};
ghost use Rattle.tr_client.specs.Laws.{IsWindowSize};
ghost use Rattle.tr_client.specs.Texts as spec;

use crate::areas::PLAIN;
use std::alloc::Global;
use tr_base::{Line, NoMemory, Op, Point, Rect, Size};
use tr_paint::{Batch, Paint};

/// The most lines that a typescript or an editor keeps.
pub const MOST_LINES: usize = 200;

/// The number of lines that fit into a window, each in a strip that is eight points high.
pub fn room(size: Size) -> usize
    ensures { result ≡ spec.room size }
{
    usize::from(size.high / 8)
}

/// The north-west corner of the strip with `above` others above it.
pub fn begin_of(above: usize) -> Point
    requires { 8 * above ≤ longest }
    ensures value { result ≡ spec.begin_of above }
    ensures near { IsNearPoint result }
{
    Point {
        h: 0,
        v: north_of(above),
    }
}

/// The strips of a window that have at least `above` and fewer than `end` others above them.
pub fn area_of(size: Size, above: usize, end: usize) -> Rect
    requires size { IsWindowSize size }
    requires above { 8 * above ≤ longest }
    requires end { 8 * end ≤ longest }
    ensures edges { result ≡ spec.strips_between size above end }
    ensures near { IsNearRect result }
{
    Rect::edges(0, i32::from(size.wide), north_of(above), north_of(end))
}

/// The move by one line upwards.
pub fn upwards() -> Point
    ensures value { result ≡ spec.upwards }
    ensures near { IsNearPoint result }
{
    Point { h: 0, v: -8 }
}

/// The move by one line downwards.
pub fn downwards() -> Point
    ensures value { result ≡ spec.downwards }
    ensures near { IsNearPoint result }
{
    Point { h: 0, v: 8 }
}

/// A batch that paints a part of a window with the background.
pub fn cleared(alloc: Global, part: Rect) -> Result<Batch, NoMemory>
    requires { IsNearRect part }
    ensures { IfOk result (λ batch. batch ≡ spec.cleared part) }
{
    let mut batch = Batch::new(alloc);
    batch.push(Paint::Tint {
        clip: part,
        op: Op::Bg,
    })?;
    Ok(batch)
}

/// A batch that paints a part of a window with these lines, one below the other: first the background,
/// then each line over it.
pub fn paint_lines(alloc: Global, part: Rect, lines: &[Line]) -> Result<Batch, NoMemory>
    requires part { IsNearRect part }
    requires lines { 8 * length lines.now ≤ longest }
    ensures { (look : Look) →
        IfOk result (λ batch. IsPainting look part batch (spec.colour_in look lines.now)) }
{
    let mut batch = cleared(alloc, part)?;
    batch.reserve(lines.len())?;
    for (above, line) in lines.iter().enumerate() {
        batch.push(Paint::Text {
            clip: part,
            at: begin_of(above),
            ops: PLAIN,
            text: line.copy()?,
        })?;
    }
    Ok(batch)
}

/// Puts copies of lines at the end of others. If memory runs out, it may have put some of them.
pub fn append_lines(all: &mut Vec<Line>, lines: &[Line]) -> Result<(), NoMemory>
    ensures ok { OnOk result (all.new.items ≡ all.old.items ++ lines.now) }
    ensures err { OnErr result (take (length all.old.items) all.new.items ≡ all.old.items) }
{
    all.reserve(lines.len())?;
    for line in lines {
        all.push(line.copy()?)?;
    }
    Ok(())
}

/// Whether both are the same lines.
pub fn same_lines(lines: &[Line], others: &[Line]) -> bool
    ensures { IsTrue result ↔ (lines.now ≡ others.now) }
{
    if lines.len() != others.len() {
        return false;
    }
    for (i, line) in lines.iter().enumerate() {
        if !line.same(&others[i]) {
            return false;
        }
    }
    true
}

/// The first row of points of a strip.
fn north_of(above: usize) -> i32
    requires { 8 * above ≤ longest }
    ensures value { result ≡ pos (8 * above) }
    ensures reach { InReach result }
{
    8 * above as i32
}
