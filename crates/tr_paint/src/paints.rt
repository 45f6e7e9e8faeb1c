ghost use Rattle.std.specs.Prelude.{◌≡◌, ◌*◌, ◌≤ℤ◌, pos, length};
ghost use Rattle.tr_base.specs.Rects.{meet_of};
ghost use Rattle.tr_paint.specs.Paints as spec;
ghost use Rattle.tr_paint.specs.Views.{viewed};

use crate::pictures::SharedPixmap;
use crate::views::PaintView;
use std::mem::size_of;
use tr_base::{Line, Op, Pair, Point, Rect, Tile, greater, lesser, moved, opaque};

/// The greatest distance of a paint command's coordinate from 0.
pub const NEAR: i32 = 16_384;

/// The side of a text's cell.
const CELL: i32 = 8;

/// A paint command, in the coordinates of the window that it paints in. Each edge of a clip and each
/// coordinate of `delta` and `at` lies within -16,384 to 16,384.
///
/// A pair of operations comes first among the fields: it fills the bytes after the tag.
#[derive(Debug, Drop)]
pub enum Paint {
    /// Applies the operation at each point.
    Tint {
        clip: Rect,
        op: Op,
    },
    /// Applies the operation for the tile's bit. The tile is repeated in all directions from `delta`
    /// on.
    Texture {
        ops: Pair,
        clip: Rect,
        tile: Tile,
        delta: Point,
    },
    /// Writes the pixels of a picture whose north-west corner lies at `delta`.
    Pixels {
        clip: Rect,
        src: SharedPixmap,
        delta: Point,
    },
    /// Applies the operation for the glyph's bit in each cell of a text, whose north-west corner lies
    /// at `at`.
    Text {
        ops: Pair,
        clip: Rect,
        at: Point,
        text: Line,
    },
    /// Moves pixels by `delta`: each point of the clip gets the pixel that the point `delta` before it
    /// had.
    Scroll {
        clip: Rect,
        delta: Point,
    },
    /// Makes the pixel of each point unknown.
    Spoil {
        clip: Rect,
    },
}

// Each stored command takes this much.
const _: () = prove!(size_of::<Paint>() == 40);

impl Paint {
    /// A view of the command.
    #[inline(always)]
    pub(crate) fn view(&self) -> PaintView<'_>
        ensures { viewed result ≡ self.now }
    {
        match self {
            Paint::Tint { clip, op } => PaintView::Tint {
                clip: *clip,
                op: *op,
            },
            Paint::Texture {
                ops,
                clip,
                tile,
                delta,
            } => PaintView::Texture {
                ops: *ops,
                clip: *clip,
                tile: *tile,
                delta: *delta,
            },
            Paint::Pixels { clip, src, delta } => PaintView::Pixels {
                clip: *clip,
                src,
                delta: *delta,
            },
            Paint::Text {
                ops,
                clip,
                at,
                text,
            } => PaintView::Text {
                ops: *ops,
                clip: *clip,
                at: *at,
                text,
            },
            Paint::Scroll { clip, delta } => PaintView::Scroll {
                clip: *clip,
                delta: *delta,
            },
            Paint::Spoil { clip } => PaintView::Spoil { clip: *clip },
        }
    }

    /// The points that it can touch: its clip, or the part of the clip in the cells of its text, of 8 by 8
    /// points each, or in its picture.
    pub fn area(&self) -> Rect
        requires { spec.IsNearPaint self.now }
        ensures value { result ≡ spec.area self.now }
        ensures near { spec.IsNearRect result }
    {
        // Names `Paint`, so that the borrow checker knows the types that a view lends.
        let _none: Option<Paint> = None;
        self.view().area()
    }

    /// Whether the pixels after it don't depend on those before it.
    pub fn is_opaque(&self) -> bool
        ensures { result ≡ spec.is_opaque self.now }
    {
        // Names `Paint`, so that the borrow checker knows the types that a view lends.
        let _none: Option<Paint> = None;
        self.view().is_opaque()
    }
}

/// Whether both operations are opaque.
pub(crate) fn are_opaque(ops: Pair) -> bool
    ensures { result ≡ spec.both_opaque ops }
{
    opaque(ops.zero) && opaque(ops.one)
}

/// The part of a clip in the cells of a text that begins at a point.
pub(crate) fn part_in_cells(clip: &Rect, at: Point, text: &Line) -> Rect
    requires { spec.IsNearPoint at }
    ensures { result ≡ meet_of clip.now (spec.cells_of at (length text.now)) }
{
    let east = moved(at.h, wide_of(text));
    let south = moved(at.v, CELL);
    Rect::edges(
        greater(clip.west(), at.h),
        lesser(clip.east(), east),
        greater(clip.north(), at.v),
        lesser(clip.south(), south),
    )
}

/// The total width of a text's cells.
fn wide_of(text: &Line) -> i32
    ensures value { result ≡ pos (8 * length text.now) }
    ensures limit { result ≤ℤ pos 640 }
{
    CELL * text.bytes().len() as i32
}
