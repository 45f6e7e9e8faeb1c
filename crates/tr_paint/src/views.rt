ghost use Rattle.std.specs.Prelude.{◌≡◌, IfOk};
ghost use Rattle.tr_paint.specs.Paints as spec;
ghost use Rattle.tr_paint.specs.Views.{viewed};

use crate::paints::{Paint, are_opaque, part_in_cells};
use crate::pictures::SharedPixmap;
use tr_base::{Line, NoMemory, Op, Pair, Point, Rect, Tile, opaque, whole};

/// A command of a batch, with the fields of a `Paint` of the same sort. Its text or its picture is lent.
#[derive(Clone, Copy, Debug)]
pub enum PaintView<'a> {
    Tint {
        clip: Rect,
        op: Op,
    },
    Texture {
        ops: Pair,
        clip: Rect,
        tile: Tile,
        delta: Point,
    },
    Pixels {
        clip: Rect,
        src: &'a SharedPixmap,
        delta: Point,
    },
    Text {
        ops: Pair,
        clip: Rect,
        at: Point,
        text: &'a Line,
    },
    Scroll {
        clip: Rect,
        delta: Point,
    },
    Spoil {
        clip: Rect,
    },
}

impl PaintView<'_> {
    /// The points that the command can touch: its clip, or the part of the clip in the cells of its text, of
    /// 8 by 8 points each, or in its picture.
    pub fn area(&self) -> Rect
        requires { spec.IsNearPaint (viewed self.now) }
        ensures value { result ≡ spec.area (viewed self.now) }
        ensures near { spec.IsNearRect result }
    {
        match *self {
            PaintView::Tint { clip, .. }
            | PaintView::Texture { clip, .. }
            | PaintView::Scroll { clip, .. }
            | PaintView::Spoil { clip } => clip,
            PaintView::Pixels { clip, src, delta } => {
                clip.meet(&whole(src.pixmap().size()).shift(delta))
            }
            PaintView::Text { clip, at, text, .. } => part_in_cells(&clip, at, text),
        }
    }

    /// Whether the pixels after the command don't depend on those before it.
    pub fn is_opaque(&self) -> bool
        ensures { result ≡ spec.is_opaque (viewed self.now) }
    {
        match *self {
            PaintView::Tint { op, .. } => opaque(op),
            PaintView::Texture { ops, .. } | PaintView::Text { ops, .. } => are_opaque(ops),
            PaintView::Pixels { .. } => true,
            PaintView::Scroll { .. } | PaintView::Spoil { .. } => false,
        }
    }

    /// A copy of the command.
    pub fn copy(&self) -> Result<Paint, NoMemory>
        ensures { IfOk result (λ c. c ≡ viewed self.now) }
    {
        Ok(match *self {
            PaintView::Tint { clip, op } => Paint::Tint { clip, op },
            PaintView::Texture {
                ops,
                clip,
                tile,
                delta,
            } => Paint::Texture {
                ops,
                clip,
                tile,
                delta,
            },
            PaintView::Pixels { clip, src, delta } => Paint::Pixels {
                clip,
                src: src.copy()?,
                delta,
            },
            PaintView::Text {
                ops,
                clip,
                at,
                text,
            } => Paint::Text {
                ops,
                clip,
                at,
                text: text.copy()?,
            },
            PaintView::Scroll { clip, delta } => Paint::Scroll { clip, delta },
            PaintView::Spoil { clip } => Paint::Spoil { clip },
        })
    }
}
