ghost use Rattle.std.specs.Prelude.{◌<ℤ◌};
ghost use Rattle.tr_base.specs.Rects.{InReach};

use crate::operations::Operation;
use std::marker::Model;
use tr_base::Rect;

/// Some rows, at least one.
#[derive(Clone, Copy)]
pub struct Rows {
    pub north: i32,
    pub south: i32,
    ghost down: { north <ℤ south },
    ghost north_reach: { InReach north },
    ghost south_reach: { InReach south },
}

/// Some rows, and the operation that keeps some of their points.
#[derive(Clone, Copy)]
pub struct Strip {
    pub operation: Operation,
    pub rows: Rows,
}

/// West and east edges that never touch, given by rectangles side by side.
#[derive(Drop)]
pub struct Spans<'a> {
    pub rects: &'a [Rect],
}

impl<'a> Model for Spans<'a> {
    ghost use Rattle.std.specs.Prelude.{List};
    ghost use Rattle.tr_region.specs.Bands.{Span, spans_of, AreSpans};

    ghost Value = { List Span };

    ghost view = { λ s. spans_of s.rects.now };

    ghost invariant = { λ s. AreSpans (spans_of s.rects.now) };
}
