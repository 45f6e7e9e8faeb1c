ghost use Rattle.std.specs.Prelude.{◌≡◌, ◌↔◌, IsTrue};
ghost use Rattle.tr_base.specs.Rects.{rect_of};
ghost use Rattle.w_canvas.specs.Areas.{IsArea, IsFigureEdge};

use std::marker::Model;
use std::mem::size_of;
use tr_base::Rect;

/// The rectangle of a figure; its model is the edges. Each edge is within -8192 to 8192.
#[derive(Clone, Copy, Debug)]
pub struct Area {
    west: i16,
    east: i16,
    north: i16,
    south: i16,
}

// Every step of a journal has room for a command of a Canvas.
const _: () = prove!(size_of::<Area>() == 8);

impl Model for Area {
    ghost use Rattle.tr_base.specs.Rects.{Edges};
    ghost use Rattle.w_canvas.specs.Areas.{KeepsArea};

    ghost Value = { Edges };

    ghost view = { λ a. record { west = a.west; east = a.east; north = a.north; south = a.south } };

    ghost inverse = { λ e. record { west = e.west; east = e.east; north = e.north; south = e.south } };

    ghost invariant = { λ a.
        KeepsArea (record { west = a.west; east = a.east; north = a.north; south = a.south }) };
}

impl Area {
    /// The rectangle of these edges, or the empty one if no point lies between them.
    pub fn edges(west: i32, east: i32, north: i32, south: i32) -> Area
        requires west { IsFigureEdge west }
        requires east { IsFigureEdge east }
        requires north { IsFigureEdge north }
        requires south { IsFigureEdge south }
        ensures { result ≡ rect_of west east north south }
    {
        let rect = Rect::edges(west, east, north, south);
        Area {
            west: short(rect.west()),
            east: short(rect.east()),
            north: short(rect.north()),
            south: short(rect.south()),
        }
    }

    /// Tells the invariant of areas. Nothing runs.
    pub fn invariant(&self)
        ensures { IsArea self.now }
    {
        let _rect = self.rect();
    }

    /// The rectangle.
    pub fn rect(&self) -> Rect
        ensures value { result ≡ self.now }
        ensures invariant { IsArea self.now }
    {
        Rect::edges(
            i32::from(self.west),
            i32::from(self.east),
            i32::from(self.north),
            i32::from(self.south),
        )
    }

    /// Whether both are the same rectangle.
    pub fn same(&self, other: &Area) -> bool
        ensures { IsTrue result ↔ (self.now ≡ other.now) }
    {
        self.rect() == other.rect()
    }
}

/// The edge, in 16 bits.
fn short(edge: i32) -> i16
    requires { IsFigureEdge edge }
    ensures { result ≡ edge }
{
    edge as i16
}
