ghost use Rattle.std.specs.Prelude.{◌≡◌, ◌↔◌, IsTrue};
ghost use Rattle.tr_base.specs.declared.points.Point.{Point};
ghost use Rattle.w_plain.specs.Shifts.{IsShift};

use std::marker::Model;
use tr_base::Point;

/// The move of a tile; its model is a point. Each coordinate is within -4096 to 4096.
#[derive(Clone, Copy, Debug)]
pub struct Shift {
    h: i32,
    v: i32,
}

impl Model for Shift {
    ghost use Rattle.tr_base.specs.declared.points.Point.{Point};
    ghost use Rattle.w_plain.specs.Shifts.{IsShift};

    ghost Value = { Point };

    ghost view = { λ s. record { h = s.h; v = s.v } };

    ghost inverse = { λ p. record { h = p.h; v = p.v } };

    ghost invariant = { λ s. IsShift (record { h = s.h; v = s.v }) };
}

impl Shift {
    /// The move by a point.
    pub fn by(point: Point) -> Shift
        requires { IsShift point }
        ensures { result ≡ point }
    {
        Shift {
            h: point.h,
            v: point.v,
        }
    }

    /// Tells the invariant of shifts. Nothing runs.
    pub fn invariant(&self)
        ensures { IsShift self.now }
    {
        let _point = self.point();
    }

    /// The point.
    pub fn point(&self) -> Point
        ensures value { result ≡ self.now }
        ensures invariant { IsShift self.now }
    {
        Point {
            h: self.h,
            v: self.v,
        }
    }

    /// Whether both are the same move.
    pub fn same(&self, other: &Shift) -> bool
        ensures { IsTrue result ↔ (self.now ≡ other.now) }
    {
        self.point() == other.point()
    }
}
