//! Which part of the screen a group of records changes.
ghost use Rattle.std.specs.Prelude.{◌≡◌, if◌then◌else◌};
ghost use Rattle.tr_mirror.specs.Changes.{IsOnLargest, WritesOnLargest, around_of, bounds_of, change_with, joined_of};

use crate::headers::{Header, Segment};

/// A rectangle of pixels: the columns from `west` on and before `east`, in the rows from `north` on and
/// before `south`.
#[derive(Clone, Copy, Debug, PartialEq, Eq)]
pub struct Bounds {
    pub west: u16,
    pub east: u16,
    pub north: u16,
    pub south: u16,
}

/// What a group of records changes on the screen.
#[derive(Clone, Copy, Debug, PartialEq, Eq)]
pub enum Change {
    /// Nothing: it is a lone Cut.
    Nothing,
    /// At most the pixels within.
    Within(Bounds),
    /// All: it begins with a Screen, so size and kind can be others, too.
    Screen,
}

impl Change {
    /// What a group has changed before the next record: nothing if that one begins the group.
    pub fn so_far(self, in_group: bool) -> Change
        ensures { result ≡ (if in_group then self else Change.Nothing) }
    {
        if in_group { self } else { Change::Nothing }
    }

    /// This change with that of a record.
    pub fn with(self, header: Header) -> Change
        requires { WritesOnLargest header }
        ensures { result ≡ change_with header self }
    {
        match header {
            Header::Screen(..) => Change::Screen,
            Header::Run(segment) => self.joined(segment),
            Header::Fill(segment) => self.joined(segment),
            Header::Cut(_) => self,
        }
    }

    /// This change with the pixels of a Run or a Fill.
    fn joined(self, segment: Segment) -> Change
        requires { IsOnLargest segment }
        ensures { result ≡ joined_of (bounds_of segment) self }
    {
        let here = bounds_of(segment);
        match self {
            Change::Nothing => Change::Within(here),
            Change::Within(bounds) => Change::Within(around(here, bounds)),
            Change::Screen => Change::Screen,
        }
    }
}

fn bounds_of(segment: Segment) -> Bounds
    requires { IsOnLargest segment }
    ensures { result ≡ bounds_of segment }
{
    Bounds {
        west: segment.west,
        east: segment.west + segment.count,
        north: segment.v,
        south: segment.v + 1,
    }
}

/// The least rectangle round two.
fn around(a: Bounds, b: Bounds) -> Bounds
    ensures { result ≡ around_of a b }
{
    Bounds {
        west: a.west.min(b.west),
        east: a.east.max(b.east),
        north: a.north.min(b.north),
        south: a.south.max(b.south),
    }
}
