use crate::ids::{LeafId, NodeId};
use crate::ops::Kind;
use crate::points::Point;
use crate::sizes::Size;

/// The owner of a point of the screen.
#[derive(Clone, Copy, Debug, PartialEq, Eq)]
pub enum Spot {
    /// A leaf of this size: `at` is the point relative to the leaf's north-west corner.
    Leaf {
        leaf: LeafId,
        at: Point,
        size: Size,
        kind: Kind,
    },
    /// The part of a node outside all its children.
    Frame {
        node: NodeId,
        tint: u8,
        kind: Kind,
    },
    /// No part of the screen.
    Off,
}
