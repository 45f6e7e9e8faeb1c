ghost use Rattle.std.specs.Prelude.{◌≡◌, ◌-ℤ◌, true};
ghost use Rattle.tr_base.specs.Rects.{InReach, has_point, whole_of, IsScreenSize};
ghost use Rattle.tr_base.specs.Layouts.{IsDomain};
ghost use Rattle.tr_forest.specs.Nodes.{node, leaf_count, IsNode};
ghost use Rattle.tr_forest.specs.Forests.{IsForest};
ghost use Rattle.tr_spot.specs.Spots.{HasRoot, IsLeafBelow, from_corner, size_of, spot_on, spot};

use crate::owners::owner_of;
use tr_base::{NodeId, Point, Rect, Size, Spot, sides, whole};
use tr_tree::{NodeKind, Tree};

/// The spot of a point. The call takes no memory, and looks only at nodes whose domain has the point
/// and at their siblings in front.
pub fn spot_at(tree: &Tree, p: Point) -> Spot
    requires { HasRoot tree.now }
    ensures spot { result ≡ spot tree.now p }
    ensures leaf { IsLeafBelow (leaf_count tree.now.nodes) result }
{
    tree.invariant();
    if !whole(tree.size()).has(p) {
        return Spot::Off;
    }
    let root = tree.root().unwrap();
    spot_on(tree, p, owner_of(tree, root, p))
}

/// The spot of a point, from its owner.
fn spot_on(tree: &Tree, p: Point, n: NodeId) -> Spot
    requires size { IsScreenSize tree.now.size }
    requires screen { has_point (whole_of tree.now.size) p ≡ true }
    requires forest { IsForest tree.now.nodes }
    requires node { IsNode tree.now.nodes n }
    ensures spot { result ≡ spot_on tree.now p n (node tree.now.nodes n).kind }
    ensures leaf { IsLeafBelow (leaf_count tree.now.nodes) result }
{
    let kind = tree.kind();
    match tree.kind_of(n) {
        NodeKind::Leaf { leaf, .. } => {
            let domain = tree.domain(n);
            Spot::Leaf {
                leaf,
                at: from_corner(&domain, p),
                size: size_of(&domain),
                kind,
            }
        }
        _ => Spot::Frame {
            node: n,
            tint: tree.tint_of(n),
            kind,
        },
    }
}

/// A point relative to a rectangle's corner.
pub fn from_corner(rect: &Rect, p: Point) -> Point
    requires across { InReach p.h }
    requires down { InReach p.v }
    ensures { result ≡ from_corner rect.now p }
{
    Point {
        h: distance(p.h, rect.west()),
        v: distance(p.v, rect.north()),
    }
}

/// The distance of a coordinate from another one.
fn distance(x: i32, from: i32) -> i32
    requires x { InReach x }
    requires from { InReach from }
    ensures { result ≡ x -ℤ from }
{
    x - from
}

/// The size of a rectangle.
pub fn size_of(rect: &Rect) -> Size
    requires { IsDomain rect.now }
    ensures { result ≡ size_of rect.now }
{
    let (wide, high) = sides(rect);
    Size {
        wide: wide as u16,
        high: high as u16,
    }
}
