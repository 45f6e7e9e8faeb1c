ghost use Rattle.std.specs.Prelude.{◌≡◌, ◌<◌};
ghost use Rattle.tr_base.specs.Rects.{InReach};
ghost use Rattle.tr_base.specs.Layouts.{IsDomain};
ghost use Rattle.tr_forest.specs.Nodes.{leaf_count, IsSize};
ghost use Rattle.tr_spot.specs.Leaves.{leaf_domain, leaf_size, leaf_corner, in_leaf};

use crate::spots::{from_corner, size_of};
use tr_base::{LeafId, Point, Rect, Size};
use tr_tree::Tree;

/// The size of a leaf's window. It is 0 by 0 for an unplaced leaf.
pub fn leaf_size(tree: &Tree, leaf: LeafId) -> Size
    requires { leaf.0 < leaf_count tree.now.nodes }
    ensures value { result ≡ leaf_size tree.now leaf }
    ensures small { IsSize result }
{
    size_of(&leaf_domain(tree, leaf))
}

/// The north-west corner of a leaf's window on the screen. It is (0, 0) for an unplaced
/// leaf.
pub fn leaf_corner(tree: &Tree, leaf: LeafId) -> Point
    requires { leaf.0 < leaf_count tree.now.nodes }
    ensures { result ≡ leaf_corner tree.now leaf }
{
    let domain = leaf_domain(tree, leaf);
    Point {
        h: domain.west(),
        v: domain.north(),
    }
}

/// A point of the screen, relative to the north-west corner of a leaf's window.
pub fn in_leaf(tree: &Tree, leaf: LeafId, p: Point) -> Point
    requires leaf { leaf.0 < leaf_count tree.now.nodes }
    requires across { InReach p.h }
    requires down { InReach p.v }
    ensures { result ≡ in_leaf tree.now leaf p }
{
    from_corner(&leaf_domain(tree, leaf), p)
}

/// The rectangle of a leaf's window.
fn leaf_domain(tree: &Tree, leaf: LeafId) -> Rect
    requires { leaf.0 < leaf_count tree.now.nodes }
    ensures domain { result ≡ leaf_domain tree.now leaf }
    ensures small { IsDomain result }
{
    tree.domain(tree.node_of(leaf))
}
