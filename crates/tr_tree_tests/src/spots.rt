//! Whose each point is, by its spot and by the points of each node.
ghost use Rattle.std.specs.Prelude.{◌≡◌, ◌<◌, ◌≤◌, false, length, None, IfOk, OnOk};
ghost use Rattle.tr_base.specs.Layouts.{IsOffset, farthest};
ghost use Rattle.tr_base.specs.Rects.{IsScreenSize};
ghost use Rattle.tr_forest.specs.Nodes.{IsNode, IsNodeKind, shown_by, is_leaf};
ghost use Rattle.tr_forest.specs.Edits.{IsEdit};
ghost use Rattle.tr_spot.specs.Spots.{HasRoot};

use std::process::Abort;
use std::test::Fail;
use tr_base::{Kind, LeafId, NoMemory, NodeId, Point, Rect, Shape, Shapes, Size, whole};
use tr_region::Region;
use tr_spot::{Spot, frame, own_points, reached, spot_at, visible};
use tr_testing::Numbers;
use tr_tree::{Edit, NodeKind, Tree};

const HERE: Point = Point { h: 0, v: 0 };

fn lengths(lo: u16, pref: u16, hi: u16) -> Shape
    requires pref { lo ≤ pref }
    requires hi { pref ≤ hi }
    requires longest { hi ≤ 100 }
{
    Shape { lo, pref, hi }
}

fn shapes(across: Shape, down: Shape) -> Shapes {
    Shapes { across, down }
}

/// A leaf of two points side by side.
fn pair() -> Shapes {
    shapes(lengths(2, 2, 2), lengths(1, 1, 1))
}

/// A leaf that would have two points each way.
fn square() -> Shapes {
    shapes(lengths(1, 2, 4), lengths(1, 2, 4))
}

/// What an edit does, if it isn't refused.
fn change(tree: &mut Tree, edit: Edit)
    requires { IsEdit tree.old.nodes edit }
    ensures { length tree.new.nodes.entries ≡ length tree.old.nodes.entries }
{
    let _ = tree.edit(&edit);
}

/// A root of a kind, with the tint 9, and leaves as its children.
fn tree_of(
    rt: &(impl Abort + AllocGlobal),
    size: Size,
    kind: &NodeKind,
    leaves: &[Shapes],
) -> Result<Tree, NoMemory>
    requires size { IsScreenSize size }
    requires kind { IsNodeKind kind.now }
    requires shown { shown_by kind.now ≡ None }
    requires split { is_leaf kind.now ≡ false }
    ensures { IfOk result (λ t. 0 < length t.nodes.entries) }
{
    let mut tree = Tree::new(rt.alloc(), size, Kind::Map8)?;
    let root = tree.add(*kind, 9)?;
    tree.set_root(root);
    for shapes in leaves {
        add_leaf(rt, &mut tree, *shapes)?;
    }
    assert!(rt; tree.count() > 0);
    Ok(tree)
}

/// Adds a leaf as the last child of node 0, or the first one of a Z.
fn add_leaf(
    rt: &(impl Abort + AllocGlobal),
    tree: &mut Tree,
    shapes: Shapes,
) -> Result<(), NoMemory> {
    let leaf = LeafId(tree.leaves());
    assert!(rt; leaf.0 < 32 && tree.count() < 256);
    let child = tree.add(NodeKind::Leaf { leaf, shapes }, 0)?;
    let parent = NodeId(0);
    let at = HERE;
    change(tree, Edit::Attach { child, parent, at });
    Ok(())
}

/// Seven nodes of several kinds, of which the first is the root, and four leaves.
fn loose(rt: &(impl Abort + AllocGlobal), size: Size) -> Result<Tree, NoMemory>
    requires { IsScreenSize size }
{
    let by = Point { h: 1, v: -1 };
    let others = [
        NodeKind::Z,
        NodeKind::H,
        NodeKind::T { shown: None },
        NodeKind::Border { width: 1 },
        NodeKind::Translate { by },
        NodeKind::Page { per: 2, page: 0 },
    ];
    let leaves = [square(), pair(), square(), pair()];
    let mut tree = tree_of(rt, size, &NodeKind::Z, &leaves)?;
    for kind in &others {
        assert!(rt; tree.count() < 256);
        tree.add(*kind, 1)?;
    }
    Ok(tree)
}

/// A place a little way off.
fn near(numbers: &mut Numbers) -> Point
    ensures { IsOffset farthest result }
{
    Point {
        h: i32::from(numbers.below(6)) - 2,
        v: i32::from(numbers.below(4)) - 1,
    }
}

/// A change of a tree of eleven nodes: of the children of one, or of a node that has something to change.
fn drawn(numbers: &mut Numbers, tree: &Tree) -> Edit
    requires { 11 ≤ length tree.now.nodes.entries }
    ensures { IsEdit tree.now.nodes result }
{
    let parent = NodeId(numbers.below(11));
    let child = NodeId(numbers.below(11));
    let at = near(numbers);
    match numbers.below(12) {
        0 => Edit::Detach { child },
        1 => Edit::Move { child, at },
        2 => Edit::Lift { child },
        3 => Edit::Show {
            node: NodeId(7),
            child,
        },
        4 => Edit::Border {
            node: NodeId(8),
            width: numbers.byte() % 4,
        },
        5 => Edit::Offset {
            node: NodeId(9),
            by: at,
        },
        6 => Edit::Turn {
            node: NodeId(10),
            page: numbers.byte() % 4,
        },
        7 => Edit::Shapes {
            node: NodeId(2),
            shapes: square(),
        },
        _ => Edit::Attach { child, parent, at },
    }
}

/// Whether a node's region, frame and visible points are those that have it as their spot, also beyond the
/// screen.
fn agrees(
    rt: &(impl Abort + AllocGlobal),
    tree: &Tree,
    n: NodeId,
    region: &Region,
) -> Result<bool, NoMemory>
    requires root { HasRoot tree.now }
    requires node { IsNode tree.now.nodes n }
{
    let frame = frame(rt.alloc(), tree, n)?;
    let shown = shown(rt, tree, n)?;
    for place in 0..56 {
        let p = Point {
            h: i32::from(place % 8) - 1,
            v: i32::from(place / 8) - 1,
        };
        let spot = spot_at(tree, p);
        let in_frame = is_frame(spot, n);
        let in_leaf = is_leaf_of(spot, tree.kind_of(n));
        if frame.has(p) != in_frame || shown.has(p) != in_leaf {
            return Ok(false);
        }
        if region.has(p) != (in_frame || in_leaf) {
            return Ok(false);
        }
    }
    Ok(true)
}

/// The points of a leaf. Another node has none.
fn shown(rt: &(impl Abort + AllocGlobal), tree: &Tree, n: NodeId) -> Result<Region, NoMemory>
    requires { IsNode tree.now.nodes n }
{
    match tree.kind_of(n) {
        NodeKind::Leaf { leaf, .. } => {
            assert!(rt; leaf.0 < tree.leaves());
            visible(rt.alloc(), tree, leaf)
        }
        _ => Ok(Region::empty(rt.alloc())),
    }
}

fn is_frame(spot: Spot, n: NodeId) -> bool {
    match spot {
        Spot::Frame { node, .. } => node == n,
        _ => false,
    }
}

fn is_leaf_of(spot: Spot, kind: NodeKind) -> bool {
    match (spot, kind) {
        (Spot::Leaf { leaf, .. }, NodeKind::Leaf { leaf: own, .. }) => leaf == own,
        _ => false,
    }
}

/// Whether the points of all nodes agree with the spots.
fn all_agree(rt: &(impl Abort + AllocGlobal), tree: &Tree) -> Result<bool, NoMemory> {
    assert!(rt; tree.root().is_some());
    for n in 0..11 {
        assert!(rt; usize::from(n) < tree.count());
        let screen = Region::of_rect(rt.alloc(), whole(tree.size()))?;
        let own = own_points(rt.alloc(), tree, NodeId(n), screen)?;
        if !agrees(rt, tree, NodeId(n), &own)? {
            return Ok(false);
        }
    }
    Ok(true)
}

/// Whether that is so of a tree after each of 40 edits.
fn agrees_after_each_edit(
    rt: &(impl Abort + AllocGlobal),
    numbers: &mut Numbers,
) -> Result<bool, NoMemory> {
    let mut tree = loose(rt, Size { wide: 6, high: 5 })?;
    for _edit in 0..40 {
        assert!(rt; tree.count() == 11);
        let edit = drawn(numbers, &tree);
        change(&mut tree, edit);
        if !all_agree(rt, &tree)? {
            return Ok(false);
        }
    }
    Ok(true)
}

#[test]
fn points_of_nodes_agree_with_spots(rt: HostRuntime) -> Result<(), Fail> {
    let mut numbers = Numbers::new(1);
    for count in 0..20 {
        assert!(rt; agrees_after_each_edit(&rt, &mut numbers)?, "tree {count}");
    }
    Ok(())
}

/// Whether a spot is a point of the node, or of one below it.
fn lies_below(rt: &impl Abort, tree: &Tree, top: NodeId, spot: Spot) -> bool {
    for k in 0..11 {
        let n = NodeId(k);
        assert!(rt; usize::from(k) < tree.count());
        let is_own = is_frame(spot, n) || is_leaf_of(spot, tree.kind_of(n));
        if is_own && tree.is_under(top, n) {
            return true;
        }
    }
    false
}

/// Whether the walk from the root comes to a node at just the points that are its own or of a node below
/// it, and the node's points within a box are those of its own that lie there.
fn agrees_in_box(
    rt: &(impl Abort + AllocGlobal),
    tree: &Tree,
    n: NodeId,
    part: Rect,
) -> Result<bool, NoMemory>
    requires root { HasRoot tree.now }
    requires node { IsNode tree.now.nodes n }
{
    let all = reached(rt.alloc(), tree, n)?;
    let inside = Region::of_rect(rt.alloc(), part)?;
    let own = own_points(rt.alloc(), tree, n, inside)?;
    let size = tree.size();
    for v in 0..size.high {
        for h in 0..size.wide {
            let (h, v) = (i32::from(h), i32::from(v));
            let p = Point { h, v };
            let spot = spot_at(tree, p);
            let is_own = is_frame(spot, n) || is_leaf_of(spot, tree.kind_of(n));
            if all.has(p) != lies_below(rt, tree, n, spot)
                || own.has(p) != (is_own && part.has(p))
            {
                return Ok(false);
            }
        }
    }
    Ok(true)
}

/// A box that may reach beyond the screen, or hold nothing.
fn any_box(numbers: &mut Numbers) -> Rect {
    let west = i32::from(numbers.below(12)) - 2;
    let north = i32::from(numbers.below(12)) - 2;
    let east = west + i32::from(numbers.below(12));
    let south = north + i32::from(numbers.below(12));
    Rect::edges(west, east, north, south)
}

/// Whether that is so of all nodes after each of 20 edits on a screen of any small size.
fn agrees_in_boxes(
    rt: &(impl Abort + AllocGlobal),
    numbers: &mut Numbers,
) -> Result<bool, NoMemory> {
    let wide = numbers.below(12) + 1;
    let high = numbers.below(12) + 1;
    let mut tree = loose(rt, Size { wide, high })?;
    for _edit in 0..20 {
        assert!(rt; tree.count() == 11);
        let edit = drawn(numbers, &tree);
        change(&mut tree, edit);
        let part = any_box(numbers);
        for n in 0..11 {
            assert!(rt; tree.root().is_some() && usize::from(n) < tree.count());
            if !agrees_in_box(rt, &tree, NodeId(n), part)? {
                return Ok(false);
            }
        }
    }
    Ok(true)
}

#[test]
fn points_in_a_box_are_those_of_the_screen(rt: HostRuntime) -> Result<(), Fail> {
    let mut numbers = Numbers::new(26);
    for count in 0..10 {
        assert!(rt; agrees_in_boxes(&rt, &mut numbers)?, "tree {count}");
    }
    Ok(())
}
