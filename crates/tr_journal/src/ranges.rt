//! Tests of steps and edits: their numbers must be those of nodes and leaves, and their values in their
//! ranges. Calls that take steps or edits require this.
ghost use Rattle.std.specs.Prelude.{◌↔◌, IsTrue, IfSome};
ghost use Rattle.tr_base.specs.Layouts.{farthest, IsOffset};
ghost use Rattle.tr_base.specs.Rects.{IsScreenSize};
ghost use Rattle.tr_forest.specs.Nodes.{IsNode, IsSize};
ghost use Rattle.tr_forest.specs.Edits.{IsEdit};
ghost use Rattle.tr_journal.specs.Steps.{AreLevels, IsButton, IsCage, IsClip, IsEdge, IsLeaf, IsPlace, IsPosition, IsQuery, IsStep, IsTime};

use crate::steps::{Query, Step};
use tr_base::{LeafId, NodeId, Point, Rect, Size};
use tr_cage::Cage;
use tr_forest::Edit;
use tr_levels::Held;
use tr_tree::Tree;

/// Whether the step may be made: its numbers are those of nodes and leaves, and its values are within
/// their ranges.
pub fn is_step<M>(tree: &Tree, step: &Step<M>) -> bool
    ensures { IsTrue result ↔ IsStep tree.now.nodes step.now }
{
    match step {
        Step::Act { leaf, .. }
        | Step::Take { leaf }
        | Step::Disown { leaf, .. }
        | Step::Read { leaf, .. }
        | Step::Flush { leaf }
        | Step::Repaint { leaf } => has_leaf(tree, *leaf),
        Step::Mark { leaf, clip } => has_leaf(tree, *leaf) && is_clip(clip),
        Step::SetCage { leaf, cage } => has_leaf(tree, *leaf) && is_cage(cage),
        Step::Own { leaf, time, .. } => has_leaf(tree, *leaf) && is_time(*time),
        Step::Mouse { time, button, .. } => is_time(*time) && is_button(*button),
        Step::Motion { time, at } => is_time(*time) && is_position(*at),
        Step::Key { time, .. } => is_time(*time),
        Step::Alter { edit } => is_edit(tree, edit),
        Step::PaintFrame | Step::Sync => true,
        Step::Report { query } => is_query(tree, query),
    }
}

/// Whether the edit may be made: its numbers are those of nodes, and its values are within their ranges.
pub fn is_edit(tree: &Tree, edit: &Edit) -> bool
    ensures { IsTrue result ↔ IsEdit tree.now.nodes edit.now }
{
    match edit {
        Edit::Attach { child, parent, at } => {
            has_node(tree, *child) && has_node(tree, *parent) && is_offset(*at)
        }
        Edit::Detach { child } | Edit::Lift { child } => has_node(tree, *child),
        Edit::Tint { node, .. }
        | Edit::Border { node, .. }
        | Edit::Turn { node, .. }
        | Edit::Shapes { node, .. } => has_node(tree, *node),
        Edit::Offset { node, by } => has_node(tree, *node) && is_offset(*by),
        Edit::Fix { node, size } => has_node(tree, *node) && is_size(*size),
        Edit::Move { child, at } => has_node(tree, *child) && is_offset(*at),
        Edit::Show { node, child } => has_node(tree, *node) && has_node(tree, *child),
        Edit::Resize { size } => is_screen_size(*size),
        Edit::Rescreen { .. } => true,
    }
}

/// Whether the leaves of the levels that are held are leaves of the tree.
pub fn are_levels(tree: &Tree, held: &Held) -> bool
    ensures { IsTrue result ↔ AreLevels tree.now.nodes held.now }
{
    let (_, share, win) = held.parts();
    has_leaf_of(tree, share) && has_leaf_of(tree, win)
}

/// Whether the leaf, if there is one, is a leaf of the tree.
fn has_leaf_of(tree: &Tree, leaf: Option<LeafId>) -> bool
    ensures { IsTrue result ↔ IfSome leaf (λ leaf. IsLeaf tree.now.nodes leaf) }
{
    match leaf {
        Some(leaf) => has_leaf(tree, leaf),
        None => true,
    }
}

fn is_query(tree: &Tree, query: &Query) -> bool
    ensures { IsTrue result ↔ IsQuery tree.now.nodes query.now }
{
    match query {
        Query::Where(at) => is_position(*at),
        Query::Inbox(leaf) => has_leaf(tree, *leaf),
        Query::Dump | Query::Peek | Query::Journal => true,
    }
}

fn has_leaf(tree: &Tree, leaf: LeafId) -> bool
    ensures { IsTrue result ↔ IsLeaf tree.now.nodes leaf }
{
    leaf.0 < tree.leaves()
}

fn has_node(tree: &Tree, node: NodeId) -> bool
    ensures { IsTrue result ↔ IsNode tree.now.nodes node }
{
    usize::from(node.0) < tree.count()
}

fn is_time(time: u32) -> bool
    ensures { IsTrue result ↔ IsTime time }
{
    1 <= time
}

fn is_button(button: u8) -> bool
    ensures { IsTrue result ↔ IsButton button }
{
    1 <= button && button <= 5
}

fn is_edge(x: i32) -> bool
    ensures { IsTrue result ↔ IsEdge x }
{
    -8192 <= x && x <= 8192
}

fn are_edges(low: i32, high: i32) -> bool
    ensures { IsTrue result ↔ (IsEdge low × IsEdge high) }
{
    is_edge(low) && is_edge(high)
}

fn is_clip(clip: &Rect) -> bool
    ensures { IsTrue result ↔ IsClip clip.now }
{
    are_edges(clip.west(), clip.east()) && are_edges(clip.north(), clip.south())
}

fn is_cage(cage: &Cage) -> bool
    ensures { IsTrue result ↔ IsCage cage.now }
{
    match cage {
        Cage::Everywhere => true,
        Cage::Only { rect, here, gone } => is_clip(rect) && (*here || *gone),
    }
}

fn is_place(x: i32) -> bool
    ensures { IsTrue result ↔ IsPlace x }
{
    -8192 <= x && x <= 8191
}

fn is_position(at: Point) -> bool
    ensures { IsTrue result ↔ IsPosition at }
{
    is_place(at.h) && is_place(at.v)
}

fn is_offset(at: Point) -> bool
    ensures { IsTrue result ↔ IsOffset farthest at }
{
    -2048 <= at.h && at.h <= 2048 && -2048 <= at.v && at.v <= 2048
}

fn is_size(size: Size) -> bool
    ensures { IsTrue result ↔ IsSize size }
{
    size.wide <= 4096 && size.high <= 4096
}

fn is_screen_size(size: Size) -> bool
    ensures { IsTrue result ↔ IsScreenSize size }
{
    1 <= size.wide && size.wide <= 1024 && 1 <= size.high && size.high <= 1024
}
