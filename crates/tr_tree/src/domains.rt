ghost use Rattle.std.specs.Prelude.{◌≡◌, ◌≢◌, ◌≤◌, ◌<◌, ◌-◌, ℕ, length, take, map, get_or, All, AllPairs};
ghost use Rattle.tr_base.specs.declared.NodeId.{NodeId};
ghost use Rattle.tr_base.specs.declared.Kind.{Kind};
ghost use Rattle.tr_base.specs.Rects.{empty_rect};
ghost use Rattle.tr_base.specs.Layouts.{farthest, preferred_place, IsDomain, IsNear, IsOffset};
ghost use Rattle.tr_stack.specs.Stacks.{z_places, t_places, page_places};
ghost use Rattle.tr_forest.specs.Nodes.{node, IsNode};
ghost use Rattle.tr_forest.specs.Families.{depth};
ghost use Rattle.tr_forest.specs.Forests.{IsForest};
ghost use Rattle.tr_tree.specs.Wishes.{shape};
ghost use Rattle.tr_tree.specs.Places.{index_of, shown_index, child_places, domain};
ghost use Rattle.tr_tree.specs.Tables.{shape_in, domain_in};
ghost use Rattle.tr_tree.specs.Laying.{on_screen, laid, offsets_of, IsPlan, HasRoom, Spreads, IsParent, ArePlaced, IsAt, HasDomain, Lays};

use crate::rooms::Room;
use tr_base::{NodeId, Point, Rect, Shapes, Size, empty_place, preferred_place, whole};
use tr_filter::border_place;
use tr_forest::{Forest, NodeKind};
use tr_hv::place_into;
use tr_pack::{Rows, pack_place_into};
use tr_stack::{page_child, t_child};

/// The input of a layout: the nodes of a tree, the size of its screen, and the shapes of each node.
#[derive(Drop)]
pub(crate) struct Plan<'a> {
    pub(crate) forest: &'a Forest,
    pub(crate) size: Size,
    pub(crate) shapes: &'a [Shapes],
}

/// Fills the table with the domain of each node, in one walk from the root. It takes no memory.
pub(crate) fn lay_out(plan: &Plan<'_>, room: &mut Room, domains: &mut Vec<Rect>)
    requires plan { IsPlan plan.now.forest.now plan.now.size plan.now.shapes.now }
    requires room { HasRoom plan.now.forest.now room.old }
    requires count { length domains.old.items ≡ length plan.now.forest.now.entries }
    ensures domains { (kind : Kind) (n : NodeId) →
        domain_in domains.new.items n ≡ domain (on_screen plan.now.forest.now plan.now.size kind) n }
    ensures small { (n : NodeId) → IsDomain (domain_in domains.new.items n) }
    ensures at { (n : NodeId) → IsAt (depth plan.now.forest.now n - 1) (domain_in domains.new.items n) }
    ensures room { HasRoom plan.now.forest.now room.new }
    ensures count { length domains.new.items ≡ length plan.now.forest.now.entries }
{
    clear(plan.forest.count(), domains);
    if let Some(root) = plan.forest.root() {
        domains[usize::from(root.0)] = whole(plan.size);
        lay(plan, root, room, domains);
    }
}

/// Makes the domain of each node empty.
fn clear(count: usize, domains: &mut Vec<Rect>)
    requires { count ≡ length domains.old.items }
    ensures empty { (n : NodeId) → domain_in domains.new.items n ≡ empty_rect }
    ensures count { length domains.new.items ≡ length domains.old.items }
{
    for n in 0..count {
        domains[n] = empty_place();
    }
}

/// Writes the domains of all nodes below a node, whose own is in the table.
pub(crate) fn lay(plan: &Plan<'_>, n: NodeId, room: &mut Room, domains: &mut Vec<Rect>)
    requires forest { IsForest plan.now.forest.now }
    requires plan { IsPlan plan.now.forest.now plan.now.size plan.now.shapes.now }
    requires node { IsNode plan.now.forest.now n }
    requires room { HasRoom plan.now.forest.now room.old }
    requires count { length domains.old.items ≡ length plan.now.forest.now.entries }
    requires own { HasDomain (laid plan.now.forest.now plan.now.size) n domains.old.items }
    ensures lays { Lays (laid plan.now.forest.now plan.now.size) n domains.old.items domains.new.items }
    ensures room { HasRoom plan.now.forest.now room.new }
    ensures count { length domains.new.items ≡ length plan.now.forest.now.entries }
{
    let children = plan.forest.children(n);
    if children.is_empty() {
        return;
    }
    gather(plan.shapes, children, &mut room.shapes);
    let parent = Parent {
        forest: plan.forest,
        n,
        rect: domains[usize::from(n.0)],
        shapes: &room.shapes[..children.len()],
    };
    place_first(&parent, children.len(), &mut room.places);
    spread(children, &room.places, domains);
    for child in children {
        lay(plan, *child, room, domains);
    }
}

/// Copies the children's shapes out of the table.
pub(crate) fn gather(shapes: &[Shapes], children: &[NodeId], gathered: &mut Vec<Shapes>)
    requires within { All (λ child. child.0 < length shapes.now) children.now }
    requires room { length children.now ≤ length gathered.old.items }
    ensures shapes { take (length children.now) gathered.new.items ≡ map (shape_in shapes.now) children.now }
    ensures count { length gathered.new.items ≡ length gathered.old.items }
{
    for (i, child) in children.iter().enumerate() {
        gathered[i] = shapes[usize::from(child.0)];
    }
}

/// Writes the children's places into the table.
fn spread(children: &[NodeId], places: &Vec<Rect>, domains: &mut Vec<Rect>)
    requires within { All (λ child. child.0 < length domains.old.items) children.now }
    requires once { AllPairs (λ a b. a.0 ≢ b.0) children.now }
    requires room { length children.now ≤ length places.now.items }
    ensures spreads { Spreads children.now places.now.items domains.old.items domains.new.items }
    ensures count { length domains.new.items ≡ length domains.old.items }
{
    for (i, child) in children.iter().enumerate() {
        domains[usize::from(child.0)] = places[i];
    }
}

/// A node whose children are placed, with its rectangle and their shapes.
#[derive(Drop)]
struct Parent<'a> {
    forest: &'a Forest,
    n: NodeId,
    rect: Rect,
    shapes: &'a [Shapes],
}

/// Places the `count` children of a node into the first places of the room.
fn place_first(parent: &Parent<'_>, count: usize, places: &mut Vec<Rect>)
    requires parent { let p = parent.now in IsParent p.forest.now p.n p.rect p.shapes.now }
    requires count { count ≡ length (node parent.now.forest.now parent.now.n).children }
    requires room { count ≤ length places.old.items }
    ensures places { let p = parent.now in
        ArePlaced p.forest.now p.n p.rect (take count places.new.items) }
    ensures count { length places.new.items ≡ length places.old.items }
{
    place_front(parent, count, places);
}

/// The same in a slice, for the prover: it supports a range of a slice, but not of a `Vec`.
fn place_front(parent: &Parent<'_>, count: usize, places: &mut [Rect])
    requires parent { let p = parent.now in IsParent p.forest.now p.n p.rect p.shapes.now }
    requires count { count ≡ length (node parent.now.forest.now parent.now.n).children }
    requires room { count ≤ length places.old }
    ensures { let p = parent.now in ArePlaced p.forest.now p.n p.rect (take count places.new) }
{
    place_children(parent, &mut places[..count]);
}

/// Places the children of a node according to its kind.
fn place_children(parent: &Parent<'_>, places: &mut [Rect])
    requires parent { let p = parent.now in IsParent p.forest.now p.n p.rect p.shapes.now }
    requires room { length places.old ≡ length (node parent.now.forest.now parent.now.n).children }
    ensures { let p = parent.now in ArePlaced p.forest.now p.n p.rect places.new }
{
    let rect = parent.rect;
    let shapes = parent.shapes;
    match parent.forest.kind_of(parent.n) {
        NodeKind::H => place_into(false, rect, shapes, places),
        NodeKind::V => place_into(true, rect, shapes, places),
        NodeKind::Z => place_over(parent, places),
        NodeKind::T { shown } => place_shown(rect, index_shown(parent, shown), places),
        NodeKind::Page { per, page } => place_pages(rect, per, page, places),
        NodeKind::Border { width } => fill(border_place(rect, width), places),
        NodeKind::Rigid { .. } => fill(rect, places),
        NodeKind::Translate { by } => place_moved(rect, by, shapes, places),
        NodeKind::Pack { down, gap } => pack_place_into(rect, Rows { down, gap }, shapes, places),
        NodeKind::Leaf { .. } => {}
    }
}

/// The children of a Z, each at its own offset.
fn place_over(parent: &Parent<'_>, places: &mut [Rect])
    requires parent { let p = parent.now in IsParent p.forest.now p.n p.rect p.shapes.now }
    requires room { length places.old ≡ length (node parent.now.forest.now parent.now.n).children }
    ensures places { let p = parent.now in
        places.new ≡ z_places p.rect (offsets_of p.forest.now p.n) p.shapes.now }
    ensures near { All (λ child. IsNear farthest child parent.now.rect) places.new }
{
    let children = parent.forest.children(parent.n);
    for (i, child) in children.iter().enumerate() {
        let at = parent.forest.at_of(*child);
        places[i] = preferred_place(&parent.rect, at, &parent.shapes[i]);
    }
}

/// The children of a T.
fn place_shown(rect: Rect, shown: usize, places: &mut [Rect])
    ensures { places.new ≡ t_places rect shown (length places.old) }
{
    for i in 0..places.len() {
        places[i] = t_child(rect, shown, i);
    }
}

/// The children of a Page.
fn place_pages(rect: Rect, per: u8, page: u8, places: &mut [Rect])
    requires domain { IsDomain rect }
    requires per { 1 ≤ per }
    ensures { places.new ≡ page_places rect per page (length places.old) }
{
    for i in 0..places.len() {
        places[i] = page_child(rect, per, page, i);
    }
}

/// The children of a node that moves them.
fn place_moved(rect: Rect, by: Point, shapes: &[Shapes], places: &mut [Rect])
    requires domain { IsDomain rect }
    requires offset { IsOffset farthest by }
    requires room { length places.old ≡ length shapes.now }
    ensures places { places.new ≡ map (preferred_place rect by) shapes.now }
    ensures near { All (λ child. IsNear farthest child rect) places.new }
{
    for (i, child) in shapes.iter().enumerate() {
        places[i] = preferred_place(&rect, by, child);
    }
}

/// Each child has this rectangle.
fn fill(rect: Rect, places: &mut [Rect])
    ensures rects { All (λ place. place ≡ rect) places.new }
    ensures count { length places.new ≡ length places.old }
{
    for place in places.iter_mut() {
        *place = rect;
    }
}

/// The index of the child that a T shows.
fn index_shown(parent: &Parent<'_>, shown: Option<NodeId>) -> usize
    requires { IsNode parent.now.forest.now parent.now.n }
    ensures { result ≡ shown_index shown (node parent.now.forest.now parent.now.n).children }
{
    match shown {
        Some(child) => index_of(child, parent.forest.children(parent.n)),
        None => 0,
    }
}

/// The number of children before this one.
fn index_of(child: NodeId, children: &[NodeId]) -> usize
    ensures { result ≡ index_of child children.now }
{
    for (i, other) in children.iter().enumerate() {
        if other.0 == child.0 {
            return i;
        }
    }
    children.len()
}
