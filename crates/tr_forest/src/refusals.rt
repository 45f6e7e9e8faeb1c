ghost use Rattle.std.specs.Prelude.{◌≡◌, ◌+◌, ◌||◌, nat_lt, if◌then◌else◌, Some, None};
ghost use Rattle.tr_base.specs.declared.Point.{Point};
ghost use Rattle.tr_forest.specs.Nodes.{IsNode, node};
ghost use Rattle.tr_forest.specs.Families.{levels, depth, height, is_among};
ghost use Rattle.tr_forest.specs.Forests.{IsForest};
ghost use Rattle.tr_forest.specs.Edits.{IsEdit, refusal, hangs, is_root, is_occupied};

use crate::edits::{Edit, NodeFault};
use crate::families::Family;
use crate::walks::{LEVELS, depth_of, height_of, lies_under, parent_of};
use tr_base::NodeId;

/// A fault, if it was found.
fn fault_if(found: bool, fault: NodeFault) -> Option<NodeFault>
    ensures { result ≡ (if found then Some fault else None) }
{
    if found { Some(fault) } else { None }
}

/// Whether the node is a filter that has its child.
fn is_occupied(family: &Family, n: NodeId) -> bool
    requires { IsNode family.now n }
    ensures { result ≡ is_occupied family.now n }
{
    family.kind_of(n).is_filter() && !family.children(n).is_empty()
}

/// Whether the node has a parent, or is the root.
fn has_place(family: &Family, n: NodeId) -> bool
    requires { IsNode family.now n }
    ensures { result ≡ (hangs family.now n || is_root family.now n) }
{
    if family.parent(n).is_some() {
        return true;
    }
    match family.root() {
        Some(root) => root.0 == n.0,
        None => false,
    }
}

/// Whether a child of this height makes its parent's tree too deep.
fn is_too_deep(family: &Family, child: NodeId, parent: NodeId) -> bool
    requires forest { IsForest family.now }
    requires child { IsNode family.now child }
    requires parent { IsNode family.now parent }
    ensures { result ≡ nat_lt levels (depth family.now parent + height family.now child) }
{
    depth_of(family, LEVELS, parent) + height_of(family, LEVELS, child) > LEVELS
}

/// The reason why the child can't become a child of the parent, if it can't.
fn attach_fault(family: &Family, child: NodeId, parent: NodeId) -> Option<NodeFault>
    requires forest { IsForest family.now }
    requires child { IsNode family.now child }
    requires parent { IsNode family.now parent }
    ensures { (at : Point) → result ≡ refusal family.now (Edit.Attach child parent at) }
{
    if family.kind_of(parent).is_leaf() {
        return Some(NodeFault::WrongKind);
    }
    if lies_under(family, LEVELS, child, parent) {
        return Some(NodeFault::Cycle);
    }
    if is_occupied(family, parent) {
        return Some(NodeFault::Occupied);
    }
    if has_place(family, child) {
        return Some(NodeFault::Attached);
    }
    fault_if(is_too_deep(family, child, parent), NodeFault::TooDeep)
}

/// The reason why a node can't be edited as a child of a Z, if it can't.
fn z_fault(family: &Family, child: NodeId) -> Option<NodeFault>
    requires forest { IsForest family.now }
    requires child { IsNode family.now child }
    ensures { (at : Point) → result ≡ refusal family.now (Edit.Move child at) }
{
    match parent_of(family, child) {
        Some(parent) => fault_if(!family.kind_of(parent).is_z(), NodeFault::WrongKind),
        None => Some(NodeFault::NotChild),
    }
}

/// Whether a node is among the children of another.
fn has_child(family: &Family, n: NodeId, child: NodeId) -> bool
    requires { IsNode family.now n }
    ensures { result ≡ is_among child (node family.now n).children }
{
    is_listed(family.children(n), child)
}

fn is_listed(ns: &[NodeId], n: NodeId) -> bool
    ensures { result ≡ is_among n ns.now }
{
    for m in ns {
        if m.0 == n.0 {
            return true;
        }
    }
    false
}

/// The reason why a node can't show a child, if it can't.
fn show_fault(family: &Family, n: NodeId, child: NodeId) -> Option<NodeFault>
    requires { IsNode family.now n }
    ensures { result ≡ refusal family.now (Edit.Show n child) }
{
    if !family.kind_of(n).is_t() {
        return Some(NodeFault::WrongKind);
    }
    fault_if(!has_child(family, n, child), NodeFault::NotChild)
}

/// The reason for the refusal of an edit, if it is refused.
pub(crate) fn refusal(family: &Family, edit: &Edit) -> Option<NodeFault>
    requires forest { IsForest family.now }
    requires edit { IsEdit family.now edit.now }
    ensures { result ≡ refusal family.now edit.now }
{
    let wrong = NodeFault::WrongKind;
    match *edit {
        Edit::Attach { child, parent, .. } => attach_fault(family, child, parent),
        Edit::Detach { child } => fault_if(family.parent(child).is_none(), NodeFault::NotChild),
        Edit::Tint { node, .. } => fault_if(family.kind_of(node).is_leaf(), wrong),
        Edit::Border { node, .. } => fault_if(!family.kind_of(node).is_border(), wrong),
        Edit::Offset { node, .. } => fault_if(!family.kind_of(node).is_translate(), wrong),
        Edit::Fix { node, .. } => fault_if(!family.kind_of(node).is_rigid(), wrong),
        Edit::Move { child, .. } => z_fault(family, child),
        Edit::Lift { child } => z_fault(family, child),
        Edit::Show { node, child } => show_fault(family, node, child),
        Edit::Turn { node, .. } => fault_if(!family.kind_of(node).is_page(), wrong),
        Edit::Shapes { node, .. } => fault_if(!family.kind_of(node).is_leaf(), wrong),
        Edit::Resize { .. } => None,
        Edit::Rescreen { .. } => None,
    }
}
