ghost use Rattle.std.specs.Prelude.{◌≡◌, ◌<◌, true, [], ◌∷◌, ◌++◌, length, Some, None, IfOk, OnOk, OnErr};
ghost use Rattle.tr_forest.specs.Nodes.{Nodes, IsNode, node, new_entry};
ghost use Rattle.tr_forest.specs.Families.{is_among};
ghost use Rattle.tr_forest.specs.Edits.{changed, with_child, hung, bereft, loose, lifting, turned_to};

use crate::entries::Node;
use crate::kinds::NodeKind;
use std::alloc::Global;
use std::marker::Model;
use tr_base::{NoMemory, NodeId, Point};

/// Nodes and a root, without a rule on parents and children. A change of it is a change of one node.
#[derive(Drop)]
pub(crate) struct Family {
    nodes: Vec<Node>,
    root: Option<NodeId>,
}

impl Model for Family {
    ghost use Rattle.tr_forest.specs.Nodes.{Nodes};

    ghost Value = { Nodes };

    ghost view = { λ f. record { entries = f.nodes.items; root = f.root } };
}

impl Family {
    pub(crate) fn new(alloc: Global) -> Family
        ensures { result ≡ record { entries = []; root = None } }
    {
        Family {
            nodes: Vec::new(alloc),
            root: None,
        }
    }

    pub(crate) fn count(&self) -> usize
        ensures { result ≡ length self.now.entries }
    {
        self.nodes.len()
    }

    pub(crate) fn kind_of(&self, n: NodeId) -> NodeKind
        requires { IsNode self.now n }
        ensures { result ≡ (node self.now n).kind }
    {
        let node = &self.nodes[usize::from(n.0)];
        node.kind
    }

    pub(crate) fn tint_of(&self, n: NodeId) -> u8
        requires { IsNode self.now n }
        ensures { result ≡ (node self.now n).tint }
    {
        let node = &self.nodes[usize::from(n.0)];
        node.tint
    }

    pub(crate) fn at_of(&self, n: NodeId) -> Point
        requires { IsNode self.now n }
        ensures { result ≡ (node self.now n).at }
    {
        let node = &self.nodes[usize::from(n.0)];
        node.at
    }

    pub(crate) fn parent(&self, n: NodeId) -> Option<NodeId>
        requires { IsNode self.now n }
        ensures { result ≡ (node self.now n).parent }
    {
        let node = &self.nodes[usize::from(n.0)];
        node.parent
    }

    pub(crate) fn children(&self, n: NodeId) -> &[NodeId]
        requires { IsNode self.now n }
        ensures { result.now ≡ (node self.now n).children }
    {
        let node = &self.nodes[usize::from(n.0)];
        &node.children
    }

    pub(crate) fn root(&self) -> Option<NodeId>
        ensures { result ≡ self.now.root }
    {
        self.root
    }

    pub(crate) fn set_root(&mut self, n: NodeId)
        ensures { self.new ≡ record self.old { root = Some n } }
    {
        self.root = Some(n);
    }

    pub(crate) fn add(&mut self, kind: NodeKind, tint: u8) -> Result<(), NoMemory>
        ensures ok { OnOk result
            (self.new ≡ record self.old { entries = self.old.entries ++ new_entry kind tint ∷ [] }) }
        ensures err { OnErr result (self.new ≡ self.old) }
    {
        let node = Node::new(*self.nodes.allocator(), kind, tint);
        self.nodes.push(node)?;
        Ok(())
    }

    /// A node takes a child; nothing else changes.
    pub(crate) fn adopt(&mut self, parent: NodeId, child: NodeId) -> Result<(), NoMemory>
        requires { IsNode self.old parent }
        ensures ok { OnOk result (self.new ≡ changed parent (with_child child) self.old) }
        ensures err { OnErr result (self.new ≡ self.old) }
    {
        let node = &mut self.nodes[usize::from(parent.0)];
        node.adopt(child)
    }

    pub(crate) fn hang(&mut self, child: NodeId, parent: NodeId, at: Point)
        requires { IsNode self.old child }
        ensures { self.new ≡ changed child (hung parent at) self.old }
    {
        let node = &mut self.nodes[usize::from(child.0)];
        node.hang(parent, at);
    }

    pub(crate) fn lose(&mut self, parent: NodeId, child: NodeId)
        requires { IsNode self.old parent }
        ensures { self.new ≡ changed parent (bereft child) self.old }
    {
        let node = &mut self.nodes[usize::from(parent.0)];
        node.lose(child);
    }

    pub(crate) fn loosen(&mut self, child: NodeId)
        requires { IsNode self.old child }
        ensures { self.new ≡ changed child loose self.old }
    {
        let node = &mut self.nodes[usize::from(child.0)];
        node.loosen();
    }

    pub(crate) fn lift(&mut self, parent: NodeId, child: NodeId)
        requires parent { IsNode self.old parent }
        requires child { is_among child (node self.old parent).children ≡ true }
        ensures { self.new ≡ changed parent (lifting child) self.old }
    {
        let node = &mut self.nodes[usize::from(parent.0)];
        node.lift(child);
    }

    pub(crate) fn turn(&mut self, n: NodeId, kind: NodeKind)
        requires { IsNode self.old n }
        ensures { self.new ≡ changed n (turned_to kind) self.old }
    {
        let node = &mut self.nodes[usize::from(n.0)];
        node.turn(kind);
    }

    pub(crate) fn set_tint(&mut self, n: NodeId, tint: u8)
        requires { IsNode self.old n }
        ensures { self.new ≡ changed n (λ e. record e { tint = tint }) self.old }
    {
        let node = &mut self.nodes[usize::from(n.0)];
        node.set_tint(tint);
    }

    pub(crate) fn set_at(&mut self, n: NodeId, at: Point)
        requires { IsNode self.old n }
        ensures { self.new ≡ changed n (λ e. record e { at = at }) self.old }
    {
        let node = &mut self.nodes[usize::from(n.0)];
        node.set_at(at);
    }

    pub(crate) fn copy(&self) -> Result<Family, NoMemory>
        ensures { IfOk result (λ f. f ≡ self.now) }
    {
        Ok(Family {
            nodes: copy_nodes(*self.nodes.allocator(), &self.nodes)?,
            root: self.root,
        })
    }

    /// Becomes the same as another family, in the memory that it has.
    pub(crate) fn copy_from(&mut self, other: &Family) -> Result<(), NoMemory>
        ensures { OnOk result (self.new ≡ other.now) }
    {
        self.root = other.root;
        copy_nodes_from(&mut self.nodes, &other.nodes)
    }
}

fn copy_nodes(alloc: Global, nodes: &[Node]) -> Result<Vec<Node>, NoMemory>
    ensures { IfOk result (λ copy. copy.items ≡ nodes.now) }
{
    let mut copy = Vec::with_capacity(alloc, nodes.len())?;
    for node in nodes {
        copy.push(node.copy()?)?;
    }
    Ok(copy)
}

/// The nodes become the same as others, each in the memory that it has if there are as many.
fn copy_nodes_from(nodes: &mut Vec<Node>, others: &[Node]) -> Result<(), NoMemory>
    ensures { OnOk result (nodes.new.items ≡ others.now) }
{
    if nodes.len() != others.len() {
        *nodes = copy_nodes(*nodes.allocator(), others)?;
        return Ok(());
    }
    for (i, other) in others.iter().enumerate() {
        let node = &mut nodes[i];
        node.copy_from(other)?;
    }
    Ok(())
}
