ghost use Rattle.std.specs.Prelude.{◌≡◌, true, ◌∷◌, vec_capacity, IfOk, OnOk, OnErr};
ghost use Rattle.tr_forest.specs.Nodes.{new_entry};
ghost use Rattle.tr_forest.specs.Families.{is_among};
ghost use Rattle.tr_forest.specs.Edits.{with_child, hung, bereft, loose, lifting, turned_to, without};

use crate::kinds::NodeKind;
use std::alloc::Global;
use std::marker::Model;
use tr_base::{NoMemory, NodeId, Point};

/// A node. Its model has the children as a list, without their place in memory.
#[derive(Drop)]
pub(crate) struct Node {
    pub(crate) kind: NodeKind,
    pub(crate) tint: u8,
    pub(crate) at: Point,
    pub(crate) parent: Option<NodeId>,
    pub(crate) children: Vec<NodeId>,
}

impl Model for Node {
    ghost use Rattle.tr_forest.specs.Nodes.{Entry};

    ghost Value = { Entry };

    ghost view = { λ n.
        record { kind = n.kind; tint = n.tint; at = n.at; parent = n.parent; children = n.children.items } };
}

/// Takes a child out of a list of children.
fn remove(children: &mut Vec<NodeId>, child: NodeId)
    ensures others { children.new.items ≡ without child children.old.items }
    ensures capacity { vec_capacity children.new ≡ vec_capacity children.old }
{
    children.retain(|c| c.0 != child.0);
}

/// Puts one of the children in front of all others. There is room for it, since it was among them.
fn put_first(children: &mut Vec<NodeId>, child: NodeId)
    requires { is_among child children.old.items ≡ true }
    ensures { children.new.items ≡ child ∷ without child children.old.items }
{
    remove(children, child);
    let _room = children.insert(0, child);
}

impl Node {
    /// A node without a parent.
    pub(crate) fn new(alloc: Global, kind: NodeKind, tint: u8) -> Node
        ensures { result ≡ new_entry kind tint }
    {
        Node {
            kind,
            tint,
            at: Point { h: 0, v: 0 },
            parent: None,
            children: Vec::new(alloc),
        }
    }

    /// Takes a child: a Z takes it in front of all others, another node after them.
    pub(crate) fn adopt(&mut self, child: NodeId) -> Result<(), NoMemory>
        ensures ok { OnOk result (self.new ≡ with_child child self.old) }
        ensures err { OnErr result (self.new ≡ self.old) }
    {
        if self.kind.is_z() {
            self.children.insert(0, child)?;
        } else {
            self.children.push(child)?;
        }
        Ok(())
    }

    /// Gets a parent.
    pub(crate) fn hang(&mut self, parent: NodeId, at: Point)
        ensures { self.new ≡ hung parent at self.old }
    {
        self.parent = Some(parent);
        self.at = at;
    }

    /// Loses a child, and no longer names it.
    pub(crate) fn lose(&mut self, child: NodeId)
        ensures { self.new ≡ bereft child self.old }
    {
        self.kind = self.kind.forgetting(child);
        remove(&mut self.children, child);
    }

    /// Loses its parent.
    pub(crate) fn loosen(&mut self)
        ensures { self.new ≡ loose self.old }
    {
        self.parent = None;
    }

    /// Puts this child in front of all others.
    pub(crate) fn lift(&mut self, child: NodeId)
        requires { is_among child self.old.children ≡ true }
        ensures { self.new ≡ lifting child self.old }
    {
        put_first(&mut self.children, child);
    }

    /// Gets this kind.
    pub(crate) fn turn(&mut self, kind: NodeKind)
        ensures { self.new ≡ turned_to kind self.old }
    {
        self.kind = kind;
    }

    pub(crate) fn set_tint(&mut self, tint: u8)
        ensures { self.new ≡ record self.old { tint = tint } }
    {
        self.tint = tint;
    }

    pub(crate) fn set_at(&mut self, at: Point)
        ensures { self.new ≡ record self.old { at = at } }
    {
        self.at = at;
    }

    pub(crate) fn copy(&self) -> Result<Node, NoMemory>
        ensures { IfOk result (λ n. n ≡ self.now) }
    {
        let children = Vec::from_slice(*self.children.allocator(), &self.children)?;
        Ok(Node {
            kind: self.kind,
            tint: self.tint,
            at: self.at,
            parent: self.parent,
            children,
        })
    }

    /// Becomes the same as another node, in the memory that it has.
    pub(crate) fn copy_from(&mut self, other: &Node) -> Result<(), NoMemory>
        ensures { OnOk result (self.new ≡ other.now) }
    {
        self.children.clear();
        self.children.extend_from_slice(&other.children)?;
        self.kind = other.kind;
        self.tint = other.tint;
        self.at = other.at;
        self.parent = other.parent;
        Ok(())
    }
}
