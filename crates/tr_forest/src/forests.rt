ghost use Rattle.std.specs.Prelude.{◌≡◌, ◌<◌, ◌+◌, ℕ, ◌∷◌, ◌++◌, [], length, Some, None, ◌==◌, ◌||◌, false, IsOk, IfOk, IfErr, OnOk, OnErr};
ghost use Rattle.tr_base.specs.declared.NodeId.{NodeId};
ghost use Rattle.tr_base.specs.Layouts.{greatest_by};
ghost use Rattle.tr_forest.specs.Nodes.{node, new_entry, IsNode, IsNodeKind, IsNextLeaf, shown_by, leaf_of, leaf_count, node_of};
ghost use Rattle.tr_forest.specs.Families.{depth, deeper, height, is_under, of_parent};
ghost use Rattle.tr_forest.specs.Forests.{IsForest};
ghost use Rattle.tr_forest.specs.Edits.{IsEdit, IsCause, edited, refusal, wants_memory};
ghost use Rattle.tr_forest.specs.Tables.{IsLeafTable};

use crate::changes::apply;
use crate::edits::{Edit, EditRefused, NodeFault};
use crate::families::Family;
use crate::kinds::NodeKind;
use crate::refusals::refusal;
use crate::walks::{LEVELS, lies_under};
use std::alloc::Global;
use std::marker::Model;
use tr_base::{LeafId, NoMemory, NodeId, Point};

/// At most 256 nodes. One of them may be the root. A node without a parent is kept too, with all nodes
/// below it.
#[derive(Drop)]
pub struct Forest {
    family: Family,
    leaves: Vec<NodeId>,
}

impl Model for Forest {
    ghost use Rattle.tr_forest.specs.Nodes.{Nodes};
    ghost use Rattle.tr_forest.specs.Tables.{IsLeafTable};

    ghost Value = { Nodes };

    ghost view = { λ f. f.family };

    ghost invariant = { λ f. IsLeafTable f.family f.leaves.items };
}

impl Forest {
    /// No nodes.
    pub fn new(alloc: Global) -> Forest
        ensures { result ≡ record { entries = []; root = None } }
    {
        Forest {
            family: Family::new(alloc),
            leaves: Vec::new(alloc),
        }
    }

    /// Adds a node without a parent. Nodes are numbered from 0 as they are added.
    pub fn add(&mut self, kind: NodeKind, tint: u8) -> Result<NodeId, NoMemory>
        requires room { length self.old.entries < 256 }
        requires kind { IsNodeKind kind }
        requires shown { shown_by kind ≡ None }
        requires leaf { IsNextLeaf self.old kind }
        ensures id { IfOk result (λ n. n.0 ≡ length self.old.entries) }
        ensures ok { OnOk result
            (self.new ≡ record self.old { entries = self.old.entries ++ new_entry kind tint ∷ [] }) }
        ensures err { OnErr result (self.new ≡ self.old) }
    {
        add_in(&mut self.family, &mut self.leaves, kind, tint)
    }

    /// Chooses the root.
    pub fn set_root(&mut self, n: NodeId)
        requires none { self.old.root ≡ None }
        requires node { IsNode self.old n }
        requires top { (node self.old n).parent ≡ None }
        ensures { self.new ≡ record self.old { root = Some n } }
    {
        set_root_in(&mut self.family, &self.leaves, n);
    }

    /// Changes the nodes as the edit says, or refuses it. Of several faults the first one is named. Only an
    /// Attach may run out of memory.
    pub fn edit(&mut self, edit: &Edit) -> Result<(), EditRefused>
        requires { IsEdit self.old edit.now }
        ensures ok { OnOk result (self.new ≡ edited self.old edit.now) }
        ensures allowed { OnOk result (refusal self.old edit.now ≡ None) }
        ensures cause { IfErr result (λ e. IsCause (refusal self.old edit.now) e) }
        ensures succeeds { wants_memory edit.now ≡ false → refusal self.old edit.now ≡ None → IsOk result }
        ensures err { OnErr result (self.new ≡ self.old) }
    {
        edit_in(&mut self.family, &self.leaves, edit)
    }

    /// The reason for the refusal of an edit, if it is refused.
    pub fn refusal(&self, edit: &Edit) -> Option<NodeFault>
        requires { IsEdit self.now edit.now }
        ensures { result ≡ refusal self.now edit.now }
    {
        refusal(&self.family, edit)
    }

    /// Tells the invariant of forests. Nothing runs.
    pub fn invariant(&self)
        ensures { IsForest self.now }
    {
        let _count = self.count();
    }

    /// The number of nodes.
    pub fn count(&self) -> usize
        ensures count { result ≡ length self.now.entries }
        ensures invariant { IsForest self.now }
    {
        self.family.count()
    }

    /// The kind of a node.
    pub fn kind_of(&self, n: NodeId) -> NodeKind
        requires { IsNode self.now n }
        ensures { result ≡ (node self.now n).kind }
    {
        self.family.kind_of(n)
    }

    /// The tint of a node's frame.
    pub fn tint_of(&self, n: NodeId) -> u8
        requires { IsNode self.now n }
        ensures { result ≡ (node self.now n).tint }
    {
        self.family.tint_of(n)
    }

    /// The place of a node in a Z.
    pub fn at_of(&self, n: NodeId) -> Point
        requires { IsNode self.now n }
        ensures { result ≡ (node self.now n).at }
    {
        self.family.at_of(n)
    }

    /// The parent of a node.
    pub fn parent(&self, n: NodeId) -> Option<NodeId>
        requires { IsNode self.now n }
        ensures { result ≡ (node self.now n).parent }
    {
        self.family.parent(n)
    }

    /// A node's children, in their order: in a Z from front to back.
    pub fn children(&self, n: NodeId) -> &[NodeId]
        requires { IsNode self.now n }
        ensures { result.now ≡ (node self.now n).children }
    {
        self.family.children(n)
    }

    /// The root, if it was chosen.
    pub fn root(&self) -> Option<NodeId>
        ensures { result ≡ self.now.root }
    {
        self.family.root()
    }

    /// The number of leaves.
    pub fn leaves(&self) -> u8
        ensures { result ≡ leaf_count self.now }
    {
        self.leaves.len() as u8
    }

    /// Whether n is `top`, or lies below it.
    pub fn is_under(&self, top: NodeId, n: NodeId) -> bool
        requires { IsNode self.now n }
        ensures { result ≡ is_under self.now top n }
    {
        lies_under(&self.family, LEVELS, top, n)
    }

    /// The node of a leaf.
    pub fn node_of(&self, leaf: LeafId) -> NodeId
        requires { leaf.0 < leaf_count self.now }
        ensures is { result ≡ node_of self.now leaf }
        ensures leaf { leaf_of (node self.now result).kind ≡ Some leaf }
        ensures node { IsNode self.now result }
    {
        self.leaves[usize::from(leaf.0)]
    }

    /// A copy of the nodes.
    pub fn copy(&self) -> Result<Forest, NoMemory>
        ensures { IfOk result (λ f. f ≡ self.now) }
    {
        let family = self.family.copy()?;
        let leaves = Vec::from_slice(*self.leaves.allocator(), &self.leaves)?;
        Ok(Forest { family, leaves })
    }

    /// A copy of the nodes, in the memory of another forest. If that has as many nodes, each with as many
    /// children, nothing is allocated.
    pub fn copy_into(&self, spare: Forest) -> Result<Forest, NoMemory>
        ensures { IfOk result (λ f. f ≡ self.now) }
    {
        let Forest {
            mut family,
            mut leaves,
        } = spare;
        family.copy_from(&self.family)?;
        leaves.clear();
        leaves.extend_from_slice(&self.leaves)?;
        Ok(Forest { family, leaves })
    }

    /// Tells that sixteen steps are enough: depths, heights and the test for nodes below a node are those of
    /// trees of any depth. Nothing runs.
    pub fn levels_suffice(&self)
        ensures depths { (n : NodeId) → depth self.now n ≡ deeper (node self.now n).parent (depth self.now) }
        ensures heights { (n : NodeId) →
            height self.now n ≡ greatest_by (height self.now) (node self.now n).children + 1 }
        ensures under { (top n : NodeId) → is_under self.now top n
            ≡ ((n.0 == top.0) || of_parent (node self.now n).parent (is_under self.now top)) }
    {
        let _family = &self.family;
    }
}

fn add_in(
    family: &mut Family,
    leaves: &mut Vec<NodeId>,
    kind: NodeKind,
    tint: u8,
) -> Result<NodeId, NoMemory>
    requires kept { IsLeafTable family.old leaves.old.items }
    requires room { length family.old.entries < 256 }
    requires kind { IsNodeKind kind }
    requires shown { shown_by kind ≡ None }
    requires leaf { IsNextLeaf family.old kind }
    ensures kept { IsLeafTable family.new leaves.new.items }
    ensures id { IfOk result (λ n. n.0 ≡ length family.old.entries) }
    ensures ok { OnOk result
        (family.new ≡ record family.old { entries = family.old.entries ++ new_entry kind tint ∷ [] }) }
    ensures err { OnErr result (family.new ≡ family.old) }
{
    let n = NodeId(family.count() as u16);
    let is_leaf = kind.is_leaf();
    leaves.reserve(1)?;
    family.add(kind, tint)?;
    if is_leaf {
        leaves.push(n)?;
    }
    Ok(n)
}

fn set_root_in(family: &mut Family, leaves: &[NodeId], n: NodeId)
    requires kept { IsLeafTable family.old leaves.now }
    requires node { IsNode family.old n }
    requires top { (node family.old n).parent ≡ None }
    ensures kept { IsLeafTable family.new leaves.now }
    ensures root { family.new ≡ record family.old { root = Some n } }
{
    family.set_root(n);
}

fn edit_in(family: &mut Family, leaves: &[NodeId], edit: &Edit) -> Result<(), EditRefused>
    requires kept { IsLeafTable family.old leaves.now }
    requires edit { IsEdit family.old edit.now }
    ensures kept { IsLeafTable family.new leaves.now }
    ensures ok { OnOk result (family.new ≡ edited family.old edit.now) }
    ensures allowed { OnOk result (refusal family.old edit.now ≡ None) }
    ensures cause { IfErr result (λ e. IsCause (refusal family.old edit.now) e) }
    ensures succeeds { wants_memory edit.now ≡ false → refusal family.old edit.now ≡ None → IsOk result }
    ensures err { OnErr result (family.new ≡ family.old) }
{
    if let Some(fault) = refusal(family, edit) {
        return Err(EditRefused::Fault(fault));
    }
    apply(family, edit)?;
    Ok(())
}
