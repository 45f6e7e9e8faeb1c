ghost use Rattle.std.specs.Prelude.{◌≡◌, ◌<◌, ◌++◌, ◌∷◌, [], false, IsOk, IfOk, IfErr, OnOk, OnErr, Some, None, map, length, if◌then◌else◌};
ghost use Rattle.tr_base.specs.declared.NodeId.{NodeId};
ghost use Rattle.tr_base.specs.Rects.{whole_of, IsScreenSize};
ghost use Rattle.tr_base.specs.Layouts.{IsDomain};
ghost use Rattle.tr_forest.specs.Nodes.{node, new_entry, IsNode, IsNodeKind, IsNextLeaf, shown_by, leaf_of, leaf_count, node_of};
ghost use Rattle.tr_forest.specs.Families.{is_under};
ghost use Rattle.tr_forest.specs.Forests.{IsForest};
ghost use Rattle.tr_forest.specs.Edits.{IsEdit, IsCause, refusal, wants_memory, is_root};
ghost use Rattle.tr_tree.specs.Trees.{size_after, kind_after, edited_tree};
ghost use Rattle.tr_tree.specs.Wishes.{shape, shape_of};
ghost use Rattle.tr_tree.specs.Places.{domain, place_below};
ghost use Rattle.tr_tree.specs.Ready.{keeps_shapes};

use crate::layouts::Layout;
use std::alloc::Global;
use std::marker::Model;
use tr_base::{Kind, LeafId, NoMemory, NodeId, Point, Rect, Shapes, Size};
use tr_forest::{Edit, EditRefused, Forest, NodeFault, NodeKind};

/// A tree of windows of at most 256 nodes, and its screen.
#[derive(Drop)]
pub struct Tree {
    forest: Forest,
    size: Size,
    kind: Kind,
    layout: Layout,
}

impl Model for Tree {
    ghost use Rattle.tr_tree.specs.Trees.{Seen};
    ghost use Rattle.tr_tree.specs.Ready.{IsLaidOut};

    ghost Value = { Seen };

    ghost view = { λ t. record { nodes = t.forest; size = t.size; kind = t.kind } };

    ghost invariant = { λ t. IsLaidOut t.forest t.size t.layout };
}

impl Tree {
    /// A tree without nodes, on a screen of 1 to 1024 points each way.
    pub fn new(alloc: Global, size: Size, kind: Kind) -> Result<Tree, NoMemory>
        requires { IsScreenSize size }
        ensures { IfOk result (λ t. t ≡ record {
          nodes = record { entries = []; root = None };
          size = size;
          kind = kind;
        }) }
    {
        let forest = Forest::new(alloc);
        let mut layout = Layout::new(alloc);
        layout.fill(&forest, size);
        Ok(Tree {
            forest,
            size,
            kind,
            layout,
        })
    }

    /// Adds a node without a parent. Nodes are numbered from 0 in the order of their addition, and so are
    /// leaves.
    pub fn add(&mut self, kind: NodeKind, tint: u8) -> Result<NodeId, NoMemory>
        requires room { length self.old.nodes.entries < 256 }
        requires kind { IsNodeKind kind }
        requires shown { shown_by kind ≡ None }
        requires leaf { IsNextLeaf self.old.nodes kind }
        ensures id { IfOk result (λ n. n.0 ≡ length self.old.nodes.entries) }
        ensures ok { OnOk result (self.new ≡ record self.old {
          nodes = record self.old.nodes { entries = self.old.nodes.entries ++ new_entry kind tint ∷ [] };
        }) }
        ensures err { OnErr result (self.new ≡ self.old) }
    {
        self.layout.reserve()?;
        let n = self.forest.add(kind, tint)?;
        self.layout.grow();
        self.layout.fill(&self.forest, self.size);
        Ok(n)
    }

    /// Chooses the root, which has the whole screen.
    pub fn set_root(&mut self, n: NodeId)
        requires none { self.old.nodes.root ≡ None }
        requires node { IsNode self.old.nodes n }
        requires top { (node self.old.nodes n).parent ≡ None }
        ensures { self.new ≡ record self.old { nodes = record self.old.nodes { root = Some n } } }
    {
        self.forest.set_root(n);
        self.layout.place(&self.forest, self.size);
    }

    /// Applies the edit to the tree, or refuses it. Only an Attach can need memory.
    pub fn edit(&mut self, edit: &Edit) -> Result<(), EditRefused>
        requires { IsEdit self.old.nodes edit.now }
        ensures ok { OnOk result (self.new ≡ edited_tree self.old edit.now) }
        ensures allowed { OnOk result (refusal self.old.nodes edit.now ≡ None) }
        ensures cause { IfErr result (λ e. IsCause (refusal self.old.nodes edit.now) e) }
        ensures succeeds { wants_memory edit.now ≡ false →
            refusal self.old.nodes edit.now ≡ None → IsOk result }
        ensures err { OnErr result (self.new ≡ self.old) }
    {
        self.forest.invariant();
        self.forest.edit(edit)?;
        self.size = size_after(edit, self.size);
        self.kind = kind_after(edit, self.kind);
        match edit {
            Edit::Tint { .. } => {}
            Edit::Rescreen { .. } => {}
            // Each child of a Z has its own offset, so their order doesn't affect their domains.
            Edit::Lift { .. } => {}
            Edit::Move { child, at } => {
                self.layout
                    .place_moved(&self.forest, self.size, *child, *at);
            }
            Edit::Offset { node, by } => {
                if let [child, ..] = self.forest.children(*node) {
                    self.layout
                        .place_moved(&self.forest, self.size, *child, *by);
                }
            }
            _ => {
                if keeps_shapes(edit) {
                    self.layout.place(&self.forest, self.size);
                } else {
                    self.layout.fill(&self.forest, self.size);
                }
            }
        }
        Ok(())
    }

    /// The reason why an edit is refused, if it is.
    pub fn refusal(&self, edit: &Edit) -> Option<NodeFault>
        requires { IsEdit self.now.nodes edit.now }
        ensures { result ≡ refusal self.now.nodes edit.now }
    {
        self.forest.refusal(edit)
    }

    /// Tells the invariant of trees. Nothing runs.
    pub fn invariant(&self)
        ensures forest { IsForest self.now.nodes }
        ensures screen { IsScreenSize self.now.size }
    {
        let _count = self.count();
    }

    /// The number of nodes.
    pub fn count(&self) -> usize
        ensures count { result ≡ length self.now.nodes.entries }
        ensures invariant { IsForest self.now.nodes }
        ensures size { IsScreenSize self.now.size }
    {
        self.forest.count()
    }

    /// The lengths that a node wants.
    pub fn shape(&self, n: NodeId) -> Shapes
        requires { IsNode self.now.nodes n }
        ensures { result ≡ shape self.now.nodes n }
    {
        self.layout.shapes[usize::from(n.0)]
    }

    /// The domain of a node, in the screen's coordinates. It may reach past its parent's, and is
    /// empty for a node without a place.
    pub fn domain(&self, n: NodeId) -> Rect
        requires { IsNode self.now.nodes n }
        ensures domain { result ≡ domain self.now n }
        ensures small { IsDomain result }
    {
        self.layout.domains[usize::from(n.0)]
    }

    /// The kind of a node.
    pub fn kind_of(&self, n: NodeId) -> NodeKind
        requires { IsNode self.now.nodes n }
        ensures { result ≡ (node self.now.nodes n).kind }
    {
        self.forest.kind_of(n)
    }

    /// The tint of a node's frame.
    pub fn tint_of(&self, n: NodeId) -> u8
        requires { IsNode self.now.nodes n }
        ensures { result ≡ (node self.now.nodes n).tint }
    {
        self.forest.tint_of(n)
    }

    /// The offset of a node in a Z.
    pub fn at_of(&self, n: NodeId) -> Point
        requires { IsNode self.now.nodes n }
        ensures { result ≡ (node self.now.nodes n).at }
    {
        self.forest.at_of(n)
    }

    /// The parent of a node.
    pub fn parent(&self, n: NodeId) -> Option<NodeId>
        requires { IsNode self.now.nodes n }
        ensures { result ≡ (node self.now.nodes n).parent }
    {
        self.forest.parent(n)
    }

    /// A node's children, from front to back or in the order of their places.
    pub fn children(&self, n: NodeId) -> &[NodeId]
        requires { IsNode self.now.nodes n }
        ensures { result.now ≡ (node self.now.nodes n).children }
    {
        self.forest.children(n)
    }

    /// The number of leaves.
    pub fn leaves(&self) -> u8
        ensures { result ≡ leaf_count self.now.nodes }
    {
        self.forest.leaves()
    }

    /// Whether n is `top`, or lies below it.
    pub fn is_under(&self, top: NodeId, n: NodeId) -> bool
        requires { IsNode self.now.nodes n }
        ensures { result ≡ is_under self.now.nodes top n }
    {
        self.forest.is_under(top, n)
    }

    /// The node of a leaf.
    pub fn node_of(&self, leaf: LeafId) -> NodeId
        requires { leaf.0 < leaf_count self.now.nodes }
        ensures is { result ≡ node_of self.now.nodes leaf }
        ensures leaf { leaf_of (node self.now.nodes result).kind ≡ Some leaf }
        ensures node { IsNode self.now.nodes result }
    {
        self.forest.node_of(leaf)
    }

    /// The root, once it is chosen.
    pub fn root(&self) -> Option<NodeId>
        ensures { result ≡ self.now.nodes.root }
    {
        self.forest.root()
    }

    /// The size of the screen.
    pub fn size(&self) -> Size
        ensures { result ≡ self.now.size }
    {
        self.size
    }

    /// The kind of the screen's pixels.
    pub fn kind(&self) -> Kind
        ensures { result ≡ self.now.kind }
    {
        self.kind
    }

    /// A copy of the tree.
    pub fn copy(&self) -> Result<Tree, NoMemory>
        ensures { IfOk result (λ t. t ≡ self.now) }
    {
        let forest = self.forest.copy()?;
        let Ok(layout) = self.layout.copy() else {
            drop(forest);
            return Err(NoMemory);
        };
        Ok(Tree {
            forest,
            size: self.size,
            kind: self.kind,
            layout,
        })
    }

    /// A copy of the tree, in the memory of another. If that has as many nodes, and each has room for as many
    /// children, nothing is allocated.
    pub fn copy_into(&self, spare: Tree) -> Result<Tree, NoMemory>
        ensures { IfOk result (λ t. t ≡ self.now) }
    {
        let Tree {
            forest,
            mut layout,
            ..
        } = spare;
        let Ok(()) = layout.copy_from(&self.layout) else {
            drop((forest, layout));
            return Err(NoMemory);
        };
        let Ok(forest) = self.forest.copy_into(forest) else {
            drop(layout);
            return Err(NoMemory);
        };
        Ok(Tree {
            forest,
            size: self.size,
            kind: self.kind,
            layout,
        })
    }

    /// No domain lies far from the screen, and none is large. The call does nothing.
    pub fn domains_are_small(&self)
        ensures { (n : NodeId) → IsDomain (domain self.now n) }
    {
        self.forest.invariant();
    }

    /// Sixteen levels are enough, so shapes and domains are those of trees of any depth. The call does
    /// nothing.
    pub fn levels_suffice(&self)
        ensures shapes { (n : NodeId) → let t = self.now.nodes in
            shape t n ≡ shape_of (node t n).kind (map (shape t) (node t n).children) }
        ensures domains { (n : NodeId) → let t = self.now in
            domain t n ≡ (if is_root t.nodes n then whole_of t.size
            else place_below t.nodes n (node t.nodes n).parent (domain t)) }
    {
        self.forest.invariant();
    }
}

/// The size of the screen after an edit.
fn size_after(edit: &Edit, size: Size) -> Size
    ensures { result ≡ size_after edit.now size }
{
    match edit {
        Edit::Resize { size } => *size,
        _ => size,
    }
}

/// The kind of the screen's pixels after an edit.
fn kind_after(edit: &Edit, kind: Kind) -> Kind
    ensures { result ≡ kind_after edit.now kind }
{
    match edit {
        Edit::Rescreen { kind } => *kind,
        _ => kind,
    }
}

/// Whether each node wants the same lengths after an edit.
fn keeps_shapes(edit: &Edit) -> bool
    ensures { result ≡ keeps_shapes edit.now }
{
    match edit {
        Edit::Offset { .. } => true,
        Edit::Move { .. } => true,
        Edit::Lift { .. } => true,
        Edit::Show { .. } => true,
        Edit::Turn { .. } => true,
        Edit::Resize { .. } => true,
        _ => false,
    }
}
