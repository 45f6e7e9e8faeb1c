ghost use Rattle.std.specs.Prelude.{◌≡◌, ◌↔◌, ◌+◌, ◌<◌, ◌≤◌, ◌++◌, ◌∷◌, [], false, Some, None, IsTrue, IsNone, IsSome, IfOk, IfErr, IfSome, OnOk, OnErr, length, slice_get, vec_len, vec_capacity};
ghost use Rattle.tr_base.specs.Rects.{IsScreenSize};
ghost use Rattle.tr_forest.specs.Nodes.{IsNode, IsNodeKind, is_leaf, leaf_count, shown_by};
ghost use Rattle.tr_forest.specs.Edits.{IsEdit, IsCause, refusal};
ghost use Rattle.tr_journal.specs.Openings.{tree_of, font_of, content_in, contents_of, root_refusal, IsOpened, DifferAt};

use crate::items::Item;
use std::alloc::Global;
use std::marker::Model;
use tr_base::{Font, Kind, LeafId, NoMemory, NodeId, Point, Shapes, Size};
use tr_client::Client;
use tr_forest::{Edit, EditRefused, NodeFault, NodeKind};
use tr_tree::Tree;

/// The reserved room before an item is added: for that item, and for a Put of each of 256 nodes.
const ROOM: usize = 257;

/// A window without points.
const NOTHING: Size = Size { wide: 0, high: 0 };

/// The start of a screen: the items that make its tree, its font and the contents of its windows, in
/// their order.
#[derive(Drop)]
pub struct Opening<C: Client> {
    items: Vec<Item<C>>,
    tree: Tree,
    font: Font,
    leaves: Vec<usize>,
}

impl<C: Client> Model for Opening<C> {
    ghost use Rattle.std.specs.Prelude.{List, vec_len, vec_capacity};
    ghost use Rattle.tr_journal.specs.declared.items.Item.{Item};
    ghost use Rattle.tr_journal.specs.Kept.{IsTreeOfItems, HasRoomForPuts};

    ghost Value = { List (Item C) };

    ghost view = { λ o. o.items.items };

    ghost invariant = { λ o. IsTreeOfItems C.Client o.items.items o.tree o.font o.leaves.items
        × HasRoomForPuts (vec_len o.items) (vec_capacity o.items) o.tree.nodes };
}

impl<C: Client> Opening<C> {
    /// An opening with only a screen, of 1 to 1024 points each way.
    pub fn new(alloc: Global, size: Size, kind: Kind) -> Result<Opening<C>, NoMemory>
        requires { IsScreenSize size }
        ensures { IfOk result (λ o. o ≡ Item.Screen size kind ∷ []) }
    {
        let mut items = Vec::with_capacity(alloc, ROOM)?;
        let Ok(tree) = Tree::new(alloc, size, kind) else {
            drop(items);
            return Err(NoMemory);
        };
        let Ok(font) = Font::empty(alloc) else {
            drop((items, tree));
            return Err(NoMemory);
        };
        items.push_reserved(Item::Screen { size, kind });
        Ok(Opening {
            items,
            tree,
            font,
            leaves: Vec::new(alloc),
        })
    }

    /// Sets the glyph of a byte from 32 to 126, by its 8 rows from north to south. An `Err` changes
    /// nothing.
    pub fn glyph(&mut self, byte: u8, rows: [u8; 8]) -> Result<(), NoMemory>
        requires first { 32 ≤ byte }
        requires last { byte ≤ 126 }
        ensures ok { OnOk result (self.new ≡ self.old ++ Item.Glyph byte rows ∷ []) }
        ensures err { OnErr result (self.new ≡ self.old) }
    {
        make_room(&mut self.items)?;
        self.font.set(byte, rows);
        self.items.push_reserved(Item::Glyph { byte, rows });
        Ok(())
    }

    /// Adds a node that isn't a leaf, and returns its number. There are at most 256 nodes, leaves among
    /// them. An `Err` changes nothing.
    pub fn node(&mut self, kind: NodeKind, tint: u8) -> Result<NodeId, NoMemory>
        requires room { length (tree_of self.old).nodes.entries < 256 }
        requires kind { IsNodeKind kind }
        requires shown { shown_by kind ≡ None }
        requires inner { is_leaf kind ≡ false }
        ensures id { IfOk result (λ n. n.0 ≡ length (tree_of self.old).nodes.entries) }
        ensures ok { OnOk result (self.new ≡ self.old ++ Item.Node kind tint ∷ []) }
        ensures err { OnErr result (self.new ≡ self.old) }
    {
        make_room(&mut self.items)?;
        let n = self.tree.add(same_kind(&kind), tint)?;
        self.items.push_reserved(Item::Node { kind, tint });
        Ok(n)
    }

    /// Adds a leaf with its content, and returns its number as a leaf. There are at most 32 leaves. An
    /// `Err` changes nothing.
    pub fn leaf(&mut self, shapes: Shapes, content: C) -> Result<LeafId, NoMemory>
        requires room { length (tree_of self.old).nodes.entries < 256 }
        requires leaves { leaf_count (tree_of self.old).nodes < 32 }
        ensures id { IfOk result (λ leaf. leaf.0 ≡ length (contents_of self.old)) }
        ensures ok { OnOk result (self.new ≡ self.old ++ Item.Leaf shapes content ∷ []) }
        ensures err { OnErr result (self.new ≡ self.old) }
    {
        // Tells the prover that this is a content.
        let _kept = content.keeps(NOTHING, NOTHING);
        make_room(&mut self.items)?;
        self.leaves.reserve(1)?;
        let leaf = LeafId(self.tree.leaves());
        self.tree.add(leaf_kind(leaf, &shapes), 0)?;
        self.leaves.push_reserved(self.items.len());
        self.items.push_reserved(Item::Leaf { shapes, content });
        Ok(leaf)
    }

    /// Makes a node a child of another: the first child of a Z, where it lies at `at`, or the last child
    /// of a node of another kind. It is refused for the same reasons as the edit Attach. An `Err` changes
    /// nothing.
    pub fn put(&mut self, child: NodeId, parent: NodeId, at: Point) -> Result<(), EditRefused>
        requires { IsEdit (tree_of self.old).nodes (Edit.Attach child parent at) }
        ensures ok { OnOk result (self.new ≡ self.old ++ Item.Put child parent at ∷ []) }
        ensures allowed { let edit = Edit.Attach child parent at in
            OnOk result (refusal (tree_of self.old).nodes edit ≡ None) }
        ensures cause { let edit = Edit.Attach child parent at in
            IfErr result (λ e. IsCause (refusal (tree_of self.old).nodes edit) e) }
        ensures err { OnErr result (self.new ≡ self.old) }
    {
        self.tree.edit(&Edit::Attach { child, parent, at })?;
        self.items.push_reserved(Item::Put { child, parent, at });
        Ok(())
    }

    /// Makes a node without a parent the root, if there is none yet. An `Err` changes nothing.
    pub fn root(&mut self, node: NodeId) -> Result<(), EditRefused>
        requires { IsNode (tree_of self.old).nodes node }
        ensures ok { OnOk result (self.new ≡ self.old ++ Item.Root node ∷ []) }
        ensures allowed { OnOk result (root_refusal (tree_of self.old).nodes node ≡ None) }
        ensures cause { IfErr result (λ e. IsCause (root_refusal (tree_of self.old).nodes node) e) }
        ensures err { OnErr result (self.new ≡ self.old) }
    {
        if self.tree.root().is_some() || self.tree.parent(node).is_some() {
            return Err(EditRefused::Fault(NodeFault::Attached));
        }
        make_room(&mut self.items)?;
        self.tree.set_root(node);
        self.items.push_reserved(Item::Root { node });
        Ok(())
    }

    /// Whether the root was set.
    pub fn is_ready(&self) -> bool
        ensures { IsTrue result ↔ IsSome (tree_of self.now).nodes.root }
    {
        self.tree.root().is_some()
    }

    /// The tree that the items make.
    pub fn tree(&self) -> &Tree
        ensures value { result.now ≡ tree_of self.now }
        ensures invariant { IsOpened C.Client self.now }
    {
        self.tree.invariant();
        &self.tree
    }

    /// The font that the items make.
    pub fn font(&self) -> &Font
        ensures { result.now ≡ font_of self.now }
    {
        &self.font
    }

    /// The content of a leaf.
    pub fn content(&self, leaf: LeafId) -> &C
        requires { leaf.0 < length (contents_of self.now) }
        ensures content { slice_get (contents_of self.now) leaf.0 ≡ Some result.now }
        ensures valid { C.valid result.now }
    {
        let place = self.leaves[usize::from(leaf.0)];
        content_of(&self.items[place])
    }

    /// A copy of the opening.
    pub fn copy(&self) -> Result<Opening<C>, NoMemory>
        ensures { IfOk result (λ o. o ≡ self.now) }
    {
        let items = copies_of(&self.items)?;
        let Ok(tree) = self.tree.copy() else {
            drop(items);
            return Err(NoMemory);
        };
        let Ok(font) = self.font.copy() else {
            drop((items, tree));
            return Err(NoMemory);
        };
        let Ok(leaves) = Vec::from_slice(*self.leaves.allocator(), &self.leaves) else {
            drop((items, tree, font));
            return Err(NoMemory);
        };
        Ok(Opening {
            items,
            tree,
            font,
            leaves,
        })
    }

    /// Whether both have the same items.
    pub fn same(&self, other: &Opening<C>) -> bool
        ensures { IsTrue result ↔ (self.now ≡ other.now) }
    {
        self.first_difference(other).is_none()
    }

    /// The number, counted from 1, of the first item in which the two differ. An item that only one of
    /// them has is a difference.
    pub fn first_difference(&self, other: &Opening<C>) -> Option<u64>
        ensures none { IsNone result ↔ (self.now ≡ other.now) }
        ensures place { IfSome result (λ place. DifferAt self.now other.now place) }
    {
        first_difference(&self.items, &other.items)
    }
}

/// Takes the memory for one more item, and for a Put of each node that has no parent yet.
fn make_room<C: Client>(items: &mut Vec<Item<C>>) -> Result<(), NoMemory>
    ensures ok { OnOk result (vec_len items.new + ROOM ≤ vec_capacity items.new) }
    ensures items { items.new.items ≡ items.old.items }
    ensures len { vec_len items.new ≡ vec_len items.old }
    ensures capacity { vec_capacity items.old ≤ vec_capacity items.new }
{
    items.reserve(ROOM)?;
    Ok(())
}

/// A copy of a lent kind. The borrow checker needs it, so that the kind can be used again.
fn same_kind(kind: &NodeKind) -> NodeKind
    ensures { result ≡ kind.now }
{
    *kind
}

/// The kind of a leaf.
fn leaf_kind(leaf: LeafId, shapes: &Shapes) -> NodeKind
    ensures { result ≡ NodeKind.Leaf leaf shapes.now }
{
    NodeKind::Leaf {
        leaf,
        shapes: *shapes,
    }
}

/// The content of a leaf's item.
fn content_of<C: Client>(item: &Item<C>) -> &C
    requires { IsSome (content_in item.now) }
    ensures { content_in item.now ≡ Some result.now }
{
    match item {
        Item::Leaf { content, .. } => content,
        _ => unreachable!(),
    }
}

/// A copy of items, with room for one more and for a Put of each node.
fn copies_of<C: Client>(items: &Vec<Item<C>>) -> Result<Vec<Item<C>>, NoMemory>
    ensures items { IfOk result (λ copies. copies.items ≡ items.now.items) }
    ensures room { IfOk result (λ copies. vec_len copies + ROOM ≤ vec_capacity copies) }
{
    let alloc = *items.allocator();
    let mut copies = Vec::new(alloc);
    for item in items {
        copies.push(item.copy(alloc)?)?;
    }
    make_room(&mut copies)?;
    Ok(copies)
}

/// The place, counted from 1, of the first item in which two lists differ.
fn first_difference<C: Client>(items: &[Item<C>], others: &[Item<C>]) -> Option<u64>
    ensures none { IsNone result ↔ (items.now ≡ others.now) }
    ensures place { IfSome result (λ place. DifferAt items.now others.now place) }
{
    let common = items.len().min(others.len());
    for i in 0..common {
        if !items[i].same(&others[i]) {
            return Some(i as u64 + 1);
        }
    }
    if items.len() == others.len() {
        None
    } else {
        Some(common as u64 + 1)
    }
}
