//! The items of an opening.
ghost use Rattle.std.specs.Prelude.{◌≡◌, ◌<◌, ◌≤◌, ◌++◌, ◌∷◌, [], true, false, None, Option, IfErr, OnOk, OnErr, length};
ghost use Rattle.tr_base.specs.Rects.{IsScreenSize};
ghost use Rattle.tr_forest.specs.declared.NodeFault.{NodeFault};
ghost use Rattle.tr_forest.specs.Nodes.{IsNode, IsNodeKind, is_leaf, leaf_count, shown_by};
ghost use Rattle.tr_forest.specs.Edits.{IsCause, IsEdit, refusal};
ghost use Rattle.tr_journal.specs.Openings.{root_refusal, tree_of};
ghost use Rattle.tr_grammar.specs.Names.{number_of};
ghost use Rattle.tr_grammar.specs.Faults.{screen_line, opening_line, allows, nodes_so_far, is_one_too_many};
ghost use Rattle.tr_grammar.specs.Scripts.{after_meaning};
ghost use Rattle.tr_reader.specs.Adding.{Adds, IsRefusal, IsSoundMeaning};

use crate::names::NameTable;
use crate::readers::{Declared, Reader};
use tr_base::{Kind, NoMemory, NodeId, Point, Shapes, Size};
use tr_client::Client;
use tr_forest::{Edit, EditRefused, NodeKind};
use tr_grammar::{Code, LineRefused, Meaning, Place};
use tr_journal::{Item, Opening};
use tr_widget::Widget;

/// The result if there is no opening. It never occurs: an item comes after the screen line, and the
/// opening exists from there on.
const LOST: NoMemory = NoMemory;

/// The refusal of a line whose edit is refused.
fn refused(e: EditRefused) -> LineRefused
    ensures { (fault : Option NodeFault) → IsCause fault e → IsRefusal fault result }
{
    match e {
        EditRefused::NoMemory => LineRefused::NoMemory,
        EditRefused::Fault(_) => LineRefused::Fault(Code::B6),
    }
}

/// Makes a node a child of another.
fn put<C: Client>(
    opening: &mut Opening<C>,
    child: NodeId,
    parent: NodeId,
    at: Point,
) -> Result<(), LineRefused>
    requires { IsEdit (tree_of opening.old).nodes (Edit.Attach child parent at) }
    ensures ok { OnOk result (opening.new ≡ opening.old ++ Item.Put child parent at ∷ []) }
    ensures allowed { let edit = Edit.Attach child parent at in
        OnOk result (refusal (tree_of opening.old).nodes edit ≡ None) }
    ensures cause { let edit = Edit.Attach child parent at in
        IfErr result (λ e. IsRefusal (refusal (tree_of opening.old).nodes edit) e) }
    ensures err { OnErr result (opening.new ≡ opening.old) }
{
    match opening.put(child, parent, at) {
        Ok(()) => Ok(()),
        Err(e) => Err(refused(e)),
    }
}

/// Makes a node the root.
fn set_root<C: Client>(opening: &mut Opening<C>, node: NodeId) -> Result<(), LineRefused>
    requires { IsNode (tree_of opening.old).nodes node }
    ensures ok { OnOk result (opening.new ≡ opening.old ++ Item.Root node ∷ []) }
    ensures allowed { OnOk result (root_refusal (tree_of opening.old).nodes node ≡ None) }
    ensures cause { IfErr result (λ e. IsRefusal (root_refusal (tree_of opening.old).nodes node) e) }
    ensures err { OnErr result (opening.new ≡ opening.old) }
{
    match opening.root(node) {
        Ok(()) => Ok(()),
        Err(e) => Err(refused(e)),
    }
}

impl<'a> Declared<'a> {
    /// Adds a node that isn't a leaf, and its name.
    fn add_node(&mut self, name: &'a str, kind: NodeKind, tint: u8) -> Result<(), NoMemory>
        requires new { number_of self.old.nodes name.now ≡ None }
        requires names { length self.old.nodes < 256 }
        requires room { length (tree_of self.old.opening).nodes.entries < 256 }
        requires kind { IsNodeKind kind }
        requires shown { shown_by kind ≡ None }
        requires inner { is_leaf kind ≡ false }
        ensures ok { OnOk result (self.new ≡ record self.old {
          opening = self.old.opening ++ Item.Node kind tint ∷ [];
          nodes = self.old.nodes ++ name.now ∷ [];
        }) }
        ensures err { OnErr result (self.new ≡ self.old) }
    {
        self.nodes.declare(name)?;
        if let Err(e) = self.opening.node(kind, tint) {
            self.nodes.withdraw(name);
            return Err(e);
        }
        Ok(())
    }

    /// Adds a leaf, and its name.
    fn add_leaf(&mut self, name: &'a str, shapes: Shapes, content: Widget) -> Result<(), NoMemory>
        requires new_node { number_of self.old.nodes name.now ≡ None }
        requires new_leaf { number_of self.old.leaves name.now ≡ None }
        requires node_names { length self.old.nodes < 256 }
        requires leaf_names { length self.old.leaves < 256 }
        requires nodes { length (tree_of self.old.opening).nodes.entries < 256 }
        requires leaves { leaf_count (tree_of self.old.opening).nodes < 32 }
        ensures ok { OnOk result (self.new ≡ record {
          opening = self.old.opening ++ Item.Leaf shapes content ∷ [];
          nodes = self.old.nodes ++ name.now ∷ [];
          leaves = self.old.leaves ++ name.now ∷ [];
        }) }
        ensures err { OnErr result (self.new ≡ self.old) }
    {
        self.nodes.declare(name)?;
        if let Err(e) = self.add_shown(name, shapes, content) {
            self.nodes.withdraw(name);
            return Err(e);
        }
        Ok(())
    }

    /// Adds a leaf. Its node has its name.
    fn add_shown(&mut self, name: &'a str, shapes: Shapes, content: Widget) -> Result<(), NoMemory>
        requires new { number_of self.old.leaves name.now ≡ None }
        requires names { length self.old.leaves < 256 }
        requires nodes { length (tree_of self.old.opening).nodes.entries < 256 }
        requires leaves { leaf_count (tree_of self.old.opening).nodes < 32 }
        ensures ok { OnOk result (self.new ≡ record self.old {
          opening = self.old.opening ++ Item.Leaf shapes content ∷ [];
          leaves = self.old.leaves ++ name.now ∷ [];
        }) }
        ensures err { OnErr result (self.new ≡ self.old) }
    {
        self.leaves.declare(name)?;
        if let Err(e) = self.opening.leaf(shapes, content) {
            self.leaves.withdraw(name);
            return Err(e);
        }
        Ok(())
    }
}

impl<'a> Reader<'a> {
    /// Begins the opening with its screen.
    fn set_screen(&mut self, size: Size, kind: Kind) -> Result<(), NoMemory>
        requires place { allows self.old.place screen_line ≡ true }
        requires size { IsScreenSize size }
        ensures ok { OnOk result
            (self.new ≡ after_meaning self.old [] (Meaning.Item (Item.Screen size kind))) }
        ensures err { OnErr result (self.new ≡ self.old) }
    {
        let opening = Opening::new(self.alloc, size, kind)?;
        drop(
            self.declared.replace(Declared {
                opening,
                nodes: NameTable::new(self.alloc),
                leaves: NameTable::new(self.alloc),
            }),
        );
        self.place = Place::Opening;
        Ok(())
    }

    /// Adds a glyph.
    fn add_glyph(&mut self, byte: u8, rows: [u8; 8]) -> Result<(), NoMemory>
        requires place { allows self.old.place opening_line ≡ true }
        requires first { 32 ≤ byte }
        requires last { byte ≤ 126 }
        ensures ok { OnOk result
            (self.new ≡ after_meaning self.old [] (Meaning.Item (Item.Glyph byte rows))) }
        ensures err { OnErr result (self.new ≡ self.old) }
    {
        self.glyphs.reserve(1)?;
        let Some(mut declared) = self.declared.take() else {
            return Err(LOST);
        };
        let added = declared.opening.glyph(byte, rows);
        drop(self.declared.replace(declared));
        added?;
        self.glyphs.push_reserved(byte);
        Ok(())
    }

    /// Adds a node that isn't a leaf, and its name.
    fn add_node(&mut self, name: &'a str, kind: NodeKind, tint: u8) -> Result<(), NoMemory>
        requires sound { IsSoundMeaning self.old name.now (Meaning.Item (Item.Node kind tint)) }
        requires room { is_one_too_many self.old (Meaning.Item (Item.Node kind tint)) ≡ false }
        ensures ok { OnOk result
            (self.new ≡ after_meaning self.old name.now (Meaning.Item (Item.Node kind tint))) }
        ensures err { OnErr result (self.new ≡ self.old) }
    {
        let Some(mut declared) = self.declared.take() else {
            return Err(LOST);
        };
        let added = declared.add_node(name, kind, tint);
        drop(self.declared.replace(declared));
        added?;
        Ok(())
    }

    /// Adds a leaf, and its name.
    fn add_leaf(&mut self, name: &'a str, shapes: Shapes, content: Widget) -> Result<(), NoMemory>
        requires sound { IsSoundMeaning self.old name.now (Meaning.Item (Item.Leaf shapes content)) }
        requires room { is_one_too_many self.old (Meaning.Item (Item.Leaf shapes content)) ≡ false }
        ensures ok { OnOk result
            (self.new ≡ after_meaning self.old name.now (Meaning.Item (Item.Leaf shapes content))) }
        ensures err { OnErr result (self.new ≡ self.old) }
    {
        let Some(mut declared) = self.declared.take() else {
            return Err(LOST);
        };
        let added = declared.add_leaf(name, shapes, content);
        drop(self.declared.replace(declared));
        added?;
        Ok(())
    }

    /// Makes a node a child of another, if the tree allows it.
    fn put(&mut self, child: NodeId, parent: NodeId, at: Point) -> Result<(), LineRefused>
        requires place { allows self.old.place opening_line ≡ true }
        requires edit { IsEdit (nodes_so_far self.old) (Edit.Attach child parent at) }
        ensures answer { Adds self.old [] (Meaning.Item (Item.Put child parent at)) self.new result }
        ensures err { OnErr result (self.new ≡ self.old) }
    {
        let Some(mut declared) = self.declared.take() else {
            return Err(LOST.into());
        };
        let added = put(&mut declared.opening, child, parent, at);
        drop(self.declared.replace(declared));
        added?;
        Ok(())
    }

    /// Makes a node the root, if the tree allows it.
    fn set_root(&mut self, node: NodeId) -> Result<(), LineRefused>
        requires place { allows self.old.place opening_line ≡ true }
        requires node { IsNode (nodes_so_far self.old) node }
        ensures answer { Adds self.old [] (Meaning.Item (Item.Root node)) self.new result }
        ensures err { OnErr result (self.new ≡ self.old) }
    {
        let Some(mut declared) = self.declared.take() else {
            return Err(LOST.into());
        };
        let added = set_root(&mut declared.opening, node);
        drop(self.declared.replace(declared));
        added?;
        Ok(())
    }

    /// Adds an item to the opening.
    pub(crate) fn add_item(&mut self, name: &'a str, item: Item<Widget>) -> Result<(), LineRefused>
        requires sound { IsSoundMeaning self.old name.now (Meaning.Item item) }
        requires room { is_one_too_many self.old (Meaning.Item item) ≡ false }
        ensures answer { Adds self.old name.now (Meaning.Item item) self.new result }
        ensures err { OnErr result (self.new ≡ self.old) }
    {
        match item {
            Item::Screen { size, kind } => self.set_screen(size, kind)?,
            Item::Glyph { byte, rows } => self.add_glyph(byte, rows)?,
            Item::Node { kind, tint } => self.add_node(name, kind, tint)?,
            Item::Leaf { shapes, content } => self.add_leaf(name, shapes, content)?,
            Item::Put { child, parent, at } => return self.put(child, parent, at),
            Item::Root { node } => return self.set_root(node),
        }
        Ok(())
    }
}
