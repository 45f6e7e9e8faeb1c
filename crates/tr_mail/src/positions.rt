ghost use Rattle.std.specs.Prelude.{◌≡◌, ◌<◌, ◌≤◌, ◌+◌, length, [], false, None, IfErr, OnOk, OnErr};
ghost use Rattle.tr_base.specs.Rects.{InReach};
ghost use Rattle.tr_base.specs.Layouts.{IsDomain};
ghost use Rattle.tr_forest.specs.Nodes.{is_leaf, leaf_count};
ghost use Rattle.tr_forest.specs.Edits.{IsEdit, refusal};
ghost use Rattle.tr_tree.specs.Trees.{edited_tree};
ghost use Rattle.tr_spot.specs.Spots as spots;
ghost use Rattle.tr_base.specs.Ops as ops;
ghost use Rattle.tr_spot.specs.Leaves as leaves;
ghost use Rattle.tr_desk.specs.Faults.{time_fault};
ghost use Rattle.tr_mail.specs.Deliveries as spec;
ghost use Rattle.tr_mail.specs.Bounds.{IsUnbounded, is_bounded};
ghost use Rattle.tr_mail.specs.Sizes.{keeps_sizes};

use crate::mails::Mail;
use crate::outboxes::Outbox;
use tr_base::{Event, Kind, LeafId, Point, Rect, Spot};
use tr_cage::{Cage, holds};
use tr_desk::DeskFault;
use tr_spot::{in_leaf, leaf_size, spot_at};
use tr_tree::{Edit, NodeKind, Tree};

impl Mail {
    /// The cursor moves. Each window whose cage doesn't hold the cursor is told the cursor's place.
    pub fn motion(
        &mut self,
        tree: &Tree,
        time: u32,
        at: Point,
        out: &mut Outbox,
    ) -> Result<(), DeskFault>
        requires root { spots.HasRoot tree.now }
        requires leaves { leaf_count tree.now.nodes ≡ length self.old.inboxes }
        requires across { InReach at.h }
        requires down { InReach at.v }
        ensures ok { OnOk result
            (record { mail = self.new; sent = out.new } ≡ spec.cursor_moved tree.now time at self.old) }
        ensures few { length out.new ≤ length self.old.inboxes }
        ensures allowed { OnOk result (time_fault self.old.desk time ≡ None) }
        ensures fault { IfErr result (λ e. time_fault self.old.desk time ≡ Some e) }
        ensures err { OnErr result (self.new ≡ self.old) }
        ensures nothing { OnErr result (out.new ≡ []) }
    {
        out.clear();
        self.desk.motion(time, at)?;
        self.tell_all(tree, out);
        Ok(())
    }

    /// A leaf asks for another cage. Each window whose cage doesn't hold the cursor is told the
    /// cursor's place.
    pub fn set_cage(&mut self, tree: &Tree, leaf: LeafId, cage: Cage, out: &mut Outbox)
        requires root { spots.HasRoot tree.now }
        requires leaves { leaf_count tree.now.nodes ≡ length self.old.inboxes }
        requires leaf { leaf.0 < length self.old.inboxes }
        ensures sent { record { mail = self.new; sent = out.new } ≡ spec.caged tree.now leaf cage self.old }
        ensures few { length out.new ≤ length self.old.inboxes }
    {
        out.clear();
        self.desk.set_cage(leaf, cage);
        self.may_be_bounded = true;
        self.tell_all(tree, out);
    }

    /// The tree was edited: each window that has another size or kind of pixels is told so, and then
    /// each window whose cage doesn't hold the cursor is told the cursor's place.
    pub fn edited(&mut self, was: &Tree, is: &Tree, out: &mut Outbox)
        requires root { spots.HasRoot is.now }
        requires before { leaf_count was.now.nodes ≡ length self.old.inboxes }
        requires leaves { leaf_count is.now.nodes ≡ length self.old.inboxes }
        ensures sent { record { mail = self.new; sent = out.new } ≡ spec.tree_edited was.now is.now self.old }
        ensures few { length out.new ≤ length self.old.inboxes + length self.old.inboxes }
    {
        self.invariant();
        out.clear();
        self.reshape_all(was, is, out);
        self.tell_all(is, out);
    }

    /// Like `edited`, after this edit. If the edit keeps the size and the kind of each window, no window is
    /// asked for them.
    pub fn edited_by(&mut self, was: &Tree, tree: &Tree, edit: &Edit, out: &mut Outbox)
        requires root { spots.HasRoot tree.now }
        requires before { leaf_count was.now.nodes ≡ length self.old.inboxes }
        requires leaves { leaf_count tree.now.nodes ≡ length self.old.inboxes }
        requires edit { IsEdit was.now.nodes edit.now }
        requires allowed { refusal was.now.nodes edit.now ≡ None }
        requires is { tree.now ≡ edited_tree was.now edit.now }
        ensures sent { record { mail = self.new; sent = out.new } ≡
            spec.tree_edited was.now tree.now self.old }
        ensures few { length out.new ≤ length self.old.inboxes + length self.old.inboxes }
    {
        was.invariant();
        self.invariant();
        if keeps_sizes(was, edit) {
            out.clear();
            self.tell_all(tree, out);
        } else {
            self.edited(was, tree, out);
        }
    }

    /// Tells each leaf, in the order of their numbers, the cursor's place, if its cage doesn't hold it.
    /// The cursor's spot is found once, and only if some cage may be bounded.
    fn tell_all(&mut self, tree: &Tree, out: &mut Outbox)
        requires root { spots.HasRoot tree.now }
        requires leaves { leaf_count tree.now.nodes ≡ length self.old.inboxes }
        requires room { length out.old + length self.old.inboxes ≤ 64 }
        ensures sent { record { mail = self.new; sent = out.new } ≡
            spec.told tree.now (record { mail = self.old; sent = out.old }) }
        ensures few { length out.new ≤ length out.old + length self.old.inboxes }
    {
        if !self.may_be_bounded {
            return;
        }
        let spot = spot_at(tree, self.cursor());
        for n in 0..self.leaves() {
            self.tell(tree, &spot, LeafId(n), out);
        }
        self.may_be_bounded = self.is_any_bounded();
    }

    /// Whether some leaf's cage is bounded. If none is, no leaf is told the cursor's place.
    fn is_any_bounded(&self) -> bool
        ensures { result ≡ false → IsUnbounded self.now.desk }
    {
        for n in 0..self.leaves() {
            if is_bounded(&self.desk.cage(LeafId(n))) {
                return true;
            }
        }
        false
    }

    /// The cursor's place.
    fn cursor(&self) -> Point
        ensures { result ≡ self.now.desk.cursor }
    {
        self.desk.cursor()
    }

    /// Tells a leaf the cursor's place, if its cage doesn't hold it. The cage then becomes everywhere,
    /// so that the leaf is told once.
    fn tell(&mut self, tree: &Tree, spot: &Spot, leaf: LeafId, out: &mut Outbox)
        requires leaves { leaf_count tree.now.nodes ≡ length self.old.inboxes }
        requires spot { spot.now ≡ spots.spot tree.now self.old.desk.cursor }
        requires leaf { leaf.0 < length self.old.inboxes }
        requires room { length out.old < 64 }
        ensures sent { record { mail = self.new; sent = out.new } ≡
            spec.tell tree.now leaf (record { mail = self.old; sent = out.old }) }
        ensures few { length out.new ≤ length out.old + 1 }
        ensures cursor { self.new.desk.cursor ≡ self.old.desk.cursor }
        ensures inboxes { length self.new.inboxes ≡ length self.old.inboxes }
    {
        let cage = self.desk.cage(leaf);
        if !is_bounded(&cage) {
            return;
        }
        let at = in_leaf(tree, leaf, self.desk.cursor());
        let gone = !is_in_leaf(leaf, spot);
        if holds(&cage, at, gone) {
            return;
        }
        let time = self.desk.time();
        self.desk.set_cage(leaf, Cage::Everywhere);
        self.send(leaf, Event::Position { time, at, gone }, out);
    }

    /// Tells each leaf, in the order of their numbers, its size and kind of pixels, if one of them has
    /// changed.
    fn reshape_all(&mut self, was: &Tree, is: &Tree, out: &mut Outbox)
        requires before { leaf_count was.now.nodes ≡ length self.old.inboxes }
        requires leaves { leaf_count is.now.nodes ≡ length self.old.inboxes }
        requires room { length out.old + length self.old.inboxes ≤ 64 }
        ensures sent { record { mail = self.new; sent = out.new } ≡
            spec.reshape_below (length self.old.inboxes) was.now is.now
            (record { mail = self.old; sent = out.old }) }
        ensures few { length out.new ≤ length out.old + length self.old.inboxes }
        ensures inboxes { length self.new.inboxes ≡ length self.old.inboxes }
    {
        for n in 0..self.leaves() {
            self.reshape(was, is, LeafId(n), out);
        }
    }

    /// Tells a leaf its size and kind of pixels, if one of them has changed.
    fn reshape(&mut self, was: &Tree, is: &Tree, leaf: LeafId, out: &mut Outbox)
        requires before { leaf_count was.now.nodes ≡ length self.old.inboxes }
        requires leaves { leaf_count is.now.nodes ≡ length self.old.inboxes }
        requires leaf { leaf.0 < length self.old.inboxes }
        requires room { length out.old < 64 }
        ensures sent { record { mail = self.new; sent = out.new } ≡
            spec.reshape was.now is.now leaf (record { mail = self.old; sent = out.old }) }
        ensures few { length out.new ≤ length out.old + 1 }
        ensures inboxes { length self.new.inboxes ≡ length self.old.inboxes }
    {
        if !is_reshaped(was, is, leaf) {
            return;
        }
        let size = leaf_size(is, leaf);
        let kind = is.kind();
        self.send(leaf, Event::Reshape { size, kind }, out);
    }
}

/// Whether the edit alone shows that each window keeps its size and its kind.
fn keeps_sizes(was: &Tree, edit: &Edit) -> bool
    requires { IsEdit was.now.nodes edit.now }
    ensures { result ≡ keeps_sizes was.now.nodes edit.now }
{
    match edit {
        Edit::Tint { .. } => true,
        Edit::Lift { .. } => true,
        Edit::Move { child, .. } => is_leaf(was.kind_of(*child)),
        _ => false,
    }
}

fn is_leaf(kind: NodeKind) -> bool
    ensures { result ≡ is_leaf kind }
{
    match kind {
        NodeKind::Leaf { .. } => true,
        _ => false,
    }
}

/// Whether the cage isn't everywhere. This is tested before the cursor's position in the leaf is computed.
fn is_bounded(cage: &Cage) -> bool
    ensures { result ≡ is_bounded cage.now }
{
    match cage {
        Cage::Everywhere => false,
        Cage::Only { .. } => true,
    }
}

/// Whether the spot is part of this leaf.
fn is_in_leaf(leaf: LeafId, spot: &Spot) -> bool
    ensures { result ≡ spots.is_in_leaf leaf spot.now }
{
    match spot {
        Spot::Leaf { leaf: own, .. } => own.0 == leaf.0,
        _ => false,
    }
}

/// Whether a leaf's size or kind of pixels has changed.
pub fn is_reshaped(was: &Tree, is: &Tree, leaf: LeafId) -> bool
    requires before { leaf.0 < leaf_count was.now.nodes }
    requires leaf { leaf.0 < leaf_count is.now.nodes }
    ensures { result ≡ spec.is_reshaped was.now is.now leaf }
{
    let from = was.domain(was.node_of(leaf));
    let to = is.domain(is.node_of(leaf));
    !(is_as_large(from, to) && same_kind(was.kind(), is.kind()))
}

/// Whether the rectangles of two windows have the same size. Most windows stay in place, so the edges
/// are compared first.
fn is_as_large(a: Rect, b: Rect) -> bool
    requires a { IsDomain a }
    requires b { IsDomain b }
    ensures { result ≡ leaves.same_size (spots.size_of a) (spots.size_of b) }
{
    a == b || a.size() == b.size()
}

fn same_kind(a: Kind, b: Kind) -> bool
    ensures { result ≡ ops.same_kind a b }
{
    a == b
}
