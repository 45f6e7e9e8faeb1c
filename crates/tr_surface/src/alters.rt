ghost use Rattle.std.specs.Prelude.{◌≡◌, true, false, [], Option, None, IfOk, IfErr, IfSome, IsTrue, OnOk, OnErr};
ghost use Rattle.tr_base.specs.declared.Point.{Point};
ghost use Rattle.tr_base.specs.declared.NodeId.{NodeId};
ghost use Rattle.tr_base.specs.Ops.{same_kind};
ghost use Rattle.tr_region.specs.Points.{holds};
ghost use Rattle.tr_screen.specs.Pictures.{pixel_of};
ghost use Rattle.tr_forest.specs.Nodes.{IsNode, leaf_count, node};
ghost use Rattle.tr_forest.specs.Edits.{IsCause, IsEdit, refusal};
ghost use Rattle.tr_tree.specs.Trees.{edited_tree};
ghost use Rattle.tr_spot.specs.Spots.{HasRoot, region_of};
ghost use Rattle.tr_surface.specs.Formers.{IsFormer};
ghost use Rattle.tr_surface.specs.Surfaces.{is_bad};
ghost use Rattle.tr_surface.specs.TreeSteps.{WindowFacts, bad_after_edit, child_of as spec_child, first_node, good_after, moved_child as spec_moved, source};
ghost use Rattle.tr_surface.specs.TreeChanges.{IsCover};
ghost use Rattle.tr_surface.specs.Survivors as spec;

use crate::covers::Cover;
use crate::formers::Former;
use crate::goods::way_of;
use crate::keepers::Keeper;
use crate::surfaces::{Surface, empty_regions};
use crate::tree_changes::{Known, TreeChange};
use std::mem;
use tr_base::{Kind, NoMemory, NodeId, Point};
use tr_region::Region;
use tr_repair::move_pixels;
use tr_screen::Screen;
use tr_tree::{Edit, EditRefused, Tree};

impl Surface {
    /// Applies the edit to the tree, and returns the old tree. A point of the screen stays good if it shows
    /// the same as before, in its place or moved along with a child, or if its window keeps it. It then gets
    /// the pixel of its source. All other points are bad. An `Err` changes nothing.
    pub fn alter<K: Keeper>(&mut self, edit: &Edit, keeper: &K) -> Result<Tree, EditRefused>
        requires edit { IsEdit self.old.tree.nodes edit.now }
        requires leaves { K.leaves keeper.now ≡ leaf_count self.old.tree.nodes }
        ensures was { IfOk result (λ tree. tree ≡ self.old.tree) }
        ensures tree { OnOk result (self.new.tree ≡ edited_tree self.old.tree edit.now) }
        ensures bad { OnOk result ((p : Point) → is_bad self.new p ≡
            bad_after_edit (K.keeping keeper.now) self.old.tree self.new.tree edit.now (is_bad self.old) p) }
        ensures pixels { OnOk result ((p : Point) →
            good_after (K.keeping keeper.now) self.old.tree self.new.tree edit.now (is_bad self.old) p
            ≡ true →
            pixel_of self.new.screen p
            ≡ pixel_of self.old.screen (source self.old.tree self.new.tree edit.now p)) }
        ensures allowed { OnOk result (refusal self.old.tree.nodes edit.now ≡ None) }
        ensures cause { IfErr result (λ e. IsCause (refusal self.old.tree.nodes edit.now) e) }
        ensures err { OnErr result (self.new ≡ self.old) }
    {
        self.tree.invariant();
        let is = edited(&self.tree, &mut self.former, edit)?;
        let Ok(known) = self.known(&is, edit, keeper) else {
            drop(is);
            return Err(EditRefused::NoMemory);
        };
        let way = way_of_moved(&self.tree, &is, moved_child(&self.tree, edit));
        let Ok(()) = fit_screen(&mut self.screen, &is) else {
            drop((is, known));
            return Err(EditRefused::NoMemory);
        };
        move_pixels(&mut self.screen, &known.follows, way);
        self.good = known.good;
        Ok(mem::replace(&mut self.tree, is))
    }

    /// Keeps the tree that `alter` returned, and its edit. The next edit makes its tree of these: by the same
    /// edit again, or by a copy in this tree's memory.
    pub fn keep_former(&mut self, tree: Tree, edit: Edit)
        requires edit { IsEdit tree.nodes edit }
        requires tree { edited_tree tree edit ≡ self.old.tree }
        ensures { self.new ≡ self.old }
    {
        self.former = Some(Former { tree, edit });
    }

    /// The good points of the tree after the edit.
    fn known<K: Keeper>(&self, is: &Tree, edit: &Edit, keeper: &K) -> Result<Known, NoMemory>
        requires edit { IsEdit self.now.tree.nodes edit.now }
        requires allowed { refusal self.now.tree.nodes edit.now ≡ None }
        requires is { is.now ≡ edited_tree self.now.tree edit.now }
        requires leaves { K.leaves keeper.now ≡ leaf_count self.now.tree.nodes }
        ensures good { let c = spec.change_to self.now is.now (spec_moved self.now.tree edit.now) in
            IfOk result (λ r. spec.AreGoodAfter (K.keeping keeper.now) c r.good.items) }
        ensures follows { let c = spec.change_to self.now is.now (spec_moved self.now.tree edit.now) in
            IfOk result (λ r. (p : Point) → holds r.follows p ≡ spec.follows_by (K.keeping keeper.now) c p) }
    {
        self.tree.invariant();
        let count = is.count();
        if self.is_lost(is) {
            let good = empty_regions(self.alloc, count)?;
            let follows = Region::empty(self.alloc);
            return Ok(Known { good, follows });
        }
        let moved = moved_child(&self.tree, edit);
        let change = TreeChange {
            alloc: self.alloc,
            was: &self.tree,
            is,
            good: &self.good,
            moved,
        };
        let cover = cover_of(&change, edit)?;
        let known = change.known(keeper, &cover);
        drop(cover);
        let known = known?;
        Ok(known)
    }

    /// Whether the new tree's pixels are of another kind, or no point is good: then no point stays good.
    fn is_lost(&self, is: &Tree) -> bool
        requires { HasRoot is.now }
        ensures lost { IsTrue result → (k : WindowFacts) (moved : Option NodeId) (p : Point) →
            spec.good_by k (spec.change_to self.now is.now moved) p ≡ false }
        ensures kind { result ≡ false → is.now.kind ≡ self.now.tree.kind }
    {
        if is_other(self.tree.kind(), is.kind()) {
            return true;
        }
        are_empty(&self.good)
    }
}

/// The tree after the edit. It takes the former tree, unless the edit is refused.
fn edited(tree: &Tree, former: &mut Option<Former>, edit: &Edit) -> Result<Tree, EditRefused>
    requires edit { IsEdit tree.now.nodes edit.now }
    requires former { IfSome former.old (IsFormer tree.now) }
    ensures tree { IfOk result (λ is. is ≡ edited_tree tree.now edit.now) }
    ensures allowed { OnOk result (refusal tree.now.nodes edit.now ≡ None) }
    ensures cause { IfErr result (λ e. IsCause (refusal tree.now.nodes edit.now) e) }
    ensures used { OnOk result (former.new ≡ None) }
    ensures kept { IfSome former.new (IsFormer tree.now) }
{
    if let Some(fault) = tree.refusal(edit) {
        return Err(EditRefused::Fault(fault));
    }
    let mut is = again(tree, former.take())?;
    match is.edit(edit) {
        Ok(()) => Ok(is),
        Err(e) => {
            drop(is);
            Err(e)
        }
    }
}

/// A second tree that equals the present one: the former tree after the last edit, if that edit places few
/// nodes, or else a copy, in the memory of the former tree, if there is one.
fn again(tree: &Tree, former: Option<Former>) -> Result<Tree, NoMemory>
    requires { IfSome former (IsFormer tree.now) }
    ensures { IfOk result (λ t. t ≡ tree.now) }
{
    let Some(
        Former {
            tree: mut was,
            edit,
        },
    ) = former
    else {
        return tree.copy();
    };
    if places_few(&edit) && was.edit(&edit).is_ok() {
        return Ok(was);
    }
    tree.copy_into(was)
}

/// Whether an edit leaves most nodes in their places. Contracts don't mention it: a copy is the same tree.
fn places_few(edit: &Edit) -> bool {
    matches!(
        edit,
        Edit::Move { .. }
            | Edit::Lift { .. }
            | Edit::Offset { .. }
            | Edit::Tint { .. }
            | Edit::Rescreen { .. }
    )
}

/// The cover of the child that an edit moves or brings to the front, or `None` if the edit attaches or
/// detaches a child, or other nodes may move too. Without a child the cover is empty.
fn cover_of(change: &TreeChange<'_>, edit: &Edit) -> Result<Option<Cover>, NoMemory>
    requires edit { IsEdit change.now.was.now.nodes edit.now }
    requires allowed { refusal change.now.was.now.nodes edit.now ≡ None }
    requires is { change.now.is.now ≡ edited_tree change.now.was.now edit.now }
    requires moved { change.now.moved ≡ spec_moved change.now.was.now edit.now }
    ensures { let s = change.now in
        IfOk result (λ o. IfSome o (IsCover s.was.now s.is.now s.moved)) }
{
    change.was.invariant();
    let same_size = change.was.size() == change.is.size();
    if is_hanging(edit) || !same_size {
        return Ok(None);
    }
    change.cover(carried_child(change.was, edit))
}

/// Whether no region has a point.
fn are_empty(regions: &[Region]) -> bool
    ensures { IsTrue result → (n : NodeId) → region_of regions.now n ≡ [] }
{
    for region in regions {
        if !region.is_empty() {
            return false;
        }
    }
    true
}

/// Whether the two kinds differ.
fn is_other(was: Kind, is: Kind) -> bool
    ensures other { IsTrue result → same_kind was is ≡ false }
    ensures same { result ≡ false → is ≡ was }
{
    was != is
}

/// The distance by which the moved child moves, if one is moved.
fn way_of_moved(was: &Tree, is: &Tree, moved: Option<NodeId>) -> Point
    requires was { IfSome moved (IsNode was.now.nodes) }
    requires is { IfSome moved (IsNode is.now.nodes) }
    ensures { result ≡ spec.way_of_moved was.now is.now moved }
{
    match moved {
        None => Point { h: 0, v: 0 },
        Some(child) => way_of(was, is, child),
    }
}

/// Gives the screen the tree's size and kind.
fn fit_screen(screen: &mut Screen, tree: &Tree) -> Result<(), NoMemory>
    ensures ok { OnOk result (spec.IsFitted tree.now screen.old screen.new) }
    ensures err { OnErr result (screen.new ≡ screen.old) }
{
    tree.invariant();
    let (size, kind) = (tree.size(), tree.kind());
    if screen.size() == size && screen.kind() == kind {
        return Ok(());
    }
    let resized = screen.resized(size, kind)?;
    *screen = resized;
    Ok(())
}

/// The child that an edit moves, if it has points.
fn moved_child(was: &Tree, edit: &Edit) -> Option<NodeId>
    requires { IsEdit was.now.nodes edit.now }
    ensures child { result ≡ spec_moved was.now edit.now }
    ensures node { IfSome result (IsNode was.now.nodes) }
{
    let child = child_of(was, edit)?;
    if was.domain(child).is_empty() {
        None
    } else {
        Some(child)
    }
}

/// The child that an edit moves, wherever it lies.
fn child_of(was: &Tree, edit: &Edit) -> Option<NodeId>
    requires { IsEdit was.now.nodes edit.now }
    ensures child { result ≡ spec_child was.now.nodes edit.now }
    ensures node { IfSome result (IsNode was.now.nodes) }
{
    match edit {
        Edit::Move { child, .. } => Some(*child),
        Edit::Offset { node, .. } => first_child(was, *node),
        _ => None,
    }
}

/// The first child of a node.
fn first_child(tree: &Tree, n: NodeId) -> Option<NodeId>
    requires { IsNode tree.now.nodes n }
    ensures value { result ≡ first_node (node tree.now.nodes n).children }
    ensures node { IfSome result (IsNode tree.now.nodes) }
{
    tree.invariant();
    match tree.children(n) {
        [child, ..] => Some(*child),
        [] => None,
    }
}

/// The child that an edit moves with all nodes below it, or brings to the front.
fn carried_child(was: &Tree, edit: &Edit) -> Option<NodeId>
    requires { IsEdit was.now.nodes edit.now }
    ensures child { result ≡ spec.carried_child was.now.nodes edit.now }
    ensures node { IfSome result (IsNode was.now.nodes) }
{
    match edit {
        Edit::Lift { child } => Some(*child),
        _ => child_of(was, edit),
    }
}

/// Whether an edit attaches or detaches a child.
fn is_hanging(edit: &Edit) -> bool
    ensures { result ≡ spec.is_hanging edit.now }
{
    match edit {
        Edit::Attach { .. } => true,
        Edit::Detach { .. } => true,
        _ => false,
    }
}
