ghost use Rattle.std.specs.Prelude.{◌≡◌, ◌<◌, ◌∷◌, [], true, length, slice_index, IfOk, OnOk};
ghost use Rattle.tr_base.specs.declared.Point.{Point};
ghost use Rattle.tr_base.specs.Layouts.{IsDomain};
ghost use Rattle.tr_base.specs.Rects.{IsRect};
ghost use Rattle.tr_region.specs.Areas.{total_area};
ghost use Rattle.tr_region.specs.Places.{place_in};
ghost use Rattle.tr_region.specs.Points.{holds};
ghost use Rattle.tr_screen.specs.Pictures.{pixel_of};
ghost use Rattle.tr_exec.specs.Executions.{IsOrigin, RegionLiesOn, screen_point};
ghost use Rattle.tr_forest.specs.Nodes.{leaf_count};
ghost use Rattle.tr_spot.specs.Leaves.{in_leaf, leaf_corner, leaf_domain};
ghost use Rattle.tr_levels.specs.declared.Level.TheVariants.{Share};
ghost use Rattle.tr_journal.specs.declared.Actor.TheVariants.{Painter};
ghost use Rattle.tr_journal.specs.Openings.{tree_of};
ghost use Rattle.tr_journal.specs.Steps.{IsFor};
ghost use Rattle.tr_machine.specs.States.{leaf_batch};
ghost use Rattle.tr_machine.specs.Paintings.{is_visible};
ghost use Rattle.tr_machine.specs.Pictures.{want};
ghost use Rattle.tr_machine.specs.SharedRepaints.{IsPaintedOf};
ghost use Rattle.tr_stage.specs.Making.{Makes, MakesWithoutReply};
ghost use Rattle.tr_stage.specs.Stages.{KeepsOthers, state};

use crate::lines::{By, write};
use crate::stages::Stage;
use tr_base::{Env, LeafId, NoMemory, Point, whole};
use tr_client::Client;
use tr_exec::execute;
use tr_journal::{Actor, Answer, Reply, Step};
use tr_levels::{Held, Level};
use tr_region::Region;
use tr_screen::Screen;
use tr_spot::{from_corner, leaf_size, size_of};
use tr_surface::pixels_at;
use tr_tree::Tree;

/// The bad points of a leaf's window, painted apart from the screen.
#[derive(Drop)]
pub struct Painted {
    pub leaf: LeafId,
    /// Its bad visible points, in the screen's coordinates.
    pub part: Region,
    /// Their pixels, by the rectangles of `part` in order and by rows within each.
    pub pixels: Vec<u8>,
}

impl<C: Client> Stage<C> {
    /// Paints a leaf's bad points, apart from the screen.
    pub fn paint_bad(&self, leaf: LeafId) -> Result<Painted, NoMemory>
        requires leaf { leaf.0 < leaf_count (tree_of self.now.opening).nodes }
        ensures leaf { IfOk result (λ painted. painted.leaf ≡ leaf) }
        ensures painted { IfOk result (λ painted.
            IsPaintedOf C.Client (state C.Client self.now) leaf painted.part painted.pixels.items) }
    {
        let part = self.surface.bad_of(leaf)?;
        let Ok(pixels) = self.paint_apart(leaf, &part) else {
            drop(part);
            return Err(NoMemory);
        };
        Ok(Painted { leaf, part, pixels })
    }

    /// The right colours of visible points of a leaf, by the rectangles of `part` in order and by rows within
    /// each. They are painted on a screen that is only as large as the points' extents.
    fn paint_apart(&self, leaf: LeafId, part: &Region) -> Result<Vec<u8>, NoMemory>
        requires leaf { leaf.0 < leaf_count (tree_of self.now.opening).nodes }
        requires part { let m = state C.Client self.now in
            (p : Point) → holds part.now p ≡ true → is_visible m leaf p ≡ true }
        ensures many { IfOk result (λ v. length v.items ≡ total_area part.now) }
        ensures colours { let m = state C.Client self.now in
            IfOk result (λ v. (p : Point) → holds part.now p ≡ true →
            slice_index v.items (place_in part.now p) ≡ want C.Client m p) }
    {
        self.invariant();
        part.invariant();
        if part.is_empty() {
            return Ok(Vec::new(self.alloc));
        }
        let tree = self.surface.tree();
        let corner = corner_of(tree, leaf);
        let area = part.extents();
        // The corners of the screen and of the window, relative to that of the extents.
        let by = from_corner(&area, Point { h: 0, v: 0 });
        let origin = from_corner(&area, corner);
        let here = part.shift(by)?;
        let Ok(mut wanted) = Screen::blank(self.alloc, size_of(&area), tree.kind()) else {
            drop(here);
            return Err(NoMemory);
        };
        let Ok(()) = self.paint_window(leaf, origin, &here, &mut wanted) else {
            drop((here, wanted));
            return Err(NoMemory);
        };
        let pixels = pixels_at(&wanted, &here);
        drop((here, wanted));
        pixels
    }

    /// Gives visible points of a leaf their right colour.
    pub(crate) fn paint_part(
        &self,
        leaf: LeafId,
        part: &Region,
        wanted: &mut Screen,
    ) -> Result<(), NoMemory>
        requires leaf { leaf.0 < leaf_count (tree_of self.now.opening).nodes }
        requires size { wanted.old.size ≡ self.now.screen.size }
        requires kind { wanted.old.kind ≡ self.now.screen.kind }
        requires part { let m = state C.Client self.now in
            (p : Point) → holds part.now p ≡ true → is_visible m leaf p ≡ true }
        ensures painted { let m = state C.Client self.now in
            OnOk result ((p : Point) → holds part.now p ≡ true →
            pixel_of wanted.new p ≡ want C.Client m p) }
        ensures size { wanted.new.size ≡ wanted.old.size }
        ensures kind { wanted.new.kind ≡ wanted.old.kind }
    {
        self.invariant();
        let corner = corner_of(self.surface.tree(), leaf);
        self.paint_window(leaf, corner, part, wanted)
    }

    /// Paints a leaf's window with its north-west corner at `origin`, within some points of a screen. The
    /// screen may be another than the stage's.
    fn paint_window(
        &self,
        leaf: LeafId,
        origin: Point,
        part: &Region,
        wanted: &mut Screen,
    ) -> Result<(), NoMemory>
        requires leaf { leaf.0 < leaf_count (tree_of self.now.opening).nodes }
        requires origin { IsOrigin origin }
        requires part { RegionLiesOn wanted.old.size part.now }
        requires kind { wanted.old.kind ≡ self.now.screen.kind }
        ensures painted { let m = state C.Client self.now in
            OnOk result ((p : Point) → is_visible m leaf p ≡ true →
            holds part.now (screen_point origin (in_leaf m.tree leaf p)) ≡ true →
            pixel_of wanted.new (screen_point origin (in_leaf m.tree leaf p)) ≡ want C.Client m p) }
        ensures size { wanted.new.size ≡ wanted.old.size }
        ensures kind { wanted.new.kind ≡ wanted.old.kind }
    {
        self.invariant();
        let tree = self.surface.tree();
        let env = Env {
            kind: tree.kind(),
            font: self.opening.font(),
        };
        let size = leaf_size(tree, leaf);
        let content = self.windows.content(leaf);
        let painting = content.paint(self.alloc, &env, size, whole(size))?;
        let mut unknown = Region::empty(self.alloc);
        let executed = execute(
            self.alloc,
            &painting,
            &env,
            origin,
            part,
            wanted,
            &mut unknown,
        );
        drop((painting, unknown));
        executed?;
        Ok(())
    }

    /// Puts a leaf's painted bad points onto the screen, while no command waits for the leaf. This is the
    /// painter's step `Repaint`, with only the leaf's share held. For want of memory no step is made.
    pub fn put_painted(&mut self, painted: Painted) -> Result<(), NoMemory>
        requires leaf { painted.leaf.0 < leaf_count (tree_of self.old.opening).nodes }
        requires idle { leaf_batch C.Client (state C.Client self.old) painted.leaf ≡ [] }
        requires painted { let m = state C.Client self.old in
            IsPaintedOf C.Client m painted.leaf painted.part painted.pixels.items }
        ensures made { MakesWithoutReply C.Client self.old self.new Painter (Share painted.leaf ∷ [])
            (Step.Repaint painted.leaf) result }
        ensures others { let t = (state C.Client self.old).tree in
            OnOk result (KeepsOthers {M = C.Cmd} t (Step.Repaint painted.leaf)
            self.old.screen self.new.screen) }
    {
        let by = By {
            actor: Actor::Painter,
            level: Held::none().with(Level::Share(painted.leaf)),
        };
        self.put(&by, painted.leaf, &painted.part, &painted.pixels)?;
        Ok(())
    }

    /// Makes a repaint of a leaf without waiting commands, from the pixels of its bad points.
    fn put(
        &mut self,
        by: &By,
        leaf: LeafId,
        part: &Region,
        pixels: &[u8],
    ) -> Result<Reply, NoMemory>
        requires allowed { let t = (tree_of self.old.opening).nodes in
            IsFor {M = C.Cmd} t by.now.actor by.now.level (Step.Repaint leaf) }
        requires idle { leaf_batch C.Client (state C.Client self.old) leaf ≡ [] }
        requires painted { IsPaintedOf C.Client (state C.Client self.old) leaf part.now pixels.now }
        ensures made { Makes C.Client self.old self.new by.now.actor by.now.level
            (Step.Repaint leaf) result }
        ensures others { let t = (state C.Client self.old).tree in
            OnOk result (KeepsOthers {M = C.Cmd} t (Step.Repaint leaf) self.old.screen self.new.screen) }
    {
        self.journal.reserve(1)?;
        self.surface.invariant();
        self.surface.put(leaf, part, pixels)?;
        self.surface.invariant();
        self.windows.clear(leaf);
        let entry = by.entry(Step::Repaint { leaf }, Answer::Done, 0);
        Ok(write(&mut self.journal, entry, Answer::Done, &[]))
    }
}

/// The north-west corner of a leaf's window on the screen.
fn corner_of(tree: &Tree, leaf: LeafId) -> Point
    requires { leaf.0 < leaf_count tree.now.nodes }
    ensures value { result ≡ leaf_corner tree.now leaf }
    ensures origin { IsOrigin result }
    ensures domain { IsDomain (leaf_domain tree.now leaf) }
    ensures rect { IsRect (leaf_domain tree.now leaf) }
{
    let domain = tree.domain(tree.node_of(leaf));
    domain.invariant();
    domain.corner()
}
