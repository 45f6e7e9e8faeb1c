ghost use Rattle.std.specs.Prelude.{◌≡◌, ◌<◌, true, [], length, slice_get, Some, None, IsTrue, IfOk, IfSome, OnOk};
ghost use Rattle.tr_base.specs.declared.Point.{Point};
ghost use Rattle.tr_base.specs.Rects.{has_point, whole_of};
ghost use Rattle.tr_region.specs.Points.{holds};
ghost use Rattle.tr_exec.specs.Executions.{screen_point};
ghost use Rattle.tr_client.specs.Laws.{IsWindowSize};
ghost use Rattle.tr_forest.specs.Nodes.{leaf_count};
ghost use Rattle.tr_spot.specs.Leaves.{leaf_corner, leaf_size};
ghost use Rattle.tr_journal.specs.Openings.{tree_of};
ghost use Rattle.tr_journal.specs.Steps.{IsFor};
ghost use Rattle.tr_windows.specs.Presents.{Present};
ghost use Rattle.tr_stage.specs.Exposures.{IsExposure, IsFlushing};
ghost use Rattle.tr_stage.specs.Making.{Makes};
ghost use Rattle.tr_stage.specs.Stages.{KeepsOthers, state};

use crate::lines::{By, write};
use crate::stages::Stage;
use tr_base::{Env, Font, LeafId, NoMemory};
use tr_client::Client;
use tr_journal::{Answer, Reply, Step};
use tr_paint::Batch;
use tr_region::Region;
use tr_spot::leaf_size;
use tr_surface::Surface;
use tr_tree::Tree;
use tr_windows::{Exposure, Windows};

impl<C: Client> Stage<C> {
    /// Executes the waiting commands of a leaf, or a painting of all their points, if that has the same
    /// effect and costs less.
    pub(crate) fn flush(&mut self, by: &By, leaf: LeafId) -> Result<Reply, NoMemory>
        requires allowed { let t = (tree_of self.old.opening).nodes in
            IsFor {M = C.Cmd} t by.now.actor by.now.level (Step.Flush leaf) }
        ensures made { Makes C.Client self.old self.new by.now.actor by.now.level
            (Step.Flush leaf) result }
        ensures others { let t = (state C.Client self.old).tree in
            OnOk result (KeepsOthers {M = C.Cmd} t (Step.Flush leaf) self.old.screen self.new.screen) }
    {
        self.journal.reserve(1)?;
        self.surface.invariant();
        let font = self.opening.font();
        let painting = flushing(&self.surface, &self.windows, font, leaf)?;
        let batch = either(&painting, self.windows.batch(leaf));
        let executed = self.surface.execute(font, leaf, batch);
        drop(painting);
        executed?;
        self.surface.invariant();
        self.windows.clear(leaf);
        let entry = by.entry(Step::Flush { leaf }, Answer::Done, 0);
        Ok(write(&mut self.journal, entry, Answer::Done, &[]))
    }

    /// Shows a leaf's present content: executes its waiting commands, or a painting that covers all their
    /// points and all bad points.
    pub(crate) fn repaint(&mut self, by: &By, leaf: LeafId) -> Result<Reply, NoMemory>
        requires allowed { let t = (tree_of self.old.opening).nodes in
            IsFor {M = C.Cmd} t by.now.actor by.now.level (Step.Repaint leaf) }
        ensures made { Makes C.Client self.old self.new by.now.actor by.now.level
            (Step.Repaint leaf) result }
        ensures others { let t = (state C.Client self.old).tree in
            OnOk result (KeepsOthers {M = C.Cmd} t (Step.Repaint leaf) self.old.screen self.new.screen) }
    {
        self.journal.reserve(1)?;
        let exposure = exposure_of(&self.surface, leaf)?;
        let env = Env {
            kind: self.surface.tree().kind(),
            font: self.opening.font(),
        };
        let painting = self.windows.repainting(leaf, &env, &exposure)?;
        let batch = either(&painting, self.windows.batch(leaf));
        let executed = self.surface.execute(env.font, leaf, batch);
        drop(painting);
        executed?;
        self.surface.invariant();
        self.windows.clear(leaf);
        let entry = by.entry(Step::Repaint { leaf }, Answer::Done, 0);
        Ok(write(&mut self.journal, entry, Answer::Done, &[]))
    }

    /// Paints each bad point of a frame.
    pub(crate) fn paint_frame(&mut self, by: &By) -> Result<Reply, NoMemory>
        requires allowed { let t = (tree_of self.old.opening).nodes in
            IsFor {M = C.Cmd} t by.now.actor by.now.level Step.PaintFrame }
        ensures made { Makes C.Client self.old self.new by.now.actor by.now.level
            Step.PaintFrame result }
        ensures others { let t = (state C.Client self.old).tree in
            OnOk result (KeepsOthers {M = C.Cmd} t Step.PaintFrame self.old.screen self.new.screen) }
    {
        self.journal.reserve(1)?;
        self.surface.invariant();
        self.surface.paint_frame()?;
        self.surface.invariant();
        let entry = by.entry(Step::PaintFrame, Answer::Done, 0);
        Ok(write(&mut self.journal, entry, Answer::Done, &[]))
    }
}

/// A painting that has the same effect as the waiting commands of a leaf and costs less, if there is one.
fn flushing<C: Client>(
    surface: &Surface,
    windows: &Windows<C>,
    font: &Font,
    leaf: LeafId,
) -> Result<Option<Batch>, NoMemory>
    requires leaf { leaf.0 < leaf_count surface.now.tree.nodes }
    requires window { leaf.0 < length windows.now }
    ensures { IfOk result (λ painting. IfSome painting (λ batch.
        (w : Present C) → slice_get windows.now leaf.0 ≡ Some w →
        IsFlushing C.Client surface.now font.now w leaf batch)) }
{
    if windows.batch(leaf).is_empty() {
        return Ok(None);
    }
    let exposure = exposure_of(surface, leaf)?;
    let env = Env {
        kind: surface.tree().kind(),
        font,
    };
    let painting = windows.flushing(leaf, &env, &exposure)?;
    Ok(painting)
}

/// The painting, if there is one, else the waiting commands.
fn either<'a>(painting: &'a Option<Batch>, waiting: &'a Batch) -> &'a Batch
    ensures painting { IfSome painting.now (λ batch. result.now ≡ batch) }
    ensures waiting { painting.now ≡ None → result.now ≡ waiting.now }
{
    match painting {
        Some(batch) => batch,
        None => waiting,
    }
}

/// The size of a leaf's window, a rectangle that has its bad visible points, and whether each of its points
/// is visible.
pub(crate) fn exposure_of(surface: &Surface, leaf: LeafId) -> Result<Exposure, NoMemory>
    requires { leaf.0 < leaf_count surface.now.tree.nodes }
    ensures stands { IfOk result (IsExposure surface.now leaf) }
    ensures size { IfOk result (λ e. IsWindowSize e.size) }
{
    let tree = surface.tree();
    let bad = surface.bad_extents(leaf)?;
    let visible = surface.visible(leaf)?;
    let is_whole = is_whole(tree, leaf, &visible);
    drop(visible);
    Ok(Exposure {
        size: leaf_size(tree, leaf),
        bad,
        is_whole,
    })
}

/// Whether a region is the whole rectangle of a leaf's window.
fn is_whole(tree: &Tree, leaf: LeafId, visible: &Region) -> bool
    requires { leaf.0 < leaf_count tree.now.nodes }
    ensures { IsTrue result → (q : Point) → has_point (whole_of (leaf_size tree.now leaf)) q ≡ true →
        holds visible.now (screen_point (leaf_corner tree.now leaf) q) ≡ true }
{
    let domain = tree.domain(tree.node_of(leaf));
    domain.invariant();
    let rects = visible.rects();
    rects.len() == 1 && rects[0] == domain
}
