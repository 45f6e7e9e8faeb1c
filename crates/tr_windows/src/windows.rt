ghost use Rattle.std.specs.Prelude.{◌≡◌, ◌<◌, [], length, map, slice_get, unwrap_or, Some, IsTrue, IfOk, IfSome, OnOk, OnErr};
ghost use Rattle.tr_base.specs.declared.LeafId.{LeafId};
ghost use Rattle.tr_paint.specs.Traces.{Look, look_of};
ghost use Rattle.tr_paint.specs.Patches.{IsPatch};
ghost use Rattle.tr_client.specs.Laws.{IsWindowSize};
ghost use Rattle.tr_forest.specs.Nodes.{leaf_count};
ghost use Rattle.tr_journal.specs.Openings.{contents_of};
ghost use Rattle.tr_machine.specs.States.{changed_at};
ghost use Rattle.tr_windows.specs.Presents as spec;
ghost use Rattle.tr_windows.specs.Promises.{AreWindows, FlushesByPainting, IsCovered, KeepsPoints, RepaintsWindow, waiting_in};

use crate::costs::is_covered;
use crate::exposures::Exposure;
use crate::present::Window;
use std::alloc::Global;
use std::marker::Model;
use tr_base::{Command, Env, LeafId, NoMemory, Rect, Size};
use tr_client::Client;
use tr_journal::Opening;
use tr_mail::is_reshaped;
use tr_paint::Batch;
use tr_tree::Tree;

/// The windows of all leaves, by their numbers: the present content of each, and the paint commands
/// that wait for it.
#[derive(Drop)]
pub struct Windows<C: Client> {
    pub(crate) windows: Vec<Window<C>>,
}

impl<C: Client> Model for Windows<C> {
    ghost use Rattle.std.specs.Prelude.{List};
    ghost use Rattle.tr_windows.specs.Presents.{Present};
    ghost use Rattle.tr_windows.specs.Promises.{AreWindows};

    ghost Value = { List (Present C) };

    ghost view = { λ w. w.windows.items };

    ghost invariant = { λ w. AreWindows C.Client w.windows.items };
}

impl<C: Client> Windows<C> {
    /// The windows of an opening, with copies of its contents. No command waits for them.
    pub fn new(alloc: Global, opening: &Opening<C>) -> Result<Windows<C>, NoMemory>
        ensures { IfOk result (λ ws. ws ≡ map spec.with_empty_batch (contents_of opening.now)) }
    {
        let windows = idle_windows(alloc, opening)?;
        Ok(Windows { windows })
    }

    /// The number of windows: at most 32.
    pub fn count(&self) -> u8
        ensures count { result ≡ length self.now }
        ensures invariant { AreWindows C.Client self.now }
    {
        self.windows.len() as u8
    }

    /// The present content of a leaf's window.
    pub fn content(&self, leaf: LeafId) -> &C
        requires { leaf.0 < length self.now }
        ensures content { spec.content_at self.now leaf ≡ Some result.now }
        ensures valid { C.valid result.now }
    {
        self.windows[usize::from(leaf.0)].content()
    }

    /// The paint commands that wait for a leaf's window.
    pub fn batch(&self, leaf: LeafId) -> &Batch
        requires { leaf.0 < length self.now }
        ensures { result.now ≡ spec.batch_at self.now leaf }
    {
        self.windows[usize::from(leaf.0)].batch()
    }

    /// Changes the content of a leaf's window, which has this size, by a command. The paint commands of
    /// the change wait. It takes memory for these and for the next content, and copies neither the old
    /// content nor the commands that wait already. If memory runs out, nothing changes.
    pub fn act(&mut self, leaf: LeafId, env: &Env, size: Size, cmd: &C::Cmd) -> Result<(), NoMemory>
        requires leaf { leaf.0 < length self.old }
        requires size { IsWindowSize size }
        ensures ok { let look = look_of env.now.kind env.now.font.now in
            OnOk result (self.new ≡ changed_at leaf.0 (spec.act_on C.Client look size cmd.now) self.old) }
        ensures err { OnErr result (self.new ≡ self.old) }

        // The command's patch leads from the old picture to the new one.
        ensures patch { (look : Look) (w : spec.Present C) → slice_get self.old leaf.0 ≡ Some w →
            IsPatch look size (C.patch look size w.content cmd.now)
            (C.pic look size w.content) (C.pic look size (C.next w.content cmd.now)) }
    {
        cmd.known();
        act_at(&mut self.windows, leaf, env, size, cmd)?;
        Ok(())
    }

    /// Marks a part of a leaf's window, which has this size: the part must be painted again. If memory runs
    /// out, nothing changes.
    pub fn mark(&mut self, leaf: LeafId, size: Size, clip: &Rect) -> Result<(), NoMemory>
        requires leaf { leaf.0 < length self.old }
        requires size { IsWindowSize size }
        ensures ok { OnOk result (self.new ≡ changed_at leaf.0 (spec.mark_on size clip.now) self.old) }
        ensures err { OnErr result (self.new ≡ self.old) }
    {
        mark_at(&mut self.windows, leaf, size, clip)?;
        Ok(())
    }

    /// Gives a leaf's window another content, and puts these commands after those that wait. If memory runs
    /// out, nothing changes.
    pub fn take_over(&mut self, leaf: LeafId, content: C, batch: &Batch) -> Result<(), NoMemory>
        requires leaf { leaf.0 < length self.old }
        requires valid { C.valid content }
        ensures ok { OnOk result (self.new ≡
            changed_at leaf.0 (spec.taken_over content batch.now) self.old) }
        ensures err { OnErr result (self.new ≡ self.old) }
    {
        take_over_at(&mut self.windows, leaf, content, batch)?;
        Ok(())
    }

    /// Like `take_over`, for a leaf's window for which no command waits. It moves the content and the
    /// commands, and takes no memory.
    pub fn take_all(&mut self, leaf: LeafId, content: C, batch: Batch)
        requires leaf { leaf.0 < length self.old }
        requires valid { C.valid content }
        requires idle { spec.batch_at self.old leaf ≡ [] }
        ensures { self.new ≡ changed_at leaf.0 (spec.taken_over content batch) self.old }
    {
        take_all_at(&mut self.windows, leaf, content, batch);
    }

    /// Drops the commands that wait for a leaf's window.
    pub fn clear(&mut self, leaf: LeafId)
        requires { leaf.0 < length self.old }
        ensures { self.new ≡ changed_at leaf.0 spec.without_batch self.old }
    {
        clear_at(&mut self.windows, leaf);
    }

    /// Drops the commands that wait for those windows whose size or kind of pixels an edit of the tree
    /// changed.
    pub fn refit(&mut self, was: &Tree, is: &Tree)
        requires before { leaf_count was.now.nodes ≡ length self.old }
        requires leaves { leaf_count is.now.nodes ≡ length self.old }
        ensures { self.new ≡ spec.cleared_from 0 was.now is.now self.old }
    {
        for n in 0..self.count() {
            self.refit_leaf(was, is, LeafId(n));
        }
    }

    /// Drops the commands that wait for a leaf's window, if its size or kind of pixels changed.
    fn refit_leaf(&mut self, was: &Tree, is: &Tree, leaf: LeafId)
        requires leaf { leaf.0 < length self.old }
        requires before { leaf_count was.now.nodes ≡ length self.old }
        requires leaves { leaf_count is.now.nodes ≡ length self.old }
        ensures { self.new ≡ changed_at leaf.0 (spec.without_old_batch was.now is.now leaf) self.old }
    {
        if self.batch(leaf).is_empty() {
            return;
        }
        if is_reshaped(was, is, leaf) {
            self.clear(leaf);
        }
    }

    /// A painting of all points of a leaf's window that are bad or that the waiting commands would touch;
    /// `None` if executing these repaints the window as well and costs no more. The exposure describes the
    /// window on the screen. The commands still wait.
    pub fn repainting(
        &self,
        leaf: LeafId,
        env: &Env,
        exposure: &Exposure,
    ) -> Result<Option<Batch>, NoMemory>
        requires leaf { leaf.0 < length self.now }
        requires size { IsWindowSize exposure.now.size }
        ensures { let look = look_of env.now.kind env.now.font.now in IfOk result (λ painting.
            (w : spec.Present C) → slice_get self.now leaf.0 ≡ Some w →
            RepaintsWindow C.Client look exposure.now w (unwrap_or painting w.batch)) }
    {
        let alloc = *self.windows.allocator();
        self.windows[usize::from(leaf.0)].repainting(alloc, env, exposure)
    }

    /// A painting of the points that the commands waiting for a leaf's window would touch, if it has the
    /// same effect as they and costs less; else `None`. The commands still wait. The exposure describes the
    /// window on the screen.
    pub fn flushing(
        &self,
        leaf: LeafId,
        env: &Env,
        exposure: &Exposure,
    ) -> Result<Option<Batch>, NoMemory>
        requires leaf { leaf.0 < length self.now }
        requires size { IsWindowSize exposure.now.size }
        ensures { let look = look_of env.now.kind env.now.font.now in IfOk result (λ painting.
            IfSome painting (λ batch. (w : spec.Present C) → slice_get self.now leaf.0 ≡ Some w →
            FlushesByPainting C.Client look exposure.now w batch)) }
    {
        let alloc = *self.windows.allocator();
        self.windows[usize::from(leaf.0)].flushing(alloc, env, exposure)
    }

    /// Whether pixels of a leaf's present picture, one for each point of a clip, may replace the commands
    /// that wait for its window: no point is bad, the commands lose no point, and they touch only points of
    /// the clip. The exposure describes the window on the screen. `false` promises nothing.
    pub fn is_covered(&self, leaf: LeafId, exposure: &Exposure, clip: &Rect) -> bool
        requires leaf { leaf.0 < length self.now }
        requires size { IsWindowSize exposure.now.size }
        ensures { IsTrue result → (look : Look) →
            IsCovered look exposure.now clip.now (spec.batch_at self.now leaf) }
    {
        is_covered(self.batch(leaf), exposure, clip)
    }

    /// The number of paint commands that wait for all windows. It stops at 2^64 - 1.
    pub fn waiting(&self) -> u64
        ensures { result ≡ waiting_in self.now }
    {
        let mut waiting: u64 = 0;
        for window in &self.windows {
            waiting = waiting.saturating_add(window.batch().len() as u64);
        }
        waiting
    }

    /// Does nothing. Its clause is the law of keeping, for each window and each look: the points that are
    /// kept when the size changes lie in the window before and after, and have the same colours in both.
    pub fn obeys_keeping(&self)
        ensures { (look : Look) (leaf : LeafId) (w : spec.Present C) →
            slice_get self.now leaf.0 ≡ Some w → KeepsPoints C.Client look w }
    {
        let _windows = &self.windows;
    }
}

/// The windows of an opening, with copies of its contents.
fn idle_windows<C: Client>(alloc: Global, opening: &Opening<C>) -> Result<Vec<Window<C>>, NoMemory>
    ensures idle { IfOk result (λ ws. ws.items ≡ map spec.with_empty_batch (contents_of opening.now)) }
    ensures invariant { IfOk result (λ ws. AreWindows C.Client ws.items) }
{
    let tree = opening.tree();
    tree.invariant();
    let mut windows = Vec::with_capacity(alloc, usize::from(tree.leaves()))?;
    for n in 0..tree.leaves() {
        let Ok(content) = opening.content(LeafId(n)).copy(alloc) else {
            drop(windows);
            return Err(NoMemory);
        };
        let Ok(()) = windows.push(Window::new(alloc, content)) else {
            drop(windows);
            return Err(NoMemory);
        };
    }
    Ok(windows)
}

/// Changes the window at a place by a command.
fn act_at<C: Client>(
    windows: &mut Vec<Window<C>>,
    leaf: LeafId,
    env: &Env,
    size: Size,
    cmd: &C::Cmd,
) -> Result<(), NoMemory>
    requires leaf { leaf.0 < length windows.old.items }
    requires size { IsWindowSize size }
    ensures ok { let look = look_of env.now.kind env.now.font.now in
        OnOk result (windows.new.items ≡
        changed_at leaf.0 (spec.act_on C.Client look size cmd.now) windows.old.items) }
    ensures err { OnErr result (windows.new.items ≡ windows.old.items) }
{
    let alloc = *windows.allocator();
    let window = &mut windows[usize::from(leaf.0)];
    window.act(alloc, env, size, cmd)?;
    Ok(())
}

/// Marks a part of the window at a place: it must be painted again.
fn mark_at<C: Client>(
    windows: &mut Vec<Window<C>>,
    leaf: LeafId,
    size: Size,
    clip: &Rect,
) -> Result<(), NoMemory>
    requires leaf { leaf.0 < length windows.old.items }
    requires size { IsWindowSize size }
    ensures ok { OnOk result (windows.new.items ≡
        changed_at leaf.0 (spec.mark_on size clip.now) windows.old.items) }
    ensures err { OnErr result (windows.new.items ≡ windows.old.items) }
{
    let window = &mut windows[usize::from(leaf.0)];
    window.mark(size, clip)?;
    Ok(())
}

/// Gives the window at a place another content, and puts these commands after those that wait already.
fn take_over_at<C: Client>(
    windows: &mut Vec<Window<C>>,
    leaf: LeafId,
    content: C,
    batch: &Batch,
) -> Result<(), NoMemory>
    requires leaf { leaf.0 < length windows.old.items }
    ensures ok { OnOk result (windows.new.items ≡
        changed_at leaf.0 (spec.taken_over content batch.now) windows.old.items) }
    ensures err { OnErr result (windows.new.items ≡ windows.old.items) }
{
    let window = &mut windows[usize::from(leaf.0)];
    window.take_over(content, batch)?;
    Ok(())
}

/// Gives the window at a place, for which no command waits, another content and these commands.
fn take_all_at<C: Client>(windows: &mut Vec<Window<C>>, leaf: LeafId, content: C, batch: Batch)
    requires leaf { leaf.0 < length windows.old.items }
    requires idle { spec.batch_at windows.old.items leaf ≡ [] }
    ensures { windows.new.items ≡ changed_at leaf.0 (spec.taken_over content batch) windows.old.items }
{
    let window = &mut windows[usize::from(leaf.0)];
    window.take_all(content, batch);
}

/// Drops the commands that wait for a leaf's window.
fn clear_at<C: Client>(windows: &mut Vec<Window<C>>, leaf: LeafId)
    requires { leaf.0 < length windows.old.items }
    ensures { windows.new.items ≡ changed_at leaf.0 spec.without_batch windows.old.items }
{
    let window = &mut windows[usize::from(leaf.0)];
    window.clear();
}
