ghost use Rattle.std.specs.Prelude.{◌≡◌, [], unwrap_or, IfOk, IfSome, OnOk, OnErr};
ghost use Rattle.tr_paint.specs.Traces.{look_of};
ghost use Rattle.tr_client.specs.Laws.{IsWindowSize};
ghost use Rattle.tr_windows.specs.Presents as spec;
ghost use Rattle.tr_windows.specs.Promises.{FlushesByPainting, IsByPainting, RepaintsWindow};

use crate::areas::{part_in_window, spanned};
use crate::costs::{is_replaceable, keeps_all};
use crate::exposures::Exposure;
use std::alloc::Global;
use std::marker::Model;
use tr_base::{Env, NoMemory, Rect, Size};
use tr_client::Client;
use tr_paint::{Batch, Paint};

/// A window: its present content, and the paint commands that wait for it.
#[derive(Drop)]
pub(crate) struct Window<C: Client> {
    pub content: C,
    pub batch: Batch,
}

impl<C: Client> Model for Window<C> {
    ghost use Rattle.tr_windows.specs.Presents.{Present};

    ghost Value = { Present C };

    ghost view = { λ w. record { content = w.content; batch = w.batch } };
}

impl<C: Client> Window<C> {
    /// A window for which no command waits.
    pub fn new(alloc: Global, content: C) -> Window<C>
        ensures { result ≡ spec.with_empty_batch content }
    {
        Window {
            content,
            batch: Batch::new(alloc),
        }
    }

    pub fn content(&self) -> &C
        ensures { result.now ≡ self.now.content }
    {
        &self.content
    }

    pub fn batch(&self) -> &Batch
        ensures { result.now ≡ self.now.batch }
    {
        &self.batch
    }

    /// Changes the content by a command. The paint commands of the change wait.
    pub fn act(
        &mut self,
        alloc: Global,
        env: &Env,
        size: Size,
        cmd: &C::Cmd,
    ) -> Result<(), NoMemory>
        requires { IsWindowSize size }
        ensures ok { let look = look_of env.now.kind env.now.font.now in
            OnOk result (self.new ≡ spec.act_on C.Client look size cmd.now self.old) }
        ensures err { OnErr result (self.new ≡ self.old) }
    {
        self.content.apply(alloc, env, size, cmd, &mut self.batch)?;
        Ok(())
    }

    /// Marks a part of the window: it must be painted again.
    pub fn mark(&mut self, size: Size, clip: &Rect) -> Result<(), NoMemory>
        requires { IsWindowSize size }
        ensures ok { OnOk result (self.new ≡ spec.mark_on size clip.now self.old) }
        ensures err { OnErr result (self.new ≡ self.old) }
    {
        let clip = part_in_window(clip, size);
        self.batch.push(Paint::Spoil { clip })?;
        Ok(())
    }

    /// Takes another content, and puts these commands after those that wait.
    pub fn take_over(&mut self, content: C, batch: &Batch) -> Result<(), NoMemory>
        ensures ok { OnOk result (self.new ≡ spec.taken_over content batch.now self.old) }
        ensures err { OnErr result (self.new ≡ self.old) }
    {
        self.batch.append(batch)?;
        self.content = content;
        Ok(())
    }

    /// Takes another content and these commands, which then wait; none may wait before. Nothing is copied.
    pub fn take_all(&mut self, content: C, batch: Batch)
        requires { self.old.batch ≡ [] }
        ensures { self.new ≡ spec.taken_over content batch self.old }
    {
        self.content = content;
        self.batch = batch;
    }

    /// Drops the waiting commands.
    pub fn clear(&mut self)
        ensures { self.new ≡ spec.without_batch self.old }
    {
        self.batch.clear();
    }

    /// A painting of all points that are bad or that the waiting commands would touch; `None` if executing
    /// these repaints the window as well and costs no more. The commands still wait.
    pub fn repainting(
        &self,
        alloc: Global,
        env: &Env,
        exposure: &Exposure,
    ) -> Result<Option<Batch>, NoMemory>
        requires { IsWindowSize exposure.now.size }
        ensures { let look = look_of env.now.kind env.now.font.now in IfOk result (λ painting.
            RepaintsWindow C.Client look exposure.now self.now (unwrap_or painting self.now.batch)) }
    {
        if keeps_all(&self.batch, exposure) {
            return self.flushing(alloc, env, exposure);
        }
        let painting = self.painting(alloc, env, exposure)?;
        Ok(Some(painting))
    }

    /// A painting of the points that the waiting commands would touch, if it has the same effect as they
    /// and costs less; else `None`. The commands still wait.
    pub fn flushing(
        &self,
        alloc: Global,
        env: &Env,
        exposure: &Exposure,
    ) -> Result<Option<Batch>, NoMemory>
        requires { IsWindowSize exposure.now.size }
        ensures { let look = look_of env.now.kind env.now.font.now in IfOk result (λ painting.
            IfSome painting (λ batch. FlushesByPainting C.Client look exposure.now self.now batch)) }
    {
        if !is_replaceable(&self.batch, exposure) {
            return Ok(None);
        }
        let painting = self.painting(alloc, env, exposure)?;
        if self.batch.cost() <= painting.cost() {
            drop(painting);
            return Ok(None);
        }
        Ok(Some(painting))
    }

    /// A painting of all points that are bad or that the waiting commands would touch.
    fn painting(&self, alloc: Global, env: &Env, exposure: &Exposure) -> Result<Batch, NoMemory>
        requires { IsWindowSize exposure.now.size }
        ensures { let look = look_of env.now.kind env.now.font.now in
            IfOk result (λ batch. IsByPainting C.Client look exposure.now self.now batch) }
    {
        let clip = spanned(exposure.bad, &self.batch);
        let painting = self.content.paint(alloc, env, exposure.size, clip)?;
        Ok(painting)
    }
}
