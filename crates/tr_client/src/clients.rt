ghost use Rattle.std.specs.Prelude.{◌≡◌, ◌↔◌, ◌++◌, ℕ, [], true, List, Option, IsTrue, IfOk, IfSome, OnOk, OnErr};
ghost use Rattle.tr_base.specs.declared.points.Point.{Point};
ghost use Rattle.tr_base.specs.declared.sizes.Size.{Size};
ghost use Rattle.tr_base.specs.declared.events.Event.{Event};
ghost use Rattle.tr_base.specs.Ops.{IsPixel};
ghost use Rattle.tr_base.specs.Rects.{Edges, empty_rect, meet_of, whole_of};
ghost use Rattle.tr_paint.specs.declared.paints.Paint.{Paint};
ghost use Rattle.tr_paint.specs.Traces.{Look, look_of};
ghost use Rattle.tr_paint.specs.Patches.{IsPatch};
ghost use Rattle.tr_paint.specs.Paintings.{IsPainting};
ghost use Rattle.tr_client.specs.Laws.{IsWindowSize, is_flat, IsEvent, Survives};

use std::alloc::Global;
use tr_base::{Command, Env, Event, Line, NoMemory, Rect, Size};
use tr_paint::Batch;

/// The content of a window: its picture, the commands that change it, and its answers to events.
///
/// A picture depends on a look, which is the kind of the pixels and the font, and on a size with sides
/// up to 4096. Its points are those of the window, relative to its north-west corner; other points are
/// never painted.
pub trait Client: Sized + Drop + Send + Sync {
    /// The commands of the content.
    type Cmd: Command;

    /// The valid contents.
    ghost valid: { Self → Type 0 };

    /// The colour of a point.
    ghost pic: { Look → Size → Self → Point → ℕ };

    /// The content after a command.
    ghost next: { Self → Self.Cmd → Self };

    /// The paint commands that lead from the old picture to the new one; those whose area is empty
    /// are left out.
    ghost patch: { Look → Size → Self → Self.Cmd → List Paint };

    /// The command that an event asks for.
    ghost answer: { Self → Event → Option Self.Cmd };

    /// The text that another leaf gets when it reads the content.
    ghost value: { Self → List ℕ };

    /// The points that need not be painted again when the window's size changes.
    ghost keeps: { Self → Size → Size → Edges } = { λ content from to. empty_rect };

    /// A copy of the content.
    fn copy(&self, alloc: Global) -> Result<Self, NoMemory>
        ensures valid { valid self.now }
        ensures copy { IfOk result (λ content. content ≡ self.now) };

    /// Whether both are the same content.
    fn same(&self, other: &Self) -> bool
        ensures valid { valid self.now }
        ensures other { valid other.now }
        ensures same { IsTrue result ↔ (self.now ≡ other.now) };

    /// Commands that paint the part of the picture that lies in `clip`, over any old pixels, and touch
    /// no other point.
    fn paint(&self, alloc: Global, env: &Env, size: Size, clip: Rect) -> Result<Batch, NoMemory>
        requires { IsWindowSize size }
        ensures valid { valid self.now }
        ensures painting { let look = look_of env.now.kind env.now.font.now in
            IfOk result (λ batch.
            IsPainting look (meet_of (whole_of size) clip) batch (pic look size self.now)) };

    /// The content after a command, and the command's patch.
    fn change(
        &self,
        alloc: Global,
        env: &Env,
        size: Size,
        cmd: &Self::Cmd,
    ) -> Result<(Self, Batch), NoMemory>
        requires { IsWindowSize size }
        ensures valid { valid self.now }
        ensures command { Self.Cmd.valid cmd.now }
        ensures next { IfOk result (λ r. r.0 ≡ next self.now cmd.now) }
        ensures patch { let look = look_of env.now.kind env.now.font.now in
            IfOk result (λ r. r.1 ≡ patch look size self.now cmd.now) };

    /// Changes the content in place by a command, and appends the command's patch to a batch. If memory
    /// runs out, both stay as they are. A client with large contents should define this call, so that it
    /// needs no copy of them.
    fn apply(
        &mut self,
        alloc: Global,
        env: &Env,
        size: Size,
        cmd: &Self::Cmd,
        batch: &mut Batch,
    ) -> Result<(), NoMemory>
        requires { IsWindowSize size }
        ensures valid { valid self.old }
        ensures command { Self.Cmd.valid cmd.now }
        ensures content_ok { OnOk result (self.new ≡ next self.old cmd.now) }
        ensures batch_ok { let look = look_of env.now.kind env.now.font.now in
            OnOk result (batch.new ≡ batch.old ++ patch look size self.old cmd.now) }
        ensures content_err { OnErr result (self.new ≡ self.old) }
        ensures batch_err { OnErr result (batch.new ≡ batch.old) }
    {
        let (content, patch) = self.change(alloc, env, size, cmd)?;
        batch.extend(patch)?;
        *self = content;
        Ok(())
    }

    /// The command that an event asks for, if it asks for one.
    fn react(&self, alloc: Global, event: &Event) -> Result<Option<Self::Cmd>, NoMemory>
        ensures valid { valid self.now }
        ensures command { IfOk result (λ asked. IfSome asked (λ cmd. Self.Cmd.valid cmd)) }
        ensures answer { IfOk result (λ asked. asked ≡ answer self.now event.now) };

    /// The text that another leaf gets when it reads a selection whose owner has this content.
    fn value(&self, alloc: Global) -> Result<Line, NoMemory>
        ensures valid { valid self.now }
        ensures value { IfOk result (λ line. line ≡ value self.now) };

    /// The points that need not be painted again when the window's size changes. A client that paints
    /// everything again returns `keeps_nothing()`.
    fn keeps(&self, from: Size, to: Size) -> Rect
        requires from { IsWindowSize from }
        requires to { IsWindowSize to }
        ensures valid { valid self.now }
        ensures keeps { result ≡ keeps self.now from to };

    /// Law of contents: the content after a command is valid. The call does nothing.
    fn obeys_next(&self, cmd: &Self::Cmd)
        requires valid { valid self.now }
        requires command { Self.Cmd.valid cmd.now }
        ensures { valid (next self.now cmd.now) }
    {}

    /// Law of answers: the command that an event asks for is valid. The call does nothing.
    fn obeys_answer(&self, event: &Event)
        requires valid { valid self.now }
        ensures { IfSome (answer self.now event.now) (λ cmd. Self.Cmd.valid cmd) }
    {
        known(event)
    }

    /// Law of patches: for every known part of the old picture, each point of the window is unknown after
    /// the patch, or has its colour in the new picture. The call does nothing.
    fn obeys_patch(&self, env: &Env, size: Size, cmd: &Self::Cmd)
        requires size { IsWindowSize size }
        requires valid { valid self.now }
        requires command { Self.Cmd.valid cmd.now }
        ensures { let look = look_of env.now.kind env.now.font.now in
            IsPatch look size (patch look size self.now cmd.now)
            (pic look size self.now) (pic look size (next self.now cmd.now)) }
    {}

    /// Law of empty patches: the patch of a window without points has no command. The call does nothing.
    fn obeys_empty_patch(&self, env: &Env, size: Size, cmd: &Self::Cmd)
        requires flat { is_flat size ≡ true }
        requires size { IsWindowSize size }
        requires valid { valid self.now }
        requires command { Self.Cmd.valid cmd.now }
        ensures { patch (look_of env.now.kind env.now.font.now) size self.now cmd.now ≡ [] }
    {}

    /// Law of keeping: the points that are kept lie in the window before and after, and have the same
    /// colours in both. The call does nothing.
    fn obeys_keeping(&self, env: &Env, from: Size, to: Size)
        requires from { IsWindowSize from }
        requires to { IsWindowSize to }
        requires valid { valid self.now }
        ensures { let look = look_of env.now.kind env.now.font.now in
            Survives (keeps self.now from to) from to (pic look from self.now) (pic look to self.now) }
    {}

    /// Law of kinds: each colour is a value of a pixel of the look's kind. The call does nothing.
    fn obeys_kinds(&self, env: &Env, size: Size)
        requires size { IsWindowSize size }
        requires valid { valid self.now }
        ensures { let look = look_of env.now.kind env.now.font.now in
            (p : Point) → IsPixel look.kind (pic look size self.now p) }
    {}

    /// The content after a command is valid.
    ghost contents: { (x : Self) (cmd : Self.Cmd) → valid x → Self.Cmd.valid cmd → valid (next x cmd) };

    /// The command that an event asks for is valid.
    ghost answers: { (x : Self) (event : Event) → valid x → IsEvent event →
        IfSome (answer x event) (λ cmd. Self.Cmd.valid cmd) };

    /// A patch leads from the old picture to the new one.
    ghost patches: { (look : Look) (size : Size) (x : Self) (cmd : Self.Cmd) →
        valid x → Self.Cmd.valid cmd → IsWindowSize size →
        IsPatch look size (patch look size x cmd) (pic look size x) (pic look size (next x cmd)) };

    /// The patch of a window without points has no command.
    ghost empty_patches: { (look : Look) (size : Size) (x : Self) (cmd : Self.Cmd) →
        valid x → Self.Cmd.valid cmd → IsWindowSize size → is_flat size ≡ true →
        patch look size x cmd ≡ [] };

    /// The kept points lie in both windows, and have the same colours in both.
    ghost keeping: { (look : Look) (from to : Size) (x : Self) →
        valid x → IsWindowSize from → IsWindowSize to →
        Survives (keeps x from to) from to (pic look from x) (pic look to x) };

    /// Each colour is a value of a pixel of the look's kind.
    ghost kinds: { (look : Look) (size : Size) (x : Self) (p : Point) → valid x → IsWindowSize size →
        IsPixel look.kind (pic look size x p) };
}

/// Tells that the numbers of an event are those of their types. Nothing runs.
fn known(event: &Event)
    ensures { IsEvent event.now }
{
    match *event {
        Event::Mouse { time, button, .. } => {
            let (_time, _button) = (time, button);
        }
        Event::Position { time, .. } => {
            let _time = time;
        }
        Event::Key { time, code } => {
            let (_time, _code) = (time, code);
        }
        Event::Lost { .. } | Event::Reshape { .. } => {}
    }
}
