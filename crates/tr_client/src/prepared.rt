ghost use Rattle.std.specs.Prelude.{◌≡◌, ◌++◌, ◌∷◌, [], IfOk, OnOk, OnErr};
ghost use Rattle.std.specs.Coded.{Coded-set};
ghost use Rattle.std.proofs.Props.{props};
ghost use Rattle.tr_paint.specs.Traces.{look_of};
ghost use Rattle.tr_paint.specs.Patches.{IsPatch};
ghost use Rattle.tr_client.specs.Laws.{IsWindowSize};
ghost use Rattle.tr_client.specs.Runs.{content_after, patches_of};

use crate::clients::Client;
use std::alloc::Global;
use tr_base::{Command, Env, Font, Kind, NoMemory, Size};
use tr_paint::Batch;

/// Commands for a content, with the content that they leave and their patches in one batch, for one font,
/// size and kind of pixels.
#[derive(Drop)]
pub struct Prepared<C: Client> {
    pub from: C,
    pub to: C,
    pub font: Font,
    pub size: Size,
    pub kind: Kind,
    pub commands: Vec<C::Cmd>,
    pub batch: Batch,
    pub ghost window: { IsWindowSize size },
    pub ghost contents: { to ≡ content_after C.Client from commands.items } by { Coded-set C.code to
        (content_after C.Client from commands.items) },
    pub ghost patches: { batch ≡ patches_of C.Client (look_of kind font) size from commands.items },
    pub ghost patch: { IsPatch (look_of kind font) size batch
        (C.pic (look_of kind font) size from) (C.pic (look_of kind font) size to) } by { Prim.hlevel props },
}

impl<C: Client> Prepared<C> {
    /// No commands, for this content.
    pub fn fresh(
        alloc: Global,
        content: C,
        font: &Font,
        size: Size,
        kind: Kind,
    ) -> Result<Prepared<C>, NoMemory>
        requires { IsWindowSize size }
        ensures from { IfOk result (λ p. p.from ≡ content) }
        ensures font { IfOk result (λ p. p.font ≡ font.now) }
        ensures size { IfOk result (λ p. p.size ≡ size) }
        ensures kind { IfOk result (λ p. p.kind ≡ kind) }
        ensures commands { IfOk result (λ p. p.commands.items ≡ []) }
    {
        let to = content.copy(alloc)?;
        let font = font.copy()?;
        Ok(Prepared {
            from: content,
            to,
            font,
            size,
            kind,
            commands: Vec::new(alloc),
            batch: Batch::new(alloc),
        })
    }

    /// Appends a command. If memory runs out, nothing changes.
    pub fn add(&mut self, cmd: C::Cmd) -> Result<(), NoMemory>
        ensures from { self.new.from ≡ self.old.from }
        ensures font { self.new.font ≡ self.old.font }
        ensures size { self.new.size ≡ self.old.size }
        ensures kind { self.new.kind ≡ self.old.kind }
        ensures ok { OnOk result (self.new.commands.items ≡ self.old.commands.items ++ cmd ∷ []) }
        ensures err { OnErr result (self.new.commands.items ≡ self.old.commands.items) }
    {
        let env = Env {
            kind: self.kind,
            font: &self.font,
        };
        let alloc = *self.commands.allocator();
        obeys(&self.to, &env, self.size, &cmd);
        self.commands.reserve(1)?;
        self.to
            .apply(alloc, &env, self.size, &cmd, &mut self.batch)?;
        self.commands.push(cmd)?;
        Ok(())
    }

    /// Prepares the same commands again, for another content, font, size and kind. If memory runs out,
    /// nothing changes.
    pub fn refit(&mut self, content: C, font: &Font, size: Size, kind: Kind) -> Result<(), NoMemory>
        requires { IsWindowSize size }
        ensures commands { self.new.commands.items ≡ self.old.commands.items }
        ensures from_ok { OnOk result (self.new.from ≡ content) }
        ensures font_ok { OnOk result (self.new.font ≡ font.now) }
        ensures size_ok { OnOk result (self.new.size ≡ size) }
        ensures kind_ok { OnOk result (self.new.kind ≡ kind) }
        ensures from_err { OnErr result (self.new.from ≡ self.old.from) }
        ensures font_err { OnErr result (self.new.font ≡ self.old.font) }
        ensures size_err { OnErr result (self.new.size ≡ self.old.size) }
        ensures kind_err { OnErr result (self.new.kind ≡ self.old.kind) }
    {
        let font = font.copy()?;
        let env = Env { kind, font: &font };
        let (to, batch) = run(&content, &env, size, &self.commands)?;
        self.from = content;
        self.to = to;
        self.font = font;
        self.size = size;
        self.kind = kind;
        self.batch = batch;
        Ok(())
    }
}

/// The content after the commands, and their patches in a row.
fn run<C: Client>(
    content: &C,
    env: &Env,
    size: Size,
    commands: &Vec<C::Cmd>,
) -> Result<(C, Batch), NoMemory>
    requires { IsWindowSize size }
    ensures contents { IfOk result (λ r. r.0 ≡ content_after C.Client content.now commands.now.items) }
    ensures patches { let look = look_of env.now.kind env.now.font.now in
        IfOk result (λ r. r.1 ≡ patches_of C.Client look size content.now commands.now.items) }
    ensures patch { let look = look_of env.now.kind env.now.font.now in
        IfOk result (λ r. IsPatch look size r.1 (C.pic look size content.now) (C.pic look size r.0)) }
{
    let alloc = *commands.allocator();
    let mut to = content.copy(alloc)?;
    let mut batch = Batch::new(alloc);
    for cmd in commands {
        obeys(&to, env, size, cmd);
        to.apply(alloc, env, size, cmd, &mut batch)?;
    }
    Ok((to, batch))
}

/// The law of patches for a content and a command, told before the content changes. It asks for the
/// points that the content keeps only because that answer tells that the content is valid.
fn obeys<C: Client>(content: &C, env: &Env, size: Size, cmd: &C::Cmd)
    requires { IsWindowSize size }
    ensures { let look = look_of env.now.kind env.now.font.now in
        IsPatch look size (C.patch look size content.now cmd.now)
        (C.pic look size content.now) (C.pic look size (C.next content.now cmd.now)) }
{
    let _kept = content.keeps(size, size);
    cmd.known();
    content.obeys_patch(env, size, cmd);
}
