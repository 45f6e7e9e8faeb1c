ghost use Rattle.std.specs.Prelude.{◌≡◌, IfOk};
ghost use Rattle.tr_paint.specs.Paints.{IsNearRect};
ghost use Rattle.w_plain.specs.Solids as spec;

use itoa::Buffer;
use std::alloc::Global;
use tr_base::{Command, Env, Event, Line, NoMemory, Op, Rect, Size};
use tr_client::{Client, append_all, decimal_line, kept_part, part_of_window, window};
use tr_paint::{Batch, Paint};

/// A window of one colour, which a key changes.
#[derive(Clone, Copy, Debug, PartialEq, Eq)]
pub struct Solid {
    pub tint: u8,
}

/// A command of a Solid.
#[derive(Clone, Copy, Debug, PartialEq, Eq)]
pub enum SolidCmd {
    /// Sets the colour.
    Tint(u8),
}

impl Solid {
    /// A window of this colour, cut to the kind of the pixels.
    pub fn new(tint: u8) -> Solid
        ensures { result ≡ record { tint = tint } }
    {
        Solid { tint }
    }

    /// Tells the invariant of solids. Nothing runs.
    pub fn invariant(&self)
        ensures { spec.IsSolid self.now }
    {
        let _tint = self.tint();
    }

    /// Its colour.
    pub fn tint(&self) -> u8
        ensures value { result ≡ self.now.tint }
        ensures invariant { spec.IsSolid self.now }
    {
        self.tint
    }

    /// The commands that paint a part of the picture.
    fn paints(&self, alloc: Global, part: Rect) -> Result<Batch, NoMemory>
        requires { IsNearRect part }
        ensures { IfOk result (λ batch. batch ≡ spec.solid_paints part self.now) }
    {
        let mut batch = Batch::new(alloc);
        batch.push(Paint::Tint {
            clip: part,
            op: Op::Set(self.tint),
        })?;
        Ok(batch)
    }
}

/// The tint of a command.
fn tint_of(cmd: &SolidCmd) -> u8
    ensures value { cmd.now ≡ SolidCmd.Tint result }
    ensures valid { spec.IsSolidCmd cmd.now }
{
    match *cmd {
        SolidCmd::Tint(tint) => tint,
    }
}

impl Command for SolidCmd {
    ghost use Rattle.w_plain.specs.Solids.{IsSolidCmd, solid_words};

    ghost valid = { IsSolidCmd };

    ghost words = { solid_words };

    fn known(&self) {
        let _tint = tint_of(self);
    }

    fn copy(&self, _alloc: Global) -> Result<SolidCmd, NoMemory> {
        Ok(*self)
    }

    fn same(&self, other: &SolidCmd) -> bool {
        self == other
    }

    fn print(&self, out: &mut Vec<u8>) -> Result<(), NoMemory> {
        let mut buffer = Buffer::new();
        let tint = buffer.format(tint_of(self));
        append_all(out, &[b"tint ", tint.as_bytes()])
    }
}

impl Client for Solid {
    ghost use Rattle.w_plain.specs.Solids.{IsSolid, solid_pic, solid_next, solid_patch, solid_answer, solid_value, solid_keeps};
    ghost use Rattle.w_plain.specs.SolidLaws.{solid_contents, solid_answers, solid_patches, solid_empty_patches, solid_keeping, solid_kinds};

    type Cmd = SolidCmd;

    ghost valid = { IsSolid };

    ghost pic = { solid_pic };

    ghost next = { solid_next };

    ghost patch = { solid_patch };

    ghost answer = { solid_answer };

    ghost value = { solid_value };

    ghost keeps = { solid_keeps };

    fn copy(&self, _alloc: Global) -> Result<Solid, NoMemory> {
        self.invariant();
        Ok(*self)
    }

    fn same(&self, other: &Solid) -> bool {
        self.invariant();
        other.invariant();
        self == other
    }

    fn paint(&self, alloc: Global, _env: &Env, size: Size, clip: Rect) -> Result<Batch, NoMemory> {
        self.invariant();
        let batch = self.paints(alloc, part_of_window(size, &clip))?;
        Ok(batch)
    }

    fn change(
        &self,
        alloc: Global,
        _env: &Env,
        size: Size,
        cmd: &SolidCmd,
    ) -> Result<(Solid, Batch), NoMemory> {
        self.invariant();
        let next = Solid::new(tint_of(cmd));
        let patch = next.paints(alloc, window(size))?;
        Ok((next, patch))
    }

    fn react(&self, _alloc: Global, event: &Event) -> Result<Option<SolidCmd>, NoMemory> {
        self.invariant();
        match *event {
            Event::Key { code, .. } => {
                let cmd = SolidCmd::Tint(code);
                cmd.known();
                Ok(Some(cmd))
            }
            _ => Ok(None),
        }
    }

    fn value(&self, alloc: Global) -> Result<Line, NoMemory> {
        decimal_line(alloc, self.tint())
    }

    fn keeps(&self, from: Size, to: Size) -> Rect {
        self.invariant();
        kept_part(from, to)
    }

    ghost contents = { solid_contents };

    ghost answers = { solid_answers };

    ghost patches = { solid_patches };

    ghost empty_patches = { solid_empty_patches };

    ghost keeping = { solid_keeping };

    ghost kinds = { solid_kinds };
}
