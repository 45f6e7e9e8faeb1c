ghost use Rattle.std.specs.Prelude.{◌≡◌, ◌≤◌, true, replicate, IfOk};
ghost use Rattle.tr_base.specs.declared.points.Point.{Point};
ghost use Rattle.tr_base.specs.Rects.{has_point, whole_of};
ghost use Rattle.tr_paint.specs.Paints.{IsNearRect};
ghost use Rattle.tr_paint.specs.Traces.{Look};
ghost use Rattle.tr_paint.specs.Paintings.{IsPainting};
ghost use Rattle.tr_client.specs.Laws.{IsWindowSize};
ghost use Rattle.w_meter.specs.Meters as spec;

use crate::bars::{BarNumber, bar_rows, rows_above};
use itoa::Buffer;
use std::alloc::Global;
use std::marker::Model;
use tr_base::{Command, Env, Event, Line, NoMemory, Op, Rect, Size};
use tr_client::{Client, append_all, decimal_line, keeps_nothing, part_of_window, window};
use tr_paint::{Batch, Paint};

/// A window with 1 to 32 bars; its model is the list of their heights, from the west on.
#[derive(Debug, Drop)]
pub struct Meter {
    heights: Vec<u8>,
}

impl Model for Meter {
    ghost use Rattle.std.specs.Prelude.{List, ℕ};
    ghost use Rattle.w_meter.specs.Meters.{IsMeter};

    ghost Value = { List ℕ };

    ghost view = { λ m. m.heights.items };

    ghost invariant = { λ m. IsMeter m.heights.items };
}

/// A command of a Meter.
#[derive(Clone, Copy, Debug)]
pub enum MeterCmd {
    /// The bar gets this height, if there is such a bar.
    Bar { bar: BarNumber, height: u8 },
}

impl Meter {
    /// A window of this many bars, 1 to 32, without height.
    pub fn new(alloc: Global, bars: u8) -> Result<Meter, NoMemory>
        requires some { 1 ≤ bars }
        requires most { bars ≤ 32 }
        ensures { IfOk result (λ meter. meter ≡ replicate bars 0) }
    {
        Ok(Meter {
            heights: vec![in alloc; 0; usize::from(bars)]?,
        })
    }

    /// Tells the invariant of meters. Nothing runs.
    pub fn invariant(&self)
        ensures { spec.IsMeter self.now }
    {
        let _heights = self.heights();
    }

    /// The heights of its bars.
    pub fn heights(&self) -> &[u8]
        ensures value { result.now ≡ self.now }
        ensures invariant { spec.IsMeter self.now }
    {
        &self.heights
    }

    /// The content after a command.
    fn after(&self, alloc: Global, cmd: &MeterCmd) -> Result<Meter, NoMemory>
        ensures { IfOk result (λ meter. meter ≡ spec.meter_next self.now cmd.now) }
    {
        let MeterCmd::Bar { bar, height } = cmd;
        let bar = usize::from(bar.number());
        let mut heights = Vec::from_slice(alloc, &self.heights)?;
        if bar < heights.len() {
            heights[bar] = *height;
        }
        Ok(Meter { heights })
    }

    /// The patch of a command.
    fn patch(&self, alloc: Global, size: Size, cmd: &MeterCmd) -> Result<Batch, NoMemory>
        requires { IsWindowSize size }
        ensures { (look : Look) → IfOk result (λ batch. batch ≡ spec.meter_patch look size self.now cmd.now) }
    {
        let MeterCmd::Bar { bar, height } = cmd;
        let bar = bar.number();
        let part = window(size);
        let mut batch = Batch::new(alloc);
        if usize::from(bar) < self.heights.len() {
            batch.push(Paint::Tint {
                clip: rows_above(&part, size, bar, *height),
                op: Op::Bg,
            })?;
            batch.push(Paint::Tint {
                clip: bar_rows(&part, size, bar, *height),
                op: Op::Fg,
            })?;
        }
        Ok(batch)
    }

    /// Commands that paint a part of the picture: the background, and each bar over it.
    fn paints(&self, alloc: Global, size: Size, part: &Rect) -> Result<Batch, NoMemory>
        requires near { IsNearRect part.now }
        requires size { IsWindowSize size }
        requires part { (q : Point) → has_point part.now q ≡ true → has_point (whole_of size) q ≡ true }
        ensures { (look : Look) →
            IfOk result (λ batch. IsPainting look part.now batch (spec.meter_pic look size self.now)) }
    {
        let mut batch = Batch::new(alloc);
        batch.push(Paint::Tint {
            clip: *part,
            op: Op::Bg,
        })?;
        for (bar, height) in self.heights.iter().enumerate() {
            batch.push(Paint::Tint {
                clip: bar_rows(part, size, bar as u8, *height),
                op: Op::Fg,
            })?;
        }
        Ok(batch)
    }
}

/// The bar and the height of a command.
fn parts_of(cmd: &MeterCmd) -> (BarNumber, u8)
    ensures value { cmd.now ≡ MeterCmd.Bar result.0 result.1 }
    ensures valid { spec.IsMeterCmd cmd.now }
{
    match cmd {
        MeterCmd::Bar { bar, height } => {
            bar.invariant();
            (*bar, *height)
        }
    }
}

impl Command for MeterCmd {
    ghost use Rattle.w_meter.specs.Meters.{IsMeterCmd, meter_words};

    ghost valid = { IsMeterCmd };

    ghost words = { meter_words };

    fn known(&self) {
        let _parts = parts_of(self);
    }

    fn copy(&self, _alloc: Global) -> Result<MeterCmd, NoMemory> {
        let (bar, height) = parts_of(self);
        Ok(MeterCmd::Bar { bar, height })
    }

    fn same(&self, other: &MeterCmd) -> bool {
        let (bar, height) = parts_of(self);
        let (other_bar, other_height) = parts_of(other);
        bar.same(&other_bar) && height == other_height
    }

    fn print(&self, out: &mut Vec<u8>) -> Result<(), NoMemory> {
        let (bar, height) = parts_of(self);
        let (mut first, mut second) = (Buffer::new(), Buffer::new());
        let number = first.format(bar.number());
        let height = second.format(height);
        append_all(out, &[b"bar ", number.as_bytes(), b" ", height.as_bytes()])
    }
}

impl Client for Meter {
    ghost use Rattle.w_meter.specs.Meters.{IsMeter, meter_pic, meter_next, meter_patch, meter_answer, meter_value, meter_keeps};
    ghost use Rattle.w_meter.specs.MeterLaws.{meter_contents, meter_answers, meter_patches, meter_empty_patches, meter_keeping, meter_kinds};

    type Cmd = MeterCmd;

    ghost valid = { IsMeter };

    ghost pic = { meter_pic };

    ghost next = { meter_next };

    ghost patch = { meter_patch };

    ghost answer = { meter_answer };

    ghost value = { meter_value };

    ghost keeps = { meter_keeps };

    fn copy(&self, alloc: Global) -> Result<Meter, NoMemory> {
        let heights = Vec::from_slice(alloc, self.heights())?;
        Ok(Meter { heights })
    }

    fn same(&self, other: &Meter) -> bool {
        self.heights() == other.heights()
    }

    fn paint(&self, alloc: Global, _env: &Env, size: Size, clip: Rect) -> Result<Batch, NoMemory> {
        self.invariant();
        let batch = self.paints(alloc, size, &part_of_window(size, &clip))?;
        Ok(batch)
    }

    fn change(
        &self,
        alloc: Global,
        _env: &Env,
        size: Size,
        cmd: &MeterCmd,
    ) -> Result<(Meter, Batch), NoMemory> {
        self.invariant();
        cmd.known();
        let next = self.after(alloc, cmd)?;
        let patch = self.patch(alloc, size, cmd)?;
        Ok((next, patch))
    }

    fn react(&self, _alloc: Global, event: &Event) -> Result<Option<MeterCmd>, NoMemory> {
        self.invariant();
        match *event {
            Event::Key { code, .. } => {
                let cmd = MeterCmd::Bar {
                    bar: BarNumber::of(0),
                    height: code,
                };
                cmd.known();
                Ok(Some(cmd))
            }
            _ => Ok(None),
        }
    }

    fn value(&self, alloc: Global) -> Result<Line, NoMemory> {
        decimal_line(alloc, self.heights()[0])
    }

    fn keeps(&self, _from: Size, _to: Size) -> Rect {
        self.invariant();
        keeps_nothing()
    }

    ghost contents = { meter_contents };

    ghost answers = { meter_answers };

    ghost patches = { meter_patches };

    ghost empty_patches = { meter_empty_patches };

    ghost keeping = { meter_keeping };

    ghost kinds = { meter_kinds };
}
