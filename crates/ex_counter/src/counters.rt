//! A client of its own: the content of a window, with its commands. Its definition is in
//! specs/Counters.antt; this file computes it.
ghost use Rattle.std.specs.Prelude.{◌≡◌, IfOk, IfSome};
ghost use Rattle.tr_base.specs.Rects.{whole_of};
ghost use Rattle.tr_paint.specs.Paints.{IsNearRect};
ghost use Rattle.tr_client.specs.Laws.{IsWindowSize};
ghost use Rattle.ex_counter.specs.Counters as spec;

use itoa::Buffer;
use std::alloc::Global;
use tr_base::{Click, Command, Env, Event, Line, NoMemory, Op, Rect, Size};
use tr_client::{Client, append_all, decimal_line, kept_part, part_of_window, window};
use tr_paint::{Batch, Paint};

/// The code of the key that counts.
const PLUS: u8 = 43;

/// A window with a bar; its length is a number that events count up.
#[derive(Clone, Copy, Debug, PartialEq, Eq)]
pub struct Counter {
    /// The number: the number of columns of the bar.
    pub count: u8,
    /// The colour of the bar, as far as the kind of the pixels has it.
    pub tint: u8,
}

/// A command for a Counter.
#[derive(Clone, Copy, Debug, PartialEq, Eq)]
pub enum CounterCmd {
    /// Adds to the number, up to 255.
    Add(u8),
}

impl Counter {
    /// A bar of this colour, without a column yet.
    pub fn new(tint: u8) -> Counter
        ensures { result ≡ record { count = 0; tint = tint } }
    {
        Counter { count: 0, tint }
    }

    /// The properties of each counter, for the prover. Nothing runs.
    pub fn invariant(&self)
        ensures { spec.IsCounter self.now }
    {
        let _count = self.count();
    }

    /// The number.
    pub fn count(&self) -> u8
        ensures value { result ≡ self.now.count }
        ensures invariant { spec.IsCounter self.now }
    {
        // Read for its clause: it is a byte.
        let _tint = self.tint;
        self.count
    }

    /// The content after a command.
    fn after(&self, cmd: &CounterCmd) -> Counter
        ensures { result ≡ spec.counter_next self.now cmd.now }
    {
        Counter {
            count: self.count.saturating_add(amount_of(cmd)),
            tint: self.tint,
        }
    }

    /// The commands that paint a part of the picture: the background, and the bar over it.
    fn paints(&self, alloc: Global, part: Rect) -> Result<Batch, NoMemory>
        requires { IsNearRect part }
        ensures { IfOk result (λ batch. batch ≡ spec.counter_paints part self.now) }
    {
        let mut batch = Batch::new(alloc);
        batch.push(Paint::Tint {
            clip: part,
            op: Op::Bg,
        })?;
        batch.push(Paint::Tint {
            clip: columns(&part, 0, self.count),
            op: Op::Set(self.tint),
        })?;
        Ok(batch)
    }

    /// The commands that paint, in a whole window, the growth of this bar to a longer one.
    fn growth(&self, alloc: Global, size: Size, longer: &Counter) -> Result<Batch, NoMemory>
        requires { IsWindowSize size }
        ensures { IfOk result (λ batch. batch ≡ spec.growth_paints (whole_of size) self.now longer.now) }
    {
        let mut batch = Batch::new(alloc);
        batch.push(Paint::Tint {
            clip: columns(&window(size), self.count, longer.count),
            op: Op::Set(longer.tint),
        })?;
        Ok(batch)
    }
}

/// The columns from `from` on, before `to`, of a part of a window.
fn columns(part: &Rect, from: u8, to: u8) -> Rect
    requires { IsNearRect part.now }
    ensures edges { result ≡ spec.columns_of part.now from to }
    ensures near { IsNearRect result }
{
    let west = i32::from(from);
    let east = i32::from(to);
    part.meet(&Rect::edges(west, east, part.north(), part.south()))
}

/// The addend of a command.
fn amount_of(cmd: &CounterCmd) -> u8
    ensures value { cmd.now ≡ CounterCmd.Add result }
    ensures valid { spec.IsCounterCmd cmd.now }
{
    match *cmd {
        CounterCmd::Add(amount) => amount,
    }
}

/// The command for a key.
fn asked_by_key(code: u8) -> Option<CounterCmd>
    ensures command { IfSome result (λ cmd. spec.IsCounterCmd cmd) }
    ensures answer { result ≡ spec.added_by_key code }
{
    if code == PLUS {
        Some(CounterCmd::Add(1))
    } else {
        None
    }
}

/// The command for a button.
fn asked_by_click(click: Click) -> Option<CounterCmd>
    ensures command { IfSome result (λ cmd. spec.IsCounterCmd cmd) }
    ensures answer { result ≡ spec.added_by_click click }
{
    match click {
        Click::FirstDown => Some(CounterCmd::Add(10)),
        _ => None,
    }
}

impl Command for CounterCmd {
    ghost use Rattle.ex_counter.specs.Counters.{IsCounterCmd, counter_words};

    ghost valid = { IsCounterCmd };

    ghost words = { counter_words };

    fn known(&self) {
        let _amount = amount_of(self);
    }

    fn copy(&self, _alloc: Global) -> Result<CounterCmd, NoMemory> {
        Ok(*self)
    }

    fn same(&self, other: &CounterCmd) -> bool {
        self == other
    }

    fn print(&self, out: &mut Vec<u8>) -> Result<(), NoMemory> {
        let mut buffer = Buffer::new();
        let amount = buffer.format(amount_of(self));
        append_all(out, &[b"add ", amount.as_bytes()])
    }
}

/// Each call must know that its content is valid: it calls `invariant`, or `count` if it needs the number.
impl Client for Counter {
    ghost use Rattle.ex_counter.specs.Counters.{IsCounter, counter_pic, counter_next, counter_patch, counter_answer, counter_value, counter_keeps};
    ghost use Rattle.ex_counter.specs.CounterLaws.{counter_contents, counter_answers, counter_patches, counter_empty_patches, counter_keeping, counter_kinds};

    type Cmd = CounterCmd;

    ghost valid = { IsCounter };

    ghost pic = { counter_pic };

    ghost next = { counter_next };

    ghost patch = { counter_patch };

    ghost answer = { counter_answer };

    ghost value = { counter_value };

    ghost keeps = { counter_keeps };

    fn copy(&self, _alloc: Global) -> Result<Counter, NoMemory> {
        Ok(Counter {
            count: self.count(),
            tint: self.tint,
        })
    }

    fn same(&self, other: &Counter) -> bool {
        self.invariant();
        other.invariant();
        self == other
    }

    fn paint(&self, alloc: Global, _env: &Env, size: Size, clip: Rect) -> Result<Batch, NoMemory> {
        self.invariant();
        let batch = self.paints(alloc, part_of_window(size, &clip))?;
        Ok(batch)
    }

    fn change(
        &self,
        alloc: Global,
        _env: &Env,
        size: Size,
        cmd: &CounterCmd,
    ) -> Result<(Counter, Batch), NoMemory> {
        self.invariant();
        cmd.known();
        let next = self.after(cmd);
        let patch = self.growth(alloc, size, &next)?;
        Ok((next, patch))
    }

    fn react(&self, _alloc: Global, event: &Event) -> Result<Option<CounterCmd>, NoMemory> {
        self.invariant();
        match *event {
            Event::Mouse { click, .. } => Ok(asked_by_click(click)),
            Event::Key { code, .. } => Ok(asked_by_key(code)),
            _ => Ok(None),
        }
    }

    fn value(&self, alloc: Global) -> Result<Line, NoMemory> {
        decimal_line(alloc, self.count())
    }

    fn keeps(&self, from: Size, to: Size) -> Rect {
        self.invariant();
        kept_part(from, to)
    }

    ghost contents = { counter_contents };

    ghost answers = { counter_answers };

    ghost patches = { counter_patches };

    ghost empty_patches = { counter_empty_patches };

    ghost keeping = { counter_keeping };

    ghost kinds = { counter_kinds };
}
