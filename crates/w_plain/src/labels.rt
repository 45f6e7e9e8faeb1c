ghost use Rattle.std.specs.Prelude.{◌≡◌, ◌++◌, ◌∷◌, [], ◌<◌, true, length, IfOk};
ghost use Rattle.tr_base.specs.Lines.{IsLine, is_printable};
ghost use Rattle.tr_base.specs.Rects.{origin};
ghost use Rattle.tr_paint.specs.Paints.{IsNearRect};
ghost use Rattle.w_plain.specs.Labels as spec;

use std::alloc::Global;
use tr_base::{Command, Env, Event, LINE, Line, NoMemory, Op, Point, Rect, Size, is_printable};
use tr_client::{Client, PLAIN, append_with_text, kept_part, part_of_window, window};
use tr_paint::{Batch, Paint};

/// A window with a line of text. A key adds its byte to the text.
#[derive(Debug, Drop)]
pub struct Label {
    pub text: Line,
}

/// A command of a Label.
#[derive(Debug, Drop)]
pub enum LabelCmd {
    /// Sets the text.
    Text(Line),
}

impl Label {
    /// A window with this text.
    pub fn new(text: Line) -> Result<Label, NoMemory>
        ensures { IfOk result (λ label. label ≡ record { text = text }) }
    {
        Ok(Label { text })
    }

    /// Tells the invariant of labels. Nothing runs.
    pub fn invariant(&self)
        ensures { spec.IsLabel self.now }
    {
        let _text = self.text();
    }

    /// The bytes of its text.
    pub fn text(&self) -> &[u8]
        ensures value { result.now ≡ self.now.text }
        ensures invariant { spec.IsLabel self.now }
    {
        self.text.bytes()
    }

    /// The commands that paint a part of the picture.
    fn paints(&self, alloc: Global, part: Rect) -> Result<Batch, NoMemory>
        requires { IsNearRect part }
        ensures { IfOk result (λ batch. batch ≡ spec.label_paints part self.now) }
    {
        let mut batch = Batch::new(alloc);
        batch.push(Paint::Tint {
            clip: part,
            op: Op::Bg,
        })?;
        batch.push(Paint::Text {
            clip: part,
            at: origin(),
            ops: PLAIN,
            text: self.text.copy()?,
        })?;
        Ok(batch)
    }
}

/// The north-west corner of a window.
fn origin() -> Point
    ensures { result ≡ origin }
{
    Point { h: 0, v: 0 }
}

/// The text of a command.
fn text_of(cmd: &LabelCmd) -> &Line
    ensures value { cmd.now ≡ LabelCmd.Text result.now }
    ensures valid { spec.IsLabelCmd cmd.now }
{
    match cmd {
        LabelCmd::Text(text) => {
            text.invariant();
            text
        }
    }
}

/// A text with one more byte.
fn with_byte(alloc: Global, text: &Line, byte: u8) -> Result<Line, NoMemory>
    requires room { length text.now < LINE }
    requires printable { is_printable byte ≡ true }
    ensures text { IfOk result (λ line. line ≡ text.now ++ byte ∷ []) }
    ensures valid { IfOk result (λ line. IsLine line) }
{
    let len = text.bytes().len();
    let mut bytes = [0; LINE];
    bytes[..len].copy_from_slice(text.bytes());
    bytes[len] = byte;
    Line::of(alloc, &bytes[..len + 1])
}

impl Command for LabelCmd {
    ghost use Rattle.w_plain.specs.Labels.{IsLabelCmd, label_words};

    ghost valid = { IsLabelCmd };

    ghost words = { label_words };

    fn known(&self) {
        let _text = text_of(self);
    }

    fn copy(&self, _alloc: Global) -> Result<LabelCmd, NoMemory> {
        Ok(LabelCmd::Text(text_of(self).copy()?))
    }

    fn same(&self, other: &LabelCmd) -> bool {
        text_of(self).same(text_of(other))
    }

    fn print(&self, out: &mut Vec<u8>) -> Result<(), NoMemory> {
        append_with_text(out, b"text", text_of(self))
    }
}

impl Client for Label {
    ghost use Rattle.w_plain.specs.Labels.{IsLabel, label_pic, label_next, label_patch, label_answer, label_value, label_keeps};
    ghost use Rattle.w_plain.specs.LabelLaws.{label_contents, label_answers, label_patches, label_empty_patches, label_keeping, label_kinds};

    type Cmd = LabelCmd;

    ghost valid = { IsLabel };

    ghost pic = { label_pic };

    ghost next = { label_next };

    ghost patch = { label_patch };

    ghost answer = { label_answer };

    ghost value = { label_value };

    ghost keeps = { label_keeps };

    fn copy(&self, _alloc: Global) -> Result<Label, NoMemory> {
        self.invariant();
        Ok(Label {
            text: self.text.copy()?,
        })
    }

    fn same(&self, other: &Label) -> bool {
        self.invariant();
        other.invariant();
        self.text.same(&other.text)
    }

    fn paint(&self, alloc: Global, _env: &Env, size: Size, clip: Rect) -> Result<Batch, NoMemory> {
        self.invariant();
        let batch = self.paints(alloc, part_of_window(size, &clip))?;
        Ok(batch)
    }

    fn change(
        &self,
        alloc: Global,
        _env: &Env,
        size: Size,
        cmd: &LabelCmd,
    ) -> Result<(Label, Batch), NoMemory> {
        self.invariant();
        let next = Label {
            text: text_of(cmd).copy()?,
        };
        let patch = next.paints(alloc, window(size))?;
        Ok((next, patch))
    }

    fn react(&self, alloc: Global, event: &Event) -> Result<Option<LabelCmd>, NoMemory> {
        match *event {
            Event::Key { code, .. } if is_printable(code) && self.text().len() < LINE => {
                Ok(Some(LabelCmd::Text(with_byte(alloc, &self.text, code)?)))
            }
            _ => {
                self.invariant();
                Ok(None)
            }
        }
    }

    fn value(&self, _alloc: Global) -> Result<Line, NoMemory> {
        self.invariant();
        self.text.copy()
    }

    fn keeps(&self, from: Size, to: Size) -> Rect {
        self.invariant();
        kept_part(from, to)
    }

    ghost contents = { label_contents };

    ghost answers = { label_answers };

    ghost patches = { label_patches };

    ghost empty_patches = { label_empty_patches };

    ghost keeping = { label_keeping };

    ghost kinds = { label_kinds };
}
