ghost use Rattle.std.specs.Prelude.{◌≡◌, ◌≤◌, ◌↔◌, length, IsTrue, IfOk};
ghost use Rattle.std.specs.List.{AllPass};
ghost use Rattle.tr_base.specs.Kept.{CountFits, Keeps, text_of};
ghost use Rattle.tr_base.specs.Kept as spec;
ghost use Rattle.tr_base.specs.Lines.{IsLine, is_printable};

use crate::errors::NoMemory;
use std::alloc::Global;
use std::marker::Model;
use std::mem::size_of;
use std::sync::Arc;

/// The most bytes in a line.
pub const LINE: usize = 80;

/// The most bytes in a short text, which takes one small block of memory.
const SHORT: usize = 46;

/// A text of at most 80 bytes, each 32 to 126; its model is their list. Its copies share the bytes, so
/// a copy takes no memory.
#[derive(Debug, Drop)]
pub struct Line {
    kept: Arc<Kept>,
}

/// How the bytes of a text are kept.
#[derive(Debug, Drop)]
enum Kept {
    /// At most 46 bytes, and zeros after them.
    Short { len: u8, bytes: [u8; SHORT] },
    /// More bytes.
    Long(Vec<u8>),
}

// Commands and steps have lines in them. A block of a count and these 48 bytes takes 64 from malloc.
const _: () = prove!(size_of::<Line>() == 8);

const _: () = prove!(size_of::<Kept>() == 48);

impl Model for Line {
    ghost use Rattle.std.specs.Prelude.{ℕ, List};
    ghost use Rattle.std.specs.Arc.{arc_value};
    ghost use Rattle.tr_base.specs.Kept.{text_of, KeepsLine};

    ghost Value = { List ℕ };

    ghost view = { λ l. text_of (arc_value l.kept) };

    ghost invariant = { λ l. KeepsLine (arc_value l.kept) };
}

impl Line {
    /// A text with these bytes.
    pub fn of(alloc: Global, bytes: &[u8]) -> Result<Line, NoMemory>
        requires short { length bytes.now ≤ LINE }
        requires printable { AllPass is_printable bytes.now }
        ensures { IfOk result (λ l. l ≡ bytes.now) }
    {
        Ok(Line {
            kept: Arc::new(alloc, Kept::of(alloc, bytes)?)?,
        })
    }

    /// Tells the invariant of lines. Nothing runs.
    pub fn invariant(&self)
        ensures { IsLine self.now }
    {
        let _bytes = self.bytes();
    }

    /// Its bytes.
    pub fn bytes(&self) -> &[u8]
        ensures value { result.now ≡ self.now }
        ensures invariant { IsLine self.now }
    {
        self.kept.text()
    }

    /// A copy of the text.
    pub fn copy(&self) -> Result<Line, NoMemory>
        ensures { IfOk result (λ l. l ≡ self.now) }
    {
        Ok(Line {
            kept: Arc::try_clone(&self.kept)?,
        })
    }

    /// Whether both are the same text.
    pub fn same(&self, other: &Line) -> bool
        ensures { IsTrue result ↔ (self.now ≡ other.now) }
    {
        self.bytes() == other.bytes()
    }
}

impl Kept {
    /// A text with these bytes.
    fn of(alloc: Global, bytes: &[u8]) -> Result<Kept, NoMemory>
        ensures { IfOk result (λ kept. Keeps kept bytes.now) }
    {
        if bytes.len() <= SHORT {
            return Ok(Kept::Short {
                len: bytes.len() as u8,
                bytes: padded(bytes),
            });
        }
        let mut text = Vec::with_capacity(alloc, bytes.len())?;
        text.extend_from_slice(bytes)?;
        Ok(Kept::Long(text))
    }

    /// Its bytes.
    fn text(&self) -> &[u8]
        requires { CountFits self.now }
        ensures { result.now ≡ text_of self.now }
    {
        match self {
            Kept::Short { len, bytes } => &bytes[..usize::from(*len)],
            Kept::Long(text) => text,
        }
    }
}

/// Whether the byte may occur in a text: 32 to 126.
pub fn is_printable(byte: u8) -> bool
    ensures { result ≡ is_printable byte }
{
    32 <= byte && byte <= 126
}

/// The bytes, and zeros after them.
fn padded(bytes: &[u8]) -> [u8; SHORT]
    requires { length bytes.now ≤ SHORT }
    ensures { result ≡ spec.padded bytes.now }
{
    let mut kept = [0; SHORT];
    kept[..bytes.len()].copy_from_slice(bytes);
    kept
}
