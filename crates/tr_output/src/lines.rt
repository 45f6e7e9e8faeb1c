//! The last spelled lines.
ghost use Rattle.std.specs.Prelude.{◌≡◌, ℕ, ◌+◌, ◌*◌, ◌<◌, ◌≤◌, List, All, IfOk, length, take, slice_range, vec_len};
ghost use Rattle.tr_output.specs.Lines.{SpellsRow};
ghost use Rattle.tr_output.specs.Texts.{row_text};

use std::alloc::Global;
use tr_base::NoMemory;

/// The number of kept lines. In a tiled window every eighth row is equal.
pub(crate) const LINES: usize = 8;

/// The number of bytes of the longest line.
const LONGEST: usize = 2 * 1024 + 1;

/// The line of a row: the place of its pixels, their number, and its text in front.
#[derive(Drop)]
pub(crate) struct Line {
    start: usize,
    wide: usize,
    pub(crate) text: Vec<u8>,
}

impl Line {
    /// The line of no pixels.
    fn new(alloc: Global) -> Result<Line, NoMemory>
        ensures { IfOk result (λ line. (pixels : List ℕ) → SpellsRow pixels line) }
    {
        Ok(Line {
            start: 0,
            wide: 0,
            text: vec![in alloc; b'\n'; LONGEST]?,
        })
    }

    /// Spells the row that begins at `start`, unless its line is there.
    pub(crate) fn spell(&mut self, pixels: &[u8], start: usize, wide: usize)
        requires wide { wide ≤ 1024 }
        requires within { start + wide ≤ length pixels.now }
        requires line { SpellsRow pixels.now self.old }
        ensures line { SpellsRow pixels.now self.new }
        ensures text { take (2 * wide + 1) self.new.text.items
            ≡ row_text (slice_range pixels.now start (start + wide)) }
    {
        if self.start == start && self.wide == wide {
            return;
        }
        spell_row(&pixels[start..start + wide], self.text.as_mut_slice());
        self.start = start;
        self.wide = wide;
    }
}

/// Spells a row at the front of a text.
fn spell_row(row: &[u8], text: &mut [u8])
    requires { 2 * length row.now < length text.old }
    ensures { take (2 * length row.now + 1) text.new ≡ row_text row.now }
{
    let end = 2 * row.len();
    hex::encode_to_slice(row, &mut text[..end]).unwrap();
    text[end] = b'\n';
}

/// Lines of no pixels.
pub(crate) fn no_lines(alloc: Global) -> Result<Vec<Line>, NoMemory>
    ensures lines { IfOk result (λ lines. (pixels : List ℕ) → All (SpellsRow pixels) lines.items) }
    ensures count { IfOk result (λ lines. vec_len lines ≡ LINES) }
{
    let mut lines = Vec::with_capacity(alloc, LINES)?;
    for _ in 0..LINES {
        lines.push(Line::new(alloc)?)?;
    }
    Ok(lines)
}
