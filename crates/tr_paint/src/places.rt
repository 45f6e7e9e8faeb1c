ghost use Rattle.std.specs.Prelude.{◌≡◌, ℕ, List, length, IsTrue, IfOk, OnErr};
ghost use Rattle.tr_base.specs.declared.Point.{Point};
ghost use Rattle.tr_paint.specs.CommandLists as spec;
ghost use Rattle.tr_paint.specs.Views.{viewed};

use crate::paints::Paint;
use crate::views::PaintView;
use std::mem::size_of;
use tr_base::{Line, NoMemory, Op, Pair, Point, Rect};

/// The most commands that are stored, and the most texts.
pub(crate) const MOST_KEPT: usize = 4_294_967_295;

/// The bytes of a text, and the point at which it begins.
#[derive(Debug, Drop)]
pub(crate) struct TextAt {
    pub at: Point,
    pub text: Line,
}

/// Where the parts of a command are kept.
#[derive(Clone, Copy, Debug)]
pub(crate) struct Places {
    /// The place of the stored command.
    pub command: u32,
    /// The place of its text. Any other command has 0.
    pub text: u32,
}

// Millions of commands may wait in memory.
const _: () = prove!(size_of::<Places>() == 8);

const _: () = prove!(size_of::<TextAt>() == 16);

/// The place at which a tint is stored. It is added unless the command at the hint is this tint.
pub(crate) fn place_of_tint(
    stored: &mut Vec<Paint>,
    hint: u32,
    clip: Rect,
    op: Op,
) -> Result<u32, NoMemory>
    ensures ok { IfOk result (λ k. spec.IsStoredAt stored.old.items stored.new.items (Paint.Tint clip op) k) }
    ensures err { OnErr result (stored.new.items ≡ stored.old.items) }
{
    if is_tint_at(stored, hint, &clip, &op) {
        return Ok(hint);
    }
    store(stored, Paint::Tint { clip, op })
}

/// Whether the command at a place is this tint.
#[inline(always)]
pub(crate) fn is_tint_at(stored: &[Paint], k: u32, clip: &Rect, op: &Op) -> bool
    ensures { IsTrue result → spec.IsStoredAt stored.now stored.now (Paint.Tint clip.now op.now) k }
{
    let k = k as usize;
    if k >= stored.len() {
        return false;
    }
    is_tint(&stored[k], clip, op)
}

/// Whether a command is this tint.
fn is_tint(paint: &Paint, clip: &Rect, op: &Op) -> bool
    ensures { IsTrue result → paint.now ≡ Paint.Tint clip.now op.now }
{
    match paint {
        Paint::Tint { clip: c, op: o } => is_same_rect(c, clip) && o == op,
        _ => false,
    }
}

/// The place at which a scroll is stored. It is added unless the command at the hint is this scroll.
pub(crate) fn place_of_scroll(
    stored: &mut Vec<Paint>,
    hint: u32,
    clip: Rect,
    delta: Point,
) -> Result<u32, NoMemory>
    ensures ok { IfOk result (λ k.
        spec.IsStoredAt stored.old.items stored.new.items (Paint.Scroll clip delta) k) }
    ensures err { OnErr result (stored.new.items ≡ stored.old.items) }
{
    if is_scroll_at(stored, hint, &clip, delta) {
        return Ok(hint);
    }
    store(stored, Paint::Scroll { clip, delta })
}

/// Whether the command at a place is this scroll.
#[inline(always)]
pub(crate) fn is_scroll_at(stored: &[Paint], k: u32, clip: &Rect, delta: Point) -> bool
    ensures { IsTrue result → spec.IsStoredAt stored.now stored.now (Paint.Scroll clip.now delta) k }
{
    let k = k as usize;
    if k >= stored.len() {
        return false;
    }
    is_scroll(&stored[k], clip, delta)
}

/// Whether a command is this scroll.
fn is_scroll(paint: &Paint, clip: &Rect, delta: Point) -> bool
    ensures { IsTrue result → paint.now ≡ Paint.Scroll clip.now delta }
{
    match paint {
        Paint::Scroll { clip: c, delta: d } => is_same_rect(c, clip) && *d == delta,
        _ => false,
    }
}

/// The place at which a text is stored. It is added unless the command at the hint is a text with these
/// operations and this clip.
pub(crate) fn place_of_text(
    stored: &mut Vec<Paint>,
    hint: u32,
    ops: Pair,
    clip: Rect,
    at: Point,
    text: &Line,
) -> Result<u32, NoMemory>
    ensures ok { IfOk result (λ k.
        spec.IsStoredAt stored.old.items stored.new.items (Paint.Text ops clip at text.now) k) }
    ensures err { OnErr result (stored.new.items ≡ stored.old.items) }
{
    if is_text_at(stored, hint, &ops, &clip) {
        return Ok(hint);
    }
    let text = text.copy()?;
    store(
        stored,
        Paint::Text {
            ops,
            clip,
            at,
            text,
        },
    )
}

/// Whether the command at a place is a text with these operations and this clip.
#[inline(always)]
pub(crate) fn is_text_at(stored: &[Paint], k: u32, ops: &Pair, clip: &Rect) -> bool
    ensures { (at : Point) (text : List ℕ) → IsTrue result →
        spec.IsStoredAt stored.now stored.now (Paint.Text ops.now clip.now at text) k }
{
    let k = k as usize;
    if k >= stored.len() {
        return false;
    }
    is_text(&stored[k], ops, clip)
}

/// Whether a command is a text with these operations and this clip.
fn is_text(paint: &Paint, ops: &Pair, clip: &Rect) -> bool
    ensures { (at : Point) (text : List ℕ) → IsTrue result →
        spec.DiffersInTextAlone paint.now (Paint.Text ops.now clip.now at text) }
{
    match paint {
        Paint::Text {
            ops: o,
            clip: c,
            // The proof names these two.
            at: _at,
            text: _text,
        } => is_pair(o, ops) && is_same_rect(c, clip),
        _ => false,
    }
}

/// Whether both are the same operations. So the prover sees what `==` of them tells.
fn is_pair(a: &Pair, b: &Pair) -> bool
    ensures { IsTrue result → a.now ≡ b.now }
{
    a == b
}

/// Whether both are the same rectangle. So the prover sees what `==` of them tells.
fn is_same_rect(a: &Rect, b: &Rect) -> bool
    ensures { IsTrue result → a.now ≡ b.now }
{
    a == b
}

/// Adds a command to the stored ones, and answers its place.
pub(crate) fn store(stored: &mut Vec<Paint>, command: Paint) -> Result<u32, NoMemory>
    ensures ok { IfOk result (λ k. spec.IsStoredAt stored.old.items stored.new.items command k) }
    ensures err { OnErr result (stored.new.items ≡ stored.old.items) }
{
    let place = stored.len();
    if place >= MOST_KEPT {
        return Err(NoMemory);
    }
    stored.push(command)?;
    Ok(place as u32)
}

/// A view of a stored command, with the text at a place if it is a text.
#[inline(always)]
pub(crate) fn view_of<'a>(stored: &'a Paint, texts: &'a [TextAt], k: u32) -> PaintView<'a>
    requires { spec.HasText stored.now k (length texts.now) }
    ensures { viewed result ≡ spec.with_text_at stored.now (spec.text_at texts.now k) }
{
    match stored {
        Paint::Text { ops, clip, .. } => {
            let own = &texts[k as usize];
            PaintView::Text {
                ops: *ops,
                clip: *clip,
                at: own.at,
                text: &own.text,
            }
        }
        _ => stored.view(),
    }
}
