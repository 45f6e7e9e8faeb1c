ghost use Rattle.std.specs.Prelude.{◌≡◌, [], IfOk, IfSome};
ghost use Rattle.tr_client.specs.Laws.{IsWindowSize};
ghost use Rattle.tr_book.specs.Books.{view_of};
ghost use Rattle.tr_server.specs.Drawings.{IsDrawnOf};

use std::alloc::Global;
use tr_base::{Env, NoMemory, Rect, Size};
use tr_client::{Client, Prepared, part_of_window};
use tr_sketch::{Sketch, fits_screen};

/// No picture with more points is drawn: its memory comes in fresh pages, which cost more than the painting
/// (a window of 1024 by 768 with a flush after each 25 lines took four times the processor time).
const MOST_POINTS: u64 = 1 << 16;

/// A drawing of waiting commands, made outside the tree's lock: a sketch of the content after them, for the
/// points that they touch, and a value with no commands over that content, with which the next ones begin.
#[derive(Drop)]
pub(crate) struct Drawn<C: Client> {
    pub(crate) sketch: Sketch<C>,
    pub(crate) spare: Prepared<C>,
    pub(crate) ghost none: { spare.commands.items ≡ [] },
    pub(crate) ghost font: { spare.font ≡ sketch.font },
}

/// The drawing of prepared commands: none if they touch no point or too many, or if memory runs out.
pub(crate) fn drawn_of<C: Client>(prepared: &Prepared<C>) -> Option<Drawn<C>>
    ensures { IfSome result (λ d. IsDrawnOf C.Client (view_of prepared.now) d.sketch) }
{
    let clip = prepared.batch.hull();
    if !fits_screen(prepared.size, &clip) || is_large(prepared.size, &clip) {
        return None;
    }
    let alloc = *prepared.commands.allocator();
    let Ok(spare) = spare_of(alloc, prepared) else {
        return None;
    };
    let Ok(content) = prepared.to.copy(alloc) else {
        drop(spare);
        return None;
    };
    let env = Env {
        kind: prepared.kind,
        font: &prepared.font,
    };
    let Ok(sketch) = Sketch::paint(alloc, content, &env, prepared.size, &clip) else {
        drop(spare);
        return None;
    };
    Some(Drawn { sketch, spare })
}

/// Whether the part of a window in a clip has more points than are drawn.
fn is_large(size: Size, clip: &Rect) -> bool
    requires { IsWindowSize size }
{
    let (wide, high) = part_of_window(size, clip).size();
    u64::from(wide).saturating_mul(u64::from(high)) > MOST_POINTS
}

/// No commands, prepared over the content after these commands.
fn spare_of<C: Client>(alloc: Global, prepared: &Prepared<C>) -> Result<Prepared<C>, NoMemory>
    ensures none { IfOk result (λ p. p.commands.items ≡ []) }
    ensures font { IfOk result (λ p. p.font ≡ prepared.now.font) }
{
    let left = prepared.to.copy(alloc)?;
    Prepared::fresh(alloc, left, &prepared.font, prepared.size, prepared.kind)
}
