ghost use Rattle.std.specs.Prelude.{◌≡◌, Bool, false};
ghost use Rattle.tr_base.specs.Rects.{empty_rect};
ghost use Rattle.tr_cage.specs.Cages as spec;

use tr_base::{Point, Rect};

/// The positions of the cursor that a window needn't be told. The window is told once the cage
/// doesn't hold the cursor.
#[derive(Clone, Copy, Debug, PartialEq, Eq)]
pub enum Cage {
    /// Every position.
    Everywhere,
    /// The points of `rect`, relative to the window's north-west corner: with `here` while the cursor
    /// is over the window, and with `gone` while it is gone.
    Only { rect: Rect, here: bool, gone: bool },
}

/// Whether the cage holds the cursor at `at`, relative to the window's north-west corner. The cursor
/// is gone if another window, or none, is under it.
pub fn holds(cage: &Cage, at: Point, is_gone: bool) -> bool
    ensures cases { result ≡ spec.cage_holds cage.now at is_gone }
    ensures empty { (here gone : Bool) → cage.now ≡ Cage.Only empty_rect here gone → result ≡ false }
{
    match cage {
        Cage::Everywhere => true,
        Cage::Only { rect, here, gone } => rect.has(at) && (if is_gone { *gone } else { *here }),
    }
}
