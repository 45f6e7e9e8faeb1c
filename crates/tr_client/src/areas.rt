ghost use Rattle.std.specs.Prelude.{◌≡◌};
ghost use Rattle.tr_base.specs.Rects.{empty_rect, meet_of, whole_of};
ghost use Rattle.tr_paint.specs.Paints.{IsNearRect};
ghost use Rattle.tr_client.specs.Laws.{IsWindowSize};

use tr_base::{Op, Pair, Rect, Size, whole};

/// The operations of a picture of two colours, such as a text or a tile: the background for a bit that
/// is 0, and the foreground for a bit that is 1.
pub const PLAIN: Pair = Pair {
    zero: Op::Bg,
    one: Op::Fg,
};

/// The rectangle of a window, for a command that paints all of it.
pub fn window(size: Size) -> Rect
    requires { IsWindowSize size }
    ensures edges { result ≡ whole_of size }
    ensures near { IsNearRect result }
{
    whole(size)
}

/// The part of a window that lies in a clip.
pub fn part_of_window(size: Size, clip: &Rect) -> Rect
    requires { IsWindowSize size }
    ensures edges { result ≡ meet_of (whole_of size) clip.now }
    ensures near { IsNearRect result }
{
    window(size).meet(clip)
}

/// The points that a client keeps if its colours don't depend on the size: the common part of both
/// windows.
pub fn kept_part(from: Size, to: Size) -> Rect
    requires from { IsWindowSize from }
    requires to { IsWindowSize to }
    ensures { result ≡ meet_of (whole_of from) (whole_of to) }
{
    window(from).meet(&window(to))
}

/// The points that a client keeps if it paints everything again when its size changes: none.
pub fn keeps_nothing() -> Rect
    ensures { result ≡ empty_rect }
{
    Rect::edges(0, 0, 0, 0)
}
