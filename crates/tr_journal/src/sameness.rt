ghost use Rattle.std.specs.Prelude.{◌≡◌, ◌↔◌, IsTrue};

use tr_base::{Event, Rect};
use tr_cage::Cage;
use tr_forest::Edit;

/// Whether both are the same event.
pub fn is_same_event(a: &Event, b: &Event) -> bool
    ensures { IsTrue result ↔ (a.now ≡ b.now) }
{
    match (a, b) {
        (
            Event::Mouse {
                time: t,
                click: c,
                button: m,
                at: p,
            },
            Event::Mouse {
                time: u,
                click: d,
                button: n,
                at: q,
            },
        ) => t == u && c == d && m == n && p == q,
        (
            Event::Position {
                time: t,
                at: p,
                gone: g,
            },
            Event::Position {
                time: u,
                at: q,
                gone: h,
            },
        ) => t == u && p == q && g == h,
        (Event::Key { time: t, code: c }, Event::Key { time: u, code: d }) => t == u && c == d,
        (Event::Lost { selection: s }, Event::Lost { selection: r }) => s == r,
        (Event::Reshape { size: s, kind: k }, Event::Reshape { size: r, kind: l }) => s == r
            && k == l,
        _ => false,
    }
}

/// Whether both are the same rectangle.
pub fn is_same_rect(a: &Rect, b: &Rect) -> bool
    ensures { IsTrue result ↔ (a.now ≡ b.now) }
{
    a == b
}

/// Whether both are the same cage.
pub fn is_same_cage(a: &Cage, b: &Cage) -> bool
    ensures { IsTrue result ↔ (a.now ≡ b.now) }
{
    match (a, b) {
        (Cage::Everywhere, Cage::Everywhere) => true,
        (
            Cage::Only { rect, here, gone },
            Cage::Only {
                rect: other_rect,
                here: other_here,
                gone: other_gone,
            },
        ) => is_same_rect(rect, other_rect) && here == other_here && gone == other_gone,
        _ => false,
    }
}

/// Whether both are the same edit.
pub fn is_same_edit(a: &Edit, b: &Edit) -> bool
    ensures { IsTrue result ↔ (a.now ≡ b.now) }
{
    a == b
}
