use tr_base::{Rect, Size};

/// A window on the screen before it is flushed or repainted.
#[derive(Clone, Copy, Debug)]
pub struct Exposure {
    pub size: Size,
    /// The least rectangle that has its bad points, in the window's own coordinates.
    pub bad: Rect,
    /// Whether each of its points is visible.
    pub is_whole: bool,
}
