use tr_base::{LeafId, Size};

/// The points of a node that show the same after an edit as before it.
#[derive(Clone, Copy)]
pub(crate) enum Survivors {
    Nothing,
    All,
    /// Those that a leaf keeps when its size changes, and that no waiting command touches.
    Kept { leaf: LeafId, from: Size, to: Size },
}
