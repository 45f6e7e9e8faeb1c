ghost use Rattle.std.specs.Prelude.{◌↔◌, IsTrue};
ghost use Rattle.tr_levels.specs.Levels.{IsBelow};

use tr_base::LeafId;

/// A level that a thread can hold. The order is the tree's lock, then shares by their leaves' numbers,
/// then windows by theirs.
#[derive(Clone, Copy, Debug, PartialEq, Eq, PartialOrd, Ord)]
pub enum Level {
    /// The tree's lock.
    Mu,
    /// The right to paint the leaf.
    Share(LeafId),
    /// The lock of the leaf's window.
    Win(LeafId),
}

impl Level {
    /// Whether it comes before `other`, so that it may not be taken while `other` is held.
    pub fn is_below(self, other: Level) -> bool
        ensures { IsTrue result ↔ IsBelow self other }
    {
        self < other
    }
}
