ghost use Rattle.std.specs.Prelude.{◌≡◌, ◌↔◌, IsTrue, [], ◌∷◌, ◌++◌, All, Contains};
ghost use Rattle.tr_levels.specs.Held.{levels_of};
ghost use Rattle.tr_levels.specs.Levels.{IsBelow, IsRising, Admits};

use crate::levels::Level;
use std::marker::Model;
use tr_base::LeafId;

/// The levels that a thread holds, in the order in which it took them: at most one of each sort, first
/// the tree's lock, then a share, then a window.
#[derive(Clone, Copy, Debug, PartialEq, Eq)]
pub struct Held {
    mu: bool,
    share: Option<LeafId>,
    win: Option<LeafId>,
}

impl Model for Held {
    ghost use Rattle.std.specs.Prelude.{List};
    ghost use Rattle.tr_levels.specs.declared.levels.Level.{Level};
    ghost use Rattle.tr_levels.specs.Held.{levels_of, has_mu, first_share, first_window};

    ghost Value = { List Level };

    ghost view = { λ h. levels_of h.mu h.share h.win };

    ghost inverse = { λ levels.
        record { mu = has_mu levels; share = first_share levels; win = first_window levels } };
}

impl Held {
    /// No level.
    pub fn none() -> Held
        ensures { result ≡ [] }
    {
        Held {
            mu: false,
            share: None,
            win: None,
        }
    }

    /// Whether the level may be taken: no level of its sort or of a later one is held.
    pub fn admits(&self, level: Level) -> bool
        ensures { IsTrue result ↔ Admits self.now level }
    {
        match level {
            Level::Mu => !self.mu && self.share.is_none() && self.win.is_none(),
            Level::Share(_) => self.share.is_none() && self.win.is_none(),
            Level::Win(_) => self.win.is_none(),
        }
    }

    /// The levels after this one is taken too.
    pub fn with(&self, level: Level) -> Held
        requires { Admits self.now level }
        ensures held { result ≡ self.now ++ level ∷ [] }
        ensures above { All (λ l. IsBelow l level) self.now }
        ensures rising { IsRising result }
    {
        match level {
            Level::Mu => Held { mu: true, ..*self },
            Level::Share(leaf) => Held {
                share: Some(leaf),
                ..*self
            },
            Level::Win(leaf) => Held {
                win: Some(leaf),
                ..*self
            },
        }
    }

    /// Whether the level is held.
    pub fn has(&self, level: Level) -> bool
        ensures member { IsTrue result ↔ Contains self.now level }
        ensures rising { IsRising self.now }
    {
        match level {
            Level::Mu => self.mu,
            Level::Share(leaf) => self.share == Some(leaf),
            Level::Win(leaf) => self.win == Some(leaf),
        }
    }

    /// Whether both hold the same levels.
    pub fn same(&self, other: &Held) -> bool
        ensures { IsTrue result ↔ (self.now ≡ other.now) }
    {
        self.mu == other.mu && self.share == other.share && self.win == other.win
    }

    /// Whether the tree's lock is held, the leaf whose share is held, and the one whose window is.
    pub fn parts(&self) -> (bool, Option<LeafId>, Option<LeafId>)
        ensures { self.now ≡ levels_of result.0 result.1 result.2 }
    {
        (self.mu, self.share, self.win)
    }
}
