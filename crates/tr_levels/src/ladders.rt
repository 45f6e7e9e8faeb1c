ghost use Rattle.std.specs.Prelude.{◌≡◌, []};

use crate::held_levels::Held;
use std::marker::Model;

/// The token of a thread: it says which levels the thread holds. It must be spent, and `end` requires
/// that no level is held.
pub struct Ladder {
    held: Held,
}

impl Model for Ladder {
    ghost use Rattle.std.specs.Prelude.{List};
    ghost use Rattle.tr_levels.specs.declared.levels.Level.{Level};

    ghost Value = { List Level };

    ghost view = { λ l. l.held };
}

impl Ladder {
    /// The token of a thread that holds no level.
    pub fn ground() -> Ladder
        ensures { result ≡ [] }
    {
        Ladder { held: Held::none() }
    }

    /// The levels that the thread holds.
    pub fn held(&self) -> Held
        ensures { result ≡ self.now }
    {
        self.held
    }

    /// Spends the token of a thread that holds no level.
    pub fn end(self)
        requires { self ≡ [] }
    {
        let Ladder { held: _ } = self;
    }
}
