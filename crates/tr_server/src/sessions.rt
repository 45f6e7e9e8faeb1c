ghost use Rattle.std.specs.Prelude.{ℕ, List, []};
ghost use Rattle.tr_journal.specs.Journals.{JournalLine};

use std::marker::Brand;
use std::sync::ledger::Ledger;

/// The name of one session. It serves contracts alone: its numbers are those of the opening's nodes and
/// leaves, and of the journal's entries at the session's start; `kept` has these entries, and `font` is the
/// opening's font. A function that is generic in it runs one session. The caller calls the function with
/// `Brand`, and defines these members in its call.
pub trait Session<M>: Ledger + Send + Sync {
    ghost nodes: { ℕ };

    ghost leaves: { ℕ };

    ghost entries: { ℕ };

    ghost kept: { List (JournalLine M) };

    ghost font: { List (List ℕ) };
}

impl<M> Session<M> for Brand {
    ghost nodes = { 0 };

    ghost leaves = { 0 };

    ghost entries = { 0 };

    ghost kept = { [] };

    ghost font = { [] };
}
