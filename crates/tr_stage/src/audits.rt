ghost use Rattle.std.specs.Prelude.{◌≡◌, ◌↔◌, IsNone, IfOk, IfSome, length};
ghost use Rattle.tr_forest.specs.Nodes.{leaf_count};
ghost use Rattle.tr_journal.specs.Differences.{IsFirstDiffering, Matches, account_of};
ghost use Rattle.tr_journal.specs.Openings.{tree_of};

use crate::stages::Stage;
use tr_audit::first_apart;
use tr_base::NoMemory;
use tr_client::Client;
use tr_journal::{Apart, Difference, Journal, Lists, Opening};

impl<C: Client> Stage<C> {
    /// Compares the stage with the arguments, and returns the first difference: the opening with
    /// `opening`, the first entries of the journal with `kept`, and in the later entries each actor's steps
    /// with the actor's list. It doesn't compare events that steps sent, nor the painter's steps.
    pub fn audit(
        &self,
        opening: &Opening<C>,
        kept: &Journal<C::Cmd>,
        lists: &Lists<C::Cmd>,
    ) -> Result<Option<Difference<C::Cmd>>, NoMemory>
        requires { length lists.now.leaves ≡ leaf_count (tree_of self.now.opening).nodes }
        ensures none { let made = account_of opening.now kept.now.lines in
            let found = account_of self.now.opening self.now.journal in
            IfOk result (λ d. IsNone d ↔ Matches made lists.now found) }
        ensures first { let made = account_of opening.now kept.now.lines in
            let found = account_of self.now.opening self.now.journal in
            IfOk result (λ d. IfSome d (IsFirstDiffering made lists.now found)) }
    {
        if let Some(place) = opening.first_difference(&self.opening) {
            let what = Apart::Opening;
            return Ok(Some(Difference { place, what }));
        }
        first_apart(self.alloc, kept, lists, &self.journal)
    }
}
