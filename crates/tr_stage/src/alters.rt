ghost use Rattle.std.specs.Prelude.{◌≡◌, [], false, IfOk};
ghost use Rattle.tr_journal.specs.Openings.{tree_of};
ghost use Rattle.tr_journal.specs.Steps.{IsFor};
ghost use Rattle.tr_stage.specs.Making.{Makes};
ghost use Rattle.tr_stage.specs.Stages.{paints};

use crate::lines::{By, write};
use crate::stages::Stage;
use tr_base::NoMemory;
use tr_client::Client;
use tr_forest::{Edit, EditRefused};
use tr_journal::{Answer, Reply, Step};

impl<C: Client> Stage<C> {
    /// Edits the tree of windows, if the edit isn't refused. A good point stays good if it shows the same as
    /// before, in its place or moved along with a child, or if its window keeps it. The windows get events
    /// of the edit.
    pub(crate) fn alter(&mut self, by: &By, edit: Edit) -> Result<Reply, NoMemory>
        requires allowed { let t = (tree_of self.old.opening).nodes in
            IsFor {M = C.Cmd} t by.now.actor by.now.level (Step.Alter edit) }
        ensures made { Makes C.Client self.old self.new by.now.actor by.now.level
            (Step.Alter edit) result }
        ensures screen { let made = Step.Alter edit in
            IfOk result (λ r. paints {M = C.Cmd} made r.answer ≡ false → self.new.screen ≡ self.old.screen) }
    {
        self.surface.invariant();
        self.mail.invariant();
        self.windows.obeys_keeping();
        // An edit may send two deliveries to each leaf instead of one.
        self.journal.reserve(2)?;
        match self.surface.alter(&edit, &self.windows) {
            Ok(was) => {
                let is = self.surface.tree();
                was.domains_are_small();
                is.domains_are_small();
                self.windows.refit(&was, is);
                self.mail.edited_by(&was, is, &edit, &mut self.sent);
                self.surface.keep_former(was, edit);
                let entry = by.entry(Step::Alter { edit }, Answer::Done, self.sent.len());
                Ok(write(&mut self.journal, entry, Answer::Done, self.sent.as_slice()))
            }
            Err(EditRefused::Fault(fault)) => {
                let entry = by.entry(Step::Alter { edit }, Answer::Tree(fault), 0);
                Ok(write(&mut self.journal, entry, Answer::Tree(fault), &[]))
            }
            Err(EditRefused::NoMemory) => Err(NoMemory),
        }
    }
}
