ghost use Rattle.std.specs.Prelude.{◌≡◌, ◌<◌, ◌≤◌, ◌+◌, []};
ghost use Rattle.tr_journal.specs.Openings.{tree_of};
ghost use Rattle.tr_journal.specs.Steps.{IsFor};
ghost use Rattle.tr_stage.specs.Making.{Makes};

use crate::lines::{By, write, write_told};
use crate::stages::Stage;
use tr_base::{LeafId, NoMemory, Point, Selection};
use tr_cage::Cage;
use tr_client::Client;
use tr_journal::{Answer, Reply, Step};

impl<C: Client> Stage<C> {
    /// A button goes down or up.
    pub(crate) fn mouse(&mut self, by: &By, time: u32, button: u8, down: bool) -> Reply
        requires spare { 0 < self.old.spare }
        requires allowed { let t = (tree_of self.old.opening).nodes in
            IsFor {M = C.Cmd} t by.now.actor by.now.level (Step.Mouse time button down) }
        ensures made { Makes C.Client self.old self.new by.now.actor by.now.level
            (Step.Mouse time button down) (Ok result) }
        ensures screen { self.new.screen ≡ self.old.screen }
        ensures spare { self.old.spare ≤ self.new.spare + 1 }
    {
        let told = self
            .mail
            .mouse(self.surface.tree(), time, button, down, &mut self.sent);
        let step = Step::Mouse { time, button, down };
        write_told(&mut self.journal, by, step, told, &self.sent)
    }

    /// The cursor moves.
    pub(crate) fn motion(&mut self, by: &By, time: u32, at: Point) -> Reply
        requires spare { 0 < self.old.spare }
        requires allowed { let t = (tree_of self.old.opening).nodes in
            IsFor {M = C.Cmd} t by.now.actor by.now.level (Step.Motion time at) }
        ensures made { Makes C.Client self.old self.new by.now.actor by.now.level
            (Step.Motion time at) (Ok result) }
        ensures screen { self.new.screen ≡ self.old.screen }
        ensures spare { self.old.spare ≤ self.new.spare + 1 }
    {
        let told = self
            .mail
            .motion(self.surface.tree(), time, at, &mut self.sent);
        let step = Step::Motion { time, at };
        write_told(&mut self.journal, by, step, told, &self.sent)
    }

    /// A key is struck.
    pub(crate) fn key(&mut self, by: &By, time: u32, code: u8) -> Reply
        requires spare { 0 < self.old.spare }
        requires allowed { let t = (tree_of self.old.opening).nodes in
            IsFor {M = C.Cmd} t by.now.actor by.now.level (Step.Key time code) }
        ensures made { Makes C.Client self.old self.new by.now.actor by.now.level
            (Step.Key time code) (Ok result) }
        ensures screen { self.new.screen ≡ self.old.screen }
        ensures spare { self.old.spare ≤ self.new.spare + 1 }
    {
        self.surface.invariant();
        let told = self.mail.key(time, code, &mut self.sent);
        let step = Step::Key { time, code };
        write_told(&mut self.journal, by, step, told, &self.sent)
    }

    /// A leaf asks for another cage.
    pub(crate) fn set_cage(&mut self, by: &By, leaf: LeafId, cage: Cage) -> Reply
        requires spare { 0 < self.old.spare }
        requires allowed { let t = (tree_of self.old.opening).nodes in
            IsFor {M = C.Cmd} t by.now.actor by.now.level (Step.SetCage leaf cage) }
        ensures made { Makes C.Client self.old self.new by.now.actor by.now.level
            (Step.SetCage leaf cage) (Ok result) }
        ensures screen { self.new.screen ≡ self.old.screen }
        ensures spare { self.old.spare ≤ self.new.spare + 1 }
    {
        let same = same_cage(&cage);
        self.mail
            .set_cage(self.surface.tree(), leaf, same, &mut self.sent);
        let entry = by.entry(Step::SetCage { leaf, cage }, Answer::Done, self.sent.len());
        write(&mut self.journal, entry, Answer::Done, self.sent.as_slice())
    }

    /// A leaf takes a selection.
    pub(crate) fn own(
        &mut self,
        by: &By,
        leaf: LeafId,
        selection: Selection,
        time: u32,
    ) -> Result<Reply, NoMemory>
        requires allowed { let t = (tree_of self.old.opening).nodes in
            IsFor {M = C.Cmd} t by.now.actor by.now.level (Step.Own leaf selection time) }
        ensures made { Makes C.Client self.old self.new by.now.actor by.now.level
            (Step.Own leaf selection time) result }
        ensures screen { self.new.screen ≡ self.old.screen }
    {
        self.surface.invariant();
        self.journal.reserve(1)?;
        let told = self.mail.own(leaf, selection, time, &mut self.sent);
        let step = Step::Own {
            leaf,
            selection,
            time,
        };
        Ok(write_told(&mut self.journal, by, step, told, &self.sent))
    }

    /// A leaf gives a selection up.
    pub(crate) fn disown(
        &mut self,
        by: &By,
        leaf: LeafId,
        selection: Selection,
    ) -> Result<Reply, NoMemory>
        requires allowed { let t = (tree_of self.old.opening).nodes in
            IsFor {M = C.Cmd} t by.now.actor by.now.level (Step.Disown leaf selection) }
        ensures made { Makes C.Client self.old self.new by.now.actor by.now.level
            (Step.Disown leaf selection) result }
        ensures screen { self.new.screen ≡ self.old.screen }
    {
        self.surface.invariant();
        self.journal.reserve(1)?;
        let told = self.mail.disown(leaf, selection, &mut self.sent);
        let step = Step::Disown { leaf, selection };
        Ok(write_told(&mut self.journal, by, step, told, &self.sent))
    }
}

/// A copy of a cage: one is passed on, and one gets into the journal.
fn same_cage(cage: &Cage) -> Cage
    ensures { result ≡ cage.now }
{
    *cage
}
