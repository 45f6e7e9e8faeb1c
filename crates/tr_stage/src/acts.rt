ghost use Rattle.std.specs.Prelude.{◌≡◌, ◌<◌, [], true, length, slice_get, Some, None, IfOk, IfSome, OnOk, OnErr};
ghost use Rattle.tr_journal.specs.Openings.{tree_of};
ghost use Rattle.tr_journal.specs.Steps.{IsFor};
ghost use Rattle.tr_paint.specs.Traces.{Look, look_of};
ghost use Rattle.tr_paint.specs.Patches.{IsPatch};
ghost use Rattle.tr_client.specs.Laws.{IsWindowSize};
ghost use Rattle.tr_desk.specs.Desks.{selection_owner};
ghost use Rattle.tr_machine.specs.States.{changed_at};
ghost use Rattle.tr_machine.specs.Machines as machine;
ghost use Rattle.tr_windows.specs.Presents.{Present, act_on};
ghost use Rattle.tr_stage.specs.Making.{Makes};
ghost use Rattle.tr_stage.specs.Stages.{is_note, state};

use crate::lines::{By, write};
use crate::stages::Stage;
use tr_base::{Command, Env, LeafId, NoMemory, Rect, Selection, Size};
use tr_client::Client;
use tr_desk::DeskFault;
use tr_journal::{Answer, Reply, Step};
use tr_spot::leaf_size;
use tr_windows::Windows;

impl<C: Client> Stage<C> {
    /// A command changes the content of a leaf, and its paint commands wait.
    #[inline(always)]
    pub(crate) fn act(&mut self, by: &By, leaf: LeafId, cmd: C::Cmd) -> Result<Reply, NoMemory>
        requires allowed { let t = (tree_of self.old.opening).nodes in
            IsFor t by.now.actor by.now.level (Step.Act leaf cmd) }
        ensures made { Makes C.Client self.old self.new by.now.actor by.now.level
            (Step.Act leaf cmd) result }
        ensures screen { self.new.screen ≡ self.old.screen }
    {
        let Ok(()) = self.journal.reserve(1) else {
            drop(cmd);
            return Err(NoMemory);
        };
        let tree = self.surface.tree();
        let env = Env {
            kind: tree.kind(),
            font: self.opening.font(),
        };
        let size = leaf_size(tree, leaf);
        let Ok(()) = self.windows.act(leaf, &env, size, &cmd) else {
            drop(cmd);
            return Err(NoMemory);
        };
        let entry = by.entry(Step::Act { leaf, cmd }, Answer::Done, 0);
        Ok(write(&mut self.journal, entry, Answer::Done, &[]))
    }

    /// A part of a leaf's window needs to be painted again.
    pub(crate) fn mark(&mut self, by: &By, leaf: LeafId, clip: Rect) -> Result<Reply, NoMemory>
        requires allowed { let t = (tree_of self.old.opening).nodes in
            IsFor {M = C.Cmd} t by.now.actor by.now.level (Step.Mark leaf clip) }
        ensures made { Makes C.Client self.old self.new by.now.actor by.now.level
            (Step.Mark leaf clip) result }
        ensures screen { self.new.screen ≡ self.old.screen }
    {
        self.journal.reserve(1)?;
        let size = leaf_size(self.surface.tree(), leaf);
        self.windows.mark(leaf, size, &clip)?;
        let entry = by.entry(Step::Mark { leaf, clip }, Answer::Done, 0);
        Ok(write(&mut self.journal, entry, Answer::Done, &[]))
    }

    /// Takes the oldest event from a leaf's inbox, and the leaf obeys the command that its content gives for
    /// it, if there is one.
    pub(crate) fn take(&mut self, by: &By, leaf: LeafId) -> Result<Reply, NoMemory>
        requires allowed { let t = (tree_of self.old.opening).nodes in
            IsFor {M = C.Cmd} t by.now.actor by.now.level (Step.Take leaf) }
        ensures made { Makes C.Client self.old self.new by.now.actor by.now.level
            (Step.Take leaf) result }
        ensures screen { self.new.screen ≡ self.old.screen }
    {
        self.journal.reserve(1)?;
        let tree = self.surface.tree();
        let Some(event) = self.mail.front(leaf) else {
            let entry = by.entry(Step::Take { leaf }, Answer::Empty, 0);
            return Ok(write(&mut self.journal, entry, Answer::Empty, &[]));
        };
        let asked = self.windows.content(leaf).react(self.alloc, &event)?;
        let env = Env {
            kind: tree.kind(),
            font: self.opening.font(),
        };
        let size = leaf_size(tree, leaf);
        let obeyed = obey(&mut self.windows, leaf, &env, size, &asked);
        drop(asked);
        obeyed?;
        let _taken = self.mail.take(leaf);
        let entry = by.entry(Step::Take { leaf }, Answer::Taken(event), 0);
        Ok(write(&mut self.journal, entry, Answer::Taken(event), &[]))
    }

    /// A leaf reads the value of a selection's owner.
    pub(crate) fn read(
        &mut self,
        by: &By,
        leaf: LeafId,
        selection: Selection,
    ) -> Result<Reply, NoMemory>
        requires allowed { let t = (tree_of self.old.opening).nodes in
            IsFor {M = C.Cmd} t by.now.actor by.now.level (Step.Read leaf selection) }
        ensures made { Makes C.Client self.old self.new by.now.actor by.now.level
            (Step.Read leaf selection) result }
        ensures screen { self.new.screen ≡ self.old.screen }
    {
        self.journal.reserve(1)?;
        self.surface.invariant();
        let answer = self.value_of(selection)?;
        let told = answer.copy()?;
        let entry = by.entry(Step::Read { leaf, selection }, answer, 0);
        Ok(write(&mut self.journal, entry, told, &[]))
    }

    /// The answer to a reader of the value of a selection's owner.
    fn value_of(&self, selection: Selection) -> Result<Answer, NoMemory>
        ensures { let m = state C.Client self.now in
            IfOk result (λ answer. answer ≡ machine.read C.Client (selection_owner m.mail.desk selection) m) }
    {
        self.mail.invariant();
        match self.mail.desk().owner(selection) {
            None => Ok(Answer::Desk(DeskFault::Unowned)),
            Some(owner) => Ok(Answer::Value(self.windows.content(owner).value(self.alloc)?)),
        }
    }

    /// A step that adds a line to the journal, and changes nothing else.
    pub(crate) fn note(&mut self, by: &By, step: Step<C::Cmd>) -> Result<Reply, NoMemory>
        requires note { is_note step ≡ true }
        requires allowed { IsFor (tree_of self.old.opening).nodes by.now.actor by.now.level step }
        ensures made { Makes C.Client self.old self.new by.now.actor by.now.level step result }
        ensures screen { self.new.screen ≡ self.old.screen }
    {
        self.journal.reserve(1)?;
        self.surface.invariant();
        let entry = by.entry(step, Answer::Done, 0);
        Ok(write(&mut self.journal, entry, Answer::Done, &[]))
    }
}

/// A leaf's window of this size obeys a command, if there is one.
fn obey<C: Client>(
    windows: &mut Windows<C>,
    leaf: LeafId,
    env: &Env,
    size: Size,
    asked: &Option<C::Cmd>,
) -> Result<(), NoMemory>
    requires leaf { leaf.0 < length windows.old }
    requires size { IsWindowSize size }
    ensures none { asked.now ≡ None → windows.new ≡ windows.old }
    ensures ok { let look = look_of env.now.kind env.now.font.now in
        OnOk result (IfSome asked.now (λ cmd.
        windows.new ≡ changed_at leaf.0 (act_on C.Client look size cmd) windows.old)) }
    ensures patch { (look : Look) (w : Present C) → slice_get windows.old leaf.0 ≡ Some w →
        IfSome asked.now (λ cmd. IsPatch look size (C.patch look size w.content cmd)
        (C.pic look size w.content) (C.pic look size (C.next w.content cmd))) }
    ensures err { OnErr result (windows.new ≡ windows.old) }
{
    if let Some(cmd) = asked {
        windows.act(leaf, env, size, cmd)?;
    }
    Ok(())
}
