ghost use Rattle.std.specs.Prelude.{◌≡◌, ◌++◌, IfOk, OnOk, OnErr};
ghost use Rattle.tr_paint.specs.Traces.{look_of};
ghost use Rattle.tr_client.specs.Laws.{IsWindowSize};
ghost use Rattle.w_edit.specs.Contents as spec;
ghost use Rattle.w_edit.specs.Flat.{flat_text, flat_next};
ghost use Rattle.w_edit.specs.Pictures.{editor_patch};

use crate::commands::EditorCmd;
use crate::editors::Editor;
use std::alloc::Global;
use tr_base::{Command, Env, Event, Line, NoMemory, Rect, Size, is_printable};
use tr_client::{Client, keeps_nothing, kept_part, part_of_window};
use tr_paint::Batch;

impl Client for Editor {
    ghost use Rattle.w_edit.specs.Contents.{IsContents, editor_next, editor_answer, editor_value};
    ghost use Rattle.w_edit.specs.Pictures.{editor_pic, editor_patch, editor_keeps};
    ghost use Rattle.w_edit.specs.ContentsLaws.{editor_contents, editor_answers};
    ghost use Rattle.w_edit.specs.EditorLaws.{editor_patches, editor_empty_patches, editor_keeping, editor_kinds};

    type Cmd = EditorCmd;

    ghost valid = { IsContents };

    ghost pic = { editor_pic };

    ghost next = { editor_next };

    ghost patch = { editor_patch };

    ghost answer = { editor_answer };

    ghost value = { editor_value };

    ghost keeps = { editor_keeps };

    fn copy(&self, alloc: Global) -> Result<Editor, NoMemory> {
        self.invariant();
        let copy = self.copy_of(alloc)?;
        Ok(copy)
    }

    fn same(&self, other: &Editor) -> bool {
        self.invariant();
        other.invariant();
        self.is(other)
    }

    fn paint(&self, alloc: Global, _env: &Env, size: Size, clip: Rect) -> Result<Batch, NoMemory> {
        self.invariant();
        let batch = self.paints(alloc, size, &part_of_window(size, &clip))?;
        Ok(batch)
    }

    fn change(
        &self,
        alloc: Global,
        _env: &Env,
        size: Size,
        cmd: &EditorCmd,
    ) -> Result<(Editor, Batch), NoMemory>
        requires { IsWindowSize size }
        ensures valid { spec.IsContents self.now }
        ensures command { spec.IsEditorCmd cmd.now }
        ensures next { IfOk result (λ r. r.0 ≡ spec.editor_next self.now cmd.now) }
        ensures patch { let look = look_of _env.now.kind _env.now.font.now in
            IfOk result (λ r. r.1 ≡ editor_patch look size self.now cmd.now) }
        ensures flat { IfOk result (λ r. flat_text r.0 ≡ flat_next (flat_text self.now) cmd.now) }
    {
        self.invariant();
        cmd.known();
        let change = self.changed(alloc, size, cmd)?;
        Ok(change)
    }

    fn apply(
        &mut self,
        alloc: Global,
        _env: &Env,
        size: Size,
        cmd: &EditorCmd,
        batch: &mut Batch,
    ) -> Result<(), NoMemory>
        requires { IsWindowSize size }
        ensures valid { spec.IsContents self.old }
        ensures command { spec.IsEditorCmd cmd.now }
        ensures content_ok { OnOk result (self.new ≡ spec.editor_next self.old cmd.now) }
        ensures batch_ok { let look = look_of _env.now.kind _env.now.font.now in
            OnOk result (batch.new ≡ batch.old ++ editor_patch look size self.old cmd.now) }
        ensures content_err { OnErr result (self.new ≡ self.old) }
        ensures batch_err { OnErr result (batch.new ≡ batch.old) }
        ensures flat { OnOk result (flat_text self.new ≡ flat_next (flat_text self.old) cmd.now) }
    {
        self.invariant();
        cmd.known();
        let before = batch.len();
        if let Err(error) = self.take(alloc, size, cmd, batch) {
            batch.truncate(before);
            return Err(error);
        }
        Ok(())
    }

    fn react(&self, alloc: Global, event: &Event) -> Result<Option<EditorCmd>, NoMemory> {
        self.invariant();
        match *event {
            Event::Key { code, .. } if is_printable(code) => {
                let cmd = EditorCmd::Insert(Line::of(alloc, &[code])?);
                cmd.known();
                Ok(Some(cmd))
            }
            Event::Key { code: 8, .. } => Ok(Some(EditorCmd::Erase)),
            Event::Key { code: 13, .. } => Ok(Some(EditorCmd::Split)),
            _ => Ok(None),
        }
    }

    fn value(&self, _alloc: Global) -> Result<Line, NoMemory> {
        self.invariant();
        self.clip().copy()
    }

    fn keeps(&self, from: Size, to: Size) -> Rect {
        self.invariant();
        if self.top(from) == self.top(to) && self.shown(from).len() == self.shown(to).len() {
            kept_part(from, to)
        } else {
            keeps_nothing()
        }
    }

    ghost contents = { editor_contents };

    ghost answers = { editor_answers };

    ghost patches = { editor_patches };

    ghost empty_patches = { editor_empty_patches };

    ghost keeping = { editor_keeping };

    ghost kinds = { editor_kinds };
}
