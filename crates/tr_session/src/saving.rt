//! The text of the script so far.
ghost use Rattle.std.specs.Prelude.{◌≡◌, ◌≤◌, ◌+◌, ◌++◌, ◌∷◌, [], true, OnOk, OnErr, IfOk, is_some, codes, length};
ghost use Rattle.tr_grammar.specs.Texts.{is_plain, lines_of};
ghost use Rattle.tr_grammar.specs.Scripts.{refusal_of};
ghost use Rattle.tr_gen.specs.Scripts.{text_of_lines};
ghost use Rattle.tr_session.specs.Lines.{sync_lines};
ghost use Rattle.tr_session.specs.Saving.{ending};

use std::alloc::Global;
use std::marker::Model;
use tr_base::NoMemory;
use tr_grammar::ReadRefused;
use tr_script::read_script;

/// The lines of the script so far, each with its line feed.
#[derive(Drop)]
pub(crate) struct Saved {
    text: Vec<u8>,
}

impl Model for Saved {
    ghost use Rattle.tr_session.specs.Saving.{Saved as SeenSaved, saved_view, IsSaved};

    ghost Value = { SeenSaved };

    ghost view = { saved_view };

    ghost invariant = { IsSaved };
}

impl Saved {
    /// No line.
    pub(crate) fn new(alloc: Global) -> Saved
        ensures { result.lines ≡ [] }
    {
        Saved {
            text: Vec::new(alloc),
        }
    }

    /// The text of the lines.
    pub(crate) fn text(&self) -> &[u8]
        ensures text { result.now ≡ text_of_lines self.now.lines }
        ensures lines { lines_of result.now ≡ self.now.lines }
    {
        &self.text
    }

    /// Makes room for a line and for a sync before it.
    pub(crate) fn reserve(&mut self, line: &[u8]) -> Result<(), NoMemory>
        ensures lines { self.new.lines ≡ self.old.lines }
        ensures room { OnOk result (length line.now + 6 ≤ self.new.room) }
    {
        Ok(self.text.reserve(line.len() + 6)?)
    }

    /// Adds a line, for which there is room.
    pub(crate) fn push(&mut self, line: &[u8])
        requires room { length line.now + 1 ≤ self.old.room }
        requires plain { is_plain line.now ≡ true }
        ensures lines { self.new.lines ≡ self.old.lines ++ line.now ∷ [] }
        ensures room { self.old.room ≤ self.new.room + (length line.now + 1) }
    {
        self.text.extend_from_slice(line).unwrap();
        self.text.extend_from_slice(b"\n").unwrap();
    }

    /// Adds a sync, for which there is room.
    pub(crate) fn push_sync(&mut self)
        requires room { 5 ≤ self.old.room }
        ensures lines { self.new.lines ≡ self.old.lines ++ sync_lines true }
        ensures room { self.old.room ≤ self.new.room + 5 }
    {
        self.push(b"sync");
    }

    /// The text of the lines so far, this one and the end.
    pub(crate) fn opening(&self, alloc: Global, line: &[u8]) -> Result<Vec<u8>, NoMemory>
        requires { is_plain line.now ≡ true }
        ensures text { IfOk result (λ text. text.items
            ≡ text_of_lines (self.now.lines ++ line.now ∷ codes "end" ∷ [])) }
        ensures lines { IfOk result (λ text. lines_of text.items
            ≡ self.now.lines ++ line.now ∷ codes "end" ∷ []) }
    {
        let mut text = Vec::from_slice(alloc, &self.text)?;
        text.extend_from_slice(line)?;
        text.extend_from_slice(b"\nend\n")?;
        Ok(text)
    }

    /// The text of the whole script: the lines so far, a sync if the last of them made a step, and the end
    /// if it is missing.
    pub(crate) fn whole(
        &self,
        alloc: Global,
        is_behind_step: bool,
        has_ended: bool,
    ) -> Result<Vec<u8>, NoMemory>
        ensures { IfOk result (λ text. text.items
            ≡ text_of_lines (self.now.lines ++ ending is_behind_step has_ended)) }
    {
        let mut text = Vec::from_slice(alloc, &self.text)?;
        text.extend_from_slice(ending_text(is_behind_step, has_ended))?;
        Ok(text)
    }
}

/// The text of the lines after those so far in a whole script.
fn ending_text(is_behind_step: bool, has_ended: bool) -> &'static [u8]
    ensures { result.now ≡ text_of_lines (ending is_behind_step has_ended) }
{
    if has_ended {
        b""
    } else if is_behind_step {
        b"sync\nend\n"
    } else {
        b"end\n"
    }
}

/// Whether a text is no script.
pub(crate) fn is_refused(alloc: Global, text: &[u8]) -> Result<bool, NoMemory>
    ensures { IfOk result (λ refused. refused ≡ is_some (refusal_of text.now)) }
{
    match read_script(alloc, text) {
        Ok(script) => {
            drop(script);
            Ok(false)
        }
        Err(ReadRefused::Refused { .. }) => Ok(true),
        Err(ReadRefused::NoMemory) => Err(NoMemory),
    }
}
