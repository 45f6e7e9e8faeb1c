//! The script of a session, so far.
ghost use Rattle.std.specs.Prelude.{◌≡◌, ◌≤◌, ◌+◌, ◌++◌, ◌∷◌, [], true, false, ◌&&◌, ◌||◌, Some, None, if◌then◌else◌, length, IfOk, IfErr, IfSome, OnOk, OnErr};
ghost use Rattle.tr_gen.specs.Scripts.{text_of_lines};
ghost use Rattle.tr_grammar.specs.declared.Place.TheVariants.{Gap};
ghost use Rattle.tr_grammar.specs.declared.Code.TheVariants.{B8, B9};
ghost use Rattle.tr_grammar.specs.Faults.{allows, fault_of, step_line};
ghost use Rattle.tr_grammar.specs.Scripts.{after_line};
ghost use Rattle.tr_grammar.specs.States.{nothing_yet};
ghost use Rattle.tr_grammar.specs.Texts.{is_plain, is_silent};
ghost use Rattle.tr_grammar.specs.Words.{word_at, words_of};
ghost use Rattle.tr_reader.specs.Adding.{IsSoundMeaning};
ghost use Rattle.tr_script.specs.Apart.{meaning_of_line};
ghost use Rattle.tr_session.specs.Answering.{ClaimsFault, behind_sort, is_end, sort_ends_steps, tried_by};
ghost use Rattle.tr_session.specs.Lines.{sync_lines};
ghost use Rattle.tr_session.specs.Saving.{ending};

use crate::errors::Unanswered;
use crate::saving::Saved;
use crate::sorts::LineSort;
use bumpalo::Bump;
use std::alloc::Global;
use tr_base::NoMemory;
use tr_grammar::{Code, Meaning};
use tr_reader::Reader;
use tr_script::{meaning_of_line, take_line};
use tr_words::{is_silent, plain_text};

/// The script so far: the meaning of its lines up to `begin`, and its lines.
#[derive(Drop)]
pub(crate) struct Script<'a> {
    /// The lines up to `begin`. Later lines are read by it and not added to it.
    pub(crate) reader: Reader<'a>,
    pub(crate) saved: Saved,
    /// Whether the last line that isn't silent made a step.
    pub(crate) is_behind_step: bool,
    /// Whether the end was read.
    pub(crate) has_ended: bool,
}

impl<'a> Script<'a> {
    /// No line.
    pub(crate) fn new(alloc: Global) -> Script<'a>
        ensures reader { result.reader ≡ nothing_yet }
        ensures lines { result.saved.lines ≡ [] }
        ensures behind { result.is_behind_step ≡ false }
        ensures ended { result.has_ended ≡ false }
    {
        Script {
            reader: Reader::new(alloc),
            saved: Saved::new(alloc),
            is_behind_step: false,
            has_ended: false,
        }
    }

    /// Takes a line up to `begin`. The arena keeps it, since the reader borrows the names in it.
    pub(crate) fn take(
        &mut self,
        alloc: Global,
        arena: &'a Bump,
        line: &[u8],
    ) -> Result<(), Unanswered>
        ensures none { OnOk result (fault_of self.old.reader 1 line.now ≡ None) }
        ensures next { OnOk result (self.new.reader ≡ after_line self.old.reader line.now) }
        ensures fault { IfErr result (ClaimsFault (fault_of self.old.reader 1 line.now)) }
        ensures err { OnErr result (self.new.reader ≡ self.old.reader) }
        ensures saved { self.new.saved ≡ self.old.saved }
        ensures behind { self.new.is_behind_step ≡ self.old.is_behind_step }
        ensures ended { self.new.has_ended ≡ self.old.has_ended }
    {
        let kept: &'a [u8] = arena.try_alloc_slice_copy(line)?;
        let mut words = Vec::new(alloc);
        take_line(alloc, &mut self.reader, &mut words, 1, kept)?;
        Ok(())
    }

    /// Whether `begin` was read.
    pub(crate) fn has_begun(&self) -> bool
        ensures { result ≡ allows self.now.reader.place step_line }
    {
        self.reader.in_steps().is_ok()
    }

    /// The meaning of a line after `begin`, if it isn't silent.
    pub(crate) fn read(&self, alloc: Global, line: &[u8]) -> Result<Option<Meaning>, Unanswered>
        requires { self.now.reader.place ≡ Gap }
        ensures none { OnOk result
            (fault_of (tried_by self.now.reader self.now.has_ended) 1 line.now ≡ None) }
        ensures meaning { IfOk result (λ said. said ≡
            meaning_of_line (tried_by self.now.reader self.now.has_ended) line.now) }
        ensures sound { IfOk result (λ said. IfSome said
            (IsSoundMeaning self.now.reader (word_at (words_of line.now) 1))) }
        ensures fault { IfErr result
            (ClaimsFault (fault_of (tried_by self.now.reader self.now.has_ended) 1 line.now)) }
    {
        if self.has_ended {
            return silent_line(line);
        }
        Ok(meaning_of_line(alloc, &self.reader, line)?)
    }

    /// Whether a script has a sync between the last line and this one.
    pub(crate) fn needs_sync(&self, sort: LineSort) -> bool
        ensures { result ≡ (self.now.is_behind_step && sort_ends_steps sort) }
    {
        self.is_behind_step && sort.ends_steps()
    }

    /// Adds a sync, if one was made. There is room for it.
    pub(crate) fn keep_sync(&mut self, is_made: bool)
        requires room { 5 ≤ self.old.saved.room }
        ensures lines { self.new.saved.lines ≡ self.old.saved.lines ++ sync_lines is_made }
        ensures room { self.old.saved.room ≤ self.new.saved.room + 5 }
        ensures reader { self.new.reader ≡ self.old.reader }
        ensures behind { self.new.is_behind_step ≡ (if is_made then false else self.old.is_behind_step) }
        ensures ended { self.new.has_ended ≡ self.old.has_ended }
    {
        if is_made {
            self.saved.push_sync();
            self.is_behind_step = false;
        }
    }

    /// Adds a line that was played. There is room for it.
    pub(crate) fn keep(&mut self, line: &[u8], sort: LineSort)
        requires room { length line.now + 1 ≤ self.old.saved.room }
        requires plain { is_plain line.now ≡ true }
        ensures lines { self.new.saved.lines ≡ self.old.saved.lines ++ line.now ∷ [] }
        ensures reader { self.new.reader ≡ self.old.reader }
        ensures behind { self.new.is_behind_step ≡ behind_sort sort self.old.is_behind_step }
        ensures ended { self.new.has_ended ≡ self.old.has_ended || is_end sort }
    {
        self.saved.push(line);
        self.is_behind_step = sort.is_behind_step(self.is_behind_step);
        self.has_ended = self.has_ended || sort == LineSort::End;
    }

    /// The text of the lines so far and those that make a script of them.
    pub(crate) fn whole(&self, alloc: Global) -> Result<Vec<u8>, NoMemory>
        ensures { IfOk result (λ text. text.items ≡ text_of_lines
            (self.now.saved.lines ++ ending self.now.is_behind_step self.now.has_ended)) }
    {
        self.saved.whole(alloc, self.is_behind_step, self.has_ended)
    }
}

/// A line after the end: it is silent, or has a fault.
fn silent_line(line: &[u8]) -> Result<Option<Meaning>, Unanswered>
    ensures ok { IfOk result (λ said. (said ≡ None)
        × (is_plain line.now ≡ true) × (is_silent line.now ≡ true)) }
    ensures fault { IfErr result (ClaimsFault
        (if is_plain line.now then (if is_silent line.now then None else Some B8) else Some B9)) }
{
    let Some(text) = plain_text(line) else {
        return Err(Unanswered::Fault(Code::B9));
    };
    if !is_silent(text) {
        return Err(Unanswered::Fault(Code::B8));
    }
    Ok(None)
}
