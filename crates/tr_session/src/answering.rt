//! The answer to a line.
ghost use Rattle.std.specs.Prelude.{◌≡◌, ◌≢◌, ◌≤◌, ◌+◌, ◌++◌, [], true, false, Err, IfOk, IsSomeAnd, OnOk, OnErr, length};
ghost use Rattle.tr_journal.specs.Openings.{tree_of};
ghost use Rattle.tr_grammar.specs.States.{nothing_yet};
ghost use Rattle.tr_grammar.specs.Texts.{is_plain, lines_of};
ghost use Rattle.tr_session.specs.declared.errors.Unanswered.TheVariants as unanswered;
ghost use Rattle.tr_session.specs.Answers as spec;
ghost use Rattle.tr_session.specs.Answers.{Answer, ComesAfterLine, answer_bytes, text as texts};
ghost use Rattle.tr_session.specs.Insides.{HasItsLines, PartsAgree, Starts, session_view};
ghost use Rattle.tr_session.specs.Lines.{has_begun};
ghost use Rattle.tr_session.specs.Cuts.{AreCuts};
ghost use Rattle.tr_session.specs.Playing.{FollowsLine, IsMeant};
ghost use Rattle.tr_session.specs.Sessions.{AreTaken, script_so_far};
ghost use Rattle.tr_session.specs.Answering.{RepliesWith, Takes, Tells, TellsRefusal};

use crate::errors::{Lost, Unanswered};
use crate::playing::{Followed, Played};
use crate::replies::Reply;
use crate::requests::{Request, request_of};
use crate::saving::is_refused;
use crate::scripts::Script;
use crate::sessions::Session;
use crate::sorts::{LineSort, sort_of};
use tr_base::NoMemory;
use tr_grammar::{Code, Meaning};
use tr_output::Output;
use tr_words::first_line;

impl<'a> Session<'a> {
    /// Answers a line. Returns whether the session ends with it. After `Lost` the session can't go on.
    pub(crate) fn answer(&mut self, line: &[u8], reply: &mut Reply) -> Result<bool, Lost>
        requires { PartsAgree self.old }
        ensures answered { IfOk result (λ ends. (answer : Answer) × (reply.new ≡ answer_bytes answer)
            × ComesAfterLine (session_view self.old) line.now answer (session_view self.new)) }
        ensures ends { IfOk result (λ ends. ends ≡ spec.ends line.now) }
        ensures holds { OnOk result (PartsAgree self.new) }
    {
        match request_of(line) {
            Request::Save => {
                let answered = self.save(reply);
                tell_refusal(answered, reply)?;
                Ok(false)
            }
            Request::Cut => {
                let answered = self.cut(reply);
                tell_refusal(answered, reply)?;
                Ok(false)
            }
            Request::Quit => {
                reply.set_empty();
                Ok(true)
            }
            Request::Script => {
                let answered = self.take(line, reply);
                tell_refusal(answered, reply)?;
                Ok(false)
            }
        }
    }

    /// The script so far.
    fn save(&self, reply: &mut Reply) -> Result<(), Unanswered>
        requires { PartsAgree self.now }
        ensures { RepliesWith (spec.due_of_save (session_view self.now) (session_view self.now).screen)
            reply.new result }
    {
        if self.played.is_none() {
            return Err(Unanswered::Fault(Code::B5));
        }
        let text = self.script.whole(self.alloc)?;
        let is_beyond = is_refused(self.alloc, &text)?;
        reply.set_saved(text, is_beyond);
        Ok(())
    }

    /// The group that leads to the screen as it is.
    fn cut(&mut self, reply: &mut Reply) -> Result<(), Unanswered>
        requires { PartsAgree self.old }
        ensures answer { RepliesWith (spec.due_of_cut (session_view self.old) (session_view self.old).screen)
            reply.new result }
        ensures ok { OnOk result (session_view self.new
            ≡ spec.after_cut (session_view self.old) (session_view self.old).screen) }
        ensures err { OnErr result (session_view self.new ≡ session_view self.old) }
        ensures holds { PartsAgree self.new }
    {
        let Some(played) = &self.played else {
            return Err(Unanswered::Fault(Code::B5));
        };
        let mut group = Vec::new(self.alloc);
        self.cuts = self.cuts.cut(played.screen(), &mut group)?;
        reply.set_bytes(group);
        Ok(())
    }

    /// Takes a line of the script. If memory runs out once the line has changed the stage or the reader, the
    /// lines before it are taken again.
    fn take(&mut self, line: &[u8], reply: &mut Reply) -> Result<(), Unanswered>
        requires { PartsAgree self.old }
        ensures takes { Takes (session_view self.old) line.now reply.new result (session_view self.new) }
        ensures holds { result ≢ Err unanswered.Lost → PartsAgree self.new }
    {
        match self.take_once(line, reply) {
            Err(Unanswered::Lost) => match self.take_again(reply) {
                Ok(()) => Err(Unanswered::NoMemory),
                Err(Lost) => Err(Unanswered::Lost),
            },
            taken => taken,
        }
    }

    /// Takes the lines so far again, from the first one on.
    fn take_again(&mut self, reply: &mut Reply) -> Result<(), Lost>
        requires taken { AreTaken nothing_yet self.old.script.saved.lines }
        requires cuts { AreCuts self.old.cuts }
        ensures { OnOk result (HasItsLines self.old self.new × PartsAgree self.new) }
    {
        drop(self.played.take());
        let before = std::mem::replace(&mut self.script, Script::new(self.alloc));
        let taken = self.take_lines(before.saved.text(), reply);
        drop(before);
        taken
    }

    /// Takes lines, each of which was taken once before.
    fn take_lines(&mut self, text: &[u8], reply: &mut Reply) -> Result<(), Lost>
        requires holds { PartsAgree self.old }
        requires taken { AreTaken (script_so_far (session_view self.old)) (lines_of text.now) }
        ensures lines { OnOk result
            (self.new.script.saved.lines ≡ self.old.script.saved.lines ++ lines_of text.now) }
        ensures cuts { OnOk result (self.new.cuts ≡ self.old.cuts) }
        ensures holds { OnOk result (PartsAgree self.new) }
    {
        let mut rest = text;
        while !rest.is_empty() {
            let (line, after) = first_line(rest);
            match self.take_once(line, reply) {
                Ok(()) => {}
                Err(_) => return Err(Lost),
            }
            rest = after;
        }
        Ok(())
    }

    /// Takes a line of the script. If memory runs out once the line has changed the stage or the reader, the
    /// session is lost, but for its lines and its cuts.
    fn take_once(&mut self, line: &[u8], reply: &mut Reply) -> Result<(), Unanswered>
        requires { PartsAgree self.old }
        ensures takes { Takes (session_view self.old) line.now reply.new result (session_view self.new) }
        ensures holds { result ≢ Err unanswered.Lost → PartsAgree self.new }
        ensures lost { result ≡ Err unanswered.Lost → HasItsLines self.old self.new }
    {
        if self.played.is_some() {
            self.play(line, reply)
        } else {
            self.open(line, reply)
        }
    }

    /// Takes a line up to `begin`. There is room for it before anything changes. With `begin` the stage
    /// starts.
    fn open(&mut self, line: &[u8], reply: &mut Reply) -> Result<(), Unanswered>
        requires holds { PartsAgree self.old }
        requires early { has_begun (script_so_far (session_view self.old)).place ≡ false }
        ensures takes { Takes (session_view self.old) line.now reply.new result (session_view self.new) }
        ensures holds { result ≢ Err unanswered.Lost → PartsAgree self.new }
        ensures lost { result ≡ Err unanswered.Lost → HasItsLines self.old self.new }
    {
        self.script.saved.reserve(line)?;
        self.script.take(self.alloc, self.arena, line)?;
        if self.script.has_begun() {
            return self.start(line, reply);
        }
        self.script.saved.push(line);
        reply.set_empty();
        Ok(())
    }

    /// Starts the stage of the lines so far and of this one, which is `begin`.
    fn start(&mut self, line: &[u8], reply: &mut Reply) -> Result<(), Unanswered>
        requires room { length line.now + 1 ≤ self.old.script.saved.room }
        requires plain { is_plain line.now ≡ true }
        ensures ok { OnOk result (Starts self.old line.now self.new
            × (reply.new ≡ answer_bytes (texts []))) }
        ensures err { OnErr result ((result ≡ Err unanswered.Lost) × (self.new ≡ self.old)) }
    {
        match Played::begin(self.alloc, &self.script.saved, line) {
            Ok(played) => {
                drop(self.played.replace(played));
                self.script.saved.push(line);
                reply.set_empty();
                Ok(())
            }
            // `begin` was read.
            Err(NoMemory) => Err(Unanswered::Lost),
        }
    }

    /// Takes a line after `begin`. There is room for it, and for a sync, before anything changes.
    fn play(&mut self, line: &[u8], reply: &mut Reply) -> Result<(), Unanswered>
        requires holds { PartsAgree self.old }
        requires begun { has_begun (script_so_far (session_view self.old)).place ≡ true }
        ensures takes { Takes (session_view self.old) line.now reply.new result (session_view self.new) }
        ensures holds { result ≢ Err unanswered.Lost → PartsAgree self.new }
        ensures lost { result ≡ Err unanswered.Lost → HasItsLines self.old self.new }
    {
        self.script.saved.reserve(line)?;
        let said = self.script.read(self.alloc, line)?;
        let sort = sort_of(&said);
        let needs_sync = self.script.needs_sync(sort);
        let Followed { result, text } = self.follow(said, needs_sync);
        match result {
            Ok(()) => match tell(sort, &self.outcome, text, reply) {
                Ok(()) => {
                    self.script.keep_sync(needs_sync);
                    self.script.keep(line, sort);
                    Ok(())
                }
                Err(e) => Err(e),
            },
            Err(e) => {
                drop(text);
                Err(e)
            }
        }
    }

    /// Does a line with this meaning on the stage, and a sync before it if it needs one.
    fn follow(&mut self, said: Option<Meaning>, needs_sync: bool) -> Followed
        requires { IsSomeAnd self.old.played (λ p. IsMeant (tree_of p.stage.opening).nodes said) }
        ensures followed { IsSomeAnd self.old.played (λ p. IsSomeAnd self.new.played (λ q.
            FollowsLine p q said needs_sync result [] self.new.outcome.items)) }
        ensures script { self.new.script ≡ self.old.script }
        ensures cuts { self.new.cuts ≡ self.old.cuts }
    {
        match self.played.take() {
            Some(played) => {
                self.outcome.clear();
                let (played, followed) = played.follow(
                    self.alloc,
                    said,
                    needs_sync,
                    &mut self.outcome,
                );
                drop(self.played.replace(played));
                followed
            }
            None => unreachable!(),
        }
    }
}

/// The answer to a line that was played.
fn tell(sort: LineSort, outcome: &[u8], report: Output, reply: &mut Reply) -> Result<(), Unanswered>
    ensures { Tells sort outcome.now report reply.new result }
{
    let told = match sort {
        LineSort::Step | LineSort::Sync => reply.set_text(outcome),
        LineSort::Report => reply.set_report(&report),
        LineSort::Nothing | LineSort::End => {
            reply.set_empty();
            Ok(())
        }
    };
    drop(report);
    match told {
        Ok(()) => Ok(()),
        Err(_) => Err(Unanswered::Lost),
    }
}

/// A line without an answer of its own is refused, unless the session is lost.
fn tell_refusal(answered: Result<(), Unanswered>, reply: &mut Reply) -> Result<(), Lost>
    ensures { TellsRefusal answered reply.old reply.new result }
{
    match answered {
        Ok(()) => {}
        Err(Unanswered::Fault(code)) => reply.set_refused(code),
        Err(Unanswered::NoMemory) => reply.set_no_memory(),
        Err(Unanswered::Lost) => return Err(Lost),
    }
    Ok(())
}
