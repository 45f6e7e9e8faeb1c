//! The effect of a line.
ghost use Rattle.std.specs.Prelude.{◌≡◌, [], true, false, All, OnOk, OnErr, is_some};
ghost use Rattle.tr_journal.specs.Steps.{IsQuery};
ghost use Rattle.tr_grammar.specs.Faults.{version_line, opening_line, step_line, report_line, allows, is_one_too_many, nodes_so_far};
ghost use Rattle.tr_grammar.specs.Scripts.{after_meaning, IsPlayable};
ghost use Rattle.tr_reader.specs.Adding.{Adds, IsSoundMeaning, is_at_steps, with_steps};

use crate::parts::{Part, Steps, push};
use crate::readers::Reader;
use tr_base::NoMemory;
use tr_grammar::{Code, LineRefused, Meaning, Place};
use tr_journal::{Actor, Query, Step};
use tr_widget::WidgetCmd;
use w_canvas::CanvasCmd;
use w_edit::EditorCmd;
use w_lines::LinesCmd;
use w_meter::MeterCmd;
use w_plain::{BoardCmd, LabelCmd};

impl<'a> Reader<'a> {
    /// The script is of this version.
    fn set_version(&mut self, version: u8)
        requires { allows self.old.place version_line ≡ true }
        ensures { self.new ≡ after_meaning self.old [] (Meaning.Version version) }
    {
        self.version = version;
        self.place = Place::Head;
    }

    /// Whether the opening has a root.
    fn has_root(&self) -> bool
        ensures { result ≡ is_some (nodes_so_far self.now).root }
    {
        match &self.declared {
            Some(declared) => declared.opening.is_ready(),
            None => false,
        }
    }

    /// The opening ends, if it has a root.
    fn begin(&mut self) -> Result<(), LineRefused>
        requires { allows self.old.place opening_line ≡ true }
        ensures answer { Adds self.old [] Meaning.Begin self.new result }
        ensures err { OnErr result (self.new ≡ self.old) }
    {
        if !self.has_root() {
            return Err(LineRefused::Fault(Code::B6));
        }
        self.place = Place::Gap;
        Ok(())
    }

    /// Adds a step of the actor.
    #[inline(always)]
    fn add_step(&mut self, actor: Actor, step: Step<WidgetCmd>) -> Result<(), NoMemory>
        requires place { allows self.old.place step_line ≡ true }
        requires playable { IsPlayable (nodes_so_far self.old) (actor, step) }
        ensures ok { OnOk result (self.new ≡ after_meaning self.old [] (Meaning.Step actor step)) }
        ensures err { OnErr result (self.new ≡ self.old) }
    {
        // For the prover: its borrow checker finds the types within a command, and so a rule for the
        // steps, only if the body names them.
        let _told: Option<(BoardCmd, LabelCmd, LinesCmd, CanvasCmd, MeterCmd, EditorCmd)> = None;
        self.steps.push(actor, step)?;
        self.place = Place::Steps;
        Ok(())
    }

    /// Makes room for this many more steps in the current part.
    pub fn reserve_steps(&mut self, more: usize) -> Result<(), NoMemory>
        ensures { self.new ≡ self.old }
    {
        self.steps.reserve(more)
    }

    /// Appends steps that were read separately to those of the current part.
    pub fn add_steps(&mut self, steps: Steps<WidgetCmd>) -> Result<(), NoMemory>
        requires place { is_at_steps self.old.place ≡ true }
        requires playable { All (IsPlayable (nodes_so_far self.old)) steps }
        ensures ok { OnOk result (self.new ≡ with_steps self.old steps) }
        ensures err { OnErr result (self.new ≡ self.old) }
    {
        self.steps.append(steps)?;
        Ok(())
    }

    /// Ends the part, and begins another.
    fn end_part(&mut self) -> Result<(), NoMemory>
        requires { allows self.old.place step_line ≡ true }
        ensures ok { OnOk result (self.new ≡ after_meaning self.old [] Meaning.Sync) }
        ensures err { OnErr result (self.new ≡ self.old) }
    {
        self.ended.reserve(1)?;
        let reports = std::mem::replace(&mut self.reports, Vec::new(self.alloc));
        let steps = std::mem::replace(&mut self.steps, Steps::new(self.alloc));
        self.ended.push_reserved(Part {
            reports,
            steps: steps.into_vec(),
        });
        self.place = Place::Gap;
        Ok(())
    }

    /// Adds a report.
    fn add_report(&mut self, query: Query) -> Result<(), NoMemory>
        requires place { allows self.old.place report_line ≡ true }
        requires query { IsQuery (nodes_so_far self.old) query }
        requires room { is_one_too_many self.old (Meaning.Report query) ≡ false }
        ensures ok { OnOk result (self.new ≡ after_meaning self.old [] (Meaning.Report query)) }
        ensures err { OnErr result (self.new ≡ self.old) }
    {
        push(&mut self.reports, query)?;
        self.report_count += 1;
        self.place = Place::Gap;
        Ok(())
    }

    /// The script ends.
    fn end(&mut self)
        requires { allows self.old.place report_line ≡ true }
        ensures { self.new ≡ after_meaning self.old [] Meaning.End }
    {
        self.place = Place::Ended;
    }

    /// Adds the meaning of a line to that of the lines before it. Its second word is `name`.
    #[inline(always)]
    pub fn add(&mut self, name: &'a str, meaning: Meaning) -> Result<(), LineRefused>
        requires sound { IsSoundMeaning self.old name.now meaning }
        requires room { is_one_too_many self.old meaning ≡ false }
        ensures answer { Adds self.old name.now meaning self.new result }
        ensures err { OnErr result (self.new ≡ self.old) }
    {
        match meaning {
            Meaning::Version(version) => self.set_version(version),
            Meaning::Item(item) => return self.add_item(name, item),
            Meaning::Begin => return self.begin(),
            Meaning::Step { actor, step } => self.add_step(actor, step)?,
            Meaning::Sync => self.end_part()?,
            Meaning::Report(query) => self.add_report(query)?,
            Meaning::End => self.end(),
        }
        Ok(())
    }
}
