ghost use Rattle.std.specs.Prelude.{◌≡◌, ◌<◌, ◌≤◌, ◌+◌, [], true, false, IsSome, IfOk, IfErr, OnOk};
ghost use Rattle.tr_base.specs.declared.Point.{Point};
ghost use Rattle.tr_region.specs.Points.{holds};
ghost use Rattle.tr_screen.specs.Pictures.{blank_of};
ghost use Rattle.tr_surface.specs.Surfaces.{is_on, is_bad};
ghost use Rattle.tr_journal.specs.Openings.{tree_of};
ghost use Rattle.tr_journal.specs.Steps.{IsFor};
ghost use Rattle.tr_stage.specs.Stages as spec;
ghost use Rattle.tr_stage.specs.Making.{Makes};
ghost use Rattle.tr_stage.specs.Stages.{KeepsOthers, paints, state};

use crate::lines::By;
use std::alloc::Global;
use std::marker::Model;
use tr_base::NoMemory;
use tr_client::Client;
use tr_journal::{Attempt, Journal, Opening, Reply, Step};
use tr_mail::{Mail, Outbox};
use tr_surface::Surface;
use tr_windows::Windows;

/// A tree of windows with their contents, the screen that shows them, and the input devices, together
/// with the opening at their start and the journal of all steps since.
///
/// Its model is the opening, the journal and the screen. The journal, replayed over the opening, gives all
/// else, and the screen agrees with it: each point of the screen that isn't bad has the colour of its
/// frame, or of its window's content at the last time that this was brought onto the screen.
#[derive(Drop)]
pub struct Stage<C: Client> {
    pub(crate) alloc: Global,
    pub(crate) opening: Opening<C>,
    pub(crate) surface: Surface,
    pub(crate) windows: Windows<C>,
    pub(crate) mail: Mail,
    /// The deliveries of the last step of the input devices, or of the last edit. The list is kept, so that
    /// no step makes one.
    pub(crate) sent: Outbox,
    pub(crate) journal: Journal<C::Cmd>,
}

impl<C: Client> Model for Stage<C> {
    ghost use Rattle.tr_stage.specs.Stages.{StageView, IsStage};

    ghost Value = { StageView C C.Cmd };

    ghost view = { λ s. record {
      opening = s.opening;
      journal = s.journal.lines;
      screen = s.surface.screen;
      spare = s.journal.spare;
    } };

    ghost invariant = { λ s. IsStage C.Client s.opening s.journal.lines (record {
      surface = s.surface;
      windows = s.windows;
      mail = s.mail;
    }) };
}

impl<C: Client> Stage<C> {
    /// The stage of an opening that has a root, before any step: the screen is blank, and each of its
    /// points is bad. For want of memory it returns the opening.
    pub fn start(alloc: Global, opening: Opening<C>) -> Result<Stage<C>, Opening<C>>
        requires ready { IsSome (tree_of opening).nodes.root }
        ensures opening { IfOk result (λ s. s.opening ≡ opening) }
        ensures journal { IfOk result (λ s. s.journal ≡ []) }
        ensures screen { let t = tree_of opening in
            IfOk result (λ s. s.screen ≡ blank_of t.size t.kind) }
        ensures err { IfErr result (λ o. o ≡ opening) }
    {
        let Ok(surface) = blank_surface(alloc, &opening) else {
            return Err(opening);
        };
        let Ok(windows) = Windows::new(alloc, &opening) else {
            drop(surface);
            return Err(opening);
        };
        let Ok(mail) = Mail::new(alloc, opening.tree().leaves()) else {
            drop((surface, windows));
            return Err(opening);
        };
        let Ok(sent) = Outbox::new(alloc) else {
            drop((surface, windows, mail));
            return Err(opening);
        };
        surface.invariant();
        let journal = Journal::new(alloc);
        Ok(Stage {
            alloc,
            opening,
            surface,
            windows,
            mail,
            sent,
            journal,
        })
    }

    /// Makes a step. The journal gets the step's line, with its answer and the events that it sends. For
    /// want of memory no step is made.
    pub fn step(&mut self, attempt: Attempt<C::Cmd>) -> Result<Reply, NoMemory>
        requires allowed { IsFor (tree_of self.old.opening).nodes attempt.actor attempt.level attempt.step }
        ensures made { Makes C.Client self.old self.new attempt.actor attempt.level attempt.step result }

        // The screen doesn't change, unless the step paints; and each pixel that it may not paint stays.
        ensures screen { IfOk result (λ r. paints attempt.step r.answer ≡ false →
            self.new.screen ≡ self.old.screen) }
        ensures others { let t = (state C.Client self.old).tree in
            OnOk result (KeepsOthers t attempt.step self.old.screen self.new.screen) }
    {
        let Attempt { actor, level, step } = attempt;
        let by = By { actor, level };
        match step {
            Step::Act { leaf, cmd } => self.act(&by, leaf, cmd),
            Step::Mark { leaf, clip } => self.mark(&by, leaf, clip),
            Step::Take { leaf } => self.take(&by, leaf),
            Step::SetCage { leaf, cage } => {
                self.reserve(1)?;
                Ok(self.set_cage(&by, leaf, cage))
            }
            Step::Own {
                leaf,
                selection,
                time,
            } => self.own(&by, leaf, selection, time),
            Step::Disown { leaf, selection } => self.disown(&by, leaf, selection),
            Step::Read { leaf, selection } => self.read(&by, leaf, selection),
            Step::Mouse { time, button, down } => {
                self.reserve(1)?;
                Ok(self.mouse(&by, time, button, down))
            }
            Step::Motion { time, at } => {
                self.reserve(1)?;
                Ok(self.motion(&by, time, at))
            }
            Step::Key { time, code } => {
                self.reserve(1)?;
                Ok(self.key(&by, time, code))
            }
            Step::Alter { edit } => self.alter(&by, edit),
            Step::Flush { leaf } => self.flush(&by, leaf),
            Step::Repaint { leaf } => self.repaint(&by, leaf),
            Step::PaintFrame => self.paint_frame(&by),
            Step::Sync => self.note(&by, Step::Sync),
            Step::Report { query } => self.note(&by, Step::Report { query }),
        }
    }

    /// Makes room in the journal for `n` steps of `step_reserved`.
    pub fn reserve(&mut self, n: u32) -> Result<(), NoMemory>
        ensures ok { OnOk result (n ≤ self.new.spare) }
        ensures spare { self.old.spare ≤ self.new.spare }
        ensures opening { self.new.opening ≡ self.old.opening }
        ensures journal { self.new.journal ≡ self.old.journal }
        ensures screen { self.new.screen ≡ self.old.screen }
    {
        self.journal.reserve(n)?;
        Ok(())
    }

    /// Makes a step of the input devices, or a change of a cage, in the room that `reserve` made. It takes
    /// no memory.
    pub fn step_reserved(&mut self, attempt: Attempt<C::Cmd>) -> Reply
        requires spare { 0 < self.old.spare }
        requires reservable { spec.is_reservable attempt.step ≡ true }
        requires allowed { IsFor (tree_of self.old.opening).nodes attempt.actor attempt.level attempt.step }
        ensures made { Makes C.Client self.old self.new attempt.actor attempt.level attempt.step (Ok result) }
        ensures screen { self.new.screen ≡ self.old.screen }
        ensures spare { self.old.spare ≤ self.new.spare + 1 }
    {
        let Attempt { actor, level, step } = attempt;
        let by = By { actor, level };
        match step {
            Step::SetCage { leaf, cage } => self.set_cage(&by, leaf, cage),
            Step::Mouse { time, button, down } => self.mouse(&by, time, button, down),
            Step::Motion { time, at } => self.motion(&by, time, at),
            Step::Key { time, code } => self.key(&by, time, code),
            _ => unreachable!(),
        }
    }
}

/// Whether `step_reserved` may make a step: it is one of the input devices, or a change of a cage, and
/// takes no memory but room in the journal.
pub fn is_reservable<M>(step: &Step<M>) -> bool
    ensures { result ≡ spec.is_reservable step.now }
{
    matches!(
        step,
        Step::SetCage { .. } | Step::Mouse { .. } | Step::Motion { .. } | Step::Key { .. }
    )
}

/// The blank screen of an opening's tree. Every point is bad.
fn blank_surface<C: Client>(alloc: Global, opening: &Opening<C>) -> Result<Surface, NoMemory>
    requires { IsSome (tree_of opening.now).nodes.root }
    ensures tree { IfOk result (λ s. s.tree ≡ tree_of opening.now) }
    ensures screen { let t = tree_of opening.now in
        IfOk result (λ s. s.screen ≡ blank_of t.size t.kind) }
    ensures bad { IfOk result (λ s. (p : Point) → is_bad s p ≡ is_on (tree_of opening.now) p) }
{
    let tree = opening.tree().copy()?;
    Surface::new(alloc, tree)
}
