ghost use Rattle.std.specs.Prelude.{◌≡◌, ◌↔◌, IsTrue, IfOk};

use crate::sameness::{is_same_cage, is_same_edit, is_same_rect};
use std::alloc::Global;
use tr_base::{Command, LeafId, NoMemory, Point, Rect, Selection};
use tr_cage::Cage;
use tr_forest::Edit;

/// The maker of a step.
#[derive(Clone, Copy, Debug, PartialEq, Eq)]
pub enum Actor {
    /// The client of a leaf's window.
    Leaf(LeafId),
    /// The desk: it makes the steps of the user, who uses the input devices and arranges the windows.
    Desk,
    /// The painter, which brings the screen up to date.
    Painter,
    /// The player of a script, which makes its reports and the steps between its parts.
    Player,
}

/// The subject of a report.
#[derive(Clone, Copy, Debug, PartialEq, Eq)]
pub enum Query {
    /// All pixels of the screen.
    Dump,
    /// The lag of the screen.
    Peek,
    /// The journal so far.
    Journal,
    /// The owner of a point, on the screen or off it.
    Where(Point),
    /// The events that wait for a leaf.
    Inbox(LeafId),
}

/// One step of a run. Times are those of the input devices, from 1 on.
#[derive(Debug, Drop)]
pub enum Step<M> {
    /// A command changes the leaf's content.
    Act {
        leaf: LeafId,
        cmd: M,
    },
    /// The leaf's client spoils its points in `clip`, which must be painted again.
    Mark {
        leaf: LeafId,
        clip: Rect,
    },
    /// The leaf takes the oldest event out of its inbox.
    Take {
        leaf: LeafId,
    },
    /// The leaf gets another cage.
    SetCage {
        leaf: LeafId,
        cage: Cage,
    },
    /// The leaf becomes the owner of a selection.
    Own {
        leaf: LeafId,
        selection: Selection,
        time: u32,
    },
    /// The leaf gives up a selection.
    Disown {
        leaf: LeafId,
        selection: Selection,
    },
    /// The leaf reads the value of a selection's owner.
    Read {
        leaf: LeafId,
        selection: Selection,
    },
    /// A button, from 1 to 5, goes down or up.
    Mouse {
        time: u32,
        button: u8,
        down: bool,
    },
    /// The cursor is now at this point, on the screen or off it.
    Motion {
        time: u32,
        at: Point,
    },
    /// The user strikes a key.
    Key {
        time: u32,
        code: u8,
    },
    /// The user changes the tree or its screen.
    Alter {
        edit: Edit,
    },
    /// The waiting commands of the leaf are executed on the screen.
    Flush {
        leaf: LeafId,
    },
    /// A flush that also paints the leaf's bad points.
    Repaint {
        leaf: LeafId,
    },
    /// The painter paints the bad points of all frames.
    PaintFrame,
    /// The end of a part of a script, before the next part.
    Sync,
    /// The player reports something, which changes nothing.
    Report {
        query: Query,
    },
}

impl<M: Command> Step<M> {
    /// A copy of the step.
    pub fn copy(&self, alloc: Global) -> Result<Step<M>, NoMemory>
        ensures { IfOk result (λ step. step ≡ self.now) }
    {
        Ok(match *self {
            Step::Act { leaf, ref cmd } => Step::Act {
                leaf,
                cmd: cmd.copy(alloc)?,
            },
            Step::Mark { leaf, clip } => Step::Mark { leaf, clip },
            Step::Take { leaf } => Step::Take { leaf },
            Step::SetCage { leaf, cage } => Step::SetCage { leaf, cage },
            Step::Own {
                leaf,
                selection,
                time,
            } => Step::Own {
                leaf,
                selection,
                time,
            },
            Step::Disown { leaf, selection } => Step::Disown { leaf, selection },
            Step::Read { leaf, selection } => Step::Read { leaf, selection },
            Step::Mouse { time, button, down } => Step::Mouse { time, button, down },
            Step::Motion { time, at } => Step::Motion { time, at },
            Step::Key { time, code } => Step::Key { time, code },
            Step::Alter { edit } => Step::Alter { edit },
            Step::Flush { leaf } => Step::Flush { leaf },
            Step::Repaint { leaf } => Step::Repaint { leaf },
            Step::PaintFrame => Step::PaintFrame,
            Step::Sync => Step::Sync,
            Step::Report { query } => Step::Report { query },
        })
    }

    /// Whether both are the same step.
    pub fn same(&self, other: &Step<M>) -> bool
        ensures { IsTrue result ↔ (self.now ≡ other.now) }
    {
        match (self, other) {
            (Step::Act { leaf: a, cmd: c }, Step::Act { leaf: b, cmd: d }) => a == b && c.same(d),
            (Step::Mark { leaf: a, clip: c }, Step::Mark { leaf: b, clip: d }) => a == b
                && is_same_rect(c, d),
            (Step::Take { leaf: a }, Step::Take { leaf: b }) => a == b,
            (Step::SetCage { leaf: a, cage: c }, Step::SetCage { leaf: b, cage: d }) => a == b
                && is_same_cage(c, d),
            (
                Step::Own {
                    leaf: a,
                    selection: s,
                    time: t,
                },
                Step::Own {
                    leaf: b,
                    selection: r,
                    time: u,
                },
            ) => a == b && s == r && t == u,
            (
                Step::Disown {
                    leaf: a,
                    selection: s,
                },
                Step::Disown {
                    leaf: b,
                    selection: r,
                },
            ) => a == b && s == r,
            (
                Step::Read {
                    leaf: a,
                    selection: s,
                },
                Step::Read {
                    leaf: b,
                    selection: r,
                },
            ) => a == b && s == r,
            (
                Step::Mouse {
                    time: t,
                    button: a,
                    down: d,
                },
                Step::Mouse {
                    time: u,
                    button: b,
                    down: e,
                },
            ) => t == u && a == b && d == e,
            (Step::Motion { time: t, at: a }, Step::Motion { time: u, at: b }) => t == u && a == b,
            (Step::Key { time: t, code: a }, Step::Key { time: u, code: b }) => t == u && a == b,
            (Step::Alter { edit: a }, Step::Alter { edit: b }) => is_same_edit(a, b),
            (Step::Flush { leaf: a }, Step::Flush { leaf: b }) => a == b,
            (Step::Repaint { leaf: a }, Step::Repaint { leaf: b }) => a == b,
            (Step::PaintFrame, Step::PaintFrame) => true,
            (Step::Sync, Step::Sync) => true,
            (Step::Report { query: a }, Step::Report { query: b }) => a == b,
            _ => false,
        }
    }
}
