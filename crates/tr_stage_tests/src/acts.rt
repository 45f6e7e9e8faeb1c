//! Steps as values, so that a test is a table of them.
use super::ends::made;
use std::process::Abort;
use tr_base::{Command, LeafId, Point, Rect, Selection};
use tr_cage::Cage;
use tr_forest::Edit;
use tr_journal::{Actor, Query, Step, stated};
use tr_levels::Held;
use tr_widget::WidgetCmd;

/// A step.
#[derive(Drop)]
pub enum Act {
    Tell(LeafId, WidgetCmd),
    Mark(LeafId, Rect),
    Take(LeafId),
    SetCage(LeafId, Cage),
    Own(LeafId, Selection, u32),
    Disown(LeafId, Selection),
    Read(LeafId, Selection),
    /// At this time a button goes down or up.
    Mouse(u32, u8, bool),
    /// At this time the cursor is at this point, so far east and so far south.
    Motion(u32, i32, i32),
    /// At this time a key is struck.
    Key(u32, u8),
    Alter(Edit),
    Flush(LeafId),
    Repaint(LeafId),
    PaintFrame,
    Sync,
    Report(Query),
}

/// The step.
pub fn step_of(rt: &(impl Abort + AllocGlobal), act: &Act) -> Step<WidgetCmd> {
    match *act {
        Act::Tell(leaf, ref cmd) => Step::Act {
            leaf,
            cmd: made(rt, cmd.copy(rt.alloc())),
        },
        Act::Mark(leaf, clip) => Step::Mark { leaf, clip },
        Act::Take(leaf) => Step::Take { leaf },
        Act::SetCage(leaf, cage) => Step::SetCage { leaf, cage },
        Act::Own(leaf, selection, time) => Step::Own {
            leaf,
            selection,
            time,
        },
        Act::Disown(leaf, selection) => Step::Disown { leaf, selection },
        Act::Read(leaf, selection) => Step::Read { leaf, selection },
        Act::Mouse(time, button, down) => Step::Mouse { time, button, down },
        Act::Motion(time, h, v) => Step::Motion {
            time,
            at: Point { h, v },
        },
        Act::Key(time, code) => Step::Key { time, code },
        Act::Alter(edit) => Step::Alter { edit },
        Act::Flush(leaf) => Step::Flush { leaf },
        Act::Repaint(leaf) => Step::Repaint { leaf },
        Act::PaintFrame => Step::PaintFrame,
        Act::Sync => Step::Sync,
        Act::Report(query) => Step::Report { query },
    }
}

/// Who makes a step, and which levels are held then.
#[derive(Clone, Copy)]
pub struct By {
    pub actor: Actor,
    pub level: Held,
}

/// Who makes the step in a script that is played by one thread: a leaf makes all that names it. No more is
/// held than the step needs.
pub fn maker_of(rt: &(impl Abort + AllocGlobal), act: &Act) -> By {
    By {
        actor: actor_of(act),
        level: stated(&step_of(rt, act)),
    }
}

fn actor_of(act: &Act) -> Actor {
    match *act {
        Act::Tell(leaf, _)
        | Act::Mark(leaf, _)
        | Act::Take(leaf)
        | Act::SetCage(leaf, _)
        | Act::Own(leaf, _, _)
        | Act::Disown(leaf, _)
        | Act::Read(leaf, _)
        | Act::Flush(leaf)
        | Act::Repaint(leaf) => Actor::Leaf(leaf),
        Act::Mouse(..) | Act::Motion(..) | Act::Key(..) | Act::Alter(_) => Actor::Desk,
        Act::PaintFrame => Actor::Painter,
        Act::Sync | Act::Report(_) => Actor::Player,
    }
}
