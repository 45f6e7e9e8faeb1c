//! What a journal has, in few words.
use super::openings::Coloured;
use tr_base::{Command, LeafId};
use tr_journal::{Entry, Journal, Step};
use tr_levels::{Held, Level};
use tr_stage::Stage;

/// An entry of a journal.
#[derive(Clone, Copy)]
pub enum Line {
    /// A change of the tree, at the tree's lock.
    Alter,
    /// A mark, at the tree's lock and the window's.
    Mark,
    /// A command for a colour, that waited at the window's lock alone.
    Posted(u8),
    /// The same, at the tree's lock and the window's.
    Acted(u8),
}

/// Whether the journal of a stage has these entries, and no others.
pub fn has_lines<C: Coloured>(stage: &Stage<C>, lines: &[Line]) -> bool {
    let journal = stage.journal();
    if journal.len() != lines.len() {
        return false;
    }
    for k in 0..lines.len() {
        if !is_line::<C>(journal.get(k), lines[k]) {
            return false;
        }
    }
    true
}

/// Whether it is this one.
fn is_line<C: Coloured>(entry: &Entry<C::Cmd>, line: Line) -> bool {
    let mu = Held::none().with(Level::Mu);
    let win = Level::Win(LeafId(0));
    match (line, &entry.step) {
        (Line::Alter, Step::Alter { .. }) => entry.level.same(&mu),
        (Line::Mark, Step::Mark { .. }) => entry.level.same(&mu.with(win)),
        (Line::Posted(tint), Step::Act { cmd, .. }) => {
            entry.level.same(&Held::none().with(win)) && cmd.same(&C::tint(tint))
        }
        (Line::Acted(tint), Step::Act { cmd, .. }) => {
            entry.level.same(&mu.with(win)) && cmd.same(&C::tint(tint))
        }
        _ => false,
    }
}
