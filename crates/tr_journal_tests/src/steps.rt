//! A step of each sort.
use super::digits::Digit;
use tr_base::{LeafId, NodeId, Point, Rect, Selection};
use tr_cage::Cage;
use tr_forest::Edit;
use tr_journal::{Query, Step};

pub const A: LeafId = LeafId(0);

const AT: Point = Point { h: 3, v: -4 };

/// A step of each sort, those of a leaf being A's.
pub fn steps() -> [Step<Digit>; 16] {
    let selection = Selection::Source;
    [
        Step::Act {
            leaf: A,
            cmd: Digit(5),
        },
        Step::Mark {
            leaf: A,
            clip: Rect::edges(0, 2, 0, 3),
        },
        Step::Take { leaf: A },
        Step::SetCage {
            leaf: A,
            cage: Cage::Everywhere,
        },
        Step::Own {
            leaf: A,
            selection,
            time: 7,
        },
        Step::Disown { leaf: A, selection },
        Step::Read { leaf: A, selection },
        Step::Mouse {
            time: 7,
            button: 1,
            down: true,
        },
        Step::Motion { time: 7, at: AT },
        Step::Key { time: 7, code: 65 },
        Step::Alter {
            edit: Edit::Detach { child: NodeId(2) },
        },
        Step::Flush { leaf: A },
        Step::Repaint { leaf: A },
        Step::PaintFrame,
        Step::Sync,
        Step::Report {
            query: Query::Where(AT),
        },
    ]
}
