//! The ranges of the numbers in steps.
use super::digits::Digit;
use super::ends::made;
use super::steps::{A, steps};
use std::process::Abort;
use std::test::Fail;
use tr_base::{Kind, LeafId, NodeId, Point, Rect, Selection, Shape, Shapes, Size};
use tr_cage::Cage;
use tr_forest::{Edit, NodeKind};
use tr_journal::{Query, Step, is_step};
use tr_tree::Tree;

const B: LeafId = LeafId(1);

/// Two nodes and a leaf, none of which hangs anywhere.
fn three_nodes(rt: &(impl Abort + AllocGlobal)) -> Tree {
    let length = Shape {
        lo: 1,
        pref: 1,
        hi: 1,
    };
    let shapes = Shapes {
        across: length,
        down: length,
    };
    let mut tree = made(
        rt,
        Tree::new(rt.alloc(), Size { wide: 4, high: 4 }, Kind::Map8),
    );
    made(rt, tree.add(NodeKind::H, 0));
    made(rt, tree.add(NodeKind::Z, 0));
    made(rt, tree.add(NodeKind::Leaf { leaf: A, shapes }, 0));
    tree
}

/// Steps of which a number or a value is out of its range.
fn wrong_steps() -> [Step<Digit>; 9] {
    let selection = Selection::Source;
    let down = true;
    [
        Step::Take { leaf: B },
        Step::Own {
            leaf: A,
            selection,
            time: 0,
        },
        Step::Mouse {
            time: 7,
            button: 6,
            down,
        },
        Step::Mark {
            leaf: A,
            clip: Rect::edges(0, 8193, 0, 3),
        },
        Step::SetCage {
            leaf: A,
            cage: Cage::Only {
                rect: Rect::edges(0, 2, 0, 3),
                here: false,
                gone: false,
            },
        },
        Step::Motion {
            time: 7,
            at: Point { h: 8192, v: 0 },
        },
        Step::Alter {
            edit: Edit::Resize {
                size: Size { wide: 0, high: 4 },
            },
        },
        Step::Alter {
            edit: Edit::Move {
                child: NodeId(2),
                at: Point { h: 0, v: -2049 },
            },
        },
        Step::Report {
            query: Query::Inbox(B),
        },
    ]
}

/// Whether each of these steps has its numbers in range, or none has.
fn are_steps(tree: &Tree, steps: &[Step<Digit>], want: bool) -> bool {
    for step in steps {
        if is_step(tree, step) != want {
            return false;
        }
    }
    true
}

#[test]
fn steps_have_their_ranges(rt: HostRuntime) -> Result<(), Fail> {
    let tree = three_nodes(&rt);
    assert!(rt; are_steps(&tree, &steps(), true));
    assert!(rt; are_steps(&tree, &wrong_steps(), false));
    Ok(())
}
