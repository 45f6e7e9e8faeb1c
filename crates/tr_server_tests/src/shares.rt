//! Windows that are painted side by side, and shares that are painted and given back.
ghost use Rattle.std.specs.Prelude.{◌≡◌, ◌≤◌, false, None, IsTrue, IfSome};
ghost use Rattle.tr_forest.specs.Nodes.{IsNodeKind, is_leaf, shown_by};
ghost use Rattle.tr_machine.specs.SharedRepaints.{IsPaintedOf};
ghost use Rattle.tr_stage.specs.Stages.{state};

use super::ends::made;
use super::openings::{Coloured, exactly};
use super::sessions::{Trial, played_on};
use std::process::Abort;
use std::sync::Wait;
use std::thread::Threads;
use tr_base::{Kind, LeafId, NodeId, Point, Shape, Shapes, Size};
use tr_client::Client;
use tr_forest::{Edit, NodeKind};
use tr_journal::{Actor, Entry, Opening, Step, is_edit};
use tr_levels::{Held, Ladder, Level};
use tr_server::{Mu, Pass, Server, Session, Share};
use tr_stage::{Painted, Stage};
use w_plain::Solid;

/// What a window wants, at least, by preference and at most, the same across and down.
const ROOMY: Shape = Shape {
    lo: 1,
    pref: 2,
    hi: 4,
};

/// Adds a node in which others stand.
fn add_node<C: Client>(rt: &impl Abort, opening: &mut Opening<C>, kind: &NodeKind) {
    assert!(rt; opening.tree().count() < 256 && is_inner(kind));
    made(rt, opening.node(*kind, 9));
}

/// Whether it is a node in which others stand.
fn is_inner(kind: &NodeKind) -> bool
    ensures kind { IsTrue result → IsNodeKind kind.now }
    ensures shown { IsTrue result → shown_by kind.now ≡ None }
    ensures inner { IsTrue result → is_leaf kind.now ≡ false }
{
    matches!(kind, NodeKind::H | NodeKind::Border { .. })
}

/// Adds a window, as the last child of the first node.
fn add_window<C: Coloured>(rt: &impl Abort, opening: &mut Opening<C>, shapes: Shapes, tint: u8) {
    let count = opening.tree().count();
    assert!(rt; count < 256 && opening.tree().leaves() < 32);
    made(rt, opening.leaf(shapes, C::of(tint)));
    let child = NodeId(count as u16);
    let parent = NodeId(0);
    let at = Point { h: 0, v: 0 };
    assert!(rt; is_edit(opening.tree(), &Edit::Attach { child, parent, at }));
    made(rt, opening.put(child, parent, at));
}

/// The stage of an opening whose root is the first node.
fn stage_of<C: Client>(rt: &(impl Abort + AllocGlobal), mut opening: Opening<C>) -> Stage<C> {
    assert!(rt; 0 < opening.tree().count());
    made(rt, opening.root(NodeId(0)));
    assert!(rt; opening.is_ready());
    made(rt, Stage::start(rt.alloc(), opening))
}

/// Two windows of this size, side by side.
fn two_beside<C: Coloured>(rt: &(impl Abort + AllocGlobal), size: Size) -> Stage<C> {
    let Size { wide, high } = size;
    assert!(rt; 1 <= wide && wide <= 512 && 1 <= high && high <= 1024);
    let screen = Size {
        wide: 2 * wide,
        high,
    };
    let shapes = Shapes {
        across: exactly(wide),
        down: exactly(high),
    };
    let mut opening = made(rt, Opening::new(rt.alloc(), screen, Kind::Map8));
    add_node(rt, &mut opening, &NodeKind::H);
    add_window(rt, &mut opening, shapes, 1);
    add_window(rt, &mut opening, shapes, 2);
    stage_of(rt, opening)
}

/// A window in a border of one point.
fn bordered<C: Coloured>(rt: &(impl Abort + AllocGlobal)) -> Stage<C> {
    let size = Size { wide: 4, high: 4 };
    let mut opening = made(rt, Opening::new(rt.alloc(), size, Kind::Map8));
    add_node(rt, &mut opening, &NodeKind::Border { width: 1 });
    let shapes = Shapes {
        across: ROOMY,
        down: ROOMY,
    };
    add_window(rt, &mut opening, shapes, 5);
    stage_of(rt, opening)
}

/// The painter's pass of a session.
fn painter<'a, C: Client, L: Session<C::Cmd>>(
    rt: &impl Abort,
    workers: &'a mut [Pass<C, L>],
) -> &'a mut Pass<C, L> {
    let count = workers.len();
    assert!(rt; 0 < count);
    &mut workers[count - 1]
}

/// The painter brings the screen up to date by way of shares.
fn repaint<C: Client, L: Session<C::Cmd>, R: Threads + Wait + Sync + Abort>(
    rt: &R,
    server: &Server<C, L>,
    pass: &mut Pass<C, L>,
) {
    assert!(rt; pass.actor() == Actor::Painter);
    let mut mu = server.enter(rt, Ladder::ground());
    let repainted = mu.repaint_shared(rt, pass);
    mu.leave().end();
    made(rt, repainted);
}

/// It does so twice.
pub fn repaint_twice<C: Client, L: Session<C::Cmd>, R: Threads + Wait + Sync + Abort>(
    rt: &R,
    server: &Server<C, L>,
    workers: &mut [Pass<C, L>],
) {
    let pass = painter(rt, workers);
    repaint(rt, server, pass);
    repaint(rt, server, pass);
}

/// Whether the journal has a repaint of each of these leaves by the painter, at the leaf's share alone, and
/// nothing else.
fn has_repaints<C: Client>(stage: &Stage<C>, leaves: &[LeafId]) -> bool {
    let journal = stage.journal();
    if journal.len() != leaves.len() {
        return false;
    }
    for k in 0..leaves.len() {
        if !is_repaint::<C>(journal.get(k), leaves[k]) {
            return false;
        }
    }
    true
}

/// Whether the entry is the painter's repaint of a leaf, at its share alone.
fn is_repaint<C: Client>(entry: &Entry<C::Cmd>, leaf: LeafId) -> bool {
    let share = Held::none().with(Level::Share(leaf));
    match &entry.step {
        Step::Repaint { leaf: one } => {
            *one == leaf && entry.actor == Actor::Painter && entry.level.same(&share)
        }
        _ => false,
    }
}

/// Whether each row of the screen has these pixels.
fn has_rows<C: Client>(stage: &Stage<C>, row: &[u8]) -> bool {
    let screen = stage.screen();
    for v in 0..screen.size().high {
        if screen.row(v) != row {
            return false;
        }
    }
    true
}

/// A row of two windows that are so wide.
fn row_of_two(rt: &(impl Abort + AllocGlobal), wide: u16) -> Vec<u8> {
    let mut row = made(rt, vec![in rt.alloc(); 1u8; usize::from(wide)]);
    made(rt, row.resize(2 * usize::from(wide), 2));
    row
}

/// Whether a trial on this stage repaints these leaves, and each row of the screen has these pixels then.
fn shows<C: Coloured, R: Threads + Wait + Sync + Abort + AllocGlobal>(
    rt: &R,
    trial: Trial,
    stage: Stage<C>,
    leaves: &[LeafId],
    row: &[u8],
) -> bool {
    let stage = played_on(rt, trial, stage);
    let is_shown = has_repaints(&stage, leaves) && has_rows(&stage, row);
    drop(stage);
    is_shown
}

/// Whether two windows of this size are repainted, the first one before the second.
fn are_painted<C: Coloured, R: Threads + Wait + Sync + Abort + AllocGlobal>(
    rt: &R,
    size: Size,
) -> bool {
    let row = row_of_two(rt, size.wide);
    let stage = two_beside::<C>(rt, size);
    shows(rt, Trial::Repainted, stage, &[LeafId(0), LeafId(1)], &row)
}

#[test]
fn windows_are_painted_side_by_side(rt: HostRuntime) {
    // Four bad points are too few for shares, and so many are enough.
    for (wide, high) in [(2, 1), (512, 512)] {
        let size = Size { wide, high };
        assert!(rt;
            are_painted::<Solid, HostRuntime>(&rt, size),
            "{wide} {high}"
        );
    }
}

/// Whether there is one share, of the first leaf. It is given back.
fn is_one_share<C: Client>(mut shares: Vec<Share<'_, C>>) -> bool {
    match shares.pop() {
        None => false,
        Some(share) => {
            let leaf = share.leaf();
            share.give_back();
            shares.is_empty() && leaf == LeafId(0)
        }
    }
}

/// A share of the screen is lent, and given back.
pub fn give_back<C: Client, L: Session<C::Cmd>, R: Wait + Abort>(rt: &R, server: &Server<C, L>) {
    let mu = server.enter(rt, Ladder::ground());
    let is_one = is_one_share(made(rt, mu.shares()));
    mu.leave().end();
    assert!(rt; is_one, "one share, of the first leaf");
}

#[test]
fn a_share_is_given_back(rt: HostRuntime) {
    let stage = bordered::<Solid>(&rt);
    assert!(rt; shows(&rt, Trial::GivenBack, stage, &[], &[0, 0, 0, 0]));
}

/// Paints the share of the last leaf that has one, apart from the screen.
fn paint_last<C: Client, L: Session<C::Cmd>>(rt: &impl Abort, mu: &Mu<'_, C, L>) -> Option<Painted>
    ensures { IfSome result (λ painted.
        IsPaintedOf C.Client (state C.Client mu.now) painted.leaf painted.part painted.pixels.items) }
{
    let mut shares = made(rt, mu.shares());
    match shares.pop() {
        None => None,
        Some(share) => Some(made(rt, share.paint())),
    }
}

/// The painter puts what was painted of it onto the screen.
fn put_last<C: Client, L: Session<C::Cmd>>(
    rt: &impl Abort,
    mu: &mut Mu<'_, C, L>,
    pass: &mut Pass<C, L>,
) {
    let Some(painted) = paint_last(rt, mu) else {
        return;
    };
    let leaf = painted.leaf;
    assert!(rt;
        pass.actor() == Actor::Painter
            && leaf.0 < mu.stage().opening().tree().leaves()
            && mu.stage().batch(leaf).is_empty()
    );
    made(rt, mu.put_painted(pass, painted));
}

/// The same under the tree's lock.
pub fn paint_share<C: Client, L: Session<C::Cmd>, R: Wait + Abort>(
    rt: &R,
    server: &Server<C, L>,
    workers: &mut [Pass<C, L>],
) {
    let pass = painter(rt, workers);
    let mut mu = server.enter(rt, Ladder::ground());
    put_last(rt, &mut mu, pass);
    mu.leave().end();
}

#[test]
fn a_share_is_painted_and_put(rt: HostRuntime) {
    let stage = two_beside::<Solid>(&rt, Size { wide: 2, high: 1 });
    assert!(rt; shows(&rt, Trial::Painted, stage, &[LeafId(1)], &[0, 0, 2, 2]));
}
