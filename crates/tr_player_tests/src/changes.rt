//! Two clients behind an open gate, each of which waits in its change for the other one's.
ghost use Rattle.std.specs.Prelude.{◌≡◌, ◌<◌, All, vec_len};
ghost use Rattle.tr_forest.specs.Nodes.{Nodes, leaf_count};
ghost use Rattle.tr_journal.specs.Openings.{tree_of};
ghost use Rattle.tr_grammar.specs.Scripts.{IsPlayablePart};
ghost use Rattle.tr_parts.specs.Runs.{IsNewRun};

use crate::ends::made;
use crate::waiters::{Changes, Waiter};
use std::process::Abort;
use std::sync::{Arc, Wait};
use std::thread::Threads;
use tr_base::{Kind, LeafId, NodeId, Shape, Shapes, Size};
use tr_client::Client;
use tr_journal::{Actor, NameOf, Opening, Step};
use tr_play::{OpenGate, Workers, play};
use tr_reader::Part;
use tr_run::{Mode, Run};
use tr_widget::{Widget, WidgetCmd};
use w_plain::{Solid, SolidCmd};

/// The names of two leaves, which are the only nodes.
struct TwoNames;

impl NameOf for TwoNames {
    ghost use Rattle.std.specs.Prelude.{◌∷◌, []};

    ghost node_names = { λ _. (97 ∷ []) ∷ (98 ∷ []) ∷ [] };

    ghost leaf_names = { λ _. (97 ∷ []) ∷ (98 ∷ []) ∷ [] };

    fn node(&self, node: NodeId) -> &[u8] {
        if node.0 == 0 { b"a" } else { b"b" }
    }

    fn leaf(&self, leaf: LeafId) -> &[u8] {
        if leaf.0 == 0 { b"a" } else { b"b" }
    }
}

/// Each side of the screen and of the windows.
const SIDE: Shape = Shape {
    lo: 2,
    pref: 2,
    hi: 2,
};

/// Adds a window.
fn add_leaf<C: Client>(rt: &impl Abort, opening: &mut Opening<C>, content: C) {
    assert!(rt; opening.tree().count() < 256 && opening.tree().leaves() < 32);
    let shapes = Shapes {
        across: SIDE,
        down: SIDE,
    };
    made(rt, opening.leaf(shapes, content));
}

/// Makes the first node the root.
fn set_root<C: Client>(rt: &impl Abort, opening: &mut Opening<C>) {
    assert!(rt; 0 < opening.tree().count());
    made(rt, opening.root(NodeId(0)));
}

/// Two windows: the first one fills the screen, and the second one isn't shown.
fn opening_of<C: Client>(rt: &(impl Abort + AllocGlobal), first: C, second: C) -> Opening<C> {
    let size = Size { wide: 2, high: 2 };
    let mut opening = made(rt, Opening::new(rt.alloc(), size, Kind::Map8));
    add_leaf(rt, &mut opening, first);
    add_leaf(rt, &mut opening, second);
    set_root(rt, &mut opening);
    opening
}

/// The command for a colour.
fn tint(tint: u8) -> WidgetCmd {
    WidgetCmd::Solid(SolidCmd::Tint(tint))
}

/// A command of the client of a window.
fn act(leaf: LeafId, cmd: WidgetCmd) -> (Actor, Step<WidgetCmd>)
    ensures { result ≡ (Actor.Leaf leaf, Step.Act leaf cmd) }
{
    (Actor::Leaf(leaf), Step::Act { leaf, cmd })
}

/// A part in which each of two clients makes one command.
fn tints(rt: &(impl Abort + AllocGlobal)) -> Part
    ensures { (t : Nodes) → 1 < leaf_count t → IsPlayablePart t result }
{
    let alloc = rt.alloc();
    let steps = vec![in alloc; act(LeafId(0), tint(3)), act(LeafId(1), tint(4))];
    Part {
        reports: Vec::new(alloc),
        steps: made(rt, steps),
    }
}

/// That part alone.
fn parts(rt: &(impl Abort + AllocGlobal)) -> Vec<Part>
    ensures some { 0 < vec_len result }
    ensures playable { (t : Nodes) → 1 < leaf_count t → All (IsPlayablePart t) result.items }
{
    let part = tints(rt);
    made(rt, vec![in rt.alloc(); part])
}

/// A run with two windows, before its first step.
fn run_of<'a, C: Client>(
    rt: &(impl Abort + AllocGlobal),
    opening: Opening<C>,
    names: &'a TwoNames,
) -> Run<'a, C, TwoNames>
    ensures begun { IsNewRun result }
    ensures leaves { 1 < leaf_count (tree_of result.stage.opening).nodes }
{
    let tree = opening.tree();
    assert!(rt; tree.count() == 2);
    assert!(rt; tree.leaves() == 2);
    assert!(rt; tree.root().is_some());
    made(rt, Run::start(rt.alloc(), opening, names, Mode::Serial))
}

/// Plays parts, whose steps are those of the clients of two windows, behind an open gate.
fn play_two<C: Client<Cmd = WidgetCmd>, R: Threads + Wait + Sync + Abort + AllocGlobal>(
    rt: &R,
    opening: Opening<C>,
    parts: &Vec<Part>,
)
    requires some { 0 < vec_len parts.now }
    requires playable { (t : Nodes) → 1 < leaf_count t → All (IsPlayablePart t) parts.now.items }
{
    let run = run_of(rt, opening, &TwoNames);
    let workers = Workers {
        rt,
        alloc: rt.alloc(),
        gate: &OpenGate,
    };
    drop(made(rt, play(&workers, run, parts)));
}

/// A window of one colour, with the first or the second one of two clients.
fn waiter(rt: &impl Abort, changes: &Arc<Changes>, is_first: bool) -> Waiter {
    let changes = made(rt, Arc::try_clone(changes));
    Waiter::new(Widget::Solid(Solid::new(1)), changes, is_first)
}

/// Whether two clients were in their changes at the same time.
fn are_at_once<R: Threads + Wait + Sync + Abort + AllocGlobal>(rt: &R) -> bool {
    let changes = made(rt, Arc::new(rt.alloc(), Changes::none()));
    let first = waiter(rt, &changes, true);
    let second = waiter(rt, &changes, false);
    play_two(rt, opening_of(rt, first, second), &parts(rt));
    changes.have_met()
}

#[test]
fn two_clients_change_their_contents_at_once(rt: HostRuntime) {
    assert!(rt; are_at_once(&rt));
}
