//! The last lines of a script that is played again. The differences are made up, since no script brings one
//! about.
use crate::ends::made;
use std::process::Abort;
use tr_base::{LeafId, NodeId};
use tr_journal::{Actor, Apart, Difference, NameOf, Step};
use tr_threads::again_lines;
use tr_widget::WidgetCmd;

/// The name of one leaf, which is the only node.
struct OneName;

impl NameOf for OneName {
    ghost use Rattle.std.specs.Prelude.{◌∷◌, []};

    ghost node_names = { λ _. (97 ∷ []) ∷ [] };

    ghost leaf_names = { λ _. (97 ∷ []) ∷ [] };

    fn node(&self, _node: NodeId) -> &[u8] {
        b"a"
    }

    fn leaf(&self, _leaf: LeafId) -> &[u8] {
        b"a"
    }
}

/// The lines where the opening's second item differs.
fn lines_of_opening(rt: &(impl Abort + AllocGlobal)) -> Vec<u8> {
    let difference: Difference<WidgetCmd> = Difference {
        place: 2,
        what: Apart::Opening,
    };
    made(rt, again_lines(rt.alloc(), &OneName, &difference))
}

#[test]
fn an_opening_that_differs_is_told(rt: HostRuntime) {
    let lines = lines_of_opening(&rt);
    assert!(rt; lines.as_slice() == b"differs opening 2: - / -\nplayed again\n".as_slice());
}

/// The lines where the leaf's client handed in a third step, which the journal lacks.
fn lines_of_step(rt: &(impl Abort + AllocGlobal)) -> Vec<u8> {
    let difference: Difference<WidgetCmd> = Difference {
        place: 3,
        what: Apart::Own {
            actor: Actor::Leaf(LeafId(0)),
            made: Some(Step::Take { leaf: LeafId(0) }),
            found: None,
        },
    };
    made(rt, again_lines(rt.alloc(), &OneName, &difference))
}

#[test]
fn a_step_that_is_missing_is_told(rt: HostRuntime) {
    let lines = lines_of_step(&rt);
    assert!(rt; lines.as_slice() == b"differs leaf:a 3: take / -\nplayed again\n".as_slice());
}
