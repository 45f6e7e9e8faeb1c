ghost use Rattle.std.specs.Prelude.{◌<◌, ◌^◌};
ghost use Rattle.tr_forest.specs.Nodes.{IsNode, leaf_count, node};
ghost use Rattle.tr_journal.specs.Openings.{tree_of};
ghost use Rattle.tr_mirror.specs.Streams.{HasItsPixels};
ghost use Rattle.tr_base.specs.declared.LeafId.{LeafId};
ghost use Rattle.tr_base.specs.declared.NodeId.{NodeId};
ghost use Rattle.tr_machine.specs.Pictures.{render};
ghost use Rattle.tr_stage.specs.Stages.{state};
ghost use Rattle.tr_serial.specs.Values.{IsPaintable};

use tr_base::{LeafId, NodeId};
use tr_client::Client;
use tr_stage::Stage;

/// For the prover: each right colour of a stage's pixel is a value of its kind, by the law of kinds, since
/// all contents are valid, and since all tints are bytes. All calls here are only for their clauses.
pub fn has_values<C: Client>(stage: &Stage<C>)
    ensures { HasItsPixels (render C.Client (state C.Client stage.now)) }
{
    stage.invariant();
    have_contents(stage);
    have_tints(stage);
}

/// For the prover: each leaf has a valid content, and a window of a possible size.
fn have_contents<C: Client>(stage: &Stage<C>)
    ensures { (leaf : LeafId) → leaf.0 < leaf_count (tree_of stage.now.opening).nodes →
        IsPaintable C.Client (state C.Client stage.now) leaf }
{
    for n in 0..stage.tree().leaves() {
        has_content(stage, LeafId(n));
    }
}

/// For the prover: the same of one leaf.
fn has_content<C: Client>(stage: &Stage<C>, leaf: LeafId)
    requires { leaf.0 < leaf_count (tree_of stage.now.opening).nodes }
    ensures { IsPaintable C.Client (state C.Client stage.now) leaf }
{
    let _content = stage.content(leaf);
    let _size = stage.leaf_size(leaf);
}

/// For the prover: the tint of each node is a byte.
fn have_tints<C: Client>(stage: &Stage<C>)
    ensures { (n : NodeId) → IsNode (state C.Client stage.now).tree.nodes n →
        (node (state C.Client stage.now).tree.nodes n).tint < 2 ^ 8 }
{
    let tree = stage.tree();
    for n in 0..tree.count() {
        let _tint = tree.tint_of(NodeId(n as u16));
    }
}
