//! Steps with room reserved for them.
use super::acts::{Act, maker_of, step_of};
use super::openings::{Part, Shown};
use super::played::Played;
use super::runs::*;
use std::process::Abort;
use tr_base::Size;

/// The stage of two windows of two points each, side by side, on a screen of one row. What they leave is the
/// frame of node 0.
pub fn two_beside<P: Played>(rt: &(impl Abort + AllocGlobal), wide: u16) -> P {
    let parts = [
        Part::Row(0),
        Part::Leaf([2; 3], [1; 3], Shown::Solid(1)),
        Part::Leaf([2; 3], [1; 3], Shown::Solid(2)),
        Part::Put(1, 0, 0, 0),
        Part::Put(2, 0, 0, 0),
    ];
    P::start(rt, Size { wide, high: 1 }, &parts)
}

/// Three steps answer the same, with room reserved and without, and then a fourth one.
fn reserved<P: Played>(rt: &(impl Abort + AllocGlobal)) {
    let mut stage: P = two_beside(rt, 4);
    let mut other = stage.again(rt);
    let acts = [
        Act::Motion(1, 0, 0),
        Act::Mouse(2, 1, true),
        Act::Key(3, 65),
    ];
    let fourth = Act::Motion(4, 3, 0);
    let by = maker_of(rt, &fourth);
    let steps = [
        step_of(rt, &acts[0]),
        step_of(rt, &acts[1]),
        step_of(rt, &acts[2]),
    ];
    let replies = stage.make_three_reserved(rt, &by, steps);
    for (act, reply) in acts.iter().zip(replies.iter()) {
        assert!(rt; reply.same(&make(rt, &mut other, act)));
    }
    let reply = stage.make_reserved(rt, &by, step_of(rt, &fourth));
    assert!(rt; reply.same(&make(rt, &mut other, &fourth)));
}

#[test]
fn reserved_steps_answer_as_others_do(rt: HostRuntime) {
    reserved::<Tested>(&rt);
}
