//! Calls of a session, each behind the conditions that it asks for: where one doesn't hold, the test ends.
use super::ends::made;
use super::openings::Coloured;
use std::process::Abort;
use std::sync::Wait;
use tr_base::LeafId;
use tr_client::Client;
use tr_journal::{Actor, Step, is_step, may};
use tr_levels::Ladder;
use tr_server::{Mu, Pass, Server, Session, Window};

/// The only window.
pub fn window<'a, C: Client, L: Session<C::Cmd>>(
    rt: &impl Abort,
    server: &'a Server<C, L>,
) -> &'a Window<C, L> {
    assert!(rt; 0 < server.opening().tree().leaves());
    server.window(LeafId(0))
}

/// The window's client posts a command: the colour is this one.
pub fn post<C: Coloured, L: Session<C::Cmd>, R: Wait + Abort>(
    rt: &R,
    window: &Window<C, L>,
    pass: &mut Pass<C, L>,
    tint: u8,
) {
    assert!(rt; pass.actor() == Actor::Leaf(window.leaf()) && pass.posted() < 64);
    let ladder = Ladder::ground();
    let posted = window.act(rt, &ladder, pass, C::tint(tint));
    ladder.end();
    made(rt, posted);
}

/// The window's client makes this command under the tree's lock.
pub fn act_under<C: Coloured, L: Session<C::Cmd>, R: Wait + Abort>(
    rt: &R,
    server: &Server<C, L>,
    pass: &mut Pass<C, L>,
    tint: u8,
) {
    let window = window(rt, server);
    assert!(rt; pass.actor() == Actor::Leaf(window.leaf()));
    let mut mu = server.enter(rt, Ladder::ground());
    let acted = window.act_under(rt, &mut mu, pass, C::tint(tint));
    mu.leave().end();
    made(rt, acted);
}

/// The window's client makes another step under it.
pub fn client_step<C: Coloured, L: Session<C::Cmd>, R: Wait + Abort>(
    rt: &R,
    server: &Server<C, L>,
    pass: &mut Pass<C, L>,
    step: Step<C::Cmd>,
) {
    let window = window(rt, server);
    assert!(rt;
        pass.actor() == Actor::Leaf(window.leaf())
            && may(pass.actor(), &step)
            && is_step(server.opening().tree(), &step)
    );
    let mut mu = server.enter(rt, Ladder::ground());
    let stepped = mu.client_step(rt, window, pass, step);
    mu.leave().end();
    made(rt, stepped);
}

/// An actor that is no client makes a step.
pub fn step<C: Coloured, L: Session<C::Cmd>>(
    rt: &impl Abort,
    mu: &mut Mu<'_, C, L>,
    pass: &mut Pass<C, L>,
    step: Step<C::Cmd>,
) {
    assert!(rt;
        may(pass.actor(), &step)
            && is_step(mu.stage().opening().tree(), &step)
            && !matches!(pass.actor(), Actor::Leaf(_))
    );
    made(rt, mu.step(pass, step));
}
