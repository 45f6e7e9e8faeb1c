//! A session in which a test makes calls.
ghost use Rattle.std.specs.Prelude.{◌≡◌, ◌+◌, ◌*◌, length, vec_len};
ghost use Rattle.tr_journal.specs.Openings.{font_of};
ghost use Rattle.tr_server.specs.Sessions.{HasIds};

use super::beside::act_beside;
use super::ends::made;
use super::openings::{Coloured, stage_of_one};
use super::rows::{fill_again, fill_and_act, hand_over_later, post_and_exchange, post_and_mark};
use super::shares::{give_back, paint_share, repaint_twice};
use std::marker::Brand;
use std::process::Abort;
use std::sync::Wait;
use std::sync::ledger::Blank;
use std::thread::Threads;
use tr_client::Client;
use tr_server::{CloseRefused, Pass, Passes, Server, Session};
use tr_stage::Stage;

/// What is done in a session.
#[derive(Clone, Copy)]
pub enum Trial {
    /// A command is posted, the screen gets another size, and what waits is handed over.
    HandedLater,
    /// As many commands are posted as may be, and one is made under the tree's lock.
    Full,
    /// The same, and then as many are posted again.
    FullAgain,
    /// Two commands are posted, and then a part of the window is marked.
    Marked,
    /// A command is posted while another thread has the tree's lock.
    Beside,
    /// The painter repaints by way of shares, twice.
    Repainted,
    /// A share is lent, and given back.
    GivenBack,
    /// A share is painted, and put onto the screen.
    Painted,
    /// A command is posted, and then two passes change places.
    Exchanged,
}

/// Makes the calls of a trial, with the passes of the client, the desk and the painter.
fn make<C: Coloured, L: Session<C::Cmd>, R: Threads + Wait + Sync + Abort>(
    rt: &R,
    trial: Trial,
    server: &Server<C, L>,
    workers: &mut [Pass<C, L>],
) {
    assert!(rt; 3 <= workers.len());
    match trial {
        Trial::HandedLater => hand_over_later(rt, server, workers),
        Trial::Full => fill_and_act(rt, server, &mut workers[0]),
        Trial::FullAgain => fill_again(rt, server, &mut workers[0]),
        Trial::Marked => post_and_mark(rt, server, &mut workers[0]),
        Trial::Beside => act_beside(rt, server, workers),
        Trial::Repainted => repaint_twice(rt, server, workers),
        Trial::GivenBack => give_back(rt, server),
        Trial::Painted => paint_share(rt, server, workers),
        Trial::Exchanged => post_and_exchange(rt, server, workers),
    }
}

/// The stage of one window after a session.
pub fn played<C: Coloured, R: Threads + Wait + Sync + Abort + AllocGlobal>(
    rt: &R,
    trial: Trial,
) -> Stage<C> {
    played_on(rt, trial, stage_of_one::<C>(rt))
}

/// A stage after a session.
pub fn played_on<C: Coloured, R: Threads + Wait + Sync + Abort + AllocGlobal>(
    rt: &R,
    trial: Trial,
    stage: Stage<C>,
) -> Stage<C> {
    let leaves = stage.opening().tree().leaves();
    let parts = 2 * u64::from(leaves) + 3;
    session::<C, Brand, R>(rt, trial, Blank::new(parts), stage)
}

/// The same, in a session with a name.
fn session<C: Coloured, L: Session<C::Cmd>, R: Threads + Wait + Sync + Abort + AllocGlobal>(
    rt: &R,
    trial: Trial,
    blank: Blank,
    stage: Stage<C>,
) -> Stage<C>
    requires name { blank.name ≡ L.name }
    requires parts { (blank.parts ≡ L.parts) × (L.parts ≡ 2 * L.leaves + 3) }
    requires ids { HasIds L.nodes L.leaves stage.opening }
    requires entries { length stage.journal ≡ L.entries }
    requires kept { stage.journal ≡ L.kept }
    requires font { font_of stage.opening ≡ L.font }
{
    let (server, passes) = made(rt, Server::<C, L>::start(rt.alloc(), blank, stage));
    make_and_close(rt, trial, server, passes)
}

/// Makes the calls of a trial, and closes the session, which has all its passes.
fn make_and_close<C: Coloured, L: Session<C::Cmd>, R: Threads + Wait + Sync + Abort>(
    rt: &R,
    trial: Trial,
    server: Server<C, L>,
    mut passes: Passes<C, L>,
) -> Stage<C>
    requires { vec_len passes.workers ≡ L.leaves + 2 }
{
    make(rt, trial, &server, passes.workers.as_mut_slice());
    stage_of_closed(rt, server.close(rt, passes))
}

/// The stage of a session that was closed. Where it isn't closed the test ends here. The refusal is dropped
/// by a call, since the prover takes a minute for one that vanishes.
fn stage_of_closed<C: Client>(
    rt: &impl Abort,
    closed: Result<Stage<C>, CloseRefused<C>>,
) -> Stage<C> {
    match closed {
        Ok(stage) => stage,
        Err(refused) => {
            drop(refused);
            panic!(rt; "the session isn't closed")
        }
    }
}
