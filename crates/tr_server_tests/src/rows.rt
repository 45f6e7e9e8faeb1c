//! Rows of calls, each with what the journal has in the end.
use super::calls::{act_under, client_step, post, step, window};
use super::ends::made;
use super::lines::{Line, has_lines};
use super::openings::Coloured;
use super::sessions::{Trial, played};
use std::process::Abort;
use std::sync::Wait;
use std::thread::Threads;
use tr_base::{LeafId, Op, Rect, Size, whole};
use tr_forest::Edit;
use tr_journal::Step;
use tr_levels::Ladder;
use tr_paint::PaintView;
use tr_server::{Pass, Server, Session};
use tr_stage::Stage;
use w_plain::Solid;

/// A command is posted, the screen gets another size, and what waits is handed over.
pub fn hand_over_later<C: Coloured, L: Session<C::Cmd>, R: Wait + Abort>(
    rt: &R,
    server: &Server<C, L>,
    workers: &mut [Pass<C, L>],
) {
    assert!(rt; workers.len() == 3);
    let window = window(rt, server);
    post(rt, window, &mut workers[0], 7);
    let size = Size { wide: 3, high: 1 };
    let edit = Edit::Resize { size };
    let mut mu = server.enter(rt, Ladder::ground());
    step(rt, &mut mu, &mut workers[1], Step::Alter { edit });
    let handed = mu.hand_over(rt, window);
    mu.leave().end();
    made(rt, handed);
}

/// Whether one paint command waits: the whole window of this size, in a colour.
fn waits_alone<C: Coloured>(stage: &Stage<C>, size: Size, tint: u8) -> bool {
    if stage.opening().tree().leaves() == 0 {
        return false;
    }
    let batch = stage.batch(LeafId(0));
    if batch.len() != 1 {
        return false;
    }
    match batch.get(0) {
        PaintView::Tint { clip, op } => clip == whole(size) && op == Op::Set(tint),
        _ => false,
    }
}

/// Whether what was posted waits, prepared for the size that the screen got.
fn is_prepared_anew<C: Coloured>(stage: &Stage<C>) -> bool {
    has_lines(stage, &[Line::Alter, Line::Posted(7)])
        && waits_alone(stage, Size { wide: 3, high: 1 }, 7)
}

/// Whether that is so once it was handed over.
fn prepares_anew<R: Threads + Wait + Sync + Abort + AllocGlobal>(rt: &R) -> bool {
    let stage = played::<Solid, R>(rt, Trial::HandedLater);
    let is_prepared = is_prepared_anew(&stage);
    drop(stage);
    is_prepared
}

#[test]
fn what_was_posted_is_prepared_anew_for_another_size(rt: HostRuntime) {
    assert!(rt; prepares_anew(&rt));
}

/// Whether the journal of one window's stage has these entries, and no others, after a trial.
pub fn leaves_lines<R: Threads + Wait + Sync + Abort + AllocGlobal>(
    rt: &R,
    trial: Trial,
    lines: &[Line],
) -> bool {
    let stage = played::<Solid, R>(rt, trial);
    let has_lines = has_lines(&stage, lines);
    drop(stage);
    has_lines
}

/// Posts the commands for the colours from 0 to 63, as many as may be.
fn fill<C: Coloured, L: Session<C::Cmd>, R: Wait + Abort>(
    rt: &R,
    server: &Server<C, L>,
    pass: &mut Pass<C, L>,
) {
    let window = window(rt, server);
    for tint in 0..64u8 {
        post(rt, window, pass, tint);
    }
    assert!(rt; pass.posted() == 64, "all are posted");
}

/// Fills a pass, and makes one command more under the tree's lock.
pub fn fill_and_act<C: Coloured, L: Session<C::Cmd>, R: Wait + Abort>(
    rt: &R,
    server: &Server<C, L>,
    pass: &mut Pass<C, L>,
) {
    fill(rt, server, pass);
    act_under(rt, server, pass, 64);
    assert!(rt; pass.posted() == 0, "none is posted");
}

/// The same, and then fills it again.
pub fn fill_again<C: Coloured, L: Session<C::Cmd>, R: Wait + Abort>(
    rt: &R,
    server: &Server<C, L>,
    pass: &mut Pass<C, L>,
) {
    fill_and_act(rt, server, pass);
    fill(rt, server, pass);
}

/// The entries that a pass makes which is filled, and one more.
fn lines_of_full(rt: &(impl Abort + AllocGlobal)) -> Vec<Line> {
    let mut lines = Vec::new(rt.alloc());
    for tint in 0..64u8 {
        made(rt, lines.push(Line::Posted(tint)));
    }
    made(rt, lines.push(Line::Acted(64)));
    lines
}

#[test]
fn a_full_pass_acts_under_the_lock(rt: HostRuntime) {
    let lines = lines_of_full(&rt);
    assert!(rt; leaves_lines(&rt, Trial::Full, &lines));
}

/// These, and those of the pass filled again.
fn lines_of_both(rt: &(impl Abort + AllocGlobal)) -> Vec<Line> {
    let mut lines = lines_of_full(rt);
    for tint in 0..64u8 {
        made(rt, lines.push(Line::Posted(tint)));
    }
    lines
}

#[test]
fn a_pass_can_be_filled_again(rt: HostRuntime) {
    let lines = lines_of_both(&rt);
    assert!(rt; leaves_lines(&rt, Trial::FullAgain, &lines));
}

/// Two commands are posted, and then a part of the window is marked.
pub fn post_and_mark<C: Coloured, L: Session<C::Cmd>, R: Wait + Abort>(
    rt: &R,
    server: &Server<C, L>,
    pass: &mut Pass<C, L>,
) {
    let window = window(rt, server);
    post(rt, window, pass, 7);
    post(rt, window, pass, 8);
    let leaf = LeafId(0);
    let clip = Rect::edges(0, 1, 0, 1);
    client_step(rt, server, pass, Step::Mark { leaf, clip });
}

#[test]
fn what_waits_comes_before_a_step_of_its_client(rt: HostRuntime) {
    let lines = [Line::Posted(7), Line::Posted(8), Line::Mark];
    assert!(rt; leaves_lines(&rt, Trial::Marked, &lines));
}

/// A command is posted, and then the client's pass and the desk's change places.
pub fn post_and_exchange<C: Coloured, L: Session<C::Cmd>, R: Wait + Abort>(
    rt: &R,
    server: &Server<C, L>,
    workers: &mut [Pass<C, L>],
) {
    assert!(rt; workers.len() == 3);
    post(rt, window(rt, server), &mut workers[0], 7);
    workers.swap(0, 1);
}

#[test]
fn passes_may_change_places(rt: HostRuntime) {
    assert!(rt; leaves_lines(&rt, Trial::Exchanged, &[Line::Posted(7)]));
}
