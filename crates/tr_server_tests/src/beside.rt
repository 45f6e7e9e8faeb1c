//! A client posts a command while another thread has the tree's lock.
use super::calls::{post, window};
use super::lines::Line;
use super::openings::Coloured;
use super::rows::leaves_lines;
use super::sessions::Trial;
use std::process::Abort;
use std::sync::Wait;
use std::sync::atomic::{AtomicU32, Ordering};
use std::thread::Threads;
use std::{hint, thread};
use tr_levels::Ladder;
use tr_server::{Pass, Server, Session};

/// How often a thread looks whether the other one has come so far.
const TRIES: u32 = 100_000_000;

/// How far the two threads have come.
#[derive(Drop)]
struct Flags {
    /// The tree's lock is held.
    held: AtomicU32,
    /// The command was posted.
    posted: AtomicU32,
    /// That was seen by the thread that has the lock.
    seen: AtomicU32,
}

/// Waits until another thread has come so far, and says whether it did.
fn came(flag: &AtomicU32) -> bool {
    for _ in 0..TRIES {
        if flag.load(Ordering::SeqCst) == 1 {
            return true;
        }
        hint::spin_loop();
    }
    false
}

/// Has the tree's lock until a command is posted.
fn hold<C: Coloured, L: Session<C::Cmd>, R: Wait>(rt: &R, server: &Server<C, L>, flags: &Flags) {
    let mu = server.enter(rt, Ladder::ground());
    flags.held.store(1, Ordering::SeqCst);
    if came(&flags.posted) {
        flags.seen.store(1, Ordering::SeqCst);
    }
    mu.leave().end();
}

/// Posts a command once the tree's lock is held.
fn post_beside<C: Coloured, L: Session<C::Cmd>, R: Wait + Abort>(
    rt: &R,
    server: &Server<C, L>,
    flags: &Flags,
    pass: &mut Pass<C, L>,
) {
    if came(&flags.held) {
        post(rt, window(rt, server), pass, 7);
        flags.posted.store(1, Ordering::SeqCst);
    }
}

/// Both at once, each with a pass of its own.
pub fn act_beside<C: Coloured, L: Session<C::Cmd>, R: Threads + Wait + Sync + Abort>(
    rt: &R,
    server: &Server<C, L>,
    workers: &mut [Pass<C, L>],
) {
    let flags = Flags {
        held: AtomicU32::new(0),
        posted: AtomicU32::new(0),
        seen: AtomicU32::new(0),
    };
    thread::for_each_mut(
        rt,
        workers,
        3,
        &|i: usize, pass: &mut Pass<C, L>| {
            if i == 0 {
                post_beside(rt, server, &flags, pass);
            } else if i == 1 {
                hold(rt, server, &flags);
            }
        },
    );
    assert!(rt;
        flags.seen.load(Ordering::SeqCst) == 1,
        "the command waits for the tree's lock"
    );
}

#[test]
fn a_command_is_posted_beside_the_lock(rt: HostRuntime) {
    assert!(rt; leaves_lines(&rt, Trial::Beside, &[Line::Posted(7)]));
}
