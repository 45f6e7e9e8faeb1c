//! A program to copy from: a window moves on a stage, and the program sends to standard output the screen
//! after each move, cut by cut. After the 64th cut it begins a new stream.
//!
//!     ex_sender | head -c 1830 | ex_viewer
#![tactic(auto)]

mod stages;
mod stops;

ghost use Rattle.std.specs.Prelude.{◌<◌};
ghost use Rattle.tr_mirror.specs.Standings.{most_groups};

use crate::stages::{move_window, start};
use crate::stops::Stopped;
use std::io;
use tr_client::Client;
use tr_mirror::{Writer, has_its_pixels};
use tr_screen::Screen;
use tr_stage::Stage;
use w_plain::Solid;

/// The number of screens: more than one stream has.
const SCREENS: u16 = 100;

fn main(rt: HostRuntime) -> io::Result<()> {
    run(&rt, Solid::new(7))?;
    Ok(())
}

/// Sends the screens of a stage whose window has this content. This function is there for the prover: a
/// proof of `main` is slow if a stage of one widget may be dropped there.
fn run<R: Print + AllocGlobal, C: Client>(rt: &R, content: C) -> Result<(), Stopped> {
    let mut stage = start(rt.alloc(), content)?;
    let sent = send_all(rt, &mut stage);
    drop(stage);
    sent
}

/// Moves the window, and sends the screen after each move.
fn send_all<R: Print + AllocGlobal, C: Client>(
    rt: &R,
    stage: &mut Stage<C>,
) -> Result<(), Stopped> {
    let mut writer = Writer::new();
    let mut group = Vec::new(rt.alloc());
    for number in 0..SCREENS {
        move_window(stage, number)?;
        // Before that a pixel may be bad, or a command may wait for it.
        stage.settle()?;
        send(rt, &mut writer, stage.screen(), &mut group)?;
    }
    Ok(())
}

/// Sends a screen: the pixels that changed since the last one, or all of it in a new stream. `group` is
/// memory that each call uses again.
fn send<R: Print + AllocGlobal>(
    rt: &R,
    writer: &mut Writer,
    screen: &Screen,
    group: &mut Vec<u8>,
) -> Result<(), Stopped> {
    if writer.is_full() {
        writer.restart();
    }
    if !has_its_pixels(screen) {
        return Err(Stopped::Refused);
    }
    group.clear();
    writer.append(screen, group)?;
    rt.write_all(group)?;
    Ok(())
}
