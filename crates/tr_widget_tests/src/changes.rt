//! Contents that commands change in place, beside contents that they change by a copy.
ghost use Rattle.tr_client.specs.Laws.{IsWindowSize};

use super::draws::Draw;
use super::ends::made;
use super::widgets::{SQUARE, contents};
use std::process::Abort;
use std::test::Fail;
use tr_base::{Env, Line, Size};
use tr_client::Client;
use tr_paint::Batch;
use tr_widget::{Widget, WidgetCmd};
use w_lines::{Lines, LinesCmd};

/// Plays commands on a content in both ways. Whether they make the same content, and patches that touch and
/// cost the same.
fn changes_alike(
    rt: &(impl Abort + AllocGlobal),
    content: &Widget,
    commands: &[WidgetCmd],
    env: &Env,
    size: Size,
) -> bool
    requires { IsWindowSize size }
{
    let alloc = rt.alloc();
    let mut copied = made(rt, content.copy(alloc));
    let mut patches = Batch::new(alloc);
    let mut changed = made(rt, content.copy(alloc));
    let mut batch = Batch::new(alloc);
    for cmd in commands {
        let (next, patch) = made(rt, copied.change(alloc, env, size, cmd));
        copied = next;
        made(rt, patches.extend(patch));
        made(rt, changed.apply(alloc, env, size, cmd, &mut batch));
    }
    changed.same(&copied) && are_alike(&batch, &patches)
}

/// Whether two batches have as many commands, touch as much and cost the same.
fn are_alike(batch: &Batch, other: &Batch) -> bool {
    batch.len() == other.len() && batch.cost() == other.cost() && batch.hull() == other.hull()
}

/// So many lines that the first ones go, and leave their block twice.
fn many_lines(rt: &(impl Abort + AllocGlobal)) -> Vec<WidgetCmd> {
    let mut commands = Vec::new(rt.alloc());
    for n in 0..700u16 {
        let line = made(rt, Line::of(rt.alloc(), &[33 + (n % 90) as u8]));
        made(rt, commands.push(WidgetCmd::Lines(LinesCmd::Line(line))));
    }
    commands
}

#[test]
fn contents_change_in_place_as_by_a_copy(rt: HostRuntime) -> Result<(), Fail> {
    let contents = contents(&rt);
    let mut draw = Draw::new(2026);
    for round in 0..4 {
        let font = draw.font(&rt);
        let env = Env {
            kind: draw.kind(),
            font: &font,
        };
        let size = draw.size();
        let commands = draw.commands(&rt);
        for content in &contents {
            assert!(rt;
                changes_alike(&rt, content, &commands, &env, size),
                "round {round}"
            );
        }
    }
    Ok(())
}

#[test]
fn a_typescript_keeps_its_last_lines_in_place(rt: HostRuntime) -> Result<(), Fail> {
    let font = Draw::new(1).font(&rt);
    let env = Env {
        kind: tr_base::Kind::Mono,
        font: &font,
    };
    let lines = Widget::Lines(made(&rt, Lines::new(rt.alloc())));
    assert!(rt; changes_alike(&rt, &lines, &many_lines(&rt), &env, SQUARE));
    Ok(())
}
