//! A flush, which may paint in place of executing what waits, beside one after each command.
use super::acts::{Act, maker_of};
use super::openings::{Part, Shown, line};
use super::played::Played;
use super::runs::*;
use std::process::Abort;
use tr_base::Size;
use tr_widget::WidgetCmd;
use w_lines::LinesCmd;

/// The text of which each line is a part.
const TEXT: &[u8] = b"aAbAAaAc";

/// The stage of a typescript that has all of the screen, once it was painted.
fn typescript<P: Played>(rt: &(impl Abort + AllocGlobal)) -> P {
    let parts = [Part::Glyph, Part::Leaf([64; 3], [32; 3], Shown::Lines)];
    let mut stage = P::start(rt, Size { wide: 64, high: 32 }, &parts);
    settle(rt, &mut stage);
    stage
}

/// One more line, which is written in both.
fn write_in_both<P: Played>(
    rt: &(impl Abort + AllocGlobal),
    at_once: &mut P,
    one_by_one: &mut P,
    text: &[u8],
) {
    let act = Act::Tell(A, WidgetCmd::Lines(LinesCmd::Line(line(rt, text))));
    make(rt, at_once, &act);
    make(rt, one_by_one, &act);
    make(rt, one_by_one, &Act::Flush(A));
}

/// Whether one flush of many lines shows what a flush after each of them does, and leaves no point bad.
fn flushed_at_once<P: Played>(rt: &(impl Abort + AllocGlobal)) -> bool {
    let mut at_once: P = typescript(rt);
    let mut one_by_one: P = typescript(rt);
    for n in 0..25usize {
        write_in_both(rt, &mut at_once, &mut one_by_one, &TEXT[..n % 8]);
    }
    make(rt, &mut at_once, &Act::Flush(A));
    peeks(rt, &at_once, (0, 0, 0));
    have_same_rows(rt, &at_once, &one_by_one)
}

#[test]
fn many_lines_are_flushed_as_one_by_one(rt: HostRuntime) {
    assert!(rt; flushed_at_once::<Tested>(&rt));
}

/// Whether a flush of many lines with a sketch shows the same as a flush after each line, has the answer and
/// the entry of a flush, and leaves no point bad.
fn flushed_with_a_sketch<P: Played>(rt: &(impl Abort + AllocGlobal)) -> bool {
    let mut at_once: P = typescript(rt);
    let mut one_by_one: P = typescript(rt);
    for n in 0..25usize {
        write_in_both(rt, &mut at_once, &mut one_by_one, &TEXT[..n % 8]);
    }
    let reply = at_once.flush_with(rt, &maker_of(rt, &Act::Flush(A)), A);
    peeks(rt, &at_once, (0, 0, 0));
    reply.answer.same(&DONE) && have_same_rows(rt, &at_once, &one_by_one)
}

/// The same where no sketch may be put: all of the screen is bad, and what waits is executed.
fn flushed_in_spite_of_a_sketch<P: Played>(rt: &(impl Abort + AllocGlobal)) -> bool {
    let parts = [Part::Leaf([64; 3], [32; 3], Shown::Solid(3))];
    let mut with_one: P = P::start(rt, Size { wide: 64, high: 32 }, &parts);
    let mut without: P = with_one.again(rt);
    with_one.flush_with(rt, &maker_of(rt, &Act::Flush(A)), A);
    make(rt, &mut without, &Act::Flush(A));
    peeks(rt, &with_one, (2048, 0, 0));
    have_same_rows(rt, &with_one, &without)
}

#[test]
fn many_lines_are_flushed_with_a_sketch(rt: HostRuntime) {
    assert!(rt; flushed_with_a_sketch::<Tested>(&rt));
}

#[test]
fn a_sketch_is_not_put_over_what_is_bad(rt: HostRuntime) {
    assert!(rt; flushed_in_spite_of_a_sketch::<Tested>(&rt));
}
