//! Lines that are read apart from those before them.
use super::ends::made;
use std::process::Abort;
use tr_reader::{Reader, Steps};
use tr_script::{take_line, take_step};

/// An opening with one window, and the first step of a part.
const BEFORE: &str = "trestle 1
screen 4 1 map8
leaf a 0 4 4 0 1 1 solid 1
root a
begin
@a flush";

/// A reader behind these lines.
fn reader_of(rt: &(impl Abort + AllocGlobal)) -> Reader<'static> {
    let mut reader = Reader::new(rt.alloc());
    for (index, line) in BEFORE.lines().enumerate() {
        made(
            rt,
            take_line(
                rt.alloc(),
                &mut reader,
                &mut Vec::new(rt.alloc()),
                index + 1,
                line.as_bytes(),
            ),
        );
    }
    reader
}

/// Whether a line of this number that is read apart from those before it, behind one step, is taken or isn't,
/// and how many steps there are then. One that isn't taken leaves the step that was there.
fn answers(
    rt: &(impl Abort + AllocGlobal),
    reader: &Reader,
    number: usize,
    line: &str,
    taken: bool,
    count: usize,
) -> bool {
    assert!(rt; reader.is_at_steps());
    let mut steps = Steps::new(rt.alloc());
    let first = made(
        rt,
        take_step(
            rt.alloc(),
            reader,
            &mut steps,
            &mut Vec::new(rt.alloc()),
            7,
            "@a tint 5".as_bytes(),
        ),
    );
    let second = made(
        rt,
        take_step(
            rt.alloc(),
            reader,
            &mut steps,
            &mut Vec::new(rt.alloc()),
            number,
            line.as_bytes(),
        ),
    );
    first && second == taken && steps.len() == count
}

#[test]
fn lines_apart(rt: HostRuntime) {
    let reader = reader_of(&rt);
    for (number, line, taken, count) in [
        (8, "@a flush", true, 2),
        (8, "@a tint 3", true, 2),
        (8, "mouse 1 down 1", true, 2),
        (100_000, "move a 1 0", true, 2),
        (100_001, "@a flush", false, 1),
        (8, "", true, 1),
        (8, "# sync", true, 1),
        (100_001, "", false, 1),
        (8, "sync", false, 1),
        (8, "dump", false, 1),
        (8, "end", false, 1),
        (8, "root a", false, 1),
        (8, "@b flush", false, 1),
        (8, "@a line x", false, 1),
        (8, "@a tint 256", false, 1),
        (8, "what is this", false, 1),
        (8, "@a flush\t", false, 1),
    ] {
        assert!(rt;
            answers(&rt, &reader, number, line, taken, count),
            "{number} {line}"
        );
    }
    drop(reader);
}
