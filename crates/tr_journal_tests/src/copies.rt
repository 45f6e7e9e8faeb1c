//! Answers, steps and entries that are copied and compared.
use super::digits::Digit;
use super::ends::made;
use super::journals::entry;
use super::steps::steps;
use std::process::Abort;
use std::test::Fail;
use tr_base::{Event, Line};
use tr_desk::DeskFault;
use tr_forest::NodeFault;
use tr_journal::{Answer, Entry, Step};

/// What is copied and compared.
trait Copied: Sized {
    fn copied(&self, rt: &(impl Abort + AllocGlobal)) -> Self;

    fn is(&self, other: &Self) -> bool;
}

impl Copied for Answer {
    fn copied(&self, rt: &(impl Abort + AllocGlobal)) -> Self {
        made(rt, self.copy())
    }

    fn is(&self, other: &Self) -> bool {
        self.same(other)
    }
}

impl Copied for Step<Digit> {
    fn copied(&self, rt: &(impl Abort + AllocGlobal)) -> Self {
        made(rt, self.copy(rt.alloc()))
    }

    fn is(&self, other: &Self) -> bool {
        self.same(other)
    }
}

impl Copied for Entry<Digit> {
    fn copied(&self, rt: &(impl Abort + AllocGlobal)) -> Self {
        made(rt, self.copy(rt.alloc()))
    }

    fn is(&self, other: &Self) -> bool {
        self.same(other)
    }
}

/// Whether the copy of each value is the same as that value alone.
fn are_copied<T: Copied + Drop>(rt: &(impl Abort + AllocGlobal), values: &[T]) -> bool {
    for (i, value) in values.iter().enumerate() {
        let copied = value.copied(rt);
        for (j, other) in values.iter().enumerate() {
            if copied.is(other) != (i == j) {
                return false;
            }
        }
    }
    true
}

/// An answer of each sort.
fn answers(rt: &(impl Abort + AllocGlobal)) -> [Answer; 6] {
    [
        Answer::Done,
        Answer::Taken(Event::Key { time: 7, code: 65 }),
        Answer::Value(made(rt, Line::of(rt.alloc(), b"hi"))),
        Answer::Empty,
        Answer::Tree(NodeFault::WrongKind),
        Answer::Desk(DeskFault::Held),
    ]
}

#[test]
fn copies_are_the_same(rt: HostRuntime) -> Result<(), Fail> {
    let entries: [Entry<Digit>; 3] = [entry(7, 0), entry(8, 0), entry(7, 1)];
    assert!(rt; are_copied(&rt, &answers(&rt)), "answers");
    assert!(rt; are_copied(&rt, &steps()), "steps");
    assert!(rt; are_copied(&rt, &entries), "entries");
    Ok(())
}
