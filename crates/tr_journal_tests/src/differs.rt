//! The lines of differences.
use super::ends::made;
use super::names::TwoNames;
use super::steps::A;
use std::process::Abort;
use std::test::Fail;
use tr_dump::differs_line;
use tr_journal::{Actor, Apart, Difference, Step};
use w_plain::SolidCmd;

/// The line of A's client's first step, a tint of 8, where the stage has a tint of 7; and that of an item of
/// the opening.
const LINES: &[u8] = b"differs leaf:a 1: tint 8 / tint 7
differs opening 2: - / -
";

/// Appends both lines.
fn lines(rt: &(impl Abort + AllocGlobal)) -> Vec<u8> {
    let own = Difference {
        place: 1,
        what: Apart::Own {
            actor: Actor::Leaf(A),
            made: Some(Step::Act {
                leaf: A,
                cmd: SolidCmd::Tint(8),
            }),
            found: Some(Step::Act {
                leaf: A,
                cmd: SolidCmd::Tint(7),
            }),
        },
    };
    let opening: Difference<SolidCmd> = Difference {
        place: 2,
        what: Apart::Opening,
    };
    let mut out = Vec::new(rt.alloc());
    made(rt, differs_line(&own, &TwoNames, &mut out));
    made(rt, differs_line(&opening, &TwoNames, &mut out));
    out
}

#[test]
fn a_difference_has_a_line(rt: HostRuntime) -> Result<(), Fail> {
    let lines = lines(&rt);
    assert!(rt; lines.as_slice() == LINES);
    Ok(())
}
