//! The answers of a session.
use crate::ends::made;
use std::process::Abort;
use tr_io::{MemorySink, PieceSource};
use tr_session::serve;

/// One window of four pixels.
const OPENING: &str = "trestle 1
screen 4 1 map8
leaf a 0 4 4 0 1 1 solid 7
root a
begin
";

/// The answers to it.
const OPENED: &str = "ok 0
ok 0
ok 0
ok 0
ok 0
";

/// The status of a session, and its answers. The input comes in pieces of this size, these reads and writes
/// fail, and a write takes at most 5 bytes.
fn served(
    rt: &(impl Abort + AllocGlobal),
    input: &str,
    piece: usize,
    reads: &[u64],
    writes: &[u64],
) -> (u8, Vec<u8>) {
    let alloc = rt.alloc();
    let bytes = made(rt, Vec::from_slice(alloc, input.as_bytes()));
    let mut source = PieceSource::new(bytes, piece.max(1), made(rt, Vec::from_slice(alloc, reads)));
    let mut sink = MemorySink::new(alloc, 5, made(rt, Vec::from_slice(alloc, writes)));
    let status = match serve(alloc, &mut source, &mut sink) {
        Ok(()) => 0,
        Err(stopped) => stopped.code(),
    };
    let written = made(rt, Vec::from_slice(alloc, sink.written()));
    (status, written)
}

/// Whether lines after the opening have these answers, in pieces of 1, 2, 7 and 65,536 bytes.
fn answers(rt: &(impl Abort + AllocGlobal), lines: &str, want: &str) -> bool {
    let alloc = rt.alloc();
    let input = made(rt, format!(in alloc; "{OPENING}{lines}"));
    let text = made(rt, format!(in alloc; "{OPENED}{want}"));
    for piece in [1, 2, 7, 65_536] {
        let (status, written) = served(rt, input.as_str(), piece, &[], &[]);
        if status != 0 || written.as_slice() != text.as_bytes() {
            return false;
        }
    }
    true
}

#[test]
fn lines_are_answered(rt: HostRuntime) {
    for (place, (lines, want)) in [
        ("", ""),
        ("!quit\ndump\n", "ok 0\n"),
        // Without a line feed it is no line.
        ("dump", ""),
        ("\n# a comment\n \n", "ok 0\nok 0\nrefused B1\n"),
        // A report behind a step makes a sync, which the journal has.
        (
            "@a tint 5\njournal\n",
            "ok 1\nok\nok 3\njournal 2\n1 leaf:a win:a tint 5 = ok\n2 player mu sync = ok\n",
        ),
        ("dump\n", "ok 2\ndump 4 1 map8\n07070707\n"),
        (
            "sync\npeek\n",
            "ok 1\nok\nok 1\npeek bad 4 waiting 0 stale 0\n",
        ),
        (
            "end\ndump\n!save\n",
            "ok 0\nrefused B8\nok 6\ntrestle 1\nscreen 4 1 map8\nleaf a 0 4 4 0 1 1 solid 7\nroot a\n\
             begin\nend\n",
        ),
        (
            "@a tint 5\n!save\n",
            "ok 1\nok\nok 8\ntrestle 1\nscreen 4 1 map8\nleaf a 0 4 4 0 1 1 solid 7\nroot a\nbegin\n\
             @a tint 5\nsync\nend\n",
        ),
        (
            "!sav\n!save \nroot a\n@b tint 5\n@a line x\n",
            "refused B1\nrefused B1\nrefused B5\nrefused B3\nrefused B10\n",
        ),
        (
            "mouse 1 up 1\nmotion 1 0 0\nmotion 0 0 0\n",
            "ok 1\nN9\nok 1\nok\nrefused B2\n",
        ),
    ]
    .iter()
    .enumerate()
    {
        assert!(rt; answers(&rt, lines, want), "at {place}");
    }
}

#[test]
fn before_begin(rt: HostRuntime) {
    for (place, (lines, want)) in [
        ("!save\n!cut\n", "refused B5\nrefused B5\n"),
        (
            "trestle 1\nscreen 4 1 map8\nbegin\nroot a\n",
            "ok 0\nok 0\nrefused B6\nrefused B3\n",
        ),
        // A line that is refused declares nothing.
        (
            "trestle 1\nscreen 4 1 map8\nleaf a 0 4 4 0 1 1 solid 777\nroot a\n\
             leaf a 0 4 4 0 1 1 solid 7\nleaf a 0 4 4 0 1 1 solid 7\n",
            "ok 0\nok 0\nrefused B2\nrefused B3\nok 0\nrefused B4\n",
        ),
    ]
    .iter()
    .enumerate()
    {
        let (status, written) = served(&rt, lines, 3, &[], &[]);
        assert!(rt;
            status == 0 && written.as_slice() == want.as_bytes(),
            "at {place}"
        );
    }
}

/// Whether a line of this many bytes has this answer.
fn long_line(rt: &(impl Abort + AllocGlobal), bytes: usize, want: &str) -> bool {
    let alloc = rt.alloc();
    let mut line = made(rt, vec![in alloc; b'#'; bytes]);
    made(rt, line.push(b'\n'));
    let text = made(rt, String::from_utf8(line));
    let (status, written) = served(rt, text.as_str(), 1000, &[], &[]);
    status == 0 && written.as_slice() == want.as_bytes()
}

#[test]
fn long_lines(rt: HostRuntime) {
    assert!(rt; long_line(&rt, 1024, "ok 0\n"));
    assert!(rt; long_line(&rt, 1025, "refused B9\n"));
    assert!(rt; long_line(&rt, 200_000, "refused B9\n"));
}

#[test]
fn faults_end_a_session(rt: HostRuntime) {
    for (place, (reads, writes, status, want)) in [
        ([1].as_slice(), [].as_slice(), 4, ""),
        (&[2], &[], 4, "ok 0\nok 0\n"),
        (&[], &[1], 5, ""),
        (&[], &[2], 5, "ok 0\n"),
    ]
    .iter()
    .enumerate()
    {
        let (ended, written) = served(&rt, "trestle 1\nscreen 4 1 map8\n", 100, reads, writes);
        assert!(rt;
            ended == *status && written.as_slice() == want.as_bytes(),
            "at {place}"
        );
    }
}
