//! A script of 75 bytes and a stream of 19 that come byte by byte, and are cut: each read and each write
//! fails in turn.
use crate::ends::made;
use crate::faults::{DUMP, PIXEL, PIXEL_STREAM, READ_FAULT, end_of};
use std::process::Abort;
use tr_io::{MemorySink, PieceSource};

/// A call: its words, the script or the stream, and the read and the write that fail, 0 for none. A read
/// gives one byte, and a write takes 4 at most.
#[derive(Clone, Copy)]
struct Call<'a> {
    texts: &'a [&'a str],
    script: &'a [u8],
    read: u64,
    write: u64,
}

/// Whether a call ends with this status, with this text written, and with a stage exactly where the status
/// is 0 and a script was played.
fn ends(rt: &(impl Abort + AllocGlobal), call: &Call, status: u8, text: &[u8]) -> bool {
    let alloc = rt.alloc();
    let script = made(rt, Vec::from_slice(alloc, call.script));
    let read = made(rt, Vec::from_slice(alloc, &[call.read]));
    let mut source = PieceSource::new(script, 1, read);
    let write = made(rt, Vec::from_slice(alloc, &[call.write]));
    let mut sink = MemorySink::new(alloc, 4, write);
    let (answered, entries) = end_of(rt, call.texts, &mut source, &mut sink);
    let is_played = status == 0 && call.texts != ["show"].as_slice();
    let is_due = answered == status && entries.is_some() == is_played;
    is_due && sink.written() == text
}

/// A script that is played, and of which this read fails.
fn fails_at_read(read: u64) -> Call<'static> {
    Call {
        texts: &["serial"],
        script: PIXEL,
        read,
        write: 0,
    }
}

#[test]
fn each_read_fails(rt: HostRuntime) {
    for read in 1..=76 {
        assert!(rt;
            ends(&rt, &fails_at_read(read), 4, READ_FAULT),
            "read {read}"
        );
    }
    assert!(rt; ends(&rt, &fails_at_read(77), 0, DUMP), "none");
}

/// A call: its words, the script or the stream, the read and the write that fail, its status and what is
/// written.
type Row<'a> = (&'a [&'a str], &'a [u8], u64, u64, u8, &'a [u8]);

/// Whether a call ends as its row says.
fn comes_out(rt: &(impl Abort + AllocGlobal), row: &Row) -> bool {
    let (texts, script, read, write, status, text) = *row;
    let call = Call {
        texts,
        script,
        read,
        write,
    };
    ends(rt, &call, status, text)
}

#[test]
fn each_write_fails_and_the_script_is_cut(rt: HostRuntime) {
    let serial = ["serial"].as_slice();
    let show = ["show"].as_slice();
    for (place, row) in [
        (serial, PIXEL, 0, 1, 5, b"".as_slice()),
        (serial, PIXEL, 0, 2, 5, b"dump"),
        (serial, PIXEL, 0, 3, 5, b"dump 1 1"),
        (serial, PIXEL, 0, 4, 5, b"dump 1 1 map"),
        (serial, PIXEL, 0, 5, 5, b"dump 1 1 map8\n07"),
        (serial, PIXEL, 0, 6, 0, DUMP),
        (serial, PIXEL, 1, 1, 5, b""),
        (&["serial", "x"], PIXEL, 0, 1, 5, b""),
        (serial, &PIXEL[..0], 0, 0, 3, b"refused: line 1 B8\n"),
        (serial, &PIXEL[..1], 0, 0, 3, b"refused: line 1 B1\n"),
        (serial, &PIXEL[..7], 0, 0, 3, b"refused: line 1 B1\n"),
        (serial, &PIXEL[..8], 0, 0, 3, b"refused: line 1 B2\n"),
        (serial, &PIXEL[..9], 0, 0, 3, b"refused: line 2 B8\n"),
        (serial, &PIXEL[..10], 0, 0, 3, b"refused: line 2 B8\n"),
        (serial, &PIXEL[..71], 0, 0, 3, b"refused: line 7 B8\n"),
        (serial, &PIXEL[..73], 0, 0, 3, b"refused: line 7 B1\n"),
        (serial, &PIXEL[..74], 0, 0, 0, DUMP),
        (show, PIXEL_STREAM, 1, 0, 4, READ_FAULT),
        (show, PIXEL_STREAM, 6, 0, 4, READ_FAULT),
        (show, PIXEL_STREAM, 19, 0, 4, READ_FAULT),
        (show, PIXEL_STREAM, 20, 0, 4, READ_FAULT),
        (show, PIXEL_STREAM, 21, 0, 0, DUMP),
        (show, PIXEL_STREAM, 0, 3, 5, b"dump 1 1"),
        (show, &PIXEL_STREAM[..0], 0, 0, 0, b""),
        (show, &PIXEL_STREAM[..5], 0, 0, 3, b"refused: byte 0 M4\n"),
        (show, &PIXEL_STREAM[..6], 0, 0, 3, b"refused: byte 6 M4\n"),
        (show, &PIXEL_STREAM[..14], 0, 0, 3, b"refused: byte 14 M4\n"),
        (show, &PIXEL_STREAM[..18], 0, 0, 3, b"refused: byte 14 M4\n"),
        (show, &PIXEL_STREAM[1..], 0, 0, 3, b"refused: byte 0 M1\n"),
        (show, &PIXEL_STREAM[6..], 0, 0, 3, b"refused: byte 0 M3\n"),
    ]
    .iter()
    .enumerate()
    {
        assert!(rt; comes_out(&rt, row), "at {place}");
    }
}
