//! Sources and sinks of bytes, of which some calls fail.
use super::ends::made;
use std::process::Abort;
use tr_io::{
    Failed, MemorySink, MemorySource, Sink, Source, StdSink, StdSource, SteadySink, SteadySource,
};

/// One read through the bound.
fn read_piece<S: Source>(source: &mut S, buf: &mut [u8]) -> Result<usize, Failed> {
    source.read(buf)
}

/// Whether one write through the bound, with room for the piece, answers this.
fn answers<K: Sink>(
    rt: &impl Abort,
    sink: &mut K,
    piece: &[u8],
    want: Result<usize, Failed>,
) -> bool {
    made(rt, sink.reserve(piece.len()));
    sink.write(piece) == want
}

/// What a read answers, and what is read and left then.
type Read<'a> = (Result<usize, Failed>, &'a [u8], &'a [u8]);

/// Whether one read answers this.
fn reads(source: &mut MemorySource, buf: &mut [u8], want: &Read) -> bool {
    let (answer, read, left) = *want;
    read_piece(source, buf) == answer && *buf == *read && source.left() == left
}

/// Whether a source fails at the reads that it is to fail at, and loses nothing then.
fn fails_at_planned_reads(rt: &(impl Abort + AllocGlobal)) -> bool {
    let bytes = made(rt, Vec::from_slice(rt.alloc(), b"abcdefg"));
    let fails = made(rt, Vec::from_slice(rt.alloc(), &[2, 5]));
    let mut source = MemorySource::new(bytes, fails);
    let mut buf = [0u8; 3];
    let mut is_well = true;
    for want in &[
        (Ok(3), b"abc".as_slice(), b"defg".as_slice()),
        (Err(Failed), b"abc", b"defg"),
        (Ok(3), b"def", b"g"),
        (Ok(1), b"gef", b""),
        (Err(Failed), b"gef", b""),
        (Ok(0), b"gef", b""),
    ] {
        is_well = reads(&mut source, &mut buf, want) && is_well;
    }
    is_well && source.faults() == 2
}

/// A piece, what its write answers, and what is written then.
type Written<'a> = (&'a [u8], Result<usize, Failed>, &'a [u8]);

/// Whether one write answers this.
fn writes(rt: &impl Abort, sink: &mut MemorySink, want: &Written) -> bool {
    let (piece, answer, written) = *want;
    answers(rt, sink, piece, answer) && sink.written() == written
}

/// Whether a sink fails at the writes that it is to fail at, and takes two bytes at most in another one.
fn fails_at_planned_writes(rt: &(impl Abort + AllocGlobal)) -> bool {
    let fails = made(rt, Vec::from_slice(rt.alloc(), &[1, 3]));
    let mut sink = MemorySink::new(rt.alloc(), 2, fails);
    let mut is_well = true;
    for want in &[
        (b"hello".as_slice(), Err(Failed), b"".as_slice()),
        (b"hello", Ok(2), b"he"),
        (b"llo", Err(Failed), b"he"),
        (b"llo", Ok(2), b"hell"),
        (b"o", Ok(1), b"hello"),
        (b"", Ok(0), b"hello"),
    ] {
        is_well = writes(rt, &mut sink, want) && is_well;
    }
    is_well && sink.faults() == 2
}

/// Whether streams that never fail give and take all.
fn are_steady(rt: &(impl Abort + AllocGlobal)) -> bool {
    let mut source = SteadySource::new(made(rt, Vec::from_slice(rt.alloc(), b"abcd")));
    let mut buf = [0u8; 3];
    let has_read = read_piece(&mut source, &mut buf) == Ok(3) && buf == *b"abc";
    let mut sink = SteadySink::new(rt.alloc());
    let has_written = answers(rt, &mut sink, &buf, Ok(3));
    has_read
        && source.left() == b"d".as_slice()
        && has_written
        && sink.written() == b"abc".as_slice()
}

/// Whether a fault says what it is.
fn is_told(rt: &(impl Abort + AllocGlobal)) -> bool {
    made(rt, format!(in rt.alloc(); "{Failed}")).as_str() == "a read or a write failed"
}

#[test]
fn streams_in_memory_fail_as_planned(rt: HostRuntime) {
    assert!(rt; fails_at_planned_reads(&rt));
    assert!(rt; fails_at_planned_writes(&rt));
    assert!(rt; are_steady(&rt) && is_told(&rt));
}

#[test]
fn standard_streams_take_an_empty_piece(rt: HostRuntime) {
    let is_read = read_piece(&mut StdSource::new(rt.stdin()), &mut []) == Ok(0);
    assert!(rt; is_read && answers(&rt, &mut StdSink::new(rt.stdout()), b"", Ok(0)));
}
