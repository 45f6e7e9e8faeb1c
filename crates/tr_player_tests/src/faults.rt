//! Which cause is answered where several stand together, and what is written and read then.
use crate::ends::made;
use std::process::Abort;
use tr_base::NoMemory;
use tr_io::{Failed, MemorySink, MemorySource, Sink, Source, SteadySource};
use tr_player::serial_call;

const USAGE: &[u8] = b"usage: trestle play|serial|check|mirror|show|gen N\n";

pub(crate) const READ_FAULT: &[u8] = b"read fault\n";

const TOO_LARGE: &[u8] = b"refused: line 0 B7\n";

/// One window of one pixel, and a dump of it.
pub(crate) const PIXEL: &[u8] =
    b"trestle 1\nscreen 1 1 map8\nleaf a 1 1 1 1 1 1 solid 7\nroot a\nbegin\ndump\nend\n";

/// What it prints.
pub(crate) const DUMP: &[u8] = b"dump 1 1 map8\n07\n";

/// What a check of it prints.
const CHECKED: &[u8] = b"step 1 bad 0 stale 0 outside 0\ndump 1 1 map8\n07\n";

/// The stream of its screen: a Screen, a Fill and a Cut.
pub(crate) const PIXEL_STREAM: &[u8] = &[1, 0, 1, 0, 1, 1, 3, 0, 0, 0, 0, 0, 1, 7, 4, 0, 0, 0, 1];

/// A script that ends too early.
const NO_END: &[u8] = b"trestle 1\nscreen 1 1 map8\n";

/// Why it is refused.
const NO_END_TEXT: &[u8] = b"refused: line 3 B8\n";

pub(crate) fn words_of(rt: &(impl Abort + AllocGlobal), texts: &[&str]) -> Vec<String> {
    let mut words = Vec::new(rt.alloc());
    for text in texts {
        let word = made(rt, String::from_str(rt.alloc(), text));
        made(rt, words.push(word));
    }
    words
}

/// The status that a call ends in, and how many entries the journal of its stage has, if it hands one out.
pub(crate) fn end_of<S: Source, K: Sink>(
    rt: &(impl Abort + AllocGlobal),
    texts: &[&str],
    source: &mut S,
    sink: &mut K,
) -> (u8, Option<usize>) {
    let words = words_of(rt, texts);
    let (status, stage) = serial_call(rt.alloc(), &words, source, sink).into_stage();
    match stage {
        Some(stage) => {
            let entries = stage.journal().len();
            drop(stage);
            (status, Some(entries))
        }
        None => (status, None),
    }
}

/// A call: its words, the script or the stream, the reads and the writes that fail. A write takes 4 bytes at
/// most.
#[derive(Clone, Copy)]
struct Call<'a> {
    texts: &'a [&'a str],
    script: &'a [u8],
    reads: &'a [u64],
    writes: &'a [u64],
}

/// What it ends in: its status, what is written, and how many of its bytes are left unread.
#[derive(Clone, Copy)]
struct End<'a> {
    status: u8,
    text: &'a [u8],
    left: usize,
}

/// Whether a call ends so, with a stage exactly where its status is 0 and a script was played.
fn ends(rt: &(impl Abort + AllocGlobal), call: &Call, want: &End) -> bool {
    let alloc = rt.alloc();
    let script = made(rt, Vec::from_slice(alloc, call.script));
    let mut source = MemorySource::new(script, made(rt, Vec::from_slice(alloc, call.reads)));
    let writes = made(rt, Vec::from_slice(alloc, call.writes));
    let mut sink = MemorySink::new(alloc, 4, writes);
    let (status, entries) = end_of(rt, call.texts, &mut source, &mut sink);
    let is_played = status == 0 && call.texts != ["show"].as_slice();
    let is_due = status == want.status && entries.is_some() == is_played;
    is_due && sink.written() == want.text && source.left().len() == want.left
}

/// A call of one word: the script or the stream, the reads and the writes that fail, its status and what is
/// written.
type Row<'a> = (&'a str, &'a [u8], &'a [u64], &'a [u64], u8, &'a [u8]);

/// Whether a call ends as its row says. Nothing is read where the word is unknown or the first read fails.
fn comes_out(rt: &(impl Abort + AllocGlobal), row: &Row) -> bool {
    let (word, script, reads, writes, status, text) = *row;
    let is_read = word != "paint" && reads != [1].as_slice();
    let left = if is_read { 0 } else { script.len() };
    let call = Call {
        texts: &[word],
        script,
        reads,
        writes,
    };
    ends(rt, &call, &End { status, text, left })
}

#[test]
fn causes_are_looked_at_in_their_order(rt: HostRuntime) {
    let none = [].as_slice();
    for (place, row) in [
        // The usage before a read fault, with nothing read.
        ("paint", PIXEL, [1].as_slice(), none, 2, USAGE),
        ("paint", PIXEL, none, [14].as_slice(), 2, USAGE),
        // A read fault before the script: at the first read, and at the one that finds the end.
        ("serial", PIXEL, &[1], none, 4, READ_FAULT),
        ("serial", PIXEL, &[2], none, 4, READ_FAULT),
        ("serial", PIXEL, &[3], none, 0, DUMP),
        ("serial", NO_END, &[2], none, 4, READ_FAULT),
        ("check", NO_END, none, none, 3, NO_END_TEXT),
        // A write fault at last, with a prefix of what is due.
        ("paint", PIXEL, none, &[1], 5, b""),
        ("paint", PIXEL, none, &[10], 5, &USAGE[..36]),
        ("check", PIXEL, &[2], &[1], 5, b""),
        ("check", PIXEL, &[2], &[3], 5, b"read fau"),
        ("serial", NO_END, none, &[2], 5, b"refu"),
        ("serial", PIXEL, none, &[1], 5, b""),
        ("serial", PIXEL, none, &[2], 5, b"dump"),
        ("serial", PIXEL, none, &[5], 5, b"dump 1 1 map8\n07"),
        ("serial", PIXEL, none, &[6], 0, DUMP),
        ("check", PIXEL, none, &[9], 5, &CHECKED[..32]),
        // The same where a stream is written, and where one is read.
        ("mirror", PIXEL, &[1], none, 4, READ_FAULT),
        ("mirror", PIXEL, &[2], none, 4, READ_FAULT),
        ("mirror", NO_END, &[2], none, 4, READ_FAULT),
        ("mirror", NO_END, none, &[2], 5, b"refu"),
        ("mirror", PIXEL, none, &[1], 5, b""),
        ("mirror", PIXEL, none, &[3], 5, &PIXEL_STREAM[..8]),
        ("mirror", PIXEL, none, &[5], 5, &PIXEL_STREAM[..16]),
        ("mirror", PIXEL, none, &[6], 0, PIXEL_STREAM),
        ("show", PIXEL_STREAM, &[1], none, 4, READ_FAULT),
        ("show", PIXEL_STREAM, &[2], none, 4, READ_FAULT),
        ("show", PIXEL_STREAM, &[3], none, 0, DUMP),
        ("show", &PIXEL_STREAM[..17], &[2], none, 4, READ_FAULT),
        (
            "show",
            &PIXEL_STREAM[..17],
            none,
            none,
            3,
            b"refused: byte 14 M4\n",
        ),
        ("show", &PIXEL_STREAM[..17], none, &[3], 5, b"refused:"),
        ("show", PIXEL_STREAM, none, &[1], 5, b""),
        ("show", PIXEL_STREAM, none, &[5], 5, b"dump 1 1 map8\n07"),
    ]
    .iter()
    .enumerate()
    {
        assert!(rt; comes_out(&rt, row), "at {place}");
    }
}

/// Whether a text of so many bytes is refused in this way, and so many bytes are left unread.
fn is_refused(rt: &(impl Abort + AllocGlobal), bytes: usize, text: &[u8], left: usize) -> bool {
    let script = made(rt, vec![in rt.alloc(); b'#'; bytes]);
    let call = Call {
        texts: &["serial"],
        script: &script,
        reads: &[],
        writes: &[],
    };
    let end = End {
        status: 3,
        text,
        left,
    };
    ends(rt, &call, &end)
}

#[test]
fn too_long_a_text_is_not_read_to_its_end(rt: HostRuntime) {
    for (bytes, text, left) in [
        (4_194_304, b"refused: line 1 B9\n".as_slice(), 0),
        (4_194_305, TOO_LARGE, 0),
        (4_194_310, TOO_LARGE, 5),
    ] {
        assert!(rt; is_refused(&rt, bytes, text, left), "{bytes} bytes");
    }
}

#[test]
fn a_number_is_summed_up_and_nothing_is_read(rt: HostRuntime) {
    let mut source = SteadySource::new(made(&rt, Vec::from_slice(rt.alloc(), PIXEL)));
    let mut sink = MemorySink::new(rt.alloc(), 4, Vec::new(rt.alloc()));
    let (status, entries) = end_of(&rt, &["gen", "1"], &mut source, &mut sink);
    let is_read = source.left().len() != PIXEL.len();
    let is_summed = sink.written().starts_with(b"gen 1\nlines 2039\nentries ");
    assert!(rt; status == 0 && entries.is_some() && is_summed && !is_read);
}

/// A sink that has no memory for what is written.
#[derive(Drop)]
struct FullSink;

impl Sink for FullSink {
    ghost use Rattle.std.specs.Prelude.{None};

    ghost written = { λ _. None };

    ghost room = { λ _. 0 };

    ghost faults = { λ _. 0 };

    fn reserve(&mut self, _n: usize) -> Result<(), NoMemory> {
        Err(NoMemory)
    }

    fn write(&mut self, piece: &[u8]) -> Result<usize, Failed> {
        Ok(piece.len())
    }
}

#[test]
fn want_of_memory_has_a_status(rt: HostRuntime) {
    for word in ["serial", "check", "paint"] {
        let mut source = SteadySource::new(made(&rt, Vec::from_slice(rt.alloc(), PIXEL)));
        let (status, entries) = end_of(&rt, &[word], &mut source, &mut FullSink);
        assert!(rt; status == 6 && entries.is_none(), "{word}");
    }
}
