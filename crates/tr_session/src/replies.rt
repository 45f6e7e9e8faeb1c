//! The bytes of an answer.
ghost use Rattle.std.specs.Prelude.{◌≡◌, ◌≤◌, ◌++◌, [], OnOk, IfOk, decimal, length, vec_capacity};
ghost use Rattle.tr_session.specs.Answers.{text as texts, saved as saves, bytes as counted, refused as refuses, no_memory as lacks, answer_bytes, line_count, saved_tail};

use itoa::Buffer;
use std::alloc::Global;
use std::marker::Model;
use tr_base::NoMemory;
use tr_grammar::Code;
use tr_io::SteadySink;
use tr_output::Output;

/// The room for a first line and the outcome of a step. An answer and two events for each of 32 windows have
/// at most 5,000 bytes. No clause says so: a longer outcome asks for memory.
const HEAD_ROOM: usize = 8192;

/// The bytes of an answer: its first line, with the lines after it if they are short, and then the rest.
/// There is always room for a first line.
#[derive(Drop)]
pub(crate) struct Reply {
    head: Vec<u8>,
    body: Vec<u8>,
}

impl Model for Reply {
    ghost use Rattle.std.specs.Prelude.{ℕ, List, ◌++◌, ◌≤◌, vec_capacity};

    ghost Value = { List ℕ };

    ghost view = { λ r. r.head.items ++ r.body.items };

    ghost invariant = { λ r. 8192 ≤ vec_capacity r.head };
}

impl Reply {
    /// An empty one.
    pub(crate) fn new(alloc: Global) -> Result<Reply, NoMemory>
        ensures { IfOk result (λ r. r ≡ []) }
    {
        Ok(Reply {
            head: Vec::with_capacity(alloc, HEAD_ROOM)?,
            body: Vec::new(alloc),
        })
    }

    /// Its bytes, in two pieces, the second of which is often empty.
    pub(crate) fn pieces(&self) -> (&[u8], &[u8])
        ensures { result.0.now ++ result.1.now ≡ self.now }
    {
        (self.head.as_slice(), self.body.as_slice())
    }

    /// The answer with no line after the first.
    pub(crate) fn set_empty(&mut self)
        ensures { self.new ≡ answer_bytes (texts []) }
    {
        self.body.clear();
        put_head(&mut self.head, b"ok ", 0, b"\n");
    }

    /// The answer with the lines of a text.
    pub(crate) fn set_text(&mut self, text: &[u8]) -> Result<(), NoMemory>
        ensures ok { OnOk result (self.new ≡ answer_bytes (texts text.now)) }
    {
        self.body.clear();
        put_head(&mut self.head, b"ok ", count_lines(text), b"\n");
        Ok(self.head.extend_from_slice(text)?)
    }

    /// The same for the text of a report.
    pub(crate) fn set_report(&mut self, text: &Output) -> Result<(), NoMemory>
        ensures { OnOk result (self.new ≡ answer_bytes (texts text.now)) }
    {
        let bytes = bytes_of(text)?;
        put_head(&mut self.head, b"ok ", count_lines(&bytes), b"\n");
        self.body = bytes;
        Ok(())
    }

    /// The answer with the lines of a script, which may be beyond a script's limits.
    pub(crate) fn set_saved(&mut self, text: Vec<u8>, is_beyond: bool)
        ensures { self.new ≡ answer_bytes (saves text.items is_beyond) }
    {
        put_head(
            &mut self.head,
            b"ok ",
            count_lines(&text),
            tail_of(is_beyond),
        );
        self.body = text;
    }

    /// The answer with bytes.
    pub(crate) fn set_bytes(&mut self, group: Vec<u8>)
        ensures { self.new ≡ answer_bytes (counted group.items) }
    {
        put_head(&mut self.head, b"bytes ", group.len(), b"\n");
        self.body = group;
    }

    /// The refusal of a line for this fault.
    pub(crate) fn set_refused(&mut self, code: Code)
        ensures { self.new ≡ answer_bytes (refuses code) }
    {
        self.body.clear();
        put_head(
            &mut self.head,
            b"refused B",
            usize::from(code.number()),
            b"\n",
        );
    }

    /// The refusal of a line for want of memory.
    pub(crate) fn set_no_memory(&mut self)
        ensures { self.new ≡ answer_bytes lacks }
    {
        self.body.clear();
        self.head.clear();
        // There is always room for it.
        self.head.extend_from_slice(b"refused memory\n").unwrap();
    }
}

/// Replaces the bytes by a first line: a word, a number and a tail. There is room for these.
fn put_head(head: &mut Vec<u8>, word: &[u8], number: usize, tail: &[u8])
    requires room { 8192 ≤ vec_capacity head.old }
    requires word { length word.now ≤ 16 }
    requires tail { length tail.now ≤ 16 }
    ensures items { head.new.items ≡ word.now ++ (decimal number ++ tail.now) }
    ensures room { 8192 ≤ vec_capacity head.new }
{
    let mut buffer = Buffer::new();
    head.clear();
    head.extend_from_slice(word).unwrap();
    head.extend_from_slice(buffer.format(number).as_bytes())
        .unwrap();
    head.extend_from_slice(tail).unwrap();
}

/// The end of the first line before the lines of a script.
fn tail_of(is_beyond: bool) -> &'static [u8]
    ensures tail { result.now ≡ saved_tail is_beyond }
    ensures short { length result.now ≤ 16 }
{
    if is_beyond { b" B7\n" } else { b"\n" }
}

/// The bytes of a report's text.
fn bytes_of(text: &Output) -> Result<Vec<u8>, NoMemory>
    ensures { IfOk result (λ bytes. bytes.items ≡ text.now) }
{
    let alloc = text.alloc();
    let mut sink = SteadySink::new(alloc);
    if text.write_to(&mut sink).is_err() {
        return Err(NoMemory);
    }
    Ok(Vec::from_slice(alloc, sink.written())?)
}

/// The number of line feeds of a text.
fn count_lines(text: &[u8]) -> usize
    ensures count { result ≡ line_count text.now }
    ensures most { result ≤ length text.now }
{
    let mut count = 0;
    for byte in text {
        if *byte == b'\n' {
            count += 1;
        }
    }
    count
}
