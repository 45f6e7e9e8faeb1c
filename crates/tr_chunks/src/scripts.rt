//! The reading of a whole script.
ghost use Rattle.std.specs.Prelude.{◌≡◌, ◌<◌, ◌≤◌, ◌+◌, ◌^◌, length, take, true, None, IfOk, IfErr};
ghost use Rattle.tr_grammar.specs.Scripts.{refusal_of, script_of, first_bad_line, after_all_lines, whole};
ghost use Rattle.tr_grammar.specs.Scripts.{IsReadCause, IsPlayableScript};
ghost use Rattle.tr_grammar.specs.States.{nothing_yet};
ghost use Rattle.tr_grammar.specs.Texts.{lines_of};
ghost use Rattle.tr_words.specs.Answers.{texts};
ghost use Rattle.tr_reader.specs.Adding.{is_at_steps};
ghost use Rattle.tr_chunks.specs.Chunks.{AreMarks, IsBehind, TakesAllOrNone, lines_from};

use crate::chunks::{LINES_A_MARK, take_chunks};
use std::alloc::Global;
use std::thread;
use std::thread::Threads;
use tr_base::NoMemory;
use tr_grammar::{Code, LONGEST_SCRIPT, LineRefused, ReadRefused};
use tr_reader::{Reader, Script};
use tr_script::{MOST_LINES, refused_at, take_line};
use tr_words::first_line;

/// The number of marks whose lines are worth a thread.
const MARKS_A_CHUNK: usize = 4;

/// The most threads that read.
const MOST_CHUNKS: usize = 8;

/// Lines that may make steps: their number, their marks, and the bytes behind them.
#[derive(Drop)]
struct Ahead<'a> {
    count: usize,
    marks: Vec<&'a [u8]>,
    behind: &'a [u8],
}

/// Whether the first line begins like a sync or the end.
fn ends_steps(bytes: &[u8]) -> bool {
    bytes.starts_with(b"sync") || bytes.starts_with(b"end")
}

/// The number of the first lines that may make steps, if at most `most` are examined: those before the first
/// one that begins like a sync or the end. Also returns the bytes behind them.
fn pass_steps(bytes: &[u8], most: usize) -> (usize, &[u8])
    ensures within { result.0 ≤ length (lines_of bytes.now) }
    ensures behind { IsBehind bytes.now result.0 result.1.now }
    ensures most { result.0 ≤ most }
{
    let mut count = 0;
    let mut behind = bytes;
    while count < most && !behind.is_empty() && !ends_steps(behind) {
        let (_, next) = first_line(behind);
        count += 1;
        behind = next;
    }
    (count, behind)
}

/// The same lines with their marks. They are fewer if memory runs out for the marks. If the guess is wrong
/// that they make steps, they are read one after another.
fn steps_ahead<'a>(alloc: Global, bytes: &'a [u8], most: usize) -> Ahead<'a>
    ensures marks { AreMarks result.count (texts result.marks.items) × (take result.count
        (lines_from (texts result.marks.items)) ≡ take result.count (lines_of bytes.now)) }
    ensures within { result.count ≤ length (lines_of bytes.now) }
    ensures behind { IsBehind bytes.now result.count result.behind.now }
    ensures most { result.count ≤ most }
{
    let mut count = 0;
    let mut marks = Vec::new(alloc);
    let mut behind = bytes;
    while count < most {
        let (lines, next) = pass_steps(behind, LINES_A_MARK.min(most - count));
        if lines == 0 || marks.push(behind).is_err() {
            break;
        }
        count += lines;
        behind = next;
        if lines < LINES_A_MARK {
            break;
        }
    }
    Ahead {
        count,
        marks,
        behind,
    }
}

/// The number of threads that read: one for each processor, if their number is known, and at most eight.
fn chunk_count<R: Threads>(rt: &R) -> usize
    ensures some { 0 < result }
    ensures most { result ≤ 8 }
{
    match thread::available_parallelism(rt) {
        Ok(count) => MOST_CHUNKS.min(count.get()),
        Err(_) => 1,
    }
}

/// Reads the `count` lines at these marks, which follow a step, in chunks, if there are enough of them for
/// two. The first is the line of this number. Returns whether they are read; else none is.
fn take_lines<R: Threads + Sync>(
    rt: &R,
    alloc: Global,
    reader: &mut Reader,
    first: usize,
    count: usize,
    marks: &[&[u8]],
) -> Result<bool, NoMemory>
    requires place { is_at_steps reader.old.place ≡ true }
    requires few { first + count < 2 ^ 32 }
    requires marks { AreMarks count (texts marks.now) }
    ensures { IfOk result
        (TakesAllOrNone reader.old first (take count (lines_from (texts marks.now))) reader.new) }
{
    if marks.len() <= MARKS_A_CHUNK {
        return Ok(false);
    }
    let size = MARKS_A_CHUNK.max(marks.len().div_ceil(chunk_count(rt)));
    if size >= marks.len() {
        return Ok(false);
    }
    take_chunks(rt, alloc, reader, first, count, marks, size)
}

/// Reads the lines of a text, starting with line 1: one after another, except that the lines after the first
/// step of a part, up to its end, are read in chunks if possible.
fn read_lines<R: Threads + Sync>(rt: &R, alloc: Global, bytes: &[u8]) -> Result<Script, ReadRefused>
    requires few { length bytes.now + 1 < 2 ^ 32 }
    ensures valid { IfOk result (λ s. first_bad_line nothing_yet 1 (lines_of bytes.now) ≡ None) }
    ensures script { IfOk result (λ s. s ≡ whole (after_all_lines nothing_yet (lines_of bytes.now))) }
    ensures playable { IfOk result (λ s. IsPlayableScript s) }
    ensures cause { IfErr result (λ e. IsReadCause (first_bad_line nothing_yet 1 (lines_of bytes.now)) e) }
{
    let mut reader = Reader::new(alloc);
    let mut words = Vec::new(alloc);
    let mut number = 1;
    let mut tried = 1;
    let mut rest = bytes;
    while !rest.is_empty() {
        let (line, behind) = first_line(rest);
        match take_line(alloc, &mut reader, &mut words, number, line) {
            Ok(()) => {}
            Err(LineRefused::NoMemory) => {
                drop(reader);
                return Err(ReadRefused::NoMemory);
            }
            Err(LineRefused::Fault(code)) => {
                drop(reader);
                return Err(refused_at(number, code));
            }
        }
        number += 1;
        rest = behind;
        if number >= tried && reader.is_at_steps() {
            let ahead = steps_ahead(alloc, rest, MOST_LINES.saturating_sub(number - 1));
            tried = number + ahead.count;
            let Ok(taken) = take_lines(rt, alloc, &mut reader, number, ahead.count, &ahead.marks)
            else {
                drop(reader);
                return Err(ReadRefused::NoMemory);
            };
            if taken {
                number = tried;
                rest = ahead.behind;
            }
        }
    }
    match reader.finish()? {
        Some(script) => Ok(script),
        None => Err(refused_at(number, Code::B8)),
    }
}

/// Reads a script as `read_script` does, but long lists of steps by threads, up to eight of them.
#[tactic(auto, unfolding(tr_grammar::specs::Scripts::refusal_of, tr_grammar::specs::Scripts::script_of))]
pub fn read_script_in_chunks<R: Threads + Sync>(
    rt: &R,
    alloc: Global,
    bytes: &[u8],
) -> Result<Script, ReadRefused>
    ensures valid { IfOk result (λ s. refusal_of bytes.now ≡ None) }
    ensures script { IfOk result (λ s. s ≡ script_of bytes.now) }
    ensures playable { IfOk result (λ s. IsPlayableScript s) }
    ensures cause { IfErr result (λ e. IsReadCause (refusal_of bytes.now) e) }
{
    if bytes.len() > LONGEST_SCRIPT {
        return Err(refused_at(0, Code::B7));
    }
    read_lines(rt, alloc, bytes)
}
