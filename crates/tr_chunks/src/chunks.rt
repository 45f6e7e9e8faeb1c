//! Chunks: lines that make steps, cut into stretches, which are read side by side.
ghost use Rattle.std.specs.Prelude.{◌≡◌, ◌+◌, ◌-◌, ◌*◌, ◌^◌, ◌<◌, min, true, map, take, All, Some, IfSome, IfOk, OnOk, length};
ghost use Rattle.tr_base.specs.Lists.{joined};
ghost use Rattle.tr_grammar.specs.Faults.{nodes_so_far};
ghost use Rattle.tr_grammar.specs.Texts.{lines_of};
ghost use Rattle.tr_grammar.specs.Scripts.{IsPlayable};
ghost use Rattle.tr_words.specs.Answers.{texts};
ghost use Rattle.tr_reader.specs.Adding.{is_at_steps, with_steps};
ghost use Rattle.tr_chunks.specs.Chunks.{AreChunks, AreMarks, IsChunk, TakesAllOrNone, lines_from};

use std::alloc::Global;
use std::thread;
use std::thread::Threads;
use tr_base::NoMemory;
use tr_reader::{Reader, Steps};
use tr_script::take_step;
use tr_widget::WidgetCmd;
use tr_words::first_line;

/// The number of lines from one mark to the next.
pub(crate) const LINES_A_MARK: usize = 250;

/// The steps of the first `count` lines of these bytes, starting with the line of this number, if each of
/// these lines is silent or makes a step, none has a fault, and memory doesn't run out.
fn read_chunk(
    alloc: Global,
    reader: &Reader,
    first: usize,
    bytes: &[u8],
    count: usize,
) -> Option<Steps<WidgetCmd>>
    requires place { is_at_steps reader.now.place ≡ true }
    requires few { first + count < 2 ^ 32 }
    ensures { IsChunk reader.now first (take count (lines_of bytes.now)) result }
{
    let mut steps = Steps::new(alloc);
    let mut words = Vec::new(alloc);
    if steps.reserve(count).is_err() {
        return None;
    }
    let mut rest = bytes;
    let mut index = 0;
    while index < count && !rest.is_empty() {
        let (line, behind) = first_line(rest);
        let Ok(true) = take_step(alloc, reader, &mut steps, &mut words, first + index, line) else {
            return None;
        };
        index += 1;
        rest = behind;
    }
    Some(steps)
}

/// The same for the lines from these marks on, up to the next mark or to the last of `count` lines. The first
/// of the marks has the number `start`, and the first of all lines is the line of the number `first`.
fn read_marked(
    alloc: Global,
    reader: &Reader,
    first: usize,
    count: usize,
    start: usize,
    marks: &[&[u8]],
) -> Option<Steps<WidgetCmd>>
    requires place { is_at_steps reader.now.place ≡ true }
    requires few { first + count < 2 ^ 32 }
    requires within { (start + length marks.now) * 250 < count + 250 }
    ensures { IsChunk reader.now (first + start * 250)
        (take (min (length marks.now * 250) (count - start * 250)) (lines_from (texts marks.now))) result }
{
    match marks {
        [] => None,
        [bytes, ..] => {
            let before = start * LINES_A_MARK;
            let lines = (marks.len() * LINES_A_MARK).min(count - before);
            read_chunk(alloc, reader, first + before, bytes, lines)
        }
    }
}

/// The steps of all chunks. Each has the lines of this number of marks, but the last, which may be shorter;
/// each is read in a thread of its own if one can be started.
fn read_chunks<R: Threads + Sync>(
    rt: &R,
    alloc: Global,
    reader: &Reader,
    first: usize,
    count: usize,
    marks: &[&[u8]],
    size: usize,
) -> Option<Vec<Option<Steps<WidgetCmd>>>>
    requires place { is_at_steps reader.now.place ≡ true }
    requires few { first + count < 2 ^ 32 }
    requires marks { AreMarks count (texts marks.now) }
    requires size { 0 < size }
    ensures { IfSome result (λ chunks.
        AreChunks reader.now first (size * 250) (take count (lines_from (texts marks.now))) chunks.items) }
{
    match thread::map_chunks(
        rt,
        alloc,
        marks,
        size,
        &|start: usize, chunk: &[&[u8]]| -> Option<Steps<WidgetCmd>>
            requires { (is_at_steps reader.now.place ≡ true)
                × (first + count < 2 ^ 32)
                × ((start + length chunk.now) * 250 < count + 250) }
            ensures { IsChunk reader.entry.now (first + start * 250)
                (take (min (length chunk.entry.now * 250) (count - start * 250))
                (lines_from (texts chunk.entry.now))) result }
        { read_marked(alloc, reader, first, count, start, chunk) },
    ) {
        Ok(chunks) => Some(chunks),
        Err(_) => None,
    }
}

/// All of the values, if no option is empty and memory doesn't run out.
fn all_some<T: Drop>(alloc: Global, options: Vec<Option<T>>) -> Option<Vec<T>>
    ensures { IfSome result (λ all. map (λ x. Some x) all.items ≡ options.items) }
{
    let mut all = Vec::new(alloc);
    for one in options {
        if all.push(one?).is_err() {
            return None;
        }
    }
    Some(all)
}

/// The number of steps. It tells how much room to make for them.
fn step_count(chunks: &[Steps<WidgetCmd>]) -> usize {
    let mut count: usize = 0;
    for chunk in chunks {
        count = count.saturating_add(chunk.len());
    }
    count
}

/// Appends the steps of all chunks to those of the current part.
fn add_chunks(reader: &mut Reader, chunks: Vec<Steps<WidgetCmd>>) -> Result<(), NoMemory>
    requires place { is_at_steps reader.old.place ≡ true }
    requires playable { All (λ steps. All (IsPlayable (nodes_so_far reader.old)) steps) chunks.items }
    ensures { OnOk result (reader.new ≡ with_steps reader.old (joined chunks.items)) }
{
    for chunk in chunks {
        reader.add_steps(chunk)?;
    }
    Ok(())
}

/// Reads the `count` lines at these marks, starting with the line of this number, in chunks of so many
/// marks. Returns whether they are read: none is, if one of them neither makes a step nor is silent, or has
/// a fault, or memory runs out for the chunks.
pub(crate) fn take_chunks<R: Threads + Sync>(
    rt: &R,
    alloc: Global,
    reader: &mut Reader,
    first: usize,
    count: usize,
    marks: &[&[u8]],
    size: usize,
) -> Result<bool, NoMemory>
    requires place { is_at_steps reader.old.place ≡ true }
    requires few { first + count < 2 ^ 32 }
    requires marks { AreMarks count (texts marks.now) }
    requires size { 0 < size }
    ensures { IfOk result
        (TakesAllOrNone reader.old first (take count (lines_from (texts marks.now))) reader.new) }
{
    let Some(read) = read_chunks(rt, alloc, reader, first, count, marks, size) else {
        return Ok(false);
    };
    let Some(chunks) = all_some(alloc, read) else {
        return Ok(false);
    };
    if reader.reserve_steps(step_count(&chunks)).is_err() {
        return Ok(false);
    }
    add_chunks(reader, chunks)?;
    Ok(true)
}
