//! Writing to a sink by way of a buffer of fixed size.
ghost use Rattle.std.specs.Prelude.{◌≡◌, ◌+◌, ◌*◌, ◌≤◌, ◌++◌, List, ℕ, [], All, IfOk, OnOk, OnErr};
ghost use Rattle.std.specs.Prelude.{length, slice_range, vec_len, vec_capacity};
ghost use Rattle.tr_io.specs.Faults.{HasFault};
ghost use Rattle.tr_io.specs.Streams.{Grew, GrewByPrefix};
ghost use Rattle.tr_output.specs.Lines.{SpellsRow};
ghost use Rattle.tr_output.specs.Pieces.{IsPieceWithin, piece_text, pieces_text};
ghost use Rattle.tr_output.specs.Sending.{Sends, HasStopped};
ghost use Rattle.tr_output.specs.Texts.{row_text};
ghost use Rattle.tr_output.specs.Buffers.{IsFresh};

use crate::lines::{LINES, Line, no_lines};
use crate::pieces::Piece;
use crate::sinks::write_all;
use std::alloc::Global;
use tr_base::NoMemory;
use tr_io::{Failed, Sink};

/// The number of bytes in one write.
const ROOM: usize = 64 * 1024;

/// Bytes that wait to be written, and the last spelled lines.
#[derive(Drop)]
pub(crate) struct Buffer {
    bytes: Vec<u8>,
    lines: Vec<Line>,
}

impl Buffer {
    /// An empty buffer.
    pub(crate) fn new(alloc: Global) -> Result<Buffer, NoMemory>
        ensures { IfOk result (λ buffer. IsFresh buffer) }
    {
        Ok(Buffer {
            bytes: Vec::with_capacity(alloc, ROOM)?,
            lines: no_lines(alloc)?,
        })
    }
}

/// Writes the bytes that wait.
fn flush<K: Sink>(sink: &mut K, bytes: &mut Vec<u8>) -> Result<(), Failed>
    requires { vec_len bytes.old ≤ K.room sink.old }
    ensures ok { OnOk result (Sends K.Sink sink.old sink.new bytes.old.items bytes.new.items []) }
    ensures empty { OnOk result (bytes.new.items ≡ []) }
    ensures capacity { OnOk result (vec_capacity bytes.new ≡ vec_capacity bytes.old) }
    ensures err { OnErr result (HasStopped K.Sink sink.old sink.new bytes.old.items []) }
    ensures rising { K.faults sink.old ≤ K.faults sink.new }
{
    write_all(sink, bytes)?;
    bytes.clear();
    Ok(())
}

/// Writes bytes by way of the buffer, or directly if they are longer than it.
fn put<K: Sink>(sink: &mut K, bytes: &mut Vec<u8>, more: &[u8]) -> Result<(), Failed>
    requires { vec_len bytes.old + length more.now ≤ K.room sink.old }
    ensures ok { OnOk result (Sends K.Sink sink.old sink.new bytes.old.items bytes.new.items more.now) }
    ensures err { OnErr result (HasStopped K.Sink sink.old sink.new bytes.old.items more.now) }
    ensures rising { K.faults sink.old ≤ K.faults sink.new }
{
    if more.len() <= bytes.capacity() - bytes.len() {
        bytes.extend_from_slice(more).unwrap();
        return Ok(());
    }
    flush(sink, bytes)?;
    if more.len() <= bytes.capacity() {
        bytes.extend_from_slice(more).unwrap();
        return Ok(());
    }
    write_all(sink, more)
}

/// Writes the line of a row, the piece at this index.
fn put_row<K: Sink>(
    sink: &mut K,
    buffer: &mut Buffer,
    index: usize,
    pixels: &[u8],
    start: usize,
    wide: usize,
) -> Result<(), Failed>
    requires wide { wide ≤ 1024 }
    requires within { start + wide ≤ length pixels.now }
    requires lines { All (SpellsRow pixels.now) buffer.old.lines.items }
    requires count { vec_len buffer.old.lines ≡ LINES }
    requires room { vec_len buffer.old.bytes + (2 * wide + 1) ≤ K.room sink.old }
    ensures ok { OnOk result (Sends K.Sink sink.old sink.new buffer.old.bytes.items buffer.new.bytes.items
        (row_text (slice_range pixels.now start (start + wide)))) }
    ensures err { OnErr result (HasStopped K.Sink sink.old sink.new buffer.old.bytes.items
        (row_text (slice_range pixels.now start (start + wide)))) }
    ensures lines { All (SpellsRow pixels.now) buffer.new.lines.items }
    ensures count { vec_len buffer.new.lines ≡ LINES }
    ensures rising { K.faults sink.old ≤ K.faults sink.new }
{
    let line = &mut buffer.lines[index % LINES];
    line.spell(pixels, start, wide);
    put(sink, &mut buffer.bytes, &line.text[..2 * wide + 1])
}

/// Writes a piece.
fn put_piece<K: Sink>(
    sink: &mut K,
    buffer: &mut Buffer,
    index: usize,
    piece: &Piece,
    pixels: &[u8],
) -> Result<(), Failed>
    requires within { IsPieceWithin (length pixels.now) piece.now }
    requires lines { All (SpellsRow pixels.now) buffer.old.lines.items }
    requires count { vec_len buffer.old.lines ≡ LINES }
    requires room { vec_len buffer.old.bytes + length (piece_text pixels.now piece.now) ≤ K.room sink.old }
    ensures ok { OnOk result (Sends K.Sink sink.old sink.new buffer.old.bytes.items buffer.new.bytes.items
        (piece_text pixels.now piece.now)) }
    ensures err { OnErr result (HasStopped K.Sink sink.old sink.new buffer.old.bytes.items
        (piece_text pixels.now piece.now)) }
    ensures lines { All (SpellsRow pixels.now) buffer.new.lines.items }
    ensures count { vec_len buffer.new.lines ≡ LINES }
    ensures rising { K.faults sink.old ≤ K.faults sink.new }
{
    match piece {
        Piece::Bytes(bytes) => put(sink, &mut buffer.bytes, bytes),
        Piece::Row { start, wide } => put_row(sink, buffer, index, pixels, *start, *wide),
    }
}

/// Writes pieces, one after another.
fn put_pieces<K: Sink>(
    sink: &mut K,
    buffer: &mut Buffer,
    pieces: &[Piece],
    pixels: &[u8],
) -> Result<(), Failed>
    requires within { All (IsPieceWithin (length pixels.now)) pieces.now }
    requires lines { All (SpellsRow pixels.now) buffer.old.lines.items }
    requires count { vec_len buffer.old.lines ≡ LINES }
    requires room { vec_len buffer.old.bytes + length (pieces_text pixels.now pieces.now) ≤ K.room sink.old }
    ensures ok { OnOk result (Sends K.Sink sink.old sink.new buffer.old.bytes.items buffer.new.bytes.items
        (pieces_text pixels.now pieces.now)) }
    ensures err { OnErr result (HasStopped K.Sink sink.old sink.new buffer.old.bytes.items
        (pieces_text pixels.now pieces.now)) }
    ensures rising { K.faults sink.old ≤ K.faults sink.new }
{
    for (index, piece) in pieces.iter().enumerate() {
        put_piece(sink, buffer, index, piece, pixels)?;
    }
    Ok(())
}

/// Writes pieces and the bytes after them.
pub(crate) fn write_pieces<K: Sink>(
    sink: &mut K,
    buffer: &mut Buffer,
    pieces: &[Piece],
    pixels: &[u8],
    tail: &[u8],
) -> Result<(), Failed>
    requires within { All (IsPieceWithin (length pixels.now)) pieces.now }
    requires fresh { IsFresh buffer.old }
    requires room { length (pieces_text pixels.now pieces.now ++ tail.now) ≤ K.room sink.old }
    ensures ok { OnOk result (Grew (K.written sink.old) (K.written sink.new)
        (pieces_text pixels.now pieces.now ++ tail.now)) }
    ensures err { OnErr result (GrewByPrefix (K.written sink.old) (K.written sink.new)
        (pieces_text pixels.now pieces.now ++ tail.now)) }
    ensures failed { OnErr result (HasFault (K.faults sink.old) (K.faults sink.new)) }
    ensures rising { K.faults sink.old ≤ K.faults sink.new }
{
    put_pieces(sink, buffer, pieces, pixels)?;
    put(sink, &mut buffer.bytes, tail)?;
    flush(sink, &mut buffer.bytes)
}
