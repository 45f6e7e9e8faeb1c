ghost use Rattle.std.specs.Prelude.{◌≡◌, ◌≤◌, ◌++◌, [], OnOk, OnErr, min, length};
ghost use Rattle.std.specs.List.{flat_map};
ghost use Rattle.tr_io.specs.Faults.{HasFault};
ghost use Rattle.tr_io.specs.Streams.{Grew, GrewByPrefix};
ghost use Rattle.tr_output.specs.Buffers.{IsFresh};
ghost use Rattle.tr_output.specs.Texts.{row_text};

use crate::buffers::{Buffer, write_pieces};
use crate::pieces::{Dumps, Piece, len_of_all, push_rows};
use std::alloc::Global;
use std::marker::Model;
use tr_base::NoMemory;
use tr_io::{Failed, Sink};
use tr_screen::Screen;

/// A text up to its last row of pixels. Its model is its bytes.
#[derive(Drop)]
pub(crate) struct Kept {
    pieces: Vec<Piece>,
    /// The pixels of the rows. Equal rows share theirs.
    pixels: Vec<u8>,
    dumps: Dumps,
}

impl Model for Kept {
    ghost use Rattle.std.specs.Prelude.{ℕ, List, All, length};

    ghost Value = { List ℕ };

    ghost use Rattle.tr_output.specs.Pieces.{IsPieceWithin, pieces_text};

    ghost view = { λ k. pieces_text k.pixels.items k.pieces.items };

    ghost invariant = { λ k. All (IsPieceWithin (length k.pixels.items)) k.pieces.items };
}

impl Kept {
    /// An empty text.
    pub(crate) fn new(alloc: Global) -> Kept
        ensures { result ≡ [] }
    {
        Kept {
            pieces: Vec::new(alloc),
            pixels: Vec::new(alloc),
            dumps: Dumps {
                present: 0,
                last: 0,
            },
        }
    }

    /// Appends the bytes of `tail` to the text, and then to `tail` a line, and then a line for each row of a
    /// screen. All memory is taken before anything changes.
    pub(crate) fn append_screen(
        &mut self,
        alloc: Global,
        tail: &mut Vec<u8>,
        head: &[u8],
        screen: &Screen,
    ) -> Result<(), NoMemory>
        ensures ok { OnOk result (self.new
            ≡ (self.old ++ (tail.old.items ++ head.now)) ++ flat_map row_text screen.now.rows) }
        ensures moved { OnOk result (tail.new.items ≡ []) }
        ensures err { OnErr result (self.new ≡ self.old) }
        ensures err_tail { OnErr result (tail.new.items ≡ tail.old.items) }
    {
        let size = screen.size();
        let (wide, high) = (usize::from(size.wide), usize::from(size.high));
        self.pieces.reserve(high + 1)?;
        self.pixels.reserve(high * wide)?;
        tail.extend_from_slice(head)?;
        let bytes = std::mem::replace(tail, Vec::new(alloc));
        self.pieces.push_reserved(Piece::Bytes(bytes));
        self.dumps = Dumps {
            present: self.pieces.len(),
            last: self.dumps.present,
        };
        push_rows(&mut self.pieces, &mut self.pixels, &self.dumps, screen);
        Ok(())
    }

    /// Writes the text, and then `tail`, by way of an empty buffer.
    pub(crate) fn write_to<K: Sink>(
        &self,
        sink: &mut K,
        buffer: &mut Buffer,
        tail: &[u8],
    ) -> Result<(), Failed>
        requires room { length (self.now ++ tail.now) ≤ K.room sink.old }
        requires buffer { IsFresh buffer.old }
        ensures ok { OnOk result (Grew (K.written sink.old) (K.written sink.new) (self.now ++ tail.now)) }
        ensures err { OnErr result (GrewByPrefix (K.written sink.old) (K.written sink.new)
            (self.now ++ tail.now)) }
        ensures failed { OnErr result (HasFault (K.faults sink.old) (K.faults sink.new)) }
        ensures rising { K.faults sink.old ≤ K.faults sink.new }
    {
        write_pieces(sink, buffer, &self.pieces, &self.pixels, tail)
    }

    /// The number of bytes of the text, at most 2^64 - 1.
    pub(crate) fn len(&self) -> usize
        ensures { result ≡ min (length self.now) usize.MAX }
    {
        len_of_all(&self.pieces, self.pixels.len())
    }
}
