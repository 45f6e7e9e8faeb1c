ghost use Rattle.std.specs.Prelude.{◌≡◌, ◌≤◌, ◌++◌, [], Err, OnOk, OnErr, min, length};
ghost use Rattle.std.specs.List.{flat_map};
ghost use Rattle.tr_io.specs.Faults.{HasFault};
ghost use Rattle.tr_io.specs.Streams.{Grew, GrewByPrefix};
ghost use Rattle.tr_output.specs.Texts.{row_text};

use crate::buffers::Buffer;
use crate::errors::WriteRefused;
use crate::kept::Kept;
use std::alloc::Global;
use std::marker::Model;
use tr_base::NoMemory;
use tr_io::Sink;
use tr_screen::Screen;

/// A text that is kept until it is written. Its model is its bytes.
#[derive(Drop)]
pub struct Output {
    alloc: Global,
    kept: Kept,
    /// The bytes after the last row of pixels. Callers append to it.
    pub tail: Vec<u8>,
}

impl Model for Output {
    ghost use Rattle.std.specs.Prelude.{ℕ, List, ◌++◌};

    ghost Value = { List ℕ };

    ghost view = { λ o. o.kept ++ o.tail.items };
}

impl Output {
    /// An empty text.
    pub fn new(alloc: Global) -> Output
        ensures { result ≡ [] }
    {
        Output::of(alloc, Vec::new(alloc))
    }

    /// A text of these bytes.
    pub fn of(alloc: Global, bytes: Vec<u8>) -> Output
        ensures { result ≡ bytes.items }
    {
        Output {
            alloc,
            kept: Kept::new(alloc),
            tail: bytes,
        }
    }

    /// The allocator of its memory.
    pub fn alloc(&self) -> Global {
        self.alloc
    }

    /// Appends bytes, or nothing.
    pub fn append_bytes(&mut self, bytes: &[u8]) -> Result<(), NoMemory>
        ensures ok { OnOk result (self.new ≡ self.old ++ bytes.now) }
        ensures err { OnErr result (self.new ≡ self.old) }
    {
        Ok(self.tail.extend_from_slice(bytes)?)
    }

    /// Appends a line, and then a line for each row of a screen, or nothing.
    pub fn append_screen(&mut self, head: &[u8], screen: &Screen) -> Result<(), NoMemory>
        ensures ok { OnOk result (self.new ≡ self.old ++ (head.now ++ flat_map row_text screen.now.rows)) }
        ensures err { OnErr result (self.new ≡ self.old) }
    {
        self.kept
            .append_screen(self.alloc, &mut self.tail, head, screen)
    }

    /// Writes the text, by way of a buffer of fixed size. All memory is taken before the first byte.
    pub fn write_to<K: Sink>(&self, sink: &mut K) -> Result<(), WriteRefused>
        ensures ok { OnOk result (Grew (K.written sink.old) (K.written sink.new) self.now) }
        ensures no_memory { result ≡ Err WriteRefused.NoMemory → K.written sink.new ≡ K.written sink.old }
        ensures failed { result ≡ Err WriteRefused.Failed →
            HasFault (K.faults sink.old) (K.faults sink.new)
            × GrewByPrefix (K.written sink.old) (K.written sink.new) self.now }
        ensures rising { K.faults sink.old ≤ K.faults sink.new }
    {
        let mut buffer = Buffer::new(self.alloc)?;
        let len = self.len();
        if len == usize::MAX {
            return Err(WriteRefused::NoMemory);
        }
        sink.reserve(len)?;
        self.kept.write_to(sink, &mut buffer, &self.tail)?;
        Ok(())
    }

    /// The number of bytes, at most 2^64 - 1.
    fn len(&self) -> usize
        ensures { result ≡ min (length self.now) usize.MAX }
    {
        self.kept.len().saturating_add(self.tail.len())
    }
}
