ghost use Rattle.std.specs.Prelude.{◌≡◌, ◌<◌, [], OnOk, OnErr};
ghost use Rattle.tr_mirror.specs.Streams.{HasItsPixels};
ghost use Rattle.tr_serial.specs.Streams.{IsAppended, IsStreamOf};

use std::alloc::Global;
use std::marker::Model;
use tr_base::NoMemory;
use tr_mirror::Writer;
use tr_screen::Screen;

/// The stream of the screens that were dumped so far: a writer, and all that it has sent.
#[derive(Drop)]
pub struct ScreenStream {
    writer: Writer,
    bytes: Vec<u8>,
}

impl Model for ScreenStream {
    ghost use Rattle.tr_serial.specs.Streams.{StreamView};

    ghost Value = { StreamView };

    ghost view = { λ s. record { writer = s.writer; bytes = s.bytes.items } };
}

impl ScreenStream {
    /// The stream of no screen.
    pub fn new(alloc: Global) -> ScreenStream
        ensures { IsStreamOf result [] }
    {
        ScreenStream {
            writer: Writer::new(),
            bytes: Vec::new(alloc),
        }
    }

    /// Appends the group of one screen more. For want of memory nothing changes.
    pub fn append(&mut self, now: &Screen) -> Result<(), NoMemory>
        requires few { self.old.writer.cuts < 64 }
        requires pixels { HasItsPixels now.now }
        ensures ok { OnOk result (IsAppended self.old self.new now.now) }
        ensures err { OnErr result (self.new ≡ self.old) }
    {
        self.writer.append(now, &mut self.bytes)
    }

    /// The bytes of the stream.
    pub fn into_bytes(self) -> Vec<u8>
        ensures { result.items ≡ self.bytes }
    {
        self.bytes
    }
}
