ghost use Rattle.std.specs.Prelude.{◌≡◌, ◌++◌, [], codes, IfOk, OnOk};
ghost use Rattle.tr_gen.specs.Draws.{give};
ghost use Rattle.tr_gen.specs.Writing.{continued};

use crate::draws::Draws;
use itoa::{Buffer, Integer};
use std::alloc::Global;
use std::marker::Model;
use tr_base::NoMemory;

/// Room for the text of a script, which has some 29,000 bytes.
const ROOM: usize = 32768;

/// A text, and the draws that continue it. After want of memory nothing is known of it.
#[derive(Drop)]
pub struct Writer {
    text: Vec<u8>,
    pub draws: Draws,
}

impl Model for Writer {
    ghost use Rattle.std.specs.Prelude.{List, ℕ};
    ghost use Rattle.tr_gen.specs.Draws.{DrawnValue};

    ghost Value = { DrawnValue (List ℕ) };

    ghost view = { λ w. record { value = w.text.items; state = w.draws } };
}

impl Writer {
    /// No text yet, and the draws that begin at a number.
    pub fn new(alloc: Global, number: u32) -> Result<Writer, NoMemory>
        ensures { IfOk result (λ writer. writer ≡ give [] number) }
    {
        Ok(Writer {
            text: Vec::with_capacity(alloc, ROOM)?,
            draws: Draws::from(number),
        })
    }

    /// The text.
    pub fn into_text(self) -> Vec<u8>
        ensures { result.items ≡ self.value }
    {
        let Writer { text, draws: _ } = self;
        text
    }

    /// Appends a text.
    pub fn append(&mut self, text: &[u8]) -> Result<(), NoMemory>
        ensures { OnOk result (self.new ≡ continued self.old (give text.now)) }
    {
        self.text.extend_from_slice(text)?;
        Ok(())
    }

    /// Appends a number as one more word of a line.
    pub fn append_number<I: Integer>(&mut self, number: I) -> Result<(), NoMemory>
        ensures { OnOk result (self.new ≡ continued self.old (give (codes " " ++ I.text number))) }
    {
        let mut buffer = Buffer::new();
        self.append(b" ")?;
        self.append(buffer.format(number).as_bytes())
    }
}
