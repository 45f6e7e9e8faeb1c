ghost use Rattle.std.specs.Prelude.{IfOk};
ghost use Rattle.tr_reader.specs.Adding.{Finishes};

use crate::names::Names;
use crate::parts::{Part, push};
use crate::readers::{Declared, Reader};
use std::marker::Model;
use tr_base::NoMemory;
use tr_journal::Opening;
use tr_widget::Widget;

/// The meaning of a text that is a script.
#[derive(Drop)]
pub struct Script {
    /// The start of the stage. It has a root.
    pub opening: Opening<Widget>,
    /// The names of its nodes and leaves.
    pub names: Names,
    /// The parts to play, with a sync between each part and the next.
    pub parts: Vec<Part>,
}

impl Model for Script {
    ghost use Rattle.tr_grammar.specs.Scripts.{Script as Seen};

    ghost Value = { Seen };

    ghost view = { λ s. record { opening = s.opening; names = s.names; parts = s.parts.items } };
}

impl<'a> Reader<'a> {
    /// The whole script, if its end was read.
    pub fn finish(self) -> Result<Option<Script>, NoMemory>
        ensures { IfOk result (λ found. Finishes self.entry found) }
    {
        if !self.has_ended() {
            drop(self);
            return Ok(None);
        }
        let Reader {
            alloc,
            declared,
            mut ended,
            reports,
            steps,
            ..
        } = self;
        let Some(
            Declared {
                opening,
                nodes,
                leaves,
            },
        ) = declared
        else {
            unreachable!();
        };
        let names = Names::of(alloc, &nodes, &leaves);
        drop((nodes, leaves));
        let last = Part {
            reports,
            steps: steps.into_vec(),
        };
        let (Ok(()), Ok(names)) = (push(&mut ended, last), names) else {
            drop((opening, ended));
            return Err(NoMemory);
        };
        Ok(Some(Script {
            opening,
            names,
            parts: ended,
        }))
    }
}
