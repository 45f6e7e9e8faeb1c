ghost use Rattle.std.specs.Prelude.{◌≡◌, ◌++◌, IfOk, OnOk, OnErr};
ghost use Rattle.tr_dump.specs.Reports.{dump_head, dump_text};

use crate::values::kind_word;
use crate::words::Word::{Number, Text};
use crate::words::append_line;
use std::alloc::Global;
use tr_base::NoMemory;
use tr_output::Output;
use tr_screen::Screen;

/// Appends the size and the kind of a screen, on a line, and then a line for each of its rows, with two
/// hex digits for each pixel.
pub fn dump(screen: &Screen, out: &mut Output) -> Result<(), NoMemory>
    ensures ok { OnOk result (out.new ≡ out.old ++ dump_text screen.now) }
    ensures err { OnErr result (out.new ≡ out.old) }
{
    let head = head_of(out.alloc(), screen)?;
    out.append_screen(&head, screen)
}

/// The size and the kind of a screen, on a line.
fn head_of(alloc: Global, screen: &Screen) -> Result<Vec<u8>, NoMemory>
    ensures { IfOk result (λ head. head.items ≡ dump_head screen.now) }
{
    let size = screen.size();
    let mut head = Vec::new(alloc);
    append_line(
        &mut head,
        b"dump",
        &[
            Number(size.wide.into()),
            Number(size.high.into()),
            Text(kind_word(screen.kind())),
        ],
    )?;
    Ok(head)
}
