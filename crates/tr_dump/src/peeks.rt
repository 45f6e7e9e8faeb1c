ghost use Rattle.std.specs.Prelude.{◌≡◌, ◌++◌, OnOk, OnErr};
ghost use Rattle.tr_dump.specs.Reports.{peek_text};

use crate::words::Word::{Number, Text};
use crate::words::{append_line, or_nothing};
use tr_base::NoMemory;
use tr_journal::Peek3;

/// Appends the counts of bad points, waiting commands and stale points, on a line.
pub fn peek_line(peek: &Peek3, out: &mut Vec<u8>) -> Result<(), NoMemory>
    ensures ok { OnOk result (out.new.items ≡ out.old.items ++ peek_text peek.now) }
    ensures err { OnErr result (out.new.items ≡ out.old.items) }
{
    let len = out.len();
    let appended = append_line(
        out,
        b"peek",
        &[
            Text(b"bad"),
            Number(peek.bad.into()),
            Text(b"waiting"),
            Number(peek.waiting),
            Text(b"stale"),
            Number(peek.stale.into()),
        ],
    );
    or_nothing(appended, len, out)
}
