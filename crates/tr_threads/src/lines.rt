ghost use Rattle.std.specs.Prelude.{◌≡◌, IfOk};
ghost use Rattle.tr_journal.specs.Names.{names_of};
ghost use Rattle.tr_dump.specs.Names.{IsNamedDifference};
ghost use Rattle.tr_threads.specs.Threads.{last_text};

use std::alloc::Global;
use tr_base::{Command, NoMemory};
use tr_dump::differs_line;
use tr_journal::{Difference, NameOf};

/// The last two lines of the text, where a session found this difference and the script was played again: the
/// difference, and that the script was played again.
pub fn again_lines<M: Command, N: NameOf>(
    alloc: Global,
    names: &N,
    difference: &Difference<M>,
) -> Result<Vec<u8>, NoMemory>
    requires { IsNamedDifference (names_of N.NameOf names.now) difference.now }
    ensures { IfOk result (λ text. text.items ≡
        last_text M.words (names_of N.NameOf names.now) difference.now) }
{
    let mut text = Vec::new(alloc);
    differs_line(difference, names, &mut text)?;
    text.extend_from_slice(b"played again\n")?;
    Ok(text)
}
