//! The lines up to `begin`, read again.
ghost use Rattle.std.specs.Prelude.{◌≡◌, IfOk};
ghost use Rattle.tr_grammar.specs.Scripts.{IsPlayableScript, after_all_lines, whole};
ghost use Rattle.tr_grammar.specs.States.{nothing_yet};
ghost use Rattle.tr_grammar.specs.Texts.{lines_of};

use std::alloc::Global;
use tr_base::NoMemory;
use tr_reader::{Reader, Script};
use tr_script::take_line;
use tr_words::first_line;

/// The reader after the lines of a text. Each line was taken once before.
pub(crate) fn reader_of(alloc: Global, text: &[u8]) -> Result<Reader<'_>, NoMemory>
    ensures { IfOk result (λ reader. reader ≡ after_all_lines nothing_yet (lines_of text.now)) }
{
    let mut reader = Reader::new(alloc);
    let mut words = Vec::new(alloc);
    let mut rest = text;
    while !rest.is_empty() {
        let (line, after) = first_line(rest);
        match take_line(alloc, &mut reader, &mut words, 1, line) {
            Ok(()) => {}
            Err(_) => {
                // No line has a fault, so memory is the only cause.
                drop(reader);
                return Err(NoMemory);
            }
        }
        rest = after;
    }
    Ok(reader)
}

/// The script of a text. Each of its lines but the end was taken once before.
pub(crate) fn script_of(alloc: Global, text: &[u8]) -> Result<Script, NoMemory>
    ensures script { IfOk result (λ s. s ≡ whole (after_all_lines nothing_yet (lines_of text.now))) }
    ensures playable { IfOk result IsPlayableScript }
{
    match reader_of(alloc, text)?.finish()? {
        Some(script) => Ok(script),
        None => Err(NoMemory),
    }
}
