//! The reading of a whole script.
ghost use Rattle.std.specs.Prelude.{◌≡◌, ◌<◌, ◌+◌, ◌^◌, length, None, IfOk, IfErr};
ghost use Rattle.tr_grammar.specs.Scripts.{refusal_of, script_of, first_bad_line, after_all_lines, whole};
ghost use Rattle.tr_grammar.specs.Scripts.{IsReadCause, IsPlayableScript};
ghost use Rattle.tr_grammar.specs.Codes.{number_of_code};
ghost use Rattle.tr_grammar.specs.States.{nothing_yet};
ghost use Rattle.tr_grammar.specs.Texts.{lines_of};

use crate::lines::take_line;
use std::alloc::Global;
use tr_grammar::{Code, LONGEST_SCRIPT, LineRefused, ReadRefused};
use tr_reader::{Reader, Script};
use tr_words::first_line;

/// The refusal of a line; line 0 means the whole text.
pub fn refused_at(line: usize, code: Code) -> ReadRefused
    requires { line < 2 ^ 32 }
    ensures { result ≡ ReadRefused.Refused line (number_of_code code) }
{
    ReadRefused::Refused {
        line: line as u32,
        code: code.number(),
    }
}

/// Reads the lines of a text. The first is line 1.
fn read_lines(alloc: Global, bytes: &[u8]) -> Result<Script, ReadRefused>
    requires { length bytes.now + 1 < 2 ^ 32 }
    ensures valid { IfOk result (λ s. first_bad_line nothing_yet 1 (lines_of bytes.now) ≡ None) }
    ensures script { IfOk result (λ s. s ≡ whole (after_all_lines nothing_yet (lines_of bytes.now))) }
    ensures playable { IfOk result (λ s. IsPlayableScript s) }
    ensures cause { IfErr result (λ e. IsReadCause (first_bad_line nothing_yet 1 (lines_of bytes.now)) e) }
{
    let mut reader = Reader::new(alloc);
    let mut words = Vec::new(alloc);
    let mut number = 1;
    let mut rest = bytes;
    while !rest.is_empty() {
        let (line, behind) = first_line(rest);
        match take_line(alloc, &mut reader, &mut words, number, line) {
            Ok(()) => {}
            Err(LineRefused::NoMemory) => {
                drop(reader);
                return Err(ReadRefused::NoMemory);
            }
            Err(LineRefused::Fault(code)) => {
                drop(reader);
                return Err(refused_at(number, code));
            }
        }
        number += 1;
        rest = behind;
    }
    match reader.finish()? {
        Some(script) => Ok(script),
        None => Err(refused_at(number, Code::B8)),
    }
}

/// Reads a script. A text that isn't one is refused with the first line that has a fault, and the first
/// fault of that line; a text of over 4 MiB is refused with line 0, before all other tests.
#[tactic(auto, unfolding(tr_grammar::specs::Scripts::refusal_of, tr_grammar::specs::Scripts::script_of))]
pub fn read_script(alloc: Global, bytes: &[u8]) -> Result<Script, ReadRefused>
    ensures valid { IfOk result (λ s. refusal_of bytes.now ≡ None) }
    ensures script { IfOk result (λ s. s ≡ script_of bytes.now) }
    ensures playable { IfOk result (λ s. IsPlayableScript s) }
    ensures cause { IfErr result (λ e. IsReadCause (refusal_of bytes.now) e) }
{
    if bytes.len() > LONGEST_SCRIPT {
        return Err(refused_at(0, Code::B7));
    }
    read_lines(alloc, bytes)
}
