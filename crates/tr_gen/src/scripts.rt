ghost use Rattle.std.specs.Prelude.{◌≡◌, ◌==◌, count_by, IfOk, OnOk};
ghost use Rattle.tr_gen.specs.Scripts as spec;
ghost use Rattle.tr_gen.specs.Writing.{continued, drawn_text};

use crate::lines::append_round_line;
use crate::writers::Writer;
use std::alloc::Global;
use tr_base::NoMemory;

/// The first lines of every script.
const OPENING: &[u8] = b"trestle 1\n\
screen 256 192 map8\n\
glyph 41 183c66667e666600\n\
glyph 42 7c66667c66667c00\n\
node z z 3\n\
node b border 9 2\n\
leaf t 80 160 200 40 80 160 lines\n\
leaf k 10 64 128 10 64 128 canvas\n\
leaf m 8 64 256 8 48 255 meter 8\n\
leaf s 1 40 80 1 40 80 solid 5\n\
put s z 10 100\n\
put m z 180 10\n\
put k z 100 60\n\
put t b\n\
put b z 20 20\n\
root z\n\
begin\n";

/// The last lines of every script.
const ENDING: &[u8] = b"dump\nend\n";

/// The number of rounds of a script.
const ROUNDS: u16 = 2000;

/// After this many rounds the player waits for all windows.
const ROUNDS_A_SYNC: u16 = 100;

/// Appends the lines of a round: one, and after every hundredth a `sync`.
fn append_round(script: &mut Writer, round: u16) -> Result<(), NoMemory>
    ensures { OnOk result (script.new ≡ continued script.old (drawn_text (spec.round_lines round))) }
{
    append_round_line(script)?;
    script.append(b"\n")?;
    if round % ROUNDS_A_SYNC == 0 {
        script.append(b"sync\n")?;
    }
    Ok(())
}

#[tactic(auto, using(crate::proofs::RoundLemmas::continued_none, crate::proofs::RoundLemmas::continued_more))]
fn append_rounds(script: &mut Writer) -> Result<(), NoMemory>
    ensures { OnOk result (script.new ≡ continued script.old (drawn_text (spec.rounds_lines 2000))) }
{
    for before in 0..ROUNDS {
        append_round(script, before + 1)?;
    }
    Ok(())
}

/// The text of the script of a number: an opening, 2,000 rounds of one line each with a `sync` after
/// every hundredth, a dump and the end.
pub fn script_of(alloc: Global, number: u32) -> Result<Vec<u8>, NoMemory>
    ensures text { IfOk result (λ text. text.items ≡ spec.script_of_number number) }
    ensures lines { IfOk result (λ text. count_by (λ byte. byte == 10) text.items ≡ 2039) }
{
    let mut script = Writer::new(alloc, number)?;
    script.append(OPENING)?;
    append_rounds(&mut script)?;
    script.append(ENDING)?;
    Ok(script.into_text())
}
