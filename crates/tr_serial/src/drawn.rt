ghost use Rattle.std.specs.Prelude.{◌≡◌, IfOk};
ghost use Rattle.tr_grammar.specs.Scripts.{IsPlayableScript};
ghost use Rattle.tr_serial.specs.Outputs as spec;

use crate::plays::{Played, play};
use std::alloc::Global;
use tr_base::NoMemory;
use tr_gen::script_of;
use tr_gen_valid::lines;
use tr_grammar::ReadRefused;
use tr_output::Output;
use tr_reader::Script;
use tr_run::{Finished, Mode};
use tr_script::read_script;

/// The script that is drawn from a number.
fn drawn(alloc: Global, number: u32) -> Result<Script, NoMemory>
    ensures script { IfOk result (λ script. script ≡ spec.drawn number) }
    ensures playable { IfOk result (λ script. IsPlayableScript script) }
{
    let text = script_of(alloc, number)?;
    match read_script(alloc, &text) {
        Ok(script) => Ok(script),
        Err(ReadRefused::NoMemory) => Err(NoMemory),
        Err(ReadRefused::Refused { .. }) => unreachable!(),
    }
}

/// The totals of a script that was drawn and played.
#[derive(Clone, Copy, Debug)]
struct Totals {
    number: u32,
    lines: u32,
    entries: usize,
    sum: u64,
}

impl Totals {
    /// A line for each number.
    fn text(&self, alloc: Global) -> Result<Vec<u8>, NoMemory>
        ensures { let s = self.now in
            IfOk result (λ text. text.items ≡ spec.summary_text s.number s.lines s.entries s.sum) }
    {
        let Totals {
            number,
            lines,
            entries,
            sum,
        } = self;
        let text = format!(in alloc;
            "gen {number}\nlines {lines}\nentries {entries}\nsum {sum}\n"
        )?;
        Ok(text.into_bytes())
    }
}

/// Plays the script that is drawn from a number, and writes the number of its lines, the number of its
/// journal's entries, and the sum of the pixels of its last dump.
pub fn summary(alloc: Global, number: u32) -> Result<Played, NoMemory>
    ensures text { IfOk result (λ played. played.text ≡ spec.gen_text number) }
    ensures journal { IfOk result (λ played. played.stage.journal ≡ spec.serial_journal (spec.drawn number)) }
    ensures opening { IfOk result (λ played. played.stage.opening ≡ (spec.drawn number).opening) }
{
    let script = drawn(alloc, number)?;
    let Finished { stage, sum, .. } = play(alloc, script, Mode::Gen)?;
    let totals = Totals {
        number,
        lines: lines(),
        entries: stage.journal().len(),
        sum,
    };
    let Ok(text) = totals.text(alloc) else {
        drop(stage);
        return Err(NoMemory);
    };
    Ok(Played {
        text: Output::of(alloc, text),
        stage,
    })
}
