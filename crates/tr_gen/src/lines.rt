//! The lines of rounds, appended to a script.
ghost use Rattle.std.specs.Prelude.{◌≡◌, ◌<◌, ◌-ℤ◌, pos, OnOk};
ghost use Rattle.tr_gen.specs.Draws.{draw};
ghost use Rattle.tr_gen.specs.Lines as spec;
ghost use Rattle.tr_gen.specs.Writing.{continued};

use crate::draws::Draws;
use crate::writers::Writer;
use tr_base::NoMemory;

/// The greatest distance of a child before the root's corner.
const MARGIN: i32 = 32;

fn append_letters(script: &mut Writer, count: u16) -> Result<(), NoMemory>
    ensures { OnOk result (script.new ≡ continued script.old (spec.letters count)) }
{
    for _letter in 0..count {
        let letter = script.draws.pick(b"AB");
        script.append(&[letter])?;
    }
    Ok(())
}

fn append_text_line(script: &mut Writer) -> Result<(), NoMemory>
    ensures { OnOk result (script.new ≡ continued script.old spec.text_line) }
{
    let count = script.draws.draw(21);
    if count == 0 {
        return script.append(b"@t line");
    }
    script.append(b"@t line ")?;
    append_letters(script, count)
}

fn append_edges(script: &mut Writer) -> Result<(), NoMemory>
    ensures { OnOk result (script.new ≡ continued script.old spec.drawn_edges) }
{
    let west = script.draws.draw(64);
    let wide = script.draws.draw(32);
    let north = script.draws.draw(64);
    let high = script.draws.draw(32);
    script.append_number(west)?;
    script.append_number(west + wide)?;
    script.append_number(north)?;
    script.append_number(north + high)
}

fn append_rect_line(script: &mut Writer) -> Result<(), NoMemory>
    ensures { OnOk result (script.new ≡ continued script.old spec.rect_line) }
{
    script.append(b"@k rect")?;
    append_edges(script)?;
    let tint = script.draws.draw(256);
    script.append_number(tint)
}

fn append_swap_line(script: &mut Writer) -> Result<(), NoMemory>
    ensures { OnOk result (script.new ≡ continued script.old spec.swap_line) }
{
    script.append(b"@k swap")?;
    append_edges(script)
}

fn append_bar_line(script: &mut Writer) -> Result<(), NoMemory>
    ensures { OnOk result (script.new ≡ continued script.old spec.bar_line) }
{
    let bar = script.draws.draw(8);
    let height = script.draws.draw(64);
    script.append(b"@m bar")?;
    script.append_number(bar)?;
    script.append_number(height)
}

fn append_tint_line(script: &mut Writer) -> Result<(), NoMemory>
    ensures { OnOk result (script.new ≡ continued script.old spec.tint_line) }
{
    let tint = script.draws.draw(256);
    script.append(b"@s tint")?;
    script.append_number(tint)
}

/// Draws a coordinate that a child is moved to.
fn draw_coordinate(draws: &mut Draws, below: u16) -> i32
    requires { 0 < below }
    ensures value { result ≡ pos (draw below draws.old).value -ℤ pos 32 }
    ensures state { draws.new ≡ (draw below draws.old).state }
{
    i32::from(draws.draw(below)) - MARGIN
}

fn append_coordinate(script: &mut Writer, below: u16) -> Result<(), NoMemory>
    requires { 0 < below }
    ensures { OnOk result (script.new ≡ continued script.old (spec.coordinate_word below)) }
{
    let coordinate = draw_coordinate(&mut script.draws, below);
    script.append_number(coordinate)
}

fn append_child(script: &mut Writer) -> Result<(), NoMemory>
    ensures { OnOk result (script.new ≡ continued script.old spec.child_word) }
{
    let name = script.draws.pick(b"bkms");
    script.append(&[b' ', name])
}

fn append_move_line(script: &mut Writer) -> Result<(), NoMemory>
    ensures { OnOk result (script.new ≡ continued script.old spec.move_line) }
{
    script.append(b"move")?;
    append_child(script)?;
    append_coordinate(script, 256)?;
    append_coordinate(script, 192)
}

fn append_lift_line(script: &mut Writer) -> Result<(), NoMemory>
    ensures { OnOk result (script.new ≡ continued script.old spec.lift_line) }
{
    script.append(b"lift")?;
    append_child(script)
}

/// Appends the line of the next round, without a line feed.
#[tactic(auto, unfolding(crate::specs::Lines::drawn_line))]
pub fn append_round_line(script: &mut Writer) -> Result<(), NoMemory>
    ensures { OnOk result (script.new ≡ continued script.old spec.round_line) }
{
    match script.draws.draw(8) {
        0 => append_text_line(script),
        1 => append_rect_line(script),
        2 => append_swap_line(script),
        3 => script.append(b"@k undo"),
        4 => append_bar_line(script),
        5 => append_tint_line(script),
        6 => append_move_line(script),
        _ => append_lift_line(script),
    }
}
