ghost use Rattle.std.specs.Prelude.{◌≡◌, ◌++◌, ◌∷◌, [], IfSome, codes, decimal, OnOk, OnErr};
ghost use Rattle.tr_journal.specs.Names.{names_of};
ghost use Rattle.tr_dump.specs.Begins.{Begins};
ghost use Rattle.tr_dump.specs.Names.{IsNamedApart, IsNamedDifference, IsNamedEntry, IsNamedStep};
ghost use Rattle.tr_dump.specs.Steps.{entry_text, step_text};
ghost use Rattle.tr_dump.specs.Differs as spec;

use crate::entries::append_entry;
use crate::steps::{append_actor, append_step};
use crate::words::or_nothing;
use itoa::Buffer;
use tr_base::{Command, NoMemory};
use tr_client::append_all;
use tr_journal::{Actor, Apart, Difference, Entry, NameOf, Step};

/// Appends a difference of a stage, on a line: its part and place, the expected text, and the text of the
/// stage.
pub fn differs_line<M: Command, N: NameOf>(
    difference: &Difference<M>,
    names: &N,
    out: &mut Vec<u8>,
) -> Result<(), NoMemory>
    requires { IsNamedDifference (names_of N.NameOf names.now) difference.now }
    ensures ok { OnOk result (out.new.items ≡
        out.old.items ++ spec.differs_text M.words (names_of N.NameOf names.now) difference.now) }
    ensures err { OnErr result (out.new.items ≡ out.old.items) }
{
    let len = out.len();
    let appended = append_difference(difference, names, out);
    or_nothing(appended, len, out)
}

/// Appends the line of a difference.
#[tactic(auto, using(crate::proofs::BeginsLemmas::begins_itself, crate::proofs::BeginsLemmas::begins_before))]
fn append_difference<M: Command, N: NameOf>(
    difference: &Difference<M>,
    names: &N,
    out: &mut Vec<u8>,
) -> Result<(), NoMemory>
    requires { IsNamedDifference (names_of N.NameOf names.now) difference.now }
    ensures ok { OnOk result (out.new.items ≡
        out.old.items ++ spec.differs_text M.words (names_of N.NameOf names.now) difference.now) }
    ensures err { OnErr result (Begins out.new.items out.old.items) }
{
    append_place(difference, names, out)?;
    append_sides(&difference.what, names, out)
}

/// Appends the part and the place of a difference.
#[tactic(auto, using(crate::proofs::BeginsLemmas::begins_itself, crate::proofs::BeginsLemmas::begins_before))]
fn append_place<M: Command, N: NameOf>(
    difference: &Difference<M>,
    names: &N,
    out: &mut Vec<u8>,
) -> Result<(), NoMemory>
    requires { IsNamedDifference (names_of N.NameOf names.now) difference.now }
    ensures ok { let d = difference.now in OnOk result (out.new.items ≡ out.old.items
        ++ (codes "differs " ++ spec.apart_word (names_of N.NameOf names.now) d.what ++ codes " "
        ++ decimal d.place ++ codes ": ")) }
    ensures err { OnErr result (Begins out.new.items out.old.items) }
{
    let mut buffer = Buffer::new();
    out.extend_from_slice(b"differs ")?;
    append_apart(&difference.what, names, out)?;
    append_all(
        out,
        &[b" ", buffer.format(difference.place).as_bytes(), b": "],
    )
}

/// Appends the differing part, or nothing.
fn append_apart<M: Command, N: NameOf>(
    what: &Apart<M>,
    names: &N,
    out: &mut Vec<u8>,
) -> Result<(), NoMemory>
    requires { IsNamedApart (names_of N.NameOf names.now) what.now }
    ensures ok { OnOk result (out.new.items ≡
        out.old.items ++ spec.apart_word (names_of N.NameOf names.now) what.now) }
    ensures err { OnErr result (out.new.items ≡ out.old.items) }
{
    match what {
        Apart::Opening => append_all(out, &[b"opening"]),
        Apart::Kept { .. } => append_all(out, &[b"kept"]),
        Apart::Own { actor, .. } => append_actor(*actor, names, out),
    }
}

/// Appends the expected text and the text of the stage, and ends the line.
#[tactic(auto, using(crate::proofs::BeginsLemmas::begins_itself, crate::proofs::BeginsLemmas::begins_before))]
fn append_sides<M: Command, N: NameOf>(
    what: &Apart<M>,
    names: &N,
    out: &mut Vec<u8>,
) -> Result<(), NoMemory>
    requires { IsNamedApart (names_of N.NameOf names.now) what.now }
    ensures ok { let known = names_of N.NameOf names.now in OnOk result (out.new.items ≡ out.old.items
        ++ (spec.made_text M.words known what.now ++ codes " / "
        ++ spec.found_text M.words known what.now ++ codes "\n")) }
    ensures err { OnErr result (Begins out.new.items out.old.items) }
{
    append_made(what, names, out)?;
    out.extend_from_slice(b" / ")?;
    append_found(what, names, out)?;
    Ok(out.push(b'\n')?)
}

/// Appends the expected text.
fn append_made<M: Command, N: NameOf>(
    what: &Apart<M>,
    names: &N,
    out: &mut Vec<u8>,
) -> Result<(), NoMemory>
    requires { IsNamedApart (names_of N.NameOf names.now) what.now }
    ensures ok { OnOk result (out.new.items ≡
        out.old.items ++ spec.made_text M.words (names_of N.NameOf names.now) what.now) }
    ensures err { OnErr result (Begins out.new.items out.old.items) }
{
    match what {
        Apart::Opening => append_dash(out),
        Apart::Kept { made, .. } => append_entry_or_dash(made, names, out),
        Apart::Own { actor, made, .. } => append_step_or_dash(*actor, made, names, out),
    }
}

/// Appends the text of the stage.
fn append_found<M: Command, N: NameOf>(
    what: &Apart<M>,
    names: &N,
    out: &mut Vec<u8>,
) -> Result<(), NoMemory>
    requires { IsNamedApart (names_of N.NameOf names.now) what.now }
    ensures ok { OnOk result (out.new.items ≡
        out.old.items ++ spec.found_text M.words (names_of N.NameOf names.now) what.now) }
    ensures err { OnErr result (Begins out.new.items out.old.items) }
{
    match what {
        Apart::Opening => append_dash(out),
        Apart::Kept { found, .. } => append_entry_or_dash(found, names, out),
        Apart::Own { actor, found, .. } => append_step_or_dash(*actor, found, names, out),
    }
}

/// Appends the text of an entry, or a dash if there is none.
fn append_entry_or_dash<M: Command, N: NameOf>(
    entry: &Option<Entry<M>>,
    names: &N,
    out: &mut Vec<u8>,
) -> Result<(), NoMemory>
    requires { IfSome entry.now (IsNamedEntry (names_of N.NameOf names.now)) }
    ensures ok { OnOk result (out.new.items ≡ out.old.items
        ++ spec.text_or_dash (entry_text M.words (names_of N.NameOf names.now)) entry.now) }
    ensures err { OnErr result (Begins out.new.items out.old.items) }
{
    match entry {
        Some(entry) => append_entry(entry, names, out),
        None => append_dash(out),
    }
}

/// Appends the text of an actor's step, or a dash if there is none.
fn append_step_or_dash<M: Command, N: NameOf>(
    actor: Actor,
    step: &Option<Step<M>>,
    names: &N,
    out: &mut Vec<u8>,
) -> Result<(), NoMemory>
    requires { IfSome step.now (IsNamedStep (names_of N.NameOf names.now)) }
    ensures ok { OnOk result (out.new.items ≡ out.old.items
        ++ spec.text_or_dash (step_text M.words (names_of N.NameOf names.now) actor) step.now) }
    ensures err { OnErr result (Begins out.new.items out.old.items) }
{
    match step {
        Some(step) => append_step(actor, step, names, out),
        None => append_dash(out),
    }
}

/// Appends a dash.
#[tactic(auto, using(crate::proofs::BeginsLemmas::begins_itself))]
fn append_dash(out: &mut Vec<u8>) -> Result<(), NoMemory>
    ensures ok { OnOk result (out.new.items ≡ out.old.items ++ codes "-") }
    ensures err { OnErr result (Begins out.new.items out.old.items) }
{
    Ok(out.push(b'-')?)
}
