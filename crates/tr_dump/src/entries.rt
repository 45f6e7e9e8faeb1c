ghost use Rattle.std.specs.Prelude.{◌≡◌, ◌++◌, All, codes, OnOk, OnErr};
ghost use Rattle.tr_dump.specs.Begins.{Begins};
ghost use Rattle.tr_journal.specs.Names.{names_of};
ghost use Rattle.tr_dump.specs.Names.{IsNamedActor, IsNamedEntry, IsNamedLevel};
ghost use Rattle.tr_dump.specs.Steps.{actor_text, entry_text, levels_text};

use crate::answers::append_answer;
use crate::steps::{append_actor, append_levels, append_step};
use tr_base::{Command, NoMemory};
use tr_journal::{Actor, Entry, NameOf};
use tr_levels::Held;

/// Appends the text of an entry.
#[tactic(auto, using(crate::proofs::BeginsLemmas::begins_itself, crate::proofs::BeginsLemmas::begins_before))]
pub(crate) fn append_entry<M: Command, N: NameOf>(
    entry: &Entry<M>,
    names: &N,
    out: &mut Vec<u8>,
) -> Result<(), NoMemory>
    requires { IsNamedEntry (names_of N.NameOf names.now) entry.now }
    ensures ok { OnOk result (out.new.items ≡
        out.old.items ++ entry_text M.words (names_of N.NameOf names.now) entry.now) }
    ensures err { OnErr result (Begins out.new.items out.old.items) }
{
    append_maker(entry.actor, &entry.level, names, out)?;
    append_step(entry.actor, &entry.step, names, out)?;
    out.extend_from_slice(b" = ")?;
    append_answer(&entry.reply.answer, out)
}

/// Appends an actor and the locks that it held, a space after each.
#[tactic(auto, using(crate::proofs::BeginsLemmas::begins_itself, crate::proofs::BeginsLemmas::begins_before))]
fn append_maker<N: NameOf>(
    actor: Actor,
    held: &Held,
    names: &N,
    out: &mut Vec<u8>,
) -> Result<(), NoMemory>
    requires actor { IsNamedActor (names_of N.NameOf names.now) actor }
    requires levels { All (IsNamedLevel (names_of N.NameOf names.now)) held.now }
    ensures ok { OnOk result (out.new.items ≡ out.old.items
        ++ (actor_text (names_of N.NameOf names.now) actor ++ codes " "
        ++ levels_text (names_of N.NameOf names.now) held.now ++ codes " ")) }
    ensures err { OnErr result (Begins out.new.items out.old.items) }
{
    append_actor(actor, names, out)?;
    out.push(b' ')?;
    append_levels(held, names, out)?;
    Ok(out.push(b' ')?)
}
