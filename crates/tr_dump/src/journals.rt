ghost use Rattle.std.specs.Prelude.{◌≡◌, ◌+◌, ◌<◌, ◌^◌, [], ◌∷◌, ◌++◌, All, IsSomeAnd, codes, decimal, length, slice_get, OnOk, OnErr};
ghost use Rattle.std.specs.List.{enumerate_from, flat_map};
ghost use Rattle.tr_dump.specs.Begins.{Begins};
ghost use Rattle.tr_journal.specs.Names.{HasLeaf, names_of};
ghost use Rattle.tr_dump.specs.Names.{IsNamedEntry, IsNamedLine};
ghost use Rattle.tr_dump.specs.Values.{spaced};
ghost use Rattle.tr_dump.specs.Steps.{entry_text};
ghost use Rattle.tr_dump.specs.Reports as spec;

use crate::answers::append_answer;
use crate::entries::append_entry;
use crate::names::leaf_name;
use crate::values::append_event;
use crate::words::Word::Number;
use crate::words::{append_line, or_nothing};
use itoa::Buffer;
use tr_base::{Command, NoMemory};
use tr_client::append_all;
use tr_journal::{Delivery, Entry, Journal, NameOf};

/// Appends the number of entries, on a line, and then a line for each entry, numbered from 1, with the
/// deliveries of its step.
pub fn journal<M: Command, N: NameOf>(
    journal: &Journal<M>,
    names: &N,
    out: &mut Vec<u8>,
) -> Result<(), NoMemory>
    requires { All (IsNamedLine (names_of N.NameOf names.now)) journal.now.lines }
    ensures ok { OnOk result (out.new.items ≡
        out.old.items ++ spec.journal_text M.words (names_of N.NameOf names.now) journal.now.lines) }
    ensures err { OnErr result (out.new.items ≡ out.old.items) }
{
    let len = out.len();
    let appended = append_journal(journal, names, out);
    or_nothing(appended, len, out)
}

/// Appends the text of a journal.
#[tactic(auto, using(crate::proofs::BeginsLemmas::begins_itself, crate::proofs::BeginsLemmas::begins_before))]
fn append_journal<M: Command, N: NameOf>(
    journal: &Journal<M>,
    names: &N,
    out: &mut Vec<u8>,
) -> Result<(), NoMemory>
    requires { All (IsNamedLine (names_of N.NameOf names.now)) journal.now.lines }
    ensures ok { OnOk result (out.new.items ≡
        out.old.items ++ spec.journal_text M.words (names_of N.NameOf names.now) journal.now.lines) }
    ensures err { OnErr result (Begins out.new.items out.old.items) }
{
    append_line(out, b"journal", &[Number(journal.len() as u64)])?;
    append_entries(journal, names, out)
}

/// Appends a line for each entry.
#[tactic(auto, using(crate::proofs::BeginsLemmas::begins_itself, crate::proofs::BeginsLemmas::begins_before))]
fn append_entries<M: Command, N: NameOf>(
    journal: &Journal<M>,
    names: &N,
    out: &mut Vec<u8>,
) -> Result<(), NoMemory>
    requires { All (IsNamedLine (names_of N.NameOf names.now)) journal.now.lines }
    ensures ok { OnOk result (out.new.items ≡ out.old.items ++
        flat_map (spec.journal_line M.words (names_of N.NameOf names.now))
        (enumerate_from 1 journal.now.lines)) }
    ensures err { OnErr result (Begins out.new.items out.old.items) }
{
    for k in 0..journal.len() {
        append_numbered(k, journal.get(k), names, out)?;
        append_sent(journal.sent(k), names, out)?;
    }
    Ok(())
}

/// Appends entry `k` (counted from 0) after its number.
#[tactic(auto, using(crate::proofs::BeginsLemmas::begins_itself, crate::proofs::BeginsLemmas::begins_before))]
fn append_numbered<M: Command, N: NameOf>(
    k: usize,
    entry: &Entry<M>,
    names: &N,
    out: &mut Vec<u8>,
) -> Result<(), NoMemory>
    requires counted { k + 1 < 2 ^ 64 }
    requires named { IsNamedEntry (names_of N.NameOf names.now) entry.now }
    ensures ok { OnOk result (out.new.items ≡ out.old.items ++
        spaced (decimal (k + 1) ∷ entry_text M.words (names_of N.NameOf names.now) entry.now ∷ [])) }
    ensures err { OnErr result (Begins out.new.items out.old.items) }
{
    let mut buffer = Buffer::new();
    append_all(out, &[buffer.format(k + 1).as_bytes(), b" "])?;
    append_entry(entry, names, out)
}

/// Appends the deliveries of a step, and ends the line.
#[tactic(auto, using(crate::proofs::BeginsLemmas::begins_itself, crate::proofs::BeginsLemmas::begins_before))]
fn append_sent<N: NameOf>(sent: &[Delivery], names: &N, out: &mut Vec<u8>) -> Result<(), NoMemory>
    requires { All (λ delivery. HasLeaf (names_of N.NameOf names.now) delivery.leaf) sent.now }
    ensures ok { OnOk result (out.new.items ≡ out.old.items ++
        (flat_map (spec.delivery_text (names_of N.NameOf names.now)) sent.now ++ codes "\n")) }
    ensures err { OnErr result (Begins out.new.items out.old.items) }
{
    for delivery in sent {
        append_delivery(delivery, names, out)?;
    }
    Ok(out.push(b'\n')?)
}

/// Appends the text of a delivery.
#[tactic(auto, using(crate::proofs::BeginsLemmas::begins_itself, crate::proofs::BeginsLemmas::begins_before))]
fn append_delivery<N: NameOf>(
    delivery: &Delivery,
    names: &N,
    out: &mut Vec<u8>,
) -> Result<(), NoMemory>
    requires { HasLeaf (names_of N.NameOf names.now) delivery.now.leaf }
    ensures ok { OnOk result (out.new.items ≡
        out.old.items ++ spec.delivery_text (names_of N.NameOf names.now) delivery.now) }
    ensures err { OnErr result (Begins out.new.items out.old.items) }
{
    out.extend_from_slice(b"; ")?;
    append_sent_event(delivery, names, out)
}

/// Appends the name of a delivery's leaf, its fate, and its event.
#[tactic(auto, using(crate::proofs::BeginsLemmas::begins_itself, crate::proofs::BeginsLemmas::begins_before))]
fn append_sent_event<N: NameOf>(
    delivery: &Delivery,
    names: &N,
    out: &mut Vec<u8>,
) -> Result<(), NoMemory>
    requires { HasLeaf (names_of N.NameOf names.now) delivery.now.leaf }
    ensures ok { OnOk result (out.new.items ≡
        out.old.items ++ spec.sent_event (names_of N.NameOf names.now) delivery.now) }
    ensures err { OnErr result (Begins out.new.items out.old.items) }
{
    out.extend_from_slice(leaf_name(names, delivery.leaf))?;
    out.extend_from_slice(fate_text(delivery.dropped))?;
    append_event(&delivery.event, out)
}

/// The text between the name of a leaf and an event that was sent to it.
fn fate_text(dropped: bool) -> &'static [u8]
    ensures { result.now ≡ spec.fate_text dropped }
{
    if dropped { b" dropped " } else { b" " }
}

/// Appends the outcome of the step at index `k`, counted from 0: its answer, on a line, and then a line for
/// each event that it sent.
pub fn outcome<M: Command, N: NameOf>(
    journal: &Journal<M>,
    k: usize,
    names: &N,
    out: &mut Vec<u8>,
) -> Result<(), NoMemory>
    requires entry { k < length journal.now.lines }
    requires named { All (IsNamedLine (names_of N.NameOf names.now)) journal.now.lines }
    ensures ok { OnOk result (IsSomeAnd (slice_get journal.now.lines k) (λ line.
        out.new.items ≡ out.old.items ++ spec.outcome_text (names_of N.NameOf names.now) line)) }
    ensures err { OnErr result (out.new.items ≡ out.old.items) }
{
    let len = out.len();
    let appended = append_outcome(journal, k, names, out);
    or_nothing(appended, len, out)
}

/// Appends an answer and the deliveries after it, each on a line.
#[tactic(auto, using(crate::proofs::BeginsLemmas::begins_itself, crate::proofs::BeginsLemmas::begins_before))]
fn append_outcome<M: Command, N: NameOf>(
    journal: &Journal<M>,
    k: usize,
    names: &N,
    out: &mut Vec<u8>,
) -> Result<(), NoMemory>
    requires entry { k < length journal.now.lines }
    requires named { All (IsNamedLine (names_of N.NameOf names.now)) journal.now.lines }
    ensures ok { OnOk result (IsSomeAnd (slice_get journal.now.lines k) (λ line.
        out.new.items ≡ out.old.items ++ spec.outcome_text (names_of N.NameOf names.now) line)) }
    ensures err { OnErr result (Begins out.new.items out.old.items) }
{
    append_answer(&journal.get(k).reply.answer, out)?;
    out.push(b'\n')?;
    append_sent_lines(journal.sent(k), names, out)
}

/// Appends a line for each delivery.
#[tactic(auto, using(crate::proofs::BeginsLemmas::begins_itself, crate::proofs::BeginsLemmas::begins_before))]
fn append_sent_lines<N: NameOf>(
    sent: &[Delivery],
    names: &N,
    out: &mut Vec<u8>,
) -> Result<(), NoMemory>
    requires { All (λ delivery. HasLeaf (names_of N.NameOf names.now) delivery.leaf) sent.now }
    ensures ok { OnOk result (out.new.items ≡ out.old.items ++
        flat_map (spec.sent_line (names_of N.NameOf names.now)) sent.now) }
    ensures err { OnErr result (Begins out.new.items out.old.items) }
{
    for delivery in sent {
        append_sent_line(delivery, names, out)?;
    }
    Ok(())
}

/// Appends a delivery on a line.
#[tactic(auto, using(crate::proofs::BeginsLemmas::begins_itself, crate::proofs::BeginsLemmas::begins_before))]
fn append_sent_line<N: NameOf>(
    delivery: &Delivery,
    names: &N,
    out: &mut Vec<u8>,
) -> Result<(), NoMemory>
    requires { HasLeaf (names_of N.NameOf names.now) delivery.now.leaf }
    ensures ok { OnOk result (out.new.items ≡
        out.old.items ++ spec.sent_line (names_of N.NameOf names.now) delivery.now) }
    ensures err { OnErr result (Begins out.new.items out.old.items) }
{
    append_sent_event(delivery, names, out)?;
    Ok(out.push(b'\n')?)
}
