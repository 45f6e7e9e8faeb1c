ghost use Rattle.std.specs.Prelude.{◌≡◌, ◌++◌, OnOk, OnErr};
ghost use Rattle.tr_dump.specs.Begins.{Begins};
ghost use Rattle.tr_dump.specs.Steps as spec;

use crate::values::append_event;
use crate::words::Word::{Number, Text};
use crate::words::append_words;
use tr_base::NoMemory;
use tr_client::append_with_text;
use tr_desk::DeskFault;
use tr_forest::NodeFault;
use tr_journal::Answer;

/// Appends the text of an answer.
#[tactic(auto, using(crate::proofs::BeginsLemmas::begins_itself, crate::proofs::BeginsLemmas::begins_before))]
pub(crate) fn append_answer(answer: &Answer, out: &mut Vec<u8>) -> Result<(), NoMemory>
    ensures ok { OnOk result (out.new.items ≡ out.old.items ++ spec.answer_text answer.now) }
    ensures err { OnErr result (Begins out.new.items out.old.items) }
{
    match answer {
        Answer::Done => append_words(out, b"ok", &[]),
        Answer::Taken(event) => {
            out.extend_from_slice(b"took ")?;
            append_event(event, out)
        }
        Answer::Value(text) => append_with_text(out, b"value", text),
        Answer::Empty => append_words(out, b"empty", &[]),
        Answer::Tree(fault) => append_words(out, node_fault_code(*fault), &[]),
        Answer::Desk(fault) => append_desk_fault(*fault, out),
    }
}

fn node_fault_code(fault: NodeFault) -> &'static [u8]
    ensures { result.now ≡ spec.node_fault_text fault }
{
    match fault {
        NodeFault::WrongKind => b"N1",
        NodeFault::Cycle => b"N2",
        NodeFault::Occupied => b"N3",
        NodeFault::Attached => b"N4",
        NodeFault::TooDeep => b"N5",
        NodeFault::NotChild => b"N6",
    }
}

/// Appends the code of a fault of the desk, and the times that it names.
fn append_desk_fault(fault: DeskFault, out: &mut Vec<u8>) -> Result<(), NoMemory>
    ensures ok { OnOk result (out.new.items ≡ out.old.items ++ spec.desk_fault_text fault) }
    ensures err { OnErr result (Begins out.new.items out.old.items) }
{
    match fault {
        DeskFault::Earlier { now } => append_words(out, b"N7", &[Number(now.into())]),
        DeskFault::Held => append_words(out, b"N8", &[]),
        DeskFault::NotHeld => append_words(out, b"N9", &[]),
        DeskFault::NotCurrent { now, last } => append_words(
            out,
            b"N10",
            &[Number(now.into()), Number(last.into())],
        ),
        DeskFault::NotOwner => append_words(out, b"N11", &[]),
        DeskFault::Unowned => append_words(out, b"N12", &[]),
    }
}
