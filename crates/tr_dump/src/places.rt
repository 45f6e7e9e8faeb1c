ghost use Rattle.std.specs.Prelude.{◌≡◌, ◌++◌, OnOk, OnErr};
ghost use Rattle.std.specs.List.{flat_map};
ghost use Rattle.tr_dump.specs.Begins.{Begins};
ghost use Rattle.tr_journal.specs.Names.{HasLeaf, names_of};
ghost use Rattle.tr_dump.specs.Names.{IsNamedSpot};
ghost use Rattle.tr_dump.specs.Reports as spec;

use crate::names::{leaf_name, node_name};
use crate::values::append_event;
use crate::words::Word::{Number, Signed, Text};
use crate::words::{append_line, or_nothing};
use tr_base::{Event, LeafId, NoMemory, Point, Spot};
use tr_inbox::Inbox;
use tr_journal::NameOf;

/// Appends the owner of a point, on a line.
pub fn place_line<N: NameOf>(
    p: Point,
    spot: &Spot,
    names: &N,
    out: &mut Vec<u8>,
) -> Result<(), NoMemory>
    requires { IsNamedSpot (names_of N.NameOf names.now) spot.now }
    ensures ok { OnOk result (out.new.items ≡
        out.old.items ++ spec.place_text (names_of N.NameOf names.now) p spot.now) }
    ensures err { OnErr result (out.new.items ≡ out.old.items) }
{
    let len = out.len();
    let appended = append_place(p, spot, names, out);
    or_nothing(appended, len, out)
}

/// Appends the owner of a point.
fn append_place<N: NameOf>(
    p: Point,
    spot: &Spot,
    names: &N,
    out: &mut Vec<u8>,
) -> Result<(), NoMemory>
    requires { IsNamedSpot (names_of N.NameOf names.now) spot.now }
    ensures ok { OnOk result (out.new.items ≡
        out.old.items ++ spec.place_text (names_of N.NameOf names.now) p spot.now) }
    ensures err { OnErr result (Begins out.new.items out.old.items) }
{
    match *spot {
        Spot::Leaf { leaf, at, .. } => append_line(
            out,
            b"where",
            &[
                Signed(p.h),
                Signed(p.v),
                Text(b"leaf"),
                Text(leaf_name(names, leaf)),
                Signed(at.h),
                Signed(at.v),
            ],
        ),
        Spot::Frame { node, .. } => append_line(
            out,
            b"where",
            &[
                Signed(p.h),
                Signed(p.v),
                Text(b"frame"),
                Text(node_name(names, node)),
            ],
        ),
        Spot::Off => append_line(out, b"where", &[Signed(p.h), Signed(p.v), Text(b"off")]),
    }
}

/// Appends the numbers of waiting and dropped events of a leaf, on a line, and then each waiting event, on
/// a line, the oldest first.
pub fn inbox<N: NameOf>(
    leaf: LeafId,
    inbox: &Inbox,
    names: &N,
    out: &mut Vec<u8>,
) -> Result<(), NoMemory>
    requires { HasLeaf (names_of N.NameOf names.now) leaf }
    ensures ok { OnOk result (out.new.items ≡
        out.old.items ++ spec.inbox_text (names_of N.NameOf names.now) leaf inbox.now) }
    ensures err { OnErr result (out.new.items ≡ out.old.items) }
{
    let len = out.len();
    let appended = append_inbox(leaf, inbox, names, out);
    or_nothing(appended, len, out)
}

/// Appends the text of an inbox.
#[tactic(auto, using(crate::proofs::BeginsLemmas::begins_itself, crate::proofs::BeginsLemmas::begins_before))]
fn append_inbox<N: NameOf>(
    leaf: LeafId,
    inbox: &Inbox,
    names: &N,
    out: &mut Vec<u8>,
) -> Result<(), NoMemory>
    requires { HasLeaf (names_of N.NameOf names.now) leaf }
    ensures ok { OnOk result (out.new.items ≡
        out.old.items ++ spec.inbox_text (names_of N.NameOf names.now) leaf inbox.now) }
    ensures err { OnErr result (Begins out.new.items out.old.items) }
{
    append_line(
        out,
        b"inbox",
        &[
            Text(leaf_name(names, leaf)),
            Text(b"waiting"),
            Number(inbox.waiting() as u64),
            Text(b"dropped"),
            Number(inbox.dropped().into()),
        ],
    )?;
    append_events(inbox, out)
}

/// Appends a line for each waiting event.
#[tactic(auto, using(crate::proofs::BeginsLemmas::begins_itself, crate::proofs::BeginsLemmas::begins_before))]
fn append_events(inbox: &Inbox, out: &mut Vec<u8>) -> Result<(), NoMemory>
    ensures ok { OnOk result (out.new.items ≡ out.old.items ++ flat_map spec.event_line inbox.now.events) }
    ensures err { OnErr result (Begins out.new.items out.old.items) }
{
    for i in 0..inbox.waiting() {
        append_event_line(&inbox.get(i), out)?;
    }
    Ok(())
}

/// Appends the line of an event.
#[tactic(auto, using(crate::proofs::BeginsLemmas::begins_itself, crate::proofs::BeginsLemmas::begins_before))]
fn append_event_line(event: &Event, out: &mut Vec<u8>) -> Result<(), NoMemory>
    ensures ok { OnOk result (out.new.items ≡ out.old.items ++ spec.event_line event.now) }
    ensures err { OnErr result (Begins out.new.items out.old.items) }
{
    append_event(event, out)?;
    Ok(out.push(b'\n')?)
}
