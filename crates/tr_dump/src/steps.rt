ghost use Rattle.std.specs.Prelude.{◌≡◌, ◌∷◌, ◌++◌, All, codes, OnOk, OnErr};
ghost use Rattle.tr_dump.specs.Begins.{Begins};
ghost use Rattle.tr_journal.specs.Names.{HasLeaf, names_of};
ghost use Rattle.tr_dump.specs.Names.{IsNamedActor, IsNamedLevel, IsNamedQuery, IsNamedStep};
ghost use Rattle.tr_dump.specs.Values.{rect_words, spaced};
ghost use Rattle.tr_dump.specs.Steps as spec;
ghost use Rattle.tr_dump.specs.Words.{mu_text};

use crate::edits::append_edit;
use crate::names::leaf_name;
use crate::values::selection_word;
use crate::words::Word::{Number, Signed, Text};
use crate::words::append_words;
use tr_base::{Command, LeafId, NoMemory, Rect};
use tr_cage::Cage;
use tr_client::append_all;
use tr_journal::{Actor, NameOf, Query, Step};
use tr_levels::Held;

/// Appends the text of an actor, or nothing.
pub(crate) fn append_actor<N: NameOf>(
    actor: Actor,
    names: &N,
    out: &mut Vec<u8>,
) -> Result<(), NoMemory>
    requires { IsNamedActor (names_of N.NameOf names.now) actor }
    ensures ok { OnOk result (out.new.items
        ≡ out.old.items ++ spec.actor_text (names_of N.NameOf names.now) actor) }
    ensures err { OnErr result (out.new.items ≡ out.old.items) }
{
    match actor {
        Actor::Leaf(leaf) => append_all(out, &[b"leaf:", leaf_name(names, leaf)]),
        Actor::Desk => append_all(out, &[b"desk"]),
        Actor::Painter => append_all(out, &[b"painter"]),
        Actor::Player => append_all(out, &[b"player"]),
    }
}

/// Appends the text of the held locks.
#[tactic(auto, using(crate::proofs::BeginsLemmas::begins_itself, crate::proofs::BeginsLemmas::begins_before))]
pub(crate) fn append_levels<N: NameOf>(
    held: &Held,
    names: &N,
    out: &mut Vec<u8>,
) -> Result<(), NoMemory>
    requires { All (IsNamedLevel (names_of N.NameOf names.now)) held.now }
    ensures ok { OnOk result (out.new.items ≡
        out.old.items ++ spec.levels_text (names_of N.NameOf names.now) held.now) }
    ensures err { OnErr result (Begins out.new.items out.old.items) }
{
    let (mu, share, win) = held.parts();
    out.extend_from_slice(mu_text(mu, share.is_none() && win.is_none()))?;
    match (share, win) {
        (None, None) => Ok(()),
        (Some(share), None) => append_all(out, &[b"share:", leaf_name(names, share)]),
        (None, Some(win)) => append_all(out, &[b"win:", leaf_name(names, win)]),
        (Some(share), Some(win)) => append_all(
            out,
            &[
                b"share:",
                leaf_name(names, share),
                b",win:",
                leaf_name(names, win),
            ],
        ),
    }
}

/// The text of the tree's lock, if it is held, with a comma after it unless it is held alone.
fn mu_text(mu: bool, alone: bool) -> &'static [u8]
    ensures { result.now ≡ mu_text mu alone }
{
    match (mu, alone) {
        (true, true) => b"mu",
        (true, false) => b"mu,",
        (false, _) => b"",
    }
}

/// Appends the text of a step.
#[tactic(auto, using(crate::proofs::BeginsLemmas::begins_itself))]
pub(crate) fn append_step<M: Command, N: NameOf>(
    actor: Actor,
    step: &Step<M>,
    names: &N,
    out: &mut Vec<u8>,
) -> Result<(), NoMemory>
    requires { IsNamedStep (names_of N.NameOf names.now) step.now }
    ensures ok { OnOk result (out.new.items ≡
        out.old.items ++ spec.step_text M.words (names_of N.NameOf names.now) actor step.now) }
    ensures err { OnErr result (Begins out.new.items out.old.items) }
{
    match *step {
        Step::Act { ref cmd, .. } => cmd.print(out),
        Step::Mark { ref clip, .. } => append_mark(clip, out),
        Step::Take { .. } => append_words(out, b"take", &[]),
        Step::SetCage { ref cage, .. } => append_cage(cage, out),
        Step::Own {
            selection,
            time,
            ..
        } => append_words(
            out,
            b"own",
            &[Text(selection_word(selection)), Number(time.into())],
        ),
        Step::Disown { selection, .. } => append_words(
            out,
            b"disown",
            &[Text(selection_word(selection))],
        ),
        Step::Read { selection, .. } => append_words(
            out,
            b"read",
            &[Text(selection_word(selection))],
        ),
        Step::Mouse { time, button, down } => append_words(
            out,
            b"mouse",
            &[
                Number(time.into()),
                Text(button_word(down)),
                Number(button.into()),
            ],
        ),
        Step::Motion { time, at } => append_words(
            out,
            b"motion",
            &[Number(time.into()), Signed(at.h), Signed(at.v)],
        ),
        Step::Key { time, code } => {
            append_words(out, b"key", &[Number(time.into()), Number(code.into())])
        }
        Step::Alter { ref edit } => append_edit(edit, names, out),
        Step::Flush { leaf } => append_flush(actor, leaf, names, out),
        Step::Repaint { leaf } => append_repaint(actor, leaf, names, out),
        Step::PaintFrame => append_words(out, b"frame", &[]),
        Step::Sync => append_words(out, b"sync", &[]),
        Step::Report { ref query } => append_query(query, names, out),
    }
}

/// Appends the text of a flush: a leaf's own client doesn't name it.
fn append_flush<N: NameOf>(
    actor: Actor,
    leaf: LeafId,
    names: &N,
    out: &mut Vec<u8>,
) -> Result<(), NoMemory>
    requires { HasLeaf (names_of N.NameOf names.now) leaf }
    ensures ok { OnOk result (out.new.items ≡
        out.old.items ++ spec.flush_text (names_of N.NameOf names.now) actor leaf) }
    ensures err { OnErr result (Begins out.new.items out.old.items) }
{
    if actor == Actor::Leaf(leaf) {
        append_words(out, b"flush", &[])
    } else {
        append_words(out, b"flush", &[Text(leaf_name(names, leaf))])
    }
}

/// Appends the text of a repaint: a leaf's own client doesn't name it.
fn append_repaint<N: NameOf>(
    actor: Actor,
    leaf: LeafId,
    names: &N,
    out: &mut Vec<u8>,
) -> Result<(), NoMemory>
    requires { HasLeaf (names_of N.NameOf names.now) leaf }
    ensures ok { OnOk result (out.new.items ≡
        out.old.items ++ spec.repaint_text (names_of N.NameOf names.now) actor leaf) }
    ensures err { OnErr result (Begins out.new.items out.old.items) }
{
    if actor == Actor::Leaf(leaf) {
        append_words(out, b"force", &[])
    } else {
        append_words(out, b"repaint", &[Text(leaf_name(names, leaf))])
    }
}

/// Appends the text of a mark.
fn append_mark(clip: &Rect, out: &mut Vec<u8>) -> Result<(), NoMemory>
    ensures ok { OnOk result (out.new.items ≡ out.old.items ++ spaced (codes "mark" ∷ rect_words clip.now)) }
    ensures err { OnErr result (Begins out.new.items out.old.items) }
{
    append_words(
        out,
        b"mark",
        &[
            Signed(clip.west()),
            Signed(clip.east()),
            Signed(clip.north()),
            Signed(clip.south()),
        ],
    )
}

fn button_word(down: bool) -> &'static [u8]
    ensures { result.now ≡ spec.button_word down }
{
    if down { b"down" } else { b"up" }
}

fn cage_word(here: bool, gone: bool) -> &'static [u8]
    ensures { result.now ≡ spec.cage_word here gone }
{
    match (here, gone) {
        (true, true) => b"both",
        (true, false) => b"here",
        (false, _) => b"gone",
    }
}

/// Appends the text of a step that sets a cage.
fn append_cage(cage: &Cage, out: &mut Vec<u8>) -> Result<(), NoMemory>
    ensures ok { OnOk result (out.new.items ≡ out.old.items ++ spec.cage_text cage.now) }
    ensures err { OnErr result (Begins out.new.items out.old.items) }
{
    match cage {
        Cage::Everywhere => append_words(out, b"free", &[]),
        Cage::Only { rect, here, gone } => append_words(
            out,
            b"cage",
            &[
                Signed(rect.west()),
                Signed(rect.east()),
                Signed(rect.north()),
                Signed(rect.south()),
                Text(cage_word(*here, *gone)),
            ],
        ),
    }
}

/// Appends the text of a report's step.
fn append_query<N: NameOf>(query: &Query, names: &N, out: &mut Vec<u8>) -> Result<(), NoMemory>
    requires { IsNamedQuery (names_of N.NameOf names.now) query.now }
    ensures ok { OnOk result (out.new.items ≡
        out.old.items ++ spec.query_text (names_of N.NameOf names.now) query.now) }
    ensures err { OnErr result (Begins out.new.items out.old.items) }
{
    match query {
        Query::Dump => append_words(out, b"dump", &[]),
        Query::Peek => append_words(out, b"peek", &[]),
        Query::Journal => append_words(out, b"journal", &[]),
        Query::Where(at) => append_words(out, b"where", &[Signed(at.h), Signed(at.v)]),
        Query::Inbox(leaf) => append_words(out, b"inbox", &[Text(leaf_name(names, *leaf))]),
    }
}
