ghost use Rattle.std.specs.Prelude.{◌≡◌, ◌++◌, OnOk, OnErr};
ghost use Rattle.tr_dump.specs.Begins.{Begins};
ghost use Rattle.tr_journal.specs.Names.{names_of};
ghost use Rattle.tr_dump.specs.Names.{IsNamedEdit};
ghost use Rattle.tr_dump.specs.Steps.{edit_text};

use crate::names::node_name;
use crate::values::kind_word;
use crate::words::Word::{Number, Signed, Text};
use crate::words::append_words;
use tr_base::{NoMemory, NodeId, Point, Shapes, Size};
use tr_forest::Edit;
use tr_journal::NameOf;

/// Appends the text of an edit.
pub(crate) fn append_edit<N: NameOf>(
    edit: &Edit,
    names: &N,
    out: &mut Vec<u8>,
) -> Result<(), NoMemory>
    requires { IsNamedEdit (names_of N.NameOf names.now) edit.now }
    ensures ok { OnOk result (out.new.items
        ≡ out.old.items ++ edit_text (names_of N.NameOf names.now) edit.now) }
    ensures err { OnErr result (Begins out.new.items out.old.items) }
{
    match *edit {
        Edit::Attach { child, parent, at } => append_words(
            out,
            b"attach",
            &[
                Text(node_name(names, child)),
                Text(node_name(names, parent)),
                Signed(at.h),
                Signed(at.v),
            ],
        ),
        Edit::Detach { child } => append_words(out, b"detach", &[Text(node_name(names, child))]),
        Edit::Tint { node, tint } => append_words(
            out,
            b"tint",
            &[Text(node_name(names, node)), Number(tint.into())],
        ),
        Edit::Border { node, width } => append_words(
            out,
            b"border",
            &[Text(node_name(names, node)), Number(width.into())],
        ),
        Edit::Offset { node, by } => append_words(
            out,
            b"offset",
            &[Text(node_name(names, node)), Signed(by.h), Signed(by.v)],
        ),
        Edit::Fix { node, size } => append_words(
            out,
            b"fix",
            &[
                Text(node_name(names, node)),
                Number(size.wide.into()),
                Number(size.high.into()),
            ],
        ),
        Edit::Move { child, at } => append_words(
            out,
            b"move",
            &[Text(node_name(names, child)), Signed(at.h), Signed(at.v)],
        ),
        Edit::Lift { child } => append_words(out, b"lift", &[Text(node_name(names, child))]),
        Edit::Show { node, child } => append_words(
            out,
            b"show",
            &[Text(node_name(names, node)), Text(node_name(names, child))],
        ),
        Edit::Turn { node, page } => append_words(
            out,
            b"turn",
            &[Text(node_name(names, node)), Number(page.into())],
        ),
        Edit::Shapes { node, shapes } => append_words(
            out,
            b"shapes",
            &[
                Text(node_name(names, node)),
                Number(shapes.across.lo.into()),
                Number(shapes.across.pref.into()),
                Number(shapes.across.hi.into()),
                Number(shapes.down.lo.into()),
                Number(shapes.down.pref.into()),
                Number(shapes.down.hi.into()),
            ],
        ),
        Edit::Resize { size } => append_words(
            out,
            b"resize",
            &[Number(size.wide.into()), Number(size.high.into())],
        ),
        Edit::Rescreen { kind } => append_words(out, b"rescreen", &[Text(kind_word(kind))]),
    }
}
