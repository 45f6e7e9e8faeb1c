ghost use Rattle.std.specs.Prelude.{◌≡◌, ◌++◌, OnOk, OnErr};
ghost use Rattle.tr_dump.specs.Begins.{Begins};
ghost use Rattle.tr_dump.specs.Values as spec;

use crate::words::Word::{Number, Signed, Text};
use crate::words::append_words;
use tr_base::{Click, Event, Kind, NoMemory, Selection};

pub(crate) fn kind_word(kind: Kind) -> &'static [u8]
    ensures { result.now ≡ spec.kind_word kind }
{
    match kind {
        Kind::Mono => b"mono",
        Kind::Map4 => b"map4",
        Kind::Map8 => b"map8",
    }
}

pub(crate) fn selection_word(selection: Selection) -> &'static [u8]
    ensures { result.now ≡ spec.selection_word selection }
{
    match selection {
        Selection::Key => b"key",
        Selection::Source => b"source",
        Selection::Target => b"target",
    }
}

fn click_word(click: Click) -> &'static [u8]
    ensures { result.now ≡ spec.click_word click }
{
    match click {
        Click::FirstDown => b"firstdown",
        Click::OtherDown => b"otherdown",
        Click::OtherUp => b"otherup",
        Click::LastUp => b"lastup",
    }
}

fn presence_word(gone: bool) -> &'static [u8]
    ensures { result.now ≡ spec.presence_word gone }
{
    if gone { b"gone" } else { b"here" }
}

/// Appends the text of an event.
pub(crate) fn append_event(event: &Event, out: &mut Vec<u8>) -> Result<(), NoMemory>
    ensures ok { OnOk result (out.new.items ≡ out.old.items ++ spec.event_text event.now) }
    ensures err { OnErr result (Begins out.new.items out.old.items) }
{
    match *event {
        Event::Mouse {
            time,
            click,
            button,
            at,
        } => append_words(
            out,
            b"mouse",
            &[
                Number(time.into()),
                Text(click_word(click)),
                Number(button.into()),
                Signed(at.h),
                Signed(at.v),
            ],
        ),
        Event::Position { time, at, gone } => append_words(
            out,
            b"position",
            &[
                Number(time.into()),
                Signed(at.h),
                Signed(at.v),
                Text(presence_word(gone)),
            ],
        ),
        Event::Key { time, code } => append_words(
            out,
            b"key",
            &[Number(time.into()), Number(code.into())],
        ),
        Event::Lost { selection } => append_words(out, b"lost", &[Text(selection_word(selection))]),
        Event::Reshape { size, kind } => append_words(
            out,
            b"reshape",
            &[
                Number(size.wide.into()),
                Number(size.high.into()),
                Text(kind_word(kind)),
            ],
        ),
    }
}
