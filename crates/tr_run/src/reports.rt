ghost use Rattle.std.specs.Prelude.{◌≡◌, ◌++◌, All, OnOk, OnErr, length};
ghost use Rattle.tr_journal.specs.declared.Query.TheVariants.{Dump};
ghost use Rattle.tr_journal.specs.Openings.{tree_of};
ghost use Rattle.tr_journal.specs.Steps.{IsQuery};
ghost use Rattle.tr_spot.specs.Spots.{spot};
ghost use Rattle.tr_machine.specs.Pictures.{render};
ghost use Rattle.tr_journal.specs.Names.{names_of};
ghost use Rattle.tr_dump.specs.Names.{IsNamedLine};
ghost use Rattle.tr_dump.specs.Reports.{journal_text, peek_text, place_text};
ghost use Rattle.tr_stage.specs.Stages.{state};
ghost use Rattle.tr_run.specs.Texts.{lag, lag_line, report_text};
ghost use Rattle.tr_run.specs.Views.{AreNamed, IsNamed};

use std::alloc::Global;
use tr_base::{NoMemory, Point};
use tr_client::Client;
use tr_dump::{dump, inbox, journal, peek_line, place_line};
use tr_journal::{NameOf, Query};
use tr_output::Output;
use tr_spot::spot_at;
use tr_stage::Stage;

/// Appends the text of a report. The stage is settled before a dump.
pub(crate) fn append_report<C: Client, N: NameOf>(
    stage: &Stage<C>,
    names: &N,
    query: &Query,
    out: &mut Output,
) -> Result<(), NoMemory>
    requires named { IsNamed C.Client (names_of N.NameOf names.now) stage.now }
    requires values { IsQuery (tree_of stage.now.opening).nodes query.now }
    requires settled { query.now ≡ Dump → stage.now.screen ≡ render C.Client (state C.Client stage.now) }
    ensures ok { OnOk result (out.new ≡ out.old ++ report_text C.Client C.Cmd.words
        (names_of N.NameOf names.now) stage.now.journal (state C.Client stage.now) query.now) }
    ensures err { OnErr result (out.new ≡ out.old) }
{
    match query {
        Query::Dump => dump(stage.screen(), out),
        Query::Peek => append_peek(stage, &mut out.tail),
        Query::Journal => append_journal(stage, names, &mut out.tail),
        Query::Where(at) => append_place(stage, names, *at, &mut out.tail),
        Query::Inbox(leaf) => inbox(*leaf, stage.inbox(*leaf), names, &mut out.tail),
    }
}

/// Appends the screen's lag.
fn append_peek<C: Client>(stage: &Stage<C>, out: &mut Vec<u8>) -> Result<(), NoMemory>
    ensures ok { OnOk result (out.new.items
        ≡ out.old.items ++ peek_text (lag C.Client (state C.Client stage.now))) }
    ensures err { OnErr result (out.new.items ≡ out.old.items) }
{
    peek_line(&stage.peek()?, out)
}

/// Appends the journal.
fn append_journal<C: Client, N: NameOf>(
    stage: &Stage<C>,
    names: &N,
    out: &mut Vec<u8>,
) -> Result<(), NoMemory>
    requires { All (IsNamedLine (names_of N.NameOf names.now)) stage.now.journal }
    ensures ok { OnOk result (out.new.items ≡ out.old.items ++
        journal_text C.Cmd.words (names_of N.NameOf names.now) stage.now.journal) }
    ensures err { OnErr result (out.new.items ≡ out.old.items) }
{
    journal(stage.journal(), names, out)
}

/// Appends the owner of a point.
fn append_place<C: Client, N: NameOf>(
    stage: &Stage<C>,
    names: &N,
    at: Point,
    out: &mut Vec<u8>,
) -> Result<(), NoMemory>
    requires { AreNamed (names_of N.NameOf names.now) (tree_of stage.now.opening).nodes }
    ensures ok { OnOk result (out.new.items ≡ out.old.items ++
        place_text (names_of N.NameOf names.now) at (spot (state C.Client stage.now).tree at)) }
    ensures err { OnErr result (out.new.items ≡ out.old.items) }
{
    let spot = spot_at(stage.tree(), at);
    place_line(at, &spot, names, out)
}

/// Appends the screen's lag after the last entry of the journal.
pub(crate) fn append_lag<C: Client>(
    alloc: Global,
    stage: &Stage<C>,
    out: &mut Output,
) -> Result<(), NoMemory>
    ensures ok { OnOk result (out.new ≡ out.old ++
        lag_line C.Client (length stage.now.journal) (state C.Client stage.now)) }
    ensures err { OnErr result (out.new ≡ out.old) }
{
    stage.invariant();
    let number = stage.journal().len();
    let peek = stage.peek()?;
    let (bad, stale) = (peek.bad, peek.stale);
    // No stale point is outside the waiting commands; this is so on each stage.
    let outside: u32 = 0;
    let line = format!(in alloc; "step {number} bad {bad} stale {stale} outside {outside}\n")?;
    out.append_bytes(line.as_bytes())
}
