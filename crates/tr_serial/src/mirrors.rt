ghost use Rattle.std.specs.Prelude.{◌≡◌, ◌+◌, ◌≤◌, ◌<◌, true, false, [], ◌∷◌, ◌++◌, if◌then◌else◌, length, All, IfOk, OnOk, map};
ghost use Rattle.std.specs.List.{filter, flat_map};
ghost use Rattle.tr_journal.specs.declared.Actor.TheVariants.{Player};
ghost use Rattle.tr_journal.specs.declared.Query.TheVariants.{Dump};
ghost use Rattle.tr_journal.specs.declared.Step.TheVariants.{Sync};
ghost use Rattle.tr_journal.specs.Openings.{tree_of};
ghost use Rattle.tr_journal.specs.Steps.{IsQuery};
ghost use Rattle.tr_widget.specs.Widgets.{widget_words};
ghost use Rattle.tr_mirror.specs.Readings.{IsStream, screens_shown};
ghost use Rattle.tr_grammar.specs.Scripts.{IsPlayablePart, IsPlayableScript};
ghost use Rattle.tr_run.specs.Runs.{makes, reporting};
ghost use Rattle.tr_dump.specs.Reports.{dump_text};
ghost use Rattle.tr_serial.specs.Outputs as spec;
ghost use Rattle.tr_serial.specs.Outputs.{out_text};
ghost use Rattle.tr_serial.specs.Reports.{is_dump, reports_of, report_texts};
ghost use Rattle.tr_serial.specs.Screens.{dumped_screens, mirror_bytes, report_count};
ghost use Rattle.tr_serial.specs.Streams.{Mirrors};

use crate::plays::{Played, begin, make_all};
use crate::streams::ScreenStream;
use crate::values::has_values;
use std::alloc::Global;
use tr_base::NoMemory;
use tr_client::Client;
use tr_journal::{NameOf, Query};
use tr_output::Output;
use tr_reader::{Part, Script};
use tr_run::{Finished, Mode, Run};
use tr_widget::WidgetCmd;

/// Plays a script, and writes the stream of the screens that it dumps. A script that was read has at most 64
/// reports.
pub fn mirror(alloc: Global, script: Script) -> Result<Played, NoMemory>
    requires playable { IsPlayableScript script }
    requires few { report_count script.parts ≤ 64 }
    ensures text { IfOk result (λ played. played.text ≡ mirror_bytes script) }

    // A reader of the stream has these screens at its cuts.
    ensures stream { IfOk result (λ played. IsStream played.text) }
    ensures shows { IfOk result (λ played. screens_shown played.text ≡ dumped_screens script) }

    // `show` of it prints the dumps among the reports that `serial` prints.
    ensures dumps { IfOk result (λ played. flat_map dump_text (screens_shown played.text)
        ≡ report_texts (filter is_dump (reports_of script))) }
    ensures reports { out_text script ≡ report_texts (reports_of script) }
    ensures journal { IfOk result (λ played. played.stage.journal ≡ spec.serial_journal script) }
    ensures opening { IfOk result (λ played. played.stage.opening ≡ script.opening) }
{
    let Script {
        opening,
        names,
        parts,
    } = script;
    let mut run = Run::start(alloc, opening, &names, Mode::Gen)?;
    let mut stream = ScreenStream::new(alloc);
    mirror_parts(&mut run, &mut stream, parts)?;
    let Finished { stage, .. } = run.finish();
    Ok(Played {
        text: Output::of(alloc, stream.into_bytes()),
        stage,
    })
}

/// Plays parts, one after another, and appends the screens that they dump. Each later one begins with a sync.
fn mirror_parts<C: Client<Cmd = WidgetCmd>, N: NameOf>(
    run: &mut Run<C, N>,
    stream: &mut ScreenStream,
    parts: Vec<Part>,
) -> Result<(), NoMemory>
    requires playable { All (IsPlayablePart (tree_of run.old.stage.opening).nodes) parts.items }
    requires few { stream.old.writer.cuts + report_count parts.items ≤ 64 }
    ensures { OnOk result
        (Mirrors C.Client widget_words run.old run.new (spec.cues parts.items) stream.old stream.new) }
{
    let mut is_later = false;
    for part in parts {
        mirror_part(run, stream, is_later, part)?;
        is_later = true;
    }
    Ok(())
}

/// Plays a part: its reports, whose dumps are appended, and then its steps. A later one begins with a sync.
fn mirror_part<C: Client<Cmd = WidgetCmd>, N: NameOf>(
    run: &mut Run<C, N>,
    stream: &mut ScreenStream,
    is_later: bool,
    part: Part,
) -> Result<(), NoMemory>
    requires playable { IsPlayablePart (tree_of run.old.stage.opening).nodes part }
    requires few { stream.old.writer.cuts + length part.reports ≤ 64 }
    ensures mirrors { OnOk result (Mirrors C.Client widget_words run.old run.new
        ((if is_later then makes Player Sync ∷ [] else []) ++ spec.part_cues part) stream.old stream.new) }
    ensures count { OnOk result (stream.new.writer.cuts ≤ stream.old.writer.cuts + length part.reports) }
{
    let Part { reports, steps } = part;
    begin(run, is_later)?;
    mirror_all(run, stream, &reports)?;
    make_all(run, steps)
}

/// Makes reports, one after another, and appends the screens that are dumped.
fn mirror_all<C: Client, N: NameOf>(
    run: &mut Run<C, N>,
    stream: &mut ScreenStream,
    reports: &[Query],
) -> Result<(), NoMemory>
    requires queries { All (IsQuery (tree_of run.old.stage.opening).nodes) reports.now }
    requires few { stream.old.writer.cuts + length reports.now ≤ 64 }
    ensures mirrors { OnOk result (Mirrors C.Client C.Cmd.words run.old run.new
        (flat_map reporting reports.now) stream.old stream.new) }
    ensures count { OnOk result (stream.new.writer.cuts ≤ stream.old.writer.cuts + length reports.now) }
{
    for query in reports {
        mirror_one(run, stream, *query)?;
    }
    Ok(())
}

/// Makes a report. A screen that is dumped is appended.
fn mirror_one<C: Client, N: NameOf>(
    run: &mut Run<C, N>,
    stream: &mut ScreenStream,
    query: Query,
) -> Result<(), NoMemory>
    requires values { IsQuery (tree_of run.old.stage.opening).nodes query }
    requires few { stream.old.writer.cuts < 64 }
    ensures mirrors { OnOk result
        (Mirrors C.Client C.Cmd.words run.old run.new (reporting query) stream.old stream.new) }
    ensures count { OnOk result (stream.new.writer.cuts ≤ stream.old.writer.cuts + 1) }
{
    match query {
        Query::Dump => mirror_dump(run, stream),
        _ => run.report(query),
    }
}

/// Dumps the screen, and appends it.
fn mirror_dump<C: Client, N: NameOf>(
    run: &mut Run<C, N>,
    stream: &mut ScreenStream,
) -> Result<(), NoMemory>
    requires { stream.old.writer.cuts < 64 }
    ensures mirrors { OnOk result
        (Mirrors C.Client C.Cmd.words run.old run.new (reporting Dump) stream.old stream.new) }
    ensures count { OnOk result (stream.new.writer.cuts ≤ stream.old.writer.cuts + 1) }
{
    run.stage().invariant();
    run.report(Query::Dump)?;
    run.stage().invariant();
    has_values(run.stage());
    stream.append(run.stage().screen())
}
