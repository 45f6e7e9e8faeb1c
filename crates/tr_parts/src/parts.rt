ghost use Rattle.std.specs.Prelude.{◌≡◌, ◌++◌, ◌∷◌, [], if◌then◌else◌, All, IfOk, OnOk, OnErr};
ghost use Rattle.std.specs.List.{flat_map};
ghost use Rattle.tr_journal.specs.declared.Actor.TheVariants.{Player};
ghost use Rattle.tr_journal.specs.declared.Step.TheVariants.{Sync};
ghost use Rattle.tr_journal.specs.Openings.{tree_of};
ghost use Rattle.tr_journal.specs.Steps.{IsQuery};
ghost use Rattle.tr_run.specs.Runs.{makes, reporting};
ghost use Rattle.tr_run.specs.Views.{Does, DoesSome};
ghost use Rattle.tr_parts.specs.Plays.{played_threads};
ghost use Rattle.tr_parts.specs.Runs.{HasBegunPart, HasReported};

use tr_base::NoMemory;
use tr_client::Client;
use tr_journal::{Actor, NameOf, Query, Step};
use tr_run::{Finished, Run};

/// The player begins a part, a later one with a sync, and makes its reports. For want of memory only the
/// first of these are made: the text of the next one may be added, and before a dump the painter may have
/// made the first of the steps that settle.
pub fn begin_part<C: Client, N: NameOf>(
    run: &mut Run<C, N>,
    is_later: bool,
    reports: &[Query],
) -> Result<(), NoMemory>
    requires { All (IsQuery (tree_of run.old.stage.opening).nodes) reports.now }
    ensures ok { OnOk result (HasBegunPart C.Client C.Cmd.words run.old run.new is_later reports.now) }
    ensures err { OnErr result (DoesSome C.Client C.Cmd.words run.old run.new
        ((if is_later then makes Player Sync ∷ [] else []) ++ flat_map reporting reports.now)) }
{
    begin(run, is_later)?;
    report_all(run, reports)
}

/// The player makes a sync before a later part.
fn begin<C: Client, N: NameOf>(run: &mut Run<C, N>, is_later: bool) -> Result<(), NoMemory>
    ensures ok { OnOk result (Does C.Client C.Cmd.words run.old run.new
        (if is_later then makes Player Sync ∷ [] else [])) }
    ensures err { OnErr result (DoesSome C.Client C.Cmd.words run.old run.new
        (if is_later then makes Player Sync ∷ [] else [])) }
{
    if is_later {
        run.make(Actor::Player, Step::Sync)
    } else {
        Ok(())
    }
}

/// Makes reports, one after another.
fn report_all<C: Client, N: NameOf>(run: &mut Run<C, N>, reports: &[Query]) -> Result<(), NoMemory>
    requires queries { All (IsQuery (tree_of run.old.stage.opening).nodes) reports.now }
    ensures ok { OnOk result (HasReported C.Client C.Cmd.words run.old run.new reports.now) }
    ensures err { OnErr result (DoesSome C.Client C.Cmd.words run.old run.new
        (flat_map reporting reports.now)) }
{
    for query in reports {
        report(run, *query)?;
    }
    Ok(())
}

/// Makes a report. The screen is settled before it is dumped.
fn report<C: Client, N: NameOf>(run: &mut Run<C, N>, query: Query) -> Result<(), NoMemory>
    requires { IsQuery (tree_of run.old.stage.opening).nodes query }
    ensures ok { OnOk result (HasReported C.Client C.Cmd.words run.old run.new (query ∷ [])) }
    ensures did { OnOk result (Does C.Client C.Cmd.words run.old run.new (reporting query)) }
    ensures err { OnErr result (DoesSome C.Client C.Cmd.words run.old run.new (reporting query)) }
{
    run.stage().invariant();
    run.report(query)
}

/// The end of a run whose parts threads have played: the text gets the line that says so.
pub fn finish<C: Client, N: NameOf>(run: Run<'_, C, N>) -> Result<Finished<C>, NoMemory>
    ensures stage { IfOk result (λ end. end.stage ≡ run.entry.stage) }
    ensures text { IfOk result (λ end. end.text ≡ run.entry.text ++ played_threads) }
    ensures sum { IfOk result (λ end. end.sum ≡ run.entry.sum) }
{
    let mut end = run.finish();
    end.text.append_bytes(b"played threads\n")?;
    Ok(end)
}
