//! The readers of syncs, reports and the end. Each tests for its faults in the order of their codes.
ghost use Rattle.std.specs.Prelude.{[], ◌∷◌, codes};
ghost use Rattle.tr_grammar.specs.Forms.{Sync, Dump, Peek, Journal, Where, Inbox, End};
ghost use Rattle.tr_words.specs.Answers.{texts};
ghost use Rattle.tr_script.specs.Reading.{Reads};

use crate::names::leaf_of;
use crate::refusals::NO_FORM;
use tr_base::Point;
use tr_grammar::{LineRefused, Meaning};
use tr_journal::Query;
use tr_reader::Reader;
use tr_words::place;

pub fn read_sync(reader: &Reader, words: &[&str]) -> Result<Meaning, LineRefused>
    ensures { Reads reader.now (Sync ∷ []) (codes "sync" ∷ texts words.now) result }
{
    let [] = words else {
        return Err(NO_FORM);
    };
    reader.in_steps()?;
    Ok(Meaning::Sync)
}

pub fn read_dump(reader: &Reader, words: &[&str]) -> Result<Meaning, LineRefused>
    ensures { Reads reader.now (Dump ∷ []) (codes "dump" ∷ texts words.now) result }
{
    let [] = words else {
        return Err(NO_FORM);
    };
    reader.in_gap()?;
    Ok(Meaning::Report(Query::Dump))
}

pub fn read_peek(reader: &Reader, words: &[&str]) -> Result<Meaning, LineRefused>
    ensures { Reads reader.now (Peek ∷ []) (codes "peek" ∷ texts words.now) result }
{
    let [] = words else {
        return Err(NO_FORM);
    };
    reader.in_gap()?;
    Ok(Meaning::Report(Query::Peek))
}

pub fn read_journal(reader: &Reader, words: &[&str]) -> Result<Meaning, LineRefused>
    ensures { Reads reader.now (Journal ∷ []) (codes "journal" ∷ texts words.now) result }
{
    let [] = words else {
        return Err(NO_FORM);
    };
    reader.in_gap()?;
    Ok(Meaning::Report(Query::Journal))
}

pub fn read_where(reader: &Reader, words: &[&str]) -> Result<Meaning, LineRefused>
    ensures { Reads reader.now (Where ∷ []) (codes "where" ∷ texts words.now) result }
{
    let [h, v] = words else {
        return Err(NO_FORM);
    };
    reader.in_gap()?;
    let h = place(h)?;
    let v = place(v)?;
    Ok(Meaning::Report(Query::Where(Point { h, v })))
}

pub fn read_inbox(reader: &Reader, words: &[&str]) -> Result<Meaning, LineRefused>
    ensures { Reads reader.now (Inbox ∷ []) (codes "inbox" ∷ texts words.now) result }
{
    let [leaf] = words else {
        return Err(NO_FORM);
    };
    reader.in_gap()?;
    let leaf = leaf_of(reader, leaf)?;
    Ok(Meaning::Report(Query::Inbox(leaf)))
}

pub fn read_end(reader: &Reader, words: &[&str]) -> Result<Meaning, LineRefused>
    ensures { Reads reader.now (End ∷ []) (codes "end" ∷ texts words.now) result }
{
    let [] = words else {
        return Err(NO_FORM);
    };
    reader.in_gap()?;
    Ok(Meaning::End)
}
