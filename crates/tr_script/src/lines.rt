//! The reading of a line.
ghost use Rattle.std.specs.Prelude.{◌≡◌, ◌<◌, ◌⊎◌, [], ◌∷◌, codes, true, false, Some, None, Ok, IfOk, IfErr, IfSome, OnOk, OnErr};
ghost use Rattle.std.specs.List.{AllPass};
ghost use Rattle.tr_base.specs.Lines.{is_printable};
ghost use Rattle.tr_base.specs.Lists.{first_true};
ghost use Rattle.tr_grammar.specs.Words.{words_of, word_at};
ghost use Rattle.tr_grammar.specs.Forms.{forms};
ghost use Rattle.tr_grammar.specs.declared.Code.TheVariants.{B7, B10};
ghost use Rattle.tr_grammar.specs.declared.Place.TheVariants.{Gap};
ghost use Rattle.tr_grammar.specs.Faults.{line_faults, fault_of, is_foreign, is_one_too_many};
ghost use Rattle.tr_grammar.specs.Scripts.{after_meaning, after_line};
ghost use Rattle.tr_words.specs.Answers.{texts};
ghost use Rattle.tr_reader.specs.Adding.{IsFault, IsSoundMeaning, is_at_steps};
ghost use Rattle.tr_script.specs.Apart.{TakesStep, stays_at_steps};
ghost use Rattle.tr_script.specs.Apart as spec;
ghost use Rattle.tr_script.specs.Reading.{Reads, SaysStep, TakesWords, plain_forms, step_of_input};

use crate::act_lines::read_at;
use crate::desk_lines::{
    Input, plain_key, plain_motion, plain_mouse, read_desk, read_key, read_lift, read_motion,
    read_mouse, read_move, step_of,
};
use crate::leaf_lines::read_leaf;
use crate::opening_lines::{
    read_begin, read_glyph, read_node, read_put, read_root, read_screen, read_version,
};
use crate::refusals::NO_FORM;
use crate::report_lines::{
    read_dump, read_end, read_inbox, read_journal, read_peek, read_sync, read_where,
};
use crate::widget_lines::{read_added, read_rect, read_swap, read_undo};
use std::alloc::Global;
use tr_base::NoMemory;
use tr_grammar::{Code, LineRefused, Meaning};
use tr_journal::Actor;
use tr_reader::{Reader, Steps};
use tr_widget::WidgetCmd;
use tr_words::{at_space, is_silent, plain_text, words_into};
use w_canvas::CanvasCmd;
use w_edit::EditorCmd;
use w_lines::LinesCmd;
use w_meter::MeterCmd;
use w_plain::{BoardCmd, LabelCmd};

/// The most lines that a script may have.
pub const MOST_LINES: usize = 100_000;

/// The second word of a line: it is the name that the line declares, if it declares one.
fn second<'a>(words: &[&'a str]) -> &'a str
    ensures { result.now ≡ word_at (texts words.now) 1 }
{
    words.get(1).copied().unwrap_or("")
}

/// The meaning of the words of a line, or their first fault.
fn read_words(
    alloc: Global,
    reader: &Reader,
    words: &[&str],
    line: &str,
) -> Result<Meaning, LineRefused>
    requires line { words_of line.now ≡ texts words.now }
    requires printable { AllPass is_printable line.now }
    ensures { Reads reader.now forms (texts words.now) result }
{
    match words {
        [] => Err(NO_FORM),
        [first, rest @ ..] => read_first(alloc, reader, first, rest, line),
    }
}

/// The same, given the first word.
fn read_first(
    alloc: Global,
    reader: &Reader,
    first: &str,
    words: &[&str],
    line: &str,
) -> Result<Meaning, LineRefused>
    requires line { words_of line.now ≡ first.now ∷ texts words.now }
    requires printable { AllPass is_printable line.now }
    ensures { Reads reader.now forms (first.now ∷ texts words.now) result }
{
    match first.strip_prefix('@') {
        Some(leaf) => read_at(reader, leaf, words, line),
        None => match first {
            "node" => read_node(reader, words),
            "leaf" => read_leaf(alloc, reader, words, line),
            _ => read_plain(reader, first, words),
        },
    }
}

/// The same, for a line that neither declares a node or a leaf nor begins with an @. The desk's most
/// common steps come first.
fn read_plain(reader: &Reader, first: &str, words: &[&str]) -> Result<Meaning, LineRefused>
    ensures { Reads reader.now plain_forms (first.now ∷ texts words.now) result }
{
    match first {
        "motion" => read_desk(reader, first, words),
        "mouse" => read_desk(reader, first, words),
        "key" => read_desk(reader, first, words),
        "move" => read_desk(reader, first, words),
        "lift" => read_desk(reader, first, words),
        "trestle" => read_version(reader, words),
        "screen" => read_screen(reader, words),
        "glyph" => read_glyph(reader, words),
        "put" => read_put(reader, words),
        "root" => read_root(reader, words),
        "begin" => read_begin(reader, words),
        "sync" => read_sync(reader, words),
        "dump" => read_dump(reader, words),
        "peek" => read_peek(reader, words),
        "journal" => read_journal(reader, words),
        "where" => read_where(reader, words),
        "inbox" => read_inbox(reader, words),
        "end" => read_end(reader, words),
        _ => read_desk(reader, first, words),
    }
}

/// Appends the step if the meaning is one. Returns whether it is one.
fn push_said(steps: &mut Steps<WidgetCmd>, meaning: Meaning) -> Result<bool, NoMemory>
    ensures ok { IfOk result (SaysStep meaning steps.old steps.new) }
    ensures err { OnErr result (steps.new ≡ steps.old) }
{
    // For the prover: its borrow checker finds the types within a command only if the body names them.
    let _told: Option<(BoardCmd, LabelCmd, LinesCmd, CanvasCmd, MeterCmd, EditorCmd)> = None;
    let Meaning::Step { actor, step } = meaning else {
        return Ok(false);
    };
    steps.push(actor, step)?;
    Ok(true)
}

/// The same, but a command of another widget than its leaf's isn't appended.
fn take_said(
    reader: &Reader,
    steps: &mut Steps<WidgetCmd>,
    meaning: Meaning,
) -> Result<bool, NoMemory>
    ensures foreign { is_foreign reader.now meaning ≡ true →
        IfOk result (λ taken. (taken ≡ false) × (steps.new ≡ steps.old)) }
    ensures own { is_foreign reader.now meaning ≡ false →
        IfOk result (SaysStep meaning steps.old steps.new) }
    ensures err { OnErr result (steps.new ≡ steps.old) }
{
    if reader.is_foreign(&meaning) {
        drop(meaning);
        return Ok(false);
    }
    push_said(steps, meaning)
}

/// Reads the line of this number separately from those before it: the reader knows their declarations, and
/// their steps have no influence. Returns whether the line has no fault and is silent or makes a step; its
/// step, if it makes one, is appended to `steps`. Else `steps` is unchanged: the line has a fault, or is a
/// sync. The list `words` is room for words; nothing is promised of what it has afterwards.
pub fn take_step<'a>(
    alloc: Global,
    reader: &Reader,
    steps: &mut Steps<WidgetCmd>,
    words: &mut Vec<&'a str>,
    number: usize,
    bytes: &'a [u8],
) -> Result<bool, NoMemory>
    requires { is_at_steps reader.now.place ≡ true }
    ensures answer { IfOk result (λ taken. taken ≡ stays_at_steps reader.now number bytes.now) }
    ensures taken { IfOk result (λ taken. taken ≡ true →
        TakesStep reader.now number bytes.now steps.old steps.new) }
    ensures left { IfOk result (λ taken. taken ≡ false → steps.new ≡ steps.old) }
    ensures err { OnErr result (steps.new ≡ steps.old) }
{
    if number > MOST_LINES {
        return Ok(false);
    }
    let Some(line) = plain_text(bytes) else {
        return Ok(false);
    };
    if is_silent(line) {
        return Ok(true);
    }
    match input_of(reader, line) {
        Some(input) => {
            let actor = Actor::Desk;
            let step = step_of(input);
            push_said(steps, Meaning::Step { actor, step })
        }
        None => {
            words_into(line, words)?;
            match read_words(alloc, reader, words, line) {
                Ok(meaning) => take_said(reader, steps, meaning),
                Err(LineRefused::NoMemory) => Err(NoMemory),
                Err(LineRefused::Fault(_)) => Ok(false),
            }
        }
    }
}

/// Adds the meaning of the line of this number to those before it. Its second word is `name`.
#[inline(always)]
fn take_meaning<'a>(
    reader: &mut Reader<'a>,
    number: usize,
    name: &'a str,
    meaning: Meaning,
) -> Result<(), LineRefused>
    requires { IsSoundMeaning reader.old name.now meaning }
    ensures none { OnOk result (first_true (line_faults reader.old number meaning) ≡ None) }
    ensures next { OnOk result (reader.new ≡ after_meaning reader.old name.now meaning) }
    ensures fault { IfErr result (λ e. IsFault (first_true (line_faults reader.old number meaning)) e) }
    ensures err { OnErr result ((reader.new ≡ reader.old)
        ⊎ ((MOST_LINES < number) × (reader.new ≡ after_meaning reader.old name.now meaning))) }
{
    if reader.is_foreign(&meaning) {
        drop(meaning);
        return Err(LineRefused::Fault(Code::B10));
    }
    if reader.is_one_too_many(&meaning) {
        drop(meaning);
        return Err(LineRefused::Fault(Code::B7));
    }
    reader.add(name, meaning)?;
    if number > MOST_LINES {
        return Err(LineRefused::Fault(Code::B7));
    }
    Ok(())
}

/// Adds the meaning of the line with these words, or refuses the line.
#[inline(always)] // so that no call copies the meaning
fn take_read<'a>(
    reader: &mut Reader<'a>,
    number: usize,
    words: &[&'a str],
    read: Result<Meaning, LineRefused>,
) -> Result<(), LineRefused>
    requires { Reads reader.old forms (texts words.now) read }
    ensures { TakesWords reader.old number (texts words.now) reader.new result }
{
    match read {
        Ok(meaning) => take_meaning(reader, number, second(words), meaning),
        Err(e) => Err(e),
    }
}

/// Takes the words of a line of a leaf's actor: the first one is an @ and the leaf's name, and `rest` has
/// the others. The most common figures have arms of their own.
fn take_act<'a>(
    reader: &mut Reader<'a>,
    number: usize,
    words: &[&'a str],
    leaf: &str,
    rest: &[&str],
    line: &str,
) -> Result<(), LineRefused>
    requires words { texts words.now ≡ (64 ∷ leaf.now) ∷ texts rest.now }
    requires line { words_of line.now ≡ texts words.now }
    requires printable { AllPass is_printable line.now }
    ensures { TakesWords reader.old number (texts words.now) reader.new result }
{
    match rest {
        [] => take_read(reader, number, words, Err(NO_FORM)),
        [act, values @ ..] => match *act {
            "undo" => {
                let read = read_undo(reader, leaf, values);
                take_read(reader, number, words, read)
            }
            "rect" => {
                let read = read_rect(reader, leaf, values);
                take_read(reader, number, words, read)
            }
            "swap" => {
                let read = read_swap(reader, leaf, values);
                take_read(reader, number, words, read)
            }
            _ => {
                let read = read_at(reader, leaf, rest, line);
                take_read(reader, number, words, read)
            }
        },
    }
}

/// Takes the words of a line: the first one and the others. The most common steps of the desk have arms of
/// their own.
fn take_first<'a>(
    alloc: Global,
    reader: &mut Reader<'a>,
    number: usize,
    words: &[&'a str],
    first: &str,
    rest: &[&str],
    line: &str,
) -> Result<(), LineRefused>
    requires words { texts words.now ≡ first.now ∷ texts rest.now }
    requires line { words_of line.now ≡ texts words.now }
    requires printable { AllPass is_printable line.now }
    ensures { TakesWords reader.old number (texts words.now) reader.new result }
{
    match first {
        "motion" => {
            let read = read_motion(reader, rest);
            take_read(reader, number, words, read)
        }
        "mouse" => {
            let read = read_mouse(reader, rest);
            take_read(reader, number, words, read)
        }
        "key" => {
            let read = read_key(reader, rest);
            take_read(reader, number, words, read)
        }
        "move" => {
            let read = read_move(reader, rest);
            take_read(reader, number, words, read)
        }
        "lift" => {
            let read = read_lift(reader, rest);
            take_read(reader, number, words, read)
        }
        _ => {
            let read = read_first(alloc, reader, first, rest, line);
            take_read(reader, number, words, read)
        }
    }
}

/// Takes the words of a line that isn't silent.
fn take_words<'a>(
    alloc: Global,
    reader: &mut Reader<'a>,
    number: usize,
    words: &[&'a str],
    line: &str,
) -> Result<(), LineRefused>
    requires line { words_of line.now ≡ texts words.now }
    requires printable { AllPass is_printable line.now }
    ensures { TakesWords reader.old number (texts words.now) reader.new result }
{
    match words {
        [] => take_read(reader, number, words, Err(NO_FORM)),
        [first, rest @ ..] => match first.strip_prefix('@') {
            Some(leaf) => take_act(reader, number, words, leaf, rest, line),
            None => take_first(alloc, reader, number, words, first, rest, line),
        },
    }
}

/// Adds the step of an input device's line.
#[inline(always)]
fn take_input(
    reader: &mut Reader,
    number: usize,
    line: &str,
    input: Input,
) -> Result<(), LineRefused>
    requires { Reads reader.old forms (words_of line.now)
        (Ok (Meaning.Step Actor.Desk (step_of_input input))) }
    ensures { TakesWords reader.old number (words_of line.now) reader.new result }
{
    let actor = Actor::Desk;
    let step = step_of(input);
    take_meaning(reader, number, "", Meaning::Step { actor, step })
}

/// What an input device's line makes, if its values have no minus and it has no fault.
#[inline(always)]
fn input_of(reader: &Reader, line: &str) -> Option<Input>
    ensures { IfSome result (λ input. Reads reader.now forms (words_of line.now)
        (Ok (Meaning.Step Actor.Desk (step_of_input input)))) }
{
    // Only the lines that may be meant are searched for a space.
    let [b'k' | b'm', ..] = line.as_bytes() else {
        return None;
    };
    let (first, values) = at_space(line)?;
    match first {
        "motion" => {
            let motion = plain_motion(reader, values)?;
            Some(motion)
        }
        "mouse" => {
            let press = plain_mouse(reader, values)?;
            Some(press)
        }
        "key" => {
            let stroke = plain_key(reader, values)?;
            Some(stroke)
        }
        _ => None,
    }
}

/// The name of a leaf, without its @, and the text that the line adds to its lines, if the line does this.
#[inline(always)]
fn added_of(line: &str) -> Option<(&str, &str)>
    requires { AllPass is_printable line.now }
    ensures words { IfSome result (λ p.
        words_of line.now ≡ (64 ∷ p.0.now) ∷ codes "line" ∷ words_of p.1.now) }
    ensures printable { IfSome result (λ p. AllPass is_printable p.1.now) }
{
    // Only the lines that may be meant are searched for a space.
    let [b'@', ..] = line.as_bytes() else {
        return None;
    };
    let (first, values) = at_space(line)?;
    let leaf = first.strip_prefix('@')?;
    let (act, added) = at_space(values)?;
    match act {
        "line" => Some((leaf, added)),
        _ => None,
    }
}

/// Takes a line that adds a text to a leaf's lines. The leaf's name is without its @.
#[inline(always)]
fn take_added(
    reader: &mut Reader,
    number: usize,
    leaf: &str,
    added: &str,
) -> Result<(), LineRefused>
    requires { AllPass is_printable added.now }
    ensures { let words = (64 ∷ leaf.now) ∷ codes "line" ∷ words_of added.now in
        TakesWords reader.old number words reader.new result }
{
    match read_added(reader, leaf, added) {
        Ok(meaning) => take_meaning(reader, number, "line", meaning),
        Err(e) => Err(e),
    }
}

/// Takes a line that isn't silent. A line of an input device, and one that adds a text to a leaf's lines, are
/// the most common of all. They are taken without a list of their words.
fn take_text<'a>(
    alloc: Global,
    reader: &mut Reader<'a>,
    words: &mut Vec<&'a str>,
    number: usize,
    line: &'a str,
) -> Result<(), LineRefused>
    requires { AllPass is_printable line.now }
    ensures { TakesWords reader.old number (words_of line.now) reader.new result }
{
    if let Some((leaf, added)) = added_of(line) {
        return take_added(reader, number, leaf, added);
    }
    match input_of(reader, line) {
        Some(input) => take_input(reader, number, line, input),
        None => {
            words_into(line, words)?;
            take_words(alloc, reader, number, words, line)
        }
    }
}

/// Reads the line of this number. After an `Err` the reader is unchanged; but after the 100,000th line it
/// may include the refused line. The list `words` is room for words; nothing is promised of what it has
/// afterwards.
#[tactic(auto, unfolding(tr_grammar::specs::Faults::fault_of, tr_grammar::specs::Scripts::after_line))]
pub fn take_line<'a>(
    alloc: Global,
    reader: &mut Reader<'a>,
    words: &mut Vec<&'a str>,
    number: usize,
    bytes: &'a [u8],
) -> Result<(), LineRefused>
    ensures none { OnOk result (fault_of reader.old number bytes.now ≡ None) }
    ensures next { OnOk result (reader.new ≡ after_line reader.old bytes.now) }
    ensures fault { IfErr result (λ e. IsFault (fault_of reader.old number bytes.now) e) }
    ensures err { OnErr result ((reader.new ≡ reader.old)
        ⊎ ((MOST_LINES < number) × (reader.new ≡ after_line reader.old bytes.now))) }
{
    let Some(line) = plain_text(bytes) else {
        return Err(LineRefused::Fault(Code::B9));
    };
    if is_silent(line) {
        if number > MOST_LINES && !reader.has_ended() {
            return Err(LineRefused::Fault(Code::B7));
        }
        return Ok(());
    }
    if reader.has_ended() {
        return Err(LineRefused::Fault(Code::B8));
    }
    take_text(alloc, reader, words, number, line)
}

/// Reads a line separately from those before it, at a place where a step and a report may come. The reader
/// knows their declarations, and doesn't add the line. Returns its meaning, if it isn't silent.
#[tactic(auto, unfolding(tr_grammar::specs::Faults::fault_of, crate::specs::Apart::meaning_of_line))]
pub fn meaning_of_line(
    alloc: Global,
    reader: &Reader,
    bytes: &[u8],
) -> Result<Option<Meaning>, LineRefused>
    requires { reader.now.place ≡ Gap }
    ensures none { OnOk result (fault_of reader.now 1 bytes.now ≡ None) }
    ensures meaning { IfOk result (λ said. said ≡ spec.meaning_of_line reader.now bytes.now) }
    ensures sound { IfOk result (λ said. IfSome said
        (IsSoundMeaning reader.now (word_at (words_of bytes.now) 1))) }
    ensures fault { IfErr result (IsFault (fault_of reader.now 1 bytes.now)) }
{
    let Some(line) = plain_text(bytes) else {
        return Err(LineRefused::Fault(Code::B9));
    };
    if is_silent(line) {
        return Ok(None);
    }
    let mut words = Vec::new(alloc);
    words_into(line, &mut words)?;
    match read_words(alloc, reader, &words, line) {
        Ok(meaning) => own_meaning(reader, meaning),
        Err(e) => Err(e),
    }
}

/// The meaning, unless it is a command of another widget than its leaf's, or one report or sync too many.
fn own_meaning(reader: &Reader, meaning: Meaning) -> Result<Option<Meaning>, LineRefused>
    ensures own { IfOk result (λ said. said ≡ Some meaning) }
    ensures none { OnOk result ((is_foreign reader.now meaning ≡ false)
        × (is_one_too_many reader.now meaning ≡ false)) }
    ensures fault { IfErr result (IsFault (first_true ((B10, is_foreign reader.now meaning)
        ∷ (B7, is_one_too_many reader.now meaning) ∷ []))) }
{
    if reader.is_foreign(&meaning) {
        drop(meaning);
        return Err(LineRefused::Fault(Code::B10));
    }
    if reader.is_one_too_many(&meaning) {
        drop(meaning);
        return Err(LineRefused::Fault(Code::B7));
    }
    Ok(Some(meaning))
}
