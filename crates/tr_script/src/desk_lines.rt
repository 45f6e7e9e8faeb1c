//! The readers of the desk's steps. Each tests for its faults in the order of their codes.
ghost use Rattle.std.specs.Prelude.{◌≡◌, ◌≤◌, ◌<◌, ◌^◌, [], ◌∷◌, ◌||◌, bytes_eq, codes, decimal, true, false, not, pos, IfErr, IfOk, IfSome, OnSome, Ok, Some};
ghost use Rattle.tr_journal.specs.Steps.{IsButton, IsPosition, IsTime};
ghost use Rattle.tr_grammar.specs.declared.Code.TheVariants.{B2};
ghost use Rattle.tr_grammar.specs.Faults.{allows, step_line};
ghost use Rattle.tr_grammar.specs.Words.{int_of, is_number, is_signed, nat_of, words_of};
ghost use Rattle.tr_grammar.specs.Forms.{button_words, Mouse, Motion, Key, Attach, AttachAt, Detach};
ghost use Rattle.tr_grammar.specs.Forms.{Tint, Widen, Offset, Fix, Move, Lift, Show, Turn, Reshape, Resize};
ghost use Rattle.tr_grammar.specs.Forms.{Rescreen};
ghost use Rattle.tr_words.specs.Answers.{Answers, Chooses, texts};
ghost use Rattle.tr_script.specs.Reading.{Reads, ReadsAs, ReadsNode, ReadsPlain, desk_forms, is_no_shape, lengths_in, step_of_input, words_of_two_shapes};

use crate::names::node_of;
use crate::opening_lines::{ORIGIN, hanging_of, offset_of, size_of};
use crate::refusals::NO_FORM;
use tr_base::{NodeId, Point, Shapes, Size};
use tr_forest::Edit;
use tr_grammar::{Code, LineRefused, Meaning};
use tr_journal::{Actor, Step};
use tr_reader::Reader;
use tr_widget::WidgetCmd;
use tr_words::{
    ShapeWords, at_space, byte, first_number, only_number, place, shape, side, small, time,
};

/// A step of the desk.
fn on_desk(step: Step<WidgetCmd>) -> Meaning
    ensures { result ≡ Meaning.Step Actor.Desk step }
{
    Meaning::Step {
        actor: Actor::Desk,
        step,
    }
}

/// An edit of the tree, which is a step of the desk.
fn altering(edit: Edit) -> Meaning
    ensures { result ≡ Meaning.Step Actor.Desk (Step.Alter edit) }
{
    on_desk(Step::Alter { edit })
}

/// Whether a word means that a button goes down.
fn is_down(word: &str) -> Option<bool>
    ensures { Chooses button_words word.now (bytes_eq word.now (codes "down")) result }
{
    match word {
        "down" => Some(true),
        "up" => Some(false),
        _ => None,
    }
}

/// The node that an edit's line names, and the value of its words, if the line may come there.
fn node_with<V: Copy>(
    reader: &Reader,
    node: &str,
    value: Result<V, Code>,
) -> Result<(NodeId, V), Code>
    requires { IfErr value (λ e. e ≡ B2) }
    ensures { ReadsNode reader.now node.now value result }
{
    reader.in_steps()?;
    let value = value?;
    let node = node_of(reader, node)?;
    Ok((node, value))
}

/// The value of words without a name, if the line may come there.
fn plain<V: Copy>(reader: &Reader, value: Result<V, Code>) -> Result<V, Code>
    requires { IfErr value (λ e. e ≡ B2) }
    ensures { ReadsPlain reader.now value result }
{
    reader.in_steps()?;
    let value = value?;
    Ok(value)
}

/// A time and a button, from their words.
fn press_of(at: &str, button: &str) -> Result<(u32, u8), Code>
    ensures value { Answers
        (not (is_number 1 4294967295 at.now) || (not (is_number 1 5 button.now) || false)) B2
        (λ p. p ≡ (nat_of at.now, nat_of button.now)) result }
    ensures time { IfOk result (λ p. IsTime p.0) }
    ensures button { IfOk result (λ p. IsButton p.1) }
{
    let time = time(at)?;
    let button = small(button, 1, 5)?;
    Ok((time, button))
}

/// A time and a place of the cursor, from their words.
fn motion_of(at: &str, h: &str, v: &str) -> Result<(u32, Point), Code>
    ensures value { Answers (not (is_number 1 4294967295 at.now)
        || (not (is_signed 8192 8191 h.now) || (not (is_signed 8192 8191 v.now) || false))) B2
        (λ m. m ≡ (nat_of at.now, record { h = int_of h.now; v = int_of v.now })) result }
    ensures time { IfOk result (λ m. IsTime m.0) }
    ensures place { IfOk result (λ m. IsPosition m.1) }
{
    let time = time(at)?;
    let h = place(h)?;
    let v = place(v)?;
    Ok((time, Point { h, v }))
}

/// A time and a key, from their words.
fn key_of(at: &str, code: &str) -> Result<(u32, u8), Code>
    ensures value { Answers
        (not (is_number 1 4294967295 at.now) || (not (is_number 0 255 code.now) || false)) B2
        (λ k. k ≡ (nat_of at.now, nat_of code.now)) result }
    ensures time { IfOk result (λ k. IsTime k.0) }
{
    let time = time(at)?;
    let code = byte(code)?;
    Ok((time, code))
}

/// The meaning of the words of a desk's step, given the first one, or their first fault.
pub fn read_desk(reader: &Reader, first: &str, words: &[&str]) -> Result<Meaning, LineRefused>
    ensures { Reads reader.now desk_forms (first.now ∷ texts words.now) result }
{
    match first {
        "motion" => read_motion(reader, words),
        "mouse" => read_mouse(reader, words),
        "key" => read_key(reader, words),
        "move" => read_move(reader, words),
        "lift" => read_lift(reader, words),
        "attach" => read_attach(reader, words),
        "detach" => read_detach(reader, words),
        "tint" => read_tint(reader, words),
        "border" => read_widen(reader, words),
        "offset" => read_offset(reader, words),
        "fix" => read_fix(reader, words),
        "show" => read_show(reader, words),
        "turn" => read_turn(reader, words),
        "shapes" => read_reshape(reader, words),
        "resize" => read_resize(reader, words),
        "rescreen" => read_rescreen(reader, words),
        _ => Err(NO_FORM),
    }
}

#[inline(always)]
pub fn read_mouse(reader: &Reader, words: &[&str]) -> Result<Meaning, LineRefused>
    ensures { Reads reader.now (Mouse ∷ []) (codes "mouse" ∷ texts words.now) result }
{
    let [at, way, button] = words else {
        return Err(NO_FORM);
    };
    let Some(down) = is_down(way) else {
        return Err(NO_FORM);
    };
    let (time, button) = plain(reader, press_of(at, button))?;
    Ok(on_desk(Step::Mouse { time, button, down }))
}

#[inline(always)]
pub fn read_motion(reader: &Reader, words: &[&str]) -> Result<Meaning, LineRefused>
    ensures { Reads reader.now (Motion ∷ []) (codes "motion" ∷ texts words.now) result }
{
    let [at, h, v] = words else {
        return Err(NO_FORM);
    };
    let (time, at) = plain(reader, motion_of(at, h, v))?;
    Ok(on_desk(Step::Motion { time, at }))
}

#[inline(always)]
pub fn read_key(reader: &Reader, words: &[&str]) -> Result<Meaning, LineRefused>
    ensures { Reads reader.now (Key ∷ []) (codes "key" ∷ texts words.now) result }
{
    let [at, code] = words else {
        return Err(NO_FORM);
    };
    let (time, code) = plain(reader, key_of(at, code))?;
    Ok(on_desk(Step::Key { time, code }))
}

/// The greatest coordinate of the cursor.
const MOST_PLACE: u32 = 8191;

/// The place of a motion, if its coordinates are in range.
fn place_of(h: u32, v: u32) -> Option<Point>
    ensures { IfSome result (λ at. (h ≤ 8191) × (v ≤ 8191) × (at ≡ record { h = pos h; v = pos v })) }
{
    if h > MOST_PLACE {
        return None;
    }
    if v > MOST_PLACE {
        return None;
    }
    let (h, v) = (h as i32, v as i32);
    Some(Point { h, v })
}

/// The number, if it is from `low` to `high`.
fn ranged(number: u32, low: u8, high: u8) -> Option<u8>
    ensures { IfSome result (λ n. (low ≤ number) × (number ≤ high) × (n ≡ number)) }
{
    if number < u32::from(low) {
        return None;
    }
    if number > u32::from(high) {
        return None;
    }
    Some(number as u8)
}

/// What an input device does.
#[derive(Clone, Copy)]
pub enum Input {
    Motion { time: u32, at: Point },
    Mouse { time: u32, button: u8, down: bool },
    Key { time: u32, code: u8 },
}

/// The step of the desk that an input device makes.
#[inline(always)]
pub fn step_of(input: Input) -> Step<WidgetCmd>
    ensures { result ≡ step_of_input input }
{
    match input {
        Input::Motion { time, at } => Step::Motion { time, at },
        Input::Mouse { time, button, down } => Step::Mouse { time, button, down },
        Input::Key { time, code } => Step::Key { time, code },
    }
}

/// The time at the front of an input device's values, and the text after it, if it is in range and a step may
/// come here.
#[inline(always)]
fn time_of<'a>(reader: &Reader, values: &'a str) -> Option<(u32, &'a str)>
    ensures here { OnSome result (allows reader.now.place step_line ≡ true) }
    ensures low { IfSome result (λ t. 1 ≤ t.0) }
    ensures small { IfSome result (λ t. t.0 < 2 ^ 32) }
    ensures words { IfSome result (λ t. words_of values.now ≡ decimal t.0 ∷ words_of t.1.now) }
{
    let (time, rest) = first_number(values)?;
    if time == 0 {
        return None;
    }
    let Ok(()) = reader.in_steps() else {
        return None;
    };
    Some((time, rest))
}

/// What the line of a motion makes, if its values have no minus and it has no fault. The values are the words
/// after the first one.
#[inline(always)]
pub fn plain_motion(reader: &Reader, values: &str) -> Option<Input>
    ensures { IfSome result (λ input. Reads reader.now (Motion ∷ []) (codes "motion" ∷ words_of values.now)
        (Ok (Meaning.Step Actor.Desk (step_of_input input)))) }
{
    let (time, rest) = time_of(reader, values)?;
    let (h, rest) = first_number(rest)?;
    let v = only_number(rest)?;
    let at = place_of(h, v)?;
    Some(Input::Motion { time, at })
}

/// The same for a mouse button.
#[inline(always)]
pub fn plain_mouse(reader: &Reader, values: &str) -> Option<Input>
    ensures { IfSome result (λ input. Reads reader.now (Mouse ∷ []) (codes "mouse" ∷ words_of values.now)
        (Ok (Meaning.Step Actor.Desk (step_of_input input)))) }
{
    let (time, rest) = time_of(reader, values)?;
    let (way, rest) = at_space(rest)?;
    let down = is_down(way)?;
    let number = only_number(rest)?;
    let button = ranged(number, 1, 5)?;
    Some(Input::Mouse { time, button, down })
}

/// The same for a key.
#[inline(always)]
pub fn plain_key(reader: &Reader, values: &str) -> Option<Input>
    ensures { IfSome result (λ input. Reads reader.now (Key ∷ []) (codes "key" ∷ words_of values.now)
        (Ok (Meaning.Step Actor.Desk (step_of_input input)))) }
{
    let (time, rest) = time_of(reader, values)?;
    let number = only_number(rest)?;
    let code = ranged(number, 0, 255)?;
    Some(Input::Key { time, code })
}

fn read_attach(reader: &Reader, words: &[&str]) -> Result<Meaning, LineRefused>
    ensures { Reads reader.now (Attach ∷ AttachAt ∷ [])
        (codes "attach" ∷ texts words.now) result }
{
    if let [child, parent] = words {
        return read_attach_plain(reader, child, parent);
    }
    read_attach_at(reader, words)
}

fn read_attach_plain(reader: &Reader, child: &str, parent: &str) -> Result<Meaning, LineRefused>
    ensures { Reads reader.now (Attach ∷ [])
        (codes "attach" ∷ child.now ∷ parent.now ∷ []) result }
{
    reader.in_steps()?;
    let child = node_of(reader, child)?;
    let parent = node_of(reader, parent)?;
    let at = ORIGIN;
    Ok(altering(Edit::Attach { child, parent, at }))
}

fn read_attach_at(reader: &Reader, words: &[&str]) -> Result<Meaning, LineRefused>
    ensures { Reads reader.now (AttachAt ∷ []) (codes "attach" ∷ texts words.now) result }
{
    let [child, parent, h, v] = words else {
        return Err(NO_FORM);
    };
    reader.in_steps()?;
    let (child, parent, at) = hanging_of(reader, child, parent, offset_of(h, v))?;
    Ok(altering(Edit::Attach { child, parent, at }))
}

fn read_detach(reader: &Reader, words: &[&str]) -> Result<Meaning, LineRefused>
    ensures { Reads reader.now (Detach ∷ []) (codes "detach" ∷ texts words.now) result }
{
    let [child] = words else {
        return Err(NO_FORM);
    };
    reader.in_steps()?;
    let child = node_of(reader, child)?;
    Ok(altering(Edit::Detach { child }))
}

fn read_tint(reader: &Reader, words: &[&str]) -> Result<Meaning, LineRefused>
    ensures { Reads reader.now (Tint ∷ []) (codes "tint" ∷ texts words.now) result }
{
    let [node, tint] = words else {
        return Err(NO_FORM);
    };
    let (node, tint) = node_with(reader, node, byte(tint))?;
    Ok(altering(Edit::Tint { node, tint }))
}

fn read_widen(reader: &Reader, words: &[&str]) -> Result<Meaning, LineRefused>
    ensures { Reads reader.now (Widen ∷ []) (codes "border" ∷ texts words.now) result }
{
    let [node, width] = words else {
        return Err(NO_FORM);
    };
    let (node, width) = node_with(reader, node, byte(width))?;
    Ok(altering(Edit::Border { node, width }))
}

fn read_offset(reader: &Reader, words: &[&str]) -> Result<Meaning, LineRefused>
    ensures { Reads reader.now (Offset ∷ []) (codes "offset" ∷ texts words.now) result }
{
    let [node, h, v] = words else {
        return Err(NO_FORM);
    };
    let (node, by) = node_with(reader, node, offset_of(h, v))?;
    Ok(altering(Edit::Offset { node, by }))
}

fn read_fix(reader: &Reader, words: &[&str]) -> Result<Meaning, LineRefused>
    ensures { Reads reader.now (Fix ∷ []) (codes "fix" ∷ texts words.now) result }
{
    let [node, wide, high] = words else {
        return Err(NO_FORM);
    };
    let (node, size) = node_with(reader, node, size_of(wide, high))?;
    Ok(altering(Edit::Fix { node, size }))
}

#[inline(always)]
pub fn read_move(reader: &Reader, words: &[&str]) -> Result<Meaning, LineRefused>
    ensures { Reads reader.now (Move ∷ []) (codes "move" ∷ texts words.now) result }
{
    let [child, h, v] = words else {
        return Err(NO_FORM);
    };
    let (child, at) = node_with(reader, child, offset_of(h, v))?;
    Ok(altering(Edit::Move { child, at }))
}

#[inline(always)]
pub fn read_lift(reader: &Reader, words: &[&str]) -> Result<Meaning, LineRefused>
    ensures { Reads reader.now (Lift ∷ []) (codes "lift" ∷ texts words.now) result }
{
    let [child] = words else {
        return Err(NO_FORM);
    };
    reader.in_steps()?;
    let child = node_of(reader, child)?;
    Ok(altering(Edit::Lift { child }))
}

fn read_show(reader: &Reader, words: &[&str]) -> Result<Meaning, LineRefused>
    ensures { Reads reader.now (Show ∷ []) (codes "show" ∷ texts words.now) result }
{
    let [node, child] = words else {
        return Err(NO_FORM);
    };
    reader.in_steps()?;
    let node = node_of(reader, node)?;
    let child = node_of(reader, child)?;
    Ok(altering(Edit::Show { node, child }))
}

fn read_turn(reader: &Reader, words: &[&str]) -> Result<Meaning, LineRefused>
    ensures { Reads reader.now (Turn ∷ []) (codes "turn" ∷ texts words.now) result }
{
    let [node, page] = words else {
        return Err(NO_FORM);
    };
    let (node, page) = node_with(reader, node, byte(page))?;
    Ok(altering(Edit::Turn { node, page }))
}

/// The shapes of a node, from their words.
fn shapes_of(across: &ShapeWords, down: &ShapeWords) -> Result<Shapes, Code>
    ensures { Answers (is_no_shape across.now || (is_no_shape down.now || false)) B2
        (λ s. s ≡ record { across = lengths_in across.now; down = lengths_in down.now }) result }
{
    let across = shape(across)?;
    let down = shape(down)?;
    Ok(Shapes { across, down })
}

/// The values of a line with the shapes of a node.
fn reshape(
    reader: &Reader,
    node: &str,
    across: &ShapeWords,
    down: &ShapeWords,
) -> Result<Meaning, LineRefused>
    ensures { ReadsAs reader.now (Some Reshape)
        (codes "shapes" ∷ node.now ∷ words_of_two_shapes across.now down.now) result }
{
    let (node, shapes) = node_with(reader, node, shapes_of(across, down))?;
    Ok(altering(Edit::Shapes { node, shapes }))
}

fn read_reshape(reader: &Reader, words: &[&str]) -> Result<Meaning, LineRefused>
    ensures { Reads reader.now (Reshape ∷ []) (codes "shapes" ∷ texts words.now) result }
{
    let [node, lo, pref, hi, lo_down, pref_down, hi_down] = words else {
        return Err(NO_FORM);
    };
    let across = ShapeWords { lo, pref, hi };
    let down = ShapeWords {
        lo: lo_down,
        pref: pref_down,
        hi: hi_down,
    };
    reshape(reader, node, &across, &down)
}

fn read_resize(reader: &Reader, words: &[&str]) -> Result<Meaning, LineRefused>
    ensures { Reads reader.now (Resize ∷ []) (codes "resize" ∷ texts words.now) result }
{
    let [wide, high] = words else {
        return Err(NO_FORM);
    };
    reader.in_steps()?;
    let wide = side(wide)?;
    let high = side(high)?;
    let size = Size { wide, high };
    Ok(altering(Edit::Resize { size }))
}

fn read_rescreen(reader: &Reader, words: &[&str]) -> Result<Meaning, LineRefused>
    ensures { Reads reader.now (Rescreen ∷ []) (codes "rescreen" ∷ texts words.now) result }
{
    let [kind] = words else {
        return Err(NO_FORM);
    };
    let kind = reader.kind(kind)?;
    reader.in_steps()?;
    Ok(altering(Edit::Rescreen { kind }))
}
