ghost use Rattle.std.specs.Prelude.{◌≡◌, ◌≤◌, ◌<◌, ℕ, length, Option, Some, None, IfOk, IfErr, OnOk, OnErr};
ghost use Rattle.tr_desk.specs.Desks as spec;
ghost use Rattle.tr_desk.specs.Faults.{time_fault, button_fault, mouse_fault, own_fault, disown_fault, is_owned_by};
ghost use Rattle.tr_base.specs.declared.LeafId.{LeafId};
ghost use Rattle.tr_base.specs.declared.Spot.{Spot};

use std::alloc::Global;
use std::marker::Model;
use thiserror::Error;
use tr_base::{Click, LeafId, NoMemory, Point, Selection, Spot};
use tr_cage::Cage;

/// The number of a mouse's buttons.
const BUTTONS: usize = 5;

/// The reason for a refusal by a desk. A desk that refuses has changed nothing. Of several faults the
/// first one is named.
#[derive(Clone, Copy, Debug, PartialEq, Eq, Error)]
pub enum DeskFault {
    /// The event is older than the last one, which came at `now`.
    #[error("an event before time {now}")]
    Earlier { now: u32 },
    /// The button that goes down is held.
    #[error("the button is held")]
    Held,
    /// The button that goes up isn't held.
    #[error("the button is not held")]
    NotHeld,
    /// The time is 0, or isn't that of the last event of all, `now`, or not that of the last mouse
    /// or key event that reached the window, `last`; 0 says that there was none.
    #[error("not the time of the last event, {now}, and of the window's last one, {last}")]
    NotCurrent { now: u32, last: u32 },
    /// The window doesn't own the selection.
    #[error("another window, or none, owns the selection")]
    NotOwner,
    /// No leaf owns the selection.
    #[error("nobody owns the selection")]
    Unowned,
}

/// A desk's state of a leaf: its cage, and the time of the last mouse or key event that was sent to
/// it, or 0.
#[derive(Clone, Copy, Debug)]
pub struct LeafState {
    pub cage: Cage,
    pub last: u32,
}

/// The state of the input devices and of the selections. Only `new` can run out of memory.
#[derive(Debug, Drop)]
pub struct Desk {
    cursor: Point,
    time: u32,
    held: [bool; BUTTONS],
    focus: Option<LeafId>,
    key: Option<LeafId>,
    source: Option<LeafId>,
    target: Option<LeafId>,
    leaves: Vec<LeafState>,
}

impl Model for Desk {
    ghost use Rattle.tr_desk.specs.Desks.{Devices, IsDesk};

    ghost Value = { Devices };

    ghost view = { λ d. record {
      cursor = d.cursor;
      time = d.time;
      held = d.held;
      focus = d.focus;
      key = d.key;
      source = d.source;
      target = d.target;
      leaves = d.leaves.items;
    } };

    ghost invariant = { λ d. IsDesk (record {
      cursor = d.cursor;
      time = d.time;
      held = d.held;
      focus = d.focus;
      key = d.key;
      source = d.source;
      target = d.target;
      leaves = d.leaves.items;
    }) };
}

impl Desk {
    /// The desk of `leaves` leaves: the cursor lies at (-1, -1), no button is held, no selection has an
    /// owner, and every cage is everywhere.
    pub fn new(alloc: Global, leaves: u8) -> Result<Desk, NoMemory>
        ensures { IfOk result (λ desk. desk ≡ spec.idle leaves) }
    {
        let untold = LeafState {
            cage: Cage::Everywhere,
            last: 0,
        };
        Ok(Desk {
            cursor: Point { h: -1, v: -1 },
            time: 0,
            held: [false; BUTTONS],
            focus: None,
            key: None,
            source: None,
            target: None,
            leaves: vec![in alloc; untold; usize::from(leaves)]?,
        })
    }

    /// A button, from 1 to 5, goes down or up while the cursor is at a spot. The answer is the leaf that
    /// gets the event, if one does, and the kind of the event. From the first button that goes down to the
    /// last one that goes up, all events go to the leaf at which the first went down.
    pub fn mouse(
        &mut self,
        time: u32,
        button: u8,
        down: bool,
        spot: &Spot,
    ) -> Result<(Option<LeafId>, Click), DeskFault>
        requires first { 1 ≤ button }
        requires last { button ≤ BUTTONS }
        requires spot { spec.IsKnown (length self.old.leaves) (spec.leaf_at spot.now) }
        ensures answer { let click = spec.click self.old button down in
            IfOk result (λ r. r ≡ (spec.receiver click spot.now self.old.focus, click)) }
        ensures known { IfOk result (λ r. spec.IsKnown (length self.old.leaves) r.0) }
        ensures ok { OnOk result (self.new ≡ spec.after_mouse self.old time button down spot.now) }
        ensures allowed { OnOk result (mouse_fault self.old time button down ≡ None) }
        ensures fault { IfErr result (λ e. mouse_fault self.old time button down ≡ Some e) }
        ensures err { OnErr result (self.new ≡ self.old) }
    {
        self.check_time(time)?;
        check_button(down, self.is_held(button))?;
        let before = is_any_held(&self.held);
        self.held[usize::from(button - 1)] = down;
        let click = click_of(down, before, is_any_held(&self.held));
        let receiver = receiver(click, spot, self.focus);
        self.focus = focus_after(click, receiver);
        self.time = time;
        Ok((receiver, click))
    }

    /// The cursor moves.
    pub fn motion(&mut self, time: u32, at: Point) -> Result<(), DeskFault>
        ensures ok { OnOk result (self.new ≡ record self.old { cursor = at; time = time }) }
        ensures allowed { OnOk result (time_fault self.old time ≡ None) }
        ensures fault { IfErr result (λ e. time_fault self.old time ≡ Some e) }
        ensures err { OnErr result (self.new ≡ self.old) }
    {
        self.check_time(time)?;
        self.cursor = at;
        self.time = time;
        Ok(())
    }

    /// A key is struck. The answer is the leaf that gets the event: the owner of the selection Key, if
    /// there is one.
    pub fn key(&mut self, time: u32) -> Result<Option<LeafId>, DeskFault>
        ensures answer { IfOk result (λ leaf. leaf ≡ self.old.key) }
        ensures known { IfOk result (λ leaf. spec.IsKnown (length self.old.leaves) leaf) }
        ensures ok { OnOk result (self.new ≡ record self.old { time = time }) }
        ensures allowed { OnOk result (time_fault self.old time ≡ None) }
        ensures fault { IfErr result (λ e. time_fault self.old time ≡ Some e) }
        ensures err { OnErr result (self.new ≡ self.old) }
    {
        self.check_time(time)?;
        self.time = time;
        Ok(self.key)
    }

    /// A mouse or key event was sent to a leaf.
    pub fn delivered(&mut self, leaf: LeafId, time: u32)
        requires { leaf.0 < length self.old.leaves }
        ensures { self.new
            ≡ spec.with_state leaf (record (spec.state_of self.old leaf) { last = time }) self.old }
    {
        let state = &mut self.leaves[usize::from(leaf.0)];
        state.last = time;
    }

    /// A leaf gets another cage.
    pub fn set_cage(&mut self, leaf: LeafId, cage: Cage)
        requires { leaf.0 < length self.old.leaves }
        ensures { self.new
            ≡ spec.with_state leaf (record (spec.state_of self.old leaf) { cage = cage }) self.old }
    {
        let state = &mut self.leaves[usize::from(leaf.0)];
        state.cage = cage;
    }

    /// A leaf takes a selection, at a time from 1 on that is both the desk's time and that of the last
    /// mouse or key event that reached the leaf. The answer is the previous owner, if that is another
    /// leaf.
    pub fn own(
        &mut self,
        leaf: LeafId,
        selection: Selection,
        time: u32,
    ) -> Result<Option<LeafId>, DeskFault>
        requires { leaf.0 < length self.old.leaves }
        ensures answer { IfOk result
            (λ old. old ≡ spec.other_than leaf (spec.selection_owner self.old selection)) }
        ensures known { IfOk result (λ old. spec.IsKnown (length self.old.leaves) old) }
        ensures ok { OnOk result (self.new ≡ spec.owned_by (Some leaf) selection self.old) }
        ensures allowed { OnOk result (own_fault self.old leaf time ≡ None) }
        ensures fault { IfErr result (λ e. own_fault self.old leaf time ≡ Some e) }
        ensures err { OnErr result (self.new ≡ self.old) }
    {
        self.check_current(leaf, time)?;
        let old = self.owner(selection);
        self.set_owner(selection, Some(leaf));
        Ok(other_than(leaf, old))
    }

    /// The owner of a selection gives it up.
    pub fn disown(&mut self, leaf: LeafId, selection: Selection) -> Result<(), DeskFault>
        ensures ok { OnOk result (self.new ≡ spec.owned_by None selection self.old) }
        ensures allowed { OnOk result (disown_fault self.old leaf selection ≡ None) }
        ensures fault { IfErr result (λ e. disown_fault self.old leaf selection ≡ Some e) }
        ensures err { OnErr result (self.new ≡ self.old) }
    {
        if !is_owned_by(leaf, self.owner(selection)) {
            return Err(DeskFault::NotOwner);
        }
        self.set_owner(selection, None);
        Ok(())
    }

    /// The cursor's place, in the screen's coordinates.
    pub fn cursor(&self) -> Point
        ensures { result ≡ self.now.cursor }
    {
        self.cursor
    }

    /// The time of the last event.
    pub fn time(&self) -> u32
        ensures { result ≡ self.now.time }
    {
        self.time
    }

    /// The leaf that gets the mouse events while a button is held.
    pub fn focus(&self) -> Option<LeafId>
        ensures { result ≡ self.now.focus }
    {
        self.focus
    }

    /// A leaf's cage.
    pub fn cage(&self, leaf: LeafId) -> Cage
        requires { leaf.0 < length self.now.leaves }
        ensures { result ≡ (spec.state_of self.now leaf).cage }
    {
        let state = &self.leaves[usize::from(leaf.0)];
        state.cage
    }

    /// The time of the last mouse or key event that a leaf was sent, or 0.
    pub fn last(&self, leaf: LeafId) -> u32
        requires { leaf.0 < length self.now.leaves }
        ensures { result ≡ (spec.state_of self.now leaf).last }
    {
        let state = &self.leaves[usize::from(leaf.0)];
        state.last
    }

    /// Tells the invariant of desks. Nothing runs.
    pub fn invariant(&self)
        ensures { spec.IsDesk self.now }
    {
        let _leaves = self.leaves();
    }

    /// The number of its leaves.
    pub fn leaves(&self) -> usize
        ensures count { result ≡ length self.now.leaves }
        ensures invariant { spec.IsDesk self.now }
    {
        self.leaves.len()
    }

    /// Whether a button, from 1 to 5, is held.
    pub fn is_held(&self, button: u8) -> bool
        requires first { 1 ≤ button }
        requires last { button ≤ BUTTONS }
        ensures held { result ≡ spec.is_held self.now button }
    {
        self.held[usize::from(button - 1)]
    }

    /// The owner of a selection.
    pub fn owner(&self, selection: Selection) -> Option<LeafId>
        ensures owner { result ≡ spec.selection_owner self.now selection }
        ensures known { spec.IsKnown (length self.now.leaves) result }
    {
        match selection {
            Selection::Key => self.key,
            Selection::Source => self.source,
            Selection::Target => self.target,
        }
    }

    fn set_owner(&mut self, selection: Selection, leaf: Option<LeafId>)
        requires { spec.IsKnown (length self.old.leaves) leaf }
        ensures { self.new ≡ spec.owned_by leaf selection self.old }
    {
        match selection {
            Selection::Key => self.key = leaf,
            Selection::Source => self.source = leaf,
            Selection::Target => self.target = leaf,
        }
    }

    fn check_time(&self, time: u32) -> Result<(), DeskFault>
        ensures allowed { OnOk result (time_fault self.now time ≡ None) }
        ensures fault { IfErr result (λ e. time_fault self.now time ≡ Some e) }
    {
        if time < self.time {
            return Err(DeskFault::Earlier { now: self.time });
        }
        Ok(())
    }

    fn check_current(&self, leaf: LeafId, time: u32) -> Result<(), DeskFault>
        requires { leaf.0 < length self.now.leaves }
        ensures allowed { OnOk result (own_fault self.now leaf time ≡ None) }
        ensures fault { IfErr result (λ e. own_fault self.now leaf time ≡ Some e) }
    {
        let last = self.last(leaf);
        if 1 <= time && time == self.time && time == last {
            return Ok(());
        }
        Err(DeskFault::NotCurrent {
            now: self.time,
            last,
        })
    }
}

fn check_button(down: bool, held: bool) -> Result<(), DeskFault>
    ensures allowed { OnOk result (button_fault down held ≡ None) }
    ensures fault { IfErr result (λ e. button_fault down held ≡ Some e) }
{
    match (down, held) {
        (true, true) => Err(DeskFault::Held),
        (false, false) => Err(DeskFault::NotHeld),
        _ => Ok(()),
    }
}

fn is_any_held(held: &[bool; BUTTONS]) -> bool
    ensures { result ≡ spec.is_any_held held.now }
{
    held[0] || held[1] || held[2] || held[3] || held[4]
}

/// The kind of a button event: the button goes down or up. If down, `before` says that some button was
/// held before it; if up, `after` says that some button is held after it.
fn click_of(down: bool, before: bool, after: bool) -> Click
    ensures { result ≡ spec.click_of down before after }
{
    match (down, before, after) {
        (true, false, _) => Click::FirstDown,
        (true, true, _) => Click::OtherDown,
        (false, _, true) => Click::OtherUp,
        (false, _, false) => Click::LastUp,
    }
}

/// The leaf that gets the event, if one does.
fn receiver(click: Click, spot: &Spot, focus: Option<LeafId>) -> Option<LeafId>
    ensures { result ≡ spec.receiver click spot.now focus }
{
    if click == Click::FirstDown {
        leaf_at(spot)
    } else {
        focus
    }
}

fn leaf_at(spot: &Spot) -> Option<LeafId>
    ensures { result ≡ spec.leaf_at spot.now }
{
    match spot {
        Spot::Leaf { leaf, .. } => Some(*leaf),
        _ => None,
    }
}

/// The leaf that gets the next event, by the one that gets this event.
fn focus_after(click: Click, receiver: Option<LeafId>) -> Option<LeafId>
    ensures { (spot : Spot) (focus : Option LeafId) → receiver ≡ spec.receiver click spot focus →
        result ≡ spec.focus_after click spot focus }
{
    if click == Click::LastUp {
        None
    } else {
        receiver
    }
}

fn is_owned_by(leaf: LeafId, other: Option<LeafId>) -> bool
    ensures { result ≡ is_owned_by leaf other }
{
    match other {
        Some(other) => other.0 == leaf.0,
        None => false,
    }
}

fn other_than(leaf: LeafId, old: Option<LeafId>) -> Option<LeafId>
    ensures other { result ≡ spec.other_than leaf old }
    ensures known { (count : ℕ) → spec.IsKnown count old → spec.IsKnown count result }
{
    if is_owned_by(leaf, old) { None } else { old }
}
