ghost use Rattle.std.specs.Prelude.{◌≡◌, ◌<◌, ◌≤◌, length, get_or, set, replicate, IfOk};
ghost use Rattle.tr_desk.specs.Desks.{IsDesk};
ghost use Rattle.tr_mail.specs.Mails.{IsMail, no_mail, nothing, inbox_of, put_into, is_full};
ghost use Rattle.tr_mail.specs.Deliveries.{front_of, front_taken, first, later};

use std::alloc::Global;
use std::marker::Model;
use tr_base::{Event, LeafId, NoMemory};
use tr_desk::Desk;
use tr_inbox::{CAPACITY, Inbox};

/// The input devices, and the waiting events of each leaf. Only `new` can run out of memory.
#[derive(Debug, Drop)]
pub struct Mail {
    pub(crate) desk: Desk,
    pub(crate) inboxes: Vec<Inbox>,
    /// Whether some leaf's cage may be bounded. If not, a motion asks no leaf.
    pub(crate) may_be_bounded: bool,
}

impl Model for Mail {
    ghost use Rattle.std.specs.Prelude.{◌≡◌, false};
    ghost use Rattle.tr_mail.specs.Mails.{Mails, IsMail};
    ghost use Rattle.tr_mail.specs.Bounds.{IsUnbounded};

    ghost Value = { Mails };

    ghost view = { λ m. record { desk = m.desk; inboxes = m.inboxes.items } };

    ghost invariant = { λ m. IsMail (record { desk = m.desk; inboxes = m.inboxes.items })
        × (m.may_be_bounded ≡ false → IsUnbounded m.desk) };
}

impl Mail {
    /// The mail of at most 32 leaves, before any event.
    pub fn new(alloc: Global, leaves: u8) -> Result<Mail, NoMemory>
        requires { leaves ≤ 32 }
        ensures { IfOk result (λ mail. mail ≡ no_mail leaves) }
    {
        Ok(Mail {
            desk: Desk::new(alloc, leaves)?,
            inboxes: empty_inboxes(alloc, leaves)?,
            may_be_bounded: false,
        })
    }

    /// The input devices, and the owners of selections.
    pub fn desk(&self) -> &Desk
        ensures { result.now ≡ self.now.desk }
    {
        &self.desk
    }

    /// The waiting events of a leaf.
    pub fn inbox(&self, leaf: LeafId) -> &Inbox
        requires { leaf.0 < length self.now.inboxes }
        ensures { result.now ≡ inbox_of self.now leaf }
    {
        &self.inboxes[usize::from(leaf.0)]
    }

    /// The event that has waited longest for a leaf.
    pub fn front(&self, leaf: LeafId) -> Option<Event>
        requires { leaf.0 < length self.now.inboxes }
        ensures { result ≡ front_of self.now leaf }
    {
        front_of(self.inbox(leaf))
    }

    /// Takes out the event that has waited longest for a leaf.
    pub fn take(&mut self, leaf: LeafId) -> Option<Event>
        requires { leaf.0 < length self.old.inboxes }
        ensures event { result ≡ front_of self.old leaf }
        ensures taken { self.new ≡ front_taken leaf self.old }
    {
        take_at(&mut self.inboxes, leaf)
    }

    /// Tells the invariant of mail. Nothing runs.
    pub fn invariant(&self)
        ensures desk { IsDesk self.now.desk }
        ensures mail { IsMail self.now }
    {
        let _leaves = self.leaves();
    }

    /// The number of leaves.
    pub fn leaves(&self) -> u8
        ensures count { result ≡ length self.now.inboxes }
        ensures desk { IsDesk self.now.desk }
        ensures invariant { IsMail self.now }
    {
        self.desk.invariant();
        self.inboxes.len() as u8
    }
}

fn empty_inboxes(alloc: Global, count: u8) -> Result<Vec<Inbox>, NoMemory>
    ensures { IfOk result (λ inboxes. inboxes.items ≡ replicate count nothing) }
{
    let mut inboxes = Vec::with_capacity(alloc, usize::from(count))?;
    for _leaf in 0..count {
        inboxes.push(Inbox::new(alloc)?)?;
    }
    Ok(inboxes)
}

/// Puts the event into a leaf's inbox, and says whether it was dropped.
pub(crate) fn put_at(inboxes: &mut Vec<Inbox>, leaf: LeafId, event: Event) -> bool
    requires { leaf.0 < length inboxes.old.items }
    ensures inboxes { inboxes.new.items ≡
        set inboxes.old.items leaf.0 (put_into event (get_or inboxes.old.items leaf.0 nothing)) }
    ensures dropped { result ≡ is_full (get_or inboxes.old.items leaf.0 nothing) }
{
    let inbox = &mut inboxes[usize::from(leaf.0)];
    put_into(inbox, event)
}

/// Puts the event into an inbox, and says whether it was dropped.
fn put_into(inbox: &mut Inbox, event: Event) -> bool
    ensures inbox { inbox.new ≡ put_into event inbox.old }
    ensures dropped { result ≡ is_full inbox.old }
{
    let is_full = inbox.waiting() == CAPACITY;
    let _ = inbox.put(event);
    is_full
}

/// Takes out the event that has waited longest for a leaf.
fn take_at(inboxes: &mut Vec<Inbox>, leaf: LeafId) -> Option<Event>
    requires { leaf.0 < length inboxes.old.items }
    ensures event { result ≡ first (get_or inboxes.old.items leaf.0 nothing).events }
    ensures inboxes { let inbox = get_or inboxes.old.items leaf.0 nothing in
        inboxes.new.items ≡ set inboxes.old.items leaf.0 (record inbox { events = later inbox.events }) }
{
    let inbox = &mut inboxes[usize::from(leaf.0)];
    take_from(inbox)
}

fn take_from(inbox: &mut Inbox) -> Option<Event>
    ensures event { result ≡ first inbox.old.events }
    ensures inbox { inbox.new ≡ record inbox.old { events = later inbox.old.events } }
{
    inbox.take().ok()
}

fn front_of(inbox: &Inbox) -> Option<Event>
    ensures { result ≡ first inbox.now.events }
{
    if inbox.waiting() == 0 {
        None
    } else {
        Some(inbox.get(0))
    }
}
