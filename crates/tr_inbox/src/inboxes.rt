ghost use Rattle.std.specs.Prelude.{◌≡◌, ◌+◌, ◌<◌, ◌≤◌, ◌↔◌, min, [], ◌∷◌, ◌++◌, length, slice_get, Some, IsErr, IfOk, OnOk, OnErr};

use circular_buffer::HeapCircularBuffer;
use std::alloc::Global;
use std::marker::Model;
use thiserror::Error;
use tr_base::{Event, NoMemory};

/// The most events in an inbox.
pub const CAPACITY: usize = 64;

/// The inbox was full, and the event is lost.
#[derive(Clone, Copy, Debug, PartialEq, Eq, Error)]
#[error("the inbox is full")]
pub struct Dropped;

/// No event waits.
#[derive(Clone, Copy, Debug, PartialEq, Eq, Error)]
#[error("no event waits")]
pub struct Empty;

/// The waiting events of one window, the oldest first, and the number of events that were dropped
/// because it was full. Its block is allocated once, so that only `new` can run out of memory.
#[derive(Debug, Drop)]
pub struct Inbox {
    events: HeapCircularBuffer<Event>,
    dropped: u32,
}

impl Model for Inbox {
    ghost use Rattle.std.specs.Prelude.{◌≡◌, ◌≤◌, length};
    ghost use Rattle.tr_inbox.specs.Inboxes.{InboxView};

    ghost Value = { InboxView };

    ghost view = { λ i. record { events = i.events.items; dropped = i.dropped } };

    ghost invariant = { λ i. (i.events.capacity ≡ 64) × (length i.events.items ≤ 64) };
}

impl Inbox {
    /// An inbox in which no event waits and none was dropped.
    pub fn new(alloc: Global) -> Result<Inbox, NoMemory>
        ensures { IfOk result (λ inbox. inbox ≡ record { events = []; dropped = 0 }) }
    {
        Ok(Inbox {
            events: HeapCircularBuffer::with_capacity(alloc, CAPACITY)?,
            dropped: 0,
        })
    }

    /// Puts the event after those that wait. A full inbox drops it instead, and counts it.
    pub fn put(&mut self, event: Event) -> Result<(), Dropped>
        ensures full { IsErr result ↔ (length self.old.events ≡ CAPACITY) }
        ensures ok { OnOk result (self.new ≡ record self.old { events = self.old.events ++ event ∷ [] }) }
        ensures err { OnErr result
            (self.new ≡ record self.old { dropped = min (self.old.dropped + 1) u32.MAX }) }
    {
        match self.events.try_push_back(event) {
            Ok(()) => Ok(()),
            Err(_event) => {
                self.dropped = self.dropped.saturating_add(1);
                Err(Dropped)
            }
        }
    }

    /// Takes the oldest event out.
    pub fn take(&mut self) -> Result<Event, Empty>
        ensures none { IsErr result ↔ (self.old.events ≡ []) }
        ensures ok { IfOk result (λ event. self.old ≡ record self.new { events = event ∷ self.new.events }) }
        ensures err { OnErr result (self.new ≡ self.old) }
    {
        self.events.pop_front().ok_or(Empty)
    }

    /// The number of events that wait.
    pub fn waiting(&self) -> usize
        ensures count { result ≡ length self.now.events }
        ensures limit { result ≤ CAPACITY }
    {
        self.events.len()
    }

    /// The event with `i` others before it.
    pub fn get(&self, i: usize) -> Event
        requires { i < length self.now.events }
        ensures { slice_get self.now.events i ≡ Some result }
    {
        *self.events.get(i).unwrap()
    }

    /// The number of events that were dropped. It stops at 2^32 - 1.
    pub fn dropped(&self) -> u32
        ensures { result ≡ self.now.dropped }
    {
        self.dropped
    }
}
