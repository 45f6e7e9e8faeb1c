//! A writer that keeps the last screen.
ghost use Rattle.std.specs.Prelude.{◌≡◌, ◌+◌, ◌≤◌, ◌<◌, ◌++◌, ◌∷◌, ◌↔◌, [], List, ℕ, Some, None, IfOk, OnOk, OnErr, IsTrue};
ghost use Rattle.tr_screen.specs.Pictures.{Picture};
ghost use Rattle.tr_mirror.specs.Standings.{most_groups};
ghost use Rattle.tr_mirror.specs.Records.{spelled};
ghost use Rattle.tr_mirror.specs.Streams.{HasItsPixels, group_of};
ghost use Rattle.tr_mirror.specs.Updates.{HasSent};

use crate::replicas::MOST_GROUPS;
use crate::updates::update;
use std::marker::Model;
use tr_base::NoMemory;
use tr_screen::Screen;

/// A writer of a stream. It keeps the last screen that it sent, and counts the cuts.
#[derive(Debug, Drop)]
pub struct Writer {
    last: Option<Screen>,
    cuts: u32,
}

impl Model for Writer {
    ghost use Rattle.std.specs.Prelude.{◌≡◌, ◌≤◌, ◌↔◌, IsNone};
    ghost use Rattle.tr_mirror.specs.Standings.{most_groups};
    ghost use Rattle.tr_mirror.specs.Updates.{WriterView};

    ghost Value = { WriterView };

    ghost view = { λ w. record { last = w.last; cuts = w.cuts } };

    ghost invariant = { λ w. (w.cuts ≤ most_groups) × (IsNone w.last ↔ (w.cuts ≡ 0)) };
}

impl Writer {
    /// A writer at the beginning of a stream.
    pub fn new() -> Writer
        ensures value { result ≡ record { last = None; cuts = 0 } }
        ensures sent { HasSent result [] [] }
    {
        Writer {
            last: None,
            cuts: 0,
        }
    }

    /// The number of cuts of the stream so far.
    pub fn cuts(&self) -> u32
        ensures { result ≡ self.now.cuts }
    {
        self.cuts
    }

    /// Whether the stream has all 64 cuts. A longer session continues in a new one: `restart`.
    pub fn is_full(&self) -> bool
        ensures value { IsTrue result ↔ (self.now.cuts ≡ most_groups) }
        ensures invariant { self.now.cuts ≤ most_groups }
    {
        self.cuts == MOST_GROUPS
    }

    /// Appends to `out` the group that leads a reader from the last sent screen to this one. `out` may be
    /// empty: earlier bytes need not be kept. Each pixel must be a value of the screen's kind
    /// (`has_its_pixels` tests it). For want of memory nothing changes.
    pub fn append(&mut self, now: &Screen, out: &mut Vec<u8>) -> Result<(), NoMemory>
        requires room { self.old.cuts < most_groups }
        requires pixels { HasItsPixels now.now }
        ensures group { OnOk result (out.new.items ≡ out.old.items
            ++ spelled (group_of self.old.last now.now (self.old.cuts + 1))) }
        ensures next { OnOk result (self.new ≡ record { last = Some now.now; cuts = self.old.cuts + 1 }) }

        // After the sent bytes the new ones make a stream that shows one screen more.
        ensures sent { OnOk result ((stream added : List ℕ) (screens : List Picture) →
            HasSent self.old stream screens → out.new.items ≡ out.old.items ++ added →
            HasSent self.new (stream ++ added) (screens ++ now.now ∷ [])) }
        ensures err { OnErr result (self.new ≡ self.old) }
        ensures err_out { OnErr result (out.new.items ≡ out.old.items) }
    {
        let copy = copy_of(now)?;
        update(self.last.as_ref(), now, self.cuts + 1, out)?;
        self.last = Some(copy);
        self.cuts += 1;
        Ok(())
    }

    /// Begins a new stream: the next group has a Screen and is number 1.
    pub fn restart(&mut self)
        ensures value { self.new ≡ record { last = None; cuts = 0 } }
        ensures sent { HasSent self.new [] [] }
    {
        self.last = None;
        self.cuts = 0;
    }
}

/// A copy of a screen.
fn copy_of(screen: &Screen) -> Result<Screen, NoMemory>
    ensures { IfOk result (λ copy. copy ≡ screen.now) }
{
    let copy = screen.resized(screen.size(), screen.kind())?;
    copy.invariant();
    Ok(copy)
}
