ghost use Rattle.std.specs.Prelude.{◌≡◌, ◌+◌, ◌<◌, ◌≤◌, ◌↔◌, [], ◌++◌, length, take, min, Contains, IfOk, OnOk, OnErr, IsErr, IsOk};
ghost use Rattle.tr_io.specs.Faults.{next_count};

use crate::plans::FaultPlan;
use crate::streams::{Failed, Sink};
use std::alloc::Global;
use std::marker::Model;
use tr_base::NoMemory;

/// A sink in memory that never fails and takes each piece whole.
#[derive(Drop)]
pub struct SteadySink {
    bytes: Vec<u8>,
}

impl Model for SteadySink {
    ghost use Rattle.std.specs.Prelude.{◌-◌, vec_len, vec_capacity};
    ghost use Rattle.tr_io.specs.States.{SteadyState};

    ghost Value = { SteadyState };

    ghost view = { λ s. record { written = s.bytes.items; room = vec_capacity s.bytes - vec_len s.bytes } };
}

impl SteadySink {
    /// A sink that has taken no byte.
    pub fn new(alloc: Global) -> SteadySink
        ensures { result.written ≡ [] }
    {
        SteadySink {
            bytes: Vec::new(alloc),
        }
    }

    /// The bytes that it has taken, the first one first.
    pub fn written(&self) -> &[u8]
        ensures { result.now ≡ self.now.written }
    {
        self.bytes.as_slice()
    }
}

impl Sink for SteadySink {
    ghost use Rattle.std.specs.Prelude.{Some};

    ghost written = { λ s. Some s.written };

    ghost room = { λ s. s.room };

    ghost faults = { λ _. 0 };

    fn reserve(&mut self, n: usize) -> Result<(), NoMemory>
        ensures room { OnOk result (n ≤ self.new.room) }
        ensures unchanged { self.new.written ≡ self.old.written }
        ensures no_memory { OnErr result (self.new ≡ self.old) }
    {
        Ok(self.bytes.reserve(n)?)
    }

    fn write(&mut self, piece: &[u8]) -> Result<usize, Failed>
        requires { length piece.now ≤ self.old.room }
        ensures whole { IfOk result (λ n. n ≡ length piece.now) }
        ensures steady { IsOk result }
        ensures appended { self.new.written ≡ self.old.written ++ piece.now }
        ensures room { self.old.room ≤ self.new.room + length piece.now }
    {
        self.bytes.extend_from_slice(piece).unwrap();
        Ok(piece.len())
    }
}

/// A sink in memory that takes a limited number of bytes at once, and whose chosen writes fail.
#[derive(Drop)]
pub struct MemorySink {
    sink: SteadySink,
    piece: usize,
    plan: FaultPlan,
}

impl Model for MemorySink {
    ghost use Rattle.std.specs.Prelude.{◌≤◌};
    ghost use Rattle.tr_io.specs.States.{SinkState};

    ghost Value = { SinkState };

    ghost view = { λ s. record {
      written = s.sink.written;
      room = s.sink.room;
      piece = s.piece;
      writes = s.plan.calls;
      fails = s.plan.fails.items;
      faults = s.plan.faults;
    } };

    ghost invariant = { λ s. 1 ≤ s.piece };
}

impl MemorySink {
    /// A sink that takes at most `piece` bytes at once, at least 1. The k-th write, counted from 1,
    /// fails if k is in `fails`.
    pub fn new(alloc: Global, piece: usize, fails: Vec<u64>) -> MemorySink
        requires { 1 ≤ piece }
        ensures { result ≡ record {
          written = [];
          room = result.room;
          piece = piece;
          writes = 0;
          fails = fails.items;
          faults = 0;
        } }
    {
        MemorySink {
            sink: SteadySink::new(alloc),
            piece,
            plan: FaultPlan::new(fails),
        }
    }

    /// The bytes that it has taken, the first one first.
    pub fn written(&self) -> &[u8]
        ensures value { result.now ≡ self.now.written }
        ensures invariant { 1 ≤ self.now.piece }
    {
        self.sink.written()
    }

    /// The number of writes that failed.
    pub fn faults(&self) -> u64
        ensures { result ≡ self.now.faults }
    {
        self.plan.faults
    }
}

impl Sink for MemorySink {
    ghost use Rattle.std.specs.Prelude.{Some};

    ghost written = { λ s. Some s.written };

    ghost room = { λ s. s.room };

    ghost faults = { λ s. s.faults };

    fn reserve(&mut self, n: usize) -> Result<(), NoMemory>
        ensures room { OnOk result (n ≤ self.new.room) }
        ensures unchanged { self.new ≡ record self.old { room = self.new.room } }
        ensures no_memory { OnErr result (self.new ≡ self.old) }
    {
        self.sink.reserve(n)
    }

    fn write(&mut self, piece: &[u8]) -> Result<usize, Failed>
        requires { length piece.now ≤ self.old.room }
        ensures planned { IsErr result ↔ Contains self.old.fails (next_count self.old.writes) }
        ensures count { IfOk result (λ n. n ≡ min (length piece.now) self.old.piece) }
        ensures progress { 0 < length piece.now → IfOk result (λ n. 0 < n) }
        ensures ok { IfOk result (λ n. self.new ≡ record self.old {
          written = self.old.written ++ take n piece.now;
          room = self.new.room;
          writes = next_count self.old.writes;
        }) }
        ensures room { IfOk result (λ n. self.old.room ≤ self.new.room + n) }
        ensures err { OnErr result (self.new ≡ record self.old {
          writes = next_count self.old.writes;
          faults = next_count self.old.faults;
        }) }
        ensures rising { self.old.faults ≤ self.new.faults }
    {
        self.plan.count_call()?;
        let count = piece.len().min(self.piece);
        self.sink.write(&piece[..count])
    }
}
