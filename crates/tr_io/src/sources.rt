ghost use Rattle.std.specs.Prelude.{◌≡◌, ◌<◌, ◌≤◌, ◌↔◌, [], length, take, drop, min, Contains, IfOk, OnErr, IsErr, IsOk};
ghost use Rattle.tr_io.specs.Faults.{next_count};

use crate::plans::FaultPlan;
use crate::streams::{Failed, Source};
use std::marker::Model;

/// A source of bytes in memory that never fails. Its model is the bytes still to come.
#[derive(Drop)]
pub struct SteadySource {
    bytes: Vec<u8>,
    /// The number of bytes that were read.
    taken: usize,
}

impl Model for SteadySource {
    ghost use Rattle.std.specs.Prelude.{◌≤◌, ℕ, List, drop, vec_len};

    ghost Value = { List ℕ };

    ghost view = { λ s. drop s.taken s.bytes.items };

    ghost invariant = { λ s. s.taken ≤ vec_len s.bytes };
}

impl SteadySource {
    /// A source of these bytes.
    pub fn new(bytes: Vec<u8>) -> SteadySource
        ensures { result ≡ bytes.items }
    {
        SteadySource { bytes, taken: 0 }
    }

    /// The bytes still to come.
    pub fn left(&self) -> &[u8]
        ensures { result.now ≡ self.now }
    {
        &self.bytes[self.taken..]
    }
}

impl Source for SteadySource {
    ghost use Rattle.std.specs.Prelude.{Some};

    ghost left = { λ s. Some s };

    ghost faults = { λ _. 0 };

    fn read(&mut self, buf: &mut [u8]) -> Result<usize, Failed>
        ensures steady { IsOk result }
        ensures count { IfOk result (λ n. n ≡ min (length buf.old) (length self.old)) }
        ensures taken { IfOk result (λ n. take n buf.new ≡ take n self.old) }
        ensures left { IfOk result (λ n. self.new ≡ drop n self.old) }
    {
        let count = buf.len().min(self.bytes.len() - self.taken);
        let end = self.taken + count;
        buf[..count].copy_from_slice(&self.bytes[self.taken..end]);
        self.taken = end;
        Ok(count)
    }
}

/// A source of bytes in memory whose chosen reads fail.
#[derive(Drop)]
pub struct MemorySource {
    source: SteadySource,
    plan: FaultPlan,
}

impl Model for MemorySource {
    ghost use Rattle.tr_io.specs.States.{SourceState};

    ghost Value = { SourceState };

    ghost view = { λ s. record {
      left = s.source;
      reads = s.plan.calls;
      fails = s.plan.fails.items;
      faults = s.plan.faults;
    } };
}

impl MemorySource {
    /// A source of these bytes. The k-th read, counted from 1, fails if k is in `fails`.
    pub fn new(bytes: Vec<u8>, fails: Vec<u64>) -> MemorySource
        ensures { result ≡ record { left = bytes.items; reads = 0; fails = fails.items; faults = 0 } }
    {
        MemorySource {
            source: SteadySource::new(bytes),
            plan: FaultPlan::new(fails),
        }
    }

    /// The bytes still to come.
    pub fn left(&self) -> &[u8]
        ensures { result.now ≡ self.now.left }
    {
        self.source.left()
    }

    /// The number of reads that failed.
    pub fn faults(&self) -> u64
        ensures { result ≡ self.now.faults }
    {
        self.plan.faults
    }
}

impl Source for MemorySource {
    ghost use Rattle.std.specs.Prelude.{Some};

    ghost left = { λ s. Some s.left };

    ghost faults = { λ s. s.faults };

    fn read(&mut self, buf: &mut [u8]) -> Result<usize, Failed>
        ensures planned { IsErr result ↔ Contains self.old.fails (next_count self.old.reads) }
        ensures count { IfOk result (λ n. n ≡ min (length buf.old) (length self.old.left)) }
        ensures taken { IfOk result (λ n. take n buf.new ≡ take n self.old.left) }
        ensures ok { IfOk result (λ n. self.new ≡ record self.old {
          left = drop n self.old.left;
          reads = next_count self.old.reads;
        }) }
        ensures err { OnErr result (self.new ≡ record self.old {
          reads = next_count self.old.reads;
          faults = next_count self.old.faults;
        }) }
        ensures rising { self.old.faults ≤ self.new.faults }
    {
        self.plan.count_call()?;
        self.source.read(buf)
    }
}

/// A source of bytes in memory that gives a limited number of bytes at once, and whose chosen reads fail.
#[derive(Drop)]
pub struct PieceSource {
    source: MemorySource,
    piece: usize,
}

impl Model for PieceSource {
    ghost use Rattle.std.specs.Prelude.{◌≤◌};
    ghost use Rattle.tr_io.specs.States.{PieceState};

    ghost Value = { PieceState };

    ghost view = { λ s. record {
      left = s.source.left;
      piece = s.piece;
      reads = s.source.reads;
      fails = s.source.fails;
      faults = s.source.faults;
    } };

    ghost invariant = { λ s. 1 ≤ s.piece };
}

impl PieceSource {
    /// A source that gives at most `piece` bytes at once, at least 1. The k-th read, counted from 1, fails
    /// if k is in `fails`.
    pub fn new(bytes: Vec<u8>, piece: usize, fails: Vec<u64>) -> PieceSource
        requires { 1 ≤ piece }
        ensures { result ≡ record {
          left = bytes.items;
          piece = piece;
          reads = 0;
          fails = fails.items;
          faults = 0;
        } }
    {
        PieceSource {
            source: MemorySource::new(bytes, fails),
            piece,
        }
    }

    /// The bytes still to come.
    pub fn left(&self) -> &[u8]
        ensures value { result.now ≡ self.now.left }
        ensures invariant { 1 ≤ self.now.piece }
    {
        self.source.left()
    }

    /// The number of reads that failed.
    pub fn faults(&self) -> u64
        ensures { result ≡ self.now.faults }
    {
        self.source.faults()
    }
}

impl Source for PieceSource {
    ghost use Rattle.std.specs.Prelude.{Some};

    ghost left = { λ s. Some s.left };

    ghost faults = { λ s. s.faults };

    fn read(&mut self, buf: &mut [u8]) -> Result<usize, Failed>
        ensures planned { IsErr result ↔ Contains self.old.fails (next_count self.old.reads) }
        ensures count { IfOk result (λ n.
            n ≡ min (min (length buf.old) self.old.piece) (length self.old.left)) }
        ensures end { IfOk result (λ n. 0 < length buf.old → (n ≡ 0) ↔ (self.old.left ≡ [])) }
        ensures taken { IfOk result (λ n. take n buf.new ≡ take n self.old.left) }
        ensures ok { IfOk result (λ n. self.new ≡ record self.old {
          left = drop n self.old.left;
          reads = next_count self.old.reads;
        }) }
        ensures err { OnErr result (self.new ≡ record self.old {
          reads = next_count self.old.reads;
          faults = next_count self.old.faults;
        }) }
        ensures rising { self.old.faults ≤ self.new.faults }
    {
        let most = buf.len().min(self.piece);
        self.source.read(&mut buf[..most])
    }
}
