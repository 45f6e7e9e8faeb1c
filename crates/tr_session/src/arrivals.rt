//! Lines that arrive in pieces.
ghost use Rattle.std.specs.Prelude.{◌≡◌, ◌≤◌, ◌++◌, [], true, false, length, take, drop, OnErr, OnOk, IfOk, IfSome};
ghost use Rattle.tr_io.specs.Faults.{HasFault};
ghost use Rattle.tr_io.specs.Streams.{Fell};
ghost use Rattle.tr_session.specs.Arrivals.{HasLine, IsWithoutLine, first_bytes};

use memchr::memchr;
use std::alloc::Global;
use std::marker::Model;
use tr_base::NoMemory;
use tr_io::{Failed, Source};

/// The number of bytes in one read.
const PIECE: usize = 64 * 1024;

/// The number of kept bytes of a line: one more than a line may have.
const FRONT: usize = 1025;

/// Bytes that were read, and whose lines have no answer yet.
#[derive(Drop)]
pub(crate) struct Arrivals {
    /// The bytes of the last read.
    piece: Vec<u8>,
    /// The part of them that wasn't searched for a line feed.
    start: usize,
    end: usize,
    /// The front of the line that has begun.
    line: Vec<u8>,
}

impl Model for Arrivals {
    ghost use Rattle.std.specs.Prelude.{◌≤◌, ◌≡◌, slice_range, vec_len, vec_capacity};
    ghost use Rattle.tr_session.specs.Arrivals.{ArrivalsView};

    ghost Value = { ArrivalsView };

    ghost view = { λ a. record { begun = a.line.items; rest = slice_range a.piece.items a.start a.end } };

    ghost invariant = { λ a. (a.start ≤ a.end) × (a.end ≤ vec_len a.piece) × (vec_len a.piece ≡ 65536)
        × (vec_len a.line ≤ 1025) × (1025 ≤ vec_capacity a.line) };
}

impl Arrivals {
    /// No byte.
    pub(crate) fn new(alloc: Global) -> Result<Arrivals, NoMemory>
        ensures { IfOk result (λ a. (a.begun ≡ []) × (a.rest ≡ [])) }
    {
        Ok(Arrivals {
            piece: vec![in alloc; 0u8; PIECE]?,
            start: 0,
            end: 0,
            line: Vec::with_capacity(alloc, FRONT)?,
        })
    }

    /// Goes on to the end of the line that has begun, if it was read, and else to the end of the read bytes.
    /// Returns whether the line is whole.
    pub(crate) fn advance(&mut self) -> bool
        ensures whole { result ≡ true → HasLine self.old self.new }
        ensures open { result ≡ false → IsWithoutLine self.old self.new }
    {
        match memchr(b'\n', &self.piece[self.start..self.end]) {
            Some(count) => {
                self.keep(count);
                self.skip();
                true
            }
            None => {
                let count = self.rest_len();
                self.keep(count);
                false
            }
        }
    }

    /// The number of read bytes that weren't searched.
    fn rest_len(&self) -> usize
        ensures { result ≡ length self.now.rest }
    {
        self.end - self.start
    }

    /// Goes on by so many bytes of a line, and keeps them as far as they are in its front.
    fn keep(&mut self, count: usize)
        requires { count ≤ length self.old.rest }
        ensures begun { self.new.begun ≡ first_bytes (self.old.begun ++ take count self.old.rest) }
        ensures rest { self.new.rest ≡ drop count self.old.rest }
    {
        let rest = &self.piece[self.start..self.end];
        let kept = count.min(FRONT - self.line.len());
        self.line.extend_from_slice(&rest[..kept]).unwrap();
        self.start += count;
    }

    /// Goes over a line feed.
    fn skip(&mut self)
        requires { 1 ≤ length self.old.rest }
        ensures begun { self.new.begun ≡ self.old.begun }
        ensures rest { self.new.rest ≡ drop 1 self.old.rest }
    {
        self.start += 1;
    }

    /// The front of the line that has begun or is whole.
    pub(crate) fn line(&self) -> &[u8]
        ensures { result.now ≡ self.now.begun }
    {
        &self.line
    }

    /// Another line begins.
    pub(crate) fn forget_line(&mut self)
        ensures { self.new ≡ record self.old { begun = [] } }
    {
        self.line.clear();
    }

    /// Reads once, if no byte is left. Returns whether a byte came.
    pub(crate) fn read<S: Source>(&mut self, source: &mut S) -> Result<bool, Failed>
        requires { self.old.rest ≡ [] }
        ensures begun { self.new.begun ≡ self.old.begun }
        ensures came { OnOk result (Fell (S.left source.old) (S.left source.new) self.new.rest) }
        ensures more { IfOk result (λ came. came ≡ true → 1 ≤ length self.new.rest) }
        ensures over { IfOk result (λ came. came ≡ false →
            (self.new.rest ≡ []) × IfSome (S.left source.new) (λ rest. rest ≡ [])) }
        ensures failed { OnErr result (HasFault (S.faults source.old) (S.faults source.new)) }
        ensures unchanged { OnErr result (S.left source.new ≡ S.left source.old) }
        ensures rising { S.faults source.old ≤ S.faults source.new }
    {
        self.start = 0;
        self.end = 0;
        let count = source.read(&mut self.piece)?;
        self.end = count;
        Ok(count != 0)
    }
}
