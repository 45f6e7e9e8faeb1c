//! Two operations on 16 pixels at once.
ghost use Rattle.std.specs.Prelude.{◌≡◌, ◌<◌, ◌^◌, ◌==◌, ◌↔◌, ℕ, Bool, not, false, length, slice_index, IsTrue};
ghost use Rattle.std.specs.Bool.{OnFalse};
ghost use Rattle.tr_base.specs.Ops.{eff, exchanged};
ghost use Rattle.tr_kernel.specs.Steps.{flipped, stepped, stepped_by, AreStill};

use std::simd::prelude::*;
use tr_base::{Kind, Op, resolved};

/// An operation with no test: the pixels `x` and `y` are exchanged, then only the bits of `kept` stay,
/// and those of `written` are set.
#[derive(Clone, Copy)]
pub(crate) struct Step {
    pub x: u8,
    pub y: u8,
    pub kept: u8,
    pub written: u8,
}

/// The step for a pixel whose bit is set, and the step for a pixel whose bit isn't.
#[derive(Clone, Copy)]
pub(crate) struct Steps {
    pub one: Step,
    pub zero: Step,
}

/// The operation as a step.
pub(crate) fn step_of(kind: Kind, op: Op) -> Step
    ensures { (old : ℕ) → old < 2 ^ 8 → stepped result old ≡ eff kind op old }
{
    match op {
        Op::Bg => write(0),
        Op::Fg => write(1),
        Op::Transparent => exchange(0, 0),
        Op::Set(pixel) => write(resolved(kind, pixel)),
        Op::Exchange(a, b) => exchange(resolved(kind, a), resolved(kind, b)),
    }
}

#[inline(always)]
fn write(pixel: u8) -> Step
    ensures value { (old : ℕ) → stepped result old ≡ pixel }
    ensures still { result.x ≡ result.y }
{
    Step {
        x: 0,
        y: 0,
        kept: 0,
        written: pixel,
    }
}

/// The step that exchanges two pixels.
pub(crate) fn exchange(x: u8, y: u8) -> Step
    ensures { (old : ℕ) → old < 2 ^ 8 → stepped result old ≡ exchanged x y old }
{
    Step {
        x,
        y,
        kept: 255,
        written: 0,
    }
}

impl Steps {
    /// Whether either step exchanges pixels.
    pub fn exchange(&self) -> bool
        ensures still { result ≡ false → AreStill self.now }
        ensures moving { AreStill self.now → result ≡ false }
    {
        self.one.x != self.one.y || self.zero.x != self.zero.y
    }

    /// Whether both steps only write.
    pub fn overwrite(&self) -> bool
        ensures { IsTrue result ↔ ((self.now.one.kept ≡ 0) × (self.now.zero.kept ≡ 0)) }
    {
        self.one.kept == 0 && self.zero.kept == 0
    }

    /// The same, for steps that only write.
    #[inline(always)]
    pub fn overwriting(self) -> Steps
        requires one { self.one.kept ≡ 0 }
        requires zero { self.zero.kept ≡ 0 }
        ensures still { AreStill result }
        ensures same { (bit : Bool) (old : ℕ) → stepped_by result bit old ≡ stepped_by self bit old }
    {
        Steps {
            one: write(self.one.written),
            zero: write(self.zero.written),
        }
    }

    /// The new values of 16 pixels. A pixel's bit is set if its byte of `bits` isn't 0. It has no branch:
    /// `EXCHANGES` is a constant.
    #[inline(always)]
    pub fn lanes<const EXCHANGES: bool>(self, old: u8x16, bits: u8x16) -> u8x16
        requires { OnFalse EXCHANGES (AreStill self) }
        ensures lanes { length result ≡ 16 }
        ensures each { (k : ℕ) → k < 16 → slice_index result k
            ≡ stepped_by self (not (slice_index bits k == 0)) (slice_index old k) }
    {
        let unset = bits.simd_eq(u8x16::splat(0));
        let x = unset.select(u8x16::splat(self.zero.x), u8x16::splat(self.one.x));
        let y = unset.select(u8x16::splat(self.zero.y), u8x16::splat(self.one.y));
        let kept = unset.select(u8x16::splat(self.zero.kept), u8x16::splat(self.one.kept));
        let written = unset.select(
            u8x16::splat(self.zero.written),
            u8x16::splat(self.one.written),
        );
        (exchanged_lanes::<EXCHANGES>(old, x, y) & kept) | written
    }
}

/// Each pixel x becomes y, and each pixel y becomes x.
#[inline(always)]
fn exchanged_lanes<const EXCHANGES: bool>(old: u8x16, x: u8x16, y: u8x16) -> u8x16
    requires { OnFalse EXCHANGES (x ≡ y) }
    ensures lanes { length result ≡ 16 }
    ensures each { (k : ℕ) → k < 16 → slice_index result k
        ≡ flipped (slice_index x k) (slice_index y k) (slice_index old k) }
{
    if !EXCHANGES {
        return old;
    }
    let hit = old.simd_eq(x) | old.simd_eq(y);
    old ^ hit.select(x ^ y, u8x16::splat(0))
}
