//! The cuts of a session.
ghost use Rattle.std.specs.Prelude.{◌≡◌, ◌<◌, ◌-◌, ◌↔◌, ◌++◌, IsNone, OnOk, OnErr, IfOk, length, map, min};
ghost use Rattle.std.specs.Option.{option_copied};
ghost use Rattle.tr_base.specs.Ops.{values_of};
ghost use Rattle.tr_mirror.specs.Standings.{most_groups};
ghost use Rattle.tr_mirror.specs.Streams.{HasItsPixels};
ghost use Rattle.tr_session.specs.Cuts as spec;

use std::alloc::Global;
use std::marker::Model;
use tr_base::{Kind, NoMemory};
use tr_mirror::update;
use tr_screen::Screen;

/// The most groups of a stream.
const MOST_GROUPS: u32 = 64;

/// The stream of cuts that goes on.
#[derive(Drop)]
pub(crate) struct Cuts {
    /// The screen of its last cut.
    last: Option<Screen>,
    /// The number of its groups.
    groups: u32,
}

impl Model for Cuts {
    ghost use Rattle.tr_session.specs.Cuts.{AreCuts, CutsSoFar};

    ghost Value = { CutsSoFar };

    ghost view = { λ c. record { last = c.last; groups = c.groups } };

    ghost invariant = { λ c. AreCuts (record { last = c.last; groups = c.groups }) };
}

impl Cuts {
    /// No cut.
    pub(crate) fn new() -> Cuts
        ensures { result ≡ spec.no_cut }
    {
        Cuts {
            last: None,
            groups: 0,
        }
    }

    /// Appends the group that leads to a screen as a stream can have it. After 64 groups a new stream begins.
    /// Returns the cuts with this one. These don't change, since memory may run out before the group is sent.
    pub(crate) fn cut(&self, now: &Screen, out: &mut Vec<u8>) -> Result<Cuts, NoMemory>
        ensures bytes { OnOk result
            (out.new.items ≡ out.old.items ++ spec.cut_bytes self.now (spec.fitted now.now)) }
        ensures ok { IfOk result (λ cuts. cuts ≡ spec.with_cut self.now (spec.fitted now.now)) }
        ensures err { OnErr result (out.new.items ≡ out.old.items) }
    {
        let copy = fitted(*out.allocator(), now)?;
        let (last, groups) = self.open_stream();
        update(last, &copy, groups + 1, out)?;
        Ok(Cuts {
            last: Some(copy),
            groups: groups + 1,
        })
    }

    /// The last screen and the number of groups of the next group's stream.
    fn open_stream(&self) -> (Option<&Screen>, u32)
        ensures last { option_copied result.0 ≡ (spec.open_stream self.now).last }
        ensures groups { result.1 ≡ (spec.open_stream self.now).groups }
        ensures few { result.1 < most_groups }
        ensures first { IsNone result.0 ↔ (result.1 ≡ 0) }
    {
        if self.groups >= MOST_GROUPS {
            (None, 0)
        } else {
            (self.last.as_ref(), self.groups)
        }
    }
}

/// The same screen, as a stream can have it. A bad point may have a pixel that is no value of the kind: that
/// one becomes the greatest value.
fn fitted(alloc: Global, screen: &Screen) -> Result<Screen, NoMemory>
    ensures fitted { IfOk result (λ copy. copy ≡ spec.fitted screen.now) }
    ensures pixels { IfOk result (λ copy. HasItsPixels copy) }
{
    let size = screen.size();
    let kind = screen.kind();
    let most = greatest_value(kind);
    let mut copy = Screen::blank(alloc, size, kind)?;
    for v in 0..size.high {
        fit_row(most, screen.row(v), copy.row_mut(v));
    }
    Ok(copy)
}

/// The greatest value of a kind.
fn greatest_value(kind: Kind) -> u8
    ensures { result ≡ values_of kind - 1 }
{
    match kind {
        Kind::Mono => 1,
        Kind::Map4 => 15,
        Kind::Map8 => 255,
    }
}

/// Copies a row; no pixel of the copy is greater than `most`.
fn fit_row(most: u8, from: &[u8], to: &mut [u8])
    requires { length to.old ≡ length from.now }
    ensures { to.new ≡ map (λ pixel. min pixel most) from.now }
{
    to.copy_from_slice(from);
    for pixel in to.iter_mut() {
        *pixel = (*pixel).min(most);
    }
}
