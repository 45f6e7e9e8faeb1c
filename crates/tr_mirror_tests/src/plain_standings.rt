//! Where a stream stands after whole records, plainly: each Screen makes a screen anew, and each record
//! writes one row of it.
ghost use Rattle.std.specs.Prelude.{◌≡◌, ◌+◌, ◌≤◌, ◌<◌, length, true, false, None, replicate, IfOk, OnOk};
ghost use Rattle.std.specs.List.{list_all};
ghost use Rattle.tr_base.specs.Ops.{values_of};
ghost use Rattle.tr_base.specs.Rects.{IsScreenSize};
ghost use Rattle.tr_screen.specs.Pictures.{written_at};
ghost use Rattle.tr_mirror.specs.Headers.{pixel_count};
ghost use Rattle.tr_mirror.specs.Standings as spec;
ghost use Rattle.tr_mirror.specs.Standings.{stream_start, screen_begun, with_pixels, cut_off, pixels_written, after_record};
ghost use Rattle.tr_mirror_tests.specs.Heads.{segment, header};

use crate::heads::{Head, Place};
use std::alloc::Global;
use std::marker::Model;
use tr_base::{Kind, NoMemory, Size};
use tr_mirror::StreamFault;
use tr_screen::Screen;

#[derive(Drop)]
pub struct PlainStanding {
    // of one pixel, as long as none came
    screen: Screen,
    came: bool,
    cuts: u32,
    within: bool,
    south: u16,
}

impl Model for PlainStanding {
    ghost use Rattle.std.specs.Prelude.{◌≤◌, Some, None, if◌then◌else◌};
    ghost use Rattle.tr_mirror.specs.Standings.{Standing, most_groups};

    ghost Value = { Standing };

    ghost view = { λ s. record {
      cuts = s.cuts;
      screen = if s.came then Some s.screen else None;
      within = s.within;
      south = s.south;
    } };

    ghost invariant = { λ s. s.cuts ≤ most_groups };
}

impl PlainStanding {
    pub fn new(alloc: Global) -> Result<PlainStanding, NoMemory>
        ensures { IfOk result (λ s. s ≡ stream_start) }
    {
        Ok(PlainStanding {
            screen: Screen::blank(alloc, Size { wide: 1, high: 1 }, Kind::Mono)?,
            came: false,
            cuts: 0,
            within: false,
            south: 0,
        })
    }

    pub fn cuts(&self) -> u32 {
        self.cuts
    }

    pub fn is_within(&self) -> bool {
        self.within
    }

    /// The screen, if one came.
    pub fn screen(&self) -> Option<&Screen> {
        if self.came { Some(&self.screen) } else { None }
    }

    fn is_misplaced(&self, head: Head) -> bool
        ensures { result ≡ spec.is_out_of_place self.now (header head) }
    {
        match head {
            Head::Screen(..) => self.within,
            Head::Run(place) | Head::Fill(place) => !self.came || place.v < self.south,
            Head::Cut(number) => !self.came || number != self.cuts + 1,
        }
    }

    fn is_on(&self, place: Place) -> bool
        ensures { result ≡ spec.is_segment_on self.now.screen (segment place) }
    {
        let size = self.screen.size();
        self.came
            && place.v < size.high
            && 0 < place.count
            && usize::from(place.west) + usize::from(place.count) <= usize::from(size.wide)
    }

    fn is_out_of_range(&self, head: Head) -> bool
        ensures { result ≡ spec.is_out_of_range self.now (header head) }
    {
        match head {
            Head::Screen(wide, high, kind) => !(is_side(wide) && is_side(high) && kind <= 2),
            Head::Run(place) | Head::Fill(place) => !self.is_on(place),
            Head::Cut(_) => false,
        }
    }

    /// The fault that a whole header shows.
    #[tactic(auto, unfolding(tr_mirror::specs::Standings::header_fault))]
    pub fn header_fault(&self, head: Head) -> Option<StreamFault>
        ensures { result ≡ spec.header_fault self.now (header head) }
    {
        if self.cuts == 64 {
            Some(StreamFault::TooMany)
        } else if self.is_misplaced(head) {
            Some(StreamFault::Misplaced)
        } else if self.is_out_of_range(head) {
            Some(StreamFault::OutOfRange)
        } else {
            None
        }
    }

    /// The fault that the pixels show.
    #[tactic(auto, unfolding(tr_mirror::specs::Standings::pixel_fault))]
    pub fn pixel_fault(&self, pixels: &[u8]) -> Option<StreamFault>
        ensures { result ≡ spec.pixel_fault self.now pixels.now }
    {
        if self.came && !have_pixels(self.screen.kind(), pixels) {
            Some(StreamFault::OutOfRange)
        } else {
            None
        }
    }

    /// Does what a whole record says.
    #[tactic(auto, unfolding(tr_mirror::specs::Standings::after_record))]
    pub fn put(&mut self, alloc: Global, head: Head, pixels: &[u8]) -> Result<(), NoMemory>
        requires count { length pixels.now ≡ pixel_count (header head) }
        requires sound { spec.header_fault self.old (header head) ≡ None }
        ensures { OnOk result (self.new ≡ after_record self.old (header head) pixels.now) }
    {
        match head {
            Head::Screen(wide, high, kind) => self.begin(alloc, Size { wide, high }, kind_of(kind)),
            Head::Run(place) => Ok(self.write(place, pixels)),
            Head::Fill(place) => {
                let pixels = vec![in alloc; pixels[0]; usize::from(place.count)]?;
                Ok(self.write(place, &pixels))
            }
            Head::Cut(_) => Ok(self.cut()),
        }
    }

    fn begin(&mut self, alloc: Global, size: Size, kind: Kind) -> Result<(), NoMemory>
        requires { IsScreenSize size }
        ensures { OnOk result (self.new ≡ screen_begun self.old size kind) }
    {
        self.screen = Screen::blank(alloc, size, kind)?;
        self.came = true;
        self.within = true;
        self.south = 0;
        Ok(())
    }

    fn write(&mut self, place: Place, pixels: &[u8])
        requires on { spec.is_segment_on self.old.screen (segment place) ≡ true }
        requires count { length pixels.now ≡ place.count }
        ensures { self.new ≡ with_pixels self.old (segment place) pixels.now }
    {
        paint(&mut self.screen, place.v, place.west, pixels);
        self.within = true;
        self.south = place.v + 1;
    }

    fn cut(&mut self)
        requires { spec.is_too_late self.old ≡ false }
        ensures { self.new ≡ cut_off self.old }
    {
        self.cuts += 1;
        self.within = false;
        self.south = 0;
    }
}

/// Writes pixels over row `v`, from place `west` on.
#[tactic(auto, unfolding(tr_mirror::specs::Standings::pixels_written))]
fn paint(screen: &mut Screen, v: u16, west: u16, pixels: &[u8])
    requires row { v < screen.old.size.high }
    requires room { west + length pixels.now ≤ screen.old.size.wide }
    ensures painted { screen.new ≡ pixels_written screen.old v west pixels.now }
    ensures range { IsScreenSize screen.old.size }
{
    write_over(screen.row_mut(v), usize::from(west), pixels);
}

/// Writes pixels over those from `at` on.
fn write_over(row: &mut [u8], at: usize, pixels: &[u8])
    requires { at + length pixels.now ≤ length row.old }
    ensures { row.new ≡ written_at row.old at pixels.now }
{
    row[at..at + pixels.len()].copy_from_slice(pixels);
}

fn is_side(n: u16) -> bool
    ensures { result ≡ spec.is_side n }
{
    1 <= n && n <= 1024
}

fn kind_of(code: u8) -> Kind
    ensures { result ≡ spec.kind_of code }
{
    match code {
        0 => Kind::Mono,
        1 => Kind::Map8,
        _ => Kind::Map4,
    }
}

fn values_of(kind: Kind) -> u16
    ensures { result ≡ values_of kind }
{
    match kind {
        Kind::Mono => 2,
        Kind::Map4 => 16,
        Kind::Map8 => 256,
    }
}

fn has_pixel(kind: Kind, pixel: u8) -> bool
    ensures { result ≡ spec.has_pixel kind pixel }
{
    u16::from(pixel) < values_of(kind)
}

fn have_pixels(kind: Kind, pixels: &[u8]) -> bool
    ensures { result ≡ list_all (spec.has_pixel kind) pixels.now }
{
    pixels.iter().all(|pixel| has_pixel(kind, *pixel))
}
