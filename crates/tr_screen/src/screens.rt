ghost use Rattle.std.specs.Prelude.{◌≡◌, ◌<◌, ◌≤◌, ◌++◌, ℕ, List, length, All, pos, ◌+ℤ◌, ◌-ℤ◌, ◌≤ℤ◌, slice_index, unsigned_abs, true, if◌then◌else◌, IsTrue, IfOk, OnOk};
ghost use Rattle.std.specs.Borrow.{sem};
ghost use Rattle.tr_base.specs.declared.points.Point.{Point};
ghost use Rattle.tr_base.specs.Rects.{before_shift, has_point, whole_of, IsScreenSize};
ghost use Rattle.tr_screen.specs.Pictures.{IsPicture, blank_of, filled_of, row_of, pixel_of, with_row, overwritten};
ghost use Rattle.tr_screen.specs.Lending.{LendsRow};
ghost use Rattle.tr_screen.specs.RunLending.{LendsRun, run_overwritten};
ghost use Rattle.tr_screen.specs.Runs.{in_run, in_rows, run_before, width_of, column_in, IsOn, IsRun, Repaints};
ghost use Rattle.tr_screen.specs.Resizing.{kept_pixel};
ghost use Rattle.tr_kernel.specs.Letters.{bit_in_letters};
ghost use Rattle.tr_screen.specs.Letters.{first_row, in_letters};
ghost use Rattle.tr_screen.specs.Readings.{LiesOn, rect_by, rects_by, run_by};

use crate::copies::{copy_pixels, copy_through, fill_pixels};
use crate::runs::{Run, index_of, row_before, row_in, row_start, source_of, start_of, width_of};
use std::alloc::Global;
use std::marker::Model;
use tr_base::{Kind, NoMemory, Point, Rect, Size};
use tr_kernel::{Block, Lettering, copy_row, letter_block};

/// The pixels of a screen, 1 to 1024 from west to east and 1 to 1024 from north to south.
#[derive(Debug, Drop)]
pub struct Screen {
    size: Size,
    kind: Kind,
    // row by row from north to south
    pixels: Vec<u8>,
}

impl Model for Screen {
    ghost use Rattle.std.specs.Prelude.{◌≡◌, ◌*◌, vec_len};
    ghost use Rattle.tr_screen.specs.Pictures.{Picture, picture_of};
    ghost use Rattle.tr_base.specs.Rects.{IsScreenSize};

    ghost Value = { Picture };

    ghost view = { λ s. picture_of s.size s.kind s.pixels.items };

    ghost invariant = { λ s. IsScreenSize s.size × (vec_len s.pixels ≡ s.size.high * s.size.wide) };
}

impl Screen {
    /// A screen with every pixel 0.
    pub fn blank(alloc: Global, size: Size, kind: Kind) -> Result<Screen, NoMemory>
        requires { IsScreenSize size }
        ensures { IfOk result (λ s. s ≡ blank_of size kind) }
    {
        let count = usize::from(size.high) * usize::from(size.wide);
        Ok(Screen {
            size,
            kind,
            pixels: vec![in alloc; 0; count]?,
        })
    }

    /// Gives every pixel this value.
    pub fn fill(&mut self, pixel: u8)
        ensures { self.new ≡ filled_of self.old.size self.old.kind pixel }
    {
        self.pixels.fill(pixel);
    }

    /// Tells the invariant of screens. Nothing runs.
    pub fn invariant(&self)
        ensures { IsPicture self.now }
    {
        let _size = self.size();
    }

    /// The number of pixels from west to east, and from north to south.
    pub fn size(&self) -> Size
        ensures value { result ≡ self.now.size }
        ensures invariant { IsPicture self.now }
    {
        self.size
    }

    /// The kind of its pixels: the range of their values.
    pub fn kind(&self) -> Kind
        ensures value { result ≡ self.now.kind }
        ensures invariant { IsPicture self.now }
    {
        self.kind
    }

    /// The pixel at a point of the screen.
    pub fn at(&self, p: Point) -> u8
        requires { IsTrue (has_point (whole_of self.now.size) p) }
        ensures value { result ≡ pixel_of self.now p }
        ensures invariant { IsPicture self.now }
    {
        self.pixels[index_of(self.size, p)]
    }

    /// The pixels of row `v`, counted from the north, from west to east.
    pub fn row(&self, v: u16) -> &[u8]
        requires { v < self.now.size.high }
        ensures value { result.now ≡ row_of self.now v }
        ensures wide { length result.now ≡ self.now.size.wide }
        ensures invariant { IsPicture self.now }
    {
        let wide = usize::from(self.size.wide);
        let start = usize::from(v) * wide;
        &self.pixels[start..start + wide]
    }

    /// The pixels of row `v`, counted from the north, to be written.
    pub fn row_mut(&mut self, v: u16) -> &mut [u8]
        requires { v < self.old.size.high }
        ensures* writes_back { sem 𝓛 (LendsRow self.entry v result) }

        // A slice keeps its length, so the last value of the result replaces the row.
        ensures replaces { (w : List ℕ) → length w ≡ self.old.size.wide →
            overwritten self.old v w ≡ with_row self.old v w }
        ensures value { result.now ≡ row_of self.old v }
        ensures wide { length result.now ≡ self.old.size.wide }
        ensures invariant { IsPicture self.old }
    {
        let wide = usize::from(self.size.wide);
        let start = usize::from(v) * wide;
        self.pixels.slice_mut(start..start + wide)
    }

    /// The pixels of the run, to be written.
    pub fn run_mut(&mut self, run: Run) -> &mut [u8]
        requires { IsRun self.old.size run }
        ensures* writes_back { sem 𝓛 (LendsRun self.entry run result) }

        // A slice keeps its length, so the last value of the result is painted.
        ensures paints { (w : List ℕ) → length w ≡ width_of run →
            Repaints (in_run run) (λ p. slice_index w (column_in run p))
            self.old (run_overwritten self.old run w) }
        ensures value { (p : Point) → in_run run p ≡ true →
            slice_index result.now (column_in run p) ≡ pixel_of self.old p }
        ensures wide { length result.now ≡ width_of run }
    {
        let start = start_of(self.size, run);
        let count = width_of(self.size, run);
        self.pixels.slice_mut(start..start + count)
    }

    /// The pixels at the points of these rectangles, one rectangle after another, and row by row in each.
    pub fn pixels_at(&self, rects: &[Rect]) -> Result<Vec<u8>, NoMemory>
        requires { All (LiesOn self.now.size) rects.now }
        ensures { IfOk result (λ pixels. pixels.items ≡ rects_by (pixel_of self.now) rects.now) }
    {
        let mut pixels = Vec::new(*self.pixels.allocator());
        for rect in rects {
            self.append_rect(&mut pixels, rect)?;
        }
        Ok(pixels)
    }

    /// Appends the pixels of a rectangle to others, row by row.
    fn append_rect(&self, pixels: &mut Vec<u8>, rect: &Rect) -> Result<(), NoMemory>
        requires { LiesOn self.now.size rect.now }
        ensures { OnOk result (pixels.new.items ≡
            pixels.old.items ++ rect_by (pixel_of self.now) rect.now) }
    {
        rect.invariant();
        let (_, high) = rect.size();
        for n in 0..high {
            pixels.extend_from_slice(self.run(row_in(rect, n)))?;
        }
        Ok(())
    }

    /// The pixels of the run.
    fn run(&self, run: Run) -> &[u8]
        requires { IsRun self.now.size run }
        ensures pixels { result.now ≡ run_by (pixel_of self.now) run }
        ensures wide { length result.now ≡ width_of run }
    {
        let start = start_of(self.size, run);
        let count = width_of(self.size, run);
        &self.pixels[start..start + count]
    }

    /// Gives each point of the run the pixel that lay `delta` before it.
    pub fn move_run(&mut self, run: Run, delta: Point)
        requires to { IsRun self.old.size run }
        requires from { IsRun self.old.size (run_before run delta) }
        ensures { Repaints (in_run run) (λ p. pixel_of self.old (before_shift p delta)) self.old self.new }
    {
        let to = start_of(self.size, run);
        let from = start_of(self.size, source_of(self.size, run, delta));
        let count = width_of(self.size, run);
        copy_pixels(&mut self.pixels, from, to, count);
    }

    /// Gives each point of the run the pixel that lay `delta` before it, through `spare`, which has
    /// room for a run: that is faster if the two runs overlap.
    pub fn move_run_through(&mut self, run: Run, delta: Point, spare: &mut [u8])
        requires to { IsRun self.old.size run }
        requires from { IsRun self.old.size (run_before run delta) }
        requires room { width_of run ≤ length spare.old }
        ensures { Repaints (in_run run) (λ p. pixel_of self.old (before_shift p delta)) self.old self.new }
    {
        let to = start_of(self.size, run);
        let from = start_of(self.size, source_of(self.size, run, delta));
        let count = width_of(self.size, run);
        copy_through(&mut self.pixels, from, to, &mut spare[..count]);
    }

    /// Gives each point of the rows from `north` on and before `south` the pixel that lay `delta`
    /// before it, straight north or south of it. Rows are one block of pixels, and move as one.
    pub fn move_rows(&mut self, north: u16, south: u16, delta: Point)
        requires order { north ≤ south }
        requires to { south ≤ self.old.size.high }
        requires straight { delta.h ≡ pos 0 }
        requires from_north { pos 0 ≤ℤ (pos north -ℤ delta.v) }
        requires from_south { (pos south -ℤ delta.v) ≤ℤ pos self.old.size.high }
        ensures { Repaints (in_rows north south) (λ p. pixel_of self.old (before_shift p delta))
            self.old self.new }
    {
        let wide = usize::from(self.size.wide);
        let from = row_before(north, delta) * wide;
        let to = usize::from(north) * wide;
        let count = usize::from(south - north) * wide;
        copy_pixels(&mut self.pixels, from, to, count);
    }

    /// Gives each point of the rows from `north` on and before `south` this pixel. Rows are one block of
    /// pixels: a fill of 768 rows of 1,024 pixels takes half the time of 768 fills of a row.
    pub fn fill_rows(&mut self, north: u16, south: u16, pixel: u8)
        requires order { north ≤ south }
        requires high { south ≤ self.old.size.high }
        ensures { Repaints (in_rows north south) (λ _. pixel) self.old self.new }
    {
        let wide = usize::from(self.size.wide);
        let start = usize::from(north) * wide;
        let count = usize::from(south - north) * wide;
        fill_pixels(&mut self.pixels, start, count, pixel);
    }

    /// Writes all rows of a text of at least one letter, which begins at the point `at`.
    pub fn write_lettering(&mut self, at: Point, lettering: &Lettering<'_>)
        requires first { IsRun self.old.size (first_row at (length lettering.now.text.now)) }
        requires last { (at.v +ℤ pos 8) ≤ℤ pos self.old.size.high }
        ensures { Repaints (in_letters at (length lettering.now.text.now))
            (λ p. let v = unsigned_abs (p.v -ℤ at.v) in let column = unsigned_abs (p.h -ℤ at.h) in
            if bit_in_letters lettering.now.font.now lettering.now.text.now v column
            then lettering.now.one else lettering.now.zero) self.old self.new }
    {
        let block = Block {
            start: index_of(self.size, at),
            stride: usize::from(self.size.wide),
        };
        letter_block(&mut self.pixels, block, lettering);
    }

    /// A screen of this size and kind. With the same kind, each point that is on both screens keeps
    /// its pixel, and all others are 0. With another kind all are 0.
    pub fn resized(&self, size: Size, kind: Kind) -> Result<Screen, NoMemory>
        requires { IsScreenSize size }
        ensures size { IfOk result (λ s. s.size ≡ size) }
        ensures kind { IfOk result (λ s. s.kind ≡ kind) }
        ensures points { IfOk result (λ s. (p : Point) → IsOn size p →
            pixel_of s p ≡ kept_pixel self.now kind p) }
    {
        let mut resized = Screen::blank(*self.pixels.allocator(), size, kind)?;
        if kind == self.kind {
            resized.copy_common(self);
        }
        Ok(resized)
    }

    /// Gives each point that is on both screens its pixel of the other one.
    fn copy_common(&mut self, other: &Screen)
        ensures { Repaints (has_point (whole_of other.now.size)) (pixel_of other.now) self.old self.new }
    {
        let own = self.size();
        let size = other.size();
        let wide = own.wide.min(size.wide);
        for v in 0..own.high.min(size.high) {
            self.copy_run(other, row_start(v, wide));
        }
    }

    /// Gives each point of the run its pixel of the other screen.
    fn copy_run(&mut self, other: &Screen, run: Run)
        requires to { IsRun self.old.size run }
        requires from { IsRun other.now.size run }
        ensures { Repaints (in_run run) (pixel_of other.now) self.old self.new }
    {
        copy_row(self.run_mut(run), other.run(run));
    }
}
