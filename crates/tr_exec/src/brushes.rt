//! The paint commands as brushes. Each has the corner of its picture on the screen.
ghost use Rattle.std.specs.Prelude.{◌≡◌, ◌*◌, ℕ, if◌then◌else◌, ◌-ℤ◌, ◌<ℤ◌, ◌≤ℤ◌, pos, neg_ℤ, true, length, slice_index, unsigned_abs};
ghost use Rattle.tr_base.specs.declared.Point.{Point};
ghost use Rattle.tr_base.specs.Rects.{InReach, has_point, whole_of, rect_of, before_shift};
ghost use Rattle.tr_base.specs.Ops.{exchanged};
ghost use Rattle.tr_base.specs.Tiles.{tile_bit};
ghost use Rattle.tr_base.specs.Pixmaps.{pixmap_at};
ghost use Rattle.tr_paint.specs.Paints.{text_bit};
ghost use Rattle.tr_base.specs.Ops.{resolved};
ghost use Rattle.tr_kernel.specs.Masks.{painted};
ghost use Rattle.tr_screen.specs.Runs.{in_run, point_in};
ghost use Rattle.tr_exec.specs.Strokes.{IsCorner};

use crate::strokes::{GlyphRows, letters_run, pixels_run, text_run, texture_run};
use crate::walks::Brush;
use tr_base::{Kind, Pixmap, Point, Rect, Tile};
use tr_kernel::{Lettering, Mask, exchange_row, fill_row};
use tr_screen::Run;

/// Gives each point one pixel.
#[derive(Drop)]
pub(crate) struct FillBrush {
    pub area: Rect,
    pub pixel: u8,
}

/// Exchanges two pixels.
#[derive(Drop)]
pub(crate) struct ExchangeBrush {
    pub area: Rect,
    pub x: u8,
    pub y: u8,
}

/// Applies the operation for the bit of a tile that begins at `at`.
#[derive(Drop)]
pub(crate) struct TextureBrush<'a> {
    pub area: Rect,
    pub mask: &'a Mask,
    pub tile: &'a Tile,
    pub at: Point,
    pub ghost corner: { IsCorner at },
}

/// Writes the pixels of a picture that begins at `at` and has all points of the area.
#[derive(Drop)]
pub(crate) struct PixelsBrush<'a> {
    pub area: Rect,
    pub kind: Kind,
    pub src: &'a Pixmap,
    pub at: Point,
    pub ghost corner: { IsCorner at },
    pub ghost within: { (p : Point) → has_point area p ≡ true →
        has_point (whole_of src.now.size) (before_shift p at) ≡ true },
}

/// Applies the operation for the glyph's bit of a text whose cells begin at `at` and contain
/// the area.
#[derive(Drop)]
pub(crate) struct TextBrush<'a> {
    pub area: Rect,
    pub mask: &'a Mask,
    pub glyphs: &'a GlyphRows<'a>,
    pub at: Point,
    pub ghost corner: { IsCorner at },
    pub ghost within: { (p : Point) → has_point area p ≡ true →
        has_point (rect_of (pos 0) (pos (8 * length glyphs.now.text.now)) (pos 0) (pos 8))
        (before_shift p at) ≡ true },
}

/// Writes a text whose cells begin at `at` and contain the area.
#[derive(Drop)]
pub(crate) struct LettersBrush<'a> {
    pub area: Rect,
    pub lettering: &'a Lettering<'a>,
    pub at: Point,
    pub ghost corner: { IsCorner at },
    pub ghost within: { (p : Point) → has_point area p ≡ true →
        has_point (rect_of (pos 0) (pos (8 * length lettering.now.text.now)) (pos 0) (pos 8))
        (before_shift p at) ≡ true },
}

impl Brush for FillBrush {
    ghost area = { λ b. b.area };

    ghost pixel = { λ b p old. b.pixel };

    fn area(&self) -> Rect {
        self.area
    }

    fn filling(&self) -> Option<u8> {
        Some(self.pixel)
    }

    fn paint(&self, _run: Run, pixels: &mut [u8]) {
        fill_row(pixels, self.pixel);
    }
}

impl Brush for ExchangeBrush {
    ghost area = { λ b. b.area };

    ghost pixel = { λ b p old. exchanged b.x b.y old };

    fn area(&self) -> Rect {
        self.area
    }

    fn paint(&self, _run: Run, pixels: &mut [u8]) {
        exchange_row(pixels, self.x, self.y);
    }
}

impl Brush for TextureBrush<'_> {
    ghost area = { λ b. b.area };

    ghost pixel = { λ b p old. painted b.mask.now (tile_bit b.tile.now (p.h -ℤ b.at.h) (p.v -ℤ b.at.v)) old };

    fn area(&self) -> Rect {
        self.area
    }

    fn paint(&self, run: Run, pixels: &mut [u8]) {
        texture_run(
            self.mask,
            self.tile,
            start_in(self.at, &self.area, run),
            pixels,
        );
    }
}

impl Brush for PixelsBrush<'_> {
    ghost area = { λ b. b.area };

    ghost pixel = { λ b p old. resolved b.kind (pixmap_at b.src.now (before_shift p b.at)) };

    fn area(&self) -> Rect {
        self.area
    }

    fn paint(&self, run: Run, pixels: &mut [u8]) {
        pixels_run(
            self.kind,
            self.src,
            start_in(self.at, &self.area, run),
            pixels,
        );
    }
}

impl Brush for TextBrush<'_> {
    ghost area = { λ b. b.area };

    ghost pixel = { λ b p old.
        painted b.mask.now (text_bit b.glyphs.now.font.now b.at b.glyphs.now.text.now p) old };

    fn area(&self) -> Rect {
        self.area
    }

    fn paint(&self, run: Run, pixels: &mut [u8]) {
        text_run(
            self.mask,
            self.glyphs,
            start_in(self.at, &self.area, run),
            pixels,
        );
    }
}

impl Brush for LettersBrush<'_> {
    ghost area = { λ b. b.area };

    ghost pixel = { λ b p old. if text_bit b.lettering.now.font.now b.at b.lettering.now.text.now p
        then b.lettering.now.one else b.lettering.now.zero };

    fn area(&self) -> Rect {
        self.area
    }

    fn paint(&self, run: Run, pixels: &mut [u8]) {
        letters_run(self.lettering, start_in(self.at, &self.area, run), pixels);
    }
}

/// The first point of a run of the area, relative to a picture's corner.
fn start_in(corner: Point, area: &Rect, run: Run) -> Point
    requires corner { IsCorner corner }
    requires some { run.west <ℤ run.east }
    requires within { (p : Point) → in_run run p ≡ true → has_point area.now p ≡ true }
    ensures { result ≡ before_shift (point_in run 0) corner }
{
    // These calls tell the prover that the edges of a rectangle are within reach.
    let _ = (area.west(), area.east(), area.north(), area.south());
    Point {
        h: distance(run.west, corner.h),
        v: distance(run.v, corner.v),
    }
}

/// The distance of a coordinate of the screen from a corner's.
fn distance(x: i32, corner: i32) -> i32
    requires x { InReach x }
    requires low { neg_ℤ (pos 131072) ≤ℤ corner }
    requires high { corner ≤ℤ pos 131072 }
    ensures { result ≡ x -ℤ corner }
{
    x - corner
}
