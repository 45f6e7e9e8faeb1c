ghost use Rattle.std.specs.Prelude.{◌≡◌, ◌*◌, ◌<◌, ◌↔◌, length, IsTrue, IfOk, vec_len, take, drop};
ghost use Rattle.tr_base.specs.Rects.{has_point, whole_of};
ghost use Rattle.tr_base.specs.Pixmaps.{IsPixmap, pixmap_at};

use crate::errors::NoMemory;
use crate::points::Point;
use crate::sizes::Size;
use std::marker::Model;

/// A picture given as pixels, row by row from north to south.
#[derive(Debug, Drop)]
pub struct Pixmap {
    size: Size,
    pixels: Vec<u8>,
}

impl Model for Pixmap {
    ghost use Rattle.tr_base.specs.Pixmaps.{PixmapView, IsPixmap};

    ghost Value = { PixmapView };

    ghost view = { λ m. record { size = m.size; pixels = m.pixels.items } };

    ghost invariant = { λ m. IsPixmap (record { size = m.size; pixels = m.pixels.items }) };
}

impl Pixmap {
    /// The picture of this size with these pixels. Their number is the product of the sides.
    pub fn new(size: Size, pixels: Vec<u8>) -> Pixmap
        requires { vec_len pixels ≡ size.wide * size.high }
        ensures { result ≡ record { size = size; pixels = pixels.items } }
    {
        Pixmap { size, pixels }
    }

    /// The number of pixels from west to east, and from north to south.
    pub fn size(&self) -> Size
        ensures value { result ≡ self.now.size }
        ensures invariant { IsPixmap self.now }
    {
        self.size
    }

    /// The pixel at a point, counted from the north-west corner.
    pub fn at(&self, p: Point) -> u8
        requires { IsTrue (has_point (whole_of self.now.size) p) }
        ensures { result ≡ pixmap_at self.now p }
    {
        let v = p.v as usize;
        let h = p.h as usize;
        self.pixels[v * usize::from(self.size.wide) + h]
    }

    /// The pixels of row `v`, counted from the north, from west to east.
    pub fn row(&self, v: u16) -> &[u8]
        requires { v < self.now.size.high }
        ensures value { result.now ≡ take self.now.size.wide (drop (v * self.now.size.wide) self.now.pixels) }
        ensures wide { length result.now ≡ self.now.size.wide }
    {
        let wide = usize::from(self.size.wide);
        let start = usize::from(v) * wide;
        &self.pixels[start..start + wide]
    }

    /// A pixmap with the same size and pixels.
    pub fn copy(&self) -> Result<Pixmap, NoMemory>
        ensures { IfOk result (λ m. m ≡ self.now) }
    {
        let pixels = Vec::from_slice(*self.pixels.allocator(), &self.pixels)?;
        Ok(Pixmap {
            size: self.size,
            pixels,
        })
    }

    /// Whether both have the same size and the same pixels.
    pub fn same(&self, other: &Pixmap) -> bool
        ensures { IsTrue result ↔ (self.now ≡ other.now) }
    {
        self.size == other.size && self.pixels.as_slice() == other.pixels.as_slice()
    }
}
