ghost use Rattle.std.specs.Prelude.{◌≡◌, true, length, slice_index, IsTrue, IfOk};
ghost use Rattle.tr_base.specs.declared.Point.{Point};
ghost use Rattle.tr_base.specs.Rects.{has_point, meet_of, whole_of, IsScreenSize};
ghost use Rattle.tr_region.specs.Areas.{area_of};
ghost use Rattle.tr_region.specs.Places.{place_within};
ghost use Rattle.tr_paint.specs.Paints.{IsNearRect};
ghost use Rattle.tr_paint.specs.Traces.{look_of};
ghost use Rattle.tr_client.specs.Laws.{IsWindowSize};
ghost use Rattle.tr_spot.specs.Spots.{size_of};
ghost use Rattle.tr_sketch.specs.Sketches.{IsSketch};

use std::alloc::Global;
use std::marker::Model;
use tr_base::{Env, Font, Kind, NoMemory, Point, Rect, Size, whole};
use tr_client::{Client, part_of_window};
use tr_exec::execute;
use tr_region::Region;
use tr_screen::Screen;
use tr_spot::{from_corner, size_of};
use tr_surface::pixels_at;

/// The longest side of a screen.
const LONGEST_SIDE: u32 = 1024;

/// The picture of a content over a part of its window, for a font, the window's size and a kind of pixels.
/// Each pixel is the colour of its point in the content's picture.
#[derive(Drop)]
pub struct Sketch<C: Client> {
    content: C,
    font: Font,
    size: Size,
    kind: Kind,
    clip: Rect,
    pixels: Vec<u8>,
}

impl<C: Client> Model for Sketch<C> {
    ghost use Rattle.tr_sketch.specs.Sketches.{SketchView, IsSketch};

    ghost Value = { SketchView C };

    ghost view = { λ s. record {
      content = s.content;
      font = s.font;
      size = s.size;
      kind = s.kind;
      clip = s.clip;
      pixels = s.pixels.items;
    } };

    ghost invariant = { λ s. IsSketch C.Client (record {
      content = s.content;
      font = s.font;
      size = s.size;
      kind = s.kind;
      clip = s.clip;
      pixels = s.pixels.items;
    }) };
}

impl<C: Client> Sketch<C> {
    /// Paints the part of a content's picture that lies in a clip. A screen must have room for that part, as
    /// `fits_screen` tests. The sketch keeps the content; if memory runs out, the content is dropped.
    pub fn paint(
        alloc: Global,
        content: C,
        env: &Env,
        size: Size,
        clip: &Rect,
    ) -> Result<Sketch<C>, NoMemory>
        requires size { IsWindowSize size }
        requires room { IsScreenSize (size_of (meet_of (whole_of size) clip.now)) }
        ensures content { IfOk result (λ s. s.content ≡ content) }
        ensures font { IfOk result (λ s. s.font ≡ env.now.font.now) }
        ensures size { IfOk result (λ s. s.size ≡ size) }
        ensures kind { IfOk result (λ s. s.kind ≡ env.now.kind) }
        ensures clip { IfOk result (λ s. s.clip ≡ meet_of (whole_of size) clip.now) }
    {
        let part = part_of_window(size, clip);
        let Ok(font) = env.font.copy() else {
            drop(content);
            return Err(NoMemory);
        };
        let Ok(pixels) = painted(alloc, &content, env, size, &part) else {
            drop((content, font));
            return Err(NoMemory);
        };
        Ok(Sketch {
            content,
            font,
            size,
            kind: env.kind,
            clip: part,
            pixels,
        })
    }

    /// The part of the window that the pixels show.
    pub fn clip(&self) -> Rect
        ensures value { result ≡ self.now.clip }
        ensures invariant { IsSketch C.Client self.now }
    {
        self.clip
    }

    /// The pixels of that part, by rows.
    pub fn pixels(&self) -> &[u8]
        ensures { result.now ≡ self.now.pixels }
    {
        &self.pixels
    }
}

/// Whether the part of a window that lies in a clip has points, and a screen has room for it.
pub fn fits_screen(size: Size, clip: &Rect) -> bool
    requires { IsWindowSize size }
    ensures { IsTrue result → IsScreenSize (size_of (meet_of (whole_of size) clip.now)) }
{
    let (wide, high) = part_of_window(size, clip).size();
    1 <= wide && wide <= LONGEST_SIDE && 1 <= high && high <= LONGEST_SIDE
}

/// The pixels of a part of a content's picture, by rows. They are painted on a screen of the part's size.
fn painted<C: Client>(
    alloc: Global,
    content: &C,
    env: &Env,
    size: Size,
    part: &Rect,
) -> Result<Vec<u8>, NoMemory>
    requires size { IsWindowSize size }
    requires near { IsNearRect part.now }
    requires room { IsScreenSize (size_of part.now) }
    requires within { (q : Point) → has_point part.now q ≡ true → has_point (whole_of size) q ≡ true }
    ensures many { IfOk result (λ v. length v.items ≡ area_of part.now) }
    ensures colours { let look = look_of env.now.kind env.now.font.now in IfOk result (λ v.
        (q : Point) → has_point part.now q ≡ true →
        slice_index v.items (place_within part.now q) ≡ C.pic look size content.now q) }
{
    part.invariant();
    let sides = size_of(part);
    // The window's corner, relative to that of the part.
    let origin = from_corner(part, Point { h: 0, v: 0 });
    let painting = content.paint(alloc, env, size, *part)?;
    let all = Region::of_rect(alloc, whole(sides))?;
    let Ok(mut screen) = Screen::blank(alloc, sides, env.kind) else {
        drop((painting, all));
        return Err(NoMemory);
    };
    let mut unknown = Region::empty(alloc);
    let executed = execute(
        alloc,
        &painting,
        env,
        origin,
        &all,
        &mut screen,
        &mut unknown,
    );
    drop((painting, unknown));
    let Ok(()) = executed else {
        drop((all, screen));
        return Err(NoMemory);
    };
    let pixels = pixels_at(&screen, &all);
    drop((all, screen));
    pixels
}
