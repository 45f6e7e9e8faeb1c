ghost use Rattle.std.specs.Prelude.{◌<◌};

use std::alloc::Global;
use std::fmt;
use tr_base::{NoMemory, Rect};
use tr_region::Region;

/// The operands: two regions of a workload.
#[derive(Drop)]
pub struct Operands {
    pub workload: Workload,
    /// The number of rectangles that each region was made of.
    pub n: u16,
    pub a: Region,
    pub b: Region,
}

impl Operands {
    pub fn of(alloc: Global, workload: Workload, n: u16) -> Result<Operands, NoMemory> {
        let mut draws = Draws::new();
        let a = workload.region(alloc, &mut draws, n, 0)?;
        let b = workload.region(alloc, &mut draws, n, 3)?;
        Ok(Operands { workload, n, a, b })
    }
}

/// Numbers of a linear congruential generator with the multiplier 1664525 and the increment 1013904223.
/// Only the high half of each is used.
#[derive(Drop)]
struct Draws {
    state: u32,
}

impl Draws {
    fn new() -> Draws {
        Draws { state: 1 }
    }

    /// The next number, below `k`.
    fn draw(&mut self, k: u32) -> u32
        requires { 0 < k }
        ensures { result < k }
    {
        self.state = self
            .state
            .wrapping_mul(1_664_525)
            .wrapping_add(1_013_904_223);
        (self.state >> 16) % k
    }
}

/// The choice of a region's rectangles.
#[derive(Clone, Copy)]
pub enum Workload {
    /// Anywhere on a screen of 1024 by 1024, up to 64 each way.
    Random,
    /// One row high and 50 wide, each in the next row, 7 further east.
    Stairs,
}

impl Workload {
    /// The union of `n` rectangles, one after another.
    fn region(
        self,
        alloc: Global,
        draws: &mut Draws,
        n: u16,
        shift: u32,
    ) -> Result<Region, NoMemory>
        requires { shift < 1024 }
    {
        let mut all = Region::empty(alloc);
        for i in 0..n {
            let rect = self.rect(draws, u32::from(i), shift);
            all = all.union(&Region::of_rect(alloc, rect)?)?;
        }
        Ok(all)
    }

    fn rect(self, draws: &mut Draws, i: u32, shift: u32) -> Rect
        requires i { i < 65536 }
        requires shift { shift < 1024 }
    {
        match self {
            Workload::Random => {
                let west = draws.draw(960);
                let north = draws.draw(960);
                let wide = 1 + draws.draw(64);
                let high = 1 + draws.draw(64);
                rect_at(west, north, wide, high)
            }
            Workload::Stairs => rect_at((7 * i + shift) % 900, i, 50, 1),
        }
    }
}

/// The rectangle with this corner and these sides.
fn rect_at(west: u32, north: u32, wide: u32, high: u32) -> Rect
    requires west { west < 65536 }
    requires north { north < 65536 }
    requires wide { wide < 1024 }
    requires high { high < 1024 }
{
    let (east, south) = (west + wide, north + high);
    Rect::edges(west as i32, east as i32, north as i32, south as i32)
}

impl fmt::Display for Workload {
    fn fmt<W: fmt::Write>(&self, f: &mut fmt::Formatter<W>) -> fmt::Result {
        f.write_str(match self {
            Workload::Random => "random",
            Workload::Stairs => "stairs",
        })
    }
}
