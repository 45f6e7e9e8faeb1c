ghost use Rattle.std.specs.Prelude.{◌≡◌, ◌<◌};
ghost use Rattle.tr_base.specs.Tiles as spec;

/// A pattern of 8 by 8 bits, row by row from north to south. The highest bit is the westmost pixel.
#[derive(Clone, Copy, Debug, PartialEq, Eq)]
pub struct Tile {
    pub rows: [u8; 8],
}

/// The bit at a point of the plane that repeats the tile in all directions: the bit in row `v` and
/// column `h`, each by its remainder by 8, which is never negative.
pub fn tile_bit(tile: &Tile, h: i32, v: i32) -> bool
    ensures { result ≡ spec.tile_bit tile.now h v }
{
    is_set(tile.rows[usize::from(place_of(v))], place_of(h))
}

/// The place of a coordinate in the tiles: its remainder by 8, which is never negative.
pub fn place_of(x: i32) -> u8
    ensures value { result ≡ spec.tile_index x }
    ensures range { result < 8 }
{
    x.rem_euclid(8) as u8
}

/// Whether the bit of a place is set: place 0 is the highest bit, the westmost pixel.
pub fn is_set(byte: u8, place: u8) -> bool
    requires { place < 8 }
    ensures { result ≡ spec.is_set byte place }
{
    (byte >> (7 - place)) % 2 == 1
}
