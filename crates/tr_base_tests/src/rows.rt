//! The rows and bands of regions.
ghost use Rattle.std.specs.Prelude.{◌≤◌};

use super::ends::made;
use super::regions::region_of;
use std::process::Abort;
use tr_base::Rect;
use tr_region::{Band, Region};

/// Two rectangles side by side in rows 2 to 4, and one in rows 6 to 9.
fn three(rt: &(impl Abort + AllocGlobal)) -> Region {
    let west = region_of(rt, Rect::edges(0, 2, 2, 5));
    let east = region_of(rt, Rect::edges(4, 6, 2, 5));
    let south = region_of(rt, Rect::edges(1, 9, 6, 10));
    made(rt, made(rt, west.union(&east)).union(&south))
}

/// Whether a band has these rows, and so many rectangles.
fn is_band(band: &Band, want: (u16, u16, usize)) -> bool {
    band.north == want.0 && band.south == want.1 && band.rects.len() == want.2
}

#[test]
fn rows_have_their_rectangles(rt: HostRuntime) {
    let region = three(&rt);
    for (v, count) in [
        (-1, 0),
        (1, 0),
        (2, 2),
        (4, 2),
        (5, 0),
        (6, 1),
        (9, 1),
        (10, 0),
    ] {
        assert!(rt; region.row(v).len() == count, "row {v}");
    }
}

/// Whether the first band in some rows and the last one are these.
fn are_bands(region: &Region, north: u16, south: u16, want: [(u16, u16, usize); 2]) -> bool
    requires { north ≤ south }
{
    is_band(&region.first_band(north, south), want[0])
        && is_band(&region.last_band(north, south), want[1])
}

/// Whether no band is met behind all rectangles, nor before all of them.
fn are_none_beyond(region: &Region) -> bool {
    is_band(&region.first_band(12, 20), (20, 20, 0)) && is_band(&region.last_band(0, 2), (0, 0, 0))
}

#[test]
fn bands_are_met_from_both_ends(rt: HostRuntime) {
    let region = three(&rt);
    // the rows that are asked for, the first band in them, and the last one
    for (north, south, want) in [
        (0, 20, [(2, 5, 2), (6, 10, 1)]),
        (3, 4, [(3, 4, 2), (3, 4, 2)]),
        (4, 8, [(4, 5, 2), (6, 8, 1)]),
        (5, 7, [(6, 7, 1), (6, 7, 1)]),
    ] {
        assert!(rt;
            are_bands(&region, north, south, want),
            "{north} to {south}"
        );
    }
    assert!(rt; are_none_beyond(&region));
}
