//! A stream of updates, read by a mirror in pieces, and plainly, record by record.
ghost use Rattle.std.specs.Prelude.{◌<◌};

use crate::ends::made;
use crate::plain_readings::{PlainReading, read_plainly};
use std::process::Abort;
use tr_base::{Kind, Size};
use tr_mirror::{Bounds, Change, Mirror, MirrorFault, Writer, has_its_pixels};
use tr_screen::Screen;

/// A screen 3 wide and 2 high of 16 colours, of which a Run sets two pixels and a Fill a row; then the second
/// row changes, then the kind and the size.
const STREAM: [u8; 60] = [
    1, 0, 3, 0, 2, 2, 2, 0, 1, 0, 0, 0, 2, 5, 4, 3, 0, 0, 0, 1, 0, 3, 15, 4, 0, 0, 0, 1, 3, 0, 0,
    0, 1, 0, 2, 7, 4, 0, 0, 0, 2, 1, 0, 1, 0, 1, 0, 3, 0, 0, 0, 0, 0, 1, 1, 4, 0, 0, 0, 3,
];

/// Feeds a stream in pieces of `step` bytes, up to its first fault.
fn feed_all(mirror: &mut Mirror, stream: &[u8], step: usize) -> Option<MirrorFault>
    requires step { 0 < step }
{
    let mut rest = stream;
    while !rest.is_empty() {
        let (piece, behind) = rest.split_at(step.min(rest.len()));
        if let Err(fault) = mirror.feed(piece) {
            return Some(fault);
        }
        rest = behind;
    }
    None
}

/// Whether a mirror reads a stream in such pieces as it is read plainly.
fn is_read(rt: &(impl Abort + AllocGlobal), stream: &[u8], step: usize) -> bool {
    if step == 0 || stream.len() > 1_000 {
        return false;
    }
    let mut mirror = made(rt, Mirror::new(rt.alloc()));
    let fault = feed_all(&mut mirror, stream, step);
    let plain = made(rt, read_plainly(rt.alloc(), stream));
    fault == plain.fault && has_read(rt, &mirror, &plain)
}

/// Whether a mirror has read as much as was read plainly, and stands where that does.
fn has_read(rt: &impl Abort, mirror: &Mirror, plain: &PlainReading) -> bool {
    let is_between = !plain.standing.is_within() && plain.begun.is_empty();
    mirror.fed() == plain.fed
        && mirror.cuts() == plain.standing.cuts()
        && mirror.is_between() == is_between
        && has_screen(rt, mirror, plain.standing.screen())
}

/// Whether a mirror has this screen, or none.
fn has_screen(rt: &impl Abort, mirror: &Mirror, wanted: Option<&Screen>) -> bool {
    match (mirror.screen(), wanted) {
        (None, None) => true,
        (Some(screen), Some(wanted)) => are_alike(&made(rt, screen.to_screen()), wanted),
        _ => false,
    }
}

/// Whether two screens have one size, one kind and the same pixels.
fn are_alike(a: &Screen, b: &Screen) -> bool {
    let (p, q) = (a.size(), b.size());
    if p.wide != q.wide || p.high != q.high || a.kind() != b.kind() {
        return false;
    }
    for v in 0..p.high {
        if v >= q.high || a.row(v) != b.row(v) {
            return false;
        }
    }
    true
}

/// Whether a stream is read in pieces of any size, wherever it ends.
fn is_read_to_each_place(rt: &(impl Abort + AllocGlobal), stream: &[u8]) -> bool {
    for end in 0..stream.len() {
        let (front, _) = stream.split_at(end);
        for step in [1, 2, 3, 7, 1_000] {
            if !is_read(rt, front, step) {
                return false;
            }
        }
    }
    is_read(rt, stream, 1)
}

/// Whether a stream is read, whatever one of its bytes is.
fn is_read_with_each_byte(rt: &(impl Abort + AllocGlobal), stream: &[u8]) -> bool {
    let mut changed = made(rt, Vec::from_slice(rt.alloc(), stream));
    let mut is_well = true;
    for (place, byte) in stream.iter().enumerate() {
        is_well = is_well && is_read_with_any(rt, &mut changed, place);
        if let Some(it) = changed.get_mut(place) {
            *it = *byte;
        }
    }
    is_well
}

/// Whether a stream is read, whatever the byte at a place is. Another one is left there.
fn is_read_with_any(rt: &(impl Abort + AllocGlobal), stream: &mut [u8], place: usize) -> bool {
    for other in 0..=255 {
        if let Some(it) = stream.get_mut(place) {
            *it = other;
        }
        if !is_read(rt, stream, 4) {
            return false;
        }
    }
    true
}

/// Whether a mirror reads as much as so many cuts of a screen.
fn has_cuts(rt: &(impl Abort + AllocGlobal), cuts: u8) -> bool {
    let mut stream = made(rt, Vec::from_slice(rt.alloc(), &[1, 0, 1, 0, 1, 0]));
    for number in 1..=cuts {
        made(rt, stream.extend_from_slice(&[4, 0, 0, 0, number]));
    }
    is_read(rt, &stream, 7)
}

/// Whether a mirror tells these changes at the cuts of a stream, fed in pieces of `step` bytes.
fn tells(
    rt: &(impl Abort + AllocGlobal),
    mirror: &mut Mirror,
    step: usize,
    wanted: &[Change],
) -> bool {
    let mut told = Vec::new(rt.alloc());
    let mut rest: &[u8] = &STREAM;
    while !rest.is_empty() && step != 0 {
        let (piece, _) = rest.split_at(step.min(rest.len()));
        let cuts = mirror.cuts();
        let Ok(count) = mirror.feed_to_cut(piece) else {
            return false;
        };
        if mirror.cuts() != cuts {
            made(rt, told.push(mirror.changed()));
        }
        let (_, behind) = rest.split_at(count.min(rest.len()));
        rest = behind;
    }
    told.as_slice() == wanted && mirror.end().is_ok()
}

/// Whether a writer begins anew after 64 cuts, so that a mirror reads each of its streams.
fn goes_on(rt: &(impl Abort + AllocGlobal)) -> bool {
    let size = Size { wide: 2, high: 1 };
    let screen = made(rt, Screen::blank(rt.alloc(), size, Kind::Map8));
    let mut mirror = made(rt, Mirror::new(rt.alloc()));
    let mut writer = Writer::new();
    let mut group = Vec::new(rt.alloc());
    for _ in 0..100 {
        if writer.is_full() {
            if mirror.cuts() != 64 {
                return false;
            }
            writer.restart();
            mirror.restart();
        }
        group.clear();
        if !has_its_pixels(&screen) || writer.cuts() >= 64 {
            return false;
        }
        made(rt, writer.append(&screen, &mut group));
        if mirror.feed(&group).is_err() || mirror.end().is_err() {
            return false;
        }
    }
    mirror.cuts() == 36 && writer.cuts() == 36
}

#[test]
fn a_mirror_tells_what_a_cut_changes(rt: HostRuntime) {
    let row = Bounds {
        west: 0,
        east: 2,
        north: 1,
        south: 2,
    };
    let wanted = [Change::Screen, Change::Within(row), Change::Screen];
    let mut mirror = made(&rt, Mirror::new(rt.alloc()));
    for step in [1, 2, 3, 7, 1_000] {
        assert!(rt; tells(&rt, &mut mirror, step, &wanted), "changes");
        mirror.restart();
        assert!(rt;
            mirror.screen().is_none() && mirror.cuts() == 0,
            "begun anew"
        );
    }
}

#[test]
fn a_session_goes_on_after_64_cuts(rt: HostRuntime) {
    assert!(rt; goes_on(&rt), "100 cuts");
}

#[test]
fn a_stream_is_read_as_it_is_plainly(rt: HostRuntime) {
    assert!(rt; is_read_to_each_place(&rt, &STREAM), "cut");
    assert!(rt; is_read_with_each_byte(&rt, &STREAM), "changed");
    assert!(rt; has_cuts(&rt, 64) && has_cuts(&rt, 65), "cuts");
}
