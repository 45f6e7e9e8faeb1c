//! What the first bytes of a record say.
ghost use Rattle.std.specs.Prelude.{◌≡◌, ◌+◌, ◌≤◌, ◌<◌, ◌==◌, length};
ghost use Rattle.tr_mirror.specs.Headers as spec;
ghost use Rattle.tr_mirror_tests.specs.Heads.{segment, header};

/// Pixels side by side: `count` of them from `west` on in row `v`.
#[derive(Clone, Copy)]
pub struct Place {
    pub west: u16,
    pub v: u16,
    pub count: u16,
}

/// The bytes of a record before its pixels.
#[derive(Clone, Copy)]
pub enum Head {
    Screen(u16, u16, u8),
    Run(Place),
    Fill(Place),
    Cut(u32),
}

/// How many bytes a record's header has, by its first byte.
pub fn header_len(bytes: &[u8]) -> usize
    requires { 0 < length bytes.now }
    ensures { result ≡ spec.header_len bytes.now }
{
    match bytes[0] {
        1 => 6,
        2 | 3 => 7,
        _ => 5,
    }
}

#[tactic(auto, unfolding(tr_mirror::specs::Headers::short_at))]
fn short_at(bytes: &[u8], at: usize) -> u16
    requires { at + 1 < length bytes.now }
    ensures { result ≡ spec.short_at bytes.now at }
{
    u16::from_be_bytes([bytes[at], bytes[at + 1]])
}

#[tactic(auto, unfolding(tr_mirror::specs::Headers::long_at))]
fn long_at(bytes: &[u8], at: usize) -> u32
    requires { at + 3 < length bytes.now }
    ensures { result ≡ spec.long_at bytes.now at }
{
    u32::from_be_bytes([bytes[at], bytes[at + 1], bytes[at + 2], bytes[at + 3]])
}

fn place_behind(bytes: &[u8]) -> Place
    requires { 7 ≤ length bytes.now }
    ensures { segment result ≡ spec.segment_of bytes.now }
{
    Place {
        west: short_at(bytes, 1),
        v: short_at(bytes, 3),
        count: short_at(bytes, 5),
    }
}

/// The header at the front of a record's bytes.
#[tactic(auto, unfolding(tr_mirror::specs::Headers::header_of))]
pub fn head_of(bytes: &[u8]) -> Head
    requires some { 0 < length bytes.now }
    requires whole { spec.header_len bytes.now ≤ length bytes.now }
    ensures { header result ≡ spec.header_of bytes.now }
{
    match bytes[0] {
        1 => Head::Screen(short_at(bytes, 1), short_at(bytes, 3), bytes[5]),
        2 => Head::Run(place_behind(bytes)),
        3 => Head::Fill(place_behind(bytes)),
        _ => Head::Cut(long_at(bytes, 1)),
    }
}

/// How many bytes of pixels follow a header.
fn pixel_count(head: Head) -> usize
    ensures { result ≡ spec.pixel_count (header head) }
{
    match head {
        Head::Run(place) => usize::from(place.count),
        Head::Fill(_) => 1,
        Head::Screen(..) | Head::Cut(_) => 0,
    }
}

/// How many bytes the record has that begins with these.
pub fn record_len(bytes: &[u8]) -> usize
    requires some { 0 < length bytes.now }
    requires whole { spec.header_len bytes.now ≤ length bytes.now }
    ensures { result ≡ spec.record_len bytes.now }
{
    header_len(bytes) + pixel_count(head_of(bytes))
}
