ghost use Rattle.std.specs.Prelude.{◌≡◌, ◌<◌, ◌++◌, List, ℕ, None, length, IfOk, IfErr, OnOk};
ghost use Rattle.tr_mirror.specs.Readings.{first_fault, reading_of};
ghost use Rattle.tr_show.specs.Shows.{IsShowCause, shown_text};
ghost use Rattle.tr_show.specs.Passes.{IsLate, IsPass};

use crate::errors::ShowRefused;
use std::alloc::Global;
use tr_dump::dump;
use tr_mirror::{LONGEST_STREAM, Mirror, MirrorFault, StreamFault};
use tr_output::Output;

/// The dumps of the screens at the cuts of a stream.
pub fn show(alloc: Global, stream: &[u8]) -> Result<Output, ShowRefused>
    ensures valid { OnOk result (first_fault stream.now ≡ None) }
    ensures text { IfOk result (λ text. text ≡ shown_text stream.now) }
    ensures cause { IfErr result (λ e. IsShowCause (first_fault stream.now) e) }
{
    if stream.len() as u64 > LONGEST_STREAM {
        return Err(ShowRefused::Fault(MirrorFault {
            place: 0,
            fault: StreamFault::TooMany,
        }));
    }
    let mut mirror = Mirror::new(alloc)?;
    let mut text = Output::new(alloc);
    let mut rest = stream;
    while !rest.is_empty() {
        rest = show_to_cut(&mut mirror, rest, &mut text)?;
    }
    mirror.end()?;
    Ok(text)
}

/// Reads bytes up to their first cut, and appends the dump of its screen. Answers the remaining bytes.
fn show_to_cut<'a>(
    mirror: &mut Mirror,
    bytes: &'a [u8],
    text: &mut Output,
) -> Result<&'a [u8], ShowRefused>
    requires { 0 < length bytes.now }
    ensures pass { (stream : List ℕ) → mirror.old ≡ reading_of stream → IfOk result (λ rest.
        IsPass stream mirror.new bytes.now rest.now text.old text.new) }
    ensures cause { (stream : List ℕ) → mirror.old ≡ reading_of stream →
        IfErr result (λ e. IsLate (reading_of (stream ++ bytes.now)) e) }
{
    let cuts = mirror.cuts();
    let count = mirror.feed_to_cut(bytes)?;
    if mirror.cuts() != cuts {
        if let Some(screen) = mirror.screen() {
            dump(&screen.to_screen()?, text)?;
        }
    }
    Ok(&bytes[count..])
}
