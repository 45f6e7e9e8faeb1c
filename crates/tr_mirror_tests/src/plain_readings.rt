//! A stream of updates, read plainly: one record after the other, as the definition has it.
ghost use Rattle.std.specs.Prelude.{◌≡◌, ◌<◌, ◌≤◌, length, drop, true, None, nat_lt, nat_le, if◌then◌else◌, IfOk, OnOk};
ghost use Rattle.tr_mirror.specs.Headers.{header_len, header_of, record_len};
ghost use Rattle.tr_mirror.specs.Standings.{after_record, pixel_fault};
ghost use Rattle.tr_mirror.specs.Records as spec;
ghost use Rattle.tr_mirror.specs.Readings.{longest_stream, reading_of};

use crate::heads::{head_of, header_len, record_len};
use crate::plain_standings::PlainStanding;
use std::alloc::Global;
use tr_base::NoMemory;
use tr_mirror::{MirrorFault, StreamFault};

/// How far a stream is read.
#[derive(Drop)]
pub struct PlainReading {
    pub standing: PlainStanding,
    pub begun: Vec<u8>,
    pub fed: u64,
    pub fault: Option<MirrorFault>,
}

/// The reading of a stream. It is the definition.
pub fn read_plainly(alloc: Global, stream: &[u8]) -> Result<PlainReading, NoMemory>
    requires { length stream.now ≤ longest_stream }
    ensures standing { IfOk result (λ r. r.standing ≡ (reading_of stream.now).standing) }
    ensures begun { IfOk result (λ r. r.begun.items ≡ (reading_of stream.now).begun) }
    ensures fed { IfOk result (λ r. r.fed ≡ (reading_of stream.now).fed) }
    ensures fault { IfOk result (λ r. r.fault ≡ (reading_of stream.now).fault) }
{
    let mut standing = PlainStanding::new(alloc)?;
    let mut rest = stream;
    'records: while has_record(&standing, rest) {
        rest = take_record(alloc, &mut standing, rest)?;
    }
    let fed = (stream.len() - rest.len()) as u64;
    match front_fault(&standing, rest) {
        Some(fault) => Ok(PlainReading {
            standing,
            begun: Vec::new(alloc),
            fed,
            fault: Some(MirrorFault { place: fed, fault }),
        }),
        None => Ok(PlainReading {
            standing,
            begun: Vec::from_slice(alloc, rest)?,
            fed,
            fault: None,
        }),
    }
}

/// Does what the record at the front says, and answers the bytes behind it.
fn take_record<'a>(
    alloc: Global,
    standing: &mut PlainStanding,
    bytes: &'a [u8],
) -> Result<&'a [u8], NoMemory>
    requires { spec.has_record standing.old bytes.now ≡ true }
    ensures rest { IfOk result (λ rest. rest.now ≡ drop (record_len bytes.now) bytes.now) }
    ensures standing { OnOk result (standing.new
        ≡ after_record standing.old (header_of bytes.now) (spec.pixels_of bytes.now)) }
{
    let len = record_len(bytes);
    standing.put(alloc, head_of(bytes), &bytes[header_len(bytes)..len])?;
    Ok(&bytes[len..])
}

/// Whether the bytes begin with a whole record without a fault.
fn has_record(standing: &PlainStanding, bytes: &[u8]) -> bool
    ensures { result ≡ spec.has_record standing.now bytes.now }
{
    !bytes.is_empty() && is_whole(bytes) && front_fault(standing, bytes).is_none()
}

/// Whether all bytes of the record at the front have come.
fn is_whole(bytes: &[u8]) -> bool
    requires { 0 < length bytes.now }
    ensures { result ≡ nat_le (record_len bytes.now) (length bytes.now) }
{
    header_len(bytes) <= bytes.len() && record_len(bytes) <= bytes.len()
}

/// The fault of the record at the front, as far as its bytes show one.
#[tactic(auto, unfolding(tr_mirror::specs::Records::front_fault))]
fn front_fault(standing: &PlainStanding, bytes: &[u8]) -> Option<StreamFault>
    ensures { result ≡ spec.front_fault standing.now bytes.now }
{
    if bytes.is_empty() {
        return None;
    }
    if is_unknown(bytes) {
        return Some(StreamFault::Unknown);
    }
    if bytes.len() < header_len(bytes) {
        return None;
    }
    match standing.header_fault(head_of(bytes)) {
        Some(fault) => Some(fault),
        None => fault_of_pixels(standing, bytes),
    }
}

/// Whether the record has a first byte that no record has.
fn is_unknown(bytes: &[u8]) -> bool
    requires { 0 < length bytes.now }
    ensures { result ≡ spec.is_unknown bytes.now }
{
    bytes[0] < 1 || bytes[0] > 4
}

/// The fault that the pixels of the record at the front show, if all have come.
fn fault_of_pixels(standing: &PlainStanding, bytes: &[u8]) -> Option<StreamFault>
    requires some { 0 < length bytes.now }
    requires header { header_len bytes.now ≤ length bytes.now }
    ensures { result ≡ (if nat_lt (length bytes.now) (record_len bytes.now) then None
        else pixel_fault standing.now (spec.pixels_of bytes.now)) }
{
    let len = record_len(bytes);
    if bytes.len() < len {
        return None;
    }
    standing.pixel_fault(&bytes[header_len(bytes)..len])
}
