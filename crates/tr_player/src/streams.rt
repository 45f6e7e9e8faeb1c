ghost use Rattle.std.specs.Prelude.{◌≡◌, ◌+◌, ◌<◌, ◌≤◌, length, vec_len, [], Err, IfOk, IfSome, OnOk};
ghost use Rattle.tr_io.specs.Faults.{HasFault};
ghost use Rattle.std.specs.Io.KnownBytes.{prepend_known};
ghost use Rattle.tr_io.specs.Streams.{Fell, Grew, GrewByPrefix, IsReadUpTo, OfFirst};

use crate::errors::ReadError;
use std::alloc::Global;
use tr_io::{Sink, Source};
use tr_output::{WriteRefused, write_all};

/// The number of bytes in one read.
const PIECE: usize = 64 * 1024;

/// The remaining bytes of a source, or the first `most` of them.
pub fn read_all<S: Source>(alloc: Global, source: &mut S, most: usize) -> Result<Vec<u8>, ReadError>
    ensures bytes { IfOk result (λ v. OfFirst most (S.left source.old) (λ bytes. v.items ≡ bytes)) }
    ensures through { OnOk result (IsReadUpTo most (S.left source.old) (S.left source.new)) }
    ensures failed { result ≡ Err ReadError.Failed → HasFault (S.faults source.old) (S.faults source.new) }
    ensures rising { S.faults source.old ≤ S.faults source.new }
{
    let mut piece = vec![in alloc; 0u8; PIECE]?;
    let bytes = read_up_to(alloc, source, &mut piece, most)?;
    Ok(bytes)
}

/// The remaining bytes of a source, or the first `most` of them. They come by way of `piece`.
fn read_up_to<S: Source>(
    alloc: Global,
    source: &mut S,
    piece: &mut [u8],
    most: usize,
) -> Result<Vec<u8>, ReadError>
    requires { 0 < length piece.old }
    ensures taken { IfOk result (λ v. Fell (S.left source.old) (S.left source.new) v.items) }
    ensures most { IfOk result (λ v. vec_len v ≤ most) }
    ensures end { IfOk result (λ v. vec_len v < most → IfSome (S.left source.new) (λ rest. rest ≡ [])) }
    ensures failed { result ≡ Err ReadError.Failed → HasFault (S.faults source.old) (S.faults source.new) }
    ensures rising { S.faults source.old ≤ S.faults source.new }
{
    let mut bytes = Vec::new(alloc);
    while bytes.len() < most {
        let room = piece.len().min(most - bytes.len());
        if append_piece(source, &mut piece[..room], &mut bytes)? == 0 {
            return Ok(bytes);
        }
    }
    Ok(bytes)
}

/// Reads once, and appends the bytes that came. 0 means that no more is left.
fn append_piece<S: Source>(
    source: &mut S,
    piece: &mut [u8],
    bytes: &mut Vec<u8>,
) -> Result<usize, ReadError>
    requires { 0 < length piece.old }
    ensures count { IfOk result (λ n. (vec_len bytes.new ≡ vec_len bytes.old + n) × (n ≤ length piece.old)) }
    // The bytes read and the remaining ones are together the same as before.
    ensures whole { OnOk result (prepend_known bytes.new.items (S.left source.new)
        ≡ prepend_known bytes.old.items (S.left source.old)) }
    ensures end { IfOk result (λ n. n ≡ 0 → IfSome (S.left source.new) (λ rest. rest ≡ [])) }
    ensures failed { result ≡ Err ReadError.Failed → HasFault (S.faults source.old) (S.faults source.new) }
    ensures rising { S.faults source.old ≤ S.faults source.new }
{
    let count = source.read(piece)?;
    bytes.extend_from_slice(&piece[..count])?;
    Ok(count)
}

/// Writes a short text; all its memory is taken first.
pub fn write_at_once<K: Sink>(sink: &mut K, text: &[u8]) -> Result<(), WriteRefused>
    ensures ok { OnOk result (Grew (K.written sink.old) (K.written sink.new) text.now) }
    ensures no_memory { result ≡ Err WriteRefused.NoMemory → K.written sink.new ≡ K.written sink.old }
    ensures failed { result ≡ Err WriteRefused.Failed →
        HasFault (K.faults sink.old) (K.faults sink.new)
        × GrewByPrefix (K.written sink.old) (K.written sink.new) text.now }
    ensures rising { K.faults sink.old ≤ K.faults sink.new }
{
    sink.reserve(text.len())?;
    write_all(sink, text)?;
    Ok(())
}
