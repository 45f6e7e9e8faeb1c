//! Answers that wait to be written together.
ghost use Rattle.std.specs.Prelude.{◌≡◌, ◌≢◌, ◌≤◌, ◌+◌, [], Err, OnOk, length, vec_capacity};
ghost use Rattle.tr_io.specs.Faults.{HasFault};
ghost use Rattle.tr_session.specs.declared.errors.Stopped.TheVariants as stopped;
ghost use Rattle.tr_session.specs.Calls.{change_of_sink};
ghost use Rattle.tr_session.specs.Turns.{AddsAnswer, Flushes, HasRoomForAnswers, Writes, waiting_room};

use crate::errors::Stopped;
use crate::replies::Reply;
use tr_io::Sink;
use tr_output::write_all;

/// The room for answers that wait. The sink has as much, so that they can be written whatever happens.
pub(crate) const WAITING_ROOM: usize = 64 * 1024;

/// Adds an answer to those that wait. If there is no room for it, they are written, and then it is written.
pub(crate) fn add_answer<K: Sink>(
    waiting: &mut Vec<u8>,
    reply: &Reply,
    sink: &mut K,
) -> Result<(), Stopped>
    requires { HasRoomForAnswers waiting.old (K.room sink.old) }
    ensures room { OnOk result (HasRoomForAnswers waiting.new (K.room sink.new)) }
    ensures added { AddsAnswer waiting.old.items reply.now result
        (change_of_sink K.Sink sink.old sink.new) waiting.new.items }
    ensures unwritten { result ≡ Err stopped.Unwritten → HasFault (K.faults sink.old) (K.faults sink.new) }
    ensures rising { K.faults sink.old ≤ K.faults sink.new }
{
    let (head, body) = reply.pieces();
    if head.len() + body.len() <= WAITING_ROOM - waiting.len() {
        waiting.extend_from_slice(head).unwrap();
        waiting.extend_from_slice(body).unwrap();
        return Ok(());
    }
    match write_waiting(waiting, sink) {
        Ok(()) => write_reply(reply, sink),
        Err(e) => Err(e),
    }
}

/// Writes the answers that wait, and makes room for others.
pub(crate) fn flush<K: Sink>(waiting: &mut Vec<u8>, sink: &mut K) -> Result<(), Stopped>
    requires { HasRoomForAnswers waiting.old (K.room sink.old) }
    ensures room { OnOk result (HasRoomForAnswers waiting.new (K.room sink.new)) }
    ensures written { Flushes waiting.old.items result (change_of_sink K.Sink sink.old sink.new) }
    ensures empty { OnOk result (waiting.new.items ≡ []) }
    ensures unwritten { result ≡ Err stopped.Unwritten → HasFault (K.faults sink.old) (K.faults sink.new) }
    ensures rising { K.faults sink.old ≤ K.faults sink.new }
{
    match write_waiting(waiting, sink) {
        Ok(()) => match sink.reserve(WAITING_ROOM) {
            Ok(()) => Ok(()),
            Err(_) => Err(Stopped::NoMemory),
        },
        Err(e) => Err(e),
    }
}

/// Writes the answers that wait.
pub(crate) fn write_waiting<K: Sink>(waiting: &mut Vec<u8>, sink: &mut K) -> Result<(), Stopped>
    requires { HasRoomForAnswers waiting.old (K.room sink.old) }
    ensures room { waiting_room ≤ vec_capacity waiting.new }
    ensures written { Writes waiting.old.items result (change_of_sink K.Sink sink.old sink.new) }
    ensures empty { OnOk result (waiting.new.items ≡ []) }
    ensures memory { result ≢ Err stopped.NoMemory }
    ensures unwritten { result ≡ Err stopped.Unwritten → HasFault (K.faults sink.old) (K.faults sink.new) }
    ensures rising { K.faults sink.old ≤ K.faults sink.new }
{
    match write_piece(waiting, sink) {
        Ok(()) => {
            waiting.clear();
            Ok(())
        }
        Err(e) => Err(e),
    }
}

/// Writes a whole answer. There is room for all of it before any of it is written, and for others after it.
fn write_reply<K: Sink>(reply: &Reply, sink: &mut K) -> Result<(), Stopped>
    ensures room { OnOk result (waiting_room ≤ K.room sink.new) }
    ensures written { Writes reply.now result (change_of_sink K.Sink sink.old sink.new) }
    ensures unwritten { result ≡ Err stopped.Unwritten → HasFault (K.faults sink.old) (K.faults sink.new) }
    ensures rising { K.faults sink.old ≤ K.faults sink.new }
{
    let (head, body) = reply.pieces();
    let Some(room) = (head.len() + body.len()).checked_add(WAITING_ROOM) else {
        return Err(Stopped::NoMemory);
    };
    sink.reserve(room)?;
    match write_piece(head, sink) {
        Ok(()) => write_piece(body, sink),
        Err(e) => Err(e),
    }
}

/// Writes a piece, for which there is room.
fn write_piece<K: Sink>(piece: &[u8], sink: &mut K) -> Result<(), Stopped>
    requires { length piece.now ≤ K.room sink.old }
    ensures written { Writes piece.now result (change_of_sink K.Sink sink.old sink.new) }
    ensures room { OnOk result (K.room sink.old ≤ K.room sink.new + length piece.now) }
    ensures memory { result ≢ Err stopped.NoMemory }
    ensures unwritten { result ≡ Err stopped.Unwritten → HasFault (K.faults sink.old) (K.faults sink.new) }
    ensures rising { K.faults sink.old ≤ K.faults sink.new }
{
    match write_all(sink, piece) {
        Ok(()) => Ok(()),
        Err(_) => Err(Stopped::Unwritten),
    }
}
