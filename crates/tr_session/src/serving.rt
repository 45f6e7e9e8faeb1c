//! A session over a source and a sink.
ghost use Rattle.std.specs.Prelude.{◌≡◌, ◌≤◌, [], Err, IfOk, OnOk, Contains, vec_capacity};
ghost use Rattle.tr_io.specs.Faults.{HasFault};
ghost use Rattle.tr_session.specs.declared.errors.Stopped.TheVariants as stopped;
ghost use Rattle.tr_session.specs.Calls.{HasServed, change_of_sink, change_of_source};
ghost use Rattle.tr_session.specs.Insides.{PartsAgree, session_view};
ghost use Rattle.tr_session.specs.Sessions.{no_session};
ghost use Rattle.tr_session.specs.Turns.{AnswersLine, HasRoomForAnswers, TakesOneTurn, waiting_room};

use crate::arrivals::Arrivals;
use crate::errors::Stopped;
use crate::gathering::{WAITING_ROOM, add_answer, flush, write_waiting};
use crate::replies::Reply;
use crate::sessions::Session;
use bumpalo::Bump;
use std::alloc::Global;
use tr_base::NoMemory;
use tr_io::{Sink, Source};

/// Answers the lines of a source, one after another, until `!quit` or the end of the input. The answers to
/// lines that came together are written together, before more is read. Bytes after the last line feed are no
/// line. It stops early if a read or a write fails, or for want of memory at the start, in the sink, or where
/// the lines before a line have to be taken again; elsewhere want of memory is an answer.
pub fn serve<S: Source, K: Sink>(alloc: Global, source: &mut S, sink: &mut K) -> Result<(), Stopped>
    ensures served { HasServed (change_of_source S.Source source.old source.new) result
        (change_of_sink K.Sink sink.old sink.new) }
    ensures read_fault { result ≡ Err stopped.Unread → HasFault (S.faults source.old) (S.faults source.new) }
    ensures write_fault { result ≡ Err stopped.Unwritten → HasFault (K.faults sink.old) (K.faults sink.new) }
    ensures rising { (S.faults source.old ≤ S.faults source.new) × (K.faults sink.old ≤ K.faults sink.new) }
{
    let arena = Bump::new(alloc);
    match start(alloc) {
        Ok((mut arrivals, mut reply, mut waiting)) => {
            let mut session = Session::new(alloc, &arena);
            let served = take_turns(
                &mut arrivals,
                &mut session,
                &mut reply,
                &mut waiting,
                source,
                sink,
            );
            drop(session);
            served
        }
        Err(NoMemory) => Err(Stopped::NoMemory),
    }
}

/// The bytes that have arrived, none yet, and the room for an answer and for those that wait.
fn start(alloc: Global) -> Result<(Arrivals, Reply, Vec<u8>), NoMemory>
    ensures { IfOk result (λ parts. (parts.0.begun ≡ []) × (parts.0.rest ≡ [])
        × (parts.2.items ≡ []) × (waiting_room ≤ vec_capacity parts.2)) }
{
    let arrivals = Arrivals::new(alloc)?;
    let reply = Reply::new(alloc)?;
    let waiting = Vec::with_capacity(alloc, WAITING_ROOM)?;
    Ok((arrivals, reply, waiting))
}

/// Takes one turn after another, until the session is over or stops, and writes the answers that wait then.
fn take_turns<S: Source, K: Sink>(
    arrivals: &mut Arrivals,
    session: &mut Session,
    reply: &mut Reply,
    waiting: &mut Vec<u8>,
    source: &mut S,
    sink: &mut K,
) -> Result<(), Stopped>
    requires begun { arrivals.old.begun ≡ [] }
    requires rest { arrivals.old.rest ≡ [] }
    requires empty { waiting.old.items ≡ [] }
    requires room { waiting_room ≤ vec_capacity waiting.old }
    requires view { session_view session.old ≡ no_session }
    requires holds { PartsAgree session.old }
    ensures served { HasServed (change_of_source S.Source source.old source.new) result
        (change_of_sink K.Sink sink.old sink.new) }
    ensures read_fault { result ≡ Err stopped.Unread → HasFault (S.faults source.old) (S.faults source.new) }
    ensures write_fault { result ≡ Err stopped.Unwritten → HasFault (K.faults sink.old) (K.faults sink.new) }
    ensures rising { (S.faults source.old ≤ S.faults source.new) × (K.faults sink.old ≤ K.faults sink.new) }
{
    sink.reserve(WAITING_ROOM)?;
    // Each loop has to end. This one takes longer than any process.
    for turns in 0..u64::MAX {
        match turn(arrivals, session, reply, waiting, source, sink) {
            Ok(goes_on) => {
                if !goes_on {
                    return write_waiting(waiting, sink);
                }
            }
            Err(e) => return Err(e),
        }
    }
    write_waiting(waiting, sink)
}

/// Answers a line that is whole, or else writes the answers that wait and reads once. So nothing is read
/// while a line or its answer waits. Returns whether the session goes on.
fn turn<S: Source, K: Sink>(
    arrivals: &mut Arrivals,
    session: &mut Session,
    reply: &mut Reply,
    waiting: &mut Vec<u8>,
    source: &mut S,
    sink: &mut K,
) -> Result<bool, Stopped>
    requires holds { PartsAgree session.old }
    requires room { HasRoomForAnswers waiting.old (K.room sink.old) }
    ensures holds { OnOk result (PartsAgree session.new) }
    ensures room { OnOk result (HasRoomForAnswers waiting.new (K.room sink.new)) }

    // If a line is whole, it is answered, and nothing is read.
    ensures prompt { Contains arrivals.old.rest 10 →
        (S.left source.new ≡ S.left source.old) × (S.faults source.new ≡ S.faults source.old) }
    ensures turned { TakesOneTurn (record {
      session = session_view session.old;
      arrivals = arrivals.old;
      waiting = waiting.old.items;
    })
        (change_of_source S.Source source.old source.new) result
        (change_of_sink K.Sink sink.old sink.new)
        (record {
          session = session_view session.new;
          arrivals = arrivals.new;
          waiting = waiting.new.items;
        }) }
    ensures unread { result ≡ Err stopped.Unread → HasFault (S.faults source.old) (S.faults source.new) }
    ensures unwritten { result ≡ Err stopped.Unwritten → HasFault (K.faults sink.old) (K.faults sink.new) }
    ensures rising { (S.faults source.old ≤ S.faults source.new) × (K.faults sink.old ≤ K.faults sink.new) }
{
    if arrivals.advance() {
        return answer_one(arrivals, session, reply, waiting, sink);
    }
    match flush(waiting, sink) {
        Ok(()) => {}
        Err(e) => return Err(e),
    }
    match arrivals.read(source) {
        Ok(came) => Ok(came),
        Err(_) => Err(Stopped::Unread),
    }
}

/// Answers the line that is whole. Returns whether the session goes on. If it is lost, the answers that wait
/// are written before it stops.
fn answer_one<K: Sink>(
    arrivals: &mut Arrivals,
    session: &mut Session,
    reply: &mut Reply,
    waiting: &mut Vec<u8>,
    sink: &mut K,
) -> Result<bool, Stopped>
    requires holds { PartsAgree session.old }
    requires room { HasRoomForAnswers waiting.old (K.room sink.old) }
    ensures holds { OnOk result (PartsAgree session.new) }
    ensures room { OnOk result (HasRoomForAnswers waiting.new (K.room sink.new)) }
    ensures answered { AnswersLine (session_view session.old) arrivals.old.begun waiting.old.items result
        (change_of_sink K.Sink sink.old sink.new) (session_view session.new) waiting.new.items }
    ensures arrivals { OnOk result (arrivals.new ≡ record arrivals.old { begun = [] }) }
    ensures unwritten { result ≡ Err stopped.Unwritten → HasFault (K.faults sink.old) (K.faults sink.new) }
    ensures rising { K.faults sink.old ≤ K.faults sink.new }
{
    match session.answer(arrivals.line(), reply) {
        Ok(ends) => {
            arrivals.forget_line();
            match add_answer(waiting, reply, sink) {
                Ok(()) => Ok(!ends),
                Err(e) => Err(e),
            }
        }
        Err(_) => match write_waiting(waiting, sink) {
            Ok(()) => Err(Stopped::NoMemory),
            Err(e) => Err(e),
        },
    }
}
