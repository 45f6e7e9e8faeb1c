ghost use Rattle.std.specs.Prelude.{◌≡◌, ◌+◌, ◌≤◌, ◌<◌, ◌==◌, ◌++◌, ◌↔◌, [], length, drop, take, None};
ghost use Rattle.std.specs.Prelude.{IfOk, IfSome, OnSome, IsTrue};
ghost use Rattle.tr_mirror.specs.Standings.{header_fault};
ghost use Rattle.tr_mirror.specs.Headers.{header_len, header_of, record_len};
ghost use Rattle.tr_mirror.specs.Readings.{fault_at_end, is_between, outcome_of};
ghost use Rattle.tr_mirror.specs.Automata as spec;
ghost use Rattle.tr_mirror.specs.Automata.{IsBounded, IsReading, at_first, change_before, failed, record_taken, tried, after_bytes};
ghost use Rattle.tr_mirror.specs.Changes.{change_with};
ghost use Rattle.tr_mirror.specs.Pieces.{TakesFront, IsFaultless};

use crate::begun::Begun;
use crate::changes::Change;
use crate::faults::{MirrorFault, StreamFault};
use crate::headers::{Header, header_len, header_of, pixel_count};
use crate::replicas::Replica;
use std::alloc::Global;
use std::marker::Model;
use tr_base::NoMemory;

/// The state of a reader of a stream.
#[derive(Debug, Drop)]
pub struct Reader {
    replica: Replica,
    // the change by the records of the last group
    changed: Change,
    begun: Begun,
    fed: u64,
    fault: Option<MirrorFault>,
}

impl Model for Reader {
    ghost use Rattle.tr_mirror.specs.Readings.{Reading};

    ghost Value = { Reading };

    ghost view = { λ r. record {
      standing = r.replica;
      changed = r.changed;
      begun = r.begun;
      fed = r.fed;
      fault = r.fault;
    } };
}

/// The length of the record that begins with these bytes.
fn record_len(bytes: &[u8]) -> usize
    requires some { 0 < length bytes.now }
    requires whole { header_len bytes.now ≤ length bytes.now }
    ensures { result ≡ record_len bytes.now }
{
    header_len(bytes) + pixel_count(header_of(bytes))
}

/// The number of bytes of a record at which the next faults are tested, if these bytes have come.
fn try_len(bytes: &[u8]) -> usize
    ensures { result ≡ spec.try_len bytes.now }
{
    if bytes.is_empty() {
        1
    } else if bytes.len() < header_len(bytes) {
        header_len(bytes)
    } else {
        record_len(bytes)
    }
}

/// Whether these bytes are a whole record.
fn is_whole(bytes: &[u8]) -> bool
    requires { 0 < length bytes.now }
    ensures { result ≡ (length bytes.now == record_len bytes.now) }
{
    header_len(bytes) <= bytes.len() && bytes.len() == record_len(bytes)
}

/// The fault that the newest byte of a record shows.
#[tactic(auto, unfolding(crate::specs::Automata::record_fault))]
fn fault_of(replica: &Replica, bytes: &[u8]) -> Option<StreamFault>
    requires { 0 < length bytes.now }
    ensures { result ≡ spec.record_fault replica.now bytes.now }
{
    let header = header_len(bytes);
    if bytes.len() == 1 {
        if (1..=4).contains(&bytes[0]) {
            None
        } else {
            Some(StreamFault::Unknown)
        }
    } else if bytes.len() == header {
        replica.header_fault(header_of(bytes))
    } else if is_whole(bytes) {
        replica.pixel_fault(&bytes[header..])
    } else {
        None
    }
}

/// The length of the record at the front of a piece, if it is whole.
fn whole_len(piece: &[u8]) -> Option<usize>
    requires { 0 < length piece.now }
    ensures within { IfSome result (λ n. n ≤ length piece.now) }
    ensures whole { IfSome result (λ n. n ≡ record_len (take n piece.now)) }
{
    if piece.len() < header_len(piece) {
        return None;
    }
    let len = record_len(piece);
    if piece.len() < len {
        return None;
    }
    Some(len)
}

/// Whether a whole record has no fault.
fn is_faultless(replica: &Replica, bytes: &[u8]) -> bool
    requires { length bytes.now ≡ record_len bytes.now }
    ensures { IsTrue result → IsFaultless replica.now bytes.now }
{
    (1..=4).contains(&bytes[0])
        && replica.header_fault(header_of(bytes)).is_none()
        && replica.pixel_fault(&bytes[header_len(bytes)..]).is_none()
}

impl Reader {
    /// A reader that has read no bytes. It takes all the memory that reading needs.
    pub fn new(alloc: Global) -> Result<Reader, NoMemory>
        ensures { IfOk result (λ r. r ≡ at_first) }
    {
        Ok(Reader {
            replica: Replica::new(alloc)?,
            changed: Change::Nothing,
            begun: Begun::new(alloc)?,
            fed: 0,
            fault: None,
        })
    }

    pub fn replica(&self) -> &Replica
        ensures { result.now ≡ self.now.standing }
    {
        &self.replica
    }

    pub fn fed(&self) -> u64
        ensures { result ≡ self.now.fed }
    {
        self.fed
    }

    pub fn fault(&self) -> Option<MirrorFault>
        ensures { result ≡ self.now.fault }
    {
        self.fault
    }

    pub fn changed(&self) -> Change
        ensures { result ≡ self.now.changed }
    {
        self.changed
    }

    /// Whether the stream may end here: M4 if a record or a group isn't whole.
    pub fn end(&self) -> Result<(), MirrorFault>
        ensures { result ≡ outcome_of (fault_at_end self.now self.now.fault) }
    {
        if let Some(fault) = self.fault {
            return Err(fault);
        }
        if self.is_between() {
            return Ok(());
        }
        let place = self.fed;
        Err(MirrorFault {
            place,
            fault: StreamFault::Unfinished,
        })
    }

    /// Begins anew, and takes no memory for it.
    pub fn restart(&mut self)
        ensures { self.new ≡ at_first }
    {
        self.replica.restart();
        self.changed = Change::Nothing;
        self.begun.clear();
        self.fed = 0;
        self.fault = None;
    }

    /// Whether no record has begun, and the last whole record was a Cut, or there was none.
    pub fn is_between(&self) -> bool
        ensures { result ≡ is_between self.now }
    {
        !self.replica.is_within() && self.begun.as_slice().is_empty()
    }

    /// Whether there was no fault, and this is the number of cuts.
    pub fn goes_on(&self, cuts: u32) -> bool
        ensures { IsTrue result ↔ ((self.now.fault ≡ None) × (self.now.standing.cuts ≡ cuts)) }
    {
        self.fault.is_none() && self.replica.cuts() == cuts
    }

    /// Takes bytes from the front of a piece, and returns the rest. If no record has begun and the piece
    /// begins with a whole record without a fault, it takes this record, so that its pixels are copied
    /// once. Else it takes the bytes up to the next place where a fault can show.
    pub fn take_front<'a>(&mut self, piece: &'a [u8]) -> &'a [u8]
        requires some { 0 < length piece.now }
        requires free { self.old.fault ≡ None }
        requires reading { IsReading self.old }
        ensures read { after_bytes self.new result.now ≡ after_bytes self.old piece.now }
        ensures front { TakesFront self.old self.new piece.now result.now }
        ensures shorter { length result.now < length piece.now }
        ensures reading { IsReading self.new }
    {
        match self.faultless_front(piece) {
            Some(len) => {
                let (record, rest) = piece.split_at(len);
                self.take_whole(record);
                rest
            }
            None => self.take_part(piece),
        }
    }

    /// The length of the record at the front of a piece, if no record has begun, and this one is whole and
    /// has no fault.
    fn faultless_front(&self, piece: &[u8]) -> Option<usize>
        requires { 0 < length piece.now }
        ensures within { IfSome result (λ n. n ≤ length piece.now) }
        ensures begun { OnSome result (self.now.begun ≡ []) }
        ensures fine { IfSome result (λ n. IsFaultless self.now.standing (take n piece.now)) }
    {
        if !self.begun.as_slice().is_empty() {
            return None;
        }
        let len = whole_len(piece)?;
        is_faultless(&self.replica, &piece[..len]).then_some(len)
    }

    /// Applies a whole record, all in one piece.
    fn take_whole(&mut self, whole: &[u8])
        requires begun { self.old.begun ≡ [] }
        requires bounded { IsBounded self.old.standing self.old.fed }
        requires fine { IsFaultless self.old.standing whole.now }
        ensures { self.new ≡ record_taken self.old whole.now }
    {
        let header = header_of(whole);
        self.note(header);
        self.replica.put(header, &whole[header_len(whole)..]);
        self.fed += whole.len() as u64;
    }

    /// Takes bytes from the front of a piece, up to the next place where faults are tested. It returns
    /// the rest of the piece.
    fn take_part<'a>(&mut self, piece: &'a [u8]) -> &'a [u8]
        requires some { 0 < length piece.now }
        requires free { self.old.fault ≡ None }
        requires reading { IsReading self.old }
        ensures read { after_bytes self.new result.now ≡ after_bytes self.old piece.now }
        ensures front { TakesFront self.old self.new piece.now result.now }
        ensures shorter { length result.now < length piece.now }
        ensures reading { IsReading self.new }
    {
        let begun = self.begun.as_slice();
        let wanted = try_len(begun) - begun.len();
        let (front, rest) = piece.split_at(wanted.min(piece.len()));
        self.gather(front);
        rest
    }

    /// Adds bytes to the record that has begun, and tests it.
    #[tactic(auto, unfolding(crate::specs::Automata::tried))]
    fn gather(&mut self, front: &[u8])
        requires some { 0 < length front.now }
        requires reach { length self.old.begun + length front.now ≤ spec.try_len self.old.begun }
        requires reading { IsReading self.old }
        ensures { self.new ≡ tried self.old (self.old.begun ++ front.now) }
    {
        self.begun.push_all(front);
        match fault_of(&self.replica, self.begun.as_slice()) {
            Some(fault) => self.fail(fault),
            None => {
                if is_whole(self.begun.as_slice()) {
                    self.take_record();
                }
            }
        }
    }

    fn fail(&mut self, fault: StreamFault)
        ensures { self.new ≡ failed self.old fault }
    {
        self.begun.clear();
        self.fault = Some(MirrorFault {
            place: self.fed,
            fault,
        });
    }

    /// Adds the change by the next record. A record after a Cut begins with no change.
    fn note(&mut self, header: Header)
        requires bounded { IsBounded self.old.standing self.old.fed }
        requires sound { header_fault self.old.standing header ≡ None }
        ensures { self.new ≡ record {
          standing = self.old.standing;
          changed = change_with header (change_before self.old.standing self.old.changed);
          begun = self.old.begun;
          fed = self.old.fed;
          fault = self.old.fault;
        } }
    {
        let before = self.changed.so_far(self.replica.is_within());
        self.changed = before.with(header);
    }

    /// Applies the record that has begun and is whole.
    fn take_record(&mut self)
        requires some { 0 < length self.old.begun }
        requires whole { length self.old.begun ≡ record_len self.old.begun }
        requires sound { header_fault self.old.standing (header_of self.old.begun) ≡ None }
        requires bounded { IsBounded self.old.standing self.old.fed }
        ensures { self.new ≡ record_taken self.old self.old.begun }
    {
        let header = header_of(self.begun.as_slice());
        self.note(header);
        let bytes = self.begun.as_slice();
        self.replica.put(header, &bytes[header_len(bytes)..]);
        self.fed += bytes.len() as u64;
        self.begun.clear();
    }
}
