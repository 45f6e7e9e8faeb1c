ghost use Rattle.std.specs.Prelude.{◌≡◌, ◌≢◌, ◌+◌, ◌<◌, ◌≤◌, ◌++◌, ◌∷◌, [], List, ℕ, length, take};
ghost use Rattle.std.specs.Prelude.{None, Some, IsSome, IsTrue, IfOk, IfErr, OnOk, OnErr, true, false};
ghost use Rattle.std.specs.Option.{option_copied};
ghost use Rattle.tr_screen.specs.Pictures.{Picture};
ghost use Rattle.tr_mirror.specs.Records.{IsBytes};
ghost use Rattle.tr_mirror.specs.Readings as spec;
ghost use Rattle.tr_mirror.specs.Readings.{reading_of, screens_shown, last_of, cut_between, fault_at_end, longest_stream, outcome_of};
ghost use Rattle.tr_mirror.specs.Changes.{Covers};

use crate::changes::Change;
use crate::faults::MirrorFault;
use crate::pixels::Pixels;
use crate::readers::Reader;
use std::alloc::Global;
use std::marker::Model;
use tr_base::NoMemory;

/// The greatest length of a stream, in bytes.
pub const LONGEST_STREAM: u64 = 75_497_472;

/// A reader of a stream. It has the screen at each cut.
#[derive(Debug, Drop)]
pub struct Mirror {
    reader: Reader,
}

impl Model for Mirror {
    ghost use Rattle.tr_mirror.specs.Readings.{Reading};
    ghost use Rattle.tr_mirror.specs.Automata.{IsReading};

    ghost Value = { Reading };

    ghost view = { λ m. m.reader };

    ghost invariant = { λ m. IsReading m.reader };
}

impl Mirror {
    /// A mirror that has read nothing. It takes all the memory that reading needs.
    #[tactic(auto, using(crate::proofs::RunLemmas::first_is))]
    pub fn new(alloc: Global) -> Result<Mirror, NoMemory>
        ensures { IfOk result (λ m. m ≡ reading_of []) }
    {
        Ok(Mirror {
            reader: Reader::new(alloc)?,
        })
    }

    /// Reads the next piece of a stream. After a fault each later call returns the same fault, and changes
    /// nothing.
    pub fn feed(&mut self, piece: &[u8]) -> Result<(), MirrorFault>
        // A stream has one reading, in any pieces: that of its records.
        ensures stream { (stream : List ℕ) → self.old ≡ reading_of stream →
            self.new ≡ reading_of (stream ++ piece.now) }
        ensures outcome { result ≡ outcome_of self.new.fault }
        ensures bound { self.new.fed + length self.new.begun ≤ longest_stream }
    {
        let mut rest = piece;
        while !rest.is_empty() && self.reader.fault().is_none() {
            rest = self.reader.take_front(rest);
        }
        match self.reader.fault() {
            None => Ok(()),
            Some(fault) => Err(fault),
        }
    }

    /// Reads the next piece of a stream up to the last byte of its first cut, or to its end if it has none,
    /// and returns the number of bytes that it read. A fault after a cut is an answer of the next call. After
    /// a fault each later call returns the same fault, and changes nothing.
    pub fn feed_to_cut(&mut self, piece: &[u8]) -> Result<usize, MirrorFault>
        ensures count { IfOk result (λ n. n ≤ length piece.now) }
        ensures some { 0 < length piece.now → IfOk result (λ n. 0 < n) }
        ensures stream { (stream : List ℕ) → self.old ≡ reading_of stream →
            IfOk result (λ n. self.new ≡ reading_of (stream ++ take n piece.now)) }
        ensures bound { self.new.fed + length self.new.begun ≤ longest_stream }
        ensures fine { OnOk result (self.new.fault ≡ None) }

        // The bytes that were read end one cut at most, and the reading stops for nothing else.
        ensures shows { (stream : List ℕ) → self.old ≡ reading_of stream → IfOk result (λ n.
            screens_shown (stream ++ take n piece.now)
            ≡ screens_shown stream ++ cut_between self.old.standing self.new.standing) }
        ensures stop { IfOk result (λ n. n < length piece.now →
            self.new.standing.cuts ≢ self.old.standing.cuts) }

        // It stops at the cut's last byte.
        ensures at_cut { OnOk result (self.new.standing.cuts ≢ self.old.standing.cuts →
            IsTrue (spec.is_between self.new) × IsSome self.new.standing.screen) }

        // A fault is that of the whole piece, and no cut comes before it that wasn't answered.
        ensures fault { IfErr result (λ fault. self.new.fault ≡ Some fault) }
        ensures err { OnErr result ((stream : List ℕ) → self.old ≡ reading_of stream →
            self.new ≡ reading_of (stream ++ piece.now)) }
        ensures none_lost { OnErr result (self.new.standing.cuts ≡ self.old.standing.cuts) }
    {
        let cuts = self.reader.replica().cuts();
        let mut rest = piece;
        while !rest.is_empty() && self.reader.goes_on(cuts) {
            rest = self.reader.take_front(rest);
        }
        match self.reader.fault() {
            None => Ok(piece.len() - rest.len()),
            Some(fault) => Err(fault),
        }
    }

    /// Whether the stream may end here: M4 if a record or a group isn't whole.
    pub fn end(&self) -> Result<(), MirrorFault>
        ensures { result ≡ outcome_of (fault_at_end self.now self.now.fault) }
    {
        self.reader.end()
    }

    /// Begins a new stream, and takes no memory for it.
    pub fn restart(&mut self)
        ensures { self.new ≡ reading_of [] }
    {
        self.reader.restart();
    }

    /// The length of all whole records that were read, in bytes.
    pub fn fed(&self) -> u64
        ensures { result ≡ self.now.fed }
    {
        self.reader.fed()
    }

    /// Whether the bytes so far end between two groups: no record has begun, and the last whole record was
    /// a Cut, or there was none.
    pub fn is_between(&self) -> bool
        ensures { result ≡ spec.is_between self.now }
    {
        self.reader.is_between()
    }

    /// The number of whole groups that were read.
    pub fn cuts(&self) -> u32
        ensures value { result ≡ self.now.standing.cuts }
        ensures stream { (stream : List ℕ) → self.now ≡ reading_of stream →
            result ≡ length (screens_shown stream) }
    {
        self.reader.replica().cuts()
    }

    /// The screen, if a Screen came: that of the last cut, changed by the whole records after the cut.
    pub fn screen(&self) -> Option<&Pixels>
        ensures value { option_copied result ≡ self.now.standing.screen }
        ensures stream { (stream : List ℕ) → self.now ≡ reading_of stream →
            IsTrue (spec.is_between self.now) → option_copied result ≡ last_of (screens_shown stream) }
    {
        self.reader.replica().screen()
    }

    /// The change by the last group that has begun, from the screen of the cut before it. It costs nothing:
    /// it is kept as records arrive.
    pub fn changed(&self) -> Change
        ensures value { result ≡ self.now.changed }

        // After a cut: outside of the change the screen is that of the cut before.
        ensures covers_cut { (stream : List ℕ) (screens : List Picture) (before now : Picture) →
            IsBytes stream → self.now ≡ reading_of stream → self.now.standing.within ≡ false →
            screens_shown stream ≡ screens ++ before ∷ now ∷ [] → Covers result before now }

        // Within a group: outside of the change the screen is that of the last cut.
        ensures covers_part { (stream : List ℕ) (before now : Picture) →
            IsBytes stream → self.now ≡ reading_of stream → self.now.standing.within ≡ true →
            last_of (screens_shown stream) ≡ Some before → self.now.standing.screen ≡ Some now →
            Covers result before now }
    {
        self.reader.changed()
    }
}
