//! Laws of streams. Each of these functions does nothing; its clause is the law.
ghost use Rattle.std.specs.Prelude.{◌≡◌, ◌≤◌, ◌↔◌, ◌++◌, List, ℕ, length, Some, IsSome, All};
ghost use Rattle.tr_screen.specs.Pictures.{Picture};
ghost use Rattle.tr_mirror.specs.declared.faults.MirrorFault.{MirrorFault};
ghost use Rattle.tr_mirror.specs.Standings.{most_groups};
ghost use Rattle.tr_mirror.specs.Records.{IsBytes, fault_in};
ghost use Rattle.tr_mirror.specs.Readings.{IsStream, first_fault, reading_of, screens_shown};
ghost use Rattle.tr_mirror.specs.Streams.{IsShowable, stream_of};
ghost use Rattle.tr_mirror.specs.Laws.{IsFaultOf, IsFirstFault, IsRowOfGroups};

/// The first fault of bytes is the one that the table of faults names.
pub fn faults_are_the_tables()
    ensures whole { (stream : List ℕ) (fault : MirrorFault) → IsBytes stream →
        (first_fault stream ≡ Some fault) ↔ IsFaultOf stream fault }

    // also while more may come
    ensures so_far { (stream : List ℕ) (fault : MirrorFault) → IsBytes stream →
        (fault_in stream ≡ Some fault) ↔ IsFirstFault stream fault }

    // After a fault more bytes change nothing: neither it nor the state after the records before it.
    ensures stays { (stream more : List ℕ) → IsSome (fault_in stream) →
        reading_of (stream ++ more) ≡ reading_of stream }
{}

/// A stream is a sequence of at most 64 groups, each from one screen to the next.
pub fn streams_are_groups()
    ensures { (stream : List ℕ) (screens : List Picture) → IsBytes stream →
        (IsStream stream × (screens_shown stream ≡ screens)) ↔ IsRowOfGroups stream screens }
{}

/// The stream of at most 64 screens has no fault, and a reader has these screens at its cuts.
pub fn shows_what_was_written()
    ensures { (screens : List Picture) → length screens ≤ most_groups → All IsShowable screens →
        IsStream (stream_of screens) × (screens_shown (stream_of screens) ≡ screens) }
{}
