//! Laws of sessions. Each of these functions does nothing; its clause is the law.
ghost use Rattle.std.specs.Prelude.{List, ℕ, Option};
ghost use Rattle.tr_base.specs.declared.Point.{Point};
ghost use Rattle.tr_screen.specs.Pictures.{Picture};
ghost use Rattle.tr_session.specs.Answers.{Answer, AreAnswered};
ghost use Rattle.tr_session.specs.Sessions.{SessionView, no_session};
ghost use Rattle.tr_session.specs.Laws.{CutsAreShown, IsFittedAsItIs, IsFittedToShow, IsRefusedBeyond, KeepsPixel, ReportsAll, ReportsOne, SavesAScript, WritesAsSerial, WritesCuts};

/// A text that a session saves is a script, if it is within the limits of scripts. Beyond them it is refused
/// with B7.
pub fn saves_a_script()
    ensures script { (s : SessionView) → SavesAScript s }
    ensures beyond { (s : SessionView) → IsRefusedBeyond s }
{}

/// `serial` writes for the saved script the reports that the session wrote.
pub fn reports_as_serial()
    ensures one { (s : SessionView) (line : List ℕ) (screen : Option Picture) → ReportsOne s line screen }
    ensures all { (s : SessionView) → ReportsAll s }
    ensures written { (lines : List (List ℕ)) (answers : List Answer) (last : SessionView) →
        WritesAsSerial lines answers last }
{}

/// The cuts of screens that a stream can show are streams of 64 groups, the last perhaps of fewer. Readers of
/// the streams have the screens. So it is with the cuts that a session wrote.
pub fn cuts_are_shown()
    ensures shown { (screens : List Picture) → CutsAreShown screens }
    ensures written { (lines : List (List ℕ)) (answers : List Answer) (last : SessionView)
        (all : AreAnswered no_session lines answers last) → WritesCuts lines answers last all }
{}

/// A stream can show the screen of each cut. A point keeps its pixel, if that is a value of the kind; so the
/// cut has the session's screen, if all of its pixels are.
pub fn screens_are_fitted()
    ensures shown { (p : Picture) → IsFittedToShow p }
    ensures points { (p : Picture) (at : Point) → KeepsPixel p at }
    ensures same { (p : Picture) → IsFittedAsItIs p }
{}
