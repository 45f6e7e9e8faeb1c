//! The words that speak to the session.
ghost use Rattle.std.specs.Prelude.{◌≡◌};
ghost use Rattle.tr_session.specs.Lines as spec;

/// The request of a line.
#[derive(Clone, Copy, Debug, PartialEq, Eq)]
pub(crate) enum Request {
    /// The script so far.
    Save,
    /// The group that leads from the last cut's screen to the present one.
    Cut,
    /// The end of the session.
    Quit,
    /// A line of a script.
    Script,
}

/// The request of a line.
pub(crate) fn request_of(line: &[u8]) -> Request
    ensures { result ≡ spec.request_of line.now }
{
    if line == b"!save".as_slice() {
        Request::Save
    } else if line == b"!cut".as_slice() {
        Request::Cut
    } else if line == b"!quit".as_slice() {
        Request::Quit
    } else {
        Request::Script
    }
}
