//! The end of a test in which a call fails.
ghost use Rattle.std.specs.Prelude.{◌≡◌, Ok};

use std::process::Abort;

/// What a call made. Where it failed, as for want of memory, the test ends.
pub fn made<T: Drop, E: Drop>(rt: &impl Abort, called: Result<T, E>) -> T
    ensures { called ≡ Ok result }
{
    match called {
        Ok(value) => value,
        Err(_) => panic!(rt; "a call failed"),
    }
}
