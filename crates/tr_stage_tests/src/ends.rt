//! Where a test ends that wants memory.
ghost use Rattle.std.specs.Prelude.{◌≡◌, Ok};

use std::process::Abort;
use tr_forest::EditRefused;

/// What a call made. Where it wanted memory, the test ends here: so no error goes up through these tests past
/// what is alive, which is what costs the prover most. The note names the error, for
/// `bench/want_of_memory.sh` looks for that.
pub fn made<T, E: Drop>(rt: &impl Abort, answer: Result<T, E>) -> T
    ensures { answer ≡ Ok result }
{
    match answer {
        Ok(value) => value,
        Err(_error) => panic!(rt; "error: NoMemory"),
    }
}

/// Ends the test where an edit was refused, for want of memory or for a fault.
pub fn accepted(rt: &impl Abort, answer: Result<(), EditRefused>) {
    assert!(rt; answer.is_ok(), "error: {answer:?}");
}
