//! A wait that has a limit: so a test of a wrong player fails, and doesn't hang.
use std::hint;
use std::sync::atomic::{AtomicU32, Ordering};

/// How often a thread looks whether another one has come so far.
const TRIES: u32 = 100_000_000;

/// Waits until a number is at least `least`, and says whether it got there.
pub fn came(number: &AtomicU32, least: u32) -> bool {
    for _ in 0..TRIES {
        if least <= number.load(Ordering::SeqCst) {
            return true;
        }
        hint::spin_loop();
    }
    false
}
