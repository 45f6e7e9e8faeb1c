use std::sync::Wait;
use std::sync::atomic::{AtomicU64, Ordering};
use std::thread::Parker;

/// A number of steps that is never reached: no thread waits.
const NEVER: u64 = u64::MAX;

/// The number of steps of a part for which the painter need not wait any more. Commands are counted soon
/// after they are made; other steps are counted when their actor has finished, even if they weren't made
/// because memory ran out. It is a hint for the painter: no contract depends on it.
#[derive(Drop)]
pub(crate) struct Counter {
    made: AtomicU64,
    /// The number of steps for which the painter waits.
    awaited: AtomicU64,
    sleeper: Parker,
}

impl Counter {
    pub(crate) fn new() -> Counter {
        Counter {
            made: AtomicU64::new(0),
            awaited: AtomicU64::new(NEVER),
            sleeper: Parker::new(),
        }
    }

    /// A worker adds this number of steps.
    pub(crate) fn add(&self, steps: u64) {
        if steps == 0 {
            return;
        }
        let before = self.made.fetch_add(steps, Ordering::SeqCst);
        if before.saturating_add(steps) >= self.awaited.load(Ordering::SeqCst) {
            self.sleeper.unpark();
        }
    }

    /// The number of steps so far.
    pub(crate) fn count(&self) -> u64 {
        self.made.load(Ordering::SeqCst)
    }

    /// Whether there are at least this many steps.
    pub(crate) fn has(&self, steps: u64) -> bool {
        self.count() >= steps
    }

    /// Sleeps until there are this many steps.
    pub(crate) fn wait_for<R: Wait>(&self, rt: &R, steps: u64) {
        self.awaited.store(steps, Ordering::SeqCst);
        for _ in rt.forever() {
            if self.has(steps) {
                break;
            }
            self.sleeper.park(rt);
        }
        self.awaited.store(NEVER, Ordering::SeqCst);
    }
}
