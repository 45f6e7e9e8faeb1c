ghost use Rattle.std.specs.Prelude.{◌≡◌, ◌+◌, ◌<◌, ◌≤◌, ◌↔◌, [], ℕ, List, Option, length, take, IfOk, OnOk, OnErr, IfSome};
ghost use Rattle.tr_io.specs.Faults.{HasFault};
ghost use Rattle.tr_io.specs.Streams.{Fell, Grew};

use thiserror::Error;
use tr_base::NoMemory;

/// The answer to a read or a write that met a fault.
#[derive(Clone, Copy, Debug, PartialEq, Eq, Error)]
#[error("a read or a write failed")]
pub struct Failed;

/// A source of bytes.
pub trait Source {
    /// The bytes still to come, if the source tells them.
    ghost left: { Self → Option (List ℕ) };

    /// The number of its faults so far. It stops at 2^64 - 1.
    ghost faults: { Self → ℕ };

    /// Puts the next bytes at the front of the buffer, and answers how many. For a buffer that is not
    /// empty, 0 says that there are no more.
    fn read(&mut self, buf: &mut [u8]) -> Result<usize, Failed>
        ensures count { IfOk result (λ n. n ≤ length buf.new) }
        ensures taken { IfOk result (λ n. Fell (left self.old) (left self.new) (take n buf.new)) }
        ensures end { IfOk result (λ n. 0 < length buf.old →
            IfSome (left self.old) (λ bytes. (n ≡ 0) ↔ (bytes ≡ []))) }
        ensures failed { OnErr result (HasFault (faults self.old) (faults self.new)) }
        ensures unchanged { OnErr result (left self.new ≡ left self.old) }
        ensures rising { faults self.old ≤ faults self.new };
}

/// A sink of bytes.
pub trait Sink {
    /// The bytes that it has taken, if it tells them.
    ghost written: { Self → Option (List ℕ) };

    /// The number of bytes that it can take without more memory.
    ghost room: { Self → ℕ };

    /// The number of its faults so far. It stops at 2^64 - 1.
    ghost faults: { Self → ℕ };

    /// Makes room for `n` bytes.
    fn reserve(&mut self, n: usize) -> Result<(), NoMemory>
        ensures room { OnOk result (n ≤ room self.new) }
        ensures unchanged { written self.new ≡ written self.old }
        ensures rising { faults self.old ≤ faults self.new }
        ensures no_memory { OnErr result (faults self.new ≡ faults self.old) };

    /// Takes bytes from the front of the piece, and answers how many: at least 1, unless the piece
    /// is empty. The piece is no longer than the room: call `reserve` first.
    fn write(&mut self, piece: &[u8]) -> Result<usize, Failed>
        requires { length piece.now ≤ room self.old }
        ensures count { IfOk result (λ n. n ≤ length piece.now) }
        ensures progress { 0 < length piece.now → IfOk result (λ n. 0 < n) }
        ensures appended { IfOk result (λ n. Grew (written self.old) (written self.new) (take n piece.now)) }
        ensures room { IfOk result (λ n. room self.old ≤ room self.new + n) }
        ensures failed { OnErr result (HasFault (faults self.old) (faults self.new)) }
        ensures unchanged { OnErr result (written self.new ≡ written self.old) }
        ensures rising { faults self.old ≤ faults self.new };
}
