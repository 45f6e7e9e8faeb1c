ghost use Rattle.std.specs.Prelude.{◌≡◌, ◌+◌, ◌<◌, ◌≤◌, length, take, drop, IfOk, OnOk, OnErr};
ghost use Rattle.tr_io.specs.Faults.{HasFault};
ghost use Rattle.tr_io.specs.Streams.{Grew, GrewByPrefix};

use tr_io::{Failed, Sink};

/// Writes a whole text, for which the sink has room. It takes no memory.
pub fn write_all<K: Sink>(sink: &mut K, text: &[u8]) -> Result<(), Failed>
    requires { length text.now ≤ K.room sink.old }
    ensures ok { OnOk result (Grew (K.written sink.old) (K.written sink.new) text.now) }
    ensures room { OnOk result (K.room sink.old ≤ K.room sink.new + length text.now) }
    ensures err { OnErr result (GrewByPrefix (K.written sink.old) (K.written sink.new) text.now) }
    ensures failed { OnErr result (HasFault (K.faults sink.old) (K.faults sink.new)) }
    ensures rising { K.faults sink.old ≤ K.faults sink.new }
{
    let mut written = 0;
    while written < text.len() {
        written += write_from(sink, text, written)?;
    }
    Ok(())
}

/// Writes once, from the byte at `start` on, and answers the number of bytes that the sink took.
fn write_from<K: Sink>(sink: &mut K, text: &[u8], start: usize) -> Result<usize, Failed>
    requires start { start < length text.now }
    requires room { length text.now ≤ K.room sink.old + start }
    ensures count { IfOk result (λ n. (0 < n) × (start + n ≤ length text.now)) }
    ensures grew { IfOk result (λ n.
        Grew (K.written sink.old) (K.written sink.new) (take n (drop start text.now))) }
    ensures room { IfOk result (λ n. K.room sink.old ≤ K.room sink.new + n) }
    ensures failed { OnErr result (HasFault (K.faults sink.old) (K.faults sink.new)) }
    ensures unchanged { OnErr result (K.written sink.new ≡ K.written sink.old) }
    ensures rising { K.faults sink.old ≤ K.faults sink.new }
{
    let rest = &text[start..];
    sink.write(rest)
}
