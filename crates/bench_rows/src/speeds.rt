use crate::kernels::{Kernel, Rows};
use std::hint::black_box;
use std::io;
use std::rt::Clock;
use std::time::Instant;
use tr_base::Op;

/// The number of measured spans. The best one counts.
const SPANS: u32 = 300;

/// The number of runs of a kernel in a span.
const ROUND: u64 = 512;

/// The kernel's best speed on plain rows, in hundredths of a billion bytes a second.
pub fn speed<R: Clock + AllocGlobal>(
    rt: &R,
    kernel: Kernel,
    width: usize,
    one: Op,
    zero: Op,
) -> io::Result<u64> {
    let mut rows = Rows::plain(rt.alloc(), width)?;
    speed_on(rt, kernel, &mut rows, one, zero)
}

fn speed_on<R: Clock>(
    rt: &R,
    kernel: Kernel,
    rows: &mut Rows,
    one: Op,
    zero: Op,
) -> io::Result<u64> {
    let mut best = u64::MAX;
    for _ in 0..SPANS {
        let start = Instant::now(rt)?;
        for i in 0..ROUND {
            let number = black_box((i % 256) as u8);
            black_box(kernel.run(rows, number, one, zero));
        }
        let nanos = start.elapsed(rt)?.as_nanos();
        best = best.min(u64::try_from(nanos).unwrap_or(u64::MAX));
    }
    Ok((rows.width() as u64).wrapping_mul(ROUND * 100) / best.max(1))
}

/// Prints hundredths of a billion bytes a second.
pub fn print_speed<R: Print + AllocGlobal>(rt: &R, hundredths: u64) -> io::Result<()> {
    print!(rt; " {}.{:02} GB/s", hundredths / 100, hundredths % 100)
}
