//! Scripts that are drawn from a number.
use super::ends::made;
use std::process::Abort;
use tr_gen::script_of;

/// A sum of a text in which each byte and its place count.
fn sum_of(text: &[u8]) -> u32 {
    let mut sum: u32 = 0;
    for byte in text {
        sum = sum.wrapping_mul(31).wrapping_add(u32::from(*byte));
    }
    sum
}

/// Whether the script of a number has this length and this sum.
fn has_sum(rt: &(impl Abort + AllocGlobal), number: u32, len: usize, sum: u32) -> bool {
    let text = made(rt, script_of(rt.alloc(), number));
    text.len() == len && sum_of(&text) == sum
}

// The lengths and the sums are those of a program that was written apart.
#[test]
fn whole_texts(rt: HostRuntime) {
    for (number, len, sum) in [
        (0, 28768, 3307905702),
        (1, 28883, 2158488942),
        (12345, 28621, 311669957),
        (2147483648, 29001, 987512389),
        (4294967295, 29218, 2919402465),
    ] {
        assert!(rt; has_sum(&rt, number, len, sum), "{number}");
    }
}
