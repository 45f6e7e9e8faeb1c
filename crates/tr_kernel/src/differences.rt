//! The places at which two rows differ, found 64 pixels at a time.
ghost use Rattle.std.specs.Prelude.{◌≡◌, ◌+◌, ◌≤◌, ◌==◌, not, length, map, count_by, IfSome, IfNone};
ghost use Rattle.std.specs.List.{zip};
ghost use Rattle.std.specs.Simd.Lanes.{chunk, mask_l};
ghost use Rattle.tr_kernel.specs.Differences.{differ, IsFirstDifference, IsLastDifference};

use std::simd::prelude::*;

const LANES: usize = 64;

/// Whether the rows differ somewhere in the 64 pixels from `at` on.
#[inline(always)]
fn differ_from(a: &[u8], b: &[u8], at: usize) -> bool
    requires same { length a.now ≡ length b.now }
    requires within { at + LANES ≤ length a.now }
    ensures { result ≡ not (mask_l (map differ (chunk at 64 (zip a.now b.now))) == 0) }
{
    u8x64::from_slice(&a[at..])
        .simd_ne(u8x64::from_slice(&b[at..]))
        .any()
}

/// Bit k is set if the rows differ at `at + k`. Inlined, it would be computed for each 64 pixels
/// of a row, and not only for those that differ: equal rows were compared at 22 in place of 31
/// billion bytes a second (`bench_rows`).
#[inline(never)]
fn differences_at(a: &[u8], b: &[u8], at: usize) -> u64
    requires same { length a.now ≡ length b.now }
    requires within { at + LANES ≤ length a.now }
    ensures { result ≡ mask_l (map differ (chunk at 64 (zip a.now b.now))) }
{
    u8x64::from_slice(&a[at..])
        .simd_ne(u8x64::from_slice(&b[at..]))
        .to_bitmask()
}

/// The first place at which the rows differ.
pub fn first_difference(a: &[u8], b: &[u8]) -> Option<usize>
    requires { length a.now ≡ length b.now }
    ensures found { IfSome result (IsFirstDifference a.now b.now) }
    ensures equal { IfNone result (a.now ≡ b.now) }
{
    for chunk in 0..a.len() / LANES {
        let at = chunk * LANES;
        if differ_from(a, b, at) {
            return Some(at + differences_at(a, b, at).trailing_zeros() as usize);
        }
    }
    for at in a.len() / LANES * LANES..a.len() {
        if a[at] != b[at] {
            return Some(at);
        }
    }
    None
}

/// The last place at which the rows differ.
pub fn last_difference(a: &[u8], b: &[u8]) -> Option<usize>
    requires { length a.now ≡ length b.now }
    ensures found { IfSome result (IsLastDifference a.now b.now) }
    ensures equal { IfNone result (a.now ≡ b.now) }
{
    let whole = a.len() / LANES;
    for at in (whole * LANES..a.len()).rev() {
        if a[at] != b[at] {
            return Some(at);
        }
    }
    for chunk in (0..whole).rev() {
        let at = chunk * LANES;
        if differ_from(a, b, at) {
            return Some(at + differences_at(a, b, at).ilog2() as usize);
        }
    }
    None
}

/// The number of places at which the rows differ.
pub fn count_row(a: &[u8], b: &[u8]) -> usize
    requires { length a.now ≡ length b.now }
    ensures { result ≡ count_by differ (zip a.now b.now) }
{
    let mut count = 0;
    for chunk in 0..a.len() / LANES {
        let at = chunk * LANES;
        if differ_from(a, b, at) {
            count += differences_at(a, b, at).count_ones() as usize;
        }
    }
    for at in a.len() / LANES * LANES..a.len() {
        if a[at] != b[at] {
            count += 1;
        }
    }
    count
}
