/// The lag of a screen.
#[derive(Clone, Copy, Debug, PartialEq, Eq)]
pub struct Peek3 {
    /// The number of bad points.
    pub bad: u32,
    /// The number of paint commands that wait for all leaves. It stops at 2^64 - 1.
    pub waiting: u64,
    /// The number of points that are good but don't have their right colour.
    pub stale: u32,
}
