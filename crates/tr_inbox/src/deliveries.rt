use tr_base::{Event, LeafId};

/// An event that one step sent to a leaf's window; `dropped` says that its inbox was full.
#[derive(Clone, Copy, Debug, PartialEq, Eq)]
pub struct Delivery {
    pub leaf: LeafId,
    pub event: Event,
    pub dropped: bool,
}
