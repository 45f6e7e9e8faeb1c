//! How many bytes a journal keeps of a step.
use std::mem::size_of;
use tr_journal::{Entry, Step};
use tr_widget::WidgetCmd;

/// A step has no text in it, but a handle of it: so a long journal is short in memory.
#[test]
fn steps_and_entries_are_short(rt: HostRuntime) {
    let (step, entry) = (size_of::<Step<WidgetCmd>>(), size_of::<Entry<WidgetCmd>>());
    assert!(rt; step <= 32, "a step: {step}");
    assert!(rt; entry <= 72, "an entry: {entry}");
}
