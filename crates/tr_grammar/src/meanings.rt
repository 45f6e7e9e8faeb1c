use tr_journal::{Actor, Item, Query, Step};
use tr_widget::{Widget, WidgetCmd};

/// The meaning of a line.
#[derive(Drop)]
pub enum Meaning {
    /// The script is of this version, 1 or 2.
    Version(u8),
    /// The opening has this item.
    Item(Item<Widget>),
    /// The opening ends.
    Begin,
    /// The actor makes a step.
    Step { actor: Actor, step: Step<WidgetCmd> },
    /// A part ends.
    Sync,
    /// Something is reported.
    Report(Query),
    /// The script ends.
    End,
}
