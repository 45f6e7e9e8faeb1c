/// The place of the next line of a script.
#[derive(Clone, Copy)]
pub enum Place {
    /// Before the version line.
    Start,
    /// Between the version line and the screen line.
    Head,
    /// Between the screen line and `begin`.
    Opening,
    /// Directly after `begin`, a sync or a report.
    Gap,
    /// After a step.
    Steps,
    /// After the end.
    Ended,
}
