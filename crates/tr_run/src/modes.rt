/// The mode of a script's run.
#[derive(Clone, Copy, Debug, PartialEq, Eq)]
pub enum Mode {
    /// The text has the reports.
    Serial,
    /// The text also has the screen's lag after each step.
    Check,
    /// There is no text. The pixels of the last dump are added up.
    Gen,
}
