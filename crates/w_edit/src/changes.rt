use tr_base::Line;

/// A change of a text by a command. It has only the new lines, so the others aren't copied.
#[derive(Debug, Drop)]
pub(crate) enum Edit {
    /// This line replaces the caret's line, and the caret moves to this column.
    Line { line: Line, column: usize },
    /// This line replaces the caret's line and the one above it, and the caret moves to this column.
    Joined { line: Line, column: usize },
    /// These lines replace the caret's line, and the caret moves to the beginning of the second.
    Broken { front: Line, back: Line },
    /// The caret moves to this row and this column.
    Caret { row: usize, column: usize },
    /// The clip becomes this text.
    Clip(Line),
}
