use std::alloc::Global;
use tr_base::{Command, Line, NoMemory};
use tr_client::{append_all, append_with_text};

/// A command of a Lines.
#[derive(Debug, Drop)]
pub enum LinesCmd {
    /// Adds this line below the others.
    Line(Line),
    /// Removes all lines.
    Clear,
}

impl Command for LinesCmd {
    ghost use Rattle.w_lines.specs.Lines.{IsLinesCmd, lines_words};

    ghost valid = { IsLinesCmd };

    ghost words = { lines_words };

    fn known(&self) {
        if let LinesCmd::Line(line) = self {
            line.invariant();
        }
    }

    fn copy(&self, _alloc: Global) -> Result<LinesCmd, NoMemory> {
        Ok(match self {
            LinesCmd::Line(line) => LinesCmd::Line(line.copy()?),
            LinesCmd::Clear => LinesCmd::Clear,
        })
    }

    fn same(&self, other: &LinesCmd) -> bool {
        match (self, other) {
            (LinesCmd::Line(line), LinesCmd::Line(other)) => line.same(other),
            (LinesCmd::Clear, LinesCmd::Clear) => true,
            _ => false,
        }
    }

    fn print(&self, out: &mut Vec<u8>) -> Result<(), NoMemory> {
        match self {
            LinesCmd::Line(line) => append_with_text(out, b"line", line),
            LinesCmd::Clear => append_all(out, &[b"clear"]),
        }
    }
}
