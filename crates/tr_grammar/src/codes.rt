ghost use Rattle.std.specs.Prelude.{◌≡◌};
ghost use Rattle.tr_grammar.specs.Codes.{number_of_code};

use std::alloc::AllocError;
use thiserror::Error;
use tr_base::NoMemory;

/// The fault of a line.
#[derive(Clone, Copy, Debug, PartialEq, Eq)]
pub enum Code {
    /// An unknown word, or a wrong count of words.
    B1,
    /// A value or a name that is declared is misspelled or out of range, a shape falls, or a text is over
    /// 80 bytes.
    B2,
    /// A name wasn't declared before, or isn't a leaf's.
    B3,
    /// A name or a glyph is declared twice.
    B4,
    /// The line may not come at this place.
    B5,
    /// The tree can't take the child or the root, or has no root.
    B6,
    /// Too many lines, nodes, leaves, reports or syncs, or too many bytes.
    B7,
    /// It comes after the end, or the end is missing.
    B8,
    /// A byte outside 20 to 7e in hex, or over 1,024 bytes.
    B9,
    /// The command is for another widget than the leaf's.
    B10,
}

impl Code {
    /// The code's number.
    pub fn number(self) -> u8
        ensures { result ≡ number_of_code self }
    {
        match self {
            Code::B1 => 1,
            Code::B2 => 2,
            Code::B3 => 3,
            Code::B4 => 4,
            Code::B5 => 5,
            Code::B6 => 6,
            Code::B7 => 7,
            Code::B8 => 8,
            Code::B9 => 9,
            Code::B10 => 10,
        }
    }
}

/// Why a line wasn't read.
#[derive(Clone, Copy, Debug, PartialEq, Eq)]
pub enum LineRefused {
    NoMemory,
    Fault(Code),
}

impl From<NoMemory> for LineRefused {
    ghost use Rattle.std.specs.Prelude.{◌≡◌};
    ghost use Rattle.tr_grammar.specs.declared.codes.LineRefused.TheVariants as refused;

    ghost from_gives = { λ _ e. e ≡ refused.NoMemory };

    fn from(_e: NoMemory) -> LineRefused {
        LineRefused::NoMemory
    }
}

impl From<AllocError> for LineRefused {
    ghost use Rattle.std.specs.Prelude.{◌≡◌};
    ghost use Rattle.tr_grammar.specs.declared.codes.LineRefused.TheVariants as refused;

    ghost from_gives = { λ _ e. e ≡ refused.NoMemory };

    fn from(_e: AllocError) -> LineRefused {
        LineRefused::NoMemory
    }
}

impl From<Code> for LineRefused {
    ghost use Rattle.std.specs.Prelude.{◌≡◌};
    ghost use Rattle.tr_grammar.specs.declared.codes.LineRefused.TheVariants as refused;

    ghost from_gives = { λ code e. e ≡ refused.Fault code };

    fn from(code: Code) -> LineRefused {
        LineRefused::Fault(code)
    }
}

/// Why a text wasn't read.
#[derive(Clone, Copy, Debug, PartialEq, Eq, Error)]
pub enum ReadRefused {
    #[error("out of memory")]
    NoMemory,
    /// A line, counted from 1, has a fault, and no line before it has one. `code` is the number of its
    /// first fault, 1 to 10. Line 0 means a text of over 4 MiB; a missing end is a fault of the line
    /// after the last.
    #[error("line {line} has the fault B{code}")]
    Refused { line: u32, code: u8 },
}

impl From<AllocError> for ReadRefused {
    ghost use Rattle.std.specs.Prelude.{◌≡◌};
    ghost use Rattle.tr_grammar.specs.declared.codes.ReadRefused.TheVariants as refused;

    ghost from_gives = { λ _ e. e ≡ refused.NoMemory };

    fn from(_e: AllocError) -> ReadRefused {
        ReadRefused::NoMemory
    }
}

impl From<NoMemory> for ReadRefused {
    ghost use Rattle.std.specs.Prelude.{◌≡◌};
    ghost use Rattle.tr_grammar.specs.declared.codes.ReadRefused.TheVariants as refused;

    ghost from_gives = { λ _ e. e ≡ refused.NoMemory };

    fn from(_e: NoMemory) -> ReadRefused {
        ReadRefused::NoMemory
    }
}
