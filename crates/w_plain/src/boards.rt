ghost use Rattle.std.specs.Prelude.{◌≡◌, ◌↔◌, IsTrue, IfOk};
ghost use Rattle.std.specs.List.{AllPass};
ghost use Rattle.hex.specs.Hex.{IsBytes, encode_lower};
ghost use Rattle.tr_base.specs.Lines.{is_printable};
ghost use Rattle.tr_paint.specs.Paints.{IsNearRect};
ghost use Rattle.w_plain.specs.Shifts.{IsShift};
ghost use Rattle.w_plain.specs.Boards as spec;

use crate::shifts::Shift;
use itoa::Buffer;
use std::alloc::Global;
use tr_base::{Command, Env, Event, Line, NoMemory, Point, Rect, Size, Tile};
use tr_client::{Client, PLAIN, append_all, kept_part, part_of_window, window};
use tr_paint::{Batch, Paint};

/// A window of one tile, repeated in all directions. One copy of it begins at the shift.
#[derive(Clone, Copy, Debug)]
pub struct Board {
    pub tile: Tile,
    pub shift: Shift,
}

/// A command of a Board.
#[derive(Clone, Copy, Debug)]
pub enum BoardCmd {
    /// Sets the tile.
    Tile(Tile),
    /// Sets the point at which the tile begins.
    Shift(Shift),
}

impl Board {
    /// A window of a tile that begins at the shift. Each coordinate of the shift is within -4096 to 4096.
    pub fn new(tile: Tile, shift: Point) -> Board
        requires { IsShift shift }
        ensures { result ≡ record { tile = tile; shift = shift } }
    {
        Board {
            tile,
            shift: Shift::by(shift),
        }
    }

    /// Tells the invariant of boards. Nothing runs.
    pub fn invariant(&self)
        ensures { spec.IsBoard self.now }
    {
        let _shift = self.shift();
    }

    /// The point at which its tile begins.
    pub fn shift(&self) -> Point
        ensures value { result ≡ self.now.shift }
        ensures invariant { spec.IsBoard self.now }
    {
        self.shift.point()
    }

    /// The commands that paint a part of the picture.
    fn paints(&self, alloc: Global, part: Rect) -> Result<Batch, NoMemory>
        requires { IsNearRect part }
        ensures { IfOk result (λ batch. batch ≡ spec.board_paints part self.now) }
    {
        let mut batch = Batch::new(alloc);
        batch.push(Paint::Texture {
            clip: part,
            ops: PLAIN,
            tile: self.tile,
            delta: self.shift(),
        })?;
        Ok(batch)
    }

    /// The content after a command.
    fn after(&self, cmd: &BoardCmd) -> Board
        ensures { result ≡ spec.board_next self.now cmd.now }
    {
        match cmd {
            BoardCmd::Tile(tile) => Board {
                tile: *tile,
                shift: self.shift,
            },
            BoardCmd::Shift(shift) => Board {
                tile: self.tile,
                shift: *shift,
            },
        }
    }
}

/// Tells that each of the numbers is a byte. Only the prover needs it; its loop does nothing.
fn tell_bytes(bytes: &[u8])
    ensures { IsBytes bytes.now }
{
    for byte in bytes {
        let _byte = *byte;
    }
}

/// The rows of a tile as 16 hex digits, one byte each.
fn digits_of(tile: &Tile) -> [u8; 16]
    ensures value { result ≡ encode_lower tile.now.rows }
    ensures printable { AllPass is_printable result }
{
    let rows = tile.rows.as_slice();
    tell_bytes(rows);
    let mut digits = [0; 16];
    hex::encode_to_slice(rows, &mut digits).unwrap();
    digits
}

impl Command for BoardCmd {
    ghost use Rattle.w_plain.specs.Boards.{IsBoardCmd, board_words};

    ghost valid = { IsBoardCmd };

    ghost words = { board_words };

    fn known(&self) {
        if let BoardCmd::Shift(shift) = self {
            shift.invariant();
        }
    }

    fn copy(&self, _alloc: Global) -> Result<BoardCmd, NoMemory> {
        Ok(match self {
            BoardCmd::Tile(tile) => BoardCmd::Tile(*tile),
            BoardCmd::Shift(shift) => BoardCmd::Shift(*shift),
        })
    }

    fn same(&self, other: &BoardCmd) -> bool {
        match (self, other) {
            (BoardCmd::Tile(tile), BoardCmd::Tile(other)) => tile == other,
            (BoardCmd::Shift(shift), BoardCmd::Shift(other)) => shift.same(other),
            _ => false,
        }
    }

    fn print(&self, out: &mut Vec<u8>) -> Result<(), NoMemory> {
        match self {
            BoardCmd::Tile(tile) => append_all(out, &[b"tile ", &digits_of(tile)]),
            BoardCmd::Shift(shift) => {
                let point = shift.point();
                let (mut across, mut down) = (Buffer::new(), Buffer::new());
                let h = across.format(point.h);
                let v = down.format(point.v);
                append_all(out, &[b"shift ", h.as_bytes(), b" ", v.as_bytes()])
            }
        }
    }
}

impl Client for Board {
    ghost use Rattle.w_plain.specs.Boards.{IsBoard, board_pic, board_next, board_patch, board_answer, board_value, board_keeps};
    ghost use Rattle.w_plain.specs.BoardLaws.{board_contents, board_answers, board_patches, board_empty_patches, board_keeping, board_kinds};

    type Cmd = BoardCmd;

    ghost valid = { IsBoard };

    ghost pic = { board_pic };

    ghost next = { board_next };

    ghost patch = { board_patch };

    ghost answer = { board_answer };

    ghost value = { board_value };

    ghost keeps = { board_keeps };

    fn copy(&self, _alloc: Global) -> Result<Board, NoMemory> {
        self.invariant();
        Ok(Board {
            tile: self.tile,
            shift: self.shift,
        })
    }

    fn same(&self, other: &Board) -> bool {
        self.invariant();
        other.invariant();
        self.tile == other.tile && self.shift.same(&other.shift)
    }

    fn paint(&self, alloc: Global, _env: &Env, size: Size, clip: Rect) -> Result<Batch, NoMemory> {
        self.invariant();
        let batch = self.paints(alloc, part_of_window(size, &clip))?;
        Ok(batch)
    }

    fn change(
        &self,
        alloc: Global,
        _env: &Env,
        size: Size,
        cmd: &BoardCmd,
    ) -> Result<(Board, Batch), NoMemory> {
        self.invariant();
        cmd.known();
        let next = self.after(cmd);
        let patch = next.paints(alloc, window(size))?;
        Ok((next, patch))
    }

    fn react(&self, _alloc: Global, _event: &Event) -> Result<Option<BoardCmd>, NoMemory> {
        self.invariant();
        Ok(None)
    }

    fn value(&self, alloc: Global) -> Result<Line, NoMemory> {
        self.invariant();
        Line::of(alloc, &digits_of(&self.tile))
    }

    fn keeps(&self, from: Size, to: Size) -> Rect {
        self.invariant();
        kept_part(from, to)
    }

    ghost contents = { board_contents };

    ghost answers = { board_answers };

    ghost patches = { board_patches };

    ghost empty_patches = { board_empty_patches };

    ghost keeping = { board_keeping };

    ghost kinds = { board_kinds };
}
