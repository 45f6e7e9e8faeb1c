//! The pieces of a text, and the search for a row that is kept already.
ghost use Rattle.std.specs.Prelude.{◌≡◌, ℕ, ◌+◌, ◌*◌, ◌<◌, ◌≤◌, List, ◌++◌, true, min};
ghost use Rattle.std.specs.Prelude.{All, IfSome, length, vec_len, vec_capacity};
ghost use Rattle.std.specs.List.{flat_map};
ghost use Rattle.tr_output.specs.Texts.{row_text};
ghost use Rattle.tr_output.specs.Pieces.{IsKeptAt, IsPieceWithin, piece_text, pieces_text};

use tr_kernel::first_difference;
use tr_screen::Screen;

/// A piece of a text.
#[derive(Drop)]
pub(crate) enum Piece {
    /// Bytes.
    Bytes(Vec<u8>),
    /// The line of a row of pixels: the place of its first pixel among the kept ones, and its width.
    Row { start: usize, wide: usize },
}

/// The first pieces of the rows of the present dump and of the last one. These are hints: a row that is
/// kept there is taken only if all its pixels are the same.
#[derive(Clone, Copy)]
pub(crate) struct Dumps {
    pub(crate) present: usize,
    pub(crate) last: usize,
}

/// The place of a piece's first pixel, if it is a row.
fn start_of(pieces: &[Piece], index: usize) -> Option<usize> {
    match pieces.get(index) {
        Some(Piece::Row { start, .. }) => Some(*start),
        _ => None,
    }
}

/// Whether a row's pixels are kept from this place on.
fn is_kept_at(pixels: &[u8], start: usize, row: &[u8]) -> bool
    ensures { result ≡ true → IsKeptAt pixels.now start row.now }
{
    if start > pixels.len() || row.len() > pixels.len() - start {
        return false;
    }
    first_difference(&pixels[start..start + row.len()], row).is_none()
}

/// The place of a row's pixels, if one of these pieces has them.
fn place_among(pieces: &[Piece], pixels: &[u8], tries: &[usize], row: &[u8]) -> Option<usize>
    ensures { IfSome result (λ start. IsKeptAt pixels.now start row.now) }
{
    for index in tries {
        let start = start_of(pieces, *index);
        if let Some(start) = start
            && is_kept_at(pixels, start, row)
        {
            return Some(start);
        }
    }
    None
}

/// The place of the next row's pixels, if it equals the row above (as in one colour), the same row of the
/// last dump, or the eighth row above (as in a tiled window).
fn place_of(pieces: &[Piece], pixels: &[u8], dumps: &Dumps, row: &[u8]) -> Option<usize>
    ensures { IfSome result (λ start. IsKeptAt pixels.now start row.now) }
{
    let next = pieces.len();
    let same = dumps.last.wrapping_add(next.wrapping_sub(dumps.present));
    let tries = [next.wrapping_sub(1), same, next.wrapping_sub(8)];
    place_among(pieces, pixels, &tries, row)
}

/// Appends the line of a row. There is room for it.
fn push_row(pieces: &mut Vec<Piece>, pixels: &mut Vec<u8>, dumps: &Dumps, row: &[u8])
    requires wide { length row.now ≤ 1024 }
    requires room { vec_len pieces.old < vec_capacity pieces.old }
    requires pixels { vec_len pixels.old + length row.now ≤ vec_capacity pixels.old }
    requires within { All (IsPieceWithin (length pixels.old.items)) pieces.old.items }
    ensures text { pieces_text pixels.new.items pieces.new.items
        ≡ pieces_text pixels.old.items pieces.old.items ++ row_text row.now }
    ensures within { All (IsPieceWithin (length pixels.new.items)) pieces.new.items }
    ensures count { vec_len pieces.new ≡ vec_len pieces.old + 1 }
    ensures room { vec_capacity pieces.new ≡ vec_capacity pieces.old }
    ensures pixels { (vec_len pixels.new ≤ vec_len pixels.old + length row.now)
        × (vec_capacity pixels.old ≤ vec_capacity pixels.new) }
{
    let wide = row.len();
    if let Some(start) = place_of(pieces, pixels, dumps, row) {
        pieces.push_reserved(Piece::Row { start, wide });
        return;
    }
    let start = pixels.len();
    pixels.extend_from_slice(row).unwrap();
    pieces.push_reserved(Piece::Row { start, wide });
}

/// Appends the lines of all rows. There is room for them.
pub(crate) fn push_rows(
    pieces: &mut Vec<Piece>,
    pixels: &mut Vec<u8>,
    dumps: &Dumps,
    screen: &Screen,
)
    requires pieces { vec_len pieces.old + screen.now.size.high ≤ vec_capacity pieces.old }
    requires pixels { vec_len pixels.old + screen.now.size.high * screen.now.size.wide
        ≤ vec_capacity pixels.old }
    requires within { All (IsPieceWithin (length pixels.old.items)) pieces.old.items }
    ensures text { pieces_text pixels.new.items pieces.new.items
        ≡ pieces_text pixels.old.items pieces.old.items ++ flat_map row_text screen.now.rows }
    ensures within { All (IsPieceWithin (length pixels.new.items)) pieces.new.items }
{
    for v in 0..screen.size().high {
        push_row(pieces, pixels, dumps, screen.row(v));
    }
}

/// The number of bytes of a piece's text.
fn len_of(piece: &Piece, many: usize) -> usize
    requires { IsPieceWithin many piece.now }
    ensures { (pixels : List ℕ) → length pixels ≡ many → result ≡ length (piece_text pixels piece.now) }
{
    match piece {
        Piece::Bytes(bytes) => bytes.len(),
        Piece::Row { wide, .. } => 2 * wide + 1,
    }
}

/// The number of bytes of the text of pieces over this many pixels, at most 2^64 - 1.
pub(crate) fn len_of_all(pieces: &[Piece], many: usize) -> usize
    requires { All (IsPieceWithin many) pieces.now }
    ensures { (pixels : List ℕ) → length pixels ≡ many →
        result ≡ min (length (pieces_text pixels pieces.now)) usize.MAX }
{
    let mut len: usize = 0;
    for piece in pieces {
        len = len.saturating_add(len_of(piece, many));
    }
    len
}
