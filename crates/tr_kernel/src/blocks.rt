//! Blocks of letters: all eight rows of letters side by side, written in two colours, two letters at a time.
ghost use Rattle.std.specs.Prelude.{◌≡◌, ◌+◌, ◌*◌, ◌≤◌, ◌∷◌, [], length, if◌then◌else◌};
ghost use Rattle.std.specs.List.{AllPass};
ghost use Rattle.tr_base.specs.Fonts.{pixel_of_bit};
ghost use Rattle.tr_base.specs.Lines.{is_printable};
ghost use Rattle.tr_kernel.specs.Letters.{bit_in_letters, inked};
ghost use Rattle.tr_kernel.specs.Blocks.{AreWritten};

use crate::letters::{Inks, letter_pixels, pair_pixels, place_of};
use std::simd::prelude::*;
use tr_base::{Font, Line};

/// Where the first row of a block begins, and the distance from each row's begin to the next's.
#[derive(Clone, Copy)]
pub struct Block {
    pub start: usize,
    pub stride: usize,
}

/// A text that is written in two colours: one where a glyph's bit is set, and one where it isn't.
#[derive(Clone, Copy)]
pub struct Lettering<'a> {
    pub font: &'a Font,
    pub text: &'a Line,
    pub one: u8,
    pub zero: u8,
}

/// Writes all rows of a text. A letter is looked up once for its eight rows.
pub fn letter_block(pixels: &mut [u8], block: Block, lettering: &Lettering<'_>)
    requires apart { 8 * length lettering.now.text.now ≤ block.stride }
    requires room { block.start + 7 * block.stride + 8 * length lettering.now.text.now ≤ length pixels.old }
    ensures { let text = lettering.now.text.now in
        AreWritten (λ v k. if bit_in_letters lettering.now.font.now text v k
        then lettering.now.one else lettering.now.zero) block (8 * length text) 8 pixels.old pixels.new }
{
    let text = lettering.text.bytes();
    let inks = Inks {
        zero: lettering.zero,
        change: lettering.one ^ lettering.zero,
    };
    for i in 0..text.len() / 2 {
        let place = Block {
            start: block.start + 16 * i,
            stride: block.stride,
        };
        let pair = [text[2 * i], text[2 * i + 1]];
        write_pair(pixels, place, lettering.font, pair, inks);
    }
    if text.len() % 2 == 1 {
        let last = text.len() - 1;
        let place = Block {
            start: block.start + 8 * last,
            stride: block.stride,
        };
        write_single(pixels, place, lettering.font, text[last], inks);
    }
}

/// Writes all rows of two letters.
#[inline(always)]
fn write_pair(pixels: &mut [u8], block: Block, font: &Font, pair: [u8; 2], inks: Inks)
    requires printable { AllPass is_printable pair }
    requires apart { 16 ≤ block.stride }
    requires room { block.start + 7 * block.stride + 16 ≤ length pixels.old }
    ensures { AreWritten (λ v k. inked inks (pixel_of_bit (bit_in_letters font.now pair v k)))
        block 16 8 pixels.old pixels.new }
{
    let west = place_of(pair[0]);
    let east = place_of(pair[1]);
    for v in 0..8 {
        pair_pixels(font.row(v), west, east, inks).copy_to_slice(
            &mut pixels[block.start + v * block.stride..],
        );
    }
}

/// Writes all rows of a letter.
#[inline(always)]
fn write_single(pixels: &mut [u8], block: Block, font: &Font, letter: u8, inks: Inks)
    requires printable { AllPass is_printable (letter ∷ []) }
    requires apart { 8 ≤ block.stride }
    requires room { block.start + 7 * block.stride + 8 ≤ length pixels.old }
    ensures { AreWritten (λ v k. inked inks (pixel_of_bit (bit_in_letters font.now (letter ∷ []) v k)))
        block 8 8 pixels.old pixels.new }
{
    let place = place_of(letter);
    for v in 0..8 {
        letter_pixels(font.row(v), place, inks).copy_to_slice(
            &mut pixels[block.start + v * block.stride..],
        );
    }
}
