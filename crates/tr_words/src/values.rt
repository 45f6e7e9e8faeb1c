//! The readers of single values. Each returns B2 if the word doesn't spell such a value, or spells
//! one that is out of range.
ghost use Rattle.std.specs.Prelude.{◌≡◌, ◌≤◌, ◌<◌, ◌≤ℤ◌, ◌↔◌, ◌^◌, [], ◌∷◌, ◌==◌, false, slice_index, ℕ, pos, neg_ℤ, not, ⊤, nat_le, length, IsTrue, IfOk, IfNone, IfSome, MatchOption, List, decimal, take};
ghost use Rattle.std.specs.List.{list_all, AllPass};
ghost use Rattle.std.specs.Str.Parse.{AllDigits, digits_value};
ghost use Rattle.tr_base.specs.Lines.{is_printable};
ghost use Rattle.tr_grammar.specs.declared.codes.Code.TheVariants.{B2};
ghost use Rattle.tr_grammar.specs.Words.{words_of, nat_of, int_of, hex_of, byte_of, is_number, is_signed, is_shape, is_hex, is_glyph_byte, is_name_byte, is_name};
ghost use Rattle.tr_words.specs.Answers.{Answers, AnswersOrWants, BeginsNumber};

use crate::words::ShapeWords;
use hex::FromHex;
use std::alloc::Global;
use tr_base::{LINE, LONGEST, Line, Shape, is_printable};
use tr_grammar::{Code, LineRefused};

/// The most bytes that a name may have.
const LONGEST_NAME: usize = 16;

/// The most digits that a number has.
const MOST_DIGITS: usize = 10;

fn is_name_byte(byte: u8) -> bool
    ensures { result ≡ is_name_byte byte }
{
    byte.is_ascii_lowercase() || byte.is_ascii_digit() || byte == b'_'
}

fn are_name_bytes(bytes: &[u8]) -> bool
    ensures { result ≡ list_all is_name_byte bytes.now }
{
    bytes.iter().all(|byte| is_name_byte(*byte))
}

#[tactic(auto, unfolding(tr_grammar::specs::Words::is_name))]
fn is_name(word: &[u8]) -> bool
    ensures { result ≡ is_name word.now }
{
    match word {
        [] => false,
        [first, rest @ ..] => {
            first.is_ascii_lowercase() && rest.len() < LONGEST_NAME && are_name_bytes(rest)
        }
    }
}

/// Tests a name that a line declares: a lower-case letter, followed by at most 15 lower-case letters,
/// digits and underscores.
pub fn name(word: &str) -> Result<(), Code>
    ensures { Answers (not (is_name word.now)) B2 (λ _. ⊤) result }
{
    if is_name(word.as_bytes()) {
        Ok(())
    } else {
        Err(Code::B2)
    }
}

/// Whether a word begins like a number: with a digit, and with 0 only if nothing follows it.
fn begins_number(word: &[u8]) -> bool
    ensures { IsTrue result ↔ BeginsNumber word.now }
{
    matches!(word, [b'0'] | [b'1'..=b'9', ..])
}

/// The number that at most ten digits spell, if all bytes are digits.
fn digits_number(digits: &[u8]) -> Option<u64>
    requires { length digits.now ≤ 10 }
    ensures { MatchOption result (AllDigits 10 digits.now → ⊥)
        (λ n. AllDigits 10 digits.now × (n ≡ digits_value 10 digits.now)) }
{
    let mut number = 0;
    for byte in digits {
        if !byte.is_ascii_digit() {
            return None;
        }
        number = number * 10 + u64::from(*byte - b'0');
    }
    Some(number)
}

/// The number whose decimal text is the word.
fn decimal_of(word: &str) -> Option<u32>
    ensures { MatchOption result ((n : ℕ) → n < 2 ^ 32 → word.now ≡ decimal n → ⊥)
        (λ n. word.now ≡ decimal n) }
{
    let digits = word.as_bytes();
    if digits.len() > MOST_DIGITS {
        return None;
    }
    if !begins_number(digits) {
        return None;
    }
    let Some(number) = digits_number(digits) else {
        return None;
    };
    if number > u64::from(u32::MAX) {
        return None;
    }
    Some(number as u32)
}

/// The number of the digits before the first space, and the place of that space, if there is one and at most
/// ten digits and no other bytes are before it.
#[inline(always)] // so that no call returns the pair through memory
fn digits_to_space(text: &[u8]) -> Option<(u64, usize)>
    ensures none { IfNone result ((at : ℕ) → at < length text.now → at ≤ 10 →
        slice_index text.now at ≡ 32 → AllDigits 10 (take at text.now) → ⊥) }
    ensures within { IfSome result (λ p. p.1 < length text.now) }
    ensures few { IfSome result (λ p. p.1 ≤ 10) }
    ensures space { IfSome result (λ p. slice_index text.now p.1 ≡ 32) }
    ensures digits { IfSome result (λ p. AllDigits 10 (take p.1 text.now)) }
    ensures value { IfSome result (λ p. p.0 ≡ digits_value 10 (take p.1 text.now)) }
{
    let mut number = 0;
    for (at, byte) in text.iter().enumerate() {
        if *byte == b' ' {
            return Some((number, at));
        }
        if at >= MOST_DIGITS || !byte.is_ascii_digit() {
            return None;
        }
        number = number * 10 + u64::from(*byte - b'0');
    }
    None
}

/// The number that the first of several words of a text spells, and the text after the space behind it.
#[inline(always)]
pub fn first_number(text: &str) -> Option<(u32, &str)>
    ensures words { IfSome result (λ p. words_of text.now ≡ decimal p.0 ∷ words_of p.1.now) }
    ensures small { IfSome result (λ p. p.0 < 2 ^ 32) }
    ensures none { IfNone result ((n : ℕ) (next : List ℕ) (later : List (List ℕ)) → n < 2 ^ 32 →
        words_of text.now ≡ decimal n ∷ next ∷ later → ⊥) }
{
    let bytes = text.as_bytes();
    let (number, at) = digits_to_space(bytes)?;
    if number > u64::from(u32::MAX) {
        return None;
    }
    if !begins_number(&bytes[..at]) {
        return None;
    }
    Some((number as u32, &text[at + 1..]))
}

/// The number that a text of one word spells.
#[inline(always)]
pub fn only_number(text: &str) -> Option<u32>
    ensures { MatchOption result ((n : ℕ) → n < 2 ^ 32 → words_of text.now ≡ decimal n ∷ [] → ⊥)
        (λ n. words_of text.now ≡ decimal n ∷ []) }
{
    let number = decimal_of(text)?;
    Some(number)
}

/// A number from `low` to `high`, in decimal digits without a leading zero.
#[tactic(auto, using(crate::proofs::Numbers::number_rules))]
pub fn number(word: &str, low: u32, high: u32) -> Result<u32, Code>
    ensures value { Answers (not (is_number low high word.now)) B2 (λ n. n ≡ nat_of word.now) result }
    ensures low { IfOk result (λ n. low ≤ n) }
    ensures high { IfOk result (λ n. n ≤ high) }
{
    match decimal_of(word) {
        Some(number) if low <= number && number <= high => Ok(number),
        Some(_) | None => Err(Code::B2),
    }
}

/// A number from `low` to `high`; both are at most 65,535.
pub fn short(word: &str, low: u16, high: u16) -> Result<u16, Code>
    ensures value { Answers (not (is_number low high word.now)) B2 (λ n. n ≡ nat_of word.now) result }
    ensures low { IfOk result (λ n. low ≤ n) }
    ensures high { IfOk result (λ n. n ≤ high) }
{
    Ok(number(word, u32::from(low), u32::from(high))? as u16)
}

/// A number from `low` to `high`; both are bytes.
pub fn small(word: &str, low: u8, high: u8) -> Result<u8, Code>
    ensures value { Answers (not (is_number low high word.now)) B2 (λ n. n ≡ nat_of word.now) result }
    ensures low { IfOk result (λ n. low ≤ n) }
    ensures high { IfOk result (λ n. n ≤ high) }
{
    Ok(number(word, u32::from(low), u32::from(high))? as u8)
}

/// A number from 0 to 255.
pub fn byte(word: &str) -> Result<u8, Code>
    ensures { Answers (not (is_number 0 255 word.now)) B2 (λ n. n ≡ nat_of word.now) result }
{
    small(word, 0, 255)
}

/// A number from 0 to `high`, spelled by a word without a minus.
#[tactic(auto, using(crate::proofs::Numbers::plain_rules))]
fn unsigned_part(word: &str, high: u16) -> Result<i32, Code>
    requires small { high < 2 ^ 16 }
    requires plain { slice_index word.now 0 == 45 ≡ false }
    ensures value { (low : ℕ) →
        Answers (not (is_signed low high word.now)) B2 (λ z. z ≡ int_of word.now) result }
    ensures range { IfOk result (λ z. (pos 0 ≤ℤ z) × (z ≤ℤ pos high)) }
{
    let number = number(word, 0, u32::from(high))?;
    Ok(number as i32)
}

/// A number from `-low` to -1, spelled by the digits after its minus.
#[tactic(auto, using(crate::proofs::Numbers::minus_rules))]
fn signed_part(digits: &str, low: u16) -> Result<i32, Code>
    requires small { low < 2 ^ 16 }
    ensures value { (high : ℕ) →
        Answers (not (is_signed low high (45 ∷ digits.now))) B2 (λ z. z ≡ int_of (45 ∷ digits.now)) result }
    ensures range { IfOk result (λ z. (neg_ℤ (pos low) ≤ℤ z) × (z ≤ℤ pos 0)) }
{
    let number = number(digits, 1, u32::from(low))?;
    Ok(-(number as i32))
}

/// A number from `-low` to `high`. -0 isn't a number.
pub fn signed(word: &str, low: u16, high: u16) -> Result<i32, Code>
    ensures value { Answers (not (is_signed low high word.now)) B2 (λ z. z ≡ int_of word.now) result }
    ensures low { IfOk result (λ z. neg_ℤ (pos low) ≤ℤ z) }
    ensures high { IfOk result (λ z. z ≤ℤ pos high) }
{
    match word.strip_prefix('-') {
        None => unsigned_part(word, high),
        Some(digits) => signed_part(digits, low),
    }
}

/// A side of the screen: 1 to 1024.
pub fn side(word: &str) -> Result<u16, Code>
    ensures value { Answers (not (is_number 1 1024 word.now)) B2 (λ n. n ≡ nat_of word.now) result }
    ensures low { IfOk result (λ n. 1 ≤ n) }
    ensures high { IfOk result (λ n. n ≤ 1024) }
{
    short(word, 1, 1024)
}

/// A length of a window: 0 to 4096.
pub fn extent(word: &str) -> Result<u16, Code>
    ensures value { Answers (not (is_number 0 4096 word.now)) B2 (λ n. n ≡ nat_of word.now) result }
    ensures high { IfOk result (λ n. n ≤ 4096) }
{
    short(word, 0, LONGEST)
}

/// A time of an input device: 1 to 4,294,967,295.
pub fn time(word: &str) -> Result<u32, Code>
    ensures value { Answers (not (is_number 1 4294967295 word.now)) B2 (λ n. n ≡ nat_of word.now) result }
    ensures low { IfOk result (λ n. 1 ≤ n) }
{
    number(word, 1, u32::MAX)
}

/// The offset of a child of a Z, or the distance of a Translate, along one axis: -2048 to 2048.
pub fn offset(word: &str) -> Result<i32, Code>
    ensures value { Answers (not (is_signed 2048 2048 word.now)) B2 (λ z. z ≡ int_of word.now) result }
    ensures low { IfOk result (λ z. neg_ℤ (pos 2048) ≤ℤ z) }
    ensures high { IfOk result (λ z. z ≤ℤ pos 2048) }
{
    signed(word, 2048, 2048)
}

/// The origin of a tile along one axis: -4096 to 4096.
pub fn shift(word: &str) -> Result<i32, Code>
    ensures value { Answers (not (is_signed 4096 4096 word.now)) B2 (λ z. z ≡ int_of word.now) result }
    ensures low { IfOk result (λ z. neg_ℤ (pos 4096) ≤ℤ z) }
    ensures high { IfOk result (λ z. z ≤ℤ pos 4096) }
{
    signed(word, 4096, 4096)
}

/// An edge of a rectangle that a client names: -8192 to 8192.
pub fn edge(word: &str) -> Result<i32, Code>
    ensures value { Answers (not (is_signed 8192 8192 word.now)) B2 (λ z. z ≡ int_of word.now) result }
    ensures low { IfOk result (λ z. neg_ℤ (pos 8192) ≤ℤ z) }
    ensures high { IfOk result (λ z. z ≤ℤ pos 8192) }
{
    signed(word, 8192, 8192)
}

/// A coordinate of the cursor: -8192 to 8191.
pub fn place(word: &str) -> Result<i32, Code>
    ensures value { Answers (not (is_signed 8192 8191 word.now)) B2 (λ z. z ≡ int_of word.now) result }
    ensures low { IfOk result (λ z. neg_ℤ (pos 8192) ≤ℤ z) }
    ensures high { IfOk result (λ z. z ≤ℤ pos 8191) }
{
    signed(word, 8192, 8191)
}

/// The lengths of a shape, at most 4096. None is less than the one before it.
pub fn shape(words: &ShapeWords) -> Result<Shape, Code>
    ensures { Answers (not (is_shape words.now.lo.now words.now.pref.now words.now.hi.now)) B2
        (λ s. s ≡ record {
          lo = nat_of words.now.lo.now;
          pref = nat_of words.now.pref.now;
          hi = nat_of words.now.hi.now;
        })
        result }
{
    let lo = short(words.lo, 0, LONGEST)?;
    let pref = short(words.pref, lo, LONGEST)?;
    let hi = short(words.hi, pref, LONGEST)?;
    Ok(Shape { lo, pref, hi })
}

/// Eight bytes in 16 hex digits of either case.
#[tactic(auto, unfolding(tr_grammar::specs::Words::is_hex, tr_grammar::specs::Words::hex_of))]
pub fn rows(word: &str) -> Result<[u8; 8], Code>
    ensures { Answers (not (is_hex 8 word.now)) B2 (λ rows. rows ≡ hex_of 8 word.now) result }
{
    match <[u8; 8] as FromHex>::from_hex(word) {
        Ok(rows) => Ok(rows),
        Err(_) => Err(Code::B2),
    }
}

/// The byte of two hex digits.
#[tactic(auto, unfolding(tr_grammar::specs::Words::is_hex, tr_grammar::specs::Words::hex_of))]
fn hex_byte(word: &str) -> Result<u8, Code>
    ensures { Answers (not (is_hex 1 word.now)) B2 (λ b. b ≡ byte_of word.now) result }
{
    match <[u8; 1] as FromHex>::from_hex(word) {
        Ok(bytes) => Ok(bytes[0]),
        Err(_) => Err(Code::B2),
    }
}

/// A byte that has a glyph, in two hex digits of either case: 20 to 7e.
#[tactic(auto, unfolding(tr_grammar::specs::Words::is_glyph_byte))]
pub fn glyph_byte(word: &str) -> Result<u8, Code>
    ensures value { Answers (not (is_glyph_byte word.now)) B2 (λ b. b ≡ byte_of word.now) result }
    ensures first { IfOk result (λ b. 32 ≤ b) }
    ensures last { IfOk result (λ b. b ≤ 126) }
{
    let byte = hex_byte(word)?;
    if is_printable(byte) {
        Ok(byte)
    } else {
        Err(Code::B2)
    }
}

/// The rest of a line as a text of at most 80 bytes.
pub fn text(alloc: Global, rest: &str) -> Result<Line, LineRefused>
    requires { AllPass is_printable rest.now }
    ensures { AnswersOrWants (not (nat_le (length rest.now) 80)) B2 (λ t. t ≡ rest.now) result }
{
    if rest.len() <= LINE {
        Ok(Line::of(alloc, rest.as_bytes())?)
    } else {
        Err(LineRefused::Fault(Code::B2))
    }
}
