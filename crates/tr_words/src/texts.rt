//! A text is cut into lines, and a line into words.
ghost use Rattle.std.specs.Prelude.{◌≡◌, ◌<◌, [], ◌∷◌, ◌++◌, true, false, OnOk, OnErr, MatchOption, IfSome, drop, length, List, ℕ};
ghost use Rattle.std.specs.List.{AllPass};
ghost use Rattle.tr_base.specs.Lines.{is_printable};
ghost use Rattle.tr_grammar.specs.Words.{words_of, rest_after};
ghost use Rattle.tr_grammar.specs.Texts.{is_plain, is_silent, lines_of};
ghost use Rattle.tr_words.specs.Answers.{AreWordsOf, texts};

use crate::lanes::{are_printable, first_space};
use memchr::memchr;
use tr_base::NoMemory;

/// The most bytes that a line may have.
const MOST_BYTES: usize = 1024;

#[tactic(auto, unfolding(tr_grammar::specs::Texts::is_plain))]
fn is_plain(line: &[u8]) -> bool
    ensures { result ≡ is_plain line.now }
{
    line.len() <= MOST_BYTES && are_printable(line)
}

/// The text of a line, of at most 1,024 bytes from hex 20 to 7e.
#[tactic(auto, using(crate::proofs::WordLemmas::text_rules))]
pub fn plain_text(line: &[u8]) -> Option<&str>
    ensures value { MatchOption result (is_plain line.now ≡ false)
        (λ s. (is_plain line.now ≡ true) × (s.now ≡ line.now)) }
    ensures printable { IfSome result (λ s. AllPass is_printable s.now) }
{
    if !is_plain(line) {
        return None;
    }
    // Printable bytes are ASCII, so the bytes are UTF-8.
    Some(unsafe { str::from_utf8_unchecked(line) })
}

/// Whether a line means nothing: it has no byte, or is a comment.
pub fn is_silent(line: &str) -> bool
    ensures { result ≡ is_silent line.now }
{
    match line.as_bytes() {
        [] => true,
        [first, ..] => *first == b'#',
    }
}

/// The text before the first space and the text after it, if there is a space.
#[inline(always)] // so that no call returns the pair through memory
pub fn at_space(text: &str) -> Option<(&str, &str)>
    ensures words { MatchOption result (words_of text.now ≡ text.now ∷ [])
        (λ p. words_of text.now ≡ p.0.now ∷ words_of p.1.now) }
    ensures shorter { IfSome result (λ p. length p.1.now < length text.now) }
    ensures printable { AllPass is_printable text.now → IfSome result (λ p. AllPass is_printable p.1.now) }
{
    match first_space(text.as_bytes()) {
        Some(at) => Some((&text[..at], &text[at + 1..])),
        None => None,
    }
}

/// Replaces the words of the list by the parts of a line between single spaces. If memory runs out, it
/// has only the first of them.
pub fn words_into<'a>(line: &'a str, words: &mut Vec<&'a str>) -> Result<(), NoMemory>
    ensures ok { OnOk result (texts words.new.items ≡ words_of line.now) }
    ensures err { OnErr result ((rest : List (List ℕ)) ×
        (words_of line.now ≡ texts words.new.items ++ rest)) }
{
    words.clear();
    let mut rest = line;
    while let Some((word, behind)) = at_space(rest) {
        words.push(word)?;
        rest = behind;
    }
    words.push(rest)?;
    Ok(())
}

/// The text after the first space.
fn after_word(line: &str) -> &str
    ensures follows { (ws : List (List ℕ)) → AreWordsOf ws line.now → AreWordsOf (drop 1 ws) result.now }
    ensures printable { AllPass is_printable line.now → AllPass is_printable result.now }
{
    match at_space(line) {
        Some((_, rest)) => rest,
        None => "",
    }
}

/// The rest of a line after this number of words.
pub fn rest_after(line: &str, words: usize) -> &str
    requires { AllPass is_printable line.now }
    ensures rest { result.now ≡ rest_after (words_of line.now) words }
    ensures printable { AllPass is_printable result.now }
{
    let mut rest = line;
    for done in 0..words {
        rest = after_word(rest);
    }
    rest
}

/// The first line of some bytes, and the bytes after it.
pub fn first_line(bytes: &[u8]) -> (&[u8], &[u8])
    requires { 0 < length bytes.now }
    ensures lines { lines_of bytes.now ≡ result.0.now ∷ lines_of result.1.now }
    ensures shorter { length result.1.now < length bytes.now }
{
    match memchr(b'\n', bytes) {
        Some(at) => (&bytes[..at], &bytes[at + 1..]),
        None => (bytes, &bytes[bytes.len()..]),
    }
}
