//! Lines as sequences of words.
ghost use Rattle.std.specs.Prelude.{◌≡◌, ◌++◌, codes, take, OnOk, OnErr};
ghost use Rattle.std.specs.List.{flat_map};
ghost use Rattle.tr_dump.specs.Begins.{Begins};
ghost use Rattle.tr_dump.specs.Words.{word_text, behind_space};

use itoa::Buffer;
use tr_base::NoMemory;

/// A word of a line.
#[derive(Clone, Copy)]
pub(crate) enum Word<'a> {
    Text(&'a [u8]),
    /// A number in decimal.
    Number(u64),
    /// A number that may be negative, in decimal.
    Signed(i32),
}

/// Appends a word, or nothing.
fn append_word(word: &Word, out: &mut Vec<u8>) -> Result<(), NoMemory>
    ensures ok { OnOk result (out.new.items ≡ out.old.items ++ word_text word.now) }
    ensures err { OnErr result (out.new.items ≡ out.old.items) }
{
    let mut buffer = Buffer::new();
    Ok(match word {
        Word::Text(text) => out.extend_from_slice(text)?,
        Word::Number(n) => out.extend_from_slice(buffer.format(*n).as_bytes())?,
        Word::Signed(n) => out.extend_from_slice(buffer.format(*n).as_bytes())?,
    })
}

/// Appends a word, and then others, each after a space.
#[tactic(auto, using(crate::proofs::BeginsLemmas::begins_itself, crate::proofs::BeginsLemmas::begins_before))]
pub(crate) fn append_words(out: &mut Vec<u8>, word: &[u8], others: &[Word]) -> Result<(), NoMemory>
    ensures ok { OnOk result
        (out.new.items ≡ out.old.items ++ (word.now ++ flat_map behind_space others.now)) }
    ensures err { OnErr result (Begins out.new.items out.old.items) }
{
    out.extend_from_slice(word)?;
    append_behind(out, others)
}

/// Appends words, each after a space.
#[tactic(auto, using(crate::proofs::BeginsLemmas::begins_itself, crate::proofs::BeginsLemmas::begins_before))]
fn append_behind(out: &mut Vec<u8>, words: &[Word]) -> Result<(), NoMemory>
    ensures ok { OnOk result (out.new.items ≡ out.old.items ++ flat_map behind_space words.now) }
    ensures err { OnErr result (Begins out.new.items out.old.items) }
{
    for word in words {
        out.push(b' ')?;
        append_word(word, out)?;
    }
    Ok(())
}

/// Appends a line: a word, and then others, each after a space.
#[tactic(auto, using(crate::proofs::BeginsLemmas::begins_itself, crate::proofs::BeginsLemmas::begins_before))]
pub(crate) fn append_line(out: &mut Vec<u8>, word: &[u8], others: &[Word]) -> Result<(), NoMemory>
    ensures ok { OnOk result (out.new.items ≡
        out.old.items ++ ((word.now ++ flat_map behind_space others.now) ++ codes "\n")) }
    ensures err { OnErr result (Begins out.new.items out.old.items) }
{
    append_words(out, word, others)?;
    Ok(out.push(b'\n')?)
}

/// Cuts a text back to its first `len` bytes, if the append failed for want of memory.
pub(crate) fn or_nothing(
    appended: Result<(), NoMemory>,
    len: usize,
    out: &mut Vec<u8>,
) -> Result<(), NoMemory>
    ensures same { result ≡ appended }
    ensures ok { OnOk appended (out.new.items ≡ out.old.items) }
    ensures err { OnErr appended (out.new.items ≡ take len out.old.items) }
{
    if appended.is_err() {
        out.truncate(len);
    }
    appended
}
