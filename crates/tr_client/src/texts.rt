ghost use Rattle.std.specs.Prelude.{◌≡◌, ◌≤◌, ◌+◌, ◌++◌, length, take, decimal, IfOk, OnOk, OnErr};
ghost use Rattle.std.specs.List.{flat_map};
ghost use Rattle.tr_base.specs.Lines.{IsLine};
ghost use Rattle.tr_client.specs.Words.{with_text};

use itoa::Buffer;
use std::alloc::Global;
use tr_base::{LINE, Line, NoMemory};

/// Appends the texts to `out`, all of them or none.
pub fn append_all(out: &mut Vec<u8>, texts: &[&[u8]]) -> Result<(), NoMemory>
    ensures ok { OnOk result (out.new.items ≡ out.old.items ++ flat_map (λ text. text.now) texts.now) }
    ensures err { OnErr result (out.new.items ≡ out.old.items) }
{
    let len = out.len();
    for text in texts {
        if out.extend_from_slice(text).is_err() {
            out.truncate(len);
            return Err(NoMemory);
        }
    }
    Ok(())
}

/// Appends a word, a space and a text to `out`, or the word alone if the text is empty. If memory runs
/// out, nothing changes.
pub fn append_with_text(out: &mut Vec<u8>, word: &[u8], text: &Line) -> Result<(), NoMemory>
    ensures ok { OnOk result (out.new.items ≡ out.old.items ++ with_text word.now text.now) }
    ensures err { OnErr result (out.new.items ≡ out.old.items) }
{
    let bytes = text.bytes();
    if bytes.is_empty() {
        append_all(out, &[word])
    } else {
        append_all(out, &[word, b" ", bytes])
    }
}

/// A small number in decimal, as a line.
pub fn decimal_line(alloc: Global, n: u8) -> Result<Line, NoMemory>
    ensures { IfOk result (λ line. line ≡ decimal n) }
{
    let mut buffer = Buffer::new();
    Line::of(alloc, buffer.format(n).as_bytes())
}

/// Two texts, one after the other, as one line.
#[tactic(auto, using(crate::proofs::TextLemmas::line_in_a_row))]
pub fn line_in_a_row(alloc: Global, front: &[u8], back: &[u8]) -> Result<Line, NoMemory>
    requires front { IsLine front.now }
    requires back { IsLine back.now }
    requires short { length front.now + length back.now ≤ LINE }
    ensures { IfOk result (λ line. line ≡ front.now ++ back.now) }
{
    let all = both(front, back);
    Line::of(alloc, &all[..front.len() + back.len()])
}

/// Two texts in a row, with zeros after them.
fn both(front: &[u8], back: &[u8]) -> [u8; LINE]
    requires { length front.now + length back.now ≤ LINE }
    ensures long { length result ≡ LINE }
    ensures text { take (length front.now + length back.now) result ≡ front.now ++ back.now }
{
    let mut all = [0; LINE];
    let (first, rest) = all.split_at_mut(front.len());
    first.copy_from_slice(front);
    rest[..back.len()].copy_from_slice(back);
    all
}
