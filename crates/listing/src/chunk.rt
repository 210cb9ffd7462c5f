// The line of a chunk.
ghost use Rattle.std.specs.Prelude.{◌≡◌};
ghost use Rattle.num.specs.Number.{bytes_of};
ghost use Rattle.num.specs.declared.Order.TheVariants.{Big};
ghost use Rattle.body.specs.Kind.{kind_of};
ghost use Rattle.effect.specs.Says.{verdict_said};
ghost use Rattle.listing.specs.Text.{text_of};
ghost use Rattle.listing.specs.Words.{spaced};
ghost use Rattle.listing.specs.Lines.{name_by, verdict_word, chunk_line};

use crate::string::{Text, word};
use crate::words::{hex_word, newline, number, numbered, spaced};
use body::Kind;
use effect::Verdict;
use num::Numbered;

// The place, name, size and verdict.
pub(crate) fn chunk(place: usize, code: u32, size: usize, verdict: Verdict) -> Text
    ensures { result ≡ text_of (chunk_line place code size (verdict_said verdict)) }
{
    numbered(b"chunk", place)
        .joined(name(code))
        .joined(number(size))
        .joined(judged(verdict))
        .joined(newline())
}

// The letters of a known type, or the digits of another.
fn name(code: u32) -> Text
    ensures { result ≡ text_of (name_by (kind_of code) code) }
{
    match body::kind_of(code) {
        Kind::Unknown => hex_word(code),
        _ => letters(code),
    }
}

// The four letters, the first the most significant byte.
fn letters(code: u32) -> Text
    ensures { result ≡ text_of (spaced (bytes_of Big 4 code)) }
{
    spaced(&body::letters_of(code))
}

// The word of a verdict, with its number where it has one.
fn judged(verdict: Verdict) -> Text
    ensures { result ≡ text_of (verdict_word (verdict_said verdict)) }
{
    match verdict {
        Verdict::Good | Verdict::Ready(_) => word(b" ok"),
        Verdict::Unknown => word(b" unknown"),
        Verdict::Malformed(_) | Verdict::NotCovered => numbered(b" bad", verdict.number() as usize),
        Verdict::Waits(..) => numbered(b" wait", verdict.number() as usize),
    }
}
