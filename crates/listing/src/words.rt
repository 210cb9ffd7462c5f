// Words: what stands in a line, with its space before it.
ghost use Rattle.std.specs.Prelude.{◌≡◌, ◌++◌};
ghost use Rattle.listing.specs.Text.{text_of};
ghost use Rattle.listing.specs.Words.{newline, spaced, number_word, integer_word, hex_word, cause_word, head_of};

use crate::Label;
use crate::digits::hex;
use crate::string::{Text, word};
use itoa::{Buffer, Integer};
use reader::Cause;

// The end of a line.
pub fn newline() -> Text
    ensures { result ≡ text_of newline }
{
    word(b"\n")
}

// Some bytes after a space.
pub(crate) fn spaced(s: &[u8]) -> Text
    ensures { result ≡ text_of (spaced s.now) }
{
    word(b" ").joined(word(s))
}

// A number as std prints it, after a space. By its contract Display may fail to write any number, so itoa writes the
// digits.
fn printed<I: Integer>(n: I) -> Text
    ensures { result ≡ text_of (spaced (I.text n)) }
{
    spaced(Buffer::new().format(n).as_bytes())
}

// A count in decimal, after a space.
#[tactic(auto, using(crate::proofs::Numbers::std_digits))]
pub fn number(n: usize) -> Text
    ensures { result ≡ text_of (number_word n) }
{
    printed(n)
}

// A head and a number, which is no length of it.
pub(crate) fn numbered(head: &[u8], n: usize) -> Text
    ensures { result ≡ text_of (head.now ++ number_word n) }
{
    word(head).joined(number(n))
}

// An integer in decimal, after a space.
#[tactic(auto, using(crate::proofs::Numbers::std_digits))]
pub fn decimal(n: i64) -> Text
    ensures { result ≡ text_of (integer_word n) }
{
    printed(n)
}

// A 16-bit integer in decimal, after a space.
pub fn short(n: i16) -> Text
    ensures { result ≡ text_of (integer_word n) }
{
    decimal(i64::from(n))
}

// A pattern of 32 bits in eight hex digits, after a space.
pub fn hex_word(p: u32) -> Text
    ensures { result ≡ text_of (hex_word p) }
{
    spaced(&hex::<8>(p))
}

// Why bytes were skipped, in one word after a space.
pub fn cause(cause: Cause) -> Text
    ensures { result ≡ text_of (cause_word cause) }
{
    match cause {
        Cause::Searching => word(b" searching"),
        Cause::NoSync => word(b" sync"),
        Cause::Large => word(b" large"),
        Cause::Uneven => word(b" uneven"),
    }
}

// The head of a line of the dump, after two spaces.
pub fn label(which: Label) -> Text
    ensures { result ≡ text_of (head_of which) }
{
    match which {
        Label::Time => word(b"  time"),
        Label::Mark => word(b"  mark"),
        Label::Packing => word(b"  SIQP"),
        Label::Rate => word(b"  SR__"),
        Label::Bandwidth => word(b"  BW__"),
        Label::GroupBandwidth => word(b"  GCBW"),
        Label::Frequency => word(b"  CF__"),
        Label::FullScale => word(b"  dBFS"),
        Label::TotalGain => word(b"  dBTG"),
        Label::FloatScale => word(b"  FFS_"),
        Label::GroupPacking => word(b"  GIQP"),
        Label::GroupFrequencies => word(b"  GCF_"),
        Label::GroupGains => word(b"  GRG_"),
        Label::Sum => word(b"  sum"),
        Label::Samples => word(b"  samples"),
        Label::Text => word(b"  text"),
        Label::Value => word(b"  value"),
        Label::Cause => word(b"  cause"),
    }
}
