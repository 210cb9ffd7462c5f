// The characters of a text as a dump shows them, piece by piece.
ghost use Rattle.std.specs.Prelude.{◌≡◌, drop};
ghost use Rattle.listing.specs.Text.{text_of};
ghost use Rattle.listing.specs.Characters.{is_hidden, escape, shown_byte, first_piece};

use crate::digits::hex;
use crate::string::{Text, word};

// What is shown for some bytes of a text, at most four bytes, and how many bytes of the text these are.
#[derive(Clone, Copy, PartialEq, Eq)]
pub struct Piece {
    pub text: Text,
    pub length: usize,
}

// Whether a byte is a control character or the backslash.
fn is_hidden(b: u8) -> bool
    ensures { result ≡ is_hidden b }
{
    b.is_ascii_control() || b == b'\\'
}

// A character by its number.
fn escape(n: u8) -> Text
    ensures { result ≡ text_of (escape n) }
{
    word(b"\\x").joined(word(&hex::<2>(u32::from(n))))
}

// A byte by itself.
fn shown_byte(b: u8) -> Text
    ensures { result ≡ text_of (shown_byte b) }
{
    if is_hidden(b) {
        return escape(b);
    }
    word(&[b])
}

// The piece at a place of a text: a control character or the backslash by its number, any other byte as it stands. No
// piece at the end or past it: no byte is shown, for none of the text. The place stands beside the text, since a caller
// goes on in it by the length of the piece. A piece of length 0 is how the definition says that there is none
// (specs/Characters.antt `first_piece`), so the answer is no Option.
pub fn piece_at(s: &[u8], at: usize) -> Piece
    ensures { result ≡ first_piece (drop at s.now) }
{
    match s.get(at..).unwrap_or(&[]) {
        [] => Piece {
            text: word(b""),
            length: 0,
        },
        [0xC2, c @ 0x80..=0x9F, ..] => Piece {
            text: escape(*c),
            length: 2,
        },
        [b, ..] => Piece {
            text: shown_byte(*b),
            length: 1,
        },
    }
}
