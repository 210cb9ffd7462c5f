// A text by value, and how one grows.
ghost use Rattle.std.specs.Prelude.{◌≡◌, List, ℕ, [], ◌++◌};
ghost use Rattle.listing.specs.Text.{text_of};

// A text by value: the first len of its bytes. The functions of this crate leave 0 in the places behind them. No slice
// or library type stands for the two fields, since `text_of` names both, and with it every promise of a text.
#[derive(Clone, Copy, PartialEq, Eq)]
pub struct Text {
    pub bytes: [u8; 96],
    pub len: usize,
}

// The text of some bytes; of more than 96 the first 96.
pub fn word(s: &[u8]) -> Text
    ensures { result ≡ text_of s.now }
{
    Text::empty().extended(s)
}

impl Text {
    // No byte.
    #[tactic(auto, unfolding(crate::specs::Text::padded))]
    fn empty() -> Text
        ensures { result ≡ text_of [] }
    {
        Text {
            bytes: [0; 96],
            len: 0,
        }
    }

    // The bytes of s more, as many as fit.
    #[tactic(auto, using(crate::proofs::Texts::growing))]
    fn extended(self, s: &[u8]) -> Text
        ensures { (l : List ℕ) → self ≡ text_of l → result ≡ text_of (l ++ s.now) }
    {
        let mut bytes = self.bytes;
        let len = self.len.min(bytes.len());
        let more = s.len().min(bytes.len() - len);
        let end = len + more;
        bytes[len..end].copy_from_slice(&s[..more]);
        Text { bytes, len: end }
    }

    // One text after another, as much as fits.
    #[tactic(auto, using(crate::proofs::Texts::growing))]
    pub(crate) fn joined(self, other: Text) -> Text
        ensures { (l m : List ℕ) → self ≡ text_of l → other ≡ text_of m → result ≡ text_of (l ++ m) }
    {
        let shown = other.len.min(other.bytes.len());
        self.extended(&other.bytes[..shown])
    }
}
