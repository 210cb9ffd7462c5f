// UTF-8: whether bytes are a run of the characters of RFC 3629.
#![tactic(auto)]

ghost use Rattle.std.specs.Prelude.{◌≡◌, true, false, ◌∷◌, ◌<◌, ◌≤◌, length, replicate, MatchOption};
ghost use Rattle.text.specs.Utf8.{between, utf8_tail, within, fits, character, is_utf8, PlainFront, Leads};

// Whether b lies in low..=high.
fn lies(b: u8, low: u8, high: u8) -> bool
    ensures { result ≡ within (between low high) b }
{
    (low <= b) & (b <= high)
}

// Whether the first N bytes continue a character.
fn tails<const N: usize>(s: &[u8]) -> bool
    ensures { result ≡ fits (replicate N utf8_tail) s.now }
{
    match s.get(..N) {
        Some(bytes) => bytes.iter().all(|b| lies(*b, 0x80, 0xBF)),
        None => false,
    }
}

// Whether the first byte continues a character and lies in low..=high, and N bytes after it continue one too.
fn second<const N: usize>(s: &[u8], low: u8, high: u8) -> bool
    ensures { result ≡ fits (between low high ∷ replicate N utf8_tail) s.now }
{
    match s.split_first() {
        Some((b, rest)) => lies(*b, low, high) & tails::<N>(rest),
        None => false,
    }
}

// How many bytes the character takes that begins with first and goes on in rest, None where they begin none. The first byte
// comes by itself, so that the compiler asks once whether there are enough.
fn character(first: u8, rest: &[u8]) -> Option<usize>
    ensures { MatchOption result (character (first ∷ rest.now) ≡ 0) (λ n. (0 < n) × (n ≡ character (first ∷ rest.now))) }
{
    match first {
        0x00..=0x7F => Some(1),
        0xC2..=0xDF => tails::<1>(rest).then_some(2),
        0xE0 => second::<1>(rest, 0xA0, 0xBF).then_some(3),
        0xE1..=0xEC => tails::<2>(rest).then_some(3),
        0xED => second::<1>(rest, 0x80, 0x9F).then_some(3),
        0xEE..=0xEF => tails::<2>(rest).then_some(3),
        0xF0 => second::<2>(rest, 0x90, 0xBF).then_some(4),
        0xF1..=0xF3 => tails::<3>(rest).then_some(4),
        0xF4 => second::<2>(rest, 0x80, 0x8F).then_some(4),
        _ => None,
    }
}

// Whether the bytes are plain, below 80 hex. The loop has no early way out, so that many bytes are compared at a time.
fn plain(s: &[u8]) -> bool
    ensures { result ≡ true → PlainFront s.now (length s.now) }
{
    let mut top = 0u8;
    for b in s {
        top = top.max(*b);
    }
    top < 0x80
}

// How many bytes the whole groups of eight plain bytes take that lead. No iterator over chunks: the promise is of the whole
// slice, from which the groups are taken one by one.
fn eights(s: &[u8]) -> usize
    ensures { PlainFront s.now result }
{
    let mut n = 0;
    while let Some(group) = s[n..].first_chunk::<8>() {
        if !plain(group) {
            break;
        }
        n += 8;
    }
    n
}

// How many plain bytes lead.
fn plains(s: &[u8]) -> usize
    ensures { PlainFront s.now result }
{
    let n = eights(s);
    let rest = &s[n..];
    n + rest.iter().position(|b| 0x80 <= *b).unwrap_or(rest.len())
}

// How many bytes whole characters at the front take, up to end or past it; None where before end no character stands. The
// loop goes by the widths of characters, and the last one may reach past end, so that s is not cut there.
fn characters(s: &[u8], end: usize) -> Option<usize>
    requires { end ≤ length s.now }
    ensures { MatchOption result (is_utf8 s.now ≡ false) (λ n. (end ≤ n) × Leads s.now n) }
{
    let mut at = 0;
    while at < end {
        let rest = &s[at..];
        if rest[0] < 0x80 {
            at += 1 + plains(&rest[1..end - at]);
        } else {
            at += character(rest[0], &rest[1..])?;
        }
    }
    Some(at)
}

// Whether the bytes are UTF-8 as RFC 3629 has it. Blocks of ASCII are passed over at once; behind any other block the next
// one begins where its last character ends. `str::from_utf8` promises it by the characters that the bytes encode, and
// not by that table, which `is_utf8` is.
pub fn utf8(bytes: &[u8]) -> bool
    ensures { result ≡ is_utf8 bytes.now }
{
    let mut rest = bytes;
    while let Some((block, ahead)) = rest.split_first_chunk::<32>() {
        if plain(block) {
            rest = ahead;
        } else {
            match characters(rest, 32) {
                Some(n) => rest = &rest[n..],
                None => return false,
            }
        }
    }
    characters(rest, rest.len()).is_some()
}
