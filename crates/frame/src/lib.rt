// Frames: the sync word, what a stream shows at a place, the search, and finding the byte order.
#![tactic(auto)]

ghost use Rattle.std.specs.Prelude.{◌≡◌, true, ◌+◌, ◌≤◌, ◌<◌, length, drop};
ghost use Rattle.num.specs.Number.{bytes_of};
ghost use Rattle.num.specs.declared.Order.TheVariants.{Little};
ghost use Rattle.frame.specs.Ahead.{ahead_of};
ghost use Rattle.frame.specs.Inner.Passes.{Passes};
ghost use Rattle.frame.specs.Place.{sync_bytes, starts, good_size, bad_size, shows, search_from, order_of, no_word_number, order_said};

use num::{Number, Numbered, Order};

// The sync word, with which each chunk begins.
pub const SYNC: u32 = 0xA1B2C3D4;

// The sync word of one order, read in the other.
const SYNC_TURNED: u32 = 0xD4C3B2A1;

// The bytes of a header: sync word, type and size, four each.
pub const HEADER: usize = 12;

// The bytes of a data chunk before its samples: the header, and a time of eight.
pub const FRONT: usize = 20;

// The most bytes that a body may have.
pub const LIMIT: usize = 69632;

// What is wrong with a size that is not good.
#[derive(Clone, Copy, PartialEq, Eq)]
pub enum BadSize {
    // It is over the limit, a multiple of 4 or not.
    Large,
    // It is within the limit, but no multiple of 4.
    Uneven,
}

// What stands at a place of a stream. The code is the chunk's type as a number, the size that of its body.
#[derive(Clone, Copy, PartialEq, Eq)]
pub enum At {
    // No sync word.
    NoSync,
    // A whole header, with a size that is not good.
    Bad(BadSize),
    // A sync word, and too few bytes behind it for the header or for the body; or the last bytes of the stream, one to
    // three, where the sync word begins with them.
    Unfinished,
    // A whole chunk.
    Complete { code: u32, size: usize },
}

// What stands at a place where no chunk begins.
#[derive(Clone, Copy, PartialEq, Eq)]
pub enum Stray {
    // No sync word.
    NoSync,
    // A bad header.
    Bad(BadSize),
}

// What is ahead of a place.
#[derive(Clone, Copy, PartialEq, Eq)]
pub enum Ahead {
    // No byte.
    End,
    // Bytes that belong to no chunk, and what stands where they begin.
    Stretch(Stray),
    // A chunk that breaks off at the end of the stream, in its sync word or behind it.
    Cut,
    // A whole chunk.
    Chunk { code: u32, size: usize },
}

// That a stream has no sync word, so that nothing says its byte order.
#[derive(Clone, Copy, PartialEq, Eq)]
pub struct NoSyncWord;

impl Numbered for NoSyncWord {
    ghost number_of = { no_word_number };

    fn number(self) -> u32 {
        1
    }
}

// Whether a body may have this many bytes: up to the limit, and a multiple of 4.
pub fn good_size(size: usize) -> bool
    ensures { result ≡ good_size size }
{
    (size <= LIMIT) & (size % 4 == 0)
}

// What is wrong with a size that is not good: one that is over the limit and no multiple of 4 is over the limit.
fn bad_size(size: usize) -> BadSize
    ensures { result ≡ bad_size size }
{
    if size <= LIMIT {
        BadSize::Uneven
    } else {
        BadSize::Large
    }
}

// What the stream shows at a place where the sync word and a whole header stand.
// Order, stream and place go one by one, as in the public calls (docs/CALLS.md): each of these would make a struct.
#[tactic(auto, using(crate::proofs::Laws::header_read))]
fn headed(order: Order, s: &[u8], place: usize) -> At
    requires { (place + 12 ≤ length s.now) × (starts (sync_bytes order) (drop place s.now) ≡ true) }
    ensures { result ≡ shows order (drop place s.now) }
{
    let code = u32::at(order, s, place + 4);
    let size = u32::at(order, s, place + 8) as usize;
    if !good_size(size) {
        return At::Bad(bad_size(size));
    }
    if s.len() - place - HEADER < size {
        return At::Unfinished;
    }
    At::Complete { code, size }
}

// What the stream shows at a place where fewer bytes are left than a header has: an unfinished end where these bytes
// begin with the sync word, or the sync word begins with them; else no sync. Only the last bytes of a stream come to
// it: with its comparisons `look` would be too long to be inlined where it is called for each chunk.
#[inline(never)]
#[tactic(auto, using(crate::proofs::Laws::end_read))]
fn near_end(order: Order, s: &[u8], place: usize) -> At
    requires { (place < length s.now) × (length s.now < place + 12) }
    ensures { result ≡ shows order (drop place s.now) }
{
    let sync = SYNC.bytes(order);
    let rest = &s[place..];
    if rest.starts_with(&sync) | sync.starts_with(rest) {
        At::Unfinished
    } else {
        At::NoSync
    }
}

// The four bytes of an order's sync word, read as a number in little order, which our processors do without a swap.
// Two constants: `u32::of(Order::Little, SYNC.bytes(order))` would be no plainer, and turn the word twice.
fn sync_in_little(order: Order) -> u32
    ensures { bytes_of Little 4 result ≡ sync_bytes order }
{
    match order {
        Order::Big => SYNC_TURNED,
        Order::Little => SYNC,
    }
}

// What stands at a place of the stream. At the end and past it the answer is NoSync.
#[tactic(auto, using(crate::proofs::Laws::word_read))]
pub fn look(order: Order, s: &[u8], place: usize) -> At
    ensures { result ≡ shows order (drop place s.now) }
{
    if s.len() <= place {
        return At::NoSync;
    }
    if s.len() - place < HEADER {
        return near_end(order, s, place);
    }
    if u32::at(Order::Little, s, place) != sync_in_little(order) {
        return At::NoSync;
    }
    headed(order, s, place)
}

// What is ahead of a place: the end, bytes that are no chunk, a chunk that breaks off, or a whole chunk. At the end and
// past it the answer is End. Reading, counting, copying and the check of a file ask this at each place.
#[tactic(auto, using(crate::proofs::Looks::place_read))]
pub fn ahead_of(order: Order, s: &[u8], place: usize) -> Ahead
    ensures { result ≡ ahead_of order (drop place s.now) }
{
    if s.len() <= place {
        return Ahead::End;
    }
    match look(order, s, place) {
        At::Complete { code, size } => Ahead::Chunk { code, size },
        At::Unfinished => Ahead::Cut,
        At::NoSync => Ahead::Stretch(Stray::NoSync),
        At::Bad(size) => Ahead::Stretch(Stray::Bad(size)),
    }
}

// A stream, and the two bytes that a search looks for in front of a place.
#[derive(Clone, Copy)]
struct Front<'a> {
    s: &'a [u8],
    first: u8,
    second: u8,
}

impl<'a> Front<'a> {
    // Whether none of the N places from p on has the two bytes in front. The loop has no early way out, so that the
    // compiler compares many bytes at a time.
    fn none_of<const N: usize>(&self, p: usize) -> bool
        requires { p + N < length self.now.s.now }
        ensures { result ≡ true → Passes self.now p (p + N) }
    {
        let mut hit = false;
        for k in 0..N {
            let i = p + k;
            hit |= (self.s[i] == self.first) & (self.s[i + 1] == self.second);
        }
        !hit
    }

    // The place from `from` on, at most `to`, up to which no place of whole groups of N has the two bytes in front. Not
    // a walk over chunks: the last place of a group needs the first byte behind it.
    fn groups<const N: usize>(&self, from: usize, to: usize) -> usize
        requires { (0 < N) × (from ≤ to) × (to < length self.now.s.now) }
        ensures most { result ≤ to }
        ensures passed { Passes self.now from result }
    {
        let mut p = from;
        while N <= to - p && self.none_of::<N>(p) {
            p += N;
        }
        p
    }

    // The first place from `from` on that has the two bytes in front, or the last of all. It may be near: whole blocks
    // are passed over where it is not.
    fn pass(&self, from: usize) -> usize
        requires { from < length self.now.s.now }
        ensures { Passes self.now from result }
    {
        let end = self.s.len() - 1;
        let to = end.min(from + 16);
        let mut p = self.groups::<16>(from, to);
        if p == to {
            p = self.groups::<64>(to, end);
        }
        let p = self.groups::<8>(p, end);
        self.groups::<1>(p, end)
    }
}

// Looks for a chunk: the first place from `from` on where one is complete or unfinished. None where there is none, and
// where `from` lies past the end. The loop over places is left from inside the comparison of four bytes, which `look`
// makes of them as one word.
#[tactic(auto, using(crate::proofs::Passes::search_read))]
pub fn search(order: Order, s: &[u8], from: usize) -> Option<usize>
    ensures { result ≡ search_from order s.now from }
{
    let word = SYNC.bytes(order);
    let front = Front {
        s,
        first: word[0],
        second: word[1],
    };
    let mut place = from;
    'places: loop {
        if s.len() <= place {
            break None;
        }
        place = front.pass(place);
        match look(order, s, place) {
            At::Complete { .. } | At::Unfinished => break 'places Some(place),
            At::NoSync => place += 1,
            // No sync word begins within one.
            At::Bad(_) => place += 4,
        }
    }
}

// Finds the byte order of a stream: that of the first sync word in it, whichever of the two orders this has. An error,
// number 1, where no sync word of either order stands in it.
#[tactic(auto, using(crate::proofs::Laws::order_read))]
pub fn find_order(s: &[u8]) -> Result<Order, NoSyncWord>
    ensures { order_said result ≡ order_of s.now }
{
    // A loop: each of two words ends it with another order, so `find_map` would be the same tests in a closure.
    for place in 0..s.len() {
        let word = u32::at(Order::Big, s, place);
        if word == SYNC {
            return Ok(Order::Big);
        }
        if word == SYNC_TURNED {
            return Ok(Order::Little);
        }
    }
    Err(NoSyncWord)
}
