// Copies at each cursor of a stream: of both widths, from channels that are there and that are not, into slices with
// and without room.
use crate::digest::Digest;
use num::Order;
use reader::Cursor;
use samples::Uncopied;
use std::io;

pub(crate) fn both(rt: &impl Print, s: &[u8]) -> io::Result<()> {
    crate::digest::read(rt, "copies", |order| stream(order, s))
}

// The digest of all copies, at the cursor before each step.
fn stream(order: Order, s: &[u8]) -> Digest {
    let mut cursor = Cursor::new();
    let mut digest = Digest::new();
    for _ in 0..reader::count(order, s) {
        for channel in [0, 1, 15, 16] {
            for room in [0, 6, 64] {
                digest = widths(order, s, cursor, channel, room, digest);
            }
        }
        cursor = cursor.step(order, s).cursor;
    }
    digest
}

// What a copy of each width answers, and what both slices then hold. There is room for 64 numbers at most.
pub(crate) fn widths(
    order: Order,
    s: &[u8],
    cursor: Cursor,
    channel: usize,
    room: usize,
    digest: Digest,
) -> Digest {
    let mut numbers = [-21846i16; 64];
    let mut patterns = [0xAAAA_AAAAu32; 64];
    let room = room.min(64);
    let shorts = samples::shorts_at(order, s, cursor, channel, &mut numbers[..room]);
    let floats = samples::patterns_at(order, s, cursor, channel, &mut patterns[..room]);
    let answered = told(floats, told(shorts, digest));
    numbers
        .iter()
        .zip(&patterns)
        .fold(answered, |sum, (number, pattern)| {
            sum.with(u64::from(num::pattern16(*number)))
                .with(u64::from(*pattern))
        })
}

// The answer of a copy. The numbers of refusal do not come from the library, so that a wrong one there shows.
fn told(copied: Result<usize, Uncopied>, digest: Digest) -> Digest {
    match copied {
        Ok(n) => digest.with(n as u64),
        Err(Uncopied::PastEnd) => digest.refused(2),
        Err(Uncopied::BadState) => digest.refused(3),
        Err(Uncopied::TooShort) => digest.refused(33),
        Err(Uncopied::NoChannel) => digest.refused(34),
        Err(Uncopied::NotReady) => digest.refused(35),
    }
}
