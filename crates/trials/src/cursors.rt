// Steps and copies at cursors made at will: in step and searching, in the stream and past it, with states that are good
// and that are not.
use crate::digest::Digest;
use effect::Verdict;
use num::{Numbered, Order};
use reader::{Cause, Cursor, Item};
use std::io;

pub(crate) fn both(rt: &impl Print, s: &[u8]) -> io::Result<()> {
    crate::digest::read(rt, "cursors", |order| stream(order, s))
}

// The digest of every answer: each state in step, then searching, at the start, in the middle, at the end and past it.
fn stream(order: Order, s: &[u8]) -> Digest {
    let end = s.len();
    let mut digest = Digest::new();
    for k in 0..crate::states::STATES {
        let state = crate::states::made(k);
        for in_step in [true, false] {
            for place in [0, end / 2, end, end + 1] {
                let cursor = Cursor {
                    place,
                    in_step,
                    state,
                };
                digest = at(order, s, cursor, digest);
            }
        }
    }
    digest
}

// What a step answers, the cursor that comes back, and copies of channel 0 into slices of 64.
fn at(order: Order, s: &[u8], cursor: Cursor, digest: Digest) -> Digest {
    let stepped = cursor.step(order, s);
    let next = stepped.cursor;
    let moved = told(stepped.item, digest)
        .with(next.place as u64)
        .with(u64::from(next.in_step));
    crate::copies::widths(order, s, cursor, 0, 64, moved)
}

// A refusal's number, or a tag and the item's numbers. The numbers of refusal do not come from the library, so that a
// wrong one there shows.
fn told(item: Item, digest: Digest) -> Digest {
    match item {
        Item::PastEnd => digest.refused(2),
        Item::BadState => digest.refused(3),
        Item::End => digest.with(0),
        Item::Skipped {
            place,
            length,
            cause,
        } => digest
            .with(1)
            .with(place as u64)
            .with(length as u64)
            .with(reason(cause)),
        Item::Unfinished { place, length } => digest.with(2).with(place as u64).with(length as u64),
        Item::Chunk {
            place,
            code,
            size,
            verdict,
        } => digest
            .with(3)
            .with(place as u64)
            .with(u64::from(code))
            .with(size as u64)
            .with(number(verdict)),
    }
}

// The trials' own number for each cause: the library has none.
fn reason(cause: Cause) -> u64 {
    match cause {
        Cause::Searching => 0,
        Cause::NoSync => 1,
        Cause::Large => 2,
        Cause::Uneven => 3,
    }
}

// The number of a verdict, or a number of its own for each verdict that has none.
fn number(verdict: Verdict) -> u64 {
    match verdict {
        Verdict::Good => 0,
        Verdict::Unknown => 1,
        Verdict::Ready(_) => 2,
        Verdict::Malformed(fault) => u64::from(fault.number()),
        Verdict::NotCovered => 16,
        Verdict::Waits(lack, _) => u64::from(lack.number()),
    }
}
