// For each ready chunk of the recording on standard input: its time, its centre frequency if that is known, and for
// each channel its largest sample.
#![tactic(auto)]

use body::Data;
use effect::Verdict;
use num::Order;
use reader::{Cursor, Item, Stepped};
use show::print;
use std::io;

fn main(rt: HostRuntime) -> io::Result<()> {
    let mut bytes = [0u8; 65536];
    let n = input::filled(&mut rt.reader(), &mut bytes)?;
    recording(&rt, &bytes[..n])
}

fn recording(rt: &impl Print, s: &[u8]) -> io::Result<()> {
    if let Ok(order) = frame::find_order(s) {
        items(rt, order, s)?;
    }
    Ok(())
}

// One step after the other. Each item has a byte at least, so there are no more steps than bytes.
// Output, order and bytes go on one by one, as the library takes them: a struct would be taken apart for each call.
fn items(rt: &impl Print, order: Order, s: &[u8]) -> io::Result<()> {
    let mut cursor = Cursor::new();
    for _ in 0..s.len() {
        let stepped = cursor.step(order, s);
        let item = stepped.item;
        if let Item::End = item {
            break;
        }
        chunk(rt, order, s, stepped)?;
        cursor = stepped.cursor;
    }
    Ok(())
}

// A line for a chunk that is ready, none for any other item.
fn chunk(rt: &impl Print, order: Order, s: &[u8], stepped: Stepped) -> io::Result<()> {
    match stepped.item {
        Item::Chunk {
            verdict: Verdict::Ready(data),
            ..
        } => line(rt, order, s, stepped, data),
        _ => Ok(()),
    }
}

// The frequency is `-` where none is known. Channels are numbered from 0, and the first number that there is not ends
// them.
fn line(rt: &impl Print, order: Order, s: &[u8], stepped: Stepped, data: Data) -> io::Result<()> {
    print(rt, listing::word(b"peak"))?;
    print(rt, listing::decimal(data.time))?;
    let centre = stepped.shown.values.centre;
    let frequency = if centre.present {
        listing::decimal(centre.value)
    } else {
        listing::word(b" -")
    };
    print(rt, frequency)?;
    for channel in 0..16 {
        shorts(rt, order, s, stepped, channel)?;
        patterns(rt, order, s, stepped, channel)?;
    }
    print(rt, listing::newline())
}

// The largest of the 16-bit numbers of a channel; nothing where it has none.
fn shorts(
    rt: &impl Print,
    order: Order,
    s: &[u8],
    stepped: Stepped,
    channel: usize,
) -> io::Result<()> {
    let mut out = [0i16; 34816];
    let n = samples::shorts_of(order, s, stepped, channel, &mut out).unwrap_or(0);
    match out.iter().take(n).max() {
        Some(largest) => print(rt, listing::short(*largest)),
        None => Ok(()),
    }
}

// The same of a channel of floats, by its pattern. No NaN is the largest.
fn patterns(
    rt: &impl Print,
    order: Order,
    s: &[u8],
    stepped: Stepped,
    channel: usize,
) -> io::Result<()> {
    let mut out = [0u32; 17408];
    let n = samples::patterns_of(order, s, stepped, channel, &mut out).unwrap_or(0);
    let numbers = out.iter().take(n).copied().filter(|p| is_number(*p));
    match numbers.max_by_key(|p| rank(*p)) {
        Some(largest) => print(rt, listing::hex_word(largest)),
        None => Ok(()),
    }
}

// Whether a pattern is no NaN: `f32::from_bits` may not be asked, since it requires that.
fn is_number(pattern: u32) -> bool {
    pattern % 0x8000_0000 <= 0x7F80_0000
}

// Patterns of floats in the order of the floats: a negative one has the top bit set and grows downwards.
// By hand: `f32::from_bits` requires that there is no NaN, and inside the closure nothing says so.
fn rank(pattern: u32) -> u32 {
    if pattern < 0x8000_0000 {
        pattern + 0x8000_0000
    } else {
        !pattern
    }
}
