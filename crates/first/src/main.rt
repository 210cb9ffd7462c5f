// A first program: the items of the recording on standard input, and the samples of each chunk that is ready.
#![tactic(auto)]

use num::Order;
use reader::{Cursor, Item, Stepped};
use show::print;
use std::io;

fn main(rt: HostRuntime) -> io::Result<()> {
    let mut bytes = [0u8; 65536];
    let n = input::filled(&mut rt.reader(), &mut bytes)?;
    recording(&rt, &bytes[..n])
}

fn recording(rt: &impl Print, s: &[u8]) -> io::Result<()> {
    if let Ok(order) = frame::find_order(s) {
        items(rt, order, s)?;
    }
    Ok(())
}

// One step after the other. Each item has a byte at least, so there are no more steps than bytes.
fn items(rt: &impl Print, order: Order, s: &[u8]) -> io::Result<()> {
    let mut cursor = Cursor::new();
    for _ in 0..s.len() {
        let stepped = cursor.step(order, s);
        if let Item::End = stepped.item {
            break;
        }
        print(rt, listing::item_line(stepped.item))?;
        channel_zero(rt, order, s, stepped)?;
        cursor = stepped.cursor;
    }
    Ok(())
}

// The 16-bit numbers of channel 0, I before Q, where the step gave a ready chunk that has such.
fn channel_zero(rt: &impl Print, order: Order, s: &[u8], stepped: Stepped) -> io::Result<()> {
    let mut out = [0i16; 34816];
    if let Ok(n) = samples::shorts_of(order, s, stepped, 0, &mut out) {
        show::print_shorts(rt, &out, n)?;
    }
    Ok(())
}
