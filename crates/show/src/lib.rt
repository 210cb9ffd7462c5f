// The dump of a stream, written to standard output: each line, or word of a line, as the crate listing makes it. A call
// that prints returns the first error that standard output gives, and has then written what came before it.
#![tactic(auto)]

mod channels;
mod chunk;
mod line;
mod numbers;
mod skip;
mod values;

use listing::Text;
use num::Order;
pub use numbers::{print_patterns, print_shorts};
use reader::Cursor;
use std::io;

// Writes a text to standard output. No text of the crate listing has a length past its places; of one that has,
// nothing.
pub fn print(rt: &impl Print, t: Text) -> io::Result<()> {
    match t.bytes.get(..t.len) {
        Some(shown) => rt.write_all(shown),
        None => Ok(()),
    }
}

// Writes the dump of a stream to standard output: its listing, and under an item's line why bytes were skipped or what
// the chunk shows.
pub fn dump(rt: &impl Print, s: &[u8]) -> io::Result<()> {
    if lister::MOST < s.len() {
        return print(rt, listing::long_line());
    }
    match frame::find_order(s) {
        Ok(order) => ordered(rt, order, s),
        Err(_) => print(rt, listing::none_line()),
    }
}

// The first line, a line for each item, and the last line with their number.
fn ordered(rt: &impl Print, order: Order, s: &[u8]) -> io::Result<()> {
    print(rt, listing::first_line(order, s.len()))?;
    let items = reader::count(order, s);
    let mut cursor = Cursor::new();
    for _ in 0..items {
        let stepped = cursor.step(order, s);
        let item = stepped.item;
        print(rt, listing::item_line(item))?;
        skip::shown(rt, item)?;
        chunk::shown(rt, order, s, stepped)?;
        cursor = stepped.cursor;
    }
    print(rt, listing::last_line(items))
}
