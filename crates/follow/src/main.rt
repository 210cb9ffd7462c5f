// Follows the recording on standard input while it grows: a line for each chunk and each skipped stretch once it is
// there, and at the end of the input one for an end that was not finished.
#![tactic(auto)]

ghost use Rattle.std.specs.Prelude.{◌≡◌, ◌≤◌, length, IfOk};
ghost use Rattle.reader.specs.Item.{item_said};
ghost use Rattle.growing.specs.Held as Held;
ghost use Rattle.growing.specs.Held.{held};

use num::Order;
use reader::{Cursor, Item};
use show::print;
use std::io;
use std::io::Read;

fn main(rt: HostRuntime) -> io::Result<()> {
    let mut bytes = [0u8; 65536];
    follow(&rt, &mut rt.reader(), &mut bytes)
}

// The bytes that have come stand at the start of the slice, n of them; they are lent anew at each turn, so they stand
// beside the cursor and not in a struct with it. Each turn has one more at least, so there are no more turns than the
// slice has bytes.
fn follow(rt: &impl Print, input: &mut impl Read, bytes: &mut [u8]) -> io::Result<()> {
    let mut cursor = Cursor::new();
    let mut n = 0;
    for _ in 0..bytes.len() {
        let now = part(input, bytes, n)?;
        if now == n {
            break;
        }
        n = now;
        cursor = grown(rt, &bytes[..n], cursor)?;
    }
    ended(rt, &bytes[..n], cursor)
}

// Reads the bytes that come next: 64 at most, so that a file that is whole comes in parts too. The answer is how many
// bytes there are then; it is `from` at the end of the input, and where the slice is full. An Option would be no
// plainer: the loop goes on while the number grows.
fn part(input: &mut impl Read, bytes: &mut [u8], from: usize) -> io::Result<usize>
    requires { from ≤ length bytes.old }
    ensures { IfOk result (λ now. (from ≤ now) × (now ≤ length bytes.new)) }
{
    let most = (bytes.len() - from).min(64);
    let more = input.read(&mut bytes[from..from + most])?;
    Ok(from + more)
}

// More bytes have come: says how many there are, and reads on from the cursor. The byte order is that of the first sync
// word, so once it is found it stays. Output, bytes and cursor go on one by one: a struct would be made anew each turn.
fn grown(rt: &impl Print, s: &[u8], cursor: Cursor) -> io::Result<Cursor> {
    print(rt, listing::word(b"read"))?;
    print(rt, listing::number(s.len()))?;
    print(rt, listing::newline())?;
    let Ok(order) = frame::find_order(s) else {
        return Ok(cursor);
    };
    read_on(rt, order, s, cursor)
}

// One step after the other, up to an unfinished end or the end of the bytes. The cursor there is the one from which to
// go on.
fn read_on(rt: &impl Print, order: Order, s: &[u8], cursor: Cursor) -> io::Result<Cursor>
    ensures { IfOk result (λ left. left ≡ held order s.now cursor) }
{
    let mut at = cursor;
    for _ in 0..s.len() {
        let stepped = at.step(order, s);
        let item = stepped.item;
        if waits(item) {
            return Ok(at);
        }
        print(rt, listing::item_line(item))?;
        at = stepped.cursor;
    }
    Ok(at)
}

// Whether more bytes are needed to go on.
fn waits(item: Item) -> bool
    ensures { result ≡ Held.waits (item_said item) }
{
    matches!(
        item,
        Item::PastEnd | Item::BadState | Item::End | Item::Unfinished { .. }
    )
}

// The input has ended: a line for an unfinished end.
fn ended(rt: &impl Print, s: &[u8], cursor: Cursor) -> io::Result<()> {
    if let Ok(order) = frame::find_order(s) {
        let stepped = cursor.step(order, s);
        print(rt, listing::item_line(stepped.item))?;
    }
    Ok(())
}
