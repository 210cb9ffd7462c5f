// The listing of a stream, whole: its lines laid one after the other into a lent slice.
#![tactic(auto)]

ghost use Rattle.std.specs.Prelude.{◌≡◌, ◌+◌, ◌^◌, ◌<◌, ◌≤◌, length};
ghost use Rattle.lay.specs.Splice.{overlaid};
ghost use Rattle.listing.specs.Lines.{item_lines, listing};
ghost use Rattle.listing.specs.Text.{shown};
ghost use Rattle.lister.specs.Listed.{most, items_of, listed, laid_in};
ghost use Rattle.lister.specs.Inner.Laid.{Lays};

use listing::Text;
use num::Order;
use reader::Cursor;

// The most bytes of a stream that are listed.
pub const MOST: usize = 65536;

// Room for a stream: one byte more than are listed, which tells a stream that is too long.
pub const STREAM_ROOM: usize = MOST + 1;

// The most items of a stream that is listed: what reader::rows_for answers for MOST, which a constant may not ask.
const ROWS: usize = 2 * (MOST / 13) + 2;

// Room for a listing: 18 bytes for its first line, 35 for the line of each item and 10 for its last line. No stream has
// a longer one.
pub const ROOM: usize = 18 + ROWS * 35 + 10;

// That a slice has too little room for a listing, which has so many bytes.
#[derive(Clone, Copy, PartialEq, Eq)]
pub struct Needs(pub usize);

// A slice, and the place in it where the next line is laid. It goes on past the end of a slice that is too short, so it
// is a number, and no part of the slice.
#[derive(Drop)]
struct Page<'a> {
    out: &'a mut [u8],
    at: usize,
}

impl<'a> Page<'a> {
    // Lays a text at the place, where it fits, and goes past it.
    fn put(&mut self, t: Text)
        requires { (t.len ≤ 96) × (self.old.at + 96 < 2 ^ 64) }
        ensures same { self.new.out.ghost_name ≡ self.old.out.ghost_name }
        ensures said { self.new.at ≡ self.old.at + length (shown t) }
        ensures left { self.new.out.now ≡ overlaid self.old.out.now self.old.at (shown t) }
    {
        lay::bytes(&t.bytes[..t.len], self.out, self.at);
        self.at += t.len;
    }

    // Lays the lines of a stream's items, each where it fits, and goes past them.
    fn lines(&mut self, order: Order, s: &[u8])
        requires { (length s.now ≤ most) × (self.old.at ≤ 96) }
        ensures same { self.new.out.ghost_name ≡ self.old.out.ghost_name }
        ensures said { self.new.at ≡ self.old.at + length (item_lines (items_of order s.now)) }
        ensures left { Lays self.old.out.now self.old.at (item_lines (items_of order s.now)) self.new.out.now }
    {
        let mut cursor = Cursor::new();
        // No range says where the items begin: a step gives the place of the next.
        while cursor.place < s.len() {
            let stepped = cursor.step(order, s);
            self.put(listing::item_line(stepped.item));
            cursor = stepped.cursor;
        }
    }
}

// Lays the lines of a stream in this order, first to last, each where it fits, and answers how many bytes they have.
fn ordered(order: Order, s: &[u8], out: &mut [u8]) -> usize
    requires { length s.now ≤ most }
    ensures said { result
        ≡ length (listing order (length s.now) (items_of order s.now)) }
    ensures left { Lays out.old 0
        (listing order (length s.now) (items_of order s.now)) out.new }
{
    let mut page = Page { out, at: 0 };
    page.put(listing::first_line(order, s.len()));
    page.lines(order, s);
    page.put(listing::last_line(reader::count(order, s)));
    page.at
}

// Lays one line, where it fits, and answers how many bytes it has.
fn alone(line: Text, out: &mut [u8]) -> usize
    requires { line.len ≤ 96 }
    ensures said { result ≡ 0 + length (shown line) }
    ensures left { out.new ≡ overlaid out.old 0 (shown line) }
{
    let mut page = Page { out, at: 0 };
    page.put(line);
    page.at
}

// Lays the listing of a stream line by line, each line where it fits, and answers how many bytes it has.
#[tactic(auto, using(crate::proofs::Cases::too_long))]
fn whole(s: &[u8], out: &mut [u8]) -> usize
    ensures said { result ≡ length (listed s.now) }
    ensures left { Lays out.old 0 (listed s.now) out.new }
{
    if MOST < s.len() {
        return alone(listing::long_line(), out);
    }
    match frame::find_order(s) {
        Ok(order) => ordered(order, s, out),
        Err(_) => alone(listing::none_line(), out),
    }
}

// How many bytes the listing of a stream has: its lines are laid where none fits.
fn measure(s: &[u8]) -> usize
    ensures { result ≡ length (listed s.now) }
{
    whole(s, &mut [])
}

// Lays the listing of a stream at the front of out and answers its length; the rest of out is as it was. Of a stream
// with more than 65,536 bytes the listing is the line `long`, and of one without a sync word `none`. Where out is
// shorter than the listing, the answer is Needs with the listing's length, and out is as it was.
pub fn lay(s: &[u8], out: &mut [u8]) -> Result<usize, Needs>
    ensures said { result ≡ laid_in (length (listed s.now)) (length out.old) }
    ensures left { out.new ≡ overlaid out.old 0 (listed s.now) }
{
    // Where every listing has room, nothing has to be measured.
    if ROOM <= out.len() {
        return Ok(whole(s, out));
    }
    let n = measure(s);
    if out.len() < n {
        return Err(Needs(n));
    }
    Ok(whole(s, out))
}
