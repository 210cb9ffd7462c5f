// The lines of a listing, each with its newline.
ghost use Rattle.std.specs.Prelude.{◌≡◌};
ghost use Rattle.reader.specs.Item.{item_said};
ghost use Rattle.listing.specs.Text.{text_of};
ghost use Rattle.listing.specs.Lines.{first_line, count_line, stretch_line, answer_line, last_line, long_line, none_line};

use crate::chunk::chunk;
use crate::string::{Text, word};
use crate::words::{newline, number, numbered};
use num::Order;
use reader::Item;

// The first line of a listing: `pxgf`, the order and the number of bytes.
pub fn first_line(order: Order, n: usize) -> Text
    ensures { result ≡ text_of (first_line order n) }
{
    match order {
        Order::Big => count_line(b"pxgf big", n),
        Order::Little => count_line(b"pxgf little", n),
    }
}

// The line of an item: `skip`, `cut` or `chunk`. No byte for End and for a refusal.
pub fn item_line(item: Item) -> Text
    ensures { result ≡ text_of (answer_line (item_said item)) }
{
    match item {
        Item::PastEnd | Item::BadState | Item::End => word(b""),
        Item::Skipped { place, length, .. } => stretch(b"skip", place, length),
        Item::Unfinished { place, length } => stretch(b"cut", place, length),
        Item::Chunk {
            place,
            code,
            size,
            verdict,
        } => chunk(place, code, size, verdict),
    }
}

// The last line of a listing: `end` and the number of items.
pub fn last_line(count: usize) -> Text
    ensures { result ≡ text_of (last_line count) }
{
    count_line(b"end", count)
}

// The line `long`, for a recording with more bytes than are listed.
pub fn long_line() -> Text
    ensures { result ≡ text_of long_line }
{
    word(b"long\n")
}

// The line `none`, for a recording without a sync word.
pub fn none_line() -> Text
    ensures { result ≡ text_of none_line }
{
    word(b"none\n")
}

// A head and a number, which is no length of it.
#[tactic(auto, unfolding(crate::specs::Lines::count_line))]
fn count_line(head: &[u8], n: usize) -> Text
    ensures { result ≡ text_of (count_line head.now n) }
{
    numbered(head, n).joined(newline())
}

// A head, and the place and length of a stretch of bytes.
#[tactic(auto, unfolding(crate::specs::Lines::stretch_line))]
fn stretch(head: &[u8], place: usize, length: usize) -> Text
    ensures { result ≡ text_of (stretch_line head.now place length) }
{
    numbered(head, place)
        .joined(number(length))
        .joined(newline())
}
