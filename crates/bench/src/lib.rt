// The library's work behind plain numbers and slices, for a program that measures it. The crate bench_c exports it.
#![tactic(auto)]

ghost use Rattle.std.specs.Prelude.{◌≡◌, true, false, ◌≤◌, length};
ghost use Rattle.num.specs.Answer.{refusal};
ghost use Rattle.body.specs.Plain.{text};
ghost use Rattle.copy.specs.Samples.{short_at, pattern_at};
ghost use Rattle.frame.specs.Place.{search_from};
ghost use Rattle.reader.specs.Item.{item_said};
ghost use Rattle.reader.specs.Items.{items};
ghost use Rattle.reader.specs.Step.{new_cursor, after};
ghost use Rattle.samples.specs.Copy.{layout_at, count_of, samples_at, filled};
ghost use Rattle.writer.specs.Write.{write_of, written_out};
ghost use Rattle.bench.specs.Plain.{order_by, or_zero, place_or, sound_count};
ghost use Rattle.bench.specs.Inner.Sound.{sound_in};

use effect::Verdict;
use num::{Numbered, Order};
use reader::{Cursor, Item};

// The order by its number: 0 is big, any other little.
fn order_by(number: u32) -> Order
    ensures { result ≡ order_by number }
{
    if number == 0 {
        Order::Big
    } else {
        Order::Little
    }
}

// How many items a stream has.
pub fn bench_count(order: u32, s: &[u8]) -> usize
    ensures { result ≡ length (items (order_by order) s.now) }
{
    reader::count(order_by(order), s)
}

// 1 for a chunk that is good, unknown or ready, 0 for any other item.
fn sound_in(item: Item) -> usize
    ensures { result ≡ sound_in (item_said item) }
{
    usize::from(matches!(
        item,
        Item::Chunk {
            verdict: Verdict::Good | Verdict::Unknown | Verdict::Ready(_),
            ..
        }
    ))
}

// How far a reader came, and how many sound items it saw.
#[derive(Clone, Copy)]
struct Walked {
    cursor: Cursor,
    sound: usize,
}

// So many steps from a new cursor, or fewer where the stream ends before.
fn walk(order: Order, s: &[u8], steps: usize) -> Walked
    ensures reached { result.cursor ≡ after steps order s.now new_cursor }
    ensures counted { length s.now ≤ steps → result.sound ≡ sound_count (items order s.now) }
{
    let mut cursor = Cursor::new();
    let mut sound = 0;
    for _ in 0..steps {
        if cursor.place == s.len() {
            break;
        }
        let stepped = cursor.step(order, s);
        sound += sound_in(stepped.item);
        cursor = stepped.cursor;
    }
    Walked { cursor, sound }
}

// How many items of a stream are sound, found by a step for each item.
pub fn bench_step(order: u32, s: &[u8]) -> usize
    ensures { result ≡ sound_count (items (order_by order) s.now) }
{
    walk(order_by(order), s, s.len()).sound
}

// Where a search stops, the end where it does not.
pub fn bench_search(order: u32, s: &[u8], from: usize) -> usize
    ensures { result ≡ place_or (length s.now) (search_from (order_by order) s.now from) }
{
    frame::search(order_by(order), s, from).unwrap_or(s.len())
}

// What is wrong with the body of a TEXT chunk, by its number; 0 where nothing is.
pub fn bench_text(order: u32, body: &[u8]) -> u32
    ensures { result ≡ refusal (text (order_by order) body.now) }
{
    body::text(order_by(order), body).number()
}

// A record written at a place of out: the place past it, 0 where nothing is written.
pub fn bench_write(order: u32, code: u32, body: &[u8], out: &mut [u8], place: usize) -> usize
    ensures said { result ≡ or_zero (write_of (order_by order) code body.now (length out.old) place) }
    ensures left { out.new ≡ written_out (order_by order) code body.now out.old place }
{
    writer::write(order_by(order), code, body, out, place).unwrap_or(0)
}

// The 16-bit numbers of a channel, out of the chunk that so many steps lead to: how many were copied. The 32-bit patterns
// have a function of their own and the orders are numbers, since bench_c exports each by its name for C.
pub fn bench_shorts(order: u32, s: &[u8], steps: usize, channel: usize, out: &mut [i16]) -> usize
    ensures said { result
        ≡ or_zero (count_of false (order_by order) s.now
        (after steps (order_by order) s.now new_cursor) channel (length out.old)) }
    ensures left { out.new
        ≡ filled (count_of false (order_by order) s.now
        (after steps (order_by order) s.now new_cursor) channel (length out.old))
        (layout_at false (order_by order) s.now
        (after steps (order_by order) s.now new_cursor) channel)
        (short_at (order_by order) (samples_at (order_by order) s.now
        (after steps (order_by order) s.now new_cursor))) out.old }
{
    let by = order_by(order);
    let walked = walk(by, s, steps);
    samples::shorts_at(by, s, walked.cursor, channel, out).unwrap_or(0)
}

// The same of 32-bit patterns.
pub fn bench_patterns(order: u32, s: &[u8], steps: usize, channel: usize, out: &mut [u32]) -> usize
    ensures said { result
        ≡ or_zero (count_of true (order_by order) s.now
        (after steps (order_by order) s.now new_cursor) channel (length out.old)) }
    ensures left { out.new
        ≡ filled (count_of true (order_by order) s.now
        (after steps (order_by order) s.now new_cursor) channel (length out.old))
        (layout_at true (order_by order) s.now
        (after steps (order_by order) s.now new_cursor) channel)
        (pattern_at (order_by order) (samples_at (order_by order) s.now
        (after steps (order_by order) s.now new_cursor))) out.old }
{
    let by = order_by(order);
    let walked = walk(by, s, steps);
    samples::patterns_at(by, s, walked.cursor, channel, out).unwrap_or(0)
}
