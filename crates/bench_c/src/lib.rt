// The exports of the crate bench for a C or Rust program, under the same names and with the same promises. One export
// for each type of numbers: C has no generics.
#![tactic(auto)]

ghost use Rattle.std.specs.Prelude.{◌≡◌, true, false, ◌≤◌, length};
ghost use Rattle.num.specs.Answer.{refusal};
ghost use Rattle.body.specs.Plain.{text};
ghost use Rattle.copy.specs.Samples.{short_at, pattern_at};
ghost use Rattle.frame.specs.Place.{search_from};
ghost use Rattle.reader.specs.Items.{items};
ghost use Rattle.reader.specs.Step.{new_cursor, after};
ghost use Rattle.samples.specs.Copy.{layout_at, count_of, samples_at, filled};
ghost use Rattle.writer.specs.Write.{write_of, written_out};
ghost use Rattle.bench.specs.Plain.{order_by, or_zero, place_or, sound, sound_count};

// How many items a stream has.
#[unsafe(no_mangle)]
pub extern "C" fn bench_count(order: u32, s: &[u8]) -> usize
    ensures { result ≡ length (items (order_by order) s.now) }
{
    bench::bench_count(order, s)
}

// How many items of a stream are sound, found by a step for each item.
#[unsafe(no_mangle)]
pub extern "C" fn bench_step(order: u32, s: &[u8]) -> usize
    ensures { result ≡ sound_count (items (order_by order) s.now) }
{
    bench::bench_step(order, s)
}

// Where a search stops, the end where it does not.
#[unsafe(no_mangle)]
pub extern "C" fn bench_search(order: u32, s: &[u8], from: usize) -> usize
    ensures { result ≡ place_or (length s.now) (search_from (order_by order) s.now from) }
{
    bench::bench_search(order, s, from)
}

// What is wrong with the body of a TEXT chunk, by its number; 0 where nothing is.
#[unsafe(no_mangle)]
pub extern "C" fn bench_text(order: u32, body: &[u8]) -> u32
    ensures { result ≡ refusal (text (order_by order) body.now) }
{
    bench::bench_text(order, body)
}

// A record written at a place of out: the place past it, 0 where nothing is written.
#[unsafe(no_mangle)]
pub extern "C" fn bench_write(
    order: u32,
    code: u32,
    body: &[u8],
    out: &mut [u8],
    place: usize,
) -> usize
    ensures said { result ≡ or_zero (write_of (order_by order) code body.now (length out.old) place) }
    ensures left { out.new ≡ written_out (order_by order) code body.now out.old place }
{
    bench::bench_write(order, code, body, out, place)
}

// The 16-bit numbers of a channel, out of the chunk that so many steps lead to: how many were copied.
#[unsafe(no_mangle)]
pub extern "C" fn bench_shorts(
    order: u32,
    s: &[u8],
    steps: usize,
    channel: usize,
    out: &mut [i16],
) -> usize
    ensures said { result
        ≡ or_zero (count_of false (order_by order) s.now
        (after steps (order_by order) s.now new_cursor) channel (length out.old)) }
    ensures left { out.new
        ≡ filled (count_of false (order_by order) s.now
        (after steps (order_by order) s.now new_cursor) channel (length out.old))
        (layout_at false (order_by order) s.now
        (after steps (order_by order) s.now new_cursor) channel)
        (short_at (order_by order) (samples_at (order_by order) s.now
        (after steps (order_by order) s.now new_cursor))) out.old }
{
    bench::bench_shorts(order, s, steps, channel, out)
}

// The same of 32-bit patterns.
#[unsafe(no_mangle)]
pub extern "C" fn bench_patterns(
    order: u32,
    s: &[u8],
    steps: usize,
    channel: usize,
    out: &mut [u32],
) -> usize
    ensures said { result
        ≡ or_zero (count_of true (order_by order) s.now
        (after steps (order_by order) s.now new_cursor) channel (length out.old)) }
    ensures left { out.new
        ≡ filled (count_of true (order_by order) s.now
        (after steps (order_by order) s.now new_cursor) channel (length out.old))
        (layout_at true (order_by order) s.now
        (after steps (order_by order) s.now new_cursor) channel)
        (pattern_at (order_by order) (samples_at (order_by order) s.now
        (after steps (order_by order) s.now new_cursor))) out.old }
{
    bench::bench_patterns(order, s, steps, channel, out)
}
