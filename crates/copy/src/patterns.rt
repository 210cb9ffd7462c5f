// Patterns of 32 bits.
ghost use Rattle.std.specs.Prelude.{◌≡◌, true, false, ◌+◌, ◌*◌, ◌/◌, ◌%◌, ◌≤◌, length};
ghost use Rattle.std.proofs.Common.{rules};
ghost use Rattle.copy.specs.Samples.{pattern_at, i_of, q_of, pairs_of, reals_of, front_filled, pairs_fit};

use crate::{Pairs, laid, pairs, runs};
use laid::Laid;
use num::{Number, Order};
use runs::Paired;

// Number k of the sample bytes. By index, for each type by itself: `Number::at` would test for each number whether its
// bytes are there.
fn pattern_at(order: Order, src: &[u8], k: usize) -> u32
    requires { (k + 1) * 4 ≤ length src.now }
    ensures { result ≡ pattern_at order src.now k }
{
    let p = k * 4;
    u32::of(order, [src[p], src[p + 1], src[p + 2], src[p + 3]])
}

// The same. A compiler makes one load of the four bytes only where their sum is used once: so each order has its own
// call, and what is done with the word stands in other functions.
pub(crate) fn word_at(order: Order, src: &[u8], place: usize) -> u32
    requires { (place + 1) * 4 ≤ length src.now }
    ensures { result ≡ pattern_at order src.now place }
{
    match order {
        Order::Big => pattern_at(Order::Big, src, place),
        Order::Little => pattern_at(Order::Little, src, place),
    }
}

impl Paired for u32 {
    ghost SIZE = { 4 };

    ghost number_at = { pattern_at };

    const SIZE: usize = 4;

    fn pair_at(order: Order, iq: bool, src: &[u8], place: usize) -> (u32, u32) {
        let a = pattern_at(order, src, 2 * place);
        let b = pattern_at(order, src, 2 * place + 1);
        if iq { (a, b) } else { (b, a) }
    }

    ghost wide = { Prim.search rules };
}

// A pair of the big order with Q first, read as one number: its low half is I, which stands second, its high half Q. So
// one shuffle turns all of the pair's bytes.
fn long_at(src: &[u8], place: usize) -> u64
    requires { (place + 1) * 8 ≤ length src.now }
    ensures { (result % 4294967296 ≡ pattern_at Order.Big src.now (i_of false place))
        × (result / 4294967296 ≡ pattern_at Order.Big src.now (q_of false place)) }
{
    let p = place * 8;
    u64::of(
        Order::Big,
        [
            src[p],
            src[p + 1],
            src[p + 2],
            src[p + 3],
            src[p + 4],
            src[p + 5],
            src[p + 6],
            src[p + 7],
        ],
    )
}

// Such pairs that stand one after the other.
fn turned_run(pairs: Pairs, src: &[u8], out: &mut [u32])
    requires { pairs_fit 4 (length src.now) pairs.first 1 pairs.count (length out.old) ≡ true }
    ensures { out.new
        ≡ front_filled (pairs_of (pattern_at Order.Big src.now) false pairs.first 1 pairs.count)
        out.old }
{
    for j in 0..pairs.count {
        let long = long_at(src, pairs.first + j);
        let k = 2 * j;
        out[k] = (long % 4294967296) as u32;
        out[k + 1] = (long / 4294967296) as u32;
    }
}

// Patterns that stand one after the other, the first few in a loop of their own, so that the vectors of the second loop
// begin at a multiple of their size. By index: the promise names each word by its number
// from the start of src.
fn lay(order: Order, src: &[u8], first: usize, few: usize, count: usize, out: &mut [u32])
    requires { ((first + count) * 4 ≤ length src.now) × (count ≤ length out.old) × (few ≤ count) }
    ensures { out.new
        ≡ front_filled (reals_of (λ k. pattern_at order src.now (first + k)) count) out.old }
{
    for j in 0..few {
        out[j] = word_at(order, src, first + j);
    }
    for j in few..count {
        out[j] = word_at(order, src, first + j);
    }
}

impl Laid for u32 {
    // With I first they are copied as they stand. Where there are none the first may be any number, and is not doubled.
    fn line(order: Order, pairs: Pairs, at: usize, src: &[u8], out: &mut [u32]) {
        if pairs.iq {
            if 0 < pairs.count {
                let few = pairs::lead(at % 16 + pairs.first % 2 * 8, 2 * pairs.count);
                lay(order, src, 2 * pairs.first, few, 2 * pairs.count, out);
            }
        } else {
            match order {
                Order::Big => turned_run(pairs, src, out),
                Order::Little => runs::run(order, pairs, 0, src, out),
            }
        }
    }

    fn row(order: Order, at: usize, src: &[u8], count: usize, out: &mut [u32]) {
        lay(order, src, 0, pairs::lead(at, count), count, out);
    }
}
