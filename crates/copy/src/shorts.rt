// Numbers of 16 bits.
ghost use Rattle.std.specs.Prelude.{◌≡◌, true, ◌+◌, ◌*◌, ◌/◌, ◌%◌, ◌≤◌, ◌++◌, length, take, drop};
ghost use Rattle.std.specs.Int.{w16};
ghost use Rattle.std.proofs.Common.{to_z, rules};
ghost use Rattle.num.specs.Number.{unsigned};
ghost use Rattle.copy.specs.Samples.{bytes_at, short_at, i_of, q_of, pairs_of, reals_of, front_filled, pairs_fit};

use crate::{Pairs, laid, pairs, patterns, runs};
use laid::Laid;
use num::{Number, Order};
use runs::Paired;

// Number k of the sample bytes. By index, for each type by itself: `Number::at` would test for each number whether its
// bytes are there.
fn short_at(order: Order, src: &[u8], k: usize) -> i16
    requires { (k + 1) * 2 ≤ length src.now }
    ensures { result ≡ short_at order src.now k }
{
    let p = k * 2;
    i16::of(order, [src[p], src[p + 1]])
}

// The pair at a place of the sample bytes in one word: I is its low half, Q its high. In the little order the pair's
// first number is the low half as it stands, in the big order its second.
fn two_at(order: Order, iq: bool, src: &[u8], place: usize) -> u32
    requires { (place + 1) * 4 ≤ length src.now }
    ensures { (result % 65536 ≡ unsigned order (bytes_at 2 src.now (i_of iq place)))
        × (result / 65536 ≡ unsigned order (bytes_at 2 src.now (q_of iq place))) }
{
    let word = patterns::word_at(order, src, place);
    match order {
        Order::Big => { if iq { word.rotate_left(16) } else { word } }
        Order::Little => { if iq { word } else { word.rotate_left(16) } }
    }
}

// A pair is read as one word, so that a compiler makes one load and one store of it.
impl Paired for i16 {
    ghost SIZE = { 2 };

    ghost number_at = { short_at };

    const SIZE: usize = 2;

    fn pair_at(order: Order, iq: bool, src: &[u8], place: usize) -> (i16, i16) {
        let two = two_at(order, iq, src, place);
        (
            num::signed16((two % 65536) as u16),
            num::signed16((two / 65536) as u16),
        )
    }

    ghost wide = { Prim.search rules };
}

// Sixteen pairs of the big order with I first, laid as pairs j on, once all of them are read: so a compiler needs no
// test for overlap. They are read as words of the little order, and the bytes of each half are then turned, by one
// shuffle for a vector.
fn block(src: &[u8], place: usize, j: usize, out: &mut [i16])
    requires { ((place + 16) * 4 ≤ length src.now) × (2 * (j + 16) ≤ length out.old) }
    ensures { out.new
        ≡ take (2 * j) out.old ++ front_filled
        (pairs_of (short_at Order.Big src.now) true place 1 16) (drop (2 * j) out.old) }
{
    let mut halves = [0u16; 32];
    // By index: they go to the places of out from 2 * j on, and `zip` would ask for that part of out first.
    for k in 0..16 {
        let word = patterns::word_at(Order::Little, src, place + k);
        let at = 2 * k;
        halves[at] = (word % 65536) as u16;
        halves[at + 1] = (word / 65536) as u16;
    }
    for i in 0..32 {
        out[2 * j + i] = i16::of(Order::Big, halves[i].bytes(Order::Little));
    }
}

// Pairs of the big order with I first that stand one after the other, the first few by themselves and then sixteen at a
// time.
fn blocks(pairs: Pairs, few: usize, src: &[u8], out: &mut [i16])
    requires { (pairs_fit 2 (length src.now) pairs.first 1 pairs.count (length out.old) ≡ true)
        × (few ≤ pairs.count) × (pairs.iq ≡ true) }
    ensures { out.new
        ≡ front_filled (pairs_of (short_at Order.Big src.now) true pairs.first 1 pairs.count)
        out.old }
{
    runs::part(Order::Big, pairs, src, 0, few, out);
    let many = (pairs.count - few) / 16;
    // By its number, since a block is read and laid at two places that go on by different steps.
    for b in 0..many {
        let j = few + b * 16;
        block(src, pairs.first + j, j, out);
    }
    runs::part(Order::Big, pairs, src, few + many * 16, pairs.count, out);
}

impl Laid for i16 {
    fn line(order: Order, pairs: Pairs, at: usize, src: &[u8], out: &mut [i16]) {
        let few = pairs::lead(at % 16 + pairs.first % 4 * 4, pairs.count);
        match order {
            Order::Big if pairs.iq => blocks(pairs, few, src, out),
            _ => runs::run(order, pairs, few, src, out),
        }
    }

    // They are laid two at a time, and the last one by itself.
    fn row(order: Order, at: usize, src: &[u8], count: usize, out: &mut [i16]) {
        let twos = count / 2;
        let pairs = Pairs {
            iq: true,
            first: 0,
            step: 1,
            count: twos,
        };
        i16::line(order, pairs, at, src, out);
        if twos * 2 < count {
            out[twos * 2] = short_at(order, src, twos * 2);
        }
    }
}
