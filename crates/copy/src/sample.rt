// The two types of numbers that samples have.
ghost use Rattle.std.specs.Prelude.{◌≡◌, ℕ, Bool, true, false, List, length};
ghost use Rattle.std.proofs.Common.{rules};
ghost use Rattle.num.specs.Choice.{pick};
ghost use Rattle.num.specs.declared.Order.{Order};
ghost use Rattle.copy.specs.Samples.{short_at, pattern_at, pairs_of, reals_of, front_filled, pairs_fit, reals_fit};

use crate::{Pairs, laid};
use num::Order;

// A type of numbers that the samples of a chunk may have.
pub trait Sample: Copy {
    // Whether the kinds of floats have such numbers.
    ghost FLOAT: { Bool };

    // How many bytes a number has.
    ghost size: { ℕ };

    // Number k of the sample bytes.
    ghost number_at: { Order → List ℕ → ℕ → Self };

    const FLOAT: bool;

    // Copies pairs of one channel to the front of out, I before Q whatever the packing, and answers true. Where src or
    // out is too short the answer is false, and out is as it was. The place of src in its stream, `at`, has a say in
    // the speed alone.
    fn pairs(order: Order, pairs: Pairs, at: usize, src: &[u8], out: &mut [Self]) -> bool
        ensures said { result
            ≡ pairs_fit size (length src.now) pairs.first pairs.step pairs.count (length out.old) }
        ensures left { out.new
            ≡ pick result
            (front_filled (pairs_of (number_at order src.now) pairs.iq pairs.first pairs.step
            pairs.count) out.old) out.old };

    // Copies the first `count` numbers of src to the front of out, and answers true; the same where one is too short.
    // `count` is a parameter, as docs/CALLS.md has this call: both may be longer, and what lies behind in out stays.
    fn reals(order: Order, at: usize, src: &[u8], count: usize, out: &mut [Self]) -> bool
        ensures said { result ≡ reals_fit size (length src.now) count (length out.old) }
        ensures left { out.new
            ≡ pick result (front_filled (reals_of (number_at order src.now) count) out.old)
            out.old };

    // The floats have four bytes, the others two.
    ghost sized: { size ≡ pick FLOAT 4 2 };
}

// Both impls hand on to the loops of laid.rt. One body for both would have to name the private trait `Laid`,
// and as that is private, `Sample` has the size and the number at a place by itself.
// The numbers of 16 bits.
impl Sample for i16 {
    ghost FLOAT = { false };

    ghost size = { 2 };

    ghost number_at = { short_at };

    const FLOAT: bool = false;

    fn pairs(order: Order, pairs: Pairs, at: usize, src: &[u8], out: &mut [i16]) -> bool {
        laid::pairs(order, pairs, at, src, out)
    }

    fn reals(order: Order, at: usize, src: &[u8], count: usize, out: &mut [i16]) -> bool {
        laid::reals(order, at, src, count, out)
    }

    ghost sized = { Prim.search rules };
}

// The patterns of 32 bits that stand for floats.
impl Sample for u32 {
    ghost FLOAT = { true };

    ghost size = { 4 };

    ghost number_at = { pattern_at };

    const FLOAT: bool = true;

    fn pairs(order: Order, pairs: Pairs, at: usize, src: &[u8], out: &mut [u32]) -> bool {
        laid::pairs(order, pairs, at, src, out)
    }

    fn reals(order: Order, at: usize, src: &[u8], count: usize, out: &mut [u32]) -> bool {
        laid::reals(order, at, src, count, out)
    }

    ghost sized = { Prim.search rules };
}
