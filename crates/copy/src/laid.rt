// Whether numbers fit, and where they do how they are laid: the same for both types.
// Order, place and source stand by themselves, as in `Sample`: of a struct with a reference each clause would say
// `x.now.src.now`, and `src` is not cut to the pairs, whose first and step are counted from its start.
ghost use Rattle.std.specs.Prelude.{◌≡◌, ℕ, true, ◌*◌, ◌≤◌, length};
ghost use Rattle.num.specs.Choice.{pick};
ghost use Rattle.copy.specs.Samples.{pairs_of, reals_of, front_filled, pairs_fit, reals_fit};

use crate::{Pairs, runs};
use num::Order;
use runs::Paired;

// A number that has loops of its own where many stand one after the other: each type has those of which a compiler makes
// fast vectors. A place `at` in the stream has a say in the speed alone.
pub(crate) trait Laid: Paired {
    // Pairs that stand one after the other: their step has no say.
    fn line(order: Order, pairs: Pairs, at: usize, src: &[u8], out: &mut [Self])
        requires { pairs_fit Self.SIZE (length src.now) pairs.first 1 pairs.count (length out.old)
            ≡ true }
        ensures { out.new
            ≡ front_filled (pairs_of (Self.number_at order src.now) pairs.iq pairs.first 1 pairs.count)
            out.old };

    // The first `count` numbers.
    fn row(order: Order, at: usize, src: &[u8], count: usize, out: &mut [Self])
        requires { (count * Self.SIZE ≤ length src.now) × (count ≤ length out.old) }
        ensures { out.new ≡ front_filled (reals_of (Self.number_at order src.now) count) out.old };
}

// Copies pairs where they fit, as `Sample::pairs` says.
pub(crate) fn pairs<T: Laid>(
    order: Order,
    pairs: Pairs,
    at: usize,
    src: &[u8],
    out: &mut [T],
) -> bool
    ensures said { result
        ≡ pairs_fit T.SIZE (length src.now) pairs.first pairs.step pairs.count (length out.old) }
    ensures left { out.new
        ≡ pick result
        (front_filled (pairs_of (T.number_at order src.now) pairs.iq pairs.first pairs.step
        pairs.count) out.old) out.old }
{
    if !pairs.fit(T::SIZE, src.len(), out.len()) {
        return false;
    }
    if pairs.step == 1 {
        T::line(order, pairs, at, src, out);
    } else {
        runs::steps(order, pairs, src, out);
    }
    true
}

// Copies numbers where they fit, as `Sample::reals` says.
pub(crate) fn reals<T: Laid>(
    order: Order,
    at: usize,
    src: &[u8],
    count: usize,
    out: &mut [T],
) -> bool
    ensures said { result ≡ reals_fit T.SIZE (length src.now) count (length out.old) }
    ensures left { out.new
        ≡ pick result (front_filled (reals_of (T.number_at order src.now) count) out.old) out.old }
{
    if src.len() / T::SIZE < count || out.len() < count {
        return false;
    }
    T::row(order, at, src, count, out);
    true
}
