// Pairs laid one by one, of numbers of either type. That the pairs fit stands in each contract: it is said of a source
// and a slice, and no value here holds both.
ghost use Rattle.std.specs.Prelude.{◌≡◌, ℕ, true, List, ◌+◌, ◌*◌, ◌<◌, ◌≤◌, length, set};
ghost use Rattle.num.specs.declared.Order.{Order};
ghost use Rattle.copy.specs.Samples.{i_of, q_of, pairs_of, front_filled, pairs_fit};
ghost use Rattle.copy.specs.Grown.{Grown};

use crate::Pairs;
use num::Order;

// A number that is read with the other of its pair.
pub(crate) trait Paired: Copy {
    ghost SIZE: { ℕ };

    // Number k of the sample bytes.
    ghost number_at: { Order → List ℕ → ℕ → Self };

    // How many bytes a number has.
    const SIZE: usize;

    // The pair at a place, I before Q.
    fn pair_at(order: Order, iq: bool, src: &[u8], place: usize) -> (Self, Self)
        requires { (place + 1) * (2 * Self.SIZE) ≤ length src.now }
        ensures { result
            ≡ (number_at order src.now (i_of iq place), number_at order src.now (q_of iq place)) };

    // So twice as many are a divisor, and no more than a usize holds.
    ghost wide: { (0 < SIZE) × (SIZE ≤ 4) };
}

// The pair at a place, laid as pair j of out.
fn lay<T: Paired>(order: Order, iq: bool, src: &[u8], place: usize, j: usize, out: &mut [T])
    requires { ((place + 1) * (2 * T.SIZE) ≤ length src.now) × (2 * j + 1 < length out.old) }
    ensures { out.new
        ≡ set (set out.old (2 * j) (T.number_at order src.now (i_of iq place))) (2 * j + 1)
        (T.number_at order src.now (q_of iq place)) }
{
    let (i, q) = T::pair_at(order, iq, src, place);
    let k = 2 * j;
    out[k] = i;
    out[k + 1] = q;
}

// Those from one up to another of pairs that stand one after the other: their step has no say. Without a step a
// compiler makes vectors of the loop.
pub(crate) fn part<T: Paired>(
    order: Order,
    pairs: Pairs,
    src: &[u8],
    from: usize,
    to: usize,
    out: &mut [T],
)
    requires { (pairs_fit T.SIZE (length src.now) pairs.first 1 pairs.count (length out.old) ≡ true)
        × (from ≤ to) × (to ≤ pairs.count) }
    ensures { Grown (T.number_at order src.now) pairs.iq pairs.first 1 pairs.count out.old from
        out.new to }
{
    for j in from..to {
        lay(order, pairs.iq, src, pairs.first + j, j, out);
    }
}

// Pairs that stand one after the other, the first few by themselves.
pub(crate) fn run<T: Paired>(order: Order, pairs: Pairs, few: usize, src: &[u8], out: &mut [T])
    requires { (pairs_fit T.SIZE (length src.now) pairs.first 1 pairs.count (length out.old) ≡ true)
        × (few ≤ pairs.count) }
    ensures { out.new
        ≡ front_filled (pairs_of (T.number_at order src.now) pairs.iq pairs.first 1 pairs.count)
        out.old }
{
    part(order, pairs, src, 0, few, out);
    part(order, pairs, src, few, pairs.count, out);
}

// Pairs at any step. No iterator by steps: its first place would have to lie in the source where there are no pairs.
pub(crate) fn steps<T: Paired>(order: Order, pairs: Pairs, src: &[u8], out: &mut [T])
    requires { pairs_fit T.SIZE (length src.now) pairs.first pairs.step pairs.count (length out.old)
        ≡ true }
    ensures { out.new
        ≡ front_filled (pairs_of (T.number_at order src.now) pairs.iq pairs.first pairs.step
        pairs.count) out.old }
{
    for j in 0..pairs.count {
        lay(order, pairs.iq, src, pairs.first + j * pairs.step, j, out);
    }
}
