// Numbers laid one after the other over a lent slice from a place on. Where they do not all fit, nothing is written.
ghost use Rattle.std.specs.Prelude.{◌≡◌, ◌*◌, length};
ghost use Rattle.lay.specs.Numbers.{numbers_of};
ghost use Rattle.lay.specs.Splice.{fits, overlaid};

use num::{Number, Order};

// The bytes of a number over all of out. A compiler makes one store of the loop.
fn put<const N: usize>(bytes: [u8; N], out: &mut [u8])
    requires { length out.old ≡ N }
    ensures { out.new ≡ bytes.entry }
{
    for k in 0..N {
        out[k] = bytes[k];
    }
}

// The numbers over all of out. A compiler makes vectors of the loop. By index: of a slice that `chunks_exact_mut` went over
// the check knows no values.
#[tactic(auto, using(crate::proofs::Numbers::numbers_none, crate::proofs::Numbers::numbers_next))]
fn fill_run<const N: usize, T: Number<N>>(order: Order, xs: &[T], out: &mut [u8])
    requires { length out.old ≡ length xs.now * N }
    ensures { out.new ≡ numbers_of order N T.bits xs.now }
{
    for (j, x) in xs.iter().enumerate() {
        put(x.bytes(order), &mut out[j * N..j * N + N]);
    }
}

// Lays numbers of any size and sign into out, one after the other from the place `at` on, and answers true. Where they
// do not all fit the answer is false, and out is as it was.
#[tactic(auto, using(crate::proofs::Numbers::numbers_length))]
pub fn run<const N: usize, T: Number<N>>(order: Order, xs: &[T], out: &mut [u8], at: usize) -> bool
    ensures said { result ≡ fits out.old at (numbers_of order N T.bits xs.now) }
    ensures left { out.new ≡ overlaid out.old at (numbers_of order N T.bits xs.now) }
{
    if !crate::room(out.len(), at, N, xs.len()) {
        return false;
    }
    let end = at + xs.len() * N;
    fill_run(order, xs, &mut out[at..end]);
    true
}
