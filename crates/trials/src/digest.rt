// Digests of what the library answers, and the lines that show them.
use num::Order;
use std::io;

// Above 2^32, so that no two numbers of 32 bits fall together, and so small that 31 times it fits into 64 bits.
const PRIME: u64 = 288230376151711717;

// The digest of the numbers so far.
#[derive(Clone, Copy)]
pub(crate) struct Digest(u64);

impl Digest {
    // Of no number yet.
    pub(crate) fn new() -> Self {
        Digest(1)
    }

    // One number of 32 bits more.
    pub(crate) fn with(self, x: u64) -> Self {
        Digest((self.0 % PRIME * 31 + x % 4294967296) % PRIME)
    }

    // A number of refusal, apart from every count and place.
    pub(crate) fn refused(self, number: u64) -> Self {
        self.with(4000000000).with(number)
    }
}

// A line of a few words and a digest.
fn line(rt: &impl Print, head: &str, order: &str, digest: Digest) -> io::Result<()> {
    println!(rt; "{head} {order} {}", digest.0)
}

// A line for each order in which a stream can be read. A function that takes a closure has to say that any value may be
// given to it: all three of this crate do.
pub(crate) fn read<F: Fn(Order) -> Digest>(rt: &impl Print, head: &str, of: F) -> io::Result<()>
    requires { F.IsAlwaysCallable of }
{
    line(rt, head, "big", of(Order::Big))?;
    line(rt, head, "little", of(Order::Little))
}

// The same where a stream is read and written: in one order, and read in one and written in the other.
pub(crate) fn written<F: Fn(Order, Order) -> Digest>(
    rt: &impl Print,
    head: &str,
    of: F,
) -> io::Result<()>
    requires { F.IsAlwaysCallable of }
{
    line(rt, head, "big", of(Order::Big, Order::Big))?;
    line(rt, head, "little", of(Order::Little, Order::Little))?;
    line(rt, head, "turned", of(Order::Big, Order::Little))
}
