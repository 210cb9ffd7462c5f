// Numbers of 2, 4 and 8 bytes, out of bytes and into bytes.
ghost use Rattle.std.specs.Prelude.{◌≡◌, ◌<◌, ◌≤◌, ℕ};
ghost use Rattle.std.specs.Int.{w16, w32, w64};
ghost use Rattle.std.proofs.Common.{rules, to_z, of_z};
ghost use Rattle.num.specs.Number.{signed, unsigned, unsigned_at, bytes_of};

use crate::Order;

// A number of N bytes.
pub trait Number<const N: usize>: Copy {
    // The number that has some bits. They are those of two's complement, taken for an unsigned number.
    ghost of_bits: { ℕ → Self };

    // The bits of a number.
    ghost bits: { Self → ℕ };

    // The number that N bytes stand for, in an order. Each impl writes the clause again: the check does not hand it on
    // to a method that takes an array of N.
    fn of(order: Order, bytes: [u8; N]) -> Self
        ensures { result ≡ of_bits (unsigned order bytes.entry) };

    // The N bytes of a number, which is turned to the order as a whole: so a compiler makes one store of them.
    fn bytes(self, order: Order) -> [u8; N]
        ensures { result ≡ bytes_of order N (bits self) };

    // There is a byte, and an array of them is no larger than memory.
    ghost sized: { (0 < N) × (N ≤ 8) };

    // The number of N bytes at a place of s; 0 where fewer bytes are left there. What is tested is the length, so that
    // a loop makes one comparison each turn: `get(place..)` makes two.
    #[tactic(auto, using(crate::proofs::Laws::unsigned_zeros))]
    final fn at(order: Order, s: &[u8], place: usize) -> Self
        ensures { result ≡ of_bits (unsigned_at N order s.now place) }
    {
        if s.len() < N || s.len() - N < place {
            return Self::of(order, [0; N]);
        }
        Self::of(order, *s[place..place + N].first_chunk().unwrap())
    }
}

// The impls below are alike: std gives `from_be_bytes` and `to_be` to each type alone, in no trait.
impl Number<2> for u16 {
    ghost of_bits = { λ n. n };

    ghost bits = { λ n. n };

    fn of(order: Order, bytes: [u8; 2]) -> u16
        ensures { result ≡ unsigned order bytes }
    {
        match order {
            Order::Big => u16::from_be_bytes(bytes),
            Order::Little => u16::from_le_bytes(bytes),
        }
    }

    fn bytes(self, order: Order) -> [u8; 2] {
        let turned = match order {
            Order::Big => u16::to_be(self),
            Order::Little => u16::to_le(self),
        };
        turned.to_ne_bytes()
    }

    ghost sized = { Prim.search rules };
}

impl Number<4> for u32 {
    ghost of_bits = { λ n. n };

    ghost bits = { λ n. n };

    fn of(order: Order, bytes: [u8; 4]) -> u32
        ensures { result ≡ unsigned order bytes }
    {
        match order {
            Order::Big => u32::from_be_bytes(bytes),
            Order::Little => u32::from_le_bytes(bytes),
        }
    }

    fn bytes(self, order: Order) -> [u8; 4] {
        let turned = match order {
            Order::Big => u32::to_be(self),
            Order::Little => u32::to_le(self),
        };
        turned.to_ne_bytes()
    }

    ghost sized = { Prim.search rules };
}

impl Number<8> for u64 {
    ghost of_bits = { λ n. n };

    ghost bits = { λ n. n };

    fn of(order: Order, bytes: [u8; 8]) -> u64
        ensures { result ≡ unsigned order bytes }
    {
        match order {
            Order::Big => u64::from_be_bytes(bytes),
            Order::Little => u64::from_le_bytes(bytes),
        }
    }

    fn bytes(self, order: Order) -> [u8; 8] {
        let turned = match order {
            Order::Big => u64::to_be(self),
            Order::Little => u64::to_le(self),
        };
        turned.to_ne_bytes()
    }

    ghost sized = { Prim.search rules };
}

impl Number<2> for i16 {
    ghost of_bits = { to_z w16 };

    ghost bits = { of_z w16 };

    fn of(order: Order, bytes: [u8; 2]) -> i16
        ensures { result ≡ signed w16 order bytes }
    {
        crate::signed16(u16::of(order, bytes))
    }

    fn bytes(self, order: Order) -> [u8; 2] {
        crate::pattern16(self).bytes(order)
    }

    ghost sized = { Prim.search rules };
}

impl Number<4> for i32 {
    ghost of_bits = { to_z w32 };

    ghost bits = { of_z w32 };

    fn of(order: Order, bytes: [u8; 4]) -> i32
        ensures { result ≡ signed w32 order bytes }
    {
        crate::signed32(u32::of(order, bytes))
    }

    fn bytes(self, order: Order) -> [u8; 4] {
        crate::pattern32(self).bytes(order)
    }

    ghost sized = { Prim.search rules };
}

impl Number<8> for i64 {
    ghost of_bits = { to_z w64 };

    ghost bits = { of_z w64 };

    fn of(order: Order, bytes: [u8; 8]) -> i64
        ensures { result ≡ signed w64 order bytes }
    {
        crate::signed64(u64::of(order, bytes))
    }

    fn bytes(self, order: Order) -> [u8; 8] {
        crate::pattern64(self).bytes(order)
    }

    ghost sized = { Prim.search rules };
}
