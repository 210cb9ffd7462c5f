// The group kinds: GIQP, GCF_, GRG_, each a count n of channels and n values.
ghost use Rattle.std.specs.Prelude.{◌≡◌, ℕ, true, ◌≤◌, ◌<◌, pos, nat_abs, IfOk, IfErr};
ghost use Rattle.std.specs.Float.{binary32};
ghost use Rattle.std.specs.Float.Ieee.{of_bits};
ghost use Rattle.std.specs.Int.{w32};
ghost use Rattle.std.proofs.Common.{to_z};
ghost use Rattle.num.specs.Answer.{gives, refuses};
ghost use Rattle.body.specs.Fault.{fault_number, read_said};
ghost use Rattle.body.specs.Levels.{is_finite};
ghost use Rattle.body.specs.Lists.{sixteen};
ghost use Rattle.body.specs.Groups.{packing_head, no_packing, no_hertz, no_gains, listed, offset_at, hertz_at, gain_at, offsets_ok, gains_ok, head_ok, packed, tuned, amplified, giqp, gcf, grg};

use crate::faults::Fault;
use crate::levels::is_finite_pattern;
use num::{Number, Order};

// The bytes of a GIQP before its offsets: n, packing and increment.
pub const PACKING_HEAD: usize = 12;

// The three types below keep their open fields, n of 0 for an absent value and the unused places: a state is a plain
// value, which a caller may give as no chunks leave it, and number 3 refuses it (crates/trials/src/states.rt).
// GroupHertz and GroupGains are two types, since docs/CALLS.md and specs/Table.antt name each.

// GIQP: how the pairs of a group chunk are packed. n is the number of channels, 0 where the value is absent; iq says
// whether I stands before Q; increment is the step from one sample of a channel to its next, in pairs; offsets has the
// first pair of each channel, and 0 in the places from n on.
#[derive(Clone, Copy)]
pub struct GroupPacking {
    pub n: usize,
    pub iq: bool,
    pub increment: u32,
    pub offsets: [u32; 16],
}

// GCF_: a frequency for each of n channels, in µHz. n is 0 where the value is absent; the places from n on hold 0.
#[derive(Clone, Copy)]
pub struct GroupHertz {
    pub n: usize,
    pub values: [i64; 16],
}

// GRG_: a gain for each of n channels, in dB. n is 0 where the value is absent; the places from n on hold 0.
#[derive(Clone, Copy)]
pub struct GroupGains {
    pub n: usize,
    pub values: [f32; 16],
}

// The next three calls differ in their types alone. They stay three, since docs/CALLS.md lists each by its name.

// An absent GIQP.
pub fn no_packing() -> GroupPacking
    ensures { result ≡ no_packing }
{
    GroupPacking {
        n: 0,
        iq: false,
        increment: 0,
        offsets: [0; 16],
    }
}

// An absent GCF_.
pub fn no_hertz() -> GroupHertz
    ensures { result ≡ no_hertz }
{
    GroupHertz {
        n: 0,
        values: [0; 16],
    }
}

// An absent GRG_.
pub fn no_gains() -> GroupGains
    ensures { result ≡ no_gains }
{
    GroupGains {
        n: 0,
        values: [0.0; 16],
    }
}

// A count of channels, 1 to 16.
#[derive(Clone, Copy)]
struct Channels {
    n: usize,
    ghost counted: { (1 ≤ n) × (n ≤ 16) },
}

// The channels of a body, where head bytes stand before the values and a value takes so many.
#[tactic(auto, using(crate::proofs::GroupLaws::counted))]
fn count(order: Order, body: &[u8], head: usize, value: usize) -> Result<Channels, Fault>
    requires { (4 ≤ head) × (head ≤ packing_head) × (value ≤ 8) }
    ensures ok { IfOk result (λ c. gives c.n ≡ listed head value order body.now gives) }
    ensures err { IfErr result (λ f. refuses (fault_number f) ≡ listed head value order body.now gives) }
{
    if body.len() < head {
        return Err(Fault::Size);
    }
    let n = u32::at(order, body, 0) as usize;
    if n < 1 || 16 < n {
        return Err(Fault::Count);
    }
    if body.len() != head + value * n {
        return Err(Fault::Size);
    }
    Ok(Channels { n })
}

impl Channels {
    // Sixteen places: a value for each channel, and `absent` in the others.
    fn sixteen<T: Copy, F: Fn(usize) -> T>(self, absent: T, value: F) -> [T; 16]
        requires { (c : ℕ) → c < self.n → F.pre value c }
        ensures { (f : ℕ → T) → ((c : ℕ) (v : T) → c < self.n → F.post value c v → v ≡ f c)
            → result ≡ sixteen f absent self.n }
    {
        let mut a = [absent; 16];
        // There are n values to ask for, and `std::array::from_fn` would ask for sixteen.
        for c in 0..self.n {
            a[c] = value(c);
        }
        a
    }

    // Whether packing and increment are allowed.
    fn good_head(self, packing: u32, increment: u32) -> bool
        ensures { result ≡ head_ok self.n (to_z w32 packing) (to_z w32 increment) }
    {
        ((packing == 0) | (packing == 1)) & ((increment == 1) | (increment as usize == self.n))
    }

    // Whether no offset is negative.
    fn good_offsets(self, order: Order, body: &[u8]) -> bool
        ensures { result ≡ offsets_ok order body.now self.n }
    {
        (0..self.n).all(|c| i32::at(order, body, PACKING_HEAD + 4 * c) >= 0)
    }

    // The offsets, none of which is negative.
    fn offsets(self, order: Order, body: &[u8]) -> [u32; 16]
        requires { offsets_ok order body.now self.n ≡ true }
        ensures { result ≡ sixteen (λ c. nat_abs (offset_at order body.now c)) 0 self.n }
    {
        self.sixteen(0, |c| u32::at(order, body, PACKING_HEAD + 4 * c))
    }

    fn hertz(self, order: Order, body: &[u8]) -> [i64; 16]
        ensures { result ≡ sixteen (hertz_at order body.now) (pos 0) self.n }
    {
        self.sixteen(0, |c| i64::at(order, body, 4 + 8 * c))
    }

    // Whether each gain is finite, which its pattern tells.
    fn good_gains(self, order: Order, body: &[u8]) -> bool
        ensures { result ≡ gains_ok order body.now self.n }
    {
        (0..self.n).all(|c| is_finite_pattern(u32::at(order, body, 4 + 4 * c)))
    }

    // The gains, each of which is finite.
    fn gains(self, order: Order, body: &[u8]) -> [f32; 16]
        requires { gains_ok order body.now self.n ≡ true }
        ensures { result ≡ sixteen (gain_at order body.now) (of_bits binary32 0) self.n }
    {
        self.sixteen(
            0.0,
            |c|
                requires { (c < 16) × (is_finite (gain_at order body.now c) ≡ true) }
            { f32::from_bits(u32::at(order, body, 4 + 4 * c)) },
        )
    }

    // The packing of a body that has the size for these channels.
    #[tactic(auto, using(crate::proofs::GroupLaws::packing))]
    fn packed(self, order: Order, body: &[u8]) -> Result<GroupPacking, Fault>
        ensures { read_said result ≡ packed order body.now self.n }
    {
        let packing = u32::at(order, body, 4);
        let increment = u32::at(order, body, 8);
        if !self.good_head(packing, increment) || !self.good_offsets(order, body) {
            return Err(Fault::Value);
        }
        Ok(GroupPacking {
            n: self.n,
            iq: packing == 1,
            increment,
            offsets: self.offsets(order, body),
        })
    }

    // Its frequencies.
    #[tactic(auto, unfolding(crate::specs::Groups::tuned))]
    fn tuned(self, order: Order, body: &[u8]) -> GroupHertz
        ensures { gives result ≡ tuned order body.now self.n }
    {
        GroupHertz {
            n: self.n,
            values: self.hertz(order, body),
        }
    }

    // Its gains.
    #[tactic(auto, unfolding(crate::specs::Groups::amplified))]
    fn amplified(self, order: Order, body: &[u8]) -> Result<GroupGains, Fault>
        ensures { read_said result ≡ amplified order body.now self.n }
    {
        if !self.good_gains(order, body) {
            return Err(Fault::Value);
        }
        Ok(GroupGains {
            n: self.n,
            values: self.gains(order, body),
        })
    }
}

// Reads a GIQP body. Malformed: 11 a wrong size, 13 not 1 to 16 channels, 12 a packing, increment or offset that is not
// allowed.
#[tactic(auto, using(crate::proofs::GroupLaws::counts_first))]
pub fn giqp(order: Order, body: &[u8]) -> Result<GroupPacking, Fault>
    ensures { read_said result ≡ giqp order body.now }
{
    count(order, body, PACKING_HEAD, 4)?.packed(order, body)
}

// Reads a GCF_ body, a frequency for each channel. Malformed: 11 a wrong size, 13 not 1 to 16 channels.
#[tactic(auto, using(crate::proofs::GroupLaws::counts_first))]
pub fn gcf(order: Order, body: &[u8]) -> Result<GroupHertz, Fault>
    ensures { read_said result ≡ gcf order body.now }
{
    Ok(count(order, body, 4, 8)?.tuned(order, body))
}

// Reads a GRG_ body, a gain for each channel. Malformed: 11 a wrong size, 13 not 1 to 16 channels, 12 a gain that is
// not finite.
#[tactic(auto, using(crate::proofs::GroupLaws::counts_first))]
pub fn grg(order: Order, body: &[u8]) -> Result<GroupGains, Fault>
    ensures { read_said result ≡ grg order body.now }
{
    count(order, body, 4, 4)?.amplified(order, body)
}
