// Which states are good: every present value is one that the body table allows, 0 stands where there is none, and the
// sums agree with their parts.
ghost use Rattle.std.specs.Prelude.{◌≡◌, ◌^◌, ◌≤◌, not, eqb, ltb};
ghost use Rattle.std.specs.Int.Signed.{le_z};
ghost use Rattle.std.specs.Float.{binary32};
ghost use Rattle.std.specs.Float.Ieee.{to_bits, is_nan};
ghost use Rattle.num.specs.Choice.{pick, both};
ghost use Rattle.body.specs.Levels.{is_finite};
ghost use Rattle.state.specs.Good.{is_zero, is_plus_zero, is_offset, is_no_offset, good_from, good_band, good_head, good_held};
ghost use Rattle.state.specs.Sums.{agree};
ghost use Rattle.state.specs.GoodParts.{good_values, good_lists, good_hertz};

use crate::sums::channels;
use crate::{GainSums, Values};
use body::{BandHeld, GroupGains, GroupHertz, GroupPacking, Held, LevelHeld};

// The zero whose pattern is 0.
fn plus_zero(x: f32) -> bool
    ensures { result ≡ is_plus_zero x }
{
    x == 0.0 && x.to_bits() == 0
}

// a where the test holds, b where it does not. Both are worked out before: around an `if` in their place the compiler
// keeps branches, good_values gets too long to be inlined, and a step runs 15 of 100 instructions more.
pub(crate) fn pick<T: Copy>(test: bool, a: T, b: T) -> T
    ensures { result ≡ pick test a b }
{
    if test { a } else { b }
}

// Present, the number is allowed; absent, it is 0.
fn good_number<F: Fn(i64) -> bool>(h: Held, allowed: F) -> bool
    requires { F.IsAlwaysCallable allowed }
    ensures { (ok : _) × F.post allowed h.value ok × (result ≡ pick h.present ok (is_zero h.value)) }
{
    pick(h.present, allowed(h.value), h.value == 0)
}

// Present, the level is allowed; absent, it is the zero whose pattern is 0. Apart from `good_number`, whose absent
// value is tested in another way: specs/Good.antt has a definition of each.
fn good_level<F: Fn(f32) -> bool>(x: LevelHeld, allowed: F) -> bool
    requires { F.IsAlwaysCallable allowed }
    ensures { (ok : _) × F.post allowed x.value ok × (result ≡ pick x.present ok (is_plus_zero x.value)) }
{
    pick(x.present, allowed(x.value), plus_zero(x.value))
}

// Present, the width is at least 0 and the offset any number.
fn good_band(b: BandHeld) -> bool
    ensures { result ≡ good_band b }
{
    pick(b.present, 0 <= b.width, (b.width == 0) & (b.offset == 0))
}

// Whether the places of a list that are not 0 are among its first n, where `filled` is the sum of their powers of two.
// A list has 16 places.
fn within(filled: u32, n: usize) -> bool
    ensures { result ≡ ltb filled (2 ^ pick (ltb n 16) n 16) }
{
    filled < 1 << n.min(16)
}

// Whether two floats have one pattern. `==` does not tell 0 from -0, and a NaN has no pattern of its own.
fn same(x: f32, y: f32) -> bool
    ensures { result ≡ both (not (is_nan y)) (eqb (to_bits binary32 x) (to_bits binary32 y)) }
{
    x == y && x.to_bits() == y.to_bits()
}

// Whether the places of the offsets hold what they may: the first n are used, with an offset that fits an int32, and
// the others hold 0. `filled` has the powers of two of the places that hold something else, added. The loop has no
// early way out and compares no place with n, so that the compiler tests several places at a time.
// The gains and the frequencies have the like: one function for the three would be handed two closures, which is all
// that they say, and the frequencies have no first test.
fn good_offsets(group: &GroupPacking) -> bool
    ensures { result ≡ good_from is_offset is_no_offset group.now.n 0 group.now.offsets }
{
    let mut small = true;
    let mut filled = 0u32;
    for (i, x) in group.offsets.iter().enumerate() {
        small = small & (*x < 0x8000_0000);
        filled += pick(*x != 0, 1 << i, 0);
    }
    small & within(filled, group.n)
}

// The same of the gains, which are finite. The loop is one of its own: the compiler puts a fence around each comparison
// of floats, so that it tests them one by one, and would test the offsets so too.
fn good_gains(gains: &GroupGains) -> bool
    ensures { result ≡ good_from is_finite is_plus_zero gains.now.n 0 gains.now.values }
{
    let mut bounded = true;
    let mut filled = 0u32;
    for (i, x) in gains.values.iter().enumerate() {
        bounded = bounded & x.is_finite();
        filled += pick(!plus_zero(*x), 1 << i, 0);
    }
    bounded & within(filled, gains.n)
}

// Whether the sums agree with their parts: a flagged channel holds its sum, in every bit, and any other holds 0. The
// flagged ones are those that have both parts and a finite sum: `marked` has the powers of the flagged channels,
// `finites` has those of the finite sums, and the remainder leaves the channels with both parts.
fn agree(total: LevelHeld, gains: &GroupGains, sums: &GainSums) -> bool
    ensures { result ≡ agree total gains.now sums.now }
{
    let mut alike = true;
    let mut marked = 0u32;
    let mut finites = 0u32;
    // By index: three lists are read and i is a power as well, so a chain of `zip` and `enumerate` would be no plainer.
    for i in 0..16 {
        let there = sums.present[i];
        let sum = total.value + gains.values[i];
        alike = alike & same(sums.values[i], pick(there, sum, 0.0));
        marked += pick(there, 1 << i, 0);
        finites += pick(sum.is_finite(), 1 << i, 0);
    }
    alike & (marked == finites % (1 << channels(total, gains)))
}

// The second part of the test behind number 3: whether the places of the offsets and of the gains hold what they may,
// and whether the sums agree with their parts.
// It is inlined by command: the compiler calls it otherwise, copies its lists for the call, and a step takes a fifth
// longer.
#[tactic(auto, unfolding(crate::specs::GoodParts::good_lists))]
#[inline(always)]
pub fn good_lists(group: GroupPacking, gains: GroupGains, total: LevelHeld, sums: GainSums) -> bool
    ensures { result ≡ good_lists group gains total sums }
{
    good_offsets(&group) & good_gains(&gains) & agree(total, &gains, &sums)
}

// The third part: whether the places of the frequencies hold what they may, which is any number in a place that is
// used. Their loop is another one, since it tests wider numbers.
pub fn good_frequencies(frequencies: GroupHertz) -> bool
    ensures { result ≡ good_hertz frequencies }
{
    let mut filled = 0u32;
    for (i, y) in frequencies.values.iter().enumerate() {
        filled += pick(*y != 0, 1 << i, 0);
    }
    within(filled, frequencies.n)
}

// With no channels there is no packing and no increment; otherwise the increment is 1 or n.
fn good_head(g: GroupPacking) -> bool
    ensures { result ≡ good_head g }
{
    pick(
        g.n == 0,
        (g.increment == 0) & !g.iq,
        (g.increment == 1) | (g.increment as usize == g.n),
    )
}

impl Values {
    // The first part of the test behind number 3: whether a state may hold the values that are no lists, the head of
    // the group packing and the counts of the lists.
    pub fn good_values(self) -> bool
        ensures { result ≡ good_values self }
    {
        let group = self.group;
        good_number(self.packing, |x| (0..=1).contains(&x))
            & good_number(self.rate, |x| 1 <= x)
            & good_band(self.band)
            & good_number(self.group_band, |x| 0 <= x)
            & good_number(self.centre, |_| true)
            & good_level(self.full_scale, |x| x.is_finite())
            & good_level(self.total_gain, |x| x.is_finite())
            & good_level(self.float_scale, |x| x.is_finite() & (0.0 < x))
            & good_head(group)
            & (group.n <= 16)
            & (self.frequencies.n <= 16)
            & (self.gains.n <= 16)
    }

    // Whether a state may hold these values, which is the test behind number 3. It is asked in three calls, and each
    // list is a variable of its own, so that the compiler inlines the calls and copies no list.
    #[inline(always)]
    pub fn is_good(self) -> bool
        ensures { result ≡ good_held self }
    {
        let group = self.group;
        let gains = self.gains;
        let sums = self.sums;
        let frequencies = self.frequencies;
        self.good_values()
            & good_lists(group, gains, self.total_gain, sums)
            & good_frequencies(frequencies)
    }
}
