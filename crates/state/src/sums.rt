// The total gain of each group channel: dBTG and the channel's gain, added.
ghost use Rattle.std.specs.Prelude.{◌≡◌, ◌≤◌, ltb};
ghost use Rattle.num.specs.Choice.{pick};
ghost use Rattle.state.specs.Sums.{both_parts, sums_of, no_sums};

use crate::good::pick;
use body::{GroupGains, LevelHeld};

// For each of 16 channels the sum of dBTG and the channel's gain, in dB: one addition, rounded once. It is present
// where both parts are and the sum is finite; an absent one is 0.
// A flag and a value for each channel, and no Option: a step has to refuse, with number 3, a state in which an absent
// sum is not 0, and crates/trials gives it such states.
#[derive(Clone, Copy)]
pub struct GainSums {
    pub present: [bool; 16],
    pub values: [f32; 16],
}

// No sum is present.
pub fn no_sums() -> GainSums
    ensures { result ≡ no_sums }
{
    GainSums {
        present: [false; 16],
        values: [0.0; 16],
    }
}

// How many channels have both parts, or 16 where that is more.
pub(crate) fn channels(total: LevelHeld, gains: &GroupGains) -> usize
    ensures count { result ≡ pick (ltb (both_parts total gains.now) 16) (both_parts total gains.now) 16 }
    ensures few { result ≤ 16 }
{
    if total.present { gains.n.min(16) } else { 0 }
}

// The sums from dBTG and the gains.
pub(crate) fn sums_of(total: LevelHeld, gains: GroupGains) -> GainSums
    ensures { result ≡ sums_of total gains }
{
    let mut present = [false; 16];
    let mut values = [0.0f32; 16];
    let n = channels(total, &gains);
    // By index: two lists are filled from a third, so a chain of `zip` and `take` would be no plainer.
    for i in 0..n {
        let sum = total.value + gains.values[i];
        let there = sum.is_finite();
        present[i] = there;
        values[i] = pick(there, sum, 0.0);
    }
    GainSums { present, values }
}
