// The sums of the states made at will.
ghost use Rattle.std.specs.Prelude.{◌<◌};

use crate::states::{LEAST, TWICE_LEAST};
use state::GainSums;

// The sums of the k-th state: those of the full state's parts, unless the state is about sums. A table by the trial's
// number, as in states.rt: the trials are these values, so no rule makes them.
pub(crate) fn sums(k: usize) -> GainSums {
    match k {
        41 => two(21.0, 20.0),
        42 => held(false, 0.0, true, 20.0),
        43 => also(2, true, 20.0),
        44 => also(2, false, -0.0),
        45 => two(21.5, -0.0),
        47 => two(f32::INFINITY, 0.0),
        48 => two(21.5, f32::NAN),
        49 => also(15, true, 20.0),
        51 => two(21.5, 0.0),
        52 => two(1.5, -0.0),
        53 => held(false, 0.0, true, 0.0),
        54 => two(TWICE_LEAST, LEAST),
        55 | 56 => state::no_sums(),
        57 => two(16777216.0, 16777220.0),
        58 => GainSums {
            present: [true; 16],
            values: rising(20.0),
        },
        _ => two(21.5, 20.0),
    }
}

// What the first two channels hold, both present.
fn two(a: f32, b: f32) -> GainSums {
    held(true, a, true, b)
}

// The first two channels, present or not.
fn held(p: bool, a: f32, q: bool, b: f32) -> GainSums {
    let mut sums = state::no_sums();
    sums.present[0] = p;
    sums.values[0] = a;
    sums.present[1] = q;
    sums.values[1] = b;
    sums
}

// The full state's sums, and what one channel more holds.
fn also(channel: usize, present: bool, value: f32) -> GainSums
    requires { channel < 16 }
{
    let mut sums = two(21.5, 20.0);
    sums.present[channel] = present;
    sums.values[channel] = value;
    sums
}

// Sixteen numbers, each 1 more than the one before.
pub(crate) fn rising(from: f32) -> [f32; 16] {
    let mut values = [0.0f32; 16];
    let mut x = from;
    for value in &mut values {
        *value = x;
        x += 1.0;
    }
    values
}
