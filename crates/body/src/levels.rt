// The level kinds: dBFS, dBTG, FFS_.
ghost use Rattle.std.specs.Prelude.{◌≡◌};
ghost use Rattle.std.specs.Float.{binary32};
ghost use Rattle.std.specs.Float.Ieee.{of_bits, to_bits};
ghost use Rattle.body.specs.Fault.{read_said};
ghost use Rattle.body.specs.Levels.{is_finite, finite32, dbfs, dbtg, ffs};

use crate::faults::Fault;
use crate::numbers::alone;
use num::Order;

// A level is one of three kinds, each with a finite number.
#[derive(Clone, Copy)]
pub enum Level {
    // The input level, in dBm, of a full swing.
    FullScale(f32),
    // The gain, in dB, from the receiver's input.
    TotalGain(f32),
    // The full swing of float samples.
    FloatFullScale(f32),
}

// The 32 bits of a float. Every NaN gives 7FC00000, which no level allows.
#[tactic(auto, using(crate::proofs::Nans::patterns))]
pub fn pattern(x: f32) -> u32
    ensures { result ≡ to_bits binary32 x }
{
    if x.is_nan() { 0x7FC0_0000 } else { x.to_bits() }
}

// Whether a pattern is of a finite float: with its sign taken off, it is below an infinity's.
#[tactic(auto, using(crate::proofs::Floats::finite_patterns))]
// By its bits, since `f32::from_bits` requires that there is no NaN.
pub(crate) fn is_finite_pattern(p: u32) -> bool
    ensures { result ≡ is_finite (of_bits binary32 p) }
{
    p % 0x8000_0000 < 0x7F80_0000
}

// The number of a body that is one finite float.
#[tactic(auto, using(crate::proofs::Floats::finite_patterns))]
fn finite(order: Order, body: &[u8]) -> Result<f32, Fault>
    ensures { read_said result ≡ finite32 order body.now }
{
    let p: u32 = alone(order, body)?;
    if !is_finite_pattern(p) {
        return Err(Fault::Value);
    }
    Ok(f32::from_bits(p))
}

// The next two calls differ in the level that they give. They stay two, since docs/CALLS.md lists each by its name.

// Reads a dBFS body. Malformed: 11 unless it has four bytes, 12 unless they are a finite float.
pub fn dbfs(order: Order, body: &[u8]) -> Result<Level, Fault>
    ensures { read_said result ≡ dbfs order body.now }
{
    Ok(Level::FullScale(finite(order, body)?))
}

// Reads a dBTG body. Malformed as dBFS.
pub fn dbtg(order: Order, body: &[u8]) -> Result<Level, Fault>
    ensures { read_said result ≡ dbtg order body.now }
{
    Ok(Level::TotalGain(finite(order, body)?))
}

// Reads an FFS_ body. Malformed as dBFS, and with 12 also where the float is not above 0.
pub fn ffs(order: Order, body: &[u8]) -> Result<Level, Fault>
    ensures { read_said result ≡ ffs order body.now }
{
    let x = finite(order, body)?;
    if 0.0 < x {
        Ok(Level::FloatFullScale(x))
    } else {
        Err(Fault::Value)
    }
}
