// The kinds whose body is a number or two: SIQP, SR__, BW__, GCBW, BWOF, CF__, SOFH.
ghost use Rattle.std.specs.Prelude.{◌≡◌};
ghost use Rattle.num.specs.Answer.{gives};
ghost use Rattle.num.specs.Number.{unsigned_at};
ghost use Rattle.body.specs.Check.{sized};
ghost use Rattle.body.specs.Fault.{read_said};
ghost use Rattle.body.specs.Numbers.{siqp, sofh, at_least, sr, bw, cf, bwof};

use crate::faults::Fault;
use num::{Number, Order};

// A bandwidth and its offset from the centre frequency, in µHz.
#[derive(Clone, Copy, PartialEq, Eq)]
pub struct Band {
    pub width: i64,
    pub offset: i64,
}

// The number of a body that is one number and no more.
pub(crate) fn alone<const N: usize, T: Number<N>>(order: Order, body: &[u8]) -> Result<T, Fault>
    ensures { read_said result ≡ sized N body.now (gives (T.of_bits (unsigned_at N order body.now 0))) }
{
    if body.len() != N {
        return Err(Fault::Size);
    }
    Ok(T::at(order, body, 0))
}

// Reads a SIQP body: 1 for I before Q, 0 for Q before I. Malformed: 11 unless it has four bytes, 12 any other number.
pub fn siqp(order: Order, body: &[u8]) -> Result<i64, Fault>
    ensures { read_said result ≡ siqp order body.now }
{
    let v: i32 = alone(order, body)?;
    if !(0..=1).contains(&v) {
        return Err(Fault::Value);
    }
    Ok(i64::from(v))
}

// Reads a SOFH body, the format of a file. Malformed: 11 unless it has four bytes.
pub fn sofh(order: Order, body: &[u8]) -> Result<i64, Fault>
    ensures { read_said result ≡ sofh order body.now }
{
    let v: i32 = alone(order, body)?;
    Ok(i64::from(v))
}

// What `sr` and `bw` share. They stay, by their names in docs/CALLS.md: callers name a kind, and not its least number.
fn at_least(order: Order, body: &[u8], least: i64) -> Result<i64, Fault>
    ensures { read_said result ≡ at_least least order body.now }
{
    let v: i64 = alone(order, body)?;
    if v < least {
        return Err(Fault::Value);
    }
    Ok(v)
}

// Reads an SR__ body, the sample rate in µHz. Malformed: 11 unless it has eight bytes, 12 where the rate is below 1.
pub fn sr(order: Order, body: &[u8]) -> Result<i64, Fault>
    ensures { read_said result ≡ sr order body.now }
{
    at_least(order, body, 1)
}

// Reads a BW__ or GCBW body, a bandwidth in µHz. Malformed: 11 unless it has eight bytes, 12 where the number is
// negative.
pub fn bw(order: Order, body: &[u8]) -> Result<i64, Fault>
    ensures { read_said result ≡ bw order body.now }
{
    at_least(order, body, 0)
}

// Reads a CF__ body, the centre frequency in µHz. Malformed: 11 unless it has eight bytes.
pub fn cf(order: Order, body: &[u8]) -> Result<i64, Fault>
    ensures { read_said result ≡ cf order body.now }
{
    alone(order, body)
}

// Reads a BWOF body, a bandwidth and its offset. Malformed: 11 unless it has sixteen bytes, 12 where the bandwidth is
// negative.
pub fn bwof(order: Order, body: &[u8]) -> Result<Band, Fault>
    ensures { read_said result ≡ bwof order body.now }
{
    if body.len() != 16 {
        return Err(Fault::Size);
    }
    let width = i64::at(order, body, 0);
    let offset = i64::at(order, body, 8);
    if width < 0 {
        return Err(Fault::Value);
    }
    Ok(Band { width, offset })
}
