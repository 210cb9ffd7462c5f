// The data kinds: a time, then samples.
ghost use Rattle.std.specs.Prelude.{◌≡◌, ◌≤◌};
ghost use Rattle.body.specs.Fault.{read_said};
ghost use Rattle.body.specs.Samples.{timed_samples, ssnc, ssnr, sfnc, sfnr, gsnc, gfnc};
ghost use Rattle.body.specs.Table.{shaped};

use crate::faults::Fault;
use crate::kinds::Kind;
use num::{Number, Order};

// What the samples of a data kind are: 16-bit numbers or floats; pairs, reals, or the pairs of a group.
#[derive(Clone, Copy, PartialEq, Eq)]
pub enum Shape {
    ShortPairs,
    ShortReals,
    ShortGroup,
    FloatPairs,
    FloatReals,
    FloatGroup,
}

// The time of the first sample, in nanoseconds since 1970, and how many samples follow: pairs, or reals.
#[derive(Clone, Copy, PartialEq, Eq)]
pub struct Data {
    pub time: i64,
    pub samples: usize,
}

// What the six calls below share. They stay, one for each kind, since callers name a body's kind and not the bytes of
// its samples.
fn timed_samples(order: Order, body: &[u8], width: usize) -> Result<Data, Fault>
    requires { 1 ≤ width }
    ensures { read_said result ≡ timed_samples width order body.now }
{
    if body.len() < 8 {
        return Err(Fault::Size);
    }
    let rest = body.len() - 8;
    if rest % width != 0 {
        return Err(Fault::Size);
    }
    let time = i64::at(order, body, 0);
    Ok(Data {
        time,
        samples: rest / width,
    })
}

// Reads an SSNC body: a time, then pairs of 16-bit numbers. Malformed: 11 unless it has a time and whole samples.
pub fn ssnc(order: Order, body: &[u8]) -> Result<Data, Fault>
    ensures { read_said result ≡ ssnc order body.now }
{
    timed_samples(order, body, 4)
}

// Reads an SSNR body: a time, then 16-bit reals. Malformed as SSNC.
pub fn ssnr(order: Order, body: &[u8]) -> Result<Data, Fault>
    ensures { read_said result ≡ ssnr order body.now }
{
    timed_samples(order, body, 2)
}

// Reads an SFNC body: a time, then pairs of floats. Malformed as SSNC.
pub fn sfnc(order: Order, body: &[u8]) -> Result<Data, Fault>
    ensures { read_said result ≡ sfnc order body.now }
{
    timed_samples(order, body, 8)
}

// Reads an SFNR body: a time, then real floats. Malformed as SSNC.
pub fn sfnr(order: Order, body: &[u8]) -> Result<Data, Fault>
    ensures { read_said result ≡ sfnr order body.now }
{
    timed_samples(order, body, 4)
}

// Reads a GSNC body: a time, then pairs of 16-bit numbers of a group. Malformed as SSNC.
pub fn gsnc(order: Order, body: &[u8]) -> Result<Data, Fault>
    ensures { read_said result ≡ gsnc order body.now }
{
    timed_samples(order, body, 4)
}

// Reads a GFNC body: a time, then pairs of floats of a group. Malformed as SSNC.
pub fn gfnc(order: Order, body: &[u8]) -> Result<Data, Fault>
    ensures { read_said result ≡ gfnc order body.now }
{
    timed_samples(order, body, 8)
}

// What the samples of a kind are; None for a kind that is no data. No `TryFrom`: that a kind is no data is no error.
#[tactic(auto, unfolding(crate::specs::Table::shaped))]
pub fn shape_of(kind: Kind) -> Option<Shape>
    ensures { result ≡ shaped kind }
{
    match kind {
        Kind::SSNC => Some(Shape::ShortPairs),
        Kind::SSNR => Some(Shape::ShortReals),
        Kind::SFNC => Some(Shape::FloatPairs),
        Kind::SFNR => Some(Shape::FloatReals),
        Kind::GSNC => Some(Shape::ShortGroup),
        Kind::GFNC => Some(Shape::FloatGroup),
        _ => None,
    }
}
