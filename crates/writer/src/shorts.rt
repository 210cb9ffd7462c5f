// The data kinds of 16-bit numbers, written from a time and numbers as they stand in the chunk.
// Each kind has a call of its own, by the type of its numbers: one call for every kind would have to refuse numbers of
// 16 bits for a kind of floats, which no number of refusal says.
ghost use Rattle.std.specs.Prelude.{◌≡◌, length};
ghost use Rattle.body.specs.Kind.{code_of};
ghost use Rattle.body.specs.declared.kinds.Kind.TheVariants as K;
ghost use Rattle.writer.specs.Data.{short_body};
ghost use Rattle.writer.specs.Write.{write_of, written_out, written_said};

use crate::Unwritten;
use num::Order;

// Writes an SSNC record from a time in nanoseconds and pairs, I and Q as the stream's SIQP says. Refused as `write` is:
// an odd count of numbers with 32.
#[tactic(auto, using(crate::proofs::Bodies::sized_kinds))]
pub fn ssnc(
    order: Order,
    time: i64,
    samples: &[i16],
    out: &mut [u8],
    place: usize,
) -> Result<usize, Unwritten>
    ensures said { written_said result
        ≡ write_of order (code_of K.SSNC) (short_body order time samples.now)
        (length out.old) place }
    ensures left { out.new
        ≡ written_out order (code_of K.SSNC) (short_body order time samples.now) out.old place }
{
    crate::data::write(order, body::kinds::SSNC, 4, time, samples, out, place)
}

// The same of an SSNR record: reals.
#[tactic(auto, using(crate::proofs::Bodies::sized_kinds))]
pub fn ssnr(
    order: Order,
    time: i64,
    samples: &[i16],
    out: &mut [u8],
    place: usize,
) -> Result<usize, Unwritten>
    ensures said { written_said result
        ≡ write_of order (code_of K.SSNR) (short_body order time samples.now)
        (length out.old) place }
    ensures left { out.new
        ≡ written_out order (code_of K.SSNR) (short_body order time samples.now) out.old place }
{
    crate::data::write(order, body::kinds::SSNR, 2, time, samples, out, place)
}

// The same of a GSNC record: the pairs of a group, placed as the stream's GIQP says.
#[tactic(auto, using(crate::proofs::Bodies::sized_kinds))]
pub fn gsnc(
    order: Order,
    time: i64,
    samples: &[i16],
    out: &mut [u8],
    place: usize,
) -> Result<usize, Unwritten>
    ensures said { written_said result
        ≡ write_of order (code_of K.GSNC) (short_body order time samples.now)
        (length out.old) place }
    ensures left { out.new
        ≡ written_out order (code_of K.GSNC) (short_body order time samples.now) out.old place }
{
    crate::data::write(order, body::kinds::GSNC, 4, time, samples, out, place)
}
