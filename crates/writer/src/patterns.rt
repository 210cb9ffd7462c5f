// The data kinds of float patterns, written from a time and patterns as they stand in the chunk.
// Each kind has a call of its own, by the type of its numbers: one call for every kind would have to refuse numbers of
// 16 bits for a kind of floats, which no number of refusal says.
ghost use Rattle.std.specs.Prelude.{◌≡◌, length};
ghost use Rattle.body.specs.Kind.{code_of};
ghost use Rattle.body.specs.declared.kinds.Kind.TheVariants as K;
ghost use Rattle.writer.specs.Data.{pattern_body};
ghost use Rattle.writer.specs.Write.{write_of, written_out, written_said};

use crate::Unwritten;
use num::Order;

// Writes an SFNC record from a time in nanoseconds and pairs of float patterns, I and Q as the stream's SIQP says.
// Refused as `write` is: an odd count of patterns with 11.
#[tactic(auto, using(crate::proofs::Bodies::sized_kinds))]
pub fn sfnc(
    order: Order,
    time: i64,
    samples: &[u32],
    out: &mut [u8],
    place: usize,
) -> Result<usize, Unwritten>
    ensures said { written_said result
        ≡ write_of order (code_of K.SFNC) (pattern_body order time samples.now)
        (length out.old) place }
    ensures left { out.new
        ≡ written_out order (code_of K.SFNC) (pattern_body order time samples.now) out.old place }
{
    crate::data::write(order, body::kinds::SFNC, 8, time, samples, out, place)
}

// The same of an SFNR record: reals, of which any count will do.
#[tactic(auto, using(crate::proofs::Bodies::sized_kinds))]
pub fn sfnr(
    order: Order,
    time: i64,
    samples: &[u32],
    out: &mut [u8],
    place: usize,
) -> Result<usize, Unwritten>
    ensures said { written_said result
        ≡ write_of order (code_of K.SFNR) (pattern_body order time samples.now)
        (length out.old) place }
    ensures left { out.new
        ≡ written_out order (code_of K.SFNR) (pattern_body order time samples.now) out.old place }
{
    crate::data::write(order, body::kinds::SFNR, 4, time, samples, out, place)
}

// The same of a GFNC record: the pairs of a group, placed as the stream's GIQP says.
#[tactic(auto, using(crate::proofs::Bodies::sized_kinds))]
pub fn gfnc(
    order: Order,
    time: i64,
    samples: &[u32],
    out: &mut [u8],
    place: usize,
) -> Result<usize, Unwritten>
    ensures said { written_said result
        ≡ write_of order (code_of K.GFNC) (pattern_body order time samples.now)
        (length out.old) place }
    ensures left { out.new
        ≡ written_out order (code_of K.GFNC) (pattern_body order time samples.now) out.old place }
{
    crate::data::write(order, body::kinds::GFNC, 8, time, samples, out, place)
}
