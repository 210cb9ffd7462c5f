// The kinds that are one whole number, each written from it.
// Each kind has a call of its own, by the size of its number: one call for every kind would have to refuse a number of
// 64 bits for a kind of 32, and a kind that is no number, which no number of refusal says.
ghost use Rattle.std.specs.Prelude.{◌≡◌, length};
ghost use Rattle.body.specs.Kind.{code_of};
ghost use Rattle.body.specs.declared.kinds.Kind.TheVariants as K;
ghost use Rattle.num.specs.Number.{bytes_of};
ghost use Rattle.lay.specs.Numbers.{int32, int64};
ghost use Rattle.writer.specs.Write.{write_of, written_out, written_said};

use num::{Number, Order};
use writer::Unwritten;

// A record of one number.
pub(crate) fn one<const N: usize, T: Number<N>>(
    order: Order,
    code: u32,
    x: T,
    out: &mut [u8],
    place: usize,
) -> Result<usize, Unwritten>
    ensures said { written_said result
        ≡ write_of order code (bytes_of order N (T.bits x)) (length out.old) place }
    ensures left { out.new ≡ written_out order code (bytes_of order N (T.bits x)) out.old place }
{
    writer::write(order, code, &x.bytes(order), out, place)
}

// Writes a SIQP record: 1 for I before Q, 0 for Q before I. Refused as `writer::write` is: any other
// number with 12.
pub fn siqp(order: Order, x: i32, out: &mut [u8], place: usize) -> Result<usize, Unwritten>
    ensures said { written_said result
        ≡ write_of order (code_of K.SIQP) (int32 order x) (length out.old) place }
    ensures left { out.new
        ≡ written_out order (code_of K.SIQP) (int32 order x) out.old place }
{
    one(order, body::kinds::SIQP, x, out, place)
}

// Writes an SR__ record, the sample rate in µHz. Refused as `writer::write` is: a rate below 1 with 12.
pub fn sr(order: Order, x: i64, out: &mut [u8], place: usize) -> Result<usize, Unwritten>
    ensures said { written_said result
        ≡ write_of order (code_of K.SR) (int64 order x) (length out.old) place }
    ensures left { out.new ≡ written_out order (code_of K.SR) (int64 order x) out.old place }
{
    one(order, body::kinds::SR, x, out, place)
}

// Writes a BW__ record, the bandwidth in µHz. Refused as `writer::write` is: a negative one with 12.
pub fn bw(order: Order, x: i64, out: &mut [u8], place: usize) -> Result<usize, Unwritten>
    ensures said { written_said result
        ≡ write_of order (code_of K.BW) (int64 order x) (length out.old) place }
    ensures left { out.new ≡ written_out order (code_of K.BW) (int64 order x) out.old place }
{
    one(order, body::kinds::BW, x, out, place)
}

// Writes a GCBW record, the bandwidth of each channel of a group in µHz. Refused as BW__.
pub fn gcbw(order: Order, x: i64, out: &mut [u8], place: usize) -> Result<usize, Unwritten>
    ensures said { written_said result
        ≡ write_of order (code_of K.GCBW) (int64 order x) (length out.old) place }
    ensures left { out.new
        ≡ written_out order (code_of K.GCBW) (int64 order x) out.old place }
{
    one(order, body::kinds::GCBW, x, out, place)
}

// Writes a CF__ record, the centre frequency in µHz. Refused with 2 or 31 alone: any number is allowed.
pub fn cf(order: Order, x: i64, out: &mut [u8], place: usize) -> Result<usize, Unwritten>
    ensures said { written_said result
        ≡ write_of order (code_of K.CF) (int64 order x) (length out.old) place }
    ensures left { out.new ≡ written_out order (code_of K.CF) (int64 order x) out.old place }
{
    one(order, body::kinds::CF, x, out, place)
}

// Writes a SOFH record, the start of a file's header, with any number. Refused with 2 or 31 alone.
pub fn sofh(order: Order, x: i32, out: &mut [u8], place: usize) -> Result<usize, Unwritten>
    ensures said { written_said result
        ≡ write_of order (code_of K.SOFH) (int32 order x) (length out.old) place }
    ensures left { out.new
        ≡ written_out order (code_of K.SOFH) (int32 order x) out.old place }
{
    one(order, body::kinds::SOFH, x, out, place)
}
